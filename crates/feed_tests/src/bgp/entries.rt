//! The routes of RIB entries.

use super::{is_encoded, joined};
use crate::{be, octets};
use bgp_update::{MessageFault, entry_route, read_attributes};
use route_model::wire::{AsWidth, Family};
use std::alloc::Global;
use std::process::Abort;

/// ORIGIN IGP and AS_PATH 65001 65002 in four octets.
const HEAD: &str = "40010100 40020A02020000FDE90000FDEA";

/// MP_REACH_NLRI in the short form, and in that of messages, of 2001:db8::1.
const SHORT: &str = "800E11 10 20010DB8000000000000000000000001";

const FULL: &str = "800E15 0002 01 10 20010DB8000000000000000000000001 00";

/// Whether an entry of the family with these attributes has the route that is encoded so.
fn gives(rt: &impl Abort, alloc: Global, family: Family, attributes: &str, route: &str) -> bool {
    let bytes = octets(rt, alloc, attributes);
    let read = read_attributes(alloc, &bytes, AsWidth::Four).expect(rt, "attributes");
    match entry_route(alloc, read, family) {
        Ok(found) => is_encoded(rt, alloc, &found, route),
        Err(_) => panic!(rt; "no route"),
    }
}

/// Whether an entry of the family with these attributes is malformed.
fn is_malformed(rt: &impl Abort, alloc: Global, family: Family, attributes: &str) -> bool {
    let bytes = octets(rt, alloc, attributes);
    let read = read_attributes(alloc, &bytes, AsWidth::Four).expect(rt, "attributes");
    match entry_route(alloc, read, family) {
        Err(fault) => fault == MessageFault::Malformed,
        Ok(_) => false,
    }
}

#[test]
fn both_forms_of_mp_reach_give_the_next_hop(rt: HostRuntime) {
    for form in [SHORT, FULL] {
        let attributes = joined(&rt, rt.alloc(), &[HEAD, form]);
        be(
            &rt,
            gives(
                &rt,
                rt.alloc(),
                Family::Ipv6,
                &attributes,
                "00 0001 0202 0000FDE9 0000FDEA 10 20010DB8000000000000000000000001 00 0000",
            ),
            "both forms of mp reach give the next hop",
        );
    }
}

/// Attributes beside NEXT_HOP, and their route.
const MISSING: [(&str, &str); 2] = [
    (
        "40020C02020000FDE90000FDEA0200",
        "02 0001 0202 0000FDE9 0000FDEA 04C0000201 00 0000",
    ),
    ("", "02 0000 04C0000201 00 0000"),
];

#[test]
fn missing_attributes_have_their_values(rt: HostRuntime) {
    for (attributes, route) in &MISSING {
        let whole = joined(&rt, rt.alloc(), &[*attributes, "400304C0000201"]);
        be(
            &rt,
            gives(&rt, rt.alloc(), Family::Ipv4, &whole, route),
            "missing attributes have their values",
        );
        be(
            &rt,
            gives(&rt, rt.alloc(), Family::Ipv6, &whole, route),
            "missing attributes have their values",
        );
    }
}

#[test]
fn the_family_decides_between_two_next_hops(rt: HostRuntime) {
    let both = joined(&rt, rt.alloc(), &["400304C0000201", SHORT]);
    be(
        &rt,
        gives(
            &rt,
            rt.alloc(),
            Family::Ipv4,
            &both,
            "02 0000 04C0000201 00 0000",
        ),
        "the family decides between two next hops",
    );
    be(
        &rt,
        gives(
            &rt,
            rt.alloc(),
            Family::Ipv6,
            &both,
            "02 0000 10 20010DB8000000000000000000000001 00 0000",
        ),
        "the family decides between two next hops",
    );
    be(
        &rt,
        gives(
            &rt,
            rt.alloc(),
            Family::Ipv4,
            SHORT,
            "02 0000 10 20010DB8000000000000000000000001 00 0000",
        ),
        "the family decides between two next hops",
    );
}

/// Attributes that give no next hop.
const WITHOUT_NEXT_HOP: [&str; 9] = [
    HEAD,
    "800E03 0019 41",
    "800E00",
    "800E01 10",
    "800E03 0001 01",
    "800E04 04 C00002",
    "800E09 0002 01 04 C0000201 00",
    "800E08 0001 01 04 C0000201",
    "400304C0000201 800E01 10",
];

#[test]
fn an_entry_without_a_next_hop_is_malformed(rt: HostRuntime) {
    for attributes in &WITHOUT_NEXT_HOP {
        be(
            &rt,
            is_malformed(&rt, rt.alloc(), Family::Ipv4, attributes),
            attributes,
        );
        be(
            &rt,
            is_malformed(&rt, rt.alloc(), Family::Ipv6, attributes),
            attributes,
        );
    }
}
