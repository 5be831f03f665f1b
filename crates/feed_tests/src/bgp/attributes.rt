//! Lists of attributes.

use super::{PLAIN, gives, joined};
use crate::{be, octets};
use bgp_update::read_attributes;
use route_model::octets::ReadFault;
use route_model::wire::AsWidth;
use std::alloc::Global;
use std::process::Abort;

/// Whether these attributes are malformed.
fn is_malformed(rt: &impl Abort, alloc: Global, text: &str, width: AsWidth) -> bool {
    let bytes = octets(rt, alloc, text);
    match read_attributes(alloc, &bytes, width) {
        Err(fault) => fault == ReadFault::Malformed,
        Ok(_) => false,
    }
}

/// Attributes with one fault each.
const FAULTS: [&str; 22] = [
    "40010103",
    "40010200 00",
    "400100",
    "4002020300",
    "40020302 01FD",
    "4002030201FD",
    "40020103",
    "400303C00002",
    "400305C000020101",
    "80040300 0000",
    "400505 0000000000",
    "40060100",
    "C00705 FDE9C00002",
    "C00707 FDE9C000020101",
    "4001",
    "40 01 01",
    "500100 00",
    "50010002 00",
    "40010100 40010100",
    "C00804 00010001 C00804 00010002",
    "C01100 C01100",
    "4001010040",
];

#[test]
fn each_attribute_has_its_faults(rt: HostRuntime) {
    for text in &FAULTS {
        be(&rt, is_malformed(&rt, rt.alloc(), text, AsWidth::Two), text);
    }
}

/// Attributes without a fault.
const WHOLE: [&str; 6] = [
    "",
    "C01103 030100",
    "C01207 00000000000000",
    "40020202 00",
    "500100 0102",
    "C00708 0000FDE9 C0000201",
];

#[test]
fn attributes_of_four_octets_are_no_fault(rt: HostRuntime) {
    for text in &WHOLE {
        be(
            &rt,
            !is_malformed(&rt, rt.alloc(), text, AsWidth::Two),
            text,
        );
        be(
            &rt,
            !is_malformed(&rt, rt.alloc(), text, AsWidth::Four),
            text,
        );
    }
}

#[test]
fn optional_attributes_are_reported(rt: HostRuntime) {
    let all = joined(
        &rt,
        rt.alloc(),
        &[
            PLAIN,
            "80040400000064 400504000000C8 400600 C00706FDE9C0000202",
        ],
    );
    be(
        &rt,
        gives(
            &rt,
            rt.alloc(),
            &all,
            AsWidth::Two,
            "00 0001 0202 0000FDE9 0000FDEA 04C0000201 0F 00000064 000000C8 0000FDE9C0000202 0000",
        ),
        "optional attributes are reported",
    );
}

#[test]
fn others_are_kept_by_type_with_three_flags(rt: HostRuntime) {
    let all = joined(
        &rt,
        rt.alloc(),
        &[
            "FF20000C 0000FDE9 00000001 00000002",
            PLAIN,
            "C0080400010001 E00A0101",
        ],
    );
    be(
        &rt,
        gives(
            &rt,
            rt.alloc(),
            &all,
            AsWidth::Two,
            "00 0001 0202 0000FDE9 0000FDEA 04C0000201 00 0003 08C0000400010001 0AE0000101 20E0000C 0000FDE9 00000001 00000002",
        ),
        "others are kept by type with three flags",
    );
}
