//! Whole messages.

use super::{PLAIN, PLAIN_ROUTE, fault_of, gives, has_route, joined, message, reported, update};
use crate::{be, octets};
use bgp_update::{Announcement, Message, MessageFault, Update, read_message};
use route_model::wire::AsWidth;
use route_model::{Address, Prefix};
use std::alloc::Global;
use std::process::Abort;

/// MP_REACH_NLRI of 2001:db8::/32 over 2001:db8::1, with an octet of any value before the prefix.
const REACH: &str = "800E1A 0002 01 10 20010DB8000000000000000000000001 05 20 20010DB8";

/// Whether this prefix stands at the place.
fn stands(prefixes: &[Prefix], place: usize, expected: Prefix) -> bool {
    match prefixes.get(place) {
        Some(found) => *found == expected,
        None => false,
    }
}

/// Whether one prefix stands there, of this length.
fn is_one(prefixes: &[Prefix], length: u8) -> bool {
    match prefixes {
        [only] => only.length() == length,
        _ => false,
    }
}

/// Whether one prefix of this length is announced.
fn has_one(announced: &Option<Announcement>, length: u8) -> bool {
    match announced {
        Some(it) => is_one(&it.prefixes, length),
        None => false,
    }
}

/// Whether two prefixes are announced, the second of which is this one.
fn has_second(announced: &Option<Announcement>, expected: Prefix) -> bool {
    match announced {
        Some(it) => it.prefixes.len() == 2 && stands(&it.prefixes, 1, expected),
        None => false,
    }
}

#[test]
fn an_announced_prefix_has_the_route_of_the_attributes(rt: HostRuntime) {
    be(
        &rt,
        gives(&rt, rt.alloc(), PLAIN, AsWidth::Two, PLAIN_ROUTE),
        "the route of one prefix",
    );
    let update = reported(&rt, rt.alloc(), PLAIN, "080A 090AFF", AsWidth::Two);
    let second = Prefix::containing(Address::V4([10, 128, 0, 0]), 9);
    be(&rt, has_second(&update.announced, second), "two prefixes");
    be(
        &rt,
        update.withdrawn.is_empty() && update.unreachable.is_empty(),
        "nothing is withdrawn",
    );
    be(&rt, update.reachable.is_none(), "nothing by MP_REACH_NLRI");
}

/// The route of PLAIN by the next hop of REACH.
const REACH_ROUTE: &str =
    "00 0001 0202 0000FDE9 0000FDEA 10 20010DB8000000000000000000000001 00 0000";

#[test]
fn ipv6_by_mp_reach(rt: HostRuntime) {
    let attributes = joined(
        &rt,
        rt.alloc(),
        &["40010100 40020A02020000FDE90000FDEA", REACH],
    );
    let update = reported(&rt, rt.alloc(), &attributes, "", AsWidth::Four);
    be(&rt, has_one(&update.reachable, 32), "the prefix");
    be(&rt, update.announced.is_none(), "nothing else");
    be(
        &rt,
        has_route(&rt, rt.alloc(), &update.reachable, REACH_ROUTE),
        "the route",
    );
}

#[test]
fn nlri_and_mp_reach_have_their_own_next_hops(rt: HostRuntime) {
    let attributes = joined(&rt, rt.alloc(), &[PLAIN, REACH]);
    let update = reported(&rt, rt.alloc(), &attributes, "080A", AsWidth::Two);
    be(
        &rt,
        has_route(&rt, rt.alloc(), &update.announced, PLAIN_ROUTE),
        "the route of NLRI",
    );
    be(
        &rt,
        has_route(&rt, rt.alloc(), &update.reachable, REACH_ROUTE),
        "the route of MP_REACH_NLRI",
    );
    be(
        &rt,
        has_one(&update.announced, 8) && has_one(&update.reachable, 32),
        "the prefixes",
    );
}

/// An UPDATE whose octets after the header are encoded so.
fn update_after(rt: &impl Abort, alloc: Global, beyond: &str) -> Vec<u8> {
    message(rt, alloc, 2, &octets(rt, alloc, beyond))
}

/// What it says.
fn reported_after(rt: &impl Abort, alloc: Global, beyond: &str) -> Update {
    match read_message(alloc, &update_after(rt, alloc, beyond), AsWidth::Two) {
        Ok(Message::Update(update)) => update,
        _ => panic!(rt; "no update"),
    }
}

#[test]
fn withdrawn_prefixes_of_both_kinds(rt: HostRuntime) {
    let short = update_after(&rt, rt.alloc(), "0004 18C63364 000A 800F07 0002 01 1020 01");
    be(
        &rt,
        fault_of(rt.alloc(), &short, AsWidth::Two) == Some(MessageFault::Malformed),
        "16 bits in 2 octets are 3",
    );
    let update = reported_after(&rt, rt.alloc(), "0004 18C63364 0009 800F06 0002 01 1020 01");
    let lost = Prefix::containing(Address::V4([198, 51, 100, 0]), 24);
    be(
        &rt,
        update.withdrawn.len() == 1 && stands(&update.withdrawn, 0, lost),
        "withdrawn prefixes of both kinds",
    );
    be(
        &rt,
        is_one(&update.unreachable, 16),
        "withdrawn prefixes of both kinds",
    );
}

/// As what a message is read by its header.
#[derive(Clone, Copy, PartialEq)]
enum Read {
    Notification,
    Other(u8),
    Malformed,
}

/// The type of a message, its octets after the header, and as what it is read.
const OTHERS: [(u8, &[u8], Read); 4] = [
    (4, &[], Read::Other(4)),
    (4, &[7], Read::Malformed),
    (3, &[7], Read::Notification),
    (5, &[7], Read::Other(5)),
];

/// Whether a message of this type with these octets is read so.
fn is_read_as(rt: &impl Abort, alloc: Global, kind: u8, beyond: &[u8], expected: Read) -> bool {
    let found = match read_message(alloc, &message(rt, alloc, kind, beyond), AsWidth::Two) {
        Ok(Message::Notification) => Read::Notification,
        Ok(Message::Other(other)) => Read::Other(other),
        Err(MessageFault::Malformed) => Read::Malformed,
        _ => return false,
    };
    found == expected
}

#[test]
fn other_types_are_read_by_their_header(rt: HostRuntime) {
    for (kind, beyond, expected) in &OTHERS {
        be(
            &rt,
            is_read_as(&rt, rt.alloc(), *kind, beyond, *expected),
            "another type of message",
        );
    }
}

/// Whether an UPDATE with these attributes and this NLRI is malformed.
fn is_malformed(rt: &impl Abort, alloc: Global, attributes: &str, nlri: &str) -> bool {
    let bytes = update(rt, alloc, &octets(rt, alloc, attributes), nlri);
    fault_of(alloc, &bytes, AsWidth::Two) == Some(MessageFault::Malformed)
}

/// Attributes and NLRI of malformed UPDATEs.
const UNANNOUNCED: [(&str, &str); 6] = [
    ("4002060202FDE9FDEA 400304C0000201", "080A"),
    ("40010100 400304C0000201", "080A"),
    ("40010100 4002060202FDE9FDEA", "080A"),
    (PLAIN, "210A00000000"),
    (PLAIN, "100A"),
    ("40010100 800E09 0001 01 04 C0000201 00 08 0A", ""),
];

#[test]
fn an_announcement_needs_its_attributes(rt: HostRuntime) {
    for (attributes, nlri) in &UNANNOUNCED {
        be(
            &rt,
            is_malformed(&rt, rt.alloc(), attributes, nlri),
            "an announcement needs its attributes",
        );
    }
    be(
        &rt,
        !is_malformed(&rt, rt.alloc(), "", ""),
        "nothing announced",
    );
}

/// 2001:db8::1 and fe80::1.
const TWO_HOPS: &str = "20010DB8000000000000000000000001 FE800000000000000000000000000001";

/// Faults of MP_REACH_NLRI and MP_UNREACH_NLRI.
const MP_FAULTS: [&str; 13] = [
    "800E00",
    "800E02 0001",
    "800E03 0001 01",
    "800E05 0001 01 00 00",
    "800E08 0001 01 04 C0000201",
    "800E09 0002 01 04 C0000201 00",
    "800E0D 0001 01 08 C0000201C0000202 00",
    "800E0A 0001 01 04 C0000201 00 08",
    "800E0F 0001 01 04 C0000201 00 210A00000000",
    "800F00",
    "800F02 0001",
    "800F04 0002 01 08",
    "800F15 0002 01 81 20010DB8000000000000000000000001 80",
];

#[test]
fn attributes_of_many_protocols_have_their_faults(rt: HostRuntime) {
    for fault in &MP_FAULTS {
        let attributes = joined(&rt, rt.alloc(), &[PLAIN, *fault]);
        be(&rt, is_malformed(&rt, rt.alloc(), &attributes, ""), fault);
    }
}

/// MP_REACH_NLRI and MP_UNREACH_NLRI without a prefix.
const MP_WHOLE: [&str; 6] = [
    "800E03 0001 80",
    "800E05 0019 41 0102",
    "800F03 0001 02",
    "800E09 0001 01 04 C0000201 FF",
    "800E15 0001 01 10 20010DB8000000000000000000000001 00",
    "800F03 0002 01",
];

/// Whether an UPDATE with this attribute beside others announces a prefix, and none by the attribute.
fn is_without_prefix(rt: &impl Abort, alloc: Global, text: &str) -> bool {
    let attributes = joined(rt, alloc, &[PLAIN, text]);
    let update = reported(rt, alloc, &attributes, "080A", AsWidth::Two);
    update.unreachable.is_empty() && update.reachable.is_none() && update.announced.is_some()
}

/// The UPDATE of a prefix by two next hops.
fn by_two_hops(rt: &impl Abort, alloc: Global) -> Update {
    let attributes = joined(
        rt,
        alloc,
        &[PLAIN, "800E27 0001 01 20", TWO_HOPS, "00 080B"],
    );
    reported(rt, alloc, &attributes, "", AsWidth::Two)
}

#[test]
fn attributes_of_many_protocols_are_read(rt: HostRuntime) {
    for text in &MP_WHOLE {
        be(&rt, is_without_prefix(&rt, rt.alloc(), text), text);
    }
    let update = by_two_hops(&rt, rt.alloc());
    let route = joined(
        &rt,
        rt.alloc(),
        &["00 0001 0202 0000FDE9 0000FDEA 20", TWO_HOPS, "00 0000"],
    );
    be(
        &rt,
        has_route(&rt, rt.alloc(), &update.reachable, &route),
        "two next hops",
    );
}

/// Whether the message of octets that are cut at this place is malformed.
fn is_cut(rt: &impl Abort, alloc: Global, bytes: &[u8], len: usize) -> bool {
    let (cut, _) = bytes.split_at_checked(len).expect(rt, "cut");
    fault_of(alloc, cut, AsWidth::Two) == Some(MessageFault::Malformed)
}

#[test]
fn a_message_is_its_length(rt: HostRuntime) {
    let attributes = octets(&rt, rt.alloc(), PLAIN);
    let bytes = update(&rt, rt.alloc(), &attributes, "080A");
    for len in 0..bytes.len() {
        be(&rt, is_cut(&rt, rt.alloc(), &bytes, len), "cut at");
    }
}
