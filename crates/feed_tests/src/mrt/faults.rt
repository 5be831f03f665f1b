//! Records with one fault each.

use super::{
    MESSAGE, MESSAGE_AS4, MESSAGE_ET, PEER_TABLE, RIB, RIB_IPV6, STATE_CHANGE, STATE_CHANGE_AS4_ET,
    item, record,
};
use crate::{be, octets};
use mrt_records::Item;
use std::alloc::Global;
use std::process::Abort;

/// Whether a record of this type and subtype with this body is reported as malformed, with both.
fn is_malformed(rt: &impl Abort, alloc: Global, kind: u16, subtype: u16, body: &[u8]) -> bool {
    let found = item(rt, alloc, &record(rt, alloc, kind, subtype, body));
    match found {
        Item::Malformed {
            kind: found_kind,
            subtype: found_subtype,
        } => found_kind == kind && found_subtype == subtype,
        _ => false,
    }
}

/// The octets after a record's header.
fn body_of(rt: &impl Abort, alloc: Global, text: &str) -> Vec<u8> {
    let bytes = octets(rt, alloc, text);
    let (_, body) = bytes.split_at_checked(12).expect(rt, "no header");
    body.to_vec(alloc).expect(rt, "memory")
}

/// Whether the body is malformed wherever it is cut.
fn are_cuts_malformed(
    rt: &impl Abort,
    alloc: Global,
    kind: u16,
    subtype: u16,
    body: &[u8],
) -> bool {
    for len in 0..body.len() {
        let (cut, _) = body.split_at_checked(len).expect(rt, "cut");
        if !is_malformed(rt, alloc, kind, subtype, cut) {
            return false;
        }
    }
    true
}

/// Type, subtype and octets of a record of each kind.
const RECORDS: [(u16, u16, &str); 8] = [
    (16, 1, MESSAGE),
    (17, 1, MESSAGE_ET),
    (16, 4, MESSAGE_AS4),
    (16, 0, STATE_CHANGE),
    (17, 5, STATE_CHANGE_AS4_ET),
    (13, 1, PEER_TABLE),
    (13, 2, RIB),
    (13, 4, RIB_IPV6),
];

#[test]
fn a_body_that_is_cut_or_has_octets_left(rt: HostRuntime) {
    for (kind, subtype, text) in &RECORDS {
        let mut body = body_of(&rt, rt.alloc(), text);
        be(
            &rt,
            are_cuts_malformed(&rt, rt.alloc(), *kind, *subtype, &body),
            text,
        );
        body.push(0).expect(&rt, "memory");
        be(
            &rt,
            is_malformed(&rt, rt.alloc(), *kind, *subtype, &body),
            text,
        );
    }
}

#[test]
fn microseconds_are_counted_in_the_body(rt: HostRuntime) {
    let body = body_of(&rt, rt.alloc(), STATE_CHANGE);
    be(
        &rt,
        is_malformed(&rt, rt.alloc(), 17, 0, &body),
        "no microseconds",
    );
    let (cut, _) = body.split_at_checked(4).expect(&rt, "cut");
    be(
        &rt,
        are_cuts_malformed(&rt, rt.alloc(), 17, 0, cut),
        "octets",
    );
}

/// Type, subtype, fault and body.
const OUT_OF_RANGE: [(u16, u16, &str, &str); 19] = [
    (
        16,
        0,
        "family 0",
        "FDE9 FC00 0000 0000 C0000201 C0000202 0006 0001",
    ),
    (
        16,
        0,
        "family 3",
        "FDE9 FC00 0000 0003 C0000201 C0000202 0006 0001",
    ),
    (
        16,
        0,
        "IPv4 addresses reported as IPv6",
        "FDE9 FC00 0000 0002 C0000201 C0000202 0006 0001",
    ),
    (
        16,
        5,
        "AS numbers of two octets",
        "FDE9 FC00 0000 0001 C0000201 C0000202 0006 0001",
    ),
    (
        16,
        1,
        "a message of 18 octets",
        "FDE9 FC00 0000 0001 C0000201 C0000202 FFFFFFFFFFFFFFFFFFFFFFFFFFFFFFFF 0012",
    ),
    (
        16,
        1,
        "a message that claims too few octets",
        "FDE9 FC00 0000 0001 C0000201 C0000202 FFFFFFFFFFFFFFFFFFFFFFFFFFFFFFFF 0012 04",
    ),
    (
        16,
        1,
        "a message that claims too many octets",
        "FDE9 FC00 0000 0001 C0000201 C0000202 FFFFFFFFFFFFFFFFFFFFFFFFFFFFFFFF 0014 04",
    ),
    (13, 1, "a name that runs past the end", "C0000202 0001 0000"),
    (
        13,
        1,
        "a peer more than there is",
        "C0000202 0000 0002 02 C0000201 C0000201 0000FDE9",
    ),
    (
        13,
        1,
        "a peer less than there is",
        "C0000202 0000 0000 02 C0000201 C0000201 0000FDE9",
    ),
    (13, 1, "65535 peers of none", "C0000202 0000 FFFF"),
    (
        13,
        1,
        "an IPv6 address of four octets",
        "C0000202 0000 0001 03 C0000201 C0000201 0000FDE9",
    ),
    (13, 2, "a prefix of 33 bits", "00000000 21 0A00000000 0000"),
    (
        13,
        4,
        "a prefix of 129 bits",
        "00000000 81 0000000000000000000000000000000000 0000",
    ),
    (
        13,
        2,
        "an entry more than there is",
        "00000000 08 0A 0002 0000 65920000 0000",
    ),
    (
        13,
        2,
        "an entry less than there is",
        "00000000 08 0A 0000 0000 65920000 0000",
    ),
    (13, 2, "65535 entries of none", "00000000 08 0A FFFF"),
    (
        13,
        2,
        "attributes past the end",
        "00000000 08 0A 0001 0000 65920000 0001",
    ),
    (
        13,
        2,
        "attributes past the end by far",
        "00000000 08 0A 0001 0000 65920000 FFFF",
    ),
];

#[test]
fn values_out_of_range(rt: HostRuntime) {
    for (kind, subtype, fault, text) in &OUT_OF_RANGE {
        let body = octets(&rt, rt.alloc(), text);
        be(
            &rt,
            is_malformed(&rt, rt.alloc(), *kind, *subtype, &body),
            fault,
        );
    }
}
