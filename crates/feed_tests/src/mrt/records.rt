//! Each kind of record.

use super::{
    MESSAGE, MESSAGE_AS4, MESSAGE_ET, PEER_TABLE, RIB, RIB_IPV6, STATE_CHANGE, item, record,
};
use crate::{be, octets};
use mrt_records::{AsWidth, Item, Neighbor, RibEntries};
use route_model::{Address, Moment, Prefix};
use std::alloc::Global;
use std::process::Abort;

const ROUTER: Neighbor = Neighbor {
    address: Address::V4([192, 0, 2, 1]),
    as_number: 65001,
};

const IPV6: [u8; 16] = [0x20, 1, 0x0D, 0xB8, 0, 0, 0, 0, 0, 0, 0, 0, 0, 0, 0, 1];

/// The second of all records, in microseconds.
const SECOND: u64 = 1_704_067_200_000_000;

/// Records, their microseconds, the width of their AS numbers, and how many octets their messages have.
const MESSAGES: [(&str, u64, AsWidth, usize); 3] = [
    (MESSAGE, 0, AsWidth::Two, 45),
    (MESSAGE_AS4, 0, AsWidth::Four, 69),
    (MESSAGE_ET, 500_000, AsWidth::Two, 45),
];

/// Whether a record is a message of the router at these microseconds, of this width and with this many octets, which are the record's last.
fn is_message(
    rt: &impl Abort,
    alloc: Global,
    text: &str,
    micros: u64,
    expected: AsWidth,
    len: usize,
) -> bool {
    let bytes = octets(rt, alloc, text);
    match item(rt, alloc, &bytes) {
        Item::Message {
            time,
            peer,
            width,
            octets,
        } => {
            time.number().checked_sub(SECOND) == Some(micros)
                && peer == ROUTER
                && width == expected
                && octets.len() == len
                && bytes.ends_with(&octets)
        }
        _ => false,
    }
}

#[test]
fn messages(rt: HostRuntime) {
    for (text, micros, width, len) in &MESSAGES {
        let is_message = is_message(&rt, rt.alloc(), text, *micros, *width, *len);
        be(&rt, is_message, text);
    }
}

/// The body of a message of 2001:db8::1, AS 4200000001.
const IPV6_BODY: &str =
    "FA56EA01 0000FC00 0007 0002 20010DB8000000000000000000000001 20010DB8000000000000000000000002
    FFFFFFFFFFFFFFFFFFFFFFFFFFFFFFFF 0013 04";

/// Whether an item is a message of 19 octets of that peer.
fn is_of_ipv6(item: &Item) -> bool {
    match item {
        Item::Message { peer, octets, .. } => {
            peer.address == Address::V6(IPV6)
                && peer.as_number == 4_200_000_001
                && octets.len() == 19
        }
        _ => false,
    }
}

#[test]
fn a_peer_of_ipv6(rt: HostRuntime) {
    let found = item(
        &rt,
        rt.alloc(),
        &record(&rt, rt.alloc(), 17, 4, &[0, 0, 0, 0]),
    );
    be(
        &rt,
        matches!(found, Item::Malformed { .. }),
        "microseconds alone",
    );
    let body = octets(&rt, rt.alloc(), IPV6_BODY);
    let found = item(&rt, rt.alloc(), &record(&rt, rt.alloc(), 16, 4, &body));
    be(&rt, is_of_ipv6(&found), "a peer of ipv6");
}

/// Records, their microseconds, and the new states that they report.
const STATES: [(&str, u64, u16); 5] = [
    (STATE_CHANGE, 0, 1),
    (
        "65920080 0010 0005 00000018 0000FDE9 0000FC00 0000 0001 C0000201 C0000202 0005 0006",
        0,
        6,
    ),
    (
        "65920080 0011 0000 00000018 000F423F FDE9 FC00 0000 0001 C0000201 C0000202 0001 FFFF",
        999_999,
        65535,
    ),
    (
        "65920080 0011 0000 00000018 000F4240 FDE9 FC00 0000 0001 C0000201 C0000202 0001 FFFF",
        999_999,
        65535,
    ),
    (
        "65920080 0011 0000 00000018 FFFFFFFF FDE9 FC00 0000 0001 C0000201 C0000202 0001 FFFF",
        999_999,
        65535,
    ),
];

/// Whether a record reports that the session of the router came to this state, at these microseconds.
fn is_state(rt: &impl Abort, alloc: Global, text: &str, micros: u64, expected: u16) -> bool {
    match item(rt, alloc, &octets(rt, alloc, text)) {
        Item::StateChange { time, peer, state } => {
            time.number().checked_sub(SECOND) == Some(micros) && peer == ROUTER && state == expected
        }
        _ => false,
    }
}

#[test]
fn state_changes(rt: HostRuntime) {
    for (text, micros, state) in &STATES {
        be(&rt, is_state(&rt, rt.alloc(), text, *micros, *state), text);
    }
}

/// Bodies of peer tables, and their peers.
const PEER_TABLES: [(&str, &[Neighbor]); 3] = [
    (
        "C0000202 0000 0001 02 C0000201 C0000201 0000FDE9",
        &[ROUTER],
    ),
    (
        "C0000202 0003 726961 0004
        00 C0000201 C0000201 FDE9
        01 C0000201 20010DB8000000000000000000000001 FDE9
        FE C0000201 C0000201 FA56EA01
        03 C0000201 20010DB8000000000000000000000001 FA56EA01",
        &[
            ROUTER,
            Neighbor {
                address: Address::V6(IPV6),
                as_number: 65001,
            },
            Neighbor {
                address: Address::V4([192, 0, 2, 1]),
                as_number: 4_200_000_001,
            },
            Neighbor {
                address: Address::V6(IPV6),
                as_number: 4_200_000_001,
            },
        ],
    ),
    ("00000000 0000 0000", &[]),
];

/// The peers that a record lists.
fn peers_in(rt: &impl Abort, alloc: Global, bytes: &[u8]) -> Vec<Neighbor> {
    match item(rt, alloc, bytes) {
        Item::PeerTable(peers) => peers,
        _ => panic!(rt; "no peer table"),
    }
}

/// Those of a table with this body.
fn peers_of(rt: &impl Abort, alloc: Global, body: &str) -> Vec<Neighbor> {
    peers_in(
        rt,
        alloc,
        &record(rt, alloc, 13, 1, &octets(rt, alloc, body)),
    )
}

#[test]
fn peer_tables(rt: HostRuntime) {
    let first = octets(&rt, rt.alloc(), PEER_TABLE);
    be(
        &rt,
        peers_in(&rt, rt.alloc(), &first).as_slice() == [ROUTER].as_slice(),
        "peer tables",
    );
    for (body, peers) in &PEER_TABLES {
        be(
            &rt,
            peers_of(&rt, rt.alloc(), body).as_slice() == *peers,
            body,
        );
    }
}

/// What a RIB record says.
#[derive(Drop)]
struct Rib {
    time: Moment,
    prefix: Prefix,
    entries: RibEntries,
}

fn rib_in(rt: &impl Abort, alloc: Global, bytes: &[u8]) -> Rib {
    match item(rt, alloc, bytes) {
        Item::Rib {
            time,
            prefix,
            entries,
        } => Rib {
            time,
            prefix,
            entries,
        },
        _ => panic!(rt; "no RIB record"),
    }
}

/// Whether the entry at a place is of this peer and has these attributes.
fn is_entry(entries: &RibEntries, place: usize, peer_index: u16, attributes: &[u8]) -> bool {
    match entries.get(place) {
        Some(entry) => entry.peer_index == peer_index && entry.attributes == attributes,
        None => false,
    }
}

/// Whether the record has one entry, of peer 0, whose attributes are its last octets, this many.
fn is_last_entry(entries: &RibEntries, bytes: &[u8], len: usize) -> bool {
    match bytes.len().checked_sub(len) {
        Some(front) => {
            entries.len() == 1
                && entries.get(1).is_none()
                && is_entry(entries, 0, 0, bytes.split_at(front).1)
        }
        None => false,
    }
}

#[test]
fn rib_records(rt: HostRuntime) {
    let bytes = octets(&rt, rt.alloc(), RIB);
    let rib = rib_in(&rt, rt.alloc(), &bytes);
    let ten = Prefix::containing(Address::V4([10, 0, 0, 0]), 8);
    be(&rt, rib.time.number() == SECOND, "the time");
    be(&rt, rib.prefix == ten, "the prefix");
    be(&rt, is_last_entry(&rib.entries, &bytes, 24), "the entry");
}

#[test]
fn rib_records_of_ipv6(rt: HostRuntime) {
    let bytes = octets(&rt, rt.alloc(), RIB_IPV6);
    let rib = rib_in(&rt, rt.alloc(), &bytes);
    let address = Address::V6([0x20, 1, 0x0D, 0xB8, 0, 0, 0, 0, 0, 0, 0, 0, 0, 0, 0, 0]);
    be(
        &rt,
        rib.prefix == Prefix::containing(address, 32),
        "the prefix",
    );
    be(&rt, is_last_entry(&rib.entries, &bytes, 37), "the entry");
}

/// What a RIB record of this subtype with this body says.
fn rib_of(rt: &impl Abort, alloc: Global, subtype: u16, body: &str) -> Rib {
    let bytes = record(rt, alloc, 13, subtype, &octets(rt, alloc, body));
    rib_in(rt, alloc, &bytes)
}

/// The body of a record of three entries.
const THREE: &str =
    "00000009 21 20010DB8FF 0003 0001 65920000 0002 AABB FFFF 00000000 0000 0000 65920000 0001 CC";

#[test]
fn entries_keep_their_order(rt: HostRuntime) {
    let rib = rib_of(&rt, rt.alloc(), 4, THREE);
    let address = Address::V6([0x20, 1, 0x0D, 0xB8, 0x80, 0, 0, 0, 0, 0, 0, 0, 0, 0, 0, 0]);
    be(
        &rt,
        rib.prefix == Prefix::containing(address, 33),
        "the prefix",
    );
    be(&rt, rib.prefix.address() == address, "its address");
    be(&rt, !rib.entries.is_empty(), "entries");
    be(
        &rt,
        is_entry(&rib.entries, 0, 1, &[0xAA, 0xBB]),
        "the first entry",
    );
    be(
        &rt,
        is_entry(&rib.entries, 1, 65535, &[]),
        "the second entry",
    );
    be(
        &rt,
        is_entry(&rib.entries, 2, 0, &[0xCC]),
        "the third entry",
    );
}

#[test]
fn a_record_may_have_no_entries(rt: HostRuntime) {
    let rib = rib_of(&rt, rt.alloc(), 2, "00000000 00 0000");
    be(&rt, rib.entries.is_empty(), "a record may have no entries");
}

/// Types and subtypes of records that aren't listed.
const UNLISTED: [(u16, u16); 9] = [
    (16, 2),
    (16, 6),
    (17, 2),
    (17, 11),
    (13, 3),
    (13, 6),
    (12, 1),
    (0, 0),
    (65535, 65535),
];

/// Whether a record of this type and subtype is skipped, and reported with both.
fn is_skipped(rt: &impl Abort, alloc: Global, kind: u16, subtype: u16) -> bool {
    let found = item(rt, alloc, &record(rt, alloc, kind, subtype, &[0xFF, 0xFF]));
    match found {
        Item::Skipped {
            kind: found_kind,
            subtype: found_subtype,
        } => found_kind == kind && found_subtype == subtype,
        _ => false,
    }
}

#[test]
fn records_that_are_not_listed_are_skipped(rt: HostRuntime) {
    for (kind, subtype) in &UNLISTED {
        be(
            &rt,
            is_skipped(&rt, rt.alloc(), *kind, *subtype),
            "records that are not listed are skipped",
        );
    }
}
