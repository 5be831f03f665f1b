//! Peers, prefixes, moments, marks, and numbers among octets.

use crate::be;
use route_model::octets::{u16_at, u32_at, u64_at};
use route_model::{Address, Mark, Moment, Peer, Prefix};
use std::alloc::Global;
use std::process::Abort;

/// Peer 192.0.2.1 of AS 65001 at collector 0.
pub(crate) const PEER: [u8; 22] = [
    0, 4, 0xC0, 0, 2, 1, 0, 0, 0, 0, 0, 0, 0, 0, 0, 0, 0, 0, 0, 0, 0xFD, 0xE9,
];

pub(crate) fn peer() -> Peer {
    Peer {
        collector: 0,
        address: Address::V4([192, 0, 2, 1]),
        as_number: 65001,
    }
}

fn ipv6_peer() -> Peer {
    Peer {
        collector: 15,
        address: Address::V6([0x20, 1, 0x0D, 0xB8, 0, 0, 0, 0, 0, 0, 0, 0, 0, 0, 0, 1]),
        as_number: 4_200_000_001,
    }
}

#[test]
fn peers_have_one_encoding(rt: HostRuntime) {
    be(&rt, peer().encode() == PEER, "peers have one spelling");
    be(&rt, peer().encoded_len() == 22, "peers have one spelling");
    be(
        &rt,
        Peer::decode(&PEER) == Some(peer()),
        "peers have one spelling",
    );
    let octets = [
        15, 6, 0x20, 1, 0x0D, 0xB8, 0, 0, 0, 0, 0, 0, 0, 0, 0, 0, 0, 1, 0xFA, 0x56, 0xEA, 1,
    ];
    be(
        &rt,
        ipv6_peer().encode() == octets,
        "peers have one spelling",
    );
    be(
        &rt,
        Peer::decode(&octets) == Some(ipv6_peer()),
        "peers have one spelling",
    );
}

#[test]
fn other_octets_are_no_peer(rt: HostRuntime) {
    let mut octets = PEER;
    octets[1] = 5;
    be(&rt, Peer::decode(&octets) == None, "no family");
    let mut octets = PEER;
    octets[6] = 1;
    be(
        &rt,
        Peer::decode(&octets) == None,
        "no zeros after an IPv4 address",
    );
    be(&rt, Peer::decode(&PEER[..21]) == None, "cut");
    let mut long = [0u8; 23];
    long[0..22].copy_from_slice(&PEER);
    be(&rt, Peer::decode(&long) == None, "an octet left");
    be(&rt, Peer::decode(&[]) == None, "other octets are no peer");
}

/// Addresses, lengths, and the encodings of the prefixes that contain them.
const PREFIXES: [(Address, u8, &[u8]); 4] = [
    (Address::V4([10, 1, 2, 3]), 8, &[4, 8, 10]),
    (Address::V4([255, 255, 255, 255]), 0, &[4, 0]),
    (Address::V4([9, 10, 255, 255]), 9, &[4, 9, 9, 0]),
    (
        Address::V6([0x20, 1, 0x0D, 0xB8, 0, 0, 0, 0, 0, 0, 0, 0, 0, 0, 0, 1]),
        32,
        &[6, 32, 0x20, 1, 0x0D, 0xB8],
    ),
];

/// Whether the prefix is encoded so, and read from it.
fn is_encoded(rt: &impl Abort, alloc: Global, prefix: Prefix, octets: &[u8]) -> bool {
    let encoded = prefix.encode(alloc).expect(rt, "memory");
    encoded.as_slice() == octets
        && prefix.encoded_len() == octets.len()
        && Prefix::decode(octets) == Some(prefix)
}

#[test]
fn prefixes_have_one_encoding(rt: HostRuntime) {
    let ten = Prefix::containing(Address::V4([10, 1, 2, 3]), 8);
    be(
        &rt,
        ten.address() == Address::V4([10, 0, 0, 0]),
        "prefixes have one spelling",
    );
    be(&rt, ten.length() == 8, "prefixes have one spelling");
    for (address, length, octets) in &PREFIXES {
        let prefix = Prefix::containing(*address, (*length).min(32));
        be(
            &rt,
            is_encoded(&rt, rt.alloc(), prefix, octets),
            "a prefix is encoded so",
        );
    }
}

/// Octets that are no prefix, and why.
const NO_PREFIXES: [(&str, &[u8]); 8] = [
    ("bits past the length", &[4, 9, 10, 255]),
    ("a length above 32", &[4, 33, 10, 0, 0, 0, 0]),
    ("a length above 128", &[6, 129, 0]),
    ("no family", &[5, 8, 10]),
    ("cut", &[4, 16, 10]),
    ("an octet left", &[4, 8, 10, 0]),
    ("no length", &[4]),
    ("nothing", &[]),
];

#[test]
fn other_octets_are_no_prefix(rt: HostRuntime) {
    for (fault, octets) in &NO_PREFIXES {
        be(&rt, Prefix::decode(octets).is_none(), fault);
    }
}

#[test]
fn moments_and_marks_have_their_range(rt: HostRuntime) {
    let last = Moment::new(4_294_967_295_999_999).expect(&rt, "no moment");
    be(
        &rt,
        last == Moment::within(u32::MAX, 999_999),
        "moments and marks have their range",
    );
    be(
        &rt,
        Moment::new(4_294_967_296_000_000) == None,
        "moments and marks have their range",
    );
    be(
        &rt,
        Moment::from(1_704_067_200u32).number() == 1_704_067_200_000_000,
        "moments and marks have their range",
    );
    let end = Mark::new(4_294_967_296_000_000).expect(&rt, "no mark");
    be(
        &rt,
        end.number() == 4_294_967_296_000_000,
        "moments and marks have their range",
    );
    be(
        &rt,
        Mark::new(4_294_967_296_000_001) == None,
        "moments and marks have their range",
    );
    be(
        &rt,
        Mark::at(last).number() == 4_294_967_295_999_999,
        "moments and marks have their range",
    );
    be(
        &rt,
        Mark::at(last) < end,
        "moments and marks have their range",
    );
}

#[test]
fn numbers_stand_in_network_order(rt: HostRuntime) {
    let octets = [0, 0xFD, 0xE9, 0x65, 0x92, 0, 0x80, 0, 0, 1];
    be(
        &rt,
        u16_at(&octets, 1) == 65001,
        "numbers stand in network order",
    );
    be(
        &rt,
        u32_at(&octets, 3) == 1_704_067_200,
        "numbers stand in network order",
    );
    be(
        &rt,
        u64_at(&octets, 2) == 0xE965_9200_8000_0001,
        "numbers stand in network order",
    );
}
