//! Routes.

use crate::be;
use route_model::{
    Address, Aggregator, AsNumbers, Attribute, AttributeValue, Attributes, NextHop, Origin, Path,
    Route, Segment, SharedRoute,
};
use std::alloc::Global;
use std::process::Abort;

/// Path 65001 65002, IGP, next hop 192.0.2.1.
pub(crate) const ROUTE: [u8; 21] = [
    0, 0, 1, 2, 2, 0, 0, 0xFD, 0xE9, 0, 0, 0xFD, 0xEA, 4, 0xC0, 0, 2, 1, 0, 0, 0,
];

/// A set, an IPv6 next hop with its link-local one, every attribute that a route may have, and two
/// others.
const FULL: [u8; 82] = [
    2, 0, 2, 1, 1, 0, 0, 0xFD, 0xE9, 2, 1, 0, 0, 0xFD, 0xEA, 32, 0x20, 1, 0x0D, 0xB8, 0, 0, 0, 0,
    0, 0, 0, 0, 0, 0, 0, 1, 0xFE, 0x80, 0, 0, 0, 0, 0, 0, 0, 0, 0, 0, 0, 0, 0, 1, 15, 0, 0, 0, 10,
    0, 0, 0, 100, 0, 0, 0xFD, 0xEB, 0xC0, 0, 2, 9, 0, 2, 8, 0xC0, 0, 4, 0xFD, 0xE9, 0, 1, 32, 0xC0,
    0, 1, 7, 0, 0,
];

pub(crate) fn numbers(rt: &impl Abort, alloc: Global, of: &[u32]) -> AsNumbers {
    let items = Vec::from_slice(alloc, of).expect(rt, "memory");
    if items.is_empty() || items.len() > 255 {
        panic!(rt; "no segment has so many numbers");
    }
    AsNumbers::new(items)
}

/// A route whose path is these numbers in one sequence, with an attribute of this many octets, if any.
pub(crate) fn route(rt: &impl Abort, alloc: Global, path: &[u32], other: usize) -> Route {
    let segments = vec![in alloc; Segment::Sequence(numbers(rt, alloc, path))].expect(rt, "memory");
    let mut items = Vec::new(alloc);
    if 0 < other && other < 65536 {
        let value = AttributeValue::new(vec![in alloc; 7u8; other].expect(rt, "memory"));
        items
            .push(Attribute {
                kind: 99,
                flags: 0xC0,
                value,
            })
            .expect(rt, "memory");
    }
    if items.len() > 1 || segments.len() > 1 {
        panic!(rt; "too many");
    }
    let others = Attributes::try_new(items).expect(rt, "not ascending");
    Route {
        origin: Origin::Igp,
        path: Path::new(segments),
        next_hop: NextHop::One(Address::V4([192, 0, 2, 1])),
        med: None,
        local_pref: None,
        atomic_aggregate: false,
        aggregator: None,
        others,
    }
}

pub(crate) fn encoded(rt: &impl Abort, alloc: Global, route: &Route) -> Vec<u8> {
    route.encode(alloc).expect(rt, "memory")
}

fn decoded(rt: &impl Abort, alloc: Global, octets: &[u8]) -> Route {
    let read = Route::decode(alloc, octets).expect(rt, "memory");
    read.expect(rt, "no route")
}

fn is_sequence(segment: Option<&Segment>, expected: &[u32]) -> bool {
    match segment {
        Some(Segment::Sequence(numbers)) => numbers.as_slice() == expected,
        _ => false,
    }
}

fn is_set(segment: Option<&Segment>, expected: &[u32]) -> bool {
    match segment {
        Some(Segment::Set(numbers)) => numbers.as_slice() == expected,
        _ => false,
    }
}

#[test]
fn routes_have_one_encoding(rt: HostRuntime) {
    let route = route(&rt, rt.alloc(), &[65001, 65002], 0);
    be(&rt, route.encoded_len() == 21, "21 octets");
    let octets = encoded(&rt, rt.alloc(), &route);
    be(
        &rt,
        octets.as_slice() == ROUTE.as_slice(),
        "a route is encoded",
    );
    let read = decoded(&rt, rt.alloc(), &ROUTE);
    be(&rt, read.origin == Origin::Igp, "the origin");
    let hop = NextHop::One(Address::V4([192, 0, 2, 1]));
    be(&rt, read.next_hop == hop, "the next hop");
    let path = read.path.as_slice();
    be(&rt, path.len() == 1, "one segment");
    be(&rt, is_sequence(path.first(), &[65001, 65002]), "the path");
}

/// Whether these are the two other attributes of the full route.
fn are_the_others(others: &[Attribute]) -> bool {
    match others {
        [first, second] => {
            first.kind == 8
                && first.value.as_slice() == [0xFD, 0xE9, 0, 1].as_slice()
                && second.kind == 32
                && second.flags == 0xC0
                && second.value.as_slice() == [7].as_slice()
        }
        _ => false,
    }
}

#[test]
fn every_part_of_a_route_is_read(rt: HostRuntime) {
    let read = decoded(&rt, rt.alloc(), &FULL[..80]);
    be(&rt, read.origin == Origin::Incomplete, "the origin");
    be(&rt, read.med == Some(10), "the MED");
    be(&rt, read.local_pref == Some(100), "the local preference");
    be(&rt, read.atomic_aggregate, "ATOMIC_AGGREGATE");
    let aggregator = Aggregator {
        as_number: 65003,
        address: [192, 0, 2, 9],
    };
    be(&rt, read.aggregator == Some(aggregator), "the aggregator");
    let path = read.path.as_slice();
    be(&rt, path.len() == 2, "two segments");
    be(&rt, is_set(path.first(), &[65001]), "the set");
    be(&rt, is_sequence(path.last(), &[65002]), "the sequence");
    be(&rt, are_the_others(read.others.as_slice()), "the others");
    let octets = encoded(&rt, rt.alloc(), &read);
    be(
        &rt,
        octets.as_slice() == &FULL[..80],
        "the route is encoded",
    );
    be(&rt, read.encoded_len() == 80, "80 octets");
}

fn is_none(rt: &impl Abort, alloc: Global, octets: &[u8]) -> bool {
    Route::decode(alloc, octets).expect(rt, "memory").is_none()
}

fn changed(place: usize, octet: u8) -> [u8; 80] {
    let mut octets = [0u8; 80];
    octets.copy_from_slice(&FULL[..80]);
    if place < 80 {
        octets[place] = octet;
    }
    octets
}

/// What is wrong with the full route once another octet stands at a place.
const FAULTS: [(&str, usize, u8); 10] = [
    ("no origin", 0, 3),
    ("no type of segment", 3, 3),
    ("an empty segment", 4, 0),
    ("more segments than there are", 2, 3),
    ("no size of a next hop", 15, 31),
    ("a bit of presence that says nothing", 48, 31),
    ("a MED that isn't present", 48, 14),
    ("a type that occurs twice", 75, 8),
    ("types that descend", 75, 7),
    ("more attributes than there are", 66, 3),
];

#[test]
fn other_octets_are_no_route(rt: HostRuntime) {
    for (fault, place, octet) in &FAULTS {
        be(
            &rt,
            is_none(&rt, rt.alloc(), &changed(*place, *octet)),
            fault,
        );
    }
    be(&rt, is_none(&rt, rt.alloc(), &FULL[..81]), "an octet left");
    for len in 0..80 {
        be(&rt, is_none(&rt, rt.alloc(), &FULL[..len]), "cut at");
    }
}

pub(crate) fn shared(rt: &impl Abort, alloc: Global, route: Route) -> SharedRoute {
    SharedRoute::new(alloc, route).expect(rt, "memory")
}

#[test]
fn a_shared_route_keeps_its_encoding(rt: HostRuntime) {
    let route = route(&rt, rt.alloc(), &[65001, 65002], 0);
    let shared = shared(&rt, rt.alloc(), route);
    let again = shared.share().expect(&rt, "memory");
    be(&rt, again.encoding() == ROUTE.as_slice(), "the spelling");
    be(&rt, again.route().origin == Origin::Igp, "the route");
}
