//! Admissions.

use super::routes::{ROUTE, encoded as octets_of_route, route, shared};
use super::small::peer;
use crate::be;
use route_model::{Address, Admission, AdmissionError, Change, Moment, Peer, Prefix};
use std::alloc::Global;
use std::process::Abort;

/// At 1704067200 peer 192.0.2.1 of AS 65001 announces 10.0.0.0/8.
const VECTOR: [u8; 67] = [
    0, 6, 0x0D, 0xD7, 0x10, 0x21, 0x20, 0, 0, 1, 0, 4, 0xC0, 0, 2, 1, 0, 0, 0, 0, 0, 0, 0, 0, 0, 0,
    0, 0, 0, 0, 0xFD, 0xE9, 0, 1, 0, 0x15, 0, 0, 1, 2, 2, 0, 0, 0xFD, 0xE9, 0, 0, 0xFD, 0xEA, 4,
    0xC0, 0, 2, 1, 0, 0, 0, 0, 1, 1, 0, 0, 4, 8, 0x0A, 0, 0,
];

fn ten() -> Prefix {
    Prefix::containing(Address::V4([10, 0, 0, 0]), 8)
}

fn later() -> Peer {
    Peer {
        collector: 0,
        address: Address::V4([192, 0, 2, 2]),
        as_number: 65002,
    }
}

fn moment() -> Moment {
    Moment::from(1_704_067_200u32)
}

/// The admission that octets encode.
fn decoded(rt: &impl Abort, alloc: Global, octets: &[u8]) -> Admission {
    let read = Admission::decode(alloc, octets).expect(rt, "memory");
    read.expect(rt, "no admission")
}

fn encoded(rt: &impl Abort, alloc: Global, admission: &Admission) -> Vec<u8> {
    admission.encode(alloc).expect(rt, "memory")
}

/// The admission of changes.
fn admitted(rt: &impl Abort, changes: Vec<Change>) -> Admission {
    Admission::new(moment(), changes).expect(rt, "an admission")
}

/// Whether there is one change, which announces the route for 10.0.0.0/8.
fn is_the_announcement(changes: &[Change]) -> bool {
    match changes {
        [Change::Announce(from, prefix, route)] => {
            *from == peer() && *prefix == ten() && route.encoding() == ROUTE.as_slice()
        }
        _ => false,
    }
}

/// Whether the vector encodes it.
fn is_the_vector(rt: &impl Abort, alloc: Global, admission: &Admission) -> bool {
    encoded(rt, alloc, admission).as_slice() == VECTOR.as_slice()
}

#[test]
fn reads_the_vector(rt: HostRuntime) {
    let admission = decoded(&rt, rt.alloc(), &VECTOR);
    let time = admission.time();
    be(&rt, time == Moment::from(1_704_067_200), "the time");
    be(&rt, is_the_announcement(admission.changes()), "the change");
    be(
        &rt,
        is_the_vector(&rt, rt.alloc(), &admission),
        "the octets",
    );
}

fn shared_vector(rt: &impl Abort, alloc: Global) -> Admission {
    decoded(rt, alloc, &VECTOR)
        .share(alloc)
        .expect(rt, "memory")
}

/// The peer of what a change is shared as.
fn peer_of_shared(rt: &impl Abort, change: &Change) -> Peer {
    change.share().expect(rt, "memory").peer()
}

#[test]
fn a_shared_admission_is_the_same(rt: HostRuntime) {
    let shared = shared_vector(&rt, rt.alloc());
    be(&rt, is_the_vector(&rt, rt.alloc(), &shared), "the octets");
    for change in shared.changes() {
        be(&rt, peer_of_shared(&rt, change) == peer(), "the peer");
    }
}

/// A route for 10.0.0.0/8 with this path, and an attribute of this many octets, if any.
fn announcement(rt: &impl Abort, alloc: Global, from: Peer, path: &[u32], other: usize) -> Change {
    let route = route(rt, alloc, path, other);
    Change::Announce(from, ten(), shared(rt, alloc, route))
}

#[test]
fn writes_the_vector(rt: HostRuntime) {
    let alloc = rt.alloc();
    let change = announcement(&rt, alloc, peer(), &[65001, 65002], 0);
    be(&rt, change.peer() == peer(), "the peer");
    let admission = admitted(&rt, vec![in alloc; change].expect(&rt, "memory"));
    be(&rt, admission.encoded_len() == 67, "67 octets");
    be(&rt, is_the_vector(&rt, alloc, &admission), "the octets");
}

/// Five changes of two peers, with two routes.
fn five_changes(rt: &impl Abort, alloc: Global) -> Vec<Change> {
    let first = announcement(rt, alloc, peer(), &[65002], 0);
    let second = announcement(rt, alloc, later(), &[65001], 0);
    let third = announcement(rt, alloc, peer(), &[65002], 0);
    let down = Change::Down(later());
    let withdrawn = Change::Withdraw(peer(), ten());
    vec![in alloc; down, first, second, withdrawn, third].expect(rt, "memory")
}

/// Octets of their encoding, from a place on: two peers, the second of the list first; then two routes of 17 octets; then
/// the five changes, up to the end.
const TABLES: [(usize, &[u8]); 4] = [
    (8, &[0, 2, 0, 4, 0xC0, 0, 2, 2]),
    (32, &[0, 4, 0xC0, 0, 2, 1]),
    (54, &[0, 2, 0, 17]),
    (
        94,
        &[
            0, 5, 3, 0, 0, 1, 0, 1, 4, 8, 10, 0, 0, 1, 0, 0, 4, 8, 10, 0, 1, 2, 0, 1, 4, 8, 10, 1,
            0, 1, 4, 8, 10, 0, 0,
        ],
    ),
];

#[test]
fn tables_list_each_value_once_in_the_order_of_first_use(rt: HostRuntime) {
    let alloc = rt.alloc();
    let admission = admitted(&rt, five_changes(&rt, alloc));
    let octets = encoded(&rt, alloc, &admission);
    be(&rt, octets.len() == admission.encoded_len(), "the length");
    for (place, expected) in &TABLES {
        let (_, from) = octets.split_at_checked(*place).expect(&rt, "a place");
        be(&rt, from.starts_with(expected), "a table of the encoding");
    }
    be(&rt, octets.len() == 94 + 35, "all octets");
    let read = decoded(&rt, alloc, &octets);
    be(&rt, read.changes().len() == 5, "the changes");
}

fn is_none(rt: &impl Abort, alloc: Global, octets: &[u8]) -> bool {
    Admission::decode(alloc, octets)
        .expect(rt, "memory")
        .is_none()
}

/// The vector with other octets from a place on.
fn changed(place: usize, octets: &[u8]) -> [u8; 67] {
    let mut all = VECTOR;
    for (i, octet) in octets.iter().enumerate() {
        if let Some(at) = place.checked_add(i) {
            if at < 67 {
                all[at] = *octet;
            }
        }
    }
    all
}

/// The vector with octets put in at a place, and a count before it raised to two.
fn grown(rt: &impl Abort, alloc: Global, count: usize, place: usize, octets: &[u8]) -> Vec<u8> {
    let mut all = Vec::new(alloc);
    if count < place && place < 67 {
        all.extend_from_slice(&VECTOR[..place]).expect(rt, "memory");
        all[count] = 2;
        all.extend_from_slice(octets).expect(rt, "memory");
        all.extend_from_slice(&VECTOR[place..]).expect(rt, "memory");
    }
    all
}

/// What is wrong with the vector once other octets stand at a place.
const FAULTS: [(&str, usize, &[u8]); 7] = [
    ("a time above the last moment", 1, &[0x10]),
    (
        "the first time above it",
        0,
        &[0, 0x0F, 0x42, 0x40, 0, 0, 0, 0],
    ),
    ("a place of a peer that isn't there", 60, &[0, 1]),
    ("a place of a route that isn't there", 65, &[0, 1]),
    ("no kind of change", 59, &[4]),
    ("a route that is no spelling", 36, &[3]),
    ("more changes than there are", 58, &[2]),
];

#[test]
fn other_octets_are_no_admission(rt: HostRuntime) {
    for (fault, place, octets) in &FAULTS {
        be(
            &rt,
            is_none(&rt, rt.alloc(), &changed(*place, octets)),
            fault,
        );
    }
}

/// Whether octets are an admission of this time that is written as they are.
fn is_of_time(rt: &impl Abort, alloc: Global, octets: &[u8], time: u64) -> bool {
    let admission = decoded(rt, alloc, octets);
    let again = encoded(rt, alloc, &admission);
    admission.time().number() == time && again.as_slice() == octets
}

#[test]
fn an_admission_may_be_of_the_last_moment(rt: HostRuntime) {
    let last = changed(0, &[0, 0x0F, 0x42, 0x3F, 0xFF, 0xFF, 0xFF, 0xFF]);
    let is_last = is_of_time(&rt, rt.alloc(), &last, 4_294_967_295_999_999);
    be(&rt, is_last, "the last moment");
}

#[test]
fn octets_that_are_cut_or_left_are_no_admission(rt: HostRuntime) {
    let mut left = [0u8; 68];
    left[0..67].copy_from_slice(&VECTOR);
    be(&rt, is_none(&rt, rt.alloc(), &left), "an octet left");
    for len in 0..67 {
        be(&rt, is_none(&rt, rt.alloc(), &VECTOR[..len]), "cut at");
    }
}

/// Whether the vector with one more peer, at this place of its octets, is no admission.
fn is_none_with(rt: &impl Abort, alloc: Global, place: usize, other: Peer) -> bool {
    is_none(rt, alloc, &grown(rt, alloc, 9, place, &other.encode()))
}

/// The vector with its route listed twice.
fn with_route_twice(rt: &impl Abort, alloc: Global) -> Vec<u8> {
    let mut row = [0u8; 23];
    row[1] = 21;
    row[2..23].copy_from_slice(&ROUTE);
    grown(rt, alloc, 33, 57, &row)
}

#[test]
fn tables_have_one_encoding(rt: HostRuntime) {
    let alloc = rt.alloc();
    be(
        &rt,
        is_none_with(&rt, alloc, 32, peer()),
        "a peer listed twice",
    );
    be(
        &rt,
        is_none_with(&rt, alloc, 32, later()),
        "a peer that no change uses",
    );
    be(
        &rt,
        is_none_with(&rt, alloc, 10, later()),
        "a first place that isn't 0",
    );
    let routes = with_route_twice(&rt, alloc);
    be(&rt, is_none(&rt, alloc, &routes), "a route listed twice");
}

fn announced(rt: &impl Abort, alloc: Global, other: usize) -> Vec<Change> {
    let change = announcement(rt, alloc, peer(), &[65001], other);
    vec![in alloc; change].expect(rt, "memory")
}

/// Whether an admission of these changes has this many octets, and is read from them.
fn is_read_again(rt: &impl Abort, alloc: Global, changes: Vec<Change>, len: usize) -> bool {
    let admission = admitted(rt, changes);
    let octets = encoded(rt, alloc, &admission);
    let whole = admission.encoded_len() == len && octets.len() == len;
    whole && !is_none(rt, alloc, &octets)
}

/// Why changes are no admission, or none where they are one.
fn refusal_of(changes: Vec<Change>) -> Option<AdmissionError> {
    Admission::new(moment(), changes).err()
}

#[test]
fn routes_have_at_most_3072_octets(rt: HostRuntime) {
    let alloc = rt.alloc();
    // A route with one AS number has 17 octets, and an attribute four and its value.
    let below = announced(&rt, alloc, 3050);
    be(
        &rt,
        is_read_again(&rt, alloc, below, 46 + 3071),
        "3071 octets",
    );
    let most = announced(&rt, alloc, 3051);
    be(
        &rt,
        is_read_again(&rt, alloc, most, 46 + 3072),
        "3072 octets",
    );
    let above = refusal_of(announced(&rt, alloc, 3052));
    be(
        &rt,
        above == Some(AdmissionError::RouteTooLarge),
        "3073 octets",
    );
}

/// The encoding of a route that is one octet too large.
fn large_route(rt: &impl Abort, alloc: Global) -> Vec<u8> {
    let large = route(rt, alloc, &[65001], 3052);
    octets_of_route(rt, alloc, &large)
}

/// The vector with this encoding of 3,073 octets in place of its route's.
fn with_large(rt: &impl Abort, alloc: Global, route: &[u8]) -> Vec<u8> {
    let mut octets = Vec::from_slice(alloc, &VECTOR[..34]).expect(rt, "memory");
    octets.extend_from_slice(&[12, 1]).expect(rt, "memory");
    octets.extend_from_slice(route).expect(rt, "memory");
    octets.extend_from_slice(&VECTOR[57..]).expect(rt, "memory");
    octets
}

#[test]
fn a_route_above_the_limit_is_not_read(rt: HostRuntime) {
    let large = large_route(&rt, rt.alloc());
    be(
        &rt,
        large.len() == 3073,
        "a route above the limit is not read",
    );
    be(
        &rt,
        is_none(&rt, rt.alloc(), &with_large(&rt, rt.alloc(), &large)),
        "a route above the limit is not read",
    );
}

fn withdrawal(length: u8) -> Change {
    Change::Withdraw(
        peer(),
        Prefix::containing(Address::V4([10, 0, 0, 1]), length.min(32)),
    )
}

/// This many withdrawals of 9 octets each, and after them of prefixes of these lengths.
fn withdrawals(rt: &impl Abort, alloc: Global, count: usize, lengths: &[u8]) -> Vec<Change> {
    let mut changes = Vec::new(alloc);
    for _ in 0..count {
        changes.push(withdrawal(32)).expect(rt, "memory");
    }
    for length in lengths {
        changes.push(withdrawal(*length)).expect(rt, "memory");
    }
    changes
}

#[test]
fn admissions_have_at_most_131072_octets(rt: HostRuntime) {
    let alloc = rt.alloc();
    // 36 octets stand before the changes.
    let below = withdrawals(&rt, alloc, 14_558, &[16, 8]);
    be(
        &rt,
        is_read_again(&rt, alloc, below, 131_071),
        "131071 octets",
    );
    let most = withdrawals(&rt, alloc, 14_559, &[0]);
    be(
        &rt,
        is_read_again(&rt, alloc, most, 131_072),
        "131072 octets",
    );
    let above = refusal_of(withdrawals(&rt, alloc, 14_559, &[8]));
    be(
        &rt,
        above == Some(AdmissionError::AdmissionTooLarge),
        "131073 octets",
    );
}

/// The octets of an admission of 131,072, of which the prefix of the last withdrawal becomes 10.0.0.0/8: one octet more.
fn above_the_limit(rt: &impl Abort, alloc: Global) -> Vec<u8> {
    let admission = admitted(rt, withdrawals(rt, alloc, 14_559, &[0]));
    let mut octets = encoded(rt, alloc, &admission);
    be(rt, octets.pop() == Some(0), "another last prefix");
    octets.extend_from_slice(&[8, 10]).expect(rt, "memory");
    octets
}

#[test]
fn octets_of_an_admission_above_the_limit_are_not_read(rt: HostRuntime) {
    let octets = above_the_limit(&rt, rt.alloc());
    be(
        &rt,
        octets.len() == 131_073,
        "octets of an admission above the limit are not read",
    );
    be(
        &rt,
        is_none(&rt, rt.alloc(), &octets),
        "octets of an admission above the limit are not read",
    );
}

#[test]
fn a_route_too_large_is_reported_first(rt: HostRuntime) {
    let mut changes = withdrawals(&rt, rt.alloc(), 14_560, &[]);
    changes
        .push(announcement(&rt, rt.alloc(), peer(), &[65001], 3052))
        .expect(&rt, "memory");
    be(
        &rt,
        refusal_of(changes) == Some(AdmissionError::RouteTooLarge),
        "a route too large is reported first",
    );
}
