//! Batches of admissions.

ghost use Rattle.std.specs.Prelude.{IfSome};
ghost use Rattle.std.specs.List.{AllByRecursion};
ghost use Rattle.route_model.specs.Admission.{IsAdmission};

use crate::acts::Batch;
use route_model::{Address, Admission, Change, Moment, Peer, Prefix, Route, SharedRoute};
use std::alloc::Global;

// A route by AS 65001 from 192.0.2.1, of 19 octets.
const ROUTE: [u8; 19] = [
    0, 0, 1, 2, 2, 0, 0, 0xFD, 0xE9, 0, 0, 0xFD, 0xEA, 4, 0xC0, 0, 2, 1, 0,
];

// The same, with an attribute of type 99 that has 2,900 octets.
fn large_route(alloc: Global) -> Option<SharedRoute> {
    let mut octets = ROUTE.to_vec(alloc).ok()?;
    octets
        .extend_from_slice(&[0, 1, 99, 0xC0, 0x0B, 0x54])
        .ok()?;
    octets.resize(2_925, 0).ok()?;
    let route = Route::decode(alloc, &octets).ok()??;
    SharedRoute::new(alloc, route).ok()
}

// The announcement of 10.0.0.0/8 by the large route.
fn large_change(alloc: Global) -> Option<Change> {
    let peer = Peer {
        collector: 0,
        address: Address::V4([192, 0, 2, 1]),
        as_number: 65001,
    };
    let prefix = Prefix::containing(Address::V4([10, 0, 0, 0]), 8);
    Some(Change::Announce(peer, prefix, large_route(alloc)?))
}

// An admission of these changes at a second.
fn admission(changes: Vec<Change>, second: u32) -> Option<Admission>
    ensures valid { IfSome result IsAdmission }
{
    match Admission::new(Moment::from(second), changes) {
        Ok(admission) => Some(admission),
        Err(_) => None,
    }
}

// An admission that announces by the large route.
fn large(alloc: Global, second: u32) -> Option<Admission>
    ensures valid { IfSome result IsAdmission }
{
    let mut changes = Vec::new(alloc);
    changes.push(large_change(alloc)?).ok()?;
    admission(changes, second)
}

// The admission of this number in a batch.
fn one_of(alloc: Global, batch: Batch, number: u8) -> Option<Admission>
    ensures valid { IfSome result IsAdmission }
{
    match batch {
        Batch::Empty(_, second) => admission(Vec::new(alloc), second),
        Batch::Large(_, second) => large(alloc, second.saturating_add(u32::from(number))),
    }
}

/// A batch.
pub(crate) fn batch_of(alloc: Global, batch: Batch) -> Option<Vec<Admission>>
    ensures valid { IfSome result (λ admissions. AllByRecursion IsAdmission admissions.items) }
{
    let (Batch::Empty(count, _) | Batch::Large(count, _)) = batch;
    let mut admissions = Vec::new(alloc);
    for number in 0..count {
        let Some(admission) = one_of(alloc, batch, number) else {
            return None;
        };
        admissions.push(admission).ok()?;
    }
    Some(admissions)
}
