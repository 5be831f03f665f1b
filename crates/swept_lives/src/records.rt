//! Records of one change, with large routes: a leaf has room for five of them.

use route_model::{Address, Admission, Change, Moment, Peer, Prefix, Route, SharedRoute};
use std::alloc::Global;

/// A record of one change: its time, a peer and a prefix, and the route that is announced. Route 0 is a withdrawal, and 255 the end of
/// the session.
pub type Record = (u32, u8, u8, u8);

/// The front of a route: by 65001 and 65002, with an attribute of type 99, and how many octets all has.
struct Front {
    octets: &'static [u8],
    length: usize,
}

/// A route whose attribute has 3,035 octets.
const LARGE: Front = Front {
    octets: &[
        0, 0, 1, 2, 2, 0, 0, 0xFD, 0xE9, 0, 0, 0xFD, 0xEA, 4, 0xC0, 0, 2, 1, 0, 0, 1, 99, 0xC0,
        0x0B, 0xDB,
    ],
    length: 3_060,
};

/// The route for the smallest key of all, whose attribute has 1,375.
const SMALL: Front = Front {
    octets: &[
        0, 0, 1, 2, 2, 0, 0, 0xFD, 0xE9, 0, 0, 0xFD, 0xEA, 4, 0xC0, 0, 2, 1, 0, 0, 1, 99, 0xC0,
        0x05, 0x5F,
    ],
    length: 1_400,
};

/// The peers below 3 are of collector 0, the others of collector 1.
pub(crate) fn peer_of(number: u8) -> Peer {
    Peer {
        collector: if number < 3 { 0 } else { 1 },
        address: Address::V4([192, 0, 2, number]),
        as_number: 65001,
    }
}

pub(crate) fn prefix_of(number: u8) -> Prefix {
    Prefix::containing(Address::V4([10, number, 0, 0]), 16)
}

/// The route of this number, with this front.
fn route_of(alloc: Global, front: &Front, number: u8) -> Option<SharedRoute> {
    let mut octets = front.octets.to_vec(alloc).ok()?;
    octets.resize(front.length, number).ok()?;
    let route = Route::decode(alloc, &octets).ok()?;
    SharedRoute::new(alloc, route?).ok()
}

fn change_of(alloc: Global, record: &Record) -> Option<Change> {
    let (_, peer, prefix, number) = *record;
    let front = if peer == 1 && prefix == 0 {
        &SMALL
    } else {
        &LARGE
    };
    match number {
        0 => Some(Change::Withdraw(peer_of(peer), prefix_of(prefix))),
        255 => Some(Change::Down(peer_of(peer))),
        _ => {
            let route = route_of(alloc, front, number)?;
            Some(Change::Announce(peer_of(peer), prefix_of(prefix), route))
        }
    }
}

/// The record, as a collector gives it.
pub(crate) fn admission_of(alloc: Global, record: &Record) -> Option<Admission> {
    let mut changes = Vec::new(alloc);
    changes.push(change_of(alloc, record)?).ok()?;
    Admission::new(Moment::from(record.0), changes).ok()
}

/// The batch of these records.
pub(crate) fn batch_of(alloc: Global, records: &[Record]) -> Option<Vec<Admission>> {
    let mut batch = Vec::new(alloc);
    for record in records {
        batch.push(admission_of(alloc, record)?).ok()?;
    }
    Some(batch)
}
