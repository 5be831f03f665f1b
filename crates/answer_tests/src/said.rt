//! What peers say.

use route_model::{
    Address, AsNumbers, Attributes, Moment, NextHop, Origin, Path, Peer, Prefix, Route, Segment,
    SharedRoute,
};
use std::alloc::Global;

// How many numbers a path has. A leaf has room for 15 routes by such paths.
const LONG: usize = 240;

/// The peer at 192.0.2.1 of a collector and an AS number.
pub(crate) fn peer_of(collector: u8, as_number: u32) -> Peer {
    Peer {
        collector,
        address: Address::V4([192, 0, 2, 1]),
        as_number,
    }
}

/// The prefix 10.SECOND.THIRD.0 of a length.
pub(crate) fn prefix_of(second: u8, third: u8, length: u8) -> Prefix {
    Prefix::containing(Address::V4([10, second, third, 0]), length.min(32))
}

pub(crate) fn moment_of(seconds: u32) -> Moment {
    Moment::from(seconds)
}

/// A route of nearly 1,000 octets, which this MED distinguishes from others.
pub(crate) fn route_of(alloc: Global, med: u32) -> Option<SharedRoute> {
    let numbers = AsNumbers::new(vec![in alloc; 65001u32; LONG].ok()?);
    let others = Attributes::try_new(Vec::new(alloc))?;
    let route = Route {
        origin: Origin::Igp,
        path: Path::new(vec![in alloc; Segment::Sequence(numbers)].ok()?),
        next_hop: NextHop::One(Address::V4([192, 0, 2, 1])),
        med: Some(med),
        local_pref: None,
        atomic_aggregate: false,
        aggregator: None,
        others,
    };
    SharedRoute::new(alloc, route).ok()
}
