//! What peers say, and answers as text.

use route_meaning::{Event, EventsAnswer, Row, RowsAnswer};
use route_model::{
    Address, Admission, AsNumbers, Attributes, Change, Moment, NextHop, Origin, Path, Peer, Prefix,
    Route, Segment, SharedRoute,
};
use std::alloc::Global;

/// What a peer says of a prefix, and with the last AS number of the path.
#[derive(Clone, Copy)]
pub(super) enum Said {
    Announces(Prefix, u32),
    Withdraws(Prefix),
    Ends,
}

/// The peer at 192.0.2.1 of a collector and an AS number.
pub(super) fn peer_of(collector: u8, as_number: u32) -> Peer {
    Peer {
        collector,
        address: Address::V4([192, 0, 2, 1]),
        as_number,
    }
}

/// The prefix 10.SECOND.THIRD.0 of a length.
pub(super) fn prefix_of(second: u8, third: u8, length: u8) -> Prefix {
    let length = if length > 32 { 32 } else { length };
    Prefix::containing(Address::V4([10, second, third, 0]), length)
}

pub(super) fn moment_of(seconds: u32) -> Moment {
    Moment::from(seconds)
}

/// The path 65001 LAST.
fn path_of(alloc: Global, last: u32) -> Option<Path> {
    let numbers = vec![in alloc; 65001u32, last].ok()?;
    let segments = vec![in alloc; Segment::Sequence(AsNumbers::new(numbers))].ok()?;
    Some(Path::new(segments))
}

/// A route of this path.
fn route_of(alloc: Global, last: u32) -> Option<SharedRoute> {
    let route = Route {
        origin: Origin::Igp,
        path: path_of(alloc, last)?,
        next_hop: NextHop::One(Address::V4([192, 0, 2, 1])),
        med: None,
        local_pref: None,
        atomic_aggregate: false,
        aggregator: None,
        others: Attributes::try_new(Vec::new(alloc))?,
    };
    SharedRoute::new(alloc, route).ok()
}

pub(super) fn change_of(alloc: Global, peer: Peer, said: Said) -> Option<Change> {
    Some(match said {
        Said::Announces(prefix, last) => Change::Announce(peer, prefix, route_of(alloc, last)?),
        Said::Withdraws(prefix) => Change::Withdraw(peer, prefix),
        Said::Ends => Change::Down(peer),
    })
}

/// The admission of what peers say at a time.
pub(super) fn admission_of(
    alloc: Global,
    seconds: u32,
    said: &[(Peer, Said)],
) -> Option<Admission> {
    let mut changes = Vec::new(alloc);
    for (peer, one) in said {
        changes.push(change_of(alloc, *peer, *one)?).ok()?;
    }
    Admission::new(moment_of(seconds), changes).ok()
}

fn last_number(route: &SharedRoute) -> u32 {
    match route.route().path.as_slice().last() {
        Some(Segment::Sequence(numbers)) => numbers.as_slice().last().copied().unwrap_or(0),
        _ => 0,
    }
}

/// The first four octets of the address, and the length.
fn prefix_text(alloc: Global, prefix: &Prefix) -> Option<String> {
    let octets = prefix.address().wide();
    let family = prefix.address().family();
    let length = prefix.length();
    format!(in alloc;
        "{family}:{}.{}.{}.{}/{length}",
        octets[0], octets[1], octets[2], octets[3]
    )
    .ok()
}

/// Of a row the collector, the AS number of the peer, the prefix and the last AS number.
fn row_text(alloc: Global, row: &Row) -> Option<String> {
    let prefix = prefix_text(alloc, &row.prefix)?;
    let last = last_number(&row.route);
    let collector = row.peer.collector;
    let as_number = row.peer.as_number;
    format!(in alloc; " {collector}-{as_number} {prefix} {last};").ok()
}

/// The rows as text.
pub(super) fn rows_text(alloc: Global, answer: &RowsAnswer) -> Option<String> {
    let mut text = String::from_str(alloc, "rows").ok()?;
    for row in &answer.rows {
        text.push_str(&row_text(alloc, row)?).ok()?;
    }
    if answer.more {
        text.push_str(" more").ok()?;
    }
    Some(text)
}

fn change_text(alloc: Global, change: &Change) -> Option<String> {
    match change {
        Change::Announce(_, prefix, route) => {
            let prefix = prefix_text(alloc, prefix)?;
            let last = last_number(route);
            format!(in alloc; "+{prefix} {last};").ok()
        }
        Change::Withdraw(_, prefix) => {
            let prefix = prefix_text(alloc, prefix)?;
            format!(in alloc; "-{prefix};").ok()
        }
        Change::Down(_) => format!(in alloc; "all;").ok(),
    }
}

/// The time of an event, and what the peer said.
fn event_text(alloc: Global, event: &Event) -> Option<String> {
    let time = event.time.number() / Moment::SECOND;
    let change = change_text(alloc, &event.change)?;
    format!(in alloc; " {time}{change}").ok()
}

/// The events as text.
pub(super) fn events_text(alloc: Global, answer: &EventsAnswer) -> Option<String> {
    let mut text = String::from_str(alloc, "events").ok()?;
    for event in &answer.events {
        text.push_str(&event_text(alloc, event)?).ok()?;
    }
    if answer.more {
        text.push_str(" more").ok()?;
    }
    Some(text)
}
