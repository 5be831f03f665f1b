//! What peers say, and replies as text.

use interleaving_core::{Answer, BatchReply, Reply};
use route_meaning::{Event, Row, Spot};
use route_model::{
    Address, Admission, AsNumbers, Attributes, Change, Moment, NextHop, Origin, Path, Peer, Prefix,
    Route, Segment, SharedRoute,
};
use std::alloc::Global;
use std::process::Abort;

/// What a peer says: of the prefix 10.SECOND.0.0/16, and with the last AS number of the path.
#[derive(Clone, Copy)]
pub(crate) enum Said {
    Announces(u8, u32),
    Withdraws(u8),
    Ends,
    /// Withdraws and announces.
    Renews(u8, u32),
}

/// The peer of a collector: 192.0.2.1, AS 65001.
pub(crate) fn peer_of(collector: u8) -> Peer {
    Peer {
        collector,
        address: Address::V4([192, 0, 2, 1]),
        as_number: 65001,
    }
}

pub(crate) fn prefix_of(second: u8) -> Prefix {
    Prefix::containing(Address::V4([10, second, 0, 0]), 16)
}

pub(crate) fn spot_of(collector: u8, second: u8) -> Spot {
    Spot {
        peer: peer_of(collector),
        prefix: prefix_of(second),
    }
}

pub(crate) fn moment_of(seconds: u32) -> Moment {
    Moment::from(seconds)
}

/// The path 65001 LAST.
pub(crate) fn route_of(rt: &impl Abort, alloc: Global, last: u32) -> SharedRoute {
    let numbers = vec![in alloc; 65001u32, last].expect(rt, "memory");
    let segments = vec![in alloc; Segment::Sequence(AsNumbers::new(numbers))].expect(rt, "memory");
    let others = Attributes::try_new(Vec::new(alloc)).expect(rt, "attributes out of order");
    let route = Route {
        origin: Origin::Igp,
        path: Path::new(segments),
        next_hop: NextHop::One(Address::V4([192, 0, 2, 1])),
        med: None,
        local_pref: None,
        atomic_aggregate: false,
        aggregator: None,
        others,
    };
    SharedRoute::new(alloc, route).expect(rt, "memory")
}

/// The change, the last one of two.
fn change_of(rt: &impl Abort, alloc: Global, peer: Peer, said: Said) -> Change {
    match said {
        Said::Announces(second, last) | Said::Renews(second, last) => {
            Change::Announce(peer, prefix_of(second), route_of(rt, alloc, last))
        }
        Said::Withdraws(second) => Change::Withdraw(peer, prefix_of(second)),
        Said::Ends => Change::Down(peer),
    }
}

/// The admission of what the peer of a collector says at a time.
pub(crate) fn admission_of(
    rt: &impl Abort,
    alloc: Global,
    collector: u8,
    seconds: u32,
    said: &[Said],
) -> Admission {
    let mut changes = Vec::new(alloc);
    for one in said {
        if let Said::Renews(second, _) = one {
            let withdrawn = Change::Withdraw(peer_of(collector), prefix_of(*second));
            changes.push(withdrawn).expect(rt, "memory");
        }
        let change = change_of(rt, alloc, peer_of(collector), *one);
        changes.push(change).expect(rt, "memory");
    }
    Admission::new(moment_of(seconds), changes).expect(rt, "an admission")
}

fn second_octet(prefix: &Prefix) -> u8 {
    let octets = prefix.address().wide();
    octets[1]
}

fn last_number(route: &SharedRoute) -> u32 {
    match route.route().path.as_slice().last() {
        Some(Segment::Sequence(numbers)) => numbers.as_slice().last().copied().unwrap_or(0),
        _ => 0,
    }
}

/// Puts a piece at a text's end.
pub(crate) fn put(rt: &impl Abort, text: &mut String, piece: &str) {
    text.push_str(piece).expect(rt, "memory");
}

/// Puts a piece and a number there.
pub(crate) fn put_number(
    rt: &impl Abort,
    alloc: Global,
    text: &mut String,
    piece: &str,
    number: u64,
) {
    let number = format!(in alloc; "{piece}{number}").expect(rt, "memory");
    put(rt, text, &number);
}

fn put_row(rt: &impl Abort, alloc: Global, text: &mut String, row: &Row) {
    put_number(rt, alloc, text, " ", row.peer.collector as u64);
    put_number(rt, alloc, text, "/", second_octet(&row.prefix) as u64);
    put_number(rt, alloc, text, ":", last_number(&row.route) as u64);
}

/// Rows as text: of each the collector, the prefix and the last AS number.
pub(crate) fn rows_text(rt: &impl Abort, alloc: Global, rows: &[Row], more: bool) -> String {
    let mut text = String::new(alloc);
    put(rt, &mut text, "rows");
    for row in rows {
        put_row(rt, alloc, &mut text, row);
    }
    if more {
        put(rt, &mut text, " more");
    }
    text
}

fn put_event(rt: &impl Abort, alloc: Global, text: &mut String, event: &Event) {
    put_number(rt, alloc, text, " ", event.time.number() / Moment::SECOND);
    match &event.change {
        Change::Announce(_, prefix, route) => {
            put_number(rt, alloc, text, "+", second_octet(prefix) as u64);
            put_number(rt, alloc, text, ":", last_number(route) as u64);
        }
        Change::Withdraw(_, prefix) => {
            put_number(rt, alloc, text, "-", second_octet(prefix) as u64);
        }
        Change::Down(_) => put(rt, text, "-all"),
    }
}

/// Events as text: of each the time, and what was said.
pub(crate) fn events_text(rt: &impl Abort, alloc: Global, events: &[Event], more: bool) -> String {
    let mut text = String::new(alloc);
    put(rt, &mut text, "events");
    for event in events {
        put_event(rt, alloc, &mut text, event);
    }
    if more {
        put(rt, &mut text, " more");
    }
    text
}

pub(crate) fn answer_text(rt: &impl Abort, alloc: Global, answer: &Answer) -> String {
    match answer {
        Answer::Rows(answer) => rows_text(rt, alloc, &answer.rows, answer.more),
        Answer::Events(answer) => events_text(rt, alloc, &answer.events, answer.more),
    }
}

fn put_batch(rt: &impl Abort, alloc: Global, text: &mut String, reported: &BatchReply) {
    put_number(rt, alloc, text, "", reported.receipt.collector as u64);
    put_number(rt, alloc, text, ": ", reported.receipt.from);
    put_number(rt, alloc, text, "..", reported.receipt.to);
    put_number(rt, alloc, text, " of ", reported.offered);
    for late in &reported.late {
        put_number(rt, alloc, text, ", late ", late.index as u64);
        put_number(rt, alloc, text, " at ", late.time.number() / Moment::SECOND);
        put_number(
            rt,
            alloc,
            text,
            " below ",
            late.mark.number() / Moment::SECOND,
        );
    }
}

/// Puts a reply at a text's end.
pub(crate) fn put_reply(rt: &impl Abort, alloc: Global, text: &mut String, reply: &Reply) {
    match reply {
        Reply::Taken(reported) => put_batch(rt, alloc, text, reported),
        Reply::Marked => put(rt, text, "marked"),
        Reply::NoCollector => put(rt, text, "no collector"),
        Reply::MarkBack => put(rt, text, "mark back"),
        Reply::Applied => put(rt, text, "applied"),
        Reply::Idle => put(rt, text, "idle"),
        Reply::Flushed => put(rt, text, "flushed"),
        Reply::Begun(number) => put_number(rt, alloc, text, "begun ", *number as u64),
        Reply::Again => put(rt, text, "again"),
        Reply::Done(answer) => put(rt, text, &answer_text(rt, alloc, answer)),
        Reply::AboveWatermark(mark) => put_number(
            rt,
            alloc,
            text,
            "above ",
            mark.number() / Moment::SECOND,
        ),
        Reply::NoQuestion => put(rt, text, "no question"),
        Reply::Crashed => put(rt, text, "crashed"),
        Reply::Recovered => put(rt, text, "recovered"),
        Reply::NeedsRecovery => put(rt, text, "needs recovery"),
    }
}
