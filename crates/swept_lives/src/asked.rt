//! Questions of every kind, and whether two answers are one.

use crate::records::{peer_of, prefix_of};
use disk_archive::AskError;
use interleaving_core::{Answer, Query, Reply};
use route_meaning::{Event, EventsQuestion, Row, RowsQuestion, Select};
use route_model::{Address, Change, Moment};

/// The kinds of questions.
#[derive(Clone, Copy)]
pub(crate) enum Kind {
    Route,
    ByPrefix,
    Covering,
    PeerTable,
    All,
    /// The events of the prefix in the thirty seconds up to the moment.
    Events,
}

/// A question: its kind, the moment, a peer and a prefix.
pub(crate) type Asked = (Kind, u32, u8, u8);

/// The question of these routes at a moment.
pub(crate) fn rows_at(seconds: u32, select: Select) -> Query {
    Query::Rows(RowsQuestion {
        moment: Moment::from(seconds),
        select,
        after: None,
    })
}

/// The question, as both are asked it.
pub(crate) fn query_of(asked: &Asked) -> Query {
    let (kind, seconds, peer, prefix) = *asked;
    let (peer, key) = (peer_of(peer), prefix_of(prefix));
    match kind {
        Kind::Route => rows_at(seconds, Select::Route(peer, key)),
        Kind::ByPrefix => rows_at(seconds, Select::ByPrefix(key)),
        Kind::Covering => rows_at(seconds, Select::Covering(Address::V4([10, prefix, 1, 1]))),
        Kind::PeerTable => rows_at(seconds, Select::PeerTable(peer)),
        Kind::All => rows_at(seconds, Select::All),
        Kind::Events => Query::Events(EventsQuestion {
            from: Moment::from(seconds.saturating_sub(30)),
            to: Moment::from(seconds),
            peer,
            prefix: key,
            skip: 0,
        }),
    }
}

fn same_change(one: &Change, other: &Change) -> bool {
    match (one, other) {
        (Change::Announce(_, _, route), Change::Announce(_, _, same)) => {
            route.encoding() == same.encoding()
        }
        (Change::Withdraw(_, _), Change::Withdraw(_, _)) => true,
        (Change::Down(_), Change::Down(_)) => true,
        _ => false,
    }
}

fn same_rows(one: &[Row], other: &[Row]) -> bool {
    for (row, same) in one.iter().zip(other.iter()) {
        if row.peer != same.peer
            || row.prefix != same.prefix
            || row.route.encoding() != same.route.encoding()
        {
            return false;
        }
    }
    one.len() == other.len()
}

fn same_events(one: &[Event], other: &[Event]) -> bool {
    for (event, same) in one.iter().zip(other.iter()) {
        if event.time != same.time || !same_change(&event.change, &same.change) {
            return false;
        }
    }
    one.len() == other.len()
}

/// Whether an archive answers a question as the pure machine does.
pub fn same(answer: &Result<Answer, AskError>, expected: &Reply) -> bool {
    match (answer, expected) {
        (Ok(Answer::Rows(one)), Reply::Done(Answer::Rows(other))) => {
            one.more == other.more && same_rows(&one.rows, &other.rows)
        }
        (Ok(Answer::Events(one)), Reply::Done(Answer::Events(other))) => {
            one.more == other.more && same_events(&one.events, &other.events)
        }
        (Err(AskError::AboveWatermark(mark)), Reply::AboveWatermark(same)) => *mark == *same,
        _ => false,
    }
}
