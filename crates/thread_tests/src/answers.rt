//! Whether two answers are the same.

use interleaving_core::Answer;
use route_meaning::{Event, EventsAnswer, Row, RowsAnswer};
use route_model::Change;

fn rows_alike(one: &RowsAnswer, other: &RowsAnswer) -> bool {
    one.more == other.more
        && one.rows.len() == other.rows.len()
        && one
            .rows
            .iter()
            .zip(other.rows.iter())
            .all(|(row, it)| row_alike(row, it))
}

fn row_alike(one: &Row, other: &Row) -> bool {
    one.peer == other.peer
        && one.prefix == other.prefix
        && one.route.encoding() == other.route.encoding()
}

fn events_alike(one: &EventsAnswer, other: &EventsAnswer) -> bool {
    one.more == other.more
        && one.events.len() == other.events.len()
        && one
            .events
            .iter()
            .zip(other.events.iter())
            .all(|(event, it)| event_alike(event, it))
}

fn event_alike(one: &Event, other: &Event) -> bool {
    one.time == other.time && changes_alike(&one.change, &other.change)
}

fn changes_alike(one: &Change, other: &Change) -> bool {
    match (one, other) {
        (Change::Announce(peer, prefix, route), Change::Announce(who, what, it)) => {
            peer == who && prefix == what && route.encoding() == it.encoding()
        }
        (Change::Withdraw(peer, prefix), Change::Withdraw(who, what)) => {
            peer == who && prefix == what
        }
        (Change::Down(peer), Change::Down(who)) => peer == who,
        _ => false,
    }
}

/// Whether both have the same rows or events, in the same order, and say the same of more of them.
pub(crate) fn answers_alike(one: &Answer, other: &Answer) -> bool {
    match (one, other) {
        (Answer::Rows(rows), Answer::Rows(others)) => rows_alike(rows, others),
        (Answer::Events(events), Answer::Events(others)) => events_alike(events, others),
        _ => false,
    }
}
