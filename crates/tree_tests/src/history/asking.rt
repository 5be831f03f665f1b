//! Whole questions, by turns and errands.

use super::said::{events_text, rows_text};
use super::store::{ListStore, Past};
use route_history::{
    EventsCursor, EventsTurn, RowsCursor, RowsTurn, take_events_turn, take_rows_turn,
};
use route_meaning::{EventsAnswer, EventsQuestion, RowsAnswer, RowsQuestion};
use std::alloc::Global;

/// More turns than any question of the tests takes.
const TURNS: u32 = 20_000;

/// The answer to a question of a moment.
fn rows_of(
    alloc: Global,
    store: &mut ListStore,
    past: &mut Past,
    question: RowsQuestion,
) -> Option<RowsAnswer> {
    let mut cursor = RowsCursor::start(alloc, question);
    for _ in 0..TURNS {
        match take_rows_turn(store, alloc, &mut cursor).ok()? {
            RowsTurn::Done(answer) => return Some(answer),
            RowsTurn::Again => {}
            RowsTurn::Historical(errand) => {
                errand
                    .finish(&mut past.reader, &mut past.seen, alloc, &mut cursor)
                    .ok()?;
            }
        }
    }
    None
}

/// The answer as text to a question of a moment.
pub(super) fn ask_rows(
    alloc: Global,
    store: &mut ListStore,
    past: &mut Past,
    question: RowsQuestion,
) -> Option<String> {
    let answer = rows_of(alloc, store, past, question)?;
    rows_text(alloc, &answer)
}

/// The answer to a question of a history.
fn events_of(
    alloc: Global,
    store: &mut ListStore,
    past: &mut Past,
    question: EventsQuestion,
) -> Option<EventsAnswer> {
    let mut cursor = EventsCursor::start(alloc, question);
    for _ in 0..TURNS {
        match take_events_turn(store, alloc, &mut cursor).ok()? {
            EventsTurn::Done(answer) => return Some(answer),
            EventsTurn::Again => {}
            EventsTurn::Historical(errand) => {
                errand
                    .finish(&mut past.reader, &mut past.seen, alloc, &mut cursor)
                    .ok()?;
            }
        }
    }
    None
}

/// The answer as text to a question of a history.
pub(super) fn ask_events(
    alloc: Global,
    store: &mut ListStore,
    past: &mut Past,
    question: EventsQuestion,
) -> Option<String> {
    let answer = events_of(alloc, store, past, question)?;
    events_text(alloc, &answer)
}
