//! Turns of questions.

ghost use Rattle.std.specs.Prelude.{◌≡◌, ◌++◌, ◌↔◌, List, nat_le, drop, length, IsTrue, IfOk, OnOk};
ghost use Rattle.route_meaning.specs.declared.question.Row.{Row};
ghost use Rattle.route_meaning.specs.Rows.{row_number, spot_number};
ghost use Rattle.route_meaning.specs.Events.{events};
ghost use Rattle.interleaving_core.specs.declared.question.Question.TheVariants.{OfRows, OfEvents};
ghost use Rattle.interleaving_core.specs.declared.step.Reach.TheVariants.{End};
ghost use Rattle.interleaving_core.specs.Does.{IsInProgress};
ghost use Rattle.interleaving_core.specs.Turns.{is_further, rows_up_to, added_rows, come_to, added_events, AreLeft, TakesTurn};

use crate::query::{Answer, Query};
use crate::question::{EventsSoFar, Question, RowsSoFar};
use crate::reply::Reply;
use crate::step::Reach;
use route_meaning::{
    Event, EventsAnswer, MAX_ROWS, PlacedAdmission, Row, RowsAnswer, RowsRange, Spot, events_of,
    rows_in,
};
use route_model::Key;
use std::alloc::{AllocError, Global};

/// What a turn replies, and what becomes of its question.
#[derive(Debug, Drop)]
pub(crate) struct Turned {
    pub(crate) reply: Reply,
    pub(crate) question: Question,
}

/// Whether the row lies no further than the spot.
fn is_up_to(row: &Row, spot: &Spot) -> bool
    ensures { result ≡ nat_le (row_number row.now) (spot_number spot.now) }
{
    Key::prefix(&row.peer, &row.prefix) <= Key::prefix(&spot.peer, &spot.prefix)
}

/// Whether the spot lies beyond the one that was come to.
fn is_further(low: &Option<Spot>, spot: &Spot) -> bool
    ensures { result ≡ is_further low.now spot.now }
{
    match low {
        Some(low) => Key::prefix(&low.peer, &low.prefix) < Key::prefix(&spot.peer, &spot.prefix),
        None => true,
    }
}

/// Whether all that is left is to be gone over.
fn is_end(reach: &Reach) -> bool
    ensures { IsTrue result ↔ (reach.now ≡ End) }
{
    matches!(reach, Reach::End)
}

/// The spot that a question has come to after a turn.
fn come_to(low: Option<Spot>, reach: &Reach) -> Option<Spot>
    ensures { result ≡ come_to low reach.now }
{
    match reach {
        Reach::UpTo(spot) => {
            if is_further(&low, spot) {
                Some(*spot)
            } else {
                low
            }
        }
        Reach::Further(_) | Reach::End => low,
    }
}

/// The same row; the route is shared.
fn same_row(row: &Row) -> Result<Row, AllocError>
    ensures { IfOk result (λ same. same ≡ row.now) }
{
    Ok(Row {
        peer: row.peer,
        prefix: row.prefix,
        route: row.route.share()?,
    })
}

/// The same rows.
fn same_rows(alloc: Global, rows: &[Row]) -> Result<Vec<Row>, AllocError>
    ensures { IfOk result (λ same. same.items ≡ rows.now) }
{
    let mut same = Vec::with_capacity(alloc, rows.len())?;
    for row in rows {
        same.push(same_row(row)?)?;
    }
    Ok(same)
}

/// Puts the rows up to the spot at the end.
fn add_up_to(rows: &mut Vec<Row>, left: &[Row], spot: &Spot) -> Result<(), AllocError>
    ensures { OnOk result (rows.new.items ≡ rows.old.items ++ rows_up_to spot.now left.now) }
{
    for row in left {
        if is_up_to(row, spot) {
            rows.push(same_row(row)?)?;
        }
    }
    Ok(())
}

/// Puts the rows that a turn adds at the end.
fn add_rows(
    rows: &mut Vec<Row>,
    low: &Option<Spot>,
    reach: &Reach,
    left: Vec<Row>,
) -> Result<(), AllocError>
    ensures { OnOk result (rows.new.items ≡ rows.old.items ++ added_rows low.now reach.now left.items) }
{
    let mut left = left;
    match reach {
        Reach::UpTo(spot) => {
            if is_further(low, spot) {
                add_up_to(rows, &left, spot)?;
            }
        }
        Reach::Further(_) => {}
        Reach::End => rows.append(&mut left)?,
    }
    Ok(())
}

/// The rows so far and those that the turn adds. They are copies, whose routes are shared: a turn that is refused memory leaves its
/// question as it was.
fn rows_after(
    alloc: Global,
    applied: &[PlacedAdmission],
    so_far: &RowsSoFar,
    reach: &Reach,
) -> Result<Vec<Row>, AllocError>
    ensures { IfOk result (λ rows. (left : List Row) × AreLeft applied.now so_far.now left × (rows.items ≡ so_far.now.rows ++ added_rows so_far.now.low reach.now left)) }
{
    let range = RowsRange {
        select: so_far.question.select,
        low: so_far.low,
        high: None,
    };
    let left = rows_in(alloc, applied, so_far.question.moment, &range)?;
    let mut rows = same_rows(alloc, &so_far.rows)?;
    add_rows(&mut rows, &so_far.low, reach, left)?;
    Ok(rows)
}

/// A turn of a question of a moment, over what is applied.
pub(crate) fn rows_turn(
    alloc: Global,
    applied: &[PlacedAdmission],
    so_far: &RowsSoFar,
    reach: &Reach,
) -> Result<Turned, AllocError>
    ensures { IfOk result (λ turned. TakesTurn applied.now reach.now (OfRows so_far.now) turned.reply turned.question) }
{
    let mut rows = rows_after(alloc, applied, so_far, reach)?;
    let more = rows.len() > MAX_ROWS;
    if more || is_end(reach) {
        rows.truncate(MAX_ROWS);
        return Ok(Turned {
            reply: Reply::Done(Answer::Rows(RowsAnswer { rows, more })),
            question: Question::Ended(Query::Rows(so_far.question)),
        });
    }
    Ok(Turned {
        reply: Reply::Again,
        question: Question::OfRows(RowsSoFar {
            question: so_far.question,
            low: come_to(so_far.low, reach),
            rows,
        }),
    })
}

/// The same events; their routes are shared.
fn same_events(alloc: Global, events: &[Event]) -> Result<Vec<Event>, AllocError>
    ensures { IfOk result (λ same. same.items ≡ events.now) }
{
    let mut same = Vec::with_capacity(alloc, events.len())?;
    for event in events {
        same.push(Event {
            time: event.time,
            change: event.change.share()?,
        })?;
    }
    Ok(same)
}

/// Leaves of the events those that a turn adds.
fn keep_added(left: &mut Vec<Event>, reach: &Reach)
    ensures { left.new.items ≡ added_events reach.now left.old.items }
{
    match reach {
        Reach::UpTo(_) => left.clear(),
        Reach::Further(count) => {
            let count = left.len().min(*count as usize);
            left.truncate(count);
        }
        Reach::End => {}
    }
}

/// The events so far and those that the turn adds.
fn events_after(
    alloc: Global,
    applied: &[PlacedAdmission],
    so_far: &EventsSoFar,
    reach: &Reach,
) -> Result<Vec<Event>, AllocError>
    ensures { IfOk result (λ reported. reported.items ≡ so_far.now.events ++ added_events reach.now (drop (length so_far.now.events) (events applied.now so_far.now.question))) }
{
    let mut left = events_of(alloc, applied, &so_far.question)?;
    let count = left.len().min(so_far.events.len());
    left.drain(..count);
    keep_added(&mut left, reach);
    let mut reported = same_events(alloc, &so_far.events)?;
    reported.append(&mut left)?;
    Ok(reported)
}

/// A turn of a question of events, over what is applied.
pub(crate) fn events_turn(
    alloc: Global,
    applied: &[PlacedAdmission],
    so_far: &EventsSoFar,
    reach: &Reach,
) -> Result<Turned, AllocError>
    ensures { IfOk result (λ turned. TakesTurn applied.now reach.now (OfEvents so_far.now) turned.reply turned.question) }
{
    let mut reported = events_after(alloc, applied, so_far, reach)?;
    let more = reported.len() > MAX_ROWS;
    if more || is_end(reach) {
        reported.truncate(MAX_ROWS);
        return Ok(Turned {
            reply: Reply::Done(Answer::Events(EventsAnswer {
                events: reported,
                more,
            })),
            question: Question::Ended(Query::Events(so_far.question)),
        });
    }
    Ok(Turned {
        reply: Reply::Again,
        question: Question::OfEvents(EventsSoFar {
            question: so_far.question,
            events: reported,
        }),
    })
}

/// A turn of a question that hasn't ended, over what is applied.
pub(crate) fn take_turn(
    alloc: Global,
    applied: &[PlacedAdmission],
    question: &Question,
    reach: &Reach,
) -> Result<Turned, AllocError>
    requires in_progress { IsInProgress question.now }
    ensures { IfOk result (λ turned. TakesTurn applied.now reach.now question.now turned.reply turned.question) }
{
    match question {
        Question::OfRows(so_far) => rows_turn(alloc, applied, so_far, reach),
        Question::OfEvents(so_far) => events_turn(alloc, applied, so_far, reach),
        // Not met: the question is in progress.
        Question::Ended(_) => Err(AllocError),
    }
}
