//! The events of a history question over a list of admissions.

ghost use Rattle.std.specs.Prelude.{◌≡◌, ◌++◌, map, filter, drop, IfOk, OnOk};
ghost use Rattle.route_meaning.specs.declared.question.Event.{Event};
ghost use Rattle.route_meaning.specs.Holds.{concerns};
ghost use Rattle.route_meaning.specs.Events.{all_events, between, events, IsEventsAnswer};

use crate::placed::PlacedAdmission;
use crate::question::{Event, EventsAnswer, EventsQuestion, MAX_ROWS};
use route_model::{Admission, Change, Peer, Prefix};
use std::alloc::{AllocError, Global};

// Is the change about the prefix of the peer?
fn concerns(peer: &Peer, prefix: &Prefix, change: &Change) -> bool
    ensures { result ≡ concerns peer.now prefix.now change.now }
{
    match change {
        Change::Announce(p, x, _) => p == peer && x == prefix,
        Change::Withdraw(p, x) => p == peer && x == prefix,
        Change::Down(p) => p == peer,
    }
}

// Adds the admission's events for the prefix of the peer.
fn add_reported(
    reported: &mut Vec<Event>,
    admission: &Admission,
    peer: &Peer,
    prefix: &Prefix,
) -> Result<(), AllocError>
    ensures { OnOk result (reported.new.items ≡ reported.old.items ++ map (λ change. record { time = admission.now.time; change = change }) (filter (concerns peer.now prefix.now) admission.now.changes)) }
{
    let time = admission.time();
    for change in admission.changes() {
        if concerns(peer, prefix, change) {
            reported.push(Event {
                time,
                change: change.share()?,
            })?;
        }
    }
    Ok(())
}

// All events for the prefix of the peer in the span.
fn all_reported(
    alloc: Global,
    list: &[PlacedAdmission],
    question: &EventsQuestion,
) -> Result<Vec<Event>, AllocError>
    ensures { IfOk result (λ reported. reported.items ≡ all_events question.now.peer question.now.prefix (between question.now.from question.now.to list.now)) }
{
    let mut reported = Vec::new(alloc);
    for placed in list {
        if placed.is_between(question.from, question.to) {
            add_reported(
                &mut reported,
                placed.admission(),
                &question.peer,
                &question.prefix,
            )?;
        }
    }
    Ok(reported)
}

// Takes the first `count` events away, or all where there are fewer.
fn skip(events: &mut Vec<Event>, count: u64)
    ensures { events.new.items ≡ drop count events.old.items }
{
    let count = events.len().min(count as usize);
    events.drain(..count);
}

/// The events of the question in the order of the history: all of its span, without the first that it skips. The list is in
/// the one order of the collectors, as [`crate::merge`] gives it.
pub fn events_of(
    alloc: Global,
    list: &[PlacedAdmission],
    question: &EventsQuestion,
) -> Result<Vec<Event>, AllocError>
    ensures events { IfOk result (λ reported. reported.items ≡ events list.now question.now) }
{
    // All of them are gathered before the skip and the cut: the span bounds them.
    let mut reported = all_reported(alloc, list, question)?;
    skip(&mut reported, question.skip);
    Ok(reported)
}

/// The answer to the question: the first of its events, at most [`MAX_ROWS`], and whether more follow. The list is in the one
/// order of the collectors, as [`crate::merge`] gives it.
pub fn answer_events(
    alloc: Global,
    list: &[PlacedAdmission],
    question: &EventsQuestion,
) -> Result<EventsAnswer, AllocError>
    ensures answer { IfOk result (λ answer. IsEventsAnswer list.now question.now answer.events.items answer.more) }
{
    let mut reported = events_of(alloc, list, question)?;
    let more = reported.len() > MAX_ROWS;
    reported.truncate(MAX_ROWS);
    Ok(EventsAnswer {
        events: reported,
        more,
    })
}
