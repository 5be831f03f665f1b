//! What happened to some prefixes in a span.

ghost use Rattle.route_meaning.specs.History.{History};

use crate::changes::{Held, Span, changed_spots, events_of, held_before, held_of_ended};
use crate::ending::of_memory;
use crate::matching::Numbers;
use crate::pages::events_page;
use crate::scope::Scope;
use archive_calls::{AskError, RouteSource, Trouble};
use route_meaning::{Event, Spot};
use route_model::{Change, Moment, Peer, SharedRoute};
use std::alloc::{AllocError, Global};

/// What happened at a spot. The end of a session is found at each spot whose route it ended.
#[derive(Debug, Drop)]
pub(crate) struct Found {
    pub(crate) spot: Spot,
    pub(crate) event: Event,
}

/// When something happened, and where: what is found is ordered so.
#[derive(Clone, Copy, Debug, PartialEq, Eq, PartialOrd, Ord, Drop)]
struct Place {
    time: Moment,
    spot: Spot,
}

impl Found {
    fn place(&self) -> Place {
        Place {
            time: self.event.time,
            spot: self.spot,
        }
    }
}

/// The route that an event begins.
fn begun_by(change: &Change) -> Result<Option<SharedRoute>, AllocError> {
    match change {
        Change::Announce(_, _, route) => Ok(Some(route.share()?)),
        Change::Withdraw(_, _) | Change::Down(_) => Ok(None),
    }
}

/// Adds an event of a spot, if it is asked for. The end of a session is only if a route holds then.
fn add_event(
    found: &mut Vec<Found>,
    spot: &Spot,
    held: &mut Option<SharedRoute>,
    event: Event,
    numbers: &Numbers,
) -> Result<(), AllocError> {
    let begun = begun_by(&event.change)?;
    let is_of_spot = match &event.change {
        Change::Down(_) => held.is_some(),
        Change::Announce(_, _, _) | Change::Withdraw(_, _) => true,
    };
    let is_found = is_of_spot && numbers.has_change(held, &begun);
    *held = begun;
    if is_found {
        found.push(Found { spot: *spot, event })?;
    }
    Ok(())
}

/// Adds events of a spot, in their order.
fn add_events(
    found: &mut Vec<Found>,
    spot: &Spot,
    held: &mut Option<SharedRoute>,
    events: Vec<Event>,
    numbers: &Numbers,
) -> Result<(), AllocError> {
    for event in events {
        add_event(found, spot, held, event, numbers)?;
    }
    Ok(())
}

/// Adds all events of a spot in the span, page after page; `held` is the route that held before.
fn find_at<A: RouteSource>(
    archive: &mut A,
    span: &Span,
    spot: &Spot,
    held: Option<SharedRoute>,
    numbers: &Numbers,
    found: &mut Vec<Found>,
) -> Result<(), AskError>
    ensures kept { (h : History) → A.represents archive.old h → A.represents archive.new h }
{
    let mut held = held;
    let mut skip = 0u64;
    'pages: for _ in 0..u64::MAX {
        let answer = events_page(archive, events_of(span, spot, skip))?;
        let Some(skipped) = skip.checked_add(answer.events.len() as u64) else {
            return Err(AskError::Trouble(Trouble::CounterFull));
        };
        skip = skipped;
        let more = answer.more;
        of_memory(add_events(found, spot, &mut held, answer.events, numbers))?;
        if !more {
            return Ok(());
        }
    }
    Err(AskError::Trouble(Trouble::CounterFull))
}

/// Adds what happened at the spots that changed. Their routes are taken out of those that held before.
fn find_changed<A: RouteSource>(
    archive: &mut A,
    span: &Span,
    spots: &[Spot],
    held: &mut Held,
    numbers: &Numbers,
    found: &mut Vec<Found>,
) -> Result<(), AskError>
    ensures kept { (h : History) → A.represents archive.old h → A.represents archive.new h }
{
    for spot in spots {
        let route = held.remove(spot);
        find_at(archive, span, spot, route, numbers, found)?;
    }
    Ok(())
}

/// When the first session of a peer ended in the span, if one did. At a spot that didn't change no other event happened.
fn first_end<A: RouteSource>(
    archive: &mut A,
    span: &Span,
    spot: &Spot,
) -> Result<Option<Moment>, AskError>
    ensures kept { (h : History) → A.represents archive.old h → A.represents archive.new h }
{
    let answer = events_page(archive, events_of(span, spot, 0))?;
    match answer.events.first() {
        Some(event) => Ok(Some(event.time)),
        None => Ok(None),
    }
}

/// A peer, and when its first session ended in the span.
#[derive(Clone, Copy, Debug, PartialEq, Eq)]
struct PeerEnd {
    peer: Peer,
    time: Option<Moment>,
}

/// The end of the peer that the spot has; it is asked for only if the last one is another peer's.
fn end_at<A: RouteSource>(
    archive: &mut A,
    span: &Span,
    spot: &Spot,
    last: &Option<PeerEnd>,
) -> Result<PeerEnd, AskError>
    ensures kept { (h : History) → A.represents archive.old h → A.represents archive.new h }
{
    if let Some(last) = last {
        if last.peer == spot.peer {
            return Ok(*last);
        }
    }
    let time = first_end(archive, span, spot)?;
    Ok(PeerEnd {
        peer: spot.peer,
        time,
    })
}

/// Adds the end of a route, if it ended.
fn add_end(
    found: &mut Vec<Found>,
    spot: &Spot,
    route: SharedRoute,
    end: &PeerEnd,
    numbers: &Numbers,
) -> Result<(), AllocError> {
    let Some(time) = end.time else {
        return Ok(());
    };
    let change = Change::Down(spot.peer);
    let mut held = Some(route);
    add_event(found, spot, &mut held, Event { time, change }, numbers)
}

/// Adds the ends of the routes that held before the span, at spots that didn't change in it.
fn find_ended<A: RouteSource>(
    archive: &mut A,
    span: &Span,
    held: Held,
    numbers: &Numbers,
    found: &mut Vec<Found>,
) -> Result<(), AskError>
    ensures kept { (h : History) → A.represents archive.old h → A.represents archive.new h }
{
    let mut last = None;
    for (spot, route) in held {
        let end = end_at(archive, span, &spot, &last)?;
        of_memory(add_end(found, &spot, route, &end, numbers))?;
        last = Some(end);
    }
    Ok(())
}

/// The routes that held before the span, as far as what is found depends on them: all if AS numbers are asked for, and else those that the end
/// of a session ended. Of a prefix alone and of those that contain it all are few.
fn held_for<A: RouteSource>(
    alloc: Global,
    archive: &mut A,
    span: &Span,
    scope: &Scope,
    numbers: &Numbers,
) -> Result<Held, AskError>
    ensures kept { (h : History) → A.represents archive.old h → A.represents archive.new h }
{
    match scope {
        Scope::More(_) if numbers.are_any() => held_of_ended(alloc, archive, span, scope),
        _ => held_before(alloc, archive, span.from, *scope),
    }
}

/// What happened to the prefixes that are asked for, in the order of time; in one second by place, and at one place as it happened.
pub(crate) fn find_all<A: RouteSource>(
    alloc: Global,
    archive: &mut A,
    span: &Span,
    scope: &Scope,
    numbers: &Numbers,
) -> Result<Vec<Found>, AskError>
    ensures kept { (h : History) → A.represents archive.old h → A.represents archive.new h }
{
    let mut found = Vec::new(alloc);
    let spots = changed_spots(alloc, archive, span, scope)?;
    if span.to < span.from {
        return Ok(found);
    }
    let mut held = held_for(alloc, archive, span, scope, numbers)?;
    find_changed(archive, span, &spots, &mut held, numbers, &mut found)?;
    find_ended(archive, span, held, numbers, &mut found)?;
    of_memory(found.sort_by_key(|one| one.place()))?;
    Ok(found)
}
