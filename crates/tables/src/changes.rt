//! Which spots changed in a span, and which routes held before it.

ghost use Rattle.route_meaning.specs.History.{History};

use crate::cursor::Cursor;
use crate::ending::of_memory;
use crate::scope::{Scope, last_inside, shortened};
use crate::sessions::ended_peers;
use archive_calls::{AskError, RouteSource, Trouble};
use route_meaning::{ChangedQuestion, EventsQuestion, Spot};
use route_model::{Moment, Peer, Prefix, SharedRoute};
use std::alloc::Global;
use std::collections::BTreeMap;

/// The moments from one to another, both included.
#[derive(Clone, Copy, Debug, PartialEq, Eq)]
pub(crate) struct Span {
    pub(crate) from: Moment,
    pub(crate) to: Moment,
}

/// Routes, by their places, in the order of rows.
pub(crate) type Held = BTreeMap<Spot, SharedRoute>;

/// The question of the spots of the prefixes from one to another that changed, after a spot.
fn question_of(span: &Span, low: &Prefix, high: &Prefix, after: &Option<Spot>) -> ChangedQuestion {
    ChangedQuestion {
        from: span.from,
        to: span.to,
        low: *low,
        high: *high,
        after: *after,
    }
}

/// The question of a spot's events in a span, without this many.
pub(crate) fn events_of(span: &Span, spot: &Spot, skip: u64) -> EventsQuestion {
    EventsQuestion {
        from: span.from,
        to: span.to,
        peer: spot.peer,
        prefix: spot.prefix,
        skip,
    }
}

/// Adds the spots of the prefixes from one to another that changed, page after page, until there are more than `most`: whether these are all.
pub(crate) fn add_changed<A: RouteSource>(
    archive: &mut A,
    span: &Span,
    low: &Prefix,
    high: &Prefix,
    most: usize,
    spots: &mut Vec<Spot>,
) -> Result<bool, AskError>
    ensures kept { (h : History) → A.represents archive.old h → A.represents archive.new h }
{
    let mut after = None;
    'pages: for _ in 0..u64::MAX {
        let answer = archive.changed(question_of(span, low, high, &after))?;
        of_memory(spots.extend_from_slice(&answer.spots))?;
        if !answer.more {
            return Ok(true);
        }
        if most < spots.len() {
            return Ok(false);
        }
        after = answer.spots.last().copied();
    }
    Err(AskError::Trouble(Trouble::CounterFull))
}

/// Adds the spots that changed of each prefix that contains this one.
fn add_containing<A: RouteSource>(
    archive: &mut A,
    span: &Span,
    prefix: &Prefix,
    spots: &mut Vec<Spot>,
) -> Result<(), AskError>
    ensures kept { (h : History) → A.represents archive.old h → A.represents archive.new h }
{
    for length in 0..=prefix.length() {
        let outer = shortened(prefix, length);
        add_changed(archive, span, &outer, &outer, usize::MAX, spots)?;
    }
    Ok(())
}

/// The spots that changed, of the prefixes that are asked for.
pub(crate) fn changed_spots<A: RouteSource>(
    alloc: Global,
    archive: &mut A,
    span: &Span,
    scope: &Scope,
) -> Result<Vec<Spot>, AskError>
    ensures kept { (h : History) → A.represents archive.old h → A.represents archive.new h }
{
    let mut spots = Vec::new(alloc);
    match scope {
        Scope::Exact(prefix) => {
            add_changed(archive, span, prefix, prefix, usize::MAX, &mut spots)?;
        }
        Scope::More(prefix) => {
            let high = last_inside(prefix);
            add_changed(archive, span, prefix, &high, usize::MAX, &mut spots)?;
        }
        Scope::Less(prefix) => add_containing(archive, span, prefix, &mut spots)?,
    }
    Ok(spots)
}

/// The moment right before this one, if there is one.
fn moment_before(moment: Moment) -> Option<Moment> {
    Moment::new(moment.number().checked_sub(1)?)
}

/// Adds the routes that a cursor has not taken yet.
fn add_held<A: RouteSource>(
    archive: &mut A,
    cursor: Cursor,
    held: &mut Held,
) -> Result<(), AskError>
    ensures kept { (h : History) → A.represents archive.old h → A.represents archive.new h }
{
    let mut cursor = cursor;
    'rows: for _ in 0..u64::MAX {
        let Some(row) = cursor.take(archive)? else {
            return Ok(());
        };
        let spot = Spot {
            peer: row.peer,
            prefix: row.prefix,
        };
        if held.insert(spot, row.route).is_err() {
            return Err(AskError::Trouble(Trouble::OutOfMemory));
        }
    }
    Err(AskError::Trouble(Trouble::CounterFull))
}

/// The routes of the prefixes that are asked for which held when a moment began.
pub(crate) fn held_before<A: RouteSource>(
    alloc: Global,
    archive: &mut A,
    moment: Moment,
    scope: Scope,
) -> Result<Held, AskError>
    ensures kept { (h : History) → A.represents archive.old h → A.represents archive.new h }
{
    let mut held = BTreeMap::new(alloc);
    if let Some(before) = moment_before(moment) {
        add_held(archive, Cursor::new(alloc, before, Some(scope)), &mut held)?;
    }
    Ok(held)
}

/// Adds the routes that these peers held at a moment.
fn add_of_peers<A: RouteSource>(
    alloc: Global,
    archive: &mut A,
    moment: Moment,
    peers: &[Peer],
    scope: &Scope,
    held: &mut Held,
) -> Result<(), AskError>
    ensures kept { (h : History) → A.represents archive.old h → A.represents archive.new h }
{
    for peer in peers {
        let cursor = Cursor::of_peer(alloc, moment, *peer, Some(*scope));
        add_held(archive, cursor, held)?;
    }
    Ok(())
}

/// Of these routes those of peers whose session ended in the span, without reading the others.
pub(crate) fn held_of_ended<A: RouteSource>(
    alloc: Global,
    archive: &mut A,
    span: &Span,
    scope: &Scope,
) -> Result<Held, AskError>
    ensures kept { (h : History) → A.represents archive.old h → A.represents archive.new h }
{
    let mut held = BTreeMap::new(alloc);
    if let Some(before) = moment_before(span.from) {
        let peers = ended_peers(alloc, archive, before, span)?;
        add_of_peers(alloc, archive, before, &peers, scope, &mut held)?;
    }
    Ok(held)
}
