//! Places where two tables may differ.

ghost use Rattle.route_meaning.specs.History.{History};

use crate::changes::{Span, add_changed};
use crate::cursor::Cursor;
use crate::ending::of_memory;
use crate::scope::{Scope, first_of_all, last_inside, last_of_all};
use crate::sessions::ended_peers;
use archive_calls::{AskError, RouteSource, Trouble};
use route_meaning::{Row, Spot};
use route_model::{Moment, Peer, Prefix};
use std::alloc::{AllocError, Global};

/// About how many places are asked for one by one at most (the last page of them may be over it). With more it takes less to read both
/// tables, as where a whole table was loaded between them.
const MOST: usize = 16_384;

/// Adds the place of a row.
fn add_place(places: &mut Vec<Spot>, row: &Row) -> Result<(), AllocError> {
    places.push(Spot {
        peer: row.peer,
        prefix: row.prefix,
    })?;
    Ok(())
}

/// Adds the places of the rows that a cursor has not taken yet, until there are too many: whether these are all.
fn add_rows<A: RouteSource>(
    archive: &mut A,
    cursor: Cursor,
    places: &mut Vec<Spot>,
) -> Result<bool, AskError>
    ensures kept { (h : History) → A.represents archive.old h → A.represents archive.new h }
{
    let mut cursor = cursor;
    'rows: for _ in 0..u64::MAX {
        let Some(row) = cursor.take(archive)? else {
            return Ok(true);
        };
        if MOST < places.len() {
            return Ok(false);
        }
        of_memory(add_place(places, &row))?;
    }
    Err(AskError::Trouble(Trouble::CounterFull))
}

/// Adds the places of these peers' routes at a moment, until there are too many: whether these are all.
fn add_of_peers<A: RouteSource>(
    alloc: Global,
    archive: &mut A,
    moment: Moment,
    peers: &[Peer],
    within: &Option<Prefix>,
    places: &mut Vec<Spot>,
) -> Result<bool, AskError>
    ensures kept { (h : History) → A.represents archive.old h → A.represents archive.new h }
{
    for peer in peers {
        let cursor = Cursor::of_peer(alloc, moment, *peer, within.map(Scope::More));
        if !add_rows(archive, cursor, places)? {
            return Ok(false);
        }
    }
    Ok(true)
}

/// Adds the places that may differ, until there are too many: whether these are all.
fn add_places<A: RouteSource>(
    alloc: Global,
    archive: &mut A,
    moment: Moment,
    span: &Span,
    within: &Option<Prefix>,
    places: &mut Vec<Spot>,
) -> Result<bool, AskError>
    ensures kept { (h : History) → A.represents archive.old h → A.represents archive.new h }
{
    let (low, high) = match within {
        Some(prefix) => (*prefix, last_inside(prefix)),
        None => (first_of_all(), last_of_all()),
    };
    if !add_changed(archive, span, &low, &high, MOST, places)? {
        return Ok(false);
    }
    let peers = ended_peers(alloc, archive, moment, span)?;
    add_of_peers(alloc, archive, moment, &peers, within, places)
}

/// The places where the table of a moment may differ from that at the end of the span after it, in their order, some of them twice: those
/// that changed, and those of peers whose session ended. All prefixes are meant, or those inside one. None if they are too many.
pub(crate) fn places_between<A: RouteSource>(
    alloc: Global,
    archive: &mut A,
    moment: Moment,
    span: &Span,
    within: &Option<Prefix>,
) -> Result<Option<Vec<Spot>>, AskError>
    ensures kept { (h : History) → A.represents archive.old h → A.represents archive.new h }
{
    let mut places = Vec::new(alloc);
    if !add_places(alloc, archive, moment, span, within, &mut places)? {
        return Ok(None);
    }
    of_memory(places.sort_by_key(|place| *place))?;
    Ok(Some(places))
}
