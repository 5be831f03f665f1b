//! Peers whose sessions ended in a span.

ghost use Rattle.route_meaning.specs.History.{History};

use crate::changes::{Span, events_of};
use crate::ending::of_memory;
use crate::pages::{events_page, rows_page};
use crate::scope::last_of_all;
use archive_calls::{AskError, RouteSource, Trouble};
use route_meaning::{Event, Row, RowsQuestion, Select, Spot};
use route_model::{Change, Moment, Peer};
use std::alloc::{AllocError, Global};

/// The question of the rows of a moment after a spot, or of all.
fn all_after(moment: Moment, after: Option<Spot>) -> RowsQuestion {
    RowsQuestion {
        moment,
        select: Select::All,
        after,
    }
}

/// Whether one of the events is the end of the peer's session.
fn has_end(events: &[Event]) -> bool {
    events
        .iter()
        .any(|event| matches!(event.change, Change::Down(_)))
}

/// Whether a session of the peer ended in the span: the events of any of its prefixes have that.
fn has_ended<A: RouteSource>(archive: &mut A, span: &Span, spot: &Spot) -> Result<bool, AskError>
    ensures kept { (h : History) → A.represents archive.old h → A.represents archive.new h }
{
    let mut skip = 0u64;
    'pages: for _ in 0..u64::MAX {
        let answer = events_page(archive, events_of(span, spot, skip))?;
        if has_end(&answer.events) {
            return Ok(true);
        }
        let Some(skipped) = skip.checked_add(answer.events.len() as u64) else {
            return Err(AskError::Trouble(Trouble::CounterFull));
        };
        skip = skipped;
        if !answer.more {
            return Ok(false);
        }
    }
    Err(AskError::Trouble(Trouble::CounterFull))
}

/// Adds a peer.
fn add_peer(peers: &mut Vec<Peer>, peer: Peer) -> Result<(), AllocError> {
    peers.push(peer)?;
    Ok(())
}

/// Adds the peers of these rows whose session ended in the span.
fn add_ended<A: RouteSource>(
    archive: &mut A,
    span: &Span,
    rows: &[Row],
    ended: &mut Vec<Peer>,
) -> Result<(), AskError>
    ensures kept { (h : History) → A.represents archive.old h → A.represents archive.new h }
{
    let mut last = None;
    for row in rows {
        let spot = Spot {
            peer: row.peer,
            prefix: row.prefix,
        };
        if last != Some(row.peer) && has_ended(archive, span, &spot)? {
            of_memory(add_peer(ended, row.peer))?;
        }
        last = Some(row.peer);
    }
    Ok(())
}

/// The peers that have a route at a moment and whose session ended in a span, in their order.
pub(crate) fn ended_peers<A: RouteSource>(
    alloc: Global,
    archive: &mut A,
    moment: Moment,
    span: &Span,
) -> Result<Vec<Peer>, AskError>
    ensures kept { (h : History) → A.represents archive.old h → A.represents archive.new h }
{
    let mut ended = Vec::new(alloc);
    let mut after = None;
    'pages: for _ in 0..u64::MAX {
        let answer = rows_page(archive, all_after(moment, after))?;
        let Some(last) = answer.rows.last() else {
            return Ok(ended);
        };
        // The next page begins with the next peer.
        after = Some(Spot {
            peer: last.peer,
            prefix: last_of_all(),
        });
        add_ended(archive, span, &answer.rows, &mut ended)?;
    }
    Err(AskError::Trouble(Trouble::CounterFull))
}
