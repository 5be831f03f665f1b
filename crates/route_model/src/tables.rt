//! The tables of an admission: the encodings of its peers and of its routes, each once, in the order
//! of first use.

ghost use Rattle.std.specs.Prelude.{◌≡◌, IfOk, OnOk, map, not};
ghost use Rattle.route_model.specs.Tables.{place_of, has_row, enter};
ghost use Rattle.route_model.specs.Admission.{peer_rows, route_rows};

use crate::change::Change;
use indexmap::IndexSet;
use std::alloc::{AllocError, Global};

/// The rows of the table of peers: their encodings.
pub(crate) type PeerRows = IndexSet<[u8; 22]>;

/// The rows of the table of routes: their encodings, stored in the routes.
pub(crate) type RouteRows<'a> = IndexSet<&'a [u8]>;

/// Up to how many rows are compared one after another: for a few that is quicker than a hash.
const FEW_ROWS: usize = 8;

fn scan_peers(rows: &[[u8; 22]], row: &[u8]) -> usize
    ensures { result ≡ place_of rows.now row.now }
{
    let mut place = 0usize;
    for r in rows {
        if r.as_slice() == row {
            return place;
        }
        place += 1;
    }
    place
}

fn scan_routes(rows: &[&[u8]], row: &[u8]) -> usize
    ensures { result ≡ place_of (map (λ r. r.now) rows.now) row.now }
{
    let mut place = 0usize;
    for r in rows {
        if *r == row {
            return place;
        }
        place += 1;
    }
    place
}

/// The place of a peer's encoding among the rows, or the number of rows where it isn't there.
pub(crate) fn peer_place(rows: &PeerRows, row: [u8; 22]) -> usize
    ensures { result ≡ place_of rows.now.keys row }
{
    if rows.len() <= FEW_ROWS {
        return scan_peers(rows.as_slice(), &row);
    }
    rows.get_index_of(&row).unwrap_or(rows.len())
}

/// The place of a route's encoding among the rows, or the number of rows where it isn't there.
pub(crate) fn route_place(rows: &RouteRows<'_>, row: &[u8]) -> usize
    ensures { result ≡ place_of (map (λ r. r.now) rows.now.keys) row.now }
{
    if rows.len() <= FEW_ROWS {
        return scan_routes(rows.as_slice(), row);
    }
    rows.get_index_of(&row).unwrap_or(rows.len())
}

/// Enters a peer's encoding where it isn't there yet. Returns whether it was entered.
pub(crate) fn enter_peer(rows: &mut PeerRows, row: [u8; 22]) -> Result<bool, AllocError>
    ensures entered { OnOk result (rows.new.keys ≡ enter rows.old.keys row) }
    ensures new { IfOk result (λ new. new ≡ not (has_row rows.old.keys row)) }
{
    if peer_place(rows, row) < rows.len() {
        return Ok(false);
    }
    Ok(rows.insert(row)?)
}

/// Enters a route's encoding where it isn't there yet. Returns whether it was entered.
pub(crate) fn enter_route<'a>(
    rows: &mut RouteRows<'a>,
    octets: &'a [u8],
) -> Result<bool, AllocError>
    ensures entered { OnOk result (map (λ r. r.now) rows.new.keys ≡ enter (map (λ r. r.now) rows.old.keys) octets.now) }
    ensures new { IfOk result (λ new. new ≡ not (has_row (map (λ r. r.now) rows.old.keys) octets.now)) }
{
    if route_place(rows, octets) < rows.len() {
        return Ok(false);
    }
    Ok(rows.insert(octets)?)
}

/// The table of peers.
pub(crate) fn peer_table(alloc: Global, changes: &[Change]) -> Result<PeerRows, AllocError>
    ensures { IfOk result (λ rows. rows.keys ≡ peer_rows changes.now) }
{
    let mut rows = IndexSet::new(alloc);
    for c in changes {
        enter_peer(&mut rows, c.peer().encode())?;
    }
    Ok(rows)
}

/// The table of routes.
pub(crate) fn route_table<'a>(
    alloc: Global,
    changes: &'a [Change],
) -> Result<RouteRows<'a>, AllocError>
    ensures { IfOk result (λ rows. map (λ r. r.now) rows.keys ≡ route_rows changes.now) }
{
    let mut rows = IndexSet::new(alloc);
    for c in changes {
        match c {
            Change::Announce(_, _, route) => {
                enter_route(&mut rows, route.encoding())?;
            }
            Change::Withdraw(_, _) => {}
            Change::Down(_) => {}
        }
    }
    Ok(rows)
}
