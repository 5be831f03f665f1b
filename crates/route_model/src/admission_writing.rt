//! The encoding of an admission.

ghost use Rattle.std.specs.Prelude.{◌≡◌, ◌++◌, ◌∷◌, IfOk, OnOk, map};
ghost use Rattle.std.specs.List.{flat_map};
ghost use Rattle.std.specs.Int.{w16, w64, to_be_bytes};
ghost use Rattle.route_model.specs.Encoding.{peer_octets, route_octets};
ghost use Rattle.route_model.specs.Tables.{place_of};
ghost use Rattle.route_model.specs.Admission.{change_octets, sized, counted, admission_octets};

use crate::change::Change;
use crate::peer::Peer;
use crate::prefix::put_prefix;
use crate::shared::SharedRoute;
use crate::tables::{PeerRows, RouteRows, peer_place, peer_table, route_place, route_table};
use std::alloc::{AllocError, Global};

fn put_u16(out: &mut Vec<u8>, n: usize) -> Result<(), AllocError>
    ensures { OnOk result (out.new.items ≡ out.old.items ++ to_be_bytes w16 n) }
{
    let octets = n.to_be_bytes();
    out.extend_from_slice(&octets[6..])
}

/// Writes the kind of a change and the place of its peer.
fn put_head(out: &mut Vec<u8>, kind: u8, peers: &PeerRows, p: &Peer) -> Result<(), AllocError>
    ensures { OnOk result (out.new.items ≡ out.old.items ++ kind ∷ to_be_bytes w16 (place_of peers.now.keys (peer_octets p.now))) }
{
    let place = peer_place(peers, p.encode()).to_be_bytes();
    out.extend_from_slice(&[kind, place[6], place[7]])
}

fn put_route_place(
    out: &mut Vec<u8>,
    routes: &RouteRows<'_>,
    r: &SharedRoute,
) -> Result<(), AllocError>
    ensures { OnOk result (out.new.items ≡ out.old.items ++ to_be_bytes w16 (place_of (map (λ row. row.now) routes.now.keys) (route_octets r.now))) }
{
    put_u16(out, route_place(routes, r.encoding()))
}

fn put_change(
    out: &mut Vec<u8>,
    peers: &PeerRows,
    routes: &RouteRows<'_>,
    c: &Change,
) -> Result<(), AllocError>
    ensures { OnOk result (out.new.items ≡ out.old.items ++ change_octets peers.now.keys (map (λ row. row.now) routes.now.keys) c.now) }
{
    match c {
        Change::Announce(p, x, r) => {
            put_head(out, 1, peers, p)?;
            put_prefix(out, x)?;
            put_route_place(out, routes, r)
        }
        Change::Withdraw(p, x) => {
            put_head(out, 2, peers, p)?;
            put_prefix(out, x)
        }
        Change::Down(p) => put_head(out, 3, peers, p),
    }
}

fn put_peer_rows(out: &mut Vec<u8>, rows: &[[u8; 22]]) -> Result<(), AllocError>
    ensures { OnOk result (out.new.items ≡ out.old.items ++ flat_map (λ row. row) rows.now) }
{
    for row in rows {
        out.extend_from_slice(row)?;
    }
    Ok(())
}

fn put_route_rows(out: &mut Vec<u8>, rows: &[&[u8]]) -> Result<(), AllocError>
    ensures { OnOk result (out.new.items ≡ out.old.items ++ flat_map (λ row. sized row.now) rows.now) }
{
    for row in rows {
        put_u16(out, row.len())?;
        out.extend_from_slice(row)?;
    }
    Ok(())
}

/// Writes the table of peers: how many rows, and each.
fn put_peers(out: &mut Vec<u8>, rows: &PeerRows) -> Result<(), AllocError>
    ensures { OnOk result (out.new.items ≡ out.old.items ++ counted (λ row. row) rows.now.keys) }
{
    put_u16(out, rows.len())?;
    put_peer_rows(out, rows.as_slice())?;
    Ok(())
}

/// Writes the table of routes: how many rows, and each after its length.
fn put_routes(out: &mut Vec<u8>, rows: &RouteRows<'_>) -> Result<(), AllocError>
    ensures { OnOk result (out.new.items ≡ out.old.items ++ counted sized (map (λ row. row.now) rows.now.keys)) }
{
    put_u16(out, rows.len())?;
    put_route_rows(out, rows.as_slice())?;
    Ok(())
}

fn put_changes(
    out: &mut Vec<u8>,
    peers: &PeerRows,
    routes: &RouteRows<'_>,
    changes: &[Change],
) -> Result<(), AllocError>
    ensures { OnOk result (out.new.items ≡ out.old.items ++ flat_map (change_octets peers.now.keys (map (λ row. row.now) routes.now.keys)) changes.now) }
{
    for c in changes {
        put_change(out, peers, routes, c)?;
    }
    Ok(())
}

/// The unique encoding of an admission, in a vector with capacity for this many octets.
pub(crate) fn encode(
    alloc: Global,
    capacity: usize,
    time: u64,
    changes: &[Change],
) -> Result<Vec<u8>, AllocError>
    ensures { IfOk result (λ v. v.items ≡ admission_octets (record { time = time; changes = changes.now })) }
{
    let peers = peer_table(alloc, changes)?;
    let routes = route_table(alloc, changes)?;
    let mut out = Vec::with_capacity(alloc, capacity)?;
    out.extend_from_slice(&time.to_be_bytes())?;
    put_peers(&mut out, &peers)?;
    put_routes(&mut out, &routes)?;
    put_u16(&mut out, changes.len())?;
    put_changes(&mut out, &peers, &routes, changes)?;
    Ok(out)
}
