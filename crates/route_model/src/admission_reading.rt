//! What octets read as an admission. It accepts more than valid encodings: what it reads is encoded
//! again and compared.
//!
//! Room is made for as many items as are counted, but for no more than the octets left can hold.

ghost use Rattle.std.specs.Prelude.{◌≡◌, slice_get};
ghost use Rattle.route_model.specs.inner.Codec.{Gives, repeat, whole, peer_at};
ghost use Rattle.route_model.specs.inner.Codec.Admissions.{row_at, change_at, admission_at};

use crate::change::Change;
use crate::fault::ReadError;
use crate::peer::Peer;
use crate::prefix::{Prefix, read_prefix};
use crate::reading::{read_octet, read_octets, read_peer, read_u16, read_u64};
use crate::route::whole_route;
use crate::shared::SharedRoute;
use std::alloc::Global;

#[tactic(auto, unfolding(crate::specs::inner::Codec::Admissions::row_at))]
fn read_row(alloc: Global, bytes: &[u8]) -> Result<(SharedRoute, &[u8]), ReadError>
    ensures { Gives (λ x. (x.0, x.1.now)) result (row_at bytes.now) }
{
    let (len, rest) = read_u16(bytes)?;
    let (octets, rest) = read_octets(len as usize, rest)?;
    let route = whole_route(alloc, octets)?;
    let shared = SharedRoute::new(alloc, route)?;
    Ok((shared, rest))
}

fn read_rows(
    alloc: Global,
    count: u16,
    bytes: &[u8],
) -> Result<(Vec<SharedRoute>, &[u8]), ReadError>
    ensures { Gives (λ x. (x.0.items, x.1.now)) result (repeat row_at count bytes.now) }
{
    let mut items = Vec::with_capacity(alloc, (count as usize).min(bytes.len() / 13))?;
    let mut rest = bytes;
    for _ in 0..count {
        let (item, after) = read_row(alloc, rest)?;
        items.push(item)?;
        rest = after;
    }
    Ok((items, rest))
}

fn read_peers(alloc: Global, count: u16, bytes: &[u8]) -> Result<(Vec<Peer>, &[u8]), ReadError>
    ensures { Gives (λ x. (x.0.items, x.1.now)) result (repeat peer_at count bytes.now) }
{
    let mut items = Vec::with_capacity(alloc, (count as usize).min(bytes.len() / 22))?;
    let mut rest = bytes;
    for _ in 0..count {
        let (item, after) = read_peer(rest)?;
        items.push(item)?;
        rest = after;
    }
    Ok((items, rest))
}

fn route_in(routes: &[SharedRoute], place: u16) -> Result<SharedRoute, ReadError>
    ensures { Gives (λ r. r) result (slice_get routes.now place) }
{
    let place = place as usize;
    if place >= routes.len() {
        return Err(ReadError::Unencoded);
    }
    let route = &routes[place];
    Ok(route.share()?)
}

fn peer_in(peers: &[Peer], place: u16) -> Result<Peer, ReadError>
    ensures { Gives (λ p. p) result (slice_get peers.now place) }
{
    let place = place as usize;
    if place >= peers.len() {
        return Err(ReadError::Unencoded);
    }
    Ok(peers[place])
}

#[tactic(auto, unfolding(crate::specs::inner::Codec::Admissions::change_at))]
fn read_change<'a>(
    peers: &[Peer],
    routes: &[SharedRoute],
    bytes: &'a [u8],
) -> Result<(Change, &'a [u8]), ReadError>
    ensures { Gives (λ x. (x.0, x.1.now)) result (change_at peers.now routes.now bytes.now) }
{
    let (kind, rest) = read_octet(bytes)?;
    let (place, rest) = read_u16(rest)?;
    let peer = peer_in(peers, place)?;
    if kind == 3 {
        return Ok((Change::Down(peer), rest));
    }
    let (address, length, rest) = read_prefix(rest)?;
    let prefix = Prefix::containing(address, length);
    if kind == 2 {
        return Ok((Change::Withdraw(peer, prefix), rest));
    }
    let (place, rest) = read_u16(rest)?;
    let route = route_in(routes, place)?;
    Ok((Change::Announce(peer, prefix, route), rest))
}

fn read_changes<'a>(
    alloc: Global,
    peers: &[Peer],
    routes: &[SharedRoute],
    count: u16,
    bytes: &'a [u8],
) -> Result<(Vec<Change>, &'a [u8]), ReadError>
    ensures { Gives (λ x. (x.0.items, x.1.now)) result (repeat (change_at peers.now routes.now) count bytes.now) }
{
    let mut items = Vec::with_capacity(alloc, (count as usize).min(bytes.len() / 3))?;
    let mut rest = bytes;
    for _ in 0..count {
        let (item, after) = read_change(peers, routes, rest)?;
        items.push(item)?;
        rest = after;
    }
    Ok((items, rest))
}

/// The time and the changes that all of the octets are read as.
#[tactic(auto, unfolding(crate::specs::inner::Codec::Admissions::admission_at))]
pub(crate) fn read_admission(alloc: Global, bytes: &[u8]) -> Result<(u64, Vec<Change>), ReadError>
    ensures { Gives (λ x. record { time = x.0; changes = x.1.items }) result (whole (admission_at bytes.now)) }
{
    let (time, rest) = read_u64(bytes)?;
    let (peer_count, rest) = read_u16(rest)?;
    let (peers, rest) = read_peers(alloc, peer_count, rest)?;
    let (route_count, rest) = read_u16(rest)?;
    let (routes, rest) = read_rows(alloc, route_count, rest)?;
    let (change_count, rest) = read_u16(rest)?;
    let peers = peers.as_slice();
    let routes = routes.as_slice();
    let (changes, rest) = read_changes(alloc, peers, routes, change_count, rest)?;
    if !rest.is_empty() {
        return Err(ReadError::Unencoded);
    }
    Ok((time, changes))
}
