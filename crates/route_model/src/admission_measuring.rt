//! The length in octets of an admission's encoding: by tables of the rows so far, in one pass, or without memory, by a look back at the changes before each,
//! which is as quick for a few.

ghost use Rattle.std.specs.Prelude.{◌≡◌, ◌+◌, ◌∷◌, ◌++◌, ◌<◌, ◌≤◌, ℕ, List, [], IfOk, OnOk, IfSome, IfNone, length, map, if◌then◌else◌};
ghost use Rattle.std.specs.List.{flat_map, AllByRecursion};
ghost use Rattle.std.specs.Str.{bytes_eq};
ghost use Rattle.route_model.specs.Encoding.{peer_octets, route_octets};
ghost use Rattle.route_model.specs.Tables.{has_row, enter};
ghost use Rattle.route_model.specs.Admission.{peer_of, announced, change_octets, peer_rows, route_rows, admission_octets, IsChange};

use crate::admission::MAX_ADMISSION_LEN;
use crate::change::Change;
use crate::peer::{Peer, peer_len};
use crate::shared::SharedRoute;
use crate::tables::{PeerRows, RouteRows, enter_peer, enter_route};
use indexmap::IndexSet;
use std::alloc::{AllocError, Global};

/// How many octets an admission without changes has: its time and three counts.
const EMPTY_LEN: usize = 14;

/// How many octets stand before a route in its table: its length.
const ROUTE_ROW_HEAD: usize = 2;

/// How many changes are measured without tables.
const FEW_CHANGES: usize = 64;

/// Whether the peers have the same encoding: they are compared themselves, which costs less.
fn are_same(one: &Peer, other: &Peer) -> bool
    ensures { result ≡ bytes_eq (peer_octets one.now) (peer_octets other.now) }
{
    let _one = peer_len(one);
    let _other = peer_len(other);
    one == other
}

/// Whether a change before is about the peer. It looks from the end on, since neighbours mostly share
/// their peer.
fn has_peer(before: &[Change], peer: &Peer) -> bool
    ensures { result ≡ has_row (map peer_octets (map peer_of before.now)) (peer_octets peer.now) }
{
    let mut left = before.len();
    while left > 0 {
        left -= 1;
        if are_same(&before[left].peer(), peer) {
            return true;
        }
    }
    false
}

/// Whether the change announces the route with this encoding.
fn announces(c: &Change, row: &[u8]) -> bool
    ensures { result ≡ has_row (map route_octets (announced c.now)) row.now }
{
    match c {
        Change::Announce(_, _, route) => route.encoding() == row,
        Change::Withdraw(_, _) => false,
        Change::Down(_) => false,
    }
}

/// Whether a change before announces the route with this encoding, looking from the end on.
fn has_route(before: &[Change], row: &[u8]) -> bool
    ensures { result ≡ has_row (map route_octets (flat_map announced before.now)) row.now }
{
    let mut left = before.len();
    while left > 0 {
        left -= 1;
        if announces(&before[left], row) {
            return true;
        }
    }
    false
}

/// How many octets the change's peer adds to the table of peers.
fn peer_row_len(before: &[Change], c: &Change) -> usize
    ensures len { result ≡ if has_row (map peer_octets (map peer_of before.now)) (peer_octets (peer_of c.now)) then 0 else length (peer_octets (peer_of c.now)) }
    ensures few { result ≤ 22 }
{
    let peer = c.peer();
    if has_peer(before, &peer) {
        0
    } else {
        peer_len(&peer)
    }
}

/// How many octets a route adds to the table of routes.
fn route_row_len(before: &[Change], route: &SharedRoute) -> usize
    requires { length (route_octets route.now) ≤ 3072 }
    ensures { result ≡ if has_row (map route_octets (flat_map announced before.now)) (route_octets route.now) then 0 else length (route_octets route.now) + 2 }
{
    let row = route.encoding();
    if has_route(before, row) {
        0
    } else {
        ROUTE_ROW_HEAD + row.len()
    }
}

/// How many octets a change takes after the tables.
fn change_len(c: &Change) -> usize
    ensures len { (peers routes : List (List ℕ)) → result ≡ length (change_octets peers routes c.now) }
    ensures few { result ≤ 24 }
{
    match c {
        Change::Announce(_, x, _) => 5 + x.encoded_len(),
        Change::Withdraw(_, x) => 3 + x.encoded_len(),
        Change::Down(_) => 3,
    }
}

/// How many octets one more change adds to an admission of the changes before it.
fn added_len(before: &[Change], c: &Change) -> usize
    requires { IsChange c.now }
    ensures len { (time : ℕ) → length (admission_octets (record { time = time; changes = before.now ++ c.now ∷ [] })) ≡ length (admission_octets (record { time = time; changes = before.now })) + result }
    ensures few { result ≤ 4096 }
{
    let rest = peer_row_len(before, c) + change_len(c);
    match c {
        Change::Announce(_, _, route) => rest + route_row_len(before, route),
        Change::Withdraw(_, _) => rest,
        Change::Down(_) => rest,
    }
}

/// The length in octets of the encoding of an admission with these changes, or none if it is
/// more than [`MAX_ADMISSION_LEN`]: without memory, by a look back for each change.
fn measure_back(changes: &[Change]) -> Option<usize>
    requires { AllByRecursion IsChange changes.now }
    ensures len { IfSome result (λ n. (time : ℕ) → n ≡ length (admission_octets (record { time = time; changes = changes.now }))) }
    ensures few { IfSome result (λ n. n ≤ 131072) }
    ensures large { IfNone result ((time : ℕ) → 131072 < length (admission_octets (record { time = time; changes = changes.now }))) }
{
    let mut len = EMPTY_LEN;
    for i in 0..changes.len() {
        len += added_len(&changes[..i], &changes[i]);
        if len > MAX_ADMISSION_LEN {
            return None;
        }
    }
    Some(len)
}

/// How many octets a peer adds to the table of peers, in which it stands then.
fn entered_peer_len(peers: &mut PeerRows, peer: &Peer) -> Result<usize, AllocError>
    ensures rows { OnOk result (peers.new.keys ≡ enter peers.old.keys (peer_octets peer.now)) }
    ensures len { IfOk result (λ n. n ≡ if has_row peers.old.keys (peer_octets peer.now) then 0 else length (peer_octets peer.now)) }
    ensures few { IfOk result (λ n. n ≤ 22) }
{
    let len = peer_len(peer);
    let new = enter_peer(peers, peer.encode())?;
    Ok(if new { len } else { 0 })
}

/// How many octets a route adds to the table of routes, in which it stands then.
fn entered_route_len<'a>(
    routes: &mut RouteRows<'a>,
    route: &'a SharedRoute,
) -> Result<usize, AllocError>
    requires { length (route_octets route.now) ≤ 3072 }
    ensures rows { OnOk result (map (λ r. r.now) routes.new.keys ≡ enter (map (λ r. r.now) routes.old.keys) (route_octets route.now)) }
    ensures len { IfOk result (λ n. n ≡ if has_row (map (λ r. r.now) routes.old.keys) (route_octets route.now) then 0 else length (route_octets route.now) + 2) }
    ensures few { IfOk result (λ n. n ≤ 3074) }
{
    let row = route.encoding();
    let new = enter_route(routes, row)?;
    Ok(if new { ROUTE_ROW_HEAD + row.len() } else { 0 })
}

/// How many octets one more change adds to an admission of the changes before it, whose tables these are. They have its rows then.
fn entered_len<'a>(
    peers: &mut PeerRows,
    routes: &mut RouteRows<'a>,
    before: &[Change],
    c: &'a Change,
) -> Result<usize, AllocError>
    requires valid { IsChange c.now }
    requires peers { peers.old.keys ≡ peer_rows before.now }
    requires routes { map (λ r. r.now) routes.old.keys ≡ route_rows before.now }
    ensures peers { OnOk result (peers.new.keys ≡ peer_rows (before.now ++ c.now ∷ [])) }
    ensures routes { OnOk result (map (λ r. r.now) routes.new.keys ≡ route_rows (before.now ++ c.now ∷ [])) }
    ensures len { IfOk result (λ n. (time : ℕ) → length (admission_octets (record { time = time; changes = before.now ++ c.now ∷ [] })) ≡ length (admission_octets (record { time = time; changes = before.now })) + n) }
    ensures few { IfOk result (λ n. n ≤ 4096) }
{
    let rest = entered_peer_len(peers, &c.peer())? + change_len(c);
    match c {
        Change::Announce(_, _, route) => Ok(rest + entered_route_len(routes, route)?),
        Change::Withdraw(_, _) => Ok(rest),
        Change::Down(_) => Ok(rest),
    }
}

/// The same by tables of the rows so far.
fn measure_by_tables(alloc: Global, changes: &[Change]) -> Result<Option<usize>, AllocError>
    requires { AllByRecursion IsChange changes.now }
    ensures len { IfOk result (λ o. IfSome o (λ n. (time : ℕ) → n ≡ length (admission_octets (record { time = time; changes = changes.now })))) }
    ensures few { IfOk result (λ o. IfSome o (λ n. n ≤ 131072)) }
    ensures large { IfOk result (λ o. IfNone o ((time : ℕ) → 131072 < length (admission_octets (record { time = time; changes = changes.now })))) }
{
    let mut peers = IndexSet::new(alloc);
    let mut routes = IndexSet::new(alloc);
    let mut len = EMPTY_LEN;
    for i in 0..changes.len() {
        len += entered_len(&mut peers, &mut routes, &changes[..i], &changes[i])?;
        if len > MAX_ADMISSION_LEN {
            return Ok(None);
        }
    }
    Ok(Some(len))
}

/// The length in octets of the encoding of an admission with these changes, or none if it is
/// more than [`MAX_ADMISSION_LEN`]. Tables are made where there is memory for them.
pub(crate) fn measure(alloc: Global, changes: &[Change]) -> Option<usize>
    requires { AllByRecursion IsChange changes.now }
    ensures len { IfSome result (λ n. (time : ℕ) → n ≡ length (admission_octets (record { time = time; changes = changes.now }))) }
    ensures few { IfSome result (λ n. n ≤ 131072) }
    ensures large { IfNone result ((time : ℕ) → 131072 < length (admission_octets (record { time = time; changes = changes.now }))) }
{
    if changes.len() <= FEW_CHANGES {
        return measure_back(changes);
    }
    match measure_by_tables(alloc, changes) {
        Ok(len) => len,
        Err(_) => measure_back(changes),
    }
}
