//! Leaps over keys that a question doesn't ask for.

ghost use Rattle.std.specs.Prelude.{◌≡◌, ◌<◌, ◌+◌, ◌*◌, length, ℕ, Option, Some, None};
ghost use Rattle.route_model.specs.declared.peer.Peer.{Peer};
ghost use Rattle.route_model.specs.Address.{octets};
ghost use Rattle.route_model.specs.Prefix.{IpPrefix};
ghost use Rattle.route_meaning.specs.declared.question.RowsQuestion.{RowsQuestion};
ghost use Rattle.route_meaning.specs.Rows.{Covers, Selects};
ghost use Rattle.route_model.specs.PeerKeys.{first_key};
ghost use Rattle.route_history.specs.Fronts.{number_at, front_number};
ghost use Rattle.route_history.specs.Walks.{LeapsTo, Leaps, IsPeerFirst, IsLeast, least_or};

use crate::front::Front;
use route_meaning::{RowsQuestion, Select, Spot};
use route_model::{Address, Key, Peer, Prefix};

// Past the spot after which rows are asked for, once the session of its peer is looked at.
fn after_after(front: Front, after: &Option<Spot>) -> Front
    ensures { (q : RowsQuestion) → q.after ≡ after.now → LeapsTo q (number_at front) (number_at result) }
{
    match after {
        None => front,
        Some(spot) => {
            let key = Key::prefix(&spot.peer, &spot.prefix);
            if front.has_passed(key.first_of_peer()) && !front.has_passed(key) {
                Front::beyond(key)
            } else {
                front
            }
        }
    }
}

// To the keys of the only peer that is asked for.
fn to_peer(front: Front, peer: &Peer) -> Option<Front>
    ensures { (q : RowsQuestion) → ((p : Peer) (x : IpPrefix) → Selects q.select p x → p ≡ peer.now) → Leaps q (number_at front) (front_number result) }
{
    let first = Key::session(peer);
    if !front.has_passed(first) {
        Some(Front::from(first))
    } else if front.has_passed(first.last_of_peer()) {
        None
    } else {
        Some(front)
    }
}

// To the only spot that is asked for, once the session of its peer is looked at.
fn to_spot(front: Front, peer: &Peer, prefix: &Prefix) -> Option<Front>
    ensures { (q : RowsQuestion) → ((p : Peer) (x : IpPrefix) → Selects q.select p x → (p ≡ peer.now) × (x ≡ prefix.now)) → Leaps q (number_at front) (front_number result) }
{
    let _len = peer.encoded_len();
    let _address = prefix.address();
    let first = Key::session(peer);
    let key = Key::prefix(peer, prefix);
    if !front.has_passed(first) {
        Some(Front::from(first))
    } else if !front.has_passed(key) {
        Some(Front::from(key))
    } else {
        None
    }
}

// The first key of the peer whose keys the front is among, if the front is past that key.
fn peer_first(front: &Front) -> Option<Key>
    ensures { IsPeerFirst (number_at front.now) result }
{
    let first = front.key.first_of_peer();
    if front.passed {
        if front.key.last_of_peer() == front.key {
            None
        } else {
            Some(first)
        }
    } else if first == front.key {
        None
    } else {
        Some(first)
    }
}

// To the only prefix that is asked for, among the keys of this peer or of the next one.
fn to_prefix(front: Front, prefix: &Prefix) -> Front
    ensures { (q : RowsQuestion) → ((p : Peer) (x : IpPrefix) → Selects q.select p x → x ≡ prefix.now) → LeapsTo q (number_at front) (number_at result) }
{
    let _address = prefix.address();
    let Some(first) = peer_first(&front) else {
        return front;
    };
    let key = first.of_prefix(prefix);
    if front.has_passed(key) {
        Front::beyond(first.last_of_peer())
    } else {
        Front::from(key)
    }
}

// The lesser of a key, if one was found, and another.
fn lesser(least: Option<Key>, key: Key) -> Option<Key>
    ensures { result ≡ Some (least_or key least) }
{
    match least {
        Some(least) if least <= key => Some(least),
        _ => Some(key),
    }
}

// The least key not passed of a prefix that contains the address, among the keys of one peer.
fn least_candidate(front: &Front, first: Key, address: &Address) -> Option<Key>
    ensures { IsLeast (number_at front.now) (first_key first) address.now (1 + 8 * length (octets address.now)) result }
{
    let most = 8 * address.as_slice().len() as u8;
    let mut least = None;
    for length in 0..most + 1 {
        let prefix = Prefix::containing(*address, length);
        let _address = prefix.address();
        let key = first.of_prefix(&prefix);
        if !front.has_passed(key) {
            least = lesser(least, key);
        }
    }
    least
}

// To the next prefix that contains the address, among the keys of this peer or of the next one.
fn to_covering(front: Front, address: &Address) -> Front
    ensures { (q : RowsQuestion) → ((p : Peer) (x : IpPrefix) → Selects q.select p x → Covers x address.now) → LeapsTo q (number_at front) (number_at result) }
{
    let Some(first) = peer_first(&front) else {
        return front;
    };
    match least_candidate(&front, first, address) {
        Some(key) => Front::from(key),
        None => Front::beyond(first.last_of_peer()),
    }
}

/// A leap over keys that the question doesn't ask for, or None if it asks for no more keys.
pub(crate) fn leap(question: &RowsQuestion, front: Front) -> Option<Front>
    ensures { Leaps question.now (number_at front) (front_number result) }
{
    let front = after_after(front, &question.after);
    match &question.select {
        Select::Route(peer, prefix) => to_spot(front, peer, prefix),
        Select::ByPrefix(prefix) => Some(to_prefix(front, prefix)),
        Select::PeerTable(peer) => to_peer(front, peer),
        Select::Covering(address) => Some(to_covering(front, address)),
        Select::All => Some(front),
    }
}
