//! A question of a moment under way.

ghost use Rattle.std.specs.Prelude.{◌≡◌, ◌<◌, ◌≤◌, ◌↔◌, ℕ, List, Option, Some, None, cond, map, nat_lt, IsTrue, IfOk, OnOk, OnErr, length};
ghost use Rattle.route_model.specs.Admission.{Admitted};
ghost use Rattle.route_model.specs.Prefix.{IpPrefix, IsPrefix};
ghost use Rattle.route_model.specs.Encoding.{IsPeer, EncodesRoute};
ghost use Rattle.route_meaning.specs.Merged.{Placed};
ghost use Rattle.route_meaning.specs.Rows.{Covers, Selects, IsAbove};
ghost use Rattle.version_model.specs.Versions.{Version, Found, Answers};
ghost use Rattle.route_history.specs.Stamps.{last_stamp};
ghost use Rattle.route_model.specs.PeerKeys.{first_key};
ghost use Rattle.route_history.specs.Fronts.{number_at, front_number};
ghost use Rattle.version_model.specs.Versions.{found_at};
ghost use Rattle.version_model.specs.Looks.{IsReached, At as ReachAt};
ghost use Rattle.tsb_walk.specs.Answers.{reached_as};
ghost use Rattle.tsb_walk.specs.Looked.{GoesOnFrom};
ghost use Rattle.route_history.specs.Walks.{IsSame, IsStart, counts, Reports, EndedAt, IsUnderWay, Gathered, Rose, IsRowAt, spot_in, IsSpotOf, IsAskedAt, IsRouteIn};

use crate::front::Front;
use route_meaning::{MAX_ROWS, Row, RowsQuestion, Select, Spot};
use route_model::{Address, Key, KeyParts, Peer, Prefix, Route, SharedRoute};
use std::alloc::{AllocError, Global};
use tsb_walk::Reached;
use version_model::Stamp;

/// A question of a moment under way: how far its walk over the keys has come, and the rows so far.
#[derive(Debug, Drop)]
pub struct RowsCursor {
    pub question: RowsQuestion,
    /// The least key not yet looked at; None once the walk is over.
    pub front: Option<Front>,
    /// When the session of the peer whose keys the walk is among ended last.
    pub ended: Option<Stamp>,
    pub rows: Vec<Row>,
    pub more: bool,
}

// Does the prefix contain the address?
fn covers(prefix: &Prefix, address: &Address) -> bool
    requires { IsPrefix prefix.now }
    ensures { IsTrue result ↔ Covers prefix.now address.now }
{
    let _octets = address.as_slice();
    prefix.address().family() == address.family()
        && Prefix::containing(*address, prefix.length()) == *prefix
}

// Does the question select the prefix of the peer?
fn selects(select: &Select, peer: &Peer, prefix: &Prefix) -> bool
    requires { IsPrefix prefix.now }
    ensures { IsTrue result ↔ Selects select.now peer.now prefix.now }
{
    match select {
        Select::Route(p, x) => peer == p && prefix == x,
        Select::ByPrefix(x) => prefix == x,
        Select::Covering(address) => covers(prefix, address),
        Select::PeerTable(p) => peer == p,
        Select::All => true,
    }
}

/// Is the key above the spot?
pub(crate) fn is_above(after: &Option<Spot>, key: Key) -> bool
    ensures { IsTrue result ↔ IsAbove after.now key }
{
    match after {
        Some(spot) => Key::prefix(&spot.peer, &spot.prefix) < key,
        None => true,
    }
}

// The spot of a prefix's key.
fn spot_in(parts: &KeyParts) -> Option<Spot>
    ensures { result ≡ spot_in parts.now }
{
    match parts {
        KeyParts::Prefix(peer, prefix) => Some(Spot {
            peer: *peer,
            prefix: *prefix,
        }),
        KeyParts::Session(_) => None,
    }
}

/// The spot of the key, if it is one of a prefix.
pub(crate) fn spot_of(key: Key) -> Option<Spot>
    ensures { IsSpotOf key result }
{
    let Some(parts) = key.parts() else {
        return None;
    };
    spot_in(&parts)
}

// The spot of the key, if the question selects it.
fn expected_at(question: &RowsQuestion, key: Key) -> Option<Spot>
    ensures { IsAskedAt question.now key result }
{
    let Some(spot) = spot_of(key) else {
        return None;
    };
    if is_above(&question.after, key) && selects(&question.select, &spot.peer, &spot.prefix) {
        Some(spot)
    } else {
        None
    }
}

// Does a value of this stamp count?
fn counts(ended: &Option<Stamp>, stamp: Stamp) -> bool
    ensures { result ≡ counts ended.now stamp }
{
    match ended {
        Some(ended) => *ended < stamp,
        None => true,
    }
}

// The route that octets of this stamp encode, if they count.
fn route_in(
    alloc: Global,
    ended: &Option<Stamp>,
    stamp: Stamp,
    octets: &[u8],
) -> Result<Option<SharedRoute>, AllocError>
    ensures { IfOk result (λ route. IsRouteIn ended.now stamp octets.now route) }
{
    if !counts(ended, stamp) {
        return Ok(None);
    }
    let Some(route) = Route::decode(alloc, octets)? else {
        return Ok(None);
    };
    Ok(Some(SharedRoute::new(alloc, route)?))
}

// The row of the question at a key at which this value is found.
fn row_at(
    alloc: Global,
    question: &RowsQuestion,
    key: Key,
    ended: &Option<Stamp>,
    stamp: Stamp,
    octets: &[u8],
) -> Result<Option<Row>, AllocError>
    ensures { IfOk result (λ row. (all : List Version) (ps : List (Placed Admitted)) → Reports all ps question.now.moment → Answers all key (last_stamp question.now.moment) (Some (found_at stamp octets.now)) → EndedAt all (last_stamp question.now.moment) (first_key key) ended.now → IsRowAt ps question.now key row) }
{
    let Some(spot) = expected_at(question, key) else {
        return Ok(None);
    };
    let Some(route) = route_in(alloc, ended, stamp, octets)? else {
        return Ok(None);
    };
    Ok(Some(Row {
        peer: spot.peer,
        prefix: spot.prefix,
        route,
    }))
}

// Where a walk begins: at the session of the peer of the spot after which rows are asked for.
fn first_front(after: &Option<Spot>) -> Front
    ensures { IsStart after.now (number_at result) }
{
    match after {
        None => Front::from(Key::from_octets(&[0; 40])),
        Some(spot) => {
            let _len = spot.peer.encoded_len();
            let _address = spot.prefix.address();
            Front::from(Key::session(&spot.peer))
        }
    }
}

// When the session of this key's peer ended, as far as the walk knows it.
fn known(ended: &Option<Stamp>, front: &Front, key: Key) -> Option<Stamp>
    ensures { result ≡ cond (nat_lt (first_key key) (number_at front.now)) ended.now None }
{
    if front.has_passed(key.first_of_peer()) {
        *ended
    } else {
        None
    }
}

impl RowsCursor {
    /// The start of a question. It waits for nothing.
    pub fn start(alloc: Global, question: RowsQuestion) -> RowsCursor
        ensures question { result.question ≡ question }
        ensures nothing { (all : List Version) (ps : List (Placed Admitted)) → Gathered all ps result }
    {
        let front = first_front(&question.after);
        RowsCursor {
            question,
            front: Some(front),
            ended: None,
            rows: Vec::new(alloc),
            more: false,
        }
    }

    // The walk stands before this key, and knows this of its peer's session.
    fn go_on(&mut self, front: Front, ended: Option<Stamp>)
        ensures { self.new ≡ record { question = self.old.question; front = Some front; ended = ended; rows = self.old.rows; more = self.old.more } }
    {
        self.front = Some(front);
        self.ended = ended;
    }

    // Takes in what is found at a key, from this front on.
    fn take_found(
        &mut self,
        alloc: Global,
        front: Front,
        key: Key,
        stamp: Stamp,
        octets: &[u8],
    ) -> Result<(), AllocError>
        ensures taken { (all : List Version) (ps : List (Placed Admitted)) → Reports all ps self.old.question.moment → IsUnderWay all ps self.old.question (number_at front) self.old.ended self.old.rows.items self.old.more → IsReached all (last_stamp self.old.question.moment) (number_at front) (ReachAt key (found_at stamp octets.now)) → OnOk result (Gathered all ps self.new) }
        ensures rose { number_at front ≤ key → OnOk result (Rose (Some (number_at front)) (front_number self.new.front)) }
        ensures question { self.new.question ≡ self.old.question }
        ensures same { OnErr result (IsSame self.old self.new) }
    {
        if key.first_of_peer() == key {
            self.go_on(Front::beyond(key), Some(stamp));
            return Ok(());
        }
        let ended = known(&self.ended, &front, key);
        let Some(row) = row_at(alloc, &self.question, key, &ended, stamp, octets)? else {
            self.go_on(Front::beyond(key), ended);
            return Ok(());
        };
        if self.rows.len() >= MAX_ROWS {
            self.more = true;
            self.front = None;
            return Ok(());
        }
        self.rows.push(row)?;
        self.go_on(Front::beyond(key), ended);
        Ok(())
    }

    // Takes in what a look from this front on has reached.
    pub(crate) fn take(
        &mut self,
        alloc: Global,
        front: Front,
        reached: Reached,
    ) -> Result<(), AllocError>
        ensures taken { (all : List Version) (ps : List (Placed Admitted)) → Reports all ps self.old.question.moment → IsUnderWay all ps self.old.question (number_at front) self.old.ended self.old.rows.items self.old.more → IsReached all (last_stamp self.old.question.moment) (number_at front) (reached_as reached) → OnOk result (Gathered all ps self.new × Rose (Some (number_at front)) (front_number self.new.front)) }
        ensures rose { GoesOnFrom (number_at front) reached → OnOk result (Rose (Some (number_at front)) (front_number self.new.front)) }
        ensures question { self.new.question ≡ self.old.question }
        ensures same { OnErr result (IsSame self.old self.new) }
    {
        match reached {
            Reached::End => {
                self.front = None;
                Ok(())
            }
            Reached::Past(high) => {
                let ended = known(&self.ended, &front, high);
                self.go_on(Front::from(high), ended);
                Ok(())
            }
            Reached::At(key, held) => self.take_found(alloc, front, key, held.stamp, &held.value),
        }
    }
}
