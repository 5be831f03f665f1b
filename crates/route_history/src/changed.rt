//! A question of what changed, under way.

ghost use Rattle.std.specs.Prelude.{◌≡◌, ◌<◌, ◌≤◌, ◌↔◌, ℕ, List, [], Some, None, true, false, IsTrue, IfOk, OnOk};
ghost use Rattle.route_model.specs.Admission.{Admitted};
ghost use Rattle.route_model.specs.declared.peer.Peer.{Peer as PeerValue};
ghost use Rattle.route_model.specs.Keys.{key_number};
ghost use Rattle.route_model.specs.Prefix.{IpPrefix, IsPrefix};
ghost use Rattle.route_meaning.specs.Merged.{Placed};
ghost use Rattle.version_model.specs.Ranges.{high_or};
ghost use Rattle.version_model.specs.Versions.{Version};
ghost use Rattle.tsb_walk.specs.Touched.{AreTouched, HasWithin, NoneTouched};
ghost use Rattle.route_history.specs.Walks.{Rose};
ghost use Rattle.route_history.specs.Changes.{BeginsAfter, HasChanged, HasChangedSo, IsAskedFor, IsChangedSoFar, IsSpotAt, LeapsOver, ReportsChanged, TakesKey, changed_end, changed_from};

use crate::rows::{is_above, spot_of};
use route_meaning::{ChangedAnswer, ChangedQuestion, MAX_ROWS, Spot};
use route_model::Key;
use std::alloc::{AllocError, Global};
use std::mem;
use version_model::Stamp;

/// A question of what changed, under way: how far its walk over the keys has come, and the spots so far.
#[derive(Debug, Drop)]
pub struct ChangedCursor {
    pub question: ChangedQuestion,
    /// The least key not yet looked at; None once the walk is over.
    pub front: Option<Key>,
    pub spots: Vec<Spot>,
    pub more: bool,
}

// The key from which on all are above the spot, or None if there is none.
fn key_after(after: &Option<Spot>) -> Option<Key>
    ensures { BeginsAfter after.now result }
{
    match after {
        None => Some(Key::from_octets(&[0; 40])),
        Some(spot) => Key::prefix(&spot.peer, &spot.prefix).next(),
    }
}

// Is the key not above the other?
fn is_upto(key: Key, other: Key) -> bool
    ensures { IsTrue result ↔ (key ≤ other) }
{
    key <= other
}

// The least key from this one on that may be of a prefix that is asked for: this one, the first that this peer can have, or the first that
// a peer of the next number can have. None if there is none.
fn leap(question: &ChangedQuestion, key: Key) -> Option<Key>
    ensures { LeapsOver question.now key result }
{
    let _low = question.low.address();
    let _high = question.high.address();
    let low = key.of_prefix(&question.low);
    if is_upto(key, low) {
        return Some(low);
    }
    let high = key.of_prefix(&question.high);
    if is_upto(key, high) {
        return Some(key);
    }
    let next = key.last_of_peer().next()?;
    Some(next.of_prefix(&question.low))
}

// Is the key one from the first to the last of these?
fn is_within(low: Key, key: Key, high: Key) -> bool
    ensures { IsTrue result ↔ ((low ≤ key) × (key ≤ high)) }
{
    is_upto(low, key) && is_upto(key, high)
}

// Is the prefix of a key asked for?
fn is_asked_for(question: &ChangedQuestion, key: Key) -> bool
    ensures { (p : PeerValue) (x : IpPrefix) → IsPrefix x → key_number p x ≡ key → IsTrue result ↔ IsAskedFor question.now x }
{
    let low = key.of_prefix(&question.low);
    let high = key.of_prefix(&question.high);
    is_within(low, key, high)
}

// The spot of the key, if the question asks for it.
fn spot_at(question: &ChangedQuestion, key: Key) -> Option<Spot>
    ensures { IsSpotAt question.now key result }
{
    let Some(spot) = spot_of(key) else {
        return None;
    };
    if !is_asked_for(question, key) {
        return None;
    }
    if !is_above(&question.after, key) {
        return None;
    }
    Some(spot)
}

// Where a walk begins, or None if nothing is asked for.
fn first_front(question: &ChangedQuestion) -> Option<Key>
    ensures { (all : List Version) (ps : List (Placed Admitted)) → ReportsChanged all ps question.now → HasChanged ps question.now result [] false }
{
    match key_after(&question.after) {
        Some(key) => leap(question, key),
        None => None,
    }
}

// Where a walk goes on that has come up to a key, or to the end of all keys.
fn front_at(question: &ChangedQuestion, high: Option<Key>) -> Option<Key>
    ensures { LeapsOver question.now (high_or high) result }
{
    match high {
        Some(high) => leap(question, high),
        None => None,
    }
}

impl ChangedCursor {
    /// The start of a walk.
    pub fn start(alloc: Global, question: ChangedQuestion) -> ChangedCursor
        ensures nothing { (all : List Version) (ps : List (Placed Admitted)) → ReportsChanged all ps question → HasChangedSo ps result }
        ensures question { result.question ≡ question }
    {
        let front = first_front(&question);
        ChangedCursor {
            question,
            front,
            spots: Vec::new(alloc),
            more: false,
        }
    }

    /// The first stamp of the span.
    pub fn first(&self) -> Stamp
        ensures { result ≡ changed_from self.now.question }
    {
        Stamp::new(self.question.from.number(), 0)
    }

    /// The stamp after the last of the span.
    pub fn end(&self) -> Stamp
        ensures { result ≡ changed_end self.now.question }
    {
        Stamp::new(self.question.to.number() + 1, 0)
    }

    // Takes in the next key that has a version in the span. Returns whether the walk goes on: it is over at a spot beyond the 256 of an answer.
    fn take_key(&mut self, key: Key) -> Result<bool, AllocError>
        ensures taken { (all : List Version) (ps : List (Placed Admitted)) (at : ℕ) → ReportsChanged all ps self.old.question → IsChangedSoFar ps self.old.question at self.old.spots.items self.old.more
            → at ≤ key → NoneTouched all (changed_from self.old.question) (changed_end self.old.question) at key → HasWithin all key (changed_from self.old.question) (changed_end self.old.question) → IfOk result (TakesKey ps self.old.question key self.new) }
        ensures over { IfOk result (λ goes_on. (goes_on ≡ true → self.new.front ≡ self.old.front) × (goes_on ≡ false → self.new.front ≡ None)) }
        ensures question { self.new.question ≡ self.old.question }
    {
        let Some(spot) = spot_at(&self.question, key) else {
            return Ok(true);
        };
        if self.spots.len() >= MAX_ROWS {
            self.more = true;
            self.front = None;
            return Ok(false);
        }
        self.spots.push(spot)?;
        Ok(true)
    }

    /// Takes in which keys have a version in the span, from where the walk has come and below `high`, or to the end of all keys if there is
    /// none: the walk goes on there, or is over.
    pub fn take_keys(&mut self, keys: Vec<Key>, high: Option<Key>) -> Result<(), AllocError>
        ensures taken { (all : List Version) (ps : List (Placed Admitted)) (from : ℕ) → self.old.front ≡ Some from → ReportsChanged all ps self.old.question → HasChangedSo ps self.old
            → from ≤ high_or high → AreTouched all (changed_from self.old.question) (changed_end self.old.question) from (high_or high) keys.items → OnOk result (HasChangedSo ps self.new) }
        ensures rose { (from : ℕ) → self.old.front ≡ Some from → from < high_or high → OnOk result (Rose (Some from) self.new.front) }
        ensures question { self.new.question ≡ self.old.question }
    {
        for key in keys {
            let goes_on = self.take_key(key)?;
            if !goes_on {
                return Ok(());
            }
        }
        self.front = front_at(&self.question, high);
        Ok(())
    }

    /// Takes what was gathered, once the walk is over, as its answer.
    pub fn take_answer(&mut self, alloc: Global) -> ChangedAnswer
        ensures spots { result.spots.items ≡ self.old.spots.items }
        ensures more { result.more ≡ self.old.more }
        ensures question { self.new.question ≡ self.old.question }
    {
        ChangedAnswer {
            spots: mem::replace(&mut self.spots, Vec::new(alloc)),
            more: self.more,
        }
    }
}
