//! What lookups and checks return, as numbers, so that lines of a text can expect it.

use once_store::BlockError;
use route_model::Key;
use tsb_walk::{Found, NodeError, Reached};
use version_model::{Entry, Place, Stamp};

/// What a lookup returns. Each number that says nothing is [`NONE`].
///
/// 0 and 1: why it is refused, and the page or the block; 2: the block in which it ends; 3 to 7: the start, the end and the highest key
/// of its place there; 5 and 6 also the stamp before which all versions are reported; 8: whether there is a next key, there is none below
/// one, or none at all; 9: that key; 10 to 12: the stamp and the value. From 9 on versions have three numbers each: stamp and value.
pub(crate) type Answer = [u64; 24];

pub(crate) const NONE: u64 = u64::MAX;

pub(crate) const NOTHING: Answer = [NONE; 24];

/// Sets a number of an answer. It returns the place after it.
pub(crate) fn set(answer: &mut Answer, place: usize, number: u64) -> usize {
    if let Some(it) = answer.get_mut(place) {
        *it = number;
    }
    place.saturating_add(1)
}

/// A refusal: 1 of a page, 2 of a block, 3 for another reason, 4 of a lookup that may not be made.
pub(crate) fn refused(reason: u64, number: u64) -> Answer {
    let mut answer = NOTHING;
    set(&mut answer, 0, reason);
    set(&mut answer, 1, number);
    answer
}

/// What is returned in place of a lookup that may not be made.
pub(crate) fn wrong() -> Answer {
    refused(4, NONE)
}

pub(crate) fn refusal(error: &NodeError) -> Answer {
    match error {
        NodeError::BadNode(page) => refused(1, *page),
        NodeError::Damaged(block) => refused(2, *block),
        _ => refused(3, NONE),
    }
}

pub(crate) fn block_refusal(error: &BlockError) -> Answer {
    match error {
        BlockError::Damaged(block) => refused(2, *block),
        _ => refused(3, NONE),
    }
}

/// The number of a key: its last two octets.
pub(crate) fn number_of(key: Key) -> u64 {
    let octets = key.to_octets();
    u64::from(octets[38])
        .wrapping_mul(256)
        .wrapping_add(u64::from(octets[39]))
}

/// The key that has this number, and zeros elsewhere.
pub(crate) fn key_with(number: u64) -> Key {
    let [_, _, _, _, _, _, next, last] = number.to_be_bytes();
    let mut octets = [0u8; 40];
    octets[38] = next;
    octets[39] = last;
    Key::from_octets(&octets)
}

/// The value of this many octets of one kind.
pub(crate) fn value_of(count: usize, octet: u8) -> u64 {
    (count as u64)
        .saturating_mul(256)
        .saturating_add(u64::from(octet))
}

/// What is added to a value whose octets aren't all the same.
const MIXED: u64 = 1 << 32;

/// The value that octets are, by their number and the first one.
pub(crate) fn value_in(octets: &[u8]) -> u64 {
    let octet = octets.first().copied().unwrap_or(0);
    let value = value_of(octets.len(), octet);
    if octets.iter().any(|other| *other != octet) {
        return value.saturating_add(MIXED);
    }
    value
}

/// Sets the stamp and the value of what is found.
fn set_found(answer: &mut Answer, key: Key, found: &Found) {
    set(answer, 8, 1);
    set(answer, 9, number_of(key));
    set(answer, 10, found.stamp.time());
    set(answer, 11, found.stamp.order());
    set(answer, 12, value_in(&found.value));
}

/// What a key has.
pub(crate) fn found(key: Key, found: &Option<Found>) -> Answer {
    let mut answer = NOTHING;
    if let Some(found) = found {
        set_found(&mut answer, key, found);
    }
    answer
}

/// How far a lookup of the next key has come.
pub(crate) fn reached(reached: &Reached) -> Answer {
    let mut answer = NOTHING;
    match reached {
        Reached::At(key, found) => set_found(&mut answer, *key, found),
        Reached::Past(high) => {
            set(&mut answer, 8, 2);
            set(&mut answer, 9, number_of(*high));
        }
        Reached::End => {
            set(&mut answer, 8, 3);
        }
    }
    answer
}

/// Sets a stamp.
pub(crate) fn set_stamp(answer: &mut Answer, place: usize, stamp: Stamp) -> usize {
    let next = set(answer, place, stamp.time());
    set(answer, next, stamp.order())
}

/// Sets the place in the past to which a lookup came.
pub(crate) fn set_place(answer: &mut Answer, place: &Place) {
    set(answer, 2, place.part.block);
    set_stamp(answer, 3, place.bounds.start);
    if let Some(end) = place.bounds.end {
        set_stamp(answer, 5, end);
    }
    if let Some(high) = place.bounds.high {
        set(answer, 7, number_of(high));
    }
}

/// The value of a version, none where it is an end.
pub(crate) fn value_at(entry: &Entry) -> u64 {
    match &entry.value {
        Some(octets) => value_in(octets),
        None => NONE,
    }
}

/// Whether a version is of a key, and there is room for it in an answer from a place on, where it is set.
fn is_set(answer: &mut Answer, place: usize, key: Key, entry: &Entry) -> bool {
    let next = set_stamp(answer, place, entry.stamp);
    set(answer, next, value_at(entry));
    entry.key == key && next < 24
}

/// Sets the versions of a key. An answer has room for five.
pub(crate) fn set_versions(answer: &mut Answer, key: Key, entries: &[Entry]) {
    let mut place = 9usize;
    for entry in entries {
        if !is_set(answer, place, key, entry) {
            set(answer, 0, 4);
        }
        place = place.saturating_add(3);
    }
}
