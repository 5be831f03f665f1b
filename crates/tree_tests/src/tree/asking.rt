//! What a tree is asked, beside what is expected.

use super::{Octets, Row, Tree, key_of};
use crate::answers::{Answer, NONE, key_with, value_at, value_of, wrong};
use crate::lookups::{all_at, next_at, value_at as looked_up, versions_at};
use tsb_walk::KeyVersions;
use version_model::{Entry, Stamp};

/// Since when a key has which value.
type Since = Option<(Stamp, Octets)>;

/// The number of a value, or of an end.
fn number_of(value: &Option<Octets>) -> u64 {
    match value {
        Some((count, octet)) => value_of(*count, *octet),
        None => NONE,
    }
}

/// Whether an answer is that a key has this value, since this stamp.
fn is_value(answer: &Answer, key: u16, since: Stamp, octets: Octets) -> bool {
    let value = value_of(octets.0, octets.1);
    answer[8..13] == [1, u64::from(key), since.time(), since.order(), value]
}

/// Whether a key has this value, since this stamp, as of a stamp.
pub(super) fn has(tree: &mut Tree, key: u16, stamp: Stamp, expected: Since) -> bool {
    let answer = looked_up(tree, key_of(key), stamp);
    match expected {
        Some((since, octets)) => is_value(&answer, key, since, octets),
        None => answer[0] == NONE && answer[8] == NONE,
    }
}

/// A key that has a value: since when, and which.
type NextKey = Option<(u16, Stamp, Octets)>;

/// The next key from one on that has a value as of a stamp, from column to column.
fn next_key(tree: &mut Tree, from: u16, stamp: Stamp) -> Answer {
    let mut from = key_of(from);
    for _ in 0..65_536u32 {
        let answer = next_at(tree, from, stamp);
        if answer[8] != 2 {
            return answer;
        }
        from = key_with(answer[9]);
    }
    wrong()
}

/// Whether this key is the next from one on that has a value as of a stamp.
pub(super) fn is_next(tree: &mut Tree, from: u16, stamp: Stamp, expected: NextKey) -> bool {
    let answer = next_key(tree, from, stamp);
    match expected {
        Some((key, since, octets)) => is_value(&answer, key, since, octets),
        None => answer[8] == 3,
    }
}

/// Whether an entry is this version.
fn is_row(entry: &Entry, row: &Row) -> bool {
    entry.stamp == row.0 && value_at(entry) == number_of(&row.1)
}

/// Whether the n-th of entries is this version.
fn is_at(entries: &[Entry], n: usize, row: &Row) -> bool {
    match entries.get(n) {
        Some(entry) => is_row(entry, row),
        None => false,
    }
}

/// Whether entries are these versions.
fn are(entries: &[Entry], rows: &[Row]) -> bool {
    let mut n = 0usize;
    for row in rows {
        if !is_at(entries, n, row) {
            return false;
        }
        n = n.saturating_add(1);
    }
    n == entries.len()
}

/// Whether a stamp is before another one, or there is no other.
fn is_before(stamp: Stamp, to: &Option<Stamp>) -> bool {
    match to {
        Some(to) => stamp < *to,
        None => true,
    }
}

/// Whether the first part of the versions of a key from a stamp on goes beyond that, and has exactly those of these rows.
pub(super) fn is_part(tree: &mut Tree, key: u16, from: Stamp, rows: &[Row]) -> bool {
    match versions_at(tree, key_of(key), from) {
        Ok((_, part)) => is_before(from, &part.reported) && are_within(&part, from, rows),
        Err(_) => false,
    }
}

/// Whether a part has exactly the versions of these rows that are from a stamp on, and before the part's end.
fn are_within(part: &KeyVersions, from: Stamp, rows: &[Row]) -> bool {
    let mut n = 0usize;
    for row in rows {
        if from <= row.0 && is_before(row.0, &part.reported) {
            if !is_at(&part.entries, n, row) {
                return false;
            }
            n = n.saturating_add(1);
        }
    }
    n == part.entries.len()
}

/// Whether the first part of the versions of a key from a stamp on has exactly these rows, and these are all before a later stamp, or all.
pub(super) fn are_all_before(
    tree: &mut Tree,
    key: u16,
    from: Stamp,
    rows: &[Row],
    end: Option<Stamp>,
) -> bool {
    match versions_at(tree, key_of(key), from) {
        Ok((_, part)) => part.reported == end && are(&part.entries, rows),
        Err(_) => false,
    }
}

/// Whether these are all versions of a key.
pub(super) fn are_versions(tree: &mut Tree, key: u16, rows: &[Row]) -> bool {
    match all_at(tree, key_of(key)) {
        Ok(entries) => are(&entries, rows),
        Err(_) => false,
    }
}

/// How many versions a key has.
pub(super) fn count_versions(tree: &mut Tree, key: u16) -> usize {
    match all_at(tree, key_of(key)) {
        Ok(entries) => entries.len(),
        Err(_) => 0,
    }
}
