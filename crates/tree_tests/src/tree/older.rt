//! A tree of the earlier form: a column has at most one part in its page, and the block of a column has two.

use super::plain::{Plain, has_all, is_alike};
use super::playing::{Place, Stage, play};
use super::{Row, Tree, lay, takes};
use crate::memory::burn;
use crate::octets::{ALL, COLUMN, CURRENT, LEAF, Part, Times, Version, column, leaf};
use std::alloc::Global;
use tsb_tree::open;
use version_model::Stamp;

/// The time of the last version.
const LAST: u8 = 20;

/// How many keys are asked for: some have no version.
const KEYS: u16 = 16;

/// The version of a time: three keys take one in turn.
fn version_at(time: u8) -> Version {
    (1 + time % 3, time, time)
}

/// When the k-th leaf starts.
fn start_of(k: u8) -> u8 {
    if k == 0 {
        0
    } else {
        k.saturating_mul(3).saturating_add(1)
    }
}

/// The versions of a leaf from a start on and before an end: those of its stamps, and of the two other keys what they have at the start.
fn versions_in(alloc: Global, start: u8, end: u8) -> Option<Vec<Version>> {
    let mut versions = Vec::new(alloc);
    for time in start.saturating_sub(2).max(1)..end {
        versions.push(version_at(time)).ok()?;
    }
    Some(versions)
}

/// Appends the block of the k-th leaf. It returns its part.
fn burn_leaf(tree: &mut Tree, k: u8) -> Option<Part> {
    let start = start_of(k);
    let end = start_of(k.saturating_add(1));
    let versions = versions_in(tree.alloc, start, end)?;
    let octets = leaf(tree.alloc, ALL, Times(start, Some(end)), &versions)?;
    Some((start, LEAF, burn(tree.alloc, &mut tree.shelf, &octets)?))
}

/// Appends the block of a column of two parts, up to an end. It returns its part.
fn burn_column(tree: &mut Tree, end: u8, past: Part, more: Part) -> Option<Part> {
    let octets = column(tree.alloc, ALL, Some(end), &[past, more])?;
    Some((0, COLUMN, burn(tree.alloc, &mut tree.shelf, &octets)?))
}

/// Appends the blocks of the past. It returns the one part that has it all: each split but the first made a column of the past before it and of
/// one leaf more.
fn burn_past(tree: &mut Tree) -> Option<Part> {
    let mut past = burn_leaf(tree, 0)?;
    for k in 1..6u8 {
        let more = burn_leaf(tree, k)?;
        past = burn_column(tree, start_of(k.saturating_add(1)), past, more)?;
    }
    Some(past)
}

/// Sets the column in page 0.
fn lay_column(tree: &mut Tree) -> Option<()> {
    let past = burn_past(tree)?;
    let octets = column(tree.alloc, ALL, None, &[past, (start_of(6), CURRENT, 1)])?;
    lay(tree, 0, &octets)
}

/// Sets its current leaf in page 1.
fn lay_leaf(tree: &mut Tree) -> Option<()> {
    let start = start_of(6);
    let versions = versions_in(tree.alloc, start, LAST.saturating_add(1))?;
    let octets = leaf(tree.alloc, ALL, Times(start, None), &versions)?;
    lay(tree, 1, &octets)
}

/// Lays a tree of the earlier form, and opens it.
fn lay_tree(tree: &mut Tree) -> Option<()> {
    lay_column(tree)?;
    lay_leaf(tree)?;
    tree.place = open(&mut tree.tx, 0, Stamp::new(u64::from(LAST), 1)).ok()?;
    Some(())
}

/// Puts the versions of that tree into plain lists.
fn put_older(plain: &mut Plain) -> Option<()> {
    for time in 1..21u8 {
        let (key, time, value) = version_at(time);
        let row = (Stamp::new(u64::from(time), 0), Some((1, value)));
        plain.put(u16::from(key), row)?;
    }
    Some(())
}

/// Lays that tree, and puts its versions into plain lists.
pub(super) fn lay_older(stage: &mut Stage) -> Option<()> {
    stage.plain = Plain::new(stage.tree.alloc, KEYS)?;
    lay_tree(&mut stage.tree)?;
    put_older(&mut stage.plain)
}

/// Whether a tree answers as plain lists do, a key at each time below one, and all its versions.
fn is_key_plain(stage: &mut Stage, key: u16, times: u64) -> bool {
    for time in 0..times {
        if !is_alike(&mut stage.tree, &stage.plain, key, Stamp::new(time, 0)) {
            return false;
        }
    }
    has_all(&mut stage.tree, &stage.plain, key)
}

/// Whether that is so of each key.
pub(super) fn is_plain(stage: &mut Stage, times: u64) -> bool {
    for key in 0..KEYS {
        if !is_key_plain(stage, key, times) {
            return false;
        }
    }
    true
}

/// The version of a time after those of the earlier form: of the largest size, of one of `keys` keys in turn.
fn large_at(time: u64, keys: u64) -> (u16, Row) {
    let key = u16::try_from(time.checked_rem(keys).unwrap_or(0)).unwrap_or(0);
    let octet = u8::try_from(time % 251).unwrap_or(0);
    (key, (Stamp::new(time, 0), Some((3_072, octet))))
}

/// Puts versions of the largest size into a tree and into plain lists, of `keys` keys in turn, up to a time.
pub(super) fn put_large(stage: &mut Stage, keys: u64, end: u64) -> Option<()> {
    for time in stage.tree.place.least.time().saturating_add(1)..end {
        let (key, row) = large_at(time, keys);
        if !takes(&mut stage.tree, key, &row) {
            return None;
        }
        stage.plain.put(key, row)?;
    }
    Some(())
}

/// Where the tree is laid: its column in page 0 and its leaf in page 1.
const LAID: Place = Place {
    homes: 40,
    blocks: 64,
    kept: 4_096,
    unused: 2,
    root: 0,
    level: 1,
};

/// The past takes eleven blocks: six of leaves, and one of a column for each but the first.
const ASKED: &str = "N
S0 1 2 11 N
V23
";

#[test]
fn a_tree_of_the_earlier_form_is_asked(rt: HostRuntime) {
    play(&rt, rt.alloc(), &LAID, ASKED);
}

/// Beside four versions of the earlier form the leaf has room for five of the largest size; the sixth burns a block.
const SPLIT_BY_TIME: &str = "N
W 1 26
S0 1 2 11 N
W 1 27
S0 1 2 12 N
V28
";

#[test]
fn it_is_split_by_time_with_nothing_rewritten(rt: HostRuntime) {
    play(&rt, rt.alloc(), &LAID, SPLIT_BY_TIME);
}

/// Eleven keys don't fit one leaf.
const SPLIT_BY_KEY: &str = "N
W 11 61
SN 2 N N N
V62
";

#[test]
fn it_is_split_by_key_and_both_halves_have_its_past(rt: HostRuntime) {
    play(&rt, rt.alloc(), &LAID, SPLIT_BY_KEY);
}
