//! Each call of a device that an insert makes fails once.

use super::asking::has;
use super::playing::{row, value};
use super::{
    DONE, Disks, ONCE_FAULT, PAGES_FAULT, Row, State, Tree, create_in, disks_of, put, state_of,
    takes, tree_at, write_home,
};
use crate::be;
use disk_memory::{Failure, OnceFailure, Torn};
use std::alloc::Global;

/// How many versions are put, of seven keys in turn. A leaf has room for five: the sixth version splits it by key, the tenth by time,
/// and the twelfth by both.
const COUNT: u8 = 14;

fn key_at(n: u8) -> u16 {
    u16::from(n % 7)
}

/// What became of a version.
#[derive(Clone, Copy, PartialEq)]
enum Outcome {
    Taken,
    /// It was refused for the reason, with nothing changed but one block spent at most, and taken then.
    Refused,
    Wrong,
}

/// Puts a version once more that was refused. Whether nothing was changed by that but one block spent at most, and it is taken.
fn is_taken_then(tree: &mut Tree, key: u16, row: &Row, before: &State) -> bool {
    let next_block = tree.shelf.next();
    next_block <= before.next_block.saturating_add(1)
        && state_of(tree) == before.spending(next_block)
        && takes(tree, key, row)
}

/// Puts a version, and once more where it is refused for this reason.
fn put_again(tree: &mut Tree, key: u16, row: &Row, reason: u64) -> Outcome {
    let before = state_of(tree);
    let outcome = put(tree, key, row);
    if outcome == DONE {
        return Outcome::Taken;
    }
    if outcome == reason && is_taken_then(tree, key, row, &before) {
        Outcome::Refused
    } else {
        Outcome::Wrong
    }
}

/// Puts the versions, each into a transaction without an image. How many of them were refused once.
fn put_all(tree: &mut Tree, reason: u64) -> Option<u32> {
    let mut refused = 0u32;
    for n in 0..COUNT {
        write_home(tree)?;
        match put_again(tree, key_at(n), &row(n), reason) {
            Outcome::Taken => (),
            Outcome::Refused => refused = refused.saturating_add(1),
            Outcome::Wrong => return None,
        }
    }
    Some(refused)
}

/// Whether each version is found, in a tree of one level of key nodes.
fn has_all(tree: &mut Tree) -> bool {
    for n in 0..COUNT {
        let expected = value(n);
        if !has(tree, key_at(n), expected.0, Some(expected)) {
            return false;
        }
    }
    tree.place.level == 2
}

/// Creates a tree, and puts the versions. How many of them were refused once. If none was, the call that fails is still to come, and no
/// version is looked for.
fn create_all(tree: &mut Tree, reason: u64) -> Option<u32> {
    if create_in(tree) != DONE {
        return None;
    }
    let refused = put_all(tree, reason)?;
    if refused == 0 || has_all(tree) {
        Some(refused)
    } else {
        None
    }
}

/// Puts the versions on disks of which one call fails. How many versions were refused once, and how many blocks are put then; none where
/// something was wrong.
fn played(alloc: Global, disks: Disks, reason: u64) -> Option<(u32, u64)> {
    let mut tree = tree_at(alloc, disks, 0, 0, 1)?;
    match create_all(&mut tree, reason) {
        Some(refused) => Some((refused, tree.shelf.next())),
        None => None,
    }
}

/// Whether a version is refused on disks of which one call fails, or that call is still to come; none where something was wrong.
fn is_refused(alloc: Global, disks: Disks, reason: u64) -> Option<bool> {
    match played(alloc, disks, reason)?.0 {
        0 => Some(false),
        1 => Some(true),
        _ => None,
    }
}

/// Disks of which this read fails, counted after the creation's one, below a pool of one page, which reads the others anew.
fn failing_at_read(alloc: Global, number: u64) -> Option<Disks> {
    let mut disks = disks_of(alloc, 40, 40);
    disks.kept = 1;
    disks
        .erase
        .push(Failure::Read(number.saturating_add(1)))
        .ok()?;
    Some(disks)
}

/// How many reads there are, each of which refuses a version where it fails.
fn count_reads(alloc: Global) -> Option<u64> {
    for number in 0..1_000u64 {
        if !is_refused(alloc, failing_at_read(alloc, number)?, PAGES_FAULT)? {
            return Some(number);
        }
    }
    None
}

// Each version reads its leaf and its column at least.
#[test]
fn each_read_that_fails_refuses_the_version(rt: HostRuntime) {
    let reads = count_reads(rt.alloc()).expect(&rt, "reads");
    be(&rt, reads >= 2 * u64::from(COUNT), "two reads a version");
}

/// The calls of a write-once disk by which a block is put.
#[derive(Clone, Copy)]
enum Putting {
    Blank,
    Burn,
    Settle,
}

/// Disks of which this call fails for the n-th block. The first look for a blank one is of the opening.
fn failing_at(alloc: Global, call: Putting, n: u64) -> Option<Disks> {
    let mut disks = disks_of(alloc, 40, 40);
    let failure = match call {
        Putting::Blank => OnceFailure::Blank(n.saturating_add(1)),
        Putting::Burn => OnceFailure::Burn(n, Torn::Half),
        Putting::Settle => OnceFailure::Settle(n),
    };
    disks.once.push(failure).ok()?;
    Some(disks)
}

/// How many blocks are put until none is refused where this call fails.
fn count_blocks(alloc: Global, call: Putting) -> Option<u64> {
    for n in 0..100u64 {
        if !is_refused(alloc, failing_at(alloc, call, n)?, ONCE_FAULT)? {
            return Some(n);
        }
    }
    None
}

/// How many blocks are put where no call fails.
fn blocks(alloc: Global) -> Option<u64> {
    Some(played(alloc, disks_of(alloc, 40, 40), ONCE_FAULT)?.1)
}

#[test]
fn each_block_that_is_not_put_refuses_the_version(rt: HostRuntime) {
    let alloc = rt.alloc();
    let blocks = blocks(alloc).expect(&rt, "blocks");
    be(&rt, blocks > 1, "several blocks");
    be(
        &rt,
        count_blocks(alloc, Putting::Blank) == Some(blocks),
        "a question",
    );
    be(
        &rt,
        count_blocks(alloc, Putting::Burn) == Some(blocks),
        "a burn",
    );
    be(
        &rt,
        count_blocks(alloc, Putting::Settle) == Some(blocks),
        "a settlement",
    );
}
