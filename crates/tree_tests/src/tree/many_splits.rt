//! One column is split by time so often that its page has no room for its parts.

use super::asking::{count_versions, has};
use super::playing::{Place, play};
use super::{Octets, Tree, takes};
use version_model::Stamp;

/// The key that takes versions.
const KEY: u16 = 7;

/// With the last of this many versions a leaf of five is split by time for the 700th time.
const COUNT: u64 = 3_501;

/// The n-th value: one of the largest size.
fn value(n: u64) -> (Stamp, Octets) {
    let octet = u8::try_from(n % 251).unwrap_or(0);
    (Stamp::new(n, 0), (3_072, octet))
}

/// How many blocks are burnt after the n-th version: one in each split, and one of 648 parts in the 649th split, for which the column's page
/// has no room.
fn blocks_after(n: u64) -> u64 {
    let splits = n.saturating_sub(1) / 5;
    splits.saturating_add(splits / 649)
}

/// Whether all versions are taken, of which each that burns blocks is known.
fn are_taken(tree: &mut Tree) -> bool {
    for n in 1..COUNT + 1 {
        let (stamp, octets) = value(n);
        if !takes(tree, KEY, &(stamp, Some(octets))) || tree.shelf.next() != blocks_after(n) {
            return false;
        }
    }
    true
}

/// Whether each version is found after its stamp, and all are returned.
fn are_found(tree: &mut Tree) -> bool {
    for n in 1..COUNT + 1 {
        if !has(tree, KEY, Stamp::new(n, 9), Some(value(n))) {
            return false;
        }
    }
    count_versions(tree, KEY) == COUNT as usize
}

/// Whether the versions are taken and found.
pub(super) fn is_split_often(tree: &mut Tree) -> bool {
    are_taken(tree) && are_found(tree)
}

/// Two home pages, and more blocks than are burnt.
const ONE_COLUMN: Place = Place {
    homes: 2,
    blocks: 800,
    kept: 4_096,
    unused: 0,
    root: 0,
    level: 1,
};

/// 700 splits burn 701 blocks, and use no page more.
const SPLITS: &str = "C
Q
S0 1 2 701 N
";

#[test]
fn seven_hundred_splits_of_a_column_burn_one_block_more(rt: HostRuntime) {
    play(&rt, rt.alloc(), &ONE_COLUMN, SPLITS);
}
