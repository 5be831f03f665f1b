//! A tree of the greatest height, whose key nodes are full.

use super::playing::{Place, play};
use super::{Tree, lay};
use crate::octets::{ALL, CHILDREN, CURRENT, Span, Times, column, key_node, leaf};
use std::alloc::Global;

/// Where the octets are in which the children of a key node of this level differ: the higher the level, the further ahead.
fn place_of(level: u8) -> usize {
    usize::from(14u8.saturating_sub(level.saturating_mul(2)))
}

/// The keys of the first node of this level, in a tree whose root is of another one.
fn span_of(level: u8, root: u8) -> Span {
    if level == root {
        return ALL;
    }
    Span {
        low: 0,
        high: Some(1),
        place: place_of(level.saturating_add(1)),
    }
}

/// The children of a key node that is full: the first one is in this page, the others in pages that there aren't.
fn full(alloc: Global, page: u64) -> Option<Vec<(u16, u64)>> {
    let mut children = Vec::new(alloc);
    children.push((0, page)).ok()?;
    for number in 1..CHILDREN {
        children.push((number, u64::MAX)).ok()?;
    }
    Some(children)
}

/// Sets the current leaf, which is empty, in page 0, and the column in page 1.
fn lay_column(tree: &mut Tree, span: Span) -> Option<()> {
    let current = leaf(tree.alloc, span, Times(0, None), &[])?;
    lay(tree, 0, &current)?;
    let octets = column(tree.alloc, span, None, &[(0, CURRENT, 0)])?;
    lay(tree, 1, &octets)
}

/// Sets a key node that is full in the page with the number of its level.
fn lay_key_node(tree: &mut Tree, level: u8, span: Span) -> Option<()> {
    let children = full(tree.alloc, u64::from(level.saturating_sub(1)))?;
    let octets = key_node(tree.alloc, level, span, place_of(level), &children)?;
    lay(tree, u64::from(level), &octets)
}

/// Lays the nodes of a tree whose root is of this level: the node of each level is the first child of the one above it, and all key nodes
/// are full.
pub(super) fn lay_full_nodes(tree: &mut Tree, root: u8) -> Option<()> {
    lay_column(tree, span_of(1, root))?;
    for level in 2..root.saturating_add(1) {
        lay_key_node(tree, level, span_of(level, root))?;
    }
    Some(())
}

/// Roots of level 7 and 6, in the pages with these numbers.
const HIGHEST: Place = Place {
    homes: 40,
    blocks: 4,
    kept: 4_096,
    unused: 8,
    root: 7,
    level: 7,
};

const LOWER: Place = Place {
    homes: 40,
    blocks: 4,
    kept: 4_096,
    unused: 8,
    root: 6,
    level: 6,
};

/// A version for each of the keys 1 to 5, so that the leaf is full; the sixth key is refused.
const HIGHEST_TREE: &str = "U7
J1 5
R 5 6 6.6 3072 6 0
H1 9.9 1
H2 9.9 2
H3 9.9 3
H4 9.9 4
H5 9.9 5
";

#[test]
fn a_seventh_level_of_key_nodes_is_refused(rt: HostRuntime) {
    play(&rt, rt.alloc(), &HIGHEST, HIGHEST_TREE);
}

/// The sixth key makes a level more: two pages are the column's other half, one is each key node's, and one the root's.
const LOWER_TREE: &str = "U6
J1 5
J6 6
S15 7 16 0 N
H1 9.9 1
H2 9.9 2
H3 9.9 3
H4 9.9 4
H5 9.9 5
H6 9.9 6
";

#[test]
fn a_sixth_level_of_key_nodes_is_not(rt: HostRuntime) {
    play(&rt, rt.alloc(), &LOWER, LOWER_TREE);
}
