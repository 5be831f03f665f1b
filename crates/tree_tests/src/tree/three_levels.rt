//! A tree of two levels of key nodes becomes one of three, and takes many versions.

use super::generated::put_both;
use super::playing::{Place, Stage, play};
use super::{Tree, lay, write_home};
use crate::octets::{ALL, CHILDREN, CURRENT, PLACE, Span, Times, column, key_node, leaf};
use page_tx::Pages;

/// How many keys each column has under the root's first child, which is full.
const NARROW: u16 = 16;

/// How many keys each other child of the root has, in one column.
const BROAD: u16 = 32;

/// The root is in page 0, its children are after it, and columns from this page on.
const COLUMNS: u64 = 339;

/// How many pages are used: those of the key nodes, and two for each column.
const USED: u64 = 1_689;

/// A key node above columns: its page and its keys, how many columns it has, of how many keys each, and the page of the first one. After the
/// page of each column is that of its current leaf.
#[derive(Clone, Copy)]
struct Lowest {
    page: u64,
    span: Span,
    count: u16,
    width: u16,
    first: u64,
}

/// Sets the pages of a column without a past, and of its leaf without a version.
fn lay_column(tree: &mut Tree, page: u64, span: Span) -> Option<()> {
    let current = page.saturating_add(1);
    let octets = column(tree.alloc, span, None, &[(0, CURRENT, current)])?;
    lay(tree, page, &octets)?;
    let octets = leaf(tree.alloc, span, Times(0, None), &[])?;
    lay(tree, current, &octets)?;
    if tree.tx.images() > 20 {
        write_home(tree)?;
    }
    Some(())
}

/// The keys of the k-th column below a key node.
fn span_in(node: &Lowest, k: u16) -> Span {
    let next = k.saturating_add(1);
    let low = node.span.low.saturating_add(k.saturating_mul(node.width));
    let high = if next == node.count {
        node.span.high
    } else {
        Some(low.saturating_add(node.width))
    };
    Span {
        low,
        high,
        place: PLACE,
    }
}

/// Sets the pages of a key node above columns, and theirs.
fn lay_lowest(tree: &mut Tree, node: Lowest) -> Option<()> {
    let mut children = Vec::new(tree.alloc);
    for k in 0..node.count {
        let span = span_in(&node, k);
        let page = node.first.saturating_add(u64::from(k).saturating_mul(2));
        lay_column(tree, page, span)?;
        children.push((span.low, page)).ok()?;
    }
    let octets = key_node(tree.alloc, 2, node.span, PLACE, &children)?;
    lay(tree, node.page, &octets)
}

/// The lowest key of a child of the root.
fn low_of(child: u16) -> u16 {
    if child == 0 {
        return 0;
    }
    (CHILDREN * NARROW).saturating_add(child.saturating_sub(1).saturating_mul(BROAD))
}

/// The keys of a child of the root.
fn span_of(child: u16) -> Span {
    let next = child.saturating_add(1);
    let high = if next < CHILDREN {
        Some(low_of(next))
    } else {
        None
    };
    Span {
        low: low_of(child),
        high,
        place: PLACE,
    }
}

/// A child of the root. The first one is full, each other one has one column.
fn child_of_root(child: u16) -> Lowest {
    let page = u64::from(child).saturating_add(1);
    let span = span_of(child);
    if child == 0 {
        return Lowest {
            page,
            span,
            count: CHILDREN,
            width: NARROW,
            first: COLUMNS,
        };
    }
    let before = u64::from(CHILDREN - 1).saturating_add(u64::from(child));
    Lowest {
        page,
        span,
        count: 1,
        width: BROAD,
        first: COLUMNS.saturating_add(before.saturating_mul(2)),
    }
}

/// Sets the pages of a tree of no version whose root, of level 3, is full, and so is its first child.
pub(super) fn lay_nodes(tree: &mut Tree) -> Option<()> {
    let mut children = Vec::new(tree.alloc);
    for child in 0..CHILDREN {
        let node = child_of_root(child);
        lay_lowest(tree, node)?;
        children.push((node.span.low, node.page)).ok()?;
    }
    let octets = key_node(tree.alloc, 3, ALL, PLACE, &children)?;
    lay(tree, 0, &octets)?;
    write_home(tree)
}

/// Puts six versions of the largest size, for which one leaf hasn't room: a column becomes two, and so do all key nodes above it.
pub(super) fn put_six(stage: &mut Stage) -> Option<()> {
    for key in 0..6u16 {
        let row = (stage.dice.next_stamp(), Some((3_072, 1)));
        put_both(&mut stage.tree, &mut stage.plain, key, &row)?;
    }
    Some(())
}

/// The pages of the key nodes, and two for each column, are used, and the root is of level 3.
const THREE_LEVELS: Place = Place {
    homes: 4_096,
    blocks: 65_536,
    kept: 4_096,
    unused: USED,
    root: 0,
    level: 3,
};

/// Six versions make a level more, of five pages. Then any of 64 of 16,192 keys take versions in turn: as many keys lie below the last
/// column's end, which is that of all keys.
const LEVELS: &str = "M
L16192
B
SN 4 1694 N N
G16192 64 2, 4
SN N N M0 N
";

#[test]
fn versions_below_three_levels_of_key_nodes_are_those_of_plain_lists(rt: HostRuntime) {
    play(&rt, rt.alloc(), &THREE_LEVELS, LEVELS);
}
