//! Lookups in nodes built by hand: which child, which part, which versions.

use super::encodings::{COLUMN, COLUMN_BLOCK, KEY_NODE, LEAF_BLOCK, block_of};
use super::nodes::{LEAF, key_of, page_of};
use crate::{be, be_at};
use disk_models::Page;
use std::alloc::Global;
use tsb_node::{
    PartAt, ReadFault, Spot, child_for, copy_side, entries_in, key_node_head, part, part_for,
    read_leaf, read_leaf_block, spot_for,
};
use version_model::{Bounds, Entry, PartKind, Stamp};

/// A key, and the child under which it lies: its lowest key, the one that it doesn't reach, its page.
const UNDER: [(u8, u8, u8, u64); 4] = [(0, 0, 4, 5), (3, 0, 4, 5), (4, 4, 9, 6), (8, 4, 9, 6)];

/// Whether a key lies under this child.
fn is_under(node: &Page, key: u8, low: u8, high: u8, page: u64) -> bool {
    match child_for(node.octets(), key_of(key)) {
        Ok(under) => {
            under.low == key_of(low) && under.high == Some(key_of(high)) && under.page == page
        }
        Err(_) => false,
    }
}

/// Whether a page's head is that of a key node of level 2, below key 9.
fn is_head(node: &Page) -> bool {
    match key_node_head(node.octets()) {
        Ok(head) => {
            head.level == 2 && head.bounds.high == Some(key_of(9)) && head.bounds.end.is_none()
        }
        Err(_) => false,
    }
}

#[test]
fn a_key_node_by_hand_is_looked_into(rt: HostRuntime) {
    let node = page_of(rt.alloc(), &KEY_NODE).expect(&rt, "a page");
    for (key, low, high, page) in &UNDER {
        be_at(
            &rt,
            is_under(&node, *key, *low, *high, *page),
            "a key",
            u64::from(*key),
        );
    }
    be(&rt, is_head(&node), "the head");
}

/// Whether a part is of this kind, in this block, from one time to another.
fn is_part(found: &PartAt, kind: PartKind, block: u64, start: u64, end: u64) -> bool {
    found.part.kind == kind
        && found.part.block == block
        && found.part.start == Stamp::new(start, 0)
        && found.end == Stamp::new(end, 0)
}

/// Whether the past lies in leaf block 7, up to time 258.
fn has_past(column: &Page) -> bool {
    match spot_for(column.octets(), Stamp::new(257, 9)) {
        Ok(Spot::InBlock(past)) => is_part(&past, PartKind::LeafBlock, 7, 0, 258),
        _ => false,
    }
}

/// Whether the current leaf is page 3, from time 258 on.
fn has_current(column: &Page) -> bool {
    match spot_for(column.octets(), Stamp::new(258, 0)) {
        Ok(Spot::InPage(current)) => { current.start == Stamp::new(258, 0) && current.page == 3 }
        _ => false,
    }
}

/// Whether the last part of an old column is column block 9, from time 258 to 300.
fn has_last(old: &Page) -> bool {
    match part_for(old.octets(), Stamp::new(300, 0), Stamp::new(258, 0)) {
        Ok(last) => is_part(&last, PartKind::ColumnBlock, 9, 258, 300),
        Err(_) => false,
    }
}

#[test]
fn columns_by_hand_are_looked_into(rt: HostRuntime) {
    let column = page_of(rt.alloc(), &COLUMN).expect(&rt, "a column");
    be(&rt, has_past(&column), "the past");
    be(&rt, has_current(&column), "the current leaf");
    let old = page_of(rt.alloc(), &COLUMN_BLOCK).expect(&rt, "an old column");
    be(&rt, has_last(&old), "the last part");
}

/// What key 5 of the leaf has from a stamp on and before another.
fn parted(
    alloc: Global,
    leaf: &Page,
    from: u64,
    end: Option<u64>,
) -> Result<Vec<Entry>, ReadFault> {
    part(
        alloc,
        leaf.octets(),
        key_of(5),
        Stamp::new(from, 0),
        end.map(|end| Stamp::new(end, 0)),
    )
}

/// Whether these are `count` versions, the first of them of this stamp and a value that begins with this octet, or an
/// end.
fn are_versions(found: &[Entry], count: usize, time: u64, order: u64, octet: Option<u8>) -> bool {
    let Some(first) = found.first() else {
        return false;
    };
    let is_value = match &first.value {
        Some(value) => value.first().copied() == octet,
        None => octet == None,
    };
    found.len() == count && first.stamp == Stamp::new(time, order) && is_value
}

/// From when on and before when the versions of key 5 are asked for, how many there are, the first one's stamp and value.
const PARTED: [(u64, Option<u64>, usize, u64, u64, Option<u8>); 3] = [
    (0, None, 2, 258, 3, Some(170)),
    (258, Some(260), 1, 258, 3, Some(170)),
    (259, None, 1, 260, 0, None),
];

/// Whether key 5 of the leaf has what the n-th line says.
fn is_parted(alloc: Global, leaf: &Page, n: usize) -> bool {
    let Some((from, end, count, time, order, octet)) = PARTED.get(n) else {
        return false;
    };
    match parted(alloc, leaf, *from, *end) {
        Ok(found) => are_versions(&found, *count, *time, *order, *octet),
        Err(_) => false,
    }
}

/// Whether key 5 has no version before time 258.
fn is_none_before(alloc: Global, leaf: &Page) -> bool {
    match parted(alloc, leaf, 0, Some(258)) {
        Ok(found) => found.is_empty(),
        Err(_) => false,
    }
}

/// How many versions a leaf has.
fn count_of(alloc: Global, leaf: &Page) -> Option<usize> {
    Some(entries_in(alloc, leaf.octets()).ok()?.len())
}

#[test]
fn the_versions_of_a_leaf_by_hand(rt: HostRuntime) {
    let alloc = rt.alloc();
    let mut leaf = page_of(alloc, &LEAF).expect(&rt, "a leaf");
    for n in 0..PARTED.len() {
        be_at(&rt, is_parted(alloc, &leaf, n), "a part", n as u64);
    }
    be(&rt, is_none_before(alloc, &leaf), "none before the first");
    be(&rt, count_of(alloc, &leaf) == Some(2), "all versions");
    // More entries than stand there.
    leaf.put(4, &[255, 255]);
    let is_refused = matches!(parted(alloc, &leaf, 0, None), Err(ReadFault::NotANode));
    be(&rt, is_refused, "no node");
}

/// A leaf of the keys below 9 with a value of one octet of key 4, then one of key 5, each of 60 octets from 120 on.
const TWO_KEYS: [(usize, &[u8]); 11] = [
    (0, &[1, 1, 0, 0, 0, 2, 0, 120]),
    (87, &[9]),
    (104, &[255; 16]),
    (159, &[4]),
    (167, &[1]),
    (176, &[1, 0, 1]),
    (179, &[170]),
    (219, &[5]),
    (227, &[2]),
    (236, &[1, 0, 1]),
    (239, &[187]),
];

/// Its side below key 5, and from key 5 on.
const LEFT: [(usize, &[u8]); 7] = [
    (0, &[1, 1, 0, 0, 0, 1, 0, 60]),
    (87, &[5]),
    (104, &[255; 16]),
    (159, &[4]),
    (167, &[1]),
    (176, &[1, 0, 1]),
    (179, &[170]),
];

const RIGHT: [(usize, &[u8]); 8] = [
    (0, &[1, 1, 0, 0, 0, 1, 0, 60]),
    (47, &[5]),
    (87, &[9]),
    (104, &[255; 16]),
    (159, &[5]),
    (167, &[2]),
    (176, &[1, 0, 1]),
    (179, &[187]),
];

/// Whether a leaf's side, of the bounds of this leaf, is exactly this leaf. `fresh` is written over.
fn is_side(leaf: &Page, fresh: &mut Page, expected: &Page) -> bool {
    let Some(bounds) = read_leaf(expected) else {
        return false;
    };
    copy_side(leaf.octets(), &bounds, fresh).is_ok() && fresh.octets() == expected.octets()
}

#[test]
fn sides_of_a_leaf_by_hand(rt: HostRuntime) {
    let alloc = rt.alloc();
    let leaf = page_of(alloc, &TWO_KEYS).expect(&rt, "a leaf");
    let mut fresh = Page::new(alloc).expect(&rt, "a page");
    let left = page_of(alloc, &LEFT).expect(&rt, "the left side");
    be(&rt, is_side(&leaf, &mut fresh, &left), "the left side");
    let right = page_of(alloc, &RIGHT).expect(&rt, "the right side");
    be(&rt, is_side(&leaf, &mut fresh, &right), "the right side");
}

/// Whether these bounds are those of all keys below 9 from the first stamp on, with this end.
fn are_bounds(bounds: &Option<Bounds>, end: &Option<Stamp>) -> bool {
    match bounds {
        Some(bounds) => {
            bounds.low == key_of(0)
                && bounds.high == Some(key_of(9))
                && bounds.start == Stamp::new(0, 0)
                && bounds.end == *end
        }
        None => false,
    }
}

#[test]
fn leaves_by_hand_are_reported_by_their_bounds(rt: HostRuntime) {
    let leaf = page_of(rt.alloc(), &LEAF).expect(&rt, "a leaf");
    be(&rt, are_bounds(&read_leaf(&leaf), &None), "a leaf");
    let block = block_of(rt.alloc(), &LEAF_BLOCK).expect(&rt, "a block");
    let end = Some(Stamp::new(300, 0));
    be(
        &rt,
        are_bounds(&read_leaf_block(&block), &end),
        "a leaf block",
    );
}

/// Counts of children that no key node has, and of parts that no column has: none, or more than there is room for.
const NO_CHILDREN: [u16; 3] = [0, 339, 65_535];

const NO_PARTS: [u16; 3] = [0, 650, 65_535];

/// Whether no child is found in a key node with this count.
fn is_no_key_node(node: &mut Page, count: u16) -> bool {
    node.put(4, &count.to_be_bytes());
    child_for(node.octets(), key_of(3)).is_err()
}

/// Whether no part is found in a column with this count, as that of a page or of a block.
fn is_no_column(column: &mut Page, count: u16) -> bool {
    column.put(4, &count.to_be_bytes());
    spot_for(column.octets(), Stamp::new(258, 0)).is_err()
        && part_for(column.octets(), Stamp::new(300, 0), Stamp::new(258, 0)).is_err()
}

#[test]
fn counts_for_which_there_is_no_room_are_refused(rt: HostRuntime) {
    let mut node = page_of(rt.alloc(), &KEY_NODE).expect(&rt, "a key node");
    for count in NO_CHILDREN {
        be_at(
            &rt,
            is_no_key_node(&mut node, count),
            "children",
            u64::from(count),
        );
    }
    let mut column = page_of(rt.alloc(), &COLUMN).expect(&rt, "a column");
    for count in NO_PARTS {
        be_at(
            &rt,
            is_no_column(&mut column, count),
            "parts",
            u64::from(count),
        );
    }
}
