//! Nodes of all five kinds built by hand, octet by octet, with each of their octets changed, and at their greatest: each is read as
//! what is written again to the same octets, or as no node.

use super::nodes::{LEAF, page_of};
use crate::{be, be_at};
use disk_models::{Block, Page};
use once_store::seal;
use route_model::Key;
use std::alloc::Global;
use std::process::Abort;
use tsb_node::{
    ReadFault, column_of_block, column_of_page, key_node_of_page, leaf_of_block, leaf_of_page,
    push, seal_leaf, start_leaf, write_column, write_key_node, write_leaf, write_old_column,
};
use version_model::{Bounds, Stamp};

/// The kinds of nodes that pages may be.
#[derive(Clone, Copy)]
enum Kind {
    Leaf,
    Column,
    KeyNode,
}

/// A column of the keys below 9, in microseconds, of level 1; two entries, of 50 octets.
pub(super) const COLUMN: [(usize, &[u8]); 8] = [
    (0, &[2, 1, 1, 0, 0, 2, 0, 50]),
    // The high key, the end stamp: none.
    (87, &[9]),
    (104, &[255, 255, 255, 255, 255, 255, 255, 255]),
    (112, &[255, 255, 255, 255, 255, 255, 255, 255]),
    // From 120 on a part: from stamp 0 on in leaf block 7.
    (136, &[1]),
    (144, &[7]),
    // From 145 on the current leaf: from time 258 on in page 3.
    (151, &[1, 2]),
    (169, &[3]),
];

/// A key node of level 2 of the keys below 9; two entries, of 96 octets.
pub(super) const KEY_NODE: [(usize, &[u8]); 7] = [
    (0, &[3, 1, 2, 0, 0, 2, 0, 96]),
    (87, &[9]),
    (104, &[255, 255, 255, 255, 255, 255, 255, 255]),
    (112, &[255, 255, 255, 255, 255, 255, 255, 255]),
    // From 120 on the child of keys from 0 on in page 5, from 168 on that of keys from 4 on in page 6.
    (167, &[5]),
    (207, &[4]),
    (215, &[6]),
];

/// The leaf of LEAF, up to time 300, and the SHA-256 of its first 16,352 octets.
pub(super) const LEAF_BLOCK: [(usize, &[u8]); 13] = [
    (0, &[1, 1, 0, 0, 0, 2, 0, 120]),
    (87, &[9]),
    (110, &[1, 44]),
    (159, &[5]),
    (166, &[1, 2]),
    (175, &[3]),
    (176, &[1, 0, 2]),
    (179, &[170, 187]),
    (220, &[5]),
    (227, &[1, 4]),
    (237, &[0, 0, 0]),
    (
        16_352,
        &[
            216, 106, 163, 156, 249, 110, 50, 187, 36, 178, 140, 179, 51, 176, 55, 79,
        ],
    ),
    (
        16_368,
        &[
            0, 71, 214, 242, 84, 213, 56, 100, 157, 63, 245, 217, 86, 151, 217, 125,
        ],
    ),
];

/// A column of the keys below 9 up to time 300: from 0 on in leaf block 7, from time 258 on in column block 9; and its SHA-256.
pub(super) const COLUMN_BLOCK: [(usize, &[u8]); 10] = [
    (0, &[2, 1, 1, 0, 0, 2, 0, 50]),
    (87, &[9]),
    (110, &[1, 44]),
    (136, &[1]),
    (144, &[7]),
    (151, &[1, 2]),
    (161, &[2]),
    (169, &[9]),
    (
        16_352,
        &[
            246, 155, 46, 124, 159, 155, 20, 112, 115, 189, 34, 124, 194, 227, 93, 169,
        ],
    ),
    (
        16_368,
        &[
            106, 193, 184, 193, 208, 105, 100, 212, 219, 125, 136, 68, 64, 150, 58, 215,
        ],
    ),
];

pub(super) fn block_of(alloc: Global, fields: &[(usize, &[u8])]) -> Option<Block> {
    let page = page_of(alloc, fields)?;
    Block::from_slice(alloc, page.octets()).ok()
}

/// What is read where there is a refusal: no node, or none where memory ran out.
fn refused(fault: ReadFault) -> Option<bool> {
    match fault {
        ReadFault::NotANode => Some(false),
        ReadFault::Memory => None,
    }
}

/// Writes again what a page says, where it is a leaf. Whether it is one.
fn leaf_again(alloc: Global, page: &Page, fresh: &mut Page) -> Option<bool> {
    match leaf_of_page(alloc, page) {
        Ok(decoded) => {
            write_leaf(fresh, &decoded.bounds, &decoded.entries);
            Some(true)
        }
        Err(fault) => refused(fault),
    }
}

fn column_again(alloc: Global, page: &Page, fresh: &mut Page) -> Option<bool> {
    match column_of_page(alloc, page) {
        Ok(decoded) => {
            write_column(fresh, &decoded.bounds, &decoded.parts, decoded.current);
            Some(true)
        }
        Err(fault) => refused(fault),
    }
}

fn key_node_again(alloc: Global, page: &Page, fresh: &mut Page) -> Option<bool> {
    match key_node_of_page(alloc, page) {
        Ok(decoded) => {
            write_key_node(fresh, decoded.level, &decoded.bounds, &decoded.children);
            Some(true)
        }
        Err(fault) => refused(fault),
    }
}

/// Writes again what a page says, where it is a node of the kind.
fn page_again(alloc: Global, kind: Kind, page: &Page, fresh: &mut Page) -> Option<bool> {
    match kind {
        Kind::Leaf => leaf_again(alloc, page, fresh),
        Kind::Column => column_again(alloc, page, fresh),
        Kind::KeyNode => key_node_again(alloc, page, fresh),
    }
}

/// Writes again what a block says, where it is a leaf. Whether it is one.
fn leaf_block_again(alloc: Global, block: &Block, fresh: &mut Block) -> Option<bool> {
    match leaf_of_block(alloc, block) {
        Ok(decoded) => {
            let Some(end) = decoded.bounds.end else {
                return None;
            };
            let bounds = Bounds {
                low: decoded.bounds.low,
                high: decoded.bounds.high,
                start: decoded.bounds.start,
                end: None,
            };
            let mut page = Page::new(alloc).ok()?;
            write_leaf(&mut page, &bounds, &decoded.entries);
            seal_leaf(&page, end, fresh);
            Some(true)
        }
        Err(fault) => refused(fault),
    }
}

fn column_block_again(alloc: Global, block: &Block, fresh: &mut Block) -> Option<bool> {
    match column_of_block(alloc, block) {
        Ok(decoded) => {
            write_old_column(fresh, &decoded.bounds, &decoded.parts);
            Some(true)
        }
        Err(fault) => refused(fault),
    }
}

/// Writes again what a block says, where it is a node of the kind; no block is a key node.
fn block_again(alloc: Global, kind: Kind, block: &Block, fresh: &mut Block) -> Option<bool> {
    match kind {
        Kind::Leaf => leaf_block_again(alloc, block, fresh),
        Kind::Column => column_block_again(alloc, block, fresh),
        Kind::KeyNode => Some(false),
    }
}

/// Whether a node is in microseconds. One in whole seconds is read too, and is written again in microseconds.
fn is_in_microseconds(octets: &[u8]) -> bool {
    matches!(octets.get(1).copied(), Some(1))
}

/// Whether a page is a node of the kind; none where it isn't the one that is written of what it says.
fn is_page(alloc: Global, kind: Kind, page: &Page, fresh: &mut Page) -> Option<bool> {
    let is_one = page_again(alloc, kind, page, fresh)?;
    if is_one && is_in_microseconds(page.octets()) && fresh.octets() != page.octets() {
        return None;
    }
    Some(is_one)
}

/// The same of a block.
fn is_block(alloc: Global, kind: Kind, block: &Block, fresh: &mut Block) -> Option<bool> {
    let is_one = block_again(alloc, kind, block, fresh)?;
    if is_one && is_in_microseconds(block.octets()) && fresh.octets() != block.octets() {
        return None;
    }
    Some(is_one)
}

/// How an octet is changed.
#[derive(Clone, Copy)]
enum Way {
    Zero,
    Ones,
    OneMore,
}

fn changed(way: Way, was: u8) -> u8 {
    match way {
        Way::Zero => 0,
        Way::Ones => 255,
        Way::OneMore => was.wrapping_add(1),
    }
}

/// Whether a page is still read as what is written again, or as no node, where an octet is changed in this way. It is mended then.
fn is_read_changed(
    alloc: Global,
    kind: Kind,
    way: Way,
    page: &mut Page,
    fresh: &mut Page,
    at: usize,
) -> bool {
    let Some(was) = page.octets().get(at).copied() else {
        return false;
    };
    let octet = changed(way, was);
    if octet == was {
        return true;
    }
    page.put(at, &[octet]);
    let is_right = is_page(alloc, kind, page, fresh).is_some();
    page.put(at, &[was]);
    is_right
}

/// Tries that with each octet of a page of this kind.
fn try_page(rt: &impl Abort, alloc: Global, kind: Kind, way: Way, fields: &[(usize, &[u8])]) {
    let mut page = page_of(alloc, fields).expect(rt, "a page");
    let mut fresh = Page::new(alloc).expect(rt, "a page");
    be(
        rt,
        is_page(alloc, kind, &page, &mut fresh) == Some(true),
        "as it was built",
    );
    for at in 0..16_384usize {
        let is_right = is_read_changed(alloc, kind, way, &mut page, &mut fresh, at);
        be_at(rt, is_right, "an octet", at as u64);
    }
}

/// A block with a changed octet, the same with a digest of its own, and what is written again of them.
#[derive(Drop)]
struct Blocks {
    block: Block,
    sealed: Block,
    fresh: Block,
}

fn blocks_of(alloc: Global, fields: &[(usize, &[u8])]) -> Option<Blocks> {
    Some(Blocks {
        block: block_of(alloc, fields)?,
        sealed: Block::new(alloc).ok()?,
        fresh: Block::new(alloc).ok()?,
    })
}

/// The same of a block: it is none with its old digest, and any with one of the changed octets.
fn is_block_changed(alloc: Global, kind: Kind, way: Way, blocks: &mut Blocks, at: usize) -> bool {
    let Some(was) = blocks.block.octets().get(at).copied() else {
        return false;
    };
    let octet = changed(way, was);
    if octet == was {
        return true;
    }
    blocks.block.put(at, &[octet]);
    blocks.sealed.copy_from(&blocks.block);
    seal(&mut blocks.sealed);
    let is_none = is_block(alloc, kind, &blocks.block, &mut blocks.fresh) == Some(false);
    let is_right = is_block(alloc, kind, &blocks.sealed, &mut blocks.fresh).is_some();
    blocks.block.put(at, &[was]);
    is_none && is_right
}

/// Tries that with each octet of a block of this kind.
fn try_block(rt: &impl Abort, alloc: Global, kind: Kind, way: Way, fields: &[(usize, &[u8])]) {
    let mut blocks = blocks_of(alloc, fields).expect(rt, "blocks");
    let built = is_block(alloc, kind, &blocks.block, &mut blocks.fresh);
    be(rt, built == Some(true), "as it was built");
    for at in 0..16_384usize {
        let is_right = is_block_changed(alloc, kind, way, &mut blocks, at);
        be_at(rt, is_right, "an octet", at as u64);
    }
}

#[test]
fn each_octet_of_pages_changed(rt: HostRuntime) {
    for way in [Way::Zero, Way::Ones, Way::OneMore] {
        try_page(&rt, rt.alloc(), Kind::Leaf, way, &LEAF);
        try_page(&rt, rt.alloc(), Kind::Column, way, &COLUMN);
        try_page(&rt, rt.alloc(), Kind::KeyNode, way, &KEY_NODE);
    }
}

#[test]
fn each_octet_of_blocks_set_to_0(rt: HostRuntime) {
    try_block(&rt, rt.alloc(), Kind::Leaf, Way::Zero, &LEAF_BLOCK);
    try_block(&rt, rt.alloc(), Kind::Column, Way::Zero, &COLUMN_BLOCK);
}

#[test]
fn each_octet_of_blocks_set_to_255(rt: HostRuntime) {
    try_block(&rt, rt.alloc(), Kind::Leaf, Way::Ones, &LEAF_BLOCK);
    try_block(&rt, rt.alloc(), Kind::Column, Way::Ones, &COLUMN_BLOCK);
}

#[test]
fn each_octet_of_blocks_raised_by_one(rt: HostRuntime) {
    try_block(&rt, rt.alloc(), Kind::Leaf, Way::OneMore, &LEAF_BLOCK);
    try_block(&rt, rt.alloc(), Kind::Column, Way::OneMore, &COLUMN_BLOCK);
}

/// Puts the number of an entry into two octets, and its kind, where that isn't 0. None where the page ends before.
fn put_entry(
    page: &mut Page,
    number_at: usize,
    number: u16,
    kind_at: usize,
    kind: u8,
) -> Option<()> {
    if number_at > 16_382 || kind_at > 16_383 {
        return None;
    }
    page.put(number_at, &number.to_be_bytes());
    if kind > 0 {
        page.put(kind_at, &[kind]);
    }
    Some(())
}

/// The page of a node of all keys, of `count` entries of one size: each has its number in two octets at a place, and a
/// kind after sixteen octets but for the last; a kind of 0 is none.
fn full_page(
    alloc: Global,
    header: [u8; 8],
    count: u16,
    size: usize,
    number_at: usize,
    kind: u8,
) -> Option<Page> {
    let mut page = Page::new(alloc).ok()?;
    page.put(0, &header);
    page.put(48, &[255; 40]);
    page.put(104, &[255; 16]);
    for i in 0..count {
        let at = size.checked_mul(i as usize)?.checked_add(120)?;
        let kind = if i.saturating_add(1) < count { kind } else { 0 };
        put_entry(
            &mut page,
            at.checked_add(number_at)?,
            i,
            at.checked_add(16)?,
            kind,
        )?;
    }
    Some(page)
}

/// Starts a leaf of all keys, at all times.
fn start(page: &mut Page) {
    let bounds = Bounds {
        low: Key::from_octets(&[0u8; 40]),
        high: None,
        start: Stamp::new(0, 0),
        end: None,
    };
    start_leaf(page, &bounds);
}

/// Whether a value of `length` octets, at most 3,072, is pushed as of a time.
fn is_pushed(page: &mut Page, time: u64, length: usize) -> bool {
    let octets = [7u8; 3072];
    let Some(value) = octets.get(..length) else {
        return false;
    };
    push(
        page,
        Key::from_octets(&[0u8; 40]),
        Stamp::new(time, 0),
        Some(value),
    ) == Ok(true)
}

/// Fills a leaf with all its 16,232 octets: five values of 3,072 octets and one of 518; not even an end fits any more. Whether that
/// is so.
fn is_filled(page: &mut Page) -> bool {
    start(page);
    for time in 0..5u64 {
        if !is_pushed(page, time, 3072) {
            return false;
        }
    }
    let key = Key::from_octets(&[0u8; 40]);
    // Six entries, of 16,232 octets.
    is_pushed(page, 5, 518)
        && push(page, key, Stamp::new(6, 0), None) == Ok(false)
        && page.octets().starts_with(&[1, 1, 0, 0, 0, 6, 63, 104])
}

#[test]
fn the_greatest_leaf(rt: HostRuntime) {
    let alloc = rt.alloc();
    let mut leaf = Page::new(alloc).expect(&rt, "a page");
    let mut fresh = Page::new(alloc).expect(&rt, "a page");
    be(&rt, is_filled(&mut leaf), "a full leaf");
    be(
        &rt,
        is_page(alloc, Kind::Leaf, &leaf, &mut fresh) == Some(true),
        "a leaf",
    );
    let mut block = Block::new(alloc).expect(&rt, "a block");
    let mut again = Block::new(alloc).expect(&rt, "a block");
    seal_leaf(&leaf, Stamp::new(7, 0), &mut block);
    be(
        &rt,
        is_block(alloc, Kind::Leaf, &block, &mut again) == Some(true),
        "a leaf block",
    );
}

/// Whether a page, sealed, is a column block.
fn is_column_block(alloc: Global, column: &Page) -> Option<bool> {
    let mut block = Block::from_slice(alloc, column.octets()).ok()?;
    let mut again = Block::new(alloc).ok()?;
    seal(&mut block);
    is_block(alloc, Kind::Column, &block, &mut again)
}

#[test]
fn the_greatest_columns(rt: HostRuntime) {
    let alloc = rt.alloc();
    let mut fresh = Page::new(alloc).expect(&rt, "a page");
    // 649 places: parts from order number 0 to 647, the current leaf from 648 on.
    let header = [2, 1, 1, 0, 2, 137, 63, 97];
    let mut column = full_page(alloc, header, 649, 25, 14, 1).expect(&rt, "a full page");
    be(
        &rt,
        is_page(alloc, Kind::Column, &column, &mut fresh) == Some(true),
        "a column",
    );
    // The last one a part too, and an end at order number 649: a block.
    column.put(16_336, &[1]);
    column.put(104, &[0; 16]);
    column.put(118, &[2, 137]);
    be(
        &rt,
        is_column_block(alloc, &column) == Some(true),
        "a column block",
    );
}

#[test]
fn the_greatest_key_node(rt: HostRuntime) {
    let alloc = rt.alloc();
    let mut fresh = Page::new(alloc).expect(&rt, "a page");
    // 338 children of keys that end in 0 to 337.
    let header = [3, 1, 7, 0, 1, 82, 63, 96];
    let mut key_node = full_page(alloc, header, 338, 48, 38, 0).expect(&rt, "a full page");
    be(
        &rt,
        is_page(alloc, Kind::KeyNode, &key_node, &mut fresh) == Some(true),
        "a key node",
    );
    // One more child than there is room for.
    key_node.put(4, &[1, 83, 63, 144]);
    be(
        &rt,
        is_page(alloc, Kind::KeyNode, &key_node, &mut fresh) == Some(false),
        "no node",
    );
}
