//! Leaves are split by time: what was until then in a block, and what stays.

ghost use Rattle.std.specs.Option.{IfSome};
ghost use Rattle.std.specs.Prelude.{◌≡◌, None};
ghost use Rattle.tsb_node.specs.Leaves.{CanBeLeaf};

use super::asking::{KEYS, Span, is_part};
use super::rows::{Row, TABLE, page_of, rows_since, scan, stamp_of};
use crate::answers::{NONE, value_at, value_in, value_of};
use crate::be_at;
use crate::memory::{key_of, shelf_of};
use disk_memory::MemOnce;
use disk_models::Page;
use once_store::Shelf;
use std::alloc::Global;
use tsb_node::leaf_of_page;
use version_model::{Bounds, Entry, Leaf, Part, PartKind};
use worm_migration::{MigratedLeaf, MigrationError, migrate_leaf, settle_leaf, settle_leaf_page};

/// The octets that entries may take in a leaf.
const ROOM: u64 = 16_232;

/// The leaf that a page is.
fn leaf_of(alloc: Global, page: &Page) -> Option<(Bounds, Leaf)>
    ensures leaf { IfSome result (λ read. CanBeLeaf (record { bounds = read.0; versions = read.1 })) }
    ensures current { IfSome result (λ read. read.0.end ≡ None) }
{
    let Ok(said) = leaf_of_page(alloc, page) else {
        return None;
    };
    let bounds = said.bounds;
    let Some(leaf) = Leaf::of(said.entries, ROOM) else {
        return None;
    };
    Some((bounds, leaf))
}

/// Splits the leaf in a page by time.
pub(super) fn split(
    alloc: Global,
    shelf: &mut Shelf<MemOnce>,
    page: &Page,
    at: u64,
) -> Option<Result<MigratedLeaf, MigrationError>> {
    let (bounds, leaf) = leaf_of(alloc, page)?;
    let at = stamp_of(at);
    if bounds.start >= at {
        return None;
    }
    Some(migrate_leaf(shelf, alloc, &bounds, &leaf, at))
}

/// Settles what the leaf in a page was until a stamp, from memory.
fn settled(
    alloc: Global,
    shelf: &mut Shelf<MemOnce>,
    page: &Page,
    at: u64,
) -> Option<Result<u64, MigrationError>> {
    let (bounds, leaf) = leaf_of(alloc, page)?;
    let at = stamp_of(at);
    if bounds.start >= at {
        return None;
    }
    Some(settle_leaf(shelf, alloc, &bounds, &leaf, at))
}

pub(super) fn leaf_part(start: u64, block: u64) -> Part {
    Part {
        start: stamp_of(start),
        kind: PartKind::LeafBlock,
        block,
    }
}

/// Whether an entry is this row.
fn is_row(entry: &Entry, row: &Row) -> bool {
    let value = match row.2 {
        Some(octet) => value_of(1, octet),
        None => NONE,
    };
    entry.key == key_of(row.0) && entry.stamp == stamp_of(row.1) && value_at(entry) == value
}

/// Whether the leaf which stays has exactly these rows.
fn has_rows(leaf: &Leaf, rows: &[Row]) -> bool {
    let mut n = 0usize;
    for entry in leaf.entries() {
        match rows.get(n) {
            Some(row) if is_row(entry, row) => n = n.saturating_add(1),
            _ => return false,
        }
    }
    n == rows.len()
}

/// What a key has in a leaf at a stamp, as an answer has it.
fn find(leaf: &Leaf, key: u8, stamp: u64) -> [u64; 3] {
    match leaf.find(key_of(key), stamp_of(stamp)) {
        Some((since, value)) => [since.time(), since.order(), value_in(value)],
        None => [NONE; 3],
    }
}

/// Whether each key has in a leaf at a stamp what the rows say.
fn is_found(leaf: &Leaf, rows: &[Row], stamp: u64) -> bool {
    for key in 0..KEYS {
        if find(leaf, key, stamp) != scan(rows, key, stamp) {
            return false;
        }
    }
    true
}

/// Whether the leaf answers as the rows do, at each n-th stamp from one on, up to one above all.
fn is_leaf(leaf: &Leaf, rows: &[Row], from: u64, n: u64) -> bool {
    let Some(last) = rows.last() else {
        return false;
    };
    for stamp in from..last.1.saturating_add(2) {
        if stamp.checked_rem(n) == Some(0) && !is_found(leaf, rows, stamp) {
            return false;
        }
    }
    true
}

/// Whether the three blocks that a leaf becomes say what the rows say, from its start to the split.
fn are_parts(
    alloc: Global,
    shelf: &mut Shelf<MemOnce>,
    rows: &[Row],
    from: u64,
    to: u64,
    n: u64,
) -> bool {
    for block in 0..3u64 {
        let part = leaf_part(from, block);
        if !is_part(alloc, shelf, rows, Span { part, from, to }, n) {
            return false;
        }
    }
    true
}

/// Splits the leaf in a page, in each of the three ways, into blocks 0 to 2. It returns the leaf that stays.
fn split_three_times(
    alloc: Global,
    shelf: &mut Shelf<MemOnce>,
    page: &Page,
    at: u64,
) -> Option<Leaf> {
    let first = settle_leaf_page(shelf, alloc, page, stamp_of(at)).ok()?;
    let second = settled(alloc, shelf, page, at)?.ok()?;
    let migrated = split(alloc, shelf, page, at)?.ok()?;
    let is_right = first == 0
        && second == 1
        && migrated.block == 2
        && shelf.next() == 3
        && shelf.faults() == 0;
    if is_right { Some(migrated.newer) } else { None }
}

/// Splits the leaf of the rows that starts at a stamp, in each of the three ways, and asks both sides at each n-th stamp. Whether both
/// answer as the rows do.
fn is_split(alloc: Global, rows: &[Row], start: u64, at: u64, n: u64) -> Option<bool> {
    let mut shelf = shelf_of(alloc, 4, Vec::new(alloc))?;
    let page = page_of(alloc, rows, start)?;
    let newer = split_three_times(alloc, &mut shelf, &page, at)?;
    Some(
        are_parts(alloc, &mut shelf, rows, start, at, n)
            && has_rows(&newer, &rows_since(alloc, rows, at)?)
            && is_leaf(&newer, rows, at, n),
    )
}

#[test]
fn both_sides_of_a_time_split_answer_as_the_list(rt: HostRuntime) {
    // Stamp 1 is that of the first version, below all others; stamp 10 is between them; stamp 14 is above all.
    for at in 1..15u64 {
        be_at(
            &rt,
            is_split(rt.alloc(), &TABLE, 0, at, 1) == Some(true),
            "a split",
            at,
        );
    }
}

#[test]
fn a_leaf_with_copies_is_split_again(rt: HostRuntime) {
    for start in [3u64, 6, 10] {
        for at in start + 1..16 {
            be_at(
                &rt,
                is_split(rt.alloc(), &TABLE, start, at, 1) == Some(true),
                "a split",
                at,
            );
        }
    }
}

/// `count` rows of the keys below 8, from a generator: one in five is an end.
fn many_rows(alloc: Global, count: u64) -> Option<Vec<Row>> {
    let mut rows = Vec::new(alloc);
    let mut state = 7u64;
    for stamp in 0..count {
        state = state
            .wrapping_mul(6_364_136_223_846_793_005)
            .wrapping_add(1_442_695_040_888_963_407);
        let key = ((state >> 60) % 8) as u8;
        let octet = ((state >> 40) % 256) as u8;
        let is_end = (state >> 33) % 5 == 0;
        let value = if is_end { None } else { Some(octet) };
        rows.push((key, stamp, value)).ok()?;
    }
    Some(rows)
}

#[test]
fn a_full_leaf_is_split(rt: HostRuntime) {
    let rows = many_rows(rt.alloc(), 270).expect(&rt, "rows");
    for at in [1u64, 135, 269, 300] {
        be_at(
            &rt,
            is_split(rt.alloc(), &rows, 0, at, 19) == Some(true),
            "a split",
            at,
        );
    }
}
