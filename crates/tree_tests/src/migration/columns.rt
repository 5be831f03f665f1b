//! Pasts of columns become blocks: pages of columns by hand, octet by octet, and each part asked through the block.

ghost use Rattle.std.specs.Prelude.{◌+◌, ◌≤◌};

use super::asking::{Span, is_part};
use super::leaves::leaf_part;
use super::rows::{Row, page_of, stamp_of};
use crate::be;
use crate::memory::shelf_of;
use disk_memory::MemOnce;
use disk_models::Page;
use once_store::Shelf;
use std::alloc::Global;
use tsb_node::column_of_page;
use version_model::{Part, PartKind};
use worm_migration::{MigrationError, columns_have_whole_pasts, migrate_column, settle_leaf_page};

/// An entry of a column: the stamp where it starts, its kind, and its block or page.
pub(super) type Entry = (u64, u8, u64);

/// Writes an entry of a column. None where the page ends before.
fn put_entry(page: &mut Page, at: usize, entry: Entry) -> Option<()> {
    let (start, kind, number) = entry;
    if at > 16_359 {
        return None;
    }
    page.put(at, &(start / 2).to_be_bytes());
    page.put(at + 8, &(start % 2).to_be_bytes());
    page.put(at + 16, &[kind]);
    page.put(at + 17, &number.to_be_bytes());
    Some(())
}

/// The page of a column of all keys whose header counts `count` entries, which are still to be put.
fn empty_column(alloc: Global, count: u16) -> Option<Page> {
    let mut page = Page::new(alloc).ok()?;
    page.put(0, &[2, 1, 1, 0]);
    page.put(4, &count.to_be_bytes());
    page.put(6, &count.checked_mul(25)?.to_be_bytes());
    page.put(48, &[255; 40]);
    page.put(104, &[255; 16]);
    Some(page)
}

/// The page of a column of all keys with these parts, whose current leaf starts at a stamp and is page 7.
pub(super) fn column_page(alloc: Global, parts: &[Entry], current: u64) -> Option<Page> {
    let count = u16::try_from(parts.len()).ok()?.checked_add(1)?;
    let mut page = empty_column(alloc, count)?;
    let mut at = 120usize;
    for part in parts {
        put_entry(&mut page, at, *part)?;
        at = at.checked_add(25)?;
    }
    put_entry(&mut page, at, (current, 0, 7))?;
    Some(page)
}

/// Makes one block of the parts of the column in a page.
pub(super) fn migrated(
    alloc: Global,
    shelf: &mut Shelf<MemOnce>,
    page: &Page,
) -> Option<Result<Part, MigrationError>> {
    let Ok(said) = column_of_page(alloc, page) else {
        return None;
    };
    if said.parts.is_empty() || said.current.start >= stamp_of(1_000_000) {
        return None;
    }
    columns_have_whole_pasts();
    Some(migrate_column(shelf, alloc, &said.bounds, &said.parts, said.current.start))
}

/// The row of a stamp: of key 3 with the stamp's low octet, but for each seventh, which is of key 5 and ends by turns.
fn row_at(stamp: u64) -> Row {
    let octet = (stamp % 256) as u8;
    if stamp % 7 > 0 {
        (3, stamp, Some(octet))
    } else if stamp % 2 > 0 {
        (5, stamp, None)
    } else {
        (5, stamp, Some(octet))
    }
}

/// `count` rows, one at each stamp.
fn rows_of(alloc: Global, count: u64) -> Option<Vec<Row>> {
    let mut rows = Vec::new(alloc);
    for stamp in 0..count {
        rows.push(row_at(stamp)).ok()?;
    }
    Some(rows)
}

/// Settles the leaf of the first rows that starts at a stamp, up to another one. It returns its part as an entry of a column.
fn settle_part(
    alloc: Global,
    shelf: &mut Shelf<MemOnce>,
    rows: &[Row],
    start: u64,
    end: u64,
) -> Option<Entry> {
    let rows = rows.get(..end as usize)?;
    let page = page_of(alloc, rows, start)?;
    let block = settle_leaf_page(shelf, alloc, &page, stamp_of(end)).ok()?;
    Some((start, 1, block))
}

/// Settles leaves of one stamp and one row more each, from one stamp to another, and adds their parts to the entries of a column.
fn settle_parts(
    alloc: Global,
    shelf: &mut Shelf<MemOnce>,
    rows: &[Row],
    parts: &mut Vec<Entry>,
    from: u64,
    to: u64,
) -> Option<()> {
    for start in from..to {
        let part = settle_part(alloc, shelf, rows, start, start.checked_add(1)?)?;
        parts.push(part).ok()?;
    }
    Some(())
}

/// Makes one block of a column of these parts, up to a stamp. It returns the part that this block is.
fn column_part(
    alloc: Global,
    shelf: &mut Shelf<MemOnce>,
    parts: &[Entry],
    end: u64,
) -> Option<Part> {
    let page = column_page(alloc, parts, end)?;
    let part = migrated(alloc, shelf, &page)?.ok()?;
    if part.start == stamp_of(0) && part.kind == PartKind::ColumnBlock {
        Some(part)
    } else {
        None
    }
}

/// The block of a full column of leaves from stamp 0 to 648.
fn full_part(alloc: Global, shelf: &mut Shelf<MemOnce>, rows: &[Row]) -> Option<Part> {
    let mut parts = Vec::new(alloc);
    settle_parts(alloc, shelf, rows, &mut parts, 0, 648)?;
    column_part(alloc, shelf, &parts, 648)
}

/// The block of a column of which that block is the first part, up to stamp 651.
fn later_part(alloc: Global, shelf: &mut Shelf<MemOnce>, rows: &[Row], full: Part) -> Option<Part> {
    let mut parts = vec![in alloc; (0u64, 2u8, full.block); 1].ok()?;
    settle_parts(alloc, shelf, rows, &mut parts, 648, 651)?;
    column_part(alloc, shelf, &parts, 651)
}

/// The stamps of a part, from the first one to before another.
fn until(part: Part, to: u64) -> Span {
    Span { part, from: 0, to }
}

#[test]
fn a_full_column_becomes_one_block_and_so_once_more(rt: HostRuntime) {
    let alloc = rt.alloc();
    let rows = rows_of(alloc, 652).expect(&rt, "rows");
    let mut shelf = shelf_of(alloc, 700, Vec::new(alloc)).expect(&rt, "a shelf");
    let full = full_part(alloc, &mut shelf, &rows).expect(&rt, "a full column");
    be(
        &rt,
        full.block == 648 && shelf.next() == 649,
        "the block after 648 leaves",
    );
    let represents_node = is_part(alloc, &mut shelf, &rows, until(full, 648), 1);
    be(&rt, represents_node, "what it represents_node");
    // The block is the first part of a column that becomes a block.
    let later = later_part(alloc, &mut shelf, &rows, full).expect(&rt, "a later column");
    be(
        &rt,
        later.block == 652 && shelf.next() == 653,
        "the block after three leaves more",
    );
    let represents_node = is_part(alloc, &mut shelf, &rows, until(later, 651), 25);
    be(&rt, represents_node, "what it represents_node");
}

/// Whether a column in a page isn't migrated since the disk of two blocks is full.
fn is_full(alloc: Global, shelf: &mut Shelf<MemOnce>, page: &Page) -> bool {
    match migrated(alloc, shelf, page) {
        Some(Err(error)) => {
            error == MigrationError::OnceFull && shelf.next() == 2 && shelf.faults() == 0
        }
        _ => false,
    }
}

#[test]
fn a_column_of_one_part_becomes_a_block(rt: HostRuntime) {
    let alloc = rt.alloc();
    let rows = rows_of(alloc, 9).expect(&rt, "rows");
    let mut shelf = shelf_of(alloc, 2, Vec::new(alloc)).expect(&rt, "a shelf");
    let (start, kind, block) = settle_part(alloc, &mut shelf, &rows, 0, 8).expect(&rt, "a leaf");
    let page = column_page(alloc, &[(start, kind, block)], 8).expect(&rt, "a column");
    let part = migrated(alloc, &mut shelf, &page).expect(&rt, "a column");
    let part = part.expect(&rt, "a block");
    let represents_node = is_part(alloc, &mut shelf, &rows, until(part, 8), 1);
    be(&rt, represents_node, "what the column represents_node");
    let represents_node = is_part(alloc, &mut shelf, &rows, until(leaf_part(0, block), 8), 1);
    be(&rt, represents_node, "what the leaf represents_node");
    be(&rt, is_full(alloc, &mut shelf, &page), "a full disk");
}
