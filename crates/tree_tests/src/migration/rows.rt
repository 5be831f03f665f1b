//! A plain list of versions, what a key has in it at a stamp, and pages of leaves made of it.

ghost use Rattle.std.specs.Prelude.{◌+◌, ◌<◌, ◌^◌};

use crate::answers::{NONE, value_of};
use crate::memory::key_of;
use disk_models::Page;
use std::alloc::Global;
use tsb_node::{push, start_leaf};
use version_model::{Bounds, Stamp};

/// A version: the last octet of its key, its number among stamps, and a value of one octet or an end.
pub(super) type Row = (u8, u64, Option<u8>);

/// Keys 2, 4 and 6. Key 2 ends and begins again; key 4 is overtaken; key 6 ends twice; stamp 10 is nobody's.
pub(super) const TABLE: [Row; 12] = [
    (2, 1, Some(10)),
    (4, 2, Some(20)),
    (2, 3, None),
    (6, 4, Some(30)),
    (2, 5, Some(11)),
    (4, 6, Some(21)),
    (6, 7, None),
    (6, 8, None),
    (2, 9, Some(12)),
    (4, 11, None),
    (6, 12, Some(31)),
    (2, 13, None),
];

/// Two stamps to a second, so that both words count.
pub(super) fn stamp_of(number: u64) -> Stamp
    ensures { result + 1 < 256 ^ 16 }
{
    Stamp::new(number / 2, number % 2)
}

/// What the key has at the stamp, as an answer has it, by stamp and value: the last row of it that is not after the stamp, where that is a
/// value.
pub(super) fn scan(rows: &[Row], key: u8, stamp: u64) -> [u64; 3] {
    let mut last = [NONE; 3];
    for row in rows {
        if row.0 == key && row.1 <= stamp {
            last = held(row);
        }
    }
    last
}

/// The stamp and the value of a row, none of an end.
fn held(row: &Row) -> [u64; 3] {
    match row.2 {
        Some(octet) => [row.1 / 2, row.1 % 2, value_of(1, octet)],
        None => [NONE; 3],
    }
}

/// Whether a row is in a leaf that starts at a stamp: it is from there on, or the value that its key has at the start.
fn is_since(rows: &[Row], row: &Row, start: u64) -> bool {
    row.1 >= start || (row.2.is_some() && scan(rows, row.0, start) == held(row))
}

/// The rows of a leaf that starts at a stamp.
pub(super) fn rows_since(alloc: Global, rows: &[Row], start: u64) -> Option<Vec<Row>> {
    let mut kept = Vec::new(alloc);
    for row in rows {
        if is_since(rows, row, start) {
            kept.push(*row).ok()?;
        }
    }
    Some(kept)
}

/// Whether a leaf takes a row.
fn is_pushed(page: &mut Page, row: Row) -> bool {
    let key = key_of(row.0);
    let stamp = stamp_of(row.1);
    let pushed = match row.2 {
        Some(octet) => push(page, key, stamp, Some(&[octet])),
        None => push(page, key, stamp, None),
    };
    pushed == Ok(true)
}

/// The page of a leaf of no row that starts at a stamp.
fn empty_page(alloc: Global, start: u64) -> Option<Page> {
    let bounds = Bounds {
        low: key_of(0),
        high: None,
        start: stamp_of(start),
        end: None,
    };
    let mut page = Page::new(alloc).ok()?;
    start_leaf(&mut page, &bounds);
    Some(page)
}

/// The page of a leaf that starts at a stamp.
pub(super) fn page_of(alloc: Global, rows: &[Row], start: u64) -> Option<Page> {
    let mut page = empty_page(alloc, start)?;
    for row in rows {
        if is_since(rows, row, start) && !is_pushed(&mut page, *row) {
            return None;
        }
    }
    Some(page)
}
