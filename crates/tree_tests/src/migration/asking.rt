//! What is found through blocks of a shelf.

use super::rows::{Row, scan, stamp_of};
use crate::answers::NONE;
use crate::blocks::Blocks;
use crate::memory::{key_of, located_in};
use disk_memory::MemOnce;
use once_store::Shelf;
use std::alloc::Global;
use version_model::{Bounds, Part, Place};

/// Keys below this one are asked for.
pub(super) const KEYS: u8 = 8;

/// A part of a column, with the stamps that it has: from one to before another.
#[derive(Clone, Copy)]
pub(super) struct Span {
    pub(super) part: Part,
    pub(super) from: u64,
    pub(super) to: u64,
}

/// The place of a part of all keys that are asked for.
fn place_of(span: &Span) -> Place {
    Place {
        bounds: Bounds {
            low: key_of(0),
            high: Some(key_of(KEYS)),
            start: stamp_of(span.from),
            end: Some(stamp_of(span.to)),
        },
        part: span.part,
    }
}

/// Whether each key has at a stamp what the rows say.
fn is_found(blocks: &mut Blocks, place: &Place, rows: &[Row], stamp: u64) -> bool {
    for key in 0..KEYS {
        if value_in(blocks, place, key, stamp) != scan(rows, key, stamp) {
            return false;
        }
    }
    true
}

/// What a key has at a stamp by a place, as a row's numbers; no row's where that is refused.
fn value_in(blocks: &mut Blocks, place: &Place, key: u8, stamp: u64) -> [u64; 3] {
    let key = key_of(key);
    let stamp = stamp_of(stamp);
    if !located_in(&place.bounds, key, stamp) {
        return [0; 3];
    }
    let answer = blocks.value(place, key, stamp);
    if answer[0] == NONE {
        [answer[10], answer[11], answer[12]]
    } else {
        [0; 3]
    }
}

/// Whether blocks say it at each n-th stamp of all, and at the last one.
fn represents_node(blocks: &mut Blocks, rows: &[Row], span: &Span, n: u64) -> bool {
    let place = place_of(span);
    for stamp in span.from..span.to {
        let is_asked = stamp.checked_rem(n) == Some(0) || stamp.saturating_add(1) == span.to;
        if is_asked && !is_found(blocks, &place, rows, stamp) {
            return false;
        }
    }
    true
}

/// Whether a part says what the rows say at each n-th stamp of all, and at the last one.
pub(super) fn is_part(
    alloc: Global,
    shelf: &mut Shelf<MemOnce>,
    rows: &[Row],
    span: Span,
    n: u64,
) -> bool {
    match Blocks::of(alloc, shelf, 2) {
        Some(mut blocks) => represents_node(&mut blocks, rows, &span, n),
        None => false,
    }
}
