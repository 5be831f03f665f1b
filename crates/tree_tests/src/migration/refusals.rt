//! What refuses: a full disk, and each call of the device.

use super::asking::{Span, is_part};
use super::columns::{column_page, migrated};
use super::leaves::{leaf_part, split};
use super::rows::{TABLE, page_of, stamp_of};
use crate::be;
use crate::memory::shelf_of;
use disk_memory::{MemOnce, OnceFailure, Torn};
use disk_models::Page;
use once_store::Shelf;
use std::alloc::Global;
use version_model::Part;
use worm_migration::{MigrationError, settle_leaf_page};

/// Settles what the leaf of the table in a page was until stamp 9.
fn settled(alloc: Global, shelf: &mut Shelf<MemOnce>, page: &Page) -> Result<u64, MigrationError> {
    settle_leaf_page(shelf, alloc, page, stamp_of(9))
}

/// The block of the leaf in a page that is split at stamp 9.
fn split_block(
    alloc: Global,
    shelf: &mut Shelf<MemOnce>,
    page: &Page,
) -> Option<Result<u64, MigrationError>> {
    Some(match split(alloc, shelf, page, 9)? {
        Ok(migrated) => Ok(migrated.block),
        Err(error) => Err(error),
    })
}

/// Whether a part says what the table says before stamp 9.
fn represents_node(alloc: Global, shelf: &mut Shelf<MemOnce>, part: Part) -> bool {
    let span = Span {
        part,
        from: 0,
        to: 9,
    };
    is_part(alloc, shelf, &TABLE, span, 1)
}

#[test]
fn a_full_disk_refuses_and_stays(rt: HostRuntime) {
    let alloc = rt.alloc();
    let mut shelf = shelf_of(alloc, 2, Vec::new(alloc)).expect(&rt, "a shelf");
    let page = page_of(alloc, &TABLE, 0).expect(&rt, "a leaf");
    let first = settled(alloc, &mut shelf, &page) == Ok(0);
    be(
        &rt,
        first && settled(alloc, &mut shelf, &page) == Ok(1),
        "two blocks",
    );
    let full = Err(MigrationError::OnceFull);
    be(
        &rt,
        settled(alloc, &mut shelf, &page) == full,
        "a third block",
    );
    be(
        &rt,
        split_block(alloc, &mut shelf, &page) == Some(full),
        "a split",
    );
    be(&rt, shelf.next() == 2 && shelf.faults() == 0, "no fault");
    be(
        &rt,
        represents_node(alloc, &mut shelf, leaf_part(0, 0)),
        "the first block",
    );
    be(
        &rt,
        represents_node(alloc, &mut shelf, leaf_part(0, 1)),
        "the second",
    );
}

/// A shelf of eight blocks, where this call fails.
fn failing(alloc: Global, failure: OnceFailure) -> Option<Shelf<MemOnce>> {
    shelf_of(alloc, 8, vec![in alloc; failure].ok()?)
}

/// Whether a split fails once where this call does, `spent` blocks are spent by it, and what is tried again is there.
fn fails_once(alloc: Global, failure: OnceFailure, spent: u64) -> Option<bool> {
    let mut shelf = failing(alloc, failure)?;
    let page = page_of(alloc, &TABLE, 0)?;
    let refused = split_block(alloc, &mut shelf, &page)?;
    let is_spent = shelf.next() == spent && shelf.faults() == 1;
    let again = split_block(alloc, &mut shelf, &page)?;
    Some(
        refused == Err(MigrationError::Fault)
            && is_spent
            && again == Ok(spent)
            && shelf.faults() == 1
            && represents_node(alloc, &mut shelf, leaf_part(0, spent)),
    )
}

#[test]
fn a_leaf_is_split_again_where_a_call_of_the_device_failed(rt: HostRuntime) {
    let alloc = rt.alloc();
    // The opening asks about block 0, so the first look of a split is the second.
    be(
        &rt,
        fails_once(alloc, OnceFailure::Blank(1), 0) == Some(true),
        "a question",
    );
    let burnt = fails_once(alloc, OnceFailure::Burn(0, Torn::Half), 1);
    be(&rt, burnt == Some(true), "a burn");
    be(
        &rt,
        fails_once(alloc, OnceFailure::Settle(0), 1) == Some(true),
        "a settlement",
    );
}

/// A shelf where this call fails, with the table's leaf in block 0, which is the one part of the column in a page.
fn failing_column(alloc: Global, failure: OnceFailure) -> Option<(Shelf<MemOnce>, Page)> {
    let mut shelf = failing(alloc, failure)?;
    let page = page_of(alloc, &TABLE, 0)?;
    if settled(alloc, &mut shelf, &page) != Ok(0) {
        return None;
    }
    Some((shelf, column_page(alloc, &[(0, 1, 0)], 9)?))
}

/// The same of a column of one part, whose leaf was settled by the first look, burn and settle of a split.
fn column_fails_once(alloc: Global, failure: OnceFailure, spent: u64) -> Option<bool> {
    let (mut shelf, page) = failing_column(alloc, failure)?;
    let refused = migrated(alloc, &mut shelf, &page)?.err();
    let is_spent = shelf.next() == spent && shelf.faults() == 1;
    let part = migrated(alloc, &mut shelf, &page)?.ok()?;
    Some(
        refused == Some(MigrationError::Fault)
            && is_spent
            && part.block == spent
            && shelf.faults() == 1
            && represents_node(alloc, &mut shelf, part),
    )
}

#[test]
fn a_column_becomes_a_block_where_a_call_of_the_device_failed(rt: HostRuntime) {
    let alloc = rt.alloc();
    be(
        &rt,
        column_fails_once(alloc, OnceFailure::Blank(2), 1) == Some(true),
        "a question",
    );
    let burnt = column_fails_once(alloc, OnceFailure::Burn(1, Torn::Half), 2);
    be(&rt, burnt == Some(true), "a burn");
    be(
        &rt,
        column_fails_once(alloc, OnceFailure::Settle(1), 2) == Some(true),
        "a settlement",
    );
}
