//! Pages that are written to a disk over a file in memory, synced, and read again.

use crate::be;
use crate::folders::{PAGE, are_all};
use disk_models::{EraseDisk, Page};
use memory_files::keep;
use std::alloc::Global;

/// The size of a new disk, from where on a page is written to it, and whether that is done.
const PLACES: [(u64, u64, bool); 6] = [
    (PAGE, 0, true),
    (3 * PAGE, 2 * PAGE, true),
    // Also where no page begins.
    (2 * PAGE, 5, true),
    // It doesn't fit there, or no disk has this size.
    (PAGE, 1, false),
    (0, 0, false),
    (PAGE + 1, 0, false),
];

/// Whether a page of sevens is kept as the row says.
fn is_right(alloc: Global, row: (u64, u64, bool)) -> Option<bool> {
    let (size, at, is_kept) = row;
    let mut page = Page::new(alloc).ok()?;
    let mut read = Page::new(alloc).ok()?;
    page.octets_mut().fill(7);
    let Some(disk) = keep(alloc, size, at, &page, &mut read) else {
        return Some(!is_kept);
    };
    Some(is_kept && are_all(read.octets(), 7) && disk.size() == size && disk.faults() == 0)
}

#[test]
fn a_page_that_was_synced_is_there(rt: HostRuntime) {
    for row in &PLACES {
        be(&rt, is_right(rt.alloc(), *row) == Some(true), "a page");
    }
}
