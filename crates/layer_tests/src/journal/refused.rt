//! Disks that are no journal, or damaged.

use super::{PAGE, made, opened};
use crate::be;
use disk_memory::MemErase;
use disk_models::EraseDisk;
use page_journal::{CreateError, Journal, JournalError};
use std::alloc::Global;

/// Why a disk isn't opened, or none where it is.
fn refusal_of(alloc: Global, disk: MemErase) -> Option<JournalError> {
    opened(alloc, disk).err()
}

/// A disk whose second slot is open and has no image.
fn with_an_empty_slot(alloc: Global) -> Option<MemErase> {
    let mut disk = made(alloc)?;
    if disk.size() <= 1_000_000 {
        return None;
    }
    disk.write_at(PAGE * 34, &[0xa5]).ok()?;
    Some(disk)
}

/// Whether a journal of four pages on a disk of 268 is refused before any call.
fn is_refused(alloc: Global) -> bool {
    match Journal::create(alloc, MemErase::new(alloc, 268 * PAGE), 4) {
        Ok(_) => false,
        Err(refused) => {
            refused.error == CreateError::PagesFull && refused.disk.calls().is_empty()
        }
    }
}

#[test]
fn disks_that_are_no_journal_or_damaged(rt: HostRuntime) {
    let alloc = rt.alloc();
    let disk = with_an_empty_slot(alloc).expect(&rt, "a disk");
    be(
        &rt,
        refusal_of(alloc, disk) == Some(JournalError::BadNode(35)),
        "an empty slot",
    );
    be(
        &rt,
        is_refused(alloc),
        "a disk that is too small for its journal",
    );
    let blank = refusal_of(alloc, MemErase::new(alloc, 300 * PAGE));
    be(
        &rt,
        blank == Some(JournalError::NotAJournal),
        "a blank disk",
    );
    let short = refusal_of(alloc, MemErase::new(alloc, 3 * PAGE));
    be(
        &rt,
        short == Some(JournalError::NotAJournal),
        "a short disk",
    );
}
