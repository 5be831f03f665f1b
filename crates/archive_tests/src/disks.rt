//! Archives on two disks in memory: created, and given up and opened again.

use archive_pages::Settings;
use disk_archive::Archive;
use disk_calls::{DiskArchive, NoReasons};
use disk_memory::{MemErase, MemOnce};
use std::alloc::Global;
use std::sync::Arc;

/// The octets of a page.
pub(crate) const PAGE: u64 = 16_384;

/// The pages before the home pages: the identity page and the slots of the journal.
pub(crate) const JOURNAL: u64 = 265;

// The most home pages of an archive here.
const MOST_PAGES: u64 = 65_536;

/// An archive on disks in memory, as commands use it.
pub(crate) type MemArchive = DiskArchive<MemErase, MemOnce>;

/// How an archive is created, as `rha create` has it.
#[derive(Clone, Copy)]
pub(crate) struct Made {
    pub(crate) collectors: u8,
    pub(crate) ring: u16,
    pub(crate) pages: u64,
    pub(crate) blocks: u64,
}

/// A new archive.
pub(crate) fn created(alloc: Global, made: &Made) -> Option<MemArchive> {
    let settings = Settings {
        collectors: made.collectors,
        ring: made.ring,
    };
    if !settings.is_within() || made.pages > MOST_PAGES {
        return None;
    }
    let erase = MemErase::new(alloc, (JOURNAL + made.pages) * PAGE);
    let (once, pen) = MemOnce::new(alloc, made.blocks);
    let once = Arc::new(alloc, once).ok()?;
    match Archive::create(alloc, erase, once, pen, settings) {
        Ok(archive) => Some(MemArchive::new(archive, NoReasons)),
        Err(_) => None,
    }
}

/// The same archive: its disks are given up, and opened again.
pub(crate) fn reopened(alloc: Global, archive: MemArchive) -> Option<MemArchive> {
    let (erase, once, pen) = archive.into_archive().into_disks();
    match Archive::open(alloc, erase, once, pen) {
        Ok(archive) => Some(MemArchive::new(archive, NoReasons)),
        Err(_) => None,
    }
}
