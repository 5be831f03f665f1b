//! Archives on disks in memory, to which nothing was given.

use archive_pages::Settings;
use disk_archive::Archive;
use disk_memory::{Failure, MemErase, MemOnce};
use disk_models::EraseDisk;
use shared_archive::{MemStore, NoRenewal};
use std::alloc::Global;
use std::sync::Arc;

/// How many collectors they have.
pub(crate) const COLLECTORS: u8 = 1;

/// The octets of a page.
const PAGE: u64 = 16_384;

/// The pages of the journal, which stand before the home pages, of which the head is the first.
const JOURNAL: u64 = 265;

// The most home pages of an archive here.
const MOST_PAGES: u64 = 65_536;

/// How an archive is made.
#[derive(Clone, Copy)]
pub(crate) struct Made {
    pub(crate) ring: u16,
    pub(crate) pages: u64,
    pub(crate) blocks: u64,
    /// A count of its head that is another one when the archive is opened.
    pub(crate) counted: Option<Counted>,
}

/// A count in the head of an archive.
#[derive(Clone, Copy)]
pub(crate) struct Counted {
    /// Where its eight octets begin.
    pub(crate) place: u64,
    pub(crate) count: u64,
}

/// An archive with room for what clients give: its ring has 16 pages, and its tree 64.
pub(crate) const PLAIN: Made = Made {
    ring: 16,
    pages: 81,
    blocks: 64,
    counted: None,
};

/// An archive on new disks.
fn created(alloc: Global, made: &Made) -> Option<Archive<MemErase, MemOnce>> {
    let settings = Settings {
        collectors: COLLECTORS,
        ring: made.ring,
    };
    if !settings.is_within() || made.pages > MOST_PAGES {
        return None;
    }
    let erase = MemErase::new(alloc, (JOURNAL + made.pages) * PAGE);
    let (once, pen) = MemOnce::new(alloc, made.blocks);
    let once = Arc::new(alloc, once).ok()?;
    match Archive::create(alloc, erase, once, pen, settings) {
        Ok(archive) => Some(archive),
        Err(_) => None,
    }
}

/// The same archive, opened again with another count in its head.
fn counting(
    alloc: Global,
    archive: Archive<MemErase, MemOnce>,
    counted: Counted,
) -> Option<Archive<MemErase, MemOnce>> {
    let (mut erase, once, pen) = archive.into_disks();
    let at = (JOURNAL * PAGE).checked_add(counted.place)?;
    if erase.size() < at.checked_add(8)? {
        return None;
    }
    erase.write_at(at, &counted.count.to_be_bytes()).ok()?;
    erase.sync().ok()?;
    match Archive::open(alloc, erase, once, pen) {
        Ok(archive) => Some(archive),
        Err(_) => None,
    }
}

/// An archive that is made so.
pub(crate) fn store_of(alloc: Global, made: &Made) -> Option<MemStore> {
    let archive = created(alloc, made)?;
    let archive = match made.counted {
        Some(counted) => counting(alloc, archive, counted)?,
        None => archive,
    };
    Some(MemStore::new(archive, NoRenewal))
}

/// An archive with room for what clients give.
pub(crate) fn empty_store(alloc: Global) -> Option<MemStore> {
    store_of(alloc, &PLAIN)
}

/// Such an archive, of which the first commit's last sync fails.
pub(crate) fn failing_store(alloc: Global) -> Option<MemStore> {
    let (mut erase, once, pen) = created(alloc, &PLAIN)?.into_disks();
    // An opening that finds nothing to recover syncs twice, and so does a commit.
    erase.set_script(vec![in alloc; Failure::Sync(3)].ok()?);
    match Archive::open(alloc, erase, once, pen) {
        Ok(archive) => Some(MemStore::new(archive, NoRenewal)),
        Err(_) => None,
    }
}

/// How many blocks were burnt.
pub(crate) fn burnt_by(store: MemStore) -> usize {
    match store.archive.into_disks() {
        Some(disks) => disks.pen.settled().len(),
        None => 0,
    }
}
