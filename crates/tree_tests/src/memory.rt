//! Transactions and shelves on disks in memory, with pages and blocks that are made by hand.

ghost use Rattle.std.specs.Prelude.{IsTrue};
ghost use Rattle.version_model.specs.Ranges.{IsPoint, range_of};

use crate::answers::key_with;
use buffer_pool::Pool;
use disk_memory::{Failure, MemErase, MemOnce, OnceFailure};
use disk_models::{Block, Page};
use once_store::{Shelf, seal};
use page_journal::Journal;
use page_tx::{Pages, Tx};
use route_model::Key;
use std::alloc::Global;
use std::num::NonZeroUsize;
use std::sync::Arc;
use tsb_check::InUse;
use version_model::{Bounds, Stamp};

/// A transaction over home pages of which those from one on were never used, on a disk of which these calls fail, with a pool that
/// keeps `kept` pages that are home.
pub(crate) fn begun(
    alloc: Global,
    homes: u64,
    kept: usize,
    script: Vec<Failure>,
    unused: u64,
) -> Option<Tx<MemErase>> {
    if homes > 65_536 {
        return None;
    }
    let mut disk = MemErase::new(alloc, (265 + homes) * 16_384);
    disk.set_script(script);
    let journal = Journal::create(alloc, disk, homes).ok()?;
    let pool = Pool::new(alloc, journal, NonZeroUsize::new(kept)?).ok()?;
    if unused > pool.home_pages() {
        return None;
    }
    Some(Tx::new(alloc, pool, unused))
}

/// A shelf over a disk of `blocks` blank blocks, where these calls fail.
pub(crate) fn shelf_of(
    alloc: Global,
    blocks: u64,
    script: Vec<OnceFailure>,
) -> Option<Shelf<MemOnce>> {
    let (disk, mut pen) = MemOnce::new(alloc, blocks);
    pen.set_script(script);
    Shelf::open(Arc::new(alloc, disk).ok()?, pen, 0).ok()
}

/// Sets a page.
pub(crate) fn set_page(tx: &mut Tx<MemErase>, n: u64, page: Page) -> Option<()> {
    if n >= tx.pool().home_pages() {
        return None;
    }
    tx.set(n, page).ok()
}

/// Sets a page that begins with these octets.
pub(crate) fn lay(alloc: Global, tx: &mut Tx<MemErase>, n: u64, octets: &[u8]) -> Option<()> {
    if octets.len() > 16_384 {
        return None;
    }
    let mut page = Page::new(alloc).ok()?;
    page.put(0, octets);
    set_page(tx, n, page)
}

/// Commits a transaction, and writes its pages home.
pub(crate) fn write_home(tx: &mut Tx<MemErase>) -> Option<()> {
    tx.commit().ok()?;
    tx.checkpoint().ok()
}

/// Appends a block that begins with these octets, with its digest. It returns its number.
pub(crate) fn burn(alloc: Global, shelf: &mut Shelf<MemOnce>, octets: &[u8]) -> Option<u64> {
    if octets.len() > 16_352 {
        return None;
    }
    let mut block = Block::new(alloc).ok()?;
    block.put(0, octets);
    seal(&mut block);
    shelf.append(&block).ok()
}

/// The key whose last octet is this.
pub(crate) fn key_of(last: u8) -> Key {
    key_with(u64::from(last))
}

/// Whether a key and a stamp lie between bounds that both have an end.
pub(crate) fn located_in(bounds: &Bounds, key: Key, stamp: Stamp) -> bool
    ensures { IsTrue result → IsPoint (range_of bounds.now) key stamp }
{
    let Some(high) = bounds.high else {
        return false;
    };
    let Some(end) = bounds.end else {
        return false;
    };
    bounds.low <= key && key < high && bounds.start <= stamp && stamp < end
}

/// All pages and blocks are in use.
pub(crate) const IN_USE: InUse = InUse {
    recorded_on: 7,
    pages: u64::MAX,
    blocks: u64::MAX,
    burnt: u64::MAX,
};
