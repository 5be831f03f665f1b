//! The pages of an archive's journal, as its calls read and set them.

ghost use Rattle.std.specs.Prelude.{◌≡◌, [], ℕ, List, IfOk, IfErr};
ghost use Rattle.page_journal.specs.Journal.{Keeps, disk_of};
ghost use Rattle.buffer_pool.specs.Pool.{Maps, journal_of};
ghost use Rattle.page_tx.specs.Tx.{pool_of};

use buffer_pool::Pool;
use disk_models::EraseDisk;
use page_journal::Journal;
use page_tx::Tx;
use std::alloc::Global;
use std::num::NonZeroUsize;

// How many pages that are home stay in memory: 16 MiB.
const CACHED_PAGES: usize = 1024;

/// A transaction without an image over the pages of a journal. If memory runs out the disk is returned.
pub(crate) fn map_pages<E: EraseDisk + Drop>(alloc: Global, journal: Journal<E>) -> Result<Tx<E>, E>
    ensures maps { IfOk result (λ tx. (pages : List (List ℕ)) → Keeps E.EraseDisk journal pages → Maps E.EraseDisk (pool_of tx) pages) }
    ensures journal { IfOk result (λ tx. journal_of (pool_of tx) ≡ journal) }
    ensures refused { IfErr result (λ disk. disk ≡ disk_of journal) }
{
    let Some(capacity) = NonZeroUsize::new(CACHED_PAGES) else {
        unreachable!()
    };
    match Pool::new(alloc, journal, capacity) {
        Ok(pool) => Ok(Tx::new(alloc, pool, 0)),
        Err(journal) => Err(journal.into_disk()),
    }
}
