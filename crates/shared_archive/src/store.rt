//! The archive on any two disks, as threads share it.

ghost use Rattle.std.specs.Prelude.{◌≡◌};
ghost use Rattle.disk_archive.specs.Cursors.{IsGathered, IsWalked, asks};
ghost use Rattle.disk_archive.specs.Descents.{IsErrandFor};
ghost use Rattle.once_store.specs.Readers.{kept_blocks, reader_disk};
ghost use Rattle.shared_archive.specs.Represented.{LocatedInPast, gathered_on, walked_on};
ghost use Rattle.shared_archive.specs.Held.{HeldFlushes, HeldLookFails, HeldReports, HeldRepresents, disk_in, pages_in, right_held};
ghost use Rattle.shared_archive.specs.Reopened.{Reopens};
ghost use Rattle.shared_archive.specs.Reported.{Misses};

use crate::held::Held;
use crate::renewal::{NoRenewal, Renewal};
use crate::turns;
use disk_archive::{Archive, Cursor, Errand, start_walk};
use disk_memory::{MemErase, MemOnce};
use disk_models::{EraseDisk, OnceDisk};
use interleaving_core::{BatchReply, Query};
use once_store::ShelfReader;
use query_threads::{AdmitError, AskError, Flush, MarkError, Step, Store, Trouble, Turn, Usage};
use route_history::ChangedCursor;
use route_meaning::{ChangedAnswer, ChangedQuestion};
use route_model::{Admission, Mark};
use std::alloc::Global;

/// An archive on any two disks, with what makes these usable again before it is opened again. Threads share it.
#[derive(Drop)]
pub struct DiskStore<E: EraseDisk + Drop, O: OnceDisk + Drop, R = NoRenewal> {
    /// The archive.
    pub archive: Held<E, O>,
    renewal: R,
}

/// An archive on disks in memory.
pub type MemStore = DiskStore<MemErase, MemOnce>;

impl<E: EraseDisk + Drop, O: OnceDisk + Drop, R: Drop> DiskStore<E, O, R> {
    /// An archive that is open, with what renews its disks.
    pub fn new(archive: Archive<E, O>, renewal: R) -> Self
        ensures { result.archive ≡ Held.Open archive }
    {
        DiskStore {
            archive: Held::Open(archive),
            renewal,
        }
    }
}

impl<E: EraseDisk + Drop, O: OnceDisk + Drop, R: Renewal<E, O> + Drop> Store
    for DiskStore<E, O, R> {
    type Disk = O;

    type Reader = ShelfReader<O>;

    type Seen = O::Seen;

    type Errand = Errand;

    type Cursor = Cursor;

    type Walk = ChangedCursor;

    ghost represents = { λ store p. HeldRepresents store.archive p };

    ghost pages = { λ store. pages_in store.archive };

    ghost disk_of = { λ store. disk_in store.archive };

    ghost block_count = { λ disk. O.block_count disk };

    ghost reads = { λ reader. reader_disk reader };

    ghost kept = { λ reader. kept_blocks reader };

    ghost honest = { λ disk seen. O.honest_seen disk seen };

    ghost known = { λ seen. O.known seen };

    ghost asks = { λ cursor. asks cursor };

    ghost gathered = { λ cursor h. IsGathered cursor h };

    ghost walks = { λ walk. walk.question };

    ghost walked = { λ walk h. IsWalked walk h };

    ghost fits = { λ errand cursor. IsErrandFor cursor errand };

    ghost located = { λ errand cursor disk p. LocatedInPast (O.block_count disk) errand cursor p };

    ghost right = { λ store p represented. right_held store.archive p represented };

    ghost stays = { λ cursor h g right begins below gathered. gathered_on cursor h g begins gathered };

    ghost walk_stays = { λ walk h g right begins below walked. walked_on walk h g begins walked };

    ghost reports = { λ store trouble then. HeldReports store.archive trouble then.archive };

    ghost fails = { λ store trouble then. HeldLookFails store.archive trouble then.archive };

    ghost reopens = { λ store returned then. Reopens store.archive returned then.archive };

    ghost flushes = { λ store step then. HeldFlushes store.archive step then.archive };

    ghost misses = { λ seen trouble then. Misses O.OnceDisk seen trouble then };

    fn collectors(&self) -> u8 {
        self.archive.collectors()
    }

    fn ring(&self) -> u16 {
        self.archive.ring()
    }

    fn settled(&self) -> Mark {
        self.archive.settled()
    }

    fn admitted(&self, collector: u8) -> u64 {
        self.archive.admitted(collector)
    }

    fn admit(&mut self, collector: u8, batch: &[Admission]) -> Result<BatchReply, AdmitError> {
        self.archive.admit(collector, batch)
    }

    fn mark(&mut self, collector: u8, mark: Mark) -> Result<(), MarkError> {
        self.archive.mark(collector, mark)
    }

    fn apply_step(&mut self) -> Result<Step, Trouble> {
        self.archive.apply_step()
    }

    fn flush_step(&mut self) -> Result<Flush, Trouble> {
        self.archive.flush_step()
    }

    fn reopen(&mut self, alloc: Global) -> Result<(), Trouble> {
        self.archive.reopen(alloc, &mut self.renewal)
    }

    fn failure(&self, alloc: Global) -> Option<String> {
        self.renewal.failure(alloc)
    }

    fn usage(&self, alloc: Global) -> Option<Usage> {
        self.archive.usage(alloc)
    }

    fn start(alloc: Global, query: &Query) -> Cursor {
        Cursor::start(alloc, *query)
    }

    fn descend(&mut self, cursor: &mut Cursor) -> Result<Turn<Errand>, AskError> {
        self.archive.descend(cursor)
    }

    fn seen(&mut self) -> Result<O::Seen, Trouble> {
        self.archive.seen()
    }

    fn reader(&self, _alloc: Global, capacity: usize) -> Result<ShelfReader<O>, Trouble> {
        self.archive.reader(capacity)
    }

    fn finish(
        reader: &mut ShelfReader<O>,
        seen: &mut O::Seen,
        alloc: Global,
        errand: Errand,
        cursor: &mut Cursor,
    ) -> Result<(), Trouble> {
        turns::finish(reader, seen, alloc, errand, cursor)
    }

    fn start_walk(alloc: Global, question: ChangedQuestion) -> ChangedCursor {
        start_walk(alloc, question)
    }

    fn look(
        &mut self,
        reader: &mut ShelfReader<O>,
        walk: &mut ChangedCursor,
    ) -> Result<Option<ChangedAnswer>, AskError> {
        self.archive.look(reader, walk)
    }
}
