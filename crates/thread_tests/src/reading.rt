//! A store whose first read of a block is held.

ghost use Rattle.std.specs.Prelude.{◌≡◌, [], None, IfOk, ⊤};
ghost use Rattle.disk_archive.specs.Archives.{once_of, settings_of};
ghost use Rattle.disk_archive.specs.Cursors.{asks};
ghost use Rattle.disk_archive.specs.Descents.{IsErrandFor};
ghost use Rattle.once_store.specs.Readers.{reader_disk};
ghost use Rattle.query_threads.specs.Turns.{TurnGives};

use crate::armed_disk::ArmedOnce;
use crate::logs::Log;
use crate::made::{BLOCKS, empty_archive, load};
use crate::signals::Signals;
use disk_archive::{
    AdmitError as Refusal, Archive, AskError as Unanswered, Cursor, Descent, Errand,
    MarkError as Unmarked, Step as Applying, start_walk,
};
use disk_memory::{MemErase, MemOnce, MemSeen};
use interleaving_core::{BatchReply, Query};
use once_store::ShelfReader;
use query_threads::{AdmitError, AskError, Flush, MarkError, Step, Store, Trouble, Turn};
use route_history::ChangedCursor;
use route_meaning::{ChangedAnswer, ChangedQuestion};
use route_model::{Admission, Mark};
use std::alloc::Global;
use std::sync::Arc;
use std::sync::atomic::Ordering;

/// An archive with its blocks on an armed disk, which counts turns. Nothing is promised of it, so that it represents no past, and reports
/// most troubles as a failed device.
#[derive(Drop)]
pub(crate) struct ArmedStore {
    archive: Archive<MemErase, ArmedOnce>,
    signals: Arc<Signals>,
}

impl ArmedStore {
    /// One that the first records were given to.
    pub(crate) fn loaded(
        alloc: Global,
        signals: &Arc<Signals>,
        log: &mut Log,
    ) -> Option<ArmedStore> {
        let (disk, pen) = MemOnce::new(alloc, BLOCKS);
        let once = ArmedOnce {
            disk,
            signals: signals.clone().ok()?,
        };
        let mut store = ArmedStore {
            archive: empty_archive(alloc, once, pen)?,
            signals: signals.clone().ok()?,
        };
        load(alloc, &mut store, log)?;
        Some(store)
    }
}

// Why a question isn't answered.
fn refusal_of(refusal: Unanswered) -> AskError {
    match refusal {
        Unanswered::AboveWatermark(mark) => AskError::AboveWatermark(mark),
        _ => AskError::Trouble(Trouble::Fault),
    }
}

// A turn of a question.
fn descended(
    archive: &mut Archive<MemErase, ArmedOnce>,
    cursor: &mut Cursor,
) -> Result<Turn<Errand>, AskError>
    ensures asks { asks cursor.new ≡ asks cursor.old }
    ensures fits { IfOk result (λ turn. TurnGives (λ errand. IsErrandFor cursor.new errand) ⊤ (λ _. ⊤) turn) }
    ensures disk { once_of archive.new ≡ once_of archive.old }
    ensures settings { settings_of archive.new ≡ settings_of archive.old }
{
    match archive.descend(cursor) {
        Ok(Descent::Done(answer)) => Ok(Turn::Done(answer)),
        Ok(Descent::Again) => Ok(Turn::Again),
        Ok(Descent::Historical(errand)) => Ok(Turn::Historical(errand)),
        Err(refusal) => Err(refusal_of(refusal)),
    }
}

impl Store for ArmedStore {
    type Disk = ArmedOnce;

    type Reader = ShelfReader<ArmedOnce>;

    type Seen = MemSeen;

    type Errand = Errand;

    type Cursor = Cursor;

    type Walk = ChangedCursor;

    ghost represents = { λ _ _. ⊥ };

    ghost pages = { λ store. (settings_of store.archive).ring };

    ghost disk_of = { λ store. once_of store.archive };

    ghost block_count = { λ _. 0 };

    ghost reads = { λ reader. reader_disk reader };

    ghost kept = { λ _. [] };

    ghost honest = { λ _ _. ⊥ };

    ghost known = { λ _ _. None };

    ghost asks = { λ cursor. asks cursor };

    ghost gathered = { λ _ _. Unit {0} };

    ghost walks = { λ walk. walk.question };

    ghost walked = { λ _ _. Unit {0} };

    ghost fits = { λ errand cursor. IsErrandFor cursor errand };

    ghost located = { λ _ _ _ _. ⊥ };

    ghost right = { λ _ _ represented. absurd represented };

    ghost stays = { λ _ _ _ _ _ _ gathered. gathered };

    ghost walk_stays = { λ _ _ _ _ _ _ walked. walked };

    ghost reports = { λ _ _ _. ⊤ };

    ghost fails = { λ _ _ _. ⊤ };

    ghost reopens = { λ _ _ _. ⊤ };

    ghost flushes = { λ _ _ _. ⊤ };

    ghost misses = { λ _ _ _. ⊤ };

    fn collectors(&self) -> u8 {
        self.archive.collectors()
    }

    fn ring(&self) -> u16 {
        self.archive.ring()
    }

    fn settled(&self) -> Mark {
        self.archive.settled()
    }

    fn admitted(&self, collector: u8) -> u64 {
        if collector >= self.archive.collectors() {
            return 0;
        }
        self.archive.resume(collector).admitted
    }

    fn admit(&mut self, collector: u8, batch: &[Admission]) -> Result<BatchReply, AdmitError> {
        match self.archive.admit(collector, batch) {
            Ok(reply) => Ok(reply),
            Err(Refusal::IntakeFull) => Err(AdmitError::IntakeFull),
            Err(_) => Err(AdmitError::Trouble(Trouble::Fault)),
        }
    }

    fn mark(&mut self, collector: u8, mark: Mark) -> Result<(), MarkError> {
        match self.archive.mark(collector, mark) {
            Ok(()) => Ok(()),
            Err(Unmarked::MarkBack) => Err(MarkError::MarkBack),
            Err(_) => Err(MarkError::Trouble(Trouble::Fault)),
        }
    }

    fn apply_step(&mut self) -> Result<Step, Trouble> {
        match self.archive.apply_step() {
            Ok(Applying::Applied) => Ok(Step::Applied),
            Ok(Applying::Idle) => Ok(Step::Idle),
            Err(_) => Err(Trouble::Fault),
        }
    }

    fn flush_step(&mut self) -> Result<Flush, Trouble> {
        match self.archive.flush_step() {
            Ok(disk_archive::Flush::Flushed) => Ok(Flush::Flushed),
            Ok(disk_archive::Flush::Clean) => Ok(Flush::Clean),
            Err(_) => Err(Trouble::Fault),
        }
    }

    // Its disks fail at no write.
    fn reopen(&mut self, _alloc: Global) -> Result<(), Trouble> {
        Err(Trouble::Fault)
    }

    fn start(alloc: Global, query: &Query) -> Cursor {
        Cursor::start(alloc, *query)
    }

    fn descend(&mut self, cursor: &mut Cursor) -> Result<Turn<Errand>, AskError> {
        let signals: &Signals = &self.signals;
        let _before = signals.turns.fetch_add(1, Ordering::SeqCst);
        descended(&mut self.archive, cursor)
    }

    fn seen(&mut self) -> Result<MemSeen, Trouble> {
        match self.archive.seen() {
            Ok(seen) => Ok(seen),
            Err(_) => Err(Trouble::Fault),
        }
    }

    fn reader(&self, _alloc: Global, capacity: usize) -> Result<ShelfReader<ArmedOnce>, Trouble> {
        match self.archive.reader(capacity) {
            Ok(reader) => Ok(reader),
            Err(_) => Err(Trouble::OutOfMemory),
        }
    }

    fn finish(
        reader: &mut ShelfReader<ArmedOnce>,
        seen: &mut MemSeen,
        alloc: Global,
        errand: Errand,
        cursor: &mut Cursor,
    ) -> Result<(), Trouble> {
        match errand.finish(alloc, reader, seen, cursor) {
            Ok(()) => Ok(()),
            Err(_) => Err(Trouble::Fault),
        }
    }

    fn start_walk(alloc: Global, question: ChangedQuestion) -> ChangedCursor {
        start_walk(alloc, question)
    }

    fn look(
        &mut self,
        reader: &mut ShelfReader<ArmedOnce>,
        walk: &mut ChangedCursor,
    ) -> Result<Option<ChangedAnswer>, AskError> {
        match self.archive.changed_look(reader, walk) {
            Ok(found) => Ok(found),
            Err(refusal) => Err(refusal_of(refusal)),
        }
    }
}
