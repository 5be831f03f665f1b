//! Calls on a held archive. While it isn't open, each one that needs its disks is refused, and nothing changes.

ghost use Rattle.std.specs.Prelude.{◌≡◌, ◌<◌, ◌≤◌, ℕ, [], length, Err, IfErr, IfOk, IfNone, IfSome, OnOk, ⊤};
ghost use Rattle.route_meaning.specs.Changed.{IsChangedAnswer};
ghost use Rattle.route_meaning.specs.History.{applied, settled};
ghost use Rattle.interleaving_core.specs.Does.{last_moment};
ghost use Rattle.interleaving_core.specs.Headline.{IsAnswered};
ghost use Rattle.board.specs.Past.{Past, Among, GoesOnAs, count_of};
ghost use Rattle.query_threads.specs.Looks.{AreTheSettled};
ghost use Rattle.query_threads.specs.Steps.{IsCrowded, DoesAdmit, DoesMark, DoesApply, DoesFlush};
ghost use Rattle.query_threads.specs.Troubles.{IsOutside, OnAdmitTrouble, OnAskTrouble, OnMarkTrouble};
ghost use Rattle.query_threads.specs.Turns.{TurnGives, IsReported, IsReportedAt};
ghost use Rattle.query_threads.specs.Usages.{AreLanes};
ghost use Rattle.once_store.specs.Readers.{kept_blocks, reader_disk};
ghost use Rattle.disk_archive.specs.Cursors.{IsGathered, IsWalked, asks};
ghost use Rattle.disk_archive.specs.Descents.{IsErrandFor};
ghost use Rattle.shared_archive.specs.Represented.{LocatedInPast};

use crate::held::Held;
use crate::usage::usage_of;
use crate::{calls, turns};
use disk_archive::{Cursor, Errand};
use disk_models::{EraseDisk, OnceDisk};
use interleaving_core::BatchReply;
use once_store::ShelfReader;
use query_threads::{AdmitError, AskError, Flush, MarkError, Step, Trouble, Turn, Usage};
use route_history::ChangedCursor;
use route_meaning::ChangedAnswer;
use route_model::{Admission, Mark};
use std::alloc::Global;

impl<E: EraseDisk + Drop, O: OnceDisk + Drop> Held<E, O> {
    ghost use Rattle.shared_archive.specs.Held.{HeldFlushes, HeldLookFails, HeldReports, HeldRepresents, disk_in, pages_in};

    /// How many collectors there are.
    pub fn collectors(&self) -> u8
        ensures { (p : Past) → HeldRepresents self.now p → result ≡ length p.history.intakes }
    {
        match self {
            Held::Open(archive) => archive.collectors(),
            Held::Shut(shut) => shut.collectors,
        }
    }

    /// How many pages each ring has.
    pub fn ring(&self) -> u16
        ensures { result ≡ pages_in self.now }
    {
        match self {
            Held::Open(archive) => archive.ring(),
            Held::Shut(shut) => shut.ring,
        }
    }

    /// The settled watermark.
    pub fn settled(&self) -> Mark
        ensures { (p : Past) → HeldRepresents self.now p → result ≡ settled p.history }
    {
        match self {
            Held::Open(archive) => archive.settled(),
            Held::Shut(shut) => shut.settled,
        }
    }

    /// How many admissions of a collector there are, 0 of one that there isn't.
    pub fn admitted(&self, collector: u8) -> u64
        ensures { (p : Past) → HeldRepresents self.now p → result ≡ count_of p.history collector }
    {
        match self {
            Held::Open(archive) => turns::admitted(archive, collector),
            Held::Shut(shut) => match shut.counts.get(usize::from(collector)) {
                Some(count) => *count,
                None => 0,
            },
        }
    }

    /// How much of it is used, if it is open and memory is left for the report.
    pub fn usage(&self, alloc: Global) -> Option<Usage>
        ensures lanes { (p : Past) → HeldRepresents self.now p → IfSome result (λ usage. AreLanes usage.lanes.items p.history) }
    {
        match self {
            Held::Open(archive) => usage_of(alloc, archive),
            Held::Shut(_) => None,
        }
    }

    /// Admits a batch.
    pub fn admit(&mut self, collector: u8, batch: &[Admission]) -> Result<BatchReply, AdmitError>
        ensures done { (p : Past) → HeldRepresents self.old p → (q : Past) × GoesOnAs p q × HeldRepresents self.new q × DoesAdmit collector batch.now result p.history q.history }
        ensures full { (p : Past) → HeldRepresents self.old p → result ≡ Err AdmitError.IntakeFull → IsCrowded (pages_in self.old) p.history collector batch.now }
        ensures trouble { IfErr result (OnAdmitTrouble (λ t. HeldReports self.old t self.new)) }
        ensures disk { disk_in self.new ≡ disk_in self.old }
        ensures pages { pages_in self.new ≡ pages_in self.old }
    {
        match self {
            Held::Open(archive) => calls::admit(archive, collector, batch),
            Held::Shut(_) => Err(AdmitError::Trouble(Trouble::NeedsRecovery)),
        }
    }

    /// Raises the mark of a collector.
    pub fn mark(&mut self, collector: u8, mark: Mark) -> Result<(), MarkError>
        ensures done { (p : Past) → HeldRepresents self.old p → (q : Past) × GoesOnAs p q × HeldRepresents self.new q × DoesMark collector mark result p.history q.history }
        ensures trouble { IfErr result (OnMarkTrouble (λ t. HeldReports self.old t self.new)) }
        ensures disk { disk_in self.new ≡ disk_in self.old }
        ensures pages { pages_in self.new ≡ pages_in self.old }
    {
        match self {
            Held::Open(archive) => calls::mark(archive, collector, mark),
            Held::Shut(_) => Err(MarkError::Trouble(Trouble::NeedsRecovery)),
        }
    }

    /// Applies the next change, and perhaps some more.
    pub fn apply_step(&mut self) -> Result<Step, Trouble>
        ensures done { (p : Past) → HeldRepresents self.old p → (q : Past) × GoesOnAs p q × HeldRepresents self.new q × DoesApply result p.history q.history }
        ensures trouble { IfErr result (λ t. HeldReports self.old t self.new) }
        ensures disk { disk_in self.new ≡ disk_in self.old }
        ensures pages { pages_in self.new ≡ pages_in self.old }
    {
        match self {
            Held::Open(archive) => calls::apply_step(archive),
            Held::Shut(_) => Err(Trouble::NeedsRecovery),
        }
    }

    /// Writes a page home that waits.
    pub fn flush_step(&mut self) -> Result<Flush, Trouble>
        ensures done { (p : Past) → HeldRepresents self.old p → (q : Past) × GoesOnAs p q × HeldRepresents self.new q × DoesFlush result p.history q.history }
        ensures flushes { IfOk result (λ step. HeldFlushes self.old step self.new) }
        ensures trouble { IfErr result (λ t. HeldReports self.old t self.new) }
        ensures disk { disk_in self.new ≡ disk_in self.old }
        ensures pages { pages_in self.new ≡ pages_in self.old }
    {
        match self {
            Held::Open(archive) => calls::flush_step(archive),
            Held::Shut(_) => Err(Trouble::NeedsRecovery),
        }
    }

    /// A turn of a question.
    pub fn descend(&mut self, cursor: &mut Cursor) -> Result<Turn<Errand>, AskError>
        ensures represents { (p : Past) → HeldRepresents self.old p → HeldRepresents self.new p }
        ensures asks { asks cursor.new ≡ asks cursor.old }
        ensures fits { IfOk result (λ turn. TurnGives (λ errand. IsErrandFor cursor.new errand) ⊤ (λ _. ⊤) turn) }
        ensures settled { (p : Past) → HeldRepresents self.old p → OnOk result (last_moment (asks cursor.old) < settled p.history) }
        ensures gives { (p : Past) → HeldRepresents self.old p → IsGathered cursor.old p.history → IfOk result (λ turn. TurnGives (λ errand. LocatedInPast (O.block_count (disk_in self.old)) errand cursor.new p) (IsGathered cursor.new p.history) (λ answer. IsAnswered (applied p.history) (asks cursor.old) answer) turn) }
        ensures reported { (p : Past) → HeldRepresents self.old p → IfErr result (λ e. IsReported e p.history (asks cursor.old)) }
        ensures trouble { IfErr result (OnAskTrouble (λ t. HeldReports self.old t self.new)) }
        ensures disk { disk_in self.new ≡ disk_in self.old }
        ensures pages { pages_in self.new ≡ pages_in self.old }
    {
        match self {
            Held::Open(archive) => turns::descend(archive, cursor),
            Held::Shut(_) => Err(AskError::Trouble(Trouble::NeedsRecovery)),
        }
    }

    /// A look at which blocks are settled.
    pub fn seen(&mut self) -> Result<O::Seen, Trouble>
        ensures represents { (p : Past) → HeldRepresents self.old p → HeldRepresents self.new p }
        ensures honest { (p : Past) → HeldRepresents self.old p → IfOk result (λ s. O.honest_seen (disk_in self.old) s) }
        ensures known { (p : Past) → HeldRepresents self.old p → IfOk result (λ s. AreTheSettled (O.block_count (disk_in self.old)) (O.known s) p.blocks) }
        ensures sound { (p : Past) → HeldRepresents self.old p → IfErr result IsOutside }
        ensures trouble { IfErr result (λ t. HeldReports self.old t self.new) }
        ensures disk { disk_in self.new ≡ disk_in self.old }
        ensures pages { pages_in self.new ≡ pages_in self.old }
    {
        match self {
            Held::Open(archive) => turns::seen(archive),
            Held::Shut(_) => Err(Trouble::NeedsRecovery),
        }
    }

    /// A look of a walk over what changed.
    pub fn look(
        &mut self,
        reader: &mut ShelfReader<O>,
        walk: &mut ChangedCursor,
    ) -> Result<Option<ChangedAnswer>, AskError>
        ensures represents { (p : Past) → HeldRepresents self.old p → HeldRepresents self.new p }
        ensures walks { walk.new.question ≡ walk.old.question }
        ensures settled { (p : Past) → HeldRepresents self.old p → OnOk result (walk.old.question.to < settled p.history) }
        ensures walked { (p : Past) → HeldRepresents self.old p → reader_disk reader.old ≡ disk_in self.old → Among (kept_blocks reader.old) p.blocks → IsWalked walk.old p.history → IfOk result (λ found. IfNone found (IsWalked walk.new p.history)) }
        ensures answer { (p : Past) → HeldRepresents self.old p → reader_disk reader.old ≡ disk_in self.old → Among (kept_blocks reader.old) p.blocks → IsWalked walk.old p.history → IfOk result (λ found. IfSome found (λ answer. IsChangedAnswer (applied p.history) walk.old.question answer.spots.items answer.more)) }
        ensures kept { (p : Past) → HeldRepresents self.old p → reader_disk reader.old ≡ disk_in self.old → Among (kept_blocks reader.old) p.blocks → Among (kept_blocks reader.new) p.blocks }
        ensures reported { (p : Past) → HeldRepresents self.old p → reader_disk reader.old ≡ disk_in self.old → Among (kept_blocks reader.old) p.blocks → IfErr result (λ e. IsReportedAt e p.history walk.old.question.to) }
        ensures trouble { IfErr result (OnAskTrouble (λ t. HeldLookFails self.old t self.new)) }
        ensures reads { reader_disk reader.new ≡ reader_disk reader.old }
        ensures disk { disk_in self.new ≡ disk_in self.old }
        ensures pages { pages_in self.new ≡ pages_in self.old }
    {
        match self {
            Held::Open(archive) => turns::look(archive, reader, walk),
            Held::Shut(_) => Err(AskError::Trouble(Trouble::NeedsRecovery)),
        }
    }

    /// A reader that keeps up to `capacity` blocks, and none yet. Fails with OutOfMemory alone, which is also the error while the archive
    /// isn't open.
    pub fn reader(&self, capacity: usize) -> Result<ShelfReader<O>, Trouble>
        requires some { 1 ≤ capacity }
        requires few { capacity ≤ 1024 }
        ensures disk { IfOk result (λ r. reader_disk r ≡ disk_in self.now) }
        ensures empty { IfOk result (λ r. kept_blocks r ≡ []) }
        ensures memory { IfErr result (λ e. e ≡ Trouble.OutOfMemory) }
    {
        match self {
            Held::Open(archive) => turns::reader(archive, capacity),
            Held::Shut(_) => Err(Trouble::OutOfMemory),
        }
    }
}
