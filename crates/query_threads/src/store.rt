//! What threads ask of an archive.
ghost use Rattle.std.specs.Prelude.{◌≡◌, ◌<◌, ◌≤◌, ℕ, List, [], length, Option, Result, OnOk, IfOk, IfErr, IfSome, IfNone, Err, ⊤};
ghost use Rattle.route_model.specs.Admission.{Admitted};
ghost use Rattle.route_meaning.specs.declared.question.ChangedAnswer.{ChangedAnswer};
ghost use Rattle.route_meaning.specs.declared.question.ChangedQuestion.{ChangedQuestion};
ghost use Rattle.route_meaning.specs.Changed.{IsChangedAnswer};
ghost use Rattle.route_meaning.specs.History.{History, IsHistory, Begins, applied, settled};
ghost use Rattle.interleaving_core.specs.declared.query.Query.{Query};
ghost use Rattle.interleaving_core.specs.Does.{last_moment};
ghost use Rattle.interleaving_core.specs.Headline.{IsAnswered};
ghost use Rattle.interleaving_core.specs.Steps.{IsCollector};
ghost use Rattle.board.specs.Past.{Past, Among, GoesOnAs, count_of};
ghost use Rattle.query_threads.specs.declared.refusal.Trouble.{Trouble};
ghost use Rattle.query_threads.specs.declared.refusal.Flush.{Flush};
ghost use Rattle.query_threads.specs.Steps.{IsCrowded, DoesAdmit, DoesMark, DoesApply, DoesFlush, DoesReopen};
ghost use Rattle.query_threads.specs.Turns.{TurnGives, IsReported, IsReportedAt};
ghost use Rattle.query_threads.specs.Looks.{AreSettled, AreTheSettled, IsErrandOn};
ghost use Rattle.query_threads.specs.Troubles.{IsOutside, OnAdmitTrouble, OnMarkTrouble, OnAskTrouble};
ghost use Rattle.query_threads.specs.Usages.{AreLanes};

use crate::refusal::{AdmitError, AskError, Flush, MarkError, Step, Trouble, Turn};
use crate::usage::Usage;
use board::{Named, Target};
use interleaving_core::{BatchReply, Query};
use route_meaning::{ChangedAnswer, ChangedQuestion};
use route_model::{Admission, Mark};
use std::alloc::Global;
use std::marker::{Brand, PhantomData};

/// What is promised of a shared archive: that it represents a past, with its blocks on this disk, and that each of its rings has `pages`
/// pages. With no disk nothing is promised of it, as when its devices aren't known to follow their models. Each call of a program picks
/// it.
pub trait OnDisk<D> {
    /// The disk of its blocks, or none.
    ghost disk: { Option D };

    /// The pages of each ring.
    ghost pages: { ℕ };
}

impl<D> OnDisk<D> for Brand {
    ghost use Rattle.std.specs.Prelude.{None};

    ghost disk = { None };

    ghost pages = { 0 };
}

/// The name of a board, by `B`, whose archive nothing is promised of.
pub struct Unpromised<B> {
    of: PhantomData<B>,
}

impl<B: Named> Named for Unpromised<B> {
    ghost table = { B.table };
}

impl<B, D> OnDisk<D> for Unpromised<B> {
    ghost use Rattle.std.specs.Prelude.{None};

    ghost disk = { None };

    ghost pages = { 0 };
}

impl<B> Target for Unpromised<B> {
    ghost fits = { λ p. Unit {0} };
}

/// An archive, as threads use it.
pub trait Store {
    /// The disk that the blocks are on. It is in proofs alone.
    type Disk;

    /// Blocks that a reader keeps.
    type Reader: Drop;

    /// A look that found blocks settled.
    type Seen: Drop;

    /// What is left to read of blocks for a turn.
    type Errand: Drop;

    /// A question in progress.
    type Cursor: Drop;

    /// A walk over what changed, in progress.
    type Walk: Drop;

    /// What is stored represents this past; after a failed write or sync, what is found when it is opened again stands
    /// for one that this begins.
    ghost represents: { Self → Past → Type 0 };

    /// The pages of each ring.
    ghost pages: { Self → ℕ };

    /// The disk that its blocks are on.
    ghost disk_of: { Self → Self.Disk };

    /// How many blocks a disk has.
    ghost block_count: { Self.Disk → ℕ };

    /// The disk that a reader reads.
    ghost reads: { Self.Reader → Self.Disk };

    /// The blocks that a reader keeps, with their octets.
    ghost kept: { Self.Reader → List (ℕ × List ℕ) };

    /// The look was one at this disk, which follows its model.
    ghost honest: { Self.Disk → Self.Seen → Type 0 };

    /// The octets of the block of this number, if a look found it settled.
    ghost known: { Self.Seen → ℕ → Option (List ℕ) };

    /// The question.
    ghost asks: { Self.Cursor → Query };

    /// What the question has gathered holds over this history.
    ghost gathered: { Self.Cursor → History → Type 0 };

    /// What the walk asks.
    ghost walks: { Self.Walk → ChangedQuestion };

    /// What the walk has gathered holds over this history.
    ghost walked: { Self.Walk → History → Type 0 };

    /// The errand is one of the question's.
    ghost fits: { Self.Errand → Self.Cursor → Type 0 };

    /// With the blocks of this past, on this disk, finishing the errand gathers what comes next.
    ghost located: { Self.Errand → Self.Cursor → Self.Disk → Past → Type 0 };

    /// A call returned this trouble: the archive before the call and after it.
    ghost reports: { Self → Trouble → Self → Type 0 };

    /// A look of a walk returned this trouble: the archive before the look and after it.
    ghost fails: { Self → Trouble → Self → Type 0 };

    /// An opening returned this: the archive before the call and after it.
    ghost reopens: { Self → Result (Unit {0}) Trouble → Self → Type 0 };

    /// A step of flushing did this, with the archive as it was and as the step left it.
    ghost flushes: { Self → Flush → Self → Type 0 };

    /// Reading blocks with this look failed, for this trouble.
    ghost misses: { Self.Seen → Trouble → Self.Seen → Type 0 };

    /// How many collectors there are.
    fn collectors(&self) -> u8
        ensures collectors { (p : Past) → represents self.now p → result ≡ length p.history.intakes };

    /// How many pages each ring has.
    fn ring(&self) -> u16
        ensures pages { result ≡ pages self.now };

    /// The settled watermark.
    fn settled(&self) -> Mark
        ensures settled { (p : Past) → represents self.now p → result ≡ settled p.history };

    /// How many admissions of a collector there are, 0 of one that there isn't.
    fn admitted(&self, collector: u8) -> u64
        ensures count { (p : Past) → represents self.now p → result ≡ count_of p.history collector };

    /// Admits a batch.
    fn admit(&mut self, collector: u8, batch: &[Admission]) -> Result<BatchReply, AdmitError>
        ensures done { (p : Past) → represents self.old p → (q : Past) × GoesOnAs p q × represents self.new q × DoesAdmit collector batch.now result p.history q.history }
        ensures full { (p : Past) → represents self.old p → result ≡ Err AdmitError.IntakeFull → IsCrowded (pages self.old) p.history collector batch.now }
        ensures trouble { IfErr result (OnAdmitTrouble (λ t. reports self.old t self.new)) }
        ensures disk { disk_of self.new ≡ disk_of self.old }
        ensures pages { pages self.new ≡ pages self.old };

    /// Raises the mark of a collector.
    fn mark(&mut self, collector: u8, mark: Mark) -> Result<(), MarkError>
        ensures done { (p : Past) → represents self.old p → (q : Past) × GoesOnAs p q × represents self.new q × DoesMark collector mark result p.history q.history }
        ensures trouble { IfErr result (OnMarkTrouble (λ t. reports self.old t self.new)) }
        ensures disk { disk_of self.new ≡ disk_of self.old }
        ensures pages { pages self.new ≡ pages self.old };

    /// Applies the next change, and perhaps some more.
    fn apply_step(&mut self) -> Result<Step, Trouble>
        ensures done { (p : Past) → represents self.old p → (q : Past) × GoesOnAs p q × represents self.new q × DoesApply result p.history q.history }
        ensures trouble { IfErr result (λ t. reports self.old t self.new) }
        ensures disk { disk_of self.new ≡ disk_of self.old }
        ensures pages { pages self.new ≡ pages self.old };

    /// Writes a page home that waits.
    fn flush_step(&mut self) -> Result<Flush, Trouble>
        ensures done { (p : Past) → represents self.old p → (q : Past) × GoesOnAs p q × represents self.new q × DoesFlush result p.history q.history }
        ensures flushes { IfOk result (λ step. flushes self.old step self.new) }
        ensures trouble { IfErr result (λ t. reports self.old t self.new) }
        ensures disk { disk_of self.new ≡ disk_of self.old }
        ensures pages { pages self.new ≡ pages self.old };

    /// Opens the archive again on its disks, as after a write or a sync that failed. Until that is done, each call that asks
    /// its disks fails.
    fn reopen(&mut self, alloc: Global) -> Result<(), Trouble>
        ensures done { (p : Past) → represents self.old p → (q : Past) × GoesOnAs p q × represents self.new q × DoesReopen result p.history q.history }
        ensures opens { reopens self.old result self.new }
        ensures disk { disk_of self.new ≡ disk_of self.old }
        ensures pages { pages self.new ≡ pages self.old };

    /// Which call on a device failed first since the archive was opened, and why, in words for a person. By itself an archive has none.
    fn failure(&self, _alloc: Global) -> Option<String> {
        None
    }

    /// How much of it is used, if it is open and memory is left for the report. By itself an archive reports nothing.
    fn usage(&self, _alloc: Global) -> Option<Usage>
        ensures lanes { (p : Past) → represents self.now p → IfSome result (λ usage. AreLanes usage.lanes.items p.history) }
    {
        None
    }

    /// The start of a question.
    fn start(alloc: Global, query: &Query) -> Self::Cursor
        ensures asks { asks result ≡ query.now }
        ensures gathered { (h : History) → gathered result h };

    /// A turn of a question.
    fn descend(&mut self, cursor: &mut Self::Cursor) -> Result<Turn<Self::Errand>, AskError>
        ensures represents { (p : Past) → represents self.old p → represents self.new p }
        ensures asks { asks cursor.new ≡ asks cursor.old }
        ensures fits { IfOk result (λ turn. TurnGives (λ errand. fits errand cursor.new) ⊤ (λ _. ⊤) turn) }
        ensures settled { (p : Past) → represents self.old p → OnOk result (last_moment (asks cursor.old) < settled p.history) }
        ensures gives { (p : Past) → represents self.old p → gathered cursor.old p.history → IfOk result (λ turn. TurnGives (λ errand. located errand cursor.new (disk_of self.old) p) (gathered cursor.new p.history) (λ answer. IsAnswered (applied p.history) (asks cursor.old) answer) turn) }
        ensures reported { (p : Past) → represents self.old p → IfErr result (λ e. IsReported e p.history (asks cursor.old)) }
        ensures trouble { IfErr result (OnAskTrouble (λ t. reports self.old t self.new)) }
        ensures disk { disk_of self.new ≡ disk_of self.old }
        ensures pages { pages self.new ≡ pages self.old };

    /// A look at which blocks are settled.
    fn seen(&mut self) -> Result<Self::Seen, Trouble>
        ensures represents { (p : Past) → represents self.old p → represents self.new p }
        ensures honest { (p : Past) → represents self.old p → IfOk result (λ s. honest (disk_of self.old) s) }
        ensures known { (p : Past) → represents self.old p → IfOk result (λ s. AreTheSettled (block_count (disk_of self.old)) (known s) p.blocks) }
        ensures sound { (p : Past) → represents self.old p → IfErr result IsOutside }
        ensures trouble { IfErr result (λ t. reports self.old t self.new) }
        ensures disk { disk_of self.new ≡ disk_of self.old }
        ensures pages { pages self.new ≡ pages self.old };

    /// A reader that keeps up to `capacity` blocks, 1 to 1,024, and none yet. Fails only when out of memory.
    fn reader(&self, alloc: Global, capacity: usize) -> Result<Self::Reader, Trouble>
        requires some { 1 ≤ capacity }
        requires few { capacity ≤ 1024 }
        ensures disk { IfOk result (λ r. reads r ≡ disk_of self.now) }
        ensures empty { IfOk result (λ r. kept r ≡ []) }
        ensures memory { IfErr result (λ e. e ≡ Trouble.OutOfMemory) };

    /// Reads the blocks of an errand without the archive.
    fn finish(
        reader: &mut Self::Reader,
        seen: &mut Self::Seen,
        alloc: Global,
        errand: Self::Errand,
        cursor: &mut Self::Cursor,
    ) -> Result<(), Trouble>
        requires fits { fits errand cursor.old }
        ensures kept { (p : Past) → IsErrandOn (λ e. located e cursor.old) honest block_count known p errand seen.old (reads reader.old) → AreSettled (block_count (reads reader.old)) (known seen.old) (kept reader.old) → AreSettled (block_count (reads reader.old)) (known seen.old) (kept reader.new) }
        ensures sound { (p : Past) → IsErrandOn (λ e. located e cursor.old) honest block_count known p errand seen.old (reads reader.old) → AreSettled (block_count (reads reader.old)) (known seen.old) (kept reader.old) → IfErr result IsOutside }
        ensures trouble { IfErr result (λ t. misses seen.old t seen.new) }
        ensures disk { reads reader.new ≡ reads reader.old }
        ensures asks { asks cursor.new ≡ asks cursor.old }
        ensures gathered { OnOk result ((p : Past) → IsErrandOn (λ e. located e cursor.old) honest block_count known p errand seen.old (reads reader.old) → AreSettled (block_count (reads reader.old)) (known seen.old) (kept reader.old) → gathered cursor.new p.history) };

    /// The start of a walk over what changed.
    fn start_walk(alloc: Global, question: ChangedQuestion) -> Self::Walk
        ensures walks { walks result ≡ question }
        ensures walked { (h : History) → walked result h };

    /// A look of a walk. The reader is of the archive's disk, and keeps blocks of the past alone. Once the walk is over a look returns the whole
    /// answer.
    fn look(
        &mut self,
        reader: &mut Self::Reader,
        walk: &mut Self::Walk,
    ) -> Result<Option<ChangedAnswer>, AskError>
        ensures represents { (p : Past) → represents self.old p → represents self.new p }
        ensures walks { walks walk.new ≡ walks walk.old }
        ensures settled { (p : Past) → represents self.old p → OnOk result ((walks walk.old).to < settled p.history) }
        ensures walked { (p : Past) → represents self.old p → reads reader.old ≡ disk_of self.old → Among (kept reader.old) p.blocks → walked walk.old p.history → IfOk result (λ found. IfNone found (walked walk.new p.history)) }
        ensures answer { (p : Past) → represents self.old p → reads reader.old ≡ disk_of self.old → Among (kept reader.old) p.blocks → walked walk.old p.history → IfOk result (λ found. IfSome found (λ answer. IsChangedAnswer (applied p.history) (walks walk.old) answer.spots.items answer.more)) }
        ensures kept { (p : Past) → represents self.old p → reads reader.old ≡ disk_of self.old → Among (kept reader.old) p.blocks → Among (kept reader.new) p.blocks }
        ensures reported { (p : Past) → represents self.old p → reads reader.old ≡ disk_of self.old → Among (kept reader.old) p.blocks → IfErr result (λ e. IsReportedAt e p.history (walks walk.old).to) }
        ensures trouble { IfErr result (OnAskTrouble (λ t. fails self.old t self.new)) }
        ensures reads { reads reader.new ≡ reads reader.old }
        ensures disk { disk_of self.new ≡ disk_of self.old }
        ensures pages { pages self.new ≡ pages self.old };

    /// A past that is stored is right.
    ghost right: { (store : Self) (p : Past) → represents store p → IsHistory p.history };

    /// What was gathered of a settled moment holds over later histories too.
    ghost stays: { (cursor : Self.Cursor) (h g : History) → IsHistory h → Begins h g → last_moment (asks cursor) < settled h → gathered cursor h → gathered cursor g };

    /// The same of a walk.
    ghost walk_stays: { (walk : Self.Walk) (h g : History) → IsHistory h → Begins h g → (walks walk).to < settled h → walked walk h → walked walk g };
}
