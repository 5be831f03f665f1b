//! An archive that threads share, under one lock, with its board beside it.
ghost use Rattle.std.specs.Prelude.{◌≡◌, ◌⊎◌, ◌<◌, ◌≤◌, ℕ, suc, List, [], length, Some, OnOk, IfOk, IfErr, IfSome, IfNone, IsSome, Err, ⊤};
ghost use Rattle.std.specs.List.{AllByRecursion};
ghost use Rattle.route_meaning.specs.Changed.{IsChangedAnswer};
ghost use Rattle.route_meaning.specs.History.{IsHistory, applied, settled};
ghost use Rattle.interleaving_core.specs.Does.{last_moment};
ghost use Rattle.interleaving_core.specs.Headline.{IsAnswered};
ghost use Rattle.board.specs.Past.{Past, Among};
ghost use Rattle.board.specs.Views.{View, Reached, IsCaughtUp, IsFrontOf, BeginsView, with_seen, watermark_of, durable_of};
ghost use Rattle.board.specs.Opened.{name_of};
ghost use Rattle.query_threads.specs.Steps.{IsCrowded, DoesAdmit, DoesMark, DoesApply, DoesFlush, DoesReopen};
ghost use Rattle.query_threads.specs.Looks.{IsErrandOn};
ghost use Rattle.query_threads.specs.Turns.{StaysTrue, TurnGives, IsReported, IsReportedAt, IsAbove};
ghost use Rattle.query_threads.specs.Seeing.{Sees, ComesOf, IsMissed};
ghost use Rattle.query_threads.specs.Troubles.{IsOutside, OnAdmitTrouble, OnMarkTrouble, OnAskTrouble};
ghost use Rattle.query_threads.specs.Usages.{AreLanes};

use crate::desk::{Desk, catch_up};
use crate::gate::Gate;
use crate::refusal::{AdmitError, AskError, Flush, MarkError, Step, Trouble, Turn};
use crate::store::{OnDisk, Store};
use crate::usage::Usage;
use board::{Board, Named, Opened, Pass, Target};
use interleaving_core::{Answer, BatchReply, Query};
use route_meaning::{ChangedAnswer, ChangedQuestion};
use route_model::{Admission, Mark};
use std::alloc::Global;
use std::marker::{Brand, Model, PhantomData};
use std::sync::{Mutex, Wait};

// How many turns of a question follow the first under one taking of the lock. A turn is one lookup, of some microseconds, or a leaf of
// rows: so the lock is held for some milliseconds at most, and each change of the archive waits no longer for a question.
const MORE_TURNS: u32 = 63;

// The same of a walk over what changed. A look reads all leaves of a column that the span meets, those of its past with their blocks: a long
// span of a column that changed often holds the lock for longer than turns do.
const MORE_LOOKS: u32 = 7;

/// The archive, its words, and the gate that is called for questions. Contracts see how many collectors there are and how many pages each
/// ring has.
pub struct Shared<A: Store, N: Named + OnDisk<A::Disk>, G: Gate + Drop> {
    desk: Mutex<Desk<A, N>>,
    board: Board<N>,
    gate: G,
    ring: u16,
}

impl<A: Store, N: Named + OnDisk<A::Disk>, G: Gate + Drop> Model for Shared<A, N, G> {
    ghost use Rattle.std.specs.Prelude.{◌≡◌, IsSome};
    ghost use Rattle.query_threads.specs.Sharing.{Sharing};

    ghost Value = { Sharing };

    ghost view = { λ s. record { collectors = s.board; ring = s.ring } };

    ghost invariant = { λ s. IsSome N.disk → N.pages ≡ s.ring };
}

/// Blocks of a shared archive that one pass has read. Contracts see the blocks that it keeps.
#[derive(Drop)]
pub struct Reader<A: Store, N: OnDisk<A::Disk>> {
    alloc: Global,
    blocks: A::Reader,
    of: PhantomData<N>,
}

impl<A: Store, N: OnDisk<A::Disk>> Model for Reader<A, N> {
    ghost use Rattle.std.specs.Prelude.{◌≡◌, ℕ, List, Some, IsSome};

    ghost Value = { List (ℕ × List ℕ) };

    ghost view = { λ r. A.kept r.blocks };

    ghost invariant = { λ r. IsSome N.disk → N.disk ≡ Some (A.reads r.blocks) };
}

impl<A: Store, N: Named + OnDisk<A::Disk>> Reader<A, N> {
    /// A reader that keeps up to `capacity` blocks, 1 to 1,024, and none yet. Fails only when out of memory.
    pub fn new<G: Gate + Drop>(
        rt: &impl Wait,
        alloc: Global,
        shared: &Shared<A, N, G>,
        capacity: usize,
    ) -> Result<Reader<A, N>, Trouble>
        requires some { 1 ≤ capacity }
        requires few { capacity ≤ 1024 }
        ensures empty { IfOk result (λ r. r ≡ []) }
        ensures memory { IfErr result (λ e. e ≡ Trouble.OutOfMemory) }
    {
        let blocks = shared.desk.lock(rt).reader(alloc, capacity)?;
        Ok(Reader {
            alloc,
            blocks,
            of: PhantomData,
        })
    }

    // Reads the blocks of an errand. No lock is held.
    fn finish(
        &mut self,
        seen: &mut A::Seen,
        errand: A::Errand,
        cursor: &mut A::Cursor,
    ) -> Result<(), Trouble>
        requires fits { A.fits errand cursor.old }
        ensures kept { IsSome N.disk → (p : Past) → IfSome N.disk (IsErrandOn (λ e. A.located e cursor.old) A.honest A.block_count A.known p errand seen.old) → Among self.old p.blocks → Among self.new p.blocks }
        ensures sound { IsSome N.disk → (p : Past) → IfSome N.disk (IsErrandOn (λ e. A.located e cursor.old) A.honest A.block_count A.known p errand seen.old) → Among self.old p.blocks → IfErr result IsOutside }
        ensures asks { A.asks cursor.new ≡ A.asks cursor.old }
        ensures trouble { IfErr result (λ t. A.misses seen.old t seen.new) }
        ensures gathered { IsSome N.disk → OnOk result ((p : Past) → IfSome N.disk (IsErrandOn (λ e. A.located e cursor.old) A.honest A.block_count A.known p errand seen.old) → Among self.old p.blocks → A.gathered cursor.new p.history) }
    {
        A::finish(&mut self.blocks, seen, self.alloc, errand, cursor)
    }

    // Looks of a walk by the archive under the lock, which read blocks with this reader: a first one, and `more` after it.
    fn look(
        &mut self,
        desk: &mut Desk<A, N>,
        board: &Board<N>,
        pass: &mut Pass<N>,
        walk: &mut A::Walk,
        more: u32,
    ) -> Result<Option<ChangedAnswer>, AskError>
        ensures begins { BeginsView pass.old pass.new }
        ensures reached { Reached pass.old.numbers pass.new.past.history }
        ensures walks { A.walks walk.new ≡ A.walks walk.old }
        ensures right { IsSome N.disk → IsHistory pass.new.past.history }
        ensures settled { IsSome N.disk → OnOk result ((A.walks walk.old).to < settled pass.new.past.history) }
        ensures kept { IsSome N.disk → Among self.old pass.old.past.blocks → Among self.new pass.new.past.blocks }
        ensures walked { IsSome N.disk → Among self.old pass.old.past.blocks → StaysTrue A.walked walk.old pass.old.past.history → IfOk result (λ found. IfNone found (A.walked walk.new pass.new.past.history)) }
        ensures answer { IsSome N.disk → Among self.old pass.old.past.blocks → StaysTrue A.walked walk.old pass.old.past.history → IfOk result (λ found. IfSome found (λ answer. IsChangedAnswer (applied pass.new.past.history) (A.walks walk.old) answer.spots.items answer.more)) }
        ensures reported { IsSome N.disk → Among self.old pass.old.past.blocks → IfErr result (λ e. IsReportedAt e pass.new.past.history (A.walks walk.old).to) }
        ensures trouble { IfErr result (OnAskTrouble (λ t. ComesOf N.disk A.disk_of A.represents (λ a b. A.fails a t b) pass.old pass.new)) }
    {
        desk.looks(board, pass, &mut self.blocks, walk, more)
    }
}

impl<A: Store, N: Named + OnDisk<A::Disk>, G: Gate + Drop> Shared<A, N, G> {
    /// Shares an archive, if this is the board named `N`. If `N` names a disk, it is the archive's, as the pages of its rings
    /// are, and the pass knows a past that the archive represents and that fits, for the caller's choice of `X`.
    pub fn new<X: Target>(opened: Opened, archive: A, gate: G) -> (Shared<A, N, G>, Pass<N>)
        requires named { name_of opened ≡ N.table }
        requires some { 1 ≤ opened.collectors }
        requires disk { IsSome N.disk → N.disk ≡ Some (A.disk_of archive) }
        requires pages { IsSome N.disk → N.pages ≡ A.pages archive }
        requires represented { IsSome N.disk → (p : Past) × A.represents archive p × (length p.history.intakes ≡ opened.collectors) × X.fits p }
        ensures represented { IsSome N.disk → A.represents archive result.1.past }
        ensures fits { IsSome N.disk → X.fits result.1.past }
        ensures caught_up { IsSome N.disk → IsCaughtUp result.1 }
        ensures collectors { result.0.collectors ≡ opened.collectors }
        ensures ring { result.0.ring ≡ A.pages archive }
    {
        let (board, mut writer, mut pass) = opened.start::<N, Brand, A>(&archive);
        let _words = board.collectors();
        catch_up(&board, &mut writer, &archive);
        board.meet(&mut writer, &mut pass);
        let ring = archive.ring();
        let desk = Mutex::new(Desk::new(archive, writer));
        (
            Shared {
                desk,
                board,
                gate,
                ring,
            },
            pass,
        )
    }

    /// How many collectors there are.
    pub fn collectors(&self) -> u8
        ensures { result ≡ self.now.collectors }
    {
        self.board.collectors()
    }

    /// How many pages each ring has.
    pub fn ring(&self) -> u16
        ensures { result ≡ self.now.ring }
    {
        self.ring
    }

    /// Two passes with the same view: this one, and the one that is given.
    pub fn split(&self, pass: &mut Pass<N>) -> Pass<N>
        ensures same { pass.new ≡ pass.old }
        ensures other { result ≡ pass.old }
    {
        self.board.split(pass)
    }

    /// The settled watermark, in microseconds since 1970. It waits for nobody.
    pub fn watermark(&self, pass: &mut Pass<N>) -> u64
        ensures seen { pass.new ≡ with_seen pass.old 0 result }
        ensures rises { watermark_of pass.old ≤ result }
    {
        self.board.watermark(pass)
    }

    /// How many admissions of a collector are durable. It waits for nobody.
    pub fn durable(&self, pass: &mut Pass<N>, collector: u8) -> u64
        requires collector { collector < self.now.collectors }
        ensures seen { pass.new ≡ with_seen pass.old (suc collector) result }
        ensures rises { durable_of pass.old collector ≤ result }
    {
        self.board.durable(pass, collector)
    }

    /// Admits a batch, once the lock is got.
    pub fn admit(
        &self,
        rt: &impl Wait,
        pass: &mut Pass<N>,
        collector: u8,
        batch: &[Admission],
    ) -> Result<BatchReply, AdmitError>
        ensures begins { BeginsView pass.old pass.new }
        ensures sees { IsSome N.disk → Sees (DoesAdmit collector batch.now result) pass.old pass.new }
        ensures full { IsSome N.disk → result ≡ Err AdmitError.IntakeFull → IsCrowded self.now.ring pass.new.past.history collector batch.now }
        ensures trouble { IfErr result (OnAdmitTrouble (λ t. ComesOf N.disk A.disk_of A.represents (λ a b. A.reports a t b) pass.old pass.new)) }
    {
        self.desk
            .lock(rt)
            .admit(&self.board, pass, collector, batch)
    }

    /// Raises the mark of a collector, once the lock is got.
    pub fn mark(
        &self,
        rt: &impl Wait,
        pass: &mut Pass<N>,
        collector: u8,
        mark: Mark,
    ) -> Result<(), MarkError>
        ensures begins { BeginsView pass.old pass.new }
        ensures sees { IsSome N.disk → Sees (DoesMark collector mark result) pass.old pass.new }
        ensures trouble { IfErr result (OnMarkTrouble (λ t. ComesOf N.disk A.disk_of A.represents (λ a b. A.reports a t b) pass.old pass.new)) }
    {
        self.desk.lock(rt).mark(&self.board, pass, collector, mark)
    }

    /// Applies the next change, and perhaps some more, once the lock is got.
    pub fn apply(&self, rt: &impl Wait, pass: &mut Pass<N>) -> Result<Step, Trouble>
        ensures begins { BeginsView pass.old pass.new }
        ensures sees { IsSome N.disk → Sees (DoesApply result) pass.old pass.new }
        ensures trouble { IfErr result (λ t. ComesOf N.disk A.disk_of A.represents (λ a b. A.reports a t b) pass.old pass.new) }
    {
        self.desk.lock(rt).apply(&self.board, pass)
    }

    /// Writes a page home that waits, once the lock is got.
    pub fn flush(&self, rt: &impl Wait, pass: &mut Pass<N>) -> Result<Flush, Trouble>
        ensures begins { BeginsView pass.old pass.new }
        ensures sees { IsSome N.disk → Sees (DoesFlush result) pass.old pass.new }
        ensures flushes { IfOk result (λ step. ComesOf N.disk A.disk_of A.represents (λ a b. A.flushes a step b) pass.old pass.new) }
        ensures trouble { IfErr result (λ t. ComesOf N.disk A.disk_of A.represents (λ a b. A.reports a t b) pass.old pass.new) }
    {
        self.desk.lock(rt).flush(&self.board, pass)
    }

    /// Opens the archive again, once the lock is got.
    pub fn reopen(&self, rt: &impl Wait, pass: &mut Pass<N>, alloc: Global) -> Result<(), Trouble>
        ensures begins { BeginsView pass.old pass.new }
        ensures sees { IsSome N.disk → Sees (DoesReopen result) pass.old pass.new }
        ensures opens { ComesOf N.disk A.disk_of A.represents (λ a b. A.reopens a result b) pass.old pass.new }
    {
        self.desk.lock(rt).reopen(&self.board, pass, alloc)
    }

    /// Which call on a device of the archive failed, and why, in words for a person, once the lock is taken; none if it has none.
    pub fn failure(&self, rt: &impl Wait, alloc: Global) -> Option<String> {
        self.desk.lock(rt).failure(alloc)
    }

    /// How much of the archive is used, once the lock is got: none while it isn't open, or if there is no memory for it. The pass then
    /// knows the history of which that is reported.
    pub fn usage(&self, rt: &impl Wait, pass: &mut Pass<N>, alloc: Global) -> Option<Usage>
        ensures begins { BeginsView pass.old pass.new }
        ensures lanes { IsSome N.disk → IfSome result (λ usage. AreLanes usage.lanes.items pass.new.past.history) }
    {
        self.desk.lock(rt).usage(&self.board, pass, alloc)
    }

    // Reports to the gate once that a request has descended.
    fn descended(&self, unreported: &mut Option<u64>) {
        if let Some(request) = unreported.take() {
            self.gate.descended(request);
        }
    }

    // Turns of a question under one taking of the lock, which is free again at their end: one at first, whose end is reported to the gate,
    // and then as many as `MORE_TURNS` and one, so that a question of many lookups doesn't wait for the lock before each.
    fn turn(
        &self,
        rt: &impl Wait,
        pass: &mut Pass<N>,
        cursor: &mut A::Cursor,
        query: &Query,
        unreported: &mut Option<u64>,
    ) -> Result<Turn<(A::Errand, A::Seen)>, AskError>
        requires asks { A.asks cursor.old ≡ query.now }
        ensures begins { BeginsView pass.old pass.new }
        ensures asks { A.asks cursor.new ≡ query.now }
        ensures fits { IfOk result (λ turn. TurnGives (λ e. A.fits e.0 cursor.new) ⊤ (λ _. ⊤) turn) }
        ensures right { IsSome N.disk → IsHistory pass.new.past.history }
        ensures settled { IsSome N.disk → OnOk result (last_moment query.now < settled pass.new.past.history) }
        ensures gives { IsSome N.disk → StaysTrue A.gathered cursor.old pass.old.past.history → IfOk result (λ turn. TurnGives (λ e. IfSome N.disk (IsErrandOn (λ errand. A.located errand cursor.new) A.honest A.block_count A.known pass.new.past e.0 e.1)) (A.gathered cursor.new pass.new.past.history) (λ answer. IsAnswered (applied pass.new.past.history) query.now answer) turn) }
        ensures reported { IsSome N.disk → IfErr result (λ e. IsReported e pass.new.past.history query.now) }
        ensures trouble { IfErr result (OnAskTrouble (λ t. ComesOf N.disk A.disk_of A.represents (λ a b. A.reports a t b) pass.old pass.new)) }
        ensures not_refused { IsSome N.disk → IfErr result (λ e. IsAbove e → watermark_of pass.old ≤ last_moment query.now) }
    {
        let more = if unreported.is_some() { 0 } else { MORE_TURNS };
        let reported = self.desk.lock(rt).turns(&self.board, pass, cursor, more);
        self.descended(unreported);
        reported
    }

    // The turns of a question, to their end.
    fn answer_of(
        &self,
        rt: &impl Wait,
        pass: &mut Pass<N>,
        reader: &mut Reader<A, N>,
        request: u64,
        query: Query,
    ) -> Result<Answer, AskError>
        requires reader { IsSome N.disk → Among reader.old pass.old.past.blocks }
        ensures begins { BeginsView pass.old pass.new }
        ensures reader { IsSome N.disk → Among reader.new pass.new.past.blocks }
        ensures answer { IsSome N.disk → IfOk result (λ answer. IsAnswered (applied pass.new.past.history) query answer) }
        ensures settled { IsSome N.disk → OnOk result (last_moment query < settled pass.new.past.history) }
        ensures reported { IsSome N.disk → IfErr result (λ e. IsReported e pass.new.past.history query) }
        ensures trouble { IfErr result (OnAskTrouble (λ t. ComesOf N.disk A.disk_of A.represents (λ a b. A.reports a t b) pass.old pass.new ⊎ IsMissed N.disk A.honest A.block_count A.known pass.new.past.blocks (λ a b. A.misses a t b))) }
        ensures not_refused { IsSome N.disk → IfErr result (λ e. IsAbove e → watermark_of pass.old ≤ last_moment query) }
    {
        let mut cursor = A::start(reader.alloc, &query);
        let mut unreported = Some(request);
        for _ in rt.forever() {
            let turn = self.turn(rt, pass, &mut cursor, &query, &mut unreported)?;
            match turn {
                Turn::Done(answer) => {
                    return Ok(answer);
                }
                Turn::Again => {}
                Turn::Historical((errand, mut seen)) => {
                    reader.finish(&mut seen, errand, &mut cursor)?;
                }
            }
        }
        unreachable!()
    }

    /// Answers a question over a history that begins with what the pass has seen before, and that the pass knows from then on. The lock
    /// is taken for each descent alone; blocks are read without it. The reader is new, or was used with this pass alone. The question is
    /// never refused as above the watermark below one that the pass has seen.
    pub fn ask(
        &self,
        rt: &impl Wait,
        pass: &mut Pass<N>,
        reader: &mut Reader<A, N>,
        request: u64,
        query: Query,
    ) -> Result<Answer, AskError>
        requires reader { IsSome N.disk → Among reader.old pass.old.past.blocks }
        ensures begins { BeginsView pass.old pass.new }
        ensures reader { IsSome N.disk → Among reader.new pass.new.past.blocks }
        ensures answer { IsSome N.disk → IfOk result (λ answer. IsAnswered (applied pass.new.past.history) query answer) }
        ensures settled { IsSome N.disk → OnOk result (last_moment query < settled pass.new.past.history) }
        ensures reported { IsSome N.disk → IfErr result (λ e. IsReported e pass.new.past.history query) }
        ensures trouble { IfErr result (OnAskTrouble (λ t. ComesOf N.disk A.disk_of A.represents (λ a b. A.reports a t b) pass.old pass.new ⊎ IsMissed N.disk A.honest A.block_count A.known pass.new.past.blocks (λ a b. A.misses a t b))) }
        ensures not_refused { IsSome N.disk → IfErr result (λ e. IsAbove e → watermark_of pass.old ≤ last_moment query) }
    {
        let reported = self.answer_of(rt, pass, reader, request, query);
        self.gate.answered(request);
        reported
    }

    // Looks of a walk under one taking of the lock, which is free again at their end: one at first, whose end is reported to the gate, and then as
    // many as `MORE_LOOKS` and one.
    fn looks(
        &self,
        rt: &impl Wait,
        pass: &mut Pass<N>,
        reader: &mut Reader<A, N>,
        walk: &mut A::Walk,
        unreported: &mut Option<u64>,
    ) -> Result<Option<ChangedAnswer>, AskError>
        ensures begins { BeginsView pass.old pass.new }
        ensures reached { Reached pass.old.numbers pass.new.past.history }
        ensures walks { A.walks walk.new ≡ A.walks walk.old }
        ensures right { IsSome N.disk → IsHistory pass.new.past.history }
        ensures settled { IsSome N.disk → OnOk result ((A.walks walk.old).to < settled pass.new.past.history) }
        ensures kept { IsSome N.disk → Among reader.old pass.old.past.blocks → Among reader.new pass.new.past.blocks }
        ensures walked { IsSome N.disk → Among reader.old pass.old.past.blocks → StaysTrue A.walked walk.old pass.old.past.history → IfOk result (λ found. IfNone found (A.walked walk.new pass.new.past.history)) }
        ensures answer { IsSome N.disk → Among reader.old pass.old.past.blocks → StaysTrue A.walked walk.old pass.old.past.history → IfOk result (λ found. IfSome found (λ answer. IsChangedAnswer (applied pass.new.past.history) (A.walks walk.old) answer.spots.items answer.more)) }
        ensures reported { IsSome N.disk → Among reader.old pass.old.past.blocks → IfErr result (λ e. IsReportedAt e pass.new.past.history (A.walks walk.old).to) }
        ensures trouble { IfErr result (OnAskTrouble (λ t. ComesOf N.disk A.disk_of A.represents (λ a b. A.fails a t b) pass.old pass.new)) }
    {
        let more = if unreported.is_some() { 0 } else { MORE_LOOKS };
        let reported = {
            let mut desk = self.desk.lock(rt);
            reader.look(&mut desk, &self.board, pass, walk, more)
        };
        self.descended(unreported);
        reported
    }

    // The looks of a walk, to its end.
    fn walk_of(
        &self,
        rt: &impl Wait,
        pass: &mut Pass<N>,
        reader: &mut Reader<A, N>,
        request: u64,
        question: ChangedQuestion,
    ) -> Result<ChangedAnswer, AskError>
        requires reader { IsSome N.disk → Among reader.old pass.old.past.blocks }
        ensures begins { BeginsView pass.old pass.new }
        ensures reader { IsSome N.disk → Among reader.new pass.new.past.blocks }
        ensures answer { IsSome N.disk → IfOk result (λ answer. IsChangedAnswer (applied pass.new.past.history) question answer.spots.items answer.more) }
        ensures settled { IsSome N.disk → OnOk result (question.to < settled pass.new.past.history) }
        ensures reported { IsSome N.disk → IfErr result (λ e. IsReportedAt e pass.new.past.history question.to) }
        ensures trouble { IfErr result (OnAskTrouble (λ t. ComesOf N.disk A.disk_of A.represents (λ a b. A.fails a t b) pass.old pass.new)) }
        ensures not_refused { IsSome N.disk → IfErr result (λ e. IsAbove e → watermark_of pass.old ≤ question.to) }
    {
        let mut walk = A::start_walk(reader.alloc, question);
        let mut unreported = Some(request);
        for _ in rt.forever() {
            let found = self.looks(rt, pass, reader, &mut walk, &mut unreported)?;
            if let Some(answer) = found {
                return Ok(answer);
            }
        }
        unreachable!()
    }

    /// Answers which prefixes were announced or withdrawn in a span, as [`Shared::ask`] answers a question. The lock is taken for some looks
    /// of the walk at a time; what a look needs of blocks is read under it.
    pub fn changed(
        &self,
        rt: &impl Wait,
        pass: &mut Pass<N>,
        reader: &mut Reader<A, N>,
        request: u64,
        question: ChangedQuestion,
    ) -> Result<ChangedAnswer, AskError>
        requires reader { IsSome N.disk → Among reader.old pass.old.past.blocks }
        ensures begins { BeginsView pass.old pass.new }
        ensures reader { IsSome N.disk → Among reader.new pass.new.past.blocks }
        ensures answer { IsSome N.disk → IfOk result (λ answer. IsChangedAnswer (applied pass.new.past.history) question answer.spots.items answer.more) }
        ensures settled { IsSome N.disk → OnOk result (question.to < settled pass.new.past.history) }
        ensures reported { IsSome N.disk → IfErr result (λ e. IsReportedAt e pass.new.past.history question.to) }
        ensures trouble { IfErr result (OnAskTrouble (λ t. ComesOf N.disk A.disk_of A.represents (λ a b. A.fails a t b) pass.old pass.new)) }
        ensures not_refused { IsSome N.disk → IfErr result (λ e. IsAbove e → watermark_of pass.old ≤ question.to) }
    {
        let reported = self.walk_of(rt, pass, reader, request, question);
        self.gate.answered(request);
        reported
    }

    /// The archive, once the threads are done. What each of these passes knew begins its past.
    pub fn close(self, passes: Vec<Pass<N>>) -> A
        ensures { IsSome N.disk → (p : Past) × A.represents result p × AllByRecursion (IsFrontOf p) passes.items }
    {
        let Shared {
            desk,
            board,
            gate: _,
            ring: _,
        } = self;
        desk.into_inner().close(&board, passes)
    }
}
