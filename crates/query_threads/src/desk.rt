//! What lies under the lock: the archive, and the writing seat, which knows its past.
ghost use Rattle.std.specs.Prelude.{◌≡◌, ℕ, ◌+◌, ◌<◌, ◌≤◌, List, [], length, Some, OnOk, IfOk, IfErr, IfSome, IfNone, IsSome, IsNone, Err, ⊤};
ghost use Rattle.std.specs.List.{AllByRecursion};
ghost use Rattle.route_meaning.specs.Changed.{IsChangedAnswer};
ghost use Rattle.route_meaning.specs.History.{IsHistory, applied, settled};
ghost use Rattle.interleaving_core.specs.Does.{last_moment};
ghost use Rattle.interleaving_core.specs.Headline.{IsAnswered};
ghost use Rattle.board.specs.Past.{Past, Among, GoesOnAs, reach};
ghost use Rattle.board.specs.Views.{View, Within, Reached, IsCaughtUp, IsFrontOf, BeginsView};
ghost use Rattle.query_threads.specs.Steps.{IsCrowded, DoesAdmit, DoesMark, DoesApply, DoesFlush, DoesReopen};
ghost use Rattle.query_threads.specs.Looks.{IsErrandOn};
ghost use Rattle.query_threads.specs.Turns.{StaysTrue, TurnGives, IsReported, IsReportedAt};
ghost use Rattle.query_threads.specs.Seeing.{Sees, ComesOf};
ghost use Rattle.query_threads.specs.Troubles.{OnAdmitTrouble, OnMarkTrouble, OnAskTrouble};
ghost use Rattle.query_threads.specs.Usages.{AreLanes};
ghost use Rattle.query_threads.specs.inner.Unpromised.{ReachesAll};

use crate::refusal::{AdmitError, AskError, Flush, MarkError, Step, Trouble, Turn};
use crate::store::{OnDisk, Store};
use crate::usage::Usage;
use board::{Board, Named, Pass, Target, Word, Writer};
use interleaving_core::BatchReply;
use route_meaning::ChangedAnswer;
use route_model::{Admission, Mark};
use std::alloc::Global;
use std::marker::{Brand, Model};

/// Contracts see what the writing seat knows.
pub struct Desk<A: Store, N: Named + OnDisk<A::Disk>> {
    archive: A,
    writer: Writer<N>,
}

impl<A: Store, N: Named + OnDisk<A::Disk>> Model for Desk<A, N> {
    ghost use Rattle.std.specs.Prelude.{◌≡◌, ◌+◌, length, Some, IsSome, IsNone};
    ghost use Rattle.board.specs.Views.{View, IsCaughtUp};
    ghost use Rattle.query_threads.specs.inner.Unpromised.{ReachesAll};

    ghost Value = { View };

    ghost view = { λ d. d.writer };

    ghost invariant = { λ d. (N.table.words ≡ length d.writer.past.history.intakes + 1) × (IsSome N.disk → A.represents d.archive d.writer.past × IsCaughtUp d.writer × (N.disk ≡ Some (A.disk_of d.archive)) × (N.pages ≡ A.pages d.archive)) × (IsNone N.disk → ReachesAll d.writer.past.history) };
}

// Raises each word to what the archive returns, which the past of the writing seat reaches.
pub(crate) fn catch_up<A: Store, N: Named + OnDisk<A::Disk>>(
    board: &Board<N>,
    writer: &mut Writer<N>,
    archive: &A,
)
    requires represented { IsSome N.disk → A.represents archive.now writer.old.past }
    requires all { IsNone N.disk → ReachesAll writer.old.past.history }
    requires words { N.table.words ≡ length writer.old.past.history.intakes + 1 }
    ensures past { writer.new.past ≡ writer.old.past }
    ensures caught_up { IsSome N.disk → IsCaughtUp writer.new }
    ensures rises { Within writer.old.numbers writer.new.numbers }
{
    board.raise(writer, Word::Watermark, archive.settled().number());
    for c in 0..board.collectors() {
        board.raise(writer, Word::Durable(c), archive.admitted(c));
    }
}

// The writing seat goes on to a past that fits, which the archive represents, and all words are raised to it. What it is
// about is for the caller's choice of `X`. If nothing is promised of the archive, it stays at one that reaches all.
fn follow<X: Target, A: Store, N: Named + OnDisk<A::Disk>, T>(
    board: &Board<N>,
    writer: &mut Writer<N>,
    archive: &A,
    _about: &T,
)
    requires past { IsSome N.disk → (q : Past) × GoesOnAs writer.old.past q × A.represents archive.now q × X.fits q }
    requires all { IsNone N.disk → ReachesAll writer.old.past.history }
    requires words { N.table.words ≡ length writer.old.past.history.intakes + 1 }
    ensures fits { IsSome N.disk → X.fits writer.new.past }
    ensures goes_on { GoesOnAs writer.old.past writer.new.past }
    ensures represented { IsSome N.disk → A.represents archive.now writer.new.past }
    ensures all { IsNone N.disk → ReachesAll writer.new.past.history }
    ensures words { N.table.words ≡ length writer.new.past.history.intakes + 1 }
    ensures caught_up { IsSome N.disk → IsCaughtUp writer.new }
    ensures rises { Within writer.old.numbers writer.new.numbers }
{
    board.advance::<Brand, A>(writer, archive);
    catch_up(board, writer, archive);
}

impl<A: Store, N: Named + OnDisk<A::Disk>> Desk<A, N> {
    /// An archive with its writing seat, which knows its past and has raised all words.
    pub(crate) fn new(archive: A, writer: Writer<N>) -> Desk<A, N>
        requires words { N.table.words ≡ length writer.past.history.intakes + 1 }
        requires represented { IsSome N.disk → A.represents archive writer.past × IsCaughtUp writer × (N.disk ≡ Some (A.disk_of archive)) × (N.pages ≡ A.pages archive) }
        requires all { IsNone N.disk → ReachesAll writer.past.history }
        ensures { result ≡ writer }
    {
        Desk { archive, writer }
    }

    /// The pass learns what is known here, which what it knew begins.
    fn greet(&mut self, board: &Board<N>, pass: &mut Pass<N>)
        ensures same { self.new ≡ self.old }
        ensures past { pass.new.past ≡ self.old.past }
        ensures front { IsFrontOf self.old.past pass.old }
        ensures begins { BeginsView pass.old pass.new }
        ensures caught_up { IsSome N.disk → IsCaughtUp pass.new }
    {
        board.meet(&mut self.writer, pass);
    }

    /// Admits a batch. The pass then knows the history after it.
    pub fn admit(
        &mut self,
        board: &Board<N>,
        pass: &mut Pass<N>,
        collector: u8,
        batch: &[Admission],
    ) -> Result<BatchReply, AdmitError>
        ensures begins { BeginsView pass.old pass.new }
        ensures sees { IsSome N.disk → Sees (DoesAdmit collector batch.now result) pass.old pass.new }
        ensures full { IsSome N.disk → result ≡ Err AdmitError.IntakeFull → IsCrowded N.pages pass.new.past.history collector batch.now }
        ensures trouble { IfErr result (OnAdmitTrouble (λ t. ComesOf N.disk A.disk_of A.represents (λ a b. A.reports a t b) pass.old pass.new)) }
    {
        self.greet(board, pass);
        let reported = self.archive.admit(collector, batch);
        follow::<Brand, A, N, (u8, &[Admission], &Result<BatchReply, AdmitError>)>(
            board,
            &mut self.writer,
            &self.archive,
            &(collector, batch, &reported),
        );
        self.greet(board, pass);
        reported
    }

    /// Raises the mark of a collector. The pass then knows the history after it.
    pub fn mark(
        &mut self,
        board: &Board<N>,
        pass: &mut Pass<N>,
        collector: u8,
        mark: Mark,
    ) -> Result<(), MarkError>
        ensures begins { BeginsView pass.old pass.new }
        ensures sees { IsSome N.disk → Sees (DoesMark collector mark result) pass.old pass.new }
        ensures trouble { IfErr result (OnMarkTrouble (λ t. ComesOf N.disk A.disk_of A.represents (λ a b. A.reports a t b) pass.old pass.new)) }
    {
        self.greet(board, pass);
        let reported = self.archive.mark(collector, mark);
        follow::<Brand, A, N, (u8, Mark, &Result<(), MarkError>)>(
            board,
            &mut self.writer,
            &self.archive,
            &(collector, mark, &reported),
        );
        self.greet(board, pass);
        reported
    }

    /// Applies the next change, and perhaps some more. The pass then knows the history after it.
    pub fn apply(&mut self, board: &Board<N>, pass: &mut Pass<N>) -> Result<Step, Trouble>
        ensures begins { BeginsView pass.old pass.new }
        ensures sees { IsSome N.disk → Sees (DoesApply result) pass.old pass.new }
        ensures trouble { IfErr result (λ t. ComesOf N.disk A.disk_of A.represents (λ a b. A.reports a t b) pass.old pass.new) }
    {
        self.greet(board, pass);
        let reported = self.archive.apply_step();
        follow::<Brand, A, N, Result<Step, Trouble>>(
            board,
            &mut self.writer,
            &self.archive,
            &reported,
        );
        self.greet(board, pass);
        reported
    }

    /// Writes a page home that waits. The pass then knows the history.
    pub fn flush(&mut self, board: &Board<N>, pass: &mut Pass<N>) -> Result<Flush, Trouble>
        ensures begins { BeginsView pass.old pass.new }
        ensures sees { IsSome N.disk → Sees (DoesFlush result) pass.old pass.new }
        ensures flushes { IfOk result (λ step. ComesOf N.disk A.disk_of A.represents (λ a b. A.flushes a step b) pass.old pass.new) }
        ensures trouble { IfErr result (λ t. ComesOf N.disk A.disk_of A.represents (λ a b. A.reports a t b) pass.old pass.new) }
    {
        self.greet(board, pass);
        let reported = self.archive.flush_step();
        follow::<Brand, A, N, Result<Flush, Trouble>>(
            board,
            &mut self.writer,
            &self.archive,
            &reported,
        );
        self.greet(board, pass);
        reported
    }

    /// Opens the archive again. The pass then knows the history that was found.
    pub fn reopen(
        &mut self,
        board: &Board<N>,
        pass: &mut Pass<N>,
        alloc: Global,
    ) -> Result<(), Trouble>
        ensures begins { BeginsView pass.old pass.new }
        ensures sees { IsSome N.disk → Sees (DoesReopen result) pass.old pass.new }
        ensures opens { ComesOf N.disk A.disk_of A.represents (λ a b. A.reopens a result b) pass.old pass.new }
    {
        self.greet(board, pass);
        let reported = self.archive.reopen(alloc);
        follow::<Brand, A, N, Result<(), Trouble>>(
            board,
            &mut self.writer,
            &self.archive,
            &reported,
        );
        self.greet(board, pass);
        reported
    }

    /// Which call on a device failed, and why, in words for a person; none if the archive has none.
    pub fn failure(&self, alloc: Global) -> Option<String> {
        self.archive.failure(alloc)
    }

    /// How much of the archive is used. The pass then knows the history of which that is reported.
    pub fn usage(&mut self, board: &Board<N>, pass: &mut Pass<N>, alloc: Global) -> Option<Usage>
        ensures begins { BeginsView pass.old pass.new }
        ensures lanes { IsSome N.disk → IfSome result (λ usage. AreLanes usage.lanes.items pass.new.past.history) }
    {
        self.greet(board, pass);
        self.archive.usage(alloc)
    }

    /// A turn of a question. The pass then knows the history over which it was made.
    pub fn turn(
        &mut self,
        board: &Board<N>,
        pass: &mut Pass<N>,
        cursor: &mut A::Cursor,
    ) -> Result<Turn<(A::Errand, A::Seen)>, AskError>
        ensures begins { BeginsView pass.old pass.new }
        ensures reached { Reached pass.old.numbers pass.new.past.history }
        ensures asks { A.asks cursor.new ≡ A.asks cursor.old }
        ensures fits { IfOk result (λ turn. TurnGives (λ e. A.fits e.0 cursor.new) ⊤ (λ _. ⊤) turn) }
        ensures caught_up { IsSome N.disk → IsCaughtUp pass.new }
        ensures right { IsSome N.disk → IsHistory pass.new.past.history }
        ensures settled { IsSome N.disk → OnOk result (last_moment (A.asks cursor.old) < settled pass.new.past.history) }
        ensures gives { IsSome N.disk → A.gathered cursor.old pass.new.past.history → IfOk result (λ turn. TurnGives (λ e. IfSome N.disk (IsErrandOn (λ errand. A.located errand cursor.new) A.honest A.block_count A.known pass.new.past e.0 e.1)) (A.gathered cursor.new pass.new.past.history) (λ answer. IsAnswered (applied pass.new.past.history) (A.asks cursor.old) answer) turn) }
        ensures reported { IsSome N.disk → IfErr result (λ e. IsReported e pass.new.past.history (A.asks cursor.old)) }
        ensures trouble { IfErr result (OnAskTrouble (λ t. ComesOf N.disk A.disk_of A.represents (λ a b. A.reports a t b) pass.old pass.new)) }
    {
        self.greet(board, pass);
        match self.archive.descend(cursor)? {
            Turn::Done(answer) => Ok(Turn::Done(answer)),
            Turn::Again => Ok(Turn::Again),
            Turn::Historical(errand) => {
                let seen = self.archive.seen()?;
                Ok(Turn::Historical((errand, seen)))
            }
        }
    }

    /// Turns of a question, one after another, until one doesn't say [`Turn::Again`], but at most `more` after the first. The pass then
    /// knows the history over which all of them were made.
    pub fn turns(
        &mut self,
        board: &Board<N>,
        pass: &mut Pass<N>,
        cursor: &mut A::Cursor,
        more: u32,
    ) -> Result<Turn<(A::Errand, A::Seen)>, AskError>
        ensures begins { BeginsView pass.old pass.new }
        ensures reached { Reached pass.old.numbers pass.new.past.history }
        ensures asks { A.asks cursor.new ≡ A.asks cursor.old }
        ensures fits { IfOk result (λ turn. TurnGives (λ e. A.fits e.0 cursor.new) ⊤ (λ _. ⊤) turn) }
        ensures right { IsSome N.disk → IsHistory pass.new.past.history }
        ensures settled { IsSome N.disk → OnOk result (last_moment (A.asks cursor.old) < settled pass.new.past.history) }
        ensures gives { IsSome N.disk → StaysTrue A.gathered cursor.old pass.old.past.history → IfOk result (λ turn. TurnGives (λ e. IfSome N.disk (IsErrandOn (λ errand. A.located errand cursor.new) A.honest A.block_count A.known pass.new.past e.0 e.1)) (A.gathered cursor.new pass.new.past.history) (λ answer. IsAnswered (applied pass.new.past.history) (A.asks cursor.old) answer) turn) }
        ensures reported { IsSome N.disk → IfErr result (λ e. IsReported e pass.new.past.history (A.asks cursor.old)) }
        ensures trouble { IfErr result (OnAskTrouble (λ t. ComesOf N.disk A.disk_of A.represents (λ a b. A.reports a t b) pass.old pass.new)) }
    {
        for _ in 0..more {
            match self.turn(board, pass, cursor)? {
                Turn::Done(answer) => return Ok(Turn::Done(answer)),
                Turn::Again => {}
                Turn::Historical(look) => return Ok(Turn::Historical(look)),
            }
        }
        self.turn(board, pass, cursor)
    }

    // A look of a walk. The pass then knows the history over which it was made.
    fn look(
        &mut self,
        board: &Board<N>,
        pass: &mut Pass<N>,
        reader: &mut A::Reader,
        walk: &mut A::Walk,
    ) -> Result<Option<ChangedAnswer>, AskError>
        ensures begins { BeginsView pass.old pass.new }
        ensures reached { Reached pass.old.numbers pass.new.past.history }
        ensures walks { A.walks walk.new ≡ A.walks walk.old }
        ensures reads { A.reads reader.new ≡ A.reads reader.old }
        ensures right { IsSome N.disk → IsHistory pass.new.past.history }
        ensures settled { IsSome N.disk → OnOk result ((A.walks walk.old).to < settled pass.new.past.history) }
        ensures kept { IsSome N.disk → N.disk ≡ Some (A.reads reader.old) → Among (A.kept reader.old) pass.old.past.blocks → Among (A.kept reader.new) pass.new.past.blocks }
        ensures walked { IsSome N.disk → N.disk ≡ Some (A.reads reader.old) → Among (A.kept reader.old) pass.old.past.blocks → A.walked walk.old pass.new.past.history → IfOk result (λ found. IfNone found (A.walked walk.new pass.new.past.history)) }
        ensures answer { IsSome N.disk → N.disk ≡ Some (A.reads reader.old) → Among (A.kept reader.old) pass.old.past.blocks → A.walked walk.old pass.new.past.history → IfOk result (λ found. IfSome found (λ answer. IsChangedAnswer (applied pass.new.past.history) (A.walks walk.old) answer.spots.items answer.more)) }
        ensures reported { IsSome N.disk → N.disk ≡ Some (A.reads reader.old) → Among (A.kept reader.old) pass.old.past.blocks → IfErr result (λ e. IsReportedAt e pass.new.past.history (A.walks walk.old).to) }
        ensures trouble { IfErr result (OnAskTrouble (λ t. ComesOf N.disk A.disk_of A.represents (λ a b. A.fails a t b) pass.old pass.new)) }
    {
        self.greet(board, pass);
        self.archive.look(reader, walk)
    }

    /// Looks of a walk, one after another, until it is over, but at most `more` after the first. The pass then knows the history over which
    /// all of them were made.
    pub fn looks(
        &mut self,
        board: &Board<N>,
        pass: &mut Pass<N>,
        reader: &mut A::Reader,
        walk: &mut A::Walk,
        more: u32,
    ) -> Result<Option<ChangedAnswer>, AskError>
        ensures begins { BeginsView pass.old pass.new }
        ensures reached { Reached pass.old.numbers pass.new.past.history }
        ensures walks { A.walks walk.new ≡ A.walks walk.old }
        ensures reads { A.reads reader.new ≡ A.reads reader.old }
        ensures right { IsSome N.disk → IsHistory pass.new.past.history }
        ensures settled { IsSome N.disk → OnOk result ((A.walks walk.old).to < settled pass.new.past.history) }
        ensures kept { IsSome N.disk → N.disk ≡ Some (A.reads reader.old) → Among (A.kept reader.old) pass.old.past.blocks → Among (A.kept reader.new) pass.new.past.blocks }
        ensures walked { IsSome N.disk → N.disk ≡ Some (A.reads reader.old) → Among (A.kept reader.old) pass.old.past.blocks → StaysTrue A.walked walk.old pass.old.past.history → IfOk result (λ found. IfNone found (A.walked walk.new pass.new.past.history)) }
        ensures answer { IsSome N.disk → N.disk ≡ Some (A.reads reader.old) → Among (A.kept reader.old) pass.old.past.blocks → StaysTrue A.walked walk.old pass.old.past.history → IfOk result (λ found. IfSome found (λ answer. IsChangedAnswer (applied pass.new.past.history) (A.walks walk.old) answer.spots.items answer.more)) }
        ensures reported { IsSome N.disk → N.disk ≡ Some (A.reads reader.old) → Among (A.kept reader.old) pass.old.past.blocks → IfErr result (λ e. IsReportedAt e pass.new.past.history (A.walks walk.old).to) }
        ensures trouble { IfErr result (OnAskTrouble (λ t. ComesOf N.disk A.disk_of A.represents (λ a b. A.fails a t b) pass.old pass.new)) }
    {
        for _ in 0..more {
            if let Some(answer) = self.look(board, pass, reader, walk)? {
                return Ok(Some(answer));
            }
        }
        self.look(board, pass, reader, walk)
    }

    /// A reader of this archive's blocks, which keeps none yet. Fails only when out of memory.
    pub fn reader(&self, alloc: Global, capacity: usize) -> Result<A::Reader, Trouble>
        requires some { 1 ≤ capacity }
        requires few { capacity ≤ 1024 }
        ensures disk { IsSome N.disk → IfOk result (λ r. N.disk ≡ Some (A.reads r)) }
        ensures empty { IfOk result (λ r. A.kept r ≡ []) }
        ensures memory { IfErr result (λ e. e ≡ Trouble.OutOfMemory) }
    {
        self.archive.reader(alloc, capacity)
    }

    /// The archive, once the threads are done. What each of these passes knew begins its past.
    pub fn close(mut self, board: &Board<N>, mut passes: Vec<Pass<N>>) -> A
        ensures { IsSome N.disk → (p : Past) × A.represents result p × AllByRecursion (IsFrontOf p) passes.items }
    {
        while let Some(mut pass) = passes.pop() {
            self.greet(board, &mut pass);
        }
        let Desk { archive, writer: _ } = self;
        archive
    }
}
