//! Turns of a question of a moment, and errands into the past.

ghost use Rattle.std.specs.Prelude.{◌≡◌, ◌↔◌, ◌<◌, ◌≤◌, ◌+◌, ℕ, List, Option, Some, None, IfOk, IfErr, OnOk, OnErr, IsErrOf, Err, min};
ghost use Rattle.route_model.specs.Admission.{Admitted};
ghost use Rattle.route_meaning.specs.Merged.{Placed};
ghost use Rattle.version_model.specs.Versions.{Version};
ghost use Rattle.version_model.specs.Blocks.{BlockNode};
ghost use Rattle.once_store.specs.Readers.{capacity_of, reader_disk};
ghost use Rattle.tsb_walk.specs.Inside.{CachesInside};
ghost use Rattle.tsb_walk.specs.Knowing.{ReadsWell, RepresentsKnown};
ghost use Rattle.route_history.specs.Stamps.{last_stamp};
ghost use Rattle.route_history.specs.Fronts.{front_number};
ghost use Rattle.route_history.specs.Blame.{BlamesNone};
ghost use Rattle.route_history.specs.Walks.{Reports, Gathered, Rose, IsSame, HasLeapt};
ghost use Rattle.route_history.specs.RowTurns.{HasFit, IsTurn, IsErrandOf, IsReported};

use crate::front::Front;
use crate::leap::leap;
use crate::rows::RowsCursor;
use crate::versions::Versions;
use disk_models::OnceDisk;
use once_store::{BlockError, ShelfReader};
use route_meaning::RowsAnswer;
use route_model::{Key, Moment};
use std::alloc::Global;
use std::mem;
use tsb_walk::{Looked, NodeError, hist_next};
use version_model::{Place, Stamp};

/// What is to be looked for in the past, without the store: the next key from this one on, in a place in settled blocks.
#[derive(Clone, Copy, Debug)]
pub struct RowsErrand {
    pub from: Key,
    pub place: Place,
}

/// The result of a turn of a question.
#[derive(Debug, Drop)]
pub enum RowsTurn {
    /// The whole answer. The cursor is spent.
    Done(RowsAnswer),
    /// The walk has come further.
    Again,
    /// The walk goes on in the past.
    Historical(RowsErrand),
}

// The last stamp of a moment.
pub(crate) fn last_stamp(moment: Moment) -> Stamp
    ensures { result ≡ last_stamp moment }
{
    Stamp::new(moment.number(), 18_446_744_073_709_551_615)
}

impl RowsCursor {
    // Leaps over keys that the question doesn't ask for; None once the walk is over.
    pub(crate) fn leap(&mut self) -> Option<Front>
        ensures leapt { HasLeapt self.old self.new result }
        ensures question { self.new.question ≡ self.old.question }
    {
        let Some(front) = self.front else {
            return None;
        };
        self.front = leap(&self.question, front);
        self.front
    }

    // The answer if the walk is over, or else that it goes on.
    fn reported(&mut self, alloc: Global) -> RowsTurn
        ensures reported { IsReported self.old self.new result }
        ensures question { self.new.question ≡ self.old.question }
    {
        match self.front {
            None => RowsTurn::Done(self.report(alloc)),
            Some(_) => RowsTurn::Again,
        }
    }

    // The answer.
    fn report(&mut self, alloc: Global) -> RowsAnswer
        ensures rows { result.rows.items ≡ self.old.rows.items }
        ensures more { result.more ≡ self.old.more }
        ensures question { self.new.question ≡ self.old.question }
    {
        RowsAnswer {
            rows: mem::replace(&mut self.rows, Vec::new(alloc)),
            more: self.more,
        }
    }
}

/// One turn of a question: one look for the next key that it asks for. If it leads into the past, the errand goes on there
/// without the store. After a refusal what was gathered is as it was.
pub fn take_rows_turn<V: Versions>(
    versions: &mut V,
    alloc: Global,
    cursor: &mut RowsCursor,
) -> Result<RowsTurn, NodeError>
    ensures turn { IfOk result (λ turn. (blocks : ℕ → Option BlockNode) (all : List Version) (ps : List (Placed Admitted)) → V.represents_all versions.old blocks all → Reports all ps cursor.old.question.moment → Gathered all ps cursor.old → IsTurn blocks all ps cursor.old cursor.new turn) }
    ensures fits { IfOk result (λ turn. HasFit cursor.new turn) }
    ensures refused { OnErr result ((all : List Version) (ps : List (Placed Admitted)) → Reports all ps cursor.old.question.moment → Gathered all ps cursor.old → Gathered all ps cursor.new) }
    ensures blames { IfErr result (λ refusal. (blocks : ℕ → Option BlockNode) (all : List Version) → V.represents_all versions.old blocks all → BlamesNone refusal) }
    ensures question { cursor.new.question ≡ cursor.old.question }
    ensures kept { (blocks : ℕ → Option BlockNode) (all : List Version) → V.represents_all versions.old blocks all → V.represents_all versions.new blocks all }
{
    let Some(front) = cursor.leap() else {
        return Ok(RowsTurn::Done(cursor.report(alloc)));
    };
    let Some(from) = front.first() else {
        return Ok(RowsTurn::Done(cursor.report(alloc)));
    };
    match versions.next(from, last_stamp(cursor.question.moment))? {
        Looked::Here(reached) => {
            cursor.take(alloc, front, reached)?;
            Ok(cursor.reported(alloc))
        }
        Looked::InBlock(place) => Ok(RowsTurn::Historical(RowsErrand { from, place })),
    }
}

impl RowsErrand {
    /// Finishes the turn in the past: the cursor has then gathered as much as the turn would have gathered, and has come further. It
    /// must be as its turn left it. A refusal leaves it so, and a fault is counted once. It takes no lock, and waits for nothing but
    /// the disk.
    pub fn finish<O: OnceDisk + Drop>(
        self,
        reader: &mut ShelfReader<O>,
        seen: &mut O::Seen,
        alloc: Global,
        cursor: &mut RowsCursor,
    ) -> Result<(), BlockError>
        requires fits { IsErrandOf cursor.old self }
        ensures finished { (all : List Version) (ps : List (Placed Admitted)) → RepresentsKnown O.OnceDisk reader.old seen.old all self.place → Reports all ps cursor.old.question.moment → Gathered all ps cursor.old → OnOk result (Gathered all ps cursor.new × Rose (front_number cursor.old.front) (front_number cursor.new.front)) }
        ensures question { cursor.new.question ≡ cursor.old.question }
        ensures refused { OnErr result (IsSame cursor.old cursor.new) }
        ensures reads { (all : List Version) → RepresentsKnown O.OnceDisk reader.old seen.old all self.place → ReadsWell O.OnceDisk reader.new seen.new }
        ensures never { (all : List Version) → RepresentsKnown O.OnceDisk reader.old seen.old all self.place → (block : ℕ) → result ≡ Err (BlockError.Damaged block) → ⊥ }
        ensures inside { CachesInside O.OnceDisk reader.old → CachesInside O.OnceDisk reader.new }
        ensures same { O.honest_seen (reader_disk reader.old) seen.old → O.known seen.new ≡ O.known seen.old }
        ensures disk { reader_disk reader.new ≡ reader_disk reader.old }
        ensures capacity { capacity_of reader.new ≡ capacity_of reader.old }
        ensures honest { O.honest_seen (reader_disk reader.old) seen.old ↔ O.honest_seen (reader_disk reader.old) seen.new }
        ensures quiet { (IsErrOf result BlockError.Fault → ⊥) → O.seen_fault_count seen.new ≡ O.seen_fault_count seen.old }
        ensures counted { IsErrOf result BlockError.Fault → O.seen_fault_count seen.new ≡ min (O.seen_fault_count seen.old + 1) 18446744073709551615 }
    {
        let Some(front) = cursor.front else {
            return Ok(());
        };
        let stamp = last_stamp(cursor.question.moment);
        let found = hist_next(reader, seen, alloc, &self.place, self.from, stamp)?;
        cursor.take(alloc, front, found)?;
        Ok(())
    }
}
