//! Turns of a question of a moment over current pages alone: one leaf each, or one look. What lies in the past is left to an errand.

ghost use Rattle.std.specs.Prelude.{◌≡◌, ◌≤◌, ℕ, List, IfOk, IfErr, Err, None};
ghost use Rattle.route_model.specs.Admission.{Admitted};
ghost use Rattle.route_meaning.specs.Merged.{Placed};
ghost use Rattle.route_meaning.specs.Rows.{IsAnswer};
ghost use Rattle.version_model.specs.Pages.{Store, all_keys};
ghost use Rattle.version_model.specs.Versions.{Version};
ghost use Rattle.tsb_walk.specs.Refusals.{LookRefusal, OnlyReads};
ghost use Rattle.tsb_walk.specs.Shown.{keys_at};
ghost use Rattle.route_history.specs.Blame.{BlamesNone};
ghost use Rattle.route_history.specs.Walks.{Reports, Gathered};
ghost use Rattle.tree_questions.specs.Turning.{RepresentsTree, TurnsRows, GoesOnRows, RowsBelow};
ghost use Rattle.tree_questions.specs.inner.Reporting.{KeepsRows, ReportedRows};

use crate::naming::next_named;
use crate::runs::run_from;
use crate::taking::take_rows;
use page_tx::Pages;
use route_history::{RowsCursor, RowsErrand, RowsTurn};
use route_meaning::RowsAnswer;
use std::alloc::Global;
use std::mem;
use tsb_node::key_fits;
use tsb_walk::{Looked, NodeError, PagePlace};

// The answer of a walk that is over. The cursor is then at the start of its question again.
fn take_answer(alloc: Global, cursor: &mut RowsCursor) -> RowsAnswer
    ensures answer { (all : List Version) (ps : List (Placed Admitted)) → Gathered all ps cursor.old → cursor.old.front ≡ None → IsAnswer ps cursor.old.question result.rows.items result.more }
    ensures anew { (all : List Version) (ps : List (Placed Admitted)) → Gathered all ps cursor.new }
    ensures question { cursor.new.question ≡ cursor.old.question }
{
    let anew = RowsCursor::start(alloc, cursor.question);
    mem::replace(cursor, anew).into_answer()
}

// The answer if the walk is over; or that it goes on.
fn report(alloc: Global, cursor: &mut RowsCursor) -> RowsTurn
    ensures reported { (all : List Version) (ps : List (Placed Admitted)) → Gathered all ps cursor.old → ReportedRows ps cursor.old cursor.new result }
    ensures goes_on { KeepsRows cursor.old cursor.new result }
    ensures gathered { (all : List Version) (ps : List (Placed Admitted)) → Gathered all ps cursor.old → Gathered all ps cursor.new }
    ensures question { cursor.new.question ≡ cursor.old.question }
{
    match cursor.front {
        None => RowsTurn::Done(take_answer(alloc, cursor)),
        Some(_) => RowsTurn::Again,
    }
}

/// One turn of a question of a moment over the tree whose root is at this place: one look for the next key that it asks for, and,
/// if it asks for keys one after another, the keys that follow in its leaf. If the look leads into the past, the errand goes on
/// there without the pages.
///
/// Each turn passes a key, but for one that leaves an errand, which passes it when it is finished. Pages are only read, and called damaged
/// only if they aren't what the tree asks of them, or name a block from `burnt` on, the first that was never burnt. After each outcome
/// the cursor has gathered what there is in the range that its walk has passed; once the answer is returned, it is at the start of its
/// question again. It takes memory for rows, and for what the cache of pages keeps.
pub fn rows_turn<P: Pages>(
    pages: &mut P,
    alloc: Global,
    root: &PagePlace,
    burnt: u64,
    cursor: &mut RowsCursor,
) -> Result<RowsTurn, NodeError>
    requires all { keys_at root.now ≡ all_keys }
    requires level { 1 ≤ root.now.level }
    ensures turn { (store : Store) (all : List Version) (ps : List (Placed Admitted)) → RepresentsTree P.Pages pages.old root.now burnt store all → Reports all ps cursor.old.question.moment → Gathered all ps cursor.old → IfOk result (TurnsRows store.blocks all ps cursor.old cursor.new) }
    ensures goes_on { IfOk result (GoesOnRows cursor.old cursor.new) }
    ensures burnt { IfOk result (RowsBelow burnt) }
    ensures gathered { (store : Store) (all : List Version) (ps : List (Placed Admitted)) → RepresentsTree P.Pages pages.old root.now burnt store all → Reports all ps cursor.old.question.moment → Gathered all ps cursor.old → Gathered all ps cursor.new }
    ensures question { cursor.new.question ≡ cursor.old.question }
    ensures blames { (store : Store) (all : List Version) → RepresentsTree P.Pages pages.old root.now burnt store all → IfErr result BlamesNone }
    ensures refused { IfErr result (LookRefusal (P.down pages.old)) }
    ensures same { OnlyReads P.Pages pages.old pages.new (result ≡ Err NodeError.Fault) }
{
    let Some(look) = cursor.next_look() else {
        return Ok(RowsTurn::Done(take_answer(alloc, cursor)));
    };
    let from = look.from;
    let stamp = look.stamp;
    key_fits(from);
    let looked = next_named(pages, alloc, root, burnt, from, stamp)?;
    match looked {
        Looked::Here(reached) => {
            let run = run_from(pages, alloc, root, cursor, from, stamp)?;
            take_rows(alloc, cursor, reached, run)?;
            Ok(report(alloc, cursor))
        }
        Looked::InBlock(place) => Ok(RowsTurn::Historical(RowsErrand { from, place })),
    }
}
