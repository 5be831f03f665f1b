//! A question of a moment, answered to its end.

ghost use Rattle.std.specs.Prelude.{◌≡◌, ◌<◌, ◌≤◌, ℕ, List, IfOk, IfErr, OnOk, Ok, Err, None, true, false, ◌↔◌, ◌+◌, IsErrOf, min};
ghost use Rattle.route_model.specs.Admission.{Admitted};
ghost use Rattle.route_meaning.specs.Merged.{Placed};
ghost use Rattle.route_meaning.specs.Rows.{IsAnswer};
ghost use Rattle.once_store.specs.Readers.{capacity_of, reader_disk};
ghost use Rattle.version_model.specs.Pages.{all_keys};
ghost use Rattle.version_model.specs.Versions.{Version};
ghost use Rattle.tsb_walk.specs.AllVersions.{VersionsRefusal};
ghost use Rattle.tsb_walk.specs.Refusals.{OnlyReads};
ghost use Rattle.tsb_walk.specs.Shown.{keys_at};
ghost use Rattle.route_history.specs.Blame.{BlamesNone};
ghost use Rattle.route_history.specs.Fronts.{front_number};
ghost use Rattle.route_history.specs.Walks.{Reports, Gathered, left_of};
ghost use Rattle.tree_questions.specs.Reading.{ReadsTree};

use crate::looks::next_key;
use crate::runs::run_from;
use crate::taking::take_rows;
use disk_models::OnceDisk;
use once_store::ShelfReader;
use page_tx::Pages;
use route_history::RowsCursor;
use route_meaning::{RowsAnswer, RowsQuestion};
use std::alloc::Global;
use tsb_node::key_fits;
use tsb_walk::{NodeError, PagePlace};

// One look of the question. Returns whether its walk goes on.
fn take_look<P: Pages, O: OnceDisk + Drop>(
    pages: &mut P,
    reader: &mut ShelfReader<O>,
    seen: &mut O::Seen,
    alloc: Global,
    root: &PagePlace,
    burnt: u64,
    cursor: &mut RowsCursor,
) -> Result<bool, NodeError>
    requires all { keys_at root.now ≡ all_keys }
    requires level { 1 ≤ root.now.level }
    ensures gathered { (all : List Version) (ps : List (Placed Admitted)) → ReadsTree P.Pages pages.old O.OnceDisk reader.old seen.old root.now burnt all → Reports all ps cursor.old.question.moment → Gathered all ps cursor.old → OnOk result (Gathered all ps cursor.new) }
    ensures over { result ≡ Ok false → cursor.new.front ≡ None }
    ensures onward { result ≡ Ok true → left_of (front_number cursor.new.front) < left_of (front_number cursor.old.front) }
    ensures question { cursor.new.question ≡ cursor.old.question }
    ensures stays { (all : List Version) → ReadsTree P.Pages pages.old O.OnceDisk reader.old seen.old root.now burnt all → ReadsTree P.Pages pages.new O.OnceDisk reader.new seen.new root.now burnt all }
    ensures blames { (all : List Version) → ReadsTree P.Pages pages.old O.OnceDisk reader.old seen.old root.now burnt all → IfErr result BlamesNone }
    ensures refused { IfErr result (VersionsRefusal (P.down pages.old)) }
    ensures same { OnlyReads P.Pages pages.old pages.new (result ≡ Err NodeError.Fault) }
    ensures known { O.honest_seen (reader_disk reader.old) seen.old → O.known seen.new ≡ O.known seen.old }
    ensures disk { reader_disk reader.new ≡ reader_disk reader.old }
    ensures capacity { capacity_of reader.new ≡ capacity_of reader.old }
    ensures honest { O.honest_seen (reader_disk reader.old) seen.old ↔ O.honest_seen (reader_disk reader.old) seen.new }
    ensures quiet { (IsErrOf result NodeError.OnceFault → ⊥) → O.seen_fault_count seen.new ≡ O.seen_fault_count seen.old }
    ensures counted { IsErrOf result NodeError.OnceFault → O.seen_fault_count seen.new ≡ min (O.seen_fault_count seen.old + 1) 18446744073709551615 }
{
    let Some(look) = cursor.next_look() else {
        return Ok(false);
    };
    let from = look.from;
    let stamp = look.stamp;
    key_fits(from);
    let reached = next_key(pages, reader, seen, alloc, root, burnt, from, stamp)?;
    let run = run_from(pages, alloc, root, cursor, from, stamp)?;
    take_rows(alloc, cursor, reached, run)?;
    Ok(true)
}

/// Answers a question of a moment over the tree whose root is at this place: the first 256 rows above the spot after which they are
/// asked for, and whether more follow.
///
/// Each look passes a key, so it ends. Pages are only read, and blocks by the reader alone. A page or a block is called damaged only
/// if it isn't what the tree asks of it, or is the page of a column that names a block from `burnt` on, the first that was never
/// burnt. It takes memory for the rows, and for what the cache of pages and the reader keep.
pub fn rows<P: Pages, O: OnceDisk + Drop>(
    pages: &mut P,
    reader: &mut ShelfReader<O>,
    seen: &mut O::Seen,
    alloc: Global,
    root: &PagePlace,
    burnt: u64,
    question: RowsQuestion,
) -> Result<RowsAnswer, NodeError>
    requires all { keys_at root.now ≡ all_keys }
    requires level { 1 ≤ root.now.level }
    ensures answer { (all : List Version) (ps : List (Placed Admitted)) → ReadsTree P.Pages pages.old O.OnceDisk reader.old seen.old root.now burnt all → Reports all ps question.moment → IfOk result (λ answer. IsAnswer ps question answer.rows.items answer.more) }
    ensures stays { (all : List Version) → ReadsTree P.Pages pages.old O.OnceDisk reader.old seen.old root.now burnt all → ReadsTree P.Pages pages.new O.OnceDisk reader.new seen.new root.now burnt all }
    ensures blames { (all : List Version) → ReadsTree P.Pages pages.old O.OnceDisk reader.old seen.old root.now burnt all → IfErr result BlamesNone }
    ensures refused { IfErr result (VersionsRefusal (P.down pages.old)) }
    ensures same { OnlyReads P.Pages pages.old pages.new (result ≡ Err NodeError.Fault) }
    ensures known { O.honest_seen (reader_disk reader.old) seen.old → O.known seen.new ≡ O.known seen.old }
    ensures disk { reader_disk reader.new ≡ reader_disk reader.old }
    ensures capacity { capacity_of reader.new ≡ capacity_of reader.old }
    ensures honest { O.honest_seen (reader_disk reader.old) seen.old ↔ O.honest_seen (reader_disk reader.old) seen.new }
    ensures quiet { (IsErrOf result NodeError.OnceFault → ⊥) → O.seen_fault_count seen.new ≡ O.seen_fault_count seen.old }
    ensures counted { IsErrOf result NodeError.OnceFault → O.seen_fault_count seen.new ≡ min (O.seen_fault_count seen.old + 1) 18446744073709551615 }
{
    let mut cursor = RowsCursor::start(alloc, question);
    loop {
        let goes_on = take_look(pages, reader, seen, alloc, root, burnt, &mut cursor)?;
        if !goes_on {
            return Ok(cursor.into_answer());
        }
    }
}
