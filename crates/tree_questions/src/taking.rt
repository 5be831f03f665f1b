//! What a question takes of a run.

ghost use Rattle.std.specs.Prelude.{◌≡◌, ◌<◌, ◌↔◌, ℕ, List, Some, IfSome, IsTrue, OnOk, OnErr};
ghost use Rattle.route_model.specs.Admission.{Admitted};
ghost use Rattle.route_meaning.specs.Merged.{Placed};
ghost use Rattle.version_model.specs.Looks.{At as ReachAt, IsReached, NoneWithin};
ghost use Rattle.version_model.specs.Ranges.{high_or};
ghost use Rattle.version_model.specs.Versions.{Version, found_at};
ghost use Rattle.tsb_walk.specs.Answers.{reached_as};
ghost use Rattle.tsb_walk.specs.Looked.{GoesOnFrom};
ghost use Rattle.tsb_runs.specs.Runs.{IsRun};
ghost use Rattle.route_history.specs.Fronts.{front_number};
ghost use Rattle.route_history.specs.Stamps.{last_stamp};
ghost use Rattle.route_history.specs.Walks.{Reports, Gathered, IsSame, Rose};
ghost use Rattle.tree_questions.specs.inner.Taking.{IsOnward, IsFrom};

use route_history::RowsCursor;
use route_model::Key;
use std::alloc::{AllocError, Global};
use tsb_runs::{LiveKey, Run};
use tsb_walk::Reached;

// Whether a key is above the last one that a run returned; true before the first.
fn is_above(last: &Option<Key>, key: Key) -> bool
    ensures { IsTrue result ↔ IfSome last.now (λ last. last < key) }
{
    match last {
        Some(last) => *last < key,
        None => true,
    }
}

// Whether a walk that stands at a key is past another.
fn is_past(key: Key, at: Key) -> bool
    ensures { IsTrue result ↔ (key < at) }
{
    key < at
}

// What is reached from a key on if no key below `high` has a value; None if the key isn't below it.
fn past_from(key: Key, high: &Option<Key>) -> Option<Reached>
    ensures past { IfSome result (λ reached. (versions : List Version) (s : ℕ) → NoneWithin versions s key (high_or high.now) → IsReached versions s key (reached_as reached)) }
    ensures onward { IfSome result (GoesOnFrom key) }
{
    match high {
        Some(high) => {
            if key < *high {
                Some(Reached::Past(*high))
            } else {
                None
            }
        }
        None => Some(Reached::End),
    }
}

// Takes in a key of a run, unless the walk is past it. Returns whether the run goes on.
fn take_row(alloc: Global, cursor: &mut RowsCursor, last: &Option<Key>, row: LiveKey) -> bool
    ensures taken { (from : ℕ) (all : List Version) (ps : List (Placed Admitted)) → IsFrom from last.now (front_number cursor.old.front) → Reports all ps cursor.old.question.moment → Gathered all ps cursor.old
        → IsReached all (last_stamp cursor.old.question.moment) from (ReachAt row.key (found_at row.found.stamp row.found.value.items)) → Gathered all ps cursor.new }
    ensures onward { IsOnward (front_number cursor.old.front) (front_number cursor.new.front) }
    ensures question { cursor.new.question ≡ cursor.old.question }
{
    let Some(look) = cursor.next_look() else {
        return false;
    };
    if !is_above(last, look.from) {
        return false;
    }
    if is_past(row.key, look.from) {
        return true;
    }
    cursor
        .take_reached(alloc, Reached::At(row.key, row.found))
        .is_ok()
}

// Takes in that a run has no more keys up to its end.
fn take_end(alloc: Global, cursor: &mut RowsCursor, last: &Option<Key>, high: &Option<Key>)
    ensures taken { (from : ℕ) (all : List Version) (ps : List (Placed Admitted)) → IsFrom from last.now (front_number cursor.old.front) → Reports all ps cursor.old.question.moment → Gathered all ps cursor.old
        → NoneWithin all (last_stamp cursor.old.question.moment) from (high_or high.now) → Gathered all ps cursor.new }
    ensures onward { IsOnward (front_number cursor.old.front) (front_number cursor.new.front) }
    ensures question { cursor.new.question ≡ cursor.old.question }
{
    let Some(look) = cursor.next_look() else {
        return;
    };
    if !is_above(last, look.from) {
        return;
    }
    if let Some(reached) = past_from(look.from, high) {
        let _taken = cursor.take_reached(alloc, reached).is_ok();
    }
}

// Takes in the keys of a run that begins where the walk stands, or before. Keys that the question doesn't ask for are passed over. If
// memory is refused it stops, and the next look goes on from there.
fn take_run(alloc: Global, cursor: &mut RowsCursor, run: Run)
    ensures taken { (from : ℕ) (all : List Version) (ps : List (Placed Admitted)) → IsOnward (Some from) (front_number cursor.old.front) → Reports all ps cursor.old.question.moment → Gathered all ps cursor.old
        → IsRun all (last_stamp cursor.old.question.moment) from run → Gathered all ps cursor.new }
    ensures onward { IsOnward (front_number cursor.old.front) (front_number cursor.new.front) }
    ensures question { cursor.new.question ≡ cursor.old.question }
{
    let Run { rows, high } = run;
    let mut last = None;
    for row in rows {
        let key = row.key;
        if !take_row(alloc, cursor, &last, row) {
            return;
        }
        last = Some(key);
    }
    take_end(alloc, cursor, &last, &high);
}

/// Takes in what a question's look has reached, and the keys of the run that begins where the look began. After a refusal what was gathered
/// is as it was; of the run less may be taken in.
pub(crate) fn take_rows(
    alloc: Global,
    cursor: &mut RowsCursor,
    reached: Reached,
    run: Run,
) -> Result<(), AllocError>
    ensures taken { (from : ℕ) (all : List Version) (ps : List (Placed Admitted)) → front_number cursor.old.front ≡ Some from → Reports all ps cursor.old.question.moment → Gathered all ps cursor.old
        → IsReached all (last_stamp cursor.old.question.moment) from (reached_as reached) → IsRun all (last_stamp cursor.old.question.moment) from run → OnOk result (Gathered all ps cursor.new) }
    ensures rose { (from : ℕ) → front_number cursor.old.front ≡ Some from → GoesOnFrom from reached → OnOk result (Rose (Some from) (front_number cursor.new.front)) }
    ensures question { cursor.new.question ≡ cursor.old.question }
    ensures same { OnErr result (IsSame cursor.old cursor.new) }
{
    cursor.take_reached(alloc, reached)?;
    take_run(alloc, cursor, run);
    Ok(())
}
