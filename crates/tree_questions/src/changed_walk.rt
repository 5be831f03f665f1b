//! A question of which prefixes changed: a look of its walk.

ghost use Rattle.std.specs.Prelude.{◌≡◌, ◌<◌, ◌≤◌, ◌↔◌, ◌+◌, List, IfOk, IfErr, IfNone, IfSome, IsErrOf, Err, min};
ghost use Rattle.route_model.specs.Admission.{Admitted};
ghost use Rattle.route_meaning.specs.Changed.{IsChangedAnswer};
ghost use Rattle.route_meaning.specs.Merged.{Placed};
ghost use Rattle.once_store.specs.Readers.{capacity_of, reader_disk};
ghost use Rattle.version_model.specs.Pages.{all_keys};
ghost use Rattle.version_model.specs.Versions.{Version};
ghost use Rattle.tsb_walk.specs.AllVersions.{VersionsRefusal};
ghost use Rattle.tsb_walk.specs.Inside.{CachesInside};
ghost use Rattle.tsb_walk.specs.Refusals.{OnlyReads};
ghost use Rattle.tsb_walk.specs.Shown.{keys_at};
ghost use Rattle.route_history.specs.Blame.{BlamesNone};
ghost use Rattle.route_history.specs.Changes.{HasChangedSo, ReportsChanged};
ghost use Rattle.route_history.specs.Walks.{left_of};
ghost use Rattle.tree_questions.specs.Reading.{ReadsTree};

use crate::touched::touched_keys;
use disk_models::OnceDisk;
use once_store::ShelfReader;
use page_tx::Pages;
use route_history::ChangedCursor;
use route_meaning::ChangedAnswer;
use std::alloc::Global;
use tsb_node::key_fits;
use tsb_walk::{NodeError, PagePlace};

/// A look of a walk over what changed, by the tree whose root is at this place: at the keys of one column, from where the walk has come.
/// Once the walk is over a look returns the whole answer.
///
/// It reads the column's current leaf if the span meets it, and each leaf of its past that the span meets. Each look passes a key, so a walk
/// ends. Pages and blocks are read, and called damaged, and memory is taken, as `rows` does. A cursor whose look was refused isn't used again.
pub fn changed_look<P: Pages, O: OnceDisk + Drop>(
    pages: &mut P,
    reader: &mut ShelfReader<O>,
    seen: &mut O::Seen,
    alloc: Global,
    root: &PagePlace,
    burnt: u64,
    cursor: &mut ChangedCursor,
) -> Result<Option<ChangedAnswer>, NodeError>
    requires all { keys_at root.now ≡ all_keys }
    requires level { 1 ≤ root.now.level }
    ensures changed { (all : List Version) (ps : List (Placed Admitted)) → ReadsTree P.Pages pages.old O.OnceDisk reader.old seen.old root.now burnt all → ReportsChanged all ps cursor.old.question → HasChangedSo ps cursor.old → IfOk result (λ found. IfNone found (HasChangedSo ps cursor.new)) }
    ensures answer { (all : List Version) (ps : List (Placed Admitted)) → ReadsTree P.Pages pages.old O.OnceDisk reader.old seen.old root.now burnt all → ReportsChanged all ps cursor.old.question → HasChangedSo ps cursor.old → IfOk result (λ found. IfSome found (λ answer. IsChangedAnswer ps cursor.old.question answer.spots.items answer.more)) }
    ensures onward { IfOk result (λ found. IfNone found (left_of cursor.new.front < left_of cursor.old.front)) }
    ensures question { cursor.new.question ≡ cursor.old.question }
    ensures stays { (all : List Version) → ReadsTree P.Pages pages.old O.OnceDisk reader.old seen.old root.now burnt all → ReadsTree P.Pages pages.new O.OnceDisk reader.new seen.new root.now burnt all }
    ensures blames { (all : List Version) → ReadsTree P.Pages pages.old O.OnceDisk reader.old seen.old root.now burnt all → IfErr result BlamesNone }
    ensures refused { IfErr result (VersionsRefusal (P.down pages.old)) }
    ensures same { OnlyReads P.Pages pages.old pages.new (result ≡ Err NodeError.Fault) }
    ensures on_disk { CachesInside O.OnceDisk reader.old → CachesInside O.OnceDisk reader.new }
    ensures known { O.honest_seen (reader_disk reader.old) seen.old → O.known seen.new ≡ O.known seen.old }
    ensures disk { reader_disk reader.new ≡ reader_disk reader.old }
    ensures capacity { capacity_of reader.new ≡ capacity_of reader.old }
    ensures honest { O.honest_seen (reader_disk reader.old) seen.old ↔ O.honest_seen (reader_disk reader.old) seen.new }
    ensures quiet { (IsErrOf result NodeError.OnceFault → ⊥) → O.seen_fault_count seen.new ≡ O.seen_fault_count seen.old }
    ensures counted { IsErrOf result NodeError.OnceFault → O.seen_fault_count seen.new ≡ min (O.seen_fault_count seen.old + 1) 18446744073709551615 }
{
    let Some(from) = cursor.front else {
        return Ok(Some(cursor.take_answer(alloc)));
    };
    key_fits(from);
    let first = cursor.first();
    let end = cursor.end();
    let touched = touched_keys(pages, reader, seen, alloc, root, burnt, from, first, end)?;
    cursor.take_keys(touched.keys, touched.high)?;
    Ok(None)
}
