//! A question of a history, answered to its end.

ghost use Rattle.std.specs.Prelude.{◌≡◌, ◌<◌, ◌≤◌, ℕ, List, IfOk, IfErr, OnOk, Ok, Err, None, true, false, ◌↔◌, ◌+◌, IsErrOf, min};
ghost use Rattle.route_model.specs.Admission.{Admitted};
ghost use Rattle.route_meaning.specs.Merged.{Placed};
ghost use Rattle.route_meaning.specs.Events.{IsEventsAnswer};
ghost use Rattle.once_store.specs.Readers.{capacity_of, reader_disk};
ghost use Rattle.version_model.specs.Pages.{all_keys};
ghost use Rattle.version_model.specs.Versions.{Version};
ghost use Rattle.tsb_walk.specs.AllVersions.{VersionsRefusal};
ghost use Rattle.tsb_walk.specs.Refusals.{OnlyReads};
ghost use Rattle.tsb_walk.specs.Shown.{keys_at};
ghost use Rattle.route_history.specs.Blame.{BlamesNone};
ghost use Rattle.route_history.specs.Spans.{ReportsEvents, HasReportedSo};
ghost use Rattle.tree_questions.specs.Reading.{ReadsTree};
ghost use Rattle.tree_questions.specs.inner.Left.{stamps_left};

use crate::looks::part_from;
use disk_models::OnceDisk;
use once_store::ShelfReader;
use page_tx::Pages;
use route_history::EventsCursor;
use route_meaning::{EventsAnswer, EventsQuestion};
use route_model::Key;
use std::alloc::Global;
use tsb_node::stamp_fits;
use tsb_walk::{NodeError, PagePlace};

// One look for the versions of both keys. Returns whether the walk goes on.
fn take_look<P: Pages, O: OnceDisk + Drop>(
    pages: &mut P,
    reader: &mut ShelfReader<O>,
    seen: &mut O::Seen,
    alloc: Global,
    root: &PagePlace,
    burnt: u64,
    cursor: &mut EventsCursor,
) -> Result<bool, NodeError>
    requires all { keys_at root.now ≡ all_keys }
    requires level { 1 ≤ root.now.level }
    ensures reported { (all : List Version) (ps : List (Placed Admitted)) → ReadsTree P.Pages pages.old O.OnceDisk reader.old seen.old root.now burnt all → ReportsEvents all ps cursor.old.question → HasReportedSo all ps cursor.old → OnOk result (HasReportedSo all ps cursor.new) }
    ensures over { result ≡ Ok false → cursor.new.at ≡ None }
    ensures onward { result ≡ Ok true → stamps_left cursor.new.at < stamps_left cursor.old.at }
    ensures question { cursor.new.question ≡ cursor.old.question }
    ensures stays { (all : List Version) → ReadsTree P.Pages pages.old O.OnceDisk reader.old seen.old root.now burnt all → ReadsTree P.Pages pages.new O.OnceDisk reader.new seen.new root.now burnt all }
    ensures blames { (all : List Version) → ReadsTree P.Pages pages.old O.OnceDisk reader.old seen.old root.now burnt all → IfErr result BlamesNone }
    ensures refused { IfErr result (VersionsRefusal (P.down pages.old)) }
    ensures same { OnlyReads P.Pages pages.old pages.new (result ≡ Err NodeError.Fault) }
    ensures known { O.honest_seen (reader_disk reader.old) seen.old → O.known seen.new ≡ O.known seen.old }
    ensures disk { reader_disk reader.new ≡ reader_disk reader.old }
    ensures capacity { capacity_of reader.new ≡ capacity_of reader.old }
    ensures honest { O.honest_seen (reader_disk reader.old) seen.old ↔ O.honest_seen (reader_disk reader.old) seen.new }
    ensures quiet { (IsErrOf result NodeError.OnceFault → ⊥) → O.seen_fault_count seen.new ≡ O.seen_fault_count seen.old }
    ensures counted { IsErrOf result NodeError.OnceFault → O.seen_fault_count seen.new ≡ min (O.seen_fault_count seen.old + 1) 18446744073709551615 }
{
    let Some(from) = cursor.at else {
        return Ok(false);
    };
    stamp_fits(from);
    let route_key = Key::prefix(&cursor.question.peer, &cursor.question.prefix);
    let session_key = Key::session(&cursor.question.peer);
    let route = part_from(pages, reader, seen, alloc, root, burnt, route_key, from)?;
    let session = part_from(pages, reader, seen, alloc, root, burnt, session_key, from)?;
    cursor.take_parts(alloc, &route, &session)?;
    Ok(true)
}

/// Answers a question of a history over the tree whose root is at this place: the first 256 events after those that are to be
/// skipped, and whether more follow.
///
/// Each look passes a stamp, so it ends. Pages and blocks are read, and called damaged, and memory is taken, as `rows` does.
pub fn events<P: Pages, O: OnceDisk + Drop>(
    pages: &mut P,
    reader: &mut ShelfReader<O>,
    seen: &mut O::Seen,
    alloc: Global,
    root: &PagePlace,
    burnt: u64,
    question: EventsQuestion,
) -> Result<EventsAnswer, NodeError>
    requires all { keys_at root.now ≡ all_keys }
    requires level { 1 ≤ root.now.level }
    ensures answer { (all : List Version) (ps : List (Placed Admitted)) → ReadsTree P.Pages pages.old O.OnceDisk reader.old seen.old root.now burnt all → ReportsEvents all ps question → IfOk result (λ answer. IsEventsAnswer ps question answer.events.items answer.more) }
    ensures stays { (all : List Version) → ReadsTree P.Pages pages.old O.OnceDisk reader.old seen.old root.now burnt all → ReadsTree P.Pages pages.new O.OnceDisk reader.new seen.new root.now burnt all }
    ensures blames { (all : List Version) → ReadsTree P.Pages pages.old O.OnceDisk reader.old seen.old root.now burnt all → IfErr result BlamesNone }
    ensures refused { IfErr result (VersionsRefusal (P.down pages.old)) }
    ensures same { OnlyReads P.Pages pages.old pages.new (result ≡ Err NodeError.Fault) }
    ensures known { O.honest_seen (reader_disk reader.old) seen.old → O.known seen.new ≡ O.known seen.old }
    ensures disk { reader_disk reader.new ≡ reader_disk reader.old }
    ensures capacity { capacity_of reader.new ≡ capacity_of reader.old }
    ensures honest { O.honest_seen (reader_disk reader.old) seen.old ↔ O.honest_seen (reader_disk reader.old) seen.new }
    ensures quiet { (IsErrOf result NodeError.OnceFault → ⊥) → O.seen_fault_count seen.new ≡ O.seen_fault_count seen.old }
    ensures counted { IsErrOf result NodeError.OnceFault → O.seen_fault_count seen.new ≡ min (O.seen_fault_count seen.old + 1) 18446744073709551615 }
{
    let mut cursor = EventsCursor::start(alloc, question);
    loop {
        let goes_on = take_look(pages, reader, seen, alloc, root, burnt, &mut cursor)?;
        if !goes_on {
            return Ok(cursor.into_answer());
        }
    }
}
