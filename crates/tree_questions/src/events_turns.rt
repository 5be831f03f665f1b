//! Turns of a question of a history over current pages alone: two looks each. What lies in the past is left to an errand.

ghost use Rattle.std.specs.Prelude.{◌≡◌, ◌≤◌, ℕ, List, IfOk, IfErr, Err, None};
ghost use Rattle.route_model.specs.Admission.{Admitted};
ghost use Rattle.route_meaning.specs.Events.{IsEventsAnswer};
ghost use Rattle.route_meaning.specs.Merged.{Placed};
ghost use Rattle.version_model.specs.Pages.{Store, all_keys};
ghost use Rattle.version_model.specs.Versions.{Version};
ghost use Rattle.tsb_walk.specs.Looked.{IsParted, PartsBelow};
ghost use Rattle.tsb_walk.specs.Refusals.{LookRefusal, OnlyReads};
ghost use Rattle.tsb_walk.specs.Shown.{keys_at};
ghost use Rattle.route_history.specs.Blame.{BlamesNone};
ghost use Rattle.route_history.specs.Points.{PartsAt};
ghost use Rattle.route_history.specs.Spans.{ReportsEvents, HasReportedSo};
ghost use Rattle.tree_questions.specs.Turning.{RepresentsTree, TurnsEvents, GoesOnEvents, EventsBelow};
ghost use Rattle.tree_questions.specs.inner.Reporting.{KeepsEvents, ReportsOn, ReportedEvents};

use crate::naming::part_named;
use page_tx::Pages;
use route_history::{EventsCursor, EventsErrand, EventsTurn};
use route_meaning::EventsAnswer;
use route_model::Key;
use std::alloc::Global;
use std::mem;
use tsb_node::{key_fits, stamp_fits};
use tsb_walk::{NodeError, PagePlace, Parted};
use version_model::Stamp;

// The answer of a walk that is over. The cursor is then at the start of its question again.
fn take_answer(alloc: Global, cursor: &mut EventsCursor) -> EventsAnswer
    ensures answer { (all : List Version) (ps : List (Placed Admitted)) → HasReportedSo all ps cursor.old → cursor.old.at ≡ None → IsEventsAnswer ps cursor.old.question result.events.items result.more }
    ensures anew { (all : List Version) (ps : List (Placed Admitted)) → ReportsEvents all ps cursor.old.question → HasReportedSo all ps cursor.new }
    ensures question { cursor.new.question ≡ cursor.old.question }
{
    let anew = EventsCursor::start(alloc, cursor.question);
    mem::replace(cursor, anew).into_answer()
}

// The answer if the walk is over; or that it goes on.
fn report(alloc: Global, cursor: &mut EventsCursor) -> EventsTurn
    ensures reported { (all : List Version) (ps : List (Placed Admitted)) → HasReportedSo all ps cursor.old → ReportedEvents ps cursor.old cursor.new result }
    ensures goes_on { KeepsEvents cursor.old cursor.new result }
    ensures gathered { (all : List Version) (ps : List (Placed Admitted)) → ReportsEvents all ps cursor.old.question → HasReportedSo all ps cursor.old → HasReportedSo all ps cursor.new }
    ensures question { cursor.new.question ≡ cursor.old.question }
{
    match cursor.at {
        None => EventsTurn::Done(take_answer(alloc, cursor)),
        Some(_) => EventsTurn::Again,
    }
}

// A look for the versions of a key from a stamp on, by current pages.
fn look<P: Pages>(
    pages: &mut P,
    alloc: Global,
    root: &PagePlace,
    burnt: u64,
    key: Key,
    from: Stamp,
) -> Result<Parted, NodeError>
    requires all { keys_at root.now ≡ all_keys }
    requires level { 1 ≤ root.now.level }
    ensures part { (store : Store) (all : List Version) → RepresentsTree P.Pages pages.old root.now burnt store all → IfOk result (IsParted store.blocks all key from) }
    ensures stays { (store : Store) (all : List Version) → RepresentsTree P.Pages pages.old root.now burnt store all → RepresentsTree P.Pages pages.new root.now burnt store all }
    ensures point { IfOk result (PartsAt key from) }
    ensures onward { IfOk result (ReportsOn from) }
    ensures named { IfOk result (PartsBelow burnt) }
    ensures blames { (store : Store) (all : List Version) → RepresentsTree P.Pages pages.old root.now burnt store all → IfErr result BlamesNone }
    ensures refused { IfErr result (LookRefusal (P.down pages.old)) }
    ensures same { OnlyReads P.Pages pages.old pages.new (result ≡ Err NodeError.Fault) }
{
    key_fits(key);
    stamp_fits(from);
    part_named(pages, alloc, root, burnt, key, from)
}

/// One turn of a question of a history over the tree whose root is at this place: the versions of the prefix and of the peer's session from
/// one stamp on. If some lie in the past, the errand goes on there without the pages.
///
/// Each turn passes a stamp, but for one that leaves an errand, which passes it when it is finished. Pages are read, and called damaged, and
/// memory is taken, as `rows_turn` does; the cursor is left as it leaves one.
pub fn events_turn<P: Pages>(
    pages: &mut P,
    alloc: Global,
    root: &PagePlace,
    burnt: u64,
    cursor: &mut EventsCursor,
) -> Result<EventsTurn, NodeError>
    requires all { keys_at root.now ≡ all_keys }
    requires level { 1 ≤ root.now.level }
    ensures turn { (store : Store) (all : List Version) (ps : List (Placed Admitted)) → RepresentsTree P.Pages pages.old root.now burnt store all → ReportsEvents all ps cursor.old.question → HasReportedSo all ps cursor.old → IfOk result (TurnsEvents store.blocks all ps cursor.old cursor.new) }
    ensures goes_on { IfOk result (GoesOnEvents cursor.old cursor.new) }
    ensures burnt { IfOk result (EventsBelow burnt) }
    ensures gathered { (store : Store) (all : List Version) (ps : List (Placed Admitted)) → RepresentsTree P.Pages pages.old root.now burnt store all → ReportsEvents all ps cursor.old.question → HasReportedSo all ps cursor.old → HasReportedSo all ps cursor.new }
    ensures question { cursor.new.question ≡ cursor.old.question }
    ensures blames { (store : Store) (all : List Version) → RepresentsTree P.Pages pages.old root.now burnt store all → IfErr result BlamesNone }
    ensures refused { IfErr result (LookRefusal (P.down pages.old)) }
    ensures same { OnlyReads P.Pages pages.old pages.new (result ≡ Err NodeError.Fault) }
{
    let Some(from) = cursor.at else {
        return Ok(EventsTurn::Done(take_answer(alloc, cursor)));
    };
    let route_key = Key::prefix(&cursor.question.peer, &cursor.question.prefix);
    let session_key = Key::session(&cursor.question.peer);
    let route = look(pages, alloc, root, burnt, route_key, from)?;
    let session = look(pages, alloc, root, burnt, session_key, from)?;
    match (route, session) {
        (Parted::Here(route), Parted::Here(session)) => {
            cursor.take_parts(alloc, &route, &session)?;
            Ok(report(alloc, cursor))
        }
        (route, session) => Ok(EventsTurn::Historical(EventsErrand {
            from,
            route,
            session,
        })),
    }
}
