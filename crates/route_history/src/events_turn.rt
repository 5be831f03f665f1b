//! Turns of a question of a history, and errands of two looks.

ghost use Rattle.std.specs.Prelude.{◌≡◌, ◌↔◌, ◌+◌, ℕ, List, Option, Some, None, IfOk, IfErr, OnOk, OnErr, IsErrOf, Err, min};
ghost use Rattle.route_model.specs.Admission.{Admitted};
ghost use Rattle.route_model.specs.Keys.{key_number, session_number};
ghost use Rattle.route_meaning.specs.Merged.{Placed};
ghost use Rattle.version_model.specs.Versions.{Version, IsRising};
ghost use Rattle.version_model.specs.Blocks.{BlockNode};
ghost use Rattle.version_model.specs.Looks.{IsPart};
ghost use Rattle.version_model.specs.Entries.{versions_of};
ghost use Rattle.once_store.specs.Readers.{capacity_of, reader_disk};
ghost use Rattle.tsb_walk.specs.Inside.{CachesInside};
ghost use Rattle.tsb_walk.specs.Knowing.{ReadsWell};
ghost use Rattle.route_history.specs.Blame.{BlamesNone};
ghost use Rattle.route_history.specs.Walks.{Rose};
ghost use Rattle.route_history.specs.Spans.{ReportsEvents, HasReportedSo, IsSameReporting};
ghost use Rattle.route_history.specs.Points.{PartsAt};
ghost use Rattle.route_history.specs.EventTurns.{HasFit, IsKnownPart, AreKnownParts, IsEventsTurn, IsEventsErrandOf, IsReportedSo};

use crate::events::EventsCursor;
use crate::versions::Versions;
use disk_models::OnceDisk;
use once_store::{BlockError, ShelfReader};
use route_meaning::EventsAnswer;
use route_model::Key;
use std::alloc::Global;
use std::mem;
use tsb_walk::{KeyVersions, NodeError, Parted, hist_part};
use version_model::Stamp;

/// What is to be looked for in the past, from one stamp on: the versions of the prefix or of the session, or of both.
#[derive(Debug, Drop)]
pub struct EventsErrand {
    pub from: Stamp,
    pub route: Parted,
    pub session: Parted,
}

/// The result of a turn of a question of a history.
#[derive(Debug, Drop)]
pub enum EventsTurn {
    /// The whole answer. The cursor is spent.
    Done(EventsAnswer),
    /// The walk has come further.
    Again,
    /// The walk goes on in the past.
    Historical(EventsErrand),
}

impl EventsCursor {
    // The answer.
    fn report(&mut self, alloc: Global) -> EventsAnswer
        ensures events { result.events.items ≡ self.old.reported.items }
        ensures more { result.more ≡ self.old.more }
        ensures question { self.new.question ≡ self.old.question }
    {
        EventsAnswer {
            events: mem::replace(&mut self.reported, Vec::new(alloc)),
            more: self.more,
        }
    }

    // The answer if the walk is over, or else that it goes on.
    fn reported(&mut self, alloc: Global) -> EventsTurn
        ensures reported { IsReportedSo self.old self.new result }
        ensures question { self.new.question ≡ self.old.question }
    {
        match self.at {
            None => EventsTurn::Done(self.report(alloc)),
            Some(_) => EventsTurn::Again,
        }
    }
}

/// One turn: the versions of the prefix and of the session from one stamp on. If some lie in the past, the errand goes on
/// there without the store. After a refusal the cursor holds the same as before.
pub fn take_events_turn<V: Versions>(
    versions: &mut V,
    alloc: Global,
    cursor: &mut EventsCursor,
) -> Result<EventsTurn, NodeError>
    ensures turn { IfOk result (λ turn. (blocks : ℕ → Option BlockNode) (all : List Version) (ps : List (Placed Admitted)) → V.represents_all versions.old blocks all → ReportsEvents all ps cursor.old.question → HasReportedSo all ps cursor.old → IsEventsTurn blocks all ps cursor.old cursor.new turn) }
    ensures fits { IfOk result (λ turn. HasFit cursor.new turn) }
    ensures refused { OnErr result (IsSameReporting cursor.old cursor.new) }
    ensures blames { IfErr result (λ refusal. (blocks : ℕ → Option BlockNode) (all : List Version) → V.represents_all versions.old blocks all → BlamesNone refusal) }
    ensures question { cursor.new.question ≡ cursor.old.question }
    ensures kept { (blocks : ℕ → Option BlockNode) (all : List Version) → V.represents_all versions.old blocks all → V.represents_all versions.new blocks all }
{
    let Some(at) = cursor.at else {
        return Ok(EventsTurn::Done(cursor.report(alloc)));
    };
    let route_key = Key::prefix(&cursor.question.peer, &cursor.question.prefix);
    let session_key = Key::session(&cursor.question.peer);
    let route = versions.part(route_key, at)?;
    let session = versions.part(session_key, at)?;
    match (route, session) {
        (Parted::Here(route), Parted::Here(session)) => {
            cursor.take(alloc, at, &route, &session)?;
            Ok(cursor.reported(alloc))
        }
        (route, session) => Ok(EventsTurn::Historical(EventsErrand {
            from: at,
            route,
            session,
        })),
    }
}

// The versions, read from a block if they lie there.
fn part_of<O: OnceDisk + Drop>(
    reader: &mut ShelfReader<O>,
    seen: &mut O::Seen,
    alloc: Global,
    parted: Parted,
    key: Key,
    from: Stamp,
) -> Result<KeyVersions, BlockError>
    requires point { PartsAt key from parted }
    ensures part { (all : List Version) → IsRising all → IsKnownPart O.OnceDisk reader.old seen.old all key from parted → IfOk result (λ part. IsPart all key from (versions_of part.entries.items) part.reported) }
    ensures reads { (all : List Version) → IsKnownPart O.OnceDisk reader.old seen.old all key from parted → ReadsWell O.OnceDisk reader.new seen.new }
    ensures never { (all : List Version) → IsKnownPart O.OnceDisk reader.old seen.old all key from parted → (block : ℕ) → result ≡ Err (BlockError.Damaged block) → ⊥ }
    ensures inside { CachesInside O.OnceDisk reader.old → CachesInside O.OnceDisk reader.new }
    ensures same { O.honest_seen (reader_disk reader.old) seen.old → O.known seen.new ≡ O.known seen.old }
    ensures disk { reader_disk reader.new ≡ reader_disk reader.old }
    ensures capacity { capacity_of reader.new ≡ capacity_of reader.old }
    ensures honest { O.honest_seen (reader_disk reader.old) seen.old ↔ O.honest_seen (reader_disk reader.old) seen.new }
    ensures quiet { (IsErrOf result BlockError.Fault → ⊥) → O.seen_fault_count seen.new ≡ O.seen_fault_count seen.old }
    ensures counted { IsErrOf result BlockError.Fault → O.seen_fault_count seen.new ≡ min (O.seen_fault_count seen.old + 1) 18446744073709551615 }
{
    match parted {
        Parted::Here(part) => Ok(part),
        Parted::InBlock(place) => hist_part(reader, seen, alloc, &place, key, from),
    }
}

impl EventsErrand {
    /// Finishes the turn in the past: the cursor has then gathered as much as the turn would have gathered, and its stamp has risen. It
    /// must be as its turn left it. A refusal leaves it so, and a fault is counted once. It takes no lock, and waits for nothing but
    /// the disk.
    pub fn finish<O: OnceDisk + Drop>(
        self,
        reader: &mut ShelfReader<O>,
        seen: &mut O::Seen,
        alloc: Global,
        cursor: &mut EventsCursor,
    ) -> Result<(), BlockError>
        requires fits { IsEventsErrandOf cursor.old self }
        ensures finished { (all : List Version) (ps : List (Placed Admitted)) → AreKnownParts O.OnceDisk reader.old seen.old all cursor.old self → ReportsEvents all ps cursor.old.question → HasReportedSo all ps cursor.old → OnOk result (HasReportedSo all ps cursor.new × Rose cursor.old.at cursor.new.at) }
        ensures question { cursor.new.question ≡ cursor.old.question }
        ensures refused { OnErr result (IsSameReporting cursor.old cursor.new) }
        ensures reads { (all : List Version) → AreKnownParts O.OnceDisk reader.old seen.old all cursor.old self → ReadsWell O.OnceDisk reader.new seen.new }
        ensures never { (all : List Version) → AreKnownParts O.OnceDisk reader.old seen.old all cursor.old self → (block : ℕ) → result ≡ Err (BlockError.Damaged block) → ⊥ }
        ensures inside { CachesInside O.OnceDisk reader.old → CachesInside O.OnceDisk reader.new }
        ensures same { O.honest_seen (reader_disk reader.old) seen.old → O.known seen.new ≡ O.known seen.old }
        ensures disk { reader_disk reader.new ≡ reader_disk reader.old }
        ensures capacity { capacity_of reader.new ≡ capacity_of reader.old }
        ensures honest { O.honest_seen (reader_disk reader.old) seen.old ↔ O.honest_seen (reader_disk reader.old) seen.new }
        ensures quiet { (IsErrOf result BlockError.Fault → ⊥) → O.seen_fault_count seen.new ≡ O.seen_fault_count seen.old }
        ensures counted { IsErrOf result BlockError.Fault → O.seen_fault_count seen.new ≡ min (O.seen_fault_count seen.old + 1) 18446744073709551615 }
    {
        let route_key = Key::prefix(&cursor.question.peer, &cursor.question.prefix);
        let session_key = Key::session(&cursor.question.peer);
        let from = self.from;
        let route = part_of(reader, seen, alloc, self.route, route_key, from)?;
        let session = part_of(reader, seen, alloc, self.session, session_key, from)?;
        cursor.take(alloc, from, &route, &session)?;
        Ok(())
    }
}
