//! What questions look for next, and what their cursors take in of what was found: for a caller that makes the looks itself.

ghost use Rattle.std.specs.Prelude.{◌≡◌, ℕ, List, Some, None, IfSome, OnOk, OnErr};
ghost use Rattle.route_model.specs.Admission.{Admitted};
ghost use Rattle.route_model.specs.Keys.{key_number, session_number};
ghost use Rattle.route_meaning.specs.Events.{IsEventsAnswer};
ghost use Rattle.route_meaning.specs.Merged.{Placed};
ghost use Rattle.route_meaning.specs.Rows.{IsAnswer};
ghost use Rattle.version_model.specs.Entries.{versions_of};
ghost use Rattle.version_model.specs.Looks.{IsPart, IsReached};
ghost use Rattle.version_model.specs.Versions.{Version};
ghost use Rattle.tsb_walk.specs.Answers.{reached_as};
ghost use Rattle.tsb_walk.specs.Looked.{GoesOnFrom, ReportsFrom};
ghost use Rattle.route_history.specs.Fronts.{front_number};
ghost use Rattle.route_history.specs.Spans.{ReportsEvents, HasReportedSo, IsSameReporting};
ghost use Rattle.route_history.specs.Stamps.{last_stamp};
ghost use Rattle.route_history.specs.Walks.{Reports, Gathered, Rose, NotBack, IsSame};

use crate::events::EventsCursor;
use crate::rows::RowsCursor;
use crate::rows_turn::last_stamp;
use route_meaning::{EventsAnswer, RowsAnswer};
use route_model::Key;
use std::alloc::{AllocError, Global};
use tsb_walk::{KeyVersions, Reached};
use version_model::Stamp;

/// What a question of a moment looks for: the next key from this one on, itself included, that has a value as of the stamp.
#[derive(Clone, Copy, Debug)]
pub struct RowsLook {
    pub from: Key,
    pub stamp: Stamp,
}

impl RowsCursor {
    /// The next look of the question, or None if its walk is over. Keys that the question doesn't ask for are leapt over.
    pub fn next_look(&mut self) -> Option<RowsLook>
        ensures gathered { (all : List Version) (ps : List (Placed Admitted)) → Reports all ps self.old.question.moment → Gathered all ps self.old → Gathered all ps self.new }
        ensures over { result ≡ None → self.new.front ≡ None }
        ensures from { IfSome result (λ look. front_number self.new.front ≡ Some look.from) }
        ensures stamp { IfSome result (λ look. look.stamp ≡ last_stamp self.old.question.moment) }
        ensures onward { IfSome result (λ look. NotBack (front_number self.old.front) (Some look.from)) }
        ensures question { self.new.question ≡ self.old.question }
    {
        let Some(front) = self.leap() else {
            return None;
        };
        let Some(from) = front.first() else {
            self.front = None;
            return None;
        };
        let stamp = last_stamp(self.question.moment);
        Some(RowsLook { from, stamp })
    }

    /// Takes in what its look has reached. After a refusal the cursor holds the same as before.
    pub fn take_reached(&mut self, alloc: Global, reached: Reached) -> Result<(), AllocError>
        ensures taken { (from : ℕ) (all : List Version) (ps : List (Placed Admitted)) → front_number self.old.front ≡ Some from → Reports all ps self.old.question.moment → Gathered all ps self.old → IsReached all (last_stamp self.old.question.moment) from (reached_as reached) → OnOk result (Gathered all ps self.new) }
        ensures rose { (from : ℕ) → front_number self.old.front ≡ Some from → GoesOnFrom from reached → OnOk result (Rose (Some from) (front_number self.new.front)) }
        ensures question { self.new.question ≡ self.old.question }
        ensures same { OnErr result (IsSame self.old self.new) }
    {
        let Some(front) = self.front else {
            return Ok(());
        };
        self.take(alloc, front, reached)?;
        Ok(())
    }

    /// The rows so far, and whether more follow: once the walk is over, the answer.
    pub fn into_answer(self) -> RowsAnswer
        ensures answer { (all : List Version) (ps : List (Placed Admitted)) → Gathered all ps self → self.front ≡ None → IsAnswer ps self.question result.rows.items result.more }
    {
        RowsAnswer {
            rows: self.rows,
            more: self.more,
        }
    }
}

impl EventsCursor {
    /// Takes in the versions of the prefix and those of the peer's session, from the stamp on to which the walk has come. After a
    /// refusal the cursor holds the same as before.
    pub fn take_parts(
        &mut self,
        alloc: Global,
        route: &KeyVersions,
        session: &KeyVersions,
    ) -> Result<(), AllocError>
        ensures taken { (at : ℕ) (all : List Version) (ps : List (Placed Admitted)) → self.old.at ≡ Some at → ReportsEvents all ps self.old.question → HasReportedSo all ps self.old → IsPart all (key_number self.old.question.peer self.old.question.prefix) at (versions_of route.now.entries.items) route.now.reported → IsPart all (session_number self.old.question.peer) at (versions_of session.now.entries.items) session.now.reported → OnOk result (HasReportedSo all ps self.new) }
        ensures rose { (at : ℕ) → self.old.at ≡ Some at → ReportsFrom at route.now → ReportsFrom at session.now → OnOk result (Rose (Some at) self.new.at) }
        ensures question { self.new.question ≡ self.old.question }
        ensures same { OnErr result (IsSameReporting self.old self.new) }
    {
        let Some(at) = self.at else {
            return Ok(());
        };
        self.take(alloc, at, route, session)?;
        Ok(())
    }

    /// The events so far, and whether more follow: once the walk is over, the answer.
    pub fn into_answer(self) -> EventsAnswer
        ensures answer { (all : List Version) (ps : List (Placed Admitted)) → HasReportedSo all ps self → self.at ≡ None → IsEventsAnswer ps self.question result.events.items result.more }
    {
        EventsAnswer {
            events: self.reported,
            more: self.more,
        }
    }
}
