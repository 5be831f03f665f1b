//! Laws of applied changes as versions, and of what cursors have gathered: each the contract of a function that does nothing.

ghost use Rattle.std.specs.Prelude.{◌≡◌, ◌↔◌, ◌<◌, ◌≤◌, ◌++◌, ◌∷◌, [], length, ℕ, List};
ghost use Rattle.std.specs.List.{AllZip, AllByRecursion};
ghost use Rattle.route_model.specs.Admission.{Admitted};
ghost use Rattle.route_model.specs.Prefix.{IsPrefix};
ghost use Rattle.route_model.specs.Encoding.{IsPeer};
ghost use Rattle.route_meaning.specs.declared.question.ChangedQuestion.{ChangedQuestion};
ghost use Rattle.route_meaning.specs.declared.question.EventsQuestion.{EventsQuestion};
ghost use Rattle.route_meaning.specs.Merged.{Placed, IsRising};
ghost use Rattle.route_meaning.specs.Holds.{time_of};
ghost use Rattle.route_meaning.specs.History.{History, IsHistory, Begins, applied, settled};
ghost use Rattle.version_model.specs.Versions.{Version, IsRising as AreStampsInOrder};
ghost use Rattle.route_history.specs.declared.rows.RowsCursor.{RowsCursor};
ghost use Rattle.route_history.specs.declared.events.EventsCursor.{EventsCursor};
ghost use Rattle.route_history.specs.Stamps.{stamp_of};
ghost use Rattle.route_history.specs.Kept.{Timed, timed, IsVersion, HaveVersions};
ghost use Rattle.route_history.specs.Growing.{AreBefore};
ghost use Rattle.route_history.specs.Walks.{Reports, Gathered, GoesOn, IsSameVersion};
ghost use Rattle.route_history.specs.Changes.{HasChangedSo, ReportsChanged};
ghost use Rattle.route_history.specs.declared.changed.ChangedCursor.{ChangedCursor};
ghost use Rattle.route_history.specs.Spans.{ReportsEvents, HasReportedSo, EventsGoOn};

/// What follows if the versions are those of the applied changes, whose times never fall: which route holds at a moment is what
/// two lookups at its greatest stamp return, compared by stamp; the events of a span are the versions of the two keys in it; the spots that
/// changed in it are those of which a version is in it; and the stamps rise.
pub fn versions_report()
    ensures rows { (ps : List (Placed Admitted)) (all : List Version) (moment : ℕ) → IsRising time_of ps → HaveVersions ps all → Reports all ps moment }
    ensures events { (ps : List (Placed Admitted)) (all : List Version) (q : EventsQuestion) → IsRising time_of ps → HaveVersions ps all → IsPeer q.peer → IsPrefix q.prefix → ReportsEvents all ps q }
    ensures changed { (ps : List (Placed Admitted)) (all : List Version) (q : ChangedQuestion) → HaveVersions ps all → ReportsChanged all ps q }
    ensures stamps { (ps : List (Placed Admitted)) (all : List Version) → IsRising time_of ps → HaveVersions ps all → AreStampsInOrder all }
{}

/// With the version of the next change, whose number is how many versions there are, the versions are again those of the applied
/// changes; and its stamp is above theirs if its time is no earlier than theirs.
pub fn kept_goes_on()
    ensures more { (ps qs : List (Placed Admitted)) (all : List Version) (t : Timed) (v : Version) → timed qs ≡ timed ps ++ t ∷ [] → HaveVersions ps all → IsVersion (length all) t v → HaveVersions qs (all ++ v ∷ []) }
    ensures before { (ps : List (Placed Admitted)) (all : List Version) (time : ℕ) → AllByRecursion (λ p. time_of p ≤ time) ps → HaveVersions ps all → AreBefore (stamp_of time (length all)) all }
{}

/// What a cursor has gathered stays right when more changes are applied, none of which counts at its moment, or in its span.
pub fn gathered_goes_on()
    ensures rows { (all new : List Version) (ps qs : List (Placed Admitted)) (c : RowsCursor) → GoesOn all new ps qs c.question.moment → Gathered all ps c → Gathered new qs c }
    ensures events { (all new : List Version) (ps qs : List (Placed Admitted)) (c : EventsCursor) → EventsGoOn all new ps qs c.question → HasReportedSo all ps c → HasReportedSo new qs c }
{}

/// What a cursor has gathered doesn't rest on which values the ends of sessions have: it is the same of all versions that have the
/// same keys, stamps and ends.
pub fn gathered_alike()
    ensures { (vs ws : List Version) (ps : List (Placed Admitted)) (c : RowsCursor) → AllZip IsSameVersion vs ws → Gathered vs ps c → Gathered ws ps c }
{}

/// What a cursor has gathered over a history is right over each later one too, whatever the versions of both are, if the last moment
/// that it asks about was settled.
pub fn gathered_follows_histories()
    ensures rows { (h g : History) (all new : List Version) (c : RowsCursor) → IsHistory h → IsHistory g → Begins h g → c.question.moment < settled h → HaveVersions (applied h) all → HaveVersions (applied g) new → Gathered all (applied h) c → Gathered new (applied g) c }
    ensures events { (h g : History) (all new : List Version) (c : EventsCursor) → IsHistory h → IsHistory g → Begins h g → c.question.to < settled h → IsPeer c.question.peer → IsPrefix c.question.prefix → HaveVersions (applied h) all → HaveVersions (applied g) new → HasReportedSo all (applied h) c → HasReportedSo new (applied g) c }
    ensures changed { (h g : History) (c : ChangedCursor) → IsHistory h → IsHistory g → Begins h g → c.question.to < settled h → HasChangedSo (applied h) c → HasChangedSo (applied g) c }
{}
