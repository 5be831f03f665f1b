//! Laws of the definitions, each the contract of a function that does nothing.

ghost use Rattle.std.specs.Prelude.{◌≡◌, ◌<◌, ◌≤◌, ◌↔◌, ◌++◌, ℕ, List, Bool, Option, Some, length};
ghost use Rattle.std.specs.List.{AllByRecursion};
ghost use Rattle.route_model.specs.declared.peer.Peer.{Peer};
ghost use Rattle.route_model.specs.declared.route.Route.{Route};
ghost use Rattle.route_model.specs.declared.change.Change.{Change};
ghost use Rattle.route_model.specs.Prefix.{IpPrefix};
ghost use Rattle.route_model.specs.Admission.{Admitted, IsChange};
ghost use Rattle.route_meaning.specs.declared.question.Row.{Row};
ghost use Rattle.route_meaning.specs.declared.question.Event.{Event};
ghost use Rattle.route_meaning.specs.declared.question.Spot.{Spot};
ghost use Rattle.route_meaning.specs.declared.question.Select.{Select};
ghost use Rattle.route_meaning.specs.declared.question.RowsQuestion.{RowsQuestion};
ghost use Rattle.route_meaning.specs.declared.question.EventsQuestion.{EventsQuestion};
ghost use Rattle.route_meaning.specs.Merged.{Placed, merged, parts, IsInOrder, IsRising};
ghost use Rattle.route_meaning.specs.Holds.{Holds, admitted_time, changes_of};
ghost use Rattle.route_meaning.specs.Rows.{IsRange, AreRows, IsAnswer};
ghost use Rattle.route_meaning.specs.Events.{IsEventsAnswer};
ghost use Rattle.route_meaning.specs.History.{History, IsHistory, Begins, all_of, front, applied, settled};

/// The merged list is in order, has each collector's list as its part, and is the only such list.
pub fn merged_is_the_one()
    ensures order { (lists : List (List Admitted)) → IsInOrder admitted_time (merged admitted_time lists) }
    ensures parts { (lists : List (List Admitted)) → AllByRecursion (IsRising admitted_time) lists → parts 0 (length lists) (merged admitted_time lists) ≡ lists }
    ensures only { (lists : List (List Admitted)) (ps : List (Placed Admitted)) → IsInOrder admitted_time ps → AllByRecursion (λ p. p.collector < length lists) ps → parts 0 (length lists) ps ≡ lists → ps ≡ merged admitted_time lists }
{}

/// A question below the settled watermark has one answer: over what is applied then, and over all
/// that any history has which goes on from there.
pub fn settled_answers_stay()
    ensures holds { (h g : History) (moment : ℕ) (peer : Peer) (prefix : IpPrefix) (route : Route) → IsHistory h → Begins h g → moment < settled h → Holds (applied h) moment peer prefix route ↔ Holds (all_of g) moment peer prefix route }
    ensures range { (h g : History) (moment : ℕ) (select : Select) (low high : Option Spot) (rows : List Row) → IsHistory h → Begins h g → moment < settled h → AreRows (applied h) moment select low high rows ↔ AreRows (all_of g) moment select low high rows }
    ensures rows { (h g : History) (q : RowsQuestion) (rows : List Row) (more : Bool) → IsHistory h → Begins h g → q.moment < settled h → IsAnswer (applied h) q rows more ↔ IsAnswer (all_of g) q rows more }
    ensures events { (h g : History) (q : EventsQuestion) (reported : List Event) (more : Bool) → IsHistory h → Begins h g → q.to < settled h → IsEventsAnswer (applied h) q reported more ↔ IsEventsAnswer (all_of g) q reported more }
{}

/// What is applied, wholly or in part, stays the front of all that was admitted, and of the changes
/// that are applied later; a moment that was settled stays settled; each history begins itself, and
/// what begins a beginning begins the whole.
pub fn histories_go_on()
    ensures front { (h g : History) → IsHistory h → Begins h g → front h.whole h.some (all_of g) ≡ applied h }
    ensures applied { (h g : History) → IsHistory h → Begins h g → (more : List Change) × (changes_of (applied g) ≡ changes_of (applied h) ++ more) }
    ensures settled { (h g : History) (moment : ℕ) → IsHistory h → Begins h g → moment < settled h → moment < settled g }
    ensures itself { (h : History) → Begins h h }
    ensures chain { (h g f : History) → Begins h g → Begins g f → Begins h f }
{}

/// At most one route holds for a prefix of a peer at a moment, and a question has one answer, its
/// `more` included.
pub fn answers_are_one()
    ensures route { (ps : List (Placed Admitted)) (moment : ℕ) (peer : Peer) (prefix : IpPrefix) (r s : Route) → Holds ps moment peer prefix r → Holds ps moment peer prefix s → r ≡ s }
    ensures range { (ps : List (Placed Admitted)) (moment : ℕ) (select : Select) (low high : Option Spot) (xs ys : List Row) → AreRows ps moment select low high xs → AreRows ps moment select low high ys → xs ≡ ys }
    ensures rows { (ps : List (Placed Admitted)) (q : RowsQuestion) (xs ys : List Row) (m n : Bool) → IsAnswer ps q xs m → IsAnswer ps q ys n → (xs ≡ ys) × (m ≡ n) }
    ensures events { (ps : List (Placed Admitted)) (q : EventsQuestion) (xs ys : List Event) (m n : Bool) → IsEventsAnswer ps q xs m → IsEventsAnswer ps q ys n → (xs ≡ ys) × (m ≡ n) }
{}

/// The rows of a range and those of the range that follows it are together those of both.
pub fn ranges_join()
    ensures rows { (ps : List (Placed Admitted)) (moment : ℕ) (select : Select) (low : Option Spot) (mid : Spot) (high : Option Spot) (xs ys : List Row) → IsRange low (Some mid) → IsRange (Some mid) high → AreRows ps moment select low (Some mid) xs → AreRows ps moment select (Some mid) high ys → AreRows ps moment select low high (xs ++ ys) }
{}

/// Where the changes of the admissions are made of values, there are the rows of each range at each moment, and an answer to each
/// question of a moment.
pub fn answers_are_there()
    ensures range { (ps : List (Placed Admitted)) (moment : ℕ) (select : Select) (low high : Option Spot) → AllByRecursion (λ p. AllByRecursion IsChange p.item.changes) ps → (rows : List Row) × AreRows ps moment select low high rows }
    ensures rows { (ps : List (Placed Admitted)) (q : RowsQuestion) → AllByRecursion (λ p. AllByRecursion IsChange p.item.changes) ps → (rows : List Row) × (more : Bool) × IsAnswer ps q rows more }
{}
