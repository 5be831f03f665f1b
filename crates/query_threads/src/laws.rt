//! Laws of what passes see, each the contract of a function that does nothing.
ghost use Rattle.std.specs.Prelude.{◌<◌, ◌≤◌, ℕ, slice_index};
ghost use Rattle.route_meaning.specs.History.{applied, settled};
ghost use Rattle.interleaving_core.specs.declared.query.Query.{Query};
ghost use Rattle.interleaving_core.specs.declared.query.Answer.{Answer};
ghost use Rattle.interleaving_core.specs.Does.{last_moment};
ghost use Rattle.interleaving_core.specs.Headline.{IsAnswered};
ghost use Rattle.board.specs.Views.{View, BeginsView, with_seen};
ghost use Rattle.query_threads.specs.Asking.{IsSameAnswer};

/// A question that a pass asks again has the same answer: if its last moment was below the settled watermark of what
/// the pass had seen at the first answer, that answer is the one over all that the pass sees later.
pub fn answers_stay()
    ensures same { (v w : View) (query : Query) (first later : Answer) → BeginsView v w → last_moment query < settled v.past.history → IsAnswered (applied v.past.history) query first → IsAnswered (applied w.past.history) query later → IsSameAnswer first later }
    ensures stays { (v w : View) (query : Query) (answer : Answer) → BeginsView v w → last_moment query < settled v.past.history → IsAnswered (applied v.past.history) query answer → IsAnswered (applied w.past.history) query answer }
{}

/// What a pass sees goes on from call to call: a view that begins a beginning begins the whole; and a load of a word goes
/// on, which finds a number not below the one seen before.
pub fn views_go_on()
    ensures chain { (u v w : View) → BeginsView u v → BeginsView v w → BeginsView u w }
    ensures load { (v w : View) (i n : ℕ) → BeginsView v w → slice_index w.numbers i ≤ n → BeginsView v (with_seen w i n) }
{}
