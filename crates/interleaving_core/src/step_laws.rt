//! Laws of the steps of a history, and of a question's turns.

ghost use Rattle.std.specs.Prelude.{◌≡◌, ◌<◌, ◌++◌, ℕ, List, Some, false, slice_get, slice_set};
ghost use Rattle.route_model.specs.Admission.{Admitted};
ghost use Rattle.route_meaning.specs.History.{Begins, History, applied, settled};
ghost use Rattle.interleaving_core.specs.declared.query.Answer.{Answer};
ghost use Rattle.interleaving_core.specs.declared.query.Query.{Query};
ghost use Rattle.interleaving_core.specs.declared.question.Question.TheVariants.{Ended};
ghost use Rattle.interleaving_core.specs.declared.reply.Reply.TheVariants.{Done};
ghost use Rattle.interleaving_core.specs.declared.step.Reach.TheVariants.{End};
ghost use Rattle.interleaving_core.specs.declared.step.Step.TheVariants.{Turn};
ghost use Rattle.interleaving_core.specs.Does.{Does, last_moment};
ghost use Rattle.interleaving_core.specs.Headline.{IsAnswered};
ghost use Rattle.interleaving_core.specs.Steps.{Applies, IsMarkAbove, given, marked};
ghost use Rattle.interleaving_core.specs.World.{World, started, with_questions};

/// What a collector gives in two batches, one after the other, is what it gives in one.
pub fn batches_are_one()
    ensures one { (h : History) (c : ℕ) (a b : List Admitted) → given (given h c a) c b ≡ given h c (a ++ b) }
{}

/// Each step goes on from the history before it: what was answered below its settled watermark stays the answer.
pub fn steps_go_on()
    ensures given { (h : History) (c : ℕ) (batch : List Admitted) → Begins h (given h c batch) }
    ensures marked { (h : History) (c mark : ℕ) → (IsMarkAbove h c mark → ⊥) → Begins h (marked h c mark) }
    ensures applied { (h g : History) → Applies h g → Begins h g }
{}

/// An answer of a settled moment that is right over what is applied is given by one turn, to its end, of the question as it was begun. So a question that
/// is answered so is one of a run, with whatever steps were made since it began, and what is true of every run is true of it.
pub fn answers_are_turns()
    ensures turn { (w : World) (i : ℕ) (query : Query) (answer : Answer) → w.down ≡ false → slice_get w.questions i ≡ Some (started query) → last_moment query < settled w.history → IsAnswered (applied w.history) query answer → Does w (Turn i End) (Done answer) (with_questions w (slice_set w.questions i (Ended query))) }
{}
