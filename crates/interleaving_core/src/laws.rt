//! What is true of every run of steps, as the contract of a function that does nothing.

ghost use Rattle.std.specs.Prelude.{ℕ, List};
ghost use Rattle.std.specs.List.{AllByRecursion};
ghost use Rattle.route_meaning.specs.History.{IsHistory};
ghost use Rattle.interleaving_core.specs.declared.reply.Reply.{Reply};
ghost use Rattle.interleaving_core.specs.declared.step.Step.{Step};
ghost use Rattle.interleaving_core.specs.World.{World, created};
ghost use Rattle.interleaving_core.specs.Does.{Does, Runs, IsStep};
ghost use Rattle.interleaving_core.specs.Headline.{Headline};

/// Whatever steps, made of values, are made from a created world, in any order, with crashes anywhere between them: at the end each question that was
/// done has the answer of the history at the end, each earlier history begins it, each receipt's batch is recorded in it, and nothing is in
/// it but what was offered and wasn't late, in the order of offering.
pub fn headline_of_runs()
    ensures headline { (collectors : ℕ) (steps : List Step) (replies : List Reply) (last : World) → AllByRecursion IsStep steps → Runs (created collectors) steps replies last → Headline collectors steps replies last }
{}

/// In each world whose history is right, each step has an answer and leads to a world; so any steps made of values are those of a run.
pub fn each_step_is_answered()
    ensures answered { (w : World) (step : Step) → IsHistory w.history → (reply : Reply) × (v : World) × Does w step reply v }
    ensures runs { (collectors : ℕ) (steps : List Step) → AllByRecursion IsStep steps → (replies : List Reply) × (last : World) × Runs (created collectors) steps replies last }
{}
