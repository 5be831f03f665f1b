//! What holds of every run of calls, as the contract of a function that does nothing.

ghost use Rattle.std.specs.Prelude.{◌≡◌, ◌++◌, List};
ghost use Rattle.std.specs.List.{AllByRecursion};
ghost use Rattle.route_meaning.specs.Merged.{merged};
ghost use Rattle.sequencer.specs.Lanes.{Waiting, IsLane, in_order};
ghost use Rattle.sequencer.specs.Runs.{Call, Runs, all_taken, released_by};

/// Whatever calls are made of which collectors, in any order: what they release, and then what still waits, is what each
/// collector gave, all in one order. So what is released is a front of that order, which depends on each collector's own
/// calls alone.
pub fn runs_release_in_order()
    ensures order { (calls : List Call) (old new : List Waiting) → AllByRecursion IsLane old → Runs calls old new → released_by calls ++ in_order new ≡ merged (λ t. t) (all_taken 0 calls old) }
{}
