//! Laws of what is done for the records of a feed.

ghost use Rattle.std.specs.Prelude.{◌≡◌, ◌≤◌, ℕ, List, Option, Result, drop};
ghost use Rattle.std.specs.List.{AllByRecursion};
ghost use Rattle.route_model.specs.Admission.{Admitted, IsAdmission};
ghost use Rattle.resolve.specs.declared.fault.ResolveFault.{ResolveFault};
ghost use Rattle.service.specs.declared.limits.BatchLimits.{BatchLimits};
ghost use Rattle.service.specs.Turns.{IsWithinLimits, admissions_of, feed_turns, offered};
ghost use Rattle.service.specs.Resuming.{without_first};

/// A feed offers each of its admissions once and in their order, in batches within the limits of number and octets.
pub fn batches_share_a_feed()
    ensures whole { (limit : BatchLimits) (results : List (Result (Option Admitted) ResolveFault)) → offered (feed_turns limit results) ≡ admissions_of results }
    ensures within { (limit : BatchLimits) (results : List (Result (Option Admitted) ResolveFault)) → 1 ≤ limit.records → 131076 ≤ limit.octets → AllByRecursion IsAdmission (admissions_of results) → AllByRecursion (IsWithinLimits limit) (feed_turns limit results) }
{}

/// A feed that goes on leaves out as many of its first admissions as were offered before, and no other; one that drops
/// nothing takes all that its records mean.
pub fn resumed_feeds_drop_the_first()
    ensures rest { (n : ℕ) (meanings : List (Result (Option Admitted) ResolveFault)) → admissions_of (without_first n meanings) ≡ drop n (admissions_of meanings) }
    ensures all { (meanings : List (Result (Option Admitted) ResolveFault)) → without_first 0 meanings ≡ meanings }
{}
