//! Which collector's first time goes before each other's.

ghost use Rattle.std.specs.Prelude.{map, ◌≡◌, ◌<◌, ℕ, List, IfSome, IfNone, IsTrue, ◌↔◌, length};
ghost use Rattle.sequencer.specs.Lanes.{IsOpen, bound_of};
ghost use Rattle.route_meaning.specs.History.{least};
ghost use Rattle.sequencer.specs.First.{IsFirstLane};
ghost use Rattle.sequencer.specs.inner.Searching.{better_of, NoneWaits};

use crate::lane::Lane;
use route_model::{Mark, Moment};

/// A collector and its first time.
#[derive(Clone, Copy, Debug)]
pub(crate) struct Candidate {
    pub(crate) number: usize,
    pub(crate) time: Moment,
}

/// Whether the time is below every mark.
pub(crate) fn is_open(lanes: &[Lane], time: Moment) -> bool
    ensures { IsTrue result ↔ IsOpen lanes.now time }
{
    lanes.iter().all(|lane| Mark::at(time) < lane.mark())
}

/// The earlier of two, the one that was found before where both have one time.
pub(crate) fn better(
    found: Option<Candidate>,
    number: usize,
    first: Option<Moment>,
) -> Option<Candidate>
    ensures { result ≡ better_of found number first }
{
    match (found, first) {
        (found, None) => found,
        (None, Some(time)) => Some(Candidate { number, time }),
        (Some(best), Some(time)) => {
            if best.time <= time {
                Some(best)
            } else {
                Some(Candidate { number, time })
            }
        }
    }
}

/// The collector whose first time goes before each other's.
pub(crate) fn first_lane(lanes: &[Lane]) -> Option<Candidate>
    ensures some { IfSome result (λ r. IsFirstLane lanes.now r.number r.time) }
    ensures none { IfNone result (NoneWaits lanes.now) }
{
    let mut found: Option<Candidate> = None;
    for (number, lane) in lanes.iter().enumerate() {
        found = better(found, number, lane.first());
    }
    found
}

/// The least of the first times that wait, and of the marks where none waits.
pub(crate) fn least_bound(lanes: &[Lane]) -> Mark
    requires { 0 < length lanes.now }
    ensures { result ≡ least (map bound_of lanes.now) }
{
    let mut settled = lanes[0].bound();
    for lane in lanes {
        let bound = lane.bound();
        if bound.number() < settled.number() {
            settled = bound;
        }
    }
    settled
}
