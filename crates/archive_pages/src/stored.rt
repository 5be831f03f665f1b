//! What a ring holds, in moments.

ghost use Rattle.std.specs.Prelude.{◌≡◌, ◌<◌, length, IfSome, IfNone};
ghost use Rattle.std.specs.List.{AllByRecursion};
ghost use Rattle.route_model.specs.Moments.{IsMoment};
ghost use Rattle.route_model.specs.Units.{moments_in};
ghost use Rattle.route_model.specs.declared.unit.Unit.TheVariants.{Seconds};
ghost use Rattle.archive_pages.specs.Stored.{older_of, scaled_times};

use archive_head::Lane;
use route_model::{Moment, Unit};

// How many of the last `count` admissions of a collector have their time in the older unit.
fn older_of(lane: &Lane, count: usize) -> usize
    ensures { result ≡ older_of lane.now count }
{
    let later = lane.admitted.saturating_sub(lane.since);
    (count as u64).saturating_sub(later) as usize
}

/// The times of all that waits of a collector, as they are read in its ring, in moments; none if one is no moment.
pub fn in_moments(lane: &Lane, times: Vec<Moment>) -> Option<Vec<Moment>>
    ensures scaled { IfSome result (λ scaled. scaled.items ≡ scaled_times (moments_in Seconds) (older_of lane.now (length times.items)) times.items) }
    ensures none { IfNone result (AllByRecursion IsMoment (scaled_times (moments_in Seconds) (older_of lane.now (length times.items)) times.items) → ⊥) }
{
    let mut times = times;
    let moments = Unit::Seconds.moments();
    for i in 0..older_of(lane, times.len()) {
        times[i] = times[i].scaled(moments)?;
    }
    Some(times)
}
