//! The settled watermark.

ghost use Rattle.std.specs.Prelude.{◌≡◌, ◌≤◌, length, IfOk};
ghost use Rattle.route_meaning.specs.Holds.{admitted_time};
ghost use Rattle.route_meaning.specs.Merged.{part};
ghost use Rattle.route_meaning.specs.History.{first_or, bounds, least};

use crate::given::Given;
use route_meaning::PlacedAdmission;
use route_model::{Mark, Moment};
use std::alloc::{AllocError, Global};

/// The time of the first of these admissions that the collector gave, or the mark if there is none.
fn bound_of(waiting: &[PlacedAdmission], collector: u8, mark: Mark) -> Mark
    ensures { result ≡ first_or admitted_time mark (part collector waiting.now) }
{
    for placed in waiting {
        if placed.collector() == collector {
            return Mark::at(placed.time());
        }
    }
    mark
}

/// The bounds of the collectors, in the order of their numbers.
fn bounds_of(
    alloc: Global,
    given: &[Given],
    waiting: &[PlacedAdmission],
) -> Result<Vec<Mark>, AllocError>
    requires { length given.now ≤ 256 }
    ensures { IfOk result (λ all. all.items ≡ bounds 0 given.now waiting.now) }
{
    let mut all = Vec::with_capacity(alloc, given.len())?;
    for (collector, one) in given.iter().enumerate() {
        all.push(bound_of(waiting, collector as u8, one.mark()))?;
    }
    Ok(all)
}

/// The least of the marks, 0 if there is none.
fn least_of(marks: &[Mark]) -> Mark
    ensures { result ≡ least marks.now }
{
    if marks.is_empty() {
        return Mark::at(Moment::from(0u32));
    }
    let mut found = marks[0];
    for mark in marks {
        if mark.number() < found.number() {
            found = *mark;
        }
    }
    found
}

/// The settled watermark, where these admissions wait.
pub(crate) fn settled_by(
    alloc: Global,
    given: &[Given],
    waiting: &[PlacedAdmission],
) -> Result<Mark, AllocError>
    requires { length given.now ≤ 256 }
    ensures { IfOk result (λ settled. settled ≡ least (bounds 0 given.now waiting.now)) }
{
    let all = bounds_of(alloc, given, waiting)?;
    Ok(least_of(&all))
}
