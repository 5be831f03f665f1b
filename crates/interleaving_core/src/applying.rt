//! The admissions of all collectors in one order, and whether a time is below every mark.

ghost use Rattle.std.specs.Prelude.{◌≡◌, ◌<◌, ◌≤◌, ◌↔◌, map, length, IsTrue, IfOk};
ghost use Rattle.std.specs.List.{AllByRecursion};
ghost use Rattle.route_meaning.specs.Holds.{admitted_time};
ghost use Rattle.route_meaning.specs.Merged.{merged};

use crate::given::Given;
use route_meaning::{PlacedAdmission, merge};
use route_model::{Mark, Moment};
use std::alloc::{AllocError, Global};

/// All that was admitted, in the one order.
pub(crate) fn order<'a>(
    alloc: Global,
    given: &'a [Given],
) -> Result<Vec<PlacedAdmission<'a>>, AllocError>
    requires { length given.now ≤ 256 }
    ensures { IfOk result (λ all. all.items ≡ merged admitted_time (map (λ i. i.admitted) given.now)) }
{
    let mut lists = Vec::with_capacity(alloc, given.len())?;
    for one in given {
        lists.push(one.admitted())?;
    }
    merge(alloc, &lists)
}

/// Whether the time is below every mark.
pub(crate) fn is_below_marks(given: &[Given], time: Moment) -> bool
    ensures { IsTrue result ↔ AllByRecursion (λ i. time < i.mark) given.now }
{
    given.iter().all(|one| Mark::at(time) < one.mark())
}
