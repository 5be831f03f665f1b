//! Batches of admissions: their times, and which of them aren't late.

ghost use Rattle.std.specs.Prelude.{◌≡◌, ◌<◌, ◌↔◌, ℕ, [], map, length, Some, IfOk, IsTrue, slice_get};
ghost use Rattle.route_meaning.specs.Holds.{admitted_time};
ghost use Rattle.sequencer.specs.Late.{timely, lates};

use crate::late::Late;
use route_model::{Admission, Moment};
use std::alloc::{AllocError, Global};

/// The times of the batch, in its order.
pub fn times_of(alloc: Global, batch: &[Admission]) -> Result<Vec<Moment>, AllocError>
    ensures times { IfOk result (λ times. times.items ≡ map admitted_time batch.now) }
{
    let mut times = Vec::with_capacity(alloc, batch.len())?;
    for admission in batch {
        times.push(admission.time())?;
    }
    Ok(times)
}

/// Whether the next of the late ones, after the first `passed`, is at this place.
fn is_reported(late: &[Late], passed: usize, index: usize) -> bool
    ensures reported { IsTrue result ↔ (slice_get (map (λ one. one.index) late.now) passed ≡ Some index) }
    ensures inside { IsTrue result → passed < length late.now }
{
    passed < late.len() && late[passed].index == index
}

/// The admissions of a batch that aren't among its late ones, in its order. Their routes are shared. Which are late was
/// decided when their times were sieved: `late` is the list from that sieving; for another list the result is
/// unspecified.
pub fn timely_of(
    alloc: Global,
    batch: &[Admission],
    late: &[Late],
) -> Result<Vec<Admission>, AllocError>
    ensures timely { (mark : ℕ) → late.now ≡ lates admitted_time mark [] 0 batch.now → IfOk result (λ kept. kept.items ≡ timely admitted_time mark [] batch.now) }
{
    let mut kept = Vec::new(alloc);
    let mut passed = 0;
    for (index, admission) in batch.iter().enumerate() {
        if is_reported(late, passed, index) {
            passed += 1;
        } else {
            kept.push(admission.share(alloc)?)?;
        }
    }
    Ok(kept)
}
