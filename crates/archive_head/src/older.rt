//! Heads of an older unit, in moments.

ghost use Rattle.std.specs.Prelude.{◌≡◌, map, IfOk, IfSome, IfNone};
ghost use Rattle.std.specs.List.{AllByRecursion};
ghost use Rattle.archive_head.specs.Head.{IsHead, IsOlderHead, IsOlderLane, in_moments, lane_in_moments};

use crate::head::Head;
use crate::lane::Lane;
use std::alloc::{AllocError, Global};

// What is kept of a collector, in moments; none if an older head can't have it.
fn lane_in_moments(lane: Lane, moments: u64) -> Option<Lane>
    ensures lane { IfSome result (λ scaled. scaled ≡ lane_in_moments moments lane) }
    ensures older { IfSome result (λ _. IsOlderLane moments lane) }
    ensures none { IfNone result (IsOlderLane moments lane → ⊥) }
{
    if lane.since != 0 {
        return None;
    }
    let mark = lane.mark.scaled(moments)?;
    Some(Lane {
        mark,
        since: lane.admitted,
        ..lane
    })
}

// What is kept of each collector, in moments; none if an older head can't have it of one.
fn lanes_in_moments(
    alloc: Global,
    lanes: &[Lane],
    moments: u64,
) -> Result<Option<Vec<Lane>>, AllocError>
    ensures lanes { IfOk result (λ found. IfSome found (λ scaled. scaled.items ≡ map (lane_in_moments moments) lanes.now)) }
    ensures older { IfOk result (λ found. IfSome found (λ _. AllByRecursion (IsOlderLane moments) lanes.now)) }
    ensures none { IfOk result (λ found. IfNone found (AllByRecursion (IsOlderLane moments) lanes.now → ⊥)) }
{
    let mut scaled = Vec::with_capacity(alloc, lanes.len())?;
    for lane in lanes {
        let Some(in_moments) = lane_in_moments(*lane, moments) else {
            return Ok(None);
        };
        scaled.push(in_moments)?;
    }
    Ok(Some(scaled))
}

/// The head that was read in a unit of this number of moments, in moments; none if no older head is so.
pub(crate) fn in_moments(
    alloc: Global,
    head: Head,
    moments: u64,
) -> Result<Option<Head>, AllocError>
    requires valid { IsHead head }
    ensures head { IfOk result (λ found. IfSome found (λ scaled. scaled ≡ in_moments moments head)) }
    ensures older { IfOk result (λ found. IfSome found (λ _. IsOlderHead moments head)) }
    ensures none { IfOk result (λ found. IfNone found (IsOlderHead moments head → ⊥)) }
{
    let Some(last) = head.last.scaled(moments) else {
        return Ok(None);
    };
    let Some(lanes) = lanes_in_moments(alloc, &head.lanes, moments)? else {
        return Ok(None);
    };
    Ok(Some(Head {
        last,
        lanes,
        ..head
    }))
}
