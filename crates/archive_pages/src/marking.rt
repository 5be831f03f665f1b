//! A mark is raised, in the head alone.

ghost use Rattle.std.specs.Prelude.{◌≡◌, ◌<◌, length};
ghost use Rattle.archive_head.specs.declared.lane.Lane.{Lane};
ghost use Rattle.archive_pages.specs.Changes.{with_lane};
ghost use Rattle.archive_pages.specs.Batches.{HasLane};

use crate::keeping::{lane_of, set_lane};
use archive_head::{Head, Lane};
use route_model::Mark;

/// The head keeps another mark of the collector. That it isn't below the present one is the caller's to see.
pub fn mark_head(head: &mut Head, collector: u8, mark: Mark)
    requires collector { collector < length head.old.lanes }
    ensures head { (lane : Lane) → HasLane head.old collector lane → head.new ≡ with_lane head.old collector (record lane { mark = mark }) }
{
    let lane = lane_of(head, collector);
    set_lane(head, collector, Lane { mark, ..lane });
}
