//! What the head keeps of one collector.

ghost use Rattle.std.specs.Prelude.{◌≡◌, ◌<◌, length, slice_get, Some};
ghost use Rattle.archive_pages.specs.Changes.{with_lane};

use archive_head::{Head, Lane};

/// What the head keeps of a collector.
pub fn lane_of(head: &Head, collector: u8) -> Lane
    requires collector { collector < length head.now.lanes }
    ensures lane { slice_get head.now.lanes collector ≡ Some result }
{
    head.lanes[usize::from(collector)]
}

// The head keeps this of the collector instead.
pub(crate) fn set_lane(head: &mut Head, collector: u8, lane: Lane)
    requires collector { collector < length head.old.lanes }
    ensures head { head.new ≡ with_lane head.old collector lane }
{
    head.lanes[usize::from(collector)] = lane;
}
