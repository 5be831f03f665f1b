//! The head passes over a change that was applied, and with its last change an admission leaves its ring.

ghost use Rattle.std.specs.Prelude.{◌≡◌, ◌<◌, ◌≤◌, ◌+◌, ◌^◌, ◌↔◌, suc, length, slice_set, IsTrue};
ghost use Rattle.route_meaning.specs.Merged.{placed};
ghost use Rattle.archive_head.specs.declared.lane.Lane.{Lane};
ghost use Rattle.archive_pages.specs.Represented.{last_time};
ghost use Rattle.archive_pages.specs.Changes.{head_moved, lane_popped, next_change};
ghost use Rattle.archive_pages.specs.Batches.{CanPop, HasLane};

use crate::keeping::{lane_of, set_lane};
use crate::settings::Settings;
use archive_head::{Head, Lane};
use disk_models::PAGE_SIZE;
use route_model::Admission;

/// What the head says of the tree.
#[derive(Clone, Copy, Debug, PartialEq, Eq)]
pub struct TreePlace {
    /// The first home page that was never used.
    pub fresh: u64,
    /// The first block that was never tried, as far as it is known.
    pub block: u64,
    /// The page of the root.
    pub root: u64,
}

// Whether the ring of which the head keeps this can lose the admission.
fn lane_loses(settings: Settings, collector: u8, lane: Lane, admission: &Admission) -> bool
    ensures loses { IsTrue result ↔ CanPop settings collector lane admission.now }
{
    let ring = settings.ring(collector, &lane);
    let size = PAGE_SIZE as u64 * ring.count;
    ring.first < size && ring.used <= size && ring.can_pop(admission)
}

/// Whether the head has such a collector, its ring can lose the admission, and one more change can be counted.
pub fn can_pass(settings: Settings, head: &Head, collector: u8, admission: &Admission) -> bool
    ensures collector { IsTrue result → collector < length head.now.lanes }
    ensures applied { IsTrue result → head.now.applied + 1 < 2 ^ 64 }
    ensures first { IsTrue result → (lane : Lane) → HasLane head.now collector lane → CanPop settings collector lane admission.now }
    ensures only { (lane : Lane) → HasLane head.now collector lane → CanPop settings collector lane admission.now → head.now.applied + 1 < 2 ^ 64 → IsTrue result }
{
    if usize::from(collector) >= head.lanes.len() || head.applied == u64::MAX {
        return false;
    }
    lane_loses(settings, collector, lane_of(head, collector), admission)
}

// The head counts the next change of the admission, if it has one.
fn count_change(head: &mut Head, collector: u8, admission: &Admission)
    requires applied { head.old.applied + 1 < 2 ^ 64 }
    ensures head { head.new ≡ record head.old {
      applied = head.old.applied + length (next_change head.old.begun (placed collector admission.now));
      last = last_time head.old.last (next_change head.old.begun (placed collector admission.now));
    } }
{
    let _placed_by = collector;
    if head.begun < admission.changes().len() as u64 {
        head.applied += 1;
        head.last = admission.time();
    }
}

// What is kept of a collector once this admission, its first that waits, is gone from its ring.
fn without_first(settings: Settings, collector: u8, lane: Lane, admission: &Admission) -> Lane
    requires first { CanPop settings collector lane admission.now }
    ensures lane { result ≡ lane_popped settings collector lane admission.now }
{
    let mut ring = settings.ring(collector, &lane);
    ring.pop(admission);
    Lane {
        first: ring.first,
        used: ring.used,
        ..lane
    }
}

/// Sets in the head that the next change of the admission, if it has one, is applied, and what the tree is then. The admission is the
/// first that waits of its collector. Returns whether this was its last change, with which it leaves its ring.
pub fn pass_change(
    settings: Settings,
    head: &mut Head,
    collector: u8,
    admission: &Admission,
    tree: TreePlace,
) -> bool
    requires collector { collector < length head.old.lanes }
    requires applied { head.old.applied + 1 < 2 ^ 64 }
    requires first { (lane : Lane) → HasLane head.old collector lane → CanPop settings collector lane admission.now }
    ensures whole { IsTrue result ↔ (length admission.now.changes ≤ suc head.old.begun) }
    ensures stays { suc head.old.begun < length admission.now.changes
        → head.new ≡ head_moved head.old head.old.begun (placed collector admission.now) (suc head.old.begun) tree.fresh tree.block tree.root head.old.lanes }
    ensures leaves { length admission.now.changes ≤ suc head.old.begun → (lane : Lane) → HasLane head.old collector lane
        → head.new ≡ head_moved head.old head.old.begun (placed collector admission.now) 0 tree.fresh tree.block tree.root (slice_set head.old.lanes collector (lane_popped settings collector lane admission.now)) }
{
    count_change(head, collector, admission);
    head.fresh = tree.fresh;
    head.block = tree.block;
    head.root = tree.root;
    let last = admission.changes().len().saturating_sub(1) as u64;
    if head.begun < last {
        head.begun += 1;
        return false;
    }
    let lane = without_first(settings, collector, lane_of(head, collector), admission);
    set_lane(head, collector, lane);
    head.begun = 0;
    true
}
