//! A batch is given: its collector's ring takes what isn't late, and the head counts it.

ghost use Rattle.std.specs.Prelude.{◌≡◌, ◌≢◌, ◌<◌, ◌≤◌, ◌+◌, ◌++◌, ◌↔◌, ℕ, List, length, sum_by, IsTrue, IfOk, OnOk, OnErr, IfErr, Err};
ghost use Rattle.page_tx.specs.Device.{KeepsDevice};
ghost use Rattle.page_tx.specs.Start.{Start};
ghost use Rattle.page_tx.specs.declared.error.PageError.TheVariants as pages_refusals;
ghost use Rattle.route_model.specs.Admission.{Admitted};
ghost use Rattle.archive_head.specs.declared.lane.Lane.{Lane};
ghost use Rattle.intake.specs.Ring.{entry_octets, octets_for, size_of, IsRing, RingRepresents, Gains, ListsAfter, Crowds};
ghost use Rattle.intake.specs.Calls.{OnlyReads, AppendRefusal, most_pages};
ghost use Rattle.archive_pages.specs.Places.{ring_of};
ghost use Rattle.archive_pages.specs.Changes.{with_lane};
ghost use Rattle.archive_pages.specs.Batches.{CanTake, HasLane, lane_with};

use crate::keeping::{lane_of, set_lane};
use crate::settings::Settings;
use archive_head::{Head, Lane};
use intake::IntakeError;
use page_tx::Pages;
use route_model::{Admission, Mark};
use std::alloc::Global;
use std::marker::Model;

/// What is kept of a batch.
#[derive(Debug, Drop)]
pub struct Sifted {
    /// Those of its admissions that aren't late, in their order.
    pub timely: Vec<Admission>,
    /// How many admissions were offered, late ones too.
    pub offered: u64,
    /// The mark of its collector after it.
    pub mark: Mark,
}

impl Model for Sifted {
    ghost use Rattle.archive_pages.specs.Batches.{Kept};

    ghost Value = { Kept };

    ghost view = { λ s. record { timely = s.timely.items; offered = s.offered; mark = s.mark } };
}

// Whether a collector of whom the head keeps this can take a batch.
fn lane_takes(homes: u64, settings: Settings, collector: u8, lane: Lane, batch: &Sifted) -> bool
    ensures takes { IsTrue result ↔ CanTake homes settings collector lane batch.now }
{
    settings.ring(collector, &lane).is_within(homes)
        && lane.offered.checked_add(batch.offered).is_some()
        && lane
            .admitted
            .checked_add(batch.timely.len() as u64)
            .is_some()
}

/// Whether the head has such a collector, its ring lies in a map of `homes` pages, and its counts have room for the batch.
pub fn can_give(homes: u64, settings: Settings, head: &Head, collector: u8, batch: &Sifted) -> bool
    ensures collector { IsTrue result → collector < length head.now.lanes }
    ensures fits { IsTrue result → (lane : Lane) → HasLane head.now collector lane → CanTake homes settings collector lane batch.now }
    ensures only { (lane : Lane) → HasLane head.now collector lane → CanTake homes settings collector lane batch.now → IsTrue result }
{
    if usize::from(collector) >= head.lanes.len() {
        return false;
    }
    lane_takes(homes, settings, collector, lane_of(head, collector), batch)
}

// What the head is to keep of the collector whose ring took a batch.
fn take<P: Pages>(
    alloc: Global,
    pages: &mut P,
    settings: Settings,
    collector: u8,
    lane: Lane,
    batch: &Sifted,
) -> Result<Lane, IntakeError>
    requires fits { CanTake (P.homes pages.old) settings collector lane batch.now }
    ensures lane { IfOk result (λ after. after ≡ lane_with lane batch.now) }
    ensures gains { OnOk result ((start : Start) (shown : List (List ℕ)) (waits : List Admitted) → P.shows pages.old start shown → RingRepresents shown (ring_of settings collector lane) waits
        → Gains (P.shows pages.new start) shown (ring_of settings collector (lane_with lane batch.now)) (waits ++ batch.now.timely)) }
    ensures ring { OnOk result (IsRing (P.homes pages.new) (ring_of settings collector (lane_with lane batch.now))) }
    ensures full { (result ≡ Err IntakeError.IntakeFull) ↔ (size_of (ring_of settings collector lane) < lane.used + octets_for batch.now.timely) }
    ensures untouched { result ≡ Err IntakeError.IntakeFull → pages.new ≡ pages.old }
    ensures nothing { OnErr result (OnlyReads P.Pages pages.old pages.new (result ≡ Err (IntakeError.Pages pages_refusals.Fault))) }
    ensures set { OnOk result (ListsAfter (ring_of settings collector lane) (octets_for batch.now.timely) (P.named pages.old) (P.named pages.new)) }
    ensures room { result ≡ Err (IntakeError.Pages pages_refusals.TooManyImages) → Crowds (ring_of settings collector lane) (octets_for batch.now.timely) (P.named pages.old) }
    ensures few { OnOk result (length (P.named pages.new) ≤ length (P.named pages.old) + most_pages (octets_for batch.now.timely)) }
    ensures few_of_batch { sum_by entry_octets batch.now.timely ≤ 262144 → OnOk result (length (P.named pages.new) ≤ length (P.named pages.old) + 17) }
    ensures room_of_batch { sum_by entry_octets batch.now.timely ≤ 262144 → length (P.named pages.old) ≤ 14 → result ≢ Err (IntakeError.Pages pages_refusals.TooManyImages) }
    ensures refused { IfErr result (AppendRefusal (P.down pages.old) (P.homes pages.old) (P.next pages.old) (length (P.named pages.old) + most_pages (octets_for batch.now.timely))) }
    ensures homes { P.homes pages.new ≡ P.homes pages.old }
    ensures next { P.next pages.new ≡ P.next pages.old }
    ensures down { P.down pages.new ≡ P.down pages.old }
    ensures device { KeepsDevice (P.honest pages.old) (P.honest pages.new) (P.faults pages.old) (P.faults pages.new) (result ≡ Err (IntakeError.Pages pages_refusals.Fault)) }
{
    let mut ring = settings.ring(collector, &lane);
    ring.append(alloc, pages, &batch.timely)?;
    Ok(Lane {
        offered: lane.offered + batch.offered,
        admitted: lane.admitted + batch.timely.len() as u64,
        mark: batch.mark,
        first: ring.first,
        used: ring.used,
        ..lane
    })
}

/// Gives a batch: what is kept of it is appended to what waits in its collector's ring, and the head counts it. Page 0 isn't written.
/// After an error the head is as it was, and the same pages are shown.
pub fn give<P: Pages>(
    alloc: Global,
    pages: &mut P,
    settings: Settings,
    head: &mut Head,
    collector: u8,
    batch: &Sifted,
) -> Result<(), IntakeError>
    requires collector { collector < length head.old.lanes }
    requires fits { (lane : Lane) → HasLane head.old collector lane → CanTake (P.homes pages.old) settings collector lane batch.now }
    ensures head { OnOk result ((lane : Lane) → HasLane head.old collector lane → head.new ≡ with_lane head.old collector (lane_with lane batch.now)) }
    ensures gains { OnOk result ((lane : Lane) → HasLane head.old collector lane → (start : Start) (shown : List (List ℕ)) (waits : List Admitted) → P.shows pages.old start shown → RingRepresents shown (ring_of settings collector lane) waits
        → Gains (P.shows pages.new start) shown (ring_of settings collector (lane_with lane batch.now)) (waits ++ batch.now.timely)) }
    ensures ring { OnOk result ((lane : Lane) → HasLane head.old collector lane → IsRing (P.homes pages.new) (ring_of settings collector (lane_with lane batch.now))) }
    ensures full { (lane : Lane) → HasLane head.old collector lane → (result ≡ Err IntakeError.IntakeFull) ↔ (size_of (ring_of settings collector lane) < lane.used + octets_for batch.now.timely) }
    ensures untouched { result ≡ Err IntakeError.IntakeFull → pages.new ≡ pages.old }

    ensures as_before { OnErr result (head.new ≡ head.old) }
    ensures nothing { OnErr result (OnlyReads P.Pages pages.old pages.new (result ≡ Err (IntakeError.Pages pages_refusals.Fault))) }

    // Images are held of the pages that hold an octet of the batch, and of those of before.
    ensures set { OnOk result ((lane : Lane) → HasLane head.old collector lane → ListsAfter (ring_of settings collector lane) (octets_for batch.now.timely) (P.named pages.old) (P.named pages.new)) }
    ensures room { result ≡ Err (IntakeError.Pages pages_refusals.TooManyImages) → (lane : Lane) → HasLane head.old collector lane → Crowds (ring_of settings collector lane) (octets_for batch.now.timely) (P.named pages.old) }
    ensures few { OnOk result (length (P.named pages.new) ≤ length (P.named pages.old) + most_pages (octets_for batch.now.timely)) }
    ensures few_of_batch { sum_by entry_octets batch.now.timely ≤ 262144 → OnOk result (length (P.named pages.new) ≤ length (P.named pages.old) + 17) }
    ensures room_of_batch { sum_by entry_octets batch.now.timely ≤ 262144 → length (P.named pages.old) ≤ 14 → result ≢ Err (IntakeError.Pages pages_refusals.TooManyImages) }
    ensures refused { IfErr result (AppendRefusal (P.down pages.old) (P.homes pages.old) (P.next pages.old) (length (P.named pages.old) + most_pages (octets_for batch.now.timely))) }

    ensures homes { P.homes pages.new ≡ P.homes pages.old }
    ensures next { P.next pages.new ≡ P.next pages.old }
    ensures down { P.down pages.new ≡ P.down pages.old }
    ensures device { KeepsDevice (P.honest pages.old) (P.honest pages.new) (P.faults pages.old) (P.faults pages.new) (result ≡ Err (IntakeError.Pages pages_refusals.Fault)) }
{
    let lane = lane_of(head, collector);
    let after = take(alloc, pages, settings, collector, lane, batch)?;
    set_lane(head, collector, after);
    Ok(())
}
