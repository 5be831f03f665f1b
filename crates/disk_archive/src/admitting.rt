//! Admits a batch.

ghost use Rattle.std.specs.Prelude.{◌≡◌, ◌≢◌, ◌<◌, ◌≤◌, ◌+◌, ◌-◌, ◌*◌, ◌⊎◌, ◌↔◌, ℕ, List, [], length, min, sum_by, Some, IfOk, OnOk, OnErr, IfErr, Err, slice_get, IsTrue, true, false};
ghost use Rattle.std.specs.List.{AllByRecursion};
ghost use Rattle.page_tx.specs.Device.{KeepsDevice};
ghost use Rattle.route_model.specs.Admission.{IsAdmission};
ghost use Rattle.route_meaning.specs.History.{History, Intake};
ghost use Rattle.route_meaning.specs.Holds.{admitted_time};
ghost use Rattle.sequencer.specs.Late.{timely};
ghost use Rattle.sequencer.specs.Lanes.{marks};
ghost use Rattle.interleaving_core.specs.Steps.{given};
ghost use Rattle.interleaving_core.specs.Does.{IsReply};
ghost use Rattle.intake.specs.Ring.{entry_octets, octets_for};
ghost use Rattle.archive_head.specs.declared.lane.Lane.{Lane};
ghost use Rattle.archive_pages.specs.Batches.{HasLane};

use crate::archive::Archive;
use crate::batches::{Parted, fits, part, timely_len};
use crate::committing::{begin, commit};
use crate::error::AdmitError;
use crate::planning::plan_batch;
use archive_head::{Head, Lane};
use archive_pages::{Settings, lane_of};
use disk_models::{EraseDisk, OnceDisk, PAGE_SIZE};
use interleaving_core::{BatchReply, Receipt};
use route_model::{Admission, Mark};
use sequencer::Sequencer;
use std::alloc::Global;

// Whether the records of a batch that aren't late take more octets than are free in the collector's ring.
fn is_crowded(settings: Settings, lane: Lane, mark: Mark, batch: &[Admission]) -> bool
    requires octets { sum_by entry_octets batch.now ≤ 262144 }
    ensures crowded { IsTrue result ↔ (16384 * settings.ring - lane.used < octets_for (timely admitted_time mark [] batch.now)) }
{
    let size = PAGE_SIZE as u64 * u64::from(settings.ring);
    size.saturating_sub(lane.used) < timely_len(mark, batch)
}

// Whether there is such a collector, the batch isn't too large, its records can be counted, and those that aren't late have room in the
// collector's ring. It takes no memory.
fn may_take(
    settings: Settings,
    head: &Head,
    sequencer: &Sequencer,
    collector: u8,
    batch: &[Admission],
) -> Result<(), AdmitError>
    requires lanes { length head.now.lanes ≡ settings.collectors }
    requires numbers { length sequencer.now ≡ settings.collectors }
    ensures collector { OnOk result (collector < settings.collectors) }
    ensures octets { OnOk result (sum_by entry_octets batch.now ≤ 262144) }
    ensures valid { OnOk result (AllByRecursion IsAdmission batch.now) }
    ensures counts { OnOk result ((lane : Lane) → HasLane head.now collector lane → lane.offered + length batch.now ≤ 18446744073709551615) }
    ensures room { OnOk result ((lane : Lane) (mark : ℕ) → HasLane head.now collector lane → slice_get (marks sequencer.now) collector ≡ Some mark → octets_for (timely admitted_time mark [] batch.now) ≤ 16384 * settings.ring - lane.used) }
    ensures no_collector { (result ≡ Err AdmitError.NoCollector) ↔ (settings.collectors ≤ collector) }
    ensures too_large { (result ≡ Err AdmitError.BatchTooLarge) ↔ ((collector < settings.collectors) × (262144 < sum_by entry_octets batch.now)) }
    ensures counter_full { (lane : Lane) → HasLane head.now collector lane → (result ≡ Err AdmitError.CounterFull) ↔ ((sum_by entry_octets batch.now ≤ 262144) × (18446744073709551615 < lane.offered + length batch.now)) }
    ensures intake_full { (lane : Lane) (mark : ℕ) → HasLane head.now collector lane → slice_get (marks sequencer.now) collector ≡ Some mark → (result ≡ Err AdmitError.IntakeFull)
        ↔ ((sum_by entry_octets batch.now ≤ 262144) × (lane.offered + length batch.now ≤ 18446744073709551615) × (16384 * settings.ring - lane.used < octets_for (timely admitted_time mark [] batch.now))) }
    ensures refused { IfErr result (λ e. (e ≡ AdmitError.NoCollector) ⊎ (e ≡ AdmitError.BatchTooLarge) ⊎ (e ≡ AdmitError.CounterFull) ⊎ (e ≡ AdmitError.IntakeFull)) }
    ensures empty { batch.now ≡ [] → IfErr result (λ e. e ≡ AdmitError.NoCollector) }
{
    if collector >= settings.collectors {
        return Err(AdmitError::NoCollector);
    }
    if !fits(batch) {
        return Err(AdmitError::BatchTooLarge);
    }
    let lane = lane_of(head, collector);
    if lane.offered.checked_add(batch.len() as u64).is_none() {
        return Err(AdmitError::CounterFull);
    }
    let mark = sequencer.mark(usize::from(collector));
    if is_crowded(settings, lane, mark, batch) {
        return Err(AdmitError::IntakeFull);
    }
    Ok(())
}

// What is returned for a batch without a record.
fn reply_to_none(alloc: Global, collector: u8, lane: Lane) -> BatchReply
    ensures reply { (i : Intake) → lane.offered ≡ i.offered → lane.admitted ≡ length i.admitted → IsReply i collector [] result }
{
    BatchReply {
        receipt: Receipt {
            collector,
            from: lane.admitted,
            to: lane.admitted,
        },
        offered: lane.offered,
        late: Vec::new(alloc),
    }
}

impl<E: EraseDisk + Drop, O: OnceDisk + Drop> Archive<E, O> {
    ghost use Rattle.disk_archive.specs.Archives.{Represents, GoesOn, RepresentsIfHonest, ContinuesFrom, IsHonest, erase_of, erase_state, is_down, once_of, once_state, pen_in, settings_of, site_of};
    ghost use Rattle.disk_archive.specs.Sites.{LeftEither};
    ghost use Rattle.disk_archive.specs.Crashes.{Crashes, Lasts};
    ghost use Rattle.disk_archive.specs.Limits.{IsCounterFull, IsRingFull};
    ghost use Rattle.disk_archive.specs.inner.Idle.{IsAsBefore};

    // Admits a batch if the archive represents a history.
    fn try_admit(&mut self, collector: u8, batch: &[Admission]) -> Result<BatchReply, AdmitError>
        ensures usable { OnOk result (is_down self.old ≡ false) }
        ensures still_usable { OnOk result (is_down self.new ≡ false) }
        ensures falls { is_down self.old ≡ false → is_down self.new ≡ true → result ≡ Err AdmitError.Fault }
        ensures device { KeepsDevice (E.honest (erase_of self.old)) (E.honest (erase_of self.new)) (E.fault_count (erase_of self.old)) (E.fault_count (erase_of self.new)) (result ≡ Err AdmitError.Fault) }
        ensures pen { pen_in self.new ≡ pen_in self.old }
        ensures recovery { is_down self.old ≡ true → IsAsBefore self.old self.new }
        ensures reported { (result ≡ Err AdmitError.NeedsRecovery) ↔ (is_down self.old ≡ true) }
        ensures no_collector { (result ≡ Err AdmitError.NoCollector) ↔ ((is_down self.old ≡ false) × ((settings_of self.old).collectors ≤ collector)) }
        ensures too_large { (result ≡ Err AdmitError.BatchTooLarge) ↔ ((is_down self.old ≡ false) × (collector < (settings_of self.old).collectors) × (262144 < sum_by entry_octets batch.now)) }
        ensures counter_full { (h : History) → Represents self.old h → (result ≡ Err AdmitError.CounterFull) ↔ ((sum_by entry_octets batch.now ≤ 262144) × IsCounterFull h collector (length batch.now)) }
        ensures intake_full { (h : History) → Represents self.old h → (result ≡ Err AdmitError.IntakeFull) ↔ ((sum_by entry_octets batch.now ≤ 262144) × (IsCounterFull h collector (length batch.now) → ⊥) × IsRingFull (settings_of self.old) h collector batch.now) }
        ensures undamaged { (h : History) → Represents self.old h → (page : ℕ) → result ≡ Err (AdmitError.BadNode page) → ⊥ }
        ensures honest { IsHonest self.old ↔ IsHonest self.new }
        ensures settings { settings_of self.new ≡ settings_of self.old }
        ensures disk { once_of self.new ≡ once_of self.old }
        ensures blocks { once_state self.new ≡ once_state self.old }
        ensures ok { OnOk result ((h : History) → Represents self.old h → Represents self.new (given h collector batch.now)) }
        ensures reply { (h : History) → Represents self.old h → (i : Intake) → slice_get h.intakes collector ≡ Some i → IfOk result (IsReply i collector batch.now) }
        ensures err { OnErr result ((h : History) → Represents self.old h → GoesOn self.new h) }
        ensures memory { (h : History) → Represents self.old h → result ≡ Err AdmitError.OutOfMemory → (erase_state self.new).clock ≡ (erase_state self.old).clock }
        ensures crash { (h : History) → Represents self.old h → Crashes self.old self.new (LeftEither (site_of self.old) h (given h collector batch.now)) }
        ensures empty { batch.now ≡ [] → IsAsBefore self.old self.new × IfErr result (λ e. (e ≡ AdmitError.NeedsRecovery) ⊎ (e ≡ AdmitError.NoCollector)) }
    {
        begin(&mut self.tx)?;
        may_take(self.settings, &self.head, &self.sequencer, collector, batch)?;
        let before = lane_of(&self.head, collector);
        if batch.is_empty() {
            return Ok(reply_to_none(self.alloc, collector, before));
        }
        let Parted { kept, sieved } = part(self.alloc, &mut self.sequencer, collector, batch)?;
        let next = plan_batch(
            self.alloc,
            &mut self.tx,
            self.settings,
            &self.head,
            collector,
            &kept,
        )?;
        commit(&mut self.tx)?;
        let after = lane_of(&next, collector);
        self.head = next;
        self.sequencer.take_in(usize::from(collector), &sieved);
        Ok(BatchReply {
            receipt: Receipt {
                collector,
                from: before.admitted,
                to: after.admitted,
            },
            offered: after.offered,
            late: sieved.late,
        })
    }

    /// Admits the records of a collector, in order, but for those that are late: whose time is below the collector's mark or
    /// below an earlier time of the batch. Each late record is reported. The mark is raised to the greatest of these times. A batch without
    /// a record changes nothing, and nothing is written for it.
    ///
    /// From an Ok on each crash leaves a history with the batch. After a refusal the archive represents the history from before the call; if
    /// a write or a sync failed, it must be opened again, and the batch is then in the history whole or not at all.
    pub fn admit(&mut self, collector: u8, batch: &[Admission]) -> Result<BatchReply, AdmitError>
        ensures ok { OnOk result ((h : History) → RepresentsIfHonest self.old h → RepresentsIfHonest self.new (given h collector batch.now)) }
        ensures reply { IsHonest self.old → (h : History) → RepresentsIfHonest self.old h → (i : Intake) → slice_get h.intakes collector ≡ Some i → IfOk result (IsReply i collector batch.now) }
        ensures err { OnErr result ((h : History) → RepresentsIfHonest self.old h → RepresentsIfHonest self.new h) }
        ensures crash { (h : History) → Represents self.old h → Crashes self.old self.new (LeftEither (site_of self.old) h (given h collector batch.now)) }
        ensures lasts { (h : History) → ContinuesFrom self.old h → Lasts self.old self.new h }
        ensures memory { IsHonest self.old → (h : History) → RepresentsIfHonest self.old h → result ≡ Err AdmitError.OutOfMemory → (erase_state self.new).clock ≡ (erase_state self.old).clock }
        ensures usable { OnOk result (is_down self.old ≡ false) }
        ensures idle { is_down self.old ≡ true → (erase_of self.new ≡ erase_of self.old) × (once_state self.new ≡ once_state self.old) × (is_down self.new ≡ true) }
        ensures still_usable { OnOk result (is_down self.new ≡ false) }
        ensures falls { is_down self.old ≡ false → is_down self.new ≡ true → result ≡ Err AdmitError.Fault }
        ensures quiet { result ≢ Err AdmitError.Fault → E.fault_count (erase_of self.new) ≡ E.fault_count (erase_of self.old) }
        ensures counted { result ≡ Err AdmitError.Fault → E.fault_count (erase_of self.new) ≡ min (E.fault_count (erase_of self.old) + 1) 18446744073709551615 }
        ensures pen { pen_in self.new ≡ pen_in self.old }
        ensures recovery { (result ≡ Err AdmitError.NeedsRecovery) ↔ (is_down self.old ≡ true) }
        ensures no_collector { (result ≡ Err AdmitError.NoCollector) ↔ ((is_down self.old ≡ false) × ((settings_of self.old).collectors ≤ collector)) }
        ensures too_large { (result ≡ Err AdmitError.BatchTooLarge) ↔ ((is_down self.old ≡ false) × (collector < (settings_of self.old).collectors) × (262144 < sum_by entry_octets batch.now)) }
        ensures counter_full { IsHonest self.old → (h : History) → RepresentsIfHonest self.old h → (result ≡ Err AdmitError.CounterFull) ↔ ((is_down self.old ≡ false) × (sum_by entry_octets batch.now ≤ 262144) × IsCounterFull h collector (length batch.now)) }
        ensures intake_full { IsHonest self.old → (h : History) → RepresentsIfHonest self.old h → (result ≡ Err AdmitError.IntakeFull)
            ↔ ((is_down self.old ≡ false) × (sum_by entry_octets batch.now ≤ 262144) × (IsCounterFull h collector (length batch.now) → ⊥) × IsRingFull (settings_of self.old) h collector batch.now) }
        ensures empty { batch.now ≡ [] → (erase_of self.new ≡ erase_of self.old) × IfErr result (λ e. (e ≡ AdmitError.NeedsRecovery) ⊎ (e ≡ AdmitError.NoCollector)) }
        ensures undamaged { IsHonest self.old → (h : History) → RepresentsIfHonest self.old h → (page : ℕ) → result ≡ Err (AdmitError.BadNode page) → ⊥ }
        ensures honest { IsHonest self.old ↔ IsHonest self.new }
        ensures settings { settings_of self.new ≡ settings_of self.old }
        ensures disk { once_of self.new ≡ once_of self.old }
        ensures blocks { once_state self.new ≡ once_state self.old }
    {
        self.try_admit(collector, batch)
    }
}
