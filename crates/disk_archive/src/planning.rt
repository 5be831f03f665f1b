//! What a call is to commit: pages that are shown in a transaction, and their head. Nothing is written yet.

ghost use Rattle.std.specs.Prelude.{◌≡◌, ◌≢◌, ◌<◌, ◌≤◌, ◌+◌, ◌-◌, ◌*◌, ◌↔◌, ℕ, Bool, true, false, List, [], length, sum_by, Some, IfOk, OnOk, IfErr, Err, slice_get};
ghost use Rattle.std.specs.List.{AllByRecursion};
ghost use Rattle.disk_models.specs.Once.{OnceState, settled_in};
ghost use Rattle.page_tx.specs.Device.{KeepsDevice};
ghost use Rattle.page_tx.specs.Start.{Start};
ghost use Rattle.page_tx.specs.declared.error.PageError.TheVariants as pages_refusals;
ghost use Rattle.route_model.specs.Admission.{Admitted, IsAdmission};
ghost use Rattle.route_meaning.specs.History.{History, Intake};
ghost use Rattle.interleaving_core.specs.Steps.{given};
ghost use Rattle.archive_head.specs.declared.lane.Lane.{Lane};
ghost use Rattle.intake.specs.Ring.{entry_octets, octets_for};
ghost use Rattle.archive_pages.specs.Batches.{HasLane, IsKeptOf, lane_with};
ghost use Rattle.archive_pages.specs.Represented.{HeadRepresents};
ghost use Rattle.disk_archive.specs.Trees.{TreeLocated};
ghost use Rattle.disk_archive.specs.inner.Committing.{PlanRefusal};
ghost use Rattle.disk_archive.specs.inner.Planning.{Planned};

use crate::error::AdmitError;
use archive_head::Head;
use archive_pages::{Settings, Sifted, can_give, copy_head, give, put_head};
use intake::IntakeError;
use page_tx::{PageError, Pages};
use std::alloc::Global;

// Why pages weren't shown, where few images are held.
fn of_page(error: PageError) -> AdmitError
    requires few { error ≢ PageError.TooManyImages }
    requires room { error ≢ PageError.PagesFull }
    ensures recovery { (result ≡ AdmitError.NeedsRecovery) ↔ (error ≡ PageError.NeedsRecovery) }
    ensures fault { (result ≡ AdmitError.Fault) ↔ (error ≡ PageError.Fault) }
    ensures refused { (down : Bool) → (error ≡ PageError.NeedsRecovery → down ≡ true) → (error ≡ PageError.Fault → down ≡ false) → PlanRefusal down result }
    ensures undamaged { (page : ℕ) → result ≢ AdmitError.BadNode page }
{
    match error {
        PageError::Fault => AdmitError::Fault,
        PageError::NeedsRecovery => AdmitError::NeedsRecovery,
        PageError::OutOfMemory => AdmitError::OutOfMemory,
        PageError::TooManyImages | PageError::PagesFull => unreachable!(),
    }
}

// Why a batch wasn't given, where few images are held, and the ring has room.
fn of_intake(error: IntakeError) -> AdmitError
    requires few { error ≢ IntakeError.Pages pages_refusals.TooManyImages }
    requires room { error ≢ IntakeError.Pages pages_refusals.PagesFull }
    requires free { error ≢ IntakeError.IntakeFull }
    ensures undamaged { (page : ℕ) → result ≢ AdmitError.BadNode page }
    ensures fault { (result ≡ AdmitError.Fault) ↔ (error ≡ IntakeError.Pages pages_refusals.Fault) }
    ensures refused { (down : Bool) → (error ≡ IntakeError.Pages pages_refusals.NeedsRecovery → down ≡ true) → (error ≡ IntakeError.Pages pages_refusals.Fault → down ≡ false) → PlanRefusal down result }
{
    match error {
        IntakeError::Pages(error) => of_page(error),
        IntakeError::IntakeFull => unreachable!(),
    }
}

/// Shows the pages as they are after a collector's batch, for which its ring has room, and returns their head.
pub(crate) fn plan_batch<P: Pages>(
    alloc: Global,
    pages: &mut P,
    settings: Settings,
    head: &Head,
    collector: u8,
    batch: &Sifted,
) -> Result<Head, AdmitError>
    requires collector { collector < length head.now.lanes }
    requires lanes { length head.now.lanes ≤ 16 }
    requires some { 0 < P.homes pages.old }
    requires none { P.named pages.old ≡ [] }
    requires octets { sum_by entry_octets batch.now.timely ≤ 262144 }
    requires free { (lane : Lane) → HasLane head.now collector lane → octets_for batch.now.timely ≤ 16384 * settings.ring - lane.used }
    ensures planned { IfOk result (λ next. (count : ℕ) (o : OnceState) (start : Start) (shown : List (List ℕ)) (h : History) (i : Intake) (offered : List Admitted) → P.shows pages.old start shown
        → HeadRepresents (TreeLocated count) settings (settled_in o) head.now shown h → slice_get h.intakes collector ≡ Some i → AllByRecursion IsAdmission offered → IsKeptOf i.mark offered batch.now
        → Planned count settings (settled_in o) (P.shows pages.new start) next (given h collector offered)) }
    ensures lanes { IfOk result (λ next. length next.lanes ≡ length head.now.lanes) }
    ensures block { IfOk result (λ next. next.block ≡ head.now.block) }
    ensures lane { IfOk result (λ next. (lane : Lane) → HasLane head.now collector lane → HasLane next collector (lane_with lane batch.now)) }
    ensures shown { (count : ℕ) (o : OnceState) (start : Start) (shown : List (List ℕ)) (h : History) → P.shows pages.old start shown → HeadRepresents (TreeLocated count) settings (settled_in o) head.now shown h
        → (now : List (List ℕ)) × P.shows pages.new start now }
    ensures undamaged { (count : ℕ) (o : OnceState) (start : Start) (shown : List (List ℕ)) (h : History) (i : Intake) (offered : List Admitted) (lane : Lane) → P.shows pages.old start shown
        → HeadRepresents (TreeLocated count) settings (settled_in o) head.now shown h → slice_get h.intakes collector ≡ Some i → IsKeptOf i.mark offered batch.now → HasLane head.now collector lane
        → lane.offered + length offered ≤ 18446744073709551615 → (page : ℕ) → result ≡ Err (AdmitError.BadNode page) → ⊥ }
    ensures refused { IfErr result (PlanRefusal (P.down pages.old)) }
    ensures device { KeepsDevice (P.honest pages.old) (P.honest pages.new) (P.faults pages.old) (P.faults pages.new) (result ≡ Err AdmitError.Fault) }
    ensures homes { P.homes pages.new ≡ P.homes pages.old }
    ensures honest { P.honest pages.old ↔ P.honest pages.new }
    ensures down { P.down pages.new ≡ P.down pages.old }
{
    let mut next = copy_head(alloc, head)?;
    if !can_give(pages.home_pages(), settings, &next, collector, batch) {
        return Err(AdmitError::BadNode(0));
    }
    if let Err(error) = give(alloc, pages, settings, &mut next, collector, batch) {
        return Err(of_intake(error));
    }
    if let Err(error) = put_head(alloc, pages, &next) {
        return Err(of_page(error));
    }
    Ok(next)
}
