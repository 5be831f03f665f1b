//! Reads all pending admissions.

ghost use Rattle.std.specs.Prelude.{◌≡◌, ◌≢◌, ◌<◌, ◌↔◌, ℕ, List, length, OnOk, IfErr, Err};
ghost use Rattle.page_tx.specs.Device.{KeepsDevice};
ghost use Rattle.page_tx.specs.Start.{Start};
ghost use Rattle.page_tx.specs.declared.error.PageError.TheVariants as pages_refusals;
ghost use Rattle.archive_head.specs.declared.lane.Lane.{Lane};
ghost use Rattle.intake.specs.Calls.{OnlyReads};
ghost use Rattle.archive_pages.specs.Batches.{HasLane};
ghost use Rattle.archive_pages.specs.Places.{ring_of};
ghost use Rattle.disk_archive.specs.Rings.{AreRings, IsBadRing, IsReadRing};
ghost use Rattle.disk_archive.specs.inner.Checking.{CountRefusal, FindsNone};

use crate::check_error::CheckError;
use archive_head::Head;
use archive_pages::{Settings, lane_of};
use intake::ReadError;
use page_tx::{PageError, Pages};
use std::alloc::Global;

// Why a page wasn't read.
fn of_pages(error: PageError) -> CheckError
    requires few { error ≢ PageError.TooManyImages }
    requires room { error ≢ PageError.PagesFull }
    ensures fault { (result ≡ CheckError.Fault) ↔ (error ≡ PageError.Fault) }
    ensures recovery { (result ≡ CheckError.NeedsRecovery) ↔ (error ≡ PageError.NeedsRecovery) }
    ensures finds { FindsNone result }
{
    match error {
        PageError::Fault => CheckError::Fault,
        PageError::NeedsRecovery => CheckError::NeedsRecovery,
        PageError::OutOfMemory => CheckError::OutOfMemory,
        PageError::TooManyImages | PageError::PagesFull => unreachable!(),
    }
}

// Reads the pending admissions of a collector.
fn check_ring<P: Pages>(
    alloc: Global,
    pages: &mut P,
    settings: Settings,
    head: &Head,
    collector: u8,
) -> Result<(), CheckError>
    requires collector { collector < length head.now.lanes }
    ensures read { (start : Start) (shown : List (List ℕ)) (lane : Lane) → P.shows pages.old start shown → HasLane head.now collector lane → OnOk result (IsReadRing shown (ring_of settings collector lane)) }
    ensures bad { (page : ℕ) → result ≡ Err (CheckError.BadNode page) → (start : Start) (shown : List (List ℕ)) → P.shows pages.old start shown → IsBadRing shown settings head.now page }
    ensures finds { (start : Start) (shown : List (List ℕ)) (lane : Lane) → P.shows pages.old start shown → HasLane head.now collector lane → IsReadRing shown (ring_of settings collector lane) → IfErr result FindsNone }
    ensures undamaged { (block : ℕ) → result ≢ Err (CheckError.Damaged block) }
    ensures refused { IfErr result (CountRefusal (P.down pages.old)) }
    ensures same { OnlyReads P.Pages pages.old pages.new (result ≡ Err CheckError.Fault) }
{
    let ring = settings.ring(collector, &lane_of(head, collector));
    if !ring.is_within(pages.home_pages()) {
        return Err(CheckError::BadNode(0));
    }
    match ring.count(alloc, pages) {
        Ok(_) => Ok(()),
        Err(ReadError::BadNode(page)) => Err(CheckError::BadNode(page)),
        Err(ReadError::Pages(refusal)) => Err(of_pages(refusal)),
    }
}

/// Reads the pending admissions of every collector.
pub(crate) fn check_rings<P: Pages>(
    alloc: Global,
    pages: &mut P,
    settings: Settings,
    head: &Head,
) -> Result<(), CheckError>
    requires lanes { length head.now.lanes ≡ settings.collectors }
    ensures read { (start : Start) (shown : List (List ℕ)) → P.shows pages.old start shown → OnOk result (AreRings shown settings head.now) }
    ensures bad { (page : ℕ) → result ≡ Err (CheckError.BadNode page) → (start : Start) (shown : List (List ℕ)) → P.shows pages.old start shown → IsBadRing shown settings head.now page }
    ensures finds { (start : Start) (shown : List (List ℕ)) → P.shows pages.old start shown → AreRings shown settings head.now → IfErr result FindsNone }
    ensures undamaged { (block : ℕ) → result ≢ Err (CheckError.Damaged block) }
    ensures refused { IfErr result (CountRefusal (P.down pages.old)) }
    ensures same { OnlyReads P.Pages pages.old pages.new (result ≡ Err CheckError.Fault) }
{
    for collector in 0..settings.collectors {
        check_ring(alloc, pages, settings, head, collector)?;
    }
    Ok(())
}
