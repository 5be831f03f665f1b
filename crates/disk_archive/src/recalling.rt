//! Reads what an archive has in memory from its pages: the head, each collector's mark, and the times of its pending admissions.

ghost use Rattle.std.specs.Prelude.{◌≡◌, ◌≢◌, ◌<◌, ◌≤◌, ◌↔◌, ℕ, List, length, map, IfOk, OnOk, IfErr, Err, IsTrue, slice_set, false};
ghost use Rattle.std.specs.List.{AllByRecursion};
ghost use Rattle.disk_models.specs.Once.{OnceState, settled_in};
ghost use Rattle.page_tx.specs.Start.{Start};
ghost use Rattle.route_model.specs.Admission.{Admitted};
ghost use Rattle.route_meaning.specs.Merged.{IsRising};
ghost use Rattle.route_meaning.specs.History.{History};
ghost use Rattle.sequencer.specs.Lanes.{marks, waiting_times};
ghost use Rattle.archive_head.specs.Head.{Contents, EncodesHead, IsHead};
ghost use Rattle.archive_head.specs.declared.lane.Lane.{Lane};
ghost use Rattle.intake.specs.Calls.{OnlyReads};
ghost use Rattle.intake.specs.Ring.{IsRing, page_at, time_of};
ghost use Rattle.archive_pages.specs.Batches.{HasLane};
ghost use Rattle.archive_pages.specs.Represented.{HeadRepresents};
ghost use Rattle.archive_pages.specs.Places.{ring_of};
ghost use Rattle.archive_pages.specs.Stored.{LaneHolds};
ghost use Rattle.disk_archive.specs.Mirrors.{Mirrors};
ghost use Rattle.disk_archive.specs.Trees.{TreeLocated};
ghost use Rattle.disk_archive.specs.inner.Recalling.{HasRoot, IsUnknown, RecallRefusal};

use crate::open_error::OpenError;
use archive_head::Head;
use archive_pages::{Settings, in_moments, lane_of};
use intake::ReadError;
use page_tx::{PageError, Pages};
use route_model::{Mark, Moment};
use sequencer::Sequencer;
use std::alloc::Global;

// Why a page wasn't read, if the journal needn't be opened again.
fn of_pages(error: PageError) -> OpenError
    requires recovery { error ≢ PageError.NeedsRecovery }
    requires few { error ≢ PageError.TooManyImages }
    requires room { error ≢ PageError.PagesFull }
    ensures fault { (result ≡ OpenError.Fault) ↔ (error ≡ PageError.Fault) }
    ensures undamaged { (page : ℕ) → result ≢ OpenError.BadNode page }
    ensures refused { RecallRefusal result }
{
    match error {
        PageError::Fault => OpenError::Fault,
        PageError::OutOfMemory => OpenError::OutOfMemory,
        PageError::NeedsRecovery | PageError::TooManyImages | PageError::PagesFull => {
            unreachable!()
        }
    }
}

/// Reads the head, with `collectors` collectors, from the first page.
pub(crate) fn read_head<P: Pages>(
    alloc: Global,
    pages: &mut P,
    collectors: u8,
) -> Result<Head, OpenError>
    requires some { 0 < P.homes pages.old }
    requires few { collectors ≤ 16 }
    requires usable { P.down pages.old ≡ false }
    ensures valid { IfOk result (λ head. IsHead head) }
    ensures lanes { IfOk result (λ head. length head.lanes ≡ collectors) }
    ensures first { IfOk result (λ head. (start : Start) (shown : List (List ℕ)) → P.shows pages.old start shown → EncodesHead head (page_at shown 0)) }
    ensures one { IfOk result (λ head. (start : Start) (shown : List (List ℕ)) (other : Contents) → P.shows pages.old start shown → length other.lanes ≡ collectors → EncodesHead other (page_at shown 0) → other ≡ head) }
    ensures sound { (start : Start) (shown : List (List ℕ)) (other : Contents) → P.shows pages.old start shown → length other.lanes ≡ collectors → EncodesHead other (page_at shown 0)
        → (page : ℕ) → result ≡ Err (OpenError.BadNode page) → ⊥ }
    ensures refused { IfErr result RecallRefusal }
    ensures same { OnlyReads P.Pages pages.old pages.new (result ≡ Err OpenError.Fault) }
{
    if let Err(error) = pages.fetch(0) {
        return Err(of_pages(error));
    }
    let Some(page) = pages.page(0) else {
        unreachable!();
    };
    match Head::read(alloc, page, usize::from(collectors))? {
        Some(head) => Ok(head),
        None => Err(OpenError::BadNode(0)),
    }
}

/// Whether the head names one of the tree's pages as its root, and one that was used.
pub(crate) fn has_root(homes: u64, settings: Settings, head: &Head) -> bool
    ensures has { IsTrue result ↔ HasRoot homes settings head.now }
{
    settings.tree_low() <= head.root && head.root < head.fresh && head.root < homes
}

// The times of a collector's pending admissions, in order and in moments.
fn waiting_of<P: Pages>(
    alloc: Global,
    pages: &mut P,
    settings: Settings,
    head: &Head,
    collector: u8,
) -> Result<Vec<Moment>, OpenError>
    requires collector { collector < length head.now.lanes }
    requires usable { P.down pages.old ≡ false }
    ensures times { IfOk result (λ times. (start : Start) (shown : List (List ℕ)) (lane : Lane) (waits : List Admitted) → P.shows pages.old start shown → HasLane head.now collector lane
        → LaneHolds settings shown collector lane waits → times.items ≡ map time_of waits) }
    ensures sound { (start : Start) (shown : List (List ℕ)) (lane : Lane) (waits : List Admitted) → P.shows pages.old start shown → HasLane head.now collector lane → IsRing (P.homes pages.old) (ring_of settings collector lane)
        → lane.since ≤ lane.admitted → LaneHolds settings shown collector lane waits → (page : ℕ) → result ≡ Err (OpenError.BadNode page) → ⊥ }
    ensures refused { IfErr result RecallRefusal }
    ensures same { OnlyReads P.Pages pages.old pages.new (result ≡ Err OpenError.Fault) }
{
    let lane = lane_of(head, collector);
    let ring = settings.ring(collector, &lane);
    if lane.since > lane.admitted || !ring.is_within(pages.home_pages()) {
        return Err(OpenError::BadNode(0));
    }
    match ring.waiting_times(alloc, pages) {
        Ok(times) => {
            let Some(times) = in_moments(&lane, times) else {
                return Err(OpenError::BadNode(0));
            };
            Ok(times)
        }
        Err(ReadError::BadNode(page)) => Err(OpenError::BadNode(page)),
        Err(ReadError::Pages(refusal)) => Err(of_pages(refusal)),
    }
}

// Adds the mark and the times of a collector's pending admissions. The times must rise, up to the mark.
fn know_lane(
    alloc: Global,
    sequencer: &mut Sequencer,
    collector: u8,
    times: &[Moment],
    mark: Mark,
) -> Result<(), OpenError>
    requires inside { collector < length sequencer.old }
    requires unknown { IsUnknown sequencer.old collector }
    ensures marks { OnOk result (marks sequencer.new ≡ slice_set (marks sequencer.old) collector mark) }
    ensures times { OnOk result (waiting_times sequencer.new ≡ slice_set (waiting_times sequencer.old) collector times.now) }
    ensures sound { IsRising (λ t. t) times.now → AllByRecursion (λ t. t ≤ mark) times.now → (page : ℕ) → result ≢ Err (OpenError.BadNode page) }
    ensures refused { IfErr result RecallRefusal }
    ensures quiet { result ≢ Err OpenError.Fault }
{
    let number = usize::from(collector);
    let sieved = sequencer.sieve(alloc, number, times)?;
    if !sieved.late.is_empty() {
        return Err(OpenError::BadNode(0));
    }
    sequencer.take_in(number, &sieved);
    match sequencer.raise(number, mark) {
        Ok(()) => Ok(()),
        Err(_) => Err(OpenError::BadNode(0)),
    }
}

/// The marks of all collectors, and the times of the pending admissions of each.
pub(crate) fn recall<P: Pages>(
    alloc: Global,
    pages: &mut P,
    settings: Settings,
    head: &Head,
) -> Result<Sequencer, OpenError>
    requires lanes { length head.now.lanes ≡ settings.collectors }
    requires usable { P.down pages.old ≡ false }
    ensures count { IfOk result (λ sequencer. length sequencer ≡ settings.collectors) }
    ensures mirrors { IfOk result (λ sequencer. (count : ℕ) (o : OnceState) (start : Start) (shown : List (List ℕ)) (h : History) → P.shows pages.old start shown → HeadRepresents (TreeLocated count) settings (settled_in o) head.now shown h
        → Mirrors sequencer h) }
    ensures sound { (count : ℕ) (o : OnceState) (start : Start) (shown : List (List ℕ)) (h : History) → P.shows pages.old start shown → HeadRepresents (TreeLocated count) settings (settled_in o) head.now shown h
        → (page : ℕ) → result ≡ Err (OpenError.BadNode page) → ⊥ }
    ensures refused { IfErr result RecallRefusal }
    ensures same { OnlyReads P.Pages pages.old pages.new (result ≡ Err OpenError.Fault) }
{
    let mut sequencer = Sequencer::new(alloc, settings.collectors)?;
    for collector in 0..settings.collectors {
        let times = waiting_of(alloc, pages, settings, head, collector)?;
        let mark = lane_of(head, collector).mark;
        know_lane(alloc, &mut sequencer, collector, &times, mark)?;
    }
    Ok(sequencer)
}
