//! Raises a collector's mark.

ghost use Rattle.std.specs.Prelude.{◌≡◌, ◌≢◌, ◌<◌, ◌≤◌, ◌+◌, ◌⊎◌, ◌↔◌, ℕ, List, [], length, min, Some, IfOk, OnOk, OnErr, IfErr, IsOk, Err, slice_get, slice_set, true, false};
ghost use Rattle.disk_models.specs.Once.{OnceState, settled_in};
ghost use Rattle.page_tx.specs.Device.{KeepsDevice};
ghost use Rattle.page_tx.specs.Start.{Start};
ghost use Rattle.route_meaning.specs.History.{History, Intake};
ghost use Rattle.sequencer.specs.Lanes.{HasMarkAbove, Raises, marks};
ghost use Rattle.interleaving_core.specs.Steps.{IsMarkAbove, marked};
ghost use Rattle.archive_head.specs.Head.{head_octets};
ghost use Rattle.archive_pages.specs.Represented.{HeadRepresents};
ghost use Rattle.disk_archive.specs.Trees.{TreeLocated};
ghost use Rattle.disk_archive.specs.inner.Planning.{Planned};

use crate::archive::Archive;
use crate::committing::{begin, commit};
use crate::mark_error::MarkError;
use archive_head::Head;
use archive_pages::{Settings, copy_head, mark_head, put_head};
use disk_models::{EraseDisk, OnceDisk};
use page_tx::{PageError, Pages};
use route_model::Mark;
use sequencer::Sequencer;
use std::alloc::Global;

// Whether a mark is above the collector's; it may also be the same.
fn is_raised(
    settings: Settings,
    sequencer: &Sequencer,
    collector: u8,
    mark: Mark,
) -> Result<bool, MarkError>
    requires lanes { length sequencer.now ≡ settings.collectors }
    ensures collector { OnOk result (collector < settings.collectors) }
    ensures no_collector { (result ≡ Err MarkError.NoCollector) ↔ (settings.collectors ≤ collector) }
    ensures back { result ≡ Err MarkError.MarkBack → (present : ℕ) → slice_get (marks sequencer.now) collector ≡ Some present → mark < present }
    ensures forward { OnOk result ((present : ℕ) → slice_get (marks sequencer.now) collector ≡ Some present → present ≤ mark) }
    ensures above { IfOk result (λ above. (present : ℕ) → slice_get (marks sequencer.now) collector ≡ Some present → (above ≡ true) ↔ (present < mark)) }
    ensures refused { IfErr result (λ e. (e ≡ MarkError.NoCollector) ⊎ (e ≡ MarkError.MarkBack)) }
{
    if collector >= settings.collectors {
        return Err(MarkError::NoCollector);
    }
    let present = sequencer.mark(usize::from(collector)).number();
    let asked = mark.number();
    if asked < present {
        return Err(MarkError::MarkBack);
    }
    Ok(present < asked)
}

// Gives the sequencer a mark that isn't below the collector's.
fn raise(sequencer: &mut Sequencer, collector: u8, mark: Mark)
    requires collector { collector < length sequencer.old }
    requires forward { (present : ℕ) → slice_get (marks sequencer.old) collector ≡ Some present → present ≤ mark }
    ensures raised { Raises sequencer.old collector mark sequencer.new }
{
    match sequencer.raise(usize::from(collector), mark) {
        Ok(()) => {}
        Err(_) => unreachable!(),
    }
}

// Why the head wasn't laid over its page, if no other image is held.
fn of_head(error: PageError) -> MarkError
    requires memory { error ≡ PageError.OutOfMemory }
    ensures memory { result ≡ MarkError.OutOfMemory }
{
    match error {
        PageError::OutOfMemory => MarkError::OutOfMemory,
        PageError::Fault
        | PageError::NeedsRecovery
        | PageError::TooManyImages
        | PageError::PagesFull => unreachable!(),
    }
}

// Shows the head with a collector's mark, and returns it.
fn plan_mark<P: Pages>(
    alloc: Global,
    pages: &mut P,
    head: &Head,
    collector: u8,
    mark: Mark,
) -> Result<Head, MarkError>
    requires collector { collector < length head.now.lanes }
    requires lanes { length head.now.lanes ≤ 16 }
    requires some { 0 < P.homes pages.old }
    requires none { P.named pages.old ≡ [] }
    ensures planned { IfOk result (λ next. (settings : Settings) (count : ℕ) (o : OnceState) (start : Start) (shown : List (List ℕ)) (h : History) → P.shows pages.old start shown
        → HeadRepresents (TreeLocated count) settings (settled_in o) head.now shown h → (IsMarkAbove h collector mark → ⊥)
        → Planned count settings (settled_in o) (P.shows pages.new start) next (marked h collector mark)) }
    ensures lanes { IfOk result (λ next. length next.lanes ≡ length head.now.lanes) }
    ensures block { IfOk result (λ next. next.block ≡ head.now.block) }
    ensures same { OnErr result ((start : Start) (shown : List (List ℕ)) → P.shows pages.old start shown → P.shows pages.new start shown) }
    ensures refused { IfErr result (λ e. e ≡ MarkError.OutOfMemory) }
    ensures device { KeepsDevice (P.honest pages.old) (P.honest pages.new) (P.faults pages.old) (P.faults pages.new) ⊥ }
    ensures homes { P.homes pages.new ≡ P.homes pages.old }
    ensures honest { P.honest pages.old ↔ P.honest pages.new }
    ensures down { P.down pages.new ≡ P.down pages.old }
{
    let _range = mark.number();
    let mut next = copy_head(alloc, head)?;
    mark_head(&mut next, collector, mark);
    if let Err(error) = put_head(alloc, pages, &next) {
        return Err(of_head(error));
    }
    Ok(next)
}

impl<E: EraseDisk + Drop, O: OnceDisk + Drop> Archive<E, O> {
    ghost use Rattle.disk_archive.specs.Archives.{Represents, GoesOn, RepresentsIfHonest, ContinuesFrom, IsHonest, erase_of, erase_state, is_down, once_of, once_state, pen_in, settings_of, site_of};
    ghost use Rattle.disk_archive.specs.Sites.{LeftMarked};
    ghost use Rattle.disk_archive.specs.Crashes.{Crashes, Lasts};
    ghost use Rattle.disk_archive.specs.inner.Idle.{IsAsBefore};

    // Raises a mark if the archive represents a history.
    fn try_mark(&mut self, collector: u8, mark: Mark) -> Result<(), MarkError>
        ensures usable { OnOk result (is_down self.old ≡ false) }
        ensures still_usable { OnOk result (is_down self.new ≡ false) }
        ensures falls { is_down self.old ≡ false → is_down self.new ≡ true → result ≡ Err MarkError.Fault }
        ensures device { KeepsDevice (E.honest (erase_of self.old)) (E.honest (erase_of self.new)) (E.fault_count (erase_of self.old)) (E.fault_count (erase_of self.new)) (result ≡ Err MarkError.Fault) }
        ensures pen { pen_in self.new ≡ pen_in self.old }
        ensures idle { is_down self.old ≡ true → IsAsBefore self.old self.new }
        ensures recovery { (result ≡ Err MarkError.NeedsRecovery) ↔ (is_down self.old ≡ true) }
        ensures no_collector { (result ≡ Err MarkError.NoCollector) ↔ ((is_down self.old ≡ false) × ((settings_of self.old).collectors ≤ collector)) }
        ensures mark_back { (h : History) → Represents self.old h → (result ≡ Err MarkError.MarkBack) ↔ IsMarkAbove h collector mark }
        ensures forward { (h : History) → Represents self.old h → OnOk result (IsMarkAbove h collector mark → ⊥) }
        ensures present { (h : History) → Represents self.old h → (i : Intake) → slice_get h.intakes collector ≡ Some i → mark ≡ i.mark → IsOk result × IsAsBefore self.old self.new }
        ensures honest { IsHonest self.old ↔ IsHonest self.new }
        ensures settings { settings_of self.new ≡ settings_of self.old }
        ensures disk { once_of self.new ≡ once_of self.old }
        ensures blocks { once_state self.new ≡ once_state self.old }
        ensures ok { OnOk result ((h : History) → Represents self.old h → Represents self.new (marked h collector mark)) }
        ensures err { OnErr result ((h : History) → Represents self.old h → GoesOn self.new h) }
        ensures memory { (h : History) → Represents self.old h → result ≡ Err MarkError.OutOfMemory → (erase_state self.new).clock ≡ (erase_state self.old).clock }
        ensures crash { (h : History) → Represents self.old h → Crashes self.old self.new (LeftMarked (site_of self.old) h collector mark) }
    {
        begin(&mut self.tx)?;
        let raised = is_raised(self.settings, &self.sequencer, collector, mark)?;
        if !raised {
            return Ok(());
        }
        let next = plan_mark(self.alloc, &mut self.tx, &self.head, collector, mark)?;
        commit(&mut self.tx)?;
        self.head = next;
        raise(&mut self.sequencer, collector, mark);
        Ok(())
    }

    /// Raises the mark of a collector: no later record of it is earlier. The present mark may be given again, and then
    /// nothing is written.
    ///
    /// From an Ok on each crash leaves a history with the mark. After a refusal the archive represents the history from before the call; if
    /// a write or a sync failed, it must be opened again, and the collector then has its mark from before the call, or this one.
    pub fn mark(&mut self, collector: u8, mark: Mark) -> Result<(), MarkError>
        ensures ok { OnOk result ((h : History) → RepresentsIfHonest self.old h → RepresentsIfHonest self.new (marked h collector mark)) }
        ensures err { OnErr result ((h : History) → RepresentsIfHonest self.old h → RepresentsIfHonest self.new h) }
        ensures crash { (h : History) → Represents self.old h → Crashes self.old self.new (LeftMarked (site_of self.old) h collector mark) }
        ensures lasts { (h : History) → ContinuesFrom self.old h → Lasts self.old self.new h }
        ensures memory { IsHonest self.old → (h : History) → RepresentsIfHonest self.old h → result ≡ Err MarkError.OutOfMemory → (erase_state self.new).clock ≡ (erase_state self.old).clock }
        ensures usable { OnOk result (is_down self.old ≡ false) }
        ensures idle { is_down self.old ≡ true → (erase_of self.new ≡ erase_of self.old) × (once_state self.new ≡ once_state self.old) × (is_down self.new ≡ true) }
        ensures still_usable { OnOk result (is_down self.new ≡ false) }
        ensures falls { is_down self.old ≡ false → is_down self.new ≡ true → result ≡ Err MarkError.Fault }
        ensures quiet { result ≢ Err MarkError.Fault → E.fault_count (erase_of self.new) ≡ E.fault_count (erase_of self.old) }
        ensures counted { result ≡ Err MarkError.Fault → E.fault_count (erase_of self.new) ≡ min (E.fault_count (erase_of self.old) + 1) 18446744073709551615 }
        ensures pen { pen_in self.new ≡ pen_in self.old }
        ensures recovery { (result ≡ Err MarkError.NeedsRecovery) ↔ (is_down self.old ≡ true) }
        ensures no_collector { (result ≡ Err MarkError.NoCollector) ↔ ((is_down self.old ≡ false) × ((settings_of self.old).collectors ≤ collector)) }
        ensures mark_back { IsHonest self.old → (h : History) → RepresentsIfHonest self.old h → (result ≡ Err MarkError.MarkBack) ↔ ((is_down self.old ≡ false) × IsMarkAbove h collector mark) }
        ensures present { IsHonest self.old → is_down self.old ≡ false → (h : History) → RepresentsIfHonest self.old h → (i : Intake) → slice_get h.intakes collector ≡ Some i → mark ≡ i.mark → IsOk result × (erase_of self.new ≡ erase_of self.old) }
        ensures honest { IsHonest self.old ↔ IsHonest self.new }
        ensures settings { settings_of self.new ≡ settings_of self.old }
        ensures disk { once_of self.new ≡ once_of self.old }
        ensures blocks { once_state self.new ≡ once_state self.old }
    {
        self.try_mark(collector, mark)
    }
}
