//! Applies the next changes.

ghost use Rattle.std.specs.Prelude.{◌≡◌, ◌⊎◌, ◌↔◌, ◌<◌, ℕ, List, [], length, min, sum_by, IfOk, OnOk, OnErr, IfErr, Ok, Err, true, false};
ghost use Rattle.route_meaning.specs.History.{History, applied};
ghost use Rattle.interleaving_core.specs.Steps.{NothingToApply};
ghost use Rattle.page_journal.specs.Journal.{disk_of, home_pages, needs_recovery, note_of};
ghost use Rattle.buffer_pool.specs.Pool.{Maps, journal_of};
ghost use Rattle.page_tx.specs.Tx.{Shows, named_pages, next_page, pool_of};
ghost use Rattle.disk_archive.specs.Moves.{Moves};

use crate::apply_error::ApplyError;
use crate::archive::Archive;
use crate::committing::{begin, commit};
use crate::error::NeedsRecovery;
use crate::planning_changes::{Application, plan_changes};
use archive_head::Head;
use disk_models::{EraseDisk, OnceDisk};
use page_tx::{Pages, Tx};

/// What a step of applying did.
#[derive(Clone, Copy, Debug, PartialEq, Eq)]
pub enum Step {
    /// At least one change is applied, or an admission without changes.
    Applied,
    /// No admission may be applied: no pending one is below every mark.
    Idle,
}

// Begins a transaction without an image, where the archive needn't be opened again. The pages are in use up to the first
// one that the head calls unused, or all of them are.
fn begin_from<E: EraseDisk + Drop>(tx: &mut Tx<E>, head: &Head) -> Result<(), NeedsRecovery>
    ensures shown { OnOk result (E.honest (disk_of (journal_of (pool_of tx.old))) → (pages : List (List ℕ)) → Maps E.EraseDisk (pool_of tx.old) pages
        → Shows E.EraseDisk tx.new (record { note = note_of (journal_of (pool_of tx.old)); pages = pages; clock = (E.model (disk_of (journal_of (pool_of tx.old)))).clock }) pages) }
    ensures down { OnErr result (needs_recovery (journal_of (pool_of tx.old)) ≡ true) }
    ensures usable { OnOk result (needs_recovery (journal_of (pool_of tx.old)) ≡ false) }
    ensures named { named_pages tx.new ≡ [] }
    ensures next { OnOk result (next_page tx.new ≡ min head.now.fresh (home_pages (journal_of (pool_of tx.old)))) }
    ensures same { journal_of (pool_of tx.new) ≡ journal_of (pool_of tx.old) }
{
    begin(tx)?;
    let unused = head.fresh.min(tx.home_pages());
    tx.begin(unused);
    Ok(())
}

impl<E: EraseDisk + Drop, O: OnceDisk + Drop> Archive<E, O> {
    ghost use Rattle.disk_models.specs.Once.{Grows};
    ghost use Rattle.disk_archive.specs.Archives.{Represents, GoesOn, RepresentsIfHonest, ContinuesFrom, IsHonest, erase_of, erase_state, is_down, once_of, once_state, pen_in, settings_of, site_of};
    ghost use Rattle.disk_archive.specs.Blanks.{NoneBlank, unused_pages};
    ghost use Rattle.disk_archive.specs.Checks.{HasPages, root_in};
    ghost use Rattle.disk_archive.specs.Failures.{ReportsOne};
    ghost use Rattle.disk_archive.specs.Lacks.{HasRoom, IsNextVersion, NeedsBlock, LacksLevel, LacksPages};
    ghost use Rattle.tsb_tree.specs.Opened.{HasRootLevel};
    ghost use Rattle.tsb_tree.specs.Shelves.{SpendsAtMost};
    ghost use Rattle.disk_archive.specs.Sites.{LeftEither};
    ghost use Rattle.disk_archive.specs.Crashes.{Crashes, Lasts};
    ghost use Rattle.disk_archive.specs.inner.Applications.{ApplyRefusal, KeepsBlocks, LackRefusal, LimitRefusal};
    ghost use Rattle.disk_archive.specs.inner.Idle.{IsAsBefore};
    ghost use Rattle.disk_archive.specs.inner.Outcomes.{StepIs, CrashesOnStep};

    // Applies the next changes if the archive represents a history.
    fn try_apply(&mut self) -> Result<Step, ApplyError>
        ensures usable { OnOk result (is_down self.old ≡ false) }
        ensures still_usable { OnOk result (is_down self.new ≡ false) }
        ensures falls { is_down self.old ≡ false → is_down self.new ≡ true → result ≡ Err ApplyError.Fault }
        ensures failed { ReportsOne (E.fault_count (erase_of self.old)) (E.fault_count (erase_of self.new)) (O.pen_fault_count (pen_in self.old)) (O.pen_fault_count (pen_in self.new)) (result ≡ Err ApplyError.Fault) }
        ensures recovery { is_down self.old ≡ true → IsAsBefore self.old self.new }
        ensures reported { is_down self.old ≡ true → result ≡ Err ApplyError.NeedsRecovery }
        ensures refused { IfErr result (ApplyRefusal (is_down self.old)) }
        ensures limits { IfErr result (LimitRefusal (home_pages (journal_of (pool_of self.old.tx))) self.old.head.fresh self.old.head.applied) }
        ensures lacks { (h : History) (k : Represents self.old h) → IfErr result (LackRefusal (IsNextVersion h) k.pages (unused_pages self.old) (root_in self.old)) }
        ensures room { result ≡ Ok Step.Applied → (h : History) (k : Represents self.old h) → HasRoom (IsNextVersion h) k.pages (unused_pages self.old) (root_in self.old) self.old.head.applied (NoneBlank self.old) }
        ensures high { IsHonest self.old → (pages : List (List ℕ)) → HasPages self.old pages → result ≡ Err ApplyError.TooHigh → HasRootLevel pages (root_in self.old) 7 }
        ensures erase { E.honest (erase_of self.old) ↔ E.honest (erase_of self.new) }
        ensures settings { settings_of self.new ≡ settings_of self.old }
        ensures shelf { KeepsBlocks O.OnceDisk 2000 self.old.shelf self.new.shelf (result ≡ Err ApplyError.OnceFull) }
        ensures ok { IfOk result (λ step. (h : History) → Represents self.old h → StepIs self.new step h) }
        ensures still { result ≡ Ok Step.Idle → IsAsBefore self.old self.new }
        ensures err { OnErr result ((h : History) → Represents self.old h → GoesOn self.new h) }
        ensures sound { (h : History) → Represents self.old h → (page : ℕ) → result ≡ Err (ApplyError.BadNode page) → ⊥ }
        ensures memory { (h : History) → Represents self.old h → result ≡ Err ApplyError.OutOfMemory → (erase_state self.new).clock ≡ (erase_state self.old).clock }
        ensures crash { (h : History) → Represents self.old h → CrashesOnStep self.old self.new h }
    {
        begin_from(&mut self.tx, &self.head)?;
        let Some(number) = self.sequencer.next() else {
            return Ok(Step::Idle);
        };
        let kept = self.kept.take();
        let Application { head, ahead, kept } = plan_changes(
            self.alloc,
            &mut self.tx,
            &mut self.shelf,
            self.settings,
            &self.head,
            &self.sequencer,
            number,
            kept,
        )?;
        self.kept = Some(kept);
        commit(&mut self.tx)?;
        self.head = head;
        self.sequencer.take_passed(&ahead);
        Ok(Step::Applied)
    }

    /// Applies the next changes, of the first pending admission and of those after it, of any collector: as many as surely fit one
    /// transaction, and none that isn't below every mark, in up to 1,000 runs: changes of one admission, one after another, into one leaf.
    /// An admission without changes counts as a run, and is applied at once. With its last change an admission is wholly applied, and leaves
    /// its ring.
    ///
    /// Blocks that are burnt for it, at most two a run, are settled before a page is written. If a change after the first one is
    /// refused, the changes before it are applied, and the refusal is left to the next call. A failure of a device is returned by the call
    /// in which it occurs, at whichever change: then none is applied, and the next call plans them anew, in further blocks.
    ///
    /// After a refusal the archive represents the history from before the call, and the call leaves nothing but spent blocks; if a write or a
    /// sync of pages failed, it must be opened again, and the changes are then applied, all of them or none.
    pub fn apply_step(&mut self) -> Result<Step, ApplyError>
        ensures applied { IfOk result (λ step. step ≡ Step.Applied → IsHonest self.old → (h : History) → RepresentsIfHonest self.old h → (g : History) × Moves h g × RepresentsIfHonest self.new g) }
        ensures idle { IfOk result (λ step. IsHonest self.old → (h : History) → RepresentsIfHonest self.old h → (step ≡ Step.Idle) ↔ NothingToApply h) }
        ensures idle_same { result ≡ Ok Step.Idle → (h : History) → RepresentsIfHonest self.old h → RepresentsIfHonest self.new h }
        ensures still { result ≡ Ok Step.Idle → erase_of self.new ≡ erase_of self.old }
        ensures unspent { result ≡ Ok Step.Idle → once_state self.new ≡ once_state self.old }
        ensures err { OnErr result ((h : History) → RepresentsIfHonest self.old h → RepresentsIfHonest self.new h) }
        ensures crash { (h : History) → Represents self.old h → (g : History) × ((g ≡ h) ⊎ Moves h g) × Crashes self.old self.new (LeftEither (site_of self.old) h g) }
        ensures lasts { (h : History) → ContinuesFrom self.old h → Lasts self.old self.new h }
        ensures memory { IsHonest self.old → (h : History) → RepresentsIfHonest self.old h → result ≡ Err ApplyError.OutOfMemory → (erase_state self.new).clock ≡ (erase_state self.old).clock }
        ensures usable { OnOk result (is_down self.old ≡ false) }
        ensures down_idle { is_down self.old ≡ true → (erase_of self.new ≡ erase_of self.old) × (once_state self.new ≡ once_state self.old) × (is_down self.new ≡ true) }
        ensures still_usable { OnOk result (is_down self.new ≡ false) }
        ensures falls { is_down self.old ≡ false → is_down self.new ≡ true → result ≡ Err ApplyError.Fault }
        ensures failed { ReportsOne (E.fault_count (erase_of self.old)) (E.fault_count (erase_of self.new)) (O.pen_fault_count (pen_in self.old)) (O.pen_fault_count (pen_in self.new)) (result ≡ Err ApplyError.Fault) }
        ensures recovery { (result ≡ Err ApplyError.NeedsRecovery) ↔ (is_down self.old ≡ true) }
        ensures counter_full { IsHonest self.old → (h : History) → RepresentsIfHonest self.old h → result ≡ Err ApplyError.CounterFull → sum_by (λ p. length p.item.changes) (applied h) ≡ 18446744073709551615 }
        ensures pages_full { result ≡ Err ApplyError.PagesFull → unused_pages self.old < 9 }
        ensures pages_needed { IsHonest self.old → (h : History) → RepresentsIfHonest self.old h → result ≡ Err ApplyError.PagesFull → (pages : List (List ℕ)) × HasPages self.old pages × LacksPages (IsNextVersion h) pages (unused_pages self.old) (root_in self.old) }
        ensures too_high { IsHonest self.old → (pages : List (List ℕ)) → HasPages self.old pages → result ≡ Err ApplyError.TooHigh → HasRootLevel pages (root_in self.old) 7 }
        ensures level_needed { IsHonest self.old → (h : History) → RepresentsIfHonest self.old h → result ≡ Err ApplyError.TooHigh → (pages : List (List ℕ)) × HasPages self.old pages × LacksLevel (IsNextVersion h) pages (root_in self.old) }
        ensures full { IsHonest self.old → result ≡ Err ApplyError.OnceFull → NoneBlank self.new }
        ensures room { result ≡ Ok Step.Applied → IsHonest self.old → (h : History) → RepresentsIfHonest self.old h → (pages : List (List ℕ)) × HasPages self.old pages × HasRoom (IsNextVersion h) pages (unused_pages self.old) (root_in self.old) (sum_by (λ p. length p.item.changes) (applied h)) (NoneBlank self.old) }
        ensures block_needed { IsHonest self.old → (h : History) → RepresentsIfHonest self.old h → result ≡ Err ApplyError.OnceFull → (pages : List (List ℕ)) × HasPages self.old pages × NeedsBlock (IsNextVersion h) pages (root_in self.old) }
        ensures spends { IsHonest self.old → SpendsAtMost 2000 (once_state self.old) (once_state self.new) }
        ensures sound { IsHonest self.old → (h : History) → RepresentsIfHonest self.old h → (page : ℕ) → result ≡ Err (ApplyError.BadNode page) → ⊥ }
        ensures honest { IsHonest self.old ↔ IsHonest self.new }
        ensures settings { settings_of self.new ≡ settings_of self.old }
        ensures disk { once_of self.new ≡ once_of self.old }
        ensures grows { IsHonest self.old → Grows (once_state self.old) (once_state self.new) }
    {
        self.try_apply()
    }
}
