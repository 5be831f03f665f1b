//! What the application of many changes is to commit: pages that are shown in one transaction, and their head. The sequencer stays as it
//! is meanwhile, and no page is written yet.

ghost use Rattle.std.specs.Prelude.{◌≡◌, ◌≢◌, ◌<◌, ◌≤◌, ◌+◌, ◌-◌, ◌↔◌, ℕ, List, [], length, min, slice_get, Some, IfOk, OnOk, OnErr, IfErr, IsErr, Err, true, false};
ghost use Rattle.disk_models.specs.Once.{OnceState, settled_in};
ghost use Rattle.once_store.specs.Shelves.{disk_of, next_of, pen_of};
ghost use Rattle.page_tx.specs.Device.{KeepsDevice};
ghost use Rattle.page_tx.specs.Start.{Start};
ghost use Rattle.route_meaning.specs.History.{History};
ghost use Rattle.sequencer.specs.Ahead.{beyond};
ghost use Rattle.sequencer.specs.First.{IsNext};
ghost use Rattle.sequencer.specs.Lanes.{Releases, waiting_times};
ghost use Rattle.archive_pages.specs.Represented.{HeadRepresents};
ghost use Rattle.tsb_tree.specs.Opened.{HasRootLevel};
ghost use Rattle.tsb_tree.specs.Shelves.{HasNoneBlank};
ghost use Rattle.disk_archive.specs.Failures.{ReportsOne};
ghost use Rattle.disk_archive.specs.Lacks.{HasRoom, IsNextVersion};
ghost use Rattle.disk_archive.specs.Mirrors.{Mirrors};
ghost use Rattle.disk_archive.specs.Trees.{TreeLocated};
ghost use Rattle.disk_archive.specs.inner.Applications.{Advances, ApplyRefusal, FrontRefusal, IsAtHand, IsPlan, KeepsBlocks, LackRefusal, LimitRefusal, OfApply, PlansMove, Reached, Reaches};

use crate::apply_error::{ApplyError, of_pages};
use crate::change_error::ChangeError;
use crate::planning_application::{front_of, plan_change};
use crate::planning_run::plan_run;
use crate::stop::Stop;
use archive_head::Head;
use archive_pages::{Settings, copy_head, put_head};
use disk_models::{Fault, OnceDisk};
use intake::Encoded;
use once_store::Shelf;
use page_tx::Pages;
use route_model::Moment;
use sequencer::{Ahead, Sequencer};
use std::alloc::Global;

// Of how many pages, without the head's, a transaction may hold images.
const MOST_IMAGES: usize = 30;

// How many runs of changes, each into one leaf, are applied at most after the first change of a transaction.
const MORE_RUNS: u32 = 999;

/// An admission that waits, and its collector.
#[derive(Drop)]
pub(crate) struct Front {
    pub(crate) collector: u8,
    pub(crate) admission: Encoded,
}

/// What is planned so far: the head, the admissions that are wholly applied, as those that are passed over, and the admission at hand,
/// which may be wholly applied too.
#[derive(Drop)]
pub(crate) struct Plan {
    pub(crate) head: Head,
    pub(crate) ahead: Ahead,
    pub(crate) front: Front,
    pub(crate) whole: bool,
}

/// What is to be committed: the head that is on its page, and the admissions that are wholly applied. The last admission that was at hand
/// is kept, since the next changes are mostly its own.
#[derive(Drop)]
pub(crate) struct Application {
    pub(crate) head: Head,
    pub(crate) ahead: Ahead,
    pub(crate) kept: Encoded,
}

// The time of the collector that is next.
fn time_of_next(sequencer: &Sequencer, ahead: &Ahead, number: usize) -> Moment
    requires count { length ahead.now ≡ length sequencer.now }
    requires next { IsNext (beyond ahead.now sequencer.now) number }
    ensures time { (times : List ℕ) → slice_get (waiting_times (beyond ahead.now sequencer.now)) number ≡ Some times → slice_get times 0 ≡ Some result }
{
    let Some(time) = sequencer.time_after(ahead, number) else {
        unreachable!();
    };
    time
}

// Takes the first admission of the collector that is next. No change of it is applied.
fn begin_plan<P: Pages>(
    alloc: Global,
    pages: &mut P,
    settings: Settings,
    head: &Head,
    sequencer: &Sequencer,
    number: usize,
    kept: Option<Encoded>,
) -> Result<Plan, ApplyError>
    requires lanes { length head.now.lanes ≡ length sequencer.now }
    requires few { length sequencer.now ≤ 16 }
    requires first { IsNext sequencer.now number }
    ensures reached { IfOk result (λ plan. (count : ℕ) (o : OnceState) (start : Start) (shown : List (List ℕ)) (h : History) → P.shows pages.old start shown → HeadRepresents (TreeLocated count) settings (settled_in o) head.now shown h → Mirrors sequencer.now h
        → Reached count settings (settled_in o) (P.shows pages.new start) sequencer.now plan h) }
    ensures fits { IfOk result (λ plan. (block : ℕ) → P.next pages.old ≡ min head.now.fresh (P.homes pages.old) → head.now.block ≤ block → IsPlan settings (P.homes pages.old) (P.next pages.old) block sequencer.now plan) }
    ensures hand { IfOk result (λ plan. plan.whole ≡ false) }
    ensures sound { (count : ℕ) (o : OnceState) (start : Start) (shown : List (List ℕ)) (h : History) → P.shows pages.old start shown → HeadRepresents (TreeLocated count) settings (settled_in o) head.now shown h → Mirrors sequencer.now h
        → (page : ℕ) → result ≡ Err (ApplyError.BadNode page) → ⊥ }
    ensures refused { IfErr result (FrontRefusal (P.down pages.old)) }
    ensures head { IfOk result (λ plan. plan.head ≡ head.now) }
    ensures reads { (start : Start) (shown : List (List ℕ)) → P.shows pages.old start shown → P.shows pages.new start shown }
    ensures homes { P.homes pages.new ≡ P.homes pages.old }
    ensures next { P.next pages.new ≡ P.next pages.old }
    ensures named { P.named pages.new ≡ P.named pages.old }
    ensures down { P.down pages.new ≡ P.down pages.old }
    ensures honest { P.honest pages.old ↔ P.honest pages.new }
    ensures device { KeepsDevice (P.honest pages.old) (P.honest pages.new) (P.faults pages.old) (P.faults pages.new) (result ≡ Err ApplyError.Fault) }
{
    let next = copy_head(alloc, head)?;
    let ahead = sequencer.ahead(alloc)?;
    let collector = number as u8;
    let time = time_of_next(sequencer, &ahead, number);
    let admission = front_of(alloc, pages, settings, &next, collector, time, kept)?;
    Ok(Plan {
        head: next,
        ahead,
        front: Front {
            collector,
            admission,
        },
        whole: false,
    })
}

// The first time of the collector is passed over, where its admission is wholly applied.
fn pass_whole(sequencer: &Sequencer, ahead: &mut Ahead, collector: u8, whole: bool)
    requires count { length ahead.old ≡ length sequencer.now }
    requires next { IsNext (beyond ahead.old sequencer.now) collector }
    ensures count { length ahead.new ≡ length sequencer.now }
    ensures leaves { whole ≡ true → Releases (beyond ahead.old sequencer.now) collector (beyond ahead.new sequencer.now) }
    ensures stays { whole ≡ false → ahead.new ≡ ahead.old }
{
    if whole {
        sequencer.pass(ahead, usize::from(collector));
    }
}

// Applies the next change of the admission at hand, or passes over it where it has no other. After a refusal the plan is as it was.
fn plan_step<P: Pages, O: OnceDisk + Drop>(
    alloc: Global,
    pages: &mut P,
    shelf: &mut Shelf<O>,
    settings: Settings,
    sequencer: &Sequencer,
    plan: &mut Plan,
) -> Result<(), ChangeError>
    requires fits { IsPlan settings (P.homes pages.old) (P.next pages.old) (next_of shelf.old) sequencer.now plan.old }
    requires hand { plan.old.whole ≡ false }
    requires few { length (P.named pages.old) < 30 }
    ensures moves { OnOk result ((start : Start) (h : History) → O.honest (disk_of shelf.old) (pen_of shelf.old)
        → Reached (O.block_count (disk_of shelf.old)) settings (settled_in (O.model (pen_of shelf.old))) (P.shows pages.old start) sequencer.now plan.old h
        → Advances (O.block_count (disk_of shelf.old)) settings (settled_in (O.model (pen_of shelf.new))) (P.shows pages.new start) sequencer.now plan.new h) }
    ensures first { length (P.named pages.old) ≤ 13 → result ≡ Err ChangeError.NoRoom → ⊥ }
    ensures as_before { OnErr result (plan.new ≡ plan.old) }
    ensures as_shown { OnErr result ((start : Start) (shown : List (List ℕ)) → P.shows pages.old start shown → P.shows pages.new start shown) }
    ensures fits { IsPlan settings (P.homes pages.new) (P.next pages.new) (next_of shelf.new) sequencer.now plan.new }
    ensures sound { (start : Start) (h : History) → O.honest (disk_of shelf.old) (pen_of shelf.old)
        → Reached (O.block_count (disk_of shelf.old)) settings (settled_in (O.model (pen_of shelf.old))) (P.shows pages.old start) sequencer.now plan.old h
        → (page : ℕ) → result ≡ Err (ChangeError.Apply (ApplyError.BadNode page)) → ⊥ }
    ensures few { length (P.named pages.new) ≤ 30 }
    ensures refused { IfErr result (OfApply (ApplyRefusal (P.down pages.old))) }
    ensures high { (start : Start) (shown : List (List ℕ)) → P.shows pages.old start shown → result ≡ Err (ChangeError.Apply ApplyError.TooHigh) → HasRootLevel shown plan.old.head.root 7 }
    ensures limits { IfErr result (OfApply (LimitRefusal (P.homes pages.old) (P.next pages.old) plan.old.head.applied)) }
    ensures lacks { (start : Start) (h : History) → O.honest (disk_of shelf.old) (pen_of shelf.old)
        → (r : Reached (O.block_count (disk_of shelf.old)) settings (settled_in (O.model (pen_of shelf.old))) (P.shows pages.old start) sequencer.now plan.old h)
        → IfErr result (OfApply (LackRefusal (IsNextVersion h) r.pages (P.homes pages.old - P.next pages.old) plan.old.head.root)) }
    ensures room { (start : Start) (h : History) → O.honest (disk_of shelf.old) (pen_of shelf.old)
        → (r : Reached (O.block_count (disk_of shelf.old)) settings (settled_in (O.model (pen_of shelf.old))) (P.shows pages.old start) sequencer.now plan.old h)
        → OnOk result (HasRoom (IsNextVersion h) r.pages (P.homes pages.old - P.next pages.old) plan.old.head.root plan.old.head.applied (HasNoneBlank O.OnceDisk shelf.old)) }
    ensures shows { (start : Start) (shown : List (List ℕ)) → P.shows pages.old start shown → (after : List (List ℕ)) × P.shows pages.new start after }
    ensures shelf { KeepsBlocks O.OnceDisk 2 shelf.old shelf.new (result ≡ Err (ChangeError.Apply ApplyError.OnceFull)) }
    ensures homes { P.homes pages.new ≡ P.homes pages.old }
    ensures down { P.down pages.new ≡ P.down pages.old }
    ensures honest { P.honest pages.old ↔ P.honest pages.new }
    ensures failed { ReportsOne (P.faults pages.old) (P.faults pages.new) (O.pen_fault_count (pen_of shelf.old)) (O.pen_fault_count (pen_of shelf.new)) (result ≡ Err (ChangeError.Apply ApplyError.Fault)) }
{
    let collector = plan.front.collector;
    let admission = plan.front.admission.admission();
    let whole = plan_change(
        alloc,
        pages,
        shelf,
        settings,
        &mut plan.head,
        collector,
        admission,
    )?;
    pass_whole(sequencer, &mut plan.ahead, collector, whole);
    plan.whole = whole;
    Ok(())
}

// Applies the first change of a transaction, which holds no image yet.
fn plan_first<P: Pages, O: OnceDisk + Drop>(
    alloc: Global,
    pages: &mut P,
    shelf: &mut Shelf<O>,
    settings: Settings,
    sequencer: &Sequencer,
    plan: &mut Plan,
) -> Result<(), ApplyError>
    requires fits { IsPlan settings (P.homes pages.old) (P.next pages.old) (next_of shelf.old) sequencer.now plan.old }
    requires hand { plan.old.whole ≡ false }
    requires none { P.named pages.old ≡ [] }
    ensures moves { OnOk result ((start : Start) (h : History) → O.honest (disk_of shelf.old) (pen_of shelf.old)
        → Reached (O.block_count (disk_of shelf.old)) settings (settled_in (O.model (pen_of shelf.old))) (P.shows pages.old start) sequencer.now plan.old h
        → Advances (O.block_count (disk_of shelf.old)) settings (settled_in (O.model (pen_of shelf.new))) (P.shows pages.new start) sequencer.now plan.new h) }
    ensures fits { IsPlan settings (P.homes pages.new) (P.next pages.new) (next_of shelf.new) sequencer.now plan.new }
    ensures sound { (start : Start) (h : History) → O.honest (disk_of shelf.old) (pen_of shelf.old)
        → Reached (O.block_count (disk_of shelf.old)) settings (settled_in (O.model (pen_of shelf.old))) (P.shows pages.old start) sequencer.now plan.old h
        → (page : ℕ) → result ≡ Err (ApplyError.BadNode page) → ⊥ }
    ensures few { length (P.named pages.new) ≤ 30 }
    ensures refused { IfErr result (ApplyRefusal (P.down pages.old)) }
    ensures high { (start : Start) (shown : List (List ℕ)) → P.shows pages.old start shown → result ≡ Err ApplyError.TooHigh → HasRootLevel shown plan.old.head.root 7 }
    ensures limits { IfErr result (LimitRefusal (P.homes pages.old) (P.next pages.old) plan.old.head.applied) }
    ensures lacks { (start : Start) (h : History) → O.honest (disk_of shelf.old) (pen_of shelf.old)
        → (r : Reached (O.block_count (disk_of shelf.old)) settings (settled_in (O.model (pen_of shelf.old))) (P.shows pages.old start) sequencer.now plan.old h)
        → IfErr result (LackRefusal (IsNextVersion h) r.pages (P.homes pages.old - P.next pages.old) plan.old.head.root) }
    ensures room { (start : Start) (h : History) → O.honest (disk_of shelf.old) (pen_of shelf.old)
        → (r : Reached (O.block_count (disk_of shelf.old)) settings (settled_in (O.model (pen_of shelf.old))) (P.shows pages.old start) sequencer.now plan.old h)
        → OnOk result (HasRoom (IsNextVersion h) r.pages (P.homes pages.old - P.next pages.old) plan.old.head.root plan.old.head.applied (HasNoneBlank O.OnceDisk shelf.old)) }
    ensures shows { (start : Start) (shown : List (List ℕ)) → P.shows pages.old start shown → (after : List (List ℕ)) × P.shows pages.new start after }
    ensures shelf { KeepsBlocks O.OnceDisk 2 shelf.old shelf.new (result ≡ Err ApplyError.OnceFull) }
    ensures homes { P.homes pages.new ≡ P.homes pages.old }
    ensures down { P.down pages.new ≡ P.down pages.old }
    ensures honest { P.honest pages.old ↔ P.honest pages.new }
    ensures failed { ReportsOne (P.faults pages.old) (P.faults pages.new) (O.pen_fault_count (pen_of shelf.old)) (O.pen_fault_count (pen_of shelf.new)) (result ≡ Err ApplyError.Fault) }
{
    match plan_step(alloc, pages, shelf, settings, sequencer, plan) {
        Ok(()) => Ok(()),
        Err(ChangeError::Apply(refusal)) => Err(refusal),
        Err(ChangeError::NoRoom) => unreachable!(),
    }
}

// Ensures that an admission is at hand that isn't wholly applied, where another one may be.
fn find_front<P: Pages>(
    alloc: Global,
    pages: &mut P,
    settings: Settings,
    sequencer: &Sequencer,
    plan: &mut Plan,
) -> Result<(), Stop>
    requires few { length sequencer.now ≤ 16 }
    requires lanes { length plan.old.head.lanes ≡ length sequencer.now }
    requires count { length plan.old.ahead ≡ length sequencer.now }
    ensures hand { OnOk result (plan.new.whole ≡ false) }
    ensures reached { (count : ℕ) (o : OnceState) (start : Start) (h : History) → Reached count settings (settled_in o) (P.shows pages.old start) sequencer.now plan.old h → Reached count settings (settled_in o) (P.shows pages.new start) sequencer.now plan.new h }
    ensures fits { (block : ℕ) → IsPlan settings (P.homes pages.old) (P.next pages.old) block sequencer.now plan.old → IsPlan settings (P.homes pages.new) (P.next pages.new) block sequencer.now plan.new }
    ensures reads { (start : Start) (shown : List (List ℕ)) → P.shows pages.old start shown → P.shows pages.new start shown }
    ensures homes { P.homes pages.new ≡ P.homes pages.old }
    ensures next { P.next pages.new ≡ P.next pages.old }
    ensures named { P.named pages.new ≡ P.named pages.old }
    ensures down { P.down pages.new ≡ P.down pages.old }
    ensures honest { P.honest pages.old ↔ P.honest pages.new }
    ensures device { KeepsDevice (P.honest pages.old) (P.honest pages.new) (P.faults pages.old) (P.faults pages.new) (result ≡ Err Stop.Failed) }
{
    if !plan.whole {
        return Ok(());
    }
    let Some(number) = sequencer.next_after(&plan.ahead) else {
        return Err(Stop::Enough);
    };
    let collector = number as u8;
    let time = time_of_next(sequencer, &plan.ahead, number);
    let admission = front_of(alloc, pages, settings, &plan.head, collector, time, None)?;
    plan.front = Front {
        collector,
        admission,
    };
    plan.whole = false;
    Ok(())
}

// Applies those next changes of the admission at hand that fall into one leaf which has room for them, and returns whether there are such.
// If there are none, and after a refusal, the plan is as it was.
fn plan_leaf<P: Pages>(
    alloc: Global,
    pages: &mut P,
    settings: Settings,
    sequencer: &Sequencer,
    plan: &mut Plan,
) -> Result<bool, ChangeError>
    requires lanes { length plan.old.head.lanes ≡ length sequencer.now }
    requires count { length plan.old.ahead ≡ length sequencer.now }
    requires at_hand { IsAtHand settings plan.old.head (beyond plan.old.ahead sequencer.now) plan.old.front }
    requires hand { plan.old.whole ≡ false }
    requires few { length (P.named pages.old) < 30 }
    ensures reaches { (count : ℕ) (o : OnceState) (start : Start) (h : History) → Reached count settings (settled_in o) (P.shows pages.old start) sequencer.now plan.old h → Reaches count settings (settled_in o) (P.shows pages.new start) sequencer.now plan.new h }
    ensures fits { (block : ℕ) → IsPlan settings (P.homes pages.old) (P.next pages.old) block sequencer.now plan.old → IsPlan settings (P.homes pages.new) (P.next pages.new) block sequencer.now plan.new }
    ensures as_before { result ≡ Ok false → plan.new ≡ plan.old }
    ensures refused { OnErr result (plan.new ≡ plan.old) }
    ensures as_shown { result ≡ Ok false → (start : Start) (shown : List (List ℕ)) → P.shows pages.old start shown → P.shows pages.new start shown }
    ensures as_named { result ≡ Ok false → P.named pages.new ≡ P.named pages.old }
    ensures few { length (P.named pages.new) ≤ 30 }
    ensures shows { (start : Start) (shown : List (List ℕ)) → P.shows pages.old start shown → (after : List (List ℕ)) × P.shows pages.new start after }
    ensures homes { P.homes pages.new ≡ P.homes pages.old }
    ensures down { P.down pages.new ≡ P.down pages.old }
    ensures device { KeepsDevice (P.honest pages.old) (P.honest pages.new) (P.faults pages.old) (P.faults pages.new) (result ≡ Err (ChangeError.Apply ApplyError.Fault)) }
{
    let mut head = copy_head(alloc, &plan.head)?;
    let collector = plan.front.collector;
    let admission = plan.front.admission.admission();
    let Some(all) = plan_run(alloc, pages, settings, &mut head, collector, admission)? else {
        return Ok(false);
    };
    plan.head = head;
    pass_whole(sequencer, &mut plan.ahead, collector, all);
    plan.whole = all;
    Ok(true)
}

// Applies further changes, where an image has room, one may be, and it isn't refused: those that fall into one leaf with room for them,
// or the next one alone.
fn plan_another<P: Pages, O: OnceDisk + Drop>(
    alloc: Global,
    pages: &mut P,
    shelf: &mut Shelf<O>,
    settings: Settings,
    sequencer: &Sequencer,
    plan: &mut Plan,
) -> Result<(), Stop>
    requires lanes { length sequencer.now ≤ 16 }
    requires fits { IsPlan settings (P.homes pages.old) (P.next pages.old) (next_of shelf.old) sequencer.now plan.old }
    requires few { length (P.named pages.old) ≤ 30 }
    ensures reaches { (start : Start) (h : History) → O.honest (disk_of shelf.old) (pen_of shelf.old)
        → Reached (O.block_count (disk_of shelf.old)) settings (settled_in (O.model (pen_of shelf.old))) (P.shows pages.old start) sequencer.now plan.old h
        → Reaches (O.block_count (disk_of shelf.old)) settings (settled_in (O.model (pen_of shelf.new))) (P.shows pages.new start) sequencer.now plan.new h }
    ensures fits { IsPlan settings (P.homes pages.new) (P.next pages.new) (next_of shelf.new) sequencer.now plan.new }
    ensures few { length (P.named pages.new) ≤ 30 }
    ensures shows { (start : Start) (shown : List (List ℕ)) → P.shows pages.old start shown → (after : List (List ℕ)) × P.shows pages.new start after }
    ensures shelf { KeepsBlocks O.OnceDisk 2 shelf.old shelf.new ⊥ }
    ensures homes { P.homes pages.new ≡ P.homes pages.old }
    ensures down { P.down pages.new ≡ P.down pages.old }
    ensures honest { P.honest pages.old ↔ P.honest pages.new }
    ensures failed { ReportsOne (P.faults pages.old) (P.faults pages.new) (O.pen_fault_count (pen_of shelf.old)) (O.pen_fault_count (pen_of shelf.new)) (result ≡ Err Stop.Failed) }
{
    if pages.images() >= MOST_IMAGES {
        return Err(Stop::Enough);
    }
    find_front(alloc, pages, settings, sequencer, plan)?;
    if plan_leaf(alloc, pages, settings, sequencer, plan)? {
        return Ok(());
    }
    plan_step(alloc, pages, shelf, settings, sequencer, plan)?;
    Ok(())
}

// Applies further changes, up to the first that may not be, is refused, or whose images have no room. Where a device fails, the plan
// is of no use any more.
fn plan_more<P: Pages, O: OnceDisk + Drop>(
    alloc: Global,
    pages: &mut P,
    shelf: &mut Shelf<O>,
    settings: Settings,
    sequencer: &Sequencer,
    plan: &mut Plan,
) -> Result<(), Fault>
    requires lanes { length sequencer.now ≤ 16 }
    requires fits { IsPlan settings (P.homes pages.old) (P.next pages.old) (next_of shelf.old) sequencer.now plan.old }
    requires few { length (P.named pages.old) ≤ 30 }
    ensures reaches { OnOk result ((start : Start) (h : History) → O.honest (disk_of shelf.old) (pen_of shelf.old)
        → Reached (O.block_count (disk_of shelf.old)) settings (settled_in (O.model (pen_of shelf.old))) (P.shows pages.old start) sequencer.now plan.old h
        → Reaches (O.block_count (disk_of shelf.old)) settings (settled_in (O.model (pen_of shelf.new))) (P.shows pages.new start) sequencer.now plan.new h) }
    ensures fits { OnOk result (IsPlan settings (P.homes pages.new) (P.next pages.new) (next_of shelf.new) sequencer.now plan.new) }
    ensures few { OnOk result (length (P.named pages.new) ≤ 30) }
    ensures shows { (start : Start) (shown : List (List ℕ)) → P.shows pages.old start shown → (after : List (List ℕ)) × P.shows pages.new start after }
    ensures shelf { KeepsBlocks O.OnceDisk 1998 shelf.old shelf.new ⊥ }
    ensures homes { P.homes pages.new ≡ P.homes pages.old }
    ensures down { P.down pages.new ≡ P.down pages.old }
    ensures honest { P.honest pages.old ↔ P.honest pages.new }
    ensures failed { ReportsOne (P.faults pages.old) (P.faults pages.new) (O.pen_fault_count (pen_of shelf.old)) (O.pen_fault_count (pen_of shelf.new)) (IsErr result) }
{
    for _ in 0..MORE_RUNS {
        match plan_another(alloc, pages, shelf, settings, sequencer, plan) {
            Ok(()) => {}
            Err(Stop::Enough) => return Ok(()),
            Err(Stop::Failed) => return Err(Fault),
        }
    }
    Ok(())
}

/// Shows the pages as they are after the next change and as many further ones as fit, and returns their head, and which admissions are
/// wholly applied. A refusal of the first change is returned, and each failure of a device; where a later change is refused for another
/// reason, what was planned before it is returned.
pub(crate) fn plan_changes<P: Pages, O: OnceDisk + Drop>(
    alloc: Global,
    pages: &mut P,
    shelf: &mut Shelf<O>,
    settings: Settings,
    head: &Head,
    sequencer: &Sequencer,
    number: usize,
    kept: Option<Encoded>,
) -> Result<Application, ApplyError>
    requires lanes { length head.now.lanes ≡ length sequencer.now }
    requires few { length sequencer.now ≤ 16 }
    requires first { IsNext sequencer.now number }
    requires some { 0 < P.homes pages.old }
    requires next { P.next pages.old ≡ min head.now.fresh (P.homes pages.old) }
    requires block { head.now.block ≤ next_of shelf.old }
    requires none { P.named pages.old ≡ [] }
    ensures planned { IfOk result (λ plan. (start : Start) (shown : List (List ℕ)) (h : History) → P.shows pages.old start shown → O.honest (disk_of shelf.old) (pen_of shelf.old)
        → HeadRepresents (TreeLocated (O.block_count (disk_of shelf.old))) settings (settled_in (O.model (pen_of shelf.old))) head.now shown h → Mirrors sequencer.now h
        → PlansMove (O.block_count (disk_of shelf.old)) settings (settled_in (O.model (pen_of shelf.new))) (P.shows pages.new start) sequencer.now plan h) }
    ensures sound { (start : Start) (shown : List (List ℕ)) (h : History) → P.shows pages.old start shown → O.honest (disk_of shelf.old) (pen_of shelf.old)
        → HeadRepresents (TreeLocated (O.block_count (disk_of shelf.old))) settings (settled_in (O.model (pen_of shelf.old))) head.now shown h → Mirrors sequencer.now h
        → (page : ℕ) → result ≡ Err (ApplyError.BadNode page) → ⊥ }
    ensures lanes { IfOk result (λ plan. length plan.head.lanes ≡ length sequencer.now) }
    ensures count { IfOk result (λ plan. length plan.ahead ≡ length sequencer.now) }
    ensures block { IfOk result (λ plan. plan.head.block ≤ next_of shelf.new) }
    ensures refused { IfErr result (ApplyRefusal (P.down pages.old)) }
    ensures high { (start : Start) (shown : List (List ℕ)) → P.shows pages.old start shown → result ≡ Err ApplyError.TooHigh → HasRootLevel shown head.now.root 7 }
    ensures limits { IfErr result (LimitRefusal (P.homes pages.old) (P.next pages.old) head.now.applied) }
    ensures lacks { (start : Start) (shown : List (List ℕ)) (h : History) → P.shows pages.old start shown → O.honest (disk_of shelf.old) (pen_of shelf.old)
        → HeadRepresents (TreeLocated (O.block_count (disk_of shelf.old))) settings (settled_in (O.model (pen_of shelf.old))) head.now shown h → Mirrors sequencer.now h
        → IfErr result (LackRefusal (IsNextVersion h) shown (P.homes pages.old - P.next pages.old) head.now.root) }
    ensures room { (start : Start) (shown : List (List ℕ)) (h : History) → P.shows pages.old start shown → O.honest (disk_of shelf.old) (pen_of shelf.old)
        → HeadRepresents (TreeLocated (O.block_count (disk_of shelf.old))) settings (settled_in (O.model (pen_of shelf.old))) head.now shown h → Mirrors sequencer.now h
        → OnOk result (HasRoom (IsNextVersion h) shown (P.homes pages.old - P.next pages.old) head.now.root head.now.applied (HasNoneBlank O.OnceDisk shelf.old)) }
    ensures shows { (start : Start) (shown : List (List ℕ)) → P.shows pages.old start shown → (after : List (List ℕ)) × P.shows pages.new start after }
    ensures shelf { KeepsBlocks O.OnceDisk 2000 shelf.old shelf.new (result ≡ Err ApplyError.OnceFull) }
    ensures homes { P.homes pages.new ≡ P.homes pages.old }
    ensures down { P.down pages.new ≡ P.down pages.old }
    ensures honest { P.honest pages.old ↔ P.honest pages.new }
    ensures failed { ReportsOne (P.faults pages.old) (P.faults pages.new) (O.pen_fault_count (pen_of shelf.old)) (O.pen_fault_count (pen_of shelf.new)) (result ≡ Err ApplyError.Fault) }
{
    let mut plan = begin_plan(alloc, pages, settings, head, sequencer, number, kept)?;
    plan_first(alloc, pages, shelf, settings, sequencer, &mut plan)?;
    plan_more(alloc, pages, shelf, settings, sequencer, &mut plan)?;
    let Plan {
        head,
        ahead,
        front,
        ..
    } = plan;
    match put_head(alloc, pages, &head) {
        Ok(()) => Ok(Application {
            head,
            ahead,
            kept: front.admission,
        }),
        Err(refusal) => Err(of_pages(refusal)),
    }
}
