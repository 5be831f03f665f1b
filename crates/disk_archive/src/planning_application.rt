//! The application of one change: pages are shown in a transaction, and the head passes over it. Blocks are burnt and settled on the
//! way, and no page is written yet.

ghost use Rattle.std.specs.Prelude.{◌≡◌, ◌≢◌, ◌<◌, ◌≤◌, ◌+◌, ◌-◌, ◌^◌, ◌++◌, ◌∷◌, ◌↔◌, ℕ, List, [], length, map, min, Some, IfOk, OnOk, OnErr, IfErr, Err, false, IfSome, IfNone, IsTrue, slice_get};
ghost use Rattle.disk_models.specs.Once.{settled_in};
ghost use Rattle.once_store.specs.Shelves.{disk_of, next_of, pen_of};
ghost use Rattle.page_tx.specs.Device.{KeepsDevice};
ghost use Rattle.page_tx.specs.Start.{Start};
ghost use Rattle.page_tx.specs.declared.error.PageError.TheVariants as pages_refusals;
ghost use Rattle.route_model.specs.Admission.{Admitted, IsAdmission};
ghost use Rattle.route_meaning.specs.Merged.{Placed, placed};
ghost use Rattle.route_meaning.specs.History.{History, waiting, IsBelowMarks};
ghost use Rattle.version_model.specs.Entries.{version_of};
ghost use Rattle.version_model.specs.Ranges.{key_end};
ghost use Rattle.version_model.specs.Sizes.{entry_octets};
ghost use Rattle.version_model.specs.Versions.{Version};
ghost use Rattle.route_history.specs.Kept.{AreVersions};
ghost use Rattle.route_history.specs.Stamps.{stamp_of};
ghost use Rattle.tsb_tree.specs.Opened.{HasRootLevel};
ghost use Rattle.tsb_tree.specs.Refusals.{IsHonest};
ghost use Rattle.tsb_tree.specs.Shelves.{HasNoneBlank};
ghost use Rattle.archive_head.specs.declared.lane.Lane.{Lane};
ghost use Rattle.intake.specs.Ring.{IsRing, time_of};
ghost use Rattle.intake.specs.Calls.{OnlyReads};
ghost use Rattle.archive_pages.specs.Batches.{CanPop, HasLane};
ghost use Rattle.archive_pages.specs.Represented.{HeadRepresents};
ghost use Rattle.archive_pages.specs.Changes.{next_change};
ghost use Rattle.archive_pages.specs.Places.{ring_of, tree_low};
ghost use Rattle.archive_pages.specs.Stored.{LaneHolds};
ghost use Rattle.disk_archive.specs.Failures.{ReportsOne};
ghost use Rattle.disk_archive.specs.Lacks.{HasRoom, IsNextVersion, LacksNone, OneLacksNone};
ghost use Rattle.disk_archive.specs.Trees.{TreeLocated};
ghost use Rattle.disk_archive.specs.inner.Applications.{ApplyRefusal, FrontRefusal, KeepsBlocks, LackRefusal, LimitRefusal, MovesOn, OfApply, TakesNext, TreeTakes};

use crate::apply_error::{ApplyError, of_pages};
use crate::change_error::{ChangeError, of_tree};
use archive_head::Head;
use archive_pages::{Settings, TreePlace, lane_of, pass_change};
use disk_models::OnceDisk;
use intake::{Encoded, ReadError};
use once_store::Shelf;
use page_tx::Pages;
use route_history::version_of_change;
use route_model::{Admission, Moment};
use std::alloc::{AllocError, Global};
use tsb_tree::{insert, open};
use version_model::{Entry, Stamp};

/// The first admission that waits of a collector, at this moment, which is that of the admission: its ring may have the time in an older
/// unit. One that is kept from an earlier read isn't decoded again.
pub(crate) fn front_of<P: Pages>(
    alloc: Global,
    pages: &mut P,
    settings: Settings,
    head: &Head,
    collector: u8,
    time: Moment,
    kept: Option<Encoded>,
) -> Result<Encoded, ApplyError>
    requires collector { collector < length head.now.lanes }
    ensures front { IfOk result (λ a. (start : Start) (shown : List (List ℕ)) (lane : Lane) (waits : List Admitted) → P.shows pages.old start shown → HasLane head.now collector lane → LaneHolds settings shown collector lane waits → slice_get (map time_of waits) 0 ≡ Some time → slice_get waits 0 ≡ Some a) }
    ensures fits { IfOk result (λ a. (lane : Lane) → HasLane head.now collector lane → CanPop settings collector lane a) }
    ensures sound { (start : Start) (shown : List (List ℕ)) (lane : Lane) (first : Admitted) (rest : List Admitted) → P.shows pages.old start shown → HasLane head.now collector lane → IsRing (P.homes pages.old) (ring_of settings collector lane)
        → LaneHolds settings shown collector lane (first ∷ rest) → (page : ℕ) → result ≡ Err (ApplyError.BadNode page) → ⊥ }
    ensures refused { IfErr result (FrontRefusal (P.down pages.old)) }
    ensures reads { (start : Start) (shown : List (List ℕ)) → P.shows pages.old start shown → P.shows pages.new start shown }
    ensures homes { P.homes pages.new ≡ P.homes pages.old }
    ensures next { P.next pages.new ≡ P.next pages.old }
    ensures named { P.named pages.new ≡ P.named pages.old }
    ensures down { P.down pages.new ≡ P.down pages.old }
    ensures honest { P.honest pages.old ↔ P.honest pages.new }
    ensures device { KeepsDevice (P.honest pages.old) (P.honest pages.new) (P.faults pages.old) (P.faults pages.new) (result ≡ Err ApplyError.Fault) }
{
    let ring = settings.ring(collector, &lane_of(head, collector));
    if !ring.is_within(pages.home_pages()) {
        return Err(ApplyError::BadNode(0));
    }
    match ring.front(alloc, pages, kept) {
        Ok(Some(admission)) => Ok(admission.at(time)),
        Ok(None) => Err(ApplyError::BadNode(0)),
        Err(ReadError::BadNode(page)) => Err(ApplyError::BadNode(page)),
        Err(ReadError::Pages(refusal)) => Err(of_pages(refusal)),
    }
}

/// The version of the next change of the admission, where it has one.
pub(crate) fn next_version(
    alloc: Global,
    head: &Head,
    admission: &Admission,
) -> Result<Option<Entry>, AllocError>
    requires applied { head.now.applied + 1 < 2 ^ 64 }
    ensures some { IfOk result (λ next. IfSome next (λ entry. (collector : ℕ) → AreVersions head.now.applied (next_change head.now.begun (placed collector admission.now)) (version_of entry ∷ []))) }
    ensures stamp { IfOk result (λ next. IfSome next (λ entry. entry.stamp ≡ stamp_of admission.now.time head.now.applied)) }
    ensures end { IfOk result (λ next. IfSome next (λ entry. entry.stamp + 1 < 2 ^ 128)) }
    ensures small { IfOk result (λ next. IfSome next (λ entry. entry_octets (version_of entry) ≤ 3131)) }
    ensures inside { IfOk result (λ next. IfSome next (λ entry. entry.key + 1 < key_end)) }
    ensures none { IfOk result (λ next. IfNone next ((collector : ℕ) → next_change head.now.begun (placed collector admission.now) ≡ [])) }
{
    let changes = admission.changes();
    let begun = head.begun as usize;
    if begun >= changes.len() {
        return Ok(None);
    }
    let entry = version_of_change(alloc, admission.time(), head.applied, &changes[begun])?;
    Ok(Some(entry))
}

// Inserts a version into the tree. Returns where the tree lies then.
fn take_version<P: Pages, O: OnceDisk + Drop>(
    alloc: Global,
    pages: &mut P,
    shelf: &mut Shelf<O>,
    head: &Head,
    entry: &Entry,
) -> Result<TreePlace, ChangeError>
    requires next { P.next pages.old ≡ min head.now.fresh (P.homes pages.old) }
    requires block { head.now.block ≤ next_of shelf.old }
    requires few { length (P.named pages.old) < 30 }
    requires inside { entry.now.key + 1 < key_end }
    requires size { entry_octets (version_of entry.now) ≤ 3131 }
    requires end { entry.now.stamp + 1 < 2 ^ 128 }
    requires later { stamp_of head.now.last head.now.applied ≤ entry.now.stamp }
    ensures takes { (start : Start) (shown : List (List ℕ)) (low : ℕ) (versions : List Version) → P.shows pages.old start shown → O.honest (disk_of shelf.old) (pen_of shelf.old)
        → TreeLocated (O.block_count (disk_of shelf.old)) shown (settled_in (O.model (pen_of shelf.old))) low head.now.root head.now.fresh head.now.block (stamp_of head.now.last head.now.applied) versions
        → IfOk result (λ place. TreeTakes (O.block_count (disk_of shelf.old)) (settled_in (O.model (pen_of shelf.new))) (P.shows pages.new start) low place.root place.fresh place.block (entry.now.stamp + 1) (versions ++ version_of entry.now ∷ []) shown) }
    ensures sound { (start : Start) (shown : List (List ℕ)) (low : ℕ) (versions : List Version) → P.shows pages.old start shown → O.honest (disk_of shelf.old) (pen_of shelf.old)
        → TreeLocated (O.block_count (disk_of shelf.old)) shown (settled_in (O.model (pen_of shelf.old))) low head.now.root head.now.fresh head.now.block (stamp_of head.now.last head.now.applied) versions
        → (page : ℕ) → result ≡ Err (ChangeError.Apply (ApplyError.BadNode page)) → ⊥ }
    ensures fresh { IfOk result (λ place. place.fresh ≡ P.next pages.new) }
    ensures block { IfOk result (λ place. place.block ≡ next_of shelf.new) }
    ensures few { OnOk result (length (P.named pages.new) ≤ 30) }
    ensures first { length (P.named pages.old) ≤ 13 → result ≡ Err ChangeError.NoRoom → ⊥ }
    ensures as_shown { OnErr result ((start : Start) (shown : List (List ℕ)) → P.shows pages.old start shown → P.shows pages.new start shown) }
    ensures as_named { OnErr result (P.named pages.new ≡ P.named pages.old) }
    ensures as_next { OnErr result (P.next pages.new ≡ P.next pages.old) }
    ensures refused { IfErr result (OfApply (ApplyRefusal (P.down pages.old))) }
    ensures high { (start : Start) (shown : List (List ℕ)) → P.shows pages.old start shown → result ≡ Err (ChangeError.Apply ApplyError.TooHigh) → HasRootLevel shown head.now.root 7 }
    ensures limits { IfErr result (OfApply (LimitRefusal (P.homes pages.old) (P.next pages.old) head.now.applied)) }
    ensures lacks { (start : Start) (shown : List (List ℕ)) (low : ℕ) (versions : List Version) → P.shows pages.old start shown → O.honest (disk_of shelf.old) (pen_of shelf.old)
        → TreeLocated (O.block_count (disk_of shelf.old)) shown (settled_in (O.model (pen_of shelf.old))) low head.now.root head.now.fresh head.now.block (stamp_of head.now.last head.now.applied) versions
        → IfErr result (OfApply (LackRefusal (λ v. v ≡ version_of entry.now) shown (P.homes pages.old - P.next pages.old) head.now.root)) }
    ensures room { (start : Start) (shown : List (List ℕ)) (low : ℕ) (versions : List Version) → P.shows pages.old start shown → O.honest (disk_of shelf.old) (pen_of shelf.old)
        → TreeLocated (O.block_count (disk_of shelf.old)) shown (settled_in (O.model (pen_of shelf.old))) low head.now.root head.now.fresh head.now.block (stamp_of head.now.last head.now.applied) versions
        → OnOk result (LacksNone (version_of entry.now) shown (P.homes pages.old - P.next pages.old) head.now.root (HasNoneBlank O.OnceDisk shelf.old)) }
    ensures shows { (start : Start) (shown : List (List ℕ)) → P.shows pages.old start shown → (after : List (List ℕ)) × P.shows pages.new start after }
    ensures shelf { KeepsBlocks O.OnceDisk 2 shelf.old shelf.new (result ≡ Err (ChangeError.Apply ApplyError.OnceFull)) }
    ensures homes { P.homes pages.new ≡ P.homes pages.old }
    ensures down { P.down pages.new ≡ P.down pages.old }
    ensures honest { P.honest pages.old ↔ P.honest pages.new }
    ensures failed { ReportsOne (P.faults pages.old) (P.faults pages.new) (O.pen_fault_count (pen_of shelf.old)) (O.pen_fault_count (pen_of shelf.new)) (result ≡ Err (ChangeError.Apply ApplyError.Fault)) }
{
    let least = Stamp::new(head.last.number(), head.applied);
    let place = match open(pages, head.root, least) {
        Ok(place) => place,
        Err(refusal) => return Err(of_tree(refusal)),
    };
    match insert(pages, shelf, alloc, place, entry) {
        Ok(now) => Ok(TreePlace {
            fresh: pages.next_page(),
            block: shelf.next(),
            root: now.root,
        }),
        Err(refusal) => Err(of_tree(refusal)),
    }
}

// Inserts the version of the next change of the admission, where it has one, into the tree. Returns where the tree lies then.
fn take_next<P: Pages, O: OnceDisk + Drop>(
    alloc: Global,
    pages: &mut P,
    shelf: &mut Shelf<O>,
    head: &Head,
    admission: &Admission,
) -> Result<TreePlace, ChangeError>
    requires next { P.next pages.old ≡ min head.now.fresh (P.homes pages.old) }
    requires block { head.now.block ≤ next_of shelf.old }
    requires few { length (P.named pages.old) < 30 }
    requires applied { head.now.applied + 1 < 2 ^ 64 }
    requires later { head.now.last ≤ admission.now.time }
    ensures takes { (start : Start) (shown : List (List ℕ)) (collector : ℕ) (versions : List Version) → P.shows pages.old start shown → O.honest (disk_of shelf.old) (pen_of shelf.old) → (settings : Settings)
        → TreeLocated (O.block_count (disk_of shelf.old)) shown (settled_in (O.model (pen_of shelf.old))) (tree_low settings) head.now.root head.now.fresh head.now.block (stamp_of head.now.last head.now.applied) versions
        → IfOk result (λ place. TakesNext (O.block_count (disk_of shelf.old)) settings (settled_in (O.model (pen_of shelf.new))) (P.shows pages.new start) head.now (placed collector admission.now) place.root place.fresh place.block versions shown) }
    ensures sound { (start : Start) (shown : List (List ℕ)) (low : ℕ) (versions : List Version) → P.shows pages.old start shown → O.honest (disk_of shelf.old) (pen_of shelf.old)
        → TreeLocated (O.block_count (disk_of shelf.old)) shown (settled_in (O.model (pen_of shelf.old))) low head.now.root head.now.fresh head.now.block (stamp_of head.now.last head.now.applied) versions
        → (page : ℕ) → result ≡ Err (ChangeError.Apply (ApplyError.BadNode page)) → ⊥ }
    ensures fresh { IfOk result (λ place. P.next pages.new ≡ min place.fresh (P.homes pages.new)) }
    ensures block { IfOk result (λ place. place.block ≤ next_of shelf.new) }
    ensures few { OnOk result (length (P.named pages.new) ≤ 30) }
    ensures first { length (P.named pages.old) ≤ 13 → result ≡ Err ChangeError.NoRoom → ⊥ }
    ensures as_shown { OnErr result ((start : Start) (shown : List (List ℕ)) → P.shows pages.old start shown → P.shows pages.new start shown) }
    ensures as_named { OnErr result (P.named pages.new ≡ P.named pages.old) }
    ensures as_next { OnErr result (P.next pages.new ≡ P.next pages.old) }
    ensures refused { IfErr result (OfApply (ApplyRefusal (P.down pages.old))) }
    ensures high { (start : Start) (shown : List (List ℕ)) → P.shows pages.old start shown → result ≡ Err (ChangeError.Apply ApplyError.TooHigh) → HasRootLevel shown head.now.root 7 }
    ensures limits { IfErr result (OfApply (LimitRefusal (P.homes pages.old) (P.next pages.old) head.now.applied)) }
    ensures lacks { (start : Start) (shown : List (List ℕ)) (low collector : ℕ) (versions : List Version) → P.shows pages.old start shown → O.honest (disk_of shelf.old) (pen_of shelf.old)
        → TreeLocated (O.block_count (disk_of shelf.old)) shown (settled_in (O.model (pen_of shelf.old))) low head.now.root head.now.fresh head.now.block (stamp_of head.now.last head.now.applied) versions
        → IfErr result (OfApply (LackRefusal (λ v. AreVersions head.now.applied (next_change head.now.begun (placed collector admission.now)) (v ∷ [])) shown (P.homes pages.old - P.next pages.old) head.now.root)) }
    ensures room { (start : Start) (shown : List (List ℕ)) (low collector : ℕ) (versions : List Version) → P.shows pages.old start shown → O.honest (disk_of shelf.old) (pen_of shelf.old)
        → TreeLocated (O.block_count (disk_of shelf.old)) shown (settled_in (O.model (pen_of shelf.old))) low head.now.root head.now.fresh head.now.block (stamp_of head.now.last head.now.applied) versions
        → OnOk result (OneLacksNone (λ v. AreVersions head.now.applied (next_change head.now.begun (placed collector admission.now)) (v ∷ [])) shown (P.homes pages.old - P.next pages.old) head.now.root (HasNoneBlank O.OnceDisk shelf.old)) }
    ensures shows { (start : Start) (shown : List (List ℕ)) → P.shows pages.old start shown → (after : List (List ℕ)) × P.shows pages.new start after }
    ensures shelf { KeepsBlocks O.OnceDisk 2 shelf.old shelf.new (result ≡ Err (ChangeError.Apply ApplyError.OnceFull)) }
    ensures homes { P.homes pages.new ≡ P.homes pages.old }
    ensures down { P.down pages.new ≡ P.down pages.old }
    ensures honest { P.honest pages.old ↔ P.honest pages.new }
    ensures failed { ReportsOne (P.faults pages.old) (P.faults pages.new) (O.pen_fault_count (pen_of shelf.old)) (O.pen_fault_count (pen_of shelf.new)) (result ≡ Err (ChangeError.Apply ApplyError.Fault)) }
{
    let next = next_version(alloc, head, admission)?;
    match next {
        Some(entry) => take_version(alloc, pages, shelf, head, &entry),
        None => Ok(TreePlace {
            fresh: head.fresh,
            block: head.block,
            root: head.root,
        }),
    }
}

/// Applies the next change of an admission, the first that waits of its collector, or passes over it where it has no other. Returns
/// whether the admission is wholly applied then. After a refusal the head is as it was, and the same pages are shown.
pub(crate) fn plan_change<P: Pages, O: OnceDisk + Drop>(
    alloc: Global,
    pages: &mut P,
    shelf: &mut Shelf<O>,
    settings: Settings,
    head: &mut Head,
    collector: u8,
    admission: &Admission,
) -> Result<bool, ChangeError>
    requires collector { collector < length head.old.lanes }
    requires fits { (lane : Lane) → HasLane head.old collector lane → CanPop settings collector lane admission.now }
    requires next { P.next pages.old ≡ min head.old.fresh (P.homes pages.old) }
    requires block { head.old.block ≤ next_of shelf.old }
    requires few { length (P.named pages.old) < 30 }
    ensures moves { IfOk result (λ whole. (start : Start) (shown : List (List ℕ)) (h : History) (later : List (Placed Admitted)) → P.shows pages.old start shown → O.honest (disk_of shelf.old) (pen_of shelf.old)
        → HeadRepresents (TreeLocated (O.block_count (disk_of shelf.old))) settings (settled_in (O.model (pen_of shelf.old))) head.old shown h → waiting h ≡ placed collector admission.now ∷ later → IsBelowMarks h admission.now.time
        → MovesOn (O.block_count (disk_of shelf.old)) settings (settled_in (O.model (pen_of shelf.new))) (P.shows pages.new start) head.new whole h) }
    ensures sound { (start : Start) (shown : List (List ℕ)) (h : History) (later : List (Placed Admitted)) → P.shows pages.old start shown → O.honest (disk_of shelf.old) (pen_of shelf.old)
        → HeadRepresents (TreeLocated (O.block_count (disk_of shelf.old))) settings (settled_in (O.model (pen_of shelf.old))) head.old shown h → waiting h ≡ placed collector admission.now ∷ later
        → (page : ℕ) → result ≡ Err (ChangeError.Apply (ApplyError.BadNode page)) → ⊥ }
    ensures as_before { OnErr result (head.new ≡ head.old) }
    ensures stays { IfOk result (λ whole. whole ≡ false → head.new.lanes ≡ head.old.lanes) }
    ensures lanes { length head.new.lanes ≡ length head.old.lanes }
    ensures next { OnOk result (P.next pages.new ≡ min head.new.fresh (P.homes pages.new)) }
    ensures block { OnOk result (head.new.block ≤ next_of shelf.new) }
    ensures few { OnOk result (length (P.named pages.new) ≤ 30) }
    ensures first { length (P.named pages.old) ≤ 13 → result ≡ Err ChangeError.NoRoom → ⊥ }
    ensures as_shown { OnErr result ((start : Start) (shown : List (List ℕ)) → P.shows pages.old start shown → P.shows pages.new start shown) }
    ensures as_named { OnErr result (P.named pages.new ≡ P.named pages.old) }
    ensures as_next { OnErr result (P.next pages.new ≡ P.next pages.old) }
    ensures refused { IfErr result (OfApply (ApplyRefusal (P.down pages.old))) }
    ensures high { (start : Start) (shown : List (List ℕ)) → P.shows pages.old start shown → result ≡ Err (ChangeError.Apply ApplyError.TooHigh) → HasRootLevel shown head.old.root 7 }
    ensures limits { IfErr result (OfApply (LimitRefusal (P.homes pages.old) (P.next pages.old) head.old.applied)) }
    ensures lacks { (start : Start) (shown : List (List ℕ)) (h : History) (later : List (Placed Admitted)) → P.shows pages.old start shown → O.honest (disk_of shelf.old) (pen_of shelf.old)
        → HeadRepresents (TreeLocated (O.block_count (disk_of shelf.old))) settings (settled_in (O.model (pen_of shelf.old))) head.old shown h → waiting h ≡ placed collector admission.now ∷ later
        → IfErr result (OfApply (LackRefusal (IsNextVersion h) shown (P.homes pages.old - P.next pages.old) head.old.root)) }
    ensures room { (start : Start) (shown : List (List ℕ)) (h : History) (later : List (Placed Admitted)) → P.shows pages.old start shown → O.honest (disk_of shelf.old) (pen_of shelf.old)
        → HeadRepresents (TreeLocated (O.block_count (disk_of shelf.old))) settings (settled_in (O.model (pen_of shelf.old))) head.old shown h → waiting h ≡ placed collector admission.now ∷ later
        → OnOk result (HasRoom (IsNextVersion h) shown (P.homes pages.old - P.next pages.old) head.old.root head.old.applied (HasNoneBlank O.OnceDisk shelf.old)) }
    ensures shows { (start : Start) (shown : List (List ℕ)) → P.shows pages.old start shown → (after : List (List ℕ)) × P.shows pages.new start after }
    ensures shelf { KeepsBlocks O.OnceDisk 2 shelf.old shelf.new (result ≡ Err (ChangeError.Apply ApplyError.OnceFull)) }
    ensures homes { P.homes pages.new ≡ P.homes pages.old }
    ensures down { P.down pages.new ≡ P.down pages.old }
    ensures honest { P.honest pages.old ↔ P.honest pages.new }
    ensures failed { ReportsOne (P.faults pages.old) (P.faults pages.new) (O.pen_fault_count (pen_of shelf.old)) (O.pen_fault_count (pen_of shelf.new)) (result ≡ Err (ChangeError.Apply ApplyError.Fault)) }
{
    if head.applied == u64::MAX {
        return Err(ChangeError::Apply(ApplyError::CounterFull));
    }
    if admission.time() < head.last {
        return Err(ChangeError::Apply(ApplyError::BadNode(0)));
    }
    let place = take_next(alloc, pages, shelf, head, admission)?;
    Ok(pass_change(settings, head, collector, admission, place))
}
