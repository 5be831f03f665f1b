//! A run of changes: the next ones of an admission that fall into one leaf of the tree. The leaf's page is read once, and laid once, after
//! the last of them.

ghost use Rattle.std.specs.Prelude.{◌≡◌, ◌<◌, ◌≤◌, ◌+◌, ◌^◌, ◌∷◌, [], ℕ, Bool, List, length, slice_set, Some, None, IfOk, OnOk, OnErr, IfSome, IfNone, Ok, Err, false};
ghost use Rattle.disk_models.specs.Once.{OnceState, settled_in};
ghost use Rattle.page_tx.specs.Device.{KeepsDevice};
ghost use Rattle.page_tx.specs.Start.{Start};
ghost use Rattle.route_model.specs.Admission.{Admitted};
ghost use Rattle.route_meaning.specs.Merged.{Placed, placed};
ghost use Rattle.route_meaning.specs.History.{History, waiting, IsBelowMarks};
ghost use Rattle.version_model.specs.Entries.{version_of};
ghost use Rattle.version_model.specs.Ranges.{key_end};
ghost use Rattle.version_model.specs.Sizes.{entry_octets};
ghost use Rattle.version_model.specs.Versions.{Version};
ghost use Rattle.route_history.specs.Kept.{AreVersions};
ghost use Rattle.route_history.specs.Stamps.{stamp_of};
ghost use Rattle.tsb_tree.specs.OpenLeaves.{IsOpen};
ghost use Rattle.archive_head.specs.declared.lane.Lane.{Lane};
ghost use Rattle.archive_pages.specs.Batches.{CanPop, HasLane};
ghost use Rattle.archive_pages.specs.Changes.{next_change};
ghost use Rattle.archive_pages.specs.Represented.{HeadRepresents};
ghost use Rattle.disk_archive.specs.Trees.{TreeLocated};
ghost use Rattle.disk_archive.specs.inner.Applications.{MovesOn};
ghost use Rattle.disk_archive.specs.inner.Runs.{WithLeaf};

use crate::apply_error::ApplyError;
use crate::change_error::{ChangeError, of_tree};
use crate::planning_application::next_version;
use archive_head::Head;
use archive_pages::{Settings, TreePlace, pass_change};
use page_tx::Pages;
use route_model::Admission;
use std::alloc::Global;
use tsb_tree::{OpenLeaf, open, open_leaf, push_version};
use version_model::{Entry, Stamp};

// Opens the leaf of the tree that takes a version. Pages are only read.
fn leaf_for<P: Pages>(pages: &mut P, head: &Head, entry: &Entry) -> Result<OpenLeaf, ChangeError>
    requires inside { entry.now.key + 1 < key_end }
    requires later { stamp_of head.now.last head.now.applied ≤ entry.now.stamp }
    ensures leaf { (count : ℕ) (o : OnceState) (start : Start) (shown : List (List ℕ)) (low : ℕ) (versions : List Version) → P.shows pages.old start shown
        → TreeLocated count shown (settled_in o) low head.now.root head.now.fresh head.now.block (stamp_of head.now.last head.now.applied) versions → IfOk result (IsOpen shown head.now.root) }
    ensures inside { IfOk result (λ leaf. leaf.page < P.homes pages.old) }
    ensures reads { (start : Start) (shown : List (List ℕ)) → P.shows pages.old start shown → P.shows pages.new start shown }
    ensures homes { P.homes pages.new ≡ P.homes pages.old }
    ensures next { P.next pages.new ≡ P.next pages.old }
    ensures named { P.named pages.new ≡ P.named pages.old }
    ensures down { P.down pages.new ≡ P.down pages.old }
    ensures device { KeepsDevice (P.honest pages.old) (P.honest pages.new) (P.faults pages.old) (P.faults pages.new) (result ≡ Err (ChangeError.Apply ApplyError.Fault)) }
{
    let least = Stamp::new(head.last.number(), head.applied);
    let place = match open(pages, head.root, least) {
        Ok(place) => place,
        Err(refusal) => return Err(of_tree(refusal)),
    };
    match open_leaf(pages, place, entry) {
        Ok(leaf) => Ok(leaf),
        Err(refusal) => Err(of_tree(refusal)),
    }
}

// The version of the next change of the admission, if it has one that may be counted and isn't before the last one applied, and if there is
// memory for it.
fn next_entry(alloc: Global, head: &Head, admission: &Admission) -> Option<Entry>
    ensures some { IfSome result (λ entry. (collector : ℕ) → AreVersions head.now.applied (next_change head.now.begun (placed collector admission.now)) (version_of entry ∷ [])) }
    ensures later { IfSome result (λ entry. stamp_of head.now.last head.now.applied ≤ entry.stamp) }
    ensures end { IfSome result (λ entry. entry.stamp + 1 < 2 ^ 128) }
    ensures small { IfSome result (λ entry. entry_octets (version_of entry) ≤ 3131) }
    ensures inside { IfSome result (λ entry. entry.key + 1 < key_end) }
    ensures counted { IfSome result (λ _. head.now.applied + 1 < 2 ^ 64) }
{
    if head.applied == u64::MAX {
        return None;
    }
    if admission.time() < head.last {
        return None;
    }
    match next_version(alloc, head, admission) {
        Ok(next) => next,
        Err(_) => None,
    }
}

// Applies the next change of an admission to an open leaf, if it has one that the leaf takes. Returns whether the admission is wholly applied
// then.
fn push_change(
    alloc: Global,
    leaf: &mut OpenLeaf,
    settings: Settings,
    head: &mut Head,
    collector: u8,
    admission: &Admission,
) -> Option<bool>
    requires collector { collector < length head.old.lanes }
    requires fits { (lane : Lane) → HasLane head.old collector lane → CanPop settings collector lane admission.now }
    ensures moves { IfSome result (λ whole. (count : ℕ) (o : OnceState) (under pages : List (List ℕ)) (h : History) (later : List (Placed Admitted)) → WithLeaf under head.old.root leaf.old pages
        → HeadRepresents (TreeLocated count) settings (settled_in o) head.old pages h → waiting h ≡ placed collector admission.now ∷ later → IsBelowMarks h admission.now.time
        → MovesOn count settings (settled_in o) (WithLeaf under head.old.root leaf.new) head.new whole h) }
    ensures none { IfNone result (leaf.new ≡ leaf.old) }
    ensures as_before { IfNone result (head.new ≡ head.old) }
    ensures stays { IfSome result (λ whole. whole ≡ false → head.new.lanes ≡ head.old.lanes) }
    ensures lanes { length head.new.lanes ≡ length head.old.lanes }
    ensures fresh { head.new.fresh ≡ head.old.fresh }
    ensures block { head.new.block ≡ head.old.block }
    ensures root { head.new.root ≡ head.old.root }
    ensures page { leaf.new.page ≡ leaf.old.page }
{
    let Some(entry) = next_entry(alloc, head, admission) else {
        return None;
    };
    if !push_version(leaf, &entry) {
        return None;
    }
    let tree = TreePlace {
        fresh: head.fresh,
        block: head.block,
        root: head.root,
    };
    Some(pass_change(settings, head, collector, admission, tree))
}

// Applies changes of an admission to an open leaf, one after another, until the leaf refuses one or the admission is wholly applied. None if
// the leaf takes none.
fn push_changes(
    alloc: Global,
    leaf: &mut OpenLeaf,
    settings: Settings,
    head: &mut Head,
    collector: u8,
    admission: &Admission,
) -> Option<bool>
    requires collector { collector < length head.old.lanes }
    requires fits { (lane : Lane) → HasLane head.old collector lane → CanPop settings collector lane admission.now }
    ensures moves { IfSome result (λ whole. (count : ℕ) (o : OnceState) (under pages : List (List ℕ)) (h : History) (later : List (Placed Admitted)) → WithLeaf under head.old.root leaf.old pages
        → HeadRepresents (TreeLocated count) settings (settled_in o) head.old pages h → waiting h ≡ placed collector admission.now ∷ later → IsBelowMarks h admission.now.time
        → MovesOn count settings (settled_in o) (WithLeaf under head.old.root leaf.new) head.new whole h) }
    ensures stays { IfSome result (λ whole. whole ≡ false → head.new.lanes ≡ head.old.lanes) }
    ensures lanes { length head.new.lanes ≡ length head.old.lanes }
    ensures fresh { head.new.fresh ≡ head.old.fresh }
    ensures block { head.new.block ≡ head.old.block }
    ensures page { leaf.new.page ≡ leaf.old.page }
{
    let Some(mut whole) = push_change(alloc, leaf, settings, head, collector, admission) else {
        return None;
    };
    for _ in 1..admission.changes().len() {
        if whole {
            return Some(true);
        }
        let Some(all) = push_change(alloc, leaf, settings, head, collector, admission) else {
            return Some(false);
        };
        whole = all;
    }
    Some(whole)
}

// Lays the image of a leaf over its page, where images of fewer than 30 pages are held.
fn lay<P: Pages>(pages: &mut P, leaf: OpenLeaf) -> Result<(), ChangeError>
    requires inside { leaf.page < P.homes pages.old }
    requires few { length (P.named pages.old) < 30 }
    ensures laid { OnOk result ((start : Start) (shown : List (List ℕ)) → P.shows pages.old start shown → P.shows pages.new start (slice_set shown leaf.page leaf.image)) }
    ensures as_shown { OnErr result ((start : Start) (shown : List (List ℕ)) → P.shows pages.old start shown → P.shows pages.new start shown) }
    ensures few { length (P.named pages.new) ≤ 30 }
    ensures as_named { OnErr result (P.named pages.new ≡ P.named pages.old) }
    ensures homes { P.homes pages.new ≡ P.homes pages.old }
    ensures next { P.next pages.new ≡ P.next pages.old }
    ensures down { P.down pages.new ≡ P.down pages.old }
    ensures quiet { result ≡ Err (ChangeError.Apply ApplyError.Fault) → ⊥ }
    ensures device { KeepsDevice (P.honest pages.old) (P.honest pages.new) (P.faults pages.old) (P.faults pages.new) ⊥ }
{
    match pages.set(leaf.page, leaf.image) {
        Ok(()) => Ok(()),
        Err(_) => Err(ChangeError::NoRoom),
    }
}

/// Applies the next changes of an admission that fall into one leaf which has room for them, and returns whether the admission is wholly
/// applied then. If there is no such change, or after a refusal, the same pages are shown.
pub(crate) fn plan_run<P: Pages>(
    alloc: Global,
    pages: &mut P,
    settings: Settings,
    head: &mut Head,
    collector: u8,
    admission: &Admission,
) -> Result<Option<bool>, ChangeError>
    requires collector { collector < length head.old.lanes }
    requires fits { (lane : Lane) → HasLane head.old collector lane → CanPop settings collector lane admission.now }
    requires few { length (P.named pages.old) < 30 }
    ensures moves { (whole : Bool) → result ≡ Ok (Some whole) → (count : ℕ) (o : OnceState) (start : Start) (shown : List (List ℕ)) (h : History) (later : List (Placed Admitted)) → P.shows pages.old start shown
        → HeadRepresents (TreeLocated count) settings (settled_in o) head.old shown h → waiting h ≡ placed collector admission.now ∷ later → IsBelowMarks h admission.now.time
        → MovesOn count settings (settled_in o) (P.shows pages.new start) head.new whole h }
    ensures stays { result ≡ Ok (Some false) → head.new.lanes ≡ head.old.lanes }
    ensures none { result ≡ Ok None → (start : Start) (shown : List (List ℕ)) → P.shows pages.old start shown → P.shows pages.new start shown }
    ensures as_shown { OnErr result ((start : Start) (shown : List (List ℕ)) → P.shows pages.old start shown → P.shows pages.new start shown) }
    ensures as_named { result ≡ Ok None → P.named pages.new ≡ P.named pages.old }
    ensures lanes { length head.new.lanes ≡ length head.old.lanes }
    ensures fresh { head.new.fresh ≡ head.old.fresh }
    ensures block { head.new.block ≡ head.old.block }
    ensures shows { (start : Start) (shown : List (List ℕ)) → P.shows pages.old start shown → (after : List (List ℕ)) × P.shows pages.new start after }
    ensures few { length (P.named pages.new) ≤ 30 }
    ensures homes { P.homes pages.new ≡ P.homes pages.old }
    ensures next { P.next pages.new ≡ P.next pages.old }
    ensures down { P.down pages.new ≡ P.down pages.old }
    ensures device { KeepsDevice (P.honest pages.old) (P.honest pages.new) (P.faults pages.old) (P.faults pages.new) (result ≡ Err (ChangeError.Apply ApplyError.Fault)) }
{
    let Some(entry) = next_entry(alloc, head, admission) else {
        return Ok(None);
    };
    let mut leaf = leaf_for(pages, head, &entry)?;
    match push_changes(alloc, &mut leaf, settings, head, collector, admission) {
        Some(whole) => {
            lay(pages, leaf)?;
            Ok(Some(whole))
        }
        None => Ok(None),
    }
}
