//! A tree takes a version.
ghost use Rattle.std.specs.Prelude.{◌≡◌, ◌↔◌, ◌<◌, ◌≤◌, ◌+◌, ◌*◌, ◌^◌, ◌⊎◌, ◌++◌, ◌∷◌, [], ℕ, suc, List, length, Err, IfOk, OnOk, OnErr, IfErr, IsErr, IsErrOf, true, false};
ghost use Rattle.once_store.specs.declared.error.AppendError.{AppendError};
ghost use Rattle.page_tx.specs.Device.{KeepsDevice};
ghost use Rattle.page_tx.specs.Images.{joined};
ghost use Rattle.page_tx.specs.Start.{Start};
ghost use Rattle.version_model.specs.Entries.{version_of};
ghost use Rattle.version_model.specs.Ranges.{key_end};
ghost use Rattle.version_model.specs.Sizes.{entry_octets};
ghost use Rattle.version_model.specs.Versions.{Version};
ghost use Rattle.tsb_tree.specs.Inserted.{PlansTree, TakenIn};
ghost use Rattle.tsb_tree.specs.InPlace.{IsInPlace, TakesInPlace};
ghost use Rattle.tsb_tree.specs.Needs.{NeedsLevel, NeedsPages};
ghost use Rattle.tsb_tree.specs.NoRoom.{AtRoot, IsForRoom, LeadsToFullColumn, LeadsToFullLeaf};
ghost use Rattle.tsb_tree.specs.Outlived.{LeadsToOutdated};
ghost use Rattle.tsb_tree.specs.Raises.{TreeCanBeLaid};
ghost use Rattle.tsb_tree.specs.Refusals.{IsHonest, InsertRefusal};
ghost use Rattle.tsb_tree.specs.Shelves.{HasNoneBlank, KeepsShelf, SpendsOne};
ghost use Rattle.tsb_tree.specs.Stores.{ReadsAlone};
ghost use Rattle.tsb_tree.specs.Trees.{TreeRepresented};

use crate::change::Change;
use crate::descent::plan_under;
use crate::error::TreeError;
use crate::new_root::grown;
use crate::tree::TreePlace;
use disk_models::OnceDisk;
use once_store::Shelf;
use page_tx::{PageError, Pages};
use std::alloc::Global;
use tsb_walk::PagePlace;
use version_model::{Entry, Stamp};

// Of how many pages images are held at most where a node is split. Of the 31 pages of a transaction one is left to the caller.
const MOST_IMAGES: usize = 30;

// Whether images of two pages a level, a new root's and one more have room beside those of this many pages.
fn has_room(images: usize, level: u8) -> bool
    requires few { level ≤ 7 }
    ensures room { result ≡ true → images + (2 * level + 3) ≤ 30 }
    ensures none { result ≡ false → 30 < images + (2 * level + 3) }
{
    images <= MOST_IMAGES - (2 * usize::from(level) + 3)
}

// The stamp right after another one.
fn stamp_after(stamp: Stamp) -> Stamp
    requires end { stamp + 1 < 2 ^ 128 }
    ensures beyond { result ≡ stamp + 1 }
{
    let time = stamp.time();
    match stamp.order().checked_add(1) {
        Some(order) => Stamp::new(time, order),
        None => Stamp::new(time + 1, 0),
    }
}

// The change by which a tree takes a version, and where the tree lies when it is laid. Where no node may be split, its leaf alone takes it.
fn planned<P: Pages, O: OnceDisk + Drop>(
    pages: &mut P,
    shelf: &mut Shelf<O>,
    alloc: Global,
    place: TreePlace,
    entry: &Entry,
    may_split: bool,
) -> Result<(Change, TreePlace), TreeError>
    requires some { 1 ≤ place.level }
    requires few { place.level ≤ 7 }
    requires inside { entry.now.key + 1 < key_end }
    requires size { entry_octets (version_of entry.now) ≤ 3131 }
    requires end { entry.now.stamp + 1 < 2 ^ 128 }
    ensures plans { (start : Start) (shown : List (List ℕ)) (all : List Version) (tree : TreeRepresented P.Pages pages.old O.OnceDisk shelf.old start shown all place.root place.level place.least) → place.least ≤ entry.now.stamp
        → IfOk result (λ plan. PlansTree O.OnceDisk shelf.new (P.homes pages.old) tree.store (all ++ version_of entry.now ∷ []) plan.0 plan.1) }
    ensures honest { (start : Start) (shown : List (List ℕ)) (all : List Version) → TreeRepresented P.Pages pages.old O.OnceDisk shelf.old start shown all place.root place.level place.least → place.least ≤ entry.now.stamp → IsHonest result }
    ensures high { (start : Start) (shown : List (List ℕ)) (all : List Version) → TreeRepresented P.Pages pages.old O.OnceDisk shelf.old start shown all place.root place.level place.least → place.least ≤ entry.now.stamp
        → result ≡ Err TreeError.TooHigh → AtRoot (NeedsLevel shown (version_of entry.now)) place.root place.level }
    ensures lacks { (start : Start) (shown : List (List ℕ)) (all : List Version) → TreeRepresented P.Pages pages.old O.OnceDisk shelf.old start shown all place.root place.level place.least → place.least ≤ entry.now.stamp
        → IfErr result (λ e. IsForRoom e → AtRoot (LeadsToFullLeaf shown (version_of entry.now)) place.root place.level) }
    ensures lacks_pages { (start : Start) (shown : List (List ℕ)) (all : List Version) → TreeRepresented P.Pages pages.old O.OnceDisk shelf.old start shown all place.root place.level place.least → place.least ≤ entry.now.stamp
        → result ≡ Err (TreeError.Pages PageError.PagesFull) → (n : ℕ) × AtRoot (λ root. NeedsPages shown (version_of entry.now) root n) place.root place.level × (P.homes pages.old < P.next pages.old + n) }
    ensures once { (start : Start) (shown : List (List ℕ)) (all : List Version) → TreeRepresented P.Pages pages.old O.OnceDisk shelf.old start shown all place.root place.level place.least → place.least ≤ entry.now.stamp
        → (refusal : AppendError) → result ≡ Err (TreeError.Once refusal) → AtRoot (LeadsToOutdated shown (version_of entry.now)) place.root place.level }
    ensures none_left { (start : Start) (shown : List (List ℕ)) (all : List Version) → TreeRepresented P.Pages pages.old O.OnceDisk shelf.old start shown all place.root place.level place.least → place.least ≤ entry.now.stamp
        → HasNoneBlank O.OnceDisk shelf.old → AtRoot (LeadsToOutdated shown (version_of entry.now)) place.root place.level → IsErr result }
    ensures uses { (start : Start) (shown : List (List ℕ)) (all : List Version) → TreeRepresented P.Pages pages.old O.OnceDisk shelf.old start shown all place.root place.level place.least → place.least ≤ entry.now.stamp
        → IfOk result (λ plan. (n : ℕ) × AtRoot (λ root. NeedsPages shown (version_of entry.now) root n) place.root place.level × (plan.0.unused ≡ P.next pages.old + n)) }
    ensures light { (start : Start) (shown : List (List ℕ)) (all : List Version) → TreeRepresented P.Pages pages.old O.OnceDisk shelf.old start shown all place.root place.level place.least → place.least ≤ entry.now.stamp
        → IfOk result (λ plan. (IsInPlace (P.next pages.old) plan.0 × (shelf.new ≡ shelf.old) × (plan.1.root ≡ place.root) × (plan.1.level ≡ place.level)) ⊎ AtRoot (LeadsToFullLeaf shown (version_of entry.now)) place.root place.level) }
    ensures alone { may_split ≡ false → IfOk result (λ plan. IsInPlace (P.next pages.old) plan.0 × (shelf.new ≡ shelf.old)) }
    ensures crowded { (start : Start) (shown : List (List ℕ)) (all : List Version) → TreeRepresented P.Pages pages.old O.OnceDisk shelf.old start shown all place.root place.level place.least → place.least ≤ entry.now.stamp
        → result ≡ Err (TreeError.Pages PageError.TooManyImages) → (shelf.new ≡ shelf.old) × AtRoot (LeadsToFullLeaf shown (version_of entry.now)) place.root place.level }
    ensures burns { (start : Start) (shown : List (List ℕ)) (all : List Version) → TreeRepresented P.Pages pages.old O.OnceDisk shelf.old start shown all place.root place.level place.least → place.least ≤ entry.now.stamp
        → (shelf.new ≡ shelf.old) ⊎ AtRoot (LeadsToOutdated shown (version_of entry.now)) place.root place.level }
    ensures one_block { (start : Start) (shown : List (List ℕ)) (all : List Version) → TreeRepresented P.Pages pages.old O.OnceDisk shelf.old start shown all place.root place.level place.least → place.least ≤ entry.now.stamp
        → SpendsOne O.OnceDisk shelf.old shelf.new ⊎ AtRoot (LeadsToFullColumn shown (version_of entry.now)) place.root place.level }
    ensures grows { (start : Start) (shown : List (List ℕ)) (all : List Version) → TreeRepresented P.Pages pages.old O.OnceDisk shelf.old start shown all place.root place.level place.least → place.least ≤ entry.now.stamp
        → IfOk result (λ plan. ((plan.1.root ≡ place.root) × (plan.1.level ≡ place.level)) ⊎ ((plan.1.level ≡ suc place.level) × AtRoot (NeedsLevel shown (version_of entry.now)) place.root place.level)) }
    ensures rises { (start : Start) (shown : List (List ℕ)) (all : List Version) → TreeRepresented P.Pages pages.old O.OnceDisk shelf.old start shown all place.root place.level place.least → place.least ≤ entry.now.stamp
        → AtRoot (NeedsLevel shown (version_of entry.now)) place.root place.level → IfOk result (λ plan. plan.1.level ≡ suc place.level) }
    ensures highest { place.level ≡ 7 → result ≡ Err (TreeError.Pages PageError.PagesFull) → P.homes pages.old < P.next pages.old + 8 }
    ensures laid { IfOk result (λ plan. TreeCanBeLaid (P.homes pages.old) (P.next pages.old) place.level plan.0) }
    ensures images { IfOk result (λ plan. length plan.0.images.items ≤ 2 * plan.1.level + 2) }
    ensures least { IfOk result (λ plan. plan.1.least ≡ entry.now.stamp + 1) }
    ensures some { IfOk result (λ plan. 1 ≤ plan.1.level) }
    ensures few { IfOk result (λ plan. plan.1.level ≤ 7) }
    ensures refused { (named : ℕ) → (may_split ≡ false → 30 < named + (2 * place.level + 3)) → IfErr result (InsertRefusal (P.homes pages.old) (P.next pages.old) named place.level (P.down pages.old) place.least entry.now.stamp) }
    ensures reads { ReadsAlone P.Pages pages.old pages.new result }
    ensures shelf { KeepsShelf O.OnceDisk 2 shelf.old shelf.new result }
{
    let root = PagePlace::root(place.root, place.level);
    let change = plan_under(pages, shelf, alloc, &root, entry, may_split)?;
    let stamp = entry.stamp;
    let least = stamp_after(stamp);
    let half = change.new;
    let Some(new) = half else {
        let same = TreePlace { least, ..place };
        return Ok((change, same));
    };
    let higher = TreePlace {
        root: change.unused,
        level: place.level + 1,
        least,
    };
    let change = grown(
        alloc,
        pages.home_pages(),
        place.level,
        place.root,
        change,
        new,
    )?;
    Ok((change, higher))
}

/// Puts a version into the tree at a place: from its stamp on its key has a value of at most 3,072 octets, or none any more. Returns where
/// the tree is then.
///
/// Where its leaf has room for it, the image of one page is enough. Where it has none, images of 2 * level + 3 pages have to have room among
/// 30; else it is refused with `TooManyImages`, before a block is used up.
///
/// The stamp must be at least the place's. All images are laid together, after the last block is settled, or none is. So after an error the
/// tree is where it was and represents the same versions, and no page is set; but a block may be used up, and two if the column's page
/// has no room for another part.
pub fn insert<P: Pages, O: OnceDisk + Drop>(
    pages: &mut P,
    shelf: &mut Shelf<O>,
    alloc: Global,
    place: TreePlace,
    entry: &Entry,
) -> Result<TreePlace, TreeError>
    requires some { 1 ≤ place.level }
    requires few { place.level ≤ 7 }
    requires inside { entry.now.key + 1 < key_end }
    requires size { entry_octets (version_of entry.now) ≤ 3131 }
    requires end { entry.now.stamp + 1 < 2 ^ 128 }
    ensures ok { (start : Start) (shown : List (List ℕ)) (all : List Version) (tree : TreeRepresented P.Pages pages.old O.OnceDisk shelf.old start shown all place.root place.level place.least)
        → IfOk result (λ now. TakenIn P.Pages pages.new O.OnceDisk shelf.new start shown tree.store (all ++ version_of entry.now ∷ []) now) }
    ensures err { OnErr result ((start : Start) (shown : List (List ℕ)) (all : List Version) → TreeRepresented P.Pages pages.old O.OnceDisk shelf.old start shown all place.root place.level place.least
        → TreeRepresented P.Pages pages.new O.OnceDisk shelf.new start shown all place.root place.level place.least) }
    ensures honest { (start : Start) (shown : List (List ℕ)) (all : List Version) → TreeRepresented P.Pages pages.old O.OnceDisk shelf.old start shown all place.root place.level place.least → IsHonest result }
    ensures high { (start : Start) (shown : List (List ℕ)) (all : List Version) → TreeRepresented P.Pages pages.old O.OnceDisk shelf.old start shown all place.root place.level place.least
        → result ≡ Err TreeError.TooHigh → AtRoot (NeedsLevel shown (version_of entry.now)) place.root place.level }
    ensures lacks { (start : Start) (shown : List (List ℕ)) (all : List Version) → TreeRepresented P.Pages pages.old O.OnceDisk shelf.old start shown all place.root place.level place.least
        → IfErr result (λ e. IsForRoom e → AtRoot (LeadsToFullLeaf shown (version_of entry.now)) place.root place.level) }
    ensures lacks_pages { (start : Start) (shown : List (List ℕ)) (all : List Version) → TreeRepresented P.Pages pages.old O.OnceDisk shelf.old start shown all place.root place.level place.least
        → result ≡ Err (TreeError.Pages PageError.PagesFull) → (n : ℕ) × AtRoot (λ root. NeedsPages shown (version_of entry.now) root n) place.root place.level × (P.homes pages.old < P.next pages.old + n) }
    ensures once { (start : Start) (shown : List (List ℕ)) (all : List Version) → TreeRepresented P.Pages pages.old O.OnceDisk shelf.old start shown all place.root place.level place.least
        → (refusal : AppendError) → result ≡ Err (TreeError.Once refusal) → AtRoot (LeadsToOutdated shown (version_of entry.now)) place.root place.level }
    ensures none_left { (start : Start) (shown : List (List ℕ)) (all : List Version) → TreeRepresented P.Pages pages.old O.OnceDisk shelf.old start shown all place.root place.level place.least
        → HasNoneBlank O.OnceDisk shelf.old → AtRoot (LeadsToOutdated shown (version_of entry.now)) place.root place.level → IsErr result }
    ensures uses { (start : Start) (shown : List (List ℕ)) (all : List Version) → TreeRepresented P.Pages pages.old O.OnceDisk shelf.old start shown all place.root place.level place.least
        → IfOk result (λ now. (n : ℕ) × AtRoot (λ root. NeedsPages shown (version_of entry.now) root n) place.root place.level × (P.next pages.new ≡ P.next pages.old + n)) }
    ensures in_place { (start : Start) (shown : List (List ℕ)) (all : List Version) → TreeRepresented P.Pages pages.old O.OnceDisk shelf.old start shown all place.root place.level place.least
        → IfOk result (λ now. TakesInPlace P.Pages pages.old pages.new shelf.old shelf.new place now ⊎ AtRoot (LeadsToFullLeaf shown (version_of entry.now)) place.root place.level) }
    ensures crowded { (start : Start) (shown : List (List ℕ)) (all : List Version) → TreeRepresented P.Pages pages.old O.OnceDisk shelf.old start shown all place.root place.level place.least
        → length (P.named pages.old) ≤ 30 → result ≡ Err (TreeError.Pages PageError.TooManyImages) → (shelf.new ≡ shelf.old) × AtRoot (LeadsToFullLeaf shown (version_of entry.now)) place.root place.level }
    ensures burns { (start : Start) (shown : List (List ℕ)) (all : List Version) → TreeRepresented P.Pages pages.old O.OnceDisk shelf.old start shown all place.root place.level place.least
        → (shelf.new ≡ shelf.old) ⊎ AtRoot (LeadsToOutdated shown (version_of entry.now)) place.root place.level }
    ensures one_block { (start : Start) (shown : List (List ℕ)) (all : List Version) → TreeRepresented P.Pages pages.old O.OnceDisk shelf.old start shown all place.root place.level place.least
        → SpendsOne O.OnceDisk shelf.old shelf.new ⊎ AtRoot (LeadsToFullColumn shown (version_of entry.now)) place.root place.level }
    ensures grows { (start : Start) (shown : List (List ℕ)) (all : List Version) → TreeRepresented P.Pages pages.old O.OnceDisk shelf.old start shown all place.root place.level place.least
        → IfOk result (λ now. ((now.root ≡ place.root) × (now.level ≡ place.level)) ⊎ ((now.level ≡ suc place.level) × AtRoot (NeedsLevel shown (version_of entry.now)) place.root place.level)) }
    ensures rises { (start : Start) (shown : List (List ℕ)) (all : List Version) → TreeRepresented P.Pages pages.old O.OnceDisk shelf.old start shown all place.root place.level place.least
        → AtRoot (NeedsLevel shown (version_of entry.now)) place.root place.level → IfOk result (λ now. now.level ≡ suc place.level) }
    ensures highest { place.level ≡ 7 → result ≡ Err (TreeError.Pages PageError.PagesFull) → P.homes pages.old < P.next pages.old + 8 }
    ensures back { (result ≡ Err TreeError.StampBack) ↔ (entry.now.stamp < place.least) }
    ensures refused { IfErr result (InsertRefusal (P.homes pages.old) (P.next pages.old) (length (P.named pages.old)) place.level (P.down pages.old) place.least entry.now.stamp) }
    ensures least { IfOk result (λ now. now.least ≡ entry.now.stamp + 1) }
    ensures some { IfOk result (λ now. 1 ≤ now.level) }
    ensures few { IfOk result (λ now. now.level ≤ 7) }
    ensures reads { OnErr result (ReadsAlone P.Pages pages.old pages.new result) }
    ensures keeps { (start : Start) (shown : List (List ℕ)) → P.shows pages.old start shown → (after : List (List ℕ)) × P.shows pages.new start after }
    ensures device { KeepsDevice (P.honest pages.old) (P.honest pages.new) (P.faults pages.old) (P.faults pages.new) (IsErrOf result (TreeError.Pages PageError.Fault)) }
    ensures shelf { KeepsShelf O.OnceDisk 2 shelf.old shelf.new result }
    ensures onward { P.next pages.old ≤ P.next pages.new }
    ensures next { P.next pages.new ≤ P.next pages.old + place.level + 2 }
    ensures named { OnOk result ((ns : List ℕ) × (length ns ≤ 2 * place.level + 3) × (P.named pages.new ≡ joined (P.named pages.old) ns)) }
    ensures fits { length (P.named pages.old) < 30 → OnOk result (length (P.named pages.new) ≤ 30) }
    ensures images { IfOk result (λ now. (ns : List ℕ) × (length ns ≤ 2 * now.level + 2) × (P.named pages.new ≡ joined (P.named pages.old) ns)) }
    ensures homes { P.homes pages.new ≡ P.homes pages.old }
    ensures down { P.down pages.new ≡ P.down pages.old }
{
    let stamp = entry.stamp;
    if stamp < place.least {
        return Err(TreeError::StampBack);
    }
    let may_split = has_room(pages.images(), place.level);
    let (change, now) = planned(pages, shelf, alloc, place, entry, may_split)?;
    match pages.lay(change.images, change.unused) {
        Ok(()) => Ok(now),
        Err(refusal) => Err(TreeError::from(refusal)),
    }
}
