//! What a column becomes that takes a version is planned.
ghost use Rattle.std.specs.Prelude.{◌≡◌, ◌+◌, ◌^◌, ◌<◌, ◌≤◌, ◌⊎◌, ℕ, List, IfOk, IfErr, IsErr, OnOk, Err, Some, slice_get, true, false};
ghost use Rattle.once_store.specs.declared.error.AppendError.{AppendError};
ghost use Rattle.once_store.specs.Shelves.{disk_of, pen_of};
ghost use Rattle.page_tx.specs.Start.{Start};
ghost use Rattle.version_model.specs.Entries.{version_of};
ghost use Rattle.version_model.specs.Pages.{Store};
ghost use Rattle.version_model.specs.Sizes.{entry_octets};
ghost use Rattle.version_model.specs.Versions.{Version};
ghost use Rattle.tsb_walk.specs.Shown.{HasKey};
ghost use Rattle.tsb_tree.specs.InPlace.{IsInPlace};
ghost use Rattle.tsb_tree.specs.NoRoom.{IsForRoom, LeadsToFullColumn, LeadsToFullLeaf};
ghost use Rattle.tsb_tree.specs.Outlived.{IsOutdated, LeadsToOutdated};
ghost use Rattle.tsb_tree.specs.Plans.{CanBeLaid, Plans};
ghost use Rattle.tsb_tree.specs.Read.{IsFilled, IsLeafOf};
ghost use Rattle.tsb_tree.specs.Refusals.{IsHonest, PlanRefusal};
ghost use Rattle.tsb_tree.specs.Shelves.{HasNoneBlank, KeepsShelf, SpendsOne};
ghost use Rattle.tsb_tree.specs.Stores.{ReadsAlone};
ghost use Rattle.tsb_tree.specs.Takers.{CanTake};
ghost use Rattle.tsb_tree.specs.inner.Uses.{UsesPages, LacksPages};

use crate::change::Change;
use crate::current_leaf::{LeafImage, current_leaf};
use crate::error::TreeError;
use crate::putting_in_leaf::{lay_leaf, push_entry};
use crate::reading_whole::whole_at;
use crate::splitting_column::{Unused, split_column};
use disk_models::OnceDisk;
use once_store::Shelf;
use page_tx::{PageError, Pages};
use std::alloc::Global;
use tsb_walk::PagePlace;
use version_model::Entry;

// Plans what the column at a place becomes that takes a version for which its leaf has no room.
fn plan_splits<P: Pages, O: OnceDisk + Drop>(
    pages: &mut P,
    shelf: &mut Shelf<O>,
    alloc: Global,
    place: &PagePlace,
    leaf: &LeafImage,
    entry: &Entry,
) -> Result<Change, TreeError>
    requires level { place.now.level ≡ 1 }
    requires has { HasKey place.now entry.now.key }
    requires small { entry_octets (version_of entry.now) ≤ 3131 }
    requires end { entry.now.stamp + 1 < 256 ^ 16 }
    requires within { leaf.now.page < P.homes pages.old }
    ensures plans { (s : Store) (all : List Version) → (can : CanTake P.Pages pages.old O.OnceDisk shelf.old s all place.now (version_of entry.now)) → slice_get can.shown leaf.now.page ≡ Some leaf.now.image
        → IfOk result (λ change. Plans O.OnceDisk shelf.new (P.homes pages.old) s (version_of entry.now) place.now.level place.now.page change) }
    ensures honest { (s : Store) (all : List Version) → (can : CanTake P.Pages pages.old O.OnceDisk shelf.old s all place.now (version_of entry.now)) → IsLeafOf can.shown place.now leaf.now.page leaf.now.image
        → IsFilled place.now leaf.now.image (version_of entry.now) → IsHonest result }
    ensures uses { (start : Start) (shown : List (List ℕ)) → P.shows pages.old start shown → slice_get shown leaf.now.page ≡ Some leaf.now.image → IsFilled place.now leaf.now.image (version_of entry.now)
        → IfOk result (λ change. UsesPages shown (version_of entry.now) place.now (P.next pages.old) change.unused change.new) }
    ensures lacks_pages { (start : Start) (shown : List (List ℕ)) → P.shows pages.old start shown → slice_get shown leaf.now.page ≡ Some leaf.now.image → IsFilled place.now leaf.now.image (version_of entry.now)
        → result ≡ Err (TreeError.Pages PageError.PagesFull) → LacksPages shown (version_of entry.now) place.now (P.homes pages.old) (P.next pages.old) }
    ensures burns { (shelf.new ≡ shelf.old) ⊎ IsOutdated place.now leaf.now.image (version_of entry.now) }
    ensures once { (refusal : AppendError) → result ≡ Err (TreeError.Once refusal) → IsOutdated place.now leaf.now.image (version_of entry.now) }
    ensures none_left { O.honest (disk_of shelf.old) (pen_of shelf.old) → HasNoneBlank O.OnceDisk shelf.old → IsOutdated place.now leaf.now.image (version_of entry.now) → IsErr result }
    ensures laid { IfOk result (λ change. CanBeLaid (P.homes pages.old) (P.next pages.old) place.now.level change) }
    ensures inside { OnOk result (place.now.page < P.homes pages.old) }
    ensures refused { IfErr result (PlanRefusal (P.homes pages.old) (P.next pages.old) place.now.level (P.down pages.old) true) }
    ensures reads { ReadsAlone P.Pages pages.old pages.new result }
    ensures shelf { KeepsShelf O.OnceDisk 2 shelf.old shelf.new result }
    ensures one_block { (start : Start) (shown : List (List ℕ)) → P.shows pages.old start shown → SpendsOne O.OnceDisk shelf.old shelf.new ⊎ LeadsToFullColumn shown (version_of entry.now) place.now }
{
    let whole = whole_at(pages, alloc, place, leaf)?;
    let unused = Unused {
        next: pages.next_page(),
        homes: pages.home_pages(),
    };
    split_column(shelf, alloc, unused, place.page, leaf, whole, entry)
}

/// Plans what the column at a place becomes that takes a version of its keys. If the current leaf has room for it, its page's image
/// alone is changed, and nothing is read as a list. Else the column is split, or, if no node may be split, the version is refused for its
/// images before a block is spent.
///
/// Pages are only read, and blocks are settled: two at most.
pub fn plan_column<P: Pages, O: OnceDisk + Drop>(
    pages: &mut P,
    shelf: &mut Shelf<O>,
    alloc: Global,
    place: &PagePlace,
    entry: &Entry,
    may_split: bool,
) -> Result<Change, TreeError>
    requires level { place.now.level ≡ 1 }
    requires has { HasKey place.now entry.now.key }
    requires small { entry_octets (version_of entry.now) ≤ 3131 }
    requires end { entry.now.stamp + 1 < 256 ^ 16 }
    ensures plans { (s : Store) (all : List Version) → CanTake P.Pages pages.old O.OnceDisk shelf.old s all place.now (version_of entry.now)
        → IfOk result (λ change. Plans O.OnceDisk shelf.new (P.homes pages.old) s (version_of entry.now) place.now.level place.now.page change) }
    ensures honest { (s : Store) (all : List Version) → CanTake P.Pages pages.old O.OnceDisk shelf.old s all place.now (version_of entry.now) → IsHonest result }
    ensures uses { (s : Store) (all : List Version) → (can : CanTake P.Pages pages.old O.OnceDisk shelf.old s all place.now (version_of entry.now))
        → IfOk result (λ change. UsesPages can.shown (version_of entry.now) place.now (P.next pages.old) change.unused change.new) }
    ensures lacks_pages { (s : Store) (all : List Version) → (can : CanTake P.Pages pages.old O.OnceDisk shelf.old s all place.now (version_of entry.now))
        → result ≡ Err (TreeError.Pages PageError.PagesFull) → LacksPages can.shown (version_of entry.now) place.now (P.homes pages.old) (P.next pages.old) }
    ensures lacks { (s : Store) (all : List Version) → (can : CanTake P.Pages pages.old O.OnceDisk shelf.old s all place.now (version_of entry.now))
        → IfErr result (λ e. IsForRoom e → LeadsToFullLeaf can.shown (version_of entry.now) place.now) }
    ensures light { (s : Store) (all : List Version) → (can : CanTake P.Pages pages.old O.OnceDisk shelf.old s all place.now (version_of entry.now))
        → IfOk result (λ change. (IsInPlace (P.next pages.old) change × (shelf.new ≡ shelf.old)) ⊎ LeadsToFullLeaf can.shown (version_of entry.now) place.now) }
    ensures alone { may_split ≡ false → IfOk result (λ change. IsInPlace (P.next pages.old) change × (shelf.new ≡ shelf.old)) }
    ensures crowded { (s : Store) (all : List Version) → (can : CanTake P.Pages pages.old O.OnceDisk shelf.old s all place.now (version_of entry.now))
        → result ≡ Err (TreeError.Pages PageError.TooManyImages) → (shelf.new ≡ shelf.old) × LeadsToFullLeaf can.shown (version_of entry.now) place.now }
    ensures burns { (s : Store) (all : List Version) → (can : CanTake P.Pages pages.old O.OnceDisk shelf.old s all place.now (version_of entry.now)) → (shelf.new ≡ shelf.old) ⊎ LeadsToOutdated can.shown (version_of entry.now) place.now }
    ensures once { (s : Store) (all : List Version) → (can : CanTake P.Pages pages.old O.OnceDisk shelf.old s all place.now (version_of entry.now))
        → (refusal : AppendError) → result ≡ Err (TreeError.Once refusal) → LeadsToOutdated can.shown (version_of entry.now) place.now }
    ensures none_left { (s : Store) (all : List Version) → (can : CanTake P.Pages pages.old O.OnceDisk shelf.old s all place.now (version_of entry.now))
        → HasNoneBlank O.OnceDisk shelf.old → LeadsToOutdated can.shown (version_of entry.now) place.now → IsErr result }
    ensures laid { IfOk result (λ change. CanBeLaid (P.homes pages.old) (P.next pages.old) place.now.level change) }
    ensures inside { OnOk result (place.now.page < P.homes pages.old) }
    ensures refused { IfErr result (PlanRefusal (P.homes pages.old) (P.next pages.old) place.now.level (P.down pages.old) may_split) }
    ensures reads { ReadsAlone P.Pages pages.old pages.new result }
    ensures shelf { KeepsShelf O.OnceDisk 2 shelf.old shelf.new result }
    ensures one_block { (s : Store) (all : List Version) → (can : CanTake P.Pages pages.old O.OnceDisk shelf.old s all place.now (version_of entry.now)) → SpendsOne O.OnceDisk shelf.old shelf.new ⊎ LeadsToFullColumn can.shown (version_of entry.now) place.now }
{
    let mut leaf = current_leaf(pages, place, entry)?;
    if push_entry(&mut leaf.image, leaf.page, entry)? {
        return Ok(lay_leaf(alloc, leaf, pages.next_page())?);
    }
    if !may_split {
        return Err(TreeError::Pages(PageError::TooManyImages));
    }
    plan_splits(pages, shelf, alloc, place, &leaf, entry)
}
