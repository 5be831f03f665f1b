//! A column takes a version for which its leaf has no room, and is laid out as one or as two.
ghost use Rattle.std.specs.Prelude.{◌≡◌, ◌+◌, ◌^◌, ◌<◌, ◌≤◌, ◌⊎◌, ◌++◌, ◌∷◌, [], ℕ, Bool, List, Option, IfOk, IfErr, Err, IsErr, IsErrOf, length, true};
ghost use Rattle.once_store.specs.declared.error.AppendError.{AppendError};
ghost use Rattle.once_store.specs.Shelves.{disk_of, next_of, pen_of};
ghost use Rattle.version_model.specs.Blocks.{BlockNode};
ghost use Rattle.version_model.specs.Entries.{version_of};
ghost use Rattle.version_model.specs.Ranges.{high_or, key_end};
ghost use Rattle.version_model.specs.Sizes.{octets, entry_octets, IsSingle};
ghost use Rattle.version_model.specs.Versions.{Version, Has, IsAbove};
ghost use Rattle.tsb_node.specs.Leaves.{IsLeafPage};
ghost use Rattle.worm_migration.specs.Settled.{ShelfRepresents};
ghost use Rattle.tsb_tree.specs.Layouts.{LaysOut, TakesOut};
ghost use Rattle.tsb_tree.specs.Needs.{IsWhatStays};
ghost use Rattle.tsb_tree.specs.Outlived.{HasOutlived};
ghost use Rattle.tsb_tree.specs.Plans.{CanBeLaid};
ghost use Rattle.tsb_tree.specs.Refusals.{IsHonest, LayoutRefusal, PlanRefusal};
ghost use Rattle.tsb_tree.specs.Shapes.{IsWhole, leaf_in_page};
ghost use Rattle.tsb_tree.specs.Shelves.{HasNoneBlank, KeepsShelf, SpendsOne};
ghost use Rattle.tsb_tree.specs.inner.Uses.{UsesForLeaf};

use crate::change::Change;
use crate::current_leaf::LeafImage;
use crate::dividing::split_key_of;
use crate::error::TreeError;
use crate::growing_whole::grow;
use crate::layout::{lay_one, lay_two};
use crate::whole::Whole;
use disk_models::OnceDisk;
use once_store::Shelf;
use page_tx::PageError;
use std::alloc::Global;
use version_model::Entry;

/// The pages that were never used: from `next` on, below `homes`.
#[derive(Clone, Copy, Debug)]
pub struct Unused {
    pub next: u64,
    pub homes: u64,
}

// The most octets of entries that a leaf keeps when it is split by time: two thirds of what a page has room for, so that the next split is
// far off.
const MOST_KEPT: u64 = 10_821;

// Lays a column out: as one, or as two halves if its leaf keeps too much.
fn lay_out(
    alloc: Global,
    unused: Unused,
    page: u64,
    current: u64,
    whole: Whole,
) -> Result<Change, TreeError>
    requires onward { unused.next ≤ unused.homes }
    requires whole { IsWhole whole }
    requires single { IsSingle whole.leaf }
    requires most { octets whole.leaf ≤ 19363 }
    ensures laid { IfOk result (λ change. LaysOut page current unused.next whole change.images.items change.unused change.new) }
    ensures inside { IfOk result (λ change. change.unused ≤ unused.homes) }
    ensures uses { IfOk result (λ change. UsesForLeaf (octets whole.leaf) unused.next change.unused change.new) }
    ensures lacks_pages { result ≡ Err (TreeError.Pages PageError.PagesFull) → 10821 < octets whole.leaf }
    ensures honest { ((v : Version) → Has whole.leaf v → v.key + 1 < key_end) → IsHonest result }
    ensures refused { IfErr result (LayoutRefusal unused.homes unused.next) }
{
    if whole.leaf.octets() <= MOST_KEPT {
        return Ok(lay_one(alloc, page, current, unused.next, &whole)?);
    }
    if unused.homes - unused.next < 2 {
        return Err(TreeError::Pages(PageError::PagesFull));
    }
    let Some(key) = split_key_of(&whole.leaf) else {
        return Err(TreeError::BadNode(current));
    };
    Ok(lay_two(alloc, page, current, unused.next, whole, key)?)
}

/// A column whose leaf is in a page takes a version for which the page has no room. If that moves anything, the column is split by time
/// at the version's stamp; and it is split by key if what stays is more than two thirds of a page.
pub fn split_column<O: OnceDisk + Drop>(
    shelf: &mut Shelf<O>,
    alloc: Global,
    unused: Unused,
    page: u64,
    leaf: &LeafImage,
    whole: Whole,
    entry: &Entry,
) -> Result<Change, TreeError>
    requires onward { unused.next ≤ unused.homes }
    requires whole { IsWhole whole }
    requires leaf { IsLeafPage (leaf_in_page whole) leaf.now.image }
    requires low { whole.low ≤ entry.now.key }
    requires high { entry.now.key < high_or whole.high }
    requires small { entry_octets (version_of entry.now) ≤ 3131 }
    requires end { entry.now.stamp + 1 < 256 ^ 16 }
    ensures takes { O.honest (disk_of shelf.old) (pen_of shelf.old) → IfOk result (λ change. (blocks : ℕ → Option BlockNode) → ShelfRepresents O.OnceDisk shelf.old blocks
        → TakesOut O.OnceDisk shelf.new blocks (next_of shelf.old) (version_of entry.now) page leaf.now.page unused.next whole change) }
    ensures laid { page < unused.homes → leaf.now.page < unused.homes → IfOk result (λ change. CanBeLaid unused.homes unused.next 1 change) }
    ensures inside { IfOk result (λ change. change.unused ≤ unused.homes) }
    ensures honest { IsAbove whole.leaf entry.now.stamp → whole.start < entry.now.stamp → ((v : Version) → Has whole.leaf v → v.key + 1 < key_end) → entry.now.key + 1 < key_end → IsHonest result }
    ensures uses { IfOk result (λ change. (stays : List Version) × IsWhatStays (whole.leaf ++ version_of entry.now ∷ []) entry.now.stamp stays × UsesForLeaf (octets stays) unused.next change.unused change.new) }
    ensures lacks_pages { result ≡ Err (TreeError.Pages PageError.PagesFull) → (stays : List Version) × IsWhatStays (whole.leaf ++ version_of entry.now ∷ []) entry.now.stamp stays × (10821 < octets stays) × (unused.homes < unused.next + 2) }
    ensures burns { (shelf.new ≡ shelf.old) ⊎ HasOutlived whole.leaf (version_of entry.now) }
    ensures once { (refusal : AppendError) → result ≡ Err (TreeError.Once refusal) → HasOutlived whole.leaf (version_of entry.now) }
    ensures none_left { O.honest (disk_of shelf.old) (pen_of shelf.old) → HasNoneBlank O.OnceDisk shelf.old → HasOutlived whole.leaf (version_of entry.now) → IsErr result }
    ensures refused { (down : Bool) → IfErr result (PlanRefusal unused.homes unused.next 1 down true) }
    ensures read { IsErrOf result (TreeError.Pages PageError.Fault) → ⊥ }
    ensures shelf { KeepsShelf O.OnceDisk 2 shelf.old shelf.new result }
    ensures one_block { (shelf.new ≡ shelf.old) ⊎ (SpendsOne O.OnceDisk shelf.old shelf.new ⊎ (648 ≤ length whole.parts.items)) }
{
    let mut whole = whole;
    grow(shelf, alloc, leaf, &mut whole, entry)?;
    match lay_out(alloc, unused, page, leaf.page, whole) {
        Ok(change) => Ok(change),
        Err(refusal) => Err(refusal),
    }
}
