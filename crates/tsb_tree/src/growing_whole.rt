//! A column in memory takes a version for which its leaf has no room in its page.
ghost use Rattle.std.specs.Prelude.{◌≡◌, ◌+◌, ◌^◌, ◌<◌, ◌≤◌, ◌⊎◌, ◌++◌, ◌∷◌, [], ℕ, Option, IfErr, IsErr, OnOk, Err, length};
ghost use Rattle.once_store.specs.declared.error.AppendError.{AppendError};
ghost use Rattle.once_store.specs.Shelves.{disk_of, next_of, pen_of};
ghost use Rattle.version_model.specs.Blocks.{BlockNode};
ghost use Rattle.version_model.specs.Entries.{version_of};
ghost use Rattle.version_model.specs.Ranges.{high_or};
ghost use Rattle.version_model.specs.Sizes.{octets, entry_octets, IsSingle};
ghost use Rattle.version_model.specs.Versions.{Version, Has, IsAbove};
ghost use Rattle.tsb_node.specs.Leaves.{IsLeafPage};
ghost use Rattle.worm_migration.specs.Settled.{ShelfRepresents};
ghost use Rattle.tsb_tree.specs.Needs.{IsWhatStays};
ghost use Rattle.tsb_tree.specs.Outlived.{HasOutlived};
ghost use Rattle.tsb_tree.specs.Refusals.{IsHonest, GrowRefusal};
ghost use Rattle.tsb_tree.specs.Shapes.{IsWhole, leaf_in_page};
ghost use Rattle.tsb_tree.specs.Shelves.{HasNoneBlank, KeepsShelf, SpendsOne, TakesOn};

use crate::burning::split_by_time;
use crate::current_leaf::LeafImage;
use crate::dividing::{newer_of, take};
use crate::error::TreeError;
use crate::whole::Whole;
use disk_models::OnceDisk;
use once_store::Shelf;
use std::alloc::Global;
use version_model::Entry;

/// A column takes a version in memory. If that moves anything it is split by time at the version's stamp: its leaf as it was, which is
/// in a page, becomes a block. After an error the column can't be used.
pub fn grow<O: OnceDisk + Drop>(
    shelf: &mut Shelf<O>,
    alloc: Global,
    leaf: &LeafImage,
    whole: &mut Whole,
    entry: &Entry,
) -> Result<(), TreeError>
    requires whole { IsWhole whole.old }
    requires leaf { IsLeafPage (leaf_in_page whole.old) leaf.now.image }
    requires low { whole.old.low ≤ entry.now.key }
    requires high { entry.now.key < high_or whole.old.high }
    requires small { entry_octets (version_of entry.now) ≤ 3131 }
    requires end { entry.now.stamp + 1 < 256 ^ 16 }
    ensures takes { O.honest (disk_of shelf.old) (pen_of shelf.old) → OnOk result ((blocks : ℕ → Option BlockNode) → ShelfRepresents O.OnceDisk shelf.old blocks
        → (more : ℕ → Option BlockNode) × TakesOn O.OnceDisk shelf.new blocks more (next_of shelf.old) (version_of entry.now) whole.old whole.new) }
    ensures whole { OnOk result (IsWhole whole.new) }
    ensures single { OnOk result (IsSingle whole.new.leaf) }
    ensures most { OnOk result (octets whole.new.leaf ≤ 19363) }
    ensures stays { OnOk result (IsWhatStays (whole.old.leaf ++ version_of entry.now ∷ []) entry.now.stamp whole.new.leaf) }
    ensures only { OnOk result ((v : Version) → Has whole.new.leaf v → Has whole.old.leaf v ⊎ (v ≡ version_of entry.now)) }
    ensures honest { IsAbove whole.old.leaf entry.now.stamp → whole.old.start < entry.now.stamp → IsHonest result }
    ensures burns { (shelf.new ≡ shelf.old) ⊎ HasOutlived whole.old.leaf (version_of entry.now) }
    ensures once { (refusal : AppendError) → result ≡ Err (TreeError.Once refusal) → HasOutlived whole.old.leaf (version_of entry.now) }
    ensures none_left { O.honest (disk_of shelf.old) (pen_of shelf.old) → HasNoneBlank O.OnceDisk shelf.old → HasOutlived whole.old.leaf (version_of entry.now) → IsErr result }
    ensures refused { IfErr result GrowRefusal }
    ensures shelf { KeepsShelf O.OnceDisk 2 shelf.old shelf.new result }
    ensures one_block { (shelf.new ≡ shelf.old) ⊎ (SpendsOne O.OnceDisk shelf.old shelf.new ⊎ (648 ≤ length whole.old.parts.items)) }
{
    let at = entry.stamp;
    if !whole.leaf.is_before(at) || whole.start >= at {
        return Err(TreeError::BadNode(leaf.page));
    }
    take(whole, entry)?;
    let Some(newer) = newer_of(alloc, &whole.leaf, at)? else {
        return Ok(());
    };
    match split_by_time(shelf, alloc, &leaf.image, whole, newer, at) {
        Ok(_) => Ok(()),
        Err(refusal) => Err(refusal),
    }
}
