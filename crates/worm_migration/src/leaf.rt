//! The leaf of a column as it was until a stamp becomes a block.

ghost use Rattle.std.specs.Prelude.{◌≡◌, ◌+◌, ◌<◌, ◌≤◌, ◌^◌, ◌∷◌, ◌++◌, [], ℕ, List, Option, None, IfOk, length};
ghost use Rattle.once_store.specs.Shelves.{disk_of, next_of, pen_of};
ghost use Rattle.version_model.specs.declared.part.Part.{Part};
ghost use Rattle.version_model.specs.Versions.{Version};
ghost use Rattle.version_model.specs.Ranges.{until};
ghost use Rattle.version_model.specs.LeafVersions.{IsFrom, LeafRepresents};
ghost use Rattle.version_model.specs.Blocks.{BlockNode};
ghost use Rattle.version_model.specs.Pages.{PartsRepresent, current_range};
ghost use Rattle.version_model.specs.Sizes.{octets};
ghost use Rattle.tsb_node.specs.Leaves.{CanBeLeaf, IsLeafPage, LeafNode};
ghost use Rattle.tsb_node.specs.Views.{keys_between};
ghost use Rattle.worm_migration.specs.Columns.{ColumnHas, leaf_part, old_leaf};
ghost use Rattle.worm_migration.specs.Settled.{ShelfRepresents, with_block};
ghost use Rattle.worm_migration.specs.Shelves.{KeepsShelf, SettlesAs, reported};

use crate::error::MigrationError;
use crate::settling::settle;
use disk_models::{Block, OnceDisk, Page};
use once_store::Shelf;
use std::alloc::Global;
use tsb_node::{seal_leaf, write_leaf};
use version_model::{Bounds, Leaf, Stamp};

/// Makes a block of the leaf in a page as it was until a stamp above its start, and returns the block's number.
///
/// The page stays; the block has all that it has, in the same octets but for the end and the digest. What it has from the stamp on counts
/// for nothing in the block.
pub fn settle_leaf_page<O: OnceDisk + Drop>(
    shelf: &mut Shelf<O>,
    alloc: Global,
    page: &Page,
    at: Stamp,
) -> Result<u64, MigrationError>
    requires end { at + 1 < 256 ^ 16 }
    ensures shelf { KeepsShelf O.OnceDisk shelf.old shelf.new result }
    ensures settled { O.honest (disk_of shelf.old) (pen_of shelf.old) → (leaf : LeafNode) → IsLeafPage leaf page.now → leaf.bounds.start < at
        → IfOk result (λ n. SettlesAs O.OnceDisk shelf.old shelf.new n (old_leaf (keys_between leaf.bounds) leaf.bounds.start at leaf.versions)) }
    ensures past { O.honest (disk_of shelf.old) (pen_of shelf.old) → (leaf : LeafNode) → IsLeafPage leaf page.now → leaf.bounds.start < at
        → IfOk result (λ n. (blocks : ℕ → Option BlockNode) (all : List Version) (parts : List Part) → ShelfRepresents O.OnceDisk shelf.old blocks → LeafRepresents all (until (current_range (keys_between leaf.bounds) leaf.bounds.start) at) leaf.versions
        → PartsRepresent blocks (next_of shelf.old) all (keys_between leaf.bounds) leaf.bounds.start parts
        → PartsRepresent (with_block n (old_leaf (keys_between leaf.bounds) leaf.bounds.start at leaf.versions) blocks) (next_of shelf.new) all (keys_between leaf.bounds) at (parts ++ leaf_part leaf.bounds.start n ∷ [])) }
{
    let mut block = Block::new(alloc)?;
    seal_leaf(page, at, &mut block);
    settle(shelf, &block)
}

/// Makes a block of a current leaf as it was until a stamp above its start, and returns the block's number.
pub fn settle_leaf<O: OnceDisk + Drop>(
    shelf: &mut Shelf<O>,
    alloc: Global,
    bounds: &Bounds,
    leaf: &Leaf,
    at: Stamp,
) -> Result<u64, MigrationError>
    requires leaf { CanBeLeaf (record { bounds = bounds.now; versions = leaf.now }) }
    requires current { bounds.now.end ≡ None }
    requires forward { bounds.now.start < at }
    requires end { at + 1 < 256 ^ 16 }
    ensures shelf { KeepsShelf O.OnceDisk shelf.old shelf.new result }
    ensures settled { O.honest (disk_of shelf.old) (pen_of shelf.old)
        → IfOk result (λ n. SettlesAs O.OnceDisk shelf.old shelf.new n (old_leaf (keys_between bounds.now) bounds.now.start at leaf.now)) }
    ensures past { O.honest (disk_of shelf.old) (pen_of shelf.old)
        → IfOk result (λ n. (blocks : ℕ → Option BlockNode) (all : List Version) (parts : List Part) → ShelfRepresents O.OnceDisk shelf.old blocks → LeafRepresents all (until (current_range (keys_between bounds.now) bounds.now.start) at) leaf.now
        → PartsRepresent blocks (next_of shelf.old) all (keys_between bounds.now) bounds.now.start parts
        → PartsRepresent (with_block n (old_leaf (keys_between bounds.now) bounds.now.start at leaf.now) blocks) (next_of shelf.new) all (keys_between bounds.now) at (parts ++ leaf_part bounds.now.start n ∷ [])) }
{
    let mut page = Page::new(alloc)?;
    write_leaf(&mut page, bounds, leaf.entries());
    settle_leaf_page(shelf, alloc, &page, at)
}

/// A current leaf that was split by time: the number of the block that has what was until then, and the leaf from then on, which stays.
#[derive(Debug, Drop)]
pub struct MigratedLeaf {
    pub block: u64,
    pub newer: Leaf,
}

/// Splits a current leaf by time at a stamp above its start: what it was until then becomes a block, and the leaf from then on stays.
pub fn migrate_leaf<O: OnceDisk + Drop>(
    shelf: &mut Shelf<O>,
    alloc: Global,
    bounds: &Bounds,
    leaf: &Leaf,
    at: Stamp,
) -> Result<MigratedLeaf, MigrationError>
    requires leaf { CanBeLeaf (record { bounds = bounds.now; versions = leaf.now }) }
    requires current { bounds.now.end ≡ None }
    requires forward { bounds.now.start < at }
    requires end { at + 1 < 256 ^ 16 }
    ensures shelf { KeepsShelf O.OnceDisk shelf.old shelf.new (reported (λ migrated. migrated.block) result) }
    ensures settled { O.honest (disk_of shelf.old) (pen_of shelf.old)
        → IfOk result (λ migrated. SettlesAs O.OnceDisk shelf.old shelf.new migrated.block (old_leaf (keys_between bounds.now) bounds.now.start at leaf.now)) }
    ensures newer { IfOk result (λ migrated. IsFrom leaf.now at migrated.newer) }
    ensures size { IfOk result (λ migrated. octets migrated.newer ≤ octets leaf.now) }
    ensures same { IfOk result (λ migrated. length migrated.newer ≡ length leaf.now → migrated.newer ≡ leaf.now) }
    ensures column { O.honest (disk_of shelf.old) (pen_of shelf.old)
        → IfOk result (λ migrated. (blocks : ℕ → Option BlockNode) (all : List Version) (parts : List Part) → ShelfRepresents O.OnceDisk shelf.old blocks
        → ColumnHas blocks (next_of shelf.old) all (keys_between bounds.now) bounds.now.start parts leaf.now
        → ColumnHas (with_block migrated.block (old_leaf (keys_between bounds.now) bounds.now.start at leaf.now) blocks) (next_of shelf.new) all (keys_between bounds.now) at (parts ++ leaf_part bounds.now.start migrated.block ∷ []) migrated.newer) }
{
    let newer = leaf.since(alloc, at)?;
    let block = settle_leaf(shelf, alloc, bounds, leaf, at)?;
    Ok(MigratedLeaf { block, newer })
}
