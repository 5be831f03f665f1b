//! The past of a column takes a leaf as it was until a stamp.

ghost use Rattle.std.specs.Prelude.{◌≡◌, ◌+◌, ◌<◌, ◌^◌, ◌∷◌, ◌++◌, [], ℕ, List, Option, IfOk, OnErr, vec_capacity, vec_len};
ghost use Rattle.once_store.specs.Shelves.{disk_of, next_of, pen_of};
ghost use Rattle.version_model.specs.Versions.{Version};
ghost use Rattle.version_model.specs.Ranges.{until};
ghost use Rattle.version_model.specs.LeafVersions.{LeafRepresents};
ghost use Rattle.version_model.specs.Blocks.{BlockNode};
ghost use Rattle.version_model.specs.Pages.{PartsRepresent, current_range};
ghost use Rattle.tsb_node.specs.Leaves.{IsLeafPage, LeafNode};
ghost use Rattle.tsb_node.specs.Views.{keys_between};
ghost use Rattle.worm_migration.specs.Columns.{leaf_part, old_leaf};
ghost use Rattle.worm_migration.specs.Settled.{ShelfRepresents, with_block};
ghost use Rattle.worm_migration.specs.Shelves.{KeepsShelf, SettlesAs};

use crate::error::MigrationError;
use crate::leaf::settle_leaf_page;
use disk_models::{OnceDisk, Page};
use once_store::Shelf;
use std::alloc::Global;
use version_model::{Part, PartKind, Stamp};

/// Appends a part to the others; there must be room for it.
fn put(parts: &mut Vec<Part>, part: Part)
    requires { vec_len parts.old < vec_capacity parts.old }
    ensures { parts.new.items ≡ parts.old.items ++ part ∷ [] }
{
    let _pushed = parts.push(part);
}

/// Makes a block of the leaf in a page, which starts at `start`, as it was until a stamp above that; puts the block after the parts of
/// the leaf's column; and returns its number. An error leaves the parts as they were.
pub fn settle_part<O: OnceDisk + Drop>(
    shelf: &mut Shelf<O>,
    alloc: Global,
    page: &Page,
    start: Stamp,
    at: Stamp,
    parts: &mut Vec<Part>,
) -> Result<u64, MigrationError>
    requires end { at + 1 < 256 ^ 16 }
    ensures shelf { KeepsShelf O.OnceDisk shelf.old shelf.new result }
    ensures settled { O.honest (disk_of shelf.old) (pen_of shelf.old) → (leaf : LeafNode) → IsLeafPage leaf page.now → leaf.bounds.start < at
        → IfOk result (λ n. SettlesAs O.OnceDisk shelf.old shelf.new n (old_leaf (keys_between leaf.bounds) leaf.bounds.start at leaf.versions)) }
    ensures pushed { IfOk result (λ n. parts.new.items ≡ parts.old.items ++ leaf_part start n ∷ []) }
    ensures kept { OnErr result (parts.new.items ≡ parts.old.items) }
    ensures past { O.honest (disk_of shelf.old) (pen_of shelf.old) → (leaf : LeafNode) → IsLeafPage leaf page.now → leaf.bounds.start ≡ start → start < at
        → IfOk result (λ n. (blocks : ℕ → Option BlockNode) (all : List Version) → ShelfRepresents O.OnceDisk shelf.old blocks → LeafRepresents all (until (current_range (keys_between leaf.bounds) start) at) leaf.versions
        → PartsRepresent blocks (next_of shelf.old) all (keys_between leaf.bounds) start parts.old.items
        → PartsRepresent (with_block n (old_leaf (keys_between leaf.bounds) start at leaf.versions) blocks) (next_of shelf.new) all (keys_between leaf.bounds) at parts.new.items) }
{
    parts.reserve(1)?;
    let block = settle_leaf_page(shelf, alloc, page, at)?;
    put(
        parts,
        Part {
            start,
            kind: PartKind::LeafBlock,
            block,
        },
    );
    Ok(block)
}
