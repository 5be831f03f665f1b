//! The past of a column becomes one block.

ghost use Rattle.std.specs.Prelude.{◌≡◌, ◌∷◌, [], ℕ, List, Option, IfOk};
ghost use Rattle.once_store.specs.Shelves.{disk_of, next_of, pen_of};
ghost use Rattle.version_model.specs.Versions.{Version};
ghost use Rattle.version_model.specs.Blocks.{BlockNode};
ghost use Rattle.version_model.specs.Pages.{PartsRepresent};
ghost use Rattle.tsb_node.specs.Views.{keys_between};
ghost use Rattle.worm_migration.specs.Columns.{AreWholePast, column_part, old_column};
ghost use Rattle.worm_migration.specs.Settled.{ShelfRepresents, with_block};
ghost use Rattle.worm_migration.specs.Shelves.{KeepsShelf, SettlesAs, reported};

use crate::error::MigrationError;
use crate::settling::settle;
use disk_models::{Block, OnceDisk};
use once_store::Shelf;
use std::alloc::Global;
use tsb_node::write_old_column;
use version_model::{Bounds, Part, PartKind, Stamp};

/// Makes one block of all parts of a column's past, of the column's keys and up to a stamp, where the last part ends; and returns the one
/// part that the column keeps for them.
pub fn migrate_column<O: OnceDisk + Drop>(
    shelf: &mut Shelf<O>,
    alloc: Global,
    bounds: &Bounds,
    parts: &[Part],
    at: Stamp,
) -> Result<Part, MigrationError>
    requires past { AreWholePast bounds.now parts.now at }
    ensures shelf { KeepsShelf O.OnceDisk shelf.old shelf.new (reported (λ part. part.block) result) }
    ensures part { IfOk result (λ part. part ≡ column_part part.block) }
    ensures settled { O.honest (disk_of shelf.old) (pen_of shelf.old)
        → IfOk result (λ part. SettlesAs O.OnceDisk shelf.old shelf.new part.block (old_column (keys_between bounds.now) at parts.now)) }
    ensures past { O.honest (disk_of shelf.old) (pen_of shelf.old)
        → IfOk result (λ part. (blocks : ℕ → Option BlockNode) (all : List Version) → ShelfRepresents O.OnceDisk shelf.old blocks
        → PartsRepresent blocks (next_of shelf.old) all (keys_between bounds.now) at parts.now
        → PartsRepresent (with_block part.block (old_column (keys_between bounds.now) at parts.now) blocks) (next_of shelf.new) all (keys_between bounds.now) at (part ∷ [])) }
{
    let past = Bounds {
        low: bounds.low,
        high: bounds.high,
        start: bounds.start,
        end: Some(at),
    };
    let mut block = Block::new(alloc)?;
    write_old_column(&mut block, &past, parts);
    let number = settle(shelf, &block)?;
    Ok(Part {
        start: bounds.start,
        kind: PartKind::ColumnBlock,
        block: number,
    })
}
