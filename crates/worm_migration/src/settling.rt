//! Puts a block on a shelf, and settles it there before its number is returned.

ghost use Rattle.std.specs.Prelude.{IfOk};
ghost use Rattle.disk_models.specs.Once.{settled_in};
ghost use Rattle.once_store.specs.Shelves.{disk_of, pen_of};
ghost use Rattle.worm_migration.specs.Shelves.{KeepsShelf};

use crate::error::MigrationError;
use disk_models::{Block, OnceDisk};
use once_store::Shelf;

/// Puts a block on a shelf. The shelf settles it before it returns the number.
pub fn settle<O: OnceDisk + Drop>(
    shelf: &mut Shelf<O>,
    block: &Block,
) -> Result<u64, MigrationError>
    ensures shelf { KeepsShelf O.OnceDisk shelf.old shelf.new result }
    ensures settled { O.honest (disk_of shelf.old) (pen_of shelf.old) → IfOk result (λ n. settled_in (O.model (pen_of shelf.new)) n block.now) }
{
    Ok(shelf.append(block)?)
}
