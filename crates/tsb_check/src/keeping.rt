//! Lists that grow by one item.

ghost use Rattle.std.specs.Prelude.{◌≡◌, ◌++◌, ◌∷◌, [], OnOk};

use std::alloc::AllocError;

/// Appends an item to the others.
pub fn keep<T: Drop>(kept: &mut Vec<T>, item: T) -> Result<(), AllocError>
    ensures { OnOk result (kept.new.items ≡ kept.old.items ++ item ∷ []) }
{
    kept.push(item)?;
    Ok(())
}
