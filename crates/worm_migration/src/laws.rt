//! What callers know of columns that they read, each the contract of a function that does nothing.

ghost use Rattle.std.specs.Prelude.{◌≡◌, ◌+◌, ◌<◌, ◌^◌, []};
ghost use Rattle.tsb_node.specs.Columns.{ColumnInPage, IsColumn};
ghost use Rattle.worm_migration.specs.Columns.{AreWholePast};

/// The parts of a column in a page can become one block, if there are any and the current leaf's start isn't the last stamp.
pub fn columns_have_whole_pasts()
    ensures whole { (column : ColumnInPage) → IsColumn column → (column.parts ≡ [] → ⊥) → column.current.start + 1 < 256 ^ 16
        → AreWholePast column.bounds column.parts column.current.start }
{}
