//! The pages and blocks of a tree are compared with those that are recorded as in use.

ghost use Rattle.std.specs.Prelude.{◌≡◌, ◌<◌, ◌≤◌, ℕ, Bool, OnOk, IfErr, Err};
ghost use Rattle.tsb_walk.specs.Refusals.{IsDamage};
ghost use Rattle.tsb_check.specs.InUse.{IsColumnUsed, IsColumnUnused};

use crate::block::are_lower;
use tsb_node::DecodedColumn;
use tsb_walk::NodeError;

/// Which pages and blocks are in use.
#[derive(Clone, Copy, Debug)]
pub struct InUse {
    /// The page on which the next two numbers stand.
    pub recorded_on: u64,
    /// The first page that was never used.
    pub pages: u64,
    /// The first block that was never tried.
    pub blocks: u64,
    /// The first block that was never burnt, by the disk.
    pub burnt: u64,
}

/// Returns an error where a page isn't in use: the page with the record is bad.
pub fn check_page(in_use: &InUse, page: u64) -> Result<(), NodeError>
    ensures below { OnOk result (page < in_use.now.pages) }
    ensures above { IfErr result (λ e. (e ≡ NodeError.BadNode in_use.now.recorded_on) × (in_use.now.pages ≤ page)) }
{
    if page < in_use.pages {
        return Ok(());
    }
    Err(NodeError::BadNode(in_use.recorded_on))
}

/// Returns an error if something that the column on a page uses isn't in use. The page itself is bad if it names a block that was
/// never burnt; else the page with the record.
pub fn check_column(in_use: &InUse, page: u64, decoded: &DecodedColumn) -> Result<(), NodeError>
    ensures used { OnOk result (IsColumnUsed in_use.now page decoded.now.parts.items decoded.now.current.page) }
    ensures bad { (n : ℕ) → result ≡ Err (NodeError.BadNode n) → IsColumnUnused in_use.now page decoded.now.parts.items decoded.now.current.page n }
    ensures damage { IfErr result IsDamage }
{
    if !are_lower(&decoded.parts, in_use.burnt) {
        return Err(NodeError::BadNode(page));
    }
    if !are_lower(&decoded.parts, in_use.blocks) {
        return Err(NodeError::BadNode(in_use.recorded_on));
    }
    check_page(in_use, page)?;
    check_page(in_use, decoded.current.page)?;
    Ok(())
}
