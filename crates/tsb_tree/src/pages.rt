//! The pages of a column in memory.
ghost use Rattle.std.specs.Prelude.{◌≡◌, ◌≤◌, ◌<◌, IfOk};
ghost use Rattle.version_model.specs.Sizes.{octets};
ghost use Rattle.tsb_node.specs.Views.{PageRepresents};
ghost use Rattle.tsb_tree.specs.Wholes.{column_node, leaf_node};
ghost use Rattle.tsb_tree.specs.Shapes.{IsWhole};

use crate::whole::Whole;
use disk_models::Page;
use std::alloc::{AllocError, Global};
use tsb_node::{Current, write_column, write_leaf};
use version_model::{Bounds, Stamp};

/// The page of a column's current leaf.
pub fn leaf_page(alloc: Global, whole: &Whole) -> Result<Page, AllocError>
    requires whole { IsWhole whole.now }
    requires fits { octets whole.now.leaf ≤ 16232 }
    ensures represents_node { IfOk result (λ page. PageRepresents page (leaf_node whole.now)) }
{
    let bounds = Bounds {
        low: whole.low,
        high: whole.high,
        start: whole.start,
        end: None,
    };
    let mut page = Page::new(alloc)?;
    write_leaf(&mut page, &bounds, whole.leaf.entries());
    Ok(page)
}

/// The page of a column whose current leaf is in another page.
pub fn column_page(alloc: Global, whole: &Whole, current: u64) -> Result<Page, AllocError>
    requires whole { IsWhole whole.now }
    ensures represents_node { IfOk result (λ page. PageRepresents page (column_node whole.now current)) }
{
    let bounds = Bounds {
        low: whole.low,
        high: whole.high,
        start: Stamp::new(0, 0),
        end: None,
    };
    let current = Current {
        start: whole.start,
        page: current,
    };
    let mut page = Page::new(alloc)?;
    write_column(&mut page, &bounds, &whole.parts, current);
    Ok(page)
}
