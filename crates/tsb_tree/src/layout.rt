//! The images of a column that took a version in memory.
ghost use Rattle.std.specs.Prelude.{◌≡◌, ◌+◌, ◌<◌, ◌≤◌, ◌^◌, [], OnOk, IfOk, IfSome, IsSome, Some, None};
ghost use Rattle.page_journal.specs.Layout.{pages_of};
ghost use Rattle.page_journal.specs.Recovers.{AreDistinct};
ghost use Rattle.version_model.specs.Ranges.{key_end};
ghost use Rattle.version_model.specs.Sizes.{octets, IsSplitPoint};
ghost use Rattle.tsb_tree.specs.Layouts.{LaysWhole, LaysOut};
ghost use Rattle.tsb_tree.specs.Shapes.{IsFull, IsWhole, least_of};

use crate::change::{Change, lay_image};
use crate::dividing::halves;
use crate::pages::{column_page, leaf_page};
use crate::whole::Whole;
use disk_models::Page;
use route_model::Key;
use std::alloc::{AllocError, Global};
use version_model::Child;

// Lays a column's page and that of its current leaf.
fn lay_whole(
    alloc: Global,
    images: &mut Vec<(u64, Page)>,
    page: u64,
    current: u64,
    whole: &Whole,
) -> Result<(), AllocError>
    requires distinct { AreDistinct (pages_of images.old.items) }
    requires whole { IsWhole whole.now }
    requires fits { octets whole.now.leaf ≤ 16232 }
    ensures laid { OnOk result (LaysWhole page current whole.now images.old.items images.new.items) }
{
    let column = column_page(alloc, whole, current)?;
    let leaf = leaf_page(alloc, whole)?;
    lay_image(images, page, column)?;
    lay_image(images, current, leaf)?;
    Ok(())
}

/// A column as one.
pub fn lay_one(
    alloc: Global,
    page: u64,
    current: u64,
    unused: u64,
    whole: &Whole,
) -> Result<Change, AllocError>
    requires whole { IsWhole whole.now }
    requires fits { octets whole.now.leaf ≤ 16232 }
    ensures laid { IfOk result (λ change. LaysWhole page current whole.now [] change.images.items) }
    ensures unused { IfOk result (λ change. change.unused ≡ unused) }
    ensures new { IfOk result (λ change. change.new ≡ None) }
{
    let mut images = Vec::new(alloc);
    lay_whole(alloc, &mut images, page, current, whole)?;
    Ok(Change {
        images,
        unused,
        new: None,
    })
}

/// A column as its two halves, of which the higher one has two pages from this one on.
pub fn lay_two(
    alloc: Global,
    page: u64,
    current: u64,
    unused: u64,
    whole: Whole,
    key: Key,
) -> Result<Change, AllocError>
    requires whole { IsWhole whole }
    requires full { IsFull whole.leaf }
    requires point { IsSplitPoint whole.leaf (least_of whole.leaf) (Some key) }
    requires inside { key + 1 < key_end }
    requires room { unused + 2 < 2 ^ 64 }
    ensures laid { IfOk result (λ change. LaysOut page current unused whole change.images.items change.unused change.new) }
    ensures new { IfOk result (λ change. IfSome change.new (λ new. new.low ≡ key)) }
    ensures two { IfOk result (λ change. IsSome change.new) }
{
    let (left, right) = halves(alloc, whole, key)?;
    let mut images = Vec::new(alloc);
    lay_whole(alloc, &mut images, page, current, &left)?;
    lay_whole(alloc, &mut images, unused, unused + 1, &right)?;
    Ok(Change {
        images,
        unused: unused + 2,
        new: Some(Child {
            low: key,
            page: unused,
        }),
    })
}
