//! Changes of a tree that are made in memory, to be laid over its pages together.
ghost use Rattle.std.specs.Prelude.{◌≡◌, ◌<◌, ◌≤◌, ◌+◌, ◌++◌, ◌∷◌, [], ℕ, List, length, slice_set, OnOk, IfSome, IfNone, slice_get};
ghost use Rattle.page_journal.specs.Layout.{Image, pages_of};
ghost use Rattle.page_journal.specs.Recovers.{laid, AreBelow, AreDistinct};
ghost use Rattle.page_tx.specs.inner.Placing.{with_image};

use disk_models::Page;
use std::alloc::AllocError;
use version_model::Child;

/// The images that are laid, one of each page; the next page that was never used; and the new half of a node that
/// became two.
#[derive(Drop)]
pub struct Change {
    pub images: Vec<(u64, Page)>,
    pub unused: u64,
    pub new: Option<Child>,
}

// The place of the image of a page.
fn place_of(images: &[(u64, Page)], n: u64) -> Option<usize>
    ensures some { IfSome result (λ k. k < length images.now) }
    ensures here { (page : List ℕ) → IfSome result (λ k. slice_set images.now k (n, page) ≡ with_image n page images.now) }
    ensures none { (page : List ℕ) → IfNone result (images.now ++ (n, page) ∷ [] ≡ with_image n page images.now) }
{
    for (k, image) in images.iter().enumerate() {
        if image.0 == n {
            return Some(k);
        }
    }
    None
}

// Lays an image over a page, in place of an older one.
fn lay_over(images: &mut Vec<(u64, Page)>, n: u64, page: Page) -> Result<(), AllocError>
    ensures items { OnOk result (images.new.items ≡ with_image n page images.old.items) }
{
    match place_of(images, n) {
        Some(k) => images[k] = (n, page),
        None => images.push((n, page))?,
    }
    Ok(())
}

/// Lays an image over a page, in place of an older one: so images are of distinct pages, whatever the tree's pages represent.
pub fn lay_image(images: &mut Vec<(u64, Page)>, n: u64, page: Page) -> Result<(), AllocError>
    requires distinct { AreDistinct (pages_of images.old.items) }
    ensures laid { OnOk result ((shown : List (List ℕ)) → laid images.new.items shown ≡ slice_set (laid images.old.items shown) n page) }
    ensures distinct { OnOk result (AreDistinct (pages_of images.new.items)) }
    ensures below { OnOk result ((homes : ℕ) → n < homes → AreBelow homes (pages_of images.old.items) → AreBelow homes (pages_of images.new.items)) }
    ensures few { OnOk result (length images.new.items ≤ length images.old.items + 1) }
{
    lay_over(images, n, page)?;
    Ok(())
}
