//! Images of pages under their numbers, one of each page.
ghost use Rattle.std.specs.Prelude.{◌≡◌, ◌<◌, ◌≤◌, ◌+◌, ◌++◌, ◌∷◌, [], ℕ, List, length, OnOk, IfErr, IsOk, IfSome, IfNone, Some, slice_get, slice_set};
ghost use Rattle.std.specs.Option.{is_some};
ghost use Rattle.std.specs.Vec.{vec_capacity};
ghost use Rattle.page_journal.specs.Bookkeeping.{is_among, without};
ghost use Rattle.page_journal.specs.Layout.{Image, pages_of};
ghost use Rattle.page_tx.specs.Refusals.{SetRefusal};
ghost use Rattle.page_tx.specs.inner.Placing.{with_image, with_images};

use crate::error::PageError;
use disk_models::Page;

// The most images of a transaction.
const IMAGES: usize = 31;

// The place of the image of a page.
pub fn place_of(images: &[(u64, Page)], n: u64) -> Option<usize>
    ensures some { IfSome result (λ k. k < length images.now) }
    ensures number { (image : Image) → IfSome result (λ k. slice_get images.now k ≡ Some image → image.0 ≡ n) }
    ensures here { (page : List ℕ) → IfSome result (λ k. slice_set images.now k (n, page) ≡ with_image n page images.now) }
    ensures found { is_some result ≡ is_among n (pages_of images.now) }
    ensures none { (page : List ℕ) → IfNone result (images.now ++ (n, page) ∷ [] ≡ with_image n page images.now) }
{
    for (k, image) in images.iter().enumerate() {
        if image.0 == n {
            return Some(k);
        }
    }
    None
}

// How many more images there are with one of this page: 1 if there is none yet, else 0.
pub fn count_one(held: &[(u64, Page)], n: u64) -> usize
    ensures { result ≡ length (without (pages_of held.now) (n ∷ [])) }
{
    if place_of(held, n).is_some() { 0 } else { 1 }
}

// How many more images there are with these.
pub fn count_new(held: &[(u64, Page)], images: &[(u64, Page)]) -> usize
    ensures { result ≡ length (without (pages_of held.now) (pages_of images.now)) }
{
    let mut count = 0;
    for image in images {
        if place_of(held, image.0).is_none() {
            count += 1;
        }
    }
    count
}

// Makes room for `more` further images.
pub fn make_room(held: &mut Vec<(u64, Page)>, more: usize) -> Result<(), PageError>
    requires { length held.old.items ≤ 31 }
    ensures items { held.new.items ≡ held.old.items }
    ensures few { OnOk result (more + length held.old.items ≤ 31) }
    ensures room { OnOk result (more + length held.old.items ≤ vec_capacity held.new) }
    ensures refused { IfErr result (SetRefusal (more + length held.old.items)) }
    ensures none { more ≡ 0 → IsOk result }
{
    if more > IMAGES - held.len() {
        return Err(PageError::TooManyImages);
    }
    held.reserve(more)?;
    Ok(())
}

// Lays an image over a page, in place of an older one. For a page without one there must be room.
pub fn lay_one(held: &mut Vec<(u64, Page)>, n: u64, page: Page)
    requires { length (with_image n page held.old.items) ≤ vec_capacity held.old }
    ensures items { held.new.items ≡ with_image n page held.old.items }
    ensures capacity { vec_capacity held.old ≤ vec_capacity held.new }
{
    match place_of(held, n) {
        Some(k) => held[k] = (n, page),
        None => {
            held.push((n, page)).ok();
        }
    }
}

// Lays images over pages. For those of pages without one there must be room.
pub fn lay_all(held: &mut Vec<(u64, Page)>, images: Vec<(u64, Page)>)
    requires { length (with_images images.items held.old.items) ≤ vec_capacity held.old }
    ensures { held.new.items ≡ with_images images.items held.old.items }
{
    for (n, page) in images {
        lay_one(held, n, page);
    }
}
