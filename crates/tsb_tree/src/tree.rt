//! Trees.
ghost use Rattle.std.specs.Prelude.{◌≡◌, ◌↔◌, ◌<◌, ◌≤◌, ◌+◌, ◌*◌, ◌^◌, ℕ, List, length, OnErr, IfOk, IfErr, Err};
ghost use Rattle.page_journal.specs.Recovers.{laid};
ghost use Rattle.page_tx.specs.Start.{Start};
ghost use Rattle.tsb_tree.specs.Refusals.{CreateRefusal};
ghost use Rattle.tsb_tree.specs.Stores.{ReadsAlone};
ghost use Rattle.tsb_tree.specs.Trees.{AreFirst, RepresentsTree, ReportsFirst};

use crate::change::lay_image;
use crate::error::TreeError;
use crate::pages::{column_page, leaf_page};
use crate::whole::Whole;
use disk_models::Page;
use page_tx::{PageError, Pages};
use route_model::Key;
use std::alloc::{AllocError, Global};
use version_model::{Leaf, Stamp};

/// Where a tree lies: the page of its root and the root's level, 1 of a column and up to 7; and the least stamp that a
/// version to come may have. The caller keeps it.
#[derive(Clone, Copy, Debug)]
pub struct TreePlace {
    pub root: u64,
    pub level: u8,
    pub least: Stamp,
}

/// The lowest key.
pub fn first_key() -> Key
    ensures first { result ≡ 0 }
{
    Key::from_octets(&[0; 40])
}

/// Images that make a tree of no version of two pages of a map: this one, of a column, which is the root, of level 1; and the next
/// one, of its current leaf. A version to come may have any stamp. It fails if an allocation fails, and only then.
pub fn first_images(alloc: Global, page: u64) -> Result<Vec<(u64, Page)>, AllocError>
    requires below { page + 1 < 2 ^ 64 }
    ensures images { IfOk result (λ images. AreFirst page images.items) }
    ensures tree { IfOk result (λ images. (shown : List (List ℕ)) → page + 2 ≤ length shown → ReportsFirst (laid images.items shown) page) }
{
    let whole = Whole {
        low: first_key(),
        high: None,
        parts: Vec::new(alloc),
        start: Stamp::new(0, 0),
        leaf: Leaf::new(alloc),
    };
    let column = column_page(alloc, &whole, page + 1)?;
    let leaf = leaf_page(alloc, &whole)?;
    let mut images = Vec::new(alloc);
    lay_image(&mut images, page, column)?;
    lay_image(&mut images, page + 1, leaf)?;
    Ok(images)
}

/// Makes a tree of no version in the next two pages that were never used: the page of a column, which is the root, and that of
/// its current leaf. After a refusal no page is set.
pub fn create<P: Pages>(pages: &mut P, alloc: Global) -> Result<TreePlace, TreeError>
    ensures created { (start : Start) (shown : List (List ℕ)) → P.shows pages.old start shown → IfOk result (λ place. RepresentsTree P.Pages pages.new start place.root place.level place.least) }
    ensures as_before { OnErr result (ReadsAlone P.Pages pages.old pages.new result) }
    ensures refused { IfErr result (CreateRefusal (P.homes pages.old) (P.next pages.old) (length (P.named pages.old))) }
    ensures next { IfOk result (λ place. P.next pages.new ≡ P.next pages.old + 2) }
    ensures root { IfOk result (λ place. place.root ≡ P.next pages.old) }
{
    let page = pages.next_page();
    if pages.home_pages() < 2 || page > pages.home_pages() - 2 {
        return Err(TreeError::Pages(PageError::PagesFull));
    }
    let images = first_images(alloc, page)?;
    match pages.lay(images, page + 2) {
        Ok(()) => Ok(TreePlace {
            root: page,
            level: 1,
            least: Stamp::new(0, 0),
        }),
        Err(refusal) => Err(TreeError::from(refusal)),
    }
}
