//! The current leaf of a column is read, to be written on.
ghost use Rattle.std.specs.Prelude.{◌≡◌, ◌<◌, ℕ, Bool, List, IfOk, OnOk, IfErr};
ghost use Rattle.page_tx.specs.Start.{Start};
ghost use Rattle.version_model.specs.declared.part.Part.{Part};
ghost use Rattle.version_model.specs.Pages.{ColumnNode};
ghost use Rattle.tsb_node.specs.Views.{PageRepresents};
ghost use Rattle.tsb_walk.specs.Shown.{RepresentsNode, HasKey, keys_at};
ghost use Rattle.tsb_tree.specs.Read.{IsColumnFor, RepresentsColumn, IsLeafOf};
ghost use Rattle.tsb_tree.specs.Refusals.{IsHonest, ReadRefusal};
ghost use Rattle.tsb_tree.specs.Stores.{ReadsAlone};

use crate::error::TreeError;
use crate::reading::{image_of, see};
use disk_models::Page;
use page_tx::Pages;
use tsb_node::Current;
use tsb_walk::{ColumnSpot, PagePlace, is_current_leaf, spot_in};
use version_model::Entry;

/// The current leaf of a column: the number of its page, and a copy of the page.
#[derive(Drop)]
pub struct LeafImage {
    pub page: u64,
    pub image: Page,
}

// Which page the current leaf of the column in this page is, for a version that is no earlier than the leaf.
fn current_in(page: &Page, place: &PagePlace, entry: &Entry) -> Result<Current, TreeError>
    requires has { HasKey place.now entry.now.key }
    ensures current { (parts : List Part) (start current next : ℕ) → IsColumnFor page.now place.now entry.now.stamp parts start current next → IfOk result (λ found. (found.start ≡ start) × (found.page ≡ current)) }
    ensures honest { (parts : List Part) (start current next : ℕ) → IsColumnFor page.now place.now entry.now.stamp parts start current next → IsHonest result }
    ensures bad { IfErr result (λ e. e ≡ TreeError.BadNode place.now.page) }
{
    match spot_in(page, place, entry.key, entry.stamp) {
        Some(ColumnSpot::InLeaf(current)) => Ok(current),
        Some(ColumnSpot::InPast(_)) => Err(TreeError::BadNode(place.page)),
        None => Err(TreeError::BadNode(place.page)),
    }
}

// The same of the column at a place.
fn current_of<P: Pages>(
    pages: &mut P,
    place: &PagePlace,
    entry: &Entry,
) -> Result<Current, TreeError>
    requires has { HasKey place.now entry.now.key }
    ensures current { (start : Start) (shown : List (List ℕ)) → P.shows pages.old start shown → (is : RepresentsColumn shown place.now entry.now.stamp) → IfOk result (λ found. (found.start ≡ is.start) × (found.page ≡ is.current)) }
    ensures honest { (start : Start) (shown : List (List ℕ)) → P.shows pages.old start shown → RepresentsColumn shown place.now entry.now.stamp → IsHonest result }
    ensures inside { OnOk result (place.now.page < P.homes pages.old) }
    ensures refused { IfErr result (ReadRefusal (P.down pages.old)) }
    ensures reads { ReadsAlone P.Pages pages.old pages.new result }
{
    see(pages, place.page)?;
    let Some(page) = pages.page(place.page) else {
        unreachable!()
    };
    current_in(page, place, entry)
}

/// Reads the current leaf of the column at a place, which a version of the column's keys is for.
pub fn current_leaf<P: Pages>(
    pages: &mut P,
    place: &PagePlace,
    entry: &Entry,
) -> Result<LeafImage, TreeError>
    requires has { HasKey place.now entry.now.key }
    ensures leaf { (start : Start) (shown : List (List ℕ)) → P.shows pages.old start shown → RepresentsColumn shown place.now entry.now.stamp → IfOk result (λ leaf. IsLeafOf shown place.now leaf.page leaf.image) }
    ensures honest { (start : Start) (shown : List (List ℕ)) → P.shows pages.old start shown → RepresentsColumn shown place.now entry.now.stamp → IsHonest result }
    ensures column { OnOk result (place.now.page < P.homes pages.old) }
    ensures inside { IfOk result (λ leaf. leaf.page < P.homes pages.old) }
    ensures refused { IfErr result (ReadRefusal (P.down pages.old)) }
    ensures reads { ReadsAlone P.Pages pages.old pages.new result }
{
    let current = current_of(pages, place, entry)?;
    let image = image_of(pages, current.page)?;
    if !is_current_leaf(&image, place, current.start) {
        return Err(TreeError::BadNode(current.page));
    }
    Ok(LeafImage {
        page: current.page,
        image,
    })
}
