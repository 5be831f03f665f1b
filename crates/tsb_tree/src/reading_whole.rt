//! A column with its current leaf is read into memory from their pages.
ghost use Rattle.std.specs.Prelude.{◌≡◌, ◌<◌, ℕ, Bool, List, IfOk, OnOk, IfErr, IsErrOf};
ghost use Rattle.page_tx.specs.declared.error.PageError.{PageError};
ghost use Rattle.page_tx.specs.Start.{Start};
ghost use Rattle.version_model.specs.declared.part.Part.{Part};
ghost use Rattle.version_model.specs.Pages.{ColumnNode, CurrentLeaf};
ghost use Rattle.version_model.specs.Versions.{Version};
ghost use Rattle.tsb_node.specs.Leaves.{IsLeafPage};
ghost use Rattle.tsb_node.specs.Views.{PageRepresents};
ghost use Rattle.tsb_walk.specs.Shown.{RepresentsNode, keys_at};
ghost use Rattle.tsb_tree.specs.Refusals.{IsHonest, ReadRefusal};
ghost use Rattle.tsb_tree.specs.Shapes.{IsWhole, leaf_in_page};
ghost use Rattle.tsb_tree.specs.Stores.{ReadsAlone};
ghost use Rattle.tsb_tree.specs.Wholes.{column_node, keys_of_whole};

use crate::current_leaf::LeafImage;
use crate::error::TreeError;
use crate::reading::{column_in, leaf_in, see};
use crate::whole::Whole;
use disk_models::Page;
use page_tx::Pages;
use std::alloc::Global;
use tsb_walk::{PagePlace, are_its_keys};

// What the page of the column at a place and that of its current leaf represent.
fn whole_in(
    alloc: Global,
    place: &PagePlace,
    column: &Page,
    leaf: &LeafImage,
) -> Result<Whole, TreeError>
    ensures column { IfOk result (λ whole. PageRepresents column.now (column_node whole leaf.now.page)) }
    ensures leaf { IfOk result (λ whole. IsLeafPage (leaf_in_page whole) leaf.now.image) }
    ensures keys { IfOk result (λ whole. keys_of_whole whole ≡ keys_at place.now) }
    ensures whole { IfOk result (λ whole. IsWhole whole) }
    ensures honest { (parts : List Part) (start : ℕ) (versions : List Version) → PageRepresents column.now (ColumnNode (keys_at place.now) parts start leaf.now.page)
        → PageRepresents leaf.now.image (CurrentLeaf (keys_at place.now) start versions) → IsHonest result }
    ensures refused { (down : Bool) → IfErr result (ReadRefusal down) }
    ensures read { IsErrOf result (TreeError.Pages PageError.Fault) → ⊥ }
{
    let decoded = column_in(alloc, column, place.page)?;
    let (bounds, versions) = leaf_in(alloc, &leaf.image, leaf.page)?;
    if decoded.current.page != leaf.page {
        return Err(TreeError::BadNode(place.page));
    }
    if !are_its_keys(&decoded.bounds, place) {
        return Err(TreeError::BadNode(place.page));
    }
    if bounds.start != decoded.current.start {
        return Err(TreeError::BadNode(leaf.page));
    }
    if !are_its_keys(&bounds, place) {
        return Err(TreeError::BadNode(leaf.page));
    }
    Ok(Whole {
        low: bounds.low,
        high: bounds.high,
        parts: decoded.parts,
        start: bounds.start,
        leaf: versions,
    })
}

/// The column at a place with this current leaf, as its page is shown: it is read where it lies.
pub fn whole_at<P: Pages>(
    pages: &mut P,
    alloc: Global,
    place: &PagePlace,
    leaf: &LeafImage,
) -> Result<Whole, TreeError>
    ensures column { (start : Start) (shown : List (List ℕ)) → P.shows pages.old start shown → IfOk result (λ whole. RepresentsNode shown place.now.page (column_node whole leaf.now.page)) }
    ensures leaf { IfOk result (λ whole. IsLeafPage (leaf_in_page whole) leaf.now.image) }
    ensures keys { IfOk result (λ whole. keys_of_whole whole ≡ keys_at place.now) }
    ensures whole { IfOk result (λ whole. IsWhole whole) }
    ensures honest { (start : Start) (shown : List (List ℕ)) (parts : List Part) (since : ℕ) (versions : List Version) → P.shows pages.old start shown
        → RepresentsNode shown place.now.page (ColumnNode (keys_at place.now) parts since leaf.now.page) → PageRepresents leaf.now.image (CurrentLeaf (keys_at place.now) since versions) → IsHonest result }
    ensures inside { OnOk result (place.now.page < P.homes pages.old) }
    ensures refused { IfErr result (ReadRefusal (P.down pages.old)) }
    ensures reads { ReadsAlone P.Pages pages.old pages.new result }
{
    see(pages, place.page)?;
    let Some(column) = pages.page(place.page) else {
        unreachable!()
    };
    whole_in(alloc, place, column, leaf)
}
