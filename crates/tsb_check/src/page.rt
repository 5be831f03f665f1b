//! What one page holds for the place for which it is read.

ghost use Rattle.std.specs.Prelude.{◌≡◌, ◌≤◌, ℕ, List, IfOk, Err, length};
ghost use Rattle.version_model.specs.declared.child.Child.{Child as ChildValue};
ghost use Rattle.version_model.specs.declared.part.Part.{Part as PartValue};
ghost use Rattle.version_model.specs.Entries.{versions_of};
ghost use Rattle.version_model.specs.Pages.{CurrentLeaf, ColumnNode, KeyNode};
ghost use Rattle.version_model.specs.Versions.{Version};
ghost use Rattle.tsb_node.specs.Views.{PageRepresents};
ghost use Rattle.tsb_walk.specs.Shown.{keys_at};

use disk_models::Page;
use std::alloc::Global;
use tsb_node::{
    DecodedColumn, DecodedLeaf, ReadFault, column_of_page, key_node_of_page, leaf_of_page,
};
use tsb_walk::{PagePlace, are_its_keys};
use version_model::{Child, Stamp};

/// The children of the key node in a page. Fails with NotANode exactly if there is none of exactly the place's level and keys.
pub fn children_in(alloc: Global, page: &Page, place: &PagePlace) -> Result<Vec<Child>, ReadFault>
    ensures represents_node { IfOk result (λ children. PageRepresents page.now (KeyNode place.now.level (keys_at place.now) children.items)) }
    ensures none { (children : List ChildValue) → PageRepresents page.now (KeyNode place.now.level (keys_at place.now) children) → result ≡ Err ReadFault.NotANode → ⊥ }
    ensures few { IfOk result (λ children. length children.items ≤ 338) }
    ensures above { IfOk result (λ _. 2 ≤ place.now.level) }
{
    let decoded = match key_node_of_page(alloc, page) {
        Ok(decoded) => decoded,
        Err(fault) => return Err(fault),
    };
    if decoded.level != place.level {
        return Err(ReadFault::NotANode);
    }
    if !are_its_keys(&decoded.bounds, place) {
        return Err(ReadFault::NotANode);
    }
    Ok(decoded.children)
}

/// The column in a page. Fails with NotANode exactly if there is none of exactly the place's keys.
pub fn column_in(alloc: Global, page: &Page, place: &PagePlace) -> Result<DecodedColumn, ReadFault>
    ensures represents_node { IfOk result (λ decoded. PageRepresents page.now (ColumnNode (keys_at place.now) decoded.parts.items decoded.current.start decoded.current.page)) }
    ensures none { (parts : List PartValue) (start current : ℕ) → PageRepresents page.now (ColumnNode (keys_at place.now) parts start current) → result ≡ Err ReadFault.NotANode → ⊥ }
{
    let decoded = match column_of_page(alloc, page) {
        Ok(decoded) => decoded,
        Err(fault) => return Err(fault),
    };
    if !are_its_keys(&decoded.bounds, place) {
        return Err(ReadFault::NotANode);
    }
    Ok(decoded)
}

/// The leaf in a page. Fails with NotANode exactly if it isn't the current leaf of exactly the column's keys from the start on.
pub fn leaf_in(
    alloc: Global,
    page: &Page,
    column: &PagePlace,
    start: Stamp,
) -> Result<DecodedLeaf, ReadFault>
    ensures represents_node { IfOk result (λ decoded. PageRepresents page.now (CurrentLeaf (keys_at column.now) start (versions_of decoded.entries.items))) }
    ensures none { (versions : List Version) → PageRepresents page.now (CurrentLeaf (keys_at column.now) start versions) → result ≡ Err ReadFault.NotANode → ⊥ }
{
    let decoded = match leaf_of_page(alloc, page) {
        Ok(decoded) => decoded,
        Err(fault) => return Err(fault),
    };
    let bounds = decoded.bounds;
    if bounds.start != start {
        return Err(ReadFault::NotANode);
    }
    if !are_its_keys(&bounds, column) {
        return Err(ReadFault::NotANode);
    }
    Ok(decoded)
}
