//! A key node takes the new half of a child, over the images of a change.
ghost use Rattle.std.specs.Prelude.{◌≡◌, ◌<◌, ◌≤◌, ◌+◌, ◌^◌, ℕ, suc, length, Err, IfOk, IfErr, IfSome};
ghost use Rattle.std.specs.List.{insert};
ghost use Rattle.page_journal.specs.Layout.{pages_of};
ghost use Rattle.page_journal.specs.Recovers.{AreDistinct};
ghost use Rattle.version_model.specs.Pages.{KeyNode};
ghost use Rattle.tsb_node.specs.Views.{keys_between};
ghost use Rattle.tsb_tree.specs.KeyNodes.{BeginsAfter, IsWide};
ghost use Rattle.tsb_tree.specs.Plans.{CanBeLaid};
ghost use Rattle.tsb_tree.specs.Puts.{PutsOne, PutsTwo, PutsChild, PutRefusal};
ghost use Rattle.tsb_tree.specs.Refusals.{IsHonest};
ghost use Rattle.tsb_tree.specs.inner.Uses.{UsesForHalf};

use crate::change::{Change, lay_image};
use crate::error::TreeError;
use crate::key_nodes::{key_halves, key_node_page, place_after};
use page_tx::PageError;
use std::alloc::{AllocError, Global};
use tsb_node::DecodedKeyNode;
use version_model::Child;

/// The most children that have room in a page.
const MOST_CHILDREN: usize = 338;

// A node with one more child, after the one at a place.
fn with_child(node: DecodedKeyNode, place: usize, new: Child) -> Result<DecodedKeyNode, AllocError>
    requires within { place < length node.children.items }
    ensures level { IfOk result (λ more. more.level ≡ node.level) }
    ensures bounds { IfOk result (λ more. more.bounds ≡ node.bounds) }
    ensures children { IfOk result (λ more. more.children.items ≡ insert node.children.items (suc place) new) }
{
    let mut children = node.children;
    children.insert(place + 1, new)?;
    Ok(DecodedKeyNode {
        level: node.level,
        bounds: node.bounds,
        children,
    })
}

// Lays the page of a key node over a change.
fn put_one(
    alloc: Global,
    page: u64,
    node: &DecodedKeyNode,
    change: Change,
) -> Result<Change, AllocError>
    requires wide { IsWide node.now }
    requires fits { length node.now.children.items ≤ 338 }
    requires distinct { AreDistinct (pages_of change.images.items) }
    ensures puts { IfOk result (PutsOne page (KeyNode node.now.level (keys_between node.now.bounds) node.now.children.items) change) }
    ensures laid { IfOk result (λ put. (homes next level : ℕ) → page < homes → CanBeLaid homes next level change → CanBeLaid homes next (suc level) put) }
{
    let image = key_node_page(alloc, node)?;
    let unused = change.unused;
    let mut images = change.images;
    lay_image(&mut images, page, image)?;
    Ok(Change {
        images,
        unused,
        new: None,
    })
}

// Lays the pages of a key node's two halves over a change, the second one on the next unused page.
fn put_two(
    alloc: Global,
    page: u64,
    node: DecodedKeyNode,
    change: Change,
) -> Result<Change, AllocError>
    requires wide { IsWide node }
    requires many { length node.children.items ≡ 339 }
    requires distinct { AreDistinct (pages_of change.images.items) }
    requires room { change.unused + 1 < 2 ^ 64 }
    ensures puts { IfOk result (PutsTwo page node.level (keys_between node.bounds) node.children.items change) }
    ensures laid { IfOk result (λ put. (homes next level : ℕ) → page < homes → change.unused < homes → CanBeLaid homes next level change → CanBeLaid homes next (suc level) put) }
{
    let (front, back) = key_halves(node)?;
    let first = key_node_page(alloc, &front)?;
    let second = key_node_page(alloc, &back)?;
    let unused = change.unused;
    let mut images = change.images;
    lay_image(&mut images, page, first)?;
    lay_image(&mut images, unused, second)?;
    let new = Child {
        low: back.bounds.low,
        page: unused,
    };
    Ok(Change {
        images,
        unused: unused + 1,
        new: Some(new),
    })
}

/// The key node in a page takes the new half of a child over a change. If it has no room for it, it becomes two.
pub fn put_half(
    alloc: Global,
    homes: u64,
    page: u64,
    node: DecodedKeyNode,
    change: Change,
    new: Child,
) -> Result<Change, TreeError>
    requires wide { IsWide node }
    requires few { length node.children.items ≤ 338 }
    requires distinct { AreDistinct (pages_of change.images.items) }
    ensures puts { (place : ℕ) → BeginsAfter node.children.items place new.low
        → IfOk result (PutsChild page node.level (keys_between node.bounds) (insert node.children.items (suc place) new) change) }
    ensures laid { IfOk result (λ put. (next level : ℕ) → page < homes → CanBeLaid homes next level change → CanBeLaid homes next (suc level) put) }
    ensures uses { IfOk result (λ put. UsesForHalf (length node.children.items) change.unused put.unused put.new) }
    ensures lacks_pages { result ≡ Err (TreeError.Pages PageError.PagesFull) → length node.children.items ≡ 338 }
    ensures refused { IfErr result (PutRefusal homes change.unused) }
    ensures honest { (place : ℕ) → BeginsAfter node.children.items place new.low → IfSome node.bounds.high (λ n. new.low < n) → IsHonest result }
{
    let Some(place) = place_after(&node, new.low) else {
        return Err(TreeError::BadNode(page));
    };
    let node = with_child(node, place, new)?;
    if node.children.len() <= MOST_CHILDREN {
        return Ok(put_one(alloc, page, &node, change)?);
    }
    if change.unused >= homes {
        return Err(TreeError::Pages(PageError::PagesFull));
    }
    Ok(put_two(alloc, page, node, change)?)
}
