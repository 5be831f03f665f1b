//! A root that became two has a new one above it.
ghost use Rattle.std.specs.Prelude.{◌≡◌, ◌↔◌, ◌<◌, ◌≤◌, ◌+◌, ◌^◌, ◌∷◌, [], ℕ, suc, Err, IfOk, IfErr};
ghost use Rattle.page_journal.specs.Layout.{pages_of};
ghost use Rattle.page_journal.specs.Recovers.{AreDistinct};
ghost use Rattle.version_model.specs.Pages.{all_keys};
ghost use Rattle.tsb_node.specs.Views.{keys_between};
ghost use Rattle.tsb_tree.specs.KeyNodes.{IsWide};
ghost use Rattle.tsb_tree.specs.Plans.{CanBeLaid};
ghost use Rattle.tsb_tree.specs.Raises.{GrowsRoot, RootRefusal, TreeCanBeLaid};
ghost use Rattle.tsb_tree.specs.Refusals.{IsHonest};

use crate::change::{Change, lay_image};
use crate::error::TreeError;
use crate::key_nodes::key_node_page;
use crate::tree::first_key;
use page_tx::PageError;
use std::alloc::{AllocError, Global};
use tsb_node::DecodedKeyNode;
use version_model::{Bounds, Child, Stamp};

/// The level of the highest root: no tree has more than six levels of key nodes.
const HIGHEST: u8 = 7;

// A root of all keys above an old one and its new half.
fn root_above(alloc: Global, level: u8, root: u64, new: Child) -> Result<DecodedKeyNode, AllocError>
    requires above { 0 < new.low }
    requires some { 1 ≤ level }
    requires few { level < 7 }
    ensures wide { IfOk result (λ node. IsWide node) }
    ensures level { IfOk result (λ node. node.level ≡ suc level) }
    ensures keys { IfOk result (λ node. keys_between node.bounds ≡ all_keys) }
    ensures children { IfOk result (λ node. node.children.items ≡ record { low = 0; page = root } ∷ new ∷ []) }
{
    let low = first_key();
    let mut children = Vec::new(alloc);
    children.push(Child { low, page: root })?;
    children.push(new)?;
    let bounds = Bounds {
        low,
        high: None,
        start: Stamp::new(0, 0),
        end: None,
    };
    Ok(DecodedKeyNode {
        level: level + 1,
        bounds,
        children,
    })
}

// Lays the page of a new root over a change, on the next unused page.
fn lay_root(
    alloc: Global,
    level: u8,
    root: u64,
    change: Change,
    new: Child,
) -> Result<Change, AllocError>
    requires above { 0 < new.low }
    requires some { 1 ≤ level }
    requires few { level < 7 }
    requires distinct { AreDistinct (pages_of change.images.items) }
    requires room { change.unused + 1 < 2 ^ 64 }
    ensures grows { IfOk result (λ grown. GrowsRoot level root new change grown) }
    ensures laid { (homes next : ℕ) → change.unused < homes → CanBeLaid homes next level change → IfOk result (λ grown. TreeCanBeLaid homes next level grown) }
{
    let node = root_above(alloc, level, root, new)?;
    let page = key_node_page(alloc, &node)?;
    let unused = change.unused;
    let mut images = change.images;
    lay_image(&mut images, unused, page)?;
    Ok(Change {
        images,
        unused: unused + 1,
        new: None,
    })
}

/// A root that became two has a new one above it, one level higher, in the next page that was never used.
pub fn grown(
    alloc: Global,
    homes: u64,
    level: u8,
    root: u64,
    change: Change,
    new: Child,
) -> Result<Change, TreeError>
    requires some { 1 ≤ level }
    requires few { level ≤ 7 }
    requires distinct { AreDistinct (pages_of change.images.items) }
    ensures grows { IfOk result (λ grown. GrowsRoot level root new change grown) }
    ensures laid { (next : ℕ) → CanBeLaid homes next level change → IfOk result (λ grown. TreeCanBeLaid homes next level grown) }
    ensures high { (result ≡ Err TreeError.TooHigh) ↔ (level ≡ 7) }
    ensures refused { IfErr result (RootRefusal homes change.unused level) }
    ensures honest { 0 < new.low → IsHonest result }
{
    if level >= HIGHEST {
        return Err(TreeError::TooHigh);
    }
    if new.low == first_key() {
        return Err(TreeError::BadNode(root));
    }
    if change.unused >= homes {
        return Err(TreeError::Pages(PageError::PagesFull));
    }
    Ok(lay_root(alloc, level, root, change, new)?)
}
