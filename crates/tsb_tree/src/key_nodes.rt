//! Key nodes in memory: they take a child, are split, and become pages.
ghost use Rattle.std.specs.Prelude.{◌≡◌, ◌↔◌, ◌<◌, ◌≤◌, ℕ, Some, None, slice_get, length, IsTrue, IfSome, IfNone, OnSome, IfOk};
ghost use Rattle.version_model.specs.declared.child.Child.{Child as ChildValue};
ghost use Rattle.version_model.specs.Pages.{KeyNode};
ghost use Rattle.tsb_node.specs.Columns.{AreAscending};
ghost use Rattle.tsb_node.specs.KeyNodes.{lows_of};
ghost use Rattle.tsb_node.specs.Views.{PageRepresents, keys_between};
ghost use Rattle.tsb_tree.specs.KeyNodes.{BeginsAfter, IsWide, AreKeyHalves};

use disk_models::Page;
use route_model::Key;
use std::alloc::{AllocError, Global};
use tsb_node::{DecodedKeyNode, key_fits, write_key_node};
use version_model::{Bounds, Child, Stamp};

// Where the first of the children is that begins above a key.
fn place_above(children: &[Child], key: Key) -> usize
    ensures within { result ≤ length children.now }
    ensures before { (j : ℕ) (c : ChildValue) → j < result → slice_get children.now j ≡ Some c → c.low ≤ key }
    ensures above { (c : ChildValue) → slice_get children.now result ≡ Some c → key < c.low }
{
    for (i, child) in children.iter().enumerate() {
        if key < child.low {
            return i;
        }
    }
    children.len()
}

// Whether a key is below the high key of a node.
fn is_below(key: Key, high: Option<Key>) -> bool
    ensures { IsTrue result ↔ IfSome high (λ n. key < n) }
{
    match high {
        Some(high) => key < high,
        None => true,
    }
}

/// After which child of a node a new one goes that begins at a key. None if the key isn't among the keys of a child, above the lowest of
/// them.
pub fn place_after(node: &DecodedKeyNode, key: Key) -> Option<usize>
    requires rising { AreAscending (lows_of node.now.children.items) }
    ensures beyond { IfSome result (λ place. BeginsAfter node.now.children.items place key) }
    ensures below { OnSome result (IfSome node.now.bounds.high (λ n. key < n)) }
    ensures none { IfNone result ((place : ℕ) → BeginsAfter node.now.children.items place key → IfSome node.now.bounds.high (λ n. key < n) → ⊥) }
{
    let above = place_above(&node.children, key);
    if above == 0 {
        return None;
    }
    let place = above - 1;
    if node.children[place].low == key {
        return None;
    }
    if !is_below(key, node.bounds.high) {
        return None;
    }
    Some(place)
}

// The bounds of a key node of these keys: at all stamps.
fn bounds_between(low: Key, high: Option<Key>) -> Bounds
    ensures low { result.low ≡ low }
    ensures high { result.high ≡ high }
    ensures start { result.start ≡ 0 }
    ensures current { result.end ≡ None }
{
    Bounds {
        low,
        high,
        start: Stamp::new(0, 0),
        end: None,
    }
}

/// The two halves of a node that has a child too many.
pub fn key_halves(node: DecodedKeyNode) -> Result<(DecodedKeyNode, DecodedKeyNode), AllocError>
    requires many { length node.children.items ≡ 339 }
    requires wide { IsWide node }
    ensures halves { IfOk result (λ halves. AreKeyHalves node halves.0 halves.1) }
    ensures front { IfOk result (λ halves. IsWide halves.0) }
    ensures back { IfOk result (λ halves. IsWide halves.1) }
{
    let level = node.level;
    let bounds = node.bounds;
    let mut children = node.children;
    let beyond = children.split_off(169)?;
    let low = beyond[0].low;
    key_fits(beyond[1].low);
    let front = DecodedKeyNode {
        level,
        bounds: bounds_between(bounds.low, Some(low)),
        children,
    };
    let back = DecodedKeyNode {
        level,
        bounds: bounds_between(low, bounds.high),
        children: beyond,
    };
    Ok((front, back))
}

/// The page of a key node.
pub fn key_node_page(alloc: Global, node: &DecodedKeyNode) -> Result<Page, AllocError>
    requires wide { IsWide node.now }
    requires fits { length node.now.children.items ≤ 338 }
    ensures represents_node { IfOk result (λ page. PageRepresents page (KeyNode node.now.level (keys_between node.now.bounds) node.now.children.items)) }
{
    let bounds = bounds_between(node.bounds.low, node.bounds.high);
    let mut page = Page::new(alloc)?;
    write_key_node(&mut page, node.level, &bounds, &node.children);
    Ok(page)
}
