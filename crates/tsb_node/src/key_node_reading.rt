//! Reads the entries of key nodes exactly.

ghost use Rattle.std.specs.Prelude.{List, ℕ, ◌≡◌, ◌↔◌, IfSome, IfNone, IfOk, IsTrue, Err};
ghost use Rattle.std.specs.Result.{MatchResult};
ghost use Rattle.version_model.specs.declared.child.Child.{Child as ChildValue};
ghost use Rattle.tsb_node.specs.KeyNodes.{IsChildEntry, child_octets};
ghost use Rattle.tsb_node.specs.Decoded.{IsRefusal};
ghost use Rattle.tsb_node.specs.inner.Rows.{IsFront, IsNextNumber};
ghost use Rattle.tsb_node.specs.inner.ChildReading.{AreChildrenOf};

use crate::header::{is_below_high, is_key_below, is_same_key};
use crate::leaf_entries::keep;
use crate::leaf_part::ReadFault;
use crate::numbers::{key_at, number8};
use route_model::Key;
use std::alloc::Global;
use version_model::{Bounds, Child};

/// The child at the front of octets, or none if no child of a key node of these bounds is there.
fn child_at_front(bytes: &[u8], bounds: &Bounds) -> Option<Child>
    ensures found { IfSome result (IsFront child_octets (IsChildEntry bounds.now) 48 bytes.now) }
    ensures none { IfNone result ((child : ChildValue) → IsFront child_octets (IsChildEntry bounds.now) 48 bytes.now child → ⊥) }
{
    if bytes.len() < 48 {
        return None;
    }
    let low = key_at(bytes, 0);
    if !is_below_high(low, bounds.high) {
        return None;
    }
    Some(Child {
        low,
        page: number8(bytes, 40),
    })
}

/// Whether a key is above the last one; if there is no last one, whether it is the first.
fn is_next_low(low: Key, last: Option<Key>, first: Key) -> bool
    ensures { IsTrue result ↔ IsNextNumber first last low }
{
    match last {
        Some(last) => is_key_below(last, low),
        None => is_same_key(low, first),
    }
}

/// Whether octets are exactly `count` children that follow one another from the lowest key of these bounds on.
pub fn are_children(bytes: &[u8], count: u16, bounds: &Bounds) -> bool
    ensures { IsTrue result ↔ ((children : List ChildValue) × AreChildrenOf bounds.now count bytes.now children) }
{
    let mut rest = bytes;
    let mut last = None;
    for _ in 0..count {
        let Some(child) = child_at_front(rest, bounds) else {
            return false;
        };
        let low = child.low;
        if !is_next_low(low, last, bounds.low) {
            return false;
        }
        last = Some(low);
        rest = rest.split_at(48).1;
    }
    rest.is_empty()
}

/// The children that octets encode, if they encode `count` children.
fn children_kept(
    alloc: Global,
    bytes: &[u8],
    count: u16,
    bounds: &Bounds,
) -> Result<Vec<Child>, ReadFault>
    ensures children { IfOk result (λ kept. (children : List ChildValue) → AreChildrenOf bounds.now count bytes.now children → kept.items ≡ children) }
    ensures refused { (children : List ChildValue) → AreChildrenOf bounds.now count bytes.now children → result ≡ Err ReadFault.NotANode → ⊥ }
{
    let mut rest = bytes;
    let mut kept = Vec::new(alloc);
    for _ in 0..count {
        let Some(child) = child_at_front(rest, bounds) else {
            return Err(ReadFault::NotANode);
        };
        keep(&mut kept, child)?;
        rest = rest.split_at(48).1;
    }
    Ok(kept)
}

/// The children that octets encode: `count` of them, which follow one another from the lowest key of these bounds on.
pub fn children_in(
    alloc: Global,
    bytes: &[u8],
    count: u16,
    bounds: &Bounds,
) -> Result<Vec<Child>, ReadFault>
    ensures children { MatchResult result (λ children. AreChildrenOf bounds.now count bytes.now children.items) (IsRefusal (AreChildrenOf bounds.now count bytes.now)) }
{
    if !are_children(bytes, count, bounds) {
        return Err(ReadFault::NotANode);
    }
    children_kept(alloc, bytes, count, bounds)
}
