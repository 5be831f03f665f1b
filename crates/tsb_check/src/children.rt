//! The places of a key node's children.

ghost use Rattle.std.specs.Prelude.{◌≡◌, ◌<◌, ◌≤◌, ◌+◌, Some, IfOk, length, drop, slice_get};
ghost use Rattle.tsb_check.specs.Pages.{high_at, places_under};

use crate::keeping::keep;
use route_model::Key;
use std::alloc::{AllocError, Global};
use tsb_walk::PagePlace;
use version_model::Child;

// The lowest key of the child after child `i`; without one, the high key.
fn high_after(high: &Option<Key>, children: &[Child], i: usize) -> Option<Key>
    requires within { i < length children.now }
    ensures { result ≡ high_at high.now (drop (i + 1) children.now) }
{
    match children.get(i + 1) {
        Some(child) => Some(child.low),
        None => *high,
    }
}

// The place of one of the children, at a level, of keys below `high` where it is the last one.
fn child_at(level: u8, high: &Option<Key>, children: &[Child], i: usize) -> PagePlace
    requires within { i < length children.now }
    ensures level { result.level ≡ level }
    ensures high { result.high ≡ high_at high.now (drop (i + 1) children.now) }
    ensures child { slice_get children.now i ≡ Some (record { low = result.low; page = result.page }) }
{
    let child = &children[i];
    PagePlace {
        page: child.page,
        level,
        low: child.low,
        high: high_after(high, children, i),
    }
}

/// The places of the children of a key node.
pub fn list_children(
    alloc: Global,
    place: &PagePlace,
    children: &[Child],
) -> Result<Vec<PagePlace>, AllocError>
    requires above { 1 ≤ place.now.level }
    ensures { IfOk result (λ places. places.items ≡ places_under place.now children.now) }
{
    let level = place.level - 1;
    let high = place.high;
    let mut places = Vec::new(alloc);
    for i in 0..children.len() {
        keep(&mut places, child_at(level, &high, children, i))?;
    }
    Ok(places)
}
