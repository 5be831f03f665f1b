//! The places of a column's parts.

ghost use Rattle.std.specs.Prelude.{◌≡◌, ◌<◌, ◌+◌, Some, IfOk, length, drop, slice_get};
ghost use Rattle.tsb_check.specs.Counted.{end_at, places_of};

use crate::keeping::keep;
use route_model::Key;
use std::alloc::{AllocError, Global};
use version_model::{Bounds, Part, Place, Stamp};

// Where the part after part `i` starts; without one, the end.
fn end_after(end: &Option<Stamp>, parts: &[Part], i: usize) -> Option<Stamp>
    requires within { i < length parts.now }
    ensures { result ≡ end_at end.now (drop (i + 1) parts.now) }
{
    match parts.get(i + 1) {
        Some(part) => Some(part.start),
        None => *end,
    }
}

// The place of one of the parts, of the keys from `low` on and below `high`, up to an end where it is the last one.
fn place_at(low: &Key, high: &Option<Key>, end: &Option<Stamp>, parts: &[Part], i: usize) -> Place
    requires within { i < length parts.now }
    ensures bounds { result.bounds ≡ record { low = low.now; high = high.now; start = result.part.start; end = end_at end.now (drop (i + 1) parts.now) } }
    ensures part { slice_get parts.now i ≡ Some result.part }
{
    let part = &parts[i];
    Place {
        bounds: Bounds {
            low: *low,
            high: *high,
            start: part.start,
            end: end_after(end, parts, i),
        },
        part: *part,
    }
}

/// The places of parts that follow one another: of the keys of bounds, the last one up to the bounds' end.
pub fn list_places(alloc: Global, bounds: &Bounds, parts: &[Part]) -> Result<Vec<Place>, AllocError>
    ensures { IfOk result (λ places. places.items ≡ places_of bounds.now parts.now) }
{
    let low = bounds.low;
    let high = bounds.high;
    let end = bounds.end;
    let mut places = Vec::new(alloc);
    for i in 0..parts.len() {
        keep(&mut places, place_at(&low, &high, &end, parts, i))?;
    }
    Ok(places)
}
