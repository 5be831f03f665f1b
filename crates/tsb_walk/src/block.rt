//! What one block is for a place: the leaf, or a column with the part where the lookup goes on.

ghost use Rattle.std.specs.Prelude.{◌≡◌, ◌<◌, ◌≤◌, ◌↔◌, ℕ, length, IsTrue, IfSome, IfNone, IsSome, Some};
ghost use Rattle.version_model.specs.Ranges.{IsPoint, range_of, high_or, end_or};
ghost use Rattle.version_model.specs.Blocks.{IsWider};
ghost use Rattle.version_model.specs.declared.part.PartKind.TheVariants.{ColumnBlock};
ghost use Rattle.tsb_node.specs.Leaves.{LeafNode};
ghost use Rattle.tsb_node.specs.Columns.{ColumnInBlock};
ghost use Rattle.tsb_walk.specs.Ways.{IsFit};
ghost use Rattle.tsb_walk.specs.inner.Steps.{IsStep, GoesDown, IsLeafOf, IsEndOf};

use crate::page_steps::is_in;
use route_model::Key;
use tsb_node::{PartAt, column_head, key_fits, leaf_head, part_for, stamp_fits};
use version_model::{Bounds, PartKind, Place, Stamp};

/// What a block is for a place.
#[derive(Clone, Copy, Debug)]
pub enum Step {
    /// It is the leaf that has the place's versions.
    InLeaf,
    /// It is a column; the lookup goes on in one of its parts.
    Further(Place),
}

// Whether a high key, or none, isn't above another, or none.
fn is_high_within(high: Option<Key>, wide: Option<Key>) -> bool
    ensures { IsTrue result ↔ (high_or high ≤ high_or wide) }
{
    let Some(high) = high else {
        return is_open(wide);
    };
    key_fits(high);
    match wide {
        Some(wide) => high <= wide,
        None => true,
    }
}

// Whether there is no high key.
fn is_open(wide: Option<Key>) -> bool
    ensures { IsTrue result ↔ (high_or None ≤ high_or wide) }
{
    match wide {
        Some(wide) => {
            key_fits(wide);
            false
        }
        None => true,
    }
}

// Whether there is an end, and it is the other one.
fn is_same_end(wide: Option<Stamp>, end: Option<Stamp>) -> bool
    ensures { IsTrue result ↔ (IsSome wide × (end_or end ≡ end_or wide)) }
{
    let Some(wide) = wide else {
        return false;
    };
    stamp_fits(wide);
    match end {
        Some(end) => wide == end,
        None => false,
    }
}

// Whether bounds have an end, exactly the stamps of others, and at least their keys.
fn is_wider(wide: &Bounds, bounds: &Bounds) -> bool
    ensures { IsTrue result ↔ (IsSome wide.now.end × IsWider (range_of wide.now) (range_of bounds.now)) }
{
    let wide = *wide;
    let bounds = *bounds;
    wide.low <= bounds.low
        && is_high_within(bounds.high, wide.high)
        && wide.start == bounds.start
        && is_same_end(wide.end, bounds.end)
}

// Whether octets may begin as a leaf for bounds: if this returns false, they don't.
fn is_leaf_for(octets: &[u8], bounds: &Bounds) -> bool
    requires size { length octets.now ≡ 16384 }
    ensures { (leaf : LeafNode) → IsLeafOf bounds.now octets.now leaf → IsTrue result }
{
    match leaf_head(octets) {
        Ok(wide) => is_wider(&wide, bounds),
        Err(_) => false,
    }
}

// The end of the column for bounds with which octets begin. None only if they begin with none, and not always then.
fn column_end(octets: &[u8], bounds: &Bounds) -> Option<Stamp>
    requires size { length octets.now ≡ 16384 }
    ensures found { (column : ColumnInBlock) (end : ℕ) → IsEndOf bounds.now octets.now column end → result ≡ Some end }
{
    let Ok(wide) = column_head(octets) else {
        return None;
    };
    if !is_wider(&wide, bounds) {
        return None;
    }
    wide.end
}

// Whether a stamp is before another.
fn is_before(stamp: Stamp, end: Stamp) -> bool
    ensures { IsTrue result ↔ (stamp < end) }
{
    stamp < end
}

// The place of a part that is found in the column at a place.
fn place_of(place: &Place, found: &PartAt) -> Place
    ensures bounds { result.bounds ≡ record { low = place.now.bounds.low; high = place.now.bounds.high; start = found.now.part.start; end = Some found.now.end } }
    ensures part { result.part ≡ found.now.part }
{
    Place {
        bounds: Bounds {
            low: place.bounds.low,
            high: place.bounds.high,
            start: found.part.start,
            end: Some(found.end),
        },
        part: found.part,
    }
}

// Where a lookup goes on from a column.
fn part_step(octets: &[u8], place: &Place, key: Key, stamp: Stamp) -> Option<Step>
    requires size { length octets.now ≡ 16384 }
    requires kind { place.now.part.kind ≡ ColumnBlock }
    requires point { IsPoint (range_of place.now.bounds) key stamp }
    ensures step { IsFit place.now octets.now key stamp → IfSome result (IsStep place.now octets.now key stamp) }
    ensures none { IfNone result (IsFit place.now octets.now key stamp → ⊥) }
    ensures down { IfSome result (GoesDown place.now key stamp) }
{
    let Some(end) = column_end(octets, &place.bounds) else {
        return None;
    };
    if !is_before(stamp, end) {
        return None;
    }
    let Ok(found) = part_for(octets, end, stamp) else {
        return None;
    };
    if !is_in(&found, stamp) {
        return None;
    }
    if found.part.block >= place.part.block {
        return None;
    }
    Some(Step::Further(place_of(place, &found)))
}

/// What a block with these octets is for a place, a key and a stamp, by their header and the part that has the stamp. None only if they
/// aren't what the place requires, and not always then: neither a leaf nor a column for it, or the part that is next isn't in a block of a
/// lower number.
pub fn step_in(octets: &[u8], place: &Place, key: Key, stamp: Stamp) -> Option<Step>
    requires size { length octets.now ≡ 16384 }
    requires point { IsPoint (range_of place.now.bounds) key stamp }
    ensures step { IsFit place.now octets.now key stamp → IfSome result (IsStep place.now octets.now key stamp) }
    ensures none { IfNone result (IsFit place.now octets.now key stamp → ⊥) }
    ensures down { IfSome result (GoesDown place.now key stamp) }
{
    match place.part.kind {
        PartKind::LeafBlock => {
            if !is_leaf_for(octets, &place.bounds) {
                return None;
            }
            Some(Step::InLeaf)
        }
        PartKind::ColumnBlock => part_step(octets, place, key, stamp),
    }
}
