//! Stamps, bounds and parts of nodes that are written in another unit than moments. They are read in moments.

ghost use Rattle.std.specs.Prelude.{◌≡◌, ◌≤◌, ◌<◌, ◌+◌, ◌^◌, ◌↔◌, ℕ, length, map, IfSome, IfNone, IsTrue};
ghost use Rattle.std.specs.List.{AllByRecursion};
ghost use Rattle.route_model.specs.Units.{moments_in};
ghost use Rattle.tsb_node.specs.Nodes.{IsBounds, unit_now};
ghost use Rattle.tsb_node.specs.Columns.{scaled_part};
ghost use Rattle.tsb_node.specs.Scaling.{scaled, scaled_bounds, IsKnownUnit};

use route_model::Unit;
use version_model::{Bounds, Part, Stamp};

/// How many moments one of the unit is that this number names; one if it names none.
pub fn moments_of(unit: u8) -> u64
    ensures moments { (known : IsKnownUnit unit) → result ≡ moments_in known.unit }
    ensures some { 1 ≤ result }
{
    match Unit::of(unit) {
        Some(unit) => unit.moments(),
        None => 1,
    }
}

/// Whether nodes of the unit that this number names are read.
pub fn is_known(unit: u8) -> bool
    ensures { IsTrue result ↔ IsKnownUnit unit }
{
    Unit::of(unit).is_some()
}

/// Whether the number names the unit in which nodes are written.
pub fn is_now(unit: u8) -> bool
    ensures { IsTrue result ↔ (unit ≡ unit_now) }
{
    unit == Unit::written().number()
}

/// The stamp whose time is k times that of this one, or none if that has no eight octets.
pub fn in_moments(stamp: Stamp, k: u64) -> Option<Stamp>
    ensures found { IfSome result (λ s. s ≡ scaled k stamp) }
    ensures fits { IfSome result (λ s. scaled k stamp < 256 ^ 16) }
    ensures none { IfNone result (scaled k stamp < 256 ^ 16 → ⊥) }
{
    match stamp.time().checked_mul(k) {
        Some(time) => Some(Stamp::new(time, stamp.order())),
        None => None,
    }
}

/// Whether the time of the stamp has eight octets once it is multiplied by k.
pub fn fits(stamp: Stamp, k: u64) -> bool
    ensures { IsTrue result ↔ (scaled k stamp < 256 ^ 16) }
{
    in_moments(stamp, k).is_some()
}

/// The stamp whose time is k times that of this one, of a node, whose stamps all fit.
pub fn stamp_in_moments(stamp: Stamp, k: u64) -> Stamp
    ensures { scaled k stamp < 256 ^ 16 → result ≡ scaled k stamp }
{
    match in_moments(stamp, k) {
        Some(stamp) => stamp,
        None => stamp,
    }
}

/// The last stamp that isn't after the given one once its time is multiplied by k.
pub fn floor_stamp(stamp: Stamp, k: u64) -> Stamp
    requires some { 1 ≤ k }
    ensures { (s : ℕ) → scaled k s ≤ stamp ↔ s ≤ result }
{
    if k == 1 {
        return stamp;
    }
    let time = stamp.time();
    if time % k == 0 {
        return Stamp::new(time / k, stamp.order());
    }
    Stamp::new(time / k, u64::MAX)
}

// The same as `in_moments`, of an end, which is not encoded like one that is missing.
fn end_in_moments(end: Stamp, k: u64) -> Option<Stamp>
    ensures found { IfSome result (λ s. s ≡ scaled k end) }
    ensures fits { IfSome result (λ s. scaled k end + 1 < 256 ^ 16) }
    ensures none { IfNone result (scaled k end + 1 < 256 ^ 16 → ⊥) }
{
    let end = in_moments(end, k)?;
    if end == Stamp::new(u64::MAX, u64::MAX) {
        return None;
    }
    Some(end)
}

/// The bounds whose times are k times those of these, or none if these are no bounds of a node then.
pub fn bounds_in_moments(bounds: &Bounds, k: u64) -> Option<Bounds>
    requires some { 1 ≤ k }
    requires valid { IsBounds bounds.now }
    ensures found { IfSome result (λ b. b ≡ scaled_bounds k bounds.now) }
    ensures fits { IfSome result (λ b. IsBounds (scaled_bounds k bounds.now)) }
    ensures none { IfNone result (IsBounds (scaled_bounds k bounds.now) → ⊥) }
{
    let start = in_moments(bounds.start, k)?;
    let Some(end) = bounds.end else {
        return Some(Bounds {
            low: bounds.low,
            high: bounds.high,
            start,
            end: None,
        });
    };
    let end = end_in_moments(end, k)?;
    Some(Bounds {
        low: bounds.low,
        high: bounds.high,
        start,
        end: Some(end),
    })
}

/// The part whose time is k times that of this one, of a node, whose stamps all fit.
pub fn part_in_moments(part: Part, k: u64) -> Part
    ensures { scaled k part.start < 256 ^ 16 → result ≡ scaled_part k part }
{
    Part {
        start: stamp_in_moments(part.start, k),
        kind: part.kind,
        block: part.block,
    }
}

/// Multiplies the times of parts by k.
pub fn scale_parts(parts: &mut [Part], k: u64)
    ensures { AllByRecursion (λ p. scaled k p.start < 256 ^ 16) parts.old → parts.new ≡ map (scaled_part k) parts.old }
{
    if k == 1 {
        return;
    }
    for part in parts.iter_mut() {
        *part = part_in_moments(*part, k);
    }
}
