//! The header that all nodes have.

ghost use Rattle.std.specs.Prelude.{◌≡◌, ◌≤◌, ◌<◌, ◌+◌, ◌^◌, ◌↔◌, length, take, drop, replicate, IfSome, IfNone, IsTrue};
ghost use Rattle.tsb_node.specs.Numbers.{bound_octets};
ghost use Rattle.tsb_node.specs.Headers.{HasHeader};

use crate::numbers::{key_at, number2, stamp_at};
use route_model::Key;
use version_model::{Bounds, Stamp};

/// What the header of a node represents: its kind (1 a leaf, 2 a column, 3 a key node), the number of the unit of its times, its level,
/// how many entries it has and in how many octets, and its bounds, in that unit.
#[derive(Clone, Copy, Debug)]
pub struct Header {
    pub kind: u8,
    pub unit: u8,
    pub level: u8,
    pub count: u16,
    pub used: u16,
    pub bounds: Bounds,
}

/// Whether a header is of a kind and a level.
pub fn is_of_kind(header: &Header, kind: u8, level: u8) -> bool
    ensures { IsTrue result ↔ ((header.now.kind ≡ kind) × (header.now.level ≡ level)) }
{
    header.kind == kind && header.level == level
}

/// Whether two keys are the same.
pub fn is_same_key(key: Key, other: Key) -> bool
    ensures { IsTrue result ↔ (key ≡ other) }
{
    key == other
}

/// Whether a key is below another.
pub fn is_key_below(key: Key, other: Key) -> bool
    ensures { IsTrue result ↔ (key < other) }
{
    key < other
}

/// Whether a stamp is below another.
pub fn is_stamp_below(stamp: Stamp, other: Stamp) -> bool
    ensures { IsTrue result ↔ (stamp < other) }
{
    stamp < other
}

/// Whether a key is below a high key, if there is one.
pub fn is_below_high(key: Key, high: Option<Key>) -> bool
    ensures { IsTrue result ↔ IfSome high (λ n. key < n) }
{
    match high {
        Some(high) => is_key_below(key, high),
        None => true,
    }
}

/// Whether a stamp is below an end, if there is one.
pub fn is_before_end(stamp: Stamp, end: Option<Stamp>) -> bool
    ensures { IsTrue result ↔ IfSome end (λ n. stamp < n) }
{
    match end {
        Some(end) => is_stamp_below(stamp, end),
        None => true,
    }
}

/// The high key in forty octets at a place, or none if each of them is FF.
pub fn high_at(octets: &[u8], place: usize) -> Option<Key>
    requires { place + 40 ≤ length octets.now }
    ensures encoded { bound_octets 40 result ≡ take 40 (drop place octets.now) }
    ensures apart { IfSome result (λ n. n + 1 < 256 ^ 40) }
{
    let key = key_at(octets, place);
    if key == Key::from_octets(&[255; 40]) {
        None
    } else {
        Some(key)
    }
}

/// The end stamp in sixteen octets at a place, or none if each of them is FF.
pub fn end_at(octets: &[u8], place: usize) -> Option<Stamp>
    requires { place + 16 ≤ length octets.now }
    ensures encoded { bound_octets 16 result ≡ take 16 (drop place octets.now) }
    ensures apart { IfSome result (λ n. n + 1 < 256 ^ 16) }
{
    let stamp = stamp_at(octets, place);
    if stamp == Stamp::new(u64::MAX, u64::MAX) {
        None
    } else {
        Some(stamp)
    }
}

/// The header at the front of a node, or none if there is none whose bounds are in order.
pub fn read_header(octets: &[u8]) -> Option<Header>
    requires { 120 ≤ length octets.now }
    ensures found { IfSome result (λ h. HasHeader h octets.now) }
    ensures none { IfNone result ((h : Header) → HasHeader h octets.now → ⊥) }
{
    if octets[3] != 0 {
        return None;
    }
    let bounds = Bounds {
        low: key_at(octets, 8),
        high: high_at(octets, 48),
        start: stamp_at(octets, 88),
        end: end_at(octets, 104),
    };
    if !is_below_high(bounds.low, bounds.high) {
        return None;
    }
    if !is_before_end(bounds.start, bounds.end) {
        return None;
    }
    Some(Header {
        kind: octets[0],
        unit: octets[1],
        level: octets[2],
        count: number2(octets, 4),
        used: number2(octets, 6),
        bounds,
    })
}
