//! Reads the entries of columns exactly.

ghost use Rattle.std.specs.Prelude.{List, ℕ, Option, ◌≡◌, ◌↔◌, ◌-◌, ◌<◌, length, IfSome, IfNone, IfOk, IsTrue, Some, Err};
ghost use Rattle.std.specs.Result.{MatchResult};
ghost use Rattle.version_model.specs.declared.part.Part.{Part as PartValue};
ghost use Rattle.tsb_node.specs.Columns.{part_octets, current_octets};
ghost use Rattle.tsb_node.specs.Decoded.{IsRefusal};
ghost use Rattle.tsb_node.specs.inner.Rows.{IsFront, IsNextNumber};
ghost use Rattle.tsb_node.specs.inner.PartReading.{IsPartBefore, AreParts, IsCurrentEntry, IsCurrentOf};

use crate::column::{Current, part_in};
use crate::header::{Header, is_before_end, is_of_kind, is_stamp_below};
use crate::leaf_entries::keep;
use crate::leaf_part::ReadFault;
use crate::numbers::{number8, stamp_at};
use std::alloc::Global;
use version_model::{Part, Stamp};

/// The part at the front of octets, or none if no part that starts before an end is there.
fn part_at_front(bytes: &[u8], end: &Option<Stamp>) -> Option<Part>
    ensures found { IfSome result (IsFront part_octets (IsPartBefore end.now) 25 bytes.now) }
    ensures none { IfNone result ((part : PartValue) → IsFront part_octets (IsPartBefore end.now) 25 bytes.now part → ⊥) }
{
    if bytes.len() < 25 {
        return None;
    }
    let Ok(part) = part_in(bytes, 0) else {
        return None;
    };
    if !is_before_end(part.start, *end) {
        return None;
    }
    Some(part)
}

/// Whether a stamp is above the last one; if there is no last one, whether it is the first.
fn is_next_start(start: Stamp, last: Option<Stamp>, first: Stamp) -> bool
    ensures { IsTrue result ↔ IsNextNumber first last start }
{
    match last {
        Some(last) => is_stamp_below(last, start),
        None => start == first,
    }
}

/// Whether octets are exactly `count` parts that follow one another from a start on, all before an end.
pub fn are_parts(bytes: &[u8], count: u16, start: Stamp, end: &Option<Stamp>) -> bool
    ensures { IsTrue result ↔ ((parts : List PartValue) × AreParts start end.now count bytes.now parts) }
{
    let mut rest = bytes;
    let mut last = None;
    for _ in 0..count {
        let Some(part) = part_at_front(rest, end) else {
            return false;
        };
        let begun = part.start;
        if !is_next_start(begun, last, start) {
            return false;
        }
        last = Some(begun);
        rest = rest.split_at(25).1;
    }
    rest.is_empty()
}

/// The parts that octets encode, if they encode `count` parts.
fn parts_kept(alloc: Global, bytes: &[u8], count: u16) -> Result<Vec<Part>, ReadFault>
    ensures parts { IfOk result (λ kept. (start : ℕ) (end : Option ℕ) (parts : List PartValue) → AreParts start end count bytes.now parts → kept.items ≡ parts) }
    ensures refused { (start : ℕ) (end : Option ℕ) (parts : List PartValue) → AreParts start end count bytes.now parts → result ≡ Err ReadFault.NotANode → ⊥ }
{
    let mut rest = bytes;
    let mut kept = Vec::new(alloc);
    for _ in 0..count {
        let Some(part) = part_at_front(rest, &None) else {
            return Err(ReadFault::NotANode);
        };
        keep(&mut kept, part)?;
        rest = rest.split_at(25).1;
    }
    Ok(kept)
}

/// The parts that octets encode: `count` of them, which follow one another from a start on, all before an end.
pub fn parts_in(
    alloc: Global,
    bytes: &[u8],
    count: u16,
    start: Stamp,
    end: Option<Stamp>,
) -> Result<Vec<Part>, ReadFault>
    ensures parts { MatchResult result (λ parts. AreParts start end count bytes.now parts.items) (IsRefusal (AreParts start end count bytes.now)) }
{
    if !are_parts(bytes, count, start, &end) {
        return Err(ReadFault::NotANode);
    }
    parts_kept(alloc, bytes, count)
}

/// The current leaf in 25 octets, or none if there is none.
fn current_in(bytes: &[u8]) -> Option<Current>
    requires { length bytes.now ≡ 25 }
    ensures found { IfSome result (λ current. IsCurrentEntry current × (bytes.now ≡ current_octets current)) }
    ensures none { IfNone result ((current : Current) → IsCurrentEntry current → bytes.now ≡ current_octets current → ⊥) }
{
    if bytes[16] != 0 {
        return None;
    }
    Some(Current {
        start: stamp_at(bytes, 0),
        page: number8(bytes, 17),
    })
}

/// Whether a current leaf may follow the octets of parts: without parts it starts where the column does.
fn may_follow(begun: Stamp, front: &[u8], start: Stamp) -> bool
    ensures { IsTrue result ↔ (length front.now ≡ 0 → begun ≡ start) }
{
    !front.is_empty() || begun == start
}

/// The current leaf of the column in a page whose header and entries these are, and the octets of the parts before it. None if
/// they are no such column.
pub fn current_of<'a>(header: &Header, entries: &'a [u8]) -> Option<(Current, &'a [u8])>
    ensures found { IfSome result (λ found. IsCurrentOf header.now entries.now found.0 found.1.now) }
    ensures none { IfNone result ((current : Current) (front : List ℕ) → IsCurrentOf header.now entries.now current front → ⊥) }
{
    if !is_of_kind(header, 2, 1) {
        return None;
    }
    if header.bounds.start != Stamp::new(0, 0) {
        return None;
    }
    if header.count == 0 {
        return None;
    }
    if entries.len() < 25 {
        return None;
    }
    let (front, back) = entries.split_at(entries.len() - 25);
    let Some(current) = current_in(back) else {
        return None;
    };
    if !may_follow(current.start, front, header.bounds.start) {
        return None;
    }
    Some((current, front))
}
