//! The segments of AS paths.

ghost use Rattle.std.specs.Prelude.{◌≡◌, ◌+◌, ◌*◌, ◌<◌, ◌≤◌, ℕ, length, slice_index, IfOk, OnOk, filter, [], ◌∷◌, ◌++◌};
ghost use Rattle.route_model.specs.Octets.{number_at};
ghost use Rattle.route_model.specs.Widths.{width_of};
ghost use Rattle.route_model.specs.Reading.{Exactly, AtFrontOr};
ghost use Rattle.bgp_update.specs.Paths.{IsSegmentField, IsPath, has_numbers};
ghost use Rattle.bgp_update.specs.inner.Parts.{segment_of};

use route_model::octets::ReadFault;
use route_model::wire::{AsWidth, as_number_at, octets_of};
use route_model::{AsNumbers, Segment};
use std::alloc::{AllocError, Global};

/// The type of a segment.
#[derive(Clone, Copy, Debug)]
pub(crate) enum SegmentKind {
    Set,
    Sequence,
}

/// A segment in octets: it may have no numbers.
#[derive(Debug, Drop)]
pub(crate) struct Part {
    pub(crate) kind: SegmentKind,
    pub(crate) numbers: Vec<u32>,
}

/// `count` AS numbers, one after another, after the two octets of a segment's header.
fn numbers_of(
    alloc: Global,
    bytes: &[u8],
    width: AsWidth,
    count: usize,
) -> Result<Vec<u32>, AllocError>
    requires { 2 + width_of width * count ≤ length bytes.now }
    ensures { IfOk result (λ v. (length v.items ≡ count) × ((i : ℕ) → i < count → slice_index v.items i ≡ number_at (width_of width) (2 + width_of width * i) bytes.now)) }
{
    let mut numbers = Vec::with_capacity(alloc, count)?;
    let size = octets_of(width);
    for i in 0..count {
        numbers.push(as_number_at(width, bytes, 2 + size * i))?;
    }
    Ok(numbers)
}

/// The segment at the front, and how many octets it takes. Its fields (RFC 4271 section 4.3, RFC 6793 section 3):
///
/// 1. The type, one octet: 1 for AS_SET, 2 for AS_SEQUENCE, and no other.
/// 2. The count of AS numbers, one octet.
/// 3. The AS numbers, two or four octets each.
fn segment_at(alloc: Global, bytes: &[u8], width: AsWidth) -> Result<(Part, usize), ReadFault>
    ensures front { AtFrontOr segment_of (IsSegmentField (width_of width)) bytes.now result }
    ensures few { IfOk result (λ r. length r.0.numbers.items < 256) }
{
    if bytes.len() < 2 {
        return Err(ReadFault::Malformed);
    }
    let kind = match bytes[0] {
        1 => SegmentKind::Set,
        2 => SegmentKind::Sequence,
        _ => return Err(ReadFault::Malformed),
    };
    let count = bytes[1] as usize;
    let size = 2 + octets_of(width) * count;
    if bytes.len() < size {
        return Err(ReadFault::Malformed);
    }
    let numbers = numbers_of(alloc, bytes, width, count)?;
    Ok((Part { kind, numbers }, size))
}

/// Adds a segment if it has numbers.
fn push_segment(path: &mut Vec<Segment>, part: Part) -> Result<(), AllocError>
    requires { length part.numbers.items < 256 }
    ensures { OnOk result (path.new.items ≡ path.old.items ++ filter has_numbers (segment_of part ∷ [])) }
{
    if part.numbers.is_empty() {
        return Ok(());
    }
    let numbers = AsNumbers::new(part.numbers);
    match part.kind {
        SegmentKind::Set => path.push(Segment::Set(numbers))?,
        SegmentKind::Sequence => path.push(Segment::Sequence(numbers))?,
    }
    Ok(())
}

/// How many segments the octets have, as far as they are segments: room is made for that many.
fn count_of(bytes: &[u8], width: AsWidth) -> usize
    ensures { 2 * result ≤ length bytes.now }
{
    let mut count = 0;
    let mut left = bytes;
    while 2 <= left.len() {
        let size = 2 + octets_of(width) * left[1] as usize;
        if left.len() < size {
            return count;
        }
        left = left.split_at(size).1;
        count += 1;
    }
    count
}

/// The path whose segments follow one another over all of the octets, in AS numbers of the width.
pub(crate) fn read_segments(
    alloc: Global,
    bytes: &[u8],
    width: AsWidth,
) -> Result<Vec<Segment>, ReadFault>
    ensures path { Exactly (λ v. v.items) (IsPath (width_of width) bytes.now) result }
    ensures few { IfOk result (λ v. 2 * length v.items ≤ length bytes.now) }
{
    let mut path = Vec::with_capacity(alloc, count_of(bytes, width))?;
    let mut rest = bytes;
    while !rest.is_empty() {
        let (part, size) = segment_at(alloc, rest, width)?;
        push_segment(&mut path, part)?;
        rest = rest.split_at(size).1;
    }
    Ok(path)
}
