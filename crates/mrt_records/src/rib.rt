//! The body of a RIB record.

ghost use Rattle.std.specs.Prelude.{◌≡◌, ◌+◌, ◌≤◌, ℕ, List, length, drop, IfOk, IfSome, IfNone, take};
ghost use Rattle.route_model.specs.Sequence.{Sequence};
ghost use Rattle.route_model.specs.Reading.{Exactly, BeginsWith};
ghost use Rattle.route_model.specs.Prefix.{IpPrefix};
ghost use Rattle.mrt_records.specs.Entries.{Entry, IsEntryField};
ghost use Rattle.mrt_records.specs.Places.{entry_in, entries_in, AreWithin};
ghost use Rattle.mrt_records.specs.Ribs.{IsRib};

use crate::entries::{Place, RibEntries};
use route_model::Prefix;
use route_model::octets::{ReadFault, u16_at};
use route_model::wire::{Family, prefix_at};
use std::alloc::Global;

/// How many octets an entry has before its attributes.
const ENTRY_HEADER: usize = 8;

/// The peer index and the count of attribute octets of the entry at the front.
fn entry_at(bytes: &[u8]) -> Option<(u16, u16)>
    ensures found { IfSome result (λ e. IsEntryField (take (8 + e.1) bytes.now) (record { peer_index = e.0; attributes = take e.1 (drop 8 bytes.now) }) × (8 + e.1 ≤ length bytes.now)) }
    ensures none { IfNone result (BeginsWith IsEntryField bytes.now → ⊥) }
{
    if bytes.len() < ENTRY_HEADER {
        return None;
    }
    let size = u16_at(bytes, 6);
    if bytes.len() < ENTRY_HEADER + size as usize {
        return None;
    }
    Some((u16_at(bytes, 0), size))
}

/// The places of the entries, which follow one another over the octets. `count` is the record's own; memory is reserved for
/// no more entries than the octets can have.
fn places_of(alloc: Global, bytes: &[u8], count: usize) -> Result<Vec<Place>, ReadFault>
    requires { length bytes.now ≤ 131072 }
    ensures entries { Exactly (λ v. entries_in bytes.now v.items) (Sequence IsEntryField bytes.now) result }
    ensures within { IfOk result (λ v. AreWithin bytes.now v.items) }
{
    let mut places = Vec::with_capacity(alloc, count.min(bytes.len() / ENTRY_HEADER))?;
    let mut next = 0;
    while next < bytes.len() {
        let Some((peer_index, size)) = entry_at(bytes.split_at(next).1) else {
            return Err(ReadFault::Malformed);
        };
        let start = next + ENTRY_HEADER;
        places.push(Place {
            peer_index,
            size,
            start: start as u32,
        })?;
        next = start + size as usize;
    }
    Ok(places)
}

/// The entries that fill all of the octets, exactly `count` of them.
fn read_entries(alloc: Global, bytes: &[u8], count: usize) -> Result<RibEntries, ReadFault>
    requires { length bytes.now ≤ 131072 }
    ensures { Exactly (λ e. e) (λ e. Sequence IsEntryField bytes.now e × (length e ≡ count)) result }
{
    let places = places_of(alloc, bytes, count)?;
    if places.len() != count {
        return Err(ReadFault::Malformed);
    }
    let octets = Vec::from_slice(alloc, bytes)?;
    Ok(RibEntries::new(octets, places))
}

/// The prefix and the entries of a RIB record's body. Its fields, in this order:
///
/// 1. The sequence number, four octets, which is ignored (RFC 6396 section 4.3.2).
/// 2. The prefix: its length in bits, one octet, and the fewest octets that have as many (section 4.3.2).
/// 3. The count of entries, two octets (section 4.3.2).
/// 4. Entries to the end: the peer index, two octets; the originated time, four, which is ignored; the length of the attributes,
///    two; the attributes (section 4.3.4).
/// 5. The number of entries must be the count.
pub(crate) fn read_rib(
    alloc: Global,
    family: Family,
    bytes: &[u8],
) -> Result<(Prefix, RibEntries), ReadFault>
    requires { length bytes.now ≤ 131072 }
    ensures { Exactly (λ r. (r.0, r.1)) (λ (r : IpPrefix × List Entry). IsRib family bytes.now r.0 r.1) result }
{
    if bytes.len() < 4 {
        return Err(ReadFault::Malformed);
    }
    let beyond = bytes.split_at(4).1;
    let Some((prefix, size)) = prefix_at(family, beyond) else {
        return Err(ReadFault::Malformed);
    };
    let rest = beyond.split_at(size).1;
    if rest.len() < 2 {
        return Err(ReadFault::Malformed);
    }
    let entries = read_entries(alloc, rest.split_at(2).1, u16_at(rest, 0) as usize)?;
    Ok((prefix, entries))
}
