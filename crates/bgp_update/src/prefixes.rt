//! Prefixes that follow one another.

ghost use Rattle.std.specs.Prelude.{◌≡◌, ◌≤◌, length, Option, List};
ghost use Rattle.route_model.specs.Prefix.{IpPrefix};
ghost use Rattle.route_model.specs.PrefixFields.{IsPrefixField};
ghost use Rattle.route_model.specs.Reading.{Exactly};
ghost use Rattle.route_model.specs.Sequence.{Sequence};
ghost use Rattle.bgp_update.specs.NextHops.{AreReached, AreUnreached};

use crate::attribute::ValueOctets;
use crate::next_hop::family_in;
use crate::reach::Reach;
use route_model::Prefix;
use route_model::octets::ReadFault;
use route_model::wire::{Family, prefix_at};
use std::alloc::Global;

/// How many prefixes the octets have, as far as they are prefixes: room is made for that many.
fn count_of(bytes: &[u8]) -> usize
    ensures { result ≤ length bytes.now }
{
    let mut count = 0;
    let mut left = bytes;
    while !left.is_empty() {
        let size = 1 + (left[0] as usize + 7) / 8;
        if left.len() < size {
            return count;
        }
        left = left.split_at(size).1;
        count += 1;
    }
    count
}

/// The prefixes of this family that follow one another over all of the octets.
pub(crate) fn read_prefixes(
    alloc: Global,
    family: Family,
    bytes: &[u8],
) -> Result<Vec<Prefix>, ReadFault>
    ensures { Exactly (λ v. v.items) (Sequence (IsPrefixField family) bytes.now) result }
{
    let mut prefixes = Vec::with_capacity(alloc, count_of(bytes))?;
    let mut rest = bytes;
    while !rest.is_empty() {
        let Some((prefix, size)) = prefix_at(family, rest) else {
            return Err(ReadFault::Malformed);
        };
        prefixes.push(prefix)?;
        rest = rest.split_at(size).1;
    }
    Ok(prefixes)
}

/// The prefixes that MP_REACH_NLRI announces.
pub(crate) fn reached_by(alloc: Global, reach: &Option<Reach<'_>>) -> Result<Vec<Prefix>, ReadFault>
    ensures { Exactly (λ v. v.items) (AreReached reach.now) result }
{
    match reach {
        None => Ok(Vec::new(alloc)),
        Some(reach) => read_prefixes(alloc, reach.family, reach.nlri.as_slice()),
    }
}

/// The prefixes that MP_UNREACH_NLRI withdraws.
pub(crate) fn unreached_by(
    alloc: Global,
    value: &Option<ValueOctets<'_>>,
) -> Result<Vec<Prefix>, ReadFault>
    ensures { Exactly (λ v. v.items) (AreUnreached value.now) result }
{
    let Some(value) = value else {
        return Ok(Vec::new(alloc));
    };
    let octets = value.as_slice();
    if octets.len() < 3 {
        return Err(ReadFault::Malformed);
    }
    match family_in(octets) {
        None => Ok(Vec::new(alloc)),
        Some(family) => read_prefixes(alloc, family, octets.split_at(3).1),
    }
}
