//! The reader of UPDATE messages (RFC 4271 section 4.3).

ghost use Rattle.std.specs.Prelude.{◌≡◌, ℕ, List, IfSome, IfNone};
ghost use Rattle.route_model.specs.Reading.{Exactly};
ghost use Rattle.bgp_update.specs.Messages.{IsCounted, IsUpdateOf, IsUpdate, changes_reported};

use crate::announcing::{Announcing, announcements};
use crate::attributes::read_attributes;
use crate::next_hop::{hop_in, reach_of};
use crate::prefixes::{reached_by, read_prefixes, unreached_by};
use crate::update::Update;
use route_model::octets::{ReadFault, u16_at};
use route_model::wire::{AsWidth, Family};
use std::alloc::Global;

/// The field whose length is in two octets, and the octets after it.
fn counted_at(bytes: &[u8]) -> Option<(&[u8], &[u8])>
    ensures found { IfSome result (λ r. IsCounted bytes.now r.0.now r.1.now) }
    ensures none { IfNone result ((field rest : List ℕ) → IsCounted bytes.now field rest → ⊥) }
{
    if bytes.len() < 2 {
        return None;
    }
    let size = u16_at(bytes, 0) as usize;
    if bytes.len() < 2 + size {
        return None;
    }
    Some(bytes.split_at(2).1.split_at(size))
}

/// What the three fields of an UPDATE withdraw and announce. The steps:
///
/// 1. The withdrawn routes, prefixes of IPv4 (RFC 4271 section 4.3).
/// 2. The path attributes (RFC 4271 section 4.3).
/// 3. NLRI, prefixes of IPv4 (RFC 4271 section 4.3).
/// 4. MP_UNREACH_NLRI: its family, then its prefixes (RFC 4760 section 4).
/// 5. MP_REACH_NLRI: its family and next hop, then its prefixes (RFC 4760 section 3).
/// 6. The routes of NLRI and of MP_REACH_NLRI, if these have prefixes: ORIGIN, AS_PATH and a next hop are mandatory (RFC 4271
///    section 5), that of NEXT_HOP for the first, that of MP_REACH_NLRI for the second (RFC 4760 section 3).
fn read_parts(
    alloc: Global,
    withdrawn_field: &[u8],
    attribute_field: &[u8],
    announced_field: &[u8],
    width: AsWidth,
) -> Result<Update, ReadFault>
    ensures { Exactly changes_reported (IsUpdateOf width withdrawn_field.now attribute_field.now announced_field.now) result }
{
    let withdrawn = read_prefixes(alloc, Family::Ipv4, withdrawn_field)?;
    let attributes = read_attributes(alloc, attribute_field, width)?;
    let announced = read_prefixes(alloc, Family::Ipv4, announced_field)?;
    let unreachable = unreached_by(alloc, &attributes.unreach)?;
    let Some(reach) = reach_of(&attributes.reach) else {
        return Err(ReadFault::Malformed);
    };
    let reached = reached_by(alloc, &reach)?;
    let of = Announcing {
        attributes,
        announced,
        next_hop: hop_in(&reach),
        reached,
    };
    let (first, second) = announcements(alloc, of, attribute_field, width)?;
    Ok(Update {
        withdrawn,
        unreachable,
        announced: first,
        reachable: second,
    })
}

/// What the octets after the header of an UPDATE withdraw and announce.
pub(crate) fn read_update(alloc: Global, bytes: &[u8], width: AsWidth) -> Result<Update, ReadFault>
    ensures { Exactly changes_reported (IsUpdate width bytes.now) result }
{
    let Some((withdrawn_field, more)) = counted_at(bytes) else {
        return Err(ReadFault::Malformed);
    };
    let Some((attribute_field, announced_field)) = counted_at(more) else {
        return Err(ReadFault::Malformed);
    };
    read_parts(
        alloc,
        withdrawn_field,
        attribute_field,
        announced_field,
        width,
    )
}
