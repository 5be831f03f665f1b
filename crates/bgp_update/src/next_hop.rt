//! Next hops, and the readers of MP_REACH_NLRI (RFC 4760).

ghost use Rattle.std.specs.Prelude.{◌≡◌, ◌≤◌, ℕ, List, length, Option, IfSome, IfNone};
ghost use Rattle.route_model.specs.declared.route.NextHop.{NextHop};
ghost use Rattle.bgp_update.specs.NextHops.{OrNone, IsHop, IsAfter, family_at, IsReach, IsReached, hop_of};

use crate::attribute::ValueOctets;
use crate::reach::Reach;
use route_model::octets::u16_at;
use route_model::wire::Family;
use route_model::{Address, NextHop};

/// The next hop in these octets, or none.
pub(crate) fn hop_of(octets: &[u8]) -> Option<NextHop>
    ensures found { IfSome result (λ hop. IsHop octets.now hop) }
    ensures none { IfNone result ((hop : NextHop) → IsHop octets.now hop → ⊥) }
{
    match octets.len() {
        4 => Some(NextHop::One(Address::V4(<[u8; 4]>::try_from(octets).unwrap()))),
        16 => Some(NextHop::One(Address::V6(<[u8; 16]>::try_from(octets).unwrap()))),
        32 => Some(NextHop::Pair(<[u8; 32]>::try_from(octets).unwrap())),
        _ => None,
    }
}

/// The family at the front, of the two that are read.
pub(crate) fn family_in(value: &[u8]) -> Option<Family>
    requires { 3 ≤ length value.now }
    ensures { result ≡ family_at value.now }
{
    let afi = u16_at(value, 0);
    let safi = value[2];
    if afi == 1 && safi == 1 {
        Some(Family::Ipv4)
    } else if afi == 2 && safi == 1 {
        Some(Family::Ipv6)
    } else {
        None
    }
}

/// The next hop and the prefixes after AFI and SAFI.
fn hop_and_prefixes(family: Family, beyond: &[u8]) -> Option<(NextHop, &[u8])>
    ensures found { IfSome result (λ r. IsAfter family beyond.now r.0 r.1.now) }
    ensures none { IfNone result ((hop : NextHop) (nlri : List ℕ) → IsAfter family beyond.now hop nlri → ⊥) }
{
    let (&size, rest) = beyond.split_first()?;
    let size = size as usize;
    if rest.len() < size + 1 {
        return None;
    }
    if family == Family::Ipv6 && size == 4 {
        return None;
    }
    let (octets, more) = rest.split_at(size);
    let hop = hop_of(octets)?;
    Some((hop, more.split_at(1).1))
}

/// Reads the value of MP_REACH_NLRI: nothing if its family isn't read. None if it is malformed. Its fields (RFC 4760 section 3):
///
/// 1. AFI, two octets, and SAFI, one. Of another family than IPv4 or IPv6 unicast nothing more is read.
/// 2. The length of the next hop, one octet, and the next hop: 4, 16 or 32 octets, for IPv6 16 or 32 (RFC 2545 section 3).
/// 3. A reserved octet, of any value.
/// 4. The prefixes, to the end; they are read later, by `read_prefixes`.
pub(crate) fn reach_in<'a>(value: &ValueOctets<'a>) -> Option<Option<Reach<'a>>>
    ensures { OrNone (IsReach value.now) result }
{
    let octets = value.as_slice();
    if octets.len() < 3 {
        return None;
    }
    let Some(family) = family_in(octets) else {
        return Some(None);
    };
    let Some((next_hop, nlri)) = hop_and_prefixes(family, octets.split_at(3).1) else {
        return None;
    };
    Some(Some(Reach {
        family,
        next_hop,
        nlri: ValueOctets::new(nlri),
    }))
}

/// Reads MP_REACH_NLRI, if it is present. None if it is malformed.
pub(crate) fn reach_of<'a>(value: &Option<ValueOctets<'a>>) -> Option<Option<Reach<'a>>>
    ensures { OrNone (IsReached value.now) result }
{
    match value {
        None => Some(None),
        Some(value) => reach_in(value),
    }
}

/// The next hop of a reach.
pub(crate) fn hop_in(reach: &Option<Reach<'_>>) -> Option<NextHop>
    ensures { result ≡ hop_of reach.now }
{
    match reach {
        None => None,
        Some(reach) => Some(reach.next_hop),
    }
}
