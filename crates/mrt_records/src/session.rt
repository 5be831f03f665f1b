//! The bodies of messages and state changes.

ghost use Rattle.std.specs.Prelude.{◌≡◌, ◌+◌, ◌≤◌, ℕ, List, length, drop, take, IfSome, IfNone, IfOk};
ghost use Rattle.route_model.specs.Octets.{number_at};
ghost use Rattle.route_model.specs.Reading.{Exactly};
ghost use Rattle.route_model.specs.PrefixFields.{address_size};
ghost use Rattle.mrt_records.specs.Sessions.{IsAddressOf, IsSession, IsMessageBody, IsStateChange};
ghost use Rattle.route_model.specs.Widths.{width_of};
ghost use Rattle.mrt_records.specs.declared.neighbor.Neighbor.{Neighbor};

use crate::neighbor::Neighbor;
use route_model::Address;
use route_model::octets::{ReadFault, u16_at};
use route_model::wire::{AsWidth, Family, as_number_at, octets_of};
use std::alloc::Global;

pub(crate) fn address_len(family: Family) -> usize
    ensures { result ≡ address_size family }
{
    match family {
        Family::Ipv4 => 4,
        Family::Ipv6 => 16,
    }
}

/// The address of this family at a place.
pub(crate) fn address_at(family: Family, bytes: &[u8], place: usize) -> Address
    requires { place + address_size family ≤ length bytes.now }
    ensures { IsAddressOf family (take (address_size family) (drop place bytes.now)) result }
{
    let rest = bytes.split_at(place).1;
    match family {
        Family::Ipv4 => Address::V4(<[u8; 4]>::try_from(rest.split_at(4).0).unwrap()),
        Family::Ipv6 => Address::V6(<[u8; 16]>::try_from(rest.split_at(16).0).unwrap()),
    }
}

/// The peer that a body names, and the octets after the two addresses. The fields of a body begin with (RFC 6396 sections 4.4.1 to 4.4.4):
///
/// 1. The AS numbers of the peer and of the collector, two octets each, in the AS4 forms four. The second is ignored.
/// 2. The interface index, two octets, which is ignored.
/// 3. The address family, two octets: 1 for IPv4, 2 for IPv6, and no other.
/// 4. The addresses of the peer and of the collector, four or sixteen octets each. The second is ignored.
fn session_of(width: AsWidth, bytes: &[u8]) -> Option<(Neighbor, &[u8])>
    ensures found { IfSome result (λ s. IsSession width bytes.now s.0 s.1.now) }
    ensures none { IfNone result ((peer : Neighbor) (rest : List ℕ) → IsSession width bytes.now peer rest → ⊥) }
{
    let start = 2 * octets_of(width) + 4;
    if bytes.len() < start {
        return None;
    }
    let family = match u16_at(bytes, start - 2) {
        1 => Family::Ipv4,
        2 => Family::Ipv6,
        _ => return None,
    };
    let end = start + 2 * address_len(family);
    if bytes.len() < end {
        return None;
    }
    let as_number = as_number_at(width, bytes, 0);
    let address = address_at(family, bytes, start);
    Some((Neighbor { address, as_number }, bytes.split_at(end).1))
}

/// The peer and the message of a message's body. After the addresses (RFC 6396 sections 4.4.2 and 4.4.3):
///
/// 5. One BGP message of at least 19 octets, whose own Length (RFC 4271 section 4.1) is exactly that of the octets.
pub(crate) fn read_message(
    alloc: Global,
    width: AsWidth,
    bytes: &[u8],
) -> Result<(Neighbor, Vec<u8>), ReadFault>
    ensures { Exactly (λ m. (m.0, m.1.items)) (λ (m : Neighbor × List ℕ). IsMessageBody width bytes.now m.0 m.1) result }
{
    let Some((peer, rest)) = session_of(width, bytes) else {
        return Err(ReadFault::Malformed);
    };
    if rest.len() < 19 || u16_at(rest, 16) as usize != rest.len() {
        return Err(ReadFault::Malformed);
    }
    let octets = Vec::from_slice(alloc, rest)?;
    Ok((peer, octets))
}

/// The peer and the new state of a state change's body. After the addresses (RFC 6396 sections 4.4.1 and 4.4.4):
///
/// 5. The old state, two octets, which is ignored.
/// 6. The new state, two octets, of any value. Nothing follows.
pub(crate) fn read_state_change(width: AsWidth, bytes: &[u8]) -> Option<(Neighbor, u16)>
    ensures found { IfSome result (λ s. IsStateChange width bytes.now s.0 s.1) }
    ensures none { IfNone result ((peer : Neighbor) (state : ℕ) → IsStateChange width bytes.now peer state → ⊥) }
{
    let Some((peer, rest)) = session_of(width, bytes) else {
        return None;
    };
    if rest.len() != 4 {
        return None;
    }
    Some((peer, u16_at(rest, 2)))
}
