//! The body of a peer table.

ghost use Rattle.std.specs.Prelude.{◌≡◌, ◌+◌, ◌≤◌, ℕ, length};
ghost use Rattle.route_model.specs.Sequence.{Sequence};
ghost use Rattle.route_model.specs.Reading.{Exactly, AtFront};
ghost use Rattle.mrt_records.specs.PeerTables.{IsPeerField, IsPeerTable, family_of_type, width_of_type};

use crate::neighbor::Neighbor;
use crate::session::{address_at, address_len};
use route_model::octets::{ReadFault, u16_at};
use route_model::wire::{AsWidth, Family, as_number_at, octets_of};
use std::alloc::Global;

/// The fewest octets that a peer has: its type, an identifier, an IPv4 address and an AS number of two octets.
const FEWEST: usize = 11;

fn family_of_peer(kind: u8) -> Family
    ensures { result ≡ family_of_type kind }
{
    if kind & 1 == 0 {
        Family::Ipv4
    } else {
        Family::Ipv6
    }
}

fn width_of_peer(kind: u8) -> AsWidth
    ensures { result ≡ width_of_type kind }
{
    if kind & 2 == 0 {
        AsWidth::Two
    } else {
        AsWidth::Four
    }
}

/// The peer at the front, and how many octets it takes.
fn peer_at(bytes: &[u8]) -> Option<(Neighbor, usize)>
    ensures { AtFront IsPeerField bytes.now result }
{
    if bytes.is_empty() {
        return None;
    }
    let kind = bytes[0];
    let family = family_of_peer(kind);
    let width = width_of_peer(kind);
    let end = 5 + address_len(family);
    let size = end + octets_of(width);
    if bytes.len() < size {
        return None;
    }
    let address = address_at(family, bytes, 5);
    let as_number = as_number_at(width, bytes, end);
    Some((Neighbor { address, as_number }, size))
}

/// The peers that follow one another over all of the octets. The count is the record's; room is
/// made for no more than the octets can have.
fn read_peers(alloc: Global, bytes: &[u8], count: usize) -> Result<Vec<Neighbor>, ReadFault>
    ensures { Exactly (λ v. v.items) (Sequence IsPeerField bytes.now) result }
{
    let mut peers = Vec::with_capacity(alloc, count.min(bytes.len() / FEWEST))?;
    let mut rest = bytes;
    while !rest.is_empty() {
        let Some((peer, size)) = peer_at(rest) else {
            return Err(ReadFault::Malformed);
        };
        peers.push(peer)?;
        rest = rest.split_at(size).1;
    }
    Ok(peers)
}

/// The peers of a table's body. Its fields, in this order (RFC 6396 section 4.3.1):
///
/// 1. The collector's identifier, four octets, which is ignored.
/// 2. The length of the view's name, two octets, and the name, which is ignored.
/// 3. The count of peers, two octets.
/// 4. Peers to the end: the type, one octet, whose lowest bit is set for an address of IPv6, and the next one for an AS number of four
///    octets; the identifier, four octets, which is ignored; the address; the AS number.
/// 5. The number of peers must be the count.
pub(crate) fn read_peer_table(alloc: Global, bytes: &[u8]) -> Result<Vec<Neighbor>, ReadFault>
    ensures { Exactly (λ v. v.items) (IsPeerTable bytes.now) result }
{
    if bytes.len() < 6 {
        return Err(ReadFault::Malformed);
    }
    let count_at = 6 + u16_at(bytes, 4) as usize;
    if bytes.len() < count_at + 2 {
        return Err(ReadFault::Malformed);
    }
    let count = u16_at(bytes, count_at) as usize;
    let peers = read_peers(alloc, bytes.split_at(count_at + 2).1, count)?;
    if peers.len() != count {
        return Err(ReadFault::Malformed);
    }
    Ok(peers)
}
