//! Readers of fields, from left to right.

ghost use Rattle.std.specs.Prelude.{◌≡◌, List, length, IfOk, Ok};
ghost use Rattle.std.specs.Int.{w16, w32, w64};
ghost use Rattle.route_model.specs.inner.Codec.{Gives, Reads, octet_at, octets_at, number_at, repeat, peer_at, segment_at, path_at, next_hop_at, optional_at, aggregator_at, attribute_at, attributes_at, route_at};

use crate::address::Address;
use crate::attribute::{Attribute, AttributeValue, Attributes};
use crate::fault::{NoEncoding, ReadError};
use crate::path::{AsNumbers, Path, Segment};
use crate::peer::Peer;
use crate::route::{Aggregator, NextHop, Origin, Route};
use std::alloc::Global;

pub(crate) fn read_octet(bytes: &[u8]) -> Result<(u8, &[u8]), NoEncoding>
    ensures { Reads (λ x. (x.0, x.1.now)) result (octet_at bytes.now) }
{
    match bytes {
        [] => Err(NoEncoding),
        [first, rest @ ..] => Ok((*first, rest)),
    }
}

pub(crate) fn read_octets(count: usize, bytes: &[u8]) -> Result<(&[u8], &[u8]), NoEncoding>
    ensures read { Reads (λ x. (x.0.now, x.1.now)) result (octets_at count bytes.now) }
    ensures count { IfOk result (λ x. length x.0.now ≡ count) }
{
    if bytes.len() < count {
        return Err(NoEncoding);
    }
    Ok(bytes.split_at(count))
}

pub(crate) fn read_u16(bytes: &[u8]) -> Result<(u16, &[u8]), NoEncoding>
    ensures { Reads (λ x. (x.0, x.1.now)) result (number_at w16 bytes.now) }
{
    if bytes.len() < 2 {
        return Err(NoEncoding);
    }
    let (front, rest) = bytes.split_at(2);
    Ok((u16::from_be_bytes([front[0], front[1]]), rest))
}

pub(crate) fn read_u32(bytes: &[u8]) -> Result<(u32, &[u8]), NoEncoding>
    ensures { Reads (λ x. (x.0, x.1.now)) result (number_at w32 bytes.now) }
{
    if bytes.len() < 4 {
        return Err(NoEncoding);
    }
    let (front, rest) = bytes.split_at(4);
    Ok((
        u32::from_be_bytes([front[0], front[1], front[2], front[3]]),
        rest,
    ))
}

#[tactic(auto, unfolding(crate::specs::inner::Codec::peer_at))]
pub(crate) fn read_peer(bytes: &[u8]) -> Result<(Peer, &[u8]), NoEncoding>
    ensures { Reads (λ x. (x.0, x.1.now)) result (peer_at bytes.now) }
{
    let (collector, rest) = read_octet(bytes)?;
    let (family, rest) = read_octet(rest)?;
    let (wide, rest) = read_octets(16, rest)?;
    let Some(address) = Address::from_wide(family, wide) else {
        return Err(NoEncoding);
    };
    let (as_number, rest) = read_u32(rest)?;
    let peer = Peer {
        collector,
        address,
        as_number,
    };
    Ok((peer, rest))
}

fn read_numbers(alloc: Global, count: u8, bytes: &[u8]) -> Result<(Vec<u32>, &[u8]), ReadError>
    ensures read { Gives (λ x. (x.0.items, x.1.now)) result (repeat (number_at w32) count bytes.now) }
    ensures count { IfOk result (λ x. length x.0.items ≡ count) }
{
    let mut items = Vec::with_capacity(alloc, (count as usize).min(bytes.len() / 4))?;
    let mut rest = bytes;
    for _ in 0..count {
        let (item, after) = read_u32(rest)?;
        items.push(item)?;
        rest = after;
    }
    Ok((items, rest))
}

#[tactic(auto, unfolding(crate::specs::inner::Codec::segment_at))]
fn read_segment(alloc: Global, bytes: &[u8]) -> Result<(Segment, &[u8]), ReadError>
    ensures { Gives (λ x. (x.0, x.1.now)) result (segment_at bytes.now) }
{
    let (kind, rest) = read_octet(bytes)?;
    let (count, rest) = read_octet(rest)?;
    if count == 0 {
        return Err(ReadError::Unencoded);
    }
    let (items, rest) = read_numbers(alloc, count, rest)?;
    let numbers = AsNumbers::new(items);
    match kind {
        1 => Ok((Segment::Set(numbers), rest)),
        2 => Ok((Segment::Sequence(numbers), rest)),
        _ => Err(ReadError::Unencoded),
    }
}

fn read_segments(
    alloc: Global,
    count: u16,
    bytes: &[u8],
) -> Result<(Vec<Segment>, &[u8]), ReadError>
    ensures read { Gives (λ x. (x.0.items, x.1.now)) result (repeat segment_at count bytes.now) }
    ensures count { IfOk result (λ x. length x.0.items ≡ count) }
{
    let mut items = Vec::with_capacity(alloc, (count as usize).min(bytes.len() / 6))?;
    let mut rest = bytes;
    for _ in 0..count {
        let (item, after) = read_segment(alloc, rest)?;
        items.push(item)?;
        rest = after;
    }
    Ok((items, rest))
}

#[tactic(auto, unfolding(crate::specs::inner::Codec::path_at))]
fn read_path(alloc: Global, bytes: &[u8]) -> Result<(Path, &[u8]), ReadError>
    ensures { Gives (λ x. (x.0, x.1.now)) result (path_at bytes.now) }
{
    let (count, rest) = read_u16(bytes)?;
    let (segments, rest) = read_segments(alloc, count, rest)?;
    Ok((Path::new(segments), rest))
}

#[tactic(auto, unfolding(crate::specs::inner::Codec::next_hop_at))]
fn read_next_hop(bytes: &[u8]) -> Result<(NextHop, &[u8]), NoEncoding>
    ensures { Reads (λ x. (x.0, x.1.now)) result (next_hop_at bytes.now) }
{
    let (len, rest) = read_octet(bytes)?;
    let (octets, rest) = read_octets(len as usize, rest)?;
    let hop = match octets.len() {
        4 => NextHop::One(Address::V4(<[u8; 4]>::try_from(octets).unwrap())),
        16 => NextHop::One(Address::V6(<[u8; 16]>::try_from(octets).unwrap())),
        32 => NextHop::Pair(<[u8; 32]>::try_from(octets).unwrap()),
        _ => return Err(NoEncoding),
    };
    Ok((hop, rest))
}

#[tactic(auto, unfolding(crate::specs::inner::Codec::optional_at))]
fn read_optional(present: bool, bytes: &[u8]) -> Result<(Option<u32>, &[u8]), NoEncoding>
    ensures { Reads (λ x. (x.0, x.1.now)) result (optional_at present bytes.now) }
{
    if !present {
        return Ok((None, bytes));
    }
    let (number, rest) = read_u32(bytes)?;
    Ok((Some(number), rest))
}

#[tactic(auto, unfolding(crate::specs::inner::Codec::aggregator_at))]
fn read_aggregator(present: bool, bytes: &[u8]) -> Result<(Option<Aggregator>, &[u8]), NoEncoding>
    ensures { Reads (λ x. (x.0, x.1.now)) result (aggregator_at present bytes.now) }
{
    if !present {
        return Ok((None, bytes));
    }
    let (as_number, rest) = read_u32(bytes)?;
    let (address, rest) = read_octets(4, rest)?;
    let address = <[u8; 4]>::try_from(address).unwrap();
    Ok((Some(Aggregator { as_number, address }), rest))
}

#[tactic(auto, unfolding(crate::specs::inner::Codec::attribute_at))]
fn read_attribute(alloc: Global, bytes: &[u8]) -> Result<(Attribute, &[u8]), ReadError>
    ensures { Gives (λ x. (x.0, x.1.now)) result (attribute_at bytes.now) }
{
    let (kind, rest) = read_octet(bytes)?;
    let (flags, rest) = read_octet(rest)?;
    let (len, rest) = read_u16(rest)?;
    let (value, rest) = read_octets(len as usize, rest)?;
    let value = AttributeValue::new(Vec::from_slice(alloc, value)?);
    Ok((Attribute { kind, flags, value }, rest))
}

fn read_each_attribute(
    alloc: Global,
    count: u16,
    bytes: &[u8],
) -> Result<(Vec<Attribute>, &[u8]), ReadError>
    ensures read { Gives (λ x. (x.0.items, x.1.now)) result (repeat attribute_at count bytes.now) }
    ensures count { IfOk result (λ x. length x.0.items ≡ count) }
{
    let mut items = Vec::with_capacity(alloc, (count as usize).min(bytes.len() / 4))?;
    let mut rest = bytes;
    for _ in 0..count {
        let (item, after) = read_attribute(alloc, rest)?;
        items.push(item)?;
        rest = after;
    }
    Ok((items, rest))
}

#[tactic(auto, unfolding(crate::specs::inner::Codec::attributes_at))]
fn read_attributes(alloc: Global, bytes: &[u8]) -> Result<(Attributes, &[u8]), ReadError>
    ensures { Gives (λ x. (x.0, x.1.now)) result (attributes_at bytes.now) }
{
    let (count, rest) = read_u16(bytes)?;
    let (items, rest) = read_each_attribute(alloc, count, rest)?;
    match Attributes::try_new(items) {
        Some(attributes) => Ok((attributes, rest)),
        None => Err(ReadError::Unencoded),
    }
}

#[tactic(auto, unfolding(crate::specs::inner::Codec::route_at))]
pub(crate) fn read_route(alloc: Global, bytes: &[u8]) -> Result<(Route, &[u8]), ReadError>
    ensures { Gives (λ x. (x.0, x.1.now)) result (route_at bytes.now) }
{
    let (first, rest) = read_octet(bytes)?;
    let origin = match first {
        0 => Origin::Igp,
        1 => Origin::Egp,
        2 => Origin::Incomplete,
        _ => return Err(ReadError::Unencoded),
    };
    let (path, rest) = read_path(alloc, rest)?;
    let (next_hop, rest) = read_next_hop(rest)?;
    let (present, rest) = read_octet(rest)?;
    let (med, rest) = read_optional(present & 1 != 0, rest)?;
    let (local_pref, rest) = read_optional(present & 2 != 0, rest)?;
    let (aggregator, rest) = read_aggregator(present & 8 != 0, rest)?;
    let (others, rest) = read_attributes(alloc, rest)?;
    let route = Route {
        origin,
        path,
        next_hop,
        med,
        local_pref,
        atomic_aggregate: present & 4 != 0,
        aggregator,
        others,
    };
    Ok((route, rest))
}

pub(crate) fn read_u64(bytes: &[u8]) -> Result<(u64, &[u8]), NoEncoding>
    ensures { Reads (λ x. (x.0, x.1.now)) result (number_at w64 bytes.now) }
{
    if bytes.len() < 8 {
        return Err(NoEncoding);
    }
    let (front, rest) = bytes.split_at(8);
    let number = u64::from_be_bytes([
        front[0], front[1], front[2], front[3], front[4], front[5], front[6], front[7],
    ]);
    Ok((number, rest))
}
