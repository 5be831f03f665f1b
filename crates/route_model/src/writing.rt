//! Writers of fields, each at the end of what stands.

ghost use Rattle.std.specs.Prelude.{◌≡◌, ◌+◌, ◌*◌, ◌<◌, ◌++◌, ◌∷◌, [], OnOk, length, is_some};
ghost use Rattle.std.specs.List.{flat_map};
ghost use Rattle.std.specs.Int.{w16, w32, to_be_bytes};
ghost use Rattle.route_model.specs.Encoding.{numbers_octets, segment, segments_octets, next_hop, optional, aggregator, attribute, attributes_octets, presence, flag, origin_octet, route_octets};

use crate::address::Address;
use crate::attribute::{Attribute, Attributes};
use crate::path::{AsNumbers, Path, Segment};
use crate::route::{Aggregator, NextHop, Origin, Route};
use std::alloc::AllocError;

fn put_each_number(out: &mut Vec<u8>, numbers: &[u32]) -> Result<(), AllocError>
    ensures { OnOk result (out.new.items ≡ out.old.items ++ flat_map (to_be_bytes w32) numbers.now) }
{
    for n in numbers {
        out.extend_from_slice(&n.to_be_bytes())?;
    }
    Ok(())
}

fn put_numbers(out: &mut Vec<u8>, numbers: &AsNumbers) -> Result<(), AllocError>
    ensures { OnOk result (out.new.items ≡ out.old.items ++ numbers_octets numbers.now) }
{
    let numbers = numbers.as_slice();
    out.push(numbers.len() as u8)?;
    put_each_number(out, numbers)
}

fn put_segment(out: &mut Vec<u8>, s: &Segment) -> Result<(), AllocError>
    ensures { OnOk result (out.new.items ≡ out.old.items ++ segment s.now) }
{
    match s {
        Segment::Set(numbers) => {
            out.push(1)?;
            put_numbers(out, numbers)
        }
        Segment::Sequence(numbers) => {
            out.push(2)?;
            put_numbers(out, numbers)
        }
    }
}

fn put_each_segment(out: &mut Vec<u8>, segments: &[Segment]) -> Result<(), AllocError>
    ensures { OnOk result (out.new.items ≡ out.old.items ++ flat_map segment segments.now) }
{
    for s in segments {
        put_segment(out, s)?;
    }
    Ok(())
}

fn put_path(out: &mut Vec<u8>, path: &Path) -> Result<(), AllocError>
    ensures { OnOk result (out.new.items ≡ out.old.items ++ segments_octets path.now) }
{
    let segments = path.as_slice();
    out.extend_from_slice(&(segments.len() as u16).to_be_bytes())?;
    put_each_segment(out, segments)
}

fn put_next_hop(out: &mut Vec<u8>, hop: &NextHop) -> Result<(), AllocError>
    ensures { OnOk result (out.new.items ≡ out.old.items ++ next_hop hop.now) }
{
    match hop {
        NextHop::One(Address::V4(octets)) => {
            out.push(4)?;
            out.extend_from_slice(octets)?;
        }
        NextHop::One(Address::V6(octets)) => {
            out.push(16)?;
            out.extend_from_slice(octets)?;
        }
        NextHop::Pair(octets) => {
            out.push(32)?;
            out.extend_from_slice(octets)?;
        }
    }
    Ok(())
}

fn put_optional(out: &mut Vec<u8>, number: Option<u32>) -> Result<(), AllocError>
    ensures { OnOk result (out.new.items ≡ out.old.items ++ optional number) }
{
    if let Some(n) = number {
        out.extend_from_slice(&n.to_be_bytes())?;
    }
    Ok(())
}

fn put_aggregator(out: &mut Vec<u8>, of: &Option<Aggregator>) -> Result<(), AllocError>
    ensures { OnOk result (out.new.items ≡ out.old.items ++ aggregator of.now) }
{
    if let Some(a) = of {
        out.extend_from_slice(&a.as_number.to_be_bytes())?;
        out.extend_from_slice(&a.address)?;
    }
    Ok(())
}

fn put_attribute(out: &mut Vec<u8>, a: &Attribute) -> Result<(), AllocError>
    ensures { OnOk result (out.new.items ≡ out.old.items ++ attribute a.now) }
{
    let value = a.value.as_slice();
    out.push(a.kind)?;
    out.push(a.flags)?;
    out.extend_from_slice(&(value.len() as u16).to_be_bytes())?;
    out.extend_from_slice(value)?;
    Ok(())
}

fn put_each_attribute(out: &mut Vec<u8>, attributes: &[Attribute]) -> Result<(), AllocError>
    ensures { OnOk result (out.new.items ≡ out.old.items ++ flat_map attribute attributes.now) }
{
    for a in attributes {
        put_attribute(out, a)?;
    }
    Ok(())
}

fn put_attributes(out: &mut Vec<u8>, attributes: &Attributes) -> Result<(), AllocError>
    ensures { OnOk result (out.new.items ≡ out.old.items ++ attributes_octets attributes.now) }
{
    let attributes = attributes.as_slice();
    out.extend_from_slice(&(attributes.len() as u16).to_be_bytes())?;
    put_each_attribute(out, attributes)
}

fn flag_of(present: bool) -> u8
    ensures value { result ≡ flag present }
    ensures within { result < 2 }
{
    if present { 1 } else { 0 }
}

fn presence_of(r: &Route) -> u8
    ensures { result ≡ presence r.now }
{
    flag_of(r.med.is_some())
        + 2 * flag_of(r.local_pref.is_some())
        + 4 * flag_of(r.atomic_aggregate)
        + 8 * flag_of(r.aggregator.is_some())
}

fn octet_of(origin: Origin) -> u8
    ensures { result ≡ origin_octet origin }
{
    match origin {
        Origin::Igp => 0,
        Origin::Egp => 1,
        Origin::Incomplete => 2,
    }
}

/// Writes the encoding of a route.
#[tactic(auto, unfolding(crate::specs::Encoding::route_octets))]
pub(crate) fn put_route(out: &mut Vec<u8>, r: &Route) -> Result<(), AllocError>
    ensures { OnOk result (out.new.items ≡ out.old.items ++ route_octets r.now) }
{
    out.push(octet_of(r.origin))?;
    put_path(out, &r.path)?;
    put_next_hop(out, &r.next_hop)?;
    out.push(presence_of(r))?;
    put_optional(out, r.med)?;
    put_optional(out, r.local_pref)?;
    put_aggregator(out, &r.aggregator)?;
    put_attributes(out, &r.others)
}
