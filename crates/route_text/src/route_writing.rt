//! Texts of routes, written field by field.

ghost use Rattle.std.specs.Prelude.{◌≡◌, ◌<◌, ◌++◌, ◌∷◌, OnOk, string_bytes, take, drop};
ghost use Rattle.route_text.specs.AddressText.{ipv6_text};
ghost use Rattle.route_text.specs.RouteText.{numbers_text, segment_text, path_text, origin_text, next_hop_text, optional_text, aggregate_text, aggregator_text, attribute_text, attributes_text, way_text, preferences_text, additions_text, route_text};

use crate::address::{write_address, write_ipv6};
use crate::hexadecimal::{write_octet, write_octets};
use crate::number::write_number;
use route_model::{Address, Aggregator, Attribute, NextHop, Origin, Route, Segment};
use std::alloc::AllocError;

/// Writes the eight fields of a route at the end of `out`, with `|` between them: path, origin,
/// next hop, MED, LOCAL_PREF, `AG` or `NAG` for ATOMIC_AGGREGATE, aggregator and the other
/// attributes (RFC 4271 section 5.1). After an error the content of `out` is unspecified.
pub fn write_route(out: &mut String, route: &Route) -> Result<(), AllocError>
    ensures text { OnOk result (string_bytes out.new ≡ string_bytes out.old ++ route_text route.now) }
{
    write_way(out, route)?;
    out.push('|')?;
    write_preferences(out, route)?;
    out.push('|')?;
    write_additions(out, route)
}

/// Path, origin and next hop.
fn write_way(out: &mut String, route: &Route) -> Result<(), AllocError>
    ensures text { OnOk result (string_bytes out.new ≡ string_bytes out.old ++ way_text route.now) }
{
    write_path(out, route.path.as_slice())?;
    out.push('|')?;
    out.push_str(name_of(route.origin))?;
    out.push('|')?;
    write_next_hop(out, &route.next_hop)
}

/// MED, LOCAL_PREF and ATOMIC_AGGREGATE.
fn write_preferences(out: &mut String, route: &Route) -> Result<(), AllocError>
    ensures text { OnOk result (string_bytes out.new ≡ string_bytes out.old ++ preferences_text route.now) }
{
    write_optional(out, route.med)?;
    out.push('|')?;
    write_optional(out, route.local_pref)?;
    out.push('|')?;
    out.push_str(word_of(route.atomic_aggregate))
}

/// The aggregator and the other attributes.
fn write_additions(out: &mut String, route: &Route) -> Result<(), AllocError>
    ensures text { OnOk result (string_bytes out.new ≡ string_bytes out.old ++ additions_text route.now) }
{
    write_aggregator(out, &route.aggregator)?;
    out.push('|')?;
    write_attributes(out, route.others.as_slice())
}

fn write_numbers(out: &mut String, numbers: &[u32], separator: char) -> Result<(), AllocError>
    requires { separator < 128 }
    ensures text { OnOk result (string_bytes out.new ≡ string_bytes out.old ++ numbers_text separator numbers.now) }
{
    let Some((first, others)) = numbers.split_first() else {
        return Ok(());
    };
    write_number(out, u64::from(*first))?;
    for number in others {
        out.push(separator)?;
        write_number(out, u64::from(*number))?;
    }
    Ok(())
}

fn write_segment(out: &mut String, segment: &Segment) -> Result<(), AllocError>
    ensures text { OnOk result (string_bytes out.new ≡ string_bytes out.old ++ segment_text segment.now) }
{
    match segment {
        Segment::Set(numbers) => {
            out.push('{')?;
            write_numbers(out, numbers.as_slice(), ',')?;
            out.push('}')
        }
        Segment::Sequence(numbers) => write_numbers(out, numbers.as_slice(), ' '),
    }
}

fn write_path(out: &mut String, path: &[Segment]) -> Result<(), AllocError>
    ensures text { OnOk result (string_bytes out.new ≡ string_bytes out.old ++ path_text path.now) }
{
    let Some((first, others)) = path.split_first() else {
        return out.push('-');
    };
    write_segment(out, first)?;
    for segment in others {
        out.push(' ')?;
        write_segment(out, segment)?;
    }
    Ok(())
}

fn name_of(origin: Origin) -> &'static str
    ensures name { result.now ≡ origin_text origin }
{
    match origin {
        Origin::Igp => "IGP",
        Origin::Egp => "EGP",
        Origin::Incomplete => "INCOMPLETE",
    }
}

fn word_of(is_atomic: bool) -> &'static str
    ensures word { result.now ≡ aggregate_text is_atomic }
{
    if is_atomic { "AG" } else { "NAG" }
}

fn write_next_hop(out: &mut String, next_hop: &NextHop) -> Result<(), AllocError>
    ensures text { OnOk result (string_bytes out.new ≡ string_bytes out.old ++ next_hop_text next_hop.now) }
{
    match next_hop {
        NextHop::One(address) => write_address(out, address),
        NextHop::Pair(octets) => write_pair(out, octets),
    }
}

/// The global and the link-local address of a next hop (RFC 2545 section 3).
fn write_pair(out: &mut String, octets: &[u8; 32]) -> Result<(), AllocError>
    ensures text { OnOk result (string_bytes out.new ≡ string_bytes out.old ++ (ipv6_text (take 16 octets.now) ++ 32 ∷ ipv6_text (drop 16 octets.now))) }
{
    let (global, local) = octets.split_at(16);
    write_ipv6(out, <[u8; 16]>::try_from(global).unwrap())?;
    out.push(' ')?;
    write_ipv6(out, <[u8; 16]>::try_from(local).unwrap())
}

fn write_optional(out: &mut String, number: Option<u32>) -> Result<(), AllocError>
    ensures text { OnOk result (string_bytes out.new ≡ string_bytes out.old ++ optional_text number) }
{
    match number {
        Some(number) => write_number(out, u64::from(number)),
        None => Ok(()),
    }
}

fn write_aggregator(out: &mut String, aggregator: &Option<Aggregator>) -> Result<(), AllocError>
    ensures text { OnOk result (string_bytes out.new ≡ string_bytes out.old ++ aggregator_text aggregator.now) }
{
    let Some(aggregator) = aggregator else {
        return Ok(());
    };
    write_number(out, u64::from(aggregator.as_number))?;
    out.push(' ')?;
    write_address(out, &Address::V4(aggregator.address))
}

fn write_attribute(out: &mut String, attribute: &Attribute) -> Result<(), AllocError>
    ensures text { OnOk result (string_bytes out.new ≡ string_bytes out.old ++ attribute_text attribute.now) }
{
    write_number(out, u64::from(attribute.kind))?;
    out.push('/')?;
    write_octet(out, attribute.flags)?;
    out.push('/')?;
    write_octets(out, attribute.value.as_slice())
}

fn write_attributes(out: &mut String, attributes: &[Attribute]) -> Result<(), AllocError>
    ensures text { OnOk result (string_bytes out.new ≡ string_bytes out.old ++ attributes_text attributes.now) }
{
    let Some((first, others)) = attributes.split_first() else {
        return Ok(());
    };
    write_attribute(out, first)?;
    for attribute in others {
        out.push(' ')?;
        write_attribute(out, attribute)?;
    }
    Ok(())
}
