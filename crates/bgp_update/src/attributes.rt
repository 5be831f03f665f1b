//! Reads a list of path attributes.

ghost use Rattle.std.specs.Prelude.{◌≡◌, ◌<◌, Option, List, length, IfOk, IfSome};
ghost use Rattle.route_model.specs.Reading.{Exactly};
ghost use Rattle.route_model.specs.Widths.{width_of};
ghost use Rattle.route_model.specs.declared.path.Segment.{Segment};
ghost use Rattle.bgp_update.specs.AttributeFields.{NoneTwice, value_of};
ghost use Rattle.bgp_update.specs.Values.{Optionally};
ghost use Rattle.bgp_update.specs.Paths.{IsPath};
ghost use Rattle.bgp_update.specs.Joining.{IsLaid, NoneEmpty};
ghost use Rattle.bgp_update.specs.Readings.{IsWholePath, IsReading, AreAttributes};

use crate::attribute::{PathAttribute, ValueOctets, attribute_list, value_in};
use crate::joining::{count_of, join};
use crate::others::others_in;
use crate::reading::PathAttributes;
use crate::segments::read_segments;
use crate::values::{
    AS_PATH, LOCAL_PREF, MP_REACH_NLRI, MP_UNREACH_NLRI, MULTI_EXIT_DISC, aggregator_in,
    as4_aggregator_in, as4_path_in, atomic_in, merge, next_hop_in, number_in, origin_in,
};
use route_model::octets::ReadFault;
use route_model::wire::AsWidth;
use route_model::{Aggregator, Path, Segment};
use std::alloc::{AllocError, Global};

/// The segments of AS4_PATH, or none if it is malformed.
fn longer_segments(alloc: Global, value: &[u8]) -> Result<Option<Vec<Segment>>, AllocError>
    requires { length value.now < 65536 }
    ensures found { IfOk result (λ o. IfSome o (λ v. IsPath 4 value.now v.items × (length v.items < 32768))) }
    ensures none { IfOk result (λ o. o ≡ None → (path : List Segment) → IsPath 4 value.now path → ⊥) }
{
    match read_segments(alloc, value, AsWidth::Four) {
        Ok(segments) => Ok(Some(segments)),
        Err(ReadFault::Malformed) => Ok(None),
        Err(ReadFault::OutOfMemory) => Err(AllocError),
    }
}

/// The path of AS_PATH merged with that of AS4_PATH.
fn lay(
    alloc: Global,
    own: Vec<Segment>,
    longer: Option<ValueOctets<'_>>,
) -> Result<Vec<Segment>, AllocError>
    requires none_empty { NoneEmpty own.items }
    requires few { length own.items < 32768 }
    ensures laid { IfOk result (λ v. IsLaid longer.entry own.items v.items) }
    ensures few { IfOk result (λ v. length v.items < 65536) }
{
    let Some(value) = longer else {
        return Ok(own);
    };
    let Some(longer) = longer_segments(alloc, value.as_slice())? else {
        return Ok(own);
    };
    if count_of(&own) < count_of(&longer) {
        return Ok(own);
    }
    let path = join(alloc, own, longer)?;
    Ok(path)
}

/// The path of AS_PATH, if that is present, merged with that of AS4_PATH. The steps of RFC 6793:
///
/// 1. AS4_PATH is ignored if AS numbers have four octets (section 4.1).
/// 2. AS4_PATH is ignored if AGGREGATOR has another AS number than AS_TRANS, and there is an AS4_AGGREGATOR of eight octets (section 4.2.3).
/// 3. AS4_PATH is ignored if it is malformed (section 6).
/// 4. AS4_PATH is ignored if it counts more AS numbers than AS_PATH (section 4.2.3). Otherwise the two are merged (`join`).
fn path_in(
    alloc: Global,
    list: &[PathAttribute<'_>],
    width: AsWidth,
    aggregator: &Option<Aggregator>,
) -> Result<Option<Path>, ReadFault>
    ensures { Exactly (λ o. o) (λ (o : Option (List Segment)). IsWholePath width list.now aggregator.now o) result }
{
    let Some(value) = value_in(list, AS_PATH) else {
        return Ok(None);
    };
    let own = read_segments(alloc, value.as_slice(), width)?;
    let longer = as4_path_in(list, width, aggregator);
    let path = lay(alloc, own, longer)?;
    Ok(Some(Path::new(path)))
}

/// Reads attributes of which no type occurs twice.
fn reading_of<'a>(
    alloc: Global,
    list: &[PathAttribute<'a>],
    width: AsWidth,
) -> Result<PathAttributes<'a>, ReadFault>
    requires { NoneTwice list.now }
    ensures { Exactly (λ r. r) (IsReading width list.now) result }
{
    let origin = origin_in(list)?;
    let own = aggregator_in(list)?;
    let path = path_in(alloc, list, width, &own)?;
    let next_hop = next_hop_in(list)?;
    let med = number_in(list, MULTI_EXIT_DISC)?;
    let local_pref = number_in(list, LOCAL_PREF)?;
    let atomic_aggregate = atomic_in(list)?;
    let others = others_in(alloc, list)?;
    Ok(PathAttributes {
        origin,
        path,
        next_hop,
        med,
        local_pref,
        atomic_aggregate,
        aggregator: merge(own, as4_aggregator_in(list, width)),
        reach: value_in(list, MP_REACH_NLRI),
        unreach: value_in(list, MP_UNREACH_NLRI),
        others,
    })
}

/// Reads the list of path attributes in all of the octets, at the width of AS numbers that the session used
/// (RFC 4271 section 4.3, RFC 6793). Malformed if an attribute runs past the octets, a type occurs twice, or the
/// value of a type that is read isn't valid for it; AS4_PATH and AS4_AGGREGATOR are never a fault, and
/// MP_REACH_NLRI and MP_UNREACH_NLRI aren't checked here. `OutOfMemory` if an allocation failed.
pub fn read_attributes(
    alloc: Global,
    bytes: &[u8],
    width: AsWidth,
) -> Result<PathAttributes<'_>, ReadFault>
    ensures attributes { Exactly (λ r. r) (AreAttributes width bytes.now) result }
{
    let list = attribute_list(alloc, bytes)?;
    reading_of(alloc, &list, width)
}
