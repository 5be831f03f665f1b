//! The values of single attributes.

ghost use Rattle.std.specs.Prelude.{◌≡◌, ◌≤◌, ℕ, List, Bool, length, Option, IfSome, IfNone};
ghost use Rattle.route_model.specs.Reading.{Exactly};
ghost use Rattle.route_model.specs.declared.route.Origin.{Origin};
ghost use Rattle.route_model.specs.declared.route.Aggregator.{Aggregator};
ghost use Rattle.bgp_update.specs.AttributeFields.{value_of};
ghost use Rattle.bgp_update.specs.Values.{Optionally, IsOrigin, IsNumber, IsFour, IsFlag, IsAggregator, as4_aggregator, as4_path, counted_aggregator, is_aside, longer_aggregator};

use crate::attribute::{PathAttribute, ValueOctets, value_in};
use route_model::octets::{ReadFault, u16_at, u32_at};
use route_model::wire::AsWidth;
use route_model::{Aggregator, Origin};

/// The type codes of the attributes that are read (RFC 4271 section 5, RFC 4760, RFC 6793).
pub(crate) const ORIGIN: u8 = 1;

pub(crate) const AS_PATH: u8 = 2;

pub(crate) const NEXT_HOP: u8 = 3;

pub(crate) const MULTI_EXIT_DISC: u8 = 4;

pub(crate) const LOCAL_PREF: u8 = 5;

pub(crate) const ATOMIC_AGGREGATE: u8 = 6;

pub(crate) const AGGREGATOR: u8 = 7;

pub(crate) const MP_REACH_NLRI: u8 = 14;

pub(crate) const MP_UNREACH_NLRI: u8 = 15;

pub(crate) const AS4_PATH: u8 = 17;

pub(crate) const AS4_AGGREGATOR: u8 = 18;

/// The AS number of two octets that is used for one that needs four (RFC 6793 section 9).
const AS_TRANS: u32 = 23456;

/// ORIGIN, if it is present.
pub(crate) fn origin_in(list: &[PathAttribute<'_>]) -> Result<Option<Origin>, ReadFault>
    ensures { Exactly (λ o. o) (λ (o : Option Origin). Optionally IsOrigin (value_of 1 list.now) o) result }
{
    let Some(value) = value_in(list, ORIGIN) else {
        return Ok(None);
    };
    match value.as_slice() {
        [0] => Ok(Some(Origin::Igp)),
        [1] => Ok(Some(Origin::Egp)),
        [2] => Ok(Some(Origin::Incomplete)),
        _ => Err(ReadFault::Malformed),
    }
}

/// A number of four octets, if an attribute of this type is present.
pub(crate) fn number_in(list: &[PathAttribute<'_>], kind: u8) -> Result<Option<u32>, ReadFault>
    ensures { Exactly (λ o. o) (λ (o : Option ℕ). Optionally IsNumber (value_of kind list.now) o) result }
{
    let Some(value) = value_in(list, kind) else {
        return Ok(None);
    };
    let octets = value.as_slice();
    if octets.len() != 4 {
        return Err(ReadFault::Malformed);
    }
    Ok(Some(u32_at(octets, 0)))
}

/// The four octets of NEXT_HOP, if it is present.
pub(crate) fn next_hop_in(list: &[PathAttribute<'_>]) -> Result<Option<[u8; 4]>, ReadFault>
    ensures { Exactly (λ o. o) (λ (o : Option (List ℕ)). Optionally IsFour (value_of 3 list.now) o) result }
{
    let Some(value) = value_in(list, NEXT_HOP) else {
        return Ok(None);
    };
    let octets = value.as_slice();
    if octets.len() != 4 {
        return Err(ReadFault::Malformed);
    }
    Ok(Some(<[u8; 4]>::try_from(octets).unwrap()))
}

/// Whether ATOMIC_AGGREGATE is present.
pub(crate) fn atomic_in(list: &[PathAttribute<'_>]) -> Result<bool, ReadFault>
    ensures { Exactly (λ b. b) (λ (b : Bool). IsFlag (value_of 6 list.now) b) result }
{
    let Some(value) = value_in(list, ATOMIC_AGGREGATE) else {
        return Ok(false);
    };
    if !value.as_slice().is_empty() {
        return Err(ReadFault::Malformed);
    }
    Ok(true)
}

/// The AGGREGATOR in these octets: their number determines the width of its AS number.
fn aggregator_of(octets: &[u8]) -> Option<Aggregator>
    ensures found { IfSome result (λ a. IsAggregator octets.now a) }
    ensures none { IfNone result ((a : Aggregator) → IsAggregator octets.now a → ⊥) }
{
    match octets.len() {
        6 => Some(Aggregator {
            as_number: u32::from(u16_at(octets, 0)),
            address: <[u8; 4]>::try_from(octets.split_at(2).1).unwrap(),
        }),
        8 => Some(longer_of(octets)),
        _ => None,
    }
}

/// The aggregator with an AS number of four octets.
fn longer_of(octets: &[u8]) -> Aggregator
    requires { length octets.now ≡ 8 }
    ensures { result ≡ longer_aggregator octets.now }
{
    Aggregator {
        as_number: u32_at(octets, 0),
        address: <[u8; 4]>::try_from(octets.split_at(4).1).unwrap(),
    }
}

/// AGGREGATOR, if it is present.
pub(crate) fn aggregator_in(list: &[PathAttribute<'_>]) -> Result<Option<Aggregator>, ReadFault>
    ensures { Exactly (λ o. o) (λ (o : Option Aggregator). Optionally IsAggregator (value_of 7 list.now) o) result }
{
    let Some(value) = value_in(list, AGGREGATOR) else {
        return Ok(None);
    };
    let Some(aggregator) = aggregator_of(value.as_slice()) else {
        return Err(ReadFault::Malformed);
    };
    Ok(Some(aggregator))
}

/// AS4_AGGREGATOR, if AS numbers have two octets and it has eight.
pub(crate) fn as4_aggregator_in(list: &[PathAttribute<'_>], width: AsWidth) -> Option<Aggregator>
    ensures { result ≡ as4_aggregator width list.now }
{
    match width {
        AsWidth::Two => {
            let value = value_in(list, AS4_AGGREGATOR)?;
            let octets = value.as_slice();
            if octets.len() == 8 {
                Some(longer_of(octets))
            } else {
                None
            }
        }
        AsWidth::Four => None,
    }
}

/// Whether AS4_PATH and AS4_AGGREGATOR are ignored.
fn are_aside(own: &Option<Aggregator>, longer: &Option<Aggregator>) -> bool
    ensures { result ≡ is_aside own.now longer.now }
{
    match (own, longer) {
        (Some(own), Some(_)) => own.as_number != AS_TRANS,
        _ => false,
    }
}

/// The octets of AS4_PATH, unless it is ignored.
pub(crate) fn as4_path_in<'a>(
    list: &[PathAttribute<'a>],
    width: AsWidth,
    own: &Option<Aggregator>,
) -> Option<ValueOctets<'a>>
    ensures { result ≡ as4_path width list.now own.now }
{
    match width {
        AsWidth::Two => {
            if are_aside(own, &as4_aggregator_in(list, width)) {
                None
            } else {
                value_in(list, AS4_PATH)
            }
        }
        AsWidth::Four => None,
    }
}

/// The aggregator of the route, of AGGREGATOR and AS4_AGGREGATOR (RFC 6793 section 4.2.3):
///
/// 1. Without AGGREGATOR there is none.
/// 2. If AGGREGATOR has AS_TRANS, AS4_AGGREGATOR replaces it, if there is one.
/// 3. Otherwise it is AGGREGATOR's.
pub(crate) fn merge(own: Option<Aggregator>, longer: Option<Aggregator>) -> Option<Aggregator>
    ensures { result ≡ counted_aggregator own longer }
{
    match (own, longer) {
        (None, _) => None,
        (Some(own), None) => Some(own),
        (Some(own), Some(longer)) => {
            if own.as_number == AS_TRANS {
                Some(longer)
            } else {
                Some(own)
            }
        }
    }
}
