//! Texts of the smaller fields of a route, read.

ghost use Rattle.std.specs.Prelude.{◌≡◌, ◌<◌, ◌^◌, ◌++◌, ℕ, Bool, Option, IfOk, IfSome, Ok, length};
ghost use Rattle.route_model.specs.declared.route.Aggregator.{Aggregator};
ghost use Rattle.route_model.specs.declared.route.NextHop.{NextHop};
ghost use Rattle.route_model.specs.declared.route.NextHop.TheVariants.{Pair};
ghost use Rattle.route_model.specs.declared.route.Origin.{Origin};
ghost use Rattle.route_model.specs.Encoding.{IsAggregator, IsNextHop};
ghost use Rattle.route_text.specs.RouteText.{origin_text, next_hop_text, optional_text, aggregate_text, aggregator_text};

use crate::address::{read_address, read_ipv4, read_ipv6};
use crate::cut::cut_at_first;
use crate::fault::BadText;
use crate::number::read_u32;
use route_model::{Address, Aggregator, NextHop, Origin};

pub(crate) fn read_origin(text: &str) -> Result<Origin, BadText>
    ensures only { (origin : Origin) → text.now ≡ origin_text origin → result ≡ Ok origin }
{
    if text == "IGP" {
        return Ok(Origin::Igp);
    }
    if text == "EGP" {
        return Ok(Origin::Egp);
    }
    if text == "INCOMPLETE" {
        return Ok(Origin::Incomplete);
    }
    Err(BadText)
}

pub(crate) fn read_aggregate(text: &str) -> Result<bool, BadText>
    ensures only { (is_atomic : Bool) → text.now ≡ aggregate_text is_atomic → result ≡ Ok is_atomic }
{
    if text == "AG" {
        return Ok(true);
    }
    if text == "NAG" {
        return Ok(false);
    }
    Err(BadText)
}

pub(crate) fn read_optional(text: &str) -> Result<Option<u32>, BadText>
    ensures only { (number : Option ℕ) → IfSome number (λ n. n < 2 ^ 32) → text.now ≡ optional_text number → result ≡ Ok number }
    ensures valid { IfOk result (λ number. IfSome number (λ n. n < 2 ^ 32)) }
{
    if text.is_empty() {
        return Ok(None);
    }
    let number = read_u32(text)?;
    Ok(Some(number))
}

pub(crate) fn read_aggregator(text: &str) -> Result<Option<Aggregator>, BadText>
    ensures only { (aggregator : Option Aggregator) → IfSome aggregator IsAggregator → text.now ≡ aggregator_text aggregator → result ≡ Ok aggregator }
    ensures valid { IfOk result (λ aggregator. IfSome aggregator IsAggregator) }
{
    if text.is_empty() {
        return Ok(None);
    }
    let Some((number, address)) = cut_at_first(text, ' ') else {
        return Err(BadText);
    };
    let as_number = read_u32(number)?;
    let address = read_ipv4(address)?;
    Ok(Some(Aggregator { as_number, address }))
}

pub(crate) fn read_next_hop(text: &str) -> Result<NextHop, BadText>
    ensures only { (next_hop : NextHop) → IsNextHop next_hop → text.now ≡ next_hop_text next_hop → result ≡ Ok next_hop }
    ensures valid { IfOk result IsNextHop }
{
    let Some((global, local)) = cut_at_first(text, ' ') else {
        let address = read_address(text)?;
        let _octets = address.as_slice();
        return Ok(NextHop::One(address));
    };
    let octets = pair_of(&read_ipv6(global)?, &read_ipv6(local)?);
    Ok(NextHop::Pair(octets))
}

/// The octets of a global and of a link-local address (RFC 2545 section 3).
fn pair_of(global: &[u8; 16], local: &[u8; 16]) -> [u8; 32]
    ensures octets { result ≡ global.now ++ local.now }
    ensures valid { IsNextHop (Pair result) }
{
    let mut octets = [0u8; 32];
    octets[..16].copy_from_slice(global);
    octets[16..].copy_from_slice(local);
    octets
}
