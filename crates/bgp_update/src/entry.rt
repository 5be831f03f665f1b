//! The routes of RIB entries (RFC 6396 section 4.3.4).

ghost use Rattle.std.specs.Prelude.{◌≡◌, [], Option, IfSome, IfNone};
ghost use Rattle.route_model.specs.declared.route.NextHop.{NextHop};
ghost use Rattle.bgp_update.specs.NextHops.{OrNone, IsEntryHop, IsEntryReach, IsShort};
ghost use Rattle.bgp_update.specs.Routes.{entry_hop, entry_route_of, or_else};
ghost use Rattle.bgp_update.specs.Entries.{GivesRoute};

use crate::announcing::four_hop_of;
use crate::attribute::ValueOctets;
use crate::fault::MessageFault;
use crate::next_hop::{hop_in, hop_of, reach_in};
use crate::reading::PathAttributes;
use route_model::wire::Family;
use route_model::{MAX_ROUTE_LEN, NextHop, Origin, Path, Route};
use std::alloc::Global;

/// The next hop of the short form: its size, and its octets.
fn short_hop(octets: &[u8]) -> Option<NextHop>
    ensures found { IfSome result (λ hop. IsShort octets.now hop) }
    ensures none { IfNone result ((hop : NextHop) → IsShort octets.now hop → ⊥) }
{
    let (&size, rest) = octets.split_first()?;
    if rest.len() != size as usize {
        return None;
    }
    hop_of(rest)
}

/// The next hop that MP_REACH_NLRI gives an entry: in the short form, or in that of messages if the first
/// octet is zero, as some producers write it. None if it is malformed.
fn hop_of_value(value: &ValueOctets<'_>) -> Option<Option<NextHop>>
    ensures { OrNone (IsEntryHop value.now) result }
{
    let octets = value.as_slice();
    let Some(&first) = octets.first() else {
        return None;
    };
    if first == 0 {
        let Some(reach) = reach_in(value) else {
            return None;
        };
        return Some(hop_in(&reach));
    }
    let Some(hop) = short_hop(octets) else {
        return None;
    };
    Some(Some(hop))
}

/// The next hop that MP_REACH_NLRI gives an entry, if it is present. None if it is malformed.
fn hop_of_reach(value: &Option<ValueOctets<'_>>) -> Option<Option<NextHop>>
    ensures { OrNone (IsEntryReach value.now) result }
{
    match value {
        None => Some(None),
        Some(value) => hop_of_value(value),
    }
}

/// The next hop of an entry of this family, or none.
fn preferred(family: Family, next_hop: Option<NextHop>, reach: Option<NextHop>) -> Option<NextHop>
    ensures { result ≡ entry_hop family next_hop reach }
{
    match family {
        Family::Ipv4 => next_hop.or(reach),
        Family::Ipv6 => reach.or(next_hop),
    }
}

/// The path, or the empty one.
fn path_or_empty(alloc: Global, path: Option<Path>) -> Path
    ensures { result ≡ or_else path [] }
{
    match path {
        Some(path) => path,
        None => Path::new(Vec::new(alloc)),
    }
}

/// The route of these attributes and this next hop.
fn made(alloc: Global, attributes: PathAttributes<'_>, next_hop: Option<NextHop>) -> Option<Route>
    ensures { result ≡ entry_route_of attributes.entry next_hop }
{
    let next_hop = next_hop?;
    let path = path_or_empty(alloc, attributes.path);
    Some(Route {
        origin: attributes.origin.unwrap_or(Origin::Incomplete),
        path,
        next_hop,
        med: attributes.med,
        local_pref: attributes.local_pref,
        atomic_aggregate: attributes.atomic_aggregate,
        aggregator: attributes.aggregator,
        others: attributes.others,
    })
}

/// The route of a RIB entry with these attributes, in a record of this family (RFC 6396 section 4.3.4):
///
/// 1. The next hop of MP_REACH_NLRI is read, in the short form: its length and its octets (RFC 6396 section 4.3.4). If the first octet
///    is zero, the value is in the form of messages (RFC 4760 section 3).
/// 2. In an IPv4 record NEXT_HOP has precedence over it, in an IPv6 record it has precedence.
/// 3. Of the attributes that a message must have (RFC 4271 section 5) a missing ORIGIN counts as INCOMPLETE, a missing AS_PATH as empty.
///
/// MP_UNREACH_NLRI is ignored. Malformed if MP_REACH_NLRI is, or no attribute gives a next hop; `RouteTooLarge` if
/// the encoding of the route has more than 3,072 octets. Nothing is allocated.
pub fn entry_route(
    alloc: Global,
    attributes: PathAttributes<'_>,
    family: Family,
) -> Result<Route, MessageFault>
    ensures route { GivesRoute family attributes.entry result }
{
    let Some(reach) = hop_of_reach(&attributes.reach) else {
        return Err(MessageFault::Malformed);
    };
    let next_hop = preferred(family, four_hop_of(&attributes), reach);
    let Some(route) = made(alloc, attributes, next_hop) else {
        return Err(MessageFault::Malformed);
    };
    if route.encoded_len() > MAX_ROUTE_LEN {
        return Err(MessageFault::RouteTooLarge);
    }
    Ok(route)
}
