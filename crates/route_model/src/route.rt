//! Routes (RFC 4271 section 3.1).

ghost use Rattle.std.specs.Prelude.{◌≡◌, IfOk, IfSome, Some, length};
ghost use Rattle.route_model.specs.inner.Codec.{Gives, whole, route_at};
ghost use Rattle.route_model.specs.Encoding.{route_octets, IsRoute, EncodesRoute};

use crate::address::Address;
use crate::attribute::Attributes;
use crate::fault::ReadError;
use crate::measuring::route_len;
use crate::path::Path;
use crate::reading::read_route;
use crate::writing::put_route;
use std::alloc::{AllocError, Global};

/// How a route came into BGP.
#[derive(Clone, Copy, Debug, PartialEq, Eq)]
pub enum Origin {
    Igp,
    Egp,
    Incomplete,
}

/// The next hop as it was announced: one address, or an IPv6 address, the global one first, with its
/// link-local one (RFC 2545 section 3).
#[derive(Clone, Copy, Debug, PartialEq, Eq)]
pub enum NextHop {
    One(Address),
    Pair([u8; 32]),
}

/// The system that formed an aggregate (RFC 4271 section 4.3, AGGREGATOR).
#[derive(Clone, Copy, Debug, PartialEq, Eq)]
pub struct Aggregator {
    pub as_number: u32,
    pub address: [u8; 4],
}

/// What a peer announced about a prefix.
#[derive(Debug, Drop)]
pub struct Route {
    /// ORIGIN.
    pub origin: Origin,
    /// AS_PATH, with AS numbers of four octets.
    pub path: Path,
    /// NEXT_HOP, or the next hop of MP_REACH_NLRI (RFC 4760).
    pub next_hop: NextHop,
    /// MULTI_EXIT_DISC.
    pub med: Option<u32>,
    /// LOCAL_PREF.
    pub local_pref: Option<u32>,
    /// Whether ATOMIC_AGGREGATE stands.
    pub atomic_aggregate: bool,
    /// AGGREGATOR, with an AS number of four octets.
    pub aggregator: Option<Aggregator>,
    /// The attributes that are kept unread.
    pub others: Attributes,
}

impl Route {
    ghost use Rattle.route_model.specs.declared.route.Route.{Route};

    /// The length in octets of the route's encoding.
    pub fn encoded_len(&self) -> usize
        ensures len { result ≡ length (route_octets self.now) }
        ensures valid { IsRoute self.now }
    {
        route_len(self)
    }

    /// The unique encoding of the route.
    pub fn encode(&self, alloc: Global) -> Result<Vec<u8>, AllocError>
        ensures encoding { IfOk result (λ v. EncodesRoute self.now v.items) }
    {
        let len = route_len(self);
        let mut out = Vec::with_capacity(alloc, len)?;
        put_route(&mut out, self)?;
        Ok(out)
    }

    /// The route that these octets encode, or none. The octets may be of any number: the limit of
    /// 3,072 is an admission's.
    pub fn decode(alloc: Global, octets: &[u8]) -> Result<Option<Route>, AllocError>
        ensures found { IfOk result (λ o. IfSome o (λ r. EncodesRoute r octets.now)) }
        ensures only { (r : Route) → EncodesRoute r octets.now → IfOk result (λ o. o ≡ Some r) }
    {
        let route = match whole_route(alloc, octets) {
            Ok(route) => route,
            Err(ReadError::Unencoded) => return Ok(None),
            Err(ReadError::Memory) => return Err(AllocError),
        };
        let encoding = route.encode(alloc)?;
        if encoding.as_slice() == octets {
            Ok(Some(route))
        } else {
            Ok(None)
        }
    }
}

/// The route that all of the octets are read as.
pub(crate) fn whole_route(alloc: Global, octets: &[u8]) -> Result<Route, ReadError>
    ensures { Gives (λ r. r) result (whole (route_at octets.now)) }
{
    let (route, rest) = read_route(alloc, octets)?;
    if !rest.is_empty() {
        return Err(ReadError::Unencoded);
    }
    Ok(route)
}
