//! The routes that attributes announce.

ghost use Rattle.std.specs.Prelude.{◌≡◌};
ghost use Rattle.bgp_update.specs.Routes.{route_of};

use crate::reading::PathAttributes;
use route_model::{NextHop, Route};

/// The route of these attributes and this next hop, or none if one of ORIGIN, AS_PATH and the next hop is missing.
pub(crate) fn route_with(attributes: PathAttributes<'_>, next_hop: Option<NextHop>) -> Option<Route>
    ensures { result ≡ route_of attributes.entry next_hop }
{
    let origin = attributes.origin?;
    let path = attributes.path?;
    let next_hop = next_hop?;
    Some(Route {
        origin,
        path,
        next_hop,
        med: attributes.med,
        local_pref: attributes.local_pref,
        atomic_aggregate: attributes.atomic_aggregate,
        aggregator: attributes.aggregator,
        others: attributes.others,
    })
}
