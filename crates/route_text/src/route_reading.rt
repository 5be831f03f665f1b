//! Texts of routes, read.

ghost use Rattle.std.specs.Prelude.{◌≡◌, ◌≢◌, IfOk, IsErrOf, IsSomeAnd};
ghost use Rattle.route_model.specs.declared.route.Route.{Route};
ghost use Rattle.route_model.specs.Encoding.{IsRoute};
ghost use Rattle.route_text.specs.inner.Fields.{AreFieldsOf};
ghost use Rattle.route_text.specs.NormalPath.{IsNormalPath};
ghost use Rattle.route_text.specs.Reads.{Reads};
ghost use Rattle.route_text.specs.RouteText.{route_text};

use crate::attribute_reading::read_attributes;
use crate::cut::cut_at_first;
use crate::fault::TextError;
use crate::field_reading::{
    read_aggregate, read_aggregator, read_next_hop, read_optional, read_origin,
};
use crate::path_reading::read_path;
use crate::route_writing::write_route;
use route_model::Route;
use std::alloc::Global;

/// The route that the text writes, with numbers in a row of its path in one sequence as far as it
/// holds them: 255. Writing that route gives the same text.
pub fn read_route(alloc: Global, text: &str) -> Result<Route, TextError>
    ensures found { IfOk result (λ r. text.now ≡ route_text r) }
    ensures valid { IfOk result IsRoute }
    ensures normal { IfOk result (λ r. IsNormalPath r.path) }
    ensures only { (r : Route) → IsRoute r → IsNormalPath r.path → text.now ≡ route_text r → Reads result r }
    ensures none { IsErrOf result TextError.BadText → (r : Route) → IsRoute r → text.now ≢ route_text r }
{
    let route = read_fields(alloc, text)?;
    let mut written = String::with_capacity(alloc, text.len())?;
    write_route(&mut written, &route)?;
    if written.as_str() != text {
        return Err(TextError::BadText);
    }
    Ok(route)
}

/// The route of a text. It may also accept other forms of an address.
fn read_fields(alloc: Global, text: &str) -> Result<Route, TextError>
    ensures valid { IfOk result IsRoute }
    ensures normal { IfOk result (λ r. IsNormalPath r.path) }
    ensures only { (r : Route) → IsRoute r → IsNormalPath r.path → text.now ≡ route_text r → Reads result r }
{
    let Some(fields) = fields_of(text) else {
        return Err(TextError::BadText);
    };
    let path = read_path(alloc, fields.path)?;
    let origin = read_origin(fields.origin)?;
    let next_hop = read_next_hop(fields.next_hop)?;
    let med = read_optional(fields.med)?;
    let local_pref = read_optional(fields.local_pref)?;
    let atomic_aggregate = read_aggregate(fields.aggregate)?;
    let aggregator = read_aggregator(fields.aggregator)?;
    let others = read_attributes(alloc, fields.others)?;
    Ok(Route {
        origin,
        path,
        next_hop,
        med,
        local_pref,
        atomic_aggregate,
        aggregator,
        others,
    })
}

/// The texts of a route's fields.
#[derive(Clone, Copy)]
struct Fields<'a> {
    path: &'a str,
    origin: &'a str,
    next_hop: &'a str,
    med: &'a str,
    local_pref: &'a str,
    aggregate: &'a str,
    aggregator: &'a str,
    others: &'a str,
}

/// The eight fields of a text, between bars.
fn fields_of(text: &str) -> Option<Fields<'_>>
    ensures only { (r : Route) → IsRoute r → text.now ≡ route_text r → IsSomeAnd result (λ f. AreFieldsOf r f.path.now f.origin.now f.next_hop.now f.med.now f.local_pref.now f.aggregate.now f.aggregator.now f.others.now) }
{
    let (path, beyond) = cut_at_first(text, '|')?;
    let (origin, beyond) = cut_at_first(beyond, '|')?;
    let (next_hop, beyond) = cut_at_first(beyond, '|')?;
    let (med, beyond) = cut_at_first(beyond, '|')?;
    let (local_pref, beyond) = cut_at_first(beyond, '|')?;
    let (aggregate, beyond) = cut_at_first(beyond, '|')?;
    let (aggregator, others) = cut_at_first(beyond, '|')?;
    Some(Fields {
        path,
        origin,
        next_hop,
        med,
        local_pref,
        aggregate,
        aggregator,
        others,
    })
}
