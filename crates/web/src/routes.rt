//! A route's text as members of an object.

use crate::communities::{communities, extended_communities, large_communities};
use route_model::Route;
use route_text::read_route;
use serde::Serialize;
use std::alloc::{AllocError, Global};

/// What an object says of a route.
#[derive(Debug, Drop, Serialize)]
pub(crate) struct RouteObject<'a> {
    path: &'a str,
    origin: &'a str,
    next_hop: &'a str,
    med: Option<u32>,
    local_pref: Option<u32>,
    atomic_aggregate: bool,
    aggregator: &'a str,
    communities: Vec<String>,
    extended_communities: Vec<String>,
    large_communities: Vec<String>,
    /// All attributes that are kept unread, those of communities too, as TYPE/FLAGS/VALUE.
    others: &'a str,
}

/// The members whose text is a field of the route's text.
#[derive(Clone, Copy, Debug)]
struct Fields<'a> {
    /// Empty, if there is no path.
    path: &'a str,
    origin: &'a str,
    next_hop: &'a str,
    aggregator: &'a str,
    others: &'a str,
}

/// The fields of a route's text. MED, LOCAL_PREF and ATOMIC_AGGREGATE stand between the next hop and the aggregator.
fn fields_of(text: &str) -> Fields<'_> {
    let mut fields = text.split('|');
    let path = fields.next().unwrap_or("");
    let origin = fields.next().unwrap_or("");
    let next_hop = fields.next().unwrap_or("");
    let _med = fields.next();
    let _local_pref = fields.next();
    let _aggregate = fields.next();
    Fields {
        path: if path == "-" { "" } else { path },
        origin,
        next_hop,
        aggregator: fields.next().unwrap_or(""),
        others: fields.next().unwrap_or(""),
    }
}

/// The object of a route that has these fields.
fn object_of<'a>(
    alloc: Global,
    fields: Fields<'a>,
    route: &Route,
) -> Result<RouteObject<'a>, AllocError> {
    let plain = communities(alloc, route)?;
    let extended = extended_communities(alloc, route)?;
    let large = large_communities(alloc, route)?;
    Ok(RouteObject {
        path: fields.path,
        origin: fields.origin,
        next_hop: fields.next_hop,
        med: route.med,
        local_pref: route.local_pref,
        atomic_aggregate: route.atomic_aggregate,
        aggregator: fields.aggregator,
        communities: plain,
        extended_communities: extended,
        large_communities: large,
        others: fields.others,
    })
}

/// The object of the route of this text. A reply has no other texts there, so only memory can refuse it.
pub(crate) fn route_object(alloc: Global, text: &str) -> Result<RouteObject<'_>, AllocError> {
    match read_route(alloc, text) {
        Ok(route) => object_of(alloc, fields_of(text), &route),
        Err(_) => Err(AllocError),
    }
}
