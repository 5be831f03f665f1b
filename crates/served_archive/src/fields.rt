//! Fields of a line, with bars between them.

use route_meaning::{Row, Spot};
use route_model::{Peer, SharedRoute};
use route_text::{BadText, TextError, read_prefix, read_route};
use service::read_peer;
use std::alloc::Global;

/// The field before the first bar, and those after it.
pub(crate) fn cut(fields: &str) -> Result<(&str, &str), BadText> {
    match fields.split_once('|') {
        Some(parts) => Ok(parts),
        None => Err(BadText),
    }
}

/// The peer of the first three fields, `COLLECTOR|ADDRESS|AS`, and the fields after them.
fn cut_peer(fields: &str) -> Result<(Peer, &str), BadText> {
    let (collector, beyond) = cut(fields)?;
    let (address, beyond) = cut(beyond)?;
    let (as_number, beyond) = cut(beyond)?;
    let peer = read_peer(collector, address, as_number)?;
    Ok((peer, beyond))
}

/// The spot of four fields, `COLLECTOR|ADDRESS|AS|PREFIX`.
pub(crate) fn read_spot(fields: &str) -> Result<Spot, BadText> {
    let (peer, prefix) = cut_peer(fields)?;
    let prefix = read_prefix(prefix)?;
    Ok(Spot { peer, prefix })
}

/// The route of eight fields.
pub(crate) fn read_shared(alloc: Global, fields: &str) -> Result<SharedRoute, TextError> {
    let route = read_route(alloc, fields)?;
    Ok(SharedRoute::new(alloc, route)?)
}

/// The row of a spot's fields and a route's.
pub(crate) fn read_row(alloc: Global, fields: &str) -> Result<Row, TextError> {
    let (peer, beyond) = cut_peer(fields)?;
    let (prefix, route) = cut(beyond)?;
    let prefix = read_prefix(prefix)?;
    let route = read_shared(alloc, route)?;
    Ok(Row {
        peer,
        prefix,
        route,
    })
}
