//! A row as an object of JSON.

use crate::fields::{Fields, fields_of, text_of};
use crate::known::{
    COMMUNITIES, EXTENDED, LARGE, value_of, write_communities, write_extended, write_large,
};
use dates::Seconds;
use route_meaning::Row;
use route_model::{Address, Moment, Prefix, Route};
use route_text::{write_address, write_prefix};
use serde::Serialize;
use std::alloc::{AllocError, Global};

/// What an object says of a row.
#[derive(Debug, Drop, Serialize)]
struct RowObject<'a> {
    time: Seconds,
    date: &'a str,
    collector: u8,
    peer: &'a str,
    as_number: u32,
    prefix: &'a str,
    path: &'a str,
    origin: &'a str,
    next_hop: &'a str,
    med: Option<u32>,
    local_pref: Option<u32>,
    atomic_aggregate: bool,
    aggregator: &'a str,
    communities: Vec<&'a str>,
    extended_communities: Vec<&'a str>,
    large_communities: Vec<&'a str>,
    /// All attributes that are kept unread, those of communities too, as TYPE/FLAGS/VALUE.
    others: &'a str,
}

/// The communities of this kind, as texts with spaces between.
fn communities_of(alloc: Global, route: &Route, kind: u8) -> Result<String, AllocError> {
    let mut text = String::new(alloc);
    let value = value_of(route, kind);
    match kind {
        EXTENDED => write_extended(&mut text, value)?,
        LARGE => write_large(&mut text, value)?,
        _ => write_communities(&mut text, value)?,
    }
    Ok(text)
}

fn address_text(alloc: Global, address: &Address) -> Result<String, AllocError> {
    let mut text = String::new(alloc);
    write_address(&mut text, address)?;
    Ok(text)
}

fn prefix_text(alloc: Global, prefix: &Prefix) -> Result<String, AllocError> {
    let mut text = String::new(alloc);
    write_prefix(&mut text, prefix)?;
    Ok(text)
}

/// The words of a text.
fn words_of(alloc: Global, text: &str) -> Result<Vec<&str>, AllocError> {
    if text.is_empty() {
        return Ok(Vec::new(alloc));
    }
    text.split(' ').collect(alloc)
}

/// What an object says of a row besides its route.
#[derive(Clone, Copy, Debug)]
struct Place<'a> {
    time: Seconds,
    date: &'a str,
    collector: u8,
    peer: &'a str,
    as_number: u32,
    prefix: &'a str,
}

/// The communities of a route, of each kind as texts with spaces between.
#[derive(Clone, Copy, Debug)]
struct Communities<'a> {
    plain: &'a str,
    extended: &'a str,
    large: &'a str,
}

fn line_of(alloc: Global, object: &RowObject<'_>) -> Option<String> {
    serde_json::to_string(alloc, object).ok()
}

/// Writes the object of a route at a place, in a line.
fn write_line(
    alloc: Global,
    out: &mut String,
    place: Place<'_>,
    route: &Route,
    fields: Fields<'_>,
    communities: Communities<'_>,
) -> Result<(), AllocError> {
    let plain = words_of(alloc, communities.plain)?;
    let extended = words_of(alloc, communities.extended)?;
    let large = words_of(alloc, communities.large)?;
    let object = RowObject {
        time: place.time,
        date: place.date,
        collector: place.collector,
        peer: place.peer,
        as_number: place.as_number,
        prefix: place.prefix,
        path: fields.path,
        origin: fields.origin,
        next_hop: fields.next_hop,
        med: route.med,
        local_pref: route.local_pref,
        atomic_aggregate: route.atomic_aggregate,
        aggregator: fields.aggregator,
        communities: plain,
        extended_communities: extended,
        large_communities: large,
        others: fields.others,
    };
    let Some(line) = line_of(alloc, &object) else {
        return Err(AllocError);
    };
    out.push_str(line.as_str())?;
    out.push('\n')
}

/// Writes the object of a route at a place.
fn write_route_at(
    alloc: Global,
    out: &mut String,
    place: Place<'_>,
    route: &Route,
) -> Result<(), AllocError> {
    let text = text_of(alloc, route)?;
    let plain = communities_of(alloc, route, COMMUNITIES)?;
    let extended = communities_of(alloc, route, EXTENDED)?;
    let large = communities_of(alloc, route, LARGE)?;
    let communities = Communities {
        plain: plain.as_str(),
        extended: extended.as_str(),
        large: large.as_str(),
    };
    write_line(
        alloc,
        out,
        place,
        route,
        fields_of(text.as_str()),
        communities,
    )
}

/// Writes the row as an object of JSON, in a line.
pub(crate) fn write_object(
    alloc: Global,
    out: &mut String,
    moment: Moment,
    date: &str,
    row: &Row,
) -> Result<(), AllocError> {
    let peer = address_text(alloc, &row.peer.address)?;
    let prefix = prefix_text(alloc, &row.prefix)?;
    let place = Place {
        time: Seconds {
            micros: moment.number(),
        },
        date,
        collector: row.peer.collector,
        peer: peer.as_str(),
        as_number: row.peer.as_number,
        prefix: prefix.as_str(),
    };
    write_route_at(alloc, out, place, row.route.route())
}
