//! Rows, their peers, and places that changed, as objects of JSON.

use crate::parameters::cut;
use crate::routes::{RouteObject, route_object};
use dates::Seconds;
use route_text::read_number;
use serde::Serialize;
use std::alloc::{AllocError, Global};

/// What an object says of a row.
#[derive(Debug, Drop, Serialize)]
struct RowObject<'a> {
    time: Seconds,
    date: &'a str,
    collector: u64,
    peer: &'a str,
    as_number: u64,
    prefix: &'a str,
    #[serde(flatten)]
    route: RouteObject<'a>,
}

/// What an object says of a peer.
#[derive(Debug, Drop, Serialize)]
struct PeerObject<'a> {
    collector: u64,
    peer: &'a str,
    as_number: u64,
}

/// What an object says of a place that changed.
#[derive(Debug, Drop, Serialize)]
struct PlaceObject<'a> {
    collector: u64,
    peer: &'a str,
    as_number: u64,
    prefix: &'a str,
}

/// What a line says of the place of a row, and the text after that.
#[derive(Clone, Copy, Debug)]
pub(crate) struct Place<'a> {
    pub(crate) collector: &'a str,
    pub(crate) peer: &'a str,
    pub(crate) as_number: &'a str,
    pub(crate) prefix: &'a str,
    pub(crate) rest: &'a str,
}

/// The place that a text begins with.
pub(crate) fn place_of(text: &str) -> Place<'_> {
    let (collector, text) = cut(text, '|');
    let (peer, text) = cut(text, '|');
    let (as_number, text) = cut(text, '|');
    let (prefix, rest) = cut(text, '|');
    Place {
        collector,
        peer,
        as_number,
        prefix,
        rest,
    }
}

/// A number of a line.
pub(crate) fn number_of(text: &str) -> u64 {
    read_number(text, u64::MAX).unwrap_or(0)
}

fn text_of(alloc: Global, row: &RowObject<'_>) -> Option<String> {
    serde_json::to_string(alloc, row).ok()
}

fn peer_object(alloc: Global, peer: &PeerObject<'_>) -> Option<String> {
    serde_json::to_string(alloc, peer).ok()
}

fn place_object(alloc: Global, place: &PlaceObject<'_>) -> Option<String> {
    serde_json::to_string(alloc, place).ok()
}

/// The object of a place that changed, whose line has this text after `C|`.
pub(crate) fn place_text(alloc: Global, text: &str) -> Result<String, AllocError> {
    let place = place_of(text);
    let object = PlaceObject {
        collector: number_of(place.collector),
        peer: place.peer,
        as_number: number_of(place.as_number),
        prefix: place.prefix,
    };
    place_object(alloc, &object).ok_or(AllocError)
}

/// The object of the peer of a row, whose line has this text after `R|`.
pub(crate) fn peer_text(alloc: Global, text: &str) -> Result<String, AllocError> {
    let place = place_of(text);
    let peer = PeerObject {
        collector: number_of(place.collector),
        peer: place.peer,
        as_number: number_of(place.as_number),
    };
    peer_object(alloc, &peer).ok_or(AllocError)
}

/// The object of a row at this time, whose line has this text after `R|`.
pub(crate) fn row_text(
    alloc: Global,
    time: Seconds,
    date: &str,
    text: &str,
) -> Result<String, AllocError> {
    let place = place_of(text);
    let route = match route_object(alloc, place.rest) {
        Ok(route) => route,
        Err(why) => return Err(why),
    };
    let row = RowObject {
        time,
        date,
        collector: number_of(place.collector),
        peer: place.peer,
        as_number: number_of(place.as_number),
        prefix: place.prefix,
        route,
    };
    text_of(alloc, &row).ok_or(AllocError)
}
