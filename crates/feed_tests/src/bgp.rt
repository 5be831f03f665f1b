//! Values from outside: worked examples by their octets, and tables worked out by hand. Routes are compared by
//! their encoding: origin, path, next hop, what is present, what is present of it, other attributes.

mod attributes;
mod entries;
mod messages;
mod paths;

use crate::octets;
use bgp_update::{Announcement, Message, MessageFault, Update, read_message};
use route_model::Route;
use route_model::wire::AsWidth;
use std::alloc::Global;
use std::process::Abort;

/// ORIGIN IGP, AS_PATH 65001 65002 in two octets, NEXT_HOP 192.0.2.1.
const PLAIN: &str = "40010100 4002060202FDE9FDEA 400304C0000201";

/// The route of these attributes.
const PLAIN_ROUTE: &str = "00 0001 0202 0000FDE9 0000FDEA 04C0000201 00 0000";

/// Puts octets after others.
fn put(rt: &impl Abort, out: &mut Vec<u8>, octets: &[u8]) {
    out.extend_from_slice(octets).expect(rt, "memory");
}

/// Puts a count of two octets there.
fn put_count(rt: &impl Abort, out: &mut Vec<u8>, count: usize) {
    let count = u16::try_from(count).expect(rt, "long");
    put(rt, out, &count.to_be_bytes());
}

/// A message of this type whose octets after the header are these.
fn message(rt: &impl Abort, alloc: Global, kind: u8, beyond: &[u8]) -> Vec<u8> {
    let mut out = Vec::new(alloc);
    put(rt, &mut out, &[255; 16]);
    put_count(rt, &mut out, beyond.len().saturating_add(19));
    put(rt, &mut out, &[kind]);
    put(rt, &mut out, beyond);
    out
}

/// An UPDATE with these attributes, and nothing withdrawn.
fn update(rt: &impl Abort, alloc: Global, attributes: &[u8], nlri: &str) -> Vec<u8> {
    let mut beyond = Vec::new(alloc);
    put_count(rt, &mut beyond, 0);
    put_count(rt, &mut beyond, attributes.len());
    put(rt, &mut beyond, attributes);
    put(rt, &mut beyond, &octets(rt, alloc, nlri));
    message(rt, alloc, 2, &beyond)
}

/// What an UPDATE of these attributes says.
fn reported(
    rt: &impl Abort,
    alloc: Global,
    attributes: &str,
    nlri: &str,
    width: AsWidth,
) -> Update {
    let bytes = update(rt, alloc, &octets(rt, alloc, attributes), nlri);
    match read_message(alloc, &bytes, width) {
        Ok(Message::Update(update)) => update,
        Ok(_) => panic!(rt; "no update"),
        Err(_) => panic!(rt; "a fault"),
    }
}

/// Why octets are no message, or none where they are one.
fn fault_of(alloc: Global, bytes: &[u8], width: AsWidth) -> Option<MessageFault> {
    match read_message(alloc, bytes, width) {
        Ok(_) => None,
        Err(fault) => Some(fault),
    }
}

/// These pieces as one text.
fn joined(rt: &impl Abort, alloc: Global, pieces: &[&str]) -> String {
    let mut text = String::new(alloc);
    for piece in pieces {
        text.push_str(piece).expect(rt, "memory");
    }
    text
}

/// Whether the route is encoded so.
fn is_encoded(rt: &impl Abort, alloc: Global, route: &Route, text: &str) -> bool {
    let encoded = route.encode(alloc).expect(rt, "memory");
    let expected = octets(rt, alloc, text);
    encoded.as_slice() == expected.as_slice()
}

/// Whether something is announced, by the route that is encoded so.
fn has_route(rt: &impl Abort, alloc: Global, announced: &Option<Announcement>, text: &str) -> bool {
    match announced {
        Some(it) => is_encoded(rt, alloc, &it.route, text),
        None => false,
    }
}

/// Whether 10.0.0.0/8, announced with these attributes, has the route that is encoded so.
fn gives(rt: &impl Abort, alloc: Global, attributes: &str, width: AsWidth, text: &str) -> bool {
    let update = reported(rt, alloc, attributes, "080A", width);
    has_route(rt, alloc, &update.announced, text)
}
