//! Communities as texts (RFC 1997, 4360, 8092), each a text of its own.

use route_model::Route;
use std::alloc::{AllocError, Global};

/// The type code of COMMUNITIES (RFC 1997).
const COMMUNITIES: u8 = 8;

/// The type code of EXTENDED COMMUNITIES (RFC 4360).
const EXTENDED: u8 = 16;

/// The type code of LARGE_COMMUNITY (RFC 8092).
const LARGE: u8 = 32;

/// The value of the attribute of this type; nothing if it isn't there.
fn value_of(route: &Route, kind: u8) -> &[u8] {
    match route.others.as_slice().iter().find(|a| a.kind == kind) {
        Some(attribute) => attribute.value.as_slice(),
        None => &[],
    }
}

/// A community: a well-known one that `bgpdump` has a name for by that.
fn community(alloc: Global, octets: &[u8]) -> Result<String, AllocError> {
    match octets {
        [255, 255, 255, 1] => String::from_str(alloc, "no-export"),
        [255, 255, 255, 2] => String::from_str(alloc, "no-advertise"),
        [255, 255, 255, 3] => String::from_str(alloc, "local-AS"),
        [a, b, c, d] => {
            let high = u16::from_be_bytes([*a, *b]);
            let low = u16::from_be_bytes([*c, *d]);
            format!(in alloc; "{high}:{low}")
        }
        _ => Ok(String::new(alloc)),
    }
}

/// An extended community: route targets and origins of the three forms of RFC 4360 and RFC 5668 by their fields, others by their octets.
fn extended_community(alloc: Global, octets: &[u8]) -> Result<String, AllocError> {
    let [form, kind, a, b, c, d, e, f] = octets else {
        return Ok(String::new(alloc));
    };
    let name = match (*form, *kind) {
        (0..=2, 2) => "rt",
        (0..=2, 3) => "soo",
        _ => {
            return format!(in alloc;
                "0x{form:02x}{kind:02x}{a:02x}{b:02x}{c:02x}{d:02x}{e:02x}{f:02x}"
            );
        }
    };
    let short = u16::from_be_bytes([*e, *f]);
    match *form {
        0 => {
            let number = u16::from_be_bytes([*a, *b]);
            let long = u32::from_be_bytes([*c, *d, *e, *f]);
            format!(in alloc; "{name}:{number}:{long}")
        }
        1 => format!(in alloc; "{name}:{a}.{b}.{c}.{d}:{short}"),
        _ => {
            let number = u32::from_be_bytes([*a, *b, *c, *d]);
            format!(in alloc; "{name}:{number}:{short}")
        }
    }
}

/// A large community.
fn large_community(alloc: Global, octets: &[u8]) -> Result<String, AllocError> {
    let [a, b, c, d, e, f, g, h, i, j, k, l] = octets else {
        return Ok(String::new(alloc));
    };
    let administrator = u32::from_be_bytes([*a, *b, *c, *d]);
    let first = u32::from_be_bytes([*e, *f, *g, *h]);
    let second = u32::from_be_bytes([*i, *j, *k, *l]);
    format!(in alloc; "{administrator}:{first}:{second}")
}

/// The communities of a route.
pub(crate) fn communities(alloc: Global, route: &Route) -> Result<Vec<String>, AllocError> {
    let mut list = Vec::new(alloc);
    for octets in value_of(route, COMMUNITIES).chunks_exact(4) {
        list.push(community(alloc, octets)?)?;
    }
    Ok(list)
}

/// Its extended communities.
pub(crate) fn extended_communities(
    alloc: Global,
    route: &Route,
) -> Result<Vec<String>, AllocError> {
    let mut list = Vec::new(alloc);
    for octets in value_of(route, EXTENDED).chunks_exact(8) {
        list.push(extended_community(alloc, octets)?)?;
    }
    Ok(list)
}

/// Its large communities.
pub(crate) fn large_communities(alloc: Global, route: &Route) -> Result<Vec<String>, AllocError> {
    let mut list = Vec::new(alloc);
    for octets in value_of(route, LARGE).chunks_exact(12) {
        list.push(large_community(alloc, octets)?)?;
    }
    Ok(list)
}
