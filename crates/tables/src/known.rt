//! Communities as texts (RFC 1997, 4360, 8092).

use route_model::{Attribute, Route};
use std::alloc::AllocError;

/// The type code of COMMUNITIES (RFC 1997).
pub(crate) const COMMUNITIES: u8 = 8;

/// The type code of EXTENDED COMMUNITIES (RFC 4360).
pub(crate) const EXTENDED: u8 = 16;

/// The type code of LARGE_COMMUNITY (RFC 8092).
pub(crate) const LARGE: u8 = 32;

/// The value of the attribute of this type; nothing if it isn't there.
pub(crate) fn value_of(route: &Route, kind: u8) -> &[u8] {
    match route.others.as_slice().iter().find(|a| a.kind == kind) {
        Some(attribute) => attribute.value.as_slice(),
        None => &[],
    }
}

/// Writes a space, if something is there already.
fn write_space(out: &mut String, from: usize) -> Result<(), AllocError> {
    if from < out.len() {
        out.push(' ')?;
    }
    Ok(())
}

/// Writes the communities, with spaces between; the well-known ones that `bgpdump` has names for by these.
pub(crate) fn write_communities(out: &mut String, value: &[u8]) -> Result<(), AllocError> {
    let from = out.len();
    for octets in value.chunks_exact(4) {
        write_space(out, from)?;
        match octets {
            [255, 255, 255, 1] => out.push_str("no-export")?,
            [255, 255, 255, 2] => out.push_str("no-advertise")?,
            [255, 255, 255, 3] => out.push_str("local-AS")?,
            [a, b, c, d] => {
                let high = u16::from_be_bytes([*a, *b]);
                let low = u16::from_be_bytes([*c, *d]);
                write!(out, "{high}:{low}")?;
            }
            _ => {}
        }
    }
    Ok(())
}

/// Writes the large communities, with spaces between.
pub(crate) fn write_large(out: &mut String, value: &[u8]) -> Result<(), AllocError> {
    let from = out.len();
    for octets in value.chunks_exact(12) {
        if let [a, b, c, d, e, f, g, h, i, j, k, l] = octets {
            write_space(out, from)?;
            let administrator = u32::from_be_bytes([*a, *b, *c, *d]);
            let first = u32::from_be_bytes([*e, *f, *g, *h]);
            let second = u32::from_be_bytes([*i, *j, *k, *l]);
            write!(out, "{administrator}:{first}:{second}")?;
        }
    }
    Ok(())
}

/// Writes an extended community: route targets and origins of the three forms of RFC 4360 and RFC 5668 by their fields, others by their octets.
fn write_one_extended(out: &mut String, octets: &[u8]) -> Result<(), AllocError> {
    let [form, kind, a, b, c, d, e, f] = octets else {
        return Ok(());
    };
    let name = match (*form, *kind) {
        (0..=2, 2) => "rt",
        (0..=2, 3) => "soo",
        _ => {
            return write!(
                out,
                "0x{form:02x}{kind:02x}{a:02x}{b:02x}{c:02x}{d:02x}{e:02x}{f:02x}"
            );
        }
    };
    let short = u16::from_be_bytes([*e, *f]);
    match *form {
        0 => {
            let number = u16::from_be_bytes([*a, *b]);
            let long = u32::from_be_bytes([*c, *d, *e, *f]);
            write!(out, "{name}:{number}:{long}")
        }
        1 => write!(out, "{name}:{a}.{b}.{c}.{d}:{short}"),
        _ => {
            let number = u32::from_be_bytes([*a, *b, *c, *d]);
            write!(out, "{name}:{number}:{short}")
        }
    }
}

/// Writes the extended communities, with spaces between.
pub(crate) fn write_extended(out: &mut String, value: &[u8]) -> Result<(), AllocError> {
    let from = out.len();
    for octets in value.chunks_exact(8) {
        write_space(out, from)?;
        write_one_extended(out, octets)?;
    }
    Ok(())
}

/// Whether the attribute is one of communities.
pub(crate) fn is_known(attribute: &Attribute) -> bool {
    matches!(attribute.kind, COMMUNITIES | EXTENDED | LARGE)
}
