//! The octets of nodes, made by hand.

use std::alloc::Global;

/// A version of a key below 256: key, time, and a value of one octet.
pub(crate) type Version = (u8, u8, u8);

/// A part of a column: the time of its start, its kind, and the number of its block or page.
pub(crate) type Part = (u8, u8, u64);

/// The kinds of parts.
pub(crate) const CURRENT: u8 = 0;

pub(crate) const LEAF: u8 = 1;

pub(crate) const COLUMN: u8 = 2;

/// How many children a key node has room for.
pub(crate) const CHILDREN: u16 = 338;

/// The place of the octets in which the keys of versions differ.
pub(crate) const PLACE: usize = 38;

/// The keys of a node: from a number on, and below another one where there is one, each in two octets at a place.
#[derive(Clone, Copy)]
pub(crate) struct Span {
    pub(crate) low: u16,
    pub(crate) high: Option<u16>,
    pub(crate) place: usize,
}

/// All keys.
pub(crate) const ALL: Span = Span {
    low: 0,
    high: None,
    place: PLACE,
};

/// When a node starts, and when it ends, if it does.
#[derive(Clone, Copy)]
pub(crate) struct Times(pub(crate) u8, pub(crate) Option<u8>);

/// What the header of a node says of it: kind, level, how many entries and how many octets they take.
#[derive(Clone, Copy)]
struct Head {
    kind: u8,
    level: u8,
    count: u16,
    used: u16,
}

/// `count` octets of one kind after others.
pub(crate) fn add(octets: &mut Vec<u8>, octet: u8, count: usize) -> Option<()> {
    for _ in 0..count {
        octets.push(octet).ok()?;
    }
    Some(())
}

/// More octets after others.
pub(crate) fn add_all(octets: &mut Vec<u8>, more: &[u8]) -> Option<()> {
    octets.extend_from_slice(more).ok()
}

/// A number in eight octets.
pub(crate) fn add_number(octets: &mut Vec<u8>, number: u64) -> Option<()> {
    add_all(octets, &number.to_be_bytes())
}

/// A stamp of a time below 256 and order number 0.
fn add_stamp(octets: &mut Vec<u8>, time: u8) -> Option<()> {
    add_number(octets, u64::from(time))?;
    add(octets, 0, 8)
}

/// An end: none is all ones.
fn add_end(octets: &mut Vec<u8>, end: Option<u8>) -> Option<()> {
    match end {
        Some(end) => add_stamp(octets, end),
        None => add(octets, 255, 16),
    }
}

/// The lowest key whose number of two octets stands at this place; 0 is the lowest of all.
pub(crate) fn add_key(octets: &mut Vec<u8>, number: u16, at: usize) -> Option<()> {
    add(octets, 0, at)?;
    add_all(octets, &number.to_be_bytes())?;
    add(octets, 0, 38usize.saturating_sub(at))
}

/// The keys of a node: no highest one is all ones.
fn add_span(octets: &mut Vec<u8>, span: Span) -> Option<()> {
    add_key(octets, span.low, span.place)?;
    match span.high {
        Some(high) => add_key(octets, high, span.place),
        None => add(octets, 255, 40),
    }
}

/// What a node begins with.
fn add_head(octets: &mut Vec<u8>, head: Head) -> Option<()> {
    // The unit of times is that of today, microseconds.
    add_all(octets, &[head.kind, 1, head.level, 0])?;
    add_all(octets, &head.count.to_be_bytes())?;
    add_all(octets, &head.used.to_be_bytes())
}

/// The header of a node of these keys and stamps.
fn add_header(octets: &mut Vec<u8>, head: Head, span: Span, times: Times) -> Option<()> {
    add_head(octets, head)?;
    add_span(octets, span)?;
    add_stamp(octets, times.0)?;
    add_end(octets, times.1)
}

/// The head of a node of `count` entries of one size.
fn head_of(kind: u8, level: u8, count: usize, size: u16) -> Head {
    let count = u16::try_from(count).unwrap_or(0);
    Head {
        kind,
        level,
        count,
        used: count.saturating_mul(size),
    }
}

/// A version: key, stamp, 1 for a value, its length, and the value.
fn add_version(octets: &mut Vec<u8>, version: Version) -> Option<()> {
    let (key, time, value) = version;
    add_key(octets, u16::from(key), PLACE)?;
    add_stamp(octets, time)?;
    add_all(octets, &[1, 0, 1, value])
}

/// A leaf of these versions.
pub(crate) fn leaf(
    alloc: Global,
    span: Span,
    times: Times,
    versions: &[Version],
) -> Option<Vec<u8>> {
    let mut octets = Vec::new(alloc);
    add_header(&mut octets, head_of(1, 0, versions.len(), 60), span, times)?;
    for version in versions {
        add_version(&mut octets, *version)?;
    }
    Some(octets)
}

/// A part of a column: its start, its kind, and a number.
fn add_part(octets: &mut Vec<u8>, part: Part) -> Option<()> {
    let (start, kind, number) = part;
    add_stamp(octets, start)?;
    add(octets, kind, 1)?;
    add_number(octets, number)
}

/// A column of these parts, and in a page its current leaf.
pub(crate) fn column(
    alloc: Global,
    span: Span,
    end: Option<u8>,
    parts: &[Part],
) -> Option<Vec<u8>> {
    let mut octets = Vec::new(alloc);
    add_header(
        &mut octets,
        head_of(2, 1, parts.len(), 25),
        span,
        Times(0, end),
    )?;
    for part in parts {
        add_part(&mut octets, *part)?;
    }
    Some(octets)
}

/// A child of a key node: its lowest key, whose two octets are at a place, and its page.
fn add_child(octets: &mut Vec<u8>, low: u16, place: usize, page: u64) -> Option<()> {
    add_key(octets, low, place)?;
    add_number(octets, page)
}

/// A key node of this level, of these children.
pub(crate) fn key_node(
    alloc: Global,
    level: u8,
    span: Span,
    place: usize,
    children: &[(u16, u64)],
) -> Option<Vec<u8>> {
    let mut octets = Vec::new(alloc);
    let head = head_of(3, level, children.len(), 48);
    add_header(&mut octets, head, span, Times(0, None))?;
    for (low, page) in children {
        add_child(&mut octets, *low, place, *page)?;
    }
    Some(octets)
}
