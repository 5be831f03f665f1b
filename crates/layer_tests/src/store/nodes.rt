//! A leaf built by hand, octet by octet: what is written, and what looks find in it.

use crate::{be, be_at};
use disk_models::Page;
use route_model::Key;
use std::alloc::Global;
use tsb_node::{NotANode, find, leaf_of_page, next, push, start_leaf};
use version_model::Stamp;

pub(super) fn key_of(last: u8) -> Key {
    let mut octets = [0u8; 40];
    octets[39] = last;
    Key::from_octets(&octets)
}

/// A leaf of the keys below 9 with a value and an end of key 5: where octets other than zero stand, and which.
pub(super) const LEAF: [(usize, &[u8]); 12] = [
    // A leaf, in microseconds, of level 0; two entries, of 61 and of 59 octets.
    (0, &[1, 1, 0, 0, 0, 2, 0, 120]),
    // The high key, the end stamp: none.
    (87, &[9]),
    (104, &[255, 255, 255, 255, 255, 255, 255, 255]),
    (112, &[255, 255, 255, 255, 255, 255, 255, 255]),
    // The first entry, from 120 on: key, stamp of time 258 and order 3, a value of two octets.
    (159, &[5]),
    (166, &[1, 2]),
    (175, &[3]),
    (176, &[1, 0, 2]),
    (179, &[170, 187]),
    // The second, from 181 on: the key, a stamp of time 260 and order 0, an end.
    (220, &[5]),
    (227, &[1, 4]),
    (237, &[0, 0, 0]),
];

/// A page with these octets at these places, and zeros elsewhere.
pub(super) fn page_of(alloc: Global, fields: &[(usize, &[u8])]) -> Option<Page> {
    let mut page = Page::new(alloc).ok()?;
    for (place, octets) in fields {
        if *place > 16_368 || octets.len() > 16 {
            return None;
        }
        page.put(*place, *octets);
    }
    Some(page)
}

/// Whether a version of key 5 is pushed.
fn is_pushed(page: &mut Page, stamp: Stamp, value: Option<&[u8; 2]>) -> bool {
    let pushed = match value {
        Some(value) => push(page, key_of(5), stamp, Some(value)),
        None => push(page, key_of(5), stamp, None),
    };
    pushed == Ok(true)
}

/// Whether a leaf that begins with the bounds of a page gets its octets by two pushes.
fn is_written(alloc: Global, expected: &Page) -> Option<bool> {
    let decoded = leaf_of_page(alloc, expected).ok()?;
    let bounds = decoded.bounds.low == key_of(0)
        && decoded.bounds.high == Some(key_of(9))
        && decoded.bounds.start == Stamp::new(0, 0)
        && decoded.bounds.end.is_none();
    let mut page = Page::new(alloc).ok()?;
    start_leaf(&mut page, &decoded.bounds);
    Some(
        bounds
            && is_pushed(&mut page, Stamp::new(258, 3), Some(&[170, 187]))
            && is_pushed(&mut page, Stamp::new(260, 0), None)
            && page.octets() == expected.octets(),
    )
}

#[test]
fn a_leaf_by_hand_is_what_is_written(rt: HostRuntime) {
    let expected = page_of(rt.alloc(), &LEAF).expect(&rt, "a page");
    be(
        &rt,
        is_written(rt.alloc(), &expected) == Some(true),
        "the octets",
    );
}

/// What a look finds of a key as of a stamp: a value by its first octet.
#[derive(Clone, Copy, PartialEq)]
enum Look {
    NoNode,
    Nothing,
    End,
    Value(u8),
}

fn looked_up(page: &Page, key: u8, time: u64) -> Look {
    match find(page.octets(), key_of(key), Stamp::new(time, 5)) {
        Ok(Some(found)) => match found.value {
            Some(value) => Look::Value(value.as_slice().first().copied().unwrap_or(0)),
            None => Look::End,
        },
        Ok(None) => Look::Nothing,
        Err(NotANode) => Look::NoNode,
    }
}

/// Keys and times, what a look finds of them, and the least key with a value from there on.
const LOOKS: [(u8, u64, Look, Option<u8>); 5] = [
    (5, 257, Look::Nothing, None),
    (5, 258, Look::Value(170), Some(5)),
    (5, 259, Look::Value(170), Some(5)),
    (4, 259, Look::Nothing, Some(5)),
    (5, 260, Look::End, None),
];

/// Whether the least key with a value, from a key on as of a time, is this one.
fn is_next(page: &Page, key: u8, time: u64, least: Option<u8>) -> bool {
    let found = next(page.octets(), key_of(key), Stamp::new(time, 5));
    found == Ok(least.map(key_of))
}

#[test]
fn a_leaf_by_hand_is_looked_into(rt: HostRuntime) {
    let mut page = page_of(rt.alloc(), &LEAF).expect(&rt, "a page");
    for (key, time, found, least) in &LOOKS {
        be_at(
            &rt,
            looked_up(&page, *key, *time) == *found,
            "a look",
            *time,
        );
        be_at(
            &rt,
            is_next(&page, *key, *time, *least),
            "the next key",
            *time,
        );
    }
    // More entries than stand there.
    page.put(4, &[255, 255]);
    be(&rt, looked_up(&page, 5, 258) == Look::NoNode, "no node");
}
