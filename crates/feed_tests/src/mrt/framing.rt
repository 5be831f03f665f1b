//! A stream in pieces.

use super::{MESSAGE, MESSAGE_AS4, PEER_TABLE, STATE_CHANGE, items};
use crate::{be, octets};
use mrt_records::{FrameError, Framer, Item, read_stream};
use std::alloc::Global;
use std::process::Abort;

/// Four records, one after another.
fn stream(rt: &impl Abort, alloc: Global) -> Vec<u8> {
    let mut out = octets(rt, alloc, MESSAGE);
    for text in [STATE_CHANGE, PEER_TABLE, MESSAGE_AS4] {
        out.extend_from_slice(&octets(rt, alloc, text))
            .expect(rt, "memory");
    }
    out
}

fn are_the_four(items: &[Item]) -> bool {
    match items {
        [
            Item::Message { .. },
            Item::StateChange { .. },
            Item::PeerTable(_),
            Item::Message { .. },
        ] => true,
        _ => false,
    }
}

fn feed(rt: &impl Abort, framer: &mut Framer, bytes: &[u8], out: &mut Vec<Item>) {
    framer.feed(bytes, out).expect(rt, "a piece");
}

/// Whether the piece is refused, since a length is above 131,072.
fn is_too_long(framer: &mut Framer, bytes: &[u8], out: &mut Vec<Item>) -> bool {
    framer.feed(bytes, out) == Err(FrameError::TooLong)
}

/// The items of octets in two pieces.
fn items_of_two(rt: &impl Abort, alloc: Global, bytes: &[u8], cut: usize) -> Vec<Item> {
    let (front, rest) = bytes.split_at_checked(cut).expect(rt, "a cut");
    let mut out = Vec::new(alloc);
    let mut framer = Framer::new(alloc);
    feed(rt, &mut framer, front, &mut out);
    feed(rt, &mut framer, rest, &mut out);
    framer.finish().expect(rt, "a record's end");
    out
}

#[test]
fn the_items_are_the_same_at_each_cut(rt: HostRuntime) {
    let bytes = stream(&rt, rt.alloc());
    be(
        &rt,
        are_the_four(&items(&rt, rt.alloc(), &bytes)),
        "in one piece",
    );
    for cut in 0..bytes.len() {
        be(
            &rt,
            are_the_four(&items_of_two(&rt, rt.alloc(), &bytes, cut)),
            "cut at",
        );
    }
}

/// Each octet alone.
fn pieces(rt: &impl Abort, alloc: Global, bytes: &[u8]) -> Vec<Vec<u8>> {
    let mut pieces = Vec::new(alloc);
    for octet in bytes {
        pieces
            .push(vec![in alloc; *octet].expect(rt, "memory"))
            .expect(rt, "memory");
    }
    pieces
}

#[test]
fn the_items_are_the_same_octet_by_octet(rt: HostRuntime) {
    let bytes = stream(&rt, rt.alloc());
    let mut out = Vec::new(rt.alloc());
    read_stream(rt.alloc(), &pieces(&rt, rt.alloc(), &bytes), &mut out).expect(&rt, "a stream");
    be(
        &rt,
        are_the_four(&out),
        "the items are the same octet by octet",
    );
}

/// Feeds a message but for its last octet, and then that: only then it has an item, and may end.
fn feed_in_two(rt: &impl Abort, alloc: Global, bytes: &[u8], out: &mut Vec<Item>) {
    let (front, last) = bytes.split_at_checked(72).expect(rt, "a cut");
    let mut framer = Framer::new(alloc);
    be(rt, framer.finish() == Ok(()), "nothing was fed");
    feed(rt, &mut framer, front, out);
    be(
        rt,
        framer.finish() == Err(FrameError::Truncated),
        "the last octet is not there",
    );
    be(rt, out.len() == 0, "no item of a record that is cut");
    feed(rt, &mut framer, last, out);
    be(rt, framer.finish() == Ok(()), "the record is whole");
    be(rt, out.len() == 1, "its item");
}

#[test]
fn a_stream_that_ends_inside_a_record_is_truncated(rt: HostRuntime) {
    let bytes = octets(&rt, rt.alloc(), MESSAGE);
    feed_in_two(&rt, rt.alloc(), &bytes, &mut Vec::new(rt.alloc()));
}

/// A message, and the header of a record of 131,073 octets.
fn message_and_too_long(rt: &impl Abort, alloc: Global) -> Vec<u8> {
    let mut bytes = octets(rt, alloc, MESSAGE);
    let header = octets(rt, alloc, "65920080 0063 0001 00020001");
    bytes.extend_from_slice(&header).expect(rt, "memory");
    bytes
}

#[test]
fn a_length_above_131072_ends_the_stream(rt: HostRuntime) {
    let message = octets(&rt, rt.alloc(), MESSAGE);
    let bytes = message_and_too_long(&rt, rt.alloc());
    let mut out = Vec::new(rt.alloc());
    let mut framer = Framer::new(rt.alloc());
    be(
        &rt,
        is_too_long(&mut framer, &bytes, &mut out),
        "the length",
    );
    be(&rt, out.len() == 1, "the record before it stays");
    be(&rt, is_too_long(&mut framer, &message, &mut out), "later");
    be(
        &rt,
        is_too_long(&mut framer, &[], &mut out),
        "an empty piece",
    );
    be(&rt, framer.finish() == Err(FrameError::TooLong), "the end");
    be(&rt, out.len() == 1, "no further record");
}

/// A record of 131,072 octets of a type that isn't listed.
fn longest(rt: &impl Abort, alloc: Global) -> Vec<u8> {
    let mut bytes = octets(rt, alloc, "65920080 0063 0001 00020000");
    bytes.resize(131_084, 0u8).expect(rt, "memory");
    bytes
}

fn are_skipped(items: &[Item]) -> bool {
    match items {
        [
            Item::Skipped {
                kind: 99,
                subtype: 1,
            },
        ] => true,
        _ => false,
    }
}

#[test]
fn a_length_of_131072_is_read(rt: HostRuntime) {
    let bytes = longest(&rt, rt.alloc());
    be(
        &rt,
        are_skipped(&items(&rt, rt.alloc(), &bytes)),
        "a length of 131072 is read",
    );
}
