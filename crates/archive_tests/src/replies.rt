//! What an archive replies to a line.

use crate::be;
use crate::desk::loaded_of;
use crate::pure::Pure;
use crate::samples::{NOTIFICATION, UPDATE};
use service::{Refusal, reply};
use std::alloc::Global;

/// Lines after an UPDATE and the end of its session, and the reply to each, or the name of its refusal.
const REPLIES: [(&str, &str); 10] = [
    ("at 1704067200 prefix 10.0.0.0/8", "E|0\n"),
    ("at 1704067199 all", "E|0\n"),
    (
        "history 0 1704067200 0 192.0.2.1 65001 10.0.0.0/8",
        "A|1704067200|65001 65002|IGP|192.0.2.1|||NAG||\nD|1704067200\nE|2\n",
    ),
    (
        "history 0 1704067200 0 192.0.2.1 65001 10.0.0.0/8 skip 1",
        "D|1704067200\nE|1\n",
    ),
    ("watermark", "S|1704067201\n"),
    ("durable 0", "N|2\n"),
    ("durable 1", "NoCollector"),
    ("at 1704067201 all", "AboveWatermark"),
    ("at 1704067200 all after", "BadRequest"),
    ("mark 0 1704067202", "BadRequest"),
];

/// Whether a line has this reply, or is refused by this name.
fn is_replied(alloc: Global, archive: &mut Pure, line: &str, expected: &str) -> bool {
    match reply(alloc, archive, line) {
        Ok(text) => text.as_str() == expected,
        Err(why) => Refusal::from(why).name() == expected,
    }
}

#[test]
fn lines_are_replied(rt: HostRuntime) {
    let alloc = rt.alloc();
    let mut archive = loaded_of(alloc, &[UPDATE, NOTIFICATION]).expect(&rt, "an archive");
    for (line, expected) in &REPLIES {
        be(&rt, is_replied(alloc, &mut archive, line, expected), line);
    }
}
