//! Refusals of a server, and lines that are no reply.

use crate::be;
use crate::playing::{is_said, play};
use std::alloc::{AllocError, Global};

/// What is said of a line that doesn't answer what was asked.
const UNEXPECTED: &str =
    "read: what came is no reply of an archive: is it the port of `rha serve --listen`?";

/// What is said of a line that refuses the question itself.
const UNKNOWN: &str =
    "read: the server doesn't know this question: it may be of an earlier version";

/// The reply to a question for the prefix 10.0.0.0/8 at 99, what is printed of it, and what is said.
const REPLIES: [(&str, &str, &str); 35] = [
    ("X|1|Fault", "X|1|Fault\n", ""),
    ("X|5|NeedsRecovery", "X|5|NeedsRecovery\n", ""),
    ("X|6|PagesFull", "X|6|PagesFull\n", ""),
    ("X|7|OnceFull", "X|7|OnceFull\n", ""),
    (
        "X|8|Damaged|18446744073709551615",
        "X|8|Damaged|18446744073709551615\n",
        "",
    ),
    ("X|9|BadNode|7", "X|9|BadNode|7\n", ""),
    ("X|11|TooHigh", "X|11|TooHigh\n", ""),
    (
        "X|24|AboveWatermark|4294967296",
        "X|24|AboveWatermark|4294967296\n",
        "",
    ),
    ("X|26|CounterFull", "X|26|CounterFull\n", ""),
    ("X|27|OutOfMemory", "X|27|OutOfMemory\n", ""),
    ("X|28|BadRequest", "X|1|Fault\n", UNKNOWN),
    ("X|22|NoCollector", "X|1|Fault\n", UNEXPECTED),
    ("X|1|OutOfMemory", "X|1|Fault\n", UNEXPECTED),
    ("X|01|Fault", "X|1|Fault\n", UNEXPECTED),
    ("X|8|Damaged|", "X|1|Fault\n", UNEXPECTED),
    ("X|24|AboveWatermark", "X|1|Fault\n", UNEXPECTED),
    ("X|24|AboveWatermark|4294967297", "X|1|Fault\n", UNEXPECTED),
    ("X|", "X|1|Fault\n", UNEXPECTED),
    ("X", "X|1|Fault\n", UNEXPECTED),
    ("", "X|1|Fault\n", UNEXPECTED),
    ("HTTP/1.1 400 Bad Request", "X|1|Fault\n", UNEXPECTED),
    ("ok", "X|1|Fault\n", UNEXPECTED),
    ("S|100", "X|1|Fault\n", UNEXPECTED),
    ("E|1", "X|1|Fault\n", UNEXPECTED),
    ("E|", "X|1|Fault\n", UNEXPECTED),
    ("M|0|192.0.2.1|1|10.0.0.0/8", "X|1|Fault\n", UNEXPECTED),
    ("C|0|192.0.2.1|1|10.0.0.0/8", "X|1|Fault\n", UNEXPECTED),
    ("W|7", "X|1|Fault\n", UNEXPECTED),
    ("R|0|192.0.2.1|1|10.0.0.0/8", "X|1|Fault\n", UNEXPECTED),
    (
        "R|16|192.0.2.1|1|10.0.0.0/8|1|IGP|192.0.2.1|||NAG||",
        "X|1|Fault\n",
        UNEXPECTED,
    ),
    (
        "R|0|192.0.2.1|1|10.0.0.0/33|1|IGP|192.0.2.1|||NAG||",
        "X|1|Fault\n",
        UNEXPECTED,
    ),
    (
        "R|0|192.0.2.1|1|10.0.0.0/8|1|IGP|192.0.2.1|||NAG|",
        "X|1|Fault\n",
        UNEXPECTED,
    ),
    // The same place twice, an end that counts another number of rows, and one after another place.
    (
        "R|0|::1|1|::/0|1|IGP|::1|||NAG||\nR|0|::1|1|::/0|1|IGP|::1|||NAG||\nE|2",
        "X|1|Fault\n",
        UNEXPECTED,
    ),
    (
        "R|0|::1|1|::/0|1|IGP|::1|||NAG||\nE|2",
        "X|1|Fault\n",
        UNEXPECTED,
    ),
    (
        "R|0|::1|1|::/0|1|IGP|::1|||NAG||\nM|0|::1|1|::/1",
        "X|1|Fault\n",
        UNEXPECTED,
    ),
];

/// The reply to `history`, after those that name one place, and the event that is printed, if one is.
const EVENTS: [(&str, &str); 7] = [
    ("E|0", "E|0\n"),
    ("W|15\nE|1", "W|15|0|::1|1|::/0\nE|1\n"),
    ("W|15\nE|2", "X|1|Fault\n"),
    ("W|15\nM|2", "X|1|Fault\n"),
    ("M|0", "X|1|Fault\n"),
    ("A|15|1|IGP|::1|||NAG|", "X|1|Fault\n"),
    ("W|4294967296\nE|1", "X|1|Fault\n"),
];

/// The first line of a connection, and what is said of it.
const OPENED: [(&str, &str); 6] = [
    ("S|100", ""),
    ("S|4294967297", UNEXPECTED),
    ("E|0", UNEXPECTED),
    ("SSH-2.0-OpenSSH_9.6", UNEXPECTED),
    ("X|27|OutOfMemory", "out of memory"),
    ("X|5|NeedsRecovery", UNEXPECTED),
];

/// What is received: these three texts, the last one in a line.
fn received(alloc: Global, front: &str, replies: &str) -> Result<Vec<u8>, AllocError> {
    let mut octets = Vec::new(alloc);
    octets.extend_from_slice(front.as_bytes())?;
    octets.extend_from_slice(replies.as_bytes())?;
    octets.push(b'\n')?;
    Ok(octets)
}

/// Whether this is printed and said of these octets.
fn is_printed(
    alloc: Global,
    words: &str,
    octets: &[u8],
    printed: &str,
    said: &str,
) -> Option<bool> {
    let played = play(alloc, words, octets, 4096, false)?;
    let code = if printed.starts_with('X') { 1 } else { 0 };
    Some(
        played.printed.as_slice() == printed.as_bytes()
            && played.code == Some(code)
            && is_said(alloc, played.lapse, said)?,
    )
}

/// Whether this is printed and said of a reply to a question for a prefix.
fn is_row(alloc: Global, reply: &str, printed: &str, said: &str) -> Option<bool> {
    let octets = received(alloc, "S|100\n", reply).ok()?;
    let words = "rha|find|--connect|127.0.0.1:1|10.0.0.0/8";
    is_printed(alloc, words, &octets, printed, said)
}

#[test]
fn refusals_are_printed_and_other_lines_are_faults(rt: HostRuntime) {
    for (reply, printed, said) in &REPLIES {
        be(
            &rt,
            is_row(rt.alloc(), reply, printed, said) == Some(true),
            reply,
        );
    }
}

/// Whether this is printed of a reply to `history`.
fn is_event(alloc: Global, reply: &str, printed: &str) -> Option<bool> {
    let front = "S|100\nC|0|::1|1|::/0\nE|1\nE|0\n";
    let octets = received(alloc, front, reply).ok()?;
    let words = "rha|find|--connect|127.0.0.1:1|::/0|--since|10";
    let said = if printed.starts_with('X') {
        UNEXPECTED
    } else {
        ""
    };
    is_printed(alloc, words, &octets, printed, said)
}

#[test]
fn events_have_times_and_ends_count_them(rt: HostRuntime) {
    for (reply, printed) in &EVENTS {
        be(
            &rt,
            is_event(rt.alloc(), reply, printed) == Some(true),
            reply,
        );
    }
}

/// Whether this is said of the first line.
fn is_opened(alloc: Global, line: &str, said: &str) -> Option<bool> {
    let octets = received(alloc, line, "").ok()?;
    let words = "rha|peers|--connect|127.0.0.1:1";
    let played = play(alloc, words, &octets, 10, true)?;
    if said.is_empty() {
        // The connection takes no second line.
        return is_said(alloc, played.lapse, "write: broken pipe");
    }
    Some(played.code.is_none() && is_said(alloc, played.lapse, said)?)
}

#[test]
fn an_archive_is_opened_by_its_watermark_alone(rt: HostRuntime) {
    for (line, said) in &OPENED {
        be(&rt, is_opened(rt.alloc(), line, said) == Some(true), line);
    }
}
