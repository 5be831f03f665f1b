//! Replies that are cut off, too long or too many.

use crate::be;
use crate::playing::{is_said, play};
use std::alloc::{AllocError, Global};

const WORDS: &str = "rha|dump|--connect|127.0.0.1:1|--at|7";

/// What is received in whole.
const REPLIES: &str = "S|8\n\
     R|0|192.0.2.1|1|10.0.0.0/8|1 2|IGP|192.0.2.1|||NAG||\n\
     M|0|192.0.2.1|1|10.0.0.0/8\n\
     R|0|192.0.2.1|1|10.0.0.0/9|1 2|IGP|192.0.2.1|||NAG||\n\
     E|1\n";

/// How many octets the first line has, and how many the first reply.
const OPENED: usize = 4;

const FIRST: usize = 84;

/// What is printed of the first reply.
const ROW: &str = "R|0|192.0.2.1|1|10.0.0.0/8|1 2|IGP|192.0.2.1|||NAG||\n";

/// What is printed if this many octets come.
fn printed_of(alloc: Global, count: usize) -> Result<String, AllocError> {
    let mut text = String::new(alloc);
    if count >= FIRST {
        text.push_str(ROW)?;
    }
    if count >= OPENED {
        text.push_str("X|1|Fault\n")?;
    }
    Ok(text)
}

/// Whether a connection that ends after this many octets, or is reset then, is reported.
fn is_reported(alloc: Global, count: usize, is_reset: bool, said: &str) -> Option<bool> {
    let octets = REPLIES.as_bytes().get(..count)?;
    let played = play(alloc, WORDS, octets, 4096, is_reset)?;
    let printed = printed_of(alloc, count).ok()?;
    Some(
        played.printed.as_slice() == printed.as_str().as_bytes()
            && (played.code == Some(1) || (played.code.is_none() && count < OPENED))
            && is_said(alloc, played.lapse, said)?,
    )
}

#[test]
fn a_reply_that_is_cut_off_is_a_fault(rt: HostRuntime) {
    let ended = "read: the connection was ended before the reply was complete";
    for count in 0..REPLIES.len() {
        let holds = is_reported(rt.alloc(), count, false, ended);
        be(&rt, holds == Some(true), "a connection that ended");
        let holds = is_reported(rt.alloc(), count, true, "read: connection reset");
        be(&rt, holds == Some(true), "a connection that was reset");
    }
}

/// A first line, and then a row whose path has this many zeros, without an end.
fn long_line(alloc: Global, zeros: usize) -> Result<Vec<u8>, AllocError> {
    let mut octets = Vec::new(alloc);
    octets.extend_from_slice("S|8\nR|".as_bytes())?;
    for _ in 0..zeros {
        octets.push(b'0')?;
    }
    Ok(octets)
}

/// Whether this is said of a line of this many octets that doesn't end.
fn is_too_long(alloc: Global, count: usize, said: &str) -> Option<bool> {
    let octets = long_line(alloc, count.checked_sub(2)?).ok()?;
    let played = play(alloc, WORDS, &octets, 4096, false)?;
    Some(
        played.printed.as_slice() == "X|1|Fault\n".as_bytes()
            && is_said(alloc, played.lapse, said)?,
    )
}

#[test]
fn a_line_is_read_up_to_its_limit(rt: HostRuntime) {
    let ended = "read: the connection was ended before the reply was complete";
    let long = "read: a line is longer than 16384 octets";
    for (count, said) in [(16_383, ended), (16_384, long), (16_385, long)] {
        be(
            &rt,
            is_too_long(rt.alloc(), count, said) == Some(true),
            said,
        );
    }
}

/// A first line, and then this many rows and their end.
fn many_rows(alloc: Global, count: u64) -> Result<Vec<u8>, AllocError> {
    let mut text = String::new(alloc);
    text.push_str("S|8\n")?;
    for number in 0..count {
        writeln!(text, "R|0|::1|{number}|::/0|1|IGP|::1|||NAG||")?;
    }
    writeln!(text, "E|{count}")?;
    let mut octets = Vec::new(alloc);
    octets.extend_from_slice(text.as_str().as_bytes())?;
    Ok(octets)
}

/// The exit status where this many rows come in one reply.
fn code_of(alloc: Global, count: u64) -> Option<u8> {
    let octets = many_rows(alloc, count).ok()?;
    play(alloc, WORDS, &octets, 4096, false)?.code
}

#[test]
fn an_answer_has_256_rows_at_most(rt: HostRuntime) {
    for (count, code) in [(0, 0), (255, 0), (256, 0), (257, 1), (258, 1)] {
        be(&rt, code_of(rt.alloc(), count) == Some(code), "many rows");
    }
}
