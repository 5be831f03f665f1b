//! Which words of a line keep it from being a request.

use crate::be;
use advice::first_misread;
use service::read_request;
use std::alloc::Global;

/// Lines, and what is said of them: the word that isn't understood, a bar, and how what has to stand there begins. Nothing of a request.
const LINES: [(&str, &str); 35] = [
    ("watermark", ""),
    ("durable 15", ""),
    ("at 7 all", ""),
    ("at 2024-01-01T00:15:00Z prefix 10.0.0.0/8", ""),
    ("at 7 route 0 192.0.2.1 65001 10.0.0.0/8", ""),
    (
        "at 7 cover 2001:db8::1 after 0 192.0.2.1 65001 10.0.0.0/8",
        "",
    ),
    (
        "at 7 peer 0 192.0.2.1 65001 after 0 192.0.2.1 65001 10.0.0.0/8",
        "",
    ),
    ("history 0 4294967295 0 192.0.2.1 65001 10.0.0.0/8", ""),
    ("history 0 7 0 192.0.2.1 65001 10.0.0.0/8 skip 256", ""),
    (
        "",
        "two words are separated by exactly one space; expected here: a question",
    ),
    (
        "hello",
        "\"hello\" isn't understood; expected here: a question",
    ),
    ("at", "the line ends too early; expected here: a moment"),
    (
        "at now all",
        "\"now\" isn't understood; expected here: a moment",
    ),
    (
        "at 4294967296 all",
        "\"4294967296\" isn't understood; expected here: a moment",
    ),
    (
        "at 7",
        "the line ends too early; expected here: what is asked of a moment",
    ),
    (
        "at  7 all",
        "two words are separated by exactly one space; expected here: a moment",
    ),
    (
        "at 7 prefixes 10.0.0.0/8",
        "\"prefixes\" isn't understood; expected here: what is asked of a moment",
    ),
    (
        "at 7 prefix 10.0.0.0",
        "\"10.0.0.0\" isn't understood; expected here: a prefix",
    ),
    (
        "at 7 prefix 10.0.0.0/33",
        "\"10.0.0.0/33\" isn't understood; expected here: a prefix",
    ),
    (
        "at 7 cover 10.0.0.0/8",
        "\"10.0.0.0/8\" isn't understood; expected here: an address",
    ),
    (
        "at 7 peer 16 192.0.2.1 65001",
        "\"16\" isn't understood; expected here: a collector's number",
    ),
    (
        "at 7 peer 0 192.0.2.1 AS65001",
        "\"AS65001\" isn't understood; expected here: an AS number",
    ),
    (
        "at 7 peer 0 192.0.2.1",
        "the line ends too early; expected here: an AS number",
    ),
    (
        "at 7 all 0",
        "\"0\" isn't understood; expected here: after, or the end of the line",
    ),
    (
        "at 7 all after 0 192.0.2.1 65001",
        "the line ends too early; expected here: a prefix",
    ),
    (
        "at 7 all after 0 192.0.2.1 65001 10.0.0.0/8 0",
        "\"0\" isn't understood; expected here: the end of the line",
    ),
    (
        "at 7 route 0 192.0.2.1 65001 10.0.0.0/8 after",
        "\"after\" isn't understood; expected here: the end of the line",
    ),
    (
        "history 0 7 0 192.0.2.1 65001 10.0.0.0/8 skip x",
        "\"x\" isn't understood; expected here: a number",
    ),
    ("changed 0 7 10.0.0.0/8 10.0.0.0/8", ""),
    (
        "changed 0 7 0.0.0.0/0 ffff::/16 after 0 192.0.2.1 65001 10.0.0.0/8",
        "",
    ),
    (
        "changed 0 7 10.0.0.0/8",
        "the line ends too early; expected here: a prefix",
    ),
    (
        "changed 0 7 10.0.0.0/8 10.0.0.0/8 skip 1",
        "\"skip\" isn't understood; expected here: after, or the end of the line",
    ),
    (
        "changed 0 10.0.0.0/8",
        "\"10.0.0.0/8\" isn't understood; expected here: a moment",
    ),
    (
        "watermark 0",
        "\"0\" isn't understood; expected here: the end of the line",
    ),
    (
        "durable",
        "the line ends too early; expected here: a collector's number",
    ),
];

/// Whether this is said of the line; nothing exactly where it is read as a request.
fn is_said(alloc: Global, line: &str, expected: &str) -> Option<bool> {
    let is_request = read_request(alloc, line).is_ok();
    let Some(it) = first_misread(line) else {
        return Some(is_request && expected.is_empty());
    };
    let text = format!(in alloc; "{it}").ok()?;
    Some(!is_request && !expected.is_empty() && text.as_str().starts_with(expected))
}

#[test]
fn a_word_that_is_not_understood_is_named(rt: HostRuntime) {
    for (line, expected) in &LINES {
        be(&rt, is_said(rt.alloc(), line, expected) == Some(true), line);
    }
}
