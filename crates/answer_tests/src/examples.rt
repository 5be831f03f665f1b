//! Worked examples of questions: the octets of records, request lines, and the lines that answer them.

use crate::asking::{answers_as, ask};
use crate::be;
use crate::made::{Made, Reader, loaded, reader_of};
use std::alloc::Global;
use test_octets::octets;

/// A message of 192.0.2.1, AS 65001: an UPDATE that announces 10.0.0.0/8 by 65001 65002, at 1704067200.
const UPDATE: &str = "65920080 0010 0001 0000003D FDE9 FC00 0000 0001 C0000201 C0000202
    FFFFFFFFFFFFFFFFFFFFFFFFFFFFFFFF 002D 02 0000 0014 40010100 4002060202FDE9FDEA 400304C0000201 080A";

/// The session of the peer ends.
const SESSION_DOWN: &str =
    "65920080 0010 0000 00000014 FDE9 FC00 0000 0001 C0000201 C0000202 0006 0001";

/// The UPDATE with the path 65001 65003.
const OTHER_PATH: &str = "65920080 0010 0001 0000003D FDE9 FC00 0000 0001 C0000201 C0000202
    FFFFFFFFFFFFFFFFFFFFFFFFFFFFFFFF 002D 02 0000 0014 40010100 4002060202FDE9FDEB 400304C0000201 080A";

/// Two prefixes, 10.0.0.0/8 and 10.128.0.0/9; bits of the second are set past its length.
const TWO_PREFIXES: &str = "65920080 0010 0001 00000040 FDE9 FC00 0000 0001 C0000201 C0000202
    FFFFFFFFFFFFFFFFFFFFFFFFFFFFFFFF 0030 02 0000 0014 40010100 4002060202FDE9FDEA 400304C0000201 080A 090AFF";

/// An UPDATE that announces 2001:db8::/32 by 65001 65002.
const IPV6: &str = "65920080 0010 0004 00000059 0000FDE9 0000FC00 0000 0001 C0000201 C0000202
    FFFFFFFFFFFFFFFFFFFFFFFFFFFFFFFF 0045 02 0000 002E 40010100 40020A02020000FDE90000FDEA
    800E1A 0002 01 10 20010DB8000000000000000000000001 00 20 20010DB8";

/// An UPDATE that announces 257 prefixes, which are to follow: 10.0.0.0/24 to 10.1.0.0/24.
const MANY: &str = "65920080 0010 0001 0000043F FDE9 FC00 0000 0001 C0000201 C0000202
    FFFFFFFFFFFFFFFFFFFFFFFFFFFFFFFF 042F 02 0000 0014 40010100 4002060202FDE9FDEA 400304C0000201";

const NINE: &str = "R|0|192.0.2.1|65001|10.128.0.0/9|65001 65002|IGP|192.0.2.1|||NAG||
E|1
";

const BOTH: &str = "R|0|192.0.2.1|65001|10.0.0.0/8|65001 65002|IGP|192.0.2.1|||NAG||
R|0|192.0.2.1|65001|10.128.0.0/9|65001 65002|IGP|192.0.2.1|||NAG||
E|2
";

const SIX: &str = "R|0|192.0.2.1|65001|2001:db8::/32|65001 65002|IGP|2001:db8::1|||NAG||
E|1
";

const OTHER: &str = "R|0|192.0.2.1|65001|10.0.0.0/8|65001 65003|IGP|192.0.2.1|||NAG||
E|1
";

const THREE_EVENTS: &str = "A|1704067200|65001 65002|IGP|192.0.2.1|||NAG||
D|1704067200
A|1704067200|65001 65003|IGP|192.0.2.1|||NAG||
E|3
";

const TWO_EVENTS: &str = "D|1704067200
A|1704067200|65001 65003|IGP|192.0.2.1|||NAG||
E|2
";

/// Records that are loaded into an empty archive of one collector with the mark 1704067201, and request lines with the lines
/// that answer them.
struct Example {
    records: &'static [&'static str],
    answers: &'static [(&'static str, &'static str)],
}

const EXAMPLES: [Example; 4] = [
    Example {
        records: &[UPDATE, SESSION_DOWN],
        answers: &[("at 1704067200 prefix 10.0.0.0/8", "E|0\n")],
    },
    Example {
        records: &[UPDATE, SESSION_DOWN, OTHER_PATH],
        answers: &[
            ("at 1704067200 prefix 10.0.0.0/8", OTHER),
            (
                "history 1704067200 1704067200 0 192.0.2.1 65001 10.0.0.0/8",
                THREE_EVENTS,
            ),
            (
                "history 0 1704067200 0 192.0.2.1 65001 10.0.0.0/8 skip 1",
                TWO_EVENTS,
            ),
            ("history 0 1704067199 0 192.0.2.1 65001 10.0.0.0/8", "E|0\n"),
            (
                "history 0 1704067201 0 192.0.2.1 65001 10.0.0.0/8",
                "above\n",
            ),
        ],
    },
    Example {
        records: &[TWO_PREFIXES],
        answers: &[
            ("at 1704067200 peer 0 192.0.2.1 65001", BOTH),
            (
                "at 1704067200 peer 0 192.0.2.1 65001 after 0 192.0.2.1 65001 10.0.0.0/8",
                NINE,
            ),
            ("at 1704067200 route 0 192.0.2.1 65001 10.255.0.0/9", NINE),
            ("at 1704067200 cover 10.128.0.1", BOTH),
            ("at 1704067199 all", "E|0\n"),
        ],
    },
    Example {
        records: &[IPV6],
        answers: &[
            ("at 1704067200 cover 2001:db8::5", SIX),
            ("at 1704067200 cover 2001:db9::5", "E|0\n"),
            ("at 1704067201 cover 2001:db8::5", "above\n"),
        ],
    },
];

// The octets of records.
fn stream(alloc: Global, records: &[&str]) -> Option<Vec<u8>> {
    let mut stream = Vec::new(alloc);
    for record in records {
        stream.extend_from_slice(&octets(alloc, record).ok()?).ok()?;
    }
    Some(stream)
}

/// The first of these lines that isn't answered by its lines.
fn wrongly_answered(
    alloc: Global,
    archive: &mut Made,
    answers: &[(&'static str, &'static str)],
) -> Option<&'static str> {
    let Some(mut reader) = reader_of(archive, 1) else {
        return Some("no reader");
    };
    for (line, lines) in answers {
        if !answers_as(alloc, archive, &mut reader, line, lines) {
            return Some(line);
        }
    }
    None
}

/// The first request line of an example that isn't answered by its lines.
fn wrong_line(alloc: Global, example: &Example) -> Option<&'static str> {
    let octets = stream(alloc, example.records).unwrap_or(Vec::new(alloc));
    match loaded(alloc, &octets) {
        Some(mut archive) => wrongly_answered(alloc, &mut archive, example.answers),
        None => Some("not loaded"),
    }
}

#[test]
fn examples_are_answered(rt: HostRuntime) {
    for example in &EXAMPLES {
        let wrong = wrong_line(rt.alloc(), example);
        be(&rt, wrong.is_none(), wrong.unwrap_or(""));
    }
}

/// Request lines of 257 prefixes, how many lines their answers have, and the last of these.
const CUT: [(&str, usize, &str); 3] = [
    (
        "at 1704067200 all",
        257,
        "M|0|192.0.2.1|65001|10.0.255.0/24",
    ),
    (
        "at 1704067200 all after 0 192.0.2.1 65001 10.0.255.0/24",
        2,
        "E|1",
    ),
    // Exactly 256 are the end.
    (
        "at 1704067200 peer 0 192.0.2.1 65001 after 0 192.0.2.1 65001 10.0.0.0/24",
        257,
        "E|256",
    ),
];

fn many_prefixes(alloc: Global) -> Option<Vec<u8>> {
    let mut octets = octets(alloc, MANY).ok()?;
    for third in 0..=255u8 {
        octets.extend_from_slice(&[24, 10, 0, third]).ok()?;
    }
    octets.extend_from_slice(&[24, 10, 1, 0]).ok()?;
    Some(octets)
}

/// Whether an answer to the line has this many lines, of which this one is the last.
fn is_cut(
    alloc: Global,
    archive: &mut Made,
    reader: &mut Reader,
    line: &str,
    count: usize,
    ending: &str,
) -> bool {
    match ask(alloc, archive, reader, line) {
        Some(text) => {
            text.as_str().lines().count() == count && text.as_str().lines().last() == Some(ending)
        }
        None => false,
    }
}

/// The first line whose answer isn't cut as it has to be.
fn wrongly_cut(alloc: Global, archive: &mut Made) -> Option<&'static str> {
    let Some(mut reader) = reader_of(archive, 1) else {
        return Some("no reader");
    };
    for (line, count, ending) in &CUT {
        if !is_cut(alloc, archive, &mut reader, line, *count, ending) {
            return Some(line);
        }
    }
    None
}

#[test]
fn answers_of_256_rows_name_where_to_go_on(rt: HostRuntime) {
    let alloc = rt.alloc();
    let octets = many_prefixes(alloc).unwrap_or(Vec::new(alloc));
    let mut archive = loaded(alloc, &octets).expect(&rt, "an archive");
    let wrong = wrongly_cut(alloc, &mut archive);
    be(&rt, wrong.is_none(), wrong.unwrap_or(""));
}
