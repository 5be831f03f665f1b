//! Lines of streams, and what is left after them.

use crate::be;
use crate::readers::{Broken, Slow};
use line_reader::{Found, LIMIT, LineError, LineReader};
use std::alloc::Global;
use std::io::Read;
use std::process::Abort;

/// The lines of a stream until one isn't read: each between angle brackets, then `.` for the end, `!` for a line that is too
/// long or `?` for a failure.
fn push_lines<R: Read>(rt: &impl Abort, lines: &mut LineReader<R>, reported: &mut Vec<u8>) {
    for _ in 0..100 {
        let mark = match lines.read_line() {
            Ok(Found::Line) => {
                reported.push(b'<').expect(rt, "memory");
                reported
                    .extend_from_slice(lines.line())
                    .expect(rt, "memory");
                reported.push(b'>').expect(rt, "memory");
                continue;
            }
            Ok(Found::End) => b'.',
            Err(LineError::TooLong) => b'!',
            Err(LineError::Failed(_)) => b'?',
        };
        reported.push(mark).expect(rt, "memory");
        break;
    }
}

/// The lines of a stream, and what it gives after them.
fn reported_of<R: Read + Drop>(rt: &impl Abort, alloc: Global, reader: R) -> Vec<u8> {
    let mut reported = Vec::new(alloc);
    let mut lines = LineReader::new(reader);
    push_lines(rt, &mut lines, &mut reported);
    lines.read_to_end(&mut reported).expect(rt, "a stream");
    reported
}

/// Whether a stream has these lines, at once and octet by octet.
fn has_lines(rt: &impl Abort, alloc: Global, stream: &[u8], expected: &[u8]) -> bool {
    let at_once = reported_of(rt, alloc, stream);
    let slowly = reported_of(rt, alloc, Slow::new(stream));
    at_once.as_slice() == expected && slowly.as_slice() == expected
}

/// A line ends in LF, or in CR and LF; any other octet stands in it, and what has no end is no line.
const STREAMS: [(&[u8], &[u8]); 9] = [
    (b"", b"."),
    (
        b"mark 0 1704067201\ndurable 0\r\nquit\n",
        b"<mark 0 1704067201><durable 0><quit>.",
    ),
    (b"\n\r\n\r\r\n", b"<><><\r>."),
    (b"quit", b".quit"),
    (b"quit\r", b".quit\r"),
    (b"quit\nsto", b"<quit>.sto"),
    (b"a\rb\n\rc\n", b"<a\rb><\rc>."),
    (b"a\0b\xff\xfe\n \n", b"<a\0b\xff\xfe>< >."),
    (b"\r", b".\r"),
];

#[test]
fn lines_end_in_line_feeds(rt: HostRuntime) {
    for (stream, expected) in STREAMS {
        be(
            &rt,
            has_lines(&rt, rt.alloc(), stream, expected),
            "lines end in line feeds",
        );
    }
}

/// This many octets, then these.
fn long(rt: &impl Abort, alloc: Global, count: usize, beyond: &[u8]) -> Vec<u8> {
    let mut octets = Vec::new(alloc);
    octets.resize(count, b'a').expect(rt, "memory");
    octets.extend_from_slice(beyond).expect(rt, "memory");
    octets
}

/// How many octets the first line has, where it is one; the mark of why it isn't, else.
fn first_len<R: Read + Drop>(reader: R) -> Result<usize, u8> {
    let mut lines = LineReader::new(reader);
    match lines.read_line() {
        Ok(Found::Line) => Ok(lines.line().len()),
        Ok(Found::End) => Err(b'.'),
        Err(LineError::TooLong) => Err(b'!'),
        Err(LineError::Failed(_)) => Err(b'?'),
    }
}

/// 4,096 octets with the end are a line, and one more is too long.
const LONG: [(usize, &[u8], Result<usize, u8>); 7] = [
    (4095, b"\n", Ok(4095)),
    (4094, b"\r\n", Ok(4094)),
    (4095, b"\nquit\n", Ok(4095)),
    (4096, b"\n", Err(b'!')),
    (4095, b"\r\n", Err(b'!')),
    (4095, b"", Err(b'.')),
    (4096, b"", Err(b'!')),
];

#[test]
fn lines_have_a_limit(rt: HostRuntime) {
    be(&rt, LIMIT == 4096, "lines have a limit");
    for (count, beyond, expected) in LONG {
        let stream = long(&rt, rt.alloc(), count, beyond);
        be(
            &rt,
            first_len(stream.as_slice()) == expected,
            "octets at once",
        );
        be(
            &rt,
            first_len(Slow::new(&stream)) == expected,
            "octets slowly",
        );
    }
}

/// What stands after a line that was read, and what stands after that.
fn after_first<R: Read + Drop>(rt: &impl Abort, alloc: Global, reader: R) -> Vec<u8> {
    let mut lines = LineReader::new(reader);
    let _ = lines.read_line();
    let mut beyond = Vec::new(alloc);
    lines.read_to_end(&mut beyond).expect(rt, "a stream");
    beyond
}

#[test]
fn octets_after_a_line_are_left(rt: HostRuntime) {
    let octets = long(&rt, rt.alloc(), 9000, b"\nend\n");
    let mut stream = Vec::from_slice(rt.alloc(), b"feed 0 1\n").expect(&rt, "memory");
    stream.extend_from_slice(&octets).expect(&rt, "memory");
    let at_once = after_first(&rt, rt.alloc(), stream.as_slice());
    be(
        &rt,
        at_once.as_slice() == octets.as_slice(),
        "octets after a line are left",
    );
    let slowly = after_first(&rt, rt.alloc(), Slow::new(&stream));
    be(
        &rt,
        slowly.as_slice() == octets.as_slice(),
        "octets after a line are left",
    );
}

/// The lines of a stream that fails once, read on after the failure.
fn reported_of_broken(rt: &impl Abort, alloc: Global, before: &[u8], after: &[u8]) -> Vec<u8> {
    let mut reported = Vec::new(alloc);
    let mut lines = LineReader::new(Broken::new(before, after));
    push_lines(rt, &mut lines, &mut reported);
    push_lines(rt, &mut lines, &mut reported);
    reported
}

#[test]
fn a_failed_read_loses_nothing(rt: HostRuntime) {
    let reported = reported_of_broken(&rt, rt.alloc(), b"quit\nma", b"rk 0 1\n");
    be(
        &rt,
        reported.as_slice() == b"<quit>?<mark 0 1>.".as_slice(),
        "a failed read loses nothing",
    );
}
