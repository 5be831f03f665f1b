//! The lines of a connection, read.

use crate::be;
use route_model::{Mark, Moment};
use server::{Command, read_command};
use service::{Request, RequestError};
use std::alloc::Global;

/// What a line asks.
#[derive(Clone, Copy, Debug, PartialEq, Eq)]
enum Asked {
    /// The number of admitted records of this collector is asked for.
    Durable(u8),
    Watermark,
    /// The mark of this collector, in seconds.
    Mark(u8, u64),
    Feed(u8, u16),
    Quit,
    Stop,
    /// A question.
    Question,
    /// It asks nothing.
    Nothing,
}

/// Whether the command raises the mark of this collector to `seconds`.
fn is_mark(command: &Command, collector: u8, seconds: u64) -> bool {
    match Mark::new(seconds.saturating_mul(Moment::SECOND)) {
        Some(mark) => *command == Command::Mark(collector, mark),
        None => false,
    }
}

/// Whether the command asks this.
fn is_asked(command: &Command, expected: Asked) -> bool {
    match expected {
        Asked::Durable(collector) => *command == Command::Request(Request::Durable(collector)),
        Asked::Watermark => *command == Command::Request(Request::Watermark),
        Asked::Mark(collector, seconds) => is_mark(command, collector, seconds),
        Asked::Feed(collector, limit) => *command == Command::Feed(collector, limit),
        Asked::Quit => *command == Command::Quit,
        Asked::Stop => *command == Command::Stop,
        Asked::Question => matches!(
            command,
            Command::Request(Request::Question(_) | Request::Changed(_))
        ),
        Asked::Nothing => false,
    }
}

/// Whether the line is read as this.
fn is_read(alloc: Global, line: &[u8], expected: Asked) -> bool {
    match read_command(alloc, line) {
        Ok(command) => is_asked(&command, expected),
        Err(RequestError::BadRequest) => expected == Asked::Nothing,
        Err(RequestError::OutOfMemory) => false,
    }
}

/// Lines, and what each asks.
const LINES: [(&[u8], Asked); 39] = [
    (b"at 1704067200 prefix 10.0.0.0/8", Asked::Question),
    (b"at 2024-01-01T00:00:00Z all", Asked::Question),
    (
        b"at 1704067200 route 0 192.0.2.1 65001 10.0.0.0/8",
        Asked::Question,
    ),
    (
        b"history 0 1 0 192.0.2.1 65001 10.0.0.0/8 skip 256",
        Asked::Question,
    ),
    (
        b"changed 0 1 10.0.0.0/8 10.0.0.0/8 after 0 192.0.2.1 65001 10.0.0.0/8",
        Asked::Question,
    ),
    (b"at 1704067200 route 0 192.0.2.1 65001", Asked::Nothing),
    (b"watermark", Asked::Watermark),
    (b"durable 0", Asked::Durable(0)),
    (b"durable 15", Asked::Durable(15)),
    (b"mark 0 1704067201", Asked::Mark(0, 1_704_067_201)),
    (
        b"mark 15 2024-01-01T00:00:01Z",
        Asked::Mark(15, 1_704_067_201),
    ),
    (b"mark 0 0", Asked::Mark(0, 0)),
    (b"mark 0 4294967296", Asked::Mark(0, 4_294_967_296)),
    (b"mark 0 4294967297", Asked::Nothing),
    (b"mark 16 0", Asked::Nothing),
    (b"mark 0", Asked::Nothing),
    (b"mark 0 1 2", Asked::Nothing),
    (b"mark 0 -1", Asked::Nothing),
    (b"mark 00 1", Asked::Nothing),
    (b"feed 0 1", Asked::Feed(0, 1)),
    (b"feed 15 1000", Asked::Feed(15, 1000)),
    (b"feed 0 0", Asked::Nothing),
    (b"feed 0 1001", Asked::Nothing),
    (b"feed 16 1", Asked::Nothing),
    (b"feed 0 01", Asked::Nothing),
    (b"feed 0", Asked::Nothing),
    (b"feed 0 1 ", Asked::Nothing),
    (b" feed 0 1", Asked::Nothing),
    (b"feed  0 1", Asked::Nothing),
    (b"feed\t0 1", Asked::Nothing),
    (b"quit", Asked::Quit),
    (b"stop", Asked::Stop),
    (b"quit ", Asked::Nothing),
    (b"Quit", Asked::Nothing),
    (b"quit\r", Asked::Nothing),
    (b"stop now", Asked::Nothing),
    (b"stop\0", Asked::Nothing),
    (b"quit\xff", Asked::Nothing),
    (b"", Asked::Nothing),
];

#[test]
fn lines_are_read(rt: HostRuntime) {
    for (line, expected) in &LINES {
        be(&rt, is_read(rt.alloc(), line, *expected), "lines are read");
    }
}
