//! Request lines as they are read, and lines as they are written.

use crate::be;
use interleaving_core::{BatchReply, Query, Receipt};
use route_meaning::{ChangedQuestion, RowsQuestion, Select, Spot};
use route_model::{Address, Mark, Moment, Peer, Prefix};
use sequencer::Late;
use service::{
    FeedCounts, Output, Refusal, Request, RequestError, read_request, write_admitted, write_counts,
    write_error, write_reason, write_refusal, write_refused_record, write_settled,
};
use std::alloc::Global;

/// Lines that ask nothing.
const NO_REQUESTS: [&str; 79] = [
    "",
    "at",
    "at 7",
    "at 7 ",
    "at 7 prefix",
    "at 7  prefix 10.0.0.0/8",
    " at 7 prefix 10.0.0.0/8",
    "at 7 prefix 10.0.0.0/8 ",
    "At 7 prefix 10.0.0.0/8",
    "at 7 PREFIX 10.0.0.0/8",
    "at0 7 prefix 10.0.0.0/8",
    "at 07 prefix 10.0.0.0/8",
    "at 1.5000000 prefix 10.0.0.0/8",
    "at 1704067200. all",
    "at .5 all",
    "at 01.5 all",
    "at 1.+5 all",
    "at 1,5 all",
    "at -1.5 all",
    "at 1.5.5 all",
    "at 4294967296.0 all",
    "at 2024-01-01T00:00:00.0000005Z all",
    "at 2024-02-30T00:00:00Z all",
    "at 7 prefix 10.0.0.0/33",
    "at 7 prefix 10.0.0.0/8 after",
    "at 7 prefix 10.0.0.0/8 after 16 192.0.2.1 65001 10.0.0.0/8",
    "at 7 prefix 10.0.0.0/8 after 0 192.0.2.1 4294967296 10.0.0.0/8",
    "at 7 prefix 10.0.0.0/8 after 0 192.0.2.1 65001 10.0.0.0/8 more",
    "at 7 prefix 10.0.0.0/8 behind 0 192.0.2.1 65001 10.0.0.0/8",
    "at 4294967296 prefix 10.0.0.0/8",
    "at 7 route 0 192.0.2.1 65001",
    "at 7 route 0 192.0.2.1 10.0.0.0/8",
    "at 7 route 0 192.0.2.1 65001 10.0.0.0/8/",
    "at 7 route 0 192.0.2.1 65001 10.0.0.0/8 after 0 192.0.2.1 65001 10.0.0.0/8",
    "at 7 cover",
    "at 7 cover 10.0.0.0/8",
    "at 7 cover 10.0.0.1 x",
    "at 7 cover g::",
    "at 7 cover0 10.0.0.1",
    "at 7 cover 10.0.0.1 after 0 192.0.2.1 65001",
    "at 7 peer",
    "at 7 peer 192.0.2.1 65001",
    "at 7 peer 0 192.0.2.256 65001",
    "at 7 peer 0 192.0.2.1 65001 10.0.0.0/8",
    "at 7 peer 0 192.0.2.1 65001 after 0 192.0.2.1 65001 10.0.0.0/8 skip",
    "at 7 all 0",
    "at 7 allx",
    "at 7 all after x 192.0.2.1 65001 10.0.0.0/8",
    "history",
    "history 0 7 0 192.0.2.1 65001",
    "history 7 0 192.0.2.1 65001 10.0.0.0/8",
    "history 0 7 0 192.0.2.1 65001 10.0.0.0/8 skip",
    "history 0 7 0 192.0.2.1 65001 10.0.0.0/8 skip 01",
    "history 0 7 0 192.0.2.1 65001 10.0.0.0/8 skip -1",
    "history 0 7 0 192.0.2.1 65001 10.0.0.0/8 skip 18446744073709551616",
    "history 0 7 0 192.0.2.1 65001 10.0.0.0/8 skip 1 x",
    "history 0 7 0 192.0.2.1 65001 10.0.0.0/8 after 0 192.0.2.1 65001 10.0.0.0/8",
    "history 0 4294967296 0 192.0.2.1 65001 10.0.0.0/8",
    "history now 7 0 192.0.2.1 65001 10.0.0.0/8",
    "changed",
    "changed 0 7",
    "changed 0 7 10.0.0.0/8",
    "changed 0 10.0.0.0/8 10.0.0.0/8",
    "changed 0 7 10.0.0.0/8 10.0.0.0",
    "changed 0 4294967296 10.0.0.0/8 10.0.0.0/8",
    "changed 0 7 10.0.0.0/8 10.0.0.0/8 after 0 192.0.2.1 65001",
    "changed 0 7 10.0.0.0/8 10.0.0.0/8 skip 1",
    "watermark 1",
    "Watermark",
    "watermark ",
    "durable",
    "durable 16",
    "durable 00",
    "durable 0 0",
    "mark 0 5",
    "feed 0 10",
    "quit",
    "stop",
    "now",
];

/// The question for 10.0.0.0/8 at the moment 7, after this spot.
fn ten_at_7(after: Option<Spot>) -> Request {
    let question = Query::Rows(RowsQuestion {
        moment: Moment::from(7),
        select: Select::ByPrefix(Prefix::containing(Address::V4([10, 0, 0, 0]), 8)),
        after,
    });
    Request::Question(question)
}

/// The question of what changed from 10.0.0.0/8 to 10.0.0.0/9, after this spot.
fn changed_to_7(after: Option<Spot>) -> Request {
    Request::Changed(ChangedQuestion {
        from: Moment::from(0),
        to: Moment::from(7),
        low: Prefix::containing(Address::V4([10, 0, 0, 0]), 8),
        high: Prefix::containing(Address::V4([10, 0, 0, 0]), 9),
        after,
    })
}

/// A spot after which a question goes on.
fn last_spot() -> Spot {
    Spot {
        peer: Peer {
            collector: 15,
            address: Address::V4([192, 0, 2, 1]),
            as_number: 4_294_967_295,
        },
        prefix: Prefix::containing(Address::V4([10, 0, 0, 0]), 8),
    }
}

/// Whether a line asks this.
fn is_read(alloc: Global, line: &str, request: Request) -> bool {
    read_request(alloc, line) == Ok(request)
}

/// Whether a line asks nothing.
fn is_no_request(alloc: Global, line: &str) -> bool {
    read_request(alloc, line) == Err(RequestError::BadRequest)
}

#[test]
fn lines_are_read_word_by_word(rt: HostRuntime) {
    let alloc = rt.alloc();
    let line = "at 7 prefix 10.0.0.0/8";
    be(&rt, is_read(alloc, line, ten_at_7(None)), line);
    let line = "at 7 prefix 10.1.2.3/8 after 15 192.0.2.1 4294967295 10.0.0.0/8";
    be(&rt, is_read(alloc, line, ten_at_7(Some(last_spot()))), line);
    let line = "changed 0 7 10.0.0.0/8 10.0.0.0/9";
    be(&rt, is_read(alloc, line, changed_to_7(None)), line);
    let line =
        "changed 0 1970-01-01T00:00:07Z 10.1.2.3/8 10.1.2.3/9 after 15 192.0.2.1 4294967295 10.0.0.0/8";
    be(
        &rt,
        is_read(alloc, line, changed_to_7(Some(last_spot()))),
        line,
    );
    for line in &NO_REQUESTS {
        be(&rt, is_no_request(alloc, line), line);
    }
}

/// The lines of what is written below.
const LINES: &str = "B|0|2|3
L|1|99|100
F|5|1|2|3|4
S|7
X|28|BadRequest
X|14|TooLong|8
rha: 12 BadText
rha: 12 BadText: --mark is none
";

/// Writes each of the lines once.
fn write_all(lines: &mut Output<&mut Vec<u8>>, admitted: &BatchReply) {
    write_admitted(lines, admitted);
    let counts = FeedCounts {
        records: 5,
        admitted: 1,
        late: 2,
        refused: 3,
        skipped: 4,
    };
    write_counts(lines, &counts);
    write_settled(lines, Mark::at(Moment::from(7)));
    write_refusal(lines, &Refusal::BadRequest);
    write_refused_record(lines, &Refusal::TooLong, 8);
    write_error(lines, &Refusal::BadText);
    write_reason(lines, &Refusal::BadText, "--mark is none");
}

/// A batch of three records, of which the second came late.
fn admitted(alloc: Global) -> Option<BatchReply> {
    let mut late = Vec::new(alloc);
    late.push(Late {
        index: 1,
        time: Moment::from(99),
        mark: Mark::at(Moment::from(100)),
    })
    .ok()?;
    let receipt = Receipt {
        collector: 0,
        from: 0,
        to: 2,
    };
    Some(BatchReply {
        receipt,
        offered: 3,
        late,
    })
}

/// Whether all lines are written.
fn are_written(alloc: Global) -> Option<bool> {
    let mut out: Vec<u8> = Vec::new(alloc);
    write_all(&mut Output::new(&mut out), &admitted(alloc)?);
    Some(out.as_slice() == LINES.as_bytes())
}

#[test]
fn lines_are_written(rt: HostRuntime) {
    be(&rt, are_written(rt.alloc()) == Some(true), "lines");
}
