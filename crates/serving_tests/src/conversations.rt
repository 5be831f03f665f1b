//! Connections whose octets lie in memory: what they receive, and how they end.

ghost use Rattle.std.specs.Prelude.{◌≡◌, ◌≤◌};
ghost use Rattle.board.specs.Opened.{name_of};

use crate::be;
use crate::made::{COLLECTORS, empty_store, failing_store};
use board::{Named, Opened, Pass};
use line_reader::LineReader;
use query_threads::{NoGate, Reader, Shared, Unpromised};
use server::{Ending, Meters, Port, serve_lines};
use service::Output;
use shared_archive::MemStore;
use std::alloc::Global;
use std::marker::Brand;
use std::sync::Wait;
use std::time::Clock;

type Stage<B> = Shared<MemStore, Unpromised<B>, NoGate>;

/// A connection: the port that it is served under, what it sends, what it receives, and how it ends.
#[derive(Drop)]
struct Conversation {
    port: Port,
    sent: &'static [u8],
    reported: &'static str,
    ending: Ending,
}

/// Takes all lines.
const ALL: Port = Port {
    read_only: false,
    closes_http: false,
};

/// Takes no `feed`, `mark` or `stop`.
const READ_ONLY: Port = Port {
    read_only: true,
    closes_http: false,
};

/// Ends connections of HTTP.
const CLOSES_HTTP: Port = Port {
    read_only: false,
    closes_http: true,
};

/// Connections to one archive, one after another.
const CONVERSATIONS: [Conversation; 14] = [
    Conversation {
        port: ALL,
        sent: b"watermark\ndurable 0\nat 0 all\nquit\nwatermark\n",
        reported: "S|0\nN|0\nX|24|AboveWatermark|0\nok\n",
        ending: Ending::Done,
    },
    Conversation {
        port: ALL,
        sent: b"mark 0 1704067201\r\nat 1704067200 all\r\nat 1704067201 all\r\nwatermark\r\n",
        reported: "S|1704067201\nE|0\nX|24|AboveWatermark|1704067201\nS|1704067201\n",
        ending: Ending::Done,
    },
    Conversation {
        port: READ_ONLY,
        sent: b"changed 0 1704067200 10.0.0.0/8 10.0.0.0/8\nchanged 0 1704067201 10.0.0.0/8 10.0.0.0/8\n",
        reported: "E|0\nX|24|AboveWatermark|1704067201\n",
        ending: Ending::Done,
    },
    Conversation {
        port: ALL,
        sent: b"mark 0 1704067201.25\nwatermark\nmark 0 1704067201.249999\n",
        reported: "S|1704067201.250000\nS|1704067201.250000\nX|21|MarkBack\n",
        ending: Ending::Done,
    },
    Conversation {
        port: ALL,
        sent: b"mark 0 1704067200\nmark 1 5\ndurable 1\nmark 0 2024-01-01T00:00:02Z\n",
        reported: "X|21|MarkBack\nX|22|NoCollector\nX|22|NoCollector\nS|1704067202\n",
        ending: Ending::Done,
    },
    Conversation {
        port: ALL,
        sent: b"\nhello\nmark 0\n\xff\nat 1704067200 route 0 192.0.2.1 65001\ndurable 0",
        reported: "X|28|BadRequest\nX|28|BadRequest\nX|28|BadRequest\nX|28|BadRequest\nX|28|BadRequest\n",
        ending: Ending::Done,
    },
    Conversation {
        port: ALL,
        sent: b"durable 0\nfeed 0 7\nwatermark\n",
        reported: "N|0\n",
        ending: Ending::Feed(0, 7),
    },
    Conversation {
        port: ALL,
        sent: b"stop\nwatermark\n",
        reported: "ok\n",
        ending: Ending::Stop,
    },
    Conversation {
        port: ALL,
        sent: b"",
        reported: "",
        ending: Ending::Done,
    },
    Conversation {
        port: READ_ONLY,
        sent: b"mark 0 1704067300\nfeed 0 7\nstop\nwatermark\ndurable 0\nquit\n",
        reported: "X|28|BadRequest\nX|28|BadRequest\nX|28|BadRequest\nS|1704067202\nN|0\nok\n",
        ending: Ending::Done,
    },
    Conversation {
        port: READ_ONLY,
        sent: b"POST / HTTP/1.1\r\n\r\nmark 0 4294967296\nwatermark\n",
        reported: "X|28|BadRequest\nX|28|BadRequest\nX|28|BadRequest\nS|1704067202\n",
        ending: Ending::Done,
    },
    Conversation {
        port: CLOSES_HTTP,
        sent: b"watermark\nPOST / HTTP/1.1\r\n\r\nmark 0 4294967296\nstop\n",
        reported: "S|1704067202\nX|28|BadRequest\n",
        ending: Ending::Done,
    },
    Conversation {
        port: CLOSES_HTTP,
        sent: b"GET / HTTP/1.0\nstop\n",
        reported: "X|28|BadRequest\n",
        ending: Ending::Done,
    },
    Conversation {
        port: CLOSES_HTTP,
        sent: b"GET / HTTP/1.1 \nHTTP/1.1\nGET /\nstop\n",
        reported: "X|28|BadRequest\nX|28|BadRequest\nX|28|BadRequest\nok\n",
        ending: Ending::Stop,
    },
];

/// Connections to an archive whose device fails at the first commit, and which nobody opens again.
const REFUSED: [Conversation; 2] = [
    Conversation {
        port: ALL,
        sent: b"mark 0 1704067201\nmark 0 1704067201\nat 0 all\nwatermark\ndurable 0\nmark 1 5\n",
        reported: "X|1|Fault\nX|5|NeedsRecovery\nX|5|NeedsRecovery\nS|0\nN|0\nX|5|NeedsRecovery\n",
        ending: Ending::Done,
    },
    Conversation {
        port: READ_ONLY,
        sent: b"at 0 all\nwatermark\nquit\n",
        reported: "X|5|NeedsRecovery\nS|0\nok\n",
        ending: Ending::Done,
    },
];

/// Whether a connection receives this and ends so.
fn is_so<B: Named>(
    rt: &(impl Wait + Clock),
    alloc: Global,
    stage: &Stage<B>,
    first: &mut Pass<Unpromised<B>>,
    it: &Conversation,
) -> Option<bool> {
    let mut pass = stage.split(first);
    let mut reader = Reader::new(rt, alloc, stage, 1).ok()?;
    let meters = Meters::new();
    let mut reported = Vec::new(alloc);
    let mut lines = LineReader::new(it.sent);
    let mut out = Output::new(&mut reported);
    let ending = serve_lines(
        rt,
        alloc,
        stage,
        it.port,
        &mut pass,
        &mut reader,
        &meters,
        &mut lines,
        &mut out,
    );
    Some(ending == it.ending && reported.as_slice() == it.reported.as_bytes())
}

/// How many of the connections are as they should be, before the first that isn't.
fn count_right<B: Named>(
    rt: &(impl Wait + Clock),
    alloc: Global,
    stage: &Stage<B>,
    first: &mut Pass<Unpromised<B>>,
    conversations: &[Conversation],
) -> Option<usize> {
    for (place, it) in conversations.iter().enumerate() {
        if !is_so(rt, alloc, stage, first, it)? {
            return Some(place);
        }
    }
    Some(conversations.len())
}

fn play<B: Named>(
    rt: &(impl Wait + Clock),
    alloc: Global,
    opened: Opened,
    store: MemStore,
    conversations: &[Conversation],
) -> Option<usize>
    requires named { name_of opened ≡ B.table }
    requires some { 1 ≤ opened.collectors }
{
    let (stage, mut first): (Stage<B>, Pass<Unpromised<B>>) = Shared::new::<Unpromised<B>>(
        opened, store, NoGate,
    );
    let right = count_right(rt, alloc, &stage, &mut first, conversations);
    let _store = stage.close(Vec::new(alloc));
    right
}

/// How many of the connections to an archive are as they should be.
fn played(
    rt: &(impl Wait + Clock),
    alloc: Global,
    store: MemStore,
    conversations: &[Conversation],
) -> Option<usize> {
    let opened = Opened::new(alloc, COLLECTORS).ok()?;
    play::<Brand>(rt, alloc, opened, store, conversations)
}

#[test]
fn connections_are_replied_what_they_ask(rt: HostRuntime) {
    let store = empty_store(rt.alloc()).expect(&rt, "an archive");
    let right = played(&rt, rt.alloc(), store, &CONVERSATIONS);
    be(&rt, right == Some(CONVERSATIONS.len()), "all connections");
}

#[test]
fn a_failed_device_is_reported_until_the_archive_is_opened_again(rt: HostRuntime) {
    let store = failing_store(rt.alloc()).expect(&rt, "an archive");
    let right = played(&rt, rt.alloc(), store, &REFUSED);
    be(&rt, right == Some(REFUSED.len()), "all connections");
}
