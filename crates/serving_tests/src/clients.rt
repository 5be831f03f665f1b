//! Connections whose octets lie in memory: what they receive, and how they close.

ghost use Rattle.std.specs.Prelude.{◌≡◌, ◌≤◌};
ghost use Rattle.board.specs.Opened.{name_of};

use crate::be;
use crate::made::{COLLECTORS, empty_store};
use crate::records::{EARLIER, FRONT, LONG_PREFIX, RIB, SKIPPED, TOO_LONG, UPDATE};
use board::{Named, Opened, Pass};
use line_reader::LineReader;
use query_threads::{NoGate, Reader, Shared, Unpromised};
use server::{Meters, Port};
use service::Output;
use serving::{Closing, serve_client};
use shared_archive::MemStore;
use std::alloc::Global;
use std::io;
use std::io::{Error, ErrorKind, Read};
use std::marker::Brand;
use std::sync::Wait;
use std::time::Clock;
use test_octets::octets;

type Stage<B> = Shared<MemStore, Unpromised<B>, NoGate>;

/// A connection to an archive to which nothing was given: the lines and, as hexadecimal digits, the octets that it
/// sends, what it receives, and how it closes. Where it closes as failed, it is lost after what it sends; else it ends
/// there.
#[derive(Drop)]
struct Conversation {
    lines: &'static str,
    octets: [&'static str; 3],
    reported: &'static str,
    closing: Closing,
}

/// What the connections may ask.
const PORT: Port = Port {
    read_only: false,
    closes_http: true,
};

const CONVERSATIONS: [Conversation; 13] = [
    Conversation {
        lines: "watermark\nfeed 0 0\nquit\nwatermark\n",
        octets: ["", "", ""],
        reported: "S|0\nX|28|BadRequest\nok\n",
        closing: Closing::Done,
    },
    Conversation {
        lines: "stop\nwatermark\n",
        octets: ["", "", ""],
        reported: "ok\n",
        closing: Closing::Stop,
    },
    Conversation {
        lines: "durable 0\nwater",
        octets: ["", "", ""],
        reported: "N|0\n",
        closing: Closing::Done,
    },
    Conversation {
        lines: "durable 0\nwater",
        octets: ["", "", ""],
        reported: "N|0\n",
        closing: Closing::Failed,
    },
    Conversation {
        lines: "feed 0 1000\n",
        octets: ["", "", ""],
        reported: "F|0|0|0|0|0\n",
        closing: Closing::Done,
    },
    Conversation {
        lines: "feed 0 2\n",
        octets: [UPDATE, EARLIER, UPDATE],
        reported: "B|0|1|2\nL|1|1704067199|1704067200\nB|1|2|3\nF|3|2|1|0|0\n",
        closing: Closing::Done,
    },
    Conversation {
        lines: "mark 0 1704067201\r\nat 1704067200 all\r\nfeed 0 1\r\n",
        octets: [UPDATE, "", ""],
        reported: "S|1704067201\nE|0\nB|0|0|1\nL|0|1704067200|1704067201\nF|1|0|1|0|0\n",
        closing: Closing::Done,
    },
    Conversation {
        lines: "feed 0 1000\n",
        octets: [LONG_PREFIX, SKIPPED, UPDATE],
        reported: "X|15|Malformed|0\nB|0|1|1\nF|3|1|0|1|1\n",
        closing: Closing::Done,
    },
    Conversation {
        lines: "feed 0 1000\n",
        octets: [RIB, "", ""],
        reported: "X|17|NoPeerTable|0\nF|1|0|0|1|0\n",
        closing: Closing::Done,
    },
    Conversation {
        lines: "feed 0 1000\n",
        octets: [UPDATE, TOO_LONG, UPDATE],
        reported: "B|0|1|1\nX|14|TooLong|1\nF|1|1|0|0|0\n",
        closing: Closing::Done,
    },
    Conversation {
        lines: "feed 0 1\n",
        octets: [UPDATE, FRONT, ""],
        reported: "B|0|1|1\nX|13|Truncated|1\nF|1|1|0|0|0\n",
        closing: Closing::Done,
    },
    Conversation {
        lines: "feed 0 1\n",
        octets: [UPDATE, FRONT, ""],
        reported: "B|0|1|1\nX|29|Outside\n",
        closing: Closing::Failed,
    },
    Conversation {
        lines: "feed 1 1\n",
        octets: [UPDATE, "", ""],
        reported: "X|22|NoCollector\n",
        closing: Closing::Done,
    },
];

/// A connection that gives these octets, and is lost then or ends.
#[derive(Drop)]
struct Sent<'a> {
    octets: &'a [u8],
    is_lost: bool,
}

impl Read for Sent<'_> {
    fn read(&mut self, piece: &mut [u8]) -> io::Result<usize> {
        if self.octets.is_empty() && self.is_lost {
            return Err(Error::from(ErrorKind::ConnectionReset));
        }
        self.octets.read(piece)
    }
}

/// The octets that a connection sends.
fn octets_of(alloc: Global, it: &Conversation) -> Option<Vec<u8>> {
    let mut all = it.lines.as_bytes().to_vec(alloc).ok()?;
    for digits in &it.octets {
        all.extend_from_slice(&octets(alloc, digits).ok()?).ok()?;
    }
    Some(all)
}

/// What a connection receives goes to `reported`. Returns how it closes.
fn serve_sent<B: Named>(
    rt: &(impl Wait + Clock),
    alloc: Global,
    stage: &Stage<B>,
    first: &mut Pass<Unpromised<B>>,
    sent: Sent<'_>,
    reported: &mut Vec<u8>,
) -> Option<Closing> {
    let mut pass = stage.split(first);
    let mut reader = Reader::new(rt, alloc, stage, 1).ok()?;
    let meters = Meters::new();
    let mut lines = LineReader::new(sent);
    let mut out = Output::new(reported);
    Some(serve_client(
        rt,
        alloc,
        stage,
        PORT,
        &mut pass,
        &mut reader,
        &meters,
        &mut lines,
        &mut out,
    ))
}

/// Whether a connection to the archive that sends all of these octets receives what it should, and closes so.
fn is_so<B: Named>(
    rt: &(impl Wait + Clock),
    alloc: Global,
    opened: Opened,
    store: MemStore,
    it: &Conversation,
    all: &[u8],
) -> bool
    requires named { name_of opened ≡ B.table }
    requires some { 1 ≤ opened.collectors }
{
    let (stage, mut first): (Stage<B>, Pass<Unpromised<B>>) = Shared::new::<Unpromised<B>>(
        opened, store, NoGate,
    );
    let sent = Sent {
        octets: all,
        is_lost: it.closing == Closing::Failed,
    };
    let mut reported = Vec::new(alloc);
    let closing = serve_sent(rt, alloc, &stage, &mut first, sent, &mut reported);
    let _store = stage.close(Vec::new(alloc));
    closing == Some(it.closing) && reported.as_slice() == it.reported.as_bytes()
}

/// Whether a connection to an empty archive is replied what it has to be.
fn is_replied(rt: &(impl Wait + Clock), alloc: Global, it: &Conversation) -> Option<bool> {
    let store = empty_store(alloc)?;
    let all = octets_of(alloc, it)?;
    let opened = Opened::new(alloc, COLLECTORS).ok()?;
    Some(is_so::<Brand>(rt, alloc, opened, store, it, &all))
}

#[test]
fn connections_in_memory_are_replied_what_they_have_to_be(rt: HostRuntime) {
    for it in &CONVERSATIONS {
        let is_replied = is_replied(&rt, rt.alloc(), it);
        be(&rt, is_replied == Some(true), it.reported);
    }
}
