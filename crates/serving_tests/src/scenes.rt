//! What clients do, and what they receive.

use crate::full::{self, APPLIED, BLOCKS, OFFERED, PAGES, RING};
use crate::made::{Made, PLAIN};
use crate::records::{EARLIER, FRONT, LATER, UPDATE};
use crate::steps::Step;
use crate::steps::Step::{
    AskOften, AskUntil, Connect, ConnectWeb, Drain, GoAway, Hear, HearLast, Send, SendNoMore,
    SendOctets, SendOctetsOften, SendOften,
};
use query_threads::Trouble;

/// What clients do with a server of an archive to which nothing was given.
#[derive(Clone, Copy)]
pub(crate) enum Scene {
    Three,
    Long,
    Cut,
    Slow,
    Open,
    Unmarked,
    Last,
    Web,
    Blocks,
    Pages,
    Ring,
    Offered,
    Applied,
}

pub(crate) const SCENES: [Scene; 13] = [
    Scene::Three,
    Scene::Long,
    Scene::Cut,
    Scene::Slow,
    Scene::Open,
    Scene::Unmarked,
    Scene::Last,
    Scene::Web,
    Scene::Blocks,
    Scene::Pages,
    Scene::Ring,
    Scene::Offered,
    Scene::Applied,
];

impl Scene {
    /// What is printed where it goes wrong.
    pub(crate) fn name(self) -> &'static str {
        match self {
            Scene::Three => "three clients",
            Scene::Long => "a long line",
            Scene::Cut => "a connection that is cut",
            Scene::Slow => "a slow client",
            Scene::Open => "a connection that is open",
            Scene::Unmarked => "records without a mark",
            Scene::Last => "the last connection",
            Scene::Web => "HTTP",
            Scene::Blocks => "no block is left",
            Scene::Pages => "no page is left",
            Scene::Ring => "a full ring",
            Scene::Offered => "no more records can be counted",
            Scene::Applied => "no more changes can be counted",
        }
    }

    /// How the archive is made.
    pub(crate) fn made(self) -> Made {
        match self {
            Scene::Blocks => full::FEW_BLOCKS,
            Scene::Pages => full::FEW_PAGES,
            Scene::Ring => full::SMALL_RING,
            Scene::Offered => full::MANY_OFFERED,
            Scene::Applied => full::MANY_APPLIED,
            Scene::Three
            | Scene::Long
            | Scene::Cut
            | Scene::Slow
            | Scene::Open
            | Scene::Unmarked
            | Scene::Last
            | Scene::Web => PLAIN,
        }
    }

    /// Why the next change can't be applied then, if one may be.
    pub(crate) fn trouble(self) -> Option<Trouble> {
        match self {
            Scene::Blocks => Some(Trouble::OnceFull),
            Scene::Pages => Some(Trouble::PagesFull),
            Scene::Applied => Some(Trouble::CounterFull),
            Scene::Three
            | Scene::Long
            | Scene::Cut
            | Scene::Slow
            | Scene::Open
            | Scene::Unmarked
            | Scene::Last
            | Scene::Web
            | Scene::Ring
            | Scene::Offered => None,
        }
    }

    /// What the clients do, one step after another.
    pub(crate) fn steps(self) -> &'static [Step] {
        match self {
            Scene::Three => &THREE,
            Scene::Long => &LONG,
            Scene::Cut => &CUT,
            Scene::Slow => &SLOW,
            Scene::Open => &OPEN,
            Scene::Unmarked => &UNMARKED,
            Scene::Last => &LAST,
            Scene::Web => &WEB,
            Scene::Blocks => &BLOCKS,
            Scene::Pages => &PAGES,
            Scene::Ring => &RING,
            Scene::Offered => &OFFERED,
            Scene::Applied => &APPLIED,
        }
    }

    /// How many records the archive has then.
    pub(crate) fn records(self) -> u64 {
        match self {
            Scene::Three | Scene::Offered | Scene::Applied => 1,
            Scene::Cut => 2,
            Scene::Unmarked | Scene::Pages => 3,
            Scene::Last => 101,
            Scene::Slow => 300,
            Scene::Blocks => 702,
            Scene::Ring => 2077,
            Scene::Long | Scene::Open | Scene::Web => 0,
        }
    }

    /// How many sockets of the server failed: that of the client who goes away while it is answered.
    pub(crate) fn warnings(self) -> usize {
        match self {
            Scene::Cut | Scene::Slow => 1,
            Scene::Three
            | Scene::Long
            | Scene::Open
            | Scene::Unmarked
            | Scene::Last
            | Scene::Web
            | Scene::Blocks
            | Scene::Pages
            | Scene::Ring
            | Scene::Offered
            | Scene::Applied => 0,
        }
    }
}

/// Asks which routes to 10.0.0.0/8 stand at 1704067200.
pub(crate) const QUESTION: &str = "at 1704067200 prefix 10.0.0.0/8\n";

/// What is answered where the UPDATE is applied.
pub(crate) const ANSWER: &str =
    "R|0|192.0.2.1|65001|10.0.0.0/8|65001 65002|IGP|192.0.2.1|||NAG||\nE|1\n";

/// Asks what was recorded of 10.0.0.0/8 at 1704067200: for some hundred records some ten thousand octets are answered.
pub(crate) const EVENTS: &str = "history 1704067200 1704067200 0 192.0.2.1 65001 10.0.0.0/8\n";

/// A record is fed, asked for, and the server stopped, each by a connection of its own.
static THREE: [Step; 15] = [
    Connect,
    Send(0, "feed 0 1\n"),
    SendOctets(0, UPDATE),
    SendNoMore(0),
    HearLast(0, "B|0|1|1\nF|1|1|0|0|0\n"),
    Connect,
    Send(1, "mark 0 1704067201\n"),
    Send(1, QUESTION),
    Send(
        1,
        "durable 0\nat 1704067200 route 0 192.0.2.1 65001\nchanged 0 1704067200 10.0.0.0/8 10.0.0.0/8\nquit\n",
    ),
    Hear(1, "S|1704067201\n"),
    Hear(1, ANSWER),
    HearLast(
        1,
        "N|1\nX|28|BadRequest\nC|0|192.0.2.1|65001|10.0.0.0/8\nE|1\nok\n",
    ),
    Connect,
    Send(2, "stop\n"),
    HearLast(2, "ok\n"),
];

/// Lines of 4,096 octets with their ends, and of one octet more: the first ask nothing, and the connection goes on; the
/// others end it.
static LONG: [Step; 23] = [
    Connect,
    SendOften(0, "a", 4095),
    Send(0, "\ndurable 0\n"),
    Hear(0, "X|28|BadRequest\nN|0\n"),
    SendOften(0, "a", 4094),
    Send(0, "\r\ndurable 0\nquit\n"),
    HearLast(0, "X|28|BadRequest\nN|0\nok\n"),
    Connect,
    Send(1, "durable 0\n"),
    SendOften(1, "a", 4096),
    Send(1, "\ndurable 0\nquit\n"),
    HearLast(1, "N|0\nX|28|BadRequest\n"),
    Connect,
    SendOften(2, "a", 4095),
    Send(2, "\r\ndurable 0\nquit\n"),
    HearLast(2, "X|28|BadRequest\n"),
    Connect,
    Send(3, "feed 1 1\n"),
    SendOctets(3, UPDATE),
    HearLast(3, "X|22|NoCollector\n"),
    Connect,
    Send(4, "stop\n"),
    HearLast(4, "ok\n"),
];

/// Connections that are cut in the middle of a line, of a feed and of answers, beside one that goes on.
static CUT: [Step; 39] = [
    Connect,
    Send(0, "durable 0\n"),
    Hear(0, "N|0\n"),
    // in the middle of a line: what it asks isn't done
    Connect,
    Send(1, "durable 0\nmark 0 1704067201"),
    Hear(1, "N|0\n"),
    GoAway(1),
    Connect,
    Send(2, "durable 0\nmark 0 1704067201"),
    SendNoMore(2),
    HearLast(2, "N|0\n"),
    Send(0, "watermark\n"),
    Hear(0, "S|0\n"),
    // in the middle of a feed: while it is open, when its client is gone, and when its end was sent
    Connect,
    Send(3, "feed 0 1\n"),
    SendOctets(3, UPDATE),
    SendOctets(3, FRONT),
    Hear(3, "B|0|1|1\n"),
    Send(0, "durable 0\n"),
    Hear(0, "N|1\n"),
    // no lock is held for the feed that is open
    Send(0, "mark 0 1704067200\n"),
    Hear(0, "S|1704067200\n"),
    GoAway(3),
    Connect,
    Send(4, "feed 0 1000\n"),
    SendOctets(4, UPDATE),
    SendOctets(4, FRONT),
    SendNoMore(4),
    HearLast(4, "B|1|2|2\nX|13|Truncated|1\nF|1|1|0|0|0\n"),
    Send(0, "mark 0 1704067201\n"),
    Hear(0, "S|1704067201\n"),
    // in the middle of answers
    Connect,
    SendOften(5, QUESTION, 1000),
    Hear(5, ANSWER),
    GoAway(5),
    Send(0, QUESTION),
    Hear(0, ANSWER),
    Send(0, "durable 0\nstop\n"),
    HearLast(0, "N|2\nok\n"),
];

/// A client reads nothing of its answers, of which sockets keep but a part, and another one is answered all the while.
static SLOW: [Step; 14] = [
    Connect,
    Send(0, "feed 0 1000\n"),
    SendOctetsOften(0, UPDATE, 300),
    SendNoMore(0),
    HearLast(0, "B|0|300|300\nF|300|300|0|0|0\n"),
    Connect,
    Send(1, "mark 0 1704067201\n"),
    Hear(1, "S|1704067201\n"),
    Connect,
    SendOften(2, EVENTS, 1000),
    AskOften(1, "mark 0 1704067201\n", "S|1704067201\n", 100),
    GoAway(2),
    Send(1, "stop\n"),
    HearLast(1, "ok\n"),
];

/// The server is stopped while another connection is open, which is served to its end.
static OPEN: [Step; 10] = [
    Connect,
    Send(0, "durable 0\n"),
    Hear(0, "N|0\n"),
    Connect,
    Send(1, "stop\n"),
    HearLast(1, "ok\n"),
    Send(0, "mark 0 1704067201\nwater"),
    Hear(0, "S|1704067201\n"),
    Send(0, "mark\nquit\n"),
    HearLast(0, "S|1704067201\nok\n"),
];

/// Records of three seconds are fed, and no mark is set. The last one's time is the mark of the collector, so that the others
/// are applied, by none but the applier.
static UNMARKED: [Step; 15] = [
    Connect,
    Send(0, "feed 0 1000\n"),
    SendOctets(0, EARLIER),
    SendOctets(0, UPDATE),
    SendOctets(0, LATER),
    SendNoMore(0),
    HearLast(0, "B|0|3|3\nF|3|3|0|0|0\n"),
    Connect,
    AskUntil(1, "watermark\n", "S|1704067201\n"),
    Send(1, QUESTION),
    Hear(1, ANSWER),
    Send(1, "at 1704067201 prefix 10.0.0.0/8\n"),
    Hear(1, "X|24|AboveWatermark|1704067201\n"),
    Send(1, "stop\n"),
    HearLast(1, "ok\n"),
];

/// A feed ends after the stop of the server, so that the most of what it gives is applied at the server's end, and is
/// written home then.
static LAST: [Step; 11] = [
    Connect,
    Send(0, "durable 0\n"),
    Hear(0, "N|0\n"),
    Connect,
    Send(1, "stop\n"),
    HearLast(1, "ok\n"),
    Send(0, "feed 0 1000\n"),
    SendOctetsOften(0, EARLIER, 100),
    SendOctets(0, UPDATE),
    SendNoMore(0),
    HearLast(0, "B|0|101|101\nF|101|101|0|0|0\n"),
];

/// A request of HTTP is answered, and lines in the place of one change nothing: the mark is set, and the server stopped, by lines alone.
static WEB: [Step; 12] = [
    ConnectWeb,
    Send(
        0,
        "GET /api/info HTTP/1.1\r\nHost: a\r\nConnection: close\r\n\r\n",
    ),
    Hear(0, "HTTP/1.1 200 OK\r\n"),
    Drain(0),
    ConnectWeb,
    Send(1, "mark 0 4294967296\nstop\n\r\n\r\n"),
    Hear(1, "HTTP/1.1 400 Bad Request\r\n"),
    Drain(1),
    Connect,
    Send(2, "watermark\nmark 0 1704067201\nstop\n"),
    Hear(2, "S|0\nS|1704067201\n"),
    HearLast(2, "ok\n"),
];
