//! What clients do at the port and the admin socket of a server, and what they receive.

use crate::records::UPDATE;
use crate::scenes::{ANSWER, EVENTS, QUESTION};
use crate::sockets::IDLE;
use crate::steps::Step;
use crate::steps::Step::{
    AskOften, Connect, ConnectAdmin, Drain, Hear, HearLast, Send, SendNoMore, SendOctets,
    SendOctetsOften, SendOften,
};
use server::Port;

/// How a server of an archive to which nothing was given takes connections, what clients do there, and how many records the archive has
/// then.
#[derive(Drop)]
pub(crate) struct Visit {
    pub(crate) port: Port,
    /// How many connections of the port are served at a time.
    pub(crate) workers: u8,
    /// How many seconds a client may be idle.
    pub(crate) idle: u32,
    pub(crate) steps: &'static [Step],
    pub(crate) records: u64,
}

/// Takes all lines.
pub(crate) const ALL: Port = Port {
    read_only: false,
    closes_http: false,
};

/// How many seconds a client may be idle where it is waited for: each call on its socket waits for one.
const SHORT: u32 = 2;

/// A read-only port answers questions alone, and its client is answered what another one gives over the admin socket. The UPDATE's last octet is
/// a line feed, so that it is a line where no feed is taken.
pub(crate) static READ_ONLY: Visit = Visit {
    port: Port {
        read_only: true,
        closes_http: false,
    },
    workers: 1,
    idle: IDLE,
    steps: &[
        Connect,
        Send(0, "feed 0 1\n"),
        SendOctets(0, UPDATE),
        Send(0, "mark 0 1704067201\nstop\nwatermark\ndurable 0\n"),
        Hear(
            0,
            "X|28|BadRequest\nX|28|BadRequest\nX|28|BadRequest\nX|28|BadRequest\nS|0\nN|0\n",
        ),
        ConnectAdmin,
        Send(1, "feed 0 1\n"),
        SendOctets(1, UPDATE),
        SendNoMore(1),
        HearLast(1, "B|0|1|1\nF|1|1|0|0|0\n"),
        ConnectAdmin,
        Send(2, "mark 0 1704067201\n"),
        Hear(2, "S|1704067201\n"),
        Send(0, QUESTION),
        Hear(0, ANSWER),
        Send(0, "durable 0\nquit\n"),
        HearLast(0, "N|1\nok\n"),
        Send(2, "stop\n"),
        HearLast(2, "ok\n"),
    ],
    records: 1,
};

/// A web page makes a browser post lines to a port that closes HTTP: they are not read, and others are served meanwhile and after it.
pub(crate) static POSTED: Visit = Visit {
    port: Port {
        read_only: false,
        closes_http: true,
    },
    workers: 2,
    idle: IDLE,
    steps: &[
        Connect,
        Send(0, "watermark\n"),
        Hear(0, "S|0\n"),
        Connect,
        Send(
            1,
            "POST / HTTP/1.1\r\nContent-Length: 23\r\n\r\nmark 0 4294967296\nstop\n",
        ),
        HearLast(1, "X|28|BadRequest\n"),
        Send(0, "watermark\n"),
        Hear(0, "S|0\n"),
        Connect,
        Send(2, "durable 0\nquit\n"),
        HearLast(2, "N|0\nok\n"),
        Send(0, "stop\n"),
        HearLast(0, "ok\n"),
    ],
    records: 0,
};

/// A client that sends nothing and one whose feed doesn't go on are ended, each after its time. The one that waits for the only worker is answered
/// then, and stays for longer than that, since it goes on asking.
pub(crate) static IDLE_CLIENTS: Visit = Visit {
    port: ALL,
    workers: 1,
    idle: SHORT,
    steps: &[
        Connect,
        Connect,
        Send(1, "feed 0 1\n"),
        SendOctets(1, UPDATE),
        Connect,
        Send(2, "durable 0\n"),
        HearLast(0, ""),
        HearLast(1, "B|0|1|1\nX|29|Outside\n"),
        Hear(2, "N|1\n"),
        AskOften(2, "durable 0\n", "N|1\n", 250),
        Send(2, "stop\n"),
        HearLast(2, "ok\n"),
    ],
    records: 1,
};

/// A client reads nothing of its answers, of which sockets keep but a part, and is ended. Until then it keeps the only worker, for which
/// another one waits.
pub(crate) static UNREAD: Visit = Visit {
    port: ALL,
    workers: 1,
    idle: SHORT,
    steps: &[
        Connect,
        Send(0, "feed 0 1000\n"),
        SendOctetsOften(0, UPDATE, 300),
        SendNoMore(0),
        HearLast(0, "B|0|300|300\nF|300|300|0|0|0\n"),
        Connect,
        Send(1, "mark 0 1704067201\nquit\n"),
        HearLast(1, "S|1704067201\nok\n"),
        Connect,
        SendOften(2, EVENTS, 1000),
        Connect,
        Send(3, "durable 0\n"),
        Hear(3, "N|300\n"),
        Drain(2),
        Send(3, "stop\n"),
        HearLast(3, "ok\n"),
    ],
    records: 300,
};

/// Clients hold all workers of the port, and all but one of the admin socket's three. A `stop` gets through. The connections are ended long before
/// their time, once one that waited for a worker is answered.
pub(crate) static HELD_WORKERS: Visit = Visit {
    port: ALL,
    workers: 2,
    idle: IDLE,
    steps: &[
        Connect,
        Send(0, "watermark\n"),
        Hear(0, "S|0\n"),
        Connect,
        Send(1, "watermark\n"),
        Hear(1, "S|0\n"),
        Connect,
        ConnectAdmin,
        Send(3, "feed 0 1\n"),
        SendOctets(3, UPDATE),
        Hear(3, "B|0|1|1\n"),
        ConnectAdmin,
        Send(4, "durable 0\n"),
        Hear(4, "N|1\n"),
        Send(2, "durable 0\n"),
        ConnectAdmin,
        Send(5, "stop\n"),
        HearLast(5, "ok\n"),
        HearLast(0, ""),
        HearLast(1, ""),
        HearLast(2, "N|1\n"),
        HearLast(3, "X|29|Outside\n"),
        HearLast(4, ""),
    ],
    records: 1,
};
