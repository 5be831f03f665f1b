//! What clients do with a server of an archive that is used up, and what it answers: the refusal, and what can still be asked.

use crate::made::{Counted, Made, PLAIN};
use crate::records::{BEFORE_257, EARLIER, LATER, UPDATE};
use crate::scenes::{ANSWER, QUESTION};
use crate::steps::Step;
use crate::steps::Step::{
    Connect, Hear, HearLast, Send, SendNoMore, SendOctets, SendOctetsEach, SendOctetsOften,
};

/// An archive of two blocks.
pub(crate) const FEW_BLOCKS: Made = Made { blocks: 2, ..PLAIN };

/// An archive whose tree has the two pages that it begins with, and no more.
pub(crate) const FEW_PAGES: Made = Made {
    ring: 9,
    pages: 12,
    ..PLAIN
};

/// An archive whose ring is the smallest.
pub(crate) const SMALL_RING: Made = Made { ring: 9, ..PLAIN };

/// An archive to which as many records were offered as can be counted, but for one.
pub(crate) const MANY_OFFERED: Made = Made {
    counted: Some(Counted {
        place: 64,
        count: u64::MAX - 1,
    }),
    ..PLAIN
};

/// An archive in which as many changes are applied as can be counted.
pub(crate) const MANY_APPLIED: Made = Made {
    counted: Some(Counted {
        place: 0,
        count: u64::MAX,
    }),
    ..PLAIN
};

/// Asks which routes to 10.0.0.0/8 stand at 1704067199.
const EARLIER_QUESTION: &str = "at 1704067199 prefix 10.0.0.0/8\n";

/// Asks for what stands at the watermark, for the watermark, and how many records were admitted.
const BEYOND: &str = "at 1704067200 prefix 10.0.0.0/8\nwatermark\ndurable 0\n";

/// Two blocks are burnt for 606 of 701 versions of a prefix. What is below the watermark is answered, a record is kept that comes later,
/// and nothing more is applied.
pub(crate) static BLOCKS: [Step; 26] = [
    Connect,
    Send(0, "feed 0 1000\n"),
    SendOctets(0, EARLIER),
    SendNoMore(0),
    HearLast(0, "B|0|1|1\nF|1|1|0|0|0\n"),
    Connect,
    Send(1, "mark 0 1704067200\n"),
    Hear(1, "S|1704067200\n"),
    Connect,
    Send(2, "feed 0 1000\n"),
    SendOctetsOften(2, UPDATE, 700),
    SendNoMore(2),
    HearLast(2, "B|1|701|701\nF|700|700|0|0|0\n"),
    Send(1, "mark 0 1704067201\n"),
    Hear(1, "X|7|OnceFull\n"),
    Send(1, EARLIER_QUESTION),
    Hear(1, ANSWER),
    Send(1, BEYOND),
    Hear(1, "X|24|AboveWatermark|1704067200\nS|1704067200\nN|701\n"),
    Connect,
    Send(3, "feed 0 1000\n"),
    SendOctets(3, LATER),
    SendNoMore(3),
    HearLast(3, "B|701|702|702\nF|1|1|0|0|0\n"),
    Send(1, "mark 0 1704067201\nstop\n"),
    HearLast(1, "X|7|OnceFull\nok\n"),
];

/// An UPDATE has 257 prefixes, of which the leaf has room for 201. What is below the watermark is answered, a record is kept that comes
/// later, and nothing more is applied.
pub(crate) static PAGES: [Step; 27] = [
    Connect,
    Send(0, "feed 0 1000\n"),
    SendOctets(0, EARLIER),
    SendNoMore(0),
    HearLast(0, "B|0|1|1\nF|1|1|0|0|0\n"),
    Connect,
    Send(1, "mark 0 1704067200\n"),
    Hear(1, "S|1704067200\n"),
    Connect,
    Send(2, "feed 0 1000\n"),
    SendOctets(2, BEFORE_257),
    SendOctetsEach(2, "180A", 257),
    SendNoMore(2),
    HearLast(2, "B|1|2|2\nF|1|1|0|0|0\n"),
    Send(1, "mark 0 1704067201\n"),
    Hear(1, "X|6|PagesFull\n"),
    Send(1, EARLIER_QUESTION),
    Hear(1, ANSWER),
    Send(1, BEYOND),
    Hear(1, "X|24|AboveWatermark|1704067200\nS|1704067200\nN|2\n"),
    Connect,
    Send(3, "feed 0 1000\n"),
    SendOctets(3, LATER),
    SendNoMore(3),
    HearLast(3, "B|2|3|3\nF|1|1|0|0|0\n"),
    Send(1, "mark 0 1704067201\nstop\n"),
    HearLast(1, "X|6|PagesFull\nok\n"),
];

/// A ring of 147,456 octets has room for 2,076 records of 71. Below the watermark all is answered, and once a mark lets them be applied, there
/// is room again.
pub(crate) static RING: [Step; 31] = [
    Connect,
    Send(0, "feed 0 1000\n"),
    SendOctetsOften(0, UPDATE, 2077),
    SendNoMore(0),
    HearLast(0, "B|0|1000|1000\nB|1000|2000|2000\nX|23|IntakeFull\n"),
    Connect,
    Send(1, "at 1704067199 all\nwatermark\ndurable 0\n"),
    Hear(1, "E|0\nS|1704067200\nN|2000\n"),
    Connect,
    Send(2, "feed 0 1000\n"),
    SendOctetsOften(2, UPDATE, 76),
    SendNoMore(2),
    HearLast(2, "B|2000|2076|2076\nF|76|76|0|0|0\n"),
    Connect,
    Send(3, "feed 0 1\n"),
    SendOctets(3, UPDATE),
    SendNoMore(3),
    HearLast(3, "X|23|IntakeFull\n"),
    Send(1, BEYOND),
    Hear(1, "X|24|AboveWatermark|1704067200\nS|1704067200\nN|2076\n"),
    Send(1, "mark 0 1704067201\n"),
    Hear(1, "S|1704067201\n"),
    Send(1, QUESTION),
    Hear(1, ANSWER),
    Connect,
    Send(4, "feed 0 1\n"),
    SendOctets(4, LATER),
    SendNoMore(4),
    HearLast(4, "B|2076|2077|2077\nF|1|1|0|0|0\n"),
    Send(1, "stop\n"),
    HearLast(1, "ok\n"),
];

/// Two records more can't be counted, one can, and then none.
pub(crate) static OFFERED: [Step; 22] = [
    Connect,
    Send(0, "feed 0 1000\n"),
    SendOctetsOften(0, UPDATE, 2),
    SendNoMore(0),
    HearLast(0, "X|26|CounterFull\n"),
    Connect,
    Send(1, "feed 0 1000\n"),
    SendOctets(1, UPDATE),
    SendNoMore(1),
    HearLast(1, "B|0|1|18446744073709551615\nF|1|1|0|0|0\n"),
    Connect,
    Send(2, "feed 0 1000\n"),
    SendOctets(2, UPDATE),
    SendNoMore(2),
    HearLast(2, "X|26|CounterFull\n"),
    Connect,
    Send(3, "mark 0 1704067201\n"),
    Hear(3, "S|1704067201\n"),
    Send(3, QUESTION),
    Hear(3, ANSWER),
    Send(3, "durable 0\nstop\n"),
    HearLast(3, "N|1\nok\n"),
];

/// A record is kept whose change can't be counted.
pub(crate) static APPLIED: [Step; 12] = [
    Connect,
    Send(0, "feed 0 1000\n"),
    SendOctets(0, UPDATE),
    SendNoMore(0),
    HearLast(0, "B|0|1|1\nF|1|1|0|0|0\n"),
    Connect,
    Send(1, "mark 0 1704067201\n"),
    Hear(1, "X|26|CounterFull\n"),
    Send(1, "at 1704067199 all\n"),
    Hear(1, "E|0\n"),
    Send(1, "watermark\ndurable 0\nstop\n"),
    HearLast(1, "S|1704067200\nN|1\nok\n"),
];
