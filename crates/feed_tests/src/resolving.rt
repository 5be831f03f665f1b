//! Records from outside, worked examples among them, and the encoding of what they mean.

use crate::{be, octets};
use mrt_records::{Framer, Item};
use resolve::{ResolveFault, Resolver, WithoutHop};
use route_model::Admission;
use std::alloc::Global;
use std::process::Abort;

/// A message of 192.0.2.1, AS 65001: an UPDATE that announces 10.0.0.0/8 by 65001 65002.
const UPDATE: &str = "65920080 0010 0001 0000003D FDE9 FC00 0000 0001 C0000201 C0000202
    FFFFFFFFFFFFFFFFFFFFFFFFFFFFFFFF 002D 02 0000 0014 40010100 4002060202FDE9FDEA 400304C0000201 080A";

/// The same, with 10.0.0.0/8 in the withdrawn field too, after 11.0.0.0/8.
const BOTH: &str = "65920080 0010 0001 00000041 FDE9 FC00 0000 0001 C0000201 C0000202
    FFFFFFFFFFFFFFFFFFFFFFFFFFFFFFFF 0031 02 0004 080B 080A 0014 40010100 4002060202FDE9FDEA 400304C0000201 080A";

/// An UPDATE with prefixes in each of its four places.
const FOUR_PLACES: &str = "65920080 0010 0001 00000067 FDE9 FC00 0000 0001 C0000201 C0000202
    FFFFFFFFFFFFFFFFFFFFFFFFFFFFFFFF 0057 02 0002 080B 003C 40010100 4002060202FDE9FDEA 400304C0000201
    800E1A 0002 01 10 20010DB8000000000000000000000001 00 20 20010DB8 800F08 0002 01 20 20010DB9 080A";

/// An UPDATE without prefixes.
const EMPTY: &str = "65920080 0010 0001 00000027 FDE9 FC00 0000 0001 C0000201 C0000202
    FFFFFFFFFFFFFFFFFFFFFFFFFFFFFFFF 0017 02 0000 0000";

/// A prefix of 33 bits in NLRI.
const LONG_PREFIX: &str = "65920080 0010 0001 00000041 FDE9 FC00 0000 0001 C0000201 C0000202
    FFFFFFFFFFFFFFFFFFFFFFFFFFFFFFFF 0031 02 0000 0014 40010100 4002060202FDE9FDEA 400304C0000201 210A00000000";

const NOTIFICATION: &str = "65920080 0010 0001 00000025 FDE9 FC00 0000 0001 C0000201 C0000202
    FFFFFFFFFFFFFFFFFFFFFFFFFFFFFFFF 0015 03 0602";

/// From Established to Idle.
const SESSION_DOWN: &str =
    "65920080 0010 0000 00000014 FDE9 FC00 0000 0001 C0000201 C0000202 0006 0001";

/// From OpenConfirm to Established.
const SESSION_UP: &str =
    "65920080 0010 0000 00000014 FDE9 FC00 0000 0001 C0000201 C0000202 0005 0006";

/// A record of another type.
const SKIPPED: &str = "65920080 000B 0001 00000001 00";

/// One peer: 192.0.2.1, AS 65001.
const PEER_TABLE: &str =
    "65920080 000D 0001 00000015 C0000202 0000 0001 02 C0000201 C0000201 0000FDE9";

/// The same without its last octet.
const CUT_PEER_TABLE: &str =
    "65920080 000D 0001 00000014 C0000202 0000 0001 02 C0000201 C0000201 0000FD";

/// 10.0.0.0/8 by the first peer of the table.
const RIB: &str = "65920080 000D 0002 00000028 00000000 08 0A 0001 0000 65920000 0018 40010100
    40020A02020000FDE90000FDEA 400304C0000201";

/// The same by the second peer.
const RIB_OF_SECOND: &str =
    "65920080 000D 0002 00000028 00000000 08 0A 0001 0001 65920000 0018 40010100
    40020A02020000FDE90000FDEA 400304C0000201";

/// An entry of the second peer, and one whose ORIGIN is 3: the first fault is reported.
const RIB_OF_TWO_FAULTS: &str =
    "65920080 000D 0002 0000001C 00000000 08 0A 0002 0001 65920000 0000 0000 65920000 0004 40010103";

/// The same entries in the other order.
const RIB_OF_TWO_OTHERS: &str =
    "65920080 000D 0002 0000001C 00000000 08 0A 0002 0000 65920000 0004 40010103 0001 65920000 0000";

/// An entry whose ORIGIN is 3, of the second peer: the peer is looked at first.
const RIB_OF_BAD_ENTRY: &str =
    "65920080 000D 0002 00000014 00000000 08 0A 0001 0001 65920000 0004 40010103";

/// Without entries.
const RIB_OF_NONE: &str = "65920080 000D 0002 00000008 00000000 08 0A 0000";

/// An entry without a next hop.
const RIB_WITHOUT_HOP: &str =
    "65920080 000D 0002 00000021 00000000 08 0A 0001 0000 65920000 0011 40010100
    40020A02020000FDE90000FDEA";

/// One whose MP_REACH_NLRI is of a family that isn't read, so that it gives no next hop.
const RIB_OF_OTHER_FAMILY: &str =
    "65920080 000D 0002 0000001A 00000000 08 0A 0001 0000 65920000 000A 40010100 800E03000104";

/// One whose MP_REACH_NLRI is cut.
const RIB_OF_CUT_REACH: &str =
    "65920080 000D 0002 00000019 00000000 08 0A 0001 0000 65920000 0009 40010100 800E020500";

/// One without attributes, of the second peer.
const RIB_WITHOUT_HOP_OF_SECOND: &str =
    "65920080 000D 0002 00000010 00000000 08 0A 0001 0001 65920000 0000";

/// An entry without a next hop, that of `RIB`, and one without attributes.
const RIB_OF_THREE: &str =
    "65920080 000D 0002 00000049 00000000 08 0A 0003 0000 65920000 0011 40010100
    40020A02020000FDE90000FDEA 0000 65920000 0018 40010100 40020A02020000FDE90000FDEA 400304C0000201
    0000 65920000 0000";

/// An entry without a next hop, and one whose ORIGIN is 3.
const RIB_OF_LOST_AND_FAULTY: &str =
    "65920080 000D 0002 0000001C 00000000 08 0A 0002 0000 65920000 0000 0000 65920000 0004 40010103";

/// 2001:db8::/32, where MP_REACH_NLRI gives the next hop.
const RIB_IPV6: &str =
    "65920080 000D 0004 00000038 00000000 20 20010DB8 0001 0000 65920000 0025 40010100
    40020A02020000FDE90000FDEA 800E11 10 20010DB8000000000000000000000001";

/// The encoding of the admission of `UPDATE`.
const ANNOUNCED: &str = "00060DD710212000 0001 0004C0000201000000000000000000000000 0000FDE9
    0001 0015 00 0001 02020000FDE90000FDEA 04C0000201 00 0000 0001 01 0000 04080A 0000";

/// That of `BOTH`.
const WITHDRAWN_AND_ANNOUNCED: &str =
    "00060DD710212000 0001 0004C0000201000000000000000000000000 0000FDE9
    0001 0015 00 0001 02020000FDE90000FDEA 04C0000201 00 0000 0002 02 0000 04080B 01 0000 04080A 0000";

/// That of `FOUR_PLACES`.
const FOUR_CHANGES: &str = "00060DD710212000 0001 0004C0000201000000000000000000000000 0000FDE9
    0002 0015 00 0001 02020000FDE90000FDEA 04C0000201 00 0000
    0021 00 0001 02020000FDE90000FDEA 1020010DB8000000000000000000000001 00 0000
    0004 02 0000 04080B 02 0000 062020010DB9 01 0000 04080A 0000 01 0000 062020010DB8 0001";

/// No changes.
const NO_CHANGES: &str = "00060DD710212000 0000 0000 0000";

/// The end of all routes of the peer.
const ENDED: &str =
    "00060DD710212000 0001 0004C0000201000000000000000000000000 0000FDE9 0000 0001 03 0000";

/// The announcement of `RIB_IPV6`.
const ANNOUNCED_IPV6: &str = "00060DD710212000 0001 0004C0000201000000000000000000000000 0000FDE9
    0001 0021 00 0001 02020000FDE90000FDEA 1020010DB8000000000000000000000001 00 0000 0001 01 0000 062020010DB8 0000";

/// What a record means: an admission of this encoding, nothing, or a fault.
type Meaning = Result<Option<&'static str>, ResolveFault>;

/// The records of a feed, what each means after those before it where entries without a next hop are taken so, and how many entries are left
/// out.
struct Feed {
    name: &'static str,
    rule: WithoutHop,
    records: &'static [(&'static str, Meaning)],
    left_out: u64,
}

const FEEDS: [Feed; 8] = [
    Feed {
        name: "messages change routes",
        rule: WithoutHop::Refused,
        records: &[
            (UPDATE, Ok(Some(ANNOUNCED))),
            (EMPTY, Ok(Some(NO_CHANGES))),
            (NOTIFICATION, Ok(Some(ENDED))),
            (LONG_PREFIX, Err(ResolveFault::Malformed)),
            (SKIPPED, Ok(None)),
        ],
        left_out: 0,
    },
    Feed {
        name: "a prefix that is announced is not withdrawn",
        rule: WithoutHop::Refused,
        records: &[(BOTH, Ok(Some(WITHDRAWN_AND_ANNOUNCED)))],
        left_out: 0,
    },
    Feed {
        name: "changes stand in the order of the places",
        rule: WithoutHop::Refused,
        records: &[(FOUR_PLACES, Ok(Some(FOUR_CHANGES)))],
        left_out: 0,
    },
    Feed {
        name: "a session that is left ends its routes",
        rule: WithoutHop::Refused,
        records: &[
            (SESSION_DOWN, Ok(Some(ENDED))),
            (SESSION_UP, Ok(Some(NO_CHANGES))),
        ],
        left_out: 0,
    },
    Feed {
        name: "RIB records are read under the last peer table",
        rule: WithoutHop::Refused,
        records: &[
            (RIB, Err(ResolveFault::NoPeerTable)),
            (PEER_TABLE, Ok(None)),
            (RIB, Ok(Some(ANNOUNCED))),
            (RIB_IPV6, Ok(Some(ANNOUNCED_IPV6))),
            (RIB_OF_NONE, Ok(Some(NO_CHANGES))),
            (CUT_PEER_TABLE, Err(ResolveFault::Malformed)),
            (RIB, Err(ResolveFault::NoPeerTable)),
            (PEER_TABLE, Ok(None)),
            (LONG_PREFIX, Err(ResolveFault::Malformed)),
            (RIB, Ok(Some(ANNOUNCED))),
        ],
        left_out: 0,
    },
    Feed {
        name: "entries are refused in their order",
        rule: WithoutHop::Refused,
        records: &[
            (PEER_TABLE, Ok(None)),
            (RIB_OF_SECOND, Err(ResolveFault::BadPeerIndex)),
            (RIB_OF_TWO_FAULTS, Err(ResolveFault::BadPeerIndex)),
            (RIB_OF_BAD_ENTRY, Err(ResolveFault::BadPeerIndex)),
            (RIB_OF_TWO_OTHERS, Err(ResolveFault::Malformed)),
        ],
        left_out: 0,
    },
    Feed {
        name: "an entry without a next hop refuses its record",
        rule: WithoutHop::Refused,
        records: &[
            (PEER_TABLE, Ok(None)),
            (RIB_WITHOUT_HOP, Err(ResolveFault::Malformed)),
            (RIB_OF_THREE, Err(ResolveFault::Malformed)),
            (RIB, Ok(Some(ANNOUNCED))),
        ],
        left_out: 0,
    },
    Feed {
        name: "an entry without a next hop is left out",
        rule: WithoutHop::LeftOut,
        records: &[
            (RIB_WITHOUT_HOP, Err(ResolveFault::NoPeerTable)),
            (PEER_TABLE, Ok(None)),
            (RIB_WITHOUT_HOP, Ok(None)),
            (RIB_OF_OTHER_FAMILY, Err(ResolveFault::Malformed)),
            (RIB_OF_CUT_REACH, Err(ResolveFault::Malformed)),
            (RIB_WITHOUT_HOP_OF_SECOND, Err(ResolveFault::BadPeerIndex)),
            (RIB_OF_THREE, Ok(Some(ANNOUNCED))),
            (RIB_OF_LOST_AND_FAULTY, Err(ResolveFault::Malformed)),
            (RIB, Ok(Some(ANNOUNCED))),
            (RIB_OF_NONE, Ok(Some(NO_CHANGES))),
            (UPDATE, Ok(Some(ANNOUNCED))),
        ],
        left_out: 3,
    },
];

/// The items of the records of a feed.
fn items_of(rt: &impl Abort, alloc: Global, records: &[(&str, Meaning)]) -> Vec<Item> {
    let mut framer = Framer::new(alloc);
    let mut items: Vec<Item> = Vec::new(alloc);
    for (record, _) in records {
        framer
            .feed(&octets(rt, alloc, record), &mut items)
            .expect(rt, "a record");
    }
    framer.finish().expect(rt, "a record's end");
    items
}

/// Whether the admission is encoded so.
fn is_encoded(rt: &impl Abort, alloc: Global, admission: &Admission, text: &str) -> bool {
    let encoded = admission.encode(alloc).expect(rt, "memory");
    encoded.as_slice() == octets(rt, alloc, text).as_slice()
}

/// Whether the next record means this.
fn means(
    rt: &impl Abort,
    alloc: Global,
    resolver: &mut Resolver,
    rule: WithoutHop,
    item: &Item,
    expected: &Meaning,
) -> bool {
    match resolver.record(alloc, rule, item) {
        Ok(Some(admission)) => match expected {
            Ok(Some(text)) => is_encoded(rt, alloc, &admission, text),
            _ => false,
        },
        Ok(None) => matches!(expected, Ok(None)),
        Err(fault) => match expected {
            Err(other) => fault == *other,
            _ => false,
        },
    }
}

/// Each record of a feed means what it says, and this number of entries is left out.
fn play(rt: &impl Abort, alloc: Global, feed: &Feed) {
    let mut resolver = Resolver::new(0);
    let items = items_of(rt, alloc, feed.records);
    be(rt, items.len() == feed.records.len(), feed.name);
    for (place, (_, expected)) in feed.records.iter().enumerate() {
        let item = items.get(place).expect(rt, "no record");
        be(
            rt,
            means(rt, alloc, &mut resolver, feed.rule, item, expected),
            feed.name,
        );
    }
    be(rt, resolver.left_out() == feed.left_out, feed.name);
}

#[test]
fn records_mean_what_they_say(rt: HostRuntime) {
    for feed in &FEEDS {
        play(&rt, rt.alloc(), feed);
    }
}

/// A RIB record without a peer table, a table, the record, a table that is cut, and the record again.
const FIVE: Feed = Feed {
    name: "a feed is read as its records are",
    rule: WithoutHop::Refused,
    records: &[
        (RIB, Err(ResolveFault::NoPeerTable)),
        (PEER_TABLE, Ok(None)),
        (RIB, Ok(Some(ANNOUNCED))),
        (CUT_PEER_TABLE, Err(ResolveFault::Malformed)),
        (RIB, Err(ResolveFault::NoPeerTable)),
    ],
    left_out: 0,
};

#[test]
fn a_feed_is_read_as_its_records_are(rt: HostRuntime) {
    play(&rt, rt.alloc(), &FIVE);
}
