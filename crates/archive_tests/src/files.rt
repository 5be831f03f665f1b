//! Files of records, by the names that the scripts have for them.

use crate::gathered::{Gathered, Times};
use crate::samples::{
    AFTER_MICROSECONDS, AFTER_TIME, AGGREGATED, BEFORE_256, BEFORE_257, BEFORE_763, BEFORE_764,
    BOTH_PLACES, CUT_PEER_TABLE, CUT_UPDATE, EARLIER, EMPTY, EMPTY_AFTER_TIME, ENTRIES_UNCOUNTED,
    EXTENDED_DOWN, IPV6, JOINED, LONG_PREFIX, LONGER, NOTIFICATION, OTHER_PATH, OTHER_PEER_TABLE,
    PEER_TABLE, PEERS_UNCOUNTED, RIB, RIB_IPV6, RIB_IPV6_FULL, RIB_OF_NEXT_HOP, RIB_OF_SECOND,
    RIB_OF_THREE, RIB_WITHOUT_HOP, RIB_WITHOUT_ORIGIN, SESSION_DOWN, SKIPPED, TOO_LONG,
    TWO_PREFIXES, UPDATE, WITHDRAWAL,
};
use std::alloc::Global;

/// A part of what a name stands for, in hexadecimal digits, in which `<3 x AB>` stands for `ABABAB`.
enum Part {
    Octets(&'static str),
    /// For each number from 0 to below this one: octets, the number in two octets, and octets.
    Each(&'static str, u16, &'static str),
}

/// A name, and the parts of the record, or of the records, for which it stands.
struct Named(&'static str, &'static [Part]);

/// Records of BGP4MP.
const UPDATES: [Named; 27] = [
    Named("nothing", &[]),
    Named("update", &[Part::Octets(UPDATE)]),
    Named("earlier", &[Part::Octets(EARLIER)]),
    Named(
        "update-at-60",
        &[Part::Octets("0000003C"), Part::Octets(AFTER_TIME)],
    ),
    Named(
        "last",
        &[Part::Octets("FFFFFFFF"), Part::Octets(AFTER_TIME)],
    ),
    Named("empty", &[Part::Octets(EMPTY)]),
    Named(
        "empty-at-99",
        &[Part::Octets("00000063"), Part::Octets(EMPTY_AFTER_TIME)],
    ),
    Named(
        "empty-at-100",
        &[Part::Octets("00000064"), Part::Octets(EMPTY_AFTER_TIME)],
    ),
    Named("cut-update", &[Part::Octets(CUT_UPDATE)]),
    // The first ten octets of an UPDATE.
    Named("begun-update", &[Part::Octets("65920080 0010 0001 0000")]),
    Named("both-places", &[Part::Octets(BOTH_PLACES)]),
    Named("two-prefixes", &[Part::Octets(TWO_PREFIXES)]),
    Named("joined", &[Part::Octets(JOINED)]),
    Named("longer", &[Part::Octets(LONGER)]),
    Named("aggregated", &[Part::Octets(AGGREGATED)]),
    Named("ipv6", &[Part::Octets(IPV6)]),
    Named("prefix-of-33-bits", &[Part::Octets(LONG_PREFIX)]),
    Named("notification", &[Part::Octets(NOTIFICATION)]),
    Named("session-down", &[Part::Octets(SESSION_DOWN)]),
    Named("other-path", &[Part::Octets(OTHER_PATH)]),
    Named("withdrawal", &[Part::Octets(WITHDRAWAL)]),
    Named(
        "path-of-763",
        &[
            Part::Octets(BEFORE_763),
            Part::Octets("02FF <255 x FDE9> 02FF <255 x FDE9> 02FD <253 x FDE9>"),
            Part::Octets("400304C0000201 080A"),
        ],
    ),
    Named(
        "path-of-764",
        &[
            Part::Octets(BEFORE_764),
            Part::Octets("02FF <255 x FDE9> 02FF <255 x FDE9> 02FE <254 x FDE9>"),
            Part::Octets("400304C0000201 080A"),
        ],
    ),
    Named(
        "prefixes-256",
        &[Part::Octets(BEFORE_256), Part::Each("180A", 256, "")],
    ),
    Named(
        "prefixes-257",
        &[Part::Octets(BEFORE_257), Part::Each("180A", 257, "")],
    ),
    Named("skipped", &[Part::Octets(SKIPPED)]),
    Named("too-long", &[Part::Octets(TOO_LONG)]),
];

/// Records with microseconds (RFC 6396 section 3).
const EXTENDED: [Named; 8] = [
    // Half a second after its time.
    Named(
        "extended",
        &[
            Part::Octets("65920080 0011 0001 00000041 0007A120"),
            Part::Octets(AFTER_MICROSECONDS),
        ],
    ),
    Named("extended-down", &[Part::Octets(EXTENDED_DOWN)]),
    Named(
        "microsecond-999999",
        &[
            Part::Octets("65920080 0011 0001 00000041 000F423F"),
            Part::Octets(AFTER_MICROSECONDS),
        ],
    ),
    Named(
        "microsecond-1000000",
        &[
            Part::Octets("65920080 0011 0001 00000041 000F4240"),
            Part::Octets(AFTER_MICROSECONDS),
        ],
    ),
    Named(
        "microsecond-highest",
        &[
            Part::Octets("65920080 0011 0001 00000041 FFFFFFFF"),
            Part::Octets(AFTER_MICROSECONDS),
        ],
    ),
    Named(
        "last-of-all",
        &[
            Part::Octets("FFFFFFFF 0011 0001 00000041 000F423F"),
            Part::Octets(AFTER_MICROSECONDS),
        ],
    ),
    Named(
        "microseconds-cut",
        &[Part::Octets("65920080 0011 0001 00000003 000000")],
    ),
    Named(
        "microseconds-missing",
        &[Part::Octets("65920080 0011 0001 00000000")],
    ),
];

/// Records of table dumps.
const TABLES: [Named; 17] = [
    Named("peer-table", &[Part::Octets(PEER_TABLE)]),
    Named("cut-peer-table", &[Part::Octets(CUT_PEER_TABLE)]),
    Named("other-peer-table", &[Part::Octets(OTHER_PEER_TABLE)]),
    Named("peers-uncounted", &[Part::Octets(PEERS_UNCOUNTED)]),
    Named("rib", &[Part::Octets(RIB)]),
    Named("rib-of-second", &[Part::Octets(RIB_OF_SECOND)]),
    Named("rib-ipv6", &[Part::Octets(RIB_IPV6)]),
    Named("rib-ipv6-full", &[Part::Octets(RIB_IPV6_FULL)]),
    Named("rib-without-origin", &[Part::Octets(RIB_WITHOUT_ORIGIN)]),
    Named("rib-of-next-hop", &[Part::Octets(RIB_OF_NEXT_HOP)]),
    Named("rib-without-hop", &[Part::Octets(RIB_WITHOUT_HOP)]),
    Named("rib-of-three", &[Part::Octets(RIB_OF_THREE)]),
    Named("entries-uncounted", &[Part::Octets(ENTRIES_UNCOUNTED)]),
    // 8 octets, and 13 for each peer, 10.0.0.0 to 10.0.17.15 of AS 65001.
    Named(
        "peers-4368",
        &[
            Part::Octets("65920080 000D 0001 0000DDD8 C0000202 0000 1110"),
            Part::Each("02 C0000201 0A00", 4368, "0000FDE9"),
        ],
    ),
    Named(
        "peers-4369",
        &[
            Part::Octets("65920080 000D 0001 0000DDE5 C0000202 0000 1111"),
            Part::Each("02 C0000201 0A00", 4369, "0000FDE9"),
        ],
    ),
    // 8 octets, and 22 for each entry.
    Named(
        "entries-4368",
        &[
            Part::Octets("65920080 000D 0002 00017768 00000000 08 0A 1110"),
            Part::Each("", 4368, "65920000 000E 40010100 400200 400304C0000201"),
        ],
    ),
    Named(
        "entries-4369",
        &[
            Part::Octets("65920080 000D 0002 0001777E 00000000 08 0A 1111"),
            Part::Each("", 4369, "65920000 000E 40010100 400200 400304C0000201"),
        ],
    ),
];

impl Gathered {
    /// Adds octets before and after each number from 0 to below a count.
    fn add_each(&mut self, before: &str, count: u16, after: &str) {
        let before = self.read(before);
        let after = self.read(after);
        for number in 0..count {
            self.add(&before);
            self.add(&number.to_be_bytes());
            self.add(&after);
        }
    }

    fn add_parts(&mut self, parts: &[Part]) {
        for part in parts {
            match part {
                Part::Octets(text) => self.add_hex(text),
                Part::Each(before, count, after) => self.add_each(before, *count, after),
            }
        }
    }
}

// What a name of these stands for.
fn parts_among(names: &'static [Named], name: &str) -> Option<&'static [Part]> {
    for Named(known, parts) in names {
        if *known == name {
            return Some(parts);
        }
    }
    None
}

// Each table has a function of its own: the prover elaborates a table where it is used.

fn update_of(name: &str) -> Option<&'static [Part]> {
    parts_among(&UPDATES, name)
}

fn extended_of(name: &str) -> Option<&'static [Part]> {
    parts_among(&EXTENDED, name)
}

fn table_of(name: &str) -> Option<&'static [Part]> {
    parts_among(&TABLES, name)
}

/// What a name stands for.
fn parts_of(name: &str) -> Option<&'static [Part]> {
    if let Some(parts) = update_of(name) {
        return Some(parts);
    }
    if let Some(parts) = extended_of(name) {
        return Some(parts);
    }
    table_of(name)
}

impl Gathered {
    /// Adds what a name stands for, or `3*NAME` three times. None where it isn't known.
    fn add_named(&mut self, name: &str) -> Option<()> {
        let times = Times::read(name, "*").unwrap_or(Times { count: 1, of: name });
        let mut named = Gathered::new(self.alloc);
        named.add_parts(parts_of(times.of)?);
        self.is_whole &= named.is_whole;
        for _ in 0..times.count {
            self.add(&named.octets);
        }
        Some(())
    }
}

/// The octets of a file, whose name is the names of its records with `+` between them; `3*NAME` stands for three of them. None where a name
/// isn't known, or there is no memory.
pub(crate) fn file_of(alloc: Global, names: &str) -> Option<Vec<u8>> {
    let mut file = Gathered::new(alloc);
    for name in names.split('+') {
        file.add_named(name)?;
    }
    file.end()
}
