//! What is said of files that are loaded.

use crate::be;
use advice::{FileAdvice, Loaded, Packing, advise, advise_file, packing_of};
use route_model::Mark;
use service::{FeedCounts, LoadReport, Output};
use std::alloc::Global;

/// First octets, and what they are of.
const FIRST: [(&[u8], Option<Packing>); 12] = [
    (b"\x1f\x8b\x08\x00\x00\x00\x00\x00", Some(Packing::Gzip)),
    (b"BZh91AY&SY", Some(Packing::Bzip2)),
    (b"BZh9\x17\x72\x45\x38", Some(Packing::Bzip2)),
    (b"\xfd7zXZ\x00\x00\x04", Some(Packing::Xz)),
    (b"\x28\xb5\x2f\xfd\x04\x00", Some(Packing::Zstd)),
    (b"TABLE_DUMP2|1704", Some(Packing::Text)),
    (b"a\tline\r\n", Some(Packing::Text)),
    // A record of 2005, whose time begins as bzip2 data does.
    (b"BZh9\x00\x10\x00\x01\x00\x00\x00\x3d", None),
    (b"\x65\x92\x00\x80\x00\x10\x00\x01", None),
    (b"\x1f\x8b\x07\x00", None),
    (b"text", None),
    (b"", None),
];

#[test]
fn octets_that_are_none_of_mrt_are_known(rt: HostRuntime) {
    for (octets, expected) in &FIRST {
        be(&rt, packing_of(octets) == *expected, "first octets");
    }
}

/// A feed's counts, what its file's octets are, whether entries without a next hop were left out, how many admissions were dropped, and what is said.
struct Said {
    packing: Option<Packing>,
    lose_entries: bool,
    dropped: u64,
    counts: FeedCounts,
    text: &'static str,
}

/// Counts of a table and 50 records that are skipped.
const SKIPPED: FeedCounts = FeedCounts {
    records: 51,
    admitted: 0,
    late: 0,
    refused: 0,
    skipped: 50,
};

const SAID: [Said; 13] = [
    Said {
        packing: None,
        lose_entries: false,
        dropped: 0,
        counts: FeedCounts {
            records: 100,
            admitted: 99,
            late: 0,
            refused: 1,
            skipped: 0,
        },
        text: "",
    },
    Said {
        packing: Some(Packing::Text),
        lose_entries: false,
        dropped: 0,
        counts: FeedCounts {
            records: 6,
            admitted: 6,
            late: 0,
            refused: 0,
            skipped: 0,
        },
        text: "",
    },
    Said {
        packing: Some(Packing::Bzip2),
        lose_entries: false,
        dropped: 0,
        counts: FeedCounts {
            records: 0,
            admitted: 0,
            late: 0,
            refused: 0,
            skipped: 0,
        },
        text: "rha: a.mrt: bzip2 data: bzcat a.mrt > u.mrt && rha load .. u.mrt\n",
    },
    Said {
        packing: Some(Packing::Text),
        lose_entries: false,
        dropped: 0,
        counts: FeedCounts {
            records: 3,
            admitted: 0,
            late: 0,
            refused: 0,
            skipped: 0,
        },
        text: "rha: a.mrt: text, and no MRT records\n",
    },
    Said {
        packing: None,
        lose_entries: false,
        dropped: 0,
        counts: FeedCounts {
            records: 0,
            admitted: 0,
            late: 0,
            refused: 0,
            skipped: 0,
        },
        text: "rha: a.mrt: there is no record in it\n",
    },
    Said {
        packing: None,
        lose_entries: false,
        dropped: 0,
        counts: FeedCounts {
            records: 6,
            admitted: 0,
            late: 6,
            refused: 0,
            skipped: 0,
        },
        text: "rha: a.mrt: 6 of 6 records are late, and none is kept: they are older than the collector's mark 2024-01-01T00:15:00Z (1704068100)\n",
    },
    Said {
        packing: None,
        lose_entries: false,
        dropped: 0,
        counts: FeedCounts {
            records: 100,
            admitted: 1,
            late: 99,
            refused: 0,
            skipped: 0,
        },
        text: "rha: a.mrt: 99 of 100 records are late, and not kept: they are older than records before them, or than the collector's mark, as the L lines say\n",
    },
    Said {
        packing: None,
        lose_entries: false,
        dropped: 0,
        counts: FeedCounts {
            records: 100,
            admitted: 98,
            late: 0,
            refused: 2,
            skipped: 0,
        },
        text: "rha: a.mrt: 2 of 100 records were refused, as the X lines say; if it is a table with entries that have no next hop, as BIRD writes them, --lose-entries loads the others of their records\n",
    },
    Said {
        packing: None,
        lose_entries: true,
        dropped: 0,
        counts: FeedCounts {
            records: 100,
            admitted: 98,
            late: 0,
            refused: 2,
            skipped: 0,
        },
        text: "rha: a.mrt: 2 of 100 records were refused, as the X lines say\n",
    },
    Said {
        packing: None,
        lose_entries: false,
        dropped: 0,
        counts: SKIPPED,
        text: "rha: a.mrt: 50 of 51 records were skipped, and none is kept: they are of types that aren't loaded, as TABLE_DUMP and those of ADD-PATH\n",
    },
    Said {
        packing: None,
        lose_entries: false,
        dropped: 1,
        counts: SKIPPED,
        text: "",
    },
    Said {
        packing: None,
        lose_entries: false,
        dropped: 0,
        counts: FeedCounts {
            records: 51,
            admitted: 1,
            late: 0,
            refused: 0,
            skipped: 50,
        },
        text: "",
    },
    Said {
        packing: None,
        lose_entries: false,
        dropped: 0,
        counts: FeedCounts {
            records: 8,
            admitted: 0,
            late: 1,
            refused: 7,
            skipped: 0,
        },
        text: "rha: a.mrt: 1 of 8 records are late, and none is kept: they are older than the collector's mark 2024-01-01T00:15:00Z (1704068100)\nrha: a.mrt: 7 of 8 records were refused, as the X lines say; if it is a table with entries that have no next hop, as BIRD writes them, --lose-entries loads the others of their records\n",
    },
];

/// The load of a file after the mark 1704068100, of whose admissions this many were dropped.
fn loaded(packing: Option<Packing>, lose_entries: bool, dropped: u64) -> Loaded<'static> {
    Loaded {
        file: "a.mrt",
        packing,
        collector: 0,
        lose_entries,
        mark: None,
        report: LoadReport {
            is_begun: true,
            before: Mark::new(1_704_068_100_000_000),
            counts: None,
            left_out: 0,
            dropped,
            present: None,
            is_held: false,
            refusal: None,
        },
        sizes: None,
    }
}

/// Whether this is said of a file.
fn is_said(alloc: Global, said: &Said) -> bool {
    let mut text: Vec<u8> = Vec::new(alloc);
    let loaded = loaded(said.packing, said.lose_entries, said.dropped);
    advise_file(alloc, &loaded, &said.counts, &mut Output::new(&mut text));
    text.as_slice() == said.text.as_bytes()
}

#[test]
fn what_was_not_taken_is_said(rt: HostRuntime) {
    for said in &SAID {
        be(&rt, is_said(rt.alloc(), said), said.text);
    }
}

/// How many entries of a file are left out, and what is said of them.
const LEFT_OUT: [(u64, &str); 2] = [
    (
        1,
        "rha: a.mrt: 1 entry without a next hop is left out: this file gives its peer no route to that prefix\n",
    ),
    (
        74,
        "rha: a.mrt: 74 entries without a next hop are left out: this file gives their peers no route to those prefixes\n",
    ),
];

/// Whether this is said where this many entries are left out.
fn is_left_out(alloc: Global, count: u64, expected: &str) -> bool {
    let mut text: Vec<u8> = Vec::new(alloc);
    let file = "a.mrt";
    let words = FileAdvice::LeftOut { file, count };
    advise(alloc, &words, &mut Output::new(&mut text));
    text.as_slice() == expected.as_bytes()
}

#[test]
fn how_many_entries_are_left_out_is_said(rt: HostRuntime) {
    for (count, expected) in &LEFT_OUT {
        be(&rt, is_left_out(rt.alloc(), *count, expected), expected);
    }
}
