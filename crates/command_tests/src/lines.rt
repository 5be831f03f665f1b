//! What the commands print, one after another.

use crate::played::{Filled, Played};
use crate::playing::{play, play_in_files};
use archive_pages::Settings;
use route_model::Mark;
use service::{Creation, FileLoad, Loading, Output, Question};
use std::alloc::Global;
use std::process::Abort;
use test_octets::octets;

/// At 1704067200 the peer 192.0.2.1 of AS 64496 announces 203.0.113.0/24.
const RECORD: &str = "65920080 0010 0004 0000004b 0000fbf0 0000fbef 0000 0001 c0000201 c00002fe
ffffffffffffffffffffffffffffffff 0037 02 0000 001c 40010100 40020e02030000fbf00000fbf40000fbfe 400304c0000201 18cb0071";

/// Lines that are asked of a new archive into which the record is loaded with the mark 1704067201, and all that the three commands print.
const LINES: [(&str, &str); 3] = [
    (
        "watermark",
        "created 1 9 20 7\nB|0|1|1\nF|1|1|0|0|0\nS|1704067201\nS|1704067201\n",
    ),
    (
        "at 2024-01-01T00:00:00Z prefix 203.0.113.0/24",
        "created 1 9 20 7\nB|0|1|1\nF|1|1|0|0|0\nS|1704067201\nR|0|192.0.2.1|64496|203.0.113.0/24|64496 64500 64510|IGP|192.0.2.1|||NAG||\nE|1\n",
    ),
    (
        "durable 0",
        "created 1 9 20 7\nB|0|1|1\nF|1|1|0|0|0\nS|1704067201\nN|1\n",
    ),
];

const MADE: Creation<'static> = Creation {
    folder: "a",
    collectors: 1,
    ring: 9,
    pages: 20,
    blocks: 7,
};

/// How the record is loaded.
fn loading(alloc: Global) -> Option<Loading<'static>> {
    let mut files = Vec::new(alloc);
    files.push("a.mrt").ok()?;
    Some(Loading {
        wait: 0,
        folder: "a",
        collector: 0,
        batch: 1_000,
        mark: Mark::new(1_704_067_201_000_000),
        resume: false,
        strict: false,
        lose_entries: false,
        files,
    })
}

/// Which disks the archive is on.
#[derive(Clone, Copy, PartialEq)]
enum Where {
    Memory,
    Files,
}

/// How the commands end whose last one asks this line. None where there is no memory.
fn play_line(
    alloc: Global,
    place: Where,
    line: &str,
    out: &mut Vec<u8>,
    err: &mut Vec<u8>,
) -> Option<Played> {
    let settings = Settings {
        collectors: MADE.collectors,
        ring: MADE.ring,
    };
    if !settings.is_within() {
        return None;
    }
    let record = octets(alloc, RECORD).ok()?;
    let how = loading(alloc)?;
    let asked = Question {
        wait: 0,
        folder: "a",
        all: false,
        human: false,
        line: String::from_str(alloc, line).ok()?,
    };
    let mut files = [FileLoad::new(record.as_slice())];
    let size = (265 + MADE.pages) * 16_384;
    let (mut out, mut err) = (Output::new(out), Output::new(err));
    match place {
        Where::Memory => play(
            alloc, size, &MADE, &how, &mut files, &asked, &mut out, &mut err,
        ),
        Where::Files => play_in_files(
            alloc, size, &MADE, &how, &mut files, &asked, &mut out, &mut err,
        ),
    }
}

const DONE: Played = Played {
    created: 0,
    filled: Filled {
        loaded: 0,
        answered: 0,
    },
};

/// Whether all is done, and exactly this is printed.
fn prints(alloc: Global, place: Where, line: &str, text: &str) -> bool {
    let mut out: Vec<u8> = Vec::new(alloc);
    let mut err: Vec<u8> = Vec::new(alloc);
    let played = play_line(alloc, place, line, &mut out, &mut err);
    played == Some(DONE) && out.as_slice() == text.as_bytes() && err.is_empty()
}

/// Ends the test if one of the lines isn't answered so on these disks.
fn be(rt: &impl Abort, alloc: Global, place: Where) {
    for (line, text) in &LINES {
        assert!(rt; prints(alloc, place, line, text), "{line}");
    }
}

#[test]
fn a_new_archive_answers_by_what_is_loaded(rt: HostRuntime) {
    be(&rt, rt.alloc(), Where::Memory);
}

#[test]
fn an_archive_over_files_answers_by_what_is_loaded(rt: HostRuntime) {
    be(&rt, rt.alloc(), Where::Files);
}
