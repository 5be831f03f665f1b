//! A session of two collectors, each command of which opens the archive anew. The files are those of data/README.md, by hand, and so are
//! the lines.

use crate::be;
use crate::folders::{new_name, remove};
use archive_calls::{RouteArchive, RouteSource};
use archive_pages::Settings;
use progress::{Counts, Meter, RowMeter, WatchedArchive, WatchedSource};
use route_model::Mark;
use service::{
    FeedSettings, FileLoad, LoadSettings, Output, Request, Status, WithoutHop, ask, check, load,
    read_request,
};
use std::alloc::Global;
use test_octets::octets;

/// Two peers and 203.0.113.0/24: two announcements, another origin, a withdrawal, and two announcements again.
pub(crate) const AMSTERDAM: &str =
    "65920080 0010 0004 0000004b 0000fbf0 0000fbef 0000 0001 c0000201 c00002fe
ffffffffffffffffffffffffffffffff 0037 02 0000 001c 40010100 40020e02030000fbf00000fbf40000fbfe 400304c0000201 18cb0071
6592008a 0010 0004 00000047 0000fbf1 0000fbef 0000 0001 c0000202 c00002fe
ffffffffffffffffffffffffffffffff 0033 02 0000 0018 40010100 40020a02020000fbf10000fbfe 400304c0000202 18cb0071
659201ac 0010 0004 00000047 0000fbf0 0000fbef 0000 0001 c0000201 c00002fe
ffffffffffffffffffffffffffffffff 0033 02 0000 0018 40010100 40020a02020000fbf00000fbff 400304c0000201 18cb0071
659201e8 0010 0004 0000002f 0000fbf1 0000fbef 0000 0001 c0000202 c00002fe
ffffffffffffffffffffffffffffffff 001b 02 0004 18cb0071 0000
6592027e 0010 0004 00000047 0000fbf1 0000fbef 0000 0001 c0000202 c00002fe
ffffffffffffffffffffffffffffffff 0033 02 0000 0018 40010100 40020a02020000fbf10000fbfe 400304c0000202 18cb0071
6592029c 0010 0004 0000004b 0000fbf0 0000fbef 0000 0001 c0000201 c00002fe
ffffffffffffffffffffffffffffffff 0037 02 0000 001c 40010100 40020e02030000fbf00000fbf40000fbfe 400304c0000201 18cb0071";

/// An IPv6 peer: 203.0.113.0/24, 2001:db8:100::/40, the end of its session, and 203.0.113.0/24 again.
const TOKYO: &str = "65920094 0010 0004 00000063 0000fbf2 0000fbef 0000 0002
20010db8000000000000000000000001 20010db8000000000000000000000000
ffffffffffffffffffffffffffffffff 0037 02 0000 001c 40010100 40020e02030000fbf20000fbf40000fbfe 400304c6336401 18cb0071
65920099 0010 0004 00000076 0000fbf2 0000fbef 0000 0002
20010db8000000000000000000000001 20010db8000000000000000000000000
ffffffffffffffffffffffffffffffff 004a 02 0000 0033 40010100 40020e02030000fbf20000fbf40000fbfe
800e1b 00020110 20010db8000000000000000000000001 00 2820010db801
659202d8 0010 0005 00000030 0000fbf2 0000fbef 0000 0002
20010db8000000000000000000000001 20010db8000000000000000000000000 0006 0001
6592033c 0010 0004 0000005f 0000fbf2 0000fbef 0000 0002
20010db8000000000000000000000001 20010db8000000000000000000000000
ffffffffffffffffffffffffffffffff 0033 02 0000 0018 40010100 40020a02020000fbf20000fbfe 400304c6336401 18cb0071";

/// A command, and the lines that it writes.
pub(crate) enum Command {
    /// A feed of a collector, with the mark 00:15:00.
    Load(u8, &'static str),
    Ask(&'static str),
    Check,
}

const SESSION: [(Command, &str); 8] = [
    (Command::Load(0, AMSTERDAM), "B|0|6|6\nF|6|6|0|0|0\nS|0\n"),
    (Command::Ask("durable 0"), "N|6\n"),
    (Command::Ask("durable 1"), "N|0\n"),
    (
        Command::Load(1, TOKYO),
        "B|0|4|4\nF|4|4|0|0|0\nS|1704068100\n",
    ),
    (Command::Ask("durable 1"), "N|4\n"),
    (
        Command::Ask("at 2024-01-01T00:07:00Z prefix 203.0.113.0/24"),
        "R|0|192.0.2.1|64496|203.0.113.0/24|64496 64511|IGP|192.0.2.1|||NAG||
R|1|2001:db8::1|64498|203.0.113.0/24|64498 64500 64510|IGP|198.51.100.1|||NAG||
E|2\n",
    ),
    (
        Command::Ask(
            "history 2024-01-01T00:00:00Z 2024-01-01T00:14:59Z 0 192.0.2.1 64496 203.0.113.0/24",
        ),
        "A|1704067200|64496 64500 64510|IGP|192.0.2.1|||NAG||
A|1704067500|64496 64511|IGP|192.0.2.1|||NAG||
A|1704067740|64496 64500 64510|IGP|192.0.2.1|||NAG||
E|3\n",
    ),
    (Command::Check, "ok|10|1704068100\n"),
];

/// Gives the octets of a feed of a collector to an archive, whose lines go to `out`, with the mark 00:15:00.
pub(crate) fn give_octets<A: RouteArchive>(
    alloc: Global,
    archive: &mut A,
    collector: u8,
    octets: &[u8],
    out: &mut Vec<u8>,
) -> Status {
    let how = LoadSettings {
        feed: FeedSettings {
            collector,
            limit: 1000,
            rule: WithoutHop::Refused,
        },
        mark: Mark::new(1_704_068_100_000_000),
        resume: false,
        strict: false,
    };
    let mut files = [FileLoad::new(octets)];
    let mut err = Vec::new(alloc);
    let mut lines = Output::new(out);
    let mut refusals = Output::new(&mut err);
    load(alloc, archive, how, &mut files, &mut lines, &mut refusals)
}

/// The same of a feed in hexadecimal digits.
fn give<A: RouteArchive>(
    alloc: Global,
    archive: &mut A,
    collector: u8,
    feed: &str,
    out: &mut Vec<u8>,
) -> Option<Status> {
    let feed = octets(alloc, feed).ok()?;
    Some(give_octets(alloc, archive, collector, &feed, out))
}

/// Runs a command over an archive, whose lines go to `out`. What goes to standard error is left out.
pub(crate) fn run<A: RouteArchive>(
    alloc: Global,
    archive: &mut A,
    command: &Command,
    out: &mut Vec<u8>,
) -> Option<Status> {
    let mut err = Vec::new(alloc);
    match command {
        Command::Load(collector, feed) => give(alloc, archive, *collector, *feed, out),
        Command::Ask(line) => {
            let mut lines = Output::new(out);
            let mut refusals = Output::new(&mut err);
            Some(ask(alloc, archive, *line, &mut lines, &mut refusals))
        }
        Command::Check => {
            let mut lines = Output::new(out);
            let mut refusals = Output::new(&mut err);
            Some(check(alloc, archive, &mut lines, &mut refusals))
        }
    }
}

/// Whether a command over the archive of a folder is well and writes just these lines.
fn goes_well(rt: &HostRuntime, folder: &str, command: &Command, lines: &str) -> Option<bool> {
    let mut archive = file_archive::open(rt.alloc(), rt, folder).ok()?;
    let mut out = Vec::new(rt.alloc());
    let status = run(rt.alloc(), &mut archive, command, &mut out)?;
    Some(status == Status::Done && out.as_slice() == lines.as_bytes())
}

/// The folder of a new archive of two collectors.
fn made(rt: &HostRuntime, name: &str) -> Option<String> {
    let folder = new_name(rt, name)?;
    let settings = Settings {
        collectors: 2,
        ring: 16,
    };
    file_archive::create(rt.alloc(), rt, folder.as_str(), settings, 64, 64).ok()?;
    Some(folder)
}

/// How many changes are applied of the archive of a folder.
fn applied(rt: &HostRuntime, folder: &str) -> Option<u64> {
    let archive = file_archive::open(rt.alloc(), rt, folder).ok()?;
    Some(archive.applied())
}

#[test]
fn a_session_of_two_collectors_goes_on_over_openings(rt: HostRuntime) {
    let folder = made(&rt, "session").expect(&rt, "a folder");
    for (command, lines) in &SESSION {
        be(
            &rt,
            goes_well(&rt, &folder, command, *lines) == Some(true),
            *lines,
        );
    }
    be(&rt, applied(&rt, &folder) == Some(10), "ten changes");
    be(&rt, remove(&rt, &folder), "the folder goes");
}

/// Whether this many records and changes were counted.
fn are_counts(counts: Counts, records: u64, applied: u64) -> bool {
    counts.records == records && counts.applied == applied
}

/// Loads both files into the archive of a folder, one after another. Whether what is counted after each is right.
fn is_counted(rt: &HostRuntime, folder: &str) -> Option<bool> {
    let none: Option<&HostRuntime> = None;
    let meter = Meter::new(none);
    let archive = file_archive::open(rt.alloc(), rt, folder).ok()?;
    let mut archive = WatchedArchive::new(archive, &meter);
    let mut out = Vec::new(rt.alloc());
    give(rt.alloc(), &mut archive, 0, AMSTERDAM, &mut out)?;
    let first = meter.counts();
    give(rt.alloc(), &mut archive, 1, TOKYO, &mut out)?;
    Some(are_counts(first, 6, 0) && are_counts(meter.counts(), 10, 10))
}

/// Lines that are asked one after another, and how many rows, events and places there were until then.
const ASKED: [(&str, u64); 3] = [
    ("at 2024-01-01T00:07:00Z all", 3),
    (
        "history 2024-01-01T00:00:00Z 2024-01-01T00:14:59Z 0 192.0.2.1 64496 203.0.113.0/24",
        6,
    ),
    ("changed 0 1704068099 0.0.0.0/0 ffff::/16", 10),
];

/// Asks what a line asks.
fn ask_for<A: RouteSource>(alloc: Global, source: &mut A, line: &str) -> Option<()> {
    match read_request(alloc, line).ok()? {
        Request::Question(query) => {
            let _answer = source.answer(query).ok()?;
        }
        Request::Changed(question) => {
            let _answer = source.changed(question).ok()?;
        }
        Request::Watermark | Request::Durable(_) => return None,
    }
    Some(())
}

/// Asks the archive of a folder. Whether what each answer has is counted.
fn are_rows_counted(rt: &HostRuntime, folder: &str) -> Option<bool> {
    let none: Option<&HostRuntime> = None;
    let meter = RowMeter::new(none);
    let archive = file_archive::open(rt.alloc(), rt, folder).ok()?;
    let mut source = WatchedSource::new(archive, &meter);
    for (line, rows) in &ASKED {
        ask_for(rt.alloc(), &mut source, *line)?;
        if meter.rows() != *rows {
            return Some(false);
        }
    }
    Some(true)
}

#[test]
fn what_a_load_and_questions_have_is_counted(rt: HostRuntime) {
    let folder = made(&rt, "watched").expect(&rt, "a folder");
    be(&rt, is_counted(&rt, &folder) == Some(true), "the counts");
    be(
        &rt,
        are_rows_counted(&rt, &folder) == Some(true),
        "the rows",
    );
    be(&rt, remove(&rt, &folder), "the folder goes");
}
