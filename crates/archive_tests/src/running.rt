//! Commands as the program runs them over an archive: what is written, what is written out when, and the exit status.

use crate::be;
use crate::desk::loaded_of;
use crate::failures::UNBUFFERED;
use crate::pure::Pure;
use crate::samples::{EARLIER, LONG_PREFIX, UPDATE, stream};
use route_model::Mark;
use service::{
    Creation, FileLoad, Loading, Output, Question, Refusal, ask_line, load_files, report_created,
    report_listening, report_refusal,
};
use std::alloc::Global;
use std::io::{BufWriter, Write};
use std::net::{Ipv4Addr, SocketAddrV4};

/// How records are loaded: in batches of two, with a mark that is above their times.
fn loading(alloc: Global) -> Option<Loading<'static>> {
    let mut files = Vec::new(alloc);
    files.push("a.mrt").ok()?;
    Some(Loading {
        wait: 0,
        folder: "a",
        collector: 0,
        batch: 2,
        mark: Mark::new(1_704_067_201_000_000),
        resume: false,
        strict: false,
        lose_entries: false,
        files,
    })
}

/// Loads octets as a collector's, in batches of two, with the mark 1704067201: the exit status.
fn load_to<W: Write + Drop>(
    alloc: Global,
    archive: &mut Pure,
    asked: &Loading<'_>,
    octets: &[u8],
    out: &mut Output<W>,
    err: &mut Vec<u8>,
) -> u8 {
    let mut files = [FileLoad::new(octets)];
    load_files(
        alloc,
        archive,
        asked,
        &mut files,
        out,
        &mut Output::new(err),
    )
}

/// Asks a line: the exit status. None where there is no memory for the line.
fn ask_to<W: Write + Drop>(
    alloc: Global,
    archive: &mut Pure,
    line: &str,
    out: &mut Output<W>,
    err: &mut Vec<u8>,
) -> Option<u8> {
    let asked = Question {
        wait: 0,
        folder: "a",
        all: false,
        human: false,
        line: String::from_str(alloc, line).ok()?,
    };
    Some(ask_line(alloc, archive, &asked, out, &mut Output::new(err)))
}

/// A writer that puts a tilde where it writes out what it buffers.
#[derive(Drop)]
struct Marking<'a> {
    octets: &'a mut Vec<u8>,
}

impl Write for Marking<'_> {
    fn write(&mut self, buf: &[u8]) -> std::io::Result<usize> {
        self.octets.write(buf)
    }

    fn flush(&mut self) -> std::io::Result<()> {
        self.octets.write_all(b"~")
    }
}

const WRITTEN_OUT: &str = "B|0|1|2
L|1|1704067199|1704067200
~X|15|Malformed|2
~B|1|2|3
~F|4|2|1|1|0
~S|1704067201
~";

/// Whether each line of a load is written out as soon as it is true.
fn is_written_out(alloc: Global) -> Option<bool> {
    let mut archive = Pure::new(alloc, 1)?;
    let octets = stream(alloc, &[UPDATE, EARLIER, LONG_PREFIX, UPDATE])?;
    let mut out: Vec<u8> = Vec::new(alloc);
    let mut err: Vec<u8> = Vec::new(alloc);
    let mut lines = Output::new(Marking { octets: &mut out });
    let asked = loading(alloc)?;
    let code = load_to(alloc, &mut archive, &asked, &octets, &mut lines, &mut err);
    drop(lines);
    Some(code == 0 && err.is_empty() && out.as_slice() == WRITTEN_OUT.as_bytes())
}

#[test]
fn lines_are_written_out_as_soon_as_they_are_true(rt: HostRuntime) {
    be(&rt, is_written_out(rt.alloc()) == Some(true), "lines");
}

/// Whether a writer of four octets, which shows its fault when it is written out, gives a load status 1, and is
/// shown once.
fn is_load_unwritten(alloc: Global, octets: &[u8]) -> Option<bool> {
    let mut archive = Pure::new(alloc, 1)?;
    let mut small = [0u8; 4];
    let full: &mut [u8] = &mut small;
    let mut out = Output::new(BufWriter::new(alloc, full).ok()?);
    let mut err: Vec<u8> = Vec::new(alloc);
    let asked = loading(alloc)?;
    let code = load_to(alloc, &mut archive, &asked, octets, &mut out, &mut err);
    Some(code == 1 && err.as_slice() == UNBUFFERED.as_bytes())
}

/// The same of a question, whose answer has more octets.
fn is_answer_unwritten(alloc: Global) -> Option<bool> {
    let mut archive = loaded_of(alloc, &[UPDATE])?;
    let mut small = [0u8; 4];
    let full: &mut [u8] = &mut small;
    let mut out = Output::new(BufWriter::new(alloc, full).ok()?);
    let mut err: Vec<u8> = Vec::new(alloc);
    let code = ask_to(alloc, &mut archive, "watermark", &mut out, &mut err);
    Some(code == Some(1) && err.as_slice() == UNBUFFERED.as_bytes())
}

#[test]
fn what_cannot_be_written_out_is_shown_once(rt: HostRuntime) {
    let alloc = rt.alloc();
    // The first fails at its batch, the second, which has none, at its end.
    let update = stream(alloc, &[UPDATE]).unwrap_or(Vec::new(alloc));
    be(
        &rt,
        is_load_unwritten(alloc, &update) == Some(true),
        "a batch",
    );
    be(&rt, is_load_unwritten(alloc, &[]) == Some(true), "an end");
    be(&rt, is_answer_unwritten(alloc) == Some(true), "an answer");
}

const MADE: Creation<'static> = Creation {
    folder: "a",
    collectors: 1,
    ring: 16,
    pages: 64,
    blocks: 65,
};

/// Where connections are taken.
fn bound(port: u16) -> SocketAddrV4 {
    SocketAddrV4::new(Ipv4Addr::from_octets([192, 0, 2, 100]), port)
}

/// What stands before a command.
#[derive(Clone, Copy)]
enum Before {
    /// A new archive is made.
    Made,
    /// Connections are taken.
    Listening,
    /// So are those of HTTP.
    Served,
}

/// Writes its line: the exit status.
fn report_to<W: Write + Drop>(
    alloc: Global,
    before: Before,
    out: &mut Output<W>,
    err: &mut Vec<u8>,
) -> u8 {
    let mut refusals = Output::new(err);
    match before {
        Before::Made => report_created(alloc, &MADE, out, &mut refusals),
        Before::Served => {
            let http = Some(bound(17_980));
            report_listening(alloc, &bound(17_900), http, out, &mut refusals)
        }
        Before::Listening => report_listening(alloc, &bound(17_900), None, out, &mut refusals),
    }
}

/// Whether this line is written.
fn is_shown(alloc: Global, before: Before, line: &str) -> bool {
    let mut out: Vec<u8> = Vec::new(alloc);
    let mut err: Vec<u8> = Vec::new(alloc);
    let code = report_to(alloc, before, &mut Output::new(&mut out), &mut err);
    code == 0 && out.as_slice() == line.as_bytes() && err.is_empty()
}

/// Whether standard error shows that this line can't be written out.
fn is_unwritten(alloc: Global, before: Before) -> Option<bool> {
    let mut small = [0u8; 4];
    let full: &mut [u8] = &mut small;
    let mut out = Output::new(BufWriter::new(alloc, full).ok()?);
    let mut err: Vec<u8> = Vec::new(alloc);
    let code = report_to(alloc, before, &mut out, &mut err);
    Some(code == 1 && err.as_slice() == UNBUFFERED.as_bytes())
}

/// Whether standard error shows that a folder has no archive.
fn is_refusal_shown(alloc: Global) -> bool {
    let mut err: Vec<u8> = Vec::new(alloc);
    let code = report_refusal(&Refusal::NotAJournal, &mut Output::new(&mut err));
    code == 1 && err.as_slice() == "rha: 4 NotAJournal\n".as_bytes()
}

#[test]
fn what_stands_before_a_command_is_shown(rt: HostRuntime) {
    let alloc = rt.alloc();
    let is_made = is_shown(alloc, Before::Made, "created 1 16 64 65\n");
    be(&rt, is_made, "a new archive");
    let is_listening = is_shown(alloc, Before::Listening, "listening 192.0.2.100:17900\n");
    be(&rt, is_listening, "connections");
    let line = "listening 192.0.2.100:17900 http 192.0.2.100:17980\n";
    let is_served = is_shown(alloc, Before::Served, line);
    be(&rt, is_served, "connections of HTTP");
    be(
        &rt,
        is_unwritten(alloc, Before::Made) == Some(true),
        "no room",
    );
    be(
        &rt,
        is_unwritten(alloc, Before::Listening) == Some(true),
        "no room",
    );
    be(&rt, is_refusal_shown(alloc), "a folder without an archive");
}
