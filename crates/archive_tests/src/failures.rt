//! What is done where a reader or a writer fails.

use crate::be;
use crate::desk::{ask_to, feed_to, load_to, loaded_of};
use crate::feeds::QUESTION;
use crate::pure::Pure;
use crate::samples::{LONG_PREFIX, UPDATE, stream};
use service::{
    End, FeedSettings, FeedStop, Input, LoadSettings, Output, Status, WithoutHop, report_lost,
    report_outside,
};
use std::alloc::Global;
use std::io::{Error, ErrorKind, Read, Write};

/// What standard error shows where standard output takes no more.
pub(crate) const UNWRITTEN: &str = "rha: 29 Outside: standard output: write: write zero\n";

/// The same where what is written is kept in a buffer first.
pub(crate) const UNBUFFERED: &str =
    "rha: 29 Outside: standard output: write: failed to write the buffered data\n";

/// A reader of these octets, which then fails.
#[derive(Drop)]
struct Failing<'a> {
    octets: &'a [u8],
}

impl Read for Failing<'_> {
    fn read(&mut self, buf: &mut [u8]) -> std::io::Result<usize> {
        if self.octets.is_empty() {
            return Err(Error::from(ErrorKind::BrokenPipe));
        }
        self.octets.read(buf)
    }
}

/// A reader of these octets, one at a time, each after an interruption.
#[derive(Drop)]
struct Slow<'a> {
    octets: &'a [u8],
    interrupted: bool,
}

impl Read for Slow<'_> {
    fn read(&mut self, buf: &mut [u8]) -> std::io::Result<usize> {
        self.interrupted = !self.interrupted;
        if self.interrupted {
            return Err(Error::from(ErrorKind::Interrupted));
        }
        let Some(first) = buf.get_mut(..1) else {
            return Ok(0);
        };
        self.octets.read(first)
    }
}

/// A writer of one octet at a time, each after an interruption.
#[derive(Drop)]
struct SlowOut<'a> {
    octets: &'a mut Vec<u8>,
    interrupted: bool,
}

impl Write for SlowOut<'_> {
    fn write(&mut self, buf: &[u8]) -> std::io::Result<usize> {
        self.interrupted = !self.interrupted;
        if self.interrupted {
            return Err(Error::from(ErrorKind::Interrupted));
        }
        let Some(first) = buf.get(..1) else {
            return Ok(0);
        };
        self.octets.write(first)
    }

    fn flush(&mut self) -> std::io::Result<()> {
        Ok(())
    }
}

/// Feeds octets that come one at a time and go one at a time, with interruptions: whether all are taken.
fn feeds_slowly(alloc: Global, octets: &[u8], out: &mut Vec<u8>) -> Option<bool> {
    let mut archive = Pure::new(alloc, 1)?;
    let mut reader = Input::new(Slow {
        octets,
        interrupted: false,
    });
    let mut writer = Output::new(SlowOut {
        octets: out,
        interrupted: false,
    });
    Some(feed_to(alloc, &mut archive, 0, &mut reader, &mut writer) == End::Well)
}

fn is_fed_slowly(alloc: Global) -> Option<bool> {
    let octets = stream(alloc, &[LONG_PREFIX, UPDATE])?;
    let mut out: Vec<u8> = Vec::new(alloc);
    let is_well = feeds_slowly(alloc, &octets, &mut out)?;
    let lines = "X|15|Malformed|0\nB|0|1|1\nF|2|1|0|1|0\n";
    Some(is_well && out.as_slice() == lines.as_bytes())
}

/// Whether a reader that fails ends its feed, as its line says, and remembers why.
fn is_given_up(alloc: Global) -> Option<bool> {
    let mut archive = Pure::new(alloc, 1)?;
    let octets = stream(alloc, &[UPDATE, UPDATE])?;
    let mut reader = Input::new(Failing { octets: &octets });
    let mut out: Vec<u8> = Vec::new(alloc);
    let mut lines = Output::new(&mut out);
    let end = feed_to(alloc, &mut archive, 0, &mut reader, &mut lines);
    drop(lines);
    let expected = "B|0|2|2\nX|29|Outside\n";
    Some(
        end == End::Refused(FeedStop::Outside)
            && reader.failure().is_some()
            && out.as_slice() == expected.as_bytes(),
    )
}

/// Whether a writer of four octets ends a feed and fails what comes after it. Standard error shows it for a load, and no more for a question.
fn fails_all<W: Write>(
    alloc: Global,
    archive: &mut Pure,
    octets: &[u8],
    full: &mut Output<W>,
) -> bool {
    let end = feed_to(alloc, archive, 0, &mut Input::new(octets), full);
    let how = LoadSettings {
        feed: FeedSettings {
            collector: 0,
            limit: 1000,
            rule: WithoutHop::Refused,
        },
        mark: None,
        resume: false,
        strict: false,
    };
    let mut shown: Vec<u8> = Vec::new(alloc);
    let loaded = load_to(alloc, archive, how, &[], full, &mut shown);
    let mut rest: Vec<u8> = Vec::new(alloc);
    let asked = ask_to(alloc, archive, QUESTION, full, &mut rest);
    end == End::Refused(FeedStop::Outside)
        && loaded == Status::Failed
        && shown.as_slice() == UNWRITTEN.as_bytes()
        && asked == Status::Failed
        && rest.is_empty()
}

fn is_failed(alloc: Global) -> Option<bool> {
    let mut archive = Pure::new(alloc, 1)?;
    let octets = stream(alloc, &[UPDATE])?;
    let mut small = [0u8; 4];
    let full: &mut [u8] = &mut small;
    Some(fails_all(alloc, &mut archive, &octets, &mut Output::new(full)))
}

/// Whether a question whose answer doesn't fit has failed.
fn is_too_long(alloc: Global) -> Option<bool> {
    let mut archive = loaded_of(alloc, &[UPDATE])?;
    let mut small = [0u8; 4];
    let full: &mut [u8] = &mut small;
    let mut shown: Vec<u8> = Vec::new(alloc);
    let asked = ask_to(
        alloc,
        &mut archive,
        QUESTION,
        &mut Output::new(full),
        &mut shown,
    );
    Some(asked == Status::Failed && shown.as_slice() == UNWRITTEN.as_bytes())
}

/// What standard error has to show of a file that isn't there, and of one that can't be read on.
const REASONS: &str = "rha: 29 Outside: a.mrt: open: entity not found
rha: 29 Outside: a.mrt: read: broken pipe
";

/// Whether standard error has the system's reasons.
fn are_reasons_shown(alloc: Global) -> Option<bool> {
    let mut archive = Pure::new(alloc, 1)?;
    let mut file = Input::new(Failing { octets: &[] });
    let mut lines: Vec<u8> = Vec::new(alloc);
    feed_to(
        alloc,
        &mut archive,
        0,
        &mut file,
        &mut Output::new(&mut lines),
    );
    let missing = Error::from(ErrorKind::NotFound);
    let mut err: Vec<u8> = Vec::new(alloc);
    let mut shown = Output::new(&mut err);
    let code = report_outside(alloc, &mut shown, "a.mrt", "open", &missing);
    report_lost(alloc, "a.mrt", &file, &mut shown);
    drop(shown);
    Some(code == 1 && err.as_slice() == REASONS.as_bytes())
}

#[test]
fn failures_outside_are_shown(rt: HostRuntime) {
    let alloc = rt.alloc();
    be(&rt, is_fed_slowly(alloc) == Some(true), "octet by octet");
    be(&rt, is_given_up(alloc) == Some(true), "a reader that fails");
    be(&rt, is_failed(alloc) == Some(true), "a writer that fails");
    be(&rt, is_too_long(alloc) == Some(true), "a long answer");
    be(&rt, are_reasons_shown(alloc) == Some(true), "the reasons");
}
