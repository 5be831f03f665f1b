//! What loads, feeds and questions write over the pure machine.

use crate::pure::Pure;
use crate::samples::stream;
use route_model::Mark;
use service::{
    End, FeedSettings, FileLoad, Input, LoadSettings, Output, Status, WithoutHop, ask, feed, load,
};
use std::alloc::Global;
use std::io::{Read, Write};

/// How records are loaded of collector 0 where nothing else is tried: in batches of at most 1000 admissions, with a mark
/// that is above all their times.
pub(crate) fn plainly() -> LoadSettings {
    LoadSettings {
        feed: FeedSettings {
            collector: 0,
            limit: 1000,
            rule: WithoutHop::Refused,
        },
        mark: Mark::new(1_704_067_201_000_000),
        resume: false,
        strict: false,
    }
}

/// Loads octets, which are written of on both writers.
pub(crate) fn load_to<W: Write>(
    alloc: Global,
    archive: &mut Pure,
    how: LoadSettings,
    octets: &[u8],
    out: &mut Output<W>,
    err: &mut Vec<u8>,
) -> Status {
    let mut files = [FileLoad::new(octets)];
    let mut refusals = Output::new(err);
    load(alloc, archive, how, &mut files, out, &mut refusals)
}

/// Asks a line, which is answered on both writers.
pub(crate) fn ask_to<W: Write>(
    alloc: Global,
    archive: &mut Pure,
    line: &str,
    out: &mut Output<W>,
    err: &mut Vec<u8>,
) -> Status {
    let mut refusals = Output::new(err);
    ask(alloc, archive, line, out, &mut refusals)
}

/// Feeds what the reader gives, in batches of two.
pub(crate) fn feed_to<R: Read, W: Write>(
    alloc: Global,
    archive: &mut Pure,
    collector: u8,
    reader: &mut Input<R>,
    out: &mut Output<W>,
) -> End {
    let how = FeedSettings {
        collector,
        limit: 2,
        rule: WithoutHop::Refused,
    };
    feed(alloc, archive, how, &mut 0, reader, out, &mut None, &mut 0)
}

/// Whether a load of the octets writes these lines, and ends so.
pub(crate) fn loads_as(
    alloc: Global,
    archive: &mut Pure,
    how: LoadSettings,
    octets: &[u8],
    lines: &str,
    refusals: &str,
    status: Status,
) -> bool {
    let mut out: Vec<u8> = Vec::new(alloc);
    let mut err: Vec<u8> = Vec::new(alloc);
    let ended = load_to(
        alloc,
        archive,
        how,
        octets,
        &mut Output::new(&mut out),
        &mut err,
    );
    ended == status && out.as_slice() == lines.as_bytes() && err.as_slice() == refusals.as_bytes()
}

/// Whether a feed of the octets writes these lines, and ends so.
pub(crate) fn feeds_as(
    alloc: Global,
    archive: &mut Pure,
    collector: u8,
    octets: &[u8],
    lines: &str,
    end: End,
) -> bool {
    let mut out: Vec<u8> = Vec::new(alloc);
    let mut file = Input::new(octets);
    let ended = feed_to(
        alloc,
        archive,
        collector,
        &mut file,
        &mut Output::new(&mut out),
    );
    ended == end && out.as_slice() == lines.as_bytes()
}

/// An archive of one collector that these octets are loaded into.
pub(crate) fn loaded(alloc: Global, octets: &[u8]) -> Option<Pure> {
    let mut archive = Pure::new(alloc, 1)?;
    let mut out: Vec<u8> = Vec::new(alloc);
    let mut err: Vec<u8> = Vec::new(alloc);
    let ended = load_to(
        alloc,
        &mut archive,
        plainly(),
        octets,
        &mut Output::new(&mut out),
        &mut err,
    );
    if ended == Status::Done {
        Some(archive)
    } else {
        None
    }
}

/// The same of records.
pub(crate) fn loaded_of(alloc: Global, records: &[&str]) -> Option<Pure> {
    loaded(alloc, &stream(alloc, records)?)
}
