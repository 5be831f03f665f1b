//! Commands over a recorded connection.

use archive_calls::RouteSource;
use served_archive::{Lapse, ServedArchive};
use service::{Invocation, Output, command};
use std::alloc::Global;
use std::io;
use std::io::{Error, ErrorKind, Read, Write};
use tables::{diff, dump, find, peers, read_comparison, read_listing, read_search, read_table};

/// What is received on a connection, a few octets at a time, until it ends or is reset.
#[derive(Drop)]
struct Received<'a> {
    octets: &'a [u8],
    is_reset: bool,
}

impl Read for Received<'_> {
    fn read(&mut self, piece: &mut [u8]) -> io::Result<usize> {
        if self.octets.is_empty() && self.is_reset {
            return Err(Error::from(ErrorKind::ConnectionReset));
        }
        let few = piece.len().min(7);
        let Some(front) = piece.get_mut(..few) else {
            return Ok(0);
        };
        self.octets.read(front)
    }
}

/// What is sent on a connection, which takes so many octets.
#[derive(Drop)]
struct Sent<'a> {
    octets: &'a mut Vec<u8>,
    room: usize,
}

impl Write for Sent<'_> {
    fn write(&mut self, octets: &[u8]) -> io::Result<usize> {
        let Some(room) = self.room.checked_sub(octets.len()) else {
            return Err(Error::from(ErrorKind::BrokenPipe));
        };
        self.room = room;
        self.octets.write(octets)
    }

    fn flush(&mut self) -> io::Result<()> {
        Ok(())
    }
}

/// What a command made of a connection.
#[derive(Drop)]
pub(crate) struct Played {
    pub(crate) sent: Vec<u8>,
    pub(crate) printed: Vec<u8>,
    /// The exit status; none if the archive wasn't opened.
    pub(crate) code: Option<u8>,
    pub(crate) lapse: Option<Lapse>,
}

/// Runs a command: the exit status. None if it isn't one that reads whole tables.
fn run<A: RouteSource, W: Write, E: Write>(
    alloc: Global,
    archive: &mut A,
    asked: &Invocation<'_>,
    out: &mut Output<W>,
    err: &mut Output<E>,
) -> Option<u8> {
    match asked {
        Invocation::Dump(asked) => {
            let table = read_table(asked).ok()?;
            Some(dump(alloc, archive, &table, false, out, err))
        }
        Invocation::Peers(asked) => {
            let at = read_listing(asked).ok()?;
            Some(peers(alloc, archive, at, false, out, err))
        }
        Invocation::Diff(asked) => {
            let comparison = read_comparison(asked).ok()?;
            Some(diff(alloc, archive, &comparison, false, out, err))
        }
        Invocation::Find(asked) => {
            let search = read_search(asked).ok()?;
            Some(find(alloc, archive, &search, false, out, err))
        }
        _ => None,
    }
}

/// Runs a command on an archive: the exit status. What it prints on standard error is dropped.
fn run_on<A: RouteSource>(
    alloc: Global,
    archive: &mut A,
    asked: &Invocation<'_>,
    printed: &mut Vec<u8>,
) -> Option<u8> {
    let mut refusals = Vec::new(alloc);
    let mut out = Output::new(printed);
    let mut err = Output::new(&mut refusals);
    run(alloc, archive, asked, &mut out, &mut err)
}

/// Opens an archive over a connection, and runs a command on it.
fn run_over<R: Read + Drop, W: Write + Drop>(
    alloc: Global,
    asked: &Invocation<'_>,
    reader: R,
    writer: W,
    printed: &mut Vec<u8>,
) -> (Option<u8>, Option<Lapse>) {
    match ServedArchive::open(alloc, reader, writer) {
        Ok(mut archive) => {
            let code = run_on(alloc, &mut archive, asked, printed);
            (code, archive.lapse())
        }
        Err(lapse) => (None, Some(lapse)),
    }
}

/// Plays a command, by its words with lines between them, over a connection on which this is received, and which takes so many octets.
pub(crate) fn play(
    alloc: Global,
    words: &str,
    received: &[u8],
    room: usize,
    is_reset: bool,
) -> Option<Played> {
    let words: Vec<&str> = words.split('|').collect(alloc).ok()?;
    let asked = command(alloc, words.as_slice()).ok()?;
    let mut sent = Vec::new(alloc);
    let mut printed = Vec::new(alloc);
    let (code, lapse) = run_over(
        alloc,
        &asked,
        Received {
            octets: received,
            is_reset,
        },
        Sent {
            octets: &mut sent,
            room,
        },
        &mut printed,
    );
    Some(Played {
        sent,
        printed,
        code,
        lapse,
    })
}

/// Whether what was the matter, if anything, is said so; nothing, if the text is empty.
pub(crate) fn is_said(alloc: Global, lapse: Option<Lapse>, text: &str) -> Option<bool> {
    let Some(lapse) = lapse else {
        return Some(text.is_empty());
    };
    let said = format!(in alloc; "{lapse}").ok()?;
    Some(said.as_str() == text)
}
