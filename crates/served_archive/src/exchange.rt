//! Lines over a stream: one is written, and those of its reply are read.

use crate::lapse::{Lapse, NoReply};
use crate::refusing::read_refusal;
use route_meaning::MAX_ROWS;
use route_text::TextError;
use std::alloc::Global;
use std::io;
use std::io::{BufRead, BufReader, ErrorKind, Read, Take, Write};

/// The most octets of a line that is read, its end counted. A row has fewer than 9,000: a route's encoding has 3,072 octets at most, and no four of
/// them are written with more than 11 characters.
const MAX_LINE: u64 = 16_384;

/// What the lines of a reply give.
pub(crate) trait Reply {
    /// Takes a line of this letter and these fields: whether it is the last one. `BadText` if it doesn't answer what was asked.
    fn take(&mut self, alloc: Global, letter: &str, fields: &str) -> Result<bool, TextError>;
}

/// The two ways of a stream to a server.
#[derive(Drop)]
pub(crate) struct Exchange<R, W> {
    /// What comes, up to the limit of a line.
    reader: Take<BufReader<R>>,
    writer: W,
    /// The line that was read.
    line: Vec<u8>,
}

/// Why a read failed.
fn unread(why: io::Error) -> Lapse {
    match why.kind() {
        ErrorKind::OutOfMemory => Lapse::OutOfMemory,
        _ => Lapse::Unread(why),
    }
}

/// The text of a line that was read, without its end.
fn text_of(line: &[u8]) -> Result<&str, Lapse> {
    let Some((b'\n', octets)) = line.split_last() else {
        return Err(if line.len() as u64 == MAX_LINE {
            Lapse::TooLong
        } else {
            Lapse::Ended
        });
    };
    match str::from_utf8(octets) {
        Ok(text) => Ok(text),
        Err(_) => Err(Lapse::Unexpected),
    }
}

/// Gives the text of a line to a reply: whether it is the last one. `Refused` if it refuses.
fn take_text<T: Reply>(alloc: Global, text: &str, reply: &mut T) -> Result<bool, NoReply> {
    let Some((letter, fields)) = text.split_once('|') else {
        return Err(NoReply::Lapsed(Lapse::Unexpected));
    };
    if letter == "X" {
        return Err(read_refusal(fields));
    }
    match reply.take(alloc, letter, fields) {
        Ok(is_last) => Ok(is_last),
        Err(why) => Err(NoReply::Lapsed(Lapse::from(why))),
    }
}

/// Gives a line to a reply, as `take_text` does.
fn take_line<T: Reply>(alloc: Global, line: &[u8], reply: &mut T) -> Result<bool, NoReply> {
    match text_of(line) {
        Ok(text) => take_text(alloc, text, reply),
        Err(why) => Err(NoReply::Lapsed(why)),
    }
}

impl<R: Read + Drop, W: Write + Drop> Exchange<R, W> {
    pub(crate) fn new(alloc: Global, reader: R, writer: W) -> Result<Exchange<R, W>, Lapse> {
        let Ok(reader) = BufReader::new(alloc, reader) else {
            return Err(Lapse::OutOfMemory);
        };
        Ok(Exchange {
            reader: reader.take(MAX_LINE),
            writer,
            line: Vec::new(alloc),
        })
    }

    /// Writes a line, with its end.
    fn send(&mut self, line: &str) -> Result<(), Lapse> {
        match self.writer.write_all(line.as_bytes()) {
            Ok(()) => Ok(()),
            Err(why) => Err(Lapse::Unwritten(why)),
        }
    }

    /// Reads the next line.
    fn read_line(&mut self) -> Result<(), Lapse> {
        self.line.clear();
        self.reader.set_limit(MAX_LINE);
        match self.reader.read_until(b'\n', &mut self.line) {
            Ok(_) => Ok(()),
            Err(why) => Err(unread(why)),
        }
    }

    /// Reads the lines of a reply up to its end.
    fn read_reply<T: Reply>(&mut self, alloc: Global, reply: &mut T) -> Result<(), NoReply> {
        for _ in 0..=MAX_ROWS {
            self.read_line()?;
            if take_line(alloc, &self.line, reply)? {
                return Ok(());
            }
        }
        Err(NoReply::Lapsed(Lapse::Unexpected))
    }

    /// Writes a line, with its end, and reads its reply.
    pub(crate) fn ask<T: Reply>(
        &mut self,
        alloc: Global,
        line: &str,
        reply: &mut T,
    ) -> Result<(), NoReply> {
        self.send(line)?;
        self.read_reply(alloc, reply)
    }
}
