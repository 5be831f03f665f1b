//! Lines that are read one by one, and the octets after a line.

ghost use Rattle.std.specs.Prelude.{◌≡◌, ◌<◌, ◌≤◌, ℕ, List, [], ◌++◌, length, drop};
ghost use Rattle.std.specs.Io.{ReadsAtMost};
ghost use Rattle.std.specs.Io.KnownBytes.{Consumes, ReadConsumes, prepend_known};
ghost use Rattle.line_reader.specs.Lines.{HasLine};
ghost use Rattle.line_reader.specs.Reading.{LineReading, ReadsLine};
ghost use Rattle.line_reader.specs.inner.Ends.{Fills};

use crate::fault::LineError;
use crate::line_end::{LineEnd, line_end};
use crate::window::Window;
use std::io;
use std::io::Read;
use std::marker::Model;

/// What a reader of lines met.
#[derive(Clone, Copy, Debug, PartialEq, Eq)]
pub enum Found {
    /// A line, which can be looked at now.
    Line,
    /// The end of the stream. What follows the last line feed is no line.
    End,
}

/// Reads the lines of a stream one by one. A line ends in a line feed, and a carriage return before that belongs to its end
/// too. With its end it has at most 4,096 octets, and any octets but a line feed may stand in it.
///
/// As a reader it gives the octets after the last line that was read.
#[derive(Drop)]
pub struct LineReader<R: Read> {
    reader: R,
    window: Window,
    end: LineEnd,
}

impl<R: Read> Model for LineReader<R> {
    ghost use Rattle.std.specs.Prelude.{◌≤◌, take, drop, length};
    ghost use Rattle.line_reader.specs.Reading.{LineReading};

    ghost Value = { LineReading R };

    ghost view = { λ l. record { reader = l.reader; line = take l.end.text l.window; beyond = drop l.end.whole l.window } };

    ghost invariant = { λ l. (l.end.text ≤ l.end.whole) × (l.end.whole ≤ length l.window) };
}

/// Takes the last line, which ends there, away.
fn leave_line(window: &mut Window, end: &mut LineEnd)
    requires within { end.old.whole ≤ length window.old }
    ensures window { window.new ≡ drop end.old.whole window.old }
    ensures text { end.new.text ≡ 0 }
    ensures whole { end.new.whole ≡ 0 }
{
    window.consume(end.whole);
    *end = LineEnd { text: 0, whole: 0 };
}

/// Reads on until a line is at the front of the window. Returns where it ends; none at the end of the stream.
fn fill_line<R: Read>(reader: &mut R, window: &mut Window) -> Result<Option<LineEnd>, LineError>
    ensures fills { (gave : List ℕ) × Consumes (R.remaining reader.old) (R.remaining reader.new) gave × (window.new ≡ window.old ++ gave) × Fills result window.new (R.remaining reader.new) }
    ensures ready { HasLine window.old → reader.new ≡ reader.old }
    ensures full { length window.old ≡ 4096 → reader.new ≡ reader.old }
{
    loop {
        if let Some(end) = line_end(window.as_slice()) {
            return Ok(Some(end));
        }
        if window.is_full() {
            return Err(LineError::TooLong);
        }
        match window.read_from(reader) {
            Ok(0) => return Ok(None),
            Ok(_) => {}
            Err(error) => return Err(LineError::Failed(error)),
        }
    }
}

impl<R: Read> LineReader<R> {
    /// A reader of lines before the first line.
    pub fn new(reader: R) -> LineReader<R>
        ensures reader { result.reader ≡ reader }
        ensures line { result.line ≡ [] }
        ensures beyond { result.beyond ≡ [] }
    {
        LineReader {
            reader,
            window: Window::new(),
            end: LineEnd { text: 0, whole: 0 },
        }
    }

    /// The last line that was read, without its end; empty before the first line, and where none was read.
    pub fn line(&self) -> &[u8]
        ensures line { result.now ≡ self.now.line }
    {
        &self.window.as_slice()[..self.end.text]
    }

    /// Reads the next line. It doesn't read on where octets that were read already have a line, or are as many as a line may
    /// have.
    ///
    /// `TooLong` where 4,096 octets have no line feed, from then on at each call; `Failed` where a read fails: the next call
    /// reads on. Neither loses an octet.
    pub fn read_line(&mut self) -> Result<Found, LineError>
        ensures reads { (gave : List ℕ) × Consumes (R.remaining self.old.reader) (R.remaining self.new.reader) gave × ReadsLine result (self.old.beyond ++ gave) self.new.line self.new.beyond (R.remaining self.new.reader) }
        ensures ready { HasLine self.old.beyond → self.new.reader ≡ self.old.reader }
        ensures full { length self.old.beyond ≡ 4096 → self.new.reader ≡ self.old.reader }
    {
        leave_line(&mut self.window, &mut self.end);
        match fill_line(&mut self.reader, &mut self.window)? {
            Some(end) => {
                self.end = end;
                Ok(Found::Line)
            }
            None => Ok(Found::End),
        }
    }
}

impl<R: Read> Read for LineReader<R> {
    ghost use Rattle.std.specs.Prelude.{ℕ, List, Option};
    ghost use Rattle.std.specs.Io.KnownBytes.{prepend_known};

    ghost remaining = { λ l. prepend_known l.beyond (R.remaining l.reader) };

    /// Leaves the last line, and reads octets after it: first those that were read already, without a read.
    fn read(&mut self, piece: &mut [u8]) -> io::Result<usize>
        ensures bound { ReadsAtMost result piece.new }
        ensures bytes { ReadConsumes (prepend_known self.old.beyond (R.remaining self.old.reader)) (prepend_known self.new.beyond (R.remaining self.new.reader)) result piece.new }
        ensures ready { 0 < length self.old.beyond → self.new.reader ≡ self.old.reader }
    {
        leave_line(&mut self.window, &mut self.end);
        if self.window.as_slice().is_empty() {
            return self.reader.read(piece);
        }
        Ok(self.window.give(piece))
    }
}
