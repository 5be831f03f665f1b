//! Writers of lines and readers of octets that remember that they failed.

ghost use Rattle.std.specs.Prelude.{◌≡◌, ◌≤◌, ◌<◌, [], decimal, length, true, false, is_some, IfSome, IfNone, Some, take};
ghost use Rattle.std.specs.Io.{ReadsAtMost, WritesAtMost};
ghost use Rattle.std.specs.Io.KnownBytes.{Appends, Consumes, IsAtEnd, ReadConsumes, WriteAppends};
ghost use Rattle.route_text.specs.MomentText.{fraction_text, moment_text};
ghost use Rattle.service.specs.Outputs.{Reports};

use itoa::Buffer;
use route_model::Moment;
use std::io::{Error, ErrorKind, Read, Write};
use std::marker::Model;

/// A writer of lines. If a write fails, the error is kept, and from then on nothing is written.
#[derive(Drop)]
pub struct Output<W: Write> {
    writer: W,
    failure: Option<Error>,
}

impl<W: Write> Model for Output<W> {
    ghost use Rattle.std.specs.Prelude.{is_some};
    ghost use Rattle.service.specs.Outputs.{OutputState};

    ghost Value = { OutputState };

    ghost view = { λ o. record { held = W.contents o.writer; failed = is_some o.failure } };
}

/// One write, repeated if a signal interrupts it.
fn write_through<W: Write>(writer: &mut W, octets: &[u8]) -> Result<usize, Error>
    ensures bound { WritesAtMost result octets.now }
    ensures bytes { WriteAppends (W.contents writer.old) (W.contents writer.new) result octets.now }
{
    for _ in 0..u64::MAX {
        match writer.write(octets) {
            Err(error) if error.kind() == ErrorKind::Interrupted => {}
            ended => return ended,
        }
    }
    writer.write(octets)
}

impl<W: Write> Output<W> {
    pub fn new(writer: W) -> Output<W>
        ensures held { result.held ≡ W.contents writer }
        ensures sound { result.failed ≡ false }
    {
        Output {
            writer,
            failure: None,
        }
    }

    /// Whether a write failed.
    pub fn has_failed(&self) -> bool
        ensures failed { result ≡ self.now.failed }
    {
        self.failure.is_some()
    }

    /// Why the first write that failed did.
    pub fn failure(&self) -> Option<&Error>
        ensures failed { is_some result ≡ self.now.failed }
    {
        self.failure.as_ref()
    }

    /// Writes at least one of the octets: how many, or none if the write failed.
    fn write_some(&mut self, octets: &[u8]) -> Option<usize>
        ensures some { IfSome result (λ count. 0 < count) }
        ensures fits { IfSome result (λ count. count ≤ length octets.now) }
        ensures wrote { IfSome result (λ count. Appends self.old.held self.new.held (take count octets.now)) }
        ensures sound { IfSome result (λ count. self.new.failed ≡ self.old.failed) }
        ensures failed { IfNone result (self.new.failed ≡ true) }
        ensures kept { IfNone result (Appends self.old.held self.new.held []) }
    {
        match write_through(&mut self.writer, octets) {
            Ok(0) => {
                self.failure = Some(Error::from(ErrorKind::WriteZero));
                None
            }
            Ok(count) => Some(count),
            Err(error) => {
                self.failure = Some(error);
                None
            }
        }
    }

    /// Writes the octets.
    fn put(&mut self, octets: &[u8])
        ensures reports { Reports self.old self.new octets.now }
    {
        if self.has_failed() {
            return;
        }
        let mut rest = octets;
        while !rest.is_empty() {
            let Some(count) = self.write_some(rest) else {
                return;
            };
            rest = &rest[count..];
        }
    }

    /// Writes out what the writer buffers.
    pub fn flush(&mut self)
        ensures reports { Reports self.old self.new [] }
    {
        if self.has_failed() {
            return;
        }
        if let Err(error) = self.writer.flush() {
            self.failure = Some(error);
        }
    }

    /// Writes the text.
    pub fn text(&mut self, text: &str)
        ensures reports { Reports self.old self.new text.now }
    {
        self.put(text.as_bytes());
    }

    /// Writes the number in decimal digits.
    pub fn number(&mut self, number: u64)
        ensures reports { Reports self.old self.new (decimal number) }
    {
        let mut digits = Buffer::new();
        self.put(digits.format(number).as_bytes());
    }

    /// Writes the digits of the microseconds within a second after a point, or nothing in a whole second.
    fn fraction(&mut self, micros: u64)
        ensures reports { Reports self.old self.new (fraction_text micros) }
    {
        if micros == 0 {
            return;
        }
        self.text(".");
        self.number(micros / 100_000 % 10);
        self.number(micros / 10_000 % 10);
        self.number(micros / 1_000 % 10);
        self.number(micros / 100 % 10);
        self.number(micros / 10 % 10);
        self.number(micros % 10);
    }

    /// Writes a moment or a mark, in microseconds: its seconds, and where they aren't whole a point and six digits.
    pub fn moment(&mut self, number: u64)
        ensures reports { Reports self.old self.new (moment_text number) }
    {
        self.number(number / Moment::SECOND);
        self.fraction(number % Moment::SECOND);
    }
}

/// A reader of octets. If a read fails, the error is kept.
#[derive(Drop)]
pub struct Input<R: Read> {
    reader: R,
    failure: Option<Error>,
}

impl<R: Read> Model for Input<R> {
    ghost use Rattle.std.specs.Prelude.{is_some};
    ghost use Rattle.service.specs.Outputs.{InputState};

    ghost Value = { InputState };

    ghost view = { λ i. record { left = R.remaining i.reader; failed = is_some i.failure } };
}

/// One read, repeated if a signal interrupts it.
pub fn read_through<R: Read>(reader: &mut R, piece: &mut [u8]) -> Result<usize, Error>
    ensures bound { ReadsAtMost result piece.new }
    ensures bytes { ReadConsumes (R.remaining reader.old) (R.remaining reader.new) result piece.new }
{
    for _ in 0..u64::MAX {
        match reader.read(piece) {
            Err(error) if error.kind() == ErrorKind::Interrupted => {}
            ended => return ended,
        }
    }
    reader.read(piece)
}

impl<R: Read> Input<R> {
    pub fn new(reader: R) -> Input<R>
        ensures left { result.left ≡ R.remaining reader }
        ensures sound { result.failed ≡ false }
    {
        Input {
            reader,
            failure: None,
        }
    }

    /// Why the last read that failed did.
    pub fn failure(&self) -> Option<&Error>
        ensures failed { is_some result ≡ self.now.failed }
    {
        self.failure.as_ref()
    }

    /// Reads some octets into the front of `piece`, which has room: how many, or 0 at the end. None if the read failed.
    pub(crate) fn read(&mut self, piece: &mut [u8]) -> Option<usize>
        ensures fits { IfSome result (λ count. count ≤ length piece.new) }
        ensures read { IfSome result (λ count. Consumes self.old.left self.new.left (take count piece.new)) }
        ensures end { 0 < length piece.old → result ≡ Some 0 → IsAtEnd self.new.left }
        ensures sound { IfSome result (λ _. self.new.failed ≡ self.old.failed) }
        ensures failed { IfNone result (self.new.failed ≡ true) }
    {
        match read_through(&mut self.reader, piece) {
            Ok(count) => Some(count),
            Err(error) => {
                self.failure = Some(error);
                None
            }
        }
    }
}
