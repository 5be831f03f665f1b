//! Octets that were read and are not yet taken: at most as many as a line may have.

ghost use Rattle.std.specs.Prelude.{◌≡◌, ◌≤◌, ◌<◌, ◌↔◌, ℕ, List, [], ◌++◌, min, drop, take, length, IsTrue, IfOk, OnErr};
ghost use Rattle.std.specs.Io.{ReadsAtMost};
ghost use Rattle.std.specs.Io.KnownBytes.{Consumes, IsAtEnd, Keeps, ReadConsumes};

use std::io;
use std::io::{ErrorKind, Read};
use std::marker::Model;

/// How many octets a line has at most, its end counted.
pub const LIMIT: usize = 4096;

/// Octets that were read and are not yet taken.
#[derive(Drop)]
pub(crate) struct Window {
    octets: [u8; LIMIT],
    len: usize,
}

impl Model for Window {
    ghost use Rattle.std.specs.Prelude.{ℕ, List, ◌≤◌, take};

    ghost Value = { List ℕ };

    ghost view = { λ w. take w.len w.octets };

    ghost invariant = { λ w. w.len ≤ 4096 };
}

/// One read, done again where a signal interrupts it.
fn read_through<R: Read>(reader: &mut R, piece: &mut [u8]) -> io::Result<usize>
    ensures bound { ReadsAtMost result piece.new }
    ensures bytes { ReadConsumes (R.remaining reader.old) (R.remaining reader.new) result piece.new }
{
    for _ in 0..u64::MAX {
        match reader.read(piece) {
            Err(error) if error.kind() == ErrorKind::Interrupted => {}
            ended => return ended,
        }
    }
    reader.read(piece)
}

impl Window {
    pub(crate) fn new() -> Window
        ensures empty { result ≡ [] }
    {
        Window {
            octets: [0; LIMIT],
            len: 0,
        }
    }

    pub(crate) fn as_slice(&self) -> &[u8]
        ensures octets { result.now ≡ self.now }
        ensures few { length self.now ≤ 4096 }
    {
        &self.octets[..self.len]
    }

    /// Whether there is no room for one more octet.
    pub(crate) fn is_full(&self) -> bool
        ensures full { IsTrue result ↔ (length self.now ≡ 4096) }
        ensures few { length self.now ≤ 4096 }
    {
        self.len == LIMIT
    }

    /// Takes the first octets away.
    pub(crate) fn consume(&mut self, count: usize)
        requires within { count ≤ length self.old }
        ensures rest { self.new ≡ drop count self.old }
    {
        self.octets.copy_within(count..self.len, 0);
        self.len -= count;
    }

    /// Reads some octets and appends them to those that are there. Returns how many, or 0 at the end, or where
    /// there is no room.
    pub(crate) fn read_from<R: Read>(&mut self, reader: &mut R) -> io::Result<usize>
        ensures read { IfOk result (λ count. (more : List ℕ) × (length more ≡ count) × (self.new ≡ self.old ++ more) × Consumes (R.remaining reader.old) (R.remaining reader.new) more) }
        ensures end { IfOk result (λ count. count ≡ 0 → length self.old < 4096 → IsAtEnd (R.remaining reader.new)) }
        ensures failed { OnErr result ((self.new ≡ self.old) × Keeps (R.remaining reader.old) (R.remaining reader.new)) }
    {
        let len = self.len;
        let count = read_through(reader, &mut self.octets[len..])?;
        self.len = len + count;
        Ok(count)
    }

    /// Moves as many octets as there are and as there is room for from the front into `piece`: how many.
    pub(crate) fn give(&mut self, piece: &mut [u8]) -> usize
        ensures count { result ≡ min (length self.old) (length piece.old) }
        ensures given { self.old ≡ take result piece.new ++ self.new }
    {
        let count = self.len.min(piece.len());
        piece[..count].copy_from_slice(&self.octets[..count]);
        self.consume(count);
        count
    }
}
