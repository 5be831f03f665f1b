//! Octets that were read and are not yet taken: at most as many as a head may have.

ghost use Rattle.std.specs.Prelude.{◌≤◌};

use service::read_through;
use std::io;
use std::io::Read;

/// How many octets a head has at most.
pub const LIMIT: usize = 8192;

/// Octets that were read and are not yet taken. A client makes it no larger.
#[derive(Drop)]
pub(crate) struct Buffer {
    octets: [u8; LIMIT],
    len: usize,
    ghost few: { len ≤ 8192 },
}

impl Buffer {
    pub(crate) fn new() -> Buffer {
        Buffer {
            octets: [0; LIMIT],
            len: 0,
        }
    }

    pub(crate) fn as_slice(&self) -> &[u8] {
        &self.octets[..self.len]
    }

    /// Takes the first octets away, or all if there are fewer.
    pub(crate) fn consume(&mut self, count: usize) {
        let count = count.min(self.len);
        self.octets.copy_within(count..self.len, 0);
        self.len -= count;
    }

    /// Reads some octets: how many, or 0 at the end, or if there is no room.
    pub(crate) fn read_from<R: Read>(&mut self, reader: &mut R) -> io::Result<usize> {
        let len = self.len;
        let count = read_through(reader, &mut self.octets[len..])?;
        self.len = len + count;
        Ok(count)
    }
}
