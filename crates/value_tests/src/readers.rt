//! Readers that give octets otherwise than memory does.

use std::io;
use std::io::{Error, ErrorKind, Read};

/// A reader of these octets, one at a time, each after an interruption.
#[derive(Drop)]
pub(crate) struct Slow<'a> {
    octets: &'a [u8],
    interrupted: bool,
}

impl<'a> Slow<'a> {
    pub(crate) fn new(octets: &'a [u8]) -> Slow<'a> {
        Slow {
            octets,
            interrupted: false,
        }
    }
}

impl Read for Slow<'_> {
    fn read(&mut self, piece: &mut [u8]) -> io::Result<usize> {
        self.interrupted = !self.interrupted;
        if self.interrupted {
            return Err(Error::from(ErrorKind::Interrupted));
        }
        let Some(first) = piece.get_mut(..1) else {
            return Ok(0);
        };
        self.octets.read(first)
    }
}

/// A reader of these octets, which fails once, and then of those.
#[derive(Drop)]
pub(crate) struct Broken<'a> {
    before: &'a [u8],
    failed: bool,
    after: &'a [u8],
}

impl<'a> Broken<'a> {
    pub(crate) fn new(before: &'a [u8], after: &'a [u8]) -> Broken<'a> {
        Broken {
            before,
            failed: false,
            after,
        }
    }
}

impl Read for Broken<'_> {
    fn read(&mut self, piece: &mut [u8]) -> io::Result<usize> {
        if !self.before.is_empty() {
            return self.before.read(piece);
        }
        if !self.failed {
            self.failed = true;
            return Err(Error::from(ErrorKind::ConnectionReset));
        }
        self.after.read(piece)
    }
}
