//! A reader whose first octets are kept.

use crate::packed::{FIRST, Packing, packing_of};
use std::cell::Cell;
use std::io::{Read, Result};

/// The first octets that a reader gave.
#[derive(Drop)]
pub struct FirstOctets {
    octets: Cell<[u8; FIRST]>,
    count: Cell<usize>,
}

impl FirstOctets {
    /// None yet.
    pub fn new() -> FirstOctets {
        FirstOctets {
            octets: Cell::new([0; FIRST]),
            count: Cell::new(0),
        }
    }

    /// Keeps what was read next, as far as it is among the first.
    fn keep(&self, read: &[u8]) {
        let mut octets = self.octets.get();
        let mut count = self.count.get();
        for octet in read {
            let Some(place) = octets.get_mut(count) else {
                break;
            };
            *place = *octet;
            count += 1;
        }
        self.octets.set(octets);
        self.count.set(count);
    }

    /// What the file that they were read from is, if it isn't MRT.
    pub fn packing(&self) -> Option<Packing> {
        let octets = self.octets.get();
        packing_of(octets.get(..self.count.get())?)
    }
}

/// Reads what the reader in it reads, and keeps the first octets.
#[derive(Drop)]
pub struct NotedReader<'a, R> {
    reader: R,
    first: &'a FirstOctets,
}

impl<'a, R: Read> NotedReader<'a, R> {
    pub fn new(reader: R, first: &'a FirstOctets) -> NotedReader<'a, R> {
        NotedReader { reader, first }
    }
}

impl<'a, R: Read> Read for NotedReader<'a, R> {
    ghost remaining = { λ it. R.remaining it.reader };

    fn read(&mut self, buf: &mut [u8]) -> Result<usize> {
        let count = self.reader.read(buf)?;
        self.first.keep(&buf[..count]);
        Ok(count)
    }
}
