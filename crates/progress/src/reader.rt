//! A reader whose octets are counted.

use crate::meter::Meter;
use std::io::{Eprint, Read, Result};
use std::time::Clock;

/// Reads what the reader in it reads, and counts the octets.
#[derive(Drop)]
pub struct WatchedReader<'a, R, T> {
    reader: R,
    meter: &'a Meter<'a, T>,
}

impl<'a, R: Read, T: Eprint + Clock> WatchedReader<'a, R, T> {
    pub fn new(reader: R, meter: &'a Meter<'a, T>) -> WatchedReader<'a, R, T> {
        WatchedReader { reader, meter }
    }
}

impl<'a, R: Read, T: Eprint + Clock> Read for WatchedReader<'a, R, T> {
    ghost remaining = { λ it. R.remaining it.reader };

    fn read(&mut self, buf: &mut [u8]) -> Result<usize> {
        let count = self.reader.read(buf)?;
        self.meter.count_octets(count);
        Ok(count)
    }
}
