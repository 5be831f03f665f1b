//! What a load counts, on its line of progress.

use crate::counts::Counts;
use crate::line::Line;
use std::cell::Cell;
use std::io::Eprint;
use std::time::Clock;

/// What a load counts, on its line of progress.
#[derive(Drop)]
pub struct Meter<'a, T> {
    line: Line<'a, T>,
    octets: Cell<u64>,
    records: Cell<u64>,
    applied: Cell<u64>,
    milliseconds: Cell<u64>,
}

impl<'a, T: Eprint + Clock> Meter<'a, T> {
    /// Nothing yet, on what prints to a terminal, or on none.
    pub fn new(terminal: Option<&'a T>) -> Meter<'a, T> {
        Meter {
            line: Line::new(terminal),
            octets: Cell::new(0),
            records: Cell::new(0),
            applied: Cell::new(0),
            milliseconds: Cell::new(0),
        }
    }

    /// Its line.
    pub fn line(&self) -> &Line<'a, T> {
        &self.line
    }

    /// Counts octets that were read.
    pub fn count_octets(&self, count: usize) {
        self.octets
            .set(self.octets.get().saturating_add(count as u64));
        self.report();
    }

    /// Counts records that were offered.
    pub fn count_records(&self, count: usize) {
        self.records
            .set(self.records.get().saturating_add(count as u64));
        self.report();
    }

    /// Sets how many changes are applied by now.
    pub fn count_applied(&self, applied: u64) {
        self.applied.set(applied);
        self.report();
    }

    // Writes the line, unless it was written a moment ago.
    fn report(&self) {
        let Some(milliseconds) = self.line.due() else {
            return;
        };
        self.milliseconds.set(milliseconds);
        self.line.write(&self.counts());
    }

    /// What was counted until now, and when the line was written last.
    pub fn counts(&self) -> Counts {
        Counts {
            octets: self.octets.get(),
            records: self.records.get(),
            applied: self.applied.get(),
            milliseconds: self.milliseconds.get(),
        }
    }
}
