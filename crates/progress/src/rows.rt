//! What a question counts, on its line of progress.

use crate::line::Line;
use crate::rate::rate;
use std::cell::Cell;
use std::fmt;
use std::fmt::{Display, Formatter};
use std::io::Eprint;
use std::time::Clock;

/// How many rows were read.
#[derive(Clone, Copy, Debug, PartialEq, Eq)]
pub struct RowCounts {
    /// Rows, events and places of all answers.
    pub rows: u64,
    /// Milliseconds since the question began.
    pub milliseconds: u64,
}

impl Display for RowCounts {
    fn fmt<W: fmt::Write>(&self, f: &mut Formatter<W>) -> fmt::Result {
        let rate = rate(self.rows, self.milliseconds);
        write!(f, "rows {}, rows a second {}", self.rows, rate)
    }
}

/// How many rows were read, on the line of progress.
#[derive(Drop)]
pub struct RowMeter<'a, T> {
    line: Line<'a, T>,
    rows: Cell<u64>,
}

impl<'a, T: Eprint + Clock> RowMeter<'a, T> {
    /// None yet, on what prints to a terminal, or on none.
    pub fn new(terminal: Option<&'a T>) -> RowMeter<'a, T> {
        RowMeter {
            line: Line::new(terminal),
            rows: Cell::new(0),
        }
    }

    /// Its line.
    pub fn line(&self) -> &Line<'a, T> {
        &self.line
    }

    /// How many rows were read.
    pub fn rows(&self) -> u64 {
        self.rows.get()
    }

    /// Counts rows that were read. The line is written, unless it was a moment ago.
    pub fn count(&self, count: usize) {
        let rows = self.rows.get().saturating_add(count as u64);
        self.rows.set(rows);
        if let Some(milliseconds) = self.line.due() {
            self.line.write(&RowCounts { rows, milliseconds });
        }
    }
}
