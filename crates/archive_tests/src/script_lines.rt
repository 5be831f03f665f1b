//! The lines of scripts, written out.

use crate::gathered::Gathered;
use crate::playing::Ran;

/// Lines that have the numbers from one to below another in the place of `#`.
#[derive(Drop)]
struct Rows<'a> {
    first: u16,
    end: u16,
    row: &'a str,
}

impl<'a> Rows<'a> {
    /// `FIRST..END x ROW`; none where a line isn't such.
    fn read(line: &'a str) -> Option<Rows<'a>> {
        let (range, row) = line.split_once(" x ")?;
        let (first, end) = range.split_once("..")?;
        Some(Rows {
            first: first.parse::<u16>().ok()?,
            end: end.parse::<u16>().ok()?,
            row,
        })
    }
}

/// How a script shows a status.
fn status_line(code: u8) -> &'static str {
    match code {
        0 => "",
        1 => "status 1\n",
        2 => "status 2\n",
        _ => "another status\n",
    }
}

impl Gathered {
    /// Adds a command line and what it wrote, as a script shows them.
    pub(crate) fn add_command(&mut self, line: &str, ran: &Ran) {
        self.add_text("$ ");
        self.add_text(line);
        self.add_text("\n");
        self.add(&ran.out);
        if !ran.err.is_empty() {
            self.add_text("! ");
            self.add(&ran.err);
        }
        self.add_text(status_line(ran.code));
    }

    /// Adds a line in which a number takes the place of `#`.
    fn add_row(&mut self, row: &str, number: u16) {
        let mut is_first = true;
        for piece in row.split('#') {
            if !is_first {
                self.add_number(number);
            }
            self.add_text(piece);
            is_first = false;
        }
        self.add_text("\n");
    }

    /// Adds a line of a script; one that stands for several is written out.
    pub(crate) fn add_line(&mut self, line: &str) {
        match Rows::read(line) {
            Some(rows) => {
                for number in rows.first..rows.end {
                    self.add_row(rows.row, number);
                }
            }
            None => {
                self.add_written_out(line);
                self.add_text("\n");
            }
        }
    }

    /// Adds all lines of a script.
    pub(crate) fn add_lines(&mut self, text: &str) {
        for line in text.lines() {
            self.add_line(line);
        }
    }

    /// The number of the line, from 1 on, in which this differs from the other; that after the last where it doesn't.
    pub(crate) fn first_difference(&self, other: &Gathered) -> u64 {
        let mut line = 1u64;
        for (octet, expected) in self.octets.iter().zip(other.octets.iter()) {
            if octet != expected {
                return line;
            }
            if *octet == b'\n' {
                line = line.saturating_add(1);
            }
        }
        line
    }
}
