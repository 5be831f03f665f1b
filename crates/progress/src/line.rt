//! The line of progress on a terminal.

use std::cell::Cell;
use std::fmt::Display;
use std::io::Eprint;
use std::time::{Clock, Duration, Instant};

/// How long the line stays before it is written anew, in milliseconds; and before it is written at all, so that what ends sooner has none.
const PERIOD: u64 = 200;

/// The line of progress on standard error, if that is a terminal. If not, nothing is written, and no clock is read.
#[derive(Drop)]
pub struct Line<'a, T> {
    terminal: Option<&'a T>,
    began: Option<Instant>,
    written: Cell<Option<Instant>>,
    is_shown: Cell<bool>,
}

impl<'a, T: Eprint + Clock> Line<'a, T> {
    /// A line that isn't written yet: on what prints to a terminal, or on none.
    pub fn new(terminal: Option<&'a T>) -> Line<'a, T> {
        let began = match terminal {
            Some(terminal) => Instant::now(terminal).ok(),
            None => None,
        };
        Line {
            terminal,
            began,
            written: Cell::new(None),
            is_shown: Cell::new(false),
        }
    }

    /// Removes the line, if it is on the terminal. If that can't be written, nobody sees the line either.
    pub fn clear(&self) {
        let Some(terminal) = self.terminal else {
            return;
        };
        if self.is_shown.get() {
            self.is_shown.set(false);
            let _ = terminal.eprint("\r\u{1b}[K");
        }
    }

    /// How many milliseconds have passed since it was made, if it is to be written now: it neither was made a moment ago nor written. If
    /// no clock can be read, it never is.
    pub(crate) fn due(&self) -> Option<u64> {
        let (Some(terminal), Some(began)) = (self.terminal, self.began) else {
            return None;
        };
        let Ok(now) = Instant::now(terminal) else {
            return None;
        };
        let last = self.written.get().unwrap_or(began);
        if now.duration_since(last) < Duration::from_millis(PERIOD) {
            return None;
        }
        self.written.set(Some(now));
        let passed = now.duration_since(began).as_millis();
        Some(u64::try_from(passed).unwrap_or(u64::MAX))
    }

    /// Writes it.
    pub(crate) fn write<C: Display>(&self, counts: &C) {
        if let Some(terminal) = self.terminal {
            self.is_shown.set(true);
            let _ = eprint!(terminal; "\r{counts}\u{1b}[K");
        }
    }
}
