//! A terminal of the tests, with a clock that goes on by 100 milliseconds each time it is read.

use std::alloc::Global;
use std::cell::{Cell, RefCell};
use std::fmt::{Display, Write};
use std::io;
use std::io::{Eprint, ErrorKind};
use std::time::{Clock, Duration};

#[derive(Drop)]
pub(crate) struct Screen {
    text: RefCell<String>,
    reads: Cell<u32>,
}

impl Screen {
    pub(crate) fn new(alloc: Global) -> Screen {
        Screen {
            text: RefCell::new(String::new(alloc)),
            reads: Cell::new(0),
        }
    }

    /// Whether exactly this was written.
    pub(crate) fn shows(&self, expected: &str) -> bool {
        match self.text.try_borrow() {
            Ok(text) => text.as_str() == expected,
            Err(_) => false,
        }
    }

    /// How often the clock was read.
    pub(crate) fn reads(&self) -> u32 {
        self.reads.get()
    }
}

impl Eprint for Screen {
    fn eprint<D: Display + Drop>(&self, value: D) -> io::Result<()> {
        let Ok(mut text) = self.text.try_borrow_mut() else {
            return Err(io::Error::from(ErrorKind::Other));
        };
        match write!(*text, "{value}") {
            Ok(()) => Ok(()),
            Err(_) => Err(io::Error::from(ErrorKind::Other)),
        }
    }

    fn eprintln<D: Display + Drop>(&self, value: D) -> io::Result<()> {
        self.eprint(value)?;
        self.eprint("\n")
    }
}

impl Clock for Screen {
    fn monotonic(&self) -> io::Result<Duration> {
        let reads = self.reads.get().saturating_add(1).min(1000);
        self.reads.set(reads);
        Ok(Duration::from_millis(100 * u64::from(reads)))
    }

    fn since_1970(&self) -> io::Result<Duration> {
        self.monotonic()
    }
}
