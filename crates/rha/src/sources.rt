//! The files that are loaded, each of which is opened when it is read first.

use advice::STDIN;
use std::cell::Cell;
use std::fs::File;
use std::io;
use std::io::{Read, Stdin};

/// Where a file that is loaded stands.
#[derive(Drop)]
enum Stand {
    Unopened,
    File(File),
    Stdin(Stdin),
    /// It was read to its end, and is closed.
    Ended,
}

/// The file of this name, or standard input, which isn't opened by a name: where it is a socket, it has none.
fn opened(rt: &HostRuntime, name: &str) -> io::Result<Stand> {
    if name == STDIN {
        return Ok(Stand::Stdin(rt.stdin()));
    }
    Ok(Stand::File(File::open(rt, name)?))
}

impl Read for Stand {
    fn read(&mut self, buf: &mut [u8]) -> io::Result<usize> {
        match self {
            Stand::Unopened | Stand::Ended => Ok(0),
            Stand::File(file) => file.read(buf),
            Stand::Stdin(stdin) => stdin.read(buf),
        }
    }
}

/// A file that is loaded.
#[derive(Drop)]
pub(crate) struct Source<'a, 'o> {
    rt: &'a HostRuntime,
    name: &'a str,
    stand: Stand,
    is_open: &'o Cell<bool>,
}

impl<'a, 'o> Source<'a, 'o> {
    /// The file of this name, or standard input. `is_open` becomes true once it is open.
    pub(crate) fn new(
        rt: &'a HostRuntime,
        name: &'a str,
        is_open: &'o Cell<bool>,
    ) -> Source<'a, 'o> {
        Source {
            rt,
            name,
            stand: Stand::Unopened,
            is_open,
        }
    }

    /// Opens it, unless it is open.
    pub(crate) fn open(&mut self) -> io::Result<()> {
        if let Stand::Unopened = self.stand {
            self.stand = opened(self.rt, self.name)?;
            self.is_open.set(true);
        }
        Ok(())
    }
}

impl Read for Source<'_, '_> {
    fn read(&mut self, buf: &mut [u8]) -> io::Result<usize> {
        self.open()?;
        let count = self.stand.read(buf)?;
        if count == 0 && !buf.is_empty() {
            self.stand = Stand::Ended;
        }
        Ok(count)
    }
}
