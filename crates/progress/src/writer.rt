//! A writer that removes the line of progress before it writes.

use crate::line::Line;
use std::io::{Eprint, Result, Write};
use std::time::Clock;

/// Writes as the writer in it, once the line of progress is gone, if both are on the same terminal.
#[derive(Drop)]
pub struct ClearedWriter<'a, W, T> {
    writer: W,
    line: Option<&'a Line<'a, T>>,
}

impl<'a, W: Write, T: Eprint + Clock> ClearedWriter<'a, W, T> {
    /// Without a line nothing has to go before.
    pub fn new(writer: W, line: Option<&'a Line<'a, T>>) -> ClearedWriter<'a, W, T> {
        ClearedWriter { writer, line }
    }
}

impl<'a, W: Write, T: Eprint + Clock> Write for ClearedWriter<'a, W, T> {
    ghost contents = { λ it. W.contents it.writer };

    fn write(&mut self, buf: &[u8]) -> Result<usize> {
        if let Some(line) = self.line {
            line.clear();
        }
        self.writer.write(buf)
    }

    fn flush(&mut self) -> Result<()> {
        self.writer.flush()
    }
}
