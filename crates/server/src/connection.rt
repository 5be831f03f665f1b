//! A connection: its lines, one after another, until one ends it.

ghost use Rattle.std.specs.Prelude.{ℕ, List, ◌++◌, IsSome};
ghost use Rattle.std.specs.Io.KnownBytes.{Consumes};
ghost use Rattle.board.specs.Past.{Among};
ghost use Rattle.server.specs.Connections.{EndsSo};
ghost use Rattle.server.specs.inner.Ends.{ReportsEnd};

use crate::answering::{Next, answer_line};
use crate::meters::Meters;
use crate::port::Port;
use board::{Named, Pass};
use line_reader::{Found, LineError, LineReader};
use query_threads::{Gate, OnDisk, Reader, Shared, Store};
use service::{Output, Refusal, write_refusal};
use std::alloc::Global;
use std::io::{Read, Write};
use std::sync::Wait;
use std::time::Clock;

/// Why the lines of a connection end.
#[derive(Clone, Copy, Debug, PartialEq, Eq)]
pub enum Ending {
    /// The client ended it, or a line of it was too long, or one of HTTP.
    Done,
    /// The octets after the last line are records of the collector of this number, to be taken in in batches of at most this many
    /// admissions.
    Feed(u8, u16),
    /// The server is to end.
    Stop,
    /// Reading or writing failed.
    Failed,
}

/// How a connection goes on whose next line can't be read.
fn end_of<W: Write>(why: LineError, out: &mut Output<W>) -> Ending
    ensures reported { ReportsEnd why result out.old out.new }
{
    match why {
        LineError::TooLong => {
            write_refusal(out, &Refusal::BadRequest);
            out.flush();
            Ending::Done
        }
        LineError::Failed(_) => Ending::Failed,
    }
}

/// Answers the lines of a connection one after another, each written out before the next one is read, until one ends it or announces a
/// feed. A line that is too long is refused as no request, and ends it; octets without an end are no line.
pub fn serve_lines<A: Store, N: Named + OnDisk<A::Disk>, G: Gate + Drop, R: Read, W: Write>(
    rt: &(impl Wait + Clock),
    alloc: Global,
    shared: &Shared<A, N, G>,
    port: Port,
    pass: &mut Pass<N>,
    reader: &mut Reader<A, N>,
    meters: &Meters,
    lines: &mut LineReader<R>,
    out: &mut Output<W>,
) -> Ending
    requires reader { IsSome N.disk → Among reader.old pass.old.past.blocks }
    ensures reader { IsSome N.disk → Among reader.new pass.new.past.blocks }
    ensures ended { (gave : List ℕ) × Consumes (R.remaining lines.old.reader) (R.remaining lines.new.reader) gave × EndsSo (IsSome N.disk) port shared.now.collectors result (lines.old.beyond ++ gave) pass.old out.old lines.new.beyond pass.new out.new (R.remaining lines.new.reader) }
{
    for _ in rt.forever() {
        match lines.read_line() {
            Ok(Found::Line) => {}
            Ok(Found::End) => return Ending::Done,
            Err(why) => return end_of(why, out),
        }
        let next = answer_line(
            rt,
            alloc,
            shared,
            port,
            pass,
            reader,
            meters,
            lines.line(),
            out,
        );
        out.flush();
        if out.has_failed() {
            return Ending::Failed;
        }
        match next {
            Next::Line => {}
            Next::Feed(collector, limit) => return Ending::Feed(collector, limit),
            Next::Quit => return Ending::Done,
            Next::Close => return Ending::Done,
            Next::Stop => return Ending::Stop,
        }
    }
    unreachable!()
}
