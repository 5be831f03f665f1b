//! The lines of a connection, answered by a shared archive.

ghost use Rattle.std.specs.Prelude.{◌≡◌, Err, IfOk, IsSome};
ghost use Rattle.board.specs.Past.{Among, GoesOnAs};
ghost use Rattle.service.specs.AnswerLines.{watermark_line};
ghost use Rattle.service.specs.Outputs.{Reports};
ghost use Rattle.service.specs.Refusals.{refusal_line};
ghost use Rattle.server.specs.Answers.{AnswersLine, AnswersMark, AnswersRead, AnswersRequest};
ghost use Rattle.server.specs.Lines.{of_request};
ghost use Rattle.server.specs.Ports.{AsksOn};
ghost use Rattle.server.specs.declared.command.Command.{Command};

use crate::command::{Command, read_command};
use crate::marking::set_mark;
use crate::meters::Meters;
use crate::port::Port;
use crate::replying::{load_watermark, reply_metered};
use board::{Named, Pass};
use query_threads::{Gate, OnDisk, Reader, Shared, Store};
use route_model::Mark;
use service::{Output, Refusal, Request, RequestError, write_refusal};
use std::alloc::Global;
use std::io::Write;
use std::sync::Wait;
use std::time::Clock;

/// What a connection does after a line.
#[derive(Clone, Copy, Debug, PartialEq, Eq)]
pub enum Next {
    /// It reads the next line.
    Line,
    /// It takes the octets after the line in, as records of the collector of this number, in batches of at most this many admissions.
    Feed(u8, u16),
    /// It ends.
    Quit,
    /// It ends, and the server with it.
    Stop,
    /// It ends, since the line is one of HTTP.
    Close,
}

/// The refusal of a line that isn't read.
fn refusal_of(why: RequestError) -> Refusal
    ensures { result ≡ of_request why }
{
    match why {
        RequestError::BadRequest => Refusal::BadRequest,
        RequestError::OutOfMemory => Refusal::OutOfMemory,
    }
}

/// Writes the line of a watermark, in microseconds.
fn write_watermark<W: Write>(out: &mut Output<W>, settled: u64)
    ensures line { Reports out.old out.new (watermark_line settled) }
{
    out.text("S|");
    out.moment(settled);
    out.text("\n");
}

/// Answers a request: writes the lines of the reply, or the line of the refusal.
fn answer_request<A: Store, N: Named + OnDisk<A::Disk>, G: Gate + Drop, W: Write>(
    rt: &(impl Wait + Clock),
    alloc: Global,
    shared: &Shared<A, N, G>,
    pass: &mut Pass<N>,
    reader: &mut Reader<A, N>,
    meters: &Meters,
    request: Request,
    out: &mut Output<W>,
)
    requires reader { IsSome N.disk → Among reader.old pass.old.past.blocks }
    ensures reader { IsSome N.disk → Among reader.new pass.new.past.blocks }
    ensures answers { AnswersRequest (IsSome N.disk) shared.now.collectors request pass.old pass.new out.old out.new }
{
    match reply_metered(rt, alloc, shared, pass, reader, meters, request) {
        Ok(text) => out.text(text.as_str()),
        Err(why) => write_refusal(out, &Refusal::from(why)),
    }
}

/// Raises a mark, applies what may be applied, and writes the line of the watermark, or that of the refusal.
fn answer_mark<A: Store, N: Named + OnDisk<A::Disk>, G: Gate + Drop, W: Write>(
    rt: &impl Wait,
    shared: &Shared<A, N, G>,
    pass: &mut Pass<N>,
    collector: u8,
    mark: Mark,
    out: &mut Output<W>,
)
    ensures answers { AnswersMark (IsSome N.disk) collector mark pass.old pass.new out.old out.new }
    ensures goes_on { GoesOnAs pass.old.past pass.new.past }
{
    match set_mark(rt, shared, pass, collector, mark) {
        Ok(()) => {
            let settled = load_watermark(shared, pass);
            write_watermark(out, settled);
        }
        Err(why) => write_refusal(out, &Refusal::from(why)),
    }
}

/// What a line asks on a port.
fn read_on(alloc: Global, port: Port, line: &[u8]) -> Result<Command, RequestError>
    ensures found { IfOk result (AsksOn port line.now) }
    ensures none { result ≡ Err RequestError.BadRequest → (command : Command) → AsksOn port line.now command → ⊥ }
{
    let command = match read_command(alloc, line) {
        Ok(command) => command,
        Err(why) => return Err(why),
    };
    if port.takes(&command) {
        return Ok(command);
    }
    Err(RequestError::BadRequest)
}

/// Answers a line that doesn't end the connection as one of HTTP.
fn answer_read<A: Store, N: Named + OnDisk<A::Disk>, G: Gate + Drop, W: Write>(
    rt: &(impl Wait + Clock),
    alloc: Global,
    shared: &Shared<A, N, G>,
    port: Port,
    pass: &mut Pass<N>,
    reader: &mut Reader<A, N>,
    meters: &Meters,
    line: &[u8],
    out: &mut Output<W>,
) -> Next
    requires reader { IsSome N.disk → Among reader.old pass.old.past.blocks }
    ensures reader { IsSome N.disk → Among reader.new pass.new.past.blocks }
    ensures answers { AnswersRead (IsSome N.disk) port shared.now.collectors line.now result pass.old pass.new out.old out.new }
{
    let command = match read_on(alloc, port, line) {
        Ok(command) => command,
        Err(why) => {
            write_refusal(out, &refusal_of(why));
            return Next::Line;
        }
    };
    match command {
        Command::Request(request) => {
            answer_request(rt, alloc, shared, pass, reader, meters, request, out);
            Next::Line
        }
        Command::Mark(collector, mark) => {
            answer_mark(rt, shared, pass, collector, mark, out);
            Next::Line
        }
        Command::Feed(collector, limit) => Next::Feed(collector, limit),
        Command::Quit => {
            out.text("ok\n");
            Next::Quit
        }
        Command::Stop => {
            out.text("ok\n");
            Next::Stop
        }
    }
}

/// Answers a line of a connection to a port, the line being without its end, and returns what the connection does then. A line that asks nothing
/// there is refused, and the next one is read; but one of HTTP ends the connection if the port closes HTTP.
pub fn answer_line<A: Store, N: Named + OnDisk<A::Disk>, G: Gate + Drop, W: Write>(
    rt: &(impl Wait + Clock),
    alloc: Global,
    shared: &Shared<A, N, G>,
    port: Port,
    pass: &mut Pass<N>,
    reader: &mut Reader<A, N>,
    meters: &Meters,
    line: &[u8],
    out: &mut Output<W>,
) -> Next
    requires reader { IsSome N.disk → Among reader.old pass.old.past.blocks }
    ensures reader { IsSome N.disk → Among reader.new pass.new.past.blocks }
    ensures answers { AnswersLine (IsSome N.disk) port shared.now.collectors line.now result pass.old pass.new out.old out.new }
{
    if port.closes_after(line) {
        write_refusal(out, &Refusal::BadRequest);
        return Next::Close;
    }
    answer_read(rt, alloc, shared, port, pass, reader, meters, line, out)
}
