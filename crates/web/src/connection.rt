//! A connection: its requests, one after another, until one ends it.

ghost use Rattle.std.specs.Prelude.{IsSome};
ghost use Rattle.board.specs.Past.{Among};
ghost use Rattle.query_threads.specs.Seeing.{Since};

use crate::answering::answer_target;
use crate::answers::Answer;
use crate::buffer::Buffer;
use crate::fault::Fault;
use crate::head::{head_of, lacks_body};
use crate::writing::write_answer;
use board::{Named, Pass};
use query_threads::{Gate, OnDisk, Reader, Shared, Store};
use server::Meters;
use service::Output;
use std::alloc::Global;
use std::io::{Read, Write};
use std::sync::Wait;
use std::time::Clock;

/// How a connection ended.
#[derive(Clone, Copy, Debug, PartialEq, Eq)]
pub enum Ending {
    /// The client ended it or asked for its end, or a request ended it.
    Done,
    /// Reading or writing failed.
    Failed,
}

/// Who else waits for the worker that serves a connection.
pub trait Others {
    /// Whether a connection waits for a worker.
    fn wait(&self) -> bool;
}

/// What a connection does then.
#[derive(Clone, Copy, Debug)]
enum Next {
    /// It reads more of a head.
    More,
    /// It takes the next request, which comes after this many octets.
    Request(usize),
    /// It ends.
    End,
}

/// Writes why a request isn't answered, which ends the connection: what comes after it may be no request.
fn refuse<W: Write>(alloc: Global, out: &mut Output<W>, fault: Fault, has_body: bool) {
    let answer = Answer::to_fault(alloc, fault);
    write_answer(out, &answer, has_body, true);
}

/// Answers the request at the front of the octets, once its head is whole. While others wait, the connection ends then.
fn answer_first<A: Store, N: Named + OnDisk<A::Disk>, G: Gate + Drop, W: Write, O: Others>(
    rt: &(impl Wait + Clock),
    alloc: Global,
    shared: &Shared<A, N, G>,
    pass: &mut Pass<N>,
    reader: &mut Reader<A, N>,
    meters: &Meters,
    others: &O,
    octets: &[u8],
    out: &mut Output<W>,
) -> Next
    requires reader { IsSome N.disk → Among reader.old pass.old.past.blocks }
    ensures reader { IsSome N.disk → Among reader.new pass.new.past.blocks }
    ensures since { Since pass.old pass.new }
{
    let has_body = lacks_body(octets);
    let head = match head_of(octets) {
        Ok(Some(head)) => head,
        Ok(None) => return Next::More,
        Err(fault) => {
            refuse(alloc, out, fault, has_body);
            return Next::End;
        }
    };
    let given = answer_target(rt, alloc, shared, pass, reader, meters, head.target);
    let ends = head.ends || others.wait();
    write_answer(out, &given, has_body, ends);
    if ends || out.has_failed() {
        Next::End
    } else {
        Next::Request(head.len)
    }
}

/// Reads more of a head: how the connection ended, if nothing more comes.
fn read_more<R: Read>(socket: &mut R, buffer: &mut Buffer) -> Option<Ending> {
    match buffer.read_from(socket) {
        Ok(0) => Some(Ending::Done),
        Ok(_) => None,
        Err(_) => Some(Ending::Failed),
    }
}

/// Answers the next request, or reads more of its head: how the connection ended, if it did.
fn go_on<A: Store, N: Named + OnDisk<A::Disk>, G: Gate + Drop, R: Read, W: Write, O: Others>(
    rt: &(impl Wait + Clock),
    alloc: Global,
    shared: &Shared<A, N, G>,
    pass: &mut Pass<N>,
    reader: &mut Reader<A, N>,
    meters: &Meters,
    others: &O,
    socket: &mut R,
    buffer: &mut Buffer,
    out: &mut Output<W>,
) -> Option<Ending>
    requires reader { IsSome N.disk → Among reader.old pass.old.past.blocks }
    ensures reader { IsSome N.disk → Among reader.new pass.new.past.blocks }
    ensures since { Since pass.old pass.new }
{
    let octets = buffer.as_slice();
    match answer_first(rt, alloc, shared, pass, reader, meters, others, octets, out) {
        Next::Request(len) => {
            buffer.consume(len);
            None
        }
        Next::End if out.has_failed() => Some(Ending::Failed),
        Next::End => Some(Ending::Done),
        Next::More => read_more(socket, buffer),
    }
}

/// Answers the requests of a connection one after another, each written out before the next one is read, until one ends it. A head that
/// isn't whole at the client's end asks nothing. While others wait for a worker, each answer ends its connection, so that many clients get
/// answers from few workers.
pub fn serve_web<
    A: Store,
    N: Named + OnDisk<A::Disk>,
    G: Gate + Drop,
    R: Read,
    W: Write,
    O: Others,
>(
    rt: &(impl Wait + Clock),
    alloc: Global,
    shared: &Shared<A, N, G>,
    pass: &mut Pass<N>,
    reader: &mut Reader<A, N>,
    meters: &Meters,
    others: &O,
    socket: &mut R,
    out: &mut Output<W>,
) -> Ending
    requires reader { IsSome N.disk → Among reader.old pass.old.past.blocks }
    ensures reader { IsSome N.disk → Among reader.new pass.new.past.blocks }
    ensures since { Since pass.old pass.new }
{
    let mut buffer = Buffer::new();
    for _ in rt.forever() {
        let ended = go_on(
            rt,
            alloc,
            shared,
            pass,
            reader,
            meters,
            others,
            socket,
            &mut buffer,
            out,
        );
        if let Some(ending) = ended {
            return ending;
        }
    }
    unreachable!()
}
