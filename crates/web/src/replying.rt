//! Lines that ask questions, and their replies.

ghost use Rattle.std.specs.Prelude.{◌≡◌, IfOk, IfErr, IsSome, string_bytes};
ghost use Rattle.board.specs.Past.{Among};
ghost use Rattle.query_threads.specs.Seeing.{Since};
ghost use Rattle.service.specs.declared.request.Request.{Request};
ghost use Rattle.web.specs.Asking.{AsksQuestion, IsReplyTo, IsUnansweredTo, IsUnread, time_of};

use archive_calls::Trouble;
use board::{Named, Pass};
use interleaving_core::Query;
use query_threads::{Gate, OnDisk, Reader, Shared, Store};
use server::{Meters, reply_metered};
use service::{Request, RequestError, Unanswered, read_request};
use std::alloc::Global;
use std::sync::Wait;
use std::time::Clock;

/// What is replied to a question.
#[derive(Debug, Drop)]
pub struct Reply {
    /// The moment that is asked for, in microseconds; none if the question is of a span.
    pub time: Option<u64>,
    pub lines: String,
}

/// The moment of a question of one moment.
fn time_of(request: &Request) -> Option<u64>
    ensures time { result ≡ time_of request.now }
{
    match request {
        Request::Question(Query::Rows(question)) => Some(question.moment.number()),
        Request::Question(Query::Events(_)) => None,
        Request::Changed(_) | Request::Watermark | Request::Durable(_) => None,
    }
}

/// The question that a line asks.
fn read_question(alloc: Global, line: &str) -> Result<Request, Unanswered>
    ensures found { IfOk result (AsksQuestion line.now) }
    ensures none { IfErr result (IsUnread line.now) }
{
    match read_request(alloc, line) {
        Ok(Request::Question(query)) => Ok(Request::Question(query)),
        Ok(Request::Changed(question)) => Ok(Request::Changed(question)),
        Ok(Request::Watermark) => Err(Unanswered::BadRequest),
        Ok(Request::Durable(_)) => Err(Unanswered::BadRequest),
        Err(RequestError::BadRequest) => Err(Unanswered::BadRequest),
        Err(RequestError::OutOfMemory) => Err(Unanswered::Trouble(Trouble::OutOfMemory)),
    }
}

/// What is replied to the question of a line, or why there is no reply. A line that asks no question is refused as no request.
pub fn reply_to_line<A: Store, N: Named + OnDisk<A::Disk>, G: Gate + Drop>(
    rt: &(impl Wait + Clock),
    alloc: Global,
    shared: &Shared<A, N, G>,
    pass: &mut Pass<N>,
    reader: &mut Reader<A, N>,
    meters: &Meters,
    line: &str,
) -> Result<Reply, Unanswered>
    requires reader { IsSome N.disk → Among reader.old pass.old.past.blocks }
    ensures reader { IsSome N.disk → Among reader.new pass.new.past.blocks }
    ensures since { Since pass.old pass.new }
    ensures replied { IfOk result (λ reply. (request : Request) × IsReplyTo (IsSome N.disk) pass.new line.now request reply.time (string_bytes reply.lines)) }
    ensures refused { IfErr result (IsUnansweredTo (IsSome N.disk) shared.now.collectors pass.new line.now) }
{
    let request = match read_question(alloc, line) {
        Ok(request) => request,
        Err(why) => return Err(why),
    };
    let time = time_of(&request);
    match reply_metered(rt, alloc, shared, pass, reader, meters, request) {
        Ok(lines) => Ok(Reply { time, lines }),
        Err(why) => Err(why),
    }
}
