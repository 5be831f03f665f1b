//! Targets, answered by a shared archive.

ghost use Rattle.std.specs.Prelude.{◌≡◌, IsSome, codes};
ghost use Rattle.board.specs.Past.{Among};
ghost use Rattle.query_threads.specs.Seeing.{Since};

use crate::answers::{Answer, Form};
use crate::rendering::body_of;
use crate::replying::reply_to_line;
use crate::standing::standing_of;
use crate::target::{Asked, Question, asked_by, is_page};
use board::{Named, Pass};
use query_threads::{Gate, OnDisk, Reader, Shared, Store};
use server::Meters;
use service::Refusal;
use std::alloc::{AllocError, Global};
use std::sync::Wait;
use std::time::Clock;

/// The answer with a body, if there was memory for that.
fn answer_with(form: Form, body: Option<String>) -> Answer {
    match body {
        Some(text) => Answer::of(form, text),
        None => Answer::out_of_memory(),
    }
}

/// How far the archive has come.
fn answer_info<A: Store, N: Named + OnDisk<A::Disk>, G: Gate + Drop>(
    rt: &impl Wait,
    alloc: Global,
    shared: &Shared<A, N, G>,
    pass: &mut Pass<N>,
) -> Answer
    ensures same { pass.new ≡ pass.old }
{
    match standing_of(rt, alloc, shared, pass) {
        Ok(standing) => answer_with(Form::Json, standing.json(alloc)),
        Err(AllocError) => Answer::out_of_memory(),
    }
}

/// The same in Prometheus' form, and the questions that were asked.
fn answer_metrics<A: Store, N: Named + OnDisk<A::Disk>, G: Gate + Drop>(
    rt: &impl Wait,
    alloc: Global,
    shared: &Shared<A, N, G>,
    pass: &mut Pass<N>,
    meters: &Meters,
) -> Answer
    ensures same { pass.new ≡ pass.old }
{
    match standing_of(rt, alloc, shared, pass) {
        Ok(standing) => answer_with(Form::Metrics, standing.metrics(alloc, meters).ok()),
        Err(AllocError) => Answer::out_of_memory(),
    }
}

/// The reply to a question, in JSON.
fn answer_question<A: Store, N: Named + OnDisk<A::Disk>, G: Gate + Drop>(
    rt: &(impl Wait + Clock),
    alloc: Global,
    shared: &Shared<A, N, G>,
    pass: &mut Pass<N>,
    reader: &mut Reader<A, N>,
    meters: &Meters,
    question: &Question,
) -> Answer
    requires reader { IsSome N.disk → Among reader.old pass.old.past.blocks }
    ensures reader { IsSome N.disk → Among reader.new pass.new.past.blocks }
    ensures since { Since pass.old pass.new }
{
    let line = question.line.as_str();
    match reply_to_line(rt, alloc, shared, pass, reader, meters, line) {
        Ok(reply) => {
            let body = body_of(alloc, &reply, question);
            answer_with(Form::Json, body.ok())
        }
        Err(why) => Answer::to_refusal(alloc, &Refusal::from(why)),
    }
}

/// What a target is answered that isn't the page's.
fn answer_asked<A: Store, N: Named + OnDisk<A::Disk>, G: Gate + Drop>(
    rt: &(impl Wait + Clock),
    alloc: Global,
    shared: &Shared<A, N, G>,
    pass: &mut Pass<N>,
    reader: &mut Reader<A, N>,
    meters: &Meters,
    target: &[u8],
) -> Answer
    requires reader { IsSome N.disk → Among reader.old pass.old.past.blocks }
    ensures reader { IsSome N.disk → Among reader.new pass.new.past.blocks }
    ensures since { Since pass.old pass.new }
{
    match asked_by(alloc, target) {
        Ok(Asked::Info) => answer_info(rt, alloc, shared, pass),
        Ok(Asked::Metrics) => answer_metrics(rt, alloc, shared, pass, meters),
        Ok(Asked::Question(question)) => {
            answer_question(rt, alloc, shared, pass, reader, meters, &question)
        }
        Err(fault) => Answer::to_fault(alloc, fault),
    }
}

/// What a target is answered: a path, and after a question mark the parameters of its question. The one of / is answered by the page, and asks
/// the archive nothing.
pub fn answer_target<A: Store, N: Named + OnDisk<A::Disk>, G: Gate + Drop>(
    rt: &(impl Wait + Clock),
    alloc: Global,
    shared: &Shared<A, N, G>,
    pass: &mut Pass<N>,
    reader: &mut Reader<A, N>,
    meters: &Meters,
    target: &[u8],
) -> Answer
    requires reader { IsSome N.disk → Among reader.old pass.old.past.blocks }
    ensures reader { IsSome N.disk → Among reader.new pass.new.past.blocks }
    ensures since { Since pass.old pass.new }
    ensures page { target.now ≡ codes "/" → result.form ≡ Form.Page }
    ensures unasked { target.now ≡ codes "/" → pass.new ≡ pass.old }
{
    if is_page(target) {
        Answer::page()
    } else {
        answer_asked(rt, alloc, shared, pass, reader, meters, target)
    }
}
