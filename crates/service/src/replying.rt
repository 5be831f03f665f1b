//! What an archive replies to request lines.

ghost use Rattle.std.specs.Prelude.{◌≡◌, ◌++◌, OnOk, IfOk, IfErr, IfSome, IfNone, string_bytes};
ghost use Rattle.route_meaning.specs.History.{History};
ghost use Rattle.interleaving_core.specs.Does.{last_moment};
ghost use Rattle.interleaving_core.specs.Steps.{IsCollector};
ghost use Rattle.service.specs.AnswerLines.{skip_of, reply_text, changed_text, number_line, watermark_line};
ghost use Rattle.service.specs.Replies.{IsAnswerText, IsChangedText, IsDurable, IsCountText, IsReplyTo, IsReplyText, IsRefused};
ghost use Rattle.service.specs.inner.Asking.{of_ask, IsUnanswered, IsTrouble, IsUncounted, IsUnreplied};

use crate::answer_lines::write_answer;
use crate::changed_lines::write_changed;
use crate::event_lines::write_events;
use crate::faults::Unanswered;
use crate::request::{Request, RequestError, read_request};
use archive_calls::{AskError, RouteArchive, Trouble};
use interleaving_core::{Answer, Query};
use route_meaning::{ChangedAnswer, ChangedQuestion};
use route_text::{write_micros, write_number};
use std::alloc::{AllocError, Global};

/// How many events the question skips: none, if it is of a moment.
pub fn skip_of(query: &Query) -> u64
    ensures skip { result ≡ skip_of query.now }
{
    match query {
        Query::Rows(_) => 0,
        Query::Events(question) => question.skip,
    }
}

/// The lines of an answer to a question that skips this many events. Only an allocation can fail.
pub fn answer_text(alloc: Global, skip: u64, answer: &Answer) -> Result<String, AllocError>
    ensures text { IfOk result (λ text. string_bytes text ≡ reply_text skip answer.now) }
{
    let mut text = String::new(alloc);
    match answer {
        Answer::Rows(rows) => {
            write_answer(&mut text, rows)?;
            Ok(text)
        }
        Answer::Events(events) => {
            write_events(&mut text, skip, events)?;
            Ok(text)
        }
    }
}

/// The lines of the places that changed. Only an allocation can fail.
pub fn changed_text(alloc: Global, answer: &ChangedAnswer) -> Result<String, AllocError>
    ensures text { IfOk result (λ text. string_bytes text ≡ changed_text answer.now) }
{
    let mut text = String::new(alloc);
    write_changed(&mut text, answer)?;
    Ok(text)
}

/// Writes a letter, a bar, the number and LF.
fn write_number_line(out: &mut String, letter: &str, number: u64) -> Result<(), AllocError>
    ensures line { OnOk result (string_bytes out.new ≡ string_bytes out.old ++ number_line letter.now number) }
{
    out.push_str(letter)?;
    out.push('|')?;
    write_number(out, number)?;
    out.push('\n')
}

/// A letter, a bar, the number and LF.
fn number_text(alloc: Global, letter: &str, number: u64) -> Result<String, AllocError>
    ensures text { IfOk result (λ text. string_bytes text ≡ number_line letter.now number) }
{
    let mut text = String::new(alloc);
    write_number_line(&mut text, letter, number)?;
    Ok(text)
}

/// The line of a watermark, in microseconds.
pub fn watermark_text(alloc: Global, settled: u64) -> Result<String, AllocError>
    ensures text { IfOk result (λ text. string_bytes text ≡ watermark_line settled) }
{
    let mut text = String::new(alloc);
    text.push_str("S|")?;
    write_micros(&mut text, settled)?;
    text.push('\n')?;
    Ok(text)
}

/// Why a question isn't answered, as its line has it.
fn unanswered(refusal: AskError) -> Unanswered
    ensures why { result ≡ of_ask refusal }
{
    match refusal {
        AskError::AboveWatermark(settled) => Unanswered::AboveWatermark(settled),
        AskError::Trouble(trouble) => Unanswered::Trouble(trouble),
    }
}

/// The lines of the answer to a question.
fn answer_question<A: RouteArchive>(
    alloc: Global,
    archive: &mut A,
    query: Query,
) -> Result<String, Unanswered>
    ensures answered { (h : History) → A.represents archive.old h → IfOk result (λ text. IsAnswerText h query (string_bytes text)) }
    ensures refused { (h : History) → A.represents archive.old h → IfErr result (IsUnanswered h (last_moment query)) }
    ensures kept { (h : History) → A.represents archive.old h → A.represents archive.new h }
{
    let skip = skip_of(&query);
    let answer = match archive.answer(query) {
        Ok(answer) => answer,
        Err(refusal) => return Err(unanswered(refusal)),
    };
    match answer_text(alloc, skip, &answer) {
        Ok(text) => Ok(text),
        Err(_) => Err(Unanswered::Trouble(Trouble::OutOfMemory)),
    }
}

/// The lines of the places that changed.
fn answer_changed<A: RouteArchive>(
    alloc: Global,
    archive: &mut A,
    question: ChangedQuestion,
) -> Result<String, Unanswered>
    ensures answered { (h : History) → A.represents archive.old h → IfOk result (λ text. IsChangedText h question (string_bytes text)) }
    ensures refused { (h : History) → A.represents archive.old h → IfErr result (IsUnanswered h question.to) }
    ensures kept { (h : History) → A.represents archive.old h → A.represents archive.new h }
{
    let answer = match archive.changed(question) {
        Ok(answer) => answer,
        Err(refusal) => return Err(unanswered(refusal)),
    };
    match changed_text(alloc, &answer) {
        Ok(text) => Ok(text),
        Err(_) => Err(Unanswered::Trouble(Trouble::OutOfMemory)),
    }
}

/// The line of the settled watermark.
fn report_watermark<A: RouteArchive>(alloc: Global, archive: &A) -> Result<String, Unanswered>
    ensures reported { (h : History) → A.represents archive.now h → IfOk result (λ text. IsReplyTo h Request.Watermark (string_bytes text)) }
    ensures refused { IfErr result IsTrouble }
{
    match watermark_text(alloc, archive.settled().number()) {
        Ok(text) => Ok(text),
        Err(_) => Err(Unanswered::Trouble(Trouble::OutOfMemory)),
    }
}

/// How many records of the collector are admitted, if it is there.
fn admitted_of<A: RouteArchive>(archive: &A, collector: u8) -> Option<u64>
    ensures count { (h : History) → A.represents archive.now h → IfSome result (IsDurable h collector) }
    ensures none { (h : History) → A.represents archive.now h → IfNone result (IsCollector h collector → ⊥) }
{
    let Some(resume) = archive.resume(collector) else {
        return None;
    };
    Some(resume.admitted)
}

/// The line of the count of the collector's admitted records.
fn report_count<A: RouteArchive>(
    alloc: Global,
    archive: &A,
    collector: u8,
) -> Result<String, Unanswered>
    ensures reported { (h : History) → A.represents archive.now h → IfOk result (λ text. IsCountText h collector (string_bytes text)) }
    ensures refused { (h : History) → A.represents archive.now h → IfErr result (IsUncounted h collector) }
{
    let Some(count) = admitted_of(archive, collector) else {
        return Err(Unanswered::NoCollector);
    };
    match number_text(alloc, "N", count) {
        Ok(text) => Ok(text),
        Err(_) => Err(Unanswered::Trouble(Trouble::OutOfMemory)),
    }
}

/// The text of the reply to a request.
fn reply_to<A: RouteArchive>(
    alloc: Global,
    archive: &mut A,
    request: Request,
) -> Result<String, Unanswered>
    ensures replied { (h : History) → A.represents archive.old h → IfOk result (λ text. IsReplyTo h request (string_bytes text)) }
    ensures refused { (h : History) → A.represents archive.old h → IfErr result (IsUnreplied h request) }
    ensures kept { (h : History) → A.represents archive.old h → A.represents archive.new h }
{
    match request {
        Request::Question(query) => answer_question(alloc, archive, query),
        Request::Changed(question) => answer_changed(alloc, archive, question),
        Request::Watermark => report_watermark(alloc, archive),
        Request::Durable(collector) => report_count(alloc, archive, collector),
    }
}

/// What the archive replies to a request line, given without its LF: the lines of the reply, or why there is none.
/// The lines that are read are those of [`read_request`]. A question whose last moment isn't below the settled watermark
/// is refused, and so is the count of a collector that isn't there.
pub fn reply<A: RouteArchive>(
    alloc: Global,
    archive: &mut A,
    line: &str,
) -> Result<String, Unanswered>
    ensures answered { (h : History) → A.represents archive.old h → IfOk result (λ text. IsReplyText h line.now (string_bytes text)) }
    ensures refused { (h : History) → A.represents archive.old h → IfErr result (IsRefused h line.now) }
    ensures kept { (h : History) → A.represents archive.old h → A.represents archive.new h }
{
    let request = match read_request(alloc, line) {
        Ok(request) => request,
        Err(RequestError::BadRequest) => return Err(Unanswered::BadRequest),
        Err(RequestError::OutOfMemory) => return Err(Unanswered::Trouble(Trouble::OutOfMemory)),
    };
    reply_to(alloc, archive, request)
}
