//! All events of a question.

ghost use Rattle.std.specs.Prelude.{◌≡◌, ◌++◌, OnOk, string_bytes};
ghost use Rattle.std.specs.List.{flat_map};
ghost use Rattle.route_meaning.specs.History.{History};
ghost use Rattle.service.specs.AnswerLines.{event_line};

use crate::ending::{end_lines, of_memory};
use crate::form::Form;
use crate::human;
use crate::pages::events_page;
use archive_calls::{AskError, RouteSource, Trouble};
use route_meaning::{Event, EventsQuestion};
use service::{Output, Status, write_change};
use std::alloc::{AllocError, Global};
use std::io::Write;

/// Writes the lines of events: those of an answer, or for a person.
pub(crate) fn write_events(
    alloc: Global,
    out: &mut String,
    form: Form,
    events: &[Event],
) -> Result<(), AllocError>
    ensures lines { form ≡ Form.Lines → OnOk result (string_bytes out.new ≡ string_bytes out.old ++ flat_map event_line events.now) }
{
    for event in events {
        match form {
            Form::Human => human::write_event(alloc, out, event)?,
            _ => write_change(out, event.time, &event.change)?,
        }
    }
    Ok(())
}

/// Writes the lines of the first events of a question: how many these are, and whether there are more.
fn write_page<A: RouteSource, W: Write>(
    alloc: Global,
    archive: &mut A,
    form: Form,
    question: EventsQuestion,
    text: &mut String,
    out: &mut Output<W>,
) -> Result<(u64, bool), AskError>
    ensures kept { (h : History) → A.represents archive.old h → A.represents archive.new h }
{
    let answer = events_page(archive, question)?;
    text.clear();
    of_memory(write_events(alloc, text, form, &answer.events))?;
    out.text(text.as_str());
    Ok((answer.events.len() as u64, answer.more))
}

/// The same question, which skips this many events.
fn skipping(question: &EventsQuestion, skip: u64) -> EventsQuestion {
    EventsQuestion {
        from: question.from,
        to: question.to,
        peer: question.peer,
        prefix: question.prefix,
        skip,
    }
}

/// Writes a line for each event, page after page: how many there are. Once a write failed no more events are asked for.
fn write_pages<A: RouteSource, W: Write>(
    alloc: Global,
    archive: &mut A,
    form: Form,
    question: EventsQuestion,
    out: &mut Output<W>,
) -> Result<u64, AskError>
    ensures kept { (h : History) → A.represents archive.old h → A.represents archive.new h }
{
    let mut text = String::new(alloc);
    let mut skip = question.skip;
    let mut count = 0u64;
    'pages: for _ in 0..u64::MAX {
        let at = skipping(&question, skip);
        let page = write_page(alloc, archive, form, at, &mut text, out)?;
        let Some(sum) = count.checked_add(page.0) else {
            return Err(AskError::Trouble(Trouble::CounterFull));
        };
        let Some(skipped) = skip.checked_add(page.0) else {
            return Err(AskError::Trouble(Trouble::CounterFull));
        };
        count = sum;
        if !page.1 || out.has_failed() {
            return Ok(count);
        }
        skip = skipped;
    }
    Err(AskError::Trouble(Trouble::CounterFull))
}

/// Writes all events of a question, and `E|EVENTS` after them. A refusal is the last line.
pub(crate) fn write_history<A: RouteSource, W: Write, E: Write>(
    alloc: Global,
    archive: &mut A,
    form: Form,
    question: EventsQuestion,
    out: &mut Output<W>,
    err: &mut Output<E>,
) -> Status
    ensures kept { (h : History) → A.represents archive.old h → A.represents archive.new h }
{
    let ended = write_pages(alloc, archive, form, question, out);
    end_lines(alloc, ended, out, err)
}
