//! Request lines, answered to their end, or for a person.

ghost use Rattle.route_meaning.specs.History.{History};

use crate::ending::{end_first, of_memory};
use crate::events::{write_events, write_history};
use crate::form::Form;
use crate::headings::{Columns, write_heading};
use crate::lines::RowWriter;
use crate::pages::{events_page, rows_page};
use crate::places::{write_first_places, write_places};
use crate::rows::write_table;
use archive_calls::{AskError, RouteArchive, RouteSource};
use interleaving_core::Query;
use route_meaning::{ChangedQuestion, EventsQuestion, RowsQuestion};
use service::{Output, Request, Status, ask, read_request, write_ending, write_events_ending};
use std::alloc::Global;
use std::io::Write;

/// How much of an answer is asked for, and for whom.
#[derive(Clone, Copy, Debug, PartialEq, Eq)]
pub struct Manner {
    /// All rows or events, and not the first 256.
    pub all: bool,
    /// Dates, and communities as texts.
    pub human: bool,
    /// Standard output is a terminal: what helps a person stands on standard error.
    pub terminal: bool,
}

impl Manner {
    fn form(self) -> Form {
        if self.human { Form::Human } else { Form::Lines }
    }
}

/// The first rows for a person, and whether more follow.
fn first_rows<A: RouteSource>(
    alloc: Global,
    archive: &mut A,
    form: Form,
    question: RowsQuestion,
    text: &mut String,
) -> Result<bool, AskError>
    ensures kept { (h : History) → A.represents archive.old h → A.represents archive.new h }
{
    let writer = of_memory(RowWriter::new(alloc, form, question.moment))?;
    let answer = rows_page(archive, question)?;
    of_memory(writer.write_all(alloc, text, &answer.rows))?;
    of_memory(write_ending(text, &answer))?;
    Ok(answer.more)
}

/// The first events for a person, and whether more follow.
fn first_events<A: RouteSource>(
    alloc: Global,
    archive: &mut A,
    form: Form,
    question: EventsQuestion,
    text: &mut String,
) -> Result<bool, AskError>
    ensures kept { (h : History) → A.represents archive.old h → A.represents archive.new h }
{
    let skip = question.skip;
    let answer = events_page(archive, question)?;
    of_memory(write_events(alloc, text, form, &answer.events))?;
    of_memory(write_events_ending(text, skip, &answer))?;
    Ok(answer.more)
}

/// Answers a question for a person: its first rows or events.
fn answer_first<A: RouteSource, W: Write, E: Write>(
    alloc: Global,
    archive: &mut A,
    form: Form,
    query: Query,
    out: &mut Output<W>,
    err: &mut Output<E>,
) -> Status
    ensures kept { (h : History) → A.represents archive.old h → A.represents archive.new h }
{
    let mut text = String::new(alloc);
    let answered = match query {
        Query::Rows(question) => first_rows(alloc, archive, form, question, &mut text),
        Query::Events(question) => first_events(alloc, archive, form, question, &mut text),
    };
    end_first(alloc, text.as_str(), answered, out, err)
}

/// Answers a question with all its rows or events.
fn answer_all<A: RouteSource, W: Write, E: Write>(
    alloc: Global,
    archive: &mut A,
    form: Form,
    query: Query,
    out: &mut Output<W>,
    err: &mut Output<E>,
) -> Status
    ensures kept { (h : History) → A.represents archive.old h → A.represents archive.new h }
{
    match query {
        Query::Rows(question) => write_table(alloc, archive, form, question, out, err),
        Query::Events(question) => write_history(alloc, archive, form, question, out, err),
    }
}

/// The columns of an answer.
fn columns_of(query: &Query) -> Columns {
    match query {
        Query::Rows(_) => Columns::Rows,
        Query::Events(_) => Columns::Events,
    }
}

/// Answers a question with all its rows or events, or for a person.
fn answer_question<A: RouteSource, W: Write, E: Write>(
    alloc: Global,
    archive: &mut A,
    query: Query,
    manner: Manner,
    out: &mut Output<W>,
    err: &mut Output<E>,
) -> Status
    ensures kept { (h : History) → A.represents archive.old h → A.represents archive.new h }
{
    let form = manner.form();
    if manner.terminal {
        write_heading(columns_of(&query), form, err);
    }
    if manner.all {
        answer_all(alloc, archive, form, query, out, err)
    } else {
        answer_first(alloc, archive, form, query, out, err)
    }
}

/// Answers which places changed: with all of them, or for a person.
fn answer_changed<A: RouteSource, W: Write, E: Write>(
    alloc: Global,
    archive: &mut A,
    question: ChangedQuestion,
    manner: Manner,
    out: &mut Output<W>,
    err: &mut Output<E>,
) -> Status
    ensures kept { (h : History) → A.represents archive.old h → A.represents archive.new h }
{
    if manner.terminal {
        write_heading(Columns::Places, manner.form(), err);
    }
    if manner.all {
        write_places(alloc, archive, question, out, err)
    } else {
        write_first_places(alloc, archive, question, out, err)
    }
}

/// Answers a question in a manner that [`ask`] doesn't know: with all its rows, events or places and one end, or for a person. Other lines are
/// answered as `ask` does.
pub(crate) fn ask_for<A: RouteArchive, W: Write, E: Write>(
    alloc: Global,
    archive: &mut A,
    line: &str,
    manner: Manner,
    out: &mut Output<W>,
    err: &mut Output<E>,
) -> Status
    ensures kept { (h : History) → A.represents archive.old h → A.represents archive.new h }
{
    match read_request(alloc, line) {
        Ok(Request::Question(query)) => { answer_question(alloc, archive, query, manner, out, err) }
        Ok(Request::Changed(question)) => {
            answer_changed(alloc, archive, question, manner, out, err)
        }
        _ => ask(alloc, archive, line, out, err),
    }
}
