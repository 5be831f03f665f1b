//! All rows of a question.

ghost use Rattle.route_meaning.specs.History.{History};

use crate::ending::{end_lines, of_memory, refusal_of, status_of};
use crate::form::Form;
use crate::lines::RowWriter;
use crate::pages::{question_after, rows_page};
use archive_calls::{AskError, RouteSource, Trouble};
use route_meaning::RowsQuestion;
use service::{Output, Status, write_error};
use std::alloc::Global;
use std::io::Write;

/// Writes the lines of the first rows of a question: how many rows these are, and the question of the rest, if there are more.
fn write_page<A: RouteSource, W: Write>(
    alloc: Global,
    archive: &mut A,
    writer: &RowWriter,
    question: RowsQuestion,
    text: &mut String,
    out: &mut Output<W>,
) -> Result<(u64, Option<RowsQuestion>), AskError>
    ensures kept { (h : History) → A.represents archive.old h → A.represents archive.new h }
{
    let answer = rows_page(archive, question)?;
    text.clear();
    of_memory(writer.write_all(alloc, text, &answer.rows))?;
    out.text(text.as_str());
    let next = question_after(&question, &answer);
    Ok((answer.rows.len() as u64, next))
}

/// Writes a line for each row, page after page: how many there are. Once a write failed no more rows are asked for.
fn write_rows<A: RouteSource, W: Write>(
    alloc: Global,
    archive: &mut A,
    form: Form,
    question: RowsQuestion,
    out: &mut Output<W>,
) -> Result<u64, AskError>
    ensures kept { (h : History) → A.represents archive.old h → A.represents archive.new h }
{
    let writer = of_memory(RowWriter::new(alloc, form, question.moment))?;
    let mut text = String::new(alloc);
    let mut at = question;
    let mut count = 0u64;
    'pages: for _ in 0..u64::MAX {
        let page = write_page(alloc, archive, &writer, at, &mut text, out)?;
        let Some(sum) = count.checked_add(page.0) else {
            return Err(AskError::Trouble(Trouble::CounterFull));
        };
        count = sum;
        let Some(next) = page.1 else {
            return Ok(count);
        };
        if out.has_failed() {
            return Ok(count);
        }
        at = next;
    }
    Err(AskError::Trouble(Trouble::CounterFull))
}

/// Writes all rows of a question in a form, and, if the form has lines, `E|ROWS` after them. A refusal is the last line if the form
/// has lines, and else a line of standard error.
pub(crate) fn write_table<A: RouteSource, W: Write, E: Write>(
    alloc: Global,
    archive: &mut A,
    form: Form,
    question: RowsQuestion,
    out: &mut Output<W>,
    err: &mut Output<E>,
) -> Status
    ensures kept { (h : History) → A.represents archive.old h → A.represents archive.new h }
{
    let ended = write_rows(alloc, archive, form, question, out);
    if form.has_end() {
        return end_lines(alloc, ended, out, err);
    }
    match ended {
        Ok(_) => status_of(alloc, Status::Done, out, err),
        Err(why) => {
            write_error(err, &refusal_of(why));
            status_of(alloc, Status::Refused, out, err)
        }
    }
}
