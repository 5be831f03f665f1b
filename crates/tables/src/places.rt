//! Places that changed in a span, page after page.

ghost use Rattle.route_meaning.specs.History.{History};

use crate::ending::{end_first, end_lines, of_memory};
use archive_calls::{AskError, RouteSource, Trouble};
use route_meaning::{ChangedAnswer, ChangedQuestion};
use service::{Output, Status, write_changed, write_spots};
use std::alloc::Global;
use std::io::Write;

/// The question of the places after those of an answer, if more follow.
fn question_after(question: &ChangedQuestion, answer: &ChangedAnswer) -> Option<ChangedQuestion> {
    if !answer.more {
        return None;
    }
    let mut next = *question;
    next.after = Some(*answer.spots.last()?);
    Some(next)
}

/// Writes the lines of the first places of a question: how many these are, and the question of the rest, if there are more.
fn write_page<A: RouteSource, W: Write>(
    archive: &mut A,
    question: ChangedQuestion,
    text: &mut String,
    out: &mut Output<W>,
) -> Result<(u64, Option<ChangedQuestion>), AskError>
    ensures kept { (h : History) → A.represents archive.old h → A.represents archive.new h }
{
    let answer = archive.changed(question)?;
    text.clear();
    of_memory(write_spots(text, &answer.spots))?;
    out.text(text.as_str());
    let next = question_after(&question, &answer);
    Ok((answer.spots.len() as u64, next))
}

/// Writes a line for each place, page after page: how many there are. Once a write failed no more places are asked for.
fn write_pages<A: RouteSource, W: Write>(
    alloc: Global,
    archive: &mut A,
    question: ChangedQuestion,
    out: &mut Output<W>,
) -> Result<u64, AskError>
    ensures kept { (h : History) → A.represents archive.old h → A.represents archive.new h }
{
    let mut text = String::new(alloc);
    let mut at = question;
    let mut count = 0u64;
    'pages: for _ in 0..u64::MAX {
        let page = write_page(archive, at, &mut text, out)?;
        let Some(sum) = count.checked_add(page.0) else {
            return Err(AskError::Trouble(Trouble::CounterFull));
        };
        count = sum;
        let Some(next) = page.1 else {
            return Ok(count);
        };
        if out.has_failed() {
            return Ok(count);
        }
        at = next;
    }
    Err(AskError::Trouble(Trouble::CounterFull))
}

/// Writes all places that changed, and `E|PLACES` after them. A refusal is the last line.
pub(crate) fn write_places<A: RouteSource, W: Write, E: Write>(
    alloc: Global,
    archive: &mut A,
    question: ChangedQuestion,
    out: &mut Output<W>,
    err: &mut Output<E>,
) -> Status
    ensures kept { (h : History) → A.represents archive.old h → A.represents archive.new h }
{
    let ended = write_pages(alloc, archive, question, out);
    end_lines(alloc, ended, out, err)
}

/// Writes the lines of the first places, and returns whether more follow.
fn first_places<A: RouteSource>(
    archive: &mut A,
    question: ChangedQuestion,
    text: &mut String,
) -> Result<bool, AskError>
    ensures kept { (h : History) → A.represents archive.old h → A.represents archive.new h }
{
    let answer = archive.changed(question)?;
    of_memory(write_changed(text, &answer))?;
    Ok(answer.more)
}

/// Writes the first places that changed for a person.
pub(crate) fn write_first_places<A: RouteSource, W: Write, E: Write>(
    alloc: Global,
    archive: &mut A,
    question: ChangedQuestion,
    out: &mut Output<W>,
    err: &mut Output<E>,
) -> Status
    ensures kept { (h : History) → A.represents archive.old h → A.represents archive.new h }
{
    let mut text = String::new(alloc);
    let answered = first_places(archive, question, &mut text);
    end_first(alloc, text.as_str(), answered, out, err)
}
