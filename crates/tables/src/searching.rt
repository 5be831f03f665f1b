//! The lines of what is found.

ghost use Rattle.route_meaning.specs.History.{History};

use crate::changes::Span;
use crate::cursor::Cursor;
use crate::ending::{end_lines, of_memory};
use crate::finding::{Found, find_all};
use crate::matching::Numbers;
use crate::reading::Search;
use archive_calls::{AskError, RouteSource, Trouble};
use route_model::{Change, Moment};
use route_text::{write_moment, write_route};
use service::{Output, Status, write_place, write_row};
use std::alloc::{AllocError, Global};
use std::io::Write;

/// Writes a letter, the time and the place of what happened.
fn write_head(out: &mut String, letter: char, found: &Found) -> Result<(), AllocError> {
    out.push(letter)?;
    out.push('|')?;
    write_moment(out, found.event.time)?;
    out.push('|')?;
    write_place(out, &found.spot.peer, &found.spot.prefix)
}

/// Writes the line of what happened.
fn write_found(out: &mut String, found: &Found) -> Result<(), AllocError> {
    match &found.event.change {
        Change::Announce(_, _, route) => {
            write_head(out, 'A', found)?;
            out.push('|')?;
            write_route(out, route.route())?;
        }
        Change::Withdraw(_, _) => write_head(out, 'W', found)?,
        Change::Down(_) => write_head(out, 'D', found)?,
    }
    out.push('\n')
}

/// Writes the lines of what happened in a span: how many there are.
fn write_events<A: RouteSource, W: Write>(
    alloc: Global,
    archive: &mut A,
    span: &Span,
    search: &Search,
    out: &mut Output<W>,
) -> Result<u64, AskError>
    ensures kept { (h : History) → A.represents archive.old h → A.represents archive.new h }
{
    let all = find_all(alloc, archive, span, &search.scope, &search.numbers)?;
    let mut text = String::new(alloc);
    for found in &all {
        text.clear();
        of_memory(write_found(&mut text, found))?;
        out.text(text.as_str());
    }
    Ok(all.len() as u64)
}

/// Writes the rows of a cursor whose routes are asked for: how many there are. Once a write failed no more rows are asked for.
fn write_routes<A: RouteSource, W: Write>(
    alloc: Global,
    archive: &mut A,
    cursor: &mut Cursor,
    numbers: &Numbers,
    out: &mut Output<W>,
) -> Result<u64, AskError>
    ensures kept { (h : History) → A.represents archive.old h → A.represents archive.new h }
{
    let mut text = String::new(alloc);
    let mut count = 0u64;
    'rows: for _ in 0..u64::MAX {
        if out.has_failed() {
            return Ok(count);
        }
        let Some(row) = cursor.take(archive)? else {
            return Ok(count);
        };
        if numbers.has(row.route.route()) {
            text.clear();
            of_memory(write_row(&mut text, &row))?;
            out.text(text.as_str());
            let Some(sum) = count.checked_add(1) else {
                return Err(AskError::Trouble(Trouble::CounterFull));
            };
            count = sum;
        }
    }
    Err(AskError::Trouble(Trouble::CounterFull))
}

/// Writes what is found until a moment: what happened since another one, or if there is none, the routes that hold; and then `E|LINES`. A
/// refusal is the last line.
pub(crate) fn write_search<A: RouteSource, W: Write, E: Write>(
    alloc: Global,
    archive: &mut A,
    search: &Search,
    to: Moment,
    out: &mut Output<W>,
    err: &mut Output<E>,
) -> Status
    ensures kept { (h : History) → A.represents archive.old h → A.represents archive.new h }
{
    let ended = match search.since {
        Some(from) => write_events(alloc, archive, &Span { from, to }, search, out),
        None => {
            let mut cursor = Cursor::new(alloc, to, Some(search.scope));
            write_routes(alloc, archive, &mut cursor, &search.numbers, out)
        }
    };
    end_lines(alloc, ended, out, err)
}
