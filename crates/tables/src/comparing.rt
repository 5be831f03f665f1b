//! What differs between the tables of two moments.

ghost use Rattle.route_meaning.specs.History.{History};

use crate::candidates::places_between;
use crate::changes::Span;
use crate::cursor::Cursor;
use crate::differences::{Differences, order_of};
use crate::ending::end_lines;
use crate::pages::row_at;
use crate::reading::Comparison;
use crate::scope::Scope;
use archive_calls::{AskError, RouteSource, Trouble};
use route_meaning::Spot;
use route_model::Moment;
use service::{Output, Status};
use std::alloc::Global;
use std::cmp::Ordering;
use std::io::Write;

/// How many microseconds at most, an hour, may lie between two tables if only the places that changed are asked for. In a longer span a few prefixes may
/// have changed more often than both tables have rows.
const SHORT: u64 = 3_600_000_000;

/// Which prefixes are compared, or all if there is none.
fn scope_of(asked: &Comparison) -> Option<Scope> {
    asked.within.map(Scope::More)
}

/// Writes a line for each place where the tables differ, which are read side by side. Once a write failed no more rows are asked for.
fn write_tables<A: RouteSource, W: Write>(
    alloc: Global,
    archive: &mut A,
    asked: &Comparison,
    lines: &mut Differences,
    out: &mut Output<W>,
) -> Result<(), AskError>
    ensures kept { (h : History) → A.represents archive.old h → A.represents archive.new h }
{
    let mut old = Cursor::new(alloc, asked.from, scope_of(asked));
    let mut new = Cursor::new(alloc, asked.to, scope_of(asked));
    let mut first = old.take(archive)?;
    let mut second = new.take(archive)?;
    'places: for _ in 0..u64::MAX {
        if out.has_failed() || (first.is_none() && second.is_none()) {
            return Ok(());
        }
        let order = order_of(&first, &second);
        lines.write(order, &first, &second, out)?;
        if order != Ordering::Greater {
            first = old.take(archive)?;
        }
        if order != Ordering::Less {
            second = new.take(archive)?;
        }
    }
    Err(AskError::Trouble(Trouble::CounterFull))
}

/// What happened between the two moments, if they are near to one another.
fn short_span(asked: &Comparison) -> Option<Span> {
    let (from, to) = (asked.from.number(), asked.to.number());
    let length = to.checked_sub(from)?;
    if length == 0 || SHORT < length {
        return None;
    }
    Some(Span {
        from: Moment::new(from.checked_add(1)?)?,
        to: asked.to,
    })
}

/// Writes a line for each of the places where the tables differ. Once a write failed no more rows are asked for.
fn write_places<A: RouteSource, W: Write>(
    archive: &mut A,
    asked: &Comparison,
    places: &[Spot],
    lines: &mut Differences,
    out: &mut Output<W>,
) -> Result<(), AskError>
    ensures kept { (h : History) → A.represents archive.old h → A.represents archive.new h }
{
    let mut last = None;
    for place in places {
        if out.has_failed() {
            return Ok(());
        }
        if last != Some(*place) {
            let first = row_at(archive, asked.from, place)?;
            let second = row_at(archive, asked.to, place)?;
            lines.write(order_of(&first, &second), &first, &second, out)?;
            last = Some(*place);
        }
    }
    Ok(())
}

/// The places where the tables may differ, if the moments are near to one another and few places changed.
fn few_places<A: RouteSource>(
    alloc: Global,
    archive: &mut A,
    asked: &Comparison,
) -> Result<Option<Vec<Spot>>, AskError>
    ensures kept { (h : History) → A.represents archive.old h → A.represents archive.new h }
{
    match short_span(asked) {
        Some(span) => places_between(alloc, archive, asked.from, &span, &asked.within),
        None => Ok(None),
    }
}

/// Writes a line for each place where the tables differ.
fn write_lines<A: RouteSource, W: Write>(
    alloc: Global,
    archive: &mut A,
    asked: &Comparison,
    lines: &mut Differences,
    out: &mut Output<W>,
) -> Result<(), AskError>
    ensures kept { (h : History) → A.represents archive.old h → A.represents archive.new h }
{
    match few_places(alloc, archive, asked)? {
        Some(places) => write_places(archive, asked, &places, lines, out),
        None => write_tables(alloc, archive, asked, lines, out),
    }
}

/// Writes the line of each place where the tables of two moments differ, of all prefixes or of those inside one, and then `E|LINES`; a
/// refusal is the last line. How many lines were written.
pub(crate) fn write_differences<A: RouteSource, W: Write, E: Write>(
    alloc: Global,
    archive: &mut A,
    asked: &Comparison,
    out: &mut Output<W>,
    err: &mut Output<E>,
) -> (u64, Status)
    ensures kept { (h : History) → A.represents archive.old h → A.represents archive.new h }
{
    let mut lines = Differences::new(alloc);
    let ended = match write_lines(alloc, archive, asked, &mut lines, out) {
        Ok(()) => Ok(lines.count()),
        Err(why) => Err(why),
    };
    let count = match ended {
        Ok(count) => count,
        Err(_) => 0,
    };
    (count, end_lines(alloc, ended, out, err))
}
