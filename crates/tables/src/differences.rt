//! The lines of places where two tables differ.

use crate::ending::of_memory;
use archive_calls::{AskError, Trouble};
use route_meaning::{Row, Spot};
use route_text::write_route;
use service::{Output, write_place};
use std::alloc::{AllocError, Global};
use std::cmp::Ordering;
use std::io::Write;

/// Writes a sign, the place of the row and the fields of its route.
fn write_side(out: &mut String, sign: char, row: &Row) -> Result<(), AllocError> {
    out.push(sign)?;
    out.push('|')?;
    write_place(out, &row.peer, &row.prefix)?;
    out.push('|')?;
    write_route(out, row.route.route())
}

/// Writes the line of a place that has a route at one moment alone.
fn write_one(out: &mut String, sign: char, row: &Row) -> Result<(), AllocError> {
    write_side(out, sign, row)?;
    out.push('\n')
}

/// Writes the line of a place whose routes aren't the same.
fn write_two(out: &mut String, first: &Row, second: &Row) -> Result<(), AllocError> {
    write_side(out, '~', first)?;
    out.push('|')?;
    write_route(out, second.route.route())?;
    out.push('\n')
}

/// Where the first row stands beside the second one; a side without a row is after all rows.
pub(crate) fn order_of(first: &Option<Row>, second: &Option<Row>) -> Ordering {
    match (first, second) {
        (Some(first), Some(second)) => {
            let spot = Spot {
                peer: first.peer,
                prefix: first.prefix,
            };
            spot.cmp(&Spot {
                peer: second.peer,
                prefix: second.prefix,
            })
        }
        (Some(_), None) => Ordering::Less,
        (None, Some(_)) => Ordering::Greater,
        (None, None) => Ordering::Equal,
    }
}

/// Writes the line of two rows of one place, if their routes aren't the same: whether it did.
fn write_change(out: &mut String, first: &Row, second: &Row) -> Result<bool, AllocError> {
    if first.route.encoding() == second.route.encoding() {
        return Ok(false);
    }
    write_two(out, first, second)?;
    Ok(true)
}

/// Writes the line of the rows at the next place, if they differ there: whether it did.
fn write_next(
    out: &mut String,
    order: Ordering,
    first: &Option<Row>,
    second: &Option<Row>,
) -> Result<bool, AllocError> {
    match (order, first, second) {
        (Ordering::Less, Some(first), _) => {
            write_one(out, '-', first)?;
            Ok(true)
        }
        (Ordering::Greater, _, Some(second)) => {
            write_one(out, '+', second)?;
            Ok(true)
        }
        (_, Some(first), Some(second)) => write_change(out, first, second),
        _ => Ok(false),
    }
}

/// Lines that are written, one for each place that differs.
#[derive(Drop)]
pub(crate) struct Differences {
    text: String,
    count: u64,
}

impl Differences {
    /// No line yet.
    pub(crate) fn new(alloc: Global) -> Differences {
        Differences {
            text: String::new(alloc),
            count: 0,
        }
    }

    /// How many lines were written.
    pub(crate) fn count(&self) -> u64 {
        self.count
    }

    /// Writes the line of the rows at a place, if they differ there. `order` is where the first row stands beside the second one.
    pub(crate) fn write<W: Write>(
        &mut self,
        order: Ordering,
        first: &Option<Row>,
        second: &Option<Row>,
        out: &mut Output<W>,
    ) -> Result<(), AskError> {
        self.text.clear();
        if of_memory(write_next(&mut self.text, order, first, second))? {
            out.text(self.text.as_str());
            let Some(sum) = self.count.checked_add(1) else {
                return Err(AskError::Trouble(Trouble::CounterFull));
            };
            self.count = sum;
        }
        Ok(())
    }
}
