//! A reply of rows.

use crate::exchange::Reply;
use crate::fields::read_row;
use crate::places::{Places, is_after};
use route_meaning::{Row, RowsAnswer, RowsQuestion, Select, Spot};
use route_text::TextError;
use std::alloc::Global;

/// The rows that came.
#[derive(Debug, Drop)]
pub(crate) struct RowsReply {
    rows: Vec<Row>,
    more: bool,
    places: Places,
    /// The spot after which rows are asked for.
    after: Option<Spot>,
}

/// The spot after which the line of a question asks: that of `route` has none.
fn spot_in_line(question: &RowsQuestion) -> Option<Spot> {
    match question.select {
        Select::Route(_, _) => None,
        _ => question.after,
    }
}

impl RowsReply {
    /// Before the first line.
    pub(crate) fn new(alloc: Global, question: &RowsQuestion) -> RowsReply {
        RowsReply {
            rows: Vec::new(alloc),
            more: false,
            places: Places::after(spot_in_line(question)),
            after: question.after,
        }
    }

    /// The answer, once the reply has ended.
    pub(crate) fn into_answer(self) -> RowsAnswer {
        RowsAnswer {
            rows: self.rows,
            more: self.more,
        }
    }
}

impl Reply for RowsReply {
    fn take(&mut self, alloc: Global, letter: &str, fields: &str) -> Result<bool, TextError> {
        if letter != "R" {
            self.more = self.places.read_end(letter, fields)?;
            return Ok(true);
        }
        let row = read_row(alloc, fields)?;
        let spot = Spot {
            peer: row.peer,
            prefix: row.prefix,
        };
        self.places.take(&spot)?;
        if is_after(&spot, &self.after) {
            self.rows.push(row)?;
        }
        Ok(false)
    }
}
