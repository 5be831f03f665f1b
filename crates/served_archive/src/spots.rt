//! A reply of spots that changed.

use crate::exchange::Reply;
use crate::fields::read_spot;
use crate::places::Places;
use route_meaning::{ChangedAnswer, ChangedQuestion, Spot};
use route_text::TextError;
use std::alloc::Global;

/// The spots that came.
#[derive(Debug, Drop)]
pub(crate) struct SpotsReply {
    spots: Vec<Spot>,
    more: bool,
    places: Places,
}

impl SpotsReply {
    /// Before the first line.
    pub(crate) fn new(alloc: Global, question: &ChangedQuestion) -> SpotsReply {
        SpotsReply {
            spots: Vec::new(alloc),
            more: false,
            places: Places::after(question.after),
        }
    }

    /// The answer, once the reply has ended.
    pub(crate) fn into_answer(self) -> ChangedAnswer {
        ChangedAnswer {
            spots: self.spots,
            more: self.more,
        }
    }
}

impl Reply for SpotsReply {
    fn take(&mut self, _alloc: Global, letter: &str, fields: &str) -> Result<bool, TextError> {
        if letter != "C" {
            self.more = self.places.read_end(letter, fields)?;
            return Ok(true);
        }
        let spot = read_spot(fields)?;
        self.places.take(&spot)?;
        self.spots.push(spot)?;
        Ok(false)
    }
}
