//! A reply of events.

use crate::exchange::Reply;
use crate::fields::{cut, read_shared};
use route_meaning::{Event, EventsAnswer, EventsQuestion};
use route_model::Change;
use route_text::{TextError, read_moment, read_number};
use std::alloc::Global;

/// The events that came.
#[derive(Debug, Drop)]
pub(crate) struct EventsReply {
    question: EventsQuestion,
    events: Vec<Event>,
    more: bool,
}

impl EventsReply {
    /// Before the first line.
    pub(crate) fn new(alloc: Global, question: &EventsQuestion) -> EventsReply {
        EventsReply {
            question: *question,
            events: Vec::new(alloc),
            more: false,
        }
    }

    /// The answer, once the reply has ended.
    pub(crate) fn into_answer(self) -> EventsAnswer {
        EventsAnswer {
            events: self.events,
            more: self.more,
        }
    }

    /// The event of a line. Its peer and prefix are those of the question.
    fn read_event(&self, alloc: Global, letter: &str, fields: &str) -> Result<Event, TextError> {
        let (peer, prefix) = (self.question.peer, self.question.prefix);
        if letter == "A" {
            let (time, route) = cut(fields)?;
            let time = read_moment(time)?;
            let route = read_shared(alloc, route)?;
            let change = Change::Announce(peer, prefix, route);
            return Ok(Event { time, change });
        }
        let time = read_moment(fields)?;
        let change = match letter {
            "W" => Change::Withdraw(peer, prefix),
            _ => Change::Down(peer),
        };
        Ok(Event { time, change })
    }

    /// Whether more events follow, by the number of the end: how many came, or how many the next question skips.
    fn read_end(&self, letter: &str, fields: &str) -> Result<bool, TextError> {
        let number = read_number(fields, u64::MAX)?;
        let count = self.events.len() as u64;
        match letter {
            "E" if number == count => Ok(false),
            "M" if count != 0 && self.question.skip.checked_add(count) == Some(number) => Ok(true),
            _ => Err(TextError::BadText),
        }
    }
}

impl Reply for EventsReply {
    fn take(&mut self, alloc: Global, letter: &str, fields: &str) -> Result<bool, TextError> {
        match letter {
            "A" | "W" | "D" => {
                let event = self.read_event(alloc, letter, fields)?;
                self.events.push(event)?;
                Ok(false)
            }
            _ => {
                self.more = self.read_end(letter, fields)?;
                Ok(true)
            }
        }
    }
}
