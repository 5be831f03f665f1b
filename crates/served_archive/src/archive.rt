//! A served archive meets what questions ask of one.

use crate::events::EventsReply;
use crate::exchange::{Exchange, Reply};
use crate::lapse::{Lapse, NoReply, trouble_of};
use crate::requests::{write_changed_question, write_question};
use crate::rows::RowsReply;
use crate::settled::SettledReply;
use crate::spots::SpotsReply;
use archive_calls::{AskError, RouteSource, Trouble};
use interleaving_core::{Answer, Query};
use route_meaning::{ChangedAnswer, ChangedQuestion};
use route_model::Mark;
use std::alloc::Global;
use std::io::{Read, Write};

/// An archive that is asked over a stream to the program that serves it: by what reads from it, and what writes to it.
#[derive(Drop)]
pub struct ServedArchive<R, W> {
    alloc: Global,
    exchange: Exchange<R, W>,
    settled: Mark,
    /// Why nothing more is asked.
    lapse: Option<Lapse>,
}

/// Why the archive isn't opened: a server never refuses to say what is settled, but for lack of memory.
fn unopened(why: NoReply) -> Lapse {
    match why {
        NoReply::Refused(AskError::Trouble(Trouble::OutOfMemory)) => Lapse::OutOfMemory,
        NoReply::Refused(_) => Lapse::Unexpected,
        NoReply::Lapsed(lapse) => lapse,
    }
}

/// Why a question isn't answered.
fn refusal_of(why: NoReply) -> AskError {
    match why {
        NoReply::Refused(why) => why,
        NoReply::Lapsed(lapse) => AskError::Trouble(trouble_of(&lapse)),
    }
}

impl<R: Read + Drop, W: Write + Drop> ServedArchive<R, W> {
    /// The archive at the other end of a stream on which nothing was written yet. It is asked for its settled watermark.
    pub fn open(alloc: Global, reader: R, writer: W) -> Result<ServedArchive<R, W>, Lapse> {
        let mut exchange = Exchange::new(alloc, reader, writer)?;
        let mut reply = SettledReply::new();
        if let Err(why) = exchange.ask(alloc, "watermark\n", &mut reply) {
            return Err(unopened(why));
        }
        Ok(ServedArchive {
            alloc,
            exchange,
            settled: reply.settled,
            lapse: None,
        })
    }

    /// What was the matter with the stream or what came on it, if anything was.
    pub fn lapse(&self) -> Option<Lapse> {
        self.lapse
    }

    /// Writes a line, with its end, and reads its reply.
    fn exchange<T: Reply>(&mut self, line: &str, reply: &mut T) -> Result<(), NoReply> {
        if let Some(lapse) = self.lapse {
            return Err(NoReply::Lapsed(lapse));
        }
        match self.exchange.ask(self.alloc, line, reply) {
            Ok(()) => Ok(()),
            Err(NoReply::Refused(why)) => Err(NoReply::Refused(why)),
            Err(NoReply::Lapsed(lapse)) => {
                self.lapse = Some(lapse);
                Err(NoReply::Lapsed(lapse))
            }
        }
    }

    /// Asks a question, and reads its answer.
    fn ask(&mut self, query: &Query) -> Result<Answer, NoReply> {
        let mut line = String::new(self.alloc);
        if write_question(&mut line, query).is_err() {
            return Err(NoReply::Lapsed(Lapse::OutOfMemory));
        }
        match query {
            Query::Rows(question) => {
                let mut reply = RowsReply::new(self.alloc, question);
                self.exchange(line.as_str(), &mut reply)?;
                Ok(Answer::Rows(reply.into_answer()))
            }
            Query::Events(question) => {
                let mut reply = EventsReply::new(self.alloc, question);
                self.exchange(line.as_str(), &mut reply)?;
                Ok(Answer::Events(reply.into_answer()))
            }
        }
    }

    /// Asks which spots changed, and reads the answer.
    fn ask_changed(&mut self, question: &ChangedQuestion) -> Result<ChangedAnswer, NoReply> {
        let mut line = String::new(self.alloc);
        if write_changed_question(&mut line, question).is_err() {
            return Err(NoReply::Lapsed(Lapse::OutOfMemory));
        }
        let mut reply = SpotsReply::new(self.alloc, question);
        self.exchange(line.as_str(), &mut reply)?;
        Ok(reply.into_answer())
    }
}

/// It represents no history: nothing is known of what comes over a stream.
impl<R: Read + Drop, W: Write + Drop> RouteSource for ServedArchive<R, W> {
    ghost represents = { λ it h. ⊥ };

    ghost right = { λ it h represented. absurd represented };

    /// The settled watermark of when the archive was opened.
    fn settled(&self) -> Mark {
        self.settled
    }

    fn answer(&mut self, query: Query) -> Result<Answer, AskError> {
        match self.ask(&query) {
            Ok(answer) => Ok(answer),
            Err(why) => Err(refusal_of(why)),
        }
    }

    fn changed(&mut self, question: ChangedQuestion) -> Result<ChangedAnswer, AskError> {
        match self.ask_changed(&question) {
            Ok(answer) => Ok(answer),
            Err(why) => Err(refusal_of(why)),
        }
    }
}
