//! The pure machine beside an archive: its states, and its answers in each.

use crate::acts::ASKED;
use crate::asked::{query_of, rows_at};
use crate::played::State;
use interleaving_core::{Answer, Machine, Query, Reach, Reply};
use route_meaning::Select;
use route_model::{Admission, Mark, Moment};
use std::alloc::Global;

/// A question, and what it returns.
#[derive(Drop)]
pub struct Answered {
    pub query: Query,
    pub reply: Reply,
}

impl Answered {
    /// How many rows or events it has.
    pub fn count(&self) -> usize {
        match &self.reply {
            Reply::Done(Answer::Rows(answer)) => answer.rows.len(),
            Reply::Done(Answer::Events(answer)) => answer.events.len(),
            _ => 0,
        }
    }
}

/// The number of the question of now, after those of [`ASKED`]: all routes at the last moment that is settled.
pub const NOW: usize = 14;

/// A state that an archive may be in, and what each question returns then.
#[derive(Drop)]
pub struct Known {
    pub state: State,
    pub answers: Vec<Answered>,
}

/// The pure machine, and how many changes it applied, where each record has one.
#[derive(Drop)]
pub(crate) struct Pure {
    alloc: Global,
    machine: Machine,
    pub(crate) applied: u64,
}

impl Pure {
    pub(crate) fn new(alloc: Global) -> Option<Pure> {
        let machine = Machine::created(alloc, 2).ok()?;
        Some(Pure {
            alloc,
            machine,
            applied: 0,
        })
    }

    /// Takes a batch of a collector.
    pub(crate) fn give(&mut self, collector: u8, batch: &[Admission]) -> bool {
        matches!(self.machine.admit(collector, batch), Ok(Reply::Taken(_)))
    }

    /// Sets a collector's mark.
    pub(crate) fn set_mark(&mut self, collector: u8, seconds: u32) -> bool {
        let mark = Mark::at(Moment::from(seconds));
        matches!(self.machine.mark(collector, mark), Reply::Marked)
    }

    /// Applies the next change, where one may be.
    pub(crate) fn apply(&mut self) -> bool {
        let is_applied = matches!(self.machine.apply(0), Ok(Reply::Applied));
        self.applied = self.applied.saturating_add(u64::from(is_applied));
        is_applied
    }

    /// Applies what may be applied, until this number of changes is.
    pub(crate) fn apply_until(&mut self, applied: u64) -> bool {
        for _ in 0..4_000 {
            if self.applied >= applied || !self.apply() {
                break;
            }
        }
        self.applied == applied
    }

    fn answered(&mut self, query: &Query) -> Option<Answered> {
        match self.machine.begin(*query) {
            Ok(Reply::Begun(number)) => {
                let reply = self.machine.turn(number, Reach::End).ok()?;
                Some(Answered {
                    query: *query,
                    reply,
                })
            }
            _ => None,
        }
    }

    /// The settled watermark: a question of the last moment of all returns it.
    fn settled(&mut self) -> Option<Mark> {
        let answered = self.answered(&rows_at(u32::MAX, Select::All))?;
        match &answered.reply {
            Reply::AboveWatermark(settled) => Some(*settled),
            _ => None,
        }
    }

    /// Its state and its answers now.
    pub(crate) fn known(&mut self) -> Option<Known> {
        let settled = self.settled()?;
        let seconds = settled.number() / Moment::SECOND;
        let last = seconds.saturating_sub(1).min(9_999);
        let mut answers = Vec::new(self.alloc);
        for asked in &ASKED {
            answers.push(self.answered(&query_of(asked))?).ok()?;
        }
        let now = self.answered(&rows_at(last as u32, Select::All))?;
        answers.push(now).ok()?;
        let state = State {
            first: self.machine.resume(0),
            second: self.machine.resume(1),
            settled,
            applied: self.applied,
        };
        Some(Known { state, answers })
    }
}
