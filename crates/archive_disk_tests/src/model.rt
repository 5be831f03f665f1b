//! What an archive on disks is compared with: the pure machine, step by step, and run through all steps at once.

use crate::asked::query_of;
use crate::reported::{Reported, State, reported_of};
use interleaving_core::{Answer, Machine, Query, Ran, Reach, Reply, Resume, Step, run};
use route_meaning::{RowsQuestion, Select};
use route_model::{Mark, Moment};
use service::{write_answer, write_events};
use std::alloc::Global;

// More changes than wait at any time.
const WAITING: u32 = 2_000;

/// The pure machine, how many changes it applied, where each record has one at least, and the steps by which it came there, with what
/// each returned.
#[derive(Drop)]
pub(crate) struct Model {
    alloc: Global,
    collectors: u8,
    machine: Machine,
    applied: u64,
    steps: Vec<Step>,
    reported: Vec<Reported>,
    /// Whether there was memory for all of them.
    is_whole: bool,
}

impl Model {
    pub(crate) fn new(alloc: Global, collectors: u8) -> Option<Model> {
        Some(Model {
            alloc,
            collectors,
            machine: Machine::created(alloc, collectors).ok()?,
            applied: 0,
            steps: Vec::new(alloc),
            reported: Vec::new(alloc),
            is_whole: true,
        })
    }

    // What the machine replies to a question that is gone over in one turn.
    fn reply_to(&mut self, query: Query) -> Option<Reply> {
        match self.machine.begin(query) {
            Ok(Reply::Begun(number)) => self.machine.turn(number, Reach::End).ok(),
            _ => None,
        }
    }

    /// The settled watermark, which is returned where the last moment of all is asked of. None where there is no memory.
    pub(crate) fn settled(&mut self) -> Option<Mark> {
        let all = Query::Rows(RowsQuestion {
            moment: Moment::from(u32::MAX),
            select: Select::All,
            after: None,
        });
        settled_in(&self.reply_to(all)?)
    }

    /// The machine's state.
    pub(crate) fn state(&mut self) -> Option<State> {
        Some(State {
            first: self.machine.resume(0),
            second: self.machine.resume(1),
            settled: self.settled()?,
            applied: self.applied,
        })
    }

    // Makes a step.
    fn make(&mut self, step: &Step) -> Reported {
        let reply = match step {
            Step::Admit(collector, batch) => self.machine.admit(*collector, batch).ok(),
            Step::Mark(collector, mark) => Some(self.machine.mark(*collector, *mark)),
            Step::Apply(_) => self.machine.apply(0).ok(),
            Step::Flush => Some(self.machine.flush()),
            _ => None,
        };
        let reported = match &reply {
            Some(reply) => reported_of(reply),
            None => Reported::Refused,
        };
        if reported == Reported::Applied {
            self.applied = self.applied.saturating_add(1);
        }
        reported
    }

    // Applies a change at a time, until `applied` are applied.
    fn catch_up(&mut self, applied: u64) {
        for _ in 0..WAITING {
            if self.applied >= applied || self.make(&Step::Apply(0)) != Reported::Applied {
                return;
            }
        }
    }

    fn remember(&mut self, step: Step, reported: Reported) {
        self.is_whole &= self.steps.push(step).is_ok() && self.reported.push(reported).is_ok();
    }

    // Makes a step. One that applies a change goes on until `applied` are applied.
    fn make_until(&mut self, step: Step, applied: u64) -> Reported {
        let before = self.applied;
        let reported = self.make(&step);
        if reported == Reported::Applied {
            self.catch_up(applied);
            let more = self.applied.saturating_sub(before).saturating_sub(1);
            self.remember(Step::Apply(more), reported);
        } else {
            self.remember(step, reported);
        }
        reported
    }

    /// Whether the model returns the same, and `applied` changes are applied then. A step of the disks' archive applies one or more.
    pub(crate) fn does(&mut self, step: Step, reported: Reported, applied: u64) -> bool {
        self.make_until(step, applied) == reported && self.applied == applied
    }

    /// Whether the model returns the same. Where the step applies a change it goes on until all is settled up to this mark.
    pub(crate) fn does_up_to(&mut self, step: &Step, reported: Reported, settled: Mark) -> bool {
        if self.make(step) != reported {
            return false;
        }
        if reported != Reported::Applied {
            return true;
        }
        for _ in 0..WAITING {
            if self.settled() == Some(settled) {
                return true;
            }
            if self.make(step) != Reported::Applied {
                return false;
            }
        }
        false
    }

    /// Whether what was found after a call that was stopped is what the model is then: the call was made whole, or not at all.
    pub(crate) fn follows(&mut self, step: Step, found: &State) -> bool {
        if self.state() == Some(*found) {
            return true;
        }
        let _reported = self.make_until(step, found.applied);
        self.state() == Some(*found)
    }

    // A run of all steps from the beginning.
    fn ran(&self) -> Option<Ran> {
        let machine = Machine::created(self.alloc, self.collectors).ok()?;
        run(self.alloc, machine, &self.steps).ok()
    }

    /// All goes down, and comes up again. Whether each step of a run through all steps returns what was returned, and the run's
    /// machine, which the model goes on with, has the same state.
    pub(crate) fn crash(&mut self) -> Option<bool> {
        let before = self.state();
        self.remember(Step::Crash, Reported::Crashed);
        self.remember(Step::Recover, Reported::Recovered);
        let Ran { machine, replies } = self.ran()?;
        self.machine = machine;
        Some(self.is_whole && are_reported(&replies, &self.reported) && self.state() == before)
    }

    /// The lines by which the machine answers or refuses the question of a line.
    pub(crate) fn answer(&mut self, line: &str) -> Option<String> {
        let Some(query) = query_of(self.alloc, line) else {
            return None;
        };
        let reply = self.reply_to(query)?;
        reply_lines(self.alloc, &query, &reply)
    }

    /// Whether the machine answers or refuses the question of a line by these lines.
    pub(crate) fn answers_as(&mut self, line: &str, lines: &[u8]) -> bool {
        match self.answer(line) {
            Some(reported) => reported.as_bytes() == lines,
            None => false,
        }
    }

    /// Where a collector goes on, if there is one of this number.
    pub(crate) fn resume(&self, collector: u8) -> Option<Resume> {
        self.machine.resume(collector)
    }

    /// Applies all that may be applied.
    pub(crate) fn apply_all(&mut self) {
        let _reply = self.machine.apply(u64::from(WAITING));
    }
}

// The lines of a reply to a question.
fn reply_lines(alloc: Global, query: &Query, reply: &Reply) -> Option<String> {
    match reply {
        Reply::Done(answer) => lines_of(alloc, query, answer),
        Reply::AboveWatermark(settled) => above(alloc, *settled),
        _ => None,
    }
}

// The line of a moment that isn't below the settled watermark.
fn above(alloc: Global, settled: Mark) -> Option<String> {
    let seconds = settled.number() / Moment::SECOND;
    format!(in alloc; "X|24|AboveWatermark|{seconds}\n").ok()
}

// The settled watermark, where a reply names it.
fn settled_in(reply: &Reply) -> Option<Mark> {
    match reply {
        Reply::AboveWatermark(settled) => Some(*settled),
        _ => None,
    }
}

// Whether the replies are these.
fn are_reported(replies: &[Reply], reported: &[Reported]) -> bool {
    replies.len() == reported.len()
        && replies
            .iter()
            .zip(reported.iter())
            .all(|(reply, reported)| reported_of(reply) == *reported)
}

// The lines of an answer.
fn lines_of(alloc: Global, query: &Query, answer: &Answer) -> Option<String> {
    let mut lines = String::new(alloc);
    match (query, answer) {
        (Query::Rows(_), Answer::Rows(rows)) => write_answer(&mut lines, rows).ok()?,
        (Query::Events(question), Answer::Events(events)) => {
            write_events(&mut lines, question.skip, events).ok()?;
        }
        _ => return None,
    }
    Some(lines)
}
