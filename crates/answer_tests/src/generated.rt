//! Generated histories: between any two turns of a question, and between a turn and what its errand reads, more is given, changes are
//! applied, which splits leaves, and a page is flushed. Once it is answered it is asked again in one call, by the same reader, which keeps
//! blocks from the whole history. Each answer is that of the pure machine over all that the history has at its end. Which prefixes changed
//! is asked after the questions, and more is given between two looks.

use crate::asking::lines_of;
use crate::be;
use crate::changed::count_changed;
use crate::made::{BLOCKS, Made, Reader, made, reader_of};
use crate::numbers::Numbers;
use disk_archive::{AskError, Cursor, Descent, Flush, Step};
use interleaving_core::{Answer, BatchReply, Machine, Query, Reach, Reply};
use route_model::{Admission, Mark};
use std::alloc::Global;
use std::mem;
use std::process::Abort;

// How many histories a test has.
const HISTORIES: u64 = 50;

const COLLECTORS: u8 = 2;

// In how many rounds of a history a question begins: it is asked twice.
const QUESTIONS: u32 = 4;

// More rounds than a history has until all its questions are answered.
const ROUNDS: u32 = 500;

// More changes than a history has.
const CHANGES: u64 = 10_000;

/// A question in progress, whether its errands are read by the reader of one block, and how many blocks there were at its first turn.
#[derive(Drop)]
struct Asked {
    small: bool,
    cursor: Cursor,
    blocks: Option<u64>,
}

/// A question and its answer.
#[derive(Drop)]
struct Reported {
    query: Query,
    answer: Answer,
}

/// How many answers there were, how many of them return a row or an event, and how many of those start after a place or
/// after skipped events; how often changes were applied or a page was flushed, how many errands were read, and between
/// the first and the last turn of how many questions a leaf was split, which burns a block; in how many spans some spot changed, and
/// between how many looks of a walk over them both went on.
#[derive(Clone, Copy)]
struct Counts {
    answers: u32,
    reporting: u32,
    beyond: u32,
    applied: u32,
    flushed: u32,
    read: u32,
    split: u32,
    changed: u32,
    walked: u32,
}

const NOTHING: Counts = Counts {
    answers: 0,
    reporting: 0,
    beyond: 0,
    applied: 0,
    flushed: 0,
    read: 0,
    split: 0,
    changed: 0,
    walked: 0,
};

fn reports(answer: &Answer) -> bool {
    match answer {
        Answer::Rows(reported) => !reported.rows.is_empty(),
        Answer::Events(reported) => !reported.events.is_empty(),
    }
}

// Whether a question is of what comes after a place, or after skipped events.
fn is_after(query: &Query) -> bool {
    match query {
        Query::Rows(question) => question.after.is_some(),
        Query::Events(question) => question.skip > 0,
    }
}

impl Counts {
    // With one answer more.
    fn with(self, reported: &Reported) -> Counts {
        let reporting = u32::from(reports(&reported.answer));
        let beyond = if is_after(&reported.query) {
            reporting
        } else {
            0
        };
        Counts {
            answers: self.answers.saturating_add(1),
            reporting: self.reporting.saturating_add(reporting),
            beyond: self.beyond.saturating_add(beyond),
            ..self
        }
    }

    // Those of both.
    fn and(self, other: Counts) -> Counts {
        Counts {
            answers: self.answers.saturating_add(other.answers),
            reporting: self.reporting.saturating_add(other.reporting),
            beyond: self.beyond.saturating_add(other.beyond),
            applied: self.applied.saturating_add(other.applied),
            flushed: self.flushed.saturating_add(other.flushed),
            read: self.read.saturating_add(other.read),
            split: self.split.saturating_add(other.split),
            changed: self.changed.saturating_add(other.changed),
            walked: self.walked.saturating_add(other.walked),
        }
    }
}

// Calls of the archive on disks. None where one failed.

fn admit(disk: &mut Made, collector: u8, batch: &[Admission]) -> Option<()> {
    disk.admit(collector, batch).ok()?;
    Some(())
}

fn set_mark(disk: &mut Made, collector: u8, mark: Mark) -> Option<()> {
    disk.mark(collector, mark).ok()
}

fn apply(disk: &mut Made) -> Option<Step> {
    disk.apply_step().ok()
}

fn flush(disk: &mut Made) -> Option<Flush> {
    disk.flush_step().ok()
}

fn answer_with(disk: &mut Made, reader: &mut Reader, query: Query) -> Option<Answer> {
    disk.answer_with(reader, query).ok()
}

// How many blocks are settled, where at least `least` are.
fn count_blocks(disk: &mut Made, counter: &mut Reader, least: u64) -> Option<u64> {
    let mut seen = disk.seen().ok()?;
    let mut count = least;
    for _ in 0..BLOCKS {
        if counter.fetch(&mut seen, count).is_err() {
            break;
        }
        count = count.saturating_add(1);
    }
    Some(count)
}

/// An archive on disks and the pure machine, to which the same is given.
#[derive(Drop)]
pub(crate) struct Both {
    pub(crate) alloc: Global,
    pub(crate) numbers: Numbers,
    pub(crate) disk: Made,
    machine: Machine,
    /// What each of the two collectors gave that didn't come late.
    pub(crate) first: Vec<Admission>,
    pub(crate) second: Vec<Admission>,
    counts: Counts,
}

impl Both {
    fn new(alloc: Global, seed: u64) -> Option<Both> {
        Some(Both {
            alloc,
            numbers: Numbers::new(seed),
            disk: made(alloc, COLLECTORS)?,
            machine: Machine::created(alloc, COLLECTORS).ok()?,
            first: Vec::new(alloc),
            second: Vec::new(alloc),
            counts: NOTHING,
        })
    }

    // Raises the mark of a collector, mostly.
    fn raise(&mut self, collector: u8, mark: Mark) -> Option<()> {
        if self.numbers.below(4) == 0 {
            return Some(());
        }
        set_mark(&mut self.disk, collector, mark)?;
        match self.machine.mark(collector, mark) {
            Reply::Marked => Some(()),
            _ => None,
        }
    }

    // Keeps what of a batch didn't come late.
    fn keep(&mut self, collector: u8, batch: Vec<Admission>, reported: &BatchReply) -> Option<()> {
        let list = if collector == 0 {
            &mut self.first
        } else {
            &mut self.second
        };
        for (place, admission) in batch.into_iter().enumerate() {
            if !reported.late.iter().any(|late| late.index == place) {
                list.push(admission).ok()?;
            }
        }
        Some(())
    }

    // Gives both a batch of a collector, and raises most marks to the second of the clock.
    fn give(&mut self) -> Option<()> {
        let collector = self.numbers.collector();
        let batch = self.numbers.batch(self.alloc, collector)?;
        admit(&mut self.disk, collector, &batch)?;
        match self.machine.admit(collector, &batch) {
            Ok(Reply::Taken(reported)) => self.keep(collector, batch, &reported)?,
            _ => return None,
        }
        let mark = Mark::at(self.numbers.clock.into());
        for collector in 0..COLLECTORS {
            self.raise(collector, mark)?;
        }
        self.numbers.go_on();
        Some(())
    }

    // Gives something, applies what is below all marks, and writes a page home where one waits.
    fn work(&mut self) -> Option<()> {
        self.give()?;
        if apply(&mut self.disk)? == Step::Applied {
            self.counts.applied = self.counts.applied.saturating_add(1);
        }
        if flush(&mut self.disk)? == Flush::Flushed {
            self.counts.flushed = self.counts.flushed.saturating_add(1);
        }
        Some(())
    }

    /// Both go on between two looks of a walk.
    pub(crate) fn go_on(&mut self) -> Option<()> {
        self.counts.walked = self.counts.walked.saturating_add(1);
        self.work()
    }

    // The machine applies all that it may.
    fn settle(&mut self) {
        let _reply = self.machine.apply(CHANGES);
    }

    // The lines of the machine's answer to a question.
    fn expected(&mut self, query: Query) -> Option<String> {
        let Ok(Reply::Begun(number)) = self.machine.begin(query) else {
            return None;
        };
        match &self.machine.turn(number, Reach::End).ok()? {
            Reply::Done(answer) => lines_of(self.alloc, &query, answer),
            _ => None,
        }
    }

    // Whether an answer is that of the machine.
    fn agrees(&mut self, reported: &Reported) -> Option<bool> {
        let expected = self.expected(reported.query)?;
        Some(lines_of(self.alloc, &reported.query, &reported.answer)? == expected)
    }
}

/// The questions of a history, with the readers of their blocks, and the answers.
#[derive(Drop)]
struct Questions {
    /// Of one block.
    small: Reader,
    /// Of 1,024.
    large: Reader,
    /// It counts the blocks.
    counter: Reader,
    blocks: u64,
    asked: Vec<Asked>,
    reported: Vec<Reported>,
}

/// What a turn of a question came to.
#[derive(Drop)]
enum Turned {
    Done(Answer),
    Again,
    Above,
    Failed,
}

// A turn of a question. What its errand asks for is read after more work.
fn turn(both: &mut Both, reader: &mut Reader, cursor: &mut Cursor) -> Turned {
    match both.disk.descend(cursor) {
        Ok(Descent::Done(answer)) => Turned::Done(answer),
        Ok(Descent::Again) => Turned::Again,
        Ok(Descent::Historical(errand)) => {
            let worked = both.work();
            both.counts.read = both.counts.read.saturating_add(1);
            let Ok(mut seen) = both.disk.seen() else {
                return Turned::Failed;
            };
            match errand.finish(both.alloc, reader, &mut seen, cursor) {
                Ok(()) if worked.is_some() => Turned::Again,
                _ => Turned::Failed,
            }
        }
        // Its last moment isn't settled yet: its first turn is still to come.
        Err(AskError::AboveWatermark(_)) => Turned::Above,
        Err(_) => Turned::Failed,
    }
}

impl Questions {
    fn new(alloc: Global, disk: &Made) -> Option<Questions> {
        Some(Questions {
            small: reader_of(disk, 1)?,
            large: reader_of(disk, 1_024)?,
            counter: reader_of(disk, 1)?,
            blocks: 0,
            asked: Vec::new(alloc),
            reported: Vec::new(alloc),
        })
    }

    // The reader of one block, or that of 1,024.
    fn reader(&mut self, small: bool) -> &mut Reader {
        if small {
            &mut self.small
        } else {
            &mut self.large
        }
    }

    fn ask(&mut self, small: bool, cursor: Cursor, blocks: Option<u64>) -> Option<()> {
        let asked = Asked {
            small,
            cursor,
            blocks,
        };
        self.asked.push(asked).ok()
    }

    fn report(&mut self, query: Query, answer: Answer) -> Option<()> {
        self.reported.push(Reported { query, answer }).ok()
    }

    // Begins a question with each reader.
    fn begin(&mut self, both: &mut Both) -> Option<()> {
        let query = both.numbers.query();
        let one = both.disk.start(query);
        let again = one.query();
        let other = both.disk.start(again);
        self.ask(false, one, None)?;
        self.ask(true, other, None)
    }

    // How many blocks are settled.
    fn count(&mut self, both: &mut Both) -> Option<u64> {
        self.blocks = count_blocks(&mut both.disk, &mut self.counter, self.blocks)?;
        Some(self.blocks)
    }

    // A question is answered, and asked once more in one call. It is counted where there are more blocks than at its first turn.
    fn end(
        &mut self,
        both: &mut Both,
        small: bool,
        query: Query,
        answer: Answer,
        blocks: u64,
    ) -> Option<()> {
        if self.count(both)? > blocks {
            both.counts.split = both.counts.split.saturating_add(1);
        }
        let again = answer_with(&mut both.disk, self.reader(small), query)?;
        self.report(query, again)?;
        self.report(query, answer)
    }

    // The next turn of a question, after more work.
    fn go_on(&mut self, both: &mut Both, asked: Asked) -> Option<()> {
        both.work()?;
        let Asked {
            small,
            mut cursor,
            blocks,
        } = asked;
        let count = match blocks {
            Some(count) => count,
            None => self.count(both)?,
        };
        match turn(both, self.reader(small), &mut cursor) {
            Turned::Done(answer) => self.end(both, small, cursor.query(), answer, count),
            Turned::Again => self.ask(small, cursor, Some(count)),
            Turned::Above => self.ask(small, cursor, None),
            Turned::Failed => None,
        }
    }

    // The next turn of each question.
    fn go_on_all(&mut self, both: &mut Both) -> Option<()> {
        let asked = mem::replace(&mut self.asked, Vec::new(both.alloc));
        for one in asked {
            self.go_on(both, one)?;
        }
        Some(())
    }

    // Begins questions in rounds, until all are answered.
    fn ask_all(&mut self, both: &mut Both) -> Option<()> {
        for round in 0..ROUNDS {
            both.give()?;
            self.go_on_all(both)?;
            if round % 2 == 1 && round < 2 * QUESTIONS {
                self.begin(both)?;
            }
            if round >= 2 * QUESTIONS && self.asked.is_empty() {
                return Some(());
            }
        }
        None
    }

    // What the history came to, where each answer is that of the machine.
    fn counted(&self, both: &mut Both) -> Option<Counts> {
        let mut counts = both.counts;
        for reported in &self.reported {
            if !both.agrees(reported)? {
                return None;
            }
            counts = counts.with(reported);
        }
        Some(counts)
    }
}

// What a history came to. None where an answer isn't that of the machine, or a call failed.
fn ran(alloc: Global, seed: u64) -> Option<Counts> {
    let mut both = Both::new(alloc, seed)?;
    let mut questions = Questions::new(alloc, &both.disk)?;
    questions.ask_all(&mut both)?;
    both.counts.changed = count_changed(&mut both, &mut questions.large)?;
    both.settle();
    questions.counted(&mut both)
}

// What the histories from this seed on came to.
fn ran_all(alloc: Global, first: u64) -> Option<Counts> {
    let mut counts = NOTHING;
    for seed in first..first.saturating_add(HISTORIES) {
        counts = counts.and(ran(alloc, seed)?);
    }
    Some(counts)
}

// All questions of the histories from this seed on have the machine's answers. In each history four answers return
// something, two of them after a place or after skipped events, changes are applied twenty times, thirty pages are
// flushed, ten errands are read, and between the first and the last turn of two questions a leaf is split, or more, all taken
// together; and in three spans of them all some spot changed, or more, and a hundred times both went on between two looks.
fn expect_pure(rt: &impl Abort, alloc: Global, first: u64) {
    let counts = ran_all(alloc, first);
    be(rt, counts.is_some(), "answers as the machine's");
    let counts = counts.unwrap_or(NOTHING);
    be(rt, counts.answers == 800, "answers");
    be(rt, counts.reporting >= 200, "answers with rows");
    be(rt, counts.beyond >= 100, "answers after a place");
    be(rt, counts.applied >= 1_000, "steps of applying");
    be(rt, counts.flushed >= 1_500, "pages that are flushed");
    be(rt, counts.read >= 500, "errands that are read");
    be(rt, counts.changed >= 3, "spans in which a spot changed");
    be(rt, counts.walked >= 100, "looks between which both went on");
    be(
        rt,
        counts.split >= 100,
        "questions in which a leaf is split",
    );
}

#[test]
fn the_first_fifty_histories_are_answered_as_by_the_pure_machine(rt: HostRuntime) {
    expect_pure(&rt, rt.alloc(), 0);
}

#[test]
fn the_second_fifty_histories_are_answered_as_by_the_pure_machine(rt: HostRuntime) {
    expect_pure(&rt, rt.alloc(), HISTORIES);
}

#[test]
fn the_third_fifty_histories_are_answered_as_by_the_pure_machine(rt: HostRuntime) {
    expect_pure(&rt, rt.alloc(), 2 * HISTORIES);
}

#[test]
fn the_last_fifty_histories_are_answered_as_by_the_pure_machine(rt: HostRuntime) {
    expect_pure(&rt, rt.alloc(), 3 * HISTORIES);
}
