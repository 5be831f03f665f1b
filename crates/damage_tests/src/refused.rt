//! A life in which one call of a disk, or one growth of memory, is refused, and which goes on.

use crate::{be_at, opened};
use disk_archive::OpenError;
use std::process::Abort;
use swept_lives::{
    Act, Both, NOW, Outcome, Played, Stage, apply, check, flush, numbered, set_mark,
};

/// What is refused in a life.
#[derive(Clone, Copy)]
pub(crate) enum Refusal {
    /// A write or a sync of pages.
    Pages,
    /// Another call of a disk.
    Device,
    /// Memory, to the archive or to a disk.
    Memory,
}

/// What is refused in a life, at most once, which of these refusals it is, and whether it came.
#[derive(Clone, Copy)]
pub(crate) struct Trial {
    pub(crate) refusal: Refusal,
    pub(crate) number: u64,
    pub(crate) refused: u64,
}

impl Trial {
    fn is_of_memory(&self) -> bool {
        matches!(self.refusal, Refusal::Memory)
    }

    /// Whether the archive must be opened again, or needn't be, after this refusal.
    fn may_leave(&self, outcome: Outcome, is_down: bool) -> bool {
        match self.refusal {
            Refusal::Pages => is_down,
            Refusal::Device => !is_down,
            Refusal::Memory => !is_down || outcome == Outcome::Fault,
        }
    }

    /// Counts a refusal: it's the only one, and of what may be refused.
    fn refuse(&mut self, rt: &impl Abort, outcome: Outcome) {
        self.refused = self.refused.saturating_add(1);
        let may_be = outcome == Outcome::Fault
            || outcome == Outcome::OutOfMemory && self.is_of_memory();
        let is_one = self.refused == 1 && may_be;
        be_at(
            rt,
            is_one,
            "one refusal, of what may be refused",
            self.number,
        );
    }
}

/// What a refused opening came to.
fn of_open(error: OpenError) -> Outcome {
    match error {
        OpenError::Fault => Outcome::Fault,
        OpenError::OutOfMemory => Outcome::OutOfMemory,
        _ => Outcome::Other,
    }
}

/// Opens the disks; where that is refused, once more on those that were handed back.
fn begin(rt: &impl Abort, trial: &mut Trial, stage: &Stage, disks: Both) -> Played {
    match disks.open(stage.alloc) {
        Ok(archive) => archive,
        Err(handed) => {
            trial.refuse(rt, of_open(handed.error));
            opened(rt, stage, handed.disks)
        }
    }
}

/// Whether the archive must be opened again. It has no collector of this number.
fn is_down(archive: &mut Played) -> bool {
    set_mark(archive, 99, 0) == Outcome::NeedsRecovery
}

/// Makes the first turn of the question of now.
fn begin_asking(stage: &Stage, archive: &mut Played, place: usize) -> Outcome {
    let Some(known) = stage.known.get(place) else {
        return Outcome::Other;
    };
    let Some(asked) = known.answers.get(NOW) else {
        return Outcome::Other;
    };
    let query = &asked.query;
    let mut cursor = archive.archive.start(*query);
    match archive.archive.descend(&mut cursor) {
        Ok(_) => Outcome::Done,
        Err(error) => Outcome::of_ask(error),
    }
}

/// Whether each call that changes or answers something is refused until the archive is opened again, and its state is the one at a place.
fn does_nothing(stage: &Stage, archive: &mut Played, place: usize) -> bool {
    stage.call(archive, &Act::Admit(0, 0)) == Outcome::NeedsRecovery
        && set_mark(archive, 0, 9_999) == Outcome::NeedsRecovery
        && apply(archive) == Outcome::NeedsRecovery
        && flush(archive) == Outcome::NeedsRecovery
        && stage.ask(archive, place, NOW) == Outcome::NeedsRecovery
        && begin_asking(stage, archive, place) == Outcome::NeedsRecovery
        && check(archive, 0) == Outcome::NeedsRecovery
        && stage.is_state(archive, place)
}

/// Makes an act again, which isn't refused then: the archive is as before the next one.
fn make_again(rt: &impl Abort, trial: &Trial, stage: &Stage, archive: &mut Played, number: usize) {
    let is_done = stage.make(archive, number).is_done();
    let is_next = stage.is_state(archive, stage.place_at(number.saturating_add(1)));
    be_at(rt, is_done && is_next, "an act is made again", trial.number);
}

/// Makes an act again where the archive is as before it, and answers so.
fn make_undone(rt: &impl Abort, trial: &Trial, stage: &Stage, archive: &mut Played, number: usize) {
    let is_there = stage.is_at(archive, stage.place_at(number));
    be_at(rt, is_there, "what was answered is answered", trial.number);
    make_again(rt, trial, stage, archive, number);
}

/// An archive that must be opened again returns the state of before, and does nothing. Once it's opened it is as before the act or as after
/// it, and the act is made again where it isn't there.
fn open_again(
    rt: &impl Abort,
    trial: &Trial,
    stage: &Stage,
    mut archive: Played,
    number: usize,
) -> Played {
    let is_idle = does_nothing(stage, &mut archive, stage.place_at(number));
    be_at(rt, is_idle, "it does and answers nothing", trial.number);
    let mut archive = opened(rt, stage, archive.given_up());
    if !stage.is_at(&mut archive, stage.place_at(number.saturating_add(1))) {
        make_undone(rt, trial, stage, &mut archive, number);
    }
    archive
}

/// An act that was refused so changed nothing. Returns whether the archive must be opened again.
fn refuse_act(
    rt: &impl Abort,
    trial: &mut Trial,
    stage: &Stage,
    archive: &mut Played,
    number: usize,
    outcome: Outcome,
) -> bool {
    trial.refuse(rt, outcome);
    let is_same = stage.is_state(archive, stage.place_at(number));
    be_at(rt, is_same, "nothing changed", trial.number);
    let is_down = is_down(archive);
    let may_leave = trial.may_leave(outcome, is_down);
    be_at(
        rt,
        may_leave,
        "whether it must be opened again",
        trial.number,
    );
    is_down
}

/// Makes the rest of an act that was done: where memory was refused, an application may have been of fewer changes, which leaves a state
/// between both.
fn make_rest(
    rt: &impl Abort,
    trial: &mut Trial,
    stage: &Stage,
    archive: &mut Played,
    number: usize,
) {
    let after = stage.place_at(number.saturating_add(1));
    if !stage.is_state(archive, after) {
        let from = stage.place_at(number).saturating_add(1);
        let found = stage.find(archive, from, after);
        trial.refuse(rt, Outcome::OutOfMemory);
        be_at(rt, found.is_some(), "fewer changes", trial.number);
        make_again(rt, trial, stage, archive, number);
    }
}

/// The archive after an act that may be refused.
fn live_on(
    rt: &impl Abort,
    trial: &mut Trial,
    stage: &Stage,
    mut archive: Played,
    number: usize,
) -> Played {
    let outcome = stage.make(&mut archive, number);
    if !outcome.is_done() {
        if refuse_act(rt, trial, stage, &mut archive, number, outcome) {
            return open_again(rt, trial, stage, archive, number);
        }
        make_undone(rt, trial, stage, &mut archive, number);
        return archive;
    }
    make_rest(rt, trial, stage, &mut archive, number);
    archive
}

/// A question of this number is answered as at a place; where it's refused, then the next time.
fn asks(
    rt: &impl Abort,
    trial: &mut Trial,
    stage: &Stage,
    archive: &mut Played,
    place: usize,
    number: usize,
) {
    let outcome = stage.ask(archive, place, number);
    if outcome != Outcome::Done {
        trial.refuse(rt, outcome);
        let is_answered = !is_down(archive) && stage.ask(archive, place, number) == Outcome::Done;
        be_at(rt, is_answered, "a question is answered", trial.number);
    }
}

/// Each question is.
fn asks_all(rt: &impl Abort, trial: &mut Trial, stage: &Stage, archive: &mut Played, place: usize) {
    for number in 0..NOW {
        asks(rt, trial, stage, archive, place, number);
    }
}

/// A check counts all changes; where it's refused, then the next time.
fn checks(rt: &impl Abort, trial: &mut Trial, archive: &mut Played) {
    let changes = archive.archive.applied();
    let outcome = check(archive, changes);
    if outcome != Outcome::Done {
        trial.refuse(rt, outcome);
        let is_counted = !is_down(archive) && check(archive, changes) == Outcome::Done;
        be_at(rt, is_counted, "a check counts changes", trial.number);
    }
}

/// The archive after all acts, in which something may be refused.
fn live_all(rt: &impl Abort, trial: &mut Trial, stage: &Stage, mut archive: Played) -> Played {
    for number in 0..stage.script.acts.len() {
        archive = live_on(rt, trial, stage, archive, number);
        let after = stage.place_at(number.saturating_add(1));
        asks(rt, trial, stage, &mut archive, after, number % NOW);
    }
    archive
}

/// The disks after a life on these in which something may be refused. Each answer is what it has to be.
pub(crate) fn live(rt: &impl Abort, trial: &mut Trial, stage: &Stage, disks: Both) -> Both {
    let mut archive = begin(rt, trial, stage, disks);
    asks_all(rt, trial, stage, &mut archive, 0);
    let mut archive = live_all(rt, trial, stage, archive);
    asks_all(rt, trial, stage, &mut archive, stage.last_place());
    // A check reads all blocks.
    if stage.disks.pen.settled().len() < 100 {
        checks(rt, trial, &mut archive);
    }
    archive.given_up()
}

/// Whether each block was tried once, one after another. A disk that was refused memory for a burn leaves its block blank, and it's given up.
fn are_in_turn(trial: &Trial, disks: &Both) -> bool {
    let may_skip = trial.is_of_memory();
    match numbered(disks.pen.settled(), 0, may_skip) {
        Some(next) => numbered(disks.pen.waiting(), next, may_skip).is_some(),
        None => false,
    }
}

/// A crash after the life leaves the end of one in which nothing is refused.
pub(crate) fn end(rt: &impl Abort, trial: &Trial, stage: &Stage, disks: &Both) {
    be_at(
        rt,
        are_in_turn(trial, disks),
        "blocks in turn",
        trial.number,
    );
    let left = disks.stop(0).expect(rt, "memory");
    let mut archive = opened(rt, stage, left);
    let is_at_end = stage.is_at(&mut archive, stage.last_place());
    be_at(rt, is_at_end, "the end", trial.number);
}
