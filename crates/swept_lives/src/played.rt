//! Calls of an archive, each made here alone, of which nothing more is known than what they come to.

use crate::asked::same;
use crate::disks::Played;
use disk_archive::{
    AdmitError, ApplyError, AskError, CheckError, Flush, FlushError, MarkError, Step,
};
use interleaving_core::{Query, Reply, Resume};
use route_model::{Admission, Mark, Moment};

/// What a call came to.
#[derive(Clone, Copy, PartialEq, Eq)]
pub enum Outcome {
    /// It did, or returned, what it has to where nothing is refused.
    Done,
    /// Nothing is left to be done.
    Idle,
    /// A device failed.
    Fault,
    OutOfMemory,
    NeedsRecovery,
    /// The block of this number is damaged.
    Damaged(u64),
    /// Another refusal, or another answer.
    Other,
}

impl Outcome {
    /// Whether a call did what it has to, if there was anything to do.
    pub fn is_done(self) -> bool {
        matches!(self, Outcome::Done | Outcome::Idle)
    }

    /// What a refusal of a question came to.
    pub fn of_ask(error: AskError) -> Outcome {
        match error {
            AskError::Fault => Outcome::Fault,
            AskError::OutOfMemory => Outcome::OutOfMemory,
            AskError::NeedsRecovery => Outcome::NeedsRecovery,
            AskError::Damaged(block) => Outcome::Damaged(block),
            AskError::AboveWatermark(_) | AskError::BadNode(_) => Outcome::Other,
        }
    }
}

/// The state of an archive, beside its answers.
#[derive(Clone, Copy, PartialEq, Eq)]
pub struct State {
    pub first: Option<Resume>,
    pub second: Option<Resume>,
    pub settled: Mark,
    pub applied: u64,
}

fn resume_of(played: &Played, collector: u8) -> Option<Resume> {
    if collector >= played.archive.collectors() {
        return None;
    }
    Some(played.archive.resume(collector))
}

pub fn state_of(played: &Played) -> State {
    State {
        first: resume_of(played, 0),
        second: resume_of(played, 1),
        settled: played.archive.settled(),
        applied: played.archive.applied(),
    }
}

/// Gives a batch of a collector: done where it is acknowledged, and its receipt ends where the collector goes on.
pub(crate) fn give(played: &mut Played, collector: u8, batch: &[Admission]) -> Outcome {
    match played.archive.admit(collector, batch) {
        Ok(reply) => match resume_of(played, collector) {
            Some(resume) if resume.admitted == reply.receipt.to => Outcome::Done,
            _ => Outcome::Other,
        },
        Err(AdmitError::Fault) => Outcome::Fault,
        Err(AdmitError::OutOfMemory) => Outcome::OutOfMemory,
        Err(AdmitError::NeedsRecovery) => Outcome::NeedsRecovery,
        Err(_) => Outcome::Other,
    }
}

/// Sets a collector's mark.
pub fn set_mark(played: &mut Played, collector: u8, seconds: u32) -> Outcome {
    match played
        .archive
        .mark(collector, Mark::at(Moment::from(seconds)))
    {
        Ok(()) => Outcome::Done,
        Err(MarkError::Fault) => Outcome::Fault,
        Err(MarkError::OutOfMemory) => Outcome::OutOfMemory,
        Err(MarkError::NeedsRecovery) => Outcome::NeedsRecovery,
        Err(_) => Outcome::Other,
    }
}

/// Makes a step of applying.
pub fn apply(played: &mut Played) -> Outcome {
    match played.archive.apply_step() {
        Ok(Step::Applied) => Outcome::Done,
        Ok(Step::Idle) => Outcome::Idle,
        Err(ApplyError::Fault) => Outcome::Fault,
        Err(ApplyError::OutOfMemory) => Outcome::OutOfMemory,
        Err(ApplyError::NeedsRecovery) => Outcome::NeedsRecovery,
        Err(_) => Outcome::Other,
    }
}

/// Makes steps of applying until nothing may be applied.
pub fn apply_all(played: &mut Played) -> bool {
    for _ in 0..1_000 {
        if apply(played) == Outcome::Idle {
            return true;
        }
    }
    false
}

/// Makes a step of flushing.
pub fn flush(played: &mut Played) -> Outcome {
    match played.archive.flush_step() {
        Ok(Flush::Flushed) => Outcome::Done,
        Ok(Flush::Clean) => Outcome::Idle,
        Err(FlushError::Fault) => Outcome::Fault,
        Err(FlushError::NeedsRecovery) => Outcome::NeedsRecovery,
    }
}

/// Makes steps of flushing until no page waits to go home.
pub fn flush_all(played: &mut Played) -> bool {
    for _ in 0..1_000 {
        if flush(played) == Outcome::Idle {
            return true;
        }
    }
    false
}

/// Asks a question: done where it is answered so.
pub fn ask(played: &mut Played, query: &Query, expected: &Reply) -> Outcome {
    let answer = played.archive.answer(*query);
    if same(&answer, expected) {
        return Outcome::Done;
    }
    match &answer {
        Ok(_) => Outcome::Other,
        Err(error) => Outcome::of_ask(*error),
    }
}

/// Checks the archive: done where this many changes are counted.
pub fn check(played: &mut Played, changes: u64) -> Outcome {
    match played.archive.check() {
        Ok(count) if count == changes => Outcome::Done,
        Ok(_) | Err(CheckError::BadNode(_)) => Outcome::Other,
        Err(CheckError::Fault) => Outcome::Fault,
        Err(CheckError::OutOfMemory) => Outcome::OutOfMemory,
        Err(CheckError::NeedsRecovery) => Outcome::NeedsRecovery,
        Err(CheckError::Damaged(block)) => Outcome::Damaged(block),
    }
}
