//! What a script has an archive do, and what it returned.

use disk_archive::{
    AdmitError, ApplyError, AskError, CheckError, Flush, FlushError, MarkError, Step,
};
use disk_memory::Torn;
use interleaving_core::{Answer, BatchReply};

/// What a crash makes of each range that isn't synced, and of each burn that isn't settled.
#[derive(Clone, Copy)]
pub enum Tear {
    /// What it held before.
    Old,
    /// What was being written.
    New,
    /// Half of it.
    Half,
    /// The commit flag of an open slot.
    Gate,
}

impl Tear {
    /// As the disks know it.
    pub(crate) fn torn(self) -> Torn {
        match self {
            Tear::Old => Torn::Old,
            Tear::New => Torn::New,
            Tear::Half => Torn::Half,
            Tear::Gate => Torn::Gate,
        }
    }
}

/// Where disks stop, from when they begin again after a crash: at which write or sync the erasable one does, or at which burn or settle
/// the other one does.
#[derive(Clone, Copy)]
pub enum Stop {
    Never,
    Erase(u64),
    Once(u64),
}

impl Stop {
    /// The write or sync at which the erasable disk stops. It doesn't come to the last number.
    pub(crate) fn of_erase(self) -> u64 {
        match self {
            Stop::Erase(k) => k,
            _ => u64::MAX,
        }
    }

    /// The burn or settle at which the write-once disk stops.
    pub(crate) fn of_once(self) -> u64 {
        match self {
            Stop::Once(k) => k,
            _ => u64::MAX,
        }
    }
}

/// How an archive comes to be.
#[derive(Clone, Copy)]
pub enum Birth {
    /// It is created.
    Created,
    /// It is created on disks that stop, a crash tears both where they stopped inside that call, or as it ended, and they are opened.
    CutOff(Tear, Stop),
}

/// A number of admissions, of a second or of it and the seconds after it.
#[derive(Clone, Copy)]
pub enum Batch {
    /// Without changes, all of the first second.
    Empty(u8, u32),
    /// Of which each announces a prefix by a large route, a second after another.
    Large(u8, u32),
}

/// What is made of an archive.
#[derive(Clone, Copy)]
pub enum Act {
    /// A collector gives a batch.
    Admit(u8, Batch),
    /// A collector's mark is raised to a second.
    Mark(u8, u32),
    /// A step of applying.
    Apply,
    /// A step of flushing.
    Flush,
    /// All routes of a second are asked for.
    Ask(u32),
    /// The archive is checked.
    Check,
    /// Both disks are taken out of it, a crash tears them, and they are opened until they stop. Where that is refused, another crash
    /// tears them, and they are opened again.
    Crash(Tear, Stop),
    /// A collector gives a batch, and a crash tears both disks where they stopped inside that call, or as it ended. They are opened then.
    CutAdmit(u8, Batch, Tear),
    /// The same of a step of applying.
    CutApply(Tear),
}

/// What an act returned.
#[derive(Drop)]
pub enum Returned {
    Admitted(Result<BatchReply, AdmitError>),
    Marked(Result<(), MarkError>),
    Applied(Result<Step, ApplyError>),
    Flushed(Result<Flush, FlushError>),
    Answered(Result<Answer, AskError>),
    Checked(Result<u64, CheckError>),
    /// Both disks are opened.
    Opened,
    /// Their first opening was refused, and the second one wasn't.
    Reopened,
}

/// An act, and what it returned.
#[derive(Drop)]
pub struct Turn {
    pub act: Act,
    pub returned: Returned,
}
