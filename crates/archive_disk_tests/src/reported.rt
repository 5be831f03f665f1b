//! What an archive's calls and the pure machine's steps return, and the state that an archive shows.

use crate::made::MemArchive;
use archive_calls as calls;
use archive_calls::{AdmitError, MarkError, RouteArchive, RouteSource, Trouble};
use interleaving_core::{BatchReply, Reply, Resume, Step};
use route_model::{Admission, Mark};

/// What a call or a step returns.
#[derive(Clone, Copy, PartialEq, Eq)]
pub(crate) enum Reported {
    /// How many records were offered until now, the numbers from which and to below which they are admitted, and how many are late.
    Taken(u64, u64, u64, usize),
    Marked,
    MarkBack,
    NoCollector,
    Applied,
    Idle,
    Flushed,
    Crashed,
    Recovered,
    /// A batch has too many octets, or more than its ring has room for.
    TooLarge,
    IntakeFull,
    /// A device failed.
    Stopped,
    /// Something else was the matter.
    Refused,
}

/// The state that an archive shows, and how many changes are applied.
#[derive(Clone, Copy, PartialEq, Eq)]
pub(crate) struct State {
    pub(crate) first: Option<Resume>,
    pub(crate) second: Option<Resume>,
    pub(crate) settled: Mark,
    pub(crate) applied: u64,
}

pub(crate) fn state_of(archive: &MemArchive, applied: u64) -> State {
    State {
        first: archive.resume(0),
        second: archive.resume(1),
        settled: archive.settled(),
        applied,
    }
}

fn reported_of_batch(reply: &BatchReply) -> Reported {
    let receipt = reply.receipt;
    Reported::Taken(reply.offered, receipt.from, receipt.to, reply.late.len())
}

/// What a reply of the pure machine returns.
pub(crate) fn reported_of(reply: &Reply) -> Reported {
    match reply {
        Reply::Taken(batch) => reported_of_batch(batch),
        Reply::Marked => Reported::Marked,
        Reply::MarkBack => Reported::MarkBack,
        Reply::NoCollector => Reported::NoCollector,
        Reply::Applied => Reported::Applied,
        Reply::Idle => Reported::Idle,
        Reply::Flushed => Reported::Flushed,
        Reply::Crashed => Reported::Crashed,
        Reply::Recovered => Reported::Recovered,
        _ => Reported::Refused,
    }
}

fn trouble_reported(trouble: Trouble) -> Reported {
    match trouble {
        Trouble::Fault => Reported::Stopped,
        _ => Reported::Refused,
    }
}

fn admit(archive: &mut MemArchive, collector: u8, batch: &[Admission]) -> Reported {
    match archive.admit(collector, batch) {
        Ok(reply) => reported_of_batch(&reply),
        Err(AdmitError::Trouble(trouble)) => trouble_reported(trouble),
        Err(AdmitError::NoCollector) => Reported::NoCollector,
        Err(AdmitError::BatchTooLarge) => Reported::TooLarge,
        Err(AdmitError::IntakeFull) => Reported::IntakeFull,
        Err(AdmitError::CounterFull) => Reported::Refused,
    }
}

fn mark(archive: &mut MemArchive, collector: u8, mark: Mark) -> Reported {
    match archive.mark(collector, mark) {
        Ok(()) => Reported::Marked,
        Err(MarkError::MarkBack) => Reported::MarkBack,
        Err(MarkError::NoCollector) => Reported::NoCollector,
        Err(MarkError::Trouble(trouble)) => trouble_reported(trouble),
    }
}

fn apply(archive: &mut MemArchive) -> Reported {
    match archive.apply_step() {
        Ok(calls::Step::Applied) => Reported::Applied,
        Ok(calls::Step::Idle) => Reported::Idle,
        Err(trouble) => trouble_reported(trouble),
    }
}

fn flush(archive: &mut MemArchive) -> Reported {
    match archive.flush_step() {
        Ok(_) => Reported::Flushed,
        Err(trouble) => trouble_reported(trouble),
    }
}

/// Makes the call that a step is of.
pub(crate) fn make(archive: &mut MemArchive, step: &Step) -> Reported {
    match step {
        Step::Admit(collector, batch) => admit(archive, *collector, batch),
        Step::Mark(collector, seconds) => mark(archive, *collector, *seconds),
        Step::Apply(_) => apply(archive),
        Step::Flush => flush(archive),
        _ => Reported::Refused,
    }
}
