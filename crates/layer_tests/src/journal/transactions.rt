//! Transactions over a pool on a disk in memory that are stopped at each call.

use super::pool::{Step, begun, opened, play, shown};
use super::{KINDS, OLD, all_torn, made, scripted, torn};
use crate::be_at;
use disk_memory::{Failure, MemErase};
use disk_models::EraseDisk;
use page_journal::Journal;
use page_tx::Tx;
use std::alloc::Global;

/// Steps that are stopped, over a disk on which others were taken before, and the pages after each of their commits.
struct Run {
    before: &'static [Step],
    steps: &'static [Step],
    states: &'static [[u8; 4]],
    /// At how many reads, syncs and writes it can be stopped.
    reads: u64,
    syncs: u64,
    writes: u64,
}

/// Takes steps until one is refused. Counts the commits that were done.
fn play_until_refused(
    alloc: Global,
    mut tx: Tx<MemErase>,
    steps: &[Step],
    done: &mut usize,
) -> MemErase {
    for step in steps {
        if play(alloc, &mut tx, *step).is_err() {
            break;
        }
        if matches!(step, Step::Commit) {
            *done = done.saturating_add(1);
        }
    }
    tx.into_pool().into_disk()
}

/// The same of a disk that is opened, where that isn't refused.
fn played(alloc: Global, disk: MemErase, steps: &[Step], done: &mut usize) -> Option<MemErase> {
    match Journal::open(alloc, disk) {
        Ok(journal) => Some(play_until_refused(alloc, begun(alloc, journal, 2)?, steps, done)),
        Err(refused) => Some(refused.disk),
    }
}

/// The n-th read, sync or write fails. A write is torn in one of the ways.
fn failure(alloc: Global, kind: u8, n: u64) -> Option<Failure> {
    Some(match kind {
        0 => Failure::Read(n),
        1 => Failure::Sync(n),
        _ => Failure::Write(n, torn(alloc, kind.saturating_sub(2)).ok()?),
    })
}

/// The pages after a crash.
fn left_by(alloc: Global, disk: &MemErase, kind: u8) -> Option<[u8; 4]> {
    let left = disk.crash(&all_torn(alloc, kind, 8).ok()?).ok()?;
    shown(&mut opened(alloc, left, 2)?).ok()
}

/// Whether after each crash the pages are those of the first `done` commits, or of the next one too.
fn is_left(alloc: Global, disk: &MemErase, run: &Run, done: usize) -> bool {
    for kind in 0..KINDS {
        let left = left_by(alloc, disk, kind);
        let mut states = run.states.iter().skip(done).take(2);
        if !states.any(|pages| Some(*pages) == left) {
            return false;
        }
    }
    true
}

/// A run whose n-th call of a kind fails. Whether that was reached; none where another page than those of the commits was left.
fn is_stopped(alloc: Global, disk: &MemErase, run: &Run, kind: u8, n: u64) -> Option<bool> {
    let disk = scripted(alloc, disk.copy().ok()?, failure(alloc, kind, n)?)?;
    let mut done = 0;
    let disk = played(alloc, disk, run.steps, &mut done)?;
    let reached = disk.faults() > 0;
    if !reached {
        done = run.states.len().saturating_sub(1);
    }
    if is_left(alloc, &disk, run, done) {
        Some(reached)
    } else {
        None
    }
}

/// At how many calls of a kind the run was stopped. None where another page than those of the commits was left.
fn stops(alloc: Global, disk: &MemErase, run: &Run, kind: u8) -> Option<u64> {
    for n in 0..100u64 {
        if !is_stopped(alloc, disk, run, kind, n)? {
            return Some(n);
        }
    }
    None
}

/// Whether a run is stopped at as many calls of each kind as it says.
fn is_stopped_so(alloc: Global, run: &Run) -> Option<bool> {
    let disk = played(alloc, made(alloc)?, run.before, &mut 0)?;
    for kind in 0..KINDS + 2 {
        let expected = match kind {
            0 => run.reads,
            1 => run.syncs,
            _ => run.writes,
        };
        if stops(alloc, &disk, run, kind)? != expected {
            return Some(false);
        }
    }
    Some(true)
}

const RUNS: [Run; 4] = [
    // Commits of one page, each flushed, and a checkpoint.
    Run {
        before: &[],
        steps: &[
            Step::Set(1, 21),
            Step::Commit,
            Step::Flush,
            Step::Set(1, 31),
            Step::Commit,
            Step::Flush,
            Step::Checkpoint,
        ],
        states: &[OLD, [10, 21, 12, 13], [10, 31, 12, 13]],
        reads: 9,
        syncs: 9,
        writes: 10,
    },
    // Two pages are dirty, and one of them waits for the checkpoint.
    Run {
        before: &[],
        steps: &[
            Step::Set(1, 21),
            Step::Commit,
            Step::Set(1, 31),
            Step::Set(2, 41),
            Step::Commit,
            Step::Flush,
            Step::Checkpoint,
        ],
        states: &[OLD, [10, 21, 12, 13], [10, 31, 41, 13]],
        reads: 9,
        syncs: 9,
        writes: 11,
    },
    // One commit of two pages.
    Run {
        before: &[],
        steps: &[Step::Set(1, 21), Step::Set(2, 22), Step::Commit],
        states: &[OLD, [10, 21, 22, 13]],
        reads: 9,
        syncs: 4,
        writes: 4,
    },
    // An opening with three open slots, two of them with the same page.
    Run {
        before: &[
            Step::Set(1, 31),
            Step::Commit,
            Step::Set(2, 41),
            Step::Commit,
            Step::Set(1, 32),
            Step::Commit,
        ],
        steps: &[],
        states: &[[10, 32, 41, 13]],
        reads: 21,
        syncs: 5,
        writes: 6,
    },
];

#[test]
fn a_run_that_is_stopped_leaves_each_commit_whole(rt: HostRuntime) {
    for (n, run) in RUNS.iter().enumerate() {
        be_at(
            &rt,
            is_stopped_so(rt.alloc(), run) == Some(true),
            "a run",
            n as u64,
        );
    }
}
