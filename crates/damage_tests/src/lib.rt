//! What the disks of an archive hold is damaged, one call of a disk fails, or memory is refused once: each call then returns what it has to,
//! and a life goes on to the same end.
//!
//! The lives are data of swept_lives, which one interpreter plays on an archive on two disks in memory. Octets of pages and blocks are
//! changed: each question returns, and an opening is refused by name. Each call of a disk in these lives fails once, alone: the call of
//! the archive that met it returns `Fault`, `NeedsRecovery` follows if it was a write or a sync, what was answered stays, the next burn
//! is of the next block, and the life goes on. The tests compare the counts (docs/BENCHMARKS.md). Memory is refused by
//! tools/refuse-memory, which runs a test here once for each allocation, with another malloc.
#![tactic(auto)]

#[cfg(test)]
mod blocks;
#[cfg(test)]
mod failing;
#[cfg(test)]
mod failures;
#[cfg(test)]
mod memory;
#[cfg(test)]
mod octets;
#[cfg(test)]
mod refused;

#[cfg(test)]
use std::process::Abort;
#[cfg(test)]
use swept_lives::{Both, Played, Stage};

/// Ends a test that is wrong, with what was tried. Proofs learn nothing of it, which keeps them short.
#[cfg(test)]
fn be_at(rt: &impl Abort, holds: bool, name: &str, number: u64) {
    assert!(rt; holds, "{name}: {number}");
}

/// The archive on these disks.
#[cfg(test)]
fn opened(rt: &impl Abort, stage: &Stage, disks: Both) -> Played {
    match disks.open(stage.alloc) {
        Ok(archive) => archive,
        Err(_) => panic!(rt; "the disks are refused"),
    }
}

/// The same disks once more.
#[cfg(test)]
fn copied(rt: &impl Abort, disks: &Both) -> Both {
    disks.copy().expect(rt, "memory")
}
