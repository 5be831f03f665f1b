//! A whole life of an archive on two disks in memory is cut off at each call that writes, and so is each opening after it. What a crash
//! leaves then is compared with the pure machine, and the life goes on from there.
//!
//! The two lives are data of swept_lives, which one interpreter plays. Each is stopped at each write, sync, burn and settle in five ways:
//! by a crash that leaves each unsynced range as it was, as it was to be, half of it, or A5 in every octet, and by the program's end
//! alone. What is left answers all questions as the pure machine does, and goes on to the same end. The opening after each stop is cut
//! off at each of its own writes and syncs too; after that one question in turn is asked, and all of now. The tests compare the counts
//! (docs/BENCHMARKS.md).
#![tactic(auto)]

#[cfg(test)]
mod lives;
#[cfg(test)]
mod older;
#[cfg(test)]
mod stops;
#[cfg(test)]
mod sweeps;

#[cfg(test)]
use std::process::Abort;

/// Ends a test that is wrong, with what was tried. Proofs learn nothing of it, which keeps them short.
#[cfg(test)]
fn be(rt: &impl Abort, holds: bool, name: &str) {
    assert!(rt; holds, "{name}");
}

/// The same in a loop, with the number of the turn.
#[cfg(test)]
fn be_at(rt: &impl Abort, holds: bool, name: &str, number: u64) {
    assert!(rt; holds, "{name}: {number}");
}
