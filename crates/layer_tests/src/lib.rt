//! Tests of the layers below the tree: disks in memory, the journal with its pool and transactions, rings of admissions, blocks and
//! nodes, and the head of an archive.
#![tactic(auto)]

#[cfg(test)]
mod disks;
#[cfg(test)]
mod head;
#[cfg(test)]
mod journal;
#[cfg(test)]
mod rings;
#[cfg(test)]
mod store;

#[cfg(test)]
use std::process::Abort;

/// Ends a test that is wrong, with what was tried. Proofs learn nothing of it, which keeps them short.
#[cfg(test)]
fn be(rt: &impl Abort, holds: bool, name: &str) {
    assert!(rt; holds, "{name}");
}

/// The same in a loop, with the number of the turn.
#[cfg(test)]
fn be_at(rt: &impl Abort, holds: bool, name: &str, number: u64) {
    assert!(rt; holds, "{name}: {number}");
}
