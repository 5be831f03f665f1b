//! Tests of trees of versions, over transactions and shelves on disks in memory: trees that grow, lookups in nodes built by hand and
//! damaged ones, migration of leaves and columns into blocks, questions over stores of versions, and the check of a tree.
#![tactic(auto)]

#[cfg(test)]
mod answers;
#[cfg(test)]
mod blocks;
#[cfg(test)]
mod check;
#[cfg(test)]
mod history;
#[cfg(test)]
mod laid;
#[cfg(test)]
mod look;
#[cfg(test)]
mod lookups;
#[cfg(test)]
mod memory;
#[cfg(test)]
mod migration;
#[cfg(test)]
mod octets;
#[cfg(test)]
mod past;
#[cfg(test)]
mod playing;
#[cfg(test)]
mod script;
#[cfg(test)]
mod sweeps;
#[cfg(test)]
mod tree;

#[cfg(test)]
use std::process::Abort;

/// Ends a test that is wrong, with what was tried. Proofs learn nothing of it, which keeps them short.
#[cfg(test)]
fn be(rt: &impl Abort, holds: bool, name: &str) {
    assert!(rt; holds, "{name}");
}

/// The same in a loop, with the number of the turn.
#[cfg(test)]
fn be_at(rt: &impl Abort, holds: bool, name: &str, number: u64) {
    assert!(rt; holds, "{name}: {number}");
}
