//! A life of uses_tests is run: what each act of a script returns.
//!
//! The life is a list of acts on two disks in memory, crashes among them; a table has what each act returns, in the same order.
#![tactic(auto)]

#[cfg(test)]
mod lived;

#[cfg(test)]
use std::process::Abort;

/// Ends a test that is wrong, with what was tried. Proofs learn nothing of it, which keeps them short.
#[cfg(test)]
fn be(rt: &impl Abort, holds: bool, name: &str) {
    assert!(rt; holds, "{name}");
}

/// The same in a loop, with the number of the turn.
#[cfg(test)]
fn be_at(rt: &impl Abort, holds: bool, name: &str, number: u64) {
    assert!(rt; holds, "{name}: {number}");
}
