//! Tests of route_meaning, changed_prefixes, sequencer and interleaving_core: histories, late records and runs of the machine, by tables
//! worked out by hand and by generated runs.
//!
//! A script is a list of steps and the text of each reply. A generated run follows from a seed: whatever was answered in the middle of it
//! must be what the plain program answers over all that was admitted at its end.
#![tactic(auto)]

#[cfg(test)]
mod changed;
#[cfg(test)]
mod examples;
#[cfg(test)]
mod generated;
#[cfg(test)]
mod meaning;
#[cfg(test)]
mod pages;
#[cfg(test)]
mod said;
#[cfg(test)]
mod sequence;

#[cfg(test)]
use std::process::Abort;

/// Ends a test that is wrong, with what was tried. Proofs learn nothing of it, which keeps them short.
#[cfg(test)]
fn be(rt: &impl Abort, holds: bool, name: &str) {
    assert!(rt; holds, "{name}");
}
