//! Tests of questions that are asked turn by turn of an archive on two disks in memory.
//!
//! `examples` is a table of records, request lines and the lines that answer them. `generated` makes histories from seeds, admits and applies
//! more between any two turns, and compares each answer with that of the pure machine. `past` asks
//! of moments that are in blocks, by readers that cache few.
#![tactic(auto)]

#[cfg(test)]
mod asking;
#[cfg(test)]
mod changed;
#[cfg(test)]
mod examples;
#[cfg(test)]
mod generated;
#[cfg(test)]
mod made;
#[cfg(test)]
mod numbers;
#[cfg(test)]
mod past;
#[cfg(test)]
mod said;

#[cfg(test)]
use std::process::Abort;

/// Ends a test that is wrong, with what was tried. Proofs learn nothing of it, which keeps them short.
#[cfg(test)]
fn be(rt: &impl Abort, holds: bool, name: &str) {
    assert!(rt; holds, "{name}");
}
