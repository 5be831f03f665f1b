//! Tests of service and tables as a user sees them: worked examples, over an archive on disks in memory that is opened anew for each
//! command line; and, over the pure machine, what happens if a reader or a writer fails.
//!
//! `scripts` has tables of command lines and of all that they write, worked out by hand; `playing` is their interpreter, and `files` has the
//! records that they name. `commands` and `usage` are tables of command lines and of what clap reads in them.
#![tactic(auto)]

#[cfg(test)]
mod checks;
#[cfg(test)]
mod commands;
#[cfg(test)]
mod damaged;
#[cfg(test)]
mod desk;
#[cfg(test)]
mod disks;
#[cfg(test)]
mod failing;
#[cfg(test)]
mod failures;
#[cfg(test)]
mod feeds;
#[cfg(test)]
mod files;
#[cfg(test)]
mod gathered;
#[cfg(test)]
mod lines;
#[cfg(test)]
mod playing;
#[cfg(test)]
mod pure;
#[cfg(test)]
mod replies;
#[cfg(test)]
mod reports;
#[cfg(test)]
mod running;
#[cfg(test)]
mod samples;
#[cfg(test)]
mod script_lines;
#[cfg(test)]
mod scripts;
#[cfg(test)]
mod usage;

#[cfg(test)]
use std::process::Abort;

/// Ends a test that is wrong, with what was tried. Proofs learn nothing of it, which keeps them short.
#[cfg(test)]
fn be(rt: &impl Abort, holds: bool, name: &str) {
    assert!(rt; holds, "{name}");
}

/// The same, with the number of a line.
#[cfg(test)]
fn be_at(rt: &impl Abort, holds: bool, name: &str, number: u64) {
    assert!(rt; holds, "{name}: {number}");
}
