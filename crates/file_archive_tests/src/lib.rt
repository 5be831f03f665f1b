//! Tests of archives in folders: what creating one leaves there, what opening one reports, and what stays over a reopening.
//!
//! Each test has a folder of its own in the system, named by test and process. Some write other octets into its files first, or hold them.
//! `session` is a table of commands, each of which opens the archive anew, and of the lines that it writes; `damaged` one of octets that are
//! changed, and of what is shown then.
#![tactic(auto)]

#[cfg(test)]
mod created;
#[cfg(test)]
mod damaged;
#[cfg(test)]
mod folders;
#[cfg(test)]
mod opened;
#[cfg(test)]
mod session;

#[cfg(test)]
use std::process::Abort;

/// Ends a test that is wrong, with what was tried. Proofs learn nothing of it, which keeps them short.
#[cfg(test)]
fn be(rt: &impl Abort, holds: bool, name: &str) {
    assert!(rt; holds, "{name}");
}
