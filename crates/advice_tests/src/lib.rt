//! Tests of the messages for people: which word of a line isn't understood, what a file is that isn't MRT, what is printed after a load.
//!
//! Each module has tables: a case, and the words that are printed of it, written by hand. For lines a table is read by service's
//! `read_request` too: exactly the lines that are requests have no message.
#![tactic(auto)]

#[cfg(test)]
mod files;
#[cfg(test)]
mod lines;
#[cfg(test)]
mod locks;
#[cfg(test)]
mod marks;

#[cfg(test)]
use std::process::Abort;

/// Ends a test that is wrong, with what was tried. Proofs learn nothing of it, which keeps them short.
#[cfg(test)]
fn be(rt: &impl Abort, holds: bool, name: &str) {
    assert!(rt; holds, "{name}");
}
