//! Tests of web: what requests of HTTP are answered, by connections whose octets lie in memory.
//!
//! A table has what a client sends, how each answer begins, and texts that occur in it (`asked`). Each connection is played with all octets at
//! once and with one at a time, over one archive on disks in memory. `pages` makes requests of given sizes and follows long answers.
#![tactic(auto)]

#[cfg(test)]
mod asked;
#[cfg(test)]
mod conversations;
#[cfg(test)]
mod made;
#[cfg(test)]
mod pages;
#[cfg(test)]
mod playing;
#[cfg(test)]
mod records;

#[cfg(test)]
use std::process::Abort;

/// Ends a test that is wrong, with what was tried. Proofs learn nothing of it, which keeps them short.
#[cfg(test)]
fn be(rt: &impl Abort, holds: bool, name: &str) {
    assert!(rt; holds, "{name}");
}
