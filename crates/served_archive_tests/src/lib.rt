//! Tests of a served archive: what the commands that read whole tables ask over a connection, and what they print of the replies.
//!
//! A connection is a recording of what is received on it; what is sent is kept. Each module has tables, which one interpreter plays
//! (`playing`): words of a command line, the replies to its lines, and what has to be asked and printed, written by hand from the protocol.
#![tactic(auto)]

#[cfg(test)]
mod ended;
#[cfg(test)]
mod playing;
#[cfg(test)]
mod refused;
#[cfg(test)]
mod talks;

#[cfg(test)]
use std::process::Abort;

/// Ends a test that is wrong, with what was tried. Proofs learn nothing of it, which keeps them short.
#[cfg(test)]
fn be(rt: &impl Abort, holds: bool, name: &str) {
    assert!(rt; holds, "{name}");
}
