//! Tests of an archive on disks in memory that threads share.
//!
//! A scene is data: what is done first, and what each thread does. What all threads admitted and were answered is logged, and compared at
//! the end with the plain program over the lists of all that was admitted. Signals hold a thread between two turns, or in a read of a block, so
//! that calls overlap as the scene needs it. Calls of two threads are data, too (`works`), and what their replies mean is proved.
#![tactic(auto)]

#[cfg(test)]
mod answers;
#[cfg(test)]
mod armed;
#[cfg(test)]
mod armed_disk;
#[cfg(test)]
mod chance;
#[cfg(test)]
mod gates;
#[cfg(test)]
mod logs;
#[cfg(test)]
mod made;
#[cfg(test)]
mod mixing;
#[cfg(test)]
mod named_disk;
#[cfg(test)]
mod parts;
mod playing;
#[cfg(test)]
mod reading;
#[cfg(test)]
mod reopened;
#[cfg(test)]
mod replay;
#[cfg(test)]
mod scenes;
mod sharing;
#[cfg(test)]
mod signals;
mod works;

pub use sharing::{Played, share, share_new};
#[cfg(test)]
use std::process::Abort;
pub use works::{Returned, Work};

/// Ends a test that is wrong, with what was tried. Proofs learn nothing of it, which keeps them short.
#[cfg(test)]
fn be(rt: &impl Abort, holds: bool, name: &str) {
    assert!(rt; holds, "{name}");
}
