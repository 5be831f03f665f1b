//! Tests of archives on two disks in memory: how they are created and opened, and what their calls return one after another, compared
//! with the pure machine.
#![tactic(auto)]

#[cfg(test)]
mod asked;
#[cfg(test)]
mod checked;
#[cfg(test)]
mod crashed;
#[cfg(test)]
mod created;
#[cfg(test)]
mod disks;
#[cfg(test)]
mod drawn;
#[cfg(test)]
mod given;
#[cfg(test)]
mod made;
#[cfg(test)]
mod mixed;
#[cfg(test)]
mod model;
#[cfg(test)]
mod opened;
#[cfg(test)]
mod playing;
#[cfg(test)]
mod reported;
#[cfg(test)]
mod scripts;

#[cfg(test)]
use std::process::Abort;

/// Ends a test that is wrong, with what was tried. Proofs learn nothing of it, which keeps them short.
#[cfg(test)]
fn be(rt: &impl Abort, holds: bool, name: &str) {
    assert!(rt; holds, "{name}");
}
