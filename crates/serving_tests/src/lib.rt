//! Tests of server, serving and progress: the lines of a connection, connections whose octets lie in memory, both ends of
//! connections in one process, over the loopback interface and the admin socket, what ports take and how idle clients end, and
//! the line that says how far a load has come.
#![tactic(auto)]

#[cfg(test)]
mod clients;
#[cfg(test)]
mod commands;
#[cfg(test)]
mod conversations;
#[cfg(test)]
mod doors;
#[cfg(test)]
mod full;
#[cfg(test)]
mod held;
#[cfg(test)]
mod made;
#[cfg(test)]
mod records;
#[cfg(test)]
mod scenes;
#[cfg(test)]
mod screen;
#[cfg(test)]
mod shown;
#[cfg(test)]
mod signals;
#[cfg(test)]
mod sockets;
#[cfg(test)]
mod steps;
#[cfg(test)]
mod visits;
#[cfg(test)]
mod watched;

#[cfg(test)]
use std::process::Abort;

/// Ends a test that is wrong, with what was tried. Proofs learn nothing of it, which keeps them short.
#[cfg(test)]
fn be(rt: &impl Abort, holds: bool, name: &str) {
    assert!(rt; holds, "{name}");
}
