//! Tests of route_model, route_text and line_reader: values, their octets, keys and texts, and lines of a connection, by values from
//! other sources and tables worked out by hand.
//!
//! A row of a table has a value and its octets or text, and is read and written. Others have octets or texts that no value has, by kind of fault.
//! Lines are read at once and octet by octet, of readers that are interrupted or fail.
#![tactic(auto)]

#[cfg(test)]
mod lines;
#[cfg(test)]
mod model;
#[cfg(test)]
mod readers;
#[cfg(test)]
mod text;

#[cfg(test)]
use std::process::Abort;

/// Ends a test that is wrong, with what was tried. Proofs learn nothing of it, which keeps them short.
#[cfg(test)]
fn be(rt: &impl Abort, holds: bool, name: &str) {
    assert!(rt; holds, "{name}");
}
