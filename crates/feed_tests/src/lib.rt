//! Tests of mrt_records, bgp_update and resolve: what a feed's records and messages mean, by octets from other sources and tables
//! worked out by hand.
//!
//! A case is a text of hexadecimal digits and what it reads as: values, or the encoding of a route or an admission. Octets with a fault
//! have one fault each. Streams are cut at each place, and fed octet by octet.
#![tactic(auto)]

#[cfg(test)]
mod bgp;
#[cfg(test)]
mod mrt;
#[cfg(test)]
mod resolving;

#[cfg(test)]
use std::alloc::Global;
#[cfg(test)]
use std::process::Abort;

/// Ends a test that is wrong, with what was tried. Proofs learn nothing of it, which keeps them short.
#[cfg(test)]
fn be(rt: &impl Abort, holds: bool, name: &str) {
    assert!(rt; holds, "{name}");
}

/// The octets that a text stands for.
#[cfg(test)]
fn octets(rt: &impl Abort, alloc: Global, text: &str) -> Vec<u8> {
    test_octets::octets(alloc, text).expect(rt, text)
}
