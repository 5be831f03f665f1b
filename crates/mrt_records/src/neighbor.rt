//! Peers as records name them.

use route_model::Address;

/// A BGP speaker that a collector hears, by its address and its AS number.
#[derive(Clone, Copy, Debug, PartialEq, Eq)]
pub struct Neighbor {
    pub address: Address,
    pub as_number: u32,
}
