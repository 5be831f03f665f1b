//! What the head keeps of a collector.

use route_model::Mark;

/// What the head keeps of a collector: how many of its records there were, its mark, and what of its ring is used.
#[derive(Clone, Copy, Debug, PartialEq, Eq)]
pub struct Lane {
    /// How many records were offered.
    pub offered: u64,
    /// How many of them were admitted.
    pub admitted: u64,
    /// Below which moment its records are complete.
    pub mark: Mark,
    /// The place of the first octet of its ring that is used, counted from the ring's first octet.
    pub first: u64,
    /// How many octets of its ring are used.
    pub used: u64,
    /// The number of its first admission whose time is written in the unit of today. Those of lower number that wait are in
    /// whole seconds.
    pub since: u64,
}
