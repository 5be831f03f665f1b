//! How much of an archive is used.

use interleaving_core::Resume;
use route_model::Moment;

/// How much of something is used, and how much there is.
#[derive(Clone, Copy, Debug, PartialEq, Eq)]
pub struct Room {
    pub used: u64,
    pub of: u64,
}

/// What is known of a collector.
#[derive(Clone, Copy, Debug, PartialEq, Eq)]
pub struct Lane {
    /// Where its feed goes on.
    pub resume: Resume,
    /// Octets of its ring, of which pending admissions use some.
    pub ring: Room,
}

/// How much of an archive is used.
#[derive(Debug, Drop)]
pub struct Usage {
    /// How many changes are applied.
    pub changes: u64,
    /// The time of the last of them, 0 if there is none.
    pub last: Moment,
    /// Home pages: those that were ever used.
    pub pages: Room,
    /// Blocks of the write-once disk: those that were ever tried.
    pub blocks: Room,
    /// Of each collector, in the order of their numbers.
    pub lanes: Vec<Lane>,
}
