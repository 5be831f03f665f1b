//! How entries without a next hop are taken.

/// What becomes of a RIB record if an entry has no next hop: neither NEXT_HOP nor MP_REACH_NLRI.
#[derive(Clone, Copy, Debug, PartialEq, Eq)]
pub enum WithoutHop {
    /// The record is refused, with its other entries.
    Refused,
    /// The entry is left out, and the others are kept.
    LeftOut,
}
