//! What UPDATE messages withdraw and announce.

use route_model::{Prefix, Route};

/// A route, and the prefixes that share it: at least one.
#[derive(Debug, Drop)]
pub struct Announcement {
    pub route: Route,
    pub prefixes: Vec<Prefix>,
}

/// What an UPDATE withdraws and announces (RFC 4271 section 4.3, RFC 4760), by the four places where
/// prefixes are.
#[derive(Debug, Drop)]
pub struct Update {
    /// The withdrawn prefixes of the UPDATE itself, all of IPv4.
    pub withdrawn: Vec<Prefix>,
    /// The prefixes that MP_UNREACH_NLRI withdraws.
    pub unreachable: Vec<Prefix>,
    /// What the UPDATE itself announces: prefixes of IPv4, with the next hop of NEXT_HOP.
    pub announced: Option<Announcement>,
    /// What MP_REACH_NLRI announces, with its own next hop.
    pub reachable: Option<Announcement>,
}
