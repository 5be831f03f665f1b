//! What a list of path attributes represents.

use crate::attribute::ValueOctets;
use route_model::{Aggregator, Attributes, Origin, Path};

/// The path attributes of a message or of a RIB entry, by type. A missing one is none.
#[derive(Debug, Drop)]
pub struct PathAttributes<'a> {
    /// ORIGIN.
    pub origin: Option<Origin>,
    /// AS_PATH, merged with AS4_PATH if AS numbers have two octets (RFC 6793 section 4.2.3).
    pub path: Option<Path>,
    /// NEXT_HOP.
    pub next_hop: Option<[u8; 4]>,
    /// MULTI_EXIT_DISC.
    pub med: Option<u32>,
    /// LOCAL_PREF.
    pub local_pref: Option<u32>,
    /// Whether ATOMIC_AGGREGATE is present.
    pub atomic_aggregate: bool,
    /// AGGREGATOR, or the AS4_AGGREGATOR that replaces it.
    pub aggregator: Option<Aggregator>,
    /// The value of MP_REACH_NLRI, which messages and RIB entries encode in two ways.
    pub reach: Option<ValueOctets<'a>>,
    /// The value of MP_UNREACH_NLRI.
    pub unreach: Option<ValueOctets<'a>>,
    /// The attributes that are kept unread, with the optional, the transitive and the partial flag.
    pub others: Attributes,
}
