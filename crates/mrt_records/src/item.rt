//! What records are reported as.

use crate::entries::RibEntries;
use crate::neighbor::Neighbor;
use route_model::wire::AsWidth;
use route_model::{Moment, Prefix};

/// What a record of a stream is reported as. It owns its octets.
#[derive(Debug, Drop)]
pub enum Item {
    /// A BGP message that a collector received (RFC 6396 sections 4.4.2 and 4.4.3).
    Message {
        time: Moment,
        peer: Neighbor,
        /// How many octets the AS numbers of the message have.
        width: AsWidth,
        /// The whole message, from its marker on.
        octets: Vec<u8>,
    },
    /// A session came to a new state (RFC 6396 sections 4.4.1 and 4.4.4): 1 Idle, 2 Connect, 3 Active,
    /// 4 OpenSent, 5 OpenConfirm, 6 Established; other numbers are reported as they are.
    StateChange {
        time: Moment,
        peer: Neighbor,
        state: u16,
    },
    /// The peers to which later RIB records refer by their places, from 0 (RFC 6396 section 4.3.1).
    PeerTable(Vec<Neighbor>),
    /// The routes of a prefix, one for each entry (RFC 6396 section 4.3.2).
    Rib {
        time: Moment,
        prefix: Prefix,
        entries: RibEntries,
    },
    /// A record of another type or subtype. Its body isn't looked at.
    Skipped {
        kind: u16,
        subtype: u16,
    },
    /// A record whose body doesn't have the form of its type and subtype.
    Malformed {
        kind: u16,
        subtype: u16,
    },
}
