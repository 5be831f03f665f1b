//! What MP_REACH_NLRI represents (RFC 4760 section 3).

use crate::attribute::ValueOctets;
use route_model::NextHop;
use route_model::wire::Family;

/// The family, the next hop and the prefixes of MP_REACH_NLRI.
#[derive(Debug, Drop)]
pub(crate) struct Reach<'a> {
    pub(crate) family: Family,
    pub(crate) next_hop: NextHop,
    /// The prefixes, as octets.
    pub(crate) nlri: ValueOctets<'a>,
}
