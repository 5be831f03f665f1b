//! What an archive keeps of itself.

use crate::lane::Lane;
use route_model::Moment;
use std::marker::Model;

/// What an archive keeps of itself on its first home page. Contracts see it as its [contents](Contents).
#[derive(Debug, Drop)]
pub struct Head {
    /// How many changes are applied. The next one has this order number: the first has 0.
    pub applied: u64,
    /// The time of the last change that is applied, 0 if there is none.
    pub last: Moment,
    /// How many changes are applied of the admission that is being applied.
    pub begun: u64,
    /// The first home page that was never used.
    pub fresh: u64,
    /// The first block that was never tried, as far as it is known.
    pub block: u64,
    /// The page of the tree's root.
    pub root: u64,
    /// Of each collector, at most 16.
    pub lanes: Vec<Lane>,
}

impl Model for Head {
    ghost use Rattle.archive_head.specs.Head.{Contents};

    ghost Value = { Contents };

    ghost view = { λ h. record { applied = h.applied; last = h.last; begun = h.begun; fresh = h.fresh; block = h.block; root = h.root; lanes = h.lanes.items } };
}
