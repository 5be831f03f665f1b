//! The settings of feeds and loads.

use resolve::WithoutHop;
use route_model::Mark;

/// The settings of a feed.
#[derive(Clone, Copy, Debug, PartialEq, Eq)]
pub struct FeedSettings {
    /// The collector.
    pub collector: u8,
    /// The most admissions of a batch; 0 counts as 1.
    pub limit: usize,
    /// What becomes of entries of RIB records that have no next hop.
    pub rule: WithoutHop,
}

/// How files are loaded.
#[derive(Clone, Copy, Debug, PartialEq, Eq)]
pub struct LoadSettings {
    /// The settings of the feed of each file.
    pub feed: FeedSettings,
    /// The mark that is set once the feed of the last file has ended well.
    pub mark: Option<Mark>,
    /// Whether as many of the files' first admissions are dropped as were offered of the collector until now: for files that together are
    /// the collector's whole feed from its beginning.
    pub resume: bool,
    /// Whether a file whose feed gives cause for doubt ends the load, and no mark is set then, nor one that is in doubt itself.
    pub strict: bool,
}
