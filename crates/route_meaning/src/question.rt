//! Questions of a history, and the rows and events of their answers.

use route_model::{Address, Change, Moment, Peer, Prefix, SharedRoute};

/// Which rows to return.
#[derive(Clone, Copy, Debug, PartialEq, Eq)]
pub enum Select {
    /// The route of one peer for one prefix.
    Route(Peer, Prefix),
    /// Every peer's route for the prefix.
    ByPrefix(Prefix),
    /// Every peer's route for each prefix that contains the address.
    Covering(Address),
    /// All routes of the peer.
    PeerTable(Peer),
    /// All routes of all peers.
    All,
}

/// A prefix of a peer: the place of a row.
#[derive(Clone, Copy, Debug, PartialEq, Eq, PartialOrd, Ord)]
pub struct Spot {
    pub peer: Peer,
    pub prefix: Prefix,
}

/// A question of one moment: the rows that lie strictly above a spot, or all if there is none.
#[derive(Clone, Copy, Debug, PartialEq, Eq)]
pub struct RowsQuestion {
    pub moment: Moment,
    pub select: Select,
    pub after: Option<Spot>,
}

/// A range of rows: those that a question selects which lie strictly above one spot and not above
/// another.
#[derive(Clone, Copy, Debug, PartialEq, Eq)]
pub struct RowsRange {
    pub select: Select,
    /// From strictly above this spot, or from the first.
    pub low: Option<Spot>,
    /// Up to this spot, itself included, or to the last.
    pub high: Option<Spot>,
}

/// A question of what a peer reported for a prefix from one moment to another, both included,
/// without the first `skip` events.
#[derive(Clone, Copy, Debug, PartialEq, Eq)]
pub struct EventsQuestion {
    pub from: Moment,
    pub to: Moment,
    pub peer: Peer,
    pub prefix: Prefix,
    pub skip: u64,
}

/// A question of which prefixes of which peers were announced or withdrawn from one moment to another, both included: the spots
/// that lie strictly above one, or all if there is none.
#[derive(Clone, Copy, Debug, PartialEq, Eq)]
pub struct ChangedQuestion {
    pub from: Moment,
    pub to: Moment,
    /// The first prefix that is asked for, by family, address and length.
    pub low: Prefix,
    /// The last one, itself included.
    pub high: Prefix,
    pub after: Option<Spot>,
}

/// The maximum number of rows, of events, or of spots, in an answer.
pub const MAX_ROWS: usize = 256;

/// A row of an answer: the route that holds for the prefix of the peer.
#[derive(Debug, Drop)]
pub struct Row {
    pub peer: Peer,
    pub prefix: Prefix,
    pub route: SharedRoute,
}

/// A change that a peer reported, and when, in microseconds since 1970-01-01T00:00:00Z.
#[derive(Debug, Drop)]
pub struct Event {
    pub time: Moment,
    pub change: Change,
}

/// The answer to a question of a moment: at most [`MAX_ROWS`] rows.
#[derive(Debug, Drop)]
pub struct RowsAnswer {
    pub rows: Vec<Row>,
    /// Do more rows follow? They are above the last of these.
    pub more: bool,
}

/// The answer to a question of a history: at most [`MAX_ROWS`] events.
#[derive(Debug, Drop)]
pub struct EventsAnswer {
    pub events: Vec<Event>,
    /// Do more events follow? They come where these are skipped too.
    pub more: bool,
}

/// The answer to a question of what changed: at most [`MAX_ROWS`] spots, in the order of rows.
#[derive(Debug, Drop)]
pub struct ChangedAnswer {
    pub spots: Vec<Spot>,
    /// Do more spots follow? They are above the last of these.
    pub more: bool,
}
