//! The keys and stamps of a node.

use crate::stamp::Stamp;
use route_model::Key;

/// The keys and stamps of a node: keys from `low` on and below `high`, at stamps from `start` on and below `end`.
/// Without a `high` they are all keys from `low` on; a node without an `end` is current.
#[derive(Clone, Copy, Debug)]
pub struct Bounds {
    pub low: Key,
    pub high: Option<Key>,
    pub start: Stamp,
    pub end: Option<Stamp>,
}
