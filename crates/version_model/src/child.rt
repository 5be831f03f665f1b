//! The children of a key node.

use route_model::Key;

/// A child of a key node: its lowest key, and its page. Its keys end where those of the next one begin.
#[derive(Clone, Copy, Debug)]
pub struct Child {
    pub low: Key,
    pub page: u64,
}
