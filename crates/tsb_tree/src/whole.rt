//! A column in memory.

use route_model::Key;
use version_model::{Leaf, Part, Stamp};

/// A column with its current leaf, in memory: its keys, the parts of its past, the stamp where its current leaf starts,
/// and that leaf.
#[derive(Drop)]
pub struct Whole {
    pub low: Key,
    pub high: Option<Key>,
    pub parts: Vec<Part>,
    pub start: Stamp,
    pub leaf: Leaf,
}
