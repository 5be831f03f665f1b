//! Versions in plain lists, beside which a tree is held.

use super::asking::{are_versions, has, is_next, is_part};
use super::{Octets, Row, Tree};
use std::alloc::Global;
use version_model::Stamp;

/// The versions of each key below a number, in the order of their stamps.
#[derive(Drop)]
pub(super) struct Plain {
    keys: Vec<Vec<Row>>,
}

impl Plain {
    /// Of the keys below a number, none has a version.
    pub(super) fn new(alloc: Global, count: u16) -> Option<Plain> {
        let mut keys = Vec::new(alloc);
        for _ in 0..count {
            keys.push(Vec::new(alloc)).ok()?;
        }
        Some(Plain { keys })
    }

    /// A version more, later than all of the others. None where there is no such key.
    pub(super) fn put(&mut self, key: u16, row: Row) -> Option<()> {
        self.keys.get_mut(usize::from(key))?.push(row).ok()
    }

    /// All versions of a key.
    fn rows(&self, key: u16) -> &[Row] {
        match self.keys.get(usize::from(key)) {
            Some(rows) => rows.as_slice(),
            None => &[],
        }
    }

    /// Since when a key has which value as of a stamp.
    fn find(&self, key: u16, stamp: Stamp) -> Option<(Stamp, Octets)> {
        for row in self.rows(key).iter().rev() {
            if row.0 <= stamp {
                return row.1.map(|value| (row.0, value));
            }
        }
        None
    }

    /// The next key from one on that has a value as of a stamp.
    fn next_key(&self, from: u16, stamp: Stamp) -> Option<(u16, Stamp, Octets)> {
        for key in from..u16::MAX {
            if usize::from(key) >= self.keys.len() {
                return None;
            }
            if let Some((since, value)) = self.find(key, stamp) {
                return Some((key, since, value));
            }
        }
        None
    }
}

/// Whether a tree answers as plain lists do: what a key has as of a stamp, which key is next, and which versions it has from there on, up
/// to a later stamp.
pub(super) fn is_alike(tree: &mut Tree, plain: &Plain, key: u16, stamp: Stamp) -> bool {
    has(tree, key, stamp, plain.find(key, stamp))
        && is_next(tree, key, stamp, plain.next_key(key, stamp))
        && is_part(tree, key, stamp, plain.rows(key))
}

/// Whether a tree has exactly the versions of a key that a plain list has.
pub(super) fn has_all(tree: &mut Tree, plain: &Plain, key: u16) -> bool {
    are_versions(tree, key, plain.rows(key))
}
