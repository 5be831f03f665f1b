//! A small store of versions: a list, of which those before a stamp may lie in a block.

ghost use Rattle.std.specs.Prelude.{ℕ, List, Option};
ghost use Rattle.version_model.specs.Versions.{Version};
ghost use Rattle.version_model.specs.Blocks.{BlockNode};

use crate::memory::{located_in, shelf_of};
use disk_memory::{MemOnce, MemSeen};
use disk_models::Block;
use once_store::{ShelfReader, seal};
use route_history::{Versions, version_of_change};
use route_model::{Change, Key, Moment};
use std::alloc::{AllocError, Global};
use tsb_walk::{Found, KeyVersions, Looked, NodeError, Parted, Reached};
use version_model::{Bounds, Entry, Part, PartKind, Place, Stamp};

/// Versions in the order of their stamps. Each lookup goes over all of them.
#[derive(Drop)]
pub(super) struct ListStore {
    alloc: Global,
    entries: Vec<Entry>,
    /// A lookup of the next key stops at this key.
    border: Option<Key>,
    /// Where the versions before a stamp lie.
    past: Option<Place>,
}

impl ListStore {
    pub(super) fn new(alloc: Global) -> ListStore {
        ListStore {
            alloc,
            entries: Vec::new(alloc),
            border: None,
            past: None,
        }
    }

    /// Looks stop at this key from now on.
    pub(super) fn stop_at(&mut self, border: Key) {
        self.border = Some(border);
    }

    /// The versions of the keys below the high one and before the end lie in block 0 from now on.
    pub(super) fn lay_down(&mut self, place: Place) {
        self.past = Some(place);
    }

    /// Adds the version of the next change.
    pub(super) fn apply(&mut self, time: Moment, change: &Change) -> Option<()> {
        let order = self.entries.len() as u64;
        let entry = version_of_change(self.alloc, time, order, change).ok()?;
        self.entries.push(entry).ok()
    }

    /// The newest version of the key that isn't after the stamp.
    fn as_of(&self, key: Key, stamp: Stamp) -> Option<&Entry> {
        let mut newest = None;
        for entry in &self.entries {
            if entry.key == key && entry.stamp <= stamp {
                newest = Some(entry);
            }
        }
        newest
    }

    /// Whether the key has a value as of the stamp.
    fn is_live(&self, key: Key, stamp: Stamp) -> bool {
        match self.as_of(key, stamp) {
            Some(entry) => entry.value.is_some(),
            None => false,
        }
    }

    /// The least key from this one on that has a value as of the stamp.
    fn next_live(&self, from: Key, stamp: Stamp) -> Option<Key> {
        let mut least: Option<Key> = None;
        for entry in &self.entries {
            let key = entry.key;
            let is_lower = match &least {
                Some(least) => key < *least,
                None => true,
            };
            if from <= key && is_lower && self.is_live(key, stamp) {
                least = Some(key);
            }
        }
        least
    }

    /// What is found from this key on.
    fn reach(&self, from: Key, stamp: Stamp) -> Result<Reached, NodeError> {
        let Some(key) = self.next_live(from, stamp) else {
            return Ok(Reached::End);
        };
        if let Some(border) = self.border
            && from < border
            && border <= key
        {
            return Ok(Reached::Past(border));
        }
        let Some(entry) = self.as_of(key, stamp) else {
            return Ok(Reached::End);
        };
        let Some(value) = &entry.value else {
            return Ok(Reached::End);
        };
        Ok(Reached::At(
            key,
            Found {
                stamp: entry.stamp,
                value: value.clone()?,
            },
        ))
    }

    /// The versions of the key from the stamp on.
    fn versions(&self, key: Key, from: Stamp) -> Result<KeyVersions, NodeError> {
        let mut entries = Vec::new(self.alloc);
        for entry in &self.entries {
            if entry.key == key && from <= entry.stamp {
                keep(&mut entries, entry.copy()?)?;
            }
        }
        Ok(KeyVersions {
            entries,
            reported: None,
        })
    }

    /// The octets of a leaf of these versions.
    fn block(&self, place: &Place) -> Option<Block> {
        let mut block = Block::new(self.alloc).ok()?;
        let mut at = 120usize;
        let mut count = 0u16;
        for entry in &self.entries {
            if located_in(&place.bounds, entry.key, entry.stamp) {
                at = put_entry(&mut block, at, entry)?;
                count = count.saturating_add(1);
            }
        }
        let used = at.saturating_sub(120).min(65_535) as u16;
        put_header(&mut block, place, count, used)?;
        seal(&mut block);
        Some(block)
    }
}

/// Puts what a leaf begins with: its highest key, its end, and how many entries it has, of `used` octets.
fn put_header(block: &mut Block, place: &Place, count: u16, used: u16) -> Option<()> {
    let Some(high) = place.bounds.high else {
        return None;
    };
    let Some(end) = place.bounds.end else {
        return None;
    };
    // A leaf, whose times are in microseconds.
    put(block, 0, &[1, 1])?;
    put(block, 4, &count.to_be_bytes())?;
    put(block, 6, &used.to_be_bytes())?;
    put(block, 48, &high.to_octets())?;
    put(block, 104, &stamp_octets(end))
}

/// Puts the value of an entry from a place on, where it has one. It returns where the entry ends.
fn put_value(block: &mut Block, at: usize, entry: &Entry) -> Option<usize> {
    let end = at.checked_add(3)?;
    let Some(value) = &entry.value else {
        return Some(end);
    };
    let len = value.len().min(65_535) as u16;
    put(block, at, &[1])?;
    put(block, at.checked_add(1)?, &len.to_be_bytes())?;
    put(block, end, value.as_slice())?;
    end.checked_add(value.len())
}

/// Puts an entry from a place on. It returns where it ends.
fn put_entry(block: &mut Block, at: usize, entry: &Entry) -> Option<usize> {
    put(block, at, &entry.key.to_octets())?;
    put(block, at.checked_add(40)?, &stamp_octets(entry.stamp))?;
    put_value(block, at.checked_add(56)?, entry)
}

/// Puts one more after the others.
fn keep(entries: &mut Vec<Entry>, entry: Entry) -> Result<(), AllocError> {
    entries.push(entry)?;
    Ok(())
}

fn stamp_octets(stamp: Stamp) -> [u8; 16] {
    let mut octets = [0u8; 16];
    octets[8..].copy_from_slice(&stamp.order().to_be_bytes());
    octets[..8].copy_from_slice(&stamp.time().to_be_bytes());
    octets
}

/// Puts octets at a place. None where the block ends before.
fn put(block: &mut Block, place: usize, octets: &[u8]) -> Option<()> {
    if place > 16_000 || octets.len() > 300 {
        return None;
    }
    block.put(place, octets);
    Some(())
}

/// A place of the keys below a high one, from the beginning to an end, in a leaf in block 0.
pub(super) fn place_of(high: Key, end: Stamp) -> Place {
    Place {
        bounds: Bounds {
            low: Key::from_octets(&[0; 40]),
            high: Some(high),
            start: Stamp::new(0, 0),
            end: Some(end),
        },
        part: Part {
            start: Stamp::new(0, 0),
            kind: PartKind::LeafBlock,
            block: 0,
        },
    }
}

/// A reader of blocks, with what is seen of them.
#[derive(Drop)]
pub(super) struct Past {
    pub(super) reader: ShelfReader<MemOnce>,
    pub(super) seen: MemSeen,
}

impl Past {
    /// A shelf with one block: the versions of a store that lie in a place, read by a reader that keeps `capacity` blocks.
    pub(super) fn of(
        alloc: Global,
        store: &ListStore,
        place: &Place,
        capacity: usize,
    ) -> Option<Past> {
        if capacity == 0 || capacity > 1024 {
            return None;
        }
        let mut shelf = shelf_of(alloc, 2, Vec::new(alloc))?;
        let block = store.block(place)?;
        shelf.append(&block).ok()?;
        let seen = shelf.seen().ok()?;
        let reader = shelf.reader(alloc, capacity).ok()?;
        Some(Past { reader, seen })
    }
}

impl Versions for ListStore {
    // Of a store of tests nothing is proved.
    ghost represents_all = { λ store blocks all. ⊥ };

    fn next(&mut self, from: Key, stamp: Stamp) -> Result<Looked, NodeError> {
        if let Some(place) = self.past
            && located_in(&place.bounds, from, stamp)
        {
            return Ok(Looked::InBlock(place));
        }
        Ok(Looked::Here(self.reach(from, stamp)?))
    }

    fn part(&mut self, key: Key, from: Stamp) -> Result<Parted, NodeError> {
        if let Some(place) = self.past
            && located_in(&place.bounds, key, from)
        {
            return Ok(Parted::InBlock(place));
        }
        Ok(Parted::Here(self.versions(key, from)?))
    }
}
