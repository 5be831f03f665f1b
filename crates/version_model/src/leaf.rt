//! Leaves in memory.

ghost use Rattle.std.specs.Prelude.{◌≡◌, ◌<◌, ◌≤◌, ◌↔◌, ◌+◌, ◌^◌, length, IsTrue, List, [], ◌∷◌, ◌++◌, option_map, IsSome, IfSome, IfOk, OnOk, OnErr, filter};
ghost use Rattle.version_model.specs.Versions.{Version, Answers, IsRising, IsAbove, found_at};
ghost use Rattle.version_model.specs.Entries.{version_of, versions_of};
ghost use Rattle.version_model.specs.Ranges.{end_or};
ghost use Rattle.version_model.specs.LeafVersions.{IsFrom, IsBelow, IsFromKey};
ghost use Rattle.version_model.specs.Looks.{IsLeastLive, is_of};
ghost use Rattle.version_model.specs.Sizes.{octets, octets_below, IsSplitPoint};

use crate::copying::{copies, copies_of};
use crate::entry::Entry;
use crate::finding::{least_live, place_at};
use crate::sizing::{are_before, are_rising, are_within, entries_octets, point_of};
use crate::splitting::{copies_since, parted};
use crate::stamp::Stamp;
use route_model::Key;
use std::alloc::{AllocError, Global};
use std::marker::Model;

/// The versions of a range of keys and stamps, in the order of their stamps. Contracts see it as the list of these.
#[derive(Debug, Drop)]
pub struct Leaf {
    entries: Vec<Entry>,
}

impl Model for Leaf {
    ghost Value = { List Version };

    ghost view = { λ l. versions_of l.entries.items };

    ghost invariant = { λ l. IsRising (versions_of l.entries.items) };
}

impl Leaf {
    /// A leaf without versions.
    pub fn new(alloc: Global) -> Self
        ensures empty { result ≡ [] }
    {
        Leaf {
            entries: Vec::new(alloc),
        }
    }

    /// The leaf of entries whose stamps rise and that take at most `room` octets; none if they don't.
    pub fn of(entries: Vec<Entry>, room: u64) -> Option<Leaf>
        ensures leaf { IfSome result (λ leaf. leaf ≡ versions_of entries.items) }
        ensures exactly { IsSome result ↔ (IsRising (versions_of entries.items) × (octets (versions_of entries.items) ≤ room)) }
    {
        if !are_rising(&entries) || !are_within(&entries, room) {
            return None;
        }
        Some(Leaf { entries })
    }

    /// The value that the key has as of the stamp, and the stamp of its version; none if it has none, or has ended.
    pub fn find(&self, key: Key, stamp: Stamp) -> Option<(Stamp, &Vec<u8>)>
        ensures answers { Answers self.now key stamp (option_map (λ found. found_at found.0 found.1.now.items) result) }
    {
        let Some(i) = place_at(&self.entries, key, stamp) else {
            return None;
        };
        let entry = &self.entries[i];
        match &entry.value {
            Some(value) => Some((entry.stamp, value)),
            None => None,
        }
    }

    /// The least key from `from` on, itself included, that has a value as of the stamp.
    pub fn least_live(&self, from: Key, stamp: Stamp) -> Option<Key>
        ensures least { IsLeastLive self.now stamp from result }
    {
        least_live(&self.entries, from, stamp)
    }

    /// The versions of the key from a stamp on and before the end, ends included, in the order of their stamps.
    pub fn part(
        &self,
        alloc: Global,
        key: Key,
        from: Stamp,
        end: Option<Stamp>,
    ) -> Result<Vec<Entry>, AllocError>
        ensures part { IfOk result (λ part. versions_of part.items ≡ filter (is_of key from (end_or end)) self.now) }
        ensures rising { IsRising self.now }
    {
        copies_of(alloc, &self.entries, key, from, end)
    }

    /// Takes a version that is later than all that it has.
    pub fn insert(&mut self, entry: Entry) -> Result<(), AllocError>
        requires later { IsAbove self.old entry.stamp }
        ensures ok { OnOk result (self.new ≡ self.old ++ version_of entry ∷ []) }
        ensures err { OnErr result (self.new ≡ self.old) }
    {
        self.entries.push(entry)?;
        Ok(())
    }

    /// The entries, in the order of their stamps.
    pub fn entries(&self) -> &[Entry]
        ensures entries { versions_of result.now ≡ self.now }
        ensures rising { IsRising self.now }
    {
        &self.entries
    }

    /// How many versions it has.
    pub fn len(&self) -> usize
        ensures len { result ≡ length self.now }
    {
        self.entries.len()
    }

    /// Whether it has no version.
    pub fn is_empty(&self) -> bool
        ensures empty { IsTrue result ↔ (self.now ≡ []) }
    {
        self.entries.is_empty()
    }

    /// How many octets its entries take.
    pub fn octets(&self) -> u64
        requires fits { octets self.now < 2 ^ 32 }
        ensures octets { result ≡ octets self.now }
    {
        entries_octets(&self.entries)
    }

    /// Whether all its versions are before the stamp.
    pub fn is_before(&self, stamp: Stamp) -> bool
        ensures before { IsTrue result ↔ IsAbove self.now stamp }
    {
        are_before(&self.entries, stamp)
    }

    /// The least key of a version that has this many octets of entries below it, where the leaf is split by key.
    pub fn split_point(&self, least: u64) -> Option<Key>
        requires fits { octets self.now < 2 ^ 32 }
        ensures point { IsSplitPoint self.now least result }
    {
        point_of(&self.entries, least)
    }

    /// The same leaf.
    pub fn copy(&self, alloc: Global) -> Result<Leaf, AllocError>
        ensures same { IfOk result (λ copy. copy ≡ self.now) }
    {
        let entries = copies(alloc, &self.entries)?;
        Ok(Leaf { entries })
    }

    /// The leaf that goes on after a time split: the versions from the stamp on, and a copy of each value that a key has
    /// as of the stamp.
    pub fn since(&self, alloc: Global, at: Stamp) -> Result<Leaf, AllocError>
        ensures from { IfOk result (IsFrom self.now at) }
        ensures size { IfOk result (λ newer. octets newer ≤ octets self.now) }
        ensures same { IfOk result (λ newer. length newer ≡ length self.now → newer ≡ self.now) }
        ensures rising { IfOk result IsRising }
    {
        let entries = copies_since(alloc, &self.entries, at)?;
        Ok(Leaf { entries })
    }

    /// Splits by key: the versions of the keys below it, and those of the keys from it on.
    pub fn split_key(&self, alloc: Global, key: Key) -> Result<(Leaf, Leaf), AllocError>
        ensures split { IfOk result (λ sides. IsBelow self.now key sides.0 × IsFromKey self.now key sides.1) }
        ensures rising { IfOk result (λ sides. IsRising sides.0 × IsRising sides.1) }
        ensures sizes { IfOk result (λ sides. (octets sides.0 ≡ octets_below key self.now) × (octets sides.0 + octets sides.1 ≡ octets self.now)) }
    {
        let (left, right) = parted(alloc, &self.entries, key)?;
        Ok((Leaf { entries: left }, Leaf { entries: right }))
    }
}
