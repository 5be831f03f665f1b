//! Splits of entries, by time and by key.

ghost use Rattle.std.specs.Prelude.{◌≡◌, ◌<◌, ◌≤◌, ◌+◌, ◌↔◌, IsTrue, IfOk, IsSome, Some, length, slice_get};
ghost use Rattle.version_model.specs.Versions.{Version, AsOf, IsRising};
ghost use Rattle.version_model.specs.Entries.{versions_of};
ghost use Rattle.version_model.specs.LeafVersions.{IsFrom, IsBelow, IsFromKey};
ghost use Rattle.version_model.specs.Sizes.{octets, octets_below};

use crate::entry::Entry;
use crate::finding::place_at;
use crate::stamp::Stamp;
use route_model::Key;
use std::alloc::{AllocError, Global};

// Is the version at the place a value, and its key's version as of the stamp?
fn is_spanning(entries: &[Entry], i: usize, at: Stamp) -> bool
    requires rising { IsRising (versions_of entries.now) }
    requires in_range { i < length entries.now }
    ensures { (v : Version) → slice_get (versions_of entries.now) i ≡ Some v → (IsTrue result ↔ (AsOf (versions_of entries.now) v.key at v × IsSome v.value)) }
{
    let entry = &entries[i];
    if entry.value.is_none() {
        return false;
    }
    match place_at(entries, entry.key, at) {
        Some(place) => place == i,
        None => false,
    }
}

/// Copies of the versions from a stamp on, and of each value that spans it.
pub fn copies_since(alloc: Global, entries: &[Entry], at: Stamp) -> Result<Vec<Entry>, AllocError>
    requires rising { IsRising (versions_of entries.now) }
    ensures from { IfOk result (λ kept. IsFrom (versions_of entries.now) at (versions_of kept.items)) }
    ensures rising { IfOk result (λ kept. IsRising (versions_of kept.items)) }
    ensures size { IfOk result (λ kept. octets (versions_of kept.items) ≤ octets (versions_of entries.now)) }
    ensures same { IfOk result (λ kept. length (versions_of kept.items) ≡ length (versions_of entries.now) → versions_of kept.items ≡ versions_of entries.now) }
{
    let mut kept = Vec::new(alloc);
    for (i, entry) in entries.iter().enumerate() {
        if entry.stamp >= at || is_spanning(entries, i, at) {
            kept.push(entry.copy()?)?;
        }
    }
    Ok(kept)
}

/// Copies of entries by their keys: those below the key, and those from it on.
pub fn parted(
    alloc: Global,
    entries: &[Entry],
    key: Key,
) -> Result<(Vec<Entry>, Vec<Entry>), AllocError>
    requires rising { IsRising (versions_of entries.now) }
    ensures left { IfOk result (λ sides. IsBelow (versions_of entries.now) key (versions_of sides.0.items) × IsRising (versions_of sides.0.items)) }
    ensures right { IfOk result (λ sides. IsFromKey (versions_of entries.now) key (versions_of sides.1.items) × IsRising (versions_of sides.1.items)) }
    ensures sizes { IfOk result (λ sides. (octets (versions_of sides.0.items) ≡ octets_below key (versions_of entries.now))
        × (octets (versions_of sides.0.items) + octets (versions_of sides.1.items) ≡ octets (versions_of entries.now))) }
{
    let mut left = Vec::new(alloc);
    let mut right = Vec::new(alloc);
    for entry in entries {
        let copy = entry.copy()?;
        if entry.key < key {
            left.push(copy)?;
        } else {
            right.push(copy)?;
        }
    }
    Ok((left, right))
}
