//! What entries take in a leaf, and the key at which they are split.

ghost use Rattle.std.specs.Prelude.{◌≡◌, ◌<◌, ◌≤◌, ◌^◌, ◌↔◌, IsTrue};
ghost use Rattle.version_model.specs.Versions.{IsAbove, IsRising};
ghost use Rattle.version_model.specs.Entries.{versions_of};
ghost use Rattle.version_model.specs.Sizes.{octets, octets_below, IsSplitPoint};

use crate::entry::{Entry, value_octets};
use crate::finding::is_lower;
use crate::stamp::Stamp;
use route_model::Key;

/// The octets of the entries.
pub fn entries_octets(entries: &[Entry]) -> u64
    requires { octets (versions_of entries.now) < 2 ^ 32 }
    ensures { result ≡ octets (versions_of entries.now) }
{
    let mut sum: u64 = 0;
    for entry in entries {
        sum += 59 + value_octets(&entry.value);
    }
    sum
}

// The octets of the entries of keys below a key.
fn entries_octets_below(entries: &[Entry], key: Key) -> u64
    requires { octets (versions_of entries.now) < 2 ^ 32 }
    ensures { result ≡ octets_below key (versions_of entries.now) }
{
    let mut sum: u64 = 0;
    for entry in entries {
        if entry.key < key {
            sum += 59 + value_octets(&entry.value);
        }
    }
    sum
}

/// Do the entries take at most this many octets?
pub fn are_within(entries: &[Entry], room: u64) -> bool
    ensures { IsTrue result ↔ (octets (versions_of entries.now) ≤ room) }
{
    let mut left = room;
    for entry in entries {
        let value = value_octets(&entry.value);
        if left < 59 || left - 59 < value {
            return false;
        }
        left = left - 59 - value;
    }
    true
}

/// Do the stamps of the entries rise?
pub fn are_rising(entries: &[Entry]) -> bool
    ensures { IsTrue result ↔ IsRising (versions_of entries.now) }
{
    for i in 1..entries.len() {
        if entries[i - 1].stamp >= entries[i].stamp {
            return false;
        }
    }
    true
}

/// The least key of an entry with this many octets below it.
pub fn point_of(entries: &[Entry], least: u64) -> Option<Key>
    requires { octets (versions_of entries.now) < 2 ^ 32 }
    ensures { IsSplitPoint (versions_of entries.now) least result }
{
    let mut best = None;
    for entry in entries {
        if is_lower(&best, entry.key) && entries_octets_below(entries, entry.key) >= least {
            best = Some(entry.key);
        }
    }
    best
}

/// Are all entries before the stamp?
pub fn are_before(entries: &[Entry], stamp: Stamp) -> bool
    ensures { IsTrue result ↔ IsAbove (versions_of entries.now) stamp }
{
    for entry in entries {
        if entry.stamp >= stamp {
            return false;
        }
    }
    true
}
