//! Look-ups among entries that stand in the order of their stamps.

ghost use Rattle.std.specs.Prelude.{◌≡◌, ◌<◌, ◌≤◌, ◌↔◌, IsTrue, Some, None, true, false, slice_get, MatchOption};
ghost use Rattle.version_model.specs.Versions.{Version, AsOf, Answers, IsRising};
ghost use Rattle.version_model.specs.Entries.{versions_of};
ghost use Rattle.version_model.specs.Looks.{IsLive, IsLeastLive};
ghost use Rattle.version_model.specs.inner.Lower.{IsLower};

use crate::entry::Entry;
use crate::stamp::Stamp;
use route_model::Key;

/// Where the key's version as of the stamp stands.
pub fn place_at(entries: &[Entry], key: Key, stamp: Stamp) -> Option<usize>
    requires rising { IsRising (versions_of entries.now) }
    ensures { MatchOption result ((v : Version) → AsOf (versions_of entries.now) key stamp v → ⊥)
        (λ i. (v : Version) × (slice_get (versions_of entries.now) i ≡ Some v) × AsOf (versions_of entries.now) key stamp v) }
{
    let mut best = None;
    for (i, entry) in entries.iter().enumerate() {
        if entry.key == key && entry.stamp <= stamp {
            best = Some(i);
        }
    }
    best
}

// Has the key a value as of the stamp?
fn is_live(entries: &[Entry], key: Key, stamp: Stamp) -> bool
    requires rising { IsRising (versions_of entries.now) }
    ensures live { result ≡ true → IsLive (versions_of entries.now) stamp key }
    ensures dead { result ≡ false → Answers (versions_of entries.now) key stamp None }
{
    let Some(i) = place_at(entries, key, stamp) else {
        return false;
    };
    let entry = &entries[i];
    entry.value.is_some()
}

/// Is the key below the least one so far?
pub fn is_lower(best: &Option<Key>, key: Key) -> bool
    ensures { IsTrue result ↔ IsLower best.now key }
{
    match best {
        Some(best) => key < *best,
        None => true,
    }
}

/// The least key from `from` on that has a value as of the stamp.
pub fn least_live(entries: &[Entry], from: Key, stamp: Stamp) -> Option<Key>
    requires rising { IsRising (versions_of entries.now) }
    ensures { IsLeastLive (versions_of entries.now) stamp from result }
{
    let mut best = None;
    for entry in entries {
        if entry.key >= from && is_lower(&best, entry.key) && is_live(entries, entry.key, stamp) {
            best = Some(entry.key);
        }
    }
    best
}
