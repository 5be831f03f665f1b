//! The versions of a leaf that are of a place's keys and stamps are counted.

ghost use Rattle.std.specs.Prelude.{◌≡◌, ◌↔◌, ◌<◌, IsTrue};
ghost use Rattle.version_model.specs.Counts.{count_in};
ghost use Rattle.version_model.specs.Entries.{versions_of};
ghost use Rattle.version_model.specs.Ranges.{IsPoint, range_of, high_or, end_or};

use route_model::Key;
use tsb_node::{key_fits, stamp_fits};
use version_model::{Bounds, Entry, Stamp};

// Whether a key is below the high key, if there is one.
fn is_below(key: Key, high: Option<Key>) -> bool
    ensures { IsTrue result ↔ (key < high_or high) }
{
    key_fits(key);
    match high {
        Some(high) => key < high,
        None => true,
    }
}

// Whether a stamp is before the end, if there is one.
fn is_before(stamp: Stamp, end: Option<Stamp>) -> bool
    ensures { IsTrue result ↔ (stamp < end_or end) }
{
    stamp_fits(stamp);
    match end {
        Some(end) => stamp < end,
        None => true,
    }
}

// Whether an entry is of the keys and stamps of bounds.
fn is_inside(bounds: &Bounds, entry: &Entry) -> bool
    ensures { IsTrue result ↔ IsPoint (range_of bounds.now) entry.now.key entry.now.stamp }
{
    let bounds = *bounds;
    let key = entry.key;
    let stamp = entry.stamp;
    bounds.low <= key
        && is_below(key, bounds.high)
        && bounds.start <= stamp
        && is_before(stamp, bounds.end)
}

/// How many entries are of the keys and stamps of bounds.
pub fn count_inside(bounds: &Bounds, entries: &[Entry]) -> u64
    ensures { result ≡ count_in (versions_of entries.now) (range_of bounds.now) }
{
    let mut count = 0u64;
    for entry in entries {
        if is_inside(bounds, entry) {
            count += 1;
        }
    }
    count
}
