//! The keys of a leaf that have a value as of a stamp, one after another.

ghost use Rattle.std.specs.Prelude.{◌≡◌, ◌≤◌, ◌↔◌, length, IsTrue, IfOk, OnOk, Some, Err, ℕ, List};
ghost use Rattle.std.specs.BTreeMap.{Updates};
ghost use Rattle.std.specs.Ordering.{nat_cmp};
ghost use Rattle.version_model.specs.Versions.{Version, IsRising};
ghost use Rattle.version_model.specs.Ranges.{Range, IsPoint, high_or};
ghost use Rattle.version_model.specs.LeafVersions.{LeafRepresents};
ghost use Rattle.version_model.specs.Entries.{versions_of};
ghost use Rattle.tsb_node.specs.Leaves.{LeafNode, BeginsAsLeaf};
ghost use Rattle.tsb_runs.specs.Runs.{AreLive, IsRun};
ghost use Rattle.tsb_runs.specs.inner.Latest.{AreLatest};

use route_model::Key;
use std::alloc::{AllocError, Global};
use std::collections::BTreeMap;
use tsb_node::{ReadFault, entries_in, key_fits};
use tsb_walk::Found;
use version_model::{Entry, Stamp};

/// A key that has a value, and what it has.
#[derive(Debug, Drop)]
pub struct LiveKey {
    pub key: Key,
    pub found: Found,
}

/// All keys that have a value, from the one where a look began and below `high`, in their order. Without a high key they are all
/// from there on.
#[derive(Debug, Drop)]
pub struct Run {
    pub rows: Vec<LiveKey>,
    pub high: Option<Key>,
}

// Whether an entry is of a key from `from` on and isn't after the stamp.
fn counts(entry: &Entry, from: Key, stamp: Stamp) -> bool
    ensures { IsTrue result ↔ ((from ≤ entry.now.key) × (entry.now.stamp ≤ stamp)) }
{
    from <= entry.key && entry.stamp <= stamp
}

// Puts an entry in place of an earlier one of its key.
fn put(latest: &mut BTreeMap<Key, Entry>, entry: Entry) -> Result<(), AllocError>
    ensures { OnOk result (Updates nat_cmp latest.old latest.new entry.key (Some entry)) }
{
    latest.insert(entry.key, entry)?;
    Ok(())
}

// Of each key from `from` on the last entry that isn't after the stamp.
fn latest_of(
    alloc: Global,
    entries: Vec<Entry>,
    from: Key,
    stamp: Stamp,
) -> Result<BTreeMap<Key, Entry>, AllocError>
    ensures { IfOk result (λ latest. IsRising (versions_of entries.items) → AreLatest (versions_of entries.items) stamp from latest) }
{
    let mut latest = BTreeMap::new(alloc);
    for entry in entries {
        if counts(&entry, from, stamp) {
            put(&mut latest, entry)?;
        }
    }
    Ok(latest)
}

// Whether a key isn't below the high one, if there is one.
fn is_past(key: Key, high: &Option<Key>) -> bool
    ensures { IsTrue result ↔ (high_or high.now ≤ key) }
{
    key_fits(key);
    match high {
        Some(high) => *high <= key,
        None => false,
    }
}

// The keys below `high` whose last entry is a value.
fn live_of(
    alloc: Global,
    latest: BTreeMap<Key, Entry>,
    high: &Option<Key>,
) -> Result<Vec<LiveKey>, AllocError>
    ensures { IfOk result (λ rows. (versions : List Version) (s from : ℕ) → from ≤ high_or high.now → AreLatest versions s from latest → AreLive versions s from (high_or high.now) rows.items) }
{
    let mut latest = latest;
    let mut rows = Vec::new(alloc);
    loop {
        let Some((key, entry)) = latest.pop_first() else {
            return Ok(rows);
        };
        if is_past(key, high) {
            return Ok(rows);
        }
        let stamp = entry.stamp;
        if let Some(value) = entry.value {
            rows.push(LiveKey {
                key,
                found: Found { stamp, value },
            })?;
        }
    }
}

/// The keys from `from` on and below `high` that have a value as of the stamp, by the leaf that begins these octets. The leaf is scanned
/// once.
pub fn run_in(
    alloc: Global,
    octets: &[u8],
    high: &Option<Key>,
    from: Key,
    stamp: Stamp,
) -> Result<Run, ReadFault>
    requires size { length octets.now ≡ 16384 }
    ensures run { IfOk result (λ run. (all : List Version) (r : Range) (leaf : LeafNode) → BeginsAsLeaf leaf octets.now → LeafRepresents all r leaf.versions → r.high ≡ high_or high.now → IsPoint r from stamp
        → IsRun all stamp from run) }
    ensures high { IfOk result (λ run. run.high ≡ high.now) }
    ensures leaf { (leaf : LeafNode) → BeginsAsLeaf leaf octets.now → result ≡ Err ReadFault.NotANode → ⊥ }
{
    let entries = entries_in(alloc, octets)?;
    let latest = latest_of(alloc, entries, from, stamp)?;
    let rows = live_of(alloc, latest, high)?;
    Ok(Run { rows, high: *high })
}
