//! Which keys of a column have a version in a span of stamps, gathered from one of its leaves after another.

ghost use Rattle.std.specs.Prelude.{◌≡◌, ◌<◌, ◌≤◌, ◌↔◌, ◌⊎◌, length, ℕ, List, Some, Err, IsSome, IsTrue, IfOk, OnOk};
ghost use Rattle.std.specs.BTreeMap.{Updates, get};
ghost use Rattle.std.specs.Ordering.{nat_cmp};
ghost use Rattle.version_model.specs.Ranges.{Range, IsPoint, end_or, high_or};
ghost use Rattle.version_model.specs.LeafVersions.{LeafRepresents};
ghost use Rattle.version_model.specs.Versions.{Version};
ghost use Rattle.tsb_node.specs.Leaves.{LeafNode, BeginsAsLeaf};
ghost use Rattle.tsb_walk.specs.Touched.{AreTouched};
ghost use Rattle.tree_questions.specs.inner.Gathered.{HasEntry, HasGathered, IsEntryOf};

use route_model::Key;
use std::alloc::{AllocError, Global};
use std::collections::BTreeMap;
use tsb_node::{ReadFault, entries_in, key_fits, stamp_fits};
use version_model::{Entry, Stamp};

/// Which keys of a column have a version of a stamp before `at`, from the key `from` on and below `high`.
#[derive(Drop)]
pub(crate) struct Gathering {
    pub from: Key,
    pub high: Option<Key>,
    pub at: Stamp,
    /// Each with one of its stamps. A block of the past may have keys beyond the column, which are left out at the end.
    pub keys: BTreeMap<Key, Stamp>,
}

/// The keys that have a version in a span of stamps, from where a look began and below `high`, in their order. Without a high key they
/// are all from there on.
#[derive(Debug, Drop)]
pub(crate) struct TouchedKeys {
    pub keys: Vec<Key>,
    pub high: Option<Key>,
}

// Whether an entry is of a key from `from` on, and of a stamp from `first` on and before `end`.
fn counts(entry: &Entry, from: Key, first: Stamp, end: Stamp) -> bool
    ensures { IsTrue result ↔ ((from ≤ entry.now.key) × (first ≤ entry.now.stamp) × (entry.now.stamp < end)) }
{
    from <= entry.key && first <= entry.stamp && entry.stamp < end
}

// Puts the key of an entry in.
fn put(keys: &mut BTreeMap<Key, Stamp>, entry: &Entry) -> Result<(), AllocError>
    ensures { OnOk result (Updates nat_cmp keys.old keys.new entry.now.key (Some entry.now.stamp)) }
{
    keys.insert(entry.key, entry.stamp)?;
    Ok(())
}

// Puts the key of an entry in if that counts.
fn put_one(
    keys: &mut BTreeMap<Key, Stamp>,
    entry: &Entry,
    from: Key,
    first: Stamp,
    end: Stamp,
) -> Result<(), AllocError>
    ensures { OnOk result ((key : ℕ) → IsSome (get nat_cmp keys.new key) ↔ (IsSome (get nat_cmp keys.old key) ⊎ IsEntryOf from first end key entry.now)) }
{
    if !counts(entry, from, first, end) {
        return Ok(());
    }
    put(keys, entry)?;
    Ok(())
}

// Puts in each key from `from` on of which an entry is of a stamp from `first` on and before `end`.
fn put_all(
    keys: &mut BTreeMap<Key, Stamp>,
    entries: Vec<Entry>,
    from: Key,
    first: Stamp,
    end: Stamp,
) -> Result<(), AllocError>
    ensures { OnOk result ((key : ℕ) → IsSome (get nat_cmp keys.new key) ↔ (IsSome (get nat_cmp keys.old key) ⊎ HasEntry from first end key entries.items)) }
{
    for entry in entries {
        put_one(keys, &entry, from, first, end)?;
    }
    Ok(())
}

// The lesser of a stamp and an end, if there is one.
fn lesser_stamp(stamp: Stamp, end: Option<Stamp>) -> Stamp
    ensures { (result ≤ stamp) × (result ≤ end_or end) × ((result ≡ stamp) ⊎ (result ≡ end_or end)) }
{
    stamp_fits(stamp);
    match end {
        Some(end) if end < stamp => end,
        _ => stamp,
    }
}

// The lesser of two high keys, of which each may be missing.
fn lesser_key(one: Option<Key>, other: Option<Key>) -> Option<Key>
    ensures { (high_or result ≤ high_or one) × (high_or result ≤ high_or other) × ((high_or result ≡ high_or one) ⊎ (high_or result ≡ high_or other)) }
{
    let Some(key) = one else {
        return other;
    };
    key_fits(key);
    match other {
        Some(other) if other < key => Some(other),
        _ => one,
    }
}

// Whether a key isn't below the high one, if there is one.
fn is_past(key: Key, high: &Option<Key>) -> bool
    ensures { IsTrue result ↔ (high_or high.now ≤ key) }
{
    key_fits(key);
    match high {
        Some(high) => *high <= key,
        None => false,
    }
}

impl Gathering {
    ghost use Rattle.std.specs.Prelude.{◌≡◌, ◌<◌, ◌≤◌, ℕ, List, Err, OnOk, IfOk, length};
    ghost use Rattle.version_model.specs.Ranges.{Range, IsPoint, end_or, high_or};
    ghost use Rattle.version_model.specs.LeafVersions.{LeafRepresents};
    ghost use Rattle.version_model.specs.Versions.{Version};
    ghost use Rattle.tsb_node.specs.Leaves.{LeafNode, BeginsAsLeaf};
    ghost use Rattle.tsb_walk.specs.Touched.{AreTouched};
    ghost use Rattle.tree_questions.specs.inner.Gathered.{HasEntry, HasGathered};

    /// Nothing yet, of the keys from `from` on and of the stamps from `first` on.
    pub(crate) fn new(alloc: Global, from: Key, first: Stamp) -> Gathering
        ensures from { result.from ≡ from }
        ensures first { result.at ≡ first }
        ensures high { high_or result.high ≡ high_or None }
        ensures nothing { (all : List Version) → HasGathered all first result }
    {
        Gathering {
            from,
            high: None,
            at: first,
            keys: BTreeMap::new(alloc),
        }
    }

    /// Takes in the leaf that begins these octets, of keys below `high` and of stamps before `end`: its entries from where the gathering
    /// stands and before `until`.
    pub(crate) fn take_leaf(
        &mut self,
        alloc: Global,
        octets: &[u8],
        high: Option<Key>,
        end: Option<Stamp>,
        until: Stamp,
    ) -> Result<(), ReadFault>
        requires size { length octets.now ≡ 16384 }
        ensures gathered { OnOk result ((all : List Version) (r : Range) (leaf : LeafNode) (first : ℕ) → BeginsAsLeaf leaf octets.now → LeafRepresents all r leaf.versions → r.high ≡ high_or high → r.end ≡ end_or end → IsPoint r self.old.from self.old.at
            → first ≤ self.old.at → self.old.at ≤ until → HasGathered all first self.old → HasGathered all first self.new) }
        ensures inside { OnOk result (self.old.from < high_or self.old.high → self.old.from < high_or high → self.old.from < high_or self.new.high) }
        ensures onward { OnOk result (self.old.at < until → self.old.at < end_or end → self.old.at < self.new.at) }
        ensures upto { OnOk result (self.new.at ≤ until) }
        ensures from { self.new.from ≡ self.old.from }
        ensures leaf { (leaf : LeafNode) → BeginsAsLeaf leaf octets.now → result ≡ Err ReadFault.NotANode → ⊥ }
    {
        let entries = entries_in(alloc, octets)?;
        let end = lesser_stamp(until, end);
        put_all(&mut self.keys, entries, self.from, self.at, end)?;
        self.high = lesser_key(self.high, high);
        self.at = end;
        Ok(())
    }

    /// The keys that were gathered, in their order.
    pub(crate) fn into_keys(self, alloc: Global) -> Result<TouchedKeys, AllocError>
        ensures keys { IfOk result (λ touched. (all : List Version) (first : ℕ) → self.from ≤ high_or self.high → HasGathered all first self → AreTouched all first self.at self.from (high_or touched.high) touched.keys.items) }
        ensures high { IfOk result (λ touched. touched.high ≡ self.high) }
    {
        let Gathering { high, keys, .. } = self;
        let mut keys = keys;
        let mut found = Vec::new(alloc);
        loop {
            let Some((key, _)) = keys.pop_first() else {
                return Ok(TouchedKeys { keys: found, high });
            };
            if is_past(key, &high) {
                return Ok(TouchedKeys { keys: found, high });
            }
            found.push(key)?;
        }
    }
}
