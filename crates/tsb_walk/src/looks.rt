//! What lookups return, and what they find in the octets of a leaf.

ghost use Rattle.std.specs.Prelude.{◌≡◌, ◌<◌, ◌↔◌, length, filter, IsTrue, IfOk, Err, ℕ, List};
ghost use Rattle.version_model.specs.Versions.{Version, Answers, IsRising};
ghost use Rattle.version_model.specs.Ranges.{Range, IsPoint, high_or, end_or};
ghost use Rattle.version_model.specs.LeafVersions.{LeafRepresents};
ghost use Rattle.version_model.specs.Looks.{IsReached, IsPart, NoneWithin, is_of};
ghost use Rattle.version_model.specs.Entries.{versions_of};
ghost use Rattle.tsb_node.specs.Leaves.{LeafNode, BeginsAsLeaf};
ghost use Rattle.tsb_walk.specs.Answers.{found_as, reached_as};
ghost use Rattle.tsb_walk.specs.Borders.{ReachesTo};
ghost use Rattle.tsb_walk.specs.Looked.{GoesOnFrom};

use route_model::Key;
use std::alloc::Global;
use tsb_node::{FoundVersion, ReadFault, find, key_fits, next, part};
use version_model::{Entry, Place, Stamp};

/// A value, and the stamp from which on its key has it.
#[derive(Debug, Drop)]
pub struct Found {
    pub stamp: Stamp,
    pub value: Vec<u8>,
}

/// How far a lookup of the next key has come.
#[derive(Debug, Drop)]
pub enum Reached {
    /// The next key that has a value, and what it has.
    At(Key, Found),
    /// No key from the one asked for on and below this one has a value.
    Past(Key),
    /// No key from the one asked for on has a value.
    End,
}

/// The versions of a key from a stamp on, ends included, in the order of their stamps: all before the stamp `reported`,
/// or all that there are if it is None.
#[derive(Debug, Drop)]
pub struct KeyVersions {
    pub entries: Vec<Entry>,
    pub reported: Option<Stamp>,
}

/// What a lookup of the next key returns if it begins at current pages: how far it has come, or the place in the past where
/// it goes on, for the same key and stamp.
#[derive(Debug, Drop)]
pub enum Looked {
    Here(Reached),
    InBlock(Place),
}

/// What a lookup of the versions of a key returns if it begins at current pages: the versions, or the place in the past where
/// it goes on, for the same key and stamp.
#[derive(Debug, Drop)]
pub enum Parted {
    Here(KeyVersions),
    InBlock(Place),
}

/// What a lookup of a key returns if it begins at current pages: what the key has, None if it has no value; or the place in
/// the past where it goes on, for the same key and stamp.
#[derive(Debug, Drop)]
pub enum Descended {
    Here(Option<Found>),
    InBlock(Place),
}

/// What the leaf that begins these octets has for a key as of a stamp.
pub fn found_in(
    alloc: Global,
    octets: &[u8],
    key: Key,
    stamp: Stamp,
) -> Result<Option<Found>, ReadFault>
    requires size { length octets.now ≡ 16384 }
    ensures found { IfOk result (λ found. (leaf : LeafNode) → BeginsAsLeaf leaf octets.now → Answers leaf.versions key stamp (found_as found)) }
    ensures leaf { (leaf : LeafNode) → BeginsAsLeaf leaf octets.now → result ≡ Err ReadFault.NotANode → ⊥ }
{
    let Ok(version) = find(octets, key, stamp) else {
        return Err(ReadFault::NotANode);
    };
    let Some(version) = version else {
        return Ok(None);
    };
    let FoundVersion { stamp, value } = version;
    let Some(value) = value else {
        return Ok(None);
    };
    Ok(Some(Found {
        stamp,
        value: value.as_slice().to_vec(alloc)?,
    }))
}

// Whether a key is below the high key of a leaf, if it has one.
fn is_below(key: Key, high: Option<Key>) -> bool
    ensures { IsTrue result ↔ (key < high_or high) }
{
    key_fits(key);
    match high {
        Some(high) => key < high,
        None => true,
    }
}

// Whether a key is below another.
fn is_before(key: Key, from: Key) -> bool
    ensures { IsTrue result ↔ (key < from) }
{
    key < from
}

// How far a lookup has come that found no value below the high key.
fn past(high: Option<Key>) -> Reached
    ensures border { ReachesTo (high_or high) result }
    ensures onward { (from : ℕ) → from < high_or high → GoesOnFrom from result }
    ensures past { (versions : List Version) (from s : ℕ) → from < high_or high → NoneWithin versions s from (high_or high) → IsReached versions s from (reached_as result) }
{
    match high {
        Some(high) => Reached::Past(high),
        None => Reached::End,
    }
}

/// How far a lookup of the next key from `from` on comes in the leaf that begins these octets, of keys below `high`. It never goes
/// back, whatever the octets are.
pub fn reached_in(
    alloc: Global,
    octets: &[u8],
    high: &Option<Key>,
    from: Key,
    stamp: Stamp,
) -> Result<Reached, ReadFault>
    requires size { length octets.now ≡ 16384 }
    ensures reached { IfOk result (λ reached. (all : List Version) (r : Range) (leaf : LeafNode) → BeginsAsLeaf leaf octets.now → LeafRepresents all r leaf.versions → r.high ≡ high_or high.now → IsPoint r from stamp
        → IsReached all stamp from (reached_as reached)) }
    ensures border { IfOk result (ReachesTo (high_or high.now)) }
    ensures onward { from < high_or high.now → IfOk result (GoesOnFrom from) }
    ensures leaf { (leaf : LeafNode) → BeginsAsLeaf leaf octets.now → result ≡ Err ReadFault.NotANode → ⊥ }
{
    let Ok(least) = next(octets, from, stamp) else {
        return Err(ReadFault::NotANode);
    };
    let Some(key) = least else {
        return Ok(past(*high));
    };
    if is_before(key, from) {
        return Err(ReadFault::NotANode);
    }
    if !is_below(key, *high) {
        return Ok(past(*high));
    }
    match found_in(alloc, octets, key, stamp) {
        Ok(Some(found)) => Ok(Reached::At(key, found)),
        Ok(None) => Err(ReadFault::NotANode),
        Err(fault) => Err(fault),
    }
}

/// The versions of the key from a stamp on in the leaf that begins these octets, of stamps before `end`.
pub fn part_in(
    alloc: Global,
    octets: &[u8],
    end: &Option<Stamp>,
    key: Key,
    from: Stamp,
) -> Result<KeyVersions, ReadFault>
    requires size { length octets.now ≡ 16384 }
    ensures part { IfOk result (λ part. (all : List Version) (r : Range) (leaf : LeafNode) → BeginsAsLeaf leaf octets.now → LeafRepresents all r leaf.versions → IsRising all → r.end ≡ end_or end.now → IsPoint r key from
        → IsPart all key from (versions_of part.entries.items) part.reported) }
    ensures just { IfOk result (λ part. (leaf : LeafNode) → BeginsAsLeaf leaf octets.now → versions_of part.entries.items ≡ filter (is_of key from (end_or end.now)) leaf.versions) }
    ensures reported { IfOk result (λ part. part.reported ≡ end.now) }
    ensures leaf { (leaf : LeafNode) → BeginsAsLeaf leaf octets.now → result ≡ Err ReadFault.NotANode → ⊥ }
{
    match part(alloc, octets, key, from, *end) {
        Ok(entries) => Ok(KeyVersions {
            entries,
            reported: *end,
        }),
        Err(fault) => Err(fault),
    }
}
