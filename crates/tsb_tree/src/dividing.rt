//! A leaf in memory goes on from a stamp, and a column in memory is split by key.
ghost use Rattle.std.specs.Prelude.{◌≡◌, ℕ, ◌+◌, ◌-◌, ◌/◌, ◌<◌, ◌≤◌, ◌++◌, ◌∷◌, [], List, Some, IfOk, OnOk, IfSome, IfNone, MatchOption};
ghost use Rattle.version_model.specs.Entries.{version_of};
ghost use Rattle.version_model.specs.Ranges.{key_end};
ghost use Rattle.version_model.specs.Versions.{Version, Has, IsAbove, IsRising};
ghost use Rattle.version_model.specs.LeafVersions.{IsFrom};
ghost use Rattle.version_model.specs.Sizes.{octets, IsSingle, IsSplitPoint};
ghost use Rattle.tsb_tree.specs.Needs.{IsWhatStays};
ghost use Rattle.tsb_tree.specs.Outlived.{HasOutlived};
ghost use Rattle.tsb_tree.specs.Shapes.{IsFull, IsWhole, least_of};
ghost use Rattle.tsb_tree.specs.Wholes.{AreHalves};

use crate::whole::Whole;
use route_model::Key;
use std::alloc::{AllocError, Global};
use version_model::{Entry, Leaf, Stamp};

// How many octets an entry of a leaf takes at most.
const LARGEST: u64 = 3_131;

/// Appends a copy of a version, later than all others, to a column's leaf.
pub fn take(whole: &mut Whole, entry: &Entry) -> Result<(), AllocError>
    requires later { IsAbove whole.old.leaf entry.now.stamp }
    ensures taken { OnOk result (whole.new ≡ record whole.old { leaf = whole.old.leaf ++ version_of entry.now ∷ [] }) }
{
    whole.leaf.insert(entry.copy()?)?;
    Ok(())
}

/// What of a leaf goes on from a stamp on, if the last version is of that stamp; none if all of it does.
pub fn newer_of(alloc: Global, leaf: &Leaf, at: Stamp) -> Result<Option<Leaf>, AllocError>
    ensures from { IfOk result (λ newer. IfSome newer (IsFrom leaf.now at)) }
    ensures stays { IfOk result (λ newer. MatchOption newer (IsWhatStays leaf.now at leaf.now) (IsWhatStays leaf.now at)) }
    ensures size { IfOk result (λ newer. IfSome newer (λ newer. octets newer ≤ octets leaf.now)) }
    ensures single { (front : List Version) (v : Version) → leaf.now ≡ front ++ v ∷ [] → v.stamp ≡ at → IsAbove front at
        → IfOk result (λ newer. MatchOption newer (IsSingle leaf.now) IsSingle) }
    ensures moves { (front : List Version) (v : Version) → leaf.now ≡ front ++ v ∷ [] → v.stamp ≡ at → IsAbove front at → IsRising front → IfOk result (λ newer. IfSome newer (λ newer. HasOutlived front v)) }
{
    let newer = leaf.since(alloc, at)?;
    if newer.len() == leaf.len() {
        return Ok(None);
    }
    Ok(Some(newer))
}

/// The key at which a leaf is split into two that each fit a page; none if that is the last of all keys, which no tree has.
pub fn split_key_of(leaf: &Leaf) -> Option<Key>
    requires full { IsFull leaf.now }
    ensures point { IfSome result (λ key. IsSplitPoint leaf.now (least_of leaf.now) (Some key)) }
    ensures inside { IfSome result (λ key. key + 1 < key_end) }
    ensures last { IfNone result ((v : Version) × Has leaf.now v × (key_end ≤ v.key + 1)) }
{
    let least = (leaf.octets() - LARGEST) / 2;
    let Some(key) = leaf.split_point(least) else {
        unreachable!()
    };
    match key.next() {
        Some(_) => Some(key),
        None => None,
    }
}

/// A column split by key into two, each with its whole past. Both leaves fit a page.
pub fn halves(alloc: Global, whole: Whole, key: Key) -> Result<(Whole, Whole), AllocError>
    requires whole { IsWhole whole }
    requires full { IsFull whole.leaf }
    requires point { IsSplitPoint whole.leaf (least_of whole.leaf) (Some key) }
    requires inside { key + 1 < key_end }
    ensures halves { IfOk result (λ halves. AreHalves whole halves.0 halves.1) }
    ensures whole { IfOk result (λ halves. IsWhole halves.0 × IsWhole halves.1) }
    ensures key { IfOk result (λ halves. halves.1.low ≡ key) }
    ensures fit { IfOk result (λ halves. (octets halves.0.leaf ≤ 16232) × (octets halves.1.leaf ≤ 16232)) }
{
    let (left, right) = whole.leaf.split_key(alloc, key)?;
    let parts = whole.parts.clone()?;
    let low_half = Whole {
        low: whole.low,
        high: Some(key),
        parts: whole.parts,
        start: whole.start,
        leaf: left,
    };
    let high_half = Whole {
        low: key,
        high: whole.high,
        parts,
        start: whole.start,
        leaf: right,
    };
    Ok((low_half, high_half))
}
