//! Reads pages as leaves, exactly if they are leaves.

ghost use Rattle.std.specs.Prelude.{List, ℕ, ◌≡◌, ◌≤◌, ◌<◌, ◌+◌, ◌↔◌, length, slice_index, take, drop, All, IfSome, IfNone, IsTrue, MatchOption, None};
ghost use Rattle.tsb_node.specs.inner.Reading.{value_size};
ghost use Rattle.std.specs.List.{AllByRecursion};
ghost use Rattle.route_model.specs.Units.{moments_in};
ghost use Rattle.tsb_node.specs.Nodes.{IsBounds};
ghost use Rattle.tsb_node.specs.Scaling.{scaled_bounds, IsKnownUnit};
ghost use Rattle.tsb_node.specs.Leaves.{LeafNode, IsLeaf, BeginsAsLeaf, BeginsAsWrittenLeaf, IsLeafPage, IsLeafBlock, IsWrittenLeafPage, IsWrittenLeafBlock, scaled_leaf};
ghost use Rattle.tsb_node.specs.inner.Fresh.{StampFits};
ghost use Rattle.tsb_node.specs.inner.Checking.{IsEncoded, AreEntries, IsAfter, IsLeafOf};
ghost use Rattle.tsb_node.specs.inner.NodeReading.{IsNode};

use crate::header::{Header, is_below_high, is_key_below, is_of_kind, is_stamp_below};
use crate::leaf::{FIRST, LAST, entry_size};
use crate::moments::{bounds_in_moments, fits, is_known, moments_of};
use crate::node_reading::{node_of_block, node_of_page};
use crate::numbers::{key_at, number2, stamp_at};
use disk_models::{Block, Page};
use version_model::{Bounds, Stamp};

/// How many octets the entry at the front takes, if it is one of a leaf of these bounds.
fn version_size(bytes: &[u8], bounds: &Bounds) -> Option<usize>
    ensures found { IfSome result (λ n. (n ≡ 59 + value_size bytes.now) × IsEncoded bounds.now bytes.now) }
    ensures none { IfNone result (IsEncoded bounds.now bytes.now → ⊥) }
{
    let size = entry_size(bytes)?;
    if size > 59 + 3072 {
        return None;
    }
    if bytes[56] > 1 {
        return None;
    }
    if is_end_with_octets(bytes[56], size) {
        return None;
    }
    let key = key_at(bytes, 0);
    if is_key_below(key, bounds.low) {
        return None;
    }
    if !is_below_high(key, bounds.high) {
        return None;
    }
    Some(size)
}

/// Whether an entry of this tag and size is an end that has octets after its length.
fn is_end_with_octets(tag: u8, size: usize) -> bool
    ensures { IsTrue result ↔ ((tag ≡ 0) × (59 < size)) }
{
    tag == 0 && size > 59
}

/// Whether a stamp is above the last one, if there is one.
fn is_after(stamp: Stamp, last: Option<Stamp>) -> bool
    ensures { IsTrue result ↔ IsAfter stamp last }
{
    match last {
        Some(last) => is_stamp_below(last, stamp),
        None => true,
    }
}

/// Whether the octets are exactly `count` entries of a leaf of these bounds.
fn are_entries(bytes: &[u8], count: u16, bounds: &Bounds) -> bool
    ensures { IsTrue result ↔ AreEntries bounds.now count bytes.now }
{
    let mut rest = bytes;
    let mut last = None;
    for _ in 0..count {
        let Some(size) = version_size(rest, bounds) else {
            return false;
        };
        let stamp = stamp_at(rest, 40);
        if !is_after(stamp, last) {
            return false;
        }
        last = Some(stamp);
        rest = rest.split_at(size).1;
    }
    rest.is_empty()
}

/// The bounds of the leaf whose header and entries these are; none if they are no leaf.
fn leaf_bounds(header: &Header, entries: &[u8]) -> Option<Bounds>
    requires node { IsNode header.now entries.now }
    ensures found { IfSome result (λ bounds. (leaf : LeafNode) × IsLeafOf header.now entries.now leaf × (leaf.bounds ≡ bounds)) }
    ensures none { IfNone result ((leaf : LeafNode) → IsLeafOf header.now entries.now leaf → ⊥) }
{
    if !is_of_kind(header, 1, 0) {
        return None;
    }
    if !are_entries(entries, header.count, &header.bounds) {
        return None;
    }
    Some(header.bounds)
}

// The bounds of the leaf in a page, in its unit, or none if the page is no leaf.
fn written_leaf(page: &Page) -> Option<Bounds>
    ensures found { IfSome result (λ bounds. (leaf : LeafNode) × IsWrittenLeafPage leaf page.now × (leaf.bounds ≡ bounds)) }
    ensures none { IfNone result ((leaf : LeafNode) → IsWrittenLeafPage leaf page.now → ⊥) }
{
    let Some((header, entries)) = node_of_page(page) else {
        return None;
    };
    leaf_bounds(&header, entries)
}

// The bounds of the leaf in a block, in its unit, or none if the block is no leaf.
fn written_leaf_block(block: &Block) -> Option<Bounds>
    ensures found { IfSome result (λ bounds. (leaf : LeafNode) × IsWrittenLeafBlock leaf block.now × (leaf.bounds ≡ bounds)) }
    ensures none { IfNone result ((leaf : LeafNode) → IsWrittenLeafBlock leaf block.now → ⊥) }
{
    let Some((header, entries)) = node_of_block(block) else {
        return None;
    };
    leaf_bounds(&header, entries)
}

// Whether the times of the leaf that begins these octets have eight octets once they are multiplied by k.
fn times_fit(octets: &[u8], k: u64) -> bool
    requires size { length octets.now ≡ 16384 }
    ensures { (leaf : LeafNode) → BeginsAsWrittenLeaf leaf octets.now → IsTrue result ↔ AllByRecursion (StampFits k) leaf.versions }
{
    if k == 1 {
        return true;
    }
    let count = number2(octets, 4);
    let mut rest = octets.split_at(LAST).0.split_at(FIRST).1;
    for _ in 0..count {
        let Some(size) = entry_size(rest) else {
            return false;
        };
        if !fits(stamp_at(rest, 40), k) {
            return false;
        }
        rest = rest.split_at(size).1;
    }
    true
}

// The bounds of the leaf that begins these octets, in moments, if these are its bounds in its unit; none if its times don't fit.
fn leaf_in_moments(octets: &[u8], bounds: &Bounds) -> Option<Bounds>
    requires size { length octets.now ≡ 16384 }
    requires valid { IsBounds bounds.now }
    ensures leaf { (known : IsKnownUnit (slice_index octets.now 1)) (leaf : LeafNode) → BeginsAsWrittenLeaf leaf octets.now → leaf.bounds ≡ bounds.now
        → MatchOption result (IsLeaf (scaled_leaf (moments_in known.unit) leaf) → ⊥) (λ b. (b ≡ scaled_bounds (moments_in known.unit) leaf.bounds) × IsLeaf (scaled_leaf (moments_in known.unit) leaf)) }
{
    let k = moments_of(octets[1]);
    let Some(bounds) = bounds_in_moments(bounds, k) else {
        return None;
    };
    if !times_fit(octets, k) {
        return None;
    }
    Some(bounds)
}

/// The bounds of the leaf in a page, or none if the page is no leaf.
pub fn read_leaf(page: &Page) -> Option<Bounds>
    ensures found { IfSome result (λ bounds. (leaf : LeafNode) × IsLeafPage leaf page.now × (leaf.bounds ≡ bounds)) }
    ensures none { IfNone result ((leaf : LeafNode) → IsLeafPage leaf page.now → ⊥) }
{
    let octets = page.octets();
    if !is_known(octets[1]) {
        return None;
    }
    let Some(bounds) = written_leaf(page) else {
        return None;
    };
    leaf_in_moments(octets, &bounds)
}

/// The bounds of the leaf in a block, or none if the block is no leaf.
pub fn read_leaf_block(block: &Block) -> Option<Bounds>
    ensures found { IfSome result (λ bounds. (leaf : LeafNode) × IsLeafBlock leaf block.now × (leaf.bounds ≡ bounds)) }
    ensures none { IfNone result ((leaf : LeafNode) → IsLeafBlock leaf block.now → ⊥) }
{
    let octets = block.octets();
    if !is_known(octets[1]) {
        return None;
    }
    let Some(bounds) = written_leaf_block(block) else {
        return None;
    };
    leaf_in_moments(octets, &bounds)
}

/// Octets are the page, or the block, of one leaf at most.
pub fn leaves_are_one()
    ensures leaves { (a b : LeafNode) (octets : List ℕ) → BeginsAsLeaf a octets → BeginsAsLeaf b octets → a ≡ b }
{}
