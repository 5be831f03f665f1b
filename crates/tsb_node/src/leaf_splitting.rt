//! Splits leaves by key, straight into other pages.

ghost use Rattle.std.specs.Prelude.{◌≡◌, ◌≤◌, ◌<◌, ◌+◌, ◌^◌, None, length};
ghost use Rattle.tsb_node.specs.Nodes.{AreInOrder};
ghost use Rattle.version_model.specs.declared.bounds.Bounds.{Bounds as BoundsValue};
ghost use Rattle.tsb_node.specs.Leaves.{LeafNode, BeginsAsLeaf, IsVersionOf, entry as encoded_entry};
ghost use Rattle.tsb_node.specs.Splitting.{IsSidePage};
ghost use Rattle.version_model.specs.Versions.{Version};
ghost use Rattle.tsb_node.specs.Scaling.{scaled, scaled_version};
ghost use Rattle.tsb_node.specs.inner.Fresh.{IsFreshLeafPage};
ghost use Rattle.tsb_node.specs.inner.Laying.{laid};
ghost use Rattle.tsb_node.specs.inner.Sides.{located_within, side_of};
ghost use Rattle.std.specs.Result.{MatchResult};

use crate::header::{is_below_high, is_key_below};
use crate::heads::leaf_head;
use crate::leaf::{FIRST, LAST, NotANode, entry_size, start};
use crate::moments::{moments_of, stamp_in_moments};
use crate::numbers::{key_at, number2, stamp_at};
use crate::writing::{bounds_fit, stamp_octets, two_octets};
use disk_models::{Page, Sheet};
use route_model::Key;
use version_model::Bounds;

/// Whether a key lies between the bounds.
fn is_within(key: Key, bounds: &Bounds) -> bool
    ensures { result ≡ located_within bounds.now key }
{
    if is_key_below(key, bounds.low) {
        return false;
    }
    is_below_high(key, bounds.high)
}

// Lays an entry over a sheet from a place on, its time multiplied by k.
fn put_scaled<K>(sheet: &mut Sheet<K>, at: usize, entry: &[u8], k: u64)
    requires whole { 56 ≤ length entry.now }
    requires room { at + length entry.now ≤ 16384 }
    ensures { (b : BoundsValue) (v : Version) → IsVersionOf b v → entry.now ≡ encoded_entry v → scaled k v.stamp < 256 ^ 16 → sheet.new ≡ laid at (encoded_entry (scaled_version k v)) sheet.old }
{
    let _octets = sheet.octets();
    sheet.put(at, entry);
    if k == 1 {
        return;
    }
    sheet.put(
        at + 40,
        &stamp_octets(stamp_in_moments(stamp_at(entry, 40), k)),
    );
}

// Writes a leaf of these bounds over a sheet, with the versions of their keys that the leaf in these octets has, all in the unit in
// which nodes are written. After an error the sheet has any octets.
fn copy_within<K>(octets: &[u8], bounds: &Bounds, fresh: &mut Sheet<K>) -> Result<(), NotANode>
    requires size { length octets.now ≡ 16384 }
    requires valid { AreInOrder bounds.now }
    requires current { bounds.now.end ≡ None }
    ensures side { (leaf : LeafNode) → BeginsAsLeaf leaf octets.now → MatchResult result (λ u. IsFreshLeafPage (side_of leaf bounds.now) fresh.new) (λ e. ⊥) }
{
    bounds_fit(bounds);
    start(fresh, bounds);
    let k = moments_of(octets[1]);
    let count = number2(octets, 4);
    let mut rest = octets.split_at(LAST).0.split_at(FIRST).1;
    let mut at = FIRST;
    let mut kept = 0u16;
    for _ in 0..count {
        let Some(size) = entry_size(rest) else {
            return Err(NotANode);
        };
        let (entry, more) = rest.split_at(size);
        if is_within(key_at(entry, 0), bounds) {
            put_scaled(fresh, at, entry, k);
            at += size;
            kept += 1;
        }
        rest = more;
    }
    fresh.put(4, &two_octets(kept));
    fresh.put(6, &two_octets((at - FIRST) as u16));
    Ok(())
}

/// Writes a leaf of these bounds over a page, with the versions of their keys that the leaf in these octets has.
/// Fails only if the octets aren't a leaf, but not in every such case. After an error the page has any octets.
pub fn copy_side(octets: &[u8], bounds: &Bounds, fresh: &mut Page) -> Result<(), NotANode>
    requires size { length octets.now ≡ 16384 }
    requires valid { AreInOrder bounds.now }
    requires current { bounds.now.end ≡ None }
    ensures side { (leaf : LeafNode) → BeginsAsLeaf leaf octets.now → MatchResult result (λ u. IsSidePage leaf bounds.now fresh.new) (λ e. ⊥) }
{
    copy_within(octets, bounds, fresh)
}

/// Writes the current leaf in these octets over a sheet, in the unit in which nodes are written. Fails only if they aren't such a leaf,
/// but not in every such case. After an error the sheet has any octets.
pub fn copy_whole<K>(octets: &[u8], fresh: &mut Sheet<K>) -> Result<(), NotANode>
    requires size { length octets.now ≡ 16384 }
    ensures whole { (leaf : LeafNode) → BeginsAsLeaf leaf octets.now → leaf.bounds.end ≡ None → MatchResult result (λ u. IsFreshLeafPage leaf fresh.new) (λ e. ⊥) }
{
    let Ok(bounds) = leaf_head(octets) else {
        return Err(NotANode);
    };
    if bounds.end.is_some() {
        return Err(NotANode);
    }
    copy_within(octets, &bounds, fresh)
}
