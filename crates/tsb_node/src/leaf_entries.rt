//! The entries of a leaf, owned.

ghost use Rattle.std.specs.Prelude.{◌≡◌, ◌<◌, ◌↔◌, ◌++◌, ◌∷◌, ◌+◌, ◌^◌, [], length, IfOk, OnOk, IsTrue, Err};
ghost use Rattle.version_model.specs.Entries.{version_of, versions_of};
ghost use Rattle.tsb_node.specs.Leaves.{LeafNode, BeginsAsLeaf};
ghost use Rattle.tsb_node.specs.Scaling.{scaled, scaled_version};
ghost use Rattle.tsb_node.specs.Holding.{BeginsWithEntries, HasItsEntries};
ghost use Rattle.tsb_node.specs.inner.Reading.{value_size, version_in};
ghost use Rattle.tsb_node.specs.inner.Scanning.{IsWholeVersion};

use crate::leaf::{FIRST, LAST, entry_size};
use crate::leaf_part::ReadFault;
use crate::moments::{moments_of, stamp_in_moments};
use crate::numbers::{key_at, number2, stamp_at};
use std::alloc::{AllocError, Global};
use version_model::Entry;

/// Whether octets begin with `count` entries, whatever these contain: checked before memory is taken for them.
pub fn begins_with_entries(octets: &[u8], count: u16) -> bool
    ensures { IsTrue result ↔ BeginsWithEntries count octets.now }
{
    let mut rest = octets;
    for _ in 0..count {
        let Some(size) = entry_size(rest) else {
            return false;
        };
        rest = rest.split_at(size).1;
    }
    true
}

/// How many octets the entry at the front takes.
pub fn whole_size(bytes: &[u8]) -> usize
    requires { IsWholeVersion bytes.now }
    ensures { result ≡ 59 + value_size bytes.now }
{
    59 + number2(bytes, 57) as usize
}

/// What the entry at the front represents, of a node whose times are k moments each.
pub fn entry_of(alloc: Global, bytes: &[u8], k: u64) -> Result<Entry, AllocError>
    requires { IsWholeVersion bytes.now }
    ensures { scaled k (version_in bytes.now).stamp < 256 ^ 16 → IfOk result (λ entry. version_of entry ≡ scaled_version k (version_in bytes.now)) }
{
    let size = number2(bytes, 57) as usize;
    let value = if bytes[56] == 0 {
        None
    } else {
        Some(bytes.split_at(59).1.split_at(size).0.to_vec(alloc)?)
    };
    Ok(Entry {
        key: key_at(bytes, 0),
        stamp: stamp_in_moments(stamp_at(bytes, 40), k),
        value,
    })
}

/// Appends an item to the others.
pub fn keep<T: Drop>(kept: &mut Vec<T>, item: T) -> Result<(), AllocError>
    ensures { OnOk result (kept.new.items ≡ kept.old.items ++ item ∷ []) }
{
    kept.push(item)?;
    Ok(())
}

/// The entries of the leaf that begins these octets. Fails with NotANode exactly if they don't have as many entries as they
/// count, as a leaf does; and with Memory only if they do.
pub fn entries_in(alloc: Global, octets: &[u8]) -> Result<Vec<Entry>, ReadFault>
    requires size { length octets.now ≡ 16384 }
    ensures entries { IfOk result (λ all. (leaf : LeafNode) → BeginsAsLeaf leaf octets.now → versions_of all.items ≡ leaf.versions) }
    ensures refused { (leaf : LeafNode) → BeginsAsLeaf leaf octets.now → result ≡ Err ReadFault.NotANode → ⊥ }
    ensures not_a_node { result ≡ Err ReadFault.NotANode ↔ (HasItsEntries octets.now → ⊥) }
    ensures memory { result ≡ Err ReadFault.Memory → HasItsEntries octets.now }
{
    let k = moments_of(octets[1]);
    let count = number2(octets, 4);
    let area = octets.split_at(LAST).0.split_at(FIRST).1;
    if !begins_with_entries(area, count) {
        return Err(ReadFault::NotANode);
    }
    let mut rest = area;
    let mut kept = Vec::new(alloc);
    for _ in 0..count {
        keep(&mut kept, entry_of(alloc, rest, k)?)?;
        rest = rest.split_at(whole_size(rest)).1;
    }
    Ok(kept)
}
