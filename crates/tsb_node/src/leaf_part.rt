//! The versions of one key of a leaf.

ghost use Rattle.std.specs.Prelude.{◌≡◌, ◌↔◌, length, filter, IfOk, IsTrue, Err, ◌≤◌, ◌<◌, ◌^◌};
ghost use Rattle.version_model.specs.Ranges.{end_or};
ghost use Rattle.version_model.specs.Looks.{is_of};
ghost use Rattle.version_model.specs.Entries.{versions_of};
ghost use Rattle.tsb_node.specs.Leaves.{LeafNode, BeginsAsLeaf};
ghost use Rattle.tsb_node.specs.Scaling.{scaled};
ghost use Rattle.tsb_node.specs.Holding.{HasItsEntries};
ghost use Rattle.tsb_node.specs.inner.Fields.{number_in};
ghost use Rattle.tsb_node.specs.inner.Scanning.{IsWholeVersion};

use crate::header::{is_same_key, is_stamp_below};
use crate::leaf::{FIRST, LAST};
use crate::leaf_entries::{begins_with_entries, entry_of, keep, whole_size};
use crate::moments::{moments_of, stamp_in_moments};
use crate::numbers::{key_at, number2, stamp_at};
use route_model::Key;
use std::alloc::{AllocError, Global};
use version_model::{Entry, Stamp};

/// Why octets are not read.
#[derive(Clone, Copy, Debug, PartialEq, Eq)]
pub enum ReadFault {
    /// They aren't a node of the expected kind.
    NotANode,
    /// An allocation failed.
    Memory,
}

impl From<AllocError> for ReadFault {
    ghost use Rattle.std.specs.Prelude.{◌≡◌};
    ghost use Rattle.tsb_node.specs.declared.leaf_part.ReadFault.TheVariants.{Memory};

    ghost from_gives = { λ _ fault. fault ≡ Memory };

    fn from(_: AllocError) -> Self {
        ReadFault::Memory
    }
}

// Whether the entry at the front is of the key, from a stamp on and before the end, of a node whose times are k moments each.
fn is_entry_of(bytes: &[u8], key: Key, from: Stamp, end: Option<Stamp>, k: u64) -> bool
    requires { IsWholeVersion bytes.now }
    ensures { scaled k (number_in 16 40 bytes.now) < 256 ^ 16
        → IsTrue result ↔ ((number_in 40 0 bytes.now ≡ key) × (from ≤ scaled k (number_in 16 40 bytes.now)) × (scaled k (number_in 16 40 bytes.now) < end_or end)) }
{
    if !is_same_key(key_at(bytes, 0), key) {
        return false;
    }
    let stamp = stamp_in_moments(stamp_at(bytes, 40), k);
    if is_stamp_below(stamp, from) {
        return false;
    }
    match end {
        Some(end) => is_stamp_below(stamp, end),
        None => true,
    }
}

/// The versions of the key from a stamp on and before the end, ends of it included, in the order of their stamps, of the leaf that
/// begins these octets. Fails with NotANode exactly if they don't have as many entries as they count, as a leaf does; and with
/// Memory only if they do.
pub fn part(
    alloc: Global,
    octets: &[u8],
    key: Key,
    from: Stamp,
    end: Option<Stamp>,
) -> Result<Vec<Entry>, ReadFault>
    requires size { length octets.now ≡ 16384 }
    ensures part { IfOk result (λ part. (leaf : LeafNode) → BeginsAsLeaf leaf octets.now → versions_of part.items ≡ filter (is_of key from (end_or end)) leaf.versions) }
    ensures refused { (leaf : LeafNode) → BeginsAsLeaf leaf octets.now → result ≡ Err ReadFault.NotANode → ⊥ }
    ensures not_a_node { result ≡ Err ReadFault.NotANode ↔ (HasItsEntries octets.now → ⊥) }
    ensures memory { result ≡ Err ReadFault.Memory → HasItsEntries octets.now }
{
    let k = moments_of(octets[1]);
    let count = number2(octets, 4);
    let area = octets.split_at(LAST).0.split_at(FIRST).1;
    if !begins_with_entries(area, count) {
        return Err(ReadFault::NotANode);
    }
    let mut rest = area;
    let mut kept = Vec::new(alloc);
    for _ in 0..count {
        if is_entry_of(rest, key, from, end, k) {
            keep(&mut kept, entry_of(alloc, rest, k)?)?;
        }
        rest = rest.split_at(whole_size(rest)).1;
    }
    Ok(kept)
}
