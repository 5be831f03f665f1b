//! The next key of a leaf that has a value.

ghost use Rattle.std.specs.Prelude.{◌≡◌, ◌≤◌, ◌↔◌, length, IfOk, IfSome, IsTrue};
ghost use Rattle.version_model.specs.inner.Lower.{IsLower};
ghost use Rattle.tsb_node.specs.Leaves.{LeafNode, BeginsAsLeaf, BeginsAsWrittenLeaf};
ghost use Rattle.tsb_node.specs.inner.Fields.{number_in};
ghost use Rattle.tsb_node.specs.inner.Scanning.{IsWholeVersion};
ghost use Rattle.tsb_node.specs.inner.Nexts.{IsLeastOf, ReportsLive};
ghost use Rattle.version_model.specs.Looks.{IsLeastLive};
ghost use Rattle.std.specs.Result.{MatchResult};

use crate::header::{is_key_below, is_stamp_below};
use crate::leaf::{FIRST, LAST, NotANode, entry_size, find_written};
use crate::moments::{floor_stamp, moments_of};
use crate::numbers::{key_at, number2, stamp_at};
use route_model::Key;
use version_model::Stamp;

// Whether the key has a value as of the stamp.
fn is_live(octets: &[u8], key: Key, stamp: Stamp) -> Result<bool, NotANode>
    requires size { length octets.now ≡ 16384 }
    ensures live { (leaf : LeafNode) → BeginsAsWrittenLeaf leaf octets.now → MatchResult result (ReportsLive leaf.versions key stamp) (λ e. ⊥) }
{
    match find_written(octets, key, stamp) {
        Ok(Some(found)) => Ok(found.value.is_some()),
        Ok(None) => Ok(false),
        Err(NotANode) => Err(NotANode),
    }
}

// Whether a key is one from `from` on, and below the least one so far.
fn is_lower(key: Key, from: Key, best: &Option<Key>) -> bool
    ensures { IsTrue result ↔ ((from ≤ key) × IsLower best.now key) }
{
    if is_key_below(key, from) {
        return false;
    }
    match best {
        Some(best) => is_key_below(key, *best),
        None => true,
    }
}

// Whether the entry at the front isn't after the stamp, and of a key from `from` on that is below the least one so far.
fn is_candidate(bytes: &[u8], from: Key, stamp: Stamp, best: &Option<Key>) -> bool
    requires { IsWholeVersion bytes.now }
    ensures { IsTrue result ↔ ((from ≤ number_in 40 0 bytes.now) × IsLower best.now (number_in 40 0 bytes.now) × (number_in 16 40 bytes.now ≤ stamp)) }
{
    is_lower(key_at(bytes, 0), from, best) && !is_stamp_below(stamp, stamp_at(bytes, 40))
}

// The least key from `from` on of which the leaf that begins these octets has a version, or an end, that isn't after the stamp.
fn least_key(octets: &[u8], from: Key, stamp: Stamp) -> Result<Option<Key>, NotANode>
    requires size { length octets.now ≡ 16384 }
    ensures least { (leaf : LeafNode) → BeginsAsWrittenLeaf leaf octets.now → MatchResult result (IsLeastOf leaf.versions stamp from) (λ e. ⊥) }
    ensures onward { IfOk result (λ least. IfSome least (λ key. from ≤ key)) }
{
    let count = number2(octets, 4);
    let mut rest = octets.split_at(LAST).0.split_at(FIRST).1;
    let mut best = None;
    for _ in 0..count {
        let Some(size) = entry_size(rest) else {
            return Err(NotANode);
        };
        if is_candidate(rest, from, stamp, &best) {
            best = Some(key_at(rest, 0));
        }
        rest = rest.split_at(size).1;
    }
    Ok(best)
}

// The key that `next` returns, the stamp in the leaf's unit.
fn next_written(octets: &[u8], from: Key, stamp: Stamp) -> Result<Option<Key>, NotANode>
    requires size { length octets.now ≡ 16384 }
    ensures next { (leaf : LeafNode) → BeginsAsWrittenLeaf leaf octets.now → MatchResult result (IsLeastLive leaf.versions stamp from) (λ e. ⊥) }
{
    let mut from = from;
    loop {
        let Ok(least) = least_key(octets, from, stamp) else {
            return Err(NotANode);
        };
        let Some(key) = least else {
            return Ok(None);
        };
        let Ok(live) = is_live(octets, key, stamp) else {
            return Err(NotANode);
        };
        if live {
            return Ok(Some(key));
        }
        let Some(beyond) = key.next() else {
            return Ok(None);
        };
        from = beyond;
    }
}

/// The least key from `from` on, itself included, that has a value as of the stamp, of the leaf that begins these octets.
/// Fails only if they aren't a leaf, but not in every such case. The entries are scanned twice for the key that is found, and twice
/// more for each key before it that has ended.
pub fn next(octets: &[u8], from: Key, stamp: Stamp) -> Result<Option<Key>, NotANode>
    requires size { length octets.now ≡ 16384 }
    ensures next { (leaf : LeafNode) → BeginsAsLeaf leaf octets.now → MatchResult result (IsLeastLive leaf.versions stamp from) (λ e. ⊥) }
{
    let k = moments_of(octets[1]);
    next_written(octets, from, floor_stamp(stamp, k))
}
