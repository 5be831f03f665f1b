//! Changes as versions.

ghost use Rattle.std.specs.Prelude.{◌≡◌, ◌<◌, ◌≤◌, ◌+◌, ◌^◌, ℕ, List, Option, length, option_map, IfOk, IfSome, OnOk, OnErr};
ghost use Rattle.route_model.specs.Admission.{IsChange};
ghost use Rattle.version_model.specs.Blocks.{BlockNode};
ghost use Rattle.version_model.specs.Entries.{version_of};
ghost use Rattle.version_model.specs.Ranges.{key_end};
ghost use Rattle.version_model.specs.Sizes.{entry_octets};
ghost use Rattle.version_model.specs.Versions.{Version};
ghost use Rattle.route_history.specs.Stamps.{stamp_of};
ghost use Rattle.route_history.specs.Kept.{IsVersion, HasValue, at_time, key_of};
ghost use Rattle.route_history.specs.Growing.{RepresentsGrown, AreBefore, HasApplied};

use crate::versions::Growing;
use route_model::{Change, Key, Moment};
use std::alloc::{AllocError, Global};
use version_model::{Entry, Stamp};

// The key at which a change is kept.
fn key_of(change: &Change) -> Key
    ensures { result ≡ key_of change.now }
{
    match change {
        Change::Announce(peer, prefix, _) => Key::prefix(peer, prefix),
        Change::Withdraw(peer, prefix) => Key::prefix(peer, prefix),
        Change::Down(peer) => Key::session(peer),
    }
}

// What the version of a change has.
fn value_of(change: &Change) -> Option<&[u8]>
    ensures value { HasValue change.now (option_map (λ octets. octets.now) result) }
    ensures few { IsChange change.now → IfSome result (λ octets. length octets.now ≤ 3072) }
{
    match change {
        Change::Announce(_, _, route) => Some(route.encoding()),
        Change::Withdraw(_, _) => None,
        Change::Down(_) => Some(&[]),
    }
}

// The octets, kept.
fn kept(alloc: Global, value: Option<&[u8]>) -> Result<Option<Vec<u8>>, AllocError>
    ensures { IfOk result (λ kept. option_map (λ v. v.items) kept ≡ option_map (λ octets. octets.now) value.entry) }
{
    match value {
        Some(octets) => Ok(Some(octets.to_vec(alloc)?)),
        None => Ok(None),
    }
}

/// The version of a change that was reported at this moment and has this number in the order of application, counted from 0: an
/// announcement has the route's one encoding, a withdrawal is an end, and the end of a session has a value of no octets.
pub fn version_of_change(
    alloc: Global,
    time: Moment,
    order: u64,
    change: &Change,
) -> Result<Entry, AllocError>
    ensures version { IsChange change.now → IfOk result (λ entry. IsVersion order (at_time time change.now) (version_of entry)) }

    // A tree can take it: a leaf has room for it, and its key isn't the highest of all.
    ensures small { IsChange change.now → IfOk result (λ entry. entry_octets (version_of entry) ≤ 3131) }
    ensures inside { IsChange change.now → IfOk result (λ entry. entry.key + 1 < key_end) }
{
    let stamp = Stamp::new(time.number(), order);
    let key = key_of(change);
    let value = kept(alloc, value_of(change))?;
    Ok(Entry { key, stamp, value })
}

/// Applies a change that was reported at this moment: adds its version, with this number in the order of application. The versions
/// before it have lower stamps. After a refusal the versions are the same.
pub fn apply<V: Growing>(
    versions: &mut V,
    time: Moment,
    order: u64,
    change: &Change,
) -> Result<(), V::Refusal>
    requires change { IsChange change.now }
    ensures applied { (blocks : ℕ → Option BlockNode) (all : List Version) → V.represents_all versions.old blocks all → AreBefore (stamp_of time order) all → OnOk result (HasApplied (V.represents_all versions.new) blocks all order (at_time time change.now)) }
    ensures refused { (blocks : ℕ → Option BlockNode) (all : List Version) → V.represents_all versions.old blocks all → OnErr result (RepresentsGrown (V.represents_all versions.new) blocks all) }
{
    let stamp = Stamp::new(time.number(), order);
    let key = key_of(change);
    versions.insert(key, stamp, value_of(change))
}
