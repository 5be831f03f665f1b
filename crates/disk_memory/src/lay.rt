//! Reading by replay.

ghost use Rattle.std.specs.Prelude.{◌≡◌, ◌≤◌, ◌<◌, ◌+◌, ◌∷◌, [], ◌++◌, ℕ, List, length, take, drop, IsTrue};
ghost use Rattle.disk_models.specs.Octets.{Within, octets};
ghost use Rattle.disk_memory.specs.Replay.{octet_of, written};
ghost use Rattle.disk_memory.specs.inner.Replaying.{replayed};

use crate::call::{Call, Written};

/// Puts octets over those from a place on.
fn put(into: &mut [u8], from: usize, octets: &[u8])
    requires { from + length octets.now ≤ length into.old }
    ensures { into.new ≡ take from into.old ++ octets.now ++ drop (from + length octets.now) into.old }
{
    into[from..from + octets.len()].copy_from_slice(octets);
}

/// Lays a write over the octets from a place on. It touches what both have in common alone.
fn lay(into: &mut [u8], at: u64, write: &Written)
    requires { at + length into.old < 18446744073709551616 }
    ensures { (f : ℕ → ℕ) → into.old ≡ octets f at (length into.old) → into.new ≡ octets (written write.now f) at (length into.old) }
{
    let first = write.at();
    let kept = write.octets();
    let kept = &kept[..kept.len().min(write.length() as usize)];
    let start = first.max(at);
    let end = first
        .saturating_add(kept.len() as u64)
        .min(at + into.len() as u64);
    if start < end {
        let part = &kept[(start - first) as usize..(end - first) as usize];
        put(into, (start - at) as usize, part);
    }
}

/// Whether a call is a write that covers a range: what it leaves there depends on nothing before it.
fn covers(call: &Call, at: u64, size: usize) -> bool
    requires { at + size < 18446744073709551616 }
    ensures { IsTrue result → (f g : ℕ → ℕ) (i : ℕ) → Within at size i → replayed (call.now ∷ []) f i ≡ replayed (call.now ∷ []) g i }
{
    match call {
        Call::Write(write) => {
            let first = write.at();
            let kept = write.octets().len().min(write.length() as usize);
            first <= at && (at - first) + size as u64 <= kept as u64
        }
        Call::Sync => false,
    }
}

/// From where on the calls must be replayed to read a range: the last write that covers it, or the first call.
fn last_cover(calls: &[Call], at: u64, size: usize) -> usize
    requires { at + size < 18446744073709551616 }
    ensures inside { result ≤ length calls.now }
    ensures enough { (i : ℕ) → Within at size i → replayed (drop result calls.now) (λ _. 0) i ≡ replayed calls.now (λ _. 0) i }
{
    let mut first = calls.len();
    while first > 0 {
        first -= 1;
        if covers(&calls[first], at, size) {
            return first;
        }
    }
    0
}

/// Replays one call more.
fn replay_call(into: &mut [u8], at: u64, call: &Call)
    requires { at + length into.old < 18446744073709551616 }
    ensures { (f : ℕ → ℕ) → into.old ≡ octets f at (length into.old) → into.new ≡ octets (replayed (call.now ∷ []) f) at (length into.old) }
{
    match call {
        Call::Write(write) => lay(into, at, write),
        Call::Sync => {}
    }
}

/// What a read gives after these calls, from a place on.
pub(crate) fn replay(calls: &[Call], at: u64, into: &mut [u8])
    requires { at + length into.old < 18446744073709551616 }
    ensures { into.new ≡ octets (octet_of calls.now) at (length into.old) }
{
    let first = last_cover(calls, at, into.len());
    into.fill(0);
    for call in &calls[first..] {
        replay_call(into, at, call);
    }
}
