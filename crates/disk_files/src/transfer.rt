//! Octets are read and written whole.

ghost use Rattle.std.specs.Prelude.{◌≡◌, ◌↔◌, ◌≤◌, ◌<◌, ◌+◌, ◌^◌, length, take, true, ℕ, IfOk, IsErr, OnErr, OnOk};
ghost use Rattle.disk_models.specs.Octets.{octets};
ghost use Rattle.disk_models.specs.Erase.{Lingers, Stays, Syncs, WritesWithin};

use crate::failure::{Call, Reason};
use crate::file::OctetFile;
use disk_models::Fault;
use std::io::ErrorKind;

/// The failure of a call on a file, which is noted with its reason.
fn fault<F: OctetFile>(file: &F, call: Call, reason: Reason) -> Fault {
    file.note(call, reason);
    Fault
}

/// The file has all the octets that it should have, so that the call can be made. One that was cut would grow again with a write
/// past its end, by zeros that no one wrote.
fn look_at_size<F: OctetFile>(file: &F, size: u64, call: Call) -> Result<(), Fault>
    ensures cut { F.follows file.now → F.octet_count file.now < size → IsErr result }
{
    match file.facts() {
        Ok(facts) if facts.size >= size => Ok(()),
        Ok(_) => Err(fault(file, call, Reason::Cut)),
        Err(e) => Err(fault(file, call, Reason::of(&e))),
    }
}

/// Reads more of a range, of which `got` octets were read. Returns how many came: none if the call was interrupted.
fn read_more<F: OctetFile>(
    file: &mut F,
    at: u64,
    into: &mut [u8],
    got: usize,
) -> Result<usize, Fault>
    requires room { got < length into.old }
    requires fits { at + length into.old < 2 ^ 64 }
    ensures bound { IfOk result (λ n. got + n ≤ length into.old) }
    ensures follows { F.follows file.old ↔ F.follows file.new }
    ensures octets { F.follows file.old → take got into.old ≡ octets (F.model file.old).octet at got
        → IfOk result (λ n. take (got + n) into.new ≡ octets (F.model file.old).octet at (got + n)) }
    ensures stays { F.follows file.old → Stays (F.model file.old) (F.model file.new) }
{
    match file.read_some(at + got as u64, &mut into[got..]) {
        Ok(0) => Err(fault(file, Call::Read, Reason::Cut)),
        Ok(n) => Ok(n),
        Err(e) if e.kind() == ErrorKind::Interrupted => Ok(0),
        Err(e) => Err(fault(file, Call::Read, Reason::of(&e))),
    }
}

/// Reads the octets from a place on. A file that ends before is a failure.
pub(crate) fn read_whole<F: OctetFile>(file: &mut F, at: u64, into: &mut [u8]) -> Result<(), Fault>
    requires { at + length into.old < 2 ^ 64 }
    ensures follows { F.follows file.old ↔ F.follows file.new }
    ensures octets { F.follows file.old → OnOk result (into.new ≡ octets (F.model file.old).octet at (length into.old)) }
    ensures stays { F.follows file.old → Stays (F.model file.old) (F.model file.new) }
{
    let mut got = 0;
    for _ in 0..u64::MAX {
        if got == into.len() {
            return Ok(());
        }
        got += read_more(file, at, into, got)?;
    }
    Err(Fault)
}

/// Writes more of some octets, of which `put` were written. Returns how many went: none if the call was interrupted.
fn write_more<F: OctetFile>(file: &mut F, at: u64, from: &[u8], put: usize) -> Result<usize, Fault>
    requires room { put < length from.now }
    requires fits { at + length from.now < 2 ^ 64 }
    ensures bound { IfOk result (λ n. put + n ≤ length from.now) }
    ensures follows { F.follows file.old ↔ F.follows file.new }
    ensures octets { F.follows file.old → octets (F.model file.old).octet at put ≡ take put from.now
        → IfOk result (λ n. octets (F.model file.new).octet at (put + n) ≡ take (put + n) from.now) }
    ensures within { F.follows file.old → WritesWithin at (length from.now) (F.model file.old) (F.model file.new) }
{
    match file.write_some(at + put as u64, &from[put..]) {
        Ok(0) => Err(fault(file, Call::Write, Reason::Kind(ErrorKind::WriteZero))),
        Ok(n) => Ok(n),
        Err(e) if e.kind() == ErrorKind::Interrupted => Ok(0),
        Err(e) => Err(fault(file, Call::Write, Reason::of(&e))),
    }
}

/// Writes octets from a place on, in a file of this size. One that is shorter is a failure, and isn't written.
pub(crate) fn write_whole<F: OctetFile>(
    file: &mut F,
    size: u64,
    at: u64,
    from: &[u8],
) -> Result<(), Fault>
    requires { at + length from.now ≤ size }
    ensures follows { F.follows file.old ↔ F.follows file.new }
    ensures octets { F.follows file.old → OnOk result (octets (F.model file.new).octet at (length from.now) ≡ from.now) }
    ensures within { F.follows file.old → WritesWithin at (length from.now) (F.model file.old) (F.model file.new) }
    ensures cut { F.follows file.old → F.octet_count file.old < size → IsErr result × (file.new ≡ file.old) }
{
    look_at_size(file, size, Call::Write)?;
    let mut put = 0;
    for _ in 0..u64::MAX {
        if put == from.len() {
            return Ok(());
        }
        put += write_more(file, at, from, put)?;
    }
    Err(Fault)
}

/// Brings what was written to the device, of a file of this size. One that is shorter is a failure, and isn't synced: a failure settles
/// nothing.
pub(crate) fn sync_whole<F: OctetFile>(file: &mut F, size: u64) -> Result<(), Fault>
    ensures follows { F.follows file.old ↔ F.follows file.new }
    ensures syncs { F.follows file.old → OnOk result (Syncs (F.model file.old) (F.model file.new)) }
    ensures lingers { F.follows file.old → Lingers (F.model file.old) (F.model file.new) }
    ensures nothing_settled { F.follows file.old → OnErr result ((i : ℕ) → (F.model file.old).unsynced i → (F.model file.new).unsynced i) }
    ensures cut { F.follows file.old → F.octet_count file.old < size → IsErr result × (file.new ≡ file.old) }
{
    look_at_size(file, size, Call::Sync)?;
    match file.sync() {
        Ok(()) => Ok(()),
        Err(e) => Err(fault(file, Call::Sync, Reason::of(&e))),
    }
}
