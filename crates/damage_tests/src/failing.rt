//! One call of a disk fails, and no other.

use disk_memory::{Failure, MemOnce, OnceFailure};
use disk_models::{EraseDisk, OnceDisk};
use std::alloc::Global;
use std::process::Abort;
use swept_lives::{Both, KINDS, torn};

/// The calls of both disks.
#[derive(Clone, Copy)]
pub(crate) enum Device {
    Read,
    Write,
    Sync,
    /// A look whether a block is blank.
    Blank,
    Burn,
    Settle,
    /// A look at what is settled.
    Look,
    /// A read of a block, by each reader that looks from then on.
    ReadBlock,
}

fn fail_erase(rt: &impl Abort, alloc: Global, disks: &mut Both, failure: Failure) {
    let script = vec![in alloc; failure].expect(rt, "memory");
    disks.erase.set_script(script);
}

fn fail_once(rt: &impl Abort, alloc: Global, disks: &mut Both, failure: OnceFailure) {
    let script = vec![in alloc; failure].expect(rt, "memory");
    disks.pen.set_script(script);
}

/// Has a call fail: its number among those of its kind, from 0 on; a write and a burn leave what each kind of torn range has, so their
/// numbers are times the kinds, and which of these.
pub(crate) fn fail(rt: &impl Abort, alloc: Global, disks: &mut Both, call: Device, number: u64) {
    let (write, kind) = (number / KINDS, number % KINDS);
    match call {
        Device::Read => fail_erase(rt, alloc, disks, Failure::Read(number)),
        Device::Write => fail_erase(rt, alloc, disks, Failure::Write(write, torn(kind))),
        Device::Sync => fail_erase(rt, alloc, disks, Failure::Sync(number)),
        Device::Blank => fail_once(rt, alloc, disks, OnceFailure::Blank(number)),
        Device::Burn => fail_once(rt, alloc, disks, OnceFailure::Burn(write, torn(kind))),
        Device::Settle => fail_once(rt, alloc, disks, OnceFailure::Settle(number)),
        Device::Look => fail_once(rt, alloc, disks, OnceFailure::Look(number)),
        Device::ReadBlock => fail_once(rt, alloc, disks, OnceFailure::Read(number)),
    }
}

/// How often a disk failed.
pub(crate) fn faults(disks: &Both) -> u64 {
    let pen = MemOnce::pen_faults(&disks.pen);
    disks.erase.faults().saturating_add(pen)
}
