//! Both disks below an archive: given up, torn by a crash, and opened again.

use crate::made::{Made, one};
use disk_archive::{Archive, OpenError, Refused};
use disk_memory::{Call, Failure, MemErase, MemOnce, MemPen, OnceFailure, Torn, crash_both};
use disk_models::{EraseDisk, OnceDisk};
use std::alloc::Global;
use std::sync::Arc;

/// How many kinds of torn ranges there are.
pub(crate) const KINDS: u8 = 4;

/// How many crashes are tried: for each kind one that tears all ranges so, and one that tears them in turn.
pub(crate) const CRASHES: u8 = 5;

/// The crash that tears ranges in turn.
pub(crate) const IN_TURN: u8 = 4;

// The most ranges that are torn.
const RANGES: u8 = 40;

/// What a torn range holds: the last kind is octets that nobody wrote, first of all the commit flag of an open slot.
pub(crate) fn torn(alloc: Global, kind: u8) -> Option<Torn> {
    Some(match kind {
        0 => Torn::Old,
        1 => Torn::New,
        2 => Torn::Half,
        _ => Torn::Octets(Vec::from_slice(alloc, &[0xA5, 1, 2, 3, 4, 5, 6, 7, 8, 9]).ok()?),
    })
}

/// A write that fails and leaves this kind.
pub(crate) fn failed_write(alloc: Global, number: u64, kind: u8) -> Option<Failure> {
    Some(Failure::Write(number, torn(alloc, kind)?))
}

// What the ranges hold after a crash.
fn choice(alloc: Global, crash: u8) -> Option<Vec<Torn>> {
    let mut choice = Vec::new(alloc);
    for place in 0..RANGES {
        let kind = if crash < KINDS {
            crash
        } else {
            place.wrapping_add(crash) % KINDS
        };
        choice.push(torn(alloc, kind)?).ok()?;
    }
    Some(choice)
}

/// How many writes and syncs were made of an erasable disk.
#[derive(Clone, Copy)]
pub(crate) struct Calls {
    pub(crate) writes: u64,
    pub(crate) syncs: u64,
}

/// Both disks, with the pen of the write-once one.
#[derive(Drop)]
pub(crate) struct Both {
    pub(crate) erase: MemErase,
    pub(crate) once: MemOnce,
    pub(crate) pen: MemPen,
}

impl Both {
    /// The same disks once more. No failure is to come.
    pub(crate) fn copy(&self) -> Option<Both> {
        let erase = self.erase.copy().ok()?;
        let (once, pen) = self.once.copy(&self.pen).ok()?;
        Some(Both { erase, once, pen })
    }

    /// The disks after a crash now.
    pub(crate) fn crash(&self, alloc: Global, crash: u8) -> Option<Both> {
        let choice = choice(alloc, crash)?;
        let (erase, once, pen) = crash_both(
            &self.erase,
            &self.once,
            &self.pen,
            &choice,
            &choice,
        ).ok()?;
        Some(Both { erase, once, pen })
    }

    /// Lets a call of the erasable disk fail.
    pub(crate) fn fail(&mut self, alloc: Global, failure: Failure) -> Option<()> {
        self.erase.set_script(one(alloc, failure)?);
        Some(())
    }

    /// The same disks once more, of which a call of the erasable one is to fail.
    pub(crate) fn failing(&self, alloc: Global, failure: Failure) -> Option<Both> {
        let mut disks = self.copy()?;
        disks.fail(alloc, failure)?;
        Some(disks)
    }

    /// The same, of which a call of the write-once one is to fail.
    pub(crate) fn failing_once(&self, alloc: Global, failure: OnceFailure) -> Option<Both> {
        let mut disks = self.copy()?;
        disks.pen.set_script(one(alloc, failure)?);
        Some(disks)
    }

    /// How many writes and syncs these disks have more than what they were before.
    pub(crate) fn calls_since(&self, before: &Both) -> Calls {
        let mut calls = Calls {
            writes: 0,
            syncs: 0,
        };
        for call in self.erase.calls().iter().skip(before.erase.calls().len()) {
            match call {
                Call::Write(_) => calls.writes = calls.writes.saturating_add(1),
                Call::Sync => calls.syncs = calls.syncs.saturating_add(1),
            }
        }
        calls
    }

    /// Whether the erasable disk failed since a crash.
    pub(crate) fn erase_failed(&self) -> bool {
        self.erase.faults() > 0
    }

    /// Whether the write-once disk failed since a crash.
    pub(crate) fn once_failed(&self) -> bool {
        MemOnce::pen_faults(&self.pen) > 0
    }
}

/// The disks of an archive.
pub(crate) fn given_up(archive: Made) -> Both {
    let (erase, once, pen) = archive.into_disks();
    Both {
        erase,
        once: *once,
        pen,
    }
}

/// Disks that aren't opened.
#[derive(Drop)]
pub(crate) struct Unopened {
    pub(crate) disks: Both,
    pub(crate) error: OpenError,
}

/// What opening these disks returns. None where there is no memory.
pub(crate) fn open(alloc: Global, disks: Both) -> Option<Result<Made, Unopened>> {
    let Both { erase, once, pen } = disks;
    let once = Arc::new(alloc, once).ok()?;
    Some(match Archive::open(alloc, erase, once, pen) {
        Ok(archive) => Ok(archive),
        Err(
            Refused {
                erase,
                once,
                pen,
                error,
            },
        ) => Err(Unopened {
            disks: Both {
                erase,
                once: *once,
                pen,
            },
            error,
        }),
    })
}

/// The archive on these disks, which name one.
pub(crate) fn opened(alloc: Global, disks: Both) -> Option<Made> {
    open(alloc, disks)?.ok()
}

/// The archive on the disks after a crash now.
pub(crate) fn opened_after(alloc: Global, disks: &Both, crash: u8) -> Option<Made> {
    opened(alloc, disks.crash(alloc, crash)?)
}

/// The same archive, opened again.
pub(crate) fn reopened(alloc: Global, archive: Made) -> Option<Made> {
    opened(alloc, given_up(archive))
}
