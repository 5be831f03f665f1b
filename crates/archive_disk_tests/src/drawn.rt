//! Calls of two collectors, and failures of both disks, drawn as if by chance.

use crate::disks::{Calls, KINDS, failed_write, torn};
use crate::made::{admission_of, large_route, mark_at, one, peer_of};
use disk_memory::{Failure, OnceFailure};
use interleaving_core::Step;
use route_model::{Address, Admission, Change, Prefix};
use std::alloc::Global;

/// Numbers that look like chance, each made of the one before (Knuth's MMIX).
#[derive(Drop)]
pub(crate) struct Chance {
    last: u64,
}

impl Chance {
    pub(crate) fn new(seed: u64) -> Chance {
        Chance { last: seed }
    }

    /// The next number, below an end of at least 1.
    pub(crate) fn below(&mut self, end: u8) -> u8 {
        self.last = self
            .last
            .wrapping_mul(6_364_136_223_846_793_005)
            .wrapping_add(1_442_695_040_888_963_407);
        ((self.last >> 33) % u64::from(end.max(1))) as u8
    }
}

fn draw_change(alloc: Global, chance: &mut Chance, collector: u8) -> Option<Change> {
    let peer = peer_of(collector);
    let prefix = Prefix::containing(Address::V4([10, chance.below(4), 0, 0]), 16);
    Some(match chance.below(8) {
        0 => Change::Down(peer),
        1 => Change::Withdraw(peer, prefix),
        number => Change::Announce(peer, prefix, large_route(alloc, number)?),
    })
}

// A record of one or two changes.
fn draw_record(alloc: Global, chance: &mut Chance, collector: u8, now: u32) -> Option<Admission> {
    let mut changes = one(alloc, draw_change(alloc, chance, collector)?)?;
    if chance.below(3) == 0 {
        changes.push(draw_change(alloc, chance, collector)?).ok()?;
    }
    let time = now.saturating_sub(u32::from(chance.below(4)));
    admission_of(time, changes)
}

// One or two records. Some are late.
fn draw_batch(
    alloc: Global,
    chance: &mut Chance,
    collector: u8,
    now: u32,
) -> Option<Vec<Admission>> {
    let mut batch = Vec::new(alloc);
    for _ in 0..=chance.below(2) {
        batch
            .push(draw_record(alloc, chance, collector, now)?)
            .ok()?;
    }
    Some(batch)
}

/// The call of this number of an archive of two collectors, as a step of the pure machine.
pub(crate) fn draw_call(alloc: Global, chance: &mut Chance, number: u32) -> Option<Step> {
    let now = number.saturating_add(100);
    let collector = chance.below(2);
    Some(match chance.below(8) {
        0 | 1 => Step::Admit(collector, draw_batch(alloc, chance, collector, now)?),
        2 | 3 => Step::Mark(
            collector,
            mark_at(now.saturating_sub(u32::from(chance.below(4)))),
        ),
        4 => Step::Flush,
        _ => Step::Apply(0),
    })
}

/// A failure of the erasable disk, where an opening makes this many calls of it: mostly at one of the next calls after those.
pub(crate) fn draw_failure(alloc: Global, chance: &mut Chance, opening: Calls) -> Option<Failure> {
    let kind = chance.below(KINDS);
    match chance.below(8) {
        0 => Some(Failure::Read(u64::from(chance.below(40)))),
        1 => failed_write(alloc, u64::from(chance.below(8)), kind),
        2 | 3 => {
            let number = opening.syncs.saturating_add(u64::from(chance.below(6)));
            Some(Failure::Sync(number))
        }
        _ => {
            let number = opening.writes.saturating_add(u64::from(chance.below(20)));
            failed_write(alloc, number, kind)
        }
    }
}

/// A failure of the write-once disk, at one of its next calls.
pub(crate) fn draw_once_failure(alloc: Global, chance: &mut Chance) -> Option<OnceFailure> {
    let number = u64::from(chance.below(2));
    Some(match chance.below(4) {
        0 => OnceFailure::Settle(number),
        // An opening looks for a blank block once at least.
        1 => OnceFailure::Blank(number.saturating_add(1)),
        _ => OnceFailure::Burn(number, torn(alloc, chance.below(KINDS))?),
    })
}
