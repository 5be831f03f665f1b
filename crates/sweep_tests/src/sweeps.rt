//! All stops, dealt out over some tests.

use crate::be;
use crate::stops::{Stop, go_on};
use std::alloc::Global;
use std::process::Abort;
use swept_lives::{Disk, LONG, RISING, Script, WAYS, prepare};

/// The stops of a life by a disk at its calls from one on and before another one, and how many lives and openings are stopped in them.
struct Deal {
    life: Script,
    disk: Disk,
    from: u64,
    to: u64,
    lives: u64,
    openings: u64,
}

/// Each stop of a deal goes on, and there are as many as it says.
fn sweep(rt: &impl Abort, alloc: Global, deal: &Deal) {
    let stage = prepare(alloc, &deal.life).expect(rt, "a stage");
    let mut lives: u64 = 0;
    let mut openings: u64 = 0;
    for number in deal.from.saturating_mul(WAYS)..deal.to.saturating_mul(WAYS) {
        let stop = Stop {
            disk: deal.disk,
            k: number / WAYS,
            way: number % WAYS,
        };
        openings = openings.saturating_add(go_on(rt, &stage, &stop));
        lives = lives.saturating_add(1);
    }
    let is_counted = lives == deal.lives && openings == deal.openings;
    be(rt, is_counted, "the stops are counted");
}

/// All burns and settles of the life.
const BURNS: Deal = Deal {
    life: LONG,
    disk: Disk::Once,
    from: 1,
    to: 11,
    lives: 50,
    openings: 3_040,
};

const FIRST: Deal = Deal {
    life: LONG,
    disk: Disk::Erasable,
    from: 1,
    to: 69,
    lives: 340,
    openings: 23_212,
};

const SECOND: Deal = Deal {
    life: LONG,
    disk: Disk::Erasable,
    from: 69,
    to: 102,
    lives: 165,
    openings: 23_264,
};

const THIRD: Deal = Deal {
    life: LONG,
    disk: Disk::Erasable,
    from: 102,
    to: 143,
    lives: 205,
    openings: 22_984,
};

/// All writes and syncs of a life in which the root rises.
const RISE: Deal = Deal {
    life: RISING,
    disk: Disk::Erasable,
    from: 1,
    to: 48,
    lives: 235,
    openings: 11_652,
};

/// All its burns and settles.
const RISE_BURNS: Deal = Deal {
    life: RISING,
    disk: Disk::Once,
    from: 1,
    to: 3,
    lives: 10,
    openings: 200,
};

#[test]
fn burns_and_settles_are_cut_off(rt: HostRuntime) {
    sweep(&rt, rt.alloc(), &BURNS);
    sweep(&rt, rt.alloc(), &RISE_BURNS);
}

#[test]
fn writes_and_syncs_of_the_first_deal_are_cut_off(rt: HostRuntime) {
    sweep(&rt, rt.alloc(), &FIRST);
}

#[test]
fn writes_and_syncs_of_the_second_deal_are_cut_off(rt: HostRuntime) {
    sweep(&rt, rt.alloc(), &SECOND);
}

#[test]
fn writes_and_syncs_of_the_third_deal_are_cut_off(rt: HostRuntime) {
    sweep(&rt, rt.alloc(), &THIRD);
}

#[test]
fn writes_and_syncs_are_cut_off_where_the_root_rises(rt: HostRuntime) {
    sweep(&rt, rt.alloc(), &RISE);
}
