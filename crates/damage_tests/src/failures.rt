//! Each call of a disk in a life fails once, alone, dealt out over some tests.

use crate::failing::{Device, fail, faults};
use crate::refused::{Refusal, Trial, end, live};
use crate::{be_at, copied, opened};
use std::alloc::Global;
use std::process::Abort;
use swept_lives::{LONG, NOW, Outcome, RISING, Script, Stage, check, prepare};

/// Failures of calls of one kind, from one on and before another one, and how many of them come in a life.
struct Deal {
    call: Device,
    from: u64,
    to: u64,
    failures: u64,
}

/// The archive must be opened again after a failure of a write or a sync.
fn refusal_of(call: Device) -> Refusal {
    match call {
        Device::Write | Device::Sync => Refusal::Pages,
        _ => Refusal::Device,
    }
}

/// A life in which this failure may come. Each that comes is returned by a call. Returns how many came.
fn live_with(rt: &impl Abort, stage: &Stage, call: Device, number: u64) -> u64 {
    let mut trial = Trial {
        refusal: refusal_of(call),
        number,
        refused: 0,
    };
    let mut disks = copied(rt, &stage.disks);
    fail(rt, stage.alloc, &mut disks, call, number);
    let disks = live(rt, &mut trial, stage, disks);
    let is_returned = faults(&disks) == trial.refused;
    be_at(rt, is_returned, "a failure is returned", number);
    end(rt, &trial, stage, &disks);
    trial.refused
}

/// Each failure of a deal, of which there are as many as it says.
fn sweep(rt: &impl Abort, stage: &Stage, deal: &Deal) {
    let mut failures: u64 = 0;
    for number in deal.from..deal.to {
        let came = live_with(rt, stage, deal.call, number);
        failures = failures.saturating_add(came);
    }
    be_at(rt, failures == deal.failures, "failures", failures);
}

/// Each of these deals of a life.
fn sweep_all(rt: &impl Abort, alloc: Global, life: &Script, deals: &[Deal]) {
    let stage = prepare(alloc, life).expect(rt, "a stage");
    for deal in deals {
        sweep(rt, &stage, deal);
    }
}

fn is_fault(rt: &impl Abort, outcome: Outcome, number: u64) -> u64 {
    let is_fault = outcome == Outcome::Fault;
    let is_either = is_fault || outcome == Outcome::Done;
    be_at(rt, is_either, "an answer where a block isn't read", number);
    u64::from(is_fault)
}

/// How many questions, and whether a check, are refused where each read of a block that has this number in its question fails.
fn refused_reads(rt: &impl Abort, stage: &Stage, number: u64) -> u64 {
    let mut disks = copied(rt, &stage.disks);
    fail(rt, stage.alloc, &mut disks, Device::ReadBlock, number);
    let mut archive = opened(rt, stage, disks);
    let changes = archive.archive.applied();
    let mut refused: u64 = 0;
    for turn in 0..NOW {
        let outcome = stage.ask(&mut archive, 0, turn);
        refused = refused.saturating_add(is_fault(rt, outcome, number));
    }
    let outcome = check(&mut archive, changes);
    refused.saturating_add(is_fault(rt, outcome, number))
}

/// Of a life whose column is split in time: all calls but writes.
const CALLS: [Deal; 6] = [
    Deal {
        call: Device::Read,
        from: 0,
        to: 38,
        failures: 37,
    },
    Deal {
        call: Device::Sync,
        from: 0,
        to: 48,
        failures: 47,
    },
    Deal {
        call: Device::Blank,
        from: 0,
        to: 8,
        failures: 7,
    },
    Deal {
        call: Device::Burn,
        from: 0,
        to: 28,
        failures: 24,
    },
    Deal {
        call: Device::Settle,
        from: 0,
        to: 7,
        failures: 6,
    },
    Deal {
        call: Device::Look,
        from: 0,
        to: 41,
        failures: 40,
    },
];

/// Its first writes.
const WRITES: [Deal; 1] = [Deal {
    call: Device::Write,
    from: 0,
    to: 320,
    failures: 320,
}];

/// All its later writes.
const LATER_WRITES: [Deal; 1] = [Deal {
    call: Device::Write,
    from: 320,
    to: 480,
    failures: 156,
}];

/// Of a life in which the root rises.
const RISE: [Deal; 7] = [
    Deal {
        call: Device::Read,
        from: 0,
        to: 26,
        failures: 25,
    },
    Deal {
        call: Device::Write,
        from: 0,
        to: 224,
        failures: 220,
    },
    Deal {
        call: Device::Sync,
        from: 0,
        to: 25,
        failures: 24,
    },
    Deal {
        call: Device::Blank,
        from: 0,
        to: 4,
        failures: 3,
    },
    Deal {
        call: Device::Burn,
        from: 0,
        to: 12,
        failures: 8,
    },
    Deal {
        call: Device::Settle,
        from: 0,
        to: 3,
        failures: 2,
    },
    Deal {
        call: Device::Look,
        from: 0,
        to: 30,
        failures: 29,
    },
];

/// How many questions and checks are refused where each read of a block that has this number in its question fails, from number 0 on.
const READS: [u64; 3] = [5, 2, 2];

#[test]
fn all_calls_but_writes_fail_once(rt: HostRuntime) {
    sweep_all(&rt, rt.alloc(), &LONG, &CALLS);
}

#[test]
fn writes_fail_once(rt: HostRuntime) {
    sweep_all(&rt, rt.alloc(), &LONG, &WRITES);
}

#[test]
fn later_writes_fail_once(rt: HostRuntime) {
    sweep_all(&rt, rt.alloc(), &LONG, &LATER_WRITES);
}

#[test]
fn calls_fail_once_where_the_root_rises(rt: HostRuntime) {
    sweep_all(&rt, rt.alloc(), &RISING, &RISE);
}

#[test]
fn reads_of_blocks_fail(rt: HostRuntime) {
    let stage = prepare(rt.alloc(), &LONG).expect(&rt, "a stage");
    for (number, expected) in READS.iter().enumerate() {
        let refused = refused_reads(&rt, &stage, number as u64);
        be_at(&rt, refused == *expected, "refused questions", refused);
    }
}
