//! Mixed calls of two collectors on disks that fail and crash, beside the pure machine, which never stops.

use crate::asked::answer;
use crate::be;
use crate::disks::{Both, CRASHES, Calls, given_up, open, opened};
use crate::drawn::{Chance, draw_call, draw_failure, draw_once_failure};
use crate::made::{Disks, Made, MemArchive, disks_of, made_on, octets_of, one};
use crate::model::Model;
use crate::reported::{Reported, State, make, state_of};
use archive_pages::Settings;
use disk_calls::NoReasons;
use interleaving_core::Step;
use route_model::Moment;
use route_model::octets::u64_at;
use std::alloc::Global;
use std::process::Abort;

// How many calls a run has.
const CALLS: u32 = 120;

// How many runs a test has.
const RUNS: u64 = 100;

// An archive on disks of 400 blocks and 200 pages for the tree, which fail at no call.
fn created(alloc: Global) -> Option<MemArchive> {
    let settings = Settings {
        collectors: 2,
        ring: 17,
    };
    let disks = Disks {
        blocks: 400,
        ..disks_of(alloc, 235)
    };
    let archive = made_on(alloc, disks, settings)?.ok()?;
    Some(MemArchive::new(archive, NoReasons))
}

/// What an opening that nothing stops finds: the archive, how many changes are applied according to the head on its home page, and how many calls
/// the opening made.
#[derive(Drop)]
struct Witness {
    disk: MemArchive,
    applied: u64,
    opening: Calls,
}

// How many changes are applied according to the head on its home page.
fn applied_on(alloc: Global, disks: &mut Both) -> Option<u64> {
    let head = octets_of(alloc, &mut disks.erase, 265)?;
    if head.len() < 8 {
        return None;
    }
    Some(u64_at(&head, 0))
}

fn witness_on(alloc: Global, left: &Both) -> Option<Witness> {
    let mut disks = given_up(opened(alloc, left.copy()?)?);
    let opening = disks.calls_since(left);
    let applied = applied_on(alloc, &mut disks)?;
    let archive = opened(alloc, disks)?;
    Some(Witness {
        disk: MemArchive::new(archive, NoReasons),
        applied,
        opening,
    })
}

/// An archive that was opened, and whether an opening before it was stopped.
#[derive(Drop)]
struct Opened {
    archive: Made,
    was_stopped: bool,
}

// Lets a call of these disks fail at some time, in one of three cases of the write-once one alone.
fn arm(alloc: Global, chance: &mut Chance, opening: Calls, disks: &mut Both) -> Option<()> {
    if chance.below(3) > 0 {
        let failure = draw_failure(alloc, chance, opening)?;
        disks.fail(alloc, failure)?;
    }
    let failure = draw_once_failure(alloc, chance)?;
    disks.pen.set_script(one(alloc, failure)?);
    Some(())
}

// Opens disks of which a call is to fail at some time. Where that is in the opening, it crashes, and they are opened again.
fn reopened(alloc: Global, chance: &mut Chance, opening: Calls, mut disks: Both) -> Option<Opened> {
    arm(alloc, chance, opening, &mut disks)?;
    match open(alloc, disks)? {
        Ok(archive) => Some(Opened {
            archive,
            was_stopped: false,
        }),
        Err(unopened) => {
            let left = unopened.disks.crash(alloc, chance.below(CRASHES))?;
            Some(Opened {
                archive: opened(alloc, left)?,
                was_stopped: true,
            })
        }
    }
}

/// What is found after a crash: the archive to go on with, what it returns, and the same archive on disks that don't fail.
#[derive(Drop)]
struct Found {
    disk: MemArchive,
    was_stopped: bool,
    state: State,
    witness: MemArchive,
}

fn find(alloc: Global, chance: &mut Chance, disks: &Both) -> Option<Found> {
    let left = disks.crash(alloc, chance.below(CRASHES))?;
    let Witness {
        disk: witness,
        applied,
        opening,
    } = witness_on(alloc, &left)?;
    let Opened {
        archive,
        was_stopped,
    } = reopened(alloc, chance, opening, left)?;
    let disk = MemArchive::new(archive, NoReasons);
    Some(Found {
        state: state_of(&disk, applied),
        disk,
        was_stopped,
        witness,
    })
}

// Whether both answer alike what stood of a prefix at a moment below the watermark.
fn answers_alike(
    alloc: Global,
    chance: &mut Chance,
    model: &mut Model,
    witness: &mut MemArchive,
    settled: u64,
) -> Option<bool> {
    let Some(moment) = settled.checked_sub(1 + u64::from(chance.below(20))) else {
        return Some(true);
    };
    let prefix = chance.below(4);
    let line = format!(in alloc; "at {moment} prefix 10.{prefix}.0.0/16").ok()?;
    let reported = answer(alloc, witness, &line)?;
    Some(!reported.starts_with(b"X") && model.answers_as(&line, &reported))
}

/// How often a run was stopped: in a call by either disk, in an opening, and by crashes between two calls.
#[derive(Clone, Copy)]
struct Stops {
    erasable: u32,
    once: u32,
    opening: u32,
    between: u32,
}

const NONE: Stops = Stops {
    erasable: 0,
    once: 0,
    opening: 0,
    between: 0,
};

impl Stops {
    // A call was stopped on these disks, or all crashed after it.
    fn count(&mut self, reported: Reported, disks: &Both) {
        match (reported, disks.once_failed()) {
            (Reported::Stopped, false) => self.erasable = self.erasable.saturating_add(1),
            (Reported::Stopped, true) => self.once = self.once.saturating_add(1),
            _ => self.between = self.between.saturating_add(1),
        }
    }

    fn count_opening(&mut self, was_stopped: bool) {
        if was_stopped {
            self.opening = self.opening.saturating_add(1);
        }
    }

    fn and(self, other: Stops) -> Stops {
        Stops {
            erasable: self.erasable.saturating_add(other.erasable),
            once: self.once.saturating_add(other.once),
            opening: self.opening.saturating_add(other.opening),
            between: self.between.saturating_add(other.between),
        }
    }
}

// Whether the archive is what the model is after a call that wasn't stopped.
fn goes_on(model: &mut Model, disk: &MemArchive, step: Step, reported: Reported) -> bool {
    let applied = disk.applied();
    model.does(step, reported, applied) && model.state() == Some(state_of(disk, applied))
}

/// Whether the model is left in this state, where a call of this step was stopped, if one was.
fn is_left(model: &mut Model, stopped: Option<Step>, state: &State) -> bool {
    match stopped {
        Some(step) => model.follows(step, state),
        None => model.state() == Some(*state),
    }
}

/// Whether the model answers as the archive that was found, after all was down.
fn goes_on_alike(
    alloc: Global,
    chance: &mut Chance,
    model: &mut Model,
    found: &mut Found,
) -> Option<bool> {
    let settled = found.state.settled.number() / Moment::SECOND;
    if !model.crash()? || found.disk.applied() != found.state.applied {
        return Some(false);
    }
    answers_alike(alloc, chance, model, &mut found.witness, settled)
}

// What is found after a crash, where that is what the model is: all that was reported as done is there, and a call that was stopped was
// made whole or not at all. One disk failed where a call was stopped, and elsewhere none did. None where it isn't so, or there is no
// memory.
fn find_alike(
    alloc: Global,
    chance: &mut Chance,
    model: &mut Model,
    disks: &Both,
    stopped: Option<Step>,
) -> Option<Found> {
    let is_failed = disks.erase_failed() || disks.once_failed();
    if is_failed != stopped.is_some() || disks.erase_failed() && disks.once_failed() {
        return None;
    }
    let mut found = find(alloc, chance, disks)?;
    let state = found.state;
    let is_alike = is_left(model, stopped, &state)
        && goes_on_alike(alloc, chance, model, &mut found)?;
    if !is_alike {
        return None;
    }
    Some(found)
}

/// A run of calls: the archive, the model, and how often it was stopped.
#[derive(Drop)]
struct Run {
    alloc: Global,
    chance: Chance,
    model: Model,
    stops: Stops,
}

impl Run {
    fn new(alloc: Global, seed: u64) -> Option<Run> {
        Some(Run {
            alloc,
            chance: Chance::new(seed),
            model: Model::new(alloc, 2)?,
            stops: NONE,
        })
    }

    // All crashes: the archive to go on with.
    fn crash(
        &mut self,
        disk: MemArchive,
        reported: Reported,
        stopped: Option<Step>,
    ) -> Option<MemArchive> {
        let disks = given_up(disk.into_archive());
        self.stops.count(reported, &disks);
        let Found {
            disk,
            was_stopped,
            ..
        } = find_alike(
            self.alloc,
            &mut self.chance,
            &mut self.model,
            &disks,
            stopped,
        )?;
        self.stops.count_opening(was_stopped);
        Some(disk)
    }

    // Makes the call of this number: the archive to go on with. It crashes after each call that fails, and after each sixteenth one.
    fn call(&mut self, mut disk: MemArchive, number: u32) -> Option<MemArchive> {
        let step = draw_call(self.alloc, &mut self.chance, number)?;
        let reported = make(&mut disk, &step);
        if reported == Reported::Stopped {
            return self.crash(disk, reported, Some(step));
        }
        if !goes_on(&mut self.model, &disk, step, reported) {
            return None;
        }
        if number % 16 == 15 {
            return self.crash(disk, reported, None);
        }
        Some(disk)
    }
}

// How often a run of calls is stopped. None where it doesn't go as the model's calls.
fn goes_alike(alloc: Global, seed: u64) -> Option<Stops> {
    let mut run = Run::new(alloc, seed)?;
    let mut disk = created(alloc)?;
    for number in 0..CALLS {
        disk = run.call(disk, number)?;
    }
    Some(run.stops)
}

// The runs from this seed on go as the model's calls. Taken together, in each of them a failing disk stops a call seven times or more,
// the erasable one four times; the write-once one stops ten calls in three of them, and an opening is stopped twice in each.
fn expect_alike(rt: &impl Abort, alloc: Global, first: u64) {
    let mut all = NONE;
    for seed in first..first.saturating_add(RUNS) {
        let stops = goes_alike(alloc, seed);
        be(rt, stops.is_some(), "a run as the machine's");
        all = all.and(stops.unwrap_or(NONE));
    }
    be(
        rt,
        all.erasable.saturating_add(all.once) >= 700,
        "calls that are stopped",
    );
    be(
        rt,
        all.erasable >= 400,
        "calls that the erasable disk stops",
    );
    be(rt, all.once >= 334, "calls that the write-once disk stops");
    be(rt, all.opening >= 200, "openings that are stopped");
    be(rt, all.between >= 400, "crashes between two calls");
}

#[test]
fn mixed_calls_go_on_after_stops(rt: HostRuntime) {
    expect_alike(&rt, rt.alloc(), 0);
}

#[test]
fn other_mixed_calls_go_on_after_stops(rt: HostRuntime) {
    expect_alike(&rt, rt.alloc(), RUNS);
}

#[test]
fn further_mixed_calls_go_on_after_stops(rt: HostRuntime) {
    expect_alike(&rt, rt.alloc(), 2 * RUNS);
}
