//! A life is stopped and goes on.

use crate::be_at;
use disk_archive::OpenError;
use std::process::Abort;
use swept_lives::{Both, Disk, KINDS, NOW, Outcome, Played, Stage, numbered};

/// Where a life is cut off, and in which way it is stopped then.
#[derive(Clone, Copy)]
pub(crate) struct Stop {
    pub(crate) disk: Disk,
    pub(crate) k: u64,
    pub(crate) way: u64,
}

/// What a stop leaves: the disks after it, the act that was stopped, and the places of the states before and after it.
#[derive(Drop)]
struct Left {
    disks: Both,
    act: usize,
    before: usize,
    after: usize,
    /// Whether all is synced: the disks crashed. Else the first sync of an opening fixes what was written last.
    is_fixed: bool,
}

/// The archive on these disks.
pub(crate) fn opened(rt: &impl Abort, stage: &Stage, disks: Both) -> Played {
    match disks.open(stage.alloc) {
        Ok(archive) => archive,
        Err(_) => panic!(rt; "the disks are refused"),
    }
}

/// The life is made until it is stopped: how many acts were whole. An application of fewer changes than it would have is stopped too.
pub(crate) fn play(stage: &Stage, archive: &mut Played) -> usize {
    let life = stage.script.life;
    for number in 0..life {
        let is_done = stage.make(archive, number).is_done();
        if !is_done || !stage.is_state(archive, stage.place_at(number.saturating_add(1))) {
            return number;
        }
    }
    life
}

/// The disks after a stop of this way, where one of them was cut off.
fn stopped(rt: &impl Abort, disks: &Both, way: u64) -> Both {
    be_at(rt, disks.are_cut(), "a disk is stopped", way);
    disks.stop(way).expect(rt, "memory")
}

/// The disks of which one is cut off at its k-th call.
fn cut(rt: &impl Abort, disks: &Both, disk: Disk, k: u64) -> Both {
    let mut disks = disks.copy().expect(rt, "memory");
    disks.cut(disk, k);
    disks
}

/// What a stop leaves. Where the opening was stopped, no act was.
fn left_of(rt: &impl Abort, stage: &Stage, stop: &Stop) -> Left {
    let (disks, act, after) = match cut(rt, &stage.disks, stop.disk, stop.k).open(stage.alloc) {
        Ok(mut archive) => {
            let act = play(stage, &mut archive);
            (archive.given_up(), act, act.saturating_add(1))
        }
        Err(handed) => {
            be_at(
                rt,
                handed.error == OpenError::Fault,
                "a disk failed",
                stop.k,
            );
            (handed.disks, 0, 0)
        }
    };
    Left {
        disks: stopped(rt, &disks, stop.way),
        act,
        before: stage.place_at(act),
        after: stage.place_at(after),
        is_fixed: stop.way < KINDS,
    }
}

/// The life goes on after a stop, in a state of before or after the act that was stopped, or between both. It comes to the end of one that
/// is never stopped, and burns no block twice. Returns the place of this state.
fn live_on(rt: &impl Abort, stage: &Stage, stop: &Stop, left: &Left) -> usize {
    let disks = left.disks.copy().expect(rt, "memory");
    let mut archive = opened(rt, stage, disks);
    let found = stage.find(&archive, left.before, left.after);
    let place = found.expect(rt, "a state of before or after");
    let is_either = place == left.before || place == left.after || matches!(stop.disk, Disk::Once);
    let is_there = is_either && stage.is_at(&mut archive, place);
    be_at(rt, is_there, "before or after, at a call", stop.k);
    let is_whole = place == left.after && left.before < left.after;
    let next = left.act.saturating_add(usize::from(is_whole));
    let is_done = stage.play_from(&mut archive, next)
        && stage.is_at(&mut archive, stage.last_place());
    let disks = archive.given_up();
    let is_well = is_done && numbered(disks.pen.settled(), 0, true).is_some();
    be_at(rt, is_well, "the end of a life, at a call", stop.k);
    place
}

/// A crash of an opening that was cut off at its k-th call leaves the state that is found where it isn't cut off, but for a cut at the
/// first sync: that leaves one of before or after the act that was stopped.
fn leaves(
    rt: &impl Abort,
    stage: &Stage,
    cut: &Both,
    left: &Left,
    place: usize,
    k: u64,
    kind: u64,
) {
    let mut archive = opened(rt, stage, stopped(rt, cut, kind));
    let (from, to) = if k == 1 && !left.is_fixed {
        (left.before, left.after)
    } else {
        (place, place)
    };
    let found = stage.find(&archive, from, to);
    let place = found.expect(rt, "a state after an opening");
    let number = (k.saturating_add(kind) % 14) as usize;
    let is_there = stage.ask(&mut archive, place, NOW) == Outcome::Done
        && stage.ask(&mut archive, place, number) == Outcome::Done;
    be_at(rt, is_there, "an opening that is cut off, at a call", k);
}

/// The disks where an opening is stopped at its k-th call that writes; none where it has fewer.
pub(crate) fn cut_opening(rt: &impl Abort, stage: &Stage, disks: &Both, k: u64) -> Option<Both> {
    match cut(rt, disks, Disk::Erasable, k).open(stage.alloc) {
        Ok(_) => None,
        Err(handed) => {
            be_at(rt, handed.error == OpenError::Fault, "a disk failed", k);
            Some(handed.disks)
        }
    }
}

/// Each opening that is cut off leaves a state that may be found. Returns how many were.
fn open_all(rt: &impl Abort, stage: &Stage, left: &Left, place: usize) -> u64 {
    let mut openings: u64 = 0;
    for k in 1..1_000 {
        let Some(cut) = cut_opening(rt, stage, &left.disks, k) else {
            return openings;
        };
        for kind in 0..KINDS {
            leaves(rt, stage, &cut, left, place, k, kind);
            openings = openings.saturating_add(1);
        }
    }
    panic!(rt; "an opening has fewer calls")
}

/// The life goes on after a stop, also where the opening is stopped. Returns how many openings were.
pub(crate) fn go_on(rt: &impl Abort, stage: &Stage, stop: &Stop) -> u64 {
    let left = left_of(rt, stage, stop);
    let place = live_on(rt, stage, stop, &left);
    open_all(rt, stage, &left, place)
}
