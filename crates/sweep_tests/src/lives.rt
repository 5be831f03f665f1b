//! What happens in a life that is never stopped.

use crate::be;
use crate::stops::{opened, play};
use disk_memory::{Burn, Call};
use route_model::octets::u64_at;
use std::process::Abort;
use swept_lives::{
    Answered, Both, LONG, NOW, Outcome, PAGE, RISING, Stage, check, octets_of, prepare,
};

/// What happens in a life: its calls that write, what is burnt, and what becomes of pages and slots.
#[derive(Clone, Copy, PartialEq, Eq)]
struct Happened {
    writes_and_syncs: usize,
    burns: usize,
    /// Leaves that are split by time.
    leaf_blocks: usize,
    /// Columns that are split by time, each of 648 parts.
    column_blocks: usize,
    /// A column that is split by key takes two of them.
    new_pages: u64,
    /// By how many levels the root rises.
    levels: u8,
    /// Slots of the journal that are closed: those that are open before, by the opening; the oldest, by a commit that takes the last free
    /// one; and all that are open, by a checkpoint.
    closed: usize,
    /// Records that are late.
    late: u64,
}

const LONG_LIFE: Happened = Happened {
    writes_and_syncs: 142,
    burns: 5,
    leaf_blocks: 4,
    column_blocks: 1,
    new_pages: 4,
    levels: 0,
    closed: 16,
    late: 1,
};

const RISING_LIFE: Happened = Happened {
    writes_and_syncs: 47,
    burns: 1,
    leaf_blocks: 1,
    column_blocks: 0,
    new_pages: 3,
    levels: 1,
    closed: 2,
    late: 0,
};

/// Changes that a check counts at the end of each life.
const LONG_CHANGES: u64 = 1_323;

const RISING_CHANGES: u64 = 7;

/// The disks after the life, where a check counts this many changes.
fn live(rt: &impl Abort, stage: &Stage, changes: u64) -> Both {
    let disks = stage.disks.copy().expect(rt, "memory");
    let mut archive = opened(rt, stage, disks);
    let is_done = play(stage, &mut archive) == stage.script.life;
    let is_counted = is_done && check(&mut archive, changes) == Outcome::Done;
    be(rt, is_counted, "a life, and its changes");
    archive.given_up()
}

/// How many blocks begin so.
fn count_blocks(burns: &[Burn], front: &[u8]) -> usize {
    let mut count: usize = 0;
    for burn in burns {
        let is_one = burn.block().octets().starts_with(front);
        count = count.saturating_add(usize::from(is_one));
    }
    count
}

/// A column of 648 parts.
const COLUMN: [u8; 6] = [2, 1, 1, 0, 2, 0x88];

const LEAF: [u8; 4] = [1, 1, 0, 0];

/// How many of these calls close a slot: they write a commit flag, and not that of an open slot.
fn count_closed(calls: &[Call]) -> usize {
    let mut count: usize = 0;
    for call in calls {
        let Call::Write(write) = call else {
            continue;
        };
        let at = write.at();
        let is_one = at >= PAGE
            && at < 265 * PAGE
            && (at - PAGE) % (33 * PAGE) == 0
            && !write.octets().starts_with(&[0xA5]);
        count = count.saturating_add(usize::from(is_one));
    }
    count
}

/// What the head has once all pages are home: the first page that was never used, and the level of the root.
#[derive(Clone, Copy)]
struct Tree {
    next: u64,
    level: u8,
}

fn tree_of(rt: &impl Abort, stage: &Stage, disks: &Both) -> Tree {
    let disks = disks.copy().expect(rt, "memory");
    let mut disks = opened(rt, stage, disks).given_up();
    let head = octets_of(stage.alloc, &mut disks.erase, 265).expect(rt, "a page");
    if head.len() < 48 {
        panic!(rt; "a head");
    }
    let root = u64_at(&head, 40).saturating_add(265);
    let page = octets_of(stage.alloc, &mut disks.erase, root).expect(rt, "a page");
    Tree {
        next: u64_at(&head, 24),
        level: *page.get(2).expect(rt, "a level"),
    }
}

/// How many records of collector 1 were late.
fn late(stage: &Stage) -> u64 {
    let Some(known) = stage.known.last() else {
        return u64::MAX;
    };
    match &known.state.second {
        Some(resume) => resume.offered.wrapping_sub(resume.admitted),
        None => u64::MAX,
    }
}

/// This happens in a life.
fn happens(rt: &impl Abort, stage: &Stage, changes: u64, expected: &Happened) {
    let lived = live(rt, stage, changes);
    let (before, after) = (tree_of(rt, stage, &stage.disks), tree_of(rt, stage, &lived));
    let calls = stage.disks.erase.calls().len();
    let burns = stage.disks.pen.settled().len();
    let calls = lived.erase.calls().get(calls..).unwrap_or(&[]);
    let burns = lived.pen.settled().get(burns..).unwrap_or(&[]);
    let happened = Happened {
        writes_and_syncs: calls.len(),
        burns: burns.len(),
        leaf_blocks: count_blocks(burns, &LEAF),
        column_blocks: count_blocks(burns, &COLUMN),
        new_pages: after.next.wrapping_sub(before.next),
        levels: after.level.wrapping_sub(before.level),
        closed: count_closed(calls),
        late: late(stage),
    };
    be(rt, happened == *expected, "what happens");
}

/// How many rows or events each question of the life has at its end.
const ROWS: [usize; 14] = [1, 1, 3, 2, 1, 3, 4, 5, 10, 12, 9, 10, 1, 2];

/// Whether each question has that number of rows or events.
fn are_counted(answers: &[Answered]) -> bool {
    for (answered, rows) in answers.iter().zip(ROWS.iter()) {
        if answered.count() != *rows {
            return false;
        }
    }
    answers.len() == NOW + 1
}

#[test]
fn a_life_has_splits_of_each_kind_and_a_checkpoint(rt: HostRuntime) {
    let stage = prepare(rt.alloc(), &LONG).expect(&rt, "a stage");
    happens(&rt, &stage, LONG_CHANGES, &LONG_LIFE);
    let known = stage.known.last().expect(&rt, "a state");
    be(&rt, are_counted(&known.answers), "rows and events");
}

#[test]
fn a_life_has_a_root_that_rises(rt: HostRuntime) {
    let stage = prepare(rt.alloc(), &RISING).expect(&rt, "a stage");
    happens(&rt, &stage, RISING_CHANGES, &RISING_LIFE);
}
