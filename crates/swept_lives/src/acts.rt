//! What is done in a life of an archive, and what is asked of it.

use crate::asked::{Asked, Kind};
use crate::records::Record;

/// A call of a life.
#[derive(Clone, Copy)]
pub enum Act {
    /// A collector gives the batch of this number.
    Admit(u8, usize),
    /// Its mark is set to this number of seconds.
    Mark(u8, u32),
    Apply,
    Flush,
}

/// Records, a second after another: the collector and the peer, the first prefix and how many are taken in turn, the time of the first
/// record, and how many there are.
pub type Load = (u8, u8, u8, u32, u32, u32);

/// A life of an archive, and what comes before and after it.
#[derive(Clone, Copy)]
pub struct Script {
    /// What is applied, and all home, before.
    pub loads: &'static [Load],
    pub batches: &'static [&'static [Record]],
    /// What is done then, so that records wait and slots of the journal are open.
    pub before: &'static [Act],
    /// The life, once the archive is opened, and what follows it, whether it was stopped or not: a block is burnt in that.
    pub acts: &'static [Act],
    /// How many of these acts are the life.
    pub life: usize,
}

/// Three columns: of the prefixes 0 to 3 of peer 1, whose every second change burns a block then, up to 648, as many as one page of a column
/// holds; of three keys; and of two peers' keys. The leaf of each is full at the end.
const LOADS: [Load; 11] = [
    (0, 1, 0, 2, 100, 2),
    (0, 1, 3, 1, 110, 1),
    (0, 1, 5, 1, 120, 1),
    (0, 2, 0, 2, 200, 2),
    (0, 2, 2, 1, 210, 1),
    (1, 3, 0, 2, 300, 2),
    (0, 1, 2, 1, 400, 1),
    (0, 1, 1, 3, 1_000, 1_297),
    (0, 2, 0, 2, 9_000, 2),
    (1, 3, 0, 1, 9_003, 1),
    (1, 3, 3, 1, 9_004, 1),
];

/// Of collector 0: what waits when the life begins.
const FIRST: [Record; 2] = [(9_010, 1, 1, 10), (9_011, 2, 0, 11)];

/// Of collector 1. The new key divides the third column.
const SECOND: [Record; 1] = [(9_012, 3, 4, 12)];

/// Of collector 1: the second record is late.
const LATE: [Record; 3] = [(9_015, 3, 0, 13), (9_005, 3, 1, 14), (9_020, 3, 5, 15)];

const MIXED: [Record; 4] = [
    (9_016, 1, 3, 16),
    (9_016, 2, 1, 17),
    (9_018, 1, 2, 0),
    (9_019, 2, 0, 255),
];

const LAST: [Record; 3] = [(9_031, 3, 4, 18), (9_032, 3, 0, 0), (9_033, 3, 2, 19)];

/// Of collector 0. The first one splits the leaf of the first column.
const NEXT: [Record; 2] = [(9_050, 1, 1, 20), (9_050, 1, 0, 21)];

/// Commits of this life take the journal's last free slot, and give the oldest one back. It ends with a checkpoint.
pub const LONG: Script = Script {
    loads: &LOADS,
    batches: &[&FIRST, &SECOND, &LATE, &MIXED, &LAST, &NEXT],
    before: &[Act::Admit(0, 0), Act::Admit(1, 1), Act::Mark(1, 9_013)],
    acts: &[
        Act::Apply,
        Act::Flush,
        Act::Admit(1, 2),
        Act::Mark(0, 9_012),
        Act::Apply,
        Act::Admit(0, 3),
        Act::Flush,
        Act::Apply,
        Act::Mark(1, 9_030),
        Act::Mark(0, 9_025),
        Act::Apply,
        Act::Admit(1, 4),
        Act::Mark(0, 9_040),
        Act::Mark(1, 9_040),
        Act::Apply,
        Act::Flush,
        Act::Flush,
        Act::Flush,
        Act::Flush,
        Act::Flush,
        Act::Flush,
        Act::Flush,
        Act::Flush,
        Act::Flush,
        Act::Flush,
        // What follows.
        Act::Admit(0, 5),
        Act::Mark(0, 9_060),
        Act::Mark(1, 9_060),
        Act::Apply,
    ],
    life: 25,
};

/// Five keys, which fill the only leaf.
const FIVE: [Load; 2] = [(0, 1, 1, 3, 8_000, 3), (1, 3, 0, 2, 8_010, 2)];

/// The sixth version splits the only column, and the root rises.
const SIXTH: [Record; 1] = [(9_010, 1, 1, 10)];

const SEVENTH: [Record; 1] = [(9_018, 3, 1, 11)];

/// The last one splits the leaf of the first column.
const FOUR: [Record; 4] = [
    (9_050, 1, 1, 20),
    (9_051, 1, 1, 21),
    (9_052, 1, 1, 22),
    (9_053, 1, 1, 23),
];

/// The root rises in this life.
pub const RISING: Script = Script {
    loads: &FIVE,
    batches: &[&SIXTH, &SEVENTH, &FOUR],
    before: &[Act::Admit(0, 0), Act::Mark(1, 9_012)],
    acts: &[
        Act::Mark(0, 9_012),
        Act::Apply,
        Act::Admit(1, 1),
        Act::Mark(0, 9_020),
        Act::Mark(1, 9_020),
        Act::Apply,
        Act::Flush,
        // What follows.
        Act::Admit(0, 2),
        Act::Mark(0, 9_060),
        Act::Mark(1, 9_060),
        Act::Apply,
    ],
    life: 7,
};

/// Questions of each kind: of what was applied long before, in the last blocks, and at the end.
pub(crate) const ASKED: [Asked; 14] = [
    (Kind::Route, 1_020, 1, 1),
    (Kind::Route, 9_010, 1, 1),
    (Kind::ByPrefix, 9_011, 0, 0),
    (Kind::ByPrefix, 1_030, 0, 2),
    (Kind::Covering, 9_012, 0, 4),
    (Kind::Covering, 9_018, 0, 1),
    (Kind::PeerTable, 9_018, 1, 0),
    (Kind::PeerTable, 9_024, 3, 0),
    (Kind::All, 1_001, 0, 0),
    (Kind::All, 9_015, 0, 0),
    (Kind::All, 9_039, 0, 0),
    (Kind::Events, 1_040, 1, 1),
    (Kind::Events, 9_018, 1, 1),
    (Kind::Events, 9_039, 2, 0),
];
