//! Many versions from a generator, beside plain lists.

use super::asking::has;
use super::plain::{Plain, has_all, is_alike};
use super::playing::{Place, Stage, play};
use super::{Octets, Row, Tree, takes, write_home};
use page_tx::Pages;
use version_model::Stamp;

/// How many versions are put between questions.
const VERSIONS: u64 = 10_000;

/// How many questions follow.
const QUESTIONS: u64 = 200;

/// Beside this many images a transaction has room for those of an insert that splits each node of a tree of four levels.
const IMAGES: usize = 19;

/// Numbers that look random, always the same, and the stamp that they have come to.
#[derive(Drop)]
pub(super) struct Dice {
    state: u64,
    time: u64,
    order: u64,
}

/// Dice that weren't rolled.
pub(super) const DICE: Dice = Dice {
    state: 7,
    time: 0,
    order: 0,
};

impl Dice {
    fn roll(&mut self, below: u64) -> u64 {
        self.state = self
            .state
            .wrapping_mul(6_364_136_223_846_793_005)
            .wrapping_add(1_442_695_040_888_963_407);
        (self.state >> 33).checked_rem(below).unwrap_or(0)
    }

    /// A key below a number.
    fn key(&mut self, count: u64) -> u16 {
        u16::try_from(self.roll(count)).unwrap_or(0)
    }

    /// A later stamp.
    pub(super) fn next_stamp(&mut self) -> Stamp {
        if self.roll(3) == 0 {
            self.time = self.time.saturating_add(1);
            self.order = 0;
        } else {
            self.order = self.order.saturating_add(1);
        }
        Stamp::new(self.time, self.order)
    }

    /// Any stamp that there was, and some that there weren't.
    fn stamp(&mut self) -> Stamp {
        let times = self.time.saturating_add(2);
        Stamp::new(self.roll(times), self.roll(8))
    }

    /// An end, a value of no octet, one of the largest size, or a small one.
    fn value(&mut self) -> Option<Octets> {
        let octet = u8::try_from(self.roll(256)).unwrap_or(0);
        match self.roll(20) {
            0 => None,
            1 => Some((0, 0)),
            2 => Some((3_072, octet)),
            size => Some((size as usize, octet)),
        }
    }
}

/// Which keys take versions: any of `near` from a first one on, which goes on by a step with every second version, round after round.
#[derive(Clone, Copy)]
pub(super) struct Keys {
    pub(super) count: u64,
    pub(super) near: u64,
    pub(super) step: u64,
}

impl Keys {
    fn pick(&self, n: u64, dice: &mut Dice) -> u16 {
        let key = (n / 2)
            .saturating_mul(self.step)
            .saturating_add(dice.roll(self.near));
        u16::try_from(key.checked_rem(self.count).unwrap_or(0)).unwrap_or(0)
    }
}

/// Puts a version into a tree and into plain lists. None where the tree refuses it.
pub(super) fn put_both(tree: &mut Tree, plain: &mut Plain, key: u16, row: &Row) -> Option<()> {
    if tree.tx.images() > IMAGES {
        write_home(tree)?;
    }
    if !takes(tree, key, row) {
        return None;
    }
    plain.put(key, *row)
}

/// Puts the n-th version into both. Whether it is found at its stamp.
fn is_put(stage: &mut Stage, keys: Keys, n: u64) -> bool {
    let key = keys.pick(n, &mut stage.dice);
    let row = (stage.dice.next_stamp(), stage.dice.value());
    let expected = row.1.map(|value| (row.0, value));
    put_both(&mut stage.tree, &mut stage.plain, key, &row).is_some()
        && has(&mut stage.tree, key, row.0, expected)
}

/// Asks for a key and a stamp, and each tenth time for all versions of the key. Whether both answer alike.
fn is_asked(stage: &mut Stage, keys: Keys, n: u64) -> bool {
    let key = stage.dice.key(keys.count);
    let stamp = stage.dice.stamp();
    is_alike(&mut stage.tree, &stage.plain, key, stamp)
        && (n % 10 > 0 || has_all(&mut stage.tree, &stage.plain, key))
}

/// Puts versions into both, and asks.
fn is_round(stage: &mut Stage, keys: Keys) -> bool {
    for n in 0..VERSIONS {
        if !is_put(stage, keys, n) {
            return false;
        }
    }
    for n in 0..QUESTIONS {
        if !is_asked(stage, keys, n) {
            return false;
        }
    }
    true
}

/// Puts versions into a tree and into plain lists and asks, in turn, `times` times.
pub(super) fn run(stage: &mut Stage, keys: Keys, times: u64) -> bool {
    for _ in 0..times {
        if !is_round(stage, keys) {
            return false;
        }
    }
    true
}

/// Room for all versions.
const LARGE: Place = Place {
    homes: 4_096,
    blocks: 65_536,
    kept: 4_096,
    unused: 0,
    root: 0,
    level: 1,
};

/// Twelve keys, any of which takes the next version; there is one level of key nodes then.
const FEW_KEYS: &str = "C
L12
G12 12 1, 5
SN 2 N N N
";

#[test]
fn many_versions_of_few_keys_are_those_of_plain_lists(rt: HostRuntime) {
    play(&rt, rt.alloc(), &LARGE, FEW_KEYS);
}

/// 16,384 keys, any of 64 in turn; there are key nodes then.
const MANY_KEYS: &str = "C
L16384
G16384 64 1, 5
SN M1 N N N
";

#[test]
fn versions_of_many_keys_are_those_of_plain_lists(rt: HostRuntime) {
    play(&rt, rt.alloc(), &LARGE, MANY_KEYS);
}
