//! Plays lines over trees and blocks that are laid by hand: what is tried, and what is returned. The letter of a line is its first.

use crate::answers::{Answer, wrong};
use crate::laid::{Laid, Turned, lay, lay_page, turn, turn_block};
use crate::lookups::{checked, next_at, part_at, value_at, whole_at};
use crate::memory::{key_of, located_in};
use crate::script::{END, Script};
use crate::sweeps::is_sweep;
use crate::tree::{Tree, disks_of, tree_at};
use crate::{be, be_at};
use std::alloc::Global;
use std::process::Abort;
use tsb_check::InUse;
use tsb_walk::PagePlace;
use version_model::{Bounds, Part, PartKind, Place, Stamp};

/// A key, and a stamp.
#[derive(Clone, Copy)]
pub(crate) struct Point {
    pub(crate) key: u8,
    pub(crate) time: u64,
    pub(crate) order: u64,
}

impl Point {
    pub(crate) fn of(script: &mut Script) -> Point {
        Point {
            key: script.take_octet(),
            time: script.take(),
            order: script.take(),
        }
    }

    pub(crate) fn stamp(&self) -> Stamp {
        Stamp::new(self.time, self.order)
    }
}

/// The next key from a point on.
pub(crate) fn next(tree: &mut Tree, point: &Point) -> Answer {
    next_at(tree, key_of(point.key), point.stamp())
}

/// What the key has at a point.
pub(crate) fn value(tree: &mut Tree, point: &Point) -> Answer {
    value_at(tree, key_of(point.key), point.stamp())
}

/// The first part of the versions of the key from a point on.
pub(crate) fn part(tree: &mut Tree, point: &Point) -> Answer {
    part_at(tree, key_of(point.key), point.stamp())
}

/// Whether two answers are the same refusal, or no refusals.
fn is_same_refusal(one: &Answer, other: &Answer) -> bool {
    one[0] == other[0] && one[1] == other[1]
}

/// Whether the versions of a part are from a point on.
fn are_from(part: &Answer, point: &Point) -> bool {
    for n in 3..8usize {
        let stamp = (part[n * 3], part[n * 3 + 1]);
        if stamp < (point.time, point.order) {
            return false;
        }
    }
    true
}

/// Whether a part begins with the version that the next key has, where that is of the point's key and stamp.
fn begins_so(part: &Answer, next: &Answer, point: &Point) -> bool {
    let is_at = next[10] == point.time && next[11] == point.order;
    !is_at || part[9..12] == next[10..13]
}

/// Whether the lookups of a key and of its versions return for it what the lookup of the next key returned, which isn't refused.
fn say_the_same(value: &Answer, part: &Answer, next: &Answer, point: &Point) -> bool {
    let is_in = value[2] == next[2] && part[2] == next[2] && are_from(part, point);
    if next[8] == 1 && next[9] == u64::from(point.key) {
        return is_in && value[8..13] == next[8..13] && begins_so(part, next, point);
    }
    is_in && value[8] == u64::MAX
}

/// Whether the lookup of the next key returns this, and the lookups of the key and of its versions the same of it; where that fails,
/// they fail for the same reason.
pub(crate) fn is_reported(tree: &mut Tree, point: &Point, expected: &Answer) -> bool {
    let next = next(tree, point);
    let value = value(tree, point);
    let part = part(tree, point);
    next == *expected
        && is_same_refusal(&value, &next)
        && is_same_refusal(&part, &next)
        && (next[0] != u64::MAX || say_the_same(&value, &part, &next, point))
}

/// Whether what a line says is returned where an octet of a page is turned. The page is mended then.
fn is_page_line(tree: &mut Tree, script: &mut Script) -> bool {
    let page = script.take();
    let octet = script.take() as usize;
    turn(tree, page, octet) && is_reported_line(tree, script) && turn(tree, page, octet)
}

/// The same of a block that gets its digest after that.
fn is_block_line(tree: &mut Tree, laid: &Laid, script: &mut Script) -> bool {
    let turned = Turned {
        block: script.take(),
        octet: script.take() as usize,
        is_sealed: true,
    };
    turn_block(tree, laid, turned).is_some() && is_reported_line(tree, script)
}

/// Whether what a line says is returned.
fn is_reported_line(tree: &mut Tree, script: &mut Script) -> bool {
    let point = Point::of(script);
    is_reported(tree, &point, &script.take_answer())
}

/// What a check finds from a root on, where as many pages and blocks as a line says are in use, which is recorded on page 7.
fn check_line(tree: &mut Tree, script: &mut Script) -> Answer {
    let root = PagePlace::root(script.take(), script.take_octet());
    let in_use = InUse {
        recorded_on: 7,
        pages: script.take(),
        blocks: script.take(),
        burnt: script.take(),
    };
    checked(tree, &root, &in_use)
}

/// The place of a line: a leaf or a column in a block, of the keys below one, from time 0 to another.
fn place_of(script: &mut Script) -> Place {
    let kind = if script.take() == 1 {
        PartKind::LeafBlock
    } else {
        PartKind::ColumnBlock
    };
    let start = Stamp::new(0, 0);
    let part = Part {
        start,
        kind,
        block: script.take(),
    };
    let bounds = Bounds {
        low: key_of(0),
        high: Some(key_of(script.take_octet())),
        start,
        end: Some(Stamp::new(script.take(), 0)),
    };
    Place { bounds, part }
}

/// What a lookup from a place in the past returns.
fn past_line(tree: &mut Tree, letter: u64, script: &mut Script) -> Answer {
    let place = place_of(script);
    let point = Point::of(script);
    let key = key_of(point.key);
    let stamp = point.stamp();
    if !located_in(&place.bounds, key, stamp) {
        return wrong();
    }
    match letter {
        VALUE_THERE => tree.blocks.value(&place, key, stamp),
        NEXT_THERE => tree.blocks.next(&place, key, stamp),
        _ => tree.blocks.part(&place, key, stamp),
    }
}

/// What the lookup of a line returns.
fn asked(tree: &mut Tree, letter: u64, script: &mut Script) -> Answer {
    match letter {
        NEXT => next(tree, &Point::of(script)),
        VALUE => value(tree, &Point::of(script)),
        PART => part(tree, &Point::of(script)),
        WHOLE => whole_at(tree, key_of(script.take_octet())),
        CHECK => check_line(tree, script),
        _ => past_line(tree, letter, script),
    }
}

// The letters of lookups: the next key, a value, versions, all versions, a check; from a place in the past a value, the next key, versions.
const NEXT: u64 = u64::MAX - 76;

const VALUE: u64 = u64::MAX - 86;

const PART: u64 = u64::MAX - 82;

const WHOLE: u64 = u64::MAX - 65;

const CHECK: u64 = u64::MAX - 75;

const VALUE_THERE: u64 = u64::MAX - 69;

const NEXT_THERE: u64 = u64::MAX - 78;

const PART_THERE: u64 = u64::MAX - 80;

// The letters of what is changed: an octet of a page, or of a block, is turned; a page is laid anew; what is asked then without that.
const PAGE: u64 = u64::MAX - 79;

const BLOCK: u64 = u64::MAX - 84;

const ANEW: u64 = u64::MAX - 87;

const NOW: u64 = u64::MAX - 89;

/// Whether all is as a line says. A line without a letter says nothing.
fn is_line(tree: &mut Tree, laid: &Laid, script: &mut Script) -> bool {
    let letter = script.take();
    match letter {
        END => true,
        PAGE => is_page_line(tree, script),
        BLOCK => is_block_line(tree, laid, script),
        ANEW => lay_page(tree, script).is_some(),
        NOW => is_reported_line(tree, script),
        NEXT | VALUE | PART | WHOLE | CHECK | VALUE_THERE | NEXT_THERE | PART_THERE => {
            asked(tree, letter, script) == script.take_answer()
        }
        _ => is_sweep(tree, laid, letter, script),
    }
}

/// Plays the lines of a script.
fn play_all(rt: &impl Abort, tree: &mut Tree, laid: &Laid, script: &mut Script) {
    for line in 1..1_000u64 {
        if script.is_done() {
            return;
        }
        let is_right = is_line(tree, laid, script) && script.ends_line();
        be_at(rt, is_right, "a line", line);
    }
    be(rt, false, "fewer lines");
}

/// Plays the lines of a text over a tree.
pub(crate) fn play(rt: &impl Abort, alloc: Global, laid: &Laid, text: &str) {
    let disks = disks_of(alloc, 20, 16);
    let mut tree = tree_at(alloc, disks, 0, laid.root, laid.level).expect(rt, "a tree");
    be(rt, lay(&mut tree, laid).is_some(), "pages and blocks");
    let mut script = Script::of(alloc, text).expect(rt, "a script");
    play_all(rt, &mut tree, laid, &mut script);
}
