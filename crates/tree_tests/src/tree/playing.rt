//! Plays lines over a tree that versions are put into: what is done, and what the tree has then. The letter of a line is its first.

use super::asking::{are_all_before, are_versions, has, is_next};
use super::generated::{DICE, Dice, Keys, run};
use super::many_splits::is_split_often;
use super::older::{is_plain, lay_older, put_large};
use super::opened::{is_opened, is_shown};
use super::plain::Plain;
use super::three_levels::{lay_nodes, put_six};
use super::too_high::lay_full_nodes;
use super::{DONE, Octets, Row, Tree, create_in, disks_of, refuses, state_of, takes, tree_at};
use crate::laid::turn;
use crate::memory::set_page;
use crate::script::{END, Script};
use crate::{be, be_at};
use disk_models::Page;
use page_tx::Pages;
use std::alloc::Global;
use std::process::Abort;
use version_model::Stamp;

/// Where a tree is: how many home pages and blocks there are, how many pages that are home are kept, the first home page that was never
/// used, and the page and the level of the root.
pub(super) struct Place {
    pub(super) homes: u64,
    pub(super) blocks: u64,
    pub(super) kept: usize,
    pub(super) unused: u64,
    pub(super) root: u64,
    pub(super) level: u8,
}

/// Room for a small tree, which is still to be created.
pub(super) const NO_TREE: Place = Place {
    homes: 40,
    blocks: 16,
    kept: 4_096,
    unused: 0,
    root: 0,
    level: 1,
};

/// A tree, plain lists of its versions, and dice for more of them.
#[derive(Drop)]
pub(super) struct Stage {
    pub(super) tree: Tree,
    pub(super) plain: Plain,
    pub(super) dice: Dice,
}

/// The value of the largest size at the stamp (n, n): octets n.
pub(super) fn value(n: u8) -> (Stamp, Octets) {
    (Stamp::new(u64::from(n), u64::from(n)), (3_072, n))
}

/// The version that begins it.
pub(super) fn row(n: u8) -> Row {
    let (stamp, octets) = value(n);
    (stamp, Some(octets))
}

fn take_key(script: &mut Script) -> u16 {
    u16::try_from(script.take()).unwrap_or(0)
}

fn take_stamp(script: &mut Script) -> Stamp {
    Stamp::new(script.take(), script.take())
}

fn take_octets(script: &mut Script) -> Octets {
    (script.take() as usize, script.take_octet())
}

/// Whether a number is the next one of a line, or more than one, or any.
fn is(script: &mut Script, found: u64) -> bool {
    match script.take() {
        ANY => true,
        MORE => found > script.take(),
        number => found == number,
    }
}

/// Whether the versions of a key from one number to another are taken.
fn are_taken(tree: &mut Tree, script: &mut Script) -> bool {
    let key = take_key(script);
    let (first, last) = (script.take_octet(), script.take_octet());
    for n in first..last.saturating_add(1) {
        if !takes(tree, key, &row(n)) {
            return false;
        }
    }
    true
}

/// Whether a version is taken for each of these keys.
fn is_each_taken(tree: &mut Tree, script: &mut Script) -> bool {
    let (first, last) = (script.take_octet(), script.take_octet());
    for n in first..last.saturating_add(1) {
        if !takes(tree, u16::from(n), &row(n)) {
            return false;
        }
    }
    true
}

/// Whether a value is taken.
fn is_taken(tree: &mut Tree, script: &mut Script) -> bool {
    let key = take_key(script);
    let stamp = take_stamp(script);
    let octets = take_octets(script);
    takes(tree, key, &(stamp, Some(octets)))
}

/// Whether an end is taken.
fn is_end_taken(tree: &mut Tree, script: &mut Script) -> bool {
    let key = take_key(script);
    let stamp = take_stamp(script);
    takes(tree, key, &(stamp, None))
}

/// Whether a value is refused, and nothing changes but for blocks that are spent.
fn is_refused(tree: &mut Tree, script: &mut Script) -> bool {
    let reason = script.take();
    let key = take_key(script);
    let stamp = take_stamp(script);
    let octets = take_octets(script);
    refuses(tree, key, &(stamp, Some(octets)), reason, script.take())
}

/// Whether a key has the n-th value as of a stamp, or none for n = 0.
fn is_had(tree: &mut Tree, script: &mut Script) -> bool {
    let key = take_key(script);
    let stamp = take_stamp(script);
    let n = script.take_octet();
    let expected = if n == 0 { None } else { Some(value(n)) };
    has(tree, key, stamp, expected)
}

/// The versions from one number to another.
fn take_rows(alloc: Global, script: &mut Script) -> Option<Vec<Row>> {
    let mut rows = Vec::new(alloc);
    let (first, last) = (script.take_octet(), script.take_octet());
    for n in first..last.saturating_add(1) {
        rows.push(row(n)).ok()?;
    }
    Some(rows)
}

/// Whether a key has these versions in all.
fn are_all(tree: &mut Tree, script: &mut Script) -> bool {
    let key = take_key(script);
    match take_rows(tree.alloc, script) {
        Some(rows) => are_versions(tree, key, &rows),
        None => false,
    }
}

/// Whether the first part of the versions of a key from a stamp on is these, up to another stamp, or all.
fn are_in_part(tree: &mut Tree, script: &mut Script) -> bool {
    let key = take_key(script);
    let from = take_stamp(script);
    let Some(rows) = take_rows(tree.alloc, script) else {
        return false;
    };
    let end = match script.take() {
        END => None,
        time => Some(Stamp::new(time, script.take())),
    };
    are_all_before(tree, key, from, &rows, end)
}

/// Whether the keys from 1 to below one have their versions, and no key has another one.
fn has_keys(tree: &mut Tree, script: &mut Script) -> bool {
    let end = script.take_octet();
    let late = Stamp::new(9, 9);
    for n in 1..end {
        let (stamp, octets) = value(n);
        let expected = Some((u16::from(n), stamp, octets));
        if !is_next(tree, u16::from(n), late, expected) {
            return false;
        }
    }
    is_next(tree, u16::from(end), late, None)
}

/// Whether the root is in this page and of this level, as many pages are used and blocks burnt, and as many images are held.
fn is_so(tree: &Tree, script: &mut Script) -> bool {
    let state = state_of(tree);
    is(script, state.root)
        && is(script, u64::from(state.level))
        && is(script, state.next_page)
        && is(script, state.next_block)
        && is(script, state.images as u64)
}

/// Sets images of zeros over `count` pages from one on.
fn fill(tree: &mut Tree, script: &mut Script) -> Option<()> {
    let first = script.take();
    for n in first..first.saturating_add(script.take()) {
        set_page(&mut tree.tx, n, Page::new(tree.alloc).ok()?)?;
    }
    Some(())
}

/// Whether a tree of no version is created.
fn is_created(tree: &mut Tree) -> bool {
    create_in(tree) == DONE && tree.place.least == Stamp::new(0, 0)
}

/// Whether no tree is created for a reason, and pages and images stay as many.
fn is_not_created(tree: &mut Tree, script: &mut Script) -> bool {
    let before = state_of(tree);
    create_in(tree) == script.take() && state_of(tree) == before
}

/// Whether versions of these keys, put into a tree and into plain lists, are the same in both.
fn is_grown(stage: &mut Stage, script: &mut Script) -> bool {
    let keys = Keys {
        count: script.take(),
        near: script.take(),
        step: script.take(),
    };
    run(stage, keys, script.take())
}

/// Gives the stage lists for as many keys.
fn take_lists(stage: &mut Stage, script: &mut Script) -> bool {
    match Plain::new(stage.tree.alloc, take_key(script)) {
        Some(plain) => {
            stage.plain = plain;
            true
        }
        None => false,
    }
}

/// Whether an octet of a page is turned.
fn is_turned(tree: &mut Tree, script: &mut Script) -> bool {
    let page = script.take();
    turn(tree, page, script.take() as usize)
}

// What may stand in place of a number that is expected: any number, or more than the next one.
const ANY: u64 = u64::MAX - 78;

const MORE: u64 = u64::MAX - 77;

// The letters of lines: versions of a key, one of each key, a value, an end, a value that is refused; a value that a key has, all versions,
// those of a part, the keys; where the tree is; pages that are filled.
const VERSIONS: u64 = u64::MAX - 73;

const EACH: u64 = u64::MAX - 74;

const VALUE: u64 = u64::MAX - 84;

const ENDED: u64 = u64::MAX - 69;

const REFUSED: u64 = u64::MAX - 82;

const HAS: u64 = u64::MAX - 72;

const ALL: u64 = u64::MAX - 65;

const PART: u64 = u64::MAX - 80;

const KEYS: u64 = u64::MAX - 75;

const STATE: u64 = u64::MAX - 83;

const FILL: u64 = u64::MAX - 70;

/// Whether all is as a line on single versions says.
fn is_line(tree: &mut Tree, letter: u64, script: &mut Script) -> bool {
    match letter {
        END => true,
        VERSIONS => are_taken(tree, script),
        EACH => is_each_taken(tree, script),
        VALUE => is_taken(tree, script),
        ENDED => is_end_taken(tree, script),
        REFUSED => is_refused(tree, script),
        HAS => is_had(tree, script),
        ALL => are_all(tree, script),
        PART => are_in_part(tree, script),
        KEYS => has_keys(tree, script),
        STATE => is_so(tree, script),
        FILL => fill(tree, script).is_some(),
        CREATED => is_created(tree),
        NOT_CREATED => is_not_created(tree, script),
        SHOWN => is_shown(tree, script),
        OPENED => is_opened(tree, script),
        TURNED => is_turned(tree, script),
        SPLITS => is_split_often(tree),
        NODES => lay_nodes(tree).is_some(),
        FULL => lay_full_nodes(tree, script.take_octet()).is_some(),
        _ => false,
    }
}

// A tree that is created, or isn't; a page's octets, a root that is opened, an octet that is turned; 700 splits; key nodes that are laid.
const CREATED: u64 = u64::MAX - 67;

const NOT_CREATED: u64 = u64::MAX - 68;

const SHOWN: u64 = u64::MAX - 89;

const OPENED: u64 = u64::MAX - 79;

const TURNED: u64 = u64::MAX - 88;

const SPLITS: u64 = u64::MAX - 81;

const NODES: u64 = u64::MAX - 77;

const FULL: u64 = u64::MAX - 85;

// Of a tree beside plain lists: lists for as many keys, versions of them, six large ones; a tree of the earlier form, large versions, what it
// answers.
const LISTS: u64 = u64::MAX - 76;

const GROWN: u64 = u64::MAX - 71;

const SIX: u64 = u64::MAX - 66;

const OLDER: u64 = u64::MAX - 78;

const LARGE: u64 = u64::MAX - 87;

const PLAIN: u64 = u64::MAX - 86;

/// Whether all is as a line says. A line without a letter says nothing.
fn is_played(stage: &mut Stage, script: &mut Script) -> bool {
    let letter = script.take();
    match letter {
        LISTS => take_lists(stage, script),
        GROWN => is_grown(stage, script),
        SIX => put_six(stage).is_some(),
        OLDER => lay_older(stage).is_some(),
        LARGE => put_large(stage, script.take(), script.take()).is_some(),
        PLAIN => is_plain(stage, script.take()),
        _ => is_line(&mut stage.tree, letter, script),
    }
}

/// Plays the lines of a script.
fn play_all(rt: &impl Abort, stage: &mut Stage, script: &mut Script) {
    for line in 1..1_000u64 {
        if script.is_done() {
            return;
        }
        let is_right = is_played(stage, script) && script.ends_line();
        be_at(rt, is_right, "a line", line);
    }
    be(rt, false, "fewer lines");
}

/// The stage at a place.
fn stage_at(alloc: Global, place: &Place) -> Option<Stage> {
    let mut disks = disks_of(alloc, place.homes, place.blocks);
    disks.kept = place.kept;
    Some(Stage {
        plain: Plain::new(alloc, 0)?,
        dice: DICE,
        tree: tree_at(alloc, disks, place.unused, place.root, place.level)?,
    })
}

/// Plays the lines of a text over a tree at a place.
pub(super) fn play(rt: &impl Abort, alloc: Global, place: &Place, text: &str) {
    let mut stage = stage_at(alloc, place).expect(rt, "a tree");
    let mut script = Script::of(alloc, text).expect(rt, "a script");
    play_all(rt, &mut stage, &mut script);
}
