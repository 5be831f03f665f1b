//! A tree is opened by its root, and looked into.

use super::playing::{Place, play};
use super::{DONE, Tree, create_in, disks_of, takes, tree_at};
use crate::answers::{Answer, NONE, NOTHING, reached, refused, set, set_stamp};
use crate::be_at;
use crate::blocks::part_of;
use crate::memory::key_of;
use crate::script::Script;
use disk_memory::MemErase;
use page_tx::{Pages, Tx};
use route_history::Versions;
use std::alloc::Global;
use std::process::Abort;
use tsb_tree::{TreeError, open};
use tsb_walk::{Looked, Parted};
use version_model::Stamp;

/// Whether a page's octets are those of a line, and zeros after them.
pub(super) fn is_shown(tree: &mut Tree, script: &mut Script) -> bool {
    let page = script.take();
    let Some(front) = script.take_octets(tree.alloc) else {
        return false;
    };
    if page >= tree.tx.pool().home_pages() || tree.tx.fetch(page).is_err() {
        return false;
    }
    match tree.tx.page(page) {
        Some(page) => begins_with(page.octets(), &front),
        None => false,
    }
}

/// Whether octets begin with these, and the others are zeros.
fn begins_with(octets: &[u8], front: &[u8]) -> bool {
    let rest = octets.get(front.len()..).unwrap_or(&[]);
    octets.starts_with(front) && rest.iter().all(|octet| *octet == 0)
}

/// The root, its level and the least stamp of a tree that is opened, or the page that is bad.
fn opened(tree: &mut Tree, root: u64, least: Stamp) -> Answer {
    match open(&mut tree.tx, root, least) {
        Ok(place) => {
            let mut answer = NOTHING;
            set(&mut answer, 8, 1);
            set(&mut answer, 9, place.root);
            set(&mut answer, 10, u64::from(place.level));
            set_stamp(&mut answer, 11, place.least);
            answer
        }
        Err(TreeError::BadNode(page)) => refused(1, page),
        Err(_) => refused(3, NONE),
    }
}

/// Whether a tree is opened by this root and stamp as a line says.
pub(super) fn is_opened(tree: &mut Tree, script: &mut Script) -> bool {
    let root = script.take();
    let stamp = Stamp::new(script.take(), script.take());
    opened(tree, root, stamp) == script.take_answer()
}

/// Where trees of these tests are.
const PLACE: Place = Place {
    homes: 20,
    blocks: 4,
    kept: 4,
    unused: 0,
    root: 0,
    level: 1,
};

/// Key 7 has a value from stamp (5, 0) on, key 9 from (6, 1) on. The root is page 0, of level 1.
const ROOT: &str = "C
T 7 5.0 1 70
T 9 6.1 1 70
O0 6.2: K0 1 6.2
";

#[test]
fn a_root_reports_its_level(rt: HostRuntime) {
    play(&rt, rt.alloc(), &PLACE, ROOT);
}

/// The page after the column's is its current leaf, the one after that has zeros, and after all pages there is none.
const NO_ROOTS: &str = "C
O1 0.0: B1
O2 0.0: B2
O20 0.0: B20
";

#[test]
fn a_page_that_is_no_root_is_not_opened(rt: HostRuntime) {
    play(&rt, rt.alloc(), &PLACE, NO_ROOTS);
}

/// Octets of a root that is a column, and whether the tree is still opened where one is turned: its kind, its unit, its level, one that is 0 in
/// all pages, and its keys are looked at; the size of its entries, its stamps, its entries and the end of the page aren't.
const ROOT_OCTETS: &str = "C
X0 0
O0 0.0: B0
X0 0
X0 1
O0 0.0: B0
X0 1
X0 2
O0 0.0: B0
X0 2
X0 3
O0 0.0: B0
X0 3
X0 8
O0 0.0: B0
X0 8
X0 47
O0 0.0: B0
X0 47
X0 48
O0 0.0: B0
X0 48
X0 87
O0 0.0: B0
X0 87
X0 7
O0 0.0: K0 1 0.0
X0 7
X0 95
O0 0.0: K0 1 0.0
X0 95
X0 119
O0 0.0: K0 1 0.0
X0 119
X0 144
O0 0.0: K0 1 0.0
X0 144
X0 16383
O0 0.0: K0 1 0.0
X0 16383
";

#[test]
fn a_tree_is_opened_by_the_header_of_its_root(rt: HostRuntime) {
    play(&rt, rt.alloc(), &PLACE, ROOT_OCTETS);
}

/// A tree that is looked into.
type Store = tsb_tree::Tree<Tx<MemErase>>;

/// Puts two versions into a tree of none: key 7 has a value from stamp (5, 0) on, key 9 from (6, 1) on.
fn put_two(tree: &mut Tree) -> bool {
    create_in(tree) == DONE
        && takes(tree, 7, &(Stamp::new(5, 0), Some((1, 70))))
        && takes(tree, 9, &(Stamp::new(6, 1), Some((1, 70))))
}

/// The tree of two versions, opened by its root, to be looked into.
fn store_of_two(alloc: Global) -> Option<Store> {
    let mut tree = tree_at(alloc, disks_of(alloc, 20, 4), 0, 0, 1)?;
    if !put_two(&mut tree) {
        return None;
    }
    match open(&mut tree.tx, tree.place.root, tree.place.least) {
        Ok(place) => Some(Store::new(alloc, tree.tx, place)),
        Err(_) => None,
    }
}

/// What the lookup of a line returns in pages: versions of a key, or the next key.
fn looked_up(store: &mut Store, script: &mut Script) -> Answer {
    let letter = script.take();
    let key = key_of(script.take_octet());
    let stamp = Stamp::new(script.take(), script.take());
    if letter == PART {
        return match store.part(key, stamp) {
            Ok(Parted::Here(part)) => part_of(key, &part),
            _ => refused(3, NONE),
        };
    }
    match store.next(key, stamp) {
        Ok(Looked::Here(it)) => reached(&it),
        _ => refused(3, NONE),
    }
}

/// The letter of versions.
const PART: u64 = u64::MAX - 80;

/// Plays the lines of a text over that tree.
fn look_into(rt: &impl Abort, alloc: Global, text: &str) {
    let mut store = store_of_two(alloc).expect(rt, "a tree");
    let mut script = Script::of(alloc, text).expect(rt, "a script");
    for line in 1..10u64 {
        if !script.is_done() {
            let answer = looked_up(&mut store, &mut script);
            be_at(rt, answer == script.take_answer(), "a line", line);
        }
    }
}

/// A key and a stamp, and the next key.
const NEXT_KEYS: &str = "N7 5.0: K7 5.0 O70
N8 6.1: K9 6.1 O70
N8 6.0: E
N10 6.1: E
";

#[test]
fn a_tree_reports_the_next_key(rt: HostRuntime) {
    look_into(&rt, rt.alloc(), NEXT_KEYS);
}

/// A key and a stamp, and its versions.
const PARTS: &str = "P7 0.0: V5.0 O70
";

#[test]
fn a_tree_reports_the_versions_of_a_key(rt: HostRuntime) {
    look_into(&rt, rt.alloc(), PARTS);
}
