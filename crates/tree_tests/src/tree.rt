//! Trees over a transaction and a shelf, and versions that are put into them.

ghost use Rattle.std.specs.Prelude.{◌≡◌, ◌+◌, ◌<◌, ◌≤◌, ◌^◌, IsTrue};
ghost use Rattle.version_model.specs.Entries.{version_of};
ghost use Rattle.version_model.specs.Ranges.{key_end};
ghost use Rattle.version_model.specs.Sizes.{entry_octets};

mod asking;
mod created;
mod failing;
mod generated;
mod many_splits;
mod older;
mod one_key;
mod opened;
mod plain;
mod playing;
mod refused;
mod three_levels;
mod too_high;

use crate::answers::key_with;
use crate::blocks::Blocks;
use crate::memory::{begun, shelf_of};
use disk_memory::{Failure, MemErase, MemOnce, OnceFailure};
use once_store::{AppendError, Shelf};
use page_tx::{PageError, Pages, Tx};
use route_model::Key;
use std::alloc::Global;
use tsb_tree::{TreeError, TreePlace, create, insert};
use version_model::{Entry, Stamp};

/// A value: this many octets of one kind.
type Octets = (usize, u8);

/// A version of a key: its stamp, and a value or an end.
type Row = (Stamp, Option<Octets>);

/// The disks below a tree: how many home pages and blocks, how many pages that are home a pool keeps, and the calls that fail.
#[derive(Drop)]
pub(crate) struct Disks {
    pub(crate) homes: u64,
    pub(crate) blocks: u64,
    pub(crate) kept: usize,
    erase: Vec<Failure>,
    once: Vec<OnceFailure>,
}

/// Disks of which no call fails.
pub(crate) fn disks_of(alloc: Global, homes: u64, blocks: u64) -> Disks {
    Disks {
        homes,
        blocks,
        kept: 4_096,
        erase: Vec::new(alloc),
        once: Vec::new(alloc),
    }
}

/// A tree, with the transaction and the shelf in which it lies, and its blocks as it last saw them.
#[derive(Drop)]
pub(crate) struct Tree {
    pub(crate) alloc: Global,
    pub(crate) tx: Tx<MemErase>,
    pub(crate) shelf: Shelf<MemOnce>,
    pub(crate) place: TreePlace,
    pub(crate) blocks: Blocks,
}

/// A tree whose pages are to be set by hand: home pages from one on were never used, and its root, of a level, is in this page.
pub(crate) fn tree_at(
    alloc: Global,
    disks: Disks,
    unused: u64,
    root: u64,
    level: u8,
) -> Option<Tree> {
    let mut shelf = shelf_of(alloc, disks.blocks, disks.once)?;
    let blocks = Blocks::of(alloc, &mut shelf, 1_024)?;
    let tx = begun(alloc, disks.homes, disks.kept, disks.erase, unused)?;
    let least = Stamp::new(0, 0);
    Some(Tree {
        alloc,
        tx,
        shelf,
        place: TreePlace { root, level, least },
        blocks,
    })
}

/// Sees all blocks that are settled by now.
pub(crate) fn look(tree: &mut Tree) {
    if let Ok(seen) = tree.shelf.seen() {
        tree.blocks.seen = seen;
    }
}

/// The key with this number.
fn key_of(number: u16) -> Key {
    key_with(u64::from(number))
}

/// Whether a tree takes this entry at some place.
fn can_be_put(entry: &Entry) -> bool
    ensures inside { IsTrue result → entry.now.key + 1 < key_end }
    ensures size { IsTrue result → entry_octets (version_of entry.now) ≤ 3131 }
    ensures end { IsTrue result → entry.now.stamp + 1 < 2 ^ 128 }
{
    let fits = match &entry.value {
        Some(value) => value.len() <= 3_072,
        None => true,
    };
    fits && entry.key.next().is_some() && entry.stamp.time() < u64::MAX
}

/// The entry of a version.
fn entry_of(alloc: Global, key: u16, row: &Row) -> Option<Entry> {
    let value = match row.1 {
        Some((count, octet)) => Some(vec![in alloc; octet; count].ok()?),
        None => None,
    };
    Some(Entry {
        key: key_of(key),
        stamp: row.0,
        value,
    })
}

/// What an insert or a creation returned, as a number: it was done, or why it was refused.
const DONE: u64 = 0;

const STAMP_BACK: u64 = 1;

const ONCE_FULL: u64 = 2;

const PAGES_FULL: u64 = 3;

const TOO_MANY_IMAGES: u64 = 4;

const TOO_HIGH: u64 = 5;

const PAGES_FAULT: u64 = 6;

const ONCE_FAULT: u64 = 7;

const OTHER: u64 = 8;

/// The number of a refusal.
fn number_of(refusal: &TreeError) -> u64 {
    match refusal {
        TreeError::StampBack => STAMP_BACK,
        TreeError::TooHigh => TOO_HIGH,
        TreeError::Once(AppendError::OnceFull) => ONCE_FULL,
        TreeError::Once(AppendError::Fault) => ONCE_FAULT,
        TreeError::Pages(PageError::PagesFull) => PAGES_FULL,
        TreeError::Pages(PageError::TooManyImages) => TOO_MANY_IMAGES,
        TreeError::Pages(PageError::Fault) => PAGES_FAULT,
        _ => OTHER,
    }
}

/// Leaves the tree at a place, where it isn't refused.
fn leave_at(tree: &mut Tree, place: Result<TreePlace, TreeError>) -> u64 {
    match place {
        Ok(place) => {
            tree.place = place;
            DONE
        }
        Err(refusal) => number_of(&refusal),
    }
}

/// Creates the tree of no version.
fn create_in(tree: &mut Tree) -> u64 {
    let place = create(&mut tree.tx, tree.alloc);
    leave_at(tree, place)
}

/// Puts an entry into the tree.
fn put_entry(tree: &mut Tree, entry: &Entry) -> u64 {
    let place = tree.place;
    if !can_be_put(entry) || place.level < 1 || place.level > 7 {
        return OTHER;
    }
    let place = insert(&mut tree.tx, &mut tree.shelf, tree.alloc, place, entry);
    leave_at(tree, place)
}

/// Puts a version of a key into the tree.
fn put(tree: &mut Tree, key: u16, row: &Row) -> u64 {
    match entry_of(tree.alloc, key, row) {
        Some(entry) => put_entry(tree, &entry),
        None => OTHER,
    }
}

/// Whether a tree takes a version of a key.
fn takes(tree: &mut Tree, key: u16, row: &Row) -> bool {
    put(tree, key, row) == DONE
}

/// Whether a tree refuses a version for a reason, and it, its pages and its shelf stay as they were, but for blocks up to one that are
/// spent.
fn refuses(tree: &mut Tree, key: u16, row: &Row, reason: u64, next_block: u64) -> bool {
    let before = state_of(tree);
    put(tree, key, row) == reason && state_of(tree) == before.spending(next_block)
}

/// Sets a page of a node that is made by hand.
fn lay(tree: &mut Tree, n: u64, octets: &[u8]) -> Option<()> {
    crate::memory::lay(tree.alloc, &mut tree.tx, n, octets)
}

/// Commits the tree's transaction, and writes its pages home.
fn write_home(tree: &mut Tree) -> Option<()> {
    crate::memory::write_home(&mut tree.tx)
}

/// What a call that is refused leaves as it was, but for blocks that were spent.
#[derive(Clone, Copy, PartialEq)]
struct State {
    root: u64,
    level: u8,
    least: Stamp,
    next_page: u64,
    images: usize,
    next_block: u64,
}

impl State {
    /// The same where blocks up to a number are spent.
    fn spending(&self, next_block: u64) -> State {
        State {
            next_block,
            ..*self
        }
    }
}

fn state_of(tree: &Tree) -> State {
    let place = tree.place;
    State {
        root: place.root,
        level: place.level,
        least: place.least,
        next_page: tree.tx.next_page(),
        images: tree.tx.images(),
        next_block: tree.shelf.next(),
    }
}
