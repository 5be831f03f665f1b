//! The layers above run over files as they do over memory: the same steps on both, and what they return is compared.

use crate::be;
use crate::folders::{PAGE, folder, remove};
use buffer_pool::Pool;
use disk_files::{Access, FileErase, FileOnce};
use disk_memory::{MemErase, MemOnce};
use disk_models::{Block, EraseDisk, OnceDisk, Page};
use once_store::{Shelf, ShelfReader, seal};
use page_journal::Journal;
use page_tx::{Pages, Tx};
use std::alloc::Global;
use std::num::NonZeroUsize;
use std::sync::Arc;

/// How many home pages there are.
const HOMES: u64 = 9;

/// Numbers that look random, always the same.
#[derive(Drop)]
struct Dice(u64);

impl Dice {
    fn roll(&mut self, below: u64) -> u64 {
        self.0 = self
            .0
            .wrapping_mul(6_364_136_223_846_793_005)
            .wrapping_add(1_442_695_040_888_963_407);
        (self.0 >> 33).checked_rem(below).unwrap_or(0)
    }
}

/// A transaction over a journal that is created on a disk, or opened.
fn begun<D: EraseDisk + Drop>(alloc: Global, disk: D, is_new: bool) -> Option<Tx<D>> {
    let journal = if is_new {
        Journal::create(alloc, disk, HOMES).ok()?
    } else {
        Journal::open(alloc, disk).ok()?
    };
    let pool = Pool::new(alloc, journal, NonZeroUsize::new(3)?).ok()?;
    if pool.home_pages() != HOMES {
        return None;
    }
    Some(Tx::new(alloc, pool, HOMES))
}

/// The last octet of a page as it is shown.
fn shown<D: EraseDisk + Drop>(tx: &mut Tx<D>, n: u64) -> u8 {
    if n >= tx.home_pages() || tx.fetch(n).is_err() {
        return 255;
    }
    match tx.page(n).and_then(|page| page.octets().last().copied()) {
        Some(octet) => octet,
        None => 254,
    }
}

/// Sets a page, filled with an octet. Whether that was done; none where it can't be tried.
fn set<D: EraseDisk + Drop>(alloc: Global, tx: &mut Tx<D>, n: u64, octet: u8) -> Option<bool> {
    let mut page = Page::new(alloc).ok()?;
    page.octets_mut().fill(octet);
    if n >= tx.home_pages() {
        return None;
    }
    Some(tx.set(n, page).is_ok())
}

/// One step, and what it returned.
fn step<D: EraseDisk + Drop>(alloc: Global, tx: &mut Tx<D>, dice: &mut Dice) -> Option<u8> {
    let n = dice.roll(HOMES);
    let octet = (dice.roll(250) % 250) as u8;
    Some(match dice.roll(12) {
        0 => u8::from(tx.checkpoint().is_ok()),
        1 | 2 => match tx.flush_one() {
            Ok(more) => u8::from(more),
            Err(_) => 9,
        },
        3..=5 => u8::from(tx.commit().is_ok()),
        _ => u8::from(set(alloc, tx, n, octet)?),
    })
}

/// Whether both return the same at a step, and show the same pages then.
fn is_alike<D: EraseDisk + Drop, E: EraseDisk + Drop>(
    alloc: Global,
    one: &mut Tx<D>,
    other: &mut Tx<E>,
    dice: &mut Dice,
) -> Option<bool> {
    let mut same = Dice(dice.0);
    if step(alloc, one, dice)? != step(alloc, other, &mut same)? {
        return Some(false);
    }
    for n in 0..HOMES {
        if shown(one, n) != shown(other, n) {
            return Some(false);
        }
    }
    Some(true)
}

/// Whether both are alike at each of the steps.
fn are_alike(
    alloc: Global,
    over_file: &mut Tx<FileErase>,
    over_memory: &mut Tx<MemErase>,
    seed: u64,
) -> bool {
    let mut dice = Dice(seed);
    for _ in 0..40u32 {
        if is_alike(alloc, over_file, over_memory, &mut dice) != Some(true) {
            return false;
        }
    }
    true
}

/// A session over a file and over memory, which opens both disks again. The disk in memory; none where the file's wasn't like it.
fn session(rt: &HostRuntime, folder: &str, memory: MemErase, number: u64) -> Option<MemErase> {
    let file = FileErase::open(rt.alloc(), rt, folder, Access::Alone).ok()?;
    let mut over_file = begun(rt.alloc(), file, number == 0)?;
    let mut over_memory = begun(rt.alloc(), memory, number == 0)?;
    let alike = are_alike(rt.alloc(), &mut over_file, &mut over_memory, number);
    let file = over_file.into_pool().into_disk();
    if !alike || file.faults() > 0 {
        return None;
    }
    Some(over_memory.into_pool().into_disk())
}

/// How many octets the disks have.
const SIZE: u64 = (265 + HOMES) * PAGE;

// Several sessions: one that isn't committed is gone.
#[test]
fn transactions_over_files_answer_as_over_memory(rt: HostRuntime) {
    let folder = folder(&rt, "layers").expect(&rt, "a folder");
    let created = FileErase::create(rt.alloc(), &rt, &folder, SIZE).is_ok();
    be(&rt, created, "a disk");
    let mut memory = MemErase::new(rt.alloc(), SIZE);
    for number in 0..4u64 {
        memory = session(&rt, &folder, memory, number).expect(&rt, "a session");
    }
    be(&rt, memory.faults() == 0, "no fault");
    be(&rt, remove(&rt, &folder), "the folder goes");
}

/// Appends a block of an octet. It returns its number, or 99 where it isn't taken.
fn append<O: OnceDisk + Drop>(alloc: Global, shelf: &mut Shelf<O>, octet: u8) -> Option<u64> {
    let mut block = Block::new(alloc).ok()?;
    block.octets_mut().fill(octet);
    seal(&mut block);
    Some(shelf.append(&block).unwrap_or(99))
}

/// The first octet of a block that is there, and 1,000 where it isn't.
fn first_octet<O: OnceDisk + Drop>(reader: &mut ShelfReader<O>, seen: &mut O::Seen, n: u64) -> u64 {
    if reader.fetch(seen, n).is_err() {
        return 1_000;
    }
    match reader.block(n) {
        Some(block) => u64::from(block.octets().first().copied().unwrap_or(0)),
        None => 0,
    }
}

/// Reads the first six blocks: the first octets.
fn read_all<O: OnceDisk + Drop>(
    alloc: Global,
    shelf: &mut Shelf<O>,
    answers: &mut Vec<u64>,
) -> Option<()> {
    let mut seen = shelf.seen().ok()?;
    let mut reader = shelf.reader(alloc, 2).ok()?;
    for n in 0..6u64 {
        answers.push(first_octet(&mut reader, &mut seen, n)).ok()?;
    }
    Some(())
}

/// Appends blocks, and reads all that the disk has: what was returned, and the first octets.
fn appended<O: OnceDisk + Drop>(
    alloc: Global,
    shelf: &mut Shelf<O>,
    octets: &[u8],
) -> Option<Vec<u64>> {
    let mut answers = Vec::new(alloc);
    for octet in octets {
        answers.push(append(alloc, shelf, *octet)?).ok()?;
    }
    read_all(alloc, shelf, &mut answers)?;
    Some(answers)
}

/// A shelf on a disk.
fn shelf<O: OnceDisk + Drop>(alloc: Global, disk: O, pen: O::Pen) -> Option<Shelf<O>> {
    Shelf::open(Arc::new(alloc, disk).ok()?, pen, 0).ok()
}

/// A shelf on the disk of a folder.
fn file_shelf(rt: &HostRuntime, folder: &str) -> Option<Shelf<FileOnce>> {
    let (disk, pen) = FileOnce::open(rt.alloc(), rt, folder, Access::Alone).ok()?;
    shelf(rt.alloc(), disk, pen)
}

/// Whether blocks are appended and read over files, which are opened again, as over memory.
fn are_appended_alike(
    rt: &HostRuntime,
    folder: &str,
    over_memory: &mut Shelf<MemOnce>,
    octets: &[u8],
) -> Option<bool> {
    let mut over_files = file_shelf(rt, folder)?;
    let expected = appended(rt.alloc(), over_memory, octets)?;
    let found = appended(rt.alloc(), &mut over_files, octets)?;
    Some(found.as_slice() == expected.as_slice() && over_files.faults() == 0)
}

/// A shelf on a disk of five blocks in memory.
fn memory_shelf(alloc: Global) -> Option<Shelf<MemOnce>> {
    let (disk, pen) = MemOnce::new(alloc, 5);
    shelf(alloc, disk, pen)
}

/// What is appended in each session.
const APPENDED: [&[u8]; 4] = [b"ab", b"", b"cde", b"f"];

#[test]
fn a_shelf_over_files_answers_as_over_memory(rt: HostRuntime) {
    let folder = folder(&rt, "shelf").expect(&rt, "a folder");
    let created = FileOnce::create(rt.alloc(), &rt, &folder, 5).is_ok();
    be(&rt, created, "a disk");
    let mut over_memory = memory_shelf(rt.alloc()).expect(&rt, "a shelf");
    for octets in APPENDED {
        let alike = are_appended_alike(&rt, &folder, &mut over_memory, octets);
        be(&rt, alike == Some(true), "a session");
    }
    be(&rt, remove(&rt, &folder), "the folder goes");
}
