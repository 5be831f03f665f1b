//! An archive is checked: what it counts, and what it finds where one octet of it is another.

use crate::be;
use crate::disks::{Both, given_up, opened};
use crate::given::SETTINGS;
use crate::made::{Made, PAGE, apply_all, flush_all, give, made, mark_at, set_mark, vectors};
use disk_archive::CheckError;
use disk_memory::{Failure, MemErase, MemOnce, MemPen, Torn};
use disk_models::{Block, EraseDisk, OnceDisk};
use std::alloc::Global;

/// How many changes of one prefix there are: with their keys, stamps and routes they fill the leaf of one column three times.
const CHANGES: usize = 700;

/// Where an octet is changed, and what is found then.
struct Change {
    name: &'static str,
    place: u64,
    at: u64,
    /// The bits of the octet that are turned.
    bits: u8,
    found: CheckError,
}

/// Octets of home pages. The tree begins after the head and the ring: its root on page 10 is a column, whose leaf is on page 11.
const PAGES: [Change; 8] = [
    Change {
        name: "the root is of no kind of node",
        place: 10,
        at: 0,
        bits: 0x40,
        found: CheckError::BadNode(10),
    },
    Change {
        name: "a part of the column is of no kind",
        place: 10,
        at: 136,
        bits: 0x40,
        found: CheckError::BadNode(10),
    },
    Change {
        name: "the leaf is of no kind of node",
        place: 11,
        at: 0,
        bits: 0x40,
        found: CheckError::BadNode(11),
    },
    Change {
        name: "the last octet of the leaf isn't zero",
        place: 11,
        at: 16_383,
        bits: 0x40,
        found: CheckError::BadNode(11),
    },
    Change {
        name: "the head counts another number of changes",
        place: 0,
        at: 7,
        bits: 0x40,
        found: CheckError::BadNode(0),
    },
    Change {
        name: "a part of the column names a block that was never burnt",
        place: 10,
        at: 144,
        bits: 0x40,
        found: CheckError::BadNode(10),
    },
    Change {
        name: "the head calls the leaf's page unused",
        place: 0,
        at: 31,
        bits: 0x07,
        found: CheckError::BadNode(0),
    },
    Change {
        name: "the head calls the third block untried",
        place: 0,
        at: 39,
        bits: 0x01,
        found: CheckError::BadNode(0),
    },
];

/// Octets of blocks, of each block of the column's past.
const BLOCKS: [Change; 4] = [
    Change {
        name: "the first octet of the oldest block",
        place: 0,
        at: 0,
        bits: 0x40,
        found: CheckError::Damaged(0),
    },
    Change {
        name: "a route in the oldest block",
        place: 0,
        at: 200,
        bits: 0x40,
        found: CheckError::Damaged(0),
    },
    Change {
        name: "an octet in the middle of the second block",
        place: 1,
        at: 8_000,
        bits: 0x40,
        found: CheckError::Damaged(1),
    },
    Change {
        name: "the last octet of the digest of the third block",
        place: 2,
        at: 16_383,
        bits: 0x40,
        found: CheckError::Damaged(2),
    },
];

/// The family of the first peer of the first admission that waits, on the ring's first page: after the entry's length, the time, the
/// count of peers and the collector.
const WAITING: [Change; 1] = [Change {
    name: "the first admission that waits has a peer of no family",
    place: 1,
    at: 15,
    bits: 0x40,
    found: CheckError::BadNode(1),
}];

/// An archive whose changes are all applied and home.
fn filled(alloc: Global) -> Option<Made> {
    let mut archive = made(alloc, SETTINGS)?;
    give(&mut archive, 0, &vectors(alloc, CHANGES, 0)?)?;
    set_mark(&mut archive, 1_704_067_201)?;
    apply_all(&mut archive)?;
    flush_all(&mut archive)?;
    Some(archive)
}

/// Whether a check counts this many changes, or finds this.
fn checks_as(archive: &mut Made, answer: Result<u64, CheckError>) -> bool {
    archive.check() == answer
}

/// The octet of a disk at a place. None where it can't be read.
fn octet_at(alloc: Global, disk: &mut MemErase, at: u64) -> Option<u8> {
    if at >= disk.size() {
        return None;
    }
    let Ok(mut octets) = vec![in alloc; 0u8; 1] else {
        return None;
    };
    disk.read(at, &mut octets).ok()?;
    octets.first().copied()
}

/// Changes one octet of a home page.
fn change_page(alloc: Global, disk: &mut MemErase, change: &Change) -> Option<()> {
    if change.place > 1_000 || change.at >= PAGE {
        return None;
    }
    let at = (265 + change.place) * PAGE + change.at;
    let was = octet_at(alloc, disk, at)?;
    if disk.size() < at + 1 {
        return None;
    }
    disk.write_at(at, &[was ^ change.bits]).ok()?;
    disk.sync().ok()
}

/// The same block, but for the octet that is changed.
fn changed_block(alloc: Global, block: &Block, change: &Change) -> Option<Block> {
    if change.at >= 16_384 {
        return None;
    }
    let mut changed = Block::from_slice(alloc, block.octets()).ok()?;
    let at = change.at as usize;
    let octet = block.octets()[at] ^ change.bits;
    changed.put(at, &[octet]);
    Some(changed)
}

/// Burns a block that is blank.
fn burn(disk: &MemOnce, pen: &mut MemPen, number: u64, block: &Block) -> Option<()> {
    if number >= disk.blocks() {
        return None;
    }
    match disk.blank(pen, number) {
        Ok(true) => disk.burn(pen, number, block).ok(),
        _ => None,
    }
}

/// Burns a block as it was, but for the octet that is changed, where it is that block.
fn burn_anew(
    alloc: Global,
    disk: &MemOnce,
    pen: &mut MemPen,
    number: u64,
    block: &Block,
    change: &Change,
) -> Option<()> {
    if number == change.place {
        burn(disk, pen, number, &changed_block(alloc, block, change)?)
    } else {
        burn(disk, pen, number, block)
    }
}

/// The same disks, but for one octet of one of the blocks.
fn burnt_anew(alloc: Global, disks: &Both, change: &Change) -> Option<Both> {
    let (once, mut pen) = MemOnce::new(alloc, 5);
    for was in disks.pen.settled() {
        burn_anew(alloc, &once, &mut pen, was.number(), was.block(), change)?;
    }
    once.settle(&mut pen).ok()?;
    let erase = disks.erase.copy().ok()?;
    Some(Both { erase, once, pen })
}

#[test]
fn an_archive_to_which_nothing_was_given_has_no_change(rt: HostRuntime) {
    let mut archive = made(rt.alloc(), SETTINGS).expect(&rt, "an archive");
    be(&rt, checks_as(&mut archive, Ok(0)), "no change");
}

/// Whether changes are counted, also where the archive is opened again. They fill three blocks.
fn are_counted(alloc: Global) -> Option<bool> {
    let mut archive = filled(alloc)?;
    let is_counted = checks_as(&mut archive, Ok(700));
    let disks = given_up(archive);
    let are_blocks = disks.pen.settled().len() >= 3;
    let mut again = opened(alloc, disks)?;
    Some(is_counted && are_blocks && checks_as(&mut again, Ok(700)))
}

#[test]
fn changes_of_the_past_are_counted(rt: HostRuntime) {
    be(&rt, are_counted(rt.alloc()) == Some(true), "700 changes");
}

/// Whether a check of these disks finds what was changed.
fn is_found_on(alloc: Global, disks: Both, change: &Change) -> Option<bool> {
    let mut archive = opened(alloc, disks)?;
    Some(checks_as(&mut archive, Err(change.found)))
}

/// Whether a changed octet of a home page is found.
fn is_page_found(alloc: Global, disks: &Both, change: &Change) -> Option<bool> {
    let mut changed = disks.copy()?;
    change_page(alloc, &mut changed.erase, change)?;
    is_found_on(alloc, changed, change)
}

/// An archive in whose ring all changes wait.
fn waiting(alloc: Global) -> Option<Made> {
    let mut archive = made(alloc, SETTINGS)?;
    give(&mut archive, 0, &vectors(alloc, 3, 0)?)?;
    flush_all(&mut archive)?;
    Some(archive)
}

/// Whether a changed octet of an admission that waits is found, and nothing where none is changed.
fn is_waiting_found(alloc: Global, change: &Change) -> Option<bool> {
    let disks = given_up(waiting(alloc)?);
    let mut whole = opened(alloc, disks.copy()?)?;
    let is_whole = checks_as(&mut whole, Ok(0));
    Some(is_whole && is_page_found(alloc, &disks, change)?)
}

#[test]
fn a_changed_octet_of_an_admission_that_waits_is_found(rt: HostRuntime) {
    for change in &WAITING {
        let is_found = is_waiting_found(rt.alloc(), change);
        be(&rt, is_found == Some(true), change.name);
    }
}

#[test]
fn a_changed_octet_of_a_page_is_found(rt: HostRuntime) {
    let archive = filled(rt.alloc()).expect(&rt, "an archive");
    let disks = given_up(archive);
    for change in &PAGES {
        let is_found = is_page_found(rt.alloc(), &disks, change);
        be(&rt, is_found == Some(true), change.name);
    }
}

/// Whether a changed octet of a block is found.
fn is_block_found(alloc: Global, disks: &Both, change: &Change) -> Option<bool> {
    is_found_on(alloc, burnt_anew(alloc, disks, change)?, change)
}

#[test]
fn a_changed_octet_of_a_block_is_found(rt: HostRuntime) {
    let archive = filled(rt.alloc()).expect(&rt, "an archive");
    let disks = given_up(archive);
    for change in &BLOCKS {
        let is_found = is_block_found(rt.alloc(), &disks, change);
        be(&rt, is_found == Some(true), change.name);
    }
}

/// Whether an archive that must be opened again, since its first write failed, isn't checked.
fn is_unchecked(alloc: Global) -> Option<bool> {
    let mut disks = given_up(made(alloc, SETTINGS)?);
    disks.fail(alloc, Failure::Write(0, Torn::Half))?;
    let mut archive = opened(alloc, disks)?;
    let is_refused = archive.mark(0, mark_at(5)).is_err();
    Some(is_refused && checks_as(&mut archive, Err(CheckError::NeedsRecovery)))
}

#[test]
fn an_archive_that_must_be_opened_again_is_not_checked(rt: HostRuntime) {
    be(
        &rt,
        is_unchecked(rt.alloc()) == Some(true),
        "a failed write",
    );
}
