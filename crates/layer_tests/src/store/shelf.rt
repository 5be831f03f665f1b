//! Blocks with digests on the write-once disk in memory: appended, read, damaged, refused and crashed.

use super::spoiled::Spoiled;
use crate::{be, be_at};
use disk_memory::{MemOnce, MemPen, OnceFailure, Torn};
use disk_models::{Block, OnceDisk};
use once_store::{AppendError, BlockError, Shelf, ShelfReader, seal};
use std::alloc::Global;
use std::sync::Arc;

/// A block of one octet, with its digest.
fn sealed(alloc: Global, octet: u8) -> Option<Block> {
    let mut block = Block::new(alloc).ok()?;
    block.octets_mut().fill(octet);
    seal(&mut block);
    Some(block)
}

/// A shelf on a disk in memory.
fn opened(alloc: Global, disk: MemOnce, pen: MemPen) -> Option<Shelf<MemOnce>> {
    Shelf::open(Arc::new(alloc, disk).ok()?, pen, 0).ok()
}

/// A shelf over a disk of `blocks` blank blocks, where these calls fail.
fn shelf_of(alloc: Global, blocks: u64, script: Vec<OnceFailure>) -> Option<Shelf<MemOnce>> {
    let (disk, mut pen) = MemOnce::new(alloc, blocks);
    pen.set_script(script);
    opened(alloc, disk, pen)
}

/// Appends a block of one octet. None where there was no memory for it.
fn append<O: OnceDisk + Drop>(
    alloc: Global,
    shelf: &mut Shelf<O>,
    octet: u8,
) -> Option<Result<u64, AppendError>> {
    let block = sealed(alloc, octet)?;
    Some(shelf.append(&block))
}

/// What is read of a block: its first octet.
type Read = Result<u8, BlockError>;

/// What a reader returns for a block.
fn read_by<O: OnceDisk + Drop>(
    reader: &mut ShelfReader<O>,
    seen: &mut O::Seen,
    n: u64,
) -> Option<Read> {
    match reader.fetch(seen, n) {
        Ok(()) => Some(Ok(reader.block(n)?.octets().first().copied()?)),
        Err(refusal) => Some(Err(refusal)),
    }
}

/// Whether a reader that keeps `capacity` blocks reads exactly this of these blocks.
fn reads<O: OnceDisk + Drop>(
    alloc: Global,
    shelf: &mut Shelf<O>,
    capacity: usize,
    asked: &[(u64, Read)],
) -> Option<bool> {
    if !(1..=1024).contains(&capacity) {
        return None;
    }
    let mut seen = shelf.seen().ok()?;
    let mut reader = shelf.reader(alloc, capacity).ok()?;
    for (n, expected) in asked {
        if read_by(&mut reader, &mut seen, *n)? != *expected {
            return Some(false);
        }
    }
    Some(true)
}

/// Whether small and large readers read this alike.
fn all_read<O: OnceDisk + Drop>(
    alloc: Global,
    shelf: &mut Shelf<O>,
    asked: &[(u64, Read)],
) -> bool {
    reads(alloc, shelf, 1, asked) == Some(true) && reads(alloc, shelf, 1024, asked) == Some(true)
}

/// What is read of a full disk of two blocks.
const TWO: [(u64, Read); 6] = [
    (0, Ok(7)),
    (1, Ok(8)),
    (0, Ok(7)),
    (2, Err(BlockError::Damaged(2))),
    (0, Ok(7)),
    (1, Ok(8)),
];

#[test]
fn what_is_appended_is_read_until_the_disk_is_full(rt: HostRuntime) {
    let alloc = rt.alloc();
    let mut shelf = shelf_of(alloc, 2, Vec::new(alloc)).expect(&rt, "a shelf");
    be(
        &rt,
        append(alloc, &mut shelf, 7) == Some(Ok(0)),
        "the first block",
    );
    be(
        &rt,
        append(alloc, &mut shelf, 8) == Some(Ok(1)),
        "the second",
    );
    let third = append(alloc, &mut shelf, 9);
    be(&rt, third == Some(Err(AppendError::OnceFull)), "the third");
    be(
        &rt,
        shelf.next() == 2 && shelf.faults() == 0,
        "two are there",
    );
    be(&rt, all_read(alloc, &mut shelf, &TWO), "what is read");
}

/// A shelf of three blocks, of which the second one is read with one octet changed.
fn spoiled(alloc: Global, place: usize) -> Option<Shelf<Spoiled>> {
    let (disk, pen) = MemOnce::new(alloc, 4);
    let disk = Spoiled {
        disk,
        number: 1,
        place,
    };
    let mut shelf = Shelf::open(Arc::new(alloc, disk).ok()?, pen, 0).ok()?;
    for octet in [7, 8, 9] {
        append(alloc, &mut shelf, octet)?.ok()?;
    }
    Some(shelf)
}

/// What is read of it.
const SPOILED: [(u64, Read); 5] = [
    (0, Ok(7)),
    (1, Err(BlockError::Damaged(1))),
    (2, Ok(9)),
    (1, Err(BlockError::Damaged(1))),
    (0, Ok(7)),
];

#[test]
fn an_octet_that_changed_is_damage_of_its_block(rt: HostRuntime) {
    let alloc = rt.alloc();
    for place in [0, 9, 16_351, 16_352, 16_383] {
        let mut shelf = spoiled(alloc, place).expect(&rt, "a shelf");
        be_at(
            &rt,
            all_read(alloc, &mut shelf, &SPOILED),
            "an octet",
            place as u64,
        );
    }
}

/// A shelf of four blank blocks, where this call fails. Its opening asks about block 0.
fn failing(alloc: Global, failure: OnceFailure) -> Option<Shelf<MemOnce>> {
    shelf_of(alloc, 4, vec![in alloc; failure].ok()?)
}

/// Whether an append fails where this call does, and the next block has this number.
fn is_spent(alloc: Global, failure: OnceFailure, number: u64) -> Option<bool> {
    let mut shelf = failing(alloc, failure)?;
    let first = append(alloc, &mut shelf, 7)?;
    let second = append(alloc, &mut shelf, 7)?;
    Some(
        first == Err(AppendError::Fault)
            && second == Ok(number)
            && shelf.next() == number.saturating_add(1),
    )
}

#[test]
fn a_block_whose_call_failed_is_spent_once_it_was_tried(rt: HostRuntime) {
    let alloc = rt.alloc();
    // An opening asks about block 0, so the first append's question is the second.
    be(
        &rt,
        is_spent(alloc, OnceFailure::Blank(1), 0) == Some(true),
        "a question",
    );
    let burnt = is_spent(alloc, OnceFailure::Burn(0, Torn::Half), 1);
    be(&rt, burnt == Some(true), "a burn");
    be(
        &rt,
        is_spent(alloc, OnceFailure::Settle(0), 1) == Some(true),
        "a settlement",
    );
}

#[test]
fn a_look_that_fails_is_made_again(rt: HostRuntime) {
    let mut shelf = failing(rt.alloc(), OnceFailure::Look(0)).expect(&rt, "a shelf");
    let failed = shelf.seen().is_err();
    be(&rt, failed && shelf.faults() == 1, "a look that fails");
    be(&rt, shelf.seen().is_ok(), "the next look");
}

/// A shelf whose first opening failed, and that was then opened again.
fn opened_again(alloc: Global) -> Option<Shelf<MemOnce>> {
    let (disk, mut pen) = MemOnce::new(alloc, 4);
    pen.set_script(vec![in alloc; OnceFailure::Blank(0)].ok()?);
    let refused = Shelf::open(Arc::new(alloc, disk).ok()?, pen, 0).err()?;
    Shelf::open(refused.disk, refused.pen, 0).ok()
}

#[test]
fn a_disk_whose_opening_failed_is_opened_again(rt: HostRuntime) {
    let mut shelf = opened_again(rt.alloc()).expect(&rt, "a shelf");
    be(&rt, shelf.next() == 0 && shelf.faults() == 1, "one fault");
    be(
        &rt,
        append(rt.alloc(), &mut shelf, 7) == Some(Ok(0)),
        "an append",
    );
}

/// What is read of a block where the first read fails.
const FAILED: [(u64, Read); 2] = [(0, Err(BlockError::Fault)), (0, Ok(7))];

#[test]
fn a_read_that_fails_is_no_damage(rt: HostRuntime) {
    let alloc = rt.alloc();
    let mut shelf = failing(alloc, OnceFailure::Read(0)).expect(&rt, "a shelf");
    be(
        &rt,
        append(alloc, &mut shelf, 7) == Some(Ok(0)),
        "an append",
    );
    be(
        &rt,
        reads(alloc, &mut shelf, 4, &FAILED) == Some(true),
        "a fault, and then the block",
    );
}

/// Each kind of torn block.
fn torn(alloc: Global, kind: u8) -> Option<Torn> {
    Some(match kind {
        0 => Torn::Old,
        1 => Torn::New,
        2 => Torn::Half,
        _ => Torn::Octets(vec![in alloc; 0xa5; 20_000].ok()?),
    })
}

/// The n-th call of a run of appends, each of which asks, burns and settles, after an opening that asks once. Three appends
/// don't reach the tenth.
fn failure(alloc: Global, n: u64, kind: u8) -> Option<OnceFailure> {
    let append = n / 3;
    Some(match n % 3 {
        0 => OnceFailure::Blank(append + 1),
        1 => OnceFailure::Burn(append, torn(alloc, kind)?),
        _ => OnceFailure::Settle(append),
    })
}

/// Three appends until one fails. It returns how many were done.
fn append_three(alloc: Global, shelf: &mut Shelf<MemOnce>) -> Option<u64> {
    for octet in 0..3u8 {
        if append(alloc, shelf, octet)?.is_err() {
            return Some(u64::from(octet));
        }
    }
    Some(3)
}

/// What a crash leaves of a shelf, torn in this way, opened again.
fn after_crash(alloc: Global, shelf: Shelf<MemOnce>, kind: u8) -> Option<Shelf<MemOnce>> {
    let (disk, pen) = shelf.into_disk();
    let choice = vec![in alloc; torn(alloc, kind)?].ok()?;
    let (left, pen) = disk.crash(&pen, &choice).ok()?;
    opened(alloc, left, pen)
}

/// What three appends leave.
const APPENDED: [(u64, Read); 3] = [(0, Ok(0)), (1, Ok(1)), (2, Ok(2))];

/// Three appends, where the power ends at the n-th call, or after them all. Whether as many are done as calls before leave
/// room for, these blocks are there after an opening, and one block more gets this number.
fn outlives(alloc: Global, n: u64, kind: u8, number: u64) -> Option<bool> {
    let mut shelf = shelf_of(alloc, 8, vec![in alloc; failure(alloc, n, kind)?].ok()?)?;
    let done = append_three(alloc, &mut shelf)?;
    let mut shelf = after_crash(alloc, shelf, kind)?;
    let last = append(alloc, &mut shelf, 9)?;
    let asked = APPENDED.get(..done as usize)?;
    Some(done == n / 3 && last == Ok(number) && reads(alloc, &mut shelf, 8, asked)?)
}

#[test]
fn what_was_reported_outlives_each_crash(rt: HostRuntime) {
    for n in 0..10u64 {
        // A call that only asks leaves its block blank.
        let number = n / 3 + u64::from(n % 3 > 0);
        for kind in 0..4u8 {
            be_at(
                &rt,
                outlives(rt.alloc(), n, kind, number) == Some(true),
                "a stop",
                n,
            );
        }
    }
}
