//! Disks over a file that does less than it is asked for, is interrupted, or fails.

use crate::be;
use crate::folders::{PAGE, are_all};
use crate::slow::{SlowFile, Wrong};
use disk_files::{Access, Call, Failure, FileErase, FileError, FileOnce, FilePen, Part, Reason};
use disk_models::{Block, EraseDisk, Fault, OnceDisk};
use std::alloc::Global;
use std::io::ErrorKind;

/// A disk of one page over a file that moves at most `most` octets a call.
fn slow(alloc: Global, most: usize, wrong: Wrong) -> Option<FileErase<SlowFile>> {
    FileErase::create_on(SlowFile::new(alloc, most, wrong), PAGE).ok()
}

/// Writes octets at a place.
fn write(disk: &mut FileErase<SlowFile>, at: u64, octets: &[u8]) -> Result<(), Fault> {
    if at > disk.size() || octets.len() as u64 > disk.size() - at {
        return Ok(());
    }
    disk.write_at(at, octets)
}

/// Reads octets at a place.
fn read(disk: &mut FileErase<SlowFile>, at: u64, octets: &mut [u8]) -> Result<(), Fault> {
    if at > disk.size() || octets.len() as u64 > disk.size() - at {
        return Ok(());
    }
    disk.read(at, octets)
}

/// Octets that count up to 250, over and over.
fn counting() -> [u8; 2_000] {
    let mut octets = [0; 2_000];
    for (k, octet) in octets.iter_mut().enumerate() {
        *octet = (k % 251) as u8;
    }
    octets
}

/// Whether 2,000 octets are read as they were written, and one on each side as it was.
fn is_gone_on_with(alloc: Global, most: usize) -> Option<bool> {
    let mut disk = slow(alloc, most, Wrong::Nothing)?;
    let octets = counting();
    write(&mut disk, 500, &octets).ok()?;
    let mut back = [7; 2_002];
    read(&mut disk, 499, &mut back).ok()?;
    Some(
        back.first() == Some(&0)
            && back[1..2_001] == octets[..]
            && back.last() == Some(&0)
            && disk.faults() == 0,
    )
}

#[test]
fn short_and_interrupted_calls_are_gone_on_with(rt: HostRuntime) {
    for most in [7, 999, 16_384] {
        be(
            &rt,
            is_gone_on_with(rt.alloc(), most) == Some(true),
            "short calls",
        );
    }
}

#[test]
fn a_file_that_moves_nothing_is_a_failure(rt: HostRuntime) {
    let mut disk = slow(rt.alloc(), 0, Wrong::Nothing).expect(&rt, "a disk");
    be(&rt, read(&mut disk, 0, &mut [0; 8]) == Err(Fault), "a read");
    be(&rt, write(&mut disk, 0, &[1; 8]) == Err(Fault), "a write");
}

/// Whether eight octets are read as ones.
fn are_ones(disk: &mut FileErase<SlowFile>) -> bool {
    let mut octets = [0; 8];
    read(disk, 0, &mut octets).is_ok() && are_all(&octets, 1)
}

#[test]
fn a_failed_sync_is_not_forgotten(rt: HostRuntime) {
    let mut disk = slow(rt.alloc(), 99, Wrong::Syncs).expect(&rt, "a disk");
    be(
        &rt,
        write(&mut disk, 0, &[1; 8]).is_ok() && are_ones(&mut disk),
        "a write",
    );
    be(&rt, disk.sync() == Err(Fault), "a sync");
    be(&rt, read(&mut disk, 0, &mut [0; 8]) == Err(Fault), "a read");
    be(
        &rt,
        write(&mut disk, 0, &[1; 8]) == Err(Fault),
        "a write later",
    );
    be(
        &rt,
        disk.sync() == Err(Fault) && disk.faults() == 4,
        "a sync again",
    );
}

#[test]
fn a_failed_read_changes_nothing_and_a_failed_write_ends_the_disk(rt: HostRuntime) {
    let mut disk = slow(rt.alloc(), 100, Wrong::Moves(4)).expect(&rt, "a disk");
    be(&rt, write(&mut disk, 0, &[1; 8]).is_ok(), "a write");
    let failed = read(&mut disk, 0, &mut [0; 900]) == Err(Fault);
    be(&rt, failed && disk.faults() == 1, "a read");
    be(&rt, disk.sync().is_ok(), "a sync");
    be(
        &rt,
        write(&mut disk, 0, &[1; 8]) == Err(Fault),
        "a write later",
    );
    be(
        &rt,
        disk.sync() == Err(Fault) && disk.faults() == 3,
        "a sync later",
    );
}

/// Why no disk is created over a file that does this wrong, if none is.
fn not_created(alloc: Global, wrong: Wrong) -> Option<FileError> {
    let refused = FileErase::create_on(SlowFile::new(alloc, 99, wrong), PAGE).err()?;
    Some(refused.error)
}

/// Why none is opened.
fn not_opened(alloc: Global, wrong: Wrong) -> Option<FileError> {
    let refused = FileErase::open_on(SlowFile::new(alloc, 99, wrong), Access::Alone).err()?;
    Some(refused.error)
}

/// What a file does wrong, and why it is refused.
const REFUSED: [(Wrong, FileError); 3] = [
    (Wrong::IsHeld, FileError::InUse(Part::Pages)),
    (Wrong::IsIrregular, FileError::NotAFile(Part::Pages)),
    (
        Wrong::Settles,
        FileError::Failed(Failure {
            part: Part::Pages,
            call: Call::Sync,
            reason: Reason::Kind(ErrorKind::Other),
        }),
    ),
];

/// Why a file that has an octet isn't made anew, and how many octets it has then.
fn not_created_anew(alloc: Global) -> Option<(FileError, usize)> {
    let mut file = SlowFile::new(alloc, 99, Wrong::Nothing);
    file.octets.push(7).ok()?;
    let refused = FileErase::create_on(file, PAGE).err()?;
    Some((refused.error, refused.files.octets.len()))
}

#[test]
fn what_stands_against_an_opening_is_reported(rt: HostRuntime) {
    let alloc = rt.alloc();
    for (wrong, refusal) in &REFUSED {
        be(
            &rt,
            not_created(alloc, *wrong) == Some(*refusal),
            "a creation",
        );
        be(
            &rt,
            not_opened(alloc, *wrong) == Some(*refusal),
            "an opening",
        );
    }
    let size = Some(FileError::Size(Part::Pages));
    be(
        &rt,
        not_opened(alloc, Wrong::Nothing) == size,
        "an empty file",
    );
    let there = Some((FileError::Exists(Part::Pages), 1));
    be(
        &rt,
        not_created_anew(alloc) == there,
        "a file with an octet",
    );
}

/// A disk of two blocks, with its pen.
#[derive(Drop)]
struct Burner {
    disk: FileOnce<SlowFile>,
    pen: FilePen<SlowFile>,
    block: Block,
}

/// A disk of two blocks whose map and blocks do this wrong.
fn burner_of(alloc: Global, map: Wrong, blocks: Wrong) -> Option<Burner> {
    let map = SlowFile::new(alloc, 99, map);
    let blocks = SlowFile::new(alloc, 99, blocks);
    let (disk, pen) = FileOnce::create_on(alloc, map, blocks, 2).ok()?;
    let block = Block::new(alloc).ok()?;
    if disk.blocks() != 2 {
        return None;
    }
    Some(Burner { disk, pen, block })
}

impl Burner {
    /// Whether block 0 is blank.
    fn is_blank(&mut self) -> Result<bool, Fault> {
        if self.disk.blocks() == 0 {
            return Ok(false);
        }
        self.disk.blank(&mut self.pen, 0)
    }

    /// Burns block 0.
    fn burn(&mut self) -> Result<(), Fault> {
        if self.disk.blocks() == 0 {
            return Ok(());
        }
        self.disk.burn(&mut self.pen, 0, &self.block)
    }

    fn settle(&mut self) -> Result<(), Fault> {
        self.disk.settle(&mut self.pen)
    }
}

#[test]
fn a_map_whose_sync_fails_has_no_block_written(rt: HostRuntime) {
    let mut burner = burner_of(rt.alloc(), Wrong::Syncs, Wrong::Nothing).expect(&rt, "a disk");
    be(&rt, burner.is_blank() == Ok(true), "a blank block");
    be(&rt, burner.burn() == Err(Fault), "a burn");
    be(&rt, burner.is_blank() == Err(Fault), "a look");
}

#[test]
fn a_settle_that_fails_is_not_forgotten(rt: HostRuntime) {
    let mut burner = burner_of(rt.alloc(), Wrong::Nothing, Wrong::Syncs).expect(&rt, "a disk");
    be(&rt, burner.burn() == Ok(()), "a burn");
    be(&rt, burner.settle() == Err(Fault), "a settle");
    be(&rt, burner.is_blank() == Err(Fault), "a look");
    be(&rt, FileOnce::pen_faults(&burner.pen) == 2, "two faults");
}
