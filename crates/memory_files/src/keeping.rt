//! A page that was written to a disk and synced is there, and so is a block that was burnt and settled: on any disk that follows its model,
//! and so over files in memory.

ghost use Rattle.std.specs.Prelude.{◌≡◌, ◌≤◌, ◌<◌, ◌+◌, IfSome, IsSome, OnOk};
ghost use Rattle.disk_models.specs.Once.{settled_in};
ghost use Rattle.memory_files.specs.Keeping.{IsKept};

use crate::file::MemFile;
use disk_files::{FileErase, FileOnce, FilePen};
use disk_models::{Block, EraseDisk, Fault, OnceDisk, Page};
use std::alloc::Global;

/// Writes a page to a disk from a place on, syncs it, and reads the page again.
fn keep_on<D: EraseDisk>(disk: &mut D, at: u64, page: &Page, into: &mut Page) -> Result<(), Fault>
    requires { at + 16384 ≤ D.octet_count disk.old }
    ensures honest { D.honest disk.old → D.honest disk.new }
    ensures kept { D.honest disk.old → OnOk result (IsKept at page.now (D.model disk.new)) }
    ensures read { D.honest disk.old → OnOk result (into.new ≡ page.now) }
{
    disk.write_at(at, page.octets())?;
    disk.sync()?;
    into.read_from(disk, at)
}

/// Makes a disk of `size` octets in a new file in memory, writes a page to it from a place on, syncs it, and reads the page again. None
/// where no disk has this size, the page doesn't fit there, or there is no memory.
pub fn keep(
    alloc: Global,
    size: u64,
    at: u64,
    page: &Page,
    into: &mut Page,
) -> Option<FileErase<MemFile>>
    ensures honest { IfSome result (λ disk. ⟦<FileErase<MemFile> as EraseDisk>⟧.honest disk) }
    ensures kept { IfSome result (λ disk. IsKept at page.now (⟦<FileErase<MemFile> as EraseDisk>⟧.model disk)) }
    ensures read { IsSome result → into.new ≡ page.now }
{
    if size < 16_384 || at > size - 16_384 {
        return None;
    }
    let Ok(mut disk) = FileErase::create_on(MemFile::new(alloc), size) else {
        return None;
    };
    match keep_on(&mut disk, at, page, into) {
        Ok(()) => Some(disk),
        Err(_) => None,
    }
}

/// Burns a block of a write-once disk that is blank, settles it, and reads it by what a reader may know then.
fn keep_block_on<O: OnceDisk>(
    disk: &O,
    pen: &mut O::Pen,
    n: u64,
    block: &Block,
    into: &mut Block,
) -> Result<(), Fault>
    requires { n < O.block_count disk.now }
    ensures honest { O.honest disk.now pen.old → O.honest disk.now pen.new }
    ensures settled { O.honest disk.now pen.old → OnOk result (settled_in (O.model pen.new) n block.now) }
    ensures read { O.honest disk.now pen.old → OnOk result (into.new ≡ block.now) }
{
    if !disk.blank(pen, n)? {
        return Err(Fault);
    }
    disk.burn(pen, n, block)?;
    disk.settle(pen)?;
    let mut seen = disk.look(pen)?;
    disk.read(&mut seen, n, into)
}

/// Makes a write-once disk of `count` blocks in two new files in memory, burns block `n`, settles it, and reads it. None where no disk has
/// such a count of blocks, it has no block `n`, or there is no memory.
pub fn keep_block(
    alloc: Global,
    count: u64,
    n: u64,
    block: &Block,
    into: &mut Block,
) -> Option<(FileOnce<MemFile>, FilePen<MemFile>)>
    ensures honest { IfSome result (λ made. ⟦<FileOnce<MemFile> as OnceDisk>⟧.honest made.0 made.1) }
    ensures settled { IfSome result (λ made. settled_in (⟦<FileOnce<MemFile> as OnceDisk>⟧.model made.1) n block.now) }
    ensures read { IsSome result → into.new ≡ block.now }
{
    if n >= count {
        return None;
    }
    let (map, blocks) = (MemFile::new(alloc), MemFile::new(alloc));
    let Ok((disk, mut pen)) = FileOnce::create_on(alloc, map, blocks, count) else {
        return None;
    };
    match keep_block_on(&disk, &mut pen, n, block, into) {
        Ok(()) => Some((disk, pen)),
        Err(_) => None,
    }
}
