//! Files that are shared by those who read them.

use crate::be;
use crate::folders::{folder, remove};
use Access::{Alone, Shared};
use disk_files::{
    Access, Call, Failure, Failures, FileErase, FileError, FileOnce, FilePen, Part, Reason,
};
use disk_models::{Block, EraseDisk, Fault, OnceDisk};
use std::sync::Arc;

/// Both disks over the files of a folder.
#[derive(Drop)]
struct Disks {
    erase: FileErase,
    once: FileOnce,
    pen: FilePen,
}

/// Makes the files of both disks, of one page and two blocks. Whether that was done.
fn is_made(rt: &HostRuntime, folder: &str) -> bool {
    FileErase::create(rt.alloc(), rt, folder, 16_384).is_ok()
        && FileOnce::create(rt.alloc(), rt, folder, 2).is_ok()
}

/// Opens the disks of a folder.
fn opened(rt: &HostRuntime, folder: &str, access: Access) -> Result<Disks, FileError> {
    let erase = FileErase::open(rt.alloc(), rt, folder, access)?;
    let (once, pen) = FileOnce::open(rt.alloc(), rt, folder, access)?;
    Ok(Disks { erase, once, pen })
}

/// How files are held, how they are opened meanwhile, and which of them is in use, if one is.
const HELD: [(Access, Access, Option<Part>); 4] = [
    (Alone, Alone, Some(Part::Pages)),
    (Alone, Shared, Some(Part::Pages)),
    (Shared, Alone, Some(Part::Pages)),
    (Shared, Shared, None),
];

/// Whether files that are held so are opened as the row says.
fn is_right(rt: &HostRuntime, folder: &str, row: &(Access, Access, Option<Part>)) -> bool {
    let (held, expected, in_use) = *row;
    let Ok(_first) = opened(rt, folder, held) else {
        return false;
    };
    match opened(rt, folder, expected) {
        Ok(_second) => in_use.is_none(),
        Err(FileError::InUse(part)) => in_use == Some(part),
        Err(_) => false,
    }
}

#[test]
fn files_are_shared_by_readers_alone(rt: HostRuntime) {
    let folder = folder(&rt, "readers").expect(&rt, "a folder");
    be(&rt, is_made(&rt, &folder), "files");
    for row in &HELD {
        be(&rt, is_right(&rt, &folder, row), "an opening");
    }
    be(&rt, remove(&rt, &folder), "the folder goes");
}

/// What a disk whose file is shared does: it is read, brought to the device, not written, and then broken.
fn ends(disk: &mut FileErase) -> Option<[Result<(), Fault>; 4]> {
    if disk.size() < 8 {
        return None;
    }
    let read = disk.read(0, &mut [0; 8]);
    let synced = disk.sync();
    let written = disk.write_at(0, &[1; 8]);
    Some([read, synced, written, disk.read(0, &mut [0; 8])])
}

/// What a pen whose files are shared does: a look, a burn, and a look later.
fn burnt(disks: &mut Disks, block: &Block) -> Option<[Result<bool, Fault>; 3]> {
    if disks.once.blocks() == 0 {
        return None;
    }
    let first = disks.once.blank(&mut disks.pen, 0);
    let burnt = disks.once.burn(&mut disks.pen, 0, block).map(|_| true);
    Some([first, burnt, disks.once.blank(&mut disks.pen, 0)])
}

/// The failure of a write to a file that is shared.
const UNWRITTEN: Failure = Failure {
    part: Part::Pages,
    call: Call::Write,
    reason: Reason::Shared,
};

/// Whether what is shared is read, and neither written nor burnt, and why is noted.
fn is_only_read(rt: &HostRuntime, folder: &str) -> Option<bool> {
    let mut disks = opened(rt, folder, Shared).ok()?;
    let failures = Arc::new(rt.alloc(), Failures::new(rt.alloc(), folder).ok()?).ok()?;
    disks.erase.note_in(&failures).ok()?;
    let block = Block::new(rt.alloc()).ok()?;
    let erased = ends(&mut disks.erase)?;
    let burnt = burnt(&mut disks, &block)?;
    Some(
        erased == [Ok(()), Ok(()), Err(Fault), Err(Fault)]
            && burnt == [Ok(true), Err(Fault), Err(Fault)]
            && failures.first() == Some(UNWRITTEN),
    )
}

/// Whether nothing was written to the files of a folder.
fn is_blank(rt: &HostRuntime, folder: &str) -> Option<bool> {
    let mut disks = opened(rt, folder, Alone).ok()?;
    let mut octets = [7; 8];
    if disks.erase.size() < 8 || disks.once.blocks() == 0 {
        return None;
    }
    disks.erase.read(0, &mut octets).ok()?;
    Some(octets == [0; 8] && disks.once.blank(&mut disks.pen, 0) == Ok(true))
}

#[test]
fn a_file_that_is_shared_is_not_written(rt: HostRuntime) {
    let folder = folder(&rt, "only_read").expect(&rt, "a folder");
    be(&rt, is_made(&rt, &folder), "files");
    be(&rt, is_only_read(&rt, &folder) == Some(true), "a reader");
    be(&rt, is_blank(&rt, &folder) == Some(true), "what is left");
    be(&rt, remove(&rt, &folder), "the folder goes");
}
