//! A call of a disk that fails while a command runs.

use crate::disks::MemArchive;
use disk_archive::Archive;
use disk_calls::NoReasons;
use disk_memory::{Failure, MemErase, MemPen, OnceFailure, Torn};
use std::alloc::Global;

/// A call that fails, of the pages or of the blocks.
#[derive(Drop)]
enum Failing {
    Pages(Failure),
    Blocks(OnceFailure),
}

impl Failing {
    /// `sync 3`: the kind of a call, and its number among those of that kind, from 0. A write and a burn leave half of their octets.
    fn read(text: &str) -> Option<Failing> {
        let (kind, number) = text.split_once(' ')?;
        let number = number.parse::<u64>().ok()?;
        match kind {
            "read" => Some(Failing::Pages(Failure::Read(number))),
            "write" => Some(Failing::Pages(Failure::Write(number, Torn::Half))),
            "sync" => Some(Failing::Pages(Failure::Sync(number))),
            "burn" => Some(Failing::Blocks(OnceFailure::Burn(number, Torn::Half))),
            "settle" => Some(Failing::Blocks(OnceFailure::Settle(number))),
            "look" => Some(Failing::Blocks(OnceFailure::Look(number))),
            _ => None,
        }
    }

    /// Has the call fail, and no other.
    fn set(self, alloc: Global, erase: &mut MemErase, pen: &mut MemPen) -> Option<()> {
        match self {
            Failing::Pages(call) => erase.set_script(vec![in alloc; call].ok()?),
            Failing::Blocks(call) => pen.set_script(vec![in alloc; call].ok()?),
        }
        Some(())
    }
}

/// The same archive, opened again on disks of which a call fails once, as a text says. Its opening's calls are counted too.
pub(crate) fn reopened_to_fail(
    alloc: Global,
    archive: MemArchive,
    text: &str,
) -> Option<MemArchive> {
    let (mut erase, once, mut pen) = archive.into_archive().into_disks();
    Failing::read(text)?.set(alloc, &mut erase, &mut pen)?;
    match Archive::open(alloc, erase, once, pen) {
        Ok(archive) => Some(MemArchive::new(archive, NoReasons)),
        Err(_) => None,
    }
}
