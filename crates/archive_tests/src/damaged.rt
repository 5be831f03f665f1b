//! An archive on whose disks some octets are others.

use crate::disks::{JOURNAL, MemArchive, PAGE};
use crate::gathered::octets_of;
use disk_archive::Archive;
use disk_calls::NoReasons;
use disk_memory::{Burn, MemErase, MemOnce, MemPen};
use disk_models::{Block, EraseDisk, OnceDisk};
use once_store::seal;
use std::alloc::Global;
use std::sync::Arc;

/// Where octets are changed.
#[derive(Clone, Copy, PartialEq, Eq)]
enum Place {
    /// In a home page.
    Page,
    /// In a block, whose digest stays.
    Block,
    /// In a block, which gets the digest of what it is then.
    Sealed,
}

/// Octets that are put into a page or a block.
#[derive(Drop)]
struct Damage {
    place: Place,
    number: u64,
    at: usize,
    octets: Vec<u8>,
}

impl Damage {
    /// `page 17 at 161: 02`, `block 0 at 200: 40` or `sealed 1 at 8: FF`, in which `<3 x AB>` stands for `ABABAB`.
    fn read(alloc: Global, text: &str) -> Option<Damage> {
        let (spot, digits) = text.split_once(": ")?;
        let (place, spot) = spot.split_once(' ')?;
        let (number, at) = spot.split_once(" at ")?;
        let place = match place {
            "page" => Place::Page,
            "block" => Place::Block,
            "sealed" => Place::Sealed,
            _ => return None,
        };
        Some(Damage {
            place,
            number: number.parse::<u64>().ok()?,
            at: at.parse::<usize>().ok()?,
            octets: octets_of(alloc, digits)?,
        })
    }

    /// Puts the octets into a home page.
    fn change_page(&self, disk: &mut MemErase) -> Option<()> {
        let page = JOURNAL.checked_add(self.number)?.checked_mul(PAGE)?;
        let at = page.checked_add(self.at as u64)?;
        if disk.size() < at.checked_add(self.octets.len() as u64)? {
            return None;
        }
        disk.write_at(at, &self.octets).ok()?;
        disk.sync().ok()
    }

    /// A block as it was, but for the octets where it is the one that is changed.
    fn changed(&self, alloc: Global, was: &Burn) -> Option<Block> {
        let mut block = Block::from_slice(alloc, was.block().octets()).ok()?;
        if self.place == Place::Page || was.number() != self.number {
            return Some(block);
        }
        if self.at.checked_add(self.octets.len())? > block.octets().len() {
            return None;
        }
        block.put(self.at, &self.octets);
        if self.place == Place::Sealed {
            seal(&mut block);
        }
        Some(block)
    }

    /// Burns all blocks of a disk on another one, but for the octets that are changed.
    fn burn_all(
        &self,
        alloc: Global,
        from: &MemPen,
        disk: &MemOnce,
        pen: &mut MemPen,
    ) -> Option<()> {
        for was in from.settled() {
            burn(disk, pen, was.number(), &self.changed(alloc, was)?)?;
        }
        disk.settle(pen).ok()
    }
}

/// Burns a block, which has to be blank.
fn burn(disk: &MemOnce, pen: &mut MemPen, number: u64, block: &Block) -> Option<()> {
    if number >= disk.blocks() {
        return None;
    }
    match disk.blank(pen, number) {
        Ok(true) => disk.burn(pen, number, block).ok(),
        _ => None,
    }
}

/// The archive on these disks.
fn opened(alloc: Global, erase: MemErase, once: MemOnce, pen: MemPen) -> Option<MemArchive> {
    match Archive::open(alloc, erase, Arc::new(alloc, once).ok()?, pen) {
        Ok(archive) => Some(MemArchive::new(archive, NoReasons)),
        Err(_) => None,
    }
}

/// The same archive, opened again on disks on which the octets that a text says are others.
pub(crate) fn damaged(alloc: Global, archive: MemArchive, text: &str) -> Option<MemArchive> {
    let damage = Damage::read(alloc, text)?;
    let (mut erase, once, from) = archive.into_archive().into_disks();
    let (disk, mut pen) = MemOnce::new(alloc, once.blocks());
    if damage.place == Place::Page {
        damage.change_page(&mut erase)?;
    }
    damage.burn_all(alloc, &from, &disk, &mut pen)?;
    opened(alloc, erase, disk, pen)
}
