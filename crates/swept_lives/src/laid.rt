//! The pages of a disk in memory, and the same disk with each page written once, so that copies of it are cheap.

use crate::disks::Both;
use disk_memory::MemErase;
use disk_models::EraseDisk;
use std::alloc::Global;

/// The octets of a page.
pub const PAGE: u64 = 16_384;

/// How many pages the erasable disk has: the journal's, and the head, two rings, and twenty pages for the tree.
pub(crate) const PAGES: u64 = 265 + 39;

/// The octets of a page.
pub fn octets_of(alloc: Global, disk: &mut MemErase, page: u64) -> Option<Vec<u8>> {
    let mut octets = vec![in alloc; 0u8; 16_384].ok()?;
    if page > 65_536 || disk.size() < (page + 1) * PAGE {
        return None;
    }
    disk.read(page * PAGE, &mut octets).ok()?;
    Some(octets)
}

/// Writes octets of a page. Returns whether the disk has them.
pub fn lay(disk: &mut MemErase, at: u64, octets: &[u8]) -> bool {
    if at > 65_536 * PAGE || octets.len() > 16_384 || disk.size() < at + octets.len() as u64 {
        return false;
    }
    disk.write_at(at, octets).is_ok()
}

/// The disks, of which the erasable one has each page that isn't of zeros written once, and synced.
pub fn laid_anew(alloc: Global, disks: Both) -> Option<Both> {
    let mut disks = disks;
    let zeros = vec![in alloc; 0u8; 16_384].ok()?;
    let mut erase = MemErase::new(alloc, PAGES * PAGE);
    for page in 0..PAGES {
        let octets = octets_of(alloc, &mut disks.erase, page)?;
        let is_blank = octets == zeros;
        if !is_blank && !lay(&mut erase, page.saturating_mul(PAGE), &octets) {
            return None;
        }
    }
    erase.sync().ok()?;
    disks.erase = erase;
    Some(disks)
}
