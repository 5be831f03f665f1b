//! The disks of an archive as they would be if its times were whole seconds: each page and each block is put into that unit, octet by
//! octet (docs/FORMATS.md). Its times have to be whole seconds, its pages have to be home, and what waits in a ring may not wrap.

use crate::disks::Both;
use crate::laid::{PAGES, lay, octets_of};
use disk_memory::{Burn, MemErase, MemOnce, MemPen};
use disk_models::{Block, EraseDisk, OnceDisk};
use once_store::seal;
use route_model::Moment;
use std::alloc::Global;
use std::sync::Arc;

/// The head's page, and how many pages each ring has, of which the first lies on the next page.
const HEAD: u64 = 265;

const RING: u64 = 9;

/// The first page of the tree.
const TREE: u64 = HEAD + 1 + 2 * RING;

const PAGE_LEN: usize = 16_384;

/// The number in this count of octets at a place, the highest first.
fn number_at(octets: &[u8], at: usize, size: usize) -> Option<u64> {
    let mut number = 0u64;
    for k in 0..size {
        let octet = *octets.get(at.checked_add(k)?)?;
        number = number.checked_mul(256)?.checked_add(u64::from(octet))?;
    }
    Some(number)
}

/// Puts a number of eight octets at a place.
fn put(octets: &mut [u8], at: usize, number: u64) {
    for (k, octet) in number.to_be_bytes().iter().enumerate() {
        if let Some(place) = octets.get_mut(at.saturating_add(k)) {
            *place = *octet;
        }
    }
}

/// Puts the time at a place into whole seconds. An end that isn't there stays.
fn shorten(octets: &mut [u8], at: usize) -> Option<()> {
    let micros = number_at(octets, at, 8)?;
    if micros == u64::MAX {
        return Some(());
    }
    if micros % Moment::SECOND != 0 {
        return None;
    }
    put(octets, at, micros / Moment::SECOND);
    Some(())
}

/// The versions of a leaf.
fn shorten_leaf(octets: &mut [u8], count: u64) -> Option<()> {
    let mut at = 120usize;
    for _ in 0..count {
        shorten(octets, at.checked_add(40)?)?;
        let len = number_at(octets, at.checked_add(57)?, 2)? as usize;
        at = at.checked_add(59)?.checked_add(len)?;
    }
    Some(())
}

/// The parts of a column.
fn shorten_column(octets: &mut [u8], count: u64) -> Option<()> {
    let mut at = 120usize;
    for _ in 0..count {
        shorten(octets, at)?;
        at = at.checked_add(25)?;
    }
    Some(())
}

/// A node, or a page of zeros.
fn shorten_node(octets: &mut [u8]) -> Option<()> {
    *octets.get_mut(1)? = 0;
    shorten(octets, 88)?;
    shorten(octets, 104)?;
    let count = number_at(octets, 4, 2)?;
    match *octets.first()? {
        1 => shorten_leaf(octets, count),
        2 => shorten_column(octets, count),
        _ => Some(()),
    }
}

/// The head of two collectors.
fn shorten_head(octets: &mut [u8]) -> Option<()> {
    shorten(octets, 8)?;
    put(octets, 48, 0);
    for at in [80usize, 144] {
        shorten(octets, at)?;
        put(octets, at + 24, 0);
    }
    Some(())
}

/// The admissions in a ring, of which this number of octets are used from a place on.
fn shorten_ring(octets: &mut [u8], first: u64, used: u64) -> Option<()> {
    let mut at = first as usize;
    let end = at.checked_add(used as usize)?;
    for _ in 0..used {
        if at >= end {
            return Some(());
        }
        let len = number_at(octets, at, 4)? as usize;
        shorten(octets, at.checked_add(4)?)?;
        at = at.checked_add(4)?.checked_add(len)?;
    }
    Some(())
}

/// The octets of pages that follow one another.
fn pages_of(alloc: Global, disk: &mut MemErase, from: u64, count: u64) -> Option<Vec<u8>> {
    let mut all = Vec::new(alloc);
    for k in 0..count {
        let octets = octets_of(alloc, disk, from.checked_add(k)?)?;
        all.extend_from_slice(&octets).ok()?;
    }
    Some(all)
}

/// Lays octets over pages that follow one another.
fn lay_pages(disk: &mut MemErase, from: u64, octets: &[u8]) -> Option<()> {
    let mut page = from;
    for chunk in octets.chunks(PAGE_LEN) {
        if !lay(disk, page.checked_mul(PAGE_LEN as u64)?, chunk) {
            return None;
        }
        page = page.checked_add(1)?;
    }
    Some(())
}

/// Puts the ring of a collector, of which the head has the place at an octet, into whole seconds.
fn lay_ring(alloc: Global, disk: &mut MemErase, from: u64, head: &[u8], at: usize) -> Option<()> {
    let first = number_at(head, at, 8)?;
    let used = number_at(head, at.checked_add(8)?, 8)?;
    let mut octets = pages_of(alloc, disk, from, RING)?;
    shorten_ring(&mut octets, first, used)?;
    lay_pages(disk, from, &octets)
}

/// Puts the head, both rings and the tree into whole seconds, and closes all slots of the journal.
fn lay_older(alloc: Global, disk: &mut MemErase) -> Option<()> {
    let mut head = octets_of(alloc, disk, HEAD)?;
    lay_ring(alloc, disk, HEAD + 1, &head, 88)?;
    lay_ring(alloc, disk, HEAD + 1 + RING, &head, 152)?;
    shorten_head(&mut head)?;
    lay_pages(disk, HEAD, &head)?;
    for page in TREE..PAGES {
        let mut node = octets_of(alloc, disk, page)?;
        shorten_node(&mut node)?;
        lay_pages(disk, page, &node)?;
    }
    for slot in 0..8u64 {
        if !lay(disk, (1 + 33 * slot) * PAGE_LEN as u64, &[0]) {
            return None;
        }
    }
    disk.sync().ok()
}

/// Burns a block that is blank.
pub fn burn(disk: &MemOnce, pen: &mut MemPen, number: u64, block: &Block) -> Option<()> {
    if number >= disk.blocks() || disk.blank(pen, number) != Ok(true) {
        return None;
    }
    disk.burn(pen, number, block).ok()
}

/// Burns a block in whole seconds.
fn burn_older(alloc: Global, disk: &MemOnce, pen: &mut MemPen, was: &Burn) -> Option<()> {
    let mut octets = Vec::new(alloc);
    octets.extend_from_slice(was.block().octets()).ok()?;
    shorten_node(&mut octets)?;
    let mut block = Block::from_slice(alloc, &octets).ok()?;
    seal(&mut block);
    burn(disk, pen, was.number(), &block)
}

/// The disks in whole seconds.
pub fn in_whole_seconds(alloc: Global, disks: &Both) -> Option<Both> {
    let mut erase = disks.erase.copy().ok()?;
    lay_older(alloc, &mut erase)?;
    let (once, mut pen) = MemOnce::new(alloc, disks.once.blocks());
    for was in disks.pen.settled() {
        burn_older(alloc, &once, &mut pen, was)?;
    }
    once.settle(&mut pen).ok()?;
    let once = Arc::new(alloc, once).ok()?;
    Some(Both { erase, once, pen })
}
