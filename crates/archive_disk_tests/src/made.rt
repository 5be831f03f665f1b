//! Archives on two disks in memory, and admissions that are given to them.

use archive_pages::Settings;
use disk_archive::{Archive, CreateError, Flush, Step};
use disk_calls::DiskArchive;
use disk_memory::{Failure, MemErase, MemOnce, OnceFailure};
use disk_models::EraseDisk;
use interleaving_core::Resume;
use route_model::{Address, Admission, Change, Mark, Moment, Peer, Prefix, Route, SharedRoute};
use std::alloc::Global;
use std::sync::Arc;

// The octets of a page.
pub(crate) const PAGE: u64 = 16_384;

// The blocks of a write-once disk.
const BLOCKS: u64 = 5;

/// At 1704067200 peer 192.0.2.1 of AS 65001 announces 10.0.0.0/8: 67 octets.
const VECTOR: [u8; 67] = [
    0, 6, 0x0D, 0xD7, 0x10, 0x21, 0x20, 0, 0, 1, 0, 4, 0xC0, 0, 2, 1, 0, 0, 0, 0, 0, 0, 0, 0, 0, 0,
    0, 0, 0, 0, 0xFD, 0xE9, 0, 1, 0, 0x15, 0, 0, 1, 2, 2, 0, 0, 0xFD, 0xE9, 0, 0, 0xFD, 0xEA, 4,
    0xC0, 0, 2, 1, 0, 0, 0, 0, 1, 1, 0, 0, 4, 8, 0x0A, 0, 0,
];

/// Disks below an archive: how many home pages and blocks, and the calls that fail.
#[derive(Drop)]
pub(crate) struct Disks {
    pub(crate) blocks: u64,
    pub(crate) homes: u64,
    pub(crate) erase: Vec<Failure>,
    pub(crate) once: Vec<OnceFailure>,
}

pub(crate) fn disks_of(alloc: Global, homes: u64) -> Disks {
    Disks {
        blocks: BLOCKS,
        homes,
        erase: Vec::new(alloc),
        once: Vec::new(alloc),
    }
}

pub(crate) type Made = Archive<MemErase, MemOnce>;

/// It as feeds and questions use it.
pub(crate) type MemArchive = DiskArchive<MemErase, MemOnce>;

/// What creating an archive on these disks returns. None where there can't be such disks, or no memory.
pub(crate) fn made_on(
    alloc: Global,
    disks: Disks,
    settings: Settings,
) -> Option<Result<Made, CreateError>> {
    if !settings.is_within() || disks.homes > 65_536 {
        return None;
    }
    let mut erase = MemErase::new(alloc, (265 + disks.homes) * PAGE);
    erase.set_script(disks.erase);
    let (once, mut pen) = MemOnce::new(alloc, disks.blocks);
    pen.set_script(disks.once);
    let once = Arc::new(alloc, once).ok()?;
    Some(match Archive::create(alloc, erase, once, pen, settings) {
        Ok(archive) => Ok(archive),
        Err(refused) => Err(refused.error),
    })
}

/// An archive of these settings, with 20 home pages for its tree.
pub(crate) fn made(alloc: Global, settings: Settings) -> Option<Made> {
    let low = u64::from(settings.collectors) * u64::from(settings.ring) + 1;
    made_on(alloc, disks_of(alloc, low + 20), settings)?.ok()
}

/// The octets of a page of an erasable disk.
pub(crate) fn octets_of(alloc: Global, disk: &mut MemErase, page: u64) -> Option<Vec<u8>> {
    if page > 65_536 || disk.size() < (page + 1) * PAGE {
        return None;
    }
    let Ok(mut octets) = vec![in alloc; 0u8; 16_384] else {
        return None;
    };
    disk.read(page * PAGE, &mut octets).ok()?;
    Some(octets)
}

pub(crate) fn mark_at(seconds: u32) -> Mark {
    Mark::at(Moment::from(seconds))
}

/// Adds an admission without changes.
fn add_empty(alloc: Global, batch: &mut Vec<Admission>, seconds: u32) -> Option<()> {
    let admission = Admission::new(Moment::from(seconds), Vec::new(alloc)).ok()?;
    batch.push(admission).ok()
}

/// Admissions without changes, at these times.
pub(crate) fn empty_at(alloc: Global, times: &[u32]) -> Option<Vec<Admission>> {
    let mut batch = Vec::new(alloc);
    for &seconds in times {
        add_empty(alloc, &mut batch, seconds)?;
    }
    Some(batch)
}

/// `count` admissions without changes, at a time.
pub(crate) fn empties(alloc: Global, count: u32, seconds: u32) -> Option<Vec<Admission>> {
    let mut batch = Vec::new(alloc);
    for _ in 0..count {
        add_empty(alloc, &mut batch, seconds)?;
    }
    Some(batch)
}

/// An admission of these changes.
pub(crate) fn admission_of(seconds: u32, changes: Vec<Change>) -> Option<Admission> {
    Admission::new(Moment::from(seconds), changes).ok()
}

/// A list of one.
pub(crate) fn one<T: Drop>(alloc: Global, it: T) -> Option<Vec<T>> {
    let mut list = Vec::new(alloc);
    list.push(it).ok()?;
    Some(list)
}

/// An admission of two changes at the moment 7.
pub(crate) fn two_changes(alloc: Global) -> Option<Vec<Admission>> {
    let mut changes = one(alloc, Change::Withdraw(peer_of(0), ten()))?;
    changes.push(Change::Down(peer_of(0))).ok()?;
    one(alloc, admission_of(7, changes)?)
}

/// A route of 2,925 octets by 65001 and 65002, 65003 or so on.
pub(crate) fn large_route(alloc: Global, number: u8) -> Option<SharedRoute> {
    let mut octets = VECTOR[36..55].to_vec(alloc).ok()?;
    octets[12] = 0xEA + number.min(15);
    // An attribute of type 99, with 2,900 octets.
    octets
        .extend_from_slice(&[0, 1, 99, 0xC0, 0x0B, 0x54])
        .ok()?;
    octets.resize(2_925, 0).ok()?;
    let route = Route::decode(alloc, &octets).ok()??;
    SharedRoute::new(alloc, route).ok()
}

/// The peer 192.0.2.1 of AS 65001, of a collector.
pub(crate) fn peer_of(collector: u8) -> Peer {
    Peer {
        collector,
        address: Address::V4([192, 0, 2, 1]),
        as_number: 65001,
    }
}

fn ten() -> Prefix {
    Prefix::containing(Address::V4([10, 0, 0, 0]), 8)
}

fn large_one(alloc: Global, number: u8) -> Option<Admission> {
    let change = Change::Announce(peer_of(0), ten(), large_route(alloc, number)?);
    admission_of(1_704_067_200 + u32::from(number), one(alloc, change)?)
}

/// `count` admissions, a second after another from 1704067200 on, of which each announces 10.0.0.0/8 by a route of 2,925 octets.
pub(crate) fn large(alloc: Global, count: u8) -> Option<Vec<Admission>> {
    let mut batch = Vec::new(alloc);
    for number in 0..count {
        batch.push(large_one(alloc, number)?).ok()?;
    }
    Some(batch)
}

/// `count` admissions of 67 octets, of the moment 1704067200 or the given number of seconds after it.
pub(crate) fn vectors(alloc: Global, count: usize, beyond: u8) -> Option<Vec<Admission>> {
    let time = Moment::from(1_704_067_200 + u32::from(beyond));
    let one = Admission::decode(alloc, &VECTOR).ok()??.at(time);
    let mut batch = Vec::new(alloc);
    for _ in 0..count {
        batch.push(one.share(alloc).ok()?).ok()?;
    }
    Some(batch)
}

// Calls of an archive, of which nothing more is known than what they answer.

/// Gives a batch of a collector. None where it isn't taken.
pub(crate) fn give(archive: &mut Made, collector: u8, batch: &[Admission]) -> Option<()> {
    archive.admit(collector, batch).ok()?;
    Some(())
}

/// Sets the mark of collector 0.
pub(crate) fn set_mark(archive: &mut Made, seconds: u32) -> Option<()> {
    archive.mark(0, mark_at(seconds)).ok()
}

/// A step of applying: whether it applied something.
pub(crate) fn apply(archive: &mut Made) -> Option<bool> {
    Some(archive.apply_step().ok()? == Step::Applied)
}

/// How many steps apply something until nothing may be applied.
pub(crate) fn apply_all(archive: &mut Made) -> Option<u32> {
    for count in 0..1_000 {
        if !apply(archive)? {
            return Some(count);
        }
    }
    None
}

/// How many pages are written home until none is left.
pub(crate) fn flush_all(archive: &mut Made) -> Option<u32> {
    for count in 0..1_000 {
        if archive.flush_step().ok()? == Flush::Clean {
            return Some(count);
        }
    }
    None
}

/// Where a collector goes on, if there is one of this number.
pub(crate) fn resume_of(archive: &Made, collector: u8) -> Option<Resume> {
    if collector >= archive.collectors() {
        return None;
    }
    Some(archive.resume(collector))
}
