//! Rings, admissions, and calls of a ring whose map is asked first.
mod damaged;
mod failing;
mod fitting;
mod kept;
mod lengths;
mod queued;

use buffer_pool::Pool;
use disk_memory::{Failure, MemErase};
use disk_models::Page;
use intake::{Encoded, IntakeError, ReadError, Ring};
use page_journal::Journal;
use page_tx::{PageError, Pages, Tx};
use route_model::{Admission, Change, Moment, Peer, Prefix};
use std::alloc::Global;
use std::num::NonZeroUsize;

const PAGE: u64 = 16_384;

/// The home pages: page 0 and the last one belong to no ring.
const HOMES: u64 = 11;

/// An admission of one announcement, by hand: its encoding has 67 octets, and its time is 1704067200.
pub(crate) const ONE: [u8; 67] = [
    0, 6, 0x0d, 0xd7, 0x10, 0x21, 0x20, 0, 0, 1, 0, 4, 192, 0, 2, 1, 0, 0, 0, 0, 0, 0, 0, 0, 0, 0,
    0, 0, 0, 0, 0xfd, 0xe9, 0, 1, 0, 21, 0, 0, 1, 2, 2, 0, 0, 0xfd, 0xe9, 0, 0, 0xfd, 0xea, 4, 192,
    0, 2, 1, 0, 0, 0, 0, 1, 1, 0, 0, 4, 8, 10, 0, 0,
];

/// The shortest admission, without a change, at second 7.
pub(crate) const SHORTEST: [u8; 14] = [0, 0, 0, 0, 0, 0x6a, 0xcf, 0xc0, 0, 0, 0, 0, 0, 0];

/// The peer of the first.
const PEER: [u8; 22] = [
    0, 4, 192, 0, 2, 1, 0, 0, 0, 0, 0, 0, 0, 0, 0, 0, 0, 0, 0, 0, 0xfd, 0xe9,
];

fn one(alloc: Global) -> Option<Admission> {
    Admission::decode(alloc, &ONE).ok()?
}

/// `count` times the same admission.
fn many(alloc: Global, count: usize) -> Option<Vec<Admission>> {
    let admission = one(alloc)?;
    let mut batch = Vec::new(alloc);
    for _ in 0..count {
        batch.push(admission.share(alloc).ok()?).ok()?;
    }
    Some(batch)
}

/// An admission of `count` ends of a session, at most 43,678: its encoding has 36 octets and 3 for each, and 14 without
/// one.
fn ends(alloc: Global, seconds: u32, count: usize) -> Option<Admission> {
    let peer = Peer::decode(&PEER)?;
    let mut changes = Vec::new(alloc);
    for _ in 0..count {
        changes.push(Change::Down(peer)).ok()?;
    }
    Admission::new(Moment::from(seconds), changes).ok()
}

/// An admission as large as one may be: 43,677 ends of a session and a withdrawn prefix of no bits, whose encoding has
/// 36 + 3 * 43,677 + 5 = 131,072 octets.
fn largest(alloc: Global, seconds: u32) -> Option<Admission> {
    let peer = Peer::decode(&PEER)?;
    let prefix = Prefix::decode(&[4, 0])?;
    let mut changes = Vec::new(alloc);
    for _ in 0..43_677usize {
        changes.push(Change::Down(peer)).ok()?;
    }
    changes.push(Change::Withdraw(peer, prefix)).ok()?;
    Admission::new(Moment::from(seconds), changes).ok()
}

fn filled(alloc: Global, octet: u8) -> Option<Page> {
    let mut page = Page::new(alloc).ok()?;
    page.octets_mut().fill(octet);
    Some(page)
}

/// Sets a page to the octet 90.
fn fill(alloc: Global, tx: &mut Tx<MemErase>, n: u64) -> Option<()> {
    let page = filled(alloc, 90)?;
    if n >= tx.pool().home_pages() {
        return None;
    }
    tx.set(n, page).ok()
}

/// A page as it is shown.
fn copy_of(alloc: Global, tx: &mut Tx<MemErase>, n: u64) -> Option<Page> {
    if n >= tx.pool().home_pages() {
        return None;
    }
    tx.fetch(n).ok()?;
    let shown = tx.page(n)?;
    let mut page = Page::new(alloc).ok()?;
    page.copy_from(shown);
    Some(page)
}

/// A transaction over `homes` home pages. These calls of its disk fail.
pub(crate) fn empty(alloc: Global, homes: u64, failures: Vec<Failure>) -> Option<Tx<MemErase>> {
    if homes > 65_536 {
        return None;
    }
    let mut disk = MemErase::new(alloc, (265 + homes) * PAGE);
    disk.set_script(failures);
    let journal = Journal::create(alloc, disk, homes).ok()?;
    let pool = Pool::new(alloc, journal, NonZeroUsize::new(4)?).ok()?;
    if homes > pool.home_pages() {
        return None;
    }
    Some(Tx::new(alloc, pool, homes))
}

/// Commits what was set, and brings it home.
fn settle(tx: &mut Tx<MemErase>) -> Option<()> {
    tx.commit().ok()?;
    tx.checkpoint().ok()
}

/// Fills `homes` home pages with the octet 90.
pub(crate) fn fill_all(alloc: Global, tx: &mut Tx<MemErase>, homes: u64) -> Option<()> {
    for n in 0..homes {
        fill(alloc, tx, n)?;
        if n % 16 == 15 {
            tx.commit().ok()?;
        }
    }
    settle(tx)
}

/// A transaction over `homes` home pages that are filled with the octet 90. These calls of its disk fail.
fn filled_on(alloc: Global, homes: u64, failures: Vec<Failure>) -> Option<Tx<MemErase>> {
    let mut tx = empty(alloc, homes, failures)?;
    fill_all(alloc, &mut tx, homes)?;
    Some(tx)
}

/// A transaction over the home pages.
fn begun(alloc: Global) -> Option<Tx<MemErase>> {
    filled_on(alloc, HOMES, Vec::new(alloc))
}

/// A transaction over `homes` home pages.
fn begun_with(alloc: Global, homes: u64) -> Option<Tx<MemErase>> {
    filled_on(alloc, homes, Vec::new(alloc))
}

/// A transaction over the home pages, on a disk of which the read with this number fails, counted after the creation's one.
fn begun_failing(alloc: Global, number: u64) -> Option<Tx<MemErase>> {
    let failure = Failure::Read(number.saturating_add(1));
    filled_on(alloc, HOMES, vec![in alloc; failure].ok()?)
}

/// Whether a page is as it was at the start.
fn is_untouched(tx: &mut Tx<MemErase>, n: u64) -> bool {
    if n >= tx.pool().home_pages() || tx.fetch(n).is_err() {
        return false;
    }
    match tx.page(n) {
        Some(page) => page.octets().iter().all(|octet| *octet == 90),
        None => false,
    }
}

/// Whether the pages before one and from another on are as they were at the start.
fn is_rest_untouched(tx: &mut Tx<MemErase>, low: u64, high: u64) -> bool {
    for n in 0..tx.pool().home_pages() {
        if (n < low || high <= n) && !is_untouched(tx, n) {
            return false;
        }
    }
    true
}

/// The octets of `count` pages, from `low` on.
fn octets_of(alloc: Global, tx: &mut Tx<MemErase>, low: u64, count: u64) -> Option<Vec<u8>> {
    let mut octets = Vec::new(alloc);
    for n in low..low.saturating_add(count) {
        let page = copy_of(alloc, tx, n)?;
        octets.extend_from_slice(page.octets()).ok()?;
    }
    Some(octets)
}

fn append(
    alloc: Global,
    tx: &mut Tx<MemErase>,
    ring: &mut Ring,
    batch: &[Admission],
) -> Result<(), IntakeError> {
    if !ring.is_within(tx.pool().home_pages()) {
        return Err(IntakeError::Pages(PageError::PagesFull));
    }
    ring.append(alloc, tx, batch)
}

/// The first admission, where this one is kept of a read before.
fn front_again(
    alloc: Global,
    tx: &mut Tx<MemErase>,
    ring: &Ring,
    kept: Option<Encoded>,
) -> Result<Option<Encoded>, ReadError> {
    if !ring.is_within(tx.pool().home_pages()) {
        return Err(ReadError::Pages(PageError::PagesFull));
    }
    ring.front(alloc, tx, kept)
}

fn front(alloc: Global, tx: &mut Tx<MemErase>, ring: &Ring) -> Result<Option<Encoded>, ReadError> {
    front_again(alloc, tx, ring, None)
}

/// The times of what waits.
fn waiting_times(
    alloc: Global,
    tx: &mut Tx<MemErase>,
    ring: &Ring,
) -> Result<Vec<Moment>, ReadError> {
    if !ring.is_within(tx.pool().home_pages()) {
        return Err(ReadError::Pages(PageError::PagesFull));
    }
    ring.waiting_times(alloc, tx)
}

/// Takes the first admission out, where that can be. Whether it was.
fn pop(tx: &Tx<MemErase>, ring: &mut Ring, admission: &Admission) -> bool {
    if !ring.is_within(tx.pool().home_pages()) || !ring.can_pop(admission) {
        return false;
    }
    ring.pop(admission);
    true
}

/// The free octets, none where it isn't a ring of the map.
fn free(tx: &Tx<MemErase>, ring: &Ring) -> Option<u64> {
    if ring.is_within(tx.pool().home_pages()) {
        Some(ring.free())
    } else {
        None
    }
}

/// Whether an admission has this encoding.
fn is_encoded(alloc: Global, admission: &Admission, expected: &[u8]) -> bool {
    match admission.encode(alloc) {
        Ok(octets) => octets.as_slice() == expected,
        Err(_) => false,
    }
}

/// Whether two admissions have one encoding.
fn is_same(alloc: Global, one: &Admission, other: &Admission) -> bool {
    match other.encode(alloc) {
        Ok(octets) => is_encoded(alloc, one, &octets),
        Err(_) => false,
    }
}
