//! The journal, its pool and transactions over a disk in memory that fails, tears and crashes.

mod calls;
mod pool;
mod posts;
mod refused;
mod stopped;
mod transactions;

use self::pool::rising;
use disk_memory::{Failure, MemErase, Torn};
use disk_models::Page;
use page_journal::{Journal, JournalError};
use std::alloc::{AllocError, Global};

const PAGE: u64 = 16_384;

const OLD: [u8; 4] = [10, 11, 12, 13];

const NEW: [u8; 4] = [10, 21, 22, 13];

fn filled(alloc: Global, octet: u8) -> Result<Page, AllocError> {
    let mut page = Page::new(alloc)?;
    page.octets_mut().fill(octet);
    Ok(page)
}

/// How many kinds of torn ranges are tried.
const KINDS: u8 = 4;

/// What a torn range holds: the last kind is octets that nobody wrote, first of all the commit flag of an open slot.
fn torn(alloc: Global, kind: u8) -> Result<Torn, AllocError> {
    Ok(match kind {
        0 => Torn::Old,
        1 => Torn::New,
        2 => Torn::Half,
        _ => Torn::Octets(Vec::from_slice(alloc, &[0xa5, 1, 2, 3, 4, 5, 6, 7, 8, 9])?),
    })
}

/// `count` ranges torn alike.
fn all_torn(alloc: Global, kind: u8, count: u64) -> Result<Vec<Torn>, AllocError> {
    let mut choice = Vec::new(alloc);
    for _ in 0..count {
        choice.push(torn(alloc, kind)?)?;
    }
    Ok(choice)
}

fn opened(alloc: Global, disk: MemErase) -> Result<Journal<MemErase>, JournalError> {
    match Journal::open(alloc, disk) {
        Ok(journal) => Ok(journal),
        Err(refused) => Err(refused.error.into()),
    }
}

/// A disk with four home pages, filled with the octets from 10 to 13.
fn made(alloc: Global) -> Option<MemErase> {
    let first = rising(alloc, 4, 10).ok()?;
    let disk = MemErase::new(alloc, 269 * PAGE);
    let journal = Journal::create_with(alloc, disk, 4, *b"eleven here", &first).ok()?;
    Some(journal.into_disk())
}

/// The journal of such a disk.
fn made_journal(alloc: Global) -> Option<Journal<MemErase>> {
    opened(alloc, made(alloc)?).ok()
}

/// What is returned for a page that isn't read. No page is filled with it.
const UNREAD: u8 = 255;

/// The first octet of each page, where the last one is the same.
fn shown(alloc: Global, journal: &mut Journal<MemErase>) -> Result<[u8; 4], JournalError> {
    let mut page = Page::new(alloc)?;
    let mut all = [UNREAD; 4];
    for (n, octet) in all.iter_mut().enumerate() {
        if (n as u64) < journal.home_pages() {
            journal.read(n as u64, &mut page)?;
            if page.octets()[0] == page.octets()[16_383] {
                *octet = page.octets()[0];
            }
        }
    }
    Ok(all)
}

/// Whether these are the octets of the pages.
fn shows(alloc: Global, journal: &mut Journal<MemErase>, expected: [u8; 4]) -> bool {
    shown(alloc, journal) == Ok(expected)
}

/// Posts new pages 1 and 2.
fn post(
    alloc: Global,
    journal: &mut Journal<MemErase>,
    one: u8,
    two: u8,
) -> Result<(), JournalError> {
    if journal.home_pages() != 4 {
        return Err(JournalError::NotAJournal);
    }
    let images = [(1, filled(alloc, one)?), (2, filled(alloc, two)?)];
    Ok(journal.post(&images)?)
}

fn home(
    alloc: Global,
    journal: &mut Journal<MemErase>,
    n: u64,
    octet: u8,
) -> Result<(), JournalError> {
    if n >= journal.home_pages() {
        return Err(JournalError::NotAJournal);
    }
    Ok(journal.home(n, &filled(alloc, octet)?)?)
}

fn checkpoint(journal: &mut Journal<MemErase>) -> Result<(), JournalError> {
    if journal.unhomed() != 0 {
        return Err(JournalError::NotAJournal);
    }
    Ok(journal.checkpoint()?)
}

/// A disk of which this call fails.
fn scripted(alloc: Global, mut disk: MemErase, failure: Failure) -> Option<MemErase> {
    disk.set_script(vec![in alloc; failure].ok()?);
    Some(disk)
}

/// Posts one page, filled with an octet.
fn post_one(
    alloc: Global,
    journal: &mut Journal<MemErase>,
    n: u64,
    octet: u8,
) -> Result<(), JournalError> {
    if n >= journal.home_pages() {
        return Err(JournalError::NotAJournal);
    }
    Ok(journal.post(&[(n, filled(alloc, octet)?)])?)
}

/// Whether these pages are shown after a crash that tears all unsynced ranges alike.
fn shows_after_crash(alloc: Global, disk: &MemErase, kind: u8, expected: [u8; 4]) -> Option<bool> {
    let left = disk.crash(&all_torn(alloc, kind, 4).ok()?).ok()?;
    let mut journal = opened(alloc, left).ok()?;
    Some(shows(alloc, &mut journal, expected))
}
