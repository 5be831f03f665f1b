//! Posts, pages that are brought home, and checkpoints.

use super::pool::numbered;
use super::{
    KINDS, NEW, OLD, PAGE, checkpoint, filled, home, made, made_journal, opened, post, post_one,
    scripted, shown, shows, shows_after_crash,
};
use crate::{be, be_at};
use disk_memory::{Failure, MemErase};
use disk_models::EraseDisk;
use page_journal::{Journal, JournalError, PostError};
use std::alloc::Global;

#[test]
fn four_pages_are_created_and_read(rt: HostRuntime) {
    let alloc = rt.alloc();
    let mut journal = made_journal(alloc).expect(&rt, "a journal");
    let is_noted = journal.home_pages() == 4 && journal.note() == *b"eleven here";
    be(&rt, is_noted, "pages and a note");
    be(
        &rt,
        journal.unhomed() == 0 && journal.closed() == 8,
        "nothing waits",
    );
    be(&rt, shows(alloc, &mut journal, OLD), "the pages");
}

/// Posts page 1, for the n-th time. Whether one slot less is closed then, and the page is shown.
fn is_posted(alloc: Global, journal: &mut Journal<MemErase>, n: u8) -> bool {
    let octet = n.saturating_add(30);
    post_one(alloc, journal, 1, octet) == Ok(())
        && journal.closed().checked_add(usize::from(n)) == Some(7)
        && journal.unhomed() == 1
        && shows(alloc, journal, [10, octet, 12, 13])
}

#[test]
fn the_ninth_post_waits_for_a_checkpoint(rt: HostRuntime) {
    let alloc = rt.alloc();
    let mut journal = made_journal(alloc).expect(&rt, "a journal");
    for n in 0..8u8 {
        be_at(
            &rt,
            is_posted(alloc, &mut journal, n),
            "a post",
            u64::from(n),
        );
    }
    let ninth = post_one(alloc, &mut journal, 2, 40);
    be(
        &rt,
        journal.closed() == 0 && ninth == Err(JournalError::JournalFull),
        "the ninth",
    );
    be(
        &rt,
        shows(alloc, &mut journal, [10, 37, 12, 13]),
        "the eighth is shown",
    );
    let is_home = home(alloc, &mut journal, 1, 37) == Ok(());
    be(
        &rt,
        is_home && checkpoint(&mut journal) == Ok(()),
        "a checkpoint",
    );
    be(&rt, journal.closed() == 8, "all slots are closed");
    be(
        &rt,
        post_one(alloc, &mut journal, 2, 40) == Ok(()),
        "the ninth again",
    );
    be(
        &rt,
        shows(alloc, &mut journal, [10, 37, 40, 13]),
        "the ninth is shown",
    );
}

/// Posts page 1, page 2, and page 1 again, and brings page 1 home with this octet. Whether the newest is shown after each crash.
fn is_newest_shown(alloc: Global, octet: u8) -> Option<bool> {
    let mut journal = made_journal(alloc)?;
    post_one(alloc, &mut journal, 1, 31).ok()?;
    post_one(alloc, &mut journal, 2, 41).ok()?;
    post_one(alloc, &mut journal, 1, 32).ok()?;
    let is_shown = journal.unhomed() == 2 && shows(alloc, &mut journal, [10, 32, 41, 13]);
    home(alloc, &mut journal, 1, octet).ok()?;
    let is_shown = is_shown && journal.unhomed() == 1;
    Some(is_shown && is_left(alloc, &journal.into_disk()))
}

/// Whether the newest images are shown after each crash.
fn is_left(alloc: Global, disk: &MemErase) -> bool {
    for kind in 0..KINDS {
        if shows_after_crash(alloc, disk, kind, [10, 32, 41, 13]) != Some(true) {
            return false;
        }
    }
    true
}

#[test]
fn the_newest_image_of_a_page_stays(rt: HostRuntime) {
    for octet in 31..34u8 {
        let is_shown = is_newest_shown(rt.alloc(), octet) == Some(true);
        be_at(&rt, is_shown, "the newest image", u64::from(octet));
    }
}

#[test]
fn a_post_of_32_pages_is_refused(rt: HostRuntime) {
    let alloc = rt.alloc();
    let disk = MemErase::new(alloc, 297 * PAGE);
    let mut journal = Journal::create(alloc, disk, 32)
        .ok()
        .expect(&rt, "a journal");
    let images = numbered(alloc, journal.home_pages(), 32, 9).expect(&rt, "images");
    be(&rt, images.len() == 32, "images of 32 pages");
    let refused = journal.post(&images);
    be(&rt, refused == Err(PostError::TooManyImages), "a refusal");
    be(
        &rt,
        journal.closed() == 8 && journal.unhomed() == 0,
        "no slot is open",
    );
    be(&rt, shows(alloc, &mut journal, [0; 4]), "no page changed");
}

/// A journal after a post, opened again on a disk of which the read with the number 40 fails.
fn failing(alloc: Global) -> Option<Journal<MemErase>> {
    let mut journal = made_journal(alloc)?;
    post(alloc, &mut journal, 21, 22).ok()?;
    opened(
        alloc,
        scripted(alloc, journal.into_disk(), Failure::Read(40))?,
    )
    .ok()
}

#[test]
fn a_read_that_fails_keeps_all(rt: HostRuntime) {
    let mut journal = failing(rt.alloc()).expect(&rt, "a journal");
    let mut faults = 0u32;
    for _ in 0..10 {
        let shown = shown(rt.alloc(), &mut journal);
        be(
            &rt,
            shown == Ok(NEW) || shown == Err(JournalError::Fault),
            "the pages or a fault",
        );
        faults = faults.saturating_add(u32::from(shown.is_err()));
    }
    be(&rt, faults == 1, "one fault");
}

/// Writes an open slot with one image, of page 1, under this number. None where a write failed.
fn write_slot(alloc: Global, disk: &mut MemErase, slot: u64, number: u8, octet: u8) -> Option<()> {
    if disk.size() != 269 * PAGE || slot >= 8 {
        return None;
    }
    let header = [0, 0, 0, 0, 0, 0, 0, number, 1, 0, 0, 0, 0, 0, 0, 0, 1];
    let image = filled(alloc, octet).ok()?;
    disk.write_at(PAGE * (2 + 33 * slot), &header).ok()?;
    disk.write_at(PAGE * (3 + 33 * slot), image.octets()).ok()?;
    disk.write_at(PAGE * (1 + 33 * slot), &[0xa5]).ok()
}

/// A disk with two open slots of these numbers: the first has 31 for page 1, the second 32.
fn with_two_slots(alloc: Global, first: u8, second: u8) -> Option<MemErase> {
    let mut disk = made(alloc)?;
    write_slot(alloc, &mut disk, 0, first, 31)?;
    write_slot(alloc, &mut disk, 5, second, 32)?;
    Some(disk)
}

/// Whether page 1 has this octet where two open slots have these numbers.
fn is_laid_last(alloc: Global, first: u8, second: u8, octet: u8) -> Option<bool> {
    let mut journal = opened(alloc, with_two_slots(alloc, first, second)?).ok()?;
    Some(shows(alloc, &mut journal, [10, octet, 12, 13]))
}

#[test]
fn open_slots_are_laid_by_their_numbers(rt: HostRuntime) {
    let alloc = rt.alloc();
    be(
        &rt,
        is_laid_last(alloc, 1, 2, 32) == Some(true),
        "the second is later",
    );
    be(
        &rt,
        is_laid_last(alloc, 2, 1, 31) == Some(true),
        "the first is later",
    );
    let disk = with_two_slots(alloc, 7, 7).expect(&rt, "a disk");
    let refused = opened(alloc, disk).err();
    be(
        &rt,
        refused == Some(JournalError::BadNode(167)),
        "two of one number",
    );
}
