//! Runs, openings and creations that are stopped at each call.

use super::{
    KINDS, OLD, PAGE, checkpoint, filled, home, made, made_journal, opened, post, post_one, rising,
    scripted, shows, shows_after_crash, torn,
};
use crate::{be, be_at};
use disk_memory::{Failure, MemErase, Torn};
use disk_models::EraseDisk;
use page_journal::{CreateError, Journal, JournalError, OpenError};
use std::alloc::Global;

/// The pages after each of three posts: of page 1, of pages 1 and 2, and of page 1 again.
const POSTED: [[u8; 4]; 4] = [OLD, [10, 31, 12, 13], [10, 32, 41, 13], [10, 33, 41, 13]];

/// Three posts. Counts those that were done.
fn post_all(
    alloc: Global,
    journal: &mut Journal<MemErase>,
    done: &mut usize,
) -> Result<(), JournalError> {
    post_one(alloc, journal, 1, 31)?;
    *done = 1;
    post(alloc, journal, 32, 41)?;
    *done = 2;
    post_one(alloc, journal, 1, 33)?;
    *done = 3;
    Ok(())
}

/// Three posts, their pages home, and a checkpoint.
fn run(
    alloc: Global,
    journal: &mut Journal<MemErase>,
    done: &mut usize,
) -> Result<(), JournalError> {
    post_all(alloc, journal, done)?;
    home(alloc, journal, 1, 33)?;
    home(alloc, journal, 2, 41)?;
    checkpoint(journal)
}

/// Whether these pages, or those after one post more, are left by each crash.
fn is_left(alloc: Global, disk: &MemErase, done: usize) -> bool {
    for kind in 0..KINDS {
        let mut states = POSTED.iter().skip(done).take(2);
        if !states.any(|pages| shows_after_crash(alloc, disk, kind, *pages) == Some(true)) {
            return false;
        }
    }
    true
}

/// The n-th of the failures of a run: 15 writes, and then 10 syncs after the two of the opening.
fn failure_of_a_run(alloc: Global, n: u64, kind: u8) -> Option<Failure> {
    Some(match n {
        0..=14 => Failure::Write(n, torn(alloc, kind).ok()?),
        _ => Failure::Sync(n.saturating_sub(13)),
    })
}

/// Whether a run is stopped by the n-th failure, asks then for recovery, and leaves each post whole.
fn stops_whole(alloc: Global, n: u64, kind: u8) -> Option<bool> {
    let disk = scripted(alloc, made(alloc)?, failure_of_a_run(alloc, n, kind)?)?;
    let mut journal = opened(alloc, disk).ok()?;
    let mut done = 0;
    let first = run(alloc, &mut journal, &mut done);
    let second = run(alloc, &mut journal, &mut 0);
    let is_stopped = first == Err(JournalError::Fault)
        && second == Err(JournalError::NeedsRecovery);
    Some(is_stopped && is_left(alloc, &journal.into_disk(), done))
}

#[test]
fn a_run_that_is_stopped_leaves_each_post_whole(rt: HostRuntime) {
    for n in 0..25u64 {
        for kind in 0..KINDS {
            be_at(
                &rt,
                stops_whole(rt.alloc(), n, kind) == Some(true),
                "a stop",
                n,
            );
        }
    }
}

/// The pages after seven posts, and after each of two more that close the oldest slot.
const TURNED: [[u8; 4]; 3] = [[27, 23, 22, 13], [27, 23, 22, 28], [27, 23, 29, 28]];

/// Posts one page, filled with an octet, and closes the oldest slot.
fn post_closing_one(
    alloc: Global,
    journal: &mut Journal<MemErase>,
    n: u64,
    octet: u8,
) -> Result<(), JournalError> {
    if n >= journal.home_pages() || !journal.gives_back() {
        return Err(JournalError::NotAJournal);
    }
    Ok(journal.post_closing(&[(n, filled(alloc, octet)?)])?)
}

/// The pages of seven posts, and their octets.
const SEVEN: [(u64, u8); 7] = [
    (1, 21),
    (2, 22),
    (1, 23),
    (0, 24),
    (0, 25),
    (0, 26),
    (0, 27),
];

/// Seven posts, and two more that close the oldest slot: the first slot has no page that isn't in a later one, page 2 of the second goes home.
/// Counts the last two where they were done.
fn turn(
    alloc: Global,
    journal: &mut Journal<MemErase>,
    done: &mut usize,
) -> Result<(), JournalError> {
    for (n, octet) in &SEVEN {
        post_one(alloc, journal, *n, *octet)?;
    }
    post_closing_one(alloc, journal, 3, 28)?;
    *done = 1;
    home(alloc, journal, 2, 22)?;
    post_closing_one(alloc, journal, 2, 29)?;
    *done = 2;
    Ok(())
}

/// Whether one of two states is left by each crash.
fn is_turned(alloc: Global, disk: &MemErase, done: usize) -> Option<bool> {
    for kind in 0..KINDS {
        let mut journal = opened(alloc, disk.crash_as(&torn(alloc, kind).ok()?).ok()?).ok()?;
        let mut states = TURNED.iter().skip(done).take(2);
        if !states.any(|pages| shows(alloc, &mut journal, *pages)) {
            return Some(false);
        }
    }
    Some(true)
}

/// The opening syncs twice, and each of seven posts makes three writes and two syncs.
const BEFORE_TURNS: u64 = 37;

/// Whether these posts, cut off at their k-th write or sync after the seventh, leave each post whole. With the number of posts that were done.
fn cut_turn(alloc: Global, k: u64) -> Option<(bool, usize)> {
    let mut disk = made(alloc)?;
    disk.stop_at(BEFORE_TURNS.saturating_add(k));
    let mut journal = opened(alloc, disk).ok()?;
    let mut done = 0;
    let _stopped = turn(alloc, &mut journal, &mut done);
    let is_whole = is_turned(alloc, &journal.into_disk(), done)?;
    Some((is_whole, done))
}

#[test]
fn a_post_that_closes_a_slot_is_whole_wherever_it_is_cut_off(rt: HostRuntime) {
    // Each makes four writes and two syncs, and one page goes home between them.
    for k in 1..=14u64 {
        let done = match k {
            1..=6 => 0,
            7..=13 => 1,
            _ => 2,
        };
        be_at(
            &rt,
            cut_turn(rt.alloc(), k) == Some((true, done)),
            "a cut",
            k,
        );
    }
}

/// The n-th of the failures of an opening with three open slots of four images. It reads the identity page, eight commit flags, and of
/// each slot its number, its count, its page numbers and its images.
fn failure_of_an_opening(alloc: Global, n: u64, kind: u8) -> Option<Failure> {
    Some(match n {
        0..=6 => Failure::Write(n, torn(alloc, kind).ok()?),
        7..=11 => Failure::Sync(n.saturating_sub(7)),
        _ => Failure::Read(n.saturating_sub(12)),
    })
}

/// The disk that is handed back by an opening of three posts that the n-th failure stops.
fn stopped_opening(alloc: Global, n: u64, kind: u8) -> Option<MemErase> {
    let mut journal = made_journal(alloc)?;
    post_all(alloc, &mut journal, &mut 0).ok()?;
    let failure = failure_of_an_opening(alloc, n, kind)?;
    let refused = Journal::open(alloc, scripted(alloc, journal.into_disk(), failure)?).err()?;
    if refused.error == OpenError::Fault {
        Some(refused.disk)
    } else {
        None
    }
}

#[test]
fn an_opening_that_is_stopped_loses_nothing(rt: HostRuntime) {
    for n in 0..35u64 {
        for kind in 0..KINDS {
            let disk = stopped_opening(rt.alloc(), n, kind).expect(&rt, "a stop");
            be_at(&rt, is_left(rt.alloc(), &disk, 3), "a stop", n);
        }
    }
}

/// The n-th failure of a creation: it reads the first octet, writes eight commit flags and the identity page in two pieces, and syncs
/// three times.
fn failure_of_a_creation(n: u64) -> Failure {
    match n {
        0..=9 => Failure::Write(n, Torn::Half),
        10..=12 => Failure::Sync(n.saturating_sub(10)),
        _ => Failure::Read(0),
    }
}

/// A disk that is handed back by a creation that the n-th failure stops.
fn stopped_creation(alloc: Global, n: u64) -> Option<MemErase> {
    let disk = MemErase::new(alloc, 269 * PAGE);
    let disk = scripted(alloc, disk, failure_of_a_creation(n))?;
    let refused = Journal::create(alloc, disk, 4).err()?;
    if refused.error == CreateError::Fault {
        Some(refused.disk)
    } else {
        None
    }
}

/// Whether a disk that a creation handed back after one fault takes a journal of zeros.
fn is_created_again(alloc: Global, disk: MemErase) -> Option<bool> {
    let faults = disk.faults();
    let mut journal = Journal::create(alloc, disk, 4).ok()?;
    Some(faults == 1 && journal.note() == [0; 11] && shows(alloc, &mut journal, [0; 4]))
}

#[test]
fn a_creation_that_is_stopped_hands_the_disk_back(rt: HostRuntime) {
    for n in 0..14u64 {
        let disk = stopped_creation(rt.alloc(), n).expect(&rt, "a stop");
        be_at(
            &rt,
            is_created_again(rt.alloc(), disk) == Some(true),
            "a stop",
            n,
        );
    }
}

/// How many writes and syncs a creation has on a disk that holds a journal, with four pages.
const CALLS_OF_A_CREATION: u64 = 19;

/// The disk after a creation with new pages, on one that holds a journal, that is cut off at its k-th write or sync.
fn cut_creation(alloc: Global, k: u64) -> Option<MemErase> {
    let mut disk = made(alloc)?;
    disk.stop_at(k);
    let first = rising(alloc, 4, 20).ok()?;
    match Journal::create_with(alloc, disk, 4, [0; 11], &first) {
        Ok(_) => None,
        Err(refused) => Some(refused.disk),
    }
}

/// Whether a crash leaves the old journal, none, or the new one.
fn is_old_none_or_new(alloc: Global, disk: &MemErase, kind: u8) -> Option<bool> {
    let left = disk.crash_as(&torn(alloc, kind).ok()?).ok()?;
    Some(match opened(alloc, left) {
        Ok(mut journal) => {
            let expected = if journal.note() == [0; 11] {
                [20, 21, 22, 23]
            } else {
                OLD
            };
            shows(alloc, &mut journal, expected)
        }
        Err(error) => error == JournalError::NotAJournal,
    })
}

#[test]
fn a_creation_that_is_cut_off_leaves_the_old_journal_none_or_the_new_one(rt: HostRuntime) {
    for k in 1..=CALLS_OF_A_CREATION {
        let disk = cut_creation(rt.alloc(), k).expect(&rt, "a cut");
        for kind in 0..KINDS {
            let is_whole = is_old_none_or_new(rt.alloc(), &disk, kind) == Some(true);
            be_at(&rt, is_whole, "a crash", k);
        }
    }
    be(
        &rt,
        cut_creation(rt.alloc(), CALLS_OF_A_CREATION + 1).is_none(),
        "its calls",
    );
}
