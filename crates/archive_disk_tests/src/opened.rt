//! Disks are opened as an archive: as they were given up, after a crash, and where they name none.

use crate::be;
use crate::disks::{
    Both, IN_TURN, KINDS, Unopened, failed_write, given_up, open, opened, reopened,
};
use crate::given::{give_second, has_records, leaves, one_given, two_given};
use crate::made::{PAGE, made, octets_of};
use archive_pages::Settings;
use disk_archive::OpenError;
use disk_memory::{Failure, MemErase, MemOnce, OnceFailure};
use disk_models::EraseDisk;
use std::alloc::Global;

const SETTINGS: Settings = Settings {
    collectors: 2,
    ring: 9,
};

// Whether an archive that is opened twice has its settings.
fn is_as_made(alloc: Global) -> Option<bool> {
    let once = reopened(alloc, made(alloc, SETTINGS)?)?;
    let twice = reopened(alloc, once)?;
    Some(twice.collectors() == 2 && twice.ring() == 9)
}

#[test]
fn an_archive_is_opened_as_it_was_made(rt: HostRuntime) {
    be(&rt, is_as_made(rt.alloc()) == Some(true), "an archive");
}

/// A write that fails, if one does, with the kind of what it leaves; the kind of what a crash leaves; and how many records are there
/// then.
struct Crash {
    failing: Option<(u64, u8)>,
    crash: u8,
    records: u32,
}

// The kinds: old, new, half, and octets that begin as the commit flag of an open slot.
const CRASHED: [Crash; 9] = [
    Crash {
        failing: Some((0, 1)),
        crash: 1,
        records: 1,
    },
    Crash {
        failing: Some((0, 2)),
        crash: 3,
        records: 1,
    },
    // The commit flag alone decides.
    Crash {
        failing: Some((3, 0)),
        crash: 1,
        records: 1,
    },
    Crash {
        failing: Some((3, 1)),
        crash: 0,
        records: 1,
    },
    Crash {
        failing: Some((3, 1)),
        crash: 1,
        records: 2,
    },
    Crash {
        failing: Some((3, 2)),
        crash: 1,
        records: 1,
    },
    Crash {
        failing: Some((3, 2)),
        crash: 3,
        records: 2,
    },
    Crash {
        failing: None,
        crash: 0,
        records: 2,
    },
    Crash {
        failing: None,
        crash: 3,
        records: 2,
    },
];

// The disks of which the write fails.
fn armed(alloc: Global, disks: &Both, crash: &Crash) -> Option<Both> {
    match crash.failing {
        Some((number, kind)) => disks.failing(alloc, failed_write(alloc, number, kind)?),
        None => disks.copy(),
    }
}

// Whether the records that the crash should leave are there, and the second one was acknowledged where no write failed.
fn is_found(alloc: Global, disks: &Both, crash: &Crash) -> Option<bool> {
    let given = give_second(alloc, armed(alloc, disks, crash)?)?;
    let is_there = leaves(alloc, &given.disks, crash.crash, crash.records)?;
    Some(is_there && given.is_acknowledged == crash.failing.is_none())
}

#[test]
fn a_crash_leaves_a_batch_whole_or_not_at_all(rt: HostRuntime) {
    let disks = one_given(rt.alloc()).expect(&rt, "disks");
    for crash in &CRASHED {
        let is_found = is_found(rt.alloc(), &disks, crash);
        be(&rt, is_found == Some(true), "a crash");
    }
}

/// Octets that are written over those of a disk, and what opening it returns.
struct Written {
    name: &'static str,
    at: u64,
    octets: &'static [u8],
    answer: Result<(), OpenError>,
}

// The disk has 39 home pages after 265 pages of the journal. Its note, from octet 16 on, says 5 blocks, 2 collectors and rings of 9
// pages.
const WRITTEN: [Written; 14] = [
    Written {
        name: "what stood there",
        at: 0,
        octets: b"RHAPAGE1\0\0\0\0\0\0\0\x27\0\0\0\0\0\0\0\x05\x02\0\x09",
        answer: Ok(()),
    },
    Written {
        name: "another word",
        at: 7,
        octets: b"2",
        answer: Err(OpenError::NotAJournal),
    },
    Written {
        name: "a home page more than the disk has",
        at: 15,
        octets: &[40],
        answer: Err(OpenError::NotAJournal),
    },
    Written {
        name: "one block more",
        at: 23,
        octets: &[6],
        answer: Err(OpenError::NotAJournal),
    },
    Written {
        name: "no collector",
        at: 24,
        octets: &[0],
        answer: Err(OpenError::NotAJournal),
    },
    Written {
        name: "17 collectors",
        at: 24,
        octets: &[17],
        answer: Err(OpenError::NotAJournal),
    },
    Written {
        name: "rings of 8 pages",
        at: 26,
        octets: &[8],
        answer: Err(OpenError::NotAJournal),
    },
    Written {
        name: "rings that end after the last home page",
        at: 26,
        octets: &[20],
        answer: Err(OpenError::NotAJournal),
    },
    Written {
        name: "an open gate before an empty header",
        at: 16_384,
        octets: &[0xA5],
        answer: Err(OpenError::BadSlot(2)),
    },
    // The tree's pages are 19 and 20, and the next one was never used.
    Written {
        name: "a root among the rings",
        at: 265 * 16_384 + 47,
        octets: &[18],
        answer: Err(OpenError::BadNode(0)),
    },
    Written {
        name: "a root on a page that was never used",
        at: 265 * 16_384 + 47,
        octets: &[21],
        answer: Err(OpenError::BadNode(0)),
    },
    Written {
        name: "a root after the last home page",
        at: 265 * 16_384 + 24,
        octets: b"\0\0\0\0\0\0\0\x28\0\0\0\0\0\0\0\0\0\0\0\0\0\0\0\x27",
        answer: Err(OpenError::BadNode(0)),
    },
    Written {
        name: "a head of zeros",
        at: 265 * 16_384,
        octets: &[0; 48],
        answer: Err(OpenError::BadNode(0)),
    },
    Written {
        name: "an octet after the head",
        at: 265 * 16_384 + 16_383,
        octets: &[1],
        answer: Err(OpenError::BadNode(0)),
    },
];

// Writes octets over those of a disk. None where it has no such place.
fn write_over(disk: &mut MemErase, at: u64, octets: &[u8]) -> Option<()> {
    let end = at.checked_add(octets.len() as u64)?;
    if end > disk.size() {
        return None;
    }
    disk.write_at(at, octets).ok()
}

// Whether opening disks returns this.
fn is_answered(alloc: Global, disks: Both, answer: Result<(), OpenError>) -> Option<bool> {
    Some(match open(alloc, disks)? {
        Ok(_) => answer == Ok(()),
        Err(unopened) => answer == Err(unopened.error),
    })
}

// Whether these disks are refused once the octets are written over theirs.
fn is_written(alloc: Global, named: &Both, written: &Written) -> Option<bool> {
    let mut disks = named.copy()?;
    write_over(&mut disks.erase, written.at, written.octets)?;
    is_answered(alloc, disks, written.answer)
}

#[test]
fn a_disk_that_names_no_archive_is_refused(rt: HostRuntime) {
    let archive = made(rt.alloc(), SETTINGS).expect(&rt, "an archive");
    let named = given_up(archive);
    for written in &WRITTEN {
        let is_answered = is_written(rt.alloc(), &named, written);
        be(&rt, is_answered == Some(true), written.name);
    }
}

// A disk of `pages` pages, with the identity page and the head of another one.
fn cut(alloc: Global, disk: &mut MemErase, pages: u64) -> Option<MemErase> {
    let mut cut = MemErase::new(alloc, pages.min(65_536) * PAGE);
    for page in [0, 265] {
        write_over(&mut cut, page * PAGE, &octets_of(alloc, disk, page)?)?;
    }
    Some(cut)
}

// Whether an opening returns this where the disk has `pages` pages.
fn is_cut(
    alloc: Global,
    named: &mut Both,
    pages: u64,
    answer: Result<(), OpenError>,
) -> Option<bool> {
    let mut disks = named.copy()?;
    disks.erase = cut(alloc, &mut named.erase, pages)?;
    is_answered(alloc, disks, answer)
}

// 265 pages and 39 home pages.
#[test]
fn a_disk_that_is_too_small_is_refused(rt: HostRuntime) {
    let alloc = rt.alloc();
    let archive = made(alloc, SETTINGS).expect(&rt, "an archive");
    let mut named = given_up(archive);
    let refused = Err(OpenError::NotAJournal);
    be(
        &rt,
        is_cut(alloc, &mut named, 304, Ok(())) == Some(true),
        "304 pages",
    );
    be(
        &rt,
        is_cut(alloc, &mut named, 303, refused) == Some(true),
        "303 pages",
    );
    named.erase = MemErase::new(alloc, 304 * PAGE);
    be(
        &rt,
        is_answered(alloc, named, refused) == Some(true),
        "no octets",
    );
}

// These disks, which aren't opened.
fn hand_back(alloc: Global, disks: Both) -> Option<Unopened> {
    open(alloc, disks)?.err()
}

// Whether an erasable disk is handed back that is opened with a write-once disk of another size, and is opened with its own then.
fn is_handed_back(alloc: Global) -> Option<bool> {
    let Both { erase, once, pen } = one_given(alloc)?;
    let (other, other_pen) = MemOnce::new(alloc, 4);
    let others = Both {
        erase,
        once: other,
        pen: other_pen,
    };
    let Unopened { disks, error } = hand_back(alloc, others)?;
    let Both { erase, .. } = disks;
    let archive = opened(alloc, Both { erase, once, pen })?;
    Some(error == OpenError::NotAJournal && has_records(&archive, 1))
}

#[test]
fn disks_that_are_refused_are_handed_back(rt: HostRuntime) {
    be(&rt, is_handed_back(rt.alloc()) == Some(true), "disks");
}

// Whether both records are there after each of these crashes.
fn are_left(alloc: Global, disks: &Both, crashes: &[u8]) -> Option<bool> {
    for crash in crashes {
        if !leaves(alloc, disks, *crash, 2)? {
            return Some(false);
        }
    }
    Some(true)
}

// Whether opening these disks is refused for a failed call, and both records are there after each of these crashes.
fn stops_whole(alloc: Global, disks: Option<Both>, crashes: &[u8]) -> Option<bool> {
    let Unopened { disks, error } = hand_back(alloc, disks?)?;
    Some(error == OpenError::Fault && are_left(alloc, &disks, crashes)?)
}

// Two open slots of two images: they go home by four writes, and both commit flags are cleared.
#[test]
fn an_opening_that_is_stopped_at_a_write_loses_nothing(rt: HostRuntime) {
    let alloc = rt.alloc();
    let disks = two_given(alloc).expect(&rt, "disks");
    for number in 0..6 {
        for kind in 0..KINDS {
            let failure = failed_write(alloc, number, kind).expect(&rt, "a failure");
            let failing = disks.failing(alloc, failure);
            let is_whole = stops_whole(alloc, failing, &[0, 1, 2, 3, IN_TURN]);
            be(&rt, is_whole == Some(true), "a write");
        }
    }
}

// One sync comes before all else, one after the images, and one after each commit flag. What is read: the identity page, eight commit
// flags, three parts of both headers, and the images.
#[test]
fn an_opening_that_is_stopped_elsewhere_loses_nothing(rt: HostRuntime) {
    let alloc = rt.alloc();
    let disks = two_given(alloc).expect(&rt, "disks");
    for number in 0..4 {
        let failing = disks.failing(alloc, Failure::Sync(number));
        let is_whole = stops_whole(alloc, failing, &[0, 1, 2, 3, IN_TURN]);
        be(&rt, is_whole == Some(true), "a sync");
    }
    for number in 0..19 {
        let failing = disks.failing(alloc, Failure::Read(number));
        be(
            &rt,
            stops_whole(alloc, failing, &[IN_TURN]) == Some(true),
            "a read",
        );
    }
    let failing = disks.failing_once(alloc, OnceFailure::Blank(0));
    be(
        &rt,
        stops_whole(alloc, failing, &[IN_TURN]) == Some(true),
        "a look",
    );
}
