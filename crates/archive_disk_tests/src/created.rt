//! What creating an archive leaves on the erasable disk, as docs/FORMATS.md has it, and what it needs; and each call of a device that
//! it makes fails once.

use crate::be;
use crate::disks::{failed_write, given_up};
use crate::made::{Disks, disks_of, made, made_on, octets_of};
use archive_pages::Settings;
use disk_archive::CreateError;
use disk_memory::{Failure, OnceFailure};
use std::alloc::Global;

const SETTINGS: Settings = Settings {
    collectors: 2,
    ring: 9,
};

// What the first page of the disk begins with: the word, 39 home pages, and the note, of 5 blocks, 2 collectors and rings of 9 pages.
const IDENTITY: &[u8] = b"RHAPAGE1\0\0\0\0\0\0\0\x27\0\0\0\0\0\0\0\x05\x02\0\x09\0";

// What the head begins with: no change, at no time, and none begun; pages 19 and 20 are the tree's, no block was tried, and times are
// microseconds.
const HEAD: &[u8] =
    b"\0\0\0\0\0\0\0\0\0\0\0\0\0\0\0\0\0\0\0\0\0\0\0\0\0\0\0\0\0\0\0\x15\0\0\0\0\0\0\0\0\0\0\0\0\0\0\0\x13\0\0\0\0\0\0\0\x01";

// Whether the archive has its settings, and its first page and its head are these, with zeros after them.
fn stands(alloc: Global) -> Option<bool> {
    let archive = made(alloc, SETTINGS)?;
    let has_settings = archive.collectors() == 2 && archive.ring() == 9;
    let mut disks = given_up(archive);
    let identity = octets_of(alloc, &mut disks.erase, 0)?;
    let head = octets_of(alloc, &mut disks.erase, 265)?;
    Some(
        has_settings
            && identity.starts_with(IDENTITY)
            && head.starts_with(HEAD)
            && head.iter().skip(56).all(|octet| *octet == 0),
    )
}

#[test]
fn an_archive_stands_on_its_disk(rt: HostRuntime) {
    be(&rt, stands(rt.alloc()) == Some(true), "an archive");
}

// Why no archive is created on these disks; none where one is.
fn refusal_of(alloc: Global, disks: Disks, collectors: u8) -> Option<CreateError> {
    let settings = Settings {
        collectors,
        ring: 9,
    };
    made_on(alloc, disks, settings)?.err()
}

#[test]
fn a_disk_of_one_page_less_is_too_small(rt: HostRuntime) {
    let alloc = rt.alloc();
    // The head, 2 rings of 9 pages, and the tree's 2.
    let small = refusal_of(alloc, disks_of(alloc, 20), 2);
    be(
        &rt,
        matches!(&small, Some(CreateError::PagesFull)),
        "20 pages",
    );
    let large = made_on(alloc, disks_of(alloc, 21), SETTINGS);
    be(&rt, matches!(&large, Some(Ok(_))), "21 pages");
}

// Whether creating an archive of one collector is refused for this failure.
fn is_refused(alloc: Global, failure: Option<Failure>) -> Option<bool> {
    let mut disks = disks_of(alloc, 12);
    disks.erase.push(failure?).ok()?;
    let settings = Settings {
        collectors: 1,
        ring: 9,
    };
    Some(match made_on(alloc, disks, settings)? {
        Ok(_) => false,
        Err(error) => matches!(error, CreateError::Fault),
    })
}

// Eight commit flags, the tree's two pages, the head, and the identity page in two pieces: 13 writes. A sync comes first, and one after
// each piece. A call that isn't made leaves no trace.
#[test]
fn a_failed_write_or_sync_refuses_the_archive(rt: HostRuntime) {
    let alloc = rt.alloc();
    for number in 0..15 {
        let is_refused = is_refused(alloc, failed_write(alloc, number, 2));
        be(&rt, is_refused == Some(number < 13), "a write");
    }
    for number in 0..5 {
        let is_refused = is_refused(alloc, Some(Failure::Sync(number)));
        be(&rt, is_refused == Some(number < 3), "a sync");
    }
}

// Whether creating an archive is refused where a look at a block fails.
fn is_refused_once(alloc: Global) -> Option<bool> {
    let mut disks = disks_of(alloc, 12);
    disks.once.push(OnceFailure::Blank(0)).ok()?;
    let refusal = refusal_of(alloc, disks, 1);
    Some(matches!(&refusal, Some(CreateError::Fault)))
}

#[test]
fn a_failed_look_at_a_block_refuses_the_archive(rt: HostRuntime) {
    be(&rt, is_refused_once(rt.alloc()) == Some(true), "a look");
}
