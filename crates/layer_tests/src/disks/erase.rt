//! The erasable disk in memory: each call once, each failure once, and each kind of torn range after a crash.

use crate::{be, be_at};
use disk_memory::{Call, Failure, MemErase, Torn};
use disk_models::{EraseDisk, Page};
use std::alloc::Global;

/// Writes octets from a place on. Whether that was done.
pub(crate) fn write(disk: &mut MemErase, at: u64, octets: &[u8]) -> bool {
    let size = disk.size();
    at <= size && octets.len() as u64 <= size - at && disk.write_at(at, octets).is_ok()
}

pub(crate) fn sync(disk: &mut MemErase) -> bool {
    disk.sync().is_ok()
}

/// Whether these octets, at most sixteen, are read from a place on.
pub(crate) fn reads(disk: &mut MemErase, at: u64, expected: &[u8]) -> bool {
    let size = disk.size();
    let mut octets = [1u8; 16];
    let Some(into) = octets.get_mut(..expected.len()) else {
        return false;
    };
    at <= size
        && into.len() as u64 <= size - at
        && disk.read(at, &mut *into).is_ok()
        && *into == *expected
}

/// Whether a crash by this choice leaves these octets from 8 on.
fn leaves(disk: &MemErase, choice: &[Torn], expected: &[u8]) -> bool {
    match disk.crash(choice) {
        Ok(mut left) => reads(&mut left, 8, expected),
        Err(_) => false,
    }
}

/// A disk of 32 octets: "settled!" is synced at 8, and "unsynced" is written over its second half.
fn torn_disk(alloc: Global) -> Option<MemErase> {
    let mut disk = MemErase::new(alloc, 32);
    let made = write(&mut disk, 8, b"settled!") && sync(&mut disk);
    if made && write(&mut disk, 12, b"unsynced") {
        Some(disk)
    } else {
        None
    }
}

#[test]
fn each_call(rt: HostRuntime) {
    let mut disk = MemErase::new(rt.alloc(), 32);
    be(&rt, disk.size() == 32, "the size");
    be(&rt, reads(&mut disk, 28, b"\0\0\0\0"), "a blank disk");
    be(&rt, write(&mut disk, 26, b"abcd"), "a write");
    be(&rt, reads(&mut disk, 28, b"cd\0\0"), "what was written");
    be(&rt, sync(&mut disk) && disk.faults() == 0, "a sync");
    let are_kept = match disk.calls() {
        [Call::Write(write), Call::Sync] => {
            write.at() == 26 && write.length() == 4 && write.octets() == b"abcd".as_slice()
        }
        _ => false,
    };
    be(&rt, are_kept, "the calls");
}

/// Writes, in their order, and what is read from 8 on after four of them and after all.
const WRITES: [(u64, &[u8]); 6] = [
    (8, b"aaaaaaaaaaaa"),
    (10, b"bbbb"),
    (0, b"cccccccccc"),
    (18, b"dddddddddddddd"),
    (8, b"eeeeeeeeeeee"),
    (9, b"f"),
];

/// Makes some of these writes.
fn write_all(disk: &mut MemErase, writes: &[(u64, &[u8])]) -> bool {
    for (at, octets) in writes {
        if !write(disk, *at, *octets) {
            return false;
        }
    }
    true
}

#[test]
fn later_writes_stand_over_earlier_ones(rt: HostRuntime) {
    let mut disk = MemErase::new(rt.alloc(), 32);
    be(&rt, write_all(&mut disk, &WRITES[..4]), "four writes");
    be(
        &rt,
        reads(&mut disk, 8, b"ccbbbbaaaadd"),
        "over one another",
    );
    be(&rt, write_all(&mut disk, &WRITES[4..]), "two writes");
    be(&rt, reads(&mut disk, 8, b"efeeeeeeeeee"), "over all");
}

/// What a crash may make of one unsynced write; the first is no choice at all.
fn choice(alloc: Global, n: usize) -> Option<Vec<Torn>> {
    let torn = match n {
        0 => return Some(Vec::new(alloc)),
        1 => Torn::Old,
        2 => Torn::New,
        3 => Torn::Half,
        4 => Torn::Octets(vec![in alloc; 0xa5; 2].ok()?),
        _ => Torn::Octets(vec![in alloc; 0x5a; 20].ok()?),
    };
    vec![in alloc; torn].ok()
}

/// What each of them leaves.
const LEFT: [&[u8]; 6] = [
    b"settled!\0\0\0\0",
    b"settled!\0\0\0\0",
    b"settunsynced",
    b"settunsy\xff\xff\xff\xff",
    b"sett\xa5\xa5d!\0\0\0\0",
    b"sett\x5a\x5a\x5a\x5a\x5a\x5a\x5a\x5a",
];

/// Whether this is left where the n-th is chosen.
fn leaves_by(alloc: Global, disk: &MemErase, n: usize, expected: &[u8]) -> bool {
    match choice(alloc, n) {
        Some(choice) => leaves(disk, &choice, expected),
        None => false,
    }
}

#[test]
fn a_crash_tears_what_is_unsynced(rt: HostRuntime) {
    let mut disk = torn_disk(rt.alloc()).expect(&rt, "a disk");
    be(&rt, reads(&mut disk, 8, b"settunsynced"), "before a crash");
    for (n, expected) in LEFT.iter().enumerate() {
        be_at(
            &rt,
            leaves_by(rt.alloc(), &disk, n, *expected),
            "torn",
            n as u64,
        );
    }
    be(&rt, sync(&mut disk), "a sync");
    be(&rt, leaves(&disk, &[Torn::Half], b"settunsynced"), "synced");
}

#[test]
fn each_unsynced_write_has_a_choice_of_its_own(rt: HostRuntime) {
    let mut disk = torn_disk(rt.alloc()).expect(&rt, "a disk");
    be(
        &rt,
        write(&mut disk, 8, b"XXXX") && write(&mut disk, 16, b"YY"),
        "writes",
    );
    be(
        &rt,
        leaves(
            &disk,
            &[Torn::Old, Torn::New, Torn::Old],
            b"XXXXled!\0\0\0\0",
        ),
        "the second is new",
    );
    be(
        &rt,
        leaves(
            &disk,
            &[Torn::Half, Torn::Old, Torn::New],
            b"settunsyYY\xff\xff",
        ),
        "half of the first, and the third is new",
    );
}

#[test]
fn a_disk_that_begins_again_settles_what_a_crash_left(rt: HostRuntime) {
    let disk = torn_disk(rt.alloc()).expect(&rt, "a disk");
    let first = disk.crash(&[Torn::Half]).expect(&rt, "a crash");
    be(
        &rt,
        leaves(&first, &[Torn::New], b"settunsy\xff\xff\xff\xff"),
        "a second crash",
    );
    be(
        &rt,
        first.size() == 32 && first.faults() == 0,
        "the size, and no faults",
    );
}

#[test]
fn a_copy_goes_its_own_way(rt: HostRuntime) {
    let mut disk = torn_disk(rt.alloc()).expect(&rt, "a disk");
    let mut other = disk.copy().expect(&rt, "a copy");
    be(
        &rt,
        write(&mut other, 8, b"other") && sync(&mut other),
        "a write to the copy",
    );
    be(&rt, reads(&mut disk, 8, b"settunsynced"), "the disk");
    be(&rt, reads(&mut other, 8, b"othernsynced"), "the copy");
    be(
        &rt,
        leaves(&disk, &[], b"settled!\0\0\0\0"),
        "after a crash",
    );
}

/// A run of five calls. It returns which of them failed.
fn run(disk: &mut MemErase) -> [bool; 5] {
    let first = !write(disk, 8, b"settled!");
    let second = !sync(disk);
    let third = !write(disk, 12, b"unsynced");
    let fourth = !reads(disk, 0, b"\0\0\0\0");
    let fifth = !sync(disk);
    [first, second, third, fourth, fifth]
}

/// The failures that are tried: the first one never comes.
fn failure(n: usize) -> Failure {
    match n {
        0 => Failure::Read(7),
        1 => Failure::Write(0, Torn::Half),
        2 => Failure::Sync(0),
        3 => Failure::Write(1, Torn::Half),
        4 => Failure::Write(1, Torn::Old),
        5 => Failure::Read(0),
        _ => Failure::Sync(1),
    }
}

/// The call that each failure lets fail, what is read then, and what a crash leaves.
const FAILED: [(usize, &[u8], &[u8]); 7] = [
    (5, b"settunsynced", b"settunsynced"),
    (0, b"settunsynced", b"settunsynced"),
    (1, b"settunsynced", b"settunsynced"),
    (2, b"settunsy\xff\xff\xff\xff", b"settunsy\xff\xff\xff\xff"),
    (2, b"settled!\0\0\0\0", b"settled!\0\0\0\0"),
    (3, b"settunsynced", b"settunsynced"),
    (4, b"settunsynced", b"settled!\0\0\0\0"),
];

/// Whether a run with the n-th failure fails at this call alone, and then this is read, and this is left.
fn fails(alloc: Global, n: usize, call: usize, read: &[u8], left: &[u8]) -> Option<bool> {
    let mut disk = MemErase::new(alloc, 32);
    disk.set_script(vec![in alloc; failure(n)].ok()?);
    let failed = run(&mut disk);
    let mut expected = [false; 5];
    if let Some(failed) = expected.get_mut(call) {
        *failed = true;
    }
    Some(
        failed == expected
            && disk.faults() == u64::from(n > 0)
            && reads(&mut disk, 8, read)
            && leaves(&disk, &[], left),
    )
}

#[test]
fn each_call_fails_once(rt: HostRuntime) {
    for (n, (call, read, left)) in FAILED.iter().enumerate() {
        let is_right = fails(rt.alloc(), n, *call, *read, *left) == Some(true);
        be_at(&rt, is_right, "a failure", n as u64);
    }
}

/// Writes a page and reads it again, and another. Whether the page was read as it was written.
fn is_kept(disk: &mut MemErase, page: &mut Page, at: u64, other: u64, octet: u8) -> bool {
    if at > 1 << 40
        || other > 1 << 40
        || at + 16_384 > disk.size()
        || other + 16_384 > disk.size()
    {
        return false;
    }
    page.octets_mut().fill(octet);
    if disk.write_at(at, page.octets()).is_err() || page.read_from(disk, at).is_err() {
        return false;
    }
    let same = page.octets().first() == Some(&octet) && page.octets().last() == Some(&octet);
    page.read_from(disk, other).is_ok() && same
}

#[test]
fn pages_with_reads_between(rt: HostRuntime) {
    let mut disk = MemErase::new(rt.alloc(), 4361 * 16_384);
    let mut page = Page::new(rt.alloc()).expect(&rt, "a page");
    for k in 0..10_000u64 {
        let at = k * 7919 % 4361 * 16_384;
        let other = k * 31 % 4361 * 16_384;
        let is_kept = is_kept(&mut disk, &mut page, at, other, (k % 251) as u8);
        be_at(
            &rt,
            is_kept && (k % 100 != 99 || sync(&mut disk)),
            "a page",
            k,
        );
    }
    be(&rt, disk.calls().len() == 10_100, "the calls");
}
