//! An archive that was made in whole seconds: its first opening writes the head. It is cut off there and in its life after that.

use crate::stops::{Stop, cut_opening, go_on, opened};
use crate::{be, be_at};
use disk_archive::OpenError;
use disk_memory::Failure;
use std::alloc::Global;
use std::process::Abort;
use swept_lives::{
    Both, Disk, KINDS, LONG, PAGE, RISING, Script, Stage, WAYS, flush_all, in_whole_seconds,
    laid_anew, lay, octets_of, prepare, torn,
};

/// The stage of a life that begins on disks in whole seconds.
fn older_stage(rt: &impl Abort, alloc: Global, life: &Script) -> Stage {
    let mut stage = prepare(alloc, life).expect(rt, "a stage");
    let disks = stage.disks.copy().expect(rt, "memory");
    let mut archive = opened(rt, &stage, disks);
    be(rt, flush_all(&mut archive), "all pages are home");
    let disks = laid_anew(alloc, archive.given_up()).expect(rt, "pages");
    stage.disks = in_whole_seconds(alloc, &disks).expect(rt, "whole seconds");
    stage
}

/// The disks after an opening, which makes this many calls that write or sync.
fn after_opening(rt: &impl Abort, stage: &Stage, disks: &Both, calls: u64) -> Both {
    let is_cut = cut_opening(rt, stage, disks, calls).is_some();
    let is_whole = cut_opening(rt, stage, disks, calls.saturating_add(1)).is_none();
    be_at(rt, is_cut && is_whole, "calls of an opening", calls);
    let mut archive = opened(rt, stage, disks.copy().expect(rt, "memory"));
    be(
        rt,
        stage.is_at(&mut archive, 0),
        "all is answered as before",
    );
    archive.given_up()
}

/// The head's page, and the page of the only leaf.
const HEAD: u64 = 265;

const LEAF: u64 = 285;

/// How many pages the disk has.
const PAGES: u64 = 304;

/// Numbers of a head in whole seconds, by their places: the time of the last change, the unit, and of each collector how many admissions
/// there are, the mark, and the first admission that is kept in microseconds.
const OLDER: [(u64, u64); 8] = [
    (8, 8_011),
    (48, 0),
    (72, 4),
    (80, 9_010),
    (104, 0),
    (136, 2),
    (144, 9_012),
    (168, 0),
];

/// The same after the first opening.
const NEWER: [(u64, u64); 8] = [
    (8, 8_011_000_000),
    (48, 1),
    (72, 4),
    (80, 9_010_000_000),
    (104, 4),
    (136, 2),
    (144, 9_012_000_000),
    (168, 2),
];

/// The octets of a page.
fn page_of(rt: &impl Abort, alloc: Global, disks: &Both, page: u64) -> Vec<u8> {
    let mut disks = disks.copy().expect(rt, "memory");
    octets_of(alloc, &mut disks.erase, page).expect(rt, "a page")
}

/// Whether the head of the disks has these numbers, and all else as on the older disks.
fn has_numbers(
    rt: &impl Abort,
    alloc: Global,
    older: &Both,
    disks: &Both,
    numbers: &[(u64, u64)],
) -> bool {
    let mut expected = older.copy().expect(rt, "memory");
    for (at, number) in numbers {
        expected = with_head(rt, &expected, *at, &number.to_be_bytes());
    }
    page_of(rt, alloc, &expected, HEAD) == page_of(rt, alloc, disks, HEAD)
}

/// Whether a leaf is in whole seconds.
fn is_older_leaf(octets: &[u8]) -> bool {
    octets.get(0) == Some(&1) && octets.get(1) == Some(&0)
}

/// Each page after the head is as on the older disks.
fn others_stay(rt: &impl Abort, alloc: Global, older: &Both, disks: &Both) {
    for page in HEAD + 1..PAGES {
        let was = page_of(rt, alloc, older, page);
        be_at(rt, page_of(rt, alloc, disks, page) == was, "a page", page);
    }
}

#[test]
fn the_first_opening_writes_the_head_and_the_next_ones_do_not(rt: HostRuntime) {
    let stage = older_stage(&rt, rt.alloc(), &RISING);
    let older = &stage.disks;
    be(
        &rt,
        has_numbers(&rt, rt.alloc(), older, older, &OLDER),
        "whole seconds",
    );
    let first = after_opening(&rt, &stage, older, 7);
    let second = after_opening(&rt, &stage, &first, 5);
    be(
        &rt,
        has_numbers(&rt, rt.alloc(), older, &second, &NEWER),
        "microseconds",
    );
    let leaf = page_of(&rt, rt.alloc(), &second, LEAF);
    be(&rt, is_older_leaf(&leaf), "a leaf in whole seconds");
    others_stay(&rt, rt.alloc(), older, &second);
    let _third = after_opening(&rt, &stage, &second, 2);
}

/// A life on disks in whole seconds is cut off at these calls of the erasable disk, those of its opening first, and goes on.
fn sweep(rt: &impl Abort, alloc: Global, life: &Script, calls: u64) {
    let stage = older_stage(rt, alloc, life);
    for number in WAYS..calls.saturating_add(1).saturating_mul(WAYS) {
        let stop = Stop {
            disk: Disk::Erasable,
            k: number / WAYS,
            way: number % WAYS,
        };
        let openings = go_on(rt, &stage, &stop);
        be_at(rt, openings > 0, "openings", number);
    }
}

#[test]
fn a_life_in_whole_seconds_is_cut_off_and_goes_on(rt: HostRuntime) {
    sweep(&rt, rt.alloc(), &LONG, 24);
    sweep(&rt, rt.alloc(), &RISING, 12);
}

/// Octets of the head at a place, which make one in whole seconds none: another unit, the last change and a mark a second after the last
/// one, and an octet where zeros stand.
const NO_HEADS: [(u64, [u8; 8]); 5] = [
    (48, [0, 0, 0, 0, 0, 0, 0, 2]),
    (8, [0, 0, 0, 1, 0, 0, 0, 0]),
    (80, [0, 0, 0, 1, 0, 0, 0, 1]),
    (104, [0, 0, 0, 0, 0, 0, 0, 1]),
    (112, [1, 0, 0, 0, 0, 0, 0, 0]),
];

/// The disks with these octets at a place of the head.
fn with_head(rt: &impl Abort, disks: &Both, at: u64, octets: &[u8]) -> Both {
    let mut disks = disks.copy().expect(rt, "memory");
    let place = (HEAD * PAGE).saturating_add(at);
    be_at(rt, lay(&mut disks.erase, place, octets), "a write", at);
    disks
}

/// Whether disks are refused as a damaged head.
fn has_no_head(stage: &Stage, disks: Both) -> bool {
    match disks.open(stage.alloc) {
        Ok(_) => false,
        Err(handed) => handed.error == OpenError::BadNode(0),
    }
}

#[test]
fn a_damaged_head_in_whole_seconds_is_refused(rt: HostRuntime) {
    let stage = older_stage(&rt, rt.alloc(), &RISING);
    for (at, octets) in &NO_HEADS {
        let disks = with_head(&rt, &stage.disks, *at, octets);
        be_at(&rt, has_no_head(&stage, disks), "a head", *at);
    }
    // The first opening counts how many admissions are in whole seconds: never more than there are.
    let first = after_opening(&rt, &stage, &stage.disks, 7);
    let more = with_head(
        &rt,
        &after_opening(&rt, &stage, &first, 5),
        104,
        &[0, 0, 0, 0, 0, 1, 0, 0],
    );
    be(
        &rt,
        has_no_head(&stage, more),
        "more admissions than there are",
    );
}

/// The calls of the erasable disk.
#[derive(Clone, Copy)]
enum Call {
    Read,
    Write,
    Sync,
}

/// The call of this number fails, the first one being 0; of a write, what each kind of torn range has, so its number is times the kinds.
fn failure_of(call: Call, number: u64) -> Failure {
    match call {
        Call::Read => Failure::Read(number),
        Call::Write => Failure::Write(number / KINDS, torn(number % KINDS)),
        Call::Sync => Failure::Sync(number),
    }
}

/// The disks where one call fails in their first opening, which refuses it; none where it isn't made.
fn refused_call(rt: &impl Abort, stage: &Stage, failure: Failure) -> Option<Both> {
    let mut disks = stage.disks.copy().expect(rt, "memory");
    let script = vec![in stage.alloc; failure].expect(rt, "memory");
    disks.erase.set_script(script);
    match disks.open(stage.alloc) {
        Ok(_) => None,
        Err(handed) => {
            be(rt, handed.error == OpenError::Fault, "a call fails");
            Some(handed.disks)
        }
    }
}

/// Each call of one kind fails once in the first opening: the disks come back, and are opened then. Returns how many there are.
fn refuse_each(rt: &impl Abort, stage: &Stage, call: Call) -> u64 {
    for number in 0..1_000u64 {
        let Some(disks) = refused_call(rt, stage, failure_of(call, number)) else {
            return number;
        };
        let mut archive = opened(rt, stage, disks);
        be_at(
            rt,
            stage.is_at(&mut archive, 0),
            "opened again, after a call",
            number,
        );
    }
    panic!(rt; "an opening has fewer calls")
}

#[test]
fn each_call_of_the_first_opening_fails_once(rt: HostRuntime) {
    let stage = older_stage(&rt, rt.alloc(), &RISING);
    be(&rt, refuse_each(&rt, &stage, Call::Read) > 0, "reads");
    be(
        &rt,
        refuse_each(&rt, &stage, Call::Write) == 3 * KINDS,
        "writes",
    );
    be(&rt, refuse_each(&rt, &stage, Call::Sync) == 4, "syncs");
}
