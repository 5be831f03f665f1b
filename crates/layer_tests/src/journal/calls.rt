//! The calls that a journal makes of its disk, in their order.

use super::{PAGE, checkpoint, home, made, opened, post};
use crate::be;
use disk_memory::{Call, MemErase};
use page_journal::{Journal, JournalError};
use std::alloc::Global;

/// A call that left something on a disk: a write, where it begins, its size, and its first octet; or a sync.
#[derive(Clone, Copy, PartialEq)]
enum Step {
    Write(u64, u64, u8),
    Sync,
}

/// What a call left.
fn step_of(call: &Call) -> Step {
    match call {
        Call::Write(written) => Step::Write(
            written.at(),
            written.length(),
            written.octets().first().copied().unwrap_or(0),
        ),
        Call::Sync => Step::Sync,
    }
}

/// Whether a disk's calls were these, after the first `skipped` ones.
fn are_steps(disk: &MemErase, skipped: usize, expected: &[Step]) -> bool {
    let calls = disk.calls().get(skipped..).unwrap_or(&[]);
    calls.len() == expected.len()
        && calls
            .iter()
            .zip(expected.iter())
            .all(|(call, step)| step_of(call) == *step)
}

/// The octets of a disk's call, where that is a write.
fn written(disk: &MemErase, n: usize) -> &[u8] {
    match disk.calls().get(n) {
        Some(Call::Write(written)) => written.octets(),
        _ => &[],
    }
}

/// The calls of a creation: the first octet of the identity page comes last.
const CREATED: [Step; 17] = [
    Step::Sync,
    Step::Write(16_384, 1, 0),
    Step::Write(34 * PAGE, 1, 0),
    Step::Write(67 * PAGE, 1, 0),
    Step::Write(100 * PAGE, 1, 0),
    Step::Write(133 * PAGE, 1, 0),
    Step::Write(166 * PAGE, 1, 0),
    Step::Write(199 * PAGE, 1, 0),
    Step::Write(232 * PAGE, 1, 0),
    Step::Write(265 * PAGE, PAGE, 10),
    Step::Write(266 * PAGE, PAGE, 11),
    Step::Write(267 * PAGE, PAGE, 12),
    Step::Write(268 * PAGE, PAGE, 13),
    Step::Write(1, PAGE - 1, b'H'),
    Step::Sync,
    Step::Write(0, 1, b'R'),
    Step::Sync,
];

#[test]
fn a_creation_writes_the_identity_page_last(rt: HostRuntime) {
    let disk = made(rt.alloc()).expect(&rt, "a disk");
    be(&rt, are_steps(&disk, 0, &CREATED), "the calls");
    let page = written(&disk, 13);
    let is_named = page.starts_with(b"HAPAGE1\0\0\0\0\0\0\0\x04eleven here");
    be(
        &rt,
        is_named && page.iter().skip(26).all(|octet| *octet == 0),
        "the identity page",
    );
}

/// The calls after a creation, of an opening, which has nothing to do but for its two syncs, and of a post.
const POST_CALLS: [Step; 8] = [
    Step::Sync,
    Step::Sync,
    Step::Write(2 * PAGE, 25, 0),
    Step::Write(3 * PAGE, PAGE, 21),
    Step::Write(4 * PAGE, PAGE, 22),
    Step::Sync,
    Step::Write(PAGE, 1, 0xa5),
    Step::Sync,
];

/// After these, of an opening with one open slot, a post, two pages that are brought home, and a checkpoint.
const LATER_CALLS: [Step; 17] = [
    Step::Sync,
    Step::Write(266 * PAGE, PAGE, 21),
    Step::Write(267 * PAGE, PAGE, 22),
    Step::Sync,
    Step::Write(PAGE, 1, 0),
    Step::Sync,
    Step::Write(2 * PAGE, 25, 0),
    Step::Write(3 * PAGE, PAGE, 21),
    Step::Write(4 * PAGE, PAGE, 22),
    Step::Sync,
    Step::Write(PAGE, 1, 0xa5),
    Step::Sync,
    Step::Write(267 * PAGE, PAGE, 22),
    Step::Write(266 * PAGE, PAGE, 21),
    Step::Sync,
    Step::Write(PAGE, 1, 0),
    Step::Sync,
];

const HEADER: [u8; 25] = *b"\0\0\0\0\0\0\0\x01\x02\0\0\0\0\0\0\0\x01\0\0\0\0\0\0\0\x02";

/// Opens a disk and posts new pages 1 and 2.
fn opened_and_posted(alloc: Global, disk: MemErase) -> Result<Journal<MemErase>, JournalError> {
    let mut journal = opened(alloc, disk)?;
    post(alloc, &mut journal, 21, 22)?;
    Ok(journal)
}

/// Brings both pages home, and closes the slot.
fn bring_home(alloc: Global, journal: &mut Journal<MemErase>) -> bool {
    home(alloc, journal, 2, 22).is_ok()
        && home(alloc, journal, 1, 21).is_ok()
        && checkpoint(journal).is_ok()
}

/// The same, and then both pages are brought home, and the slot is closed.
fn opened_and_homed(alloc: Global, disk: MemErase) -> Option<MemErase> {
    let mut journal = opened_and_posted(alloc, disk).ok()?;
    if !bring_home(alloc, &mut journal) {
        return None;
    }
    Some(journal.into_disk())
}

#[test]
fn each_call_writes_and_syncs_in_its_order(rt: HostRuntime) {
    let disk = made(rt.alloc()).expect(&rt, "a disk");
    let journal = opened_and_posted(rt.alloc(), disk)
        .ok()
        .expect(&rt, "a post");
    let disk = journal.into_disk();
    be(
        &rt,
        are_steps(&disk, 17, &POST_CALLS),
        "an opening and a post",
    );
    be(&rt, written(&disk, 19) == HEADER.as_slice(), "a header");
    let disk = opened_and_homed(rt.alloc(), disk).expect(&rt, "a checkpoint");
    be(
        &rt,
        are_steps(&disk, 25, &LATER_CALLS),
        "a second opening, pages home, a checkpoint",
    );
    be(
        &rt,
        written(&disk, 31) == HEADER.as_slice(),
        "the header again",
    );
}
