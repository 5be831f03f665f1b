//! What is said of marks that lie far ahead, of loads that are strict, and of files that weren't read.

use crate::be;
use advice::{FileAdvice, MarkAdvice, Unread, advise};
use route_model::{Mark, Moment};
use service::Output;
use std::alloc::Global;
use std::fmt::Display;

/// What is said of something.
fn said<D: Display>(alloc: Global, words: &D) -> Vec<u8> {
    let mut text: Vec<u8> = Vec::new(alloc);
    advise(alloc, words, &mut Output::new(&mut text));
    text
}

/// A mark far ahead of a collector's, whether it was set, and what is said of it.
const FAR: [(u64, bool, &str); 4] = [
    (
        2_272_060_799,
        true,
        "rha: --mark: 2042-01-01T00:00:00Z (2272147200) is 1 day after the collector's last record or mark, 2041-12-30T23:59:59Z (2272060799): it isn't set\n",
    ),
    (
        1_704_067_200,
        false,
        "rha: --mark: 2042-01-01T00:00:00Z (2272147200) is 6575 days after the collector's last record or mark, 2024-01-01T00:00:00Z (1704067200): it is set, and can't be set back; records of the time between come late from now on\n",
    ),
    (
        1_704_067_200,
        true,
        "rha: --mark: 2042-01-01T00:00:00Z (2272147200) is 6575 days after the collector's last record or mark, 2024-01-01T00:00:00Z (1704067200): it isn't set\n",
    ),
    (
        0,
        true,
        "rha: --mark: 2042-01-01T00:00:00Z (2272147200), and the collector gave no record yet: it isn't set\n",
    ),
];

/// Whether this is said of the mark of the beginning of 2042.
fn is_said(alloc: Global, present: u64, is_held: bool, expected: &str) -> Option<bool> {
    let mark = Mark::new(2_272_147_200_000_000)?;
    let text = said(
        alloc,
        &MarkAdvice::Far {
            mark,
            present: present.saturating_mul(Moment::SECOND),
            is_held,
        },
    );
    Some(text.as_slice() == expected.as_bytes())
}

#[test]
fn marks_that_lie_far_ahead_are_warned_of(rt: HostRuntime) {
    for (present, is_held, expected) in &FAR {
        be(
            &rt,
            is_said(rt.alloc(), *present, *is_held, expected) == Some(true),
            expected,
        );
    }
}

#[test]
fn the_end_of_a_load_is_said(rt: HostRuntime) {
    let alloc = rt.alloc();
    let held = said(alloc, &MarkAdvice::Held);
    be(
        &rt,
        held.as_slice() == "rha: --strict: the load ends here, and no mark is set\n".as_bytes(),
        "a load that is held back",
    );
    let unread = said(
        alloc,
        &Unread {
            files: &["u2", "u3"],
        },
    );
    be(
        &rt,
        unread.as_slice() == "rha: not read: u2 u3\n".as_bytes(),
        "files",
    );
    let cut = said(alloc, &FileAdvice::Cut { file: "u2" });
    be(
        &rt,
        cut.as_slice()
            == "rha: u2: it ends inside a record, or goes on with what is none: fetch or expand it again; what came before is kept\n".as_bytes(),
        "a file that is cut",
    );
}
