//! Calls that change a transaction's pages: the head's page, a batch in its ring, and what the head says.

use super::{begun, given, has_lanes, holds, lane, passed, put, sifted, start};
use crate::rings::{ONE, SHORTEST};
use crate::{be, be_at};
use archive_head::{Head, Lane};
use archive_pages::mark_head;
use disk_memory::MemErase;
use intake::IntakeError;
use page_tx::Tx;
use route_model::{Mark, Moment};
use std::alloc::Global;

/// 0x00060dd710212000 microseconds are this number of seconds, the time of the admission that is laid by hand.
const TIME: u32 = 1_704_067_200;

#[test]
fn the_head_is_laid_over_page_0(rt: HostRuntime) {
    let mut tx = begun(rt.alloc()).expect(&rt, "a transaction");
    let mut head = start(rt.alloc()).expect(&rt, "a head");
    head.applied = 0x0102_0304;
    head.last = Moment::from(TIME);
    head.root = 19;
    be(&rt, put(rt.alloc(), &mut tx, &head), "a head is laid");
    let counts = [1, 2, 3, 4, 0, 6, 0x0d, 0xd7, 0x10, 0x21, 0x20, 0];
    be(
        &rt,
        holds(&mut tx, 0, 4, &counts),
        "what was applied, and the last moment",
    );
    be(
        &rt,
        holds(&mut tx, 0, 40, &[0, 0, 0, 0, 0, 0, 0, 19]),
        "the root",
    );
    be(
        &rt,
        holds(&mut tx, 1, 0, &[90, 90, 90, 90]),
        "the next page",
    );
}

/// Gives both of two admissions to the second collector, of three that were offered. Whether that was done.
fn gives_two(alloc: Global, tx: &mut Tx<MemErase>, head: &mut Head) -> Option<bool> {
    let batch = sifted(alloc, &[&ONE, &ONE], 3, TIME)?;
    Some(given(alloc, tx, head, 1, &batch)? == Ok(()))
}

#[test]
fn a_batch_goes_into_its_collectors_ring(rt: HostRuntime) {
    let mut tx = begun(rt.alloc()).expect(&rt, "a transaction");
    let mut head = start(rt.alloc()).expect(&rt, "a head");
    be(
        &rt,
        gives_two(rt.alloc(), &mut tx, &mut head) == Some(true),
        "a batch",
    );
    let expected = Lane {
        offered: 3,
        admitted: 2,
        mark: Mark::at(Moment::from(TIME)),
        first: 0,
        used: 142,
        since: 0,
    };
    be(
        &rt,
        has_lanes(&head, lane(), expected),
        "what is kept of the second collector",
    );
    // The second ring begins on page 10: an entry is a length in four octets, and the encoding.
    be(&rt, holds(&mut tx, 10, 0, &[0, 0, 0, 67]), "a length");
    be(
        &rt,
        holds(&mut tx, 10, 4, &ONE) && holds(&mut tx, 10, 75, &ONE),
        "two spellings",
    );
    for page in [0, 1, 9, 11, 18, 19] {
        be_at(
            &rt,
            holds(&mut tx, page, 0, &[90, 90, 90, 90]),
            "another page",
            page,
        );
    }
}

/// What is kept of a collector whose ring has 70 octets free of 147,456.
fn near() -> Lane {
    let mut near = lane();
    near.used = 147_386;
    near
}

/// Gives an admission of 71 octets to a collector. None where that can't be.
fn give_one(
    alloc: Global,
    tx: &mut Tx<MemErase>,
    head: &mut Head,
    collector: u8,
) -> Option<Result<(), IntakeError>> {
    let one = sifted(alloc, &[&ONE], 1, TIME)?;
    given(alloc, tx, head, collector, &one)
}

#[test]
fn a_full_ring_takes_no_batch(rt: HostRuntime) {
    let alloc = rt.alloc();
    let mut tx = begun(alloc).expect(&rt, "a transaction");
    let mut head = start(alloc).expect(&rt, "a head");
    if let Some(first) = head.lanes.first_mut() {
        *first = near();
    }
    let refused = give_one(alloc, &mut tx, &mut head, 0);
    be(
        &rt,
        refused == Some(Err(IntakeError::IntakeFull)),
        "one octet too many",
    );
    be(&rt, has_lanes(&head, near(), lane()), "nothing changed");
    be(
        &rt,
        give_one(alloc, &mut tx, &mut head, 1) == Some(Ok(())),
        "the other ring",
    );
}

#[test]
fn a_mark_is_one_collectors(rt: HostRuntime) {
    let mut head = start(rt.alloc()).expect(&rt, "a head");
    let mark = Mark::at(Moment::from(9u32));
    if head.lanes.len() == 2 {
        mark_head(&mut head, 1, mark);
    }
    be(
        &rt,
        has_lanes(&head, lane(), Lane { mark, ..lane() }),
        "the second's mark",
    );
}

/// Gives the first collector an admission with a change, and one without. Whether that was done.
fn gives_both(alloc: Global, tx: &mut Tx<MemErase>, head: &mut Head) -> Option<bool> {
    let batch = sifted(alloc, &[&ONE, &SHORTEST], 2, TIME)?;
    Some(given(alloc, tx, head, 0, &batch)? == Ok(()))
}

/// Whether one admission was applied, and the tree is at the places that it was passed with.
fn is_applied(head: &Head) -> bool {
    head.applied == 1
        && head.last == Moment::from(TIME)
        && head.begun == 0
        && head.fresh == 21
        && head.block == 5
        && head.root == 20
}

/// What is kept of a collector of two admissions, of which `used` octets are left from `first` on.
fn left(first: u64, used: u64) -> Lane {
    Lane {
        offered: 2,
        admitted: 2,
        mark: Mark::at(Moment::from(TIME)),
        first,
        used,
        since: 0,
    }
}

#[test]
fn an_admission_leaves_with_its_last_change(rt: HostRuntime) {
    let alloc = rt.alloc();
    let mut tx = begun(alloc).expect(&rt, "a transaction");
    let mut head = start(alloc).expect(&rt, "a head");
    be(
        &rt,
        gives_both(alloc, &mut tx, &mut head) == Some(true),
        "two admissions",
    );
    let is_passed = passed(alloc, &mut head, 0, &ONE) == Some(true);
    be(
        &rt,
        is_passed && is_applied(&head),
        "its last change is passed",
    );
    be(&rt, has_lanes(&head, left(71, 18), lane()), "one is left");
    be(
        &rt,
        passed(alloc, &mut head, 0, &SHORTEST) == Some(true),
        "one without changes",
    );
    be(
        &rt,
        is_applied(&head) && has_lanes(&head, left(89, 0), lane()),
        "none is left",
    );
    be(
        &rt,
        passed(alloc, &mut head, 0, &ONE) == None,
        "nothing waits any more",
    );
}
