//! Pages laid by hand, read and written, and pages that are none.

use crate::{be, be_at};
use archive_head::{Head, Lane};
use disk_models::Page;
use route_model::{Mark, Moment};
use std::alloc::Global;

/// A page with these numbers of eight octets at these places, and zeros elsewhere.
fn page_of(alloc: Global, numbers: &[(usize, u64)]) -> Option<Page> {
    let mut page = Page::new(alloc).ok()?;
    for (place, number) in numbers {
        if *place > 16_376 {
            return None;
        }
        page.put(*place, &number.to_be_bytes());
    }
    Some(page)
}

/// The head of two collectors: each number differs from the others, and so does each of its octets that isn't zero.
const NUMBERS: [(usize, u64); 19] = [
    (0, 0x0102_0304_0506_0708),
    (8, 0x9_1112_1314_1516),
    (16, 0x2122),
    (24, 0x3132_3334_3536_3738),
    (32, 0x4142_4344_4546_4748),
    (40, 0x5152_5354_5556_5758),
    (48, 1),
    (64, 0x6162_6364_6566_6768),
    (72, 0x7172_7374_7576_7778),
    (80, 0x8_8182_8384_8586),
    (88, 0x9192_9394),
    (96, 0xa1a2_a3a4),
    (104, 0xe1e2_e3e4_e5e6_e7e8),
    (128, 0xb1b2_b3b4_b5b6_b7b8),
    (136, 0xc1c2_c3c4_c5c6_c7c8),
    (144, 4_294_967_296_000_000),
    (152, 0xd1d2_d3d4),
    (160, u64::MAX),
    (168, 0xf1f2_f3f4_f5f6_f7f8),
];

/// What these numbers say of the first collector.
fn is_first(lane: &Lane) -> bool {
    lane.offered == 0x6162_6364_6566_6768
        && lane.admitted == 0x7172_7374_7576_7778
        && lane.mark.number() == 0x8_8182_8384_8586
        && lane.first == 0x9192_9394
        && lane.used == 0xa1a2_a3a4
        && lane.since == 0xe1e2_e3e4_e5e6_e7e8
}

/// What they say of the second.
fn is_second(lane: &Lane) -> bool {
    lane.offered == 0xb1b2_b3b4_b5b6_b7b8
        && lane.admitted == 0xc1c2_c3c4_c5c6_c7c8
        && lane.mark.number() == 4_294_967_296_000_000
        && lane.first == 0xd1d2_d3d4
        && lane.used == u64::MAX
        && lane.since == 0xf1f2_f3f4_f5f6_f7f8
}

/// What they say besides.
fn is_said(head: &Head) -> bool {
    head.applied == 0x0102_0304_0506_0708
        && head.last.number() == 0x9_1112_1314_1516
        && head.begun == 0x2122
        && head.fresh == 0x3132_3334_3536_3738
        && head.block == 0x4142_4344_4546_4748
        && head.root == 0x5152_5354_5556_5758
        && head.lanes.len() == 2
        && is_first(&head.lanes[0])
        && is_second(&head.lanes[1])
}

/// Whether a page is read as a head of `collectors` collectors, at most sixteen.
fn is_head(alloc: Global, page: &Page, collectors: usize) -> Option<bool> {
    if collectors > 16 {
        return None;
    }
    Some(Head::read(alloc, page, collectors).ok()?.is_some())
}

/// Whether a page with one more number at a place is read as a head of two collectors.
fn stands_with(alloc: Global, place: usize, number: u64) -> Option<bool> {
    let mut page = page_of(alloc, &NUMBERS)?;
    if place > 16_376 {
        return None;
    }
    page.put(place, &number.to_be_bytes());
    is_head(alloc, &page, 2)
}

/// Whether the page of these numbers says what they are.
fn is_read(alloc: Global) -> Option<bool> {
    let page = page_of(alloc, &NUMBERS)?;
    let head = Head::read(alloc, &page, 2).ok()??;
    Some(is_said(&head))
}

#[test]
fn each_number_is_read_at_its_place(rt: HostRuntime) {
    be(&rt, is_read(rt.alloc()) == Some(true), "each number");
}

/// What these numbers say of both collectors.
fn lanes(alloc: Global) -> Option<Vec<Lane>> {
    let first = Lane {
        offered: 0x6162_6364_6566_6768,
        admitted: 0x7172_7374_7576_7778,
        mark: Mark::new(0x8_8182_8384_8586)?,
        first: 0x9192_9394,
        used: 0xa1a2_a3a4,
        since: 0xe1e2_e3e4_e5e6_e7e8,
    };
    let second = Lane {
        offered: 0xb1b2_b3b4_b5b6_b7b8,
        admitted: 0xc1c2_c3c4_c5c6_c7c8,
        mark: Mark::new(4_294_967_296_000_000)?,
        first: 0xd1d2_d3d4,
        used: u64::MAX,
        since: 0xf1f2_f3f4_f5f6_f7f8,
    };
    vec![in alloc; first, second].ok()
}

/// The page that is written of what the numbers say.
fn written(alloc: Global) -> Option<Page> {
    let head = Head {
        applied: 0x0102_0304_0506_0708,
        last: Moment::new(0x9_1112_1314_1516)?,
        begun: 0x2122,
        fresh: 0x3132_3334_3536_3738,
        block: 0x4142_4344_4546_4748,
        root: 0x5152_5354_5556_5758,
        lanes: lanes(alloc)?,
    };
    if head.lanes.len() > 16 {
        return None;
    }
    head.write(alloc).ok()
}

#[test]
fn each_number_is_written_at_its_place(rt: HostRuntime) {
    let page = written(rt.alloc()).expect(&rt, "a page");
    let expected = page_of(rt.alloc(), &NUMBERS).expect(&rt, "a page");
    be(&rt, page.octets() == expected.octets(), "each number");
}

#[test]
fn a_page_of_zeros_is_a_head_in_which_nothing_is_kept(rt: HostRuntime) {
    let page = Page::new(rt.alloc()).expect(&rt, "a page");
    for collectors in 0..17usize {
        let is_head = is_head(rt.alloc(), &page, collectors) == Some(true);
        be_at(&rt, is_head, "collectors", collectors as u64);
    }
}

#[test]
fn what_has_no_use_is_zero(rt: HostRuntime) {
    be(&rt, stands_with(rt.alloc(), 56, 0) == Some(true), "a zero");
    for place in [56, 112, 120, 176, 184, 192, 200, 16_376] {
        let is_refused = stands_with(rt.alloc(), place, 1) == Some(false);
        be_at(&rt, is_refused, "a number", place as u64);
    }
}

#[test]
fn collectors_that_are_not_asked_for_are_no_zeros(rt: HostRuntime) {
    let page = page_of(rt.alloc(), &NUMBERS).expect(&rt, "a page");
    for (collectors, expected) in [(0, false), (1, false), (2, true), (3, true)] {
        let is_head = is_head(rt.alloc(), &page, collectors);
        be_at(
            &rt,
            is_head == Some(expected),
            "collectors",
            collectors as u64,
        );
    }
}

/// A number at a place, and whether a head may have it: the last moment, and both marks.
const LIMITS: [(usize, u64, bool); 5] = [
    (8, 4_294_967_295_999_999, true),
    (8, 4_294_967_296_000_000, false),
    (80, 4_294_967_296_000_000, true),
    (80, 4_294_967_296_000_001, false),
    (144, 4_294_967_296_000_001, false),
];

#[test]
fn a_time_and_a_mark_have_their_limits(rt: HostRuntime) {
    for (place, number, expected) in &LIMITS {
        let represents_all = stands_with(rt.alloc(), *place, *number);
        be_at(&rt, represents_all == Some(*expected), "a limit", *number);
    }
}
