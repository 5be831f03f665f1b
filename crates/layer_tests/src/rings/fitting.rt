//! How much a ring of nine pages takes.

use super::{
    HOMES, PAGE, SHORTEST, append, begun, begun_with, ends, fill, free, front, is_rest_untouched,
    is_same, largest, many, octets_of, one, pop, waiting_times,
};
use crate::be;
use disk_memory::MemErase;
use intake::{IntakeError, Ring};
use page_tx::{PageError, Pages, Tx};
use route_model::{Admission, Moment};
use std::alloc::Global;

/// Appends `count` admissions of 71 octets. Returns whether `used` octets are used then, and images of `images` pages
/// are held.
fn fills(
    alloc: Global,
    tx: &mut Tx<MemErase>,
    ring: &mut Ring,
    count: usize,
    used: u64,
    images: usize,
) -> Option<bool> {
    let batch = many(alloc, count)?;
    append(alloc, tx, ring, &batch).ok()?;
    Some(ring.used == used && tx.images() == images)
}

/// Appends an admission of one announcement.
fn append_one(
    alloc: Global,
    tx: &mut Tx<MemErase>,
    ring: &mut Ring,
) -> Option<Result<(), IntakeError>> {
    let batch = [one(alloc)?];
    Some(append(alloc, tx, ring, &batch))
}

/// Whether one admission more is refused, and nothing is changed by that.
fn is_full(alloc: Global, tx: &mut Tx<MemErase>, ring: &mut Ring) -> Option<bool> {
    let before = *ring;
    let images = tx.images();
    let octets = octets_of(alloc, tx, 0, HOMES)?;
    let refused = append_one(alloc, tx, ring)? == Err(IntakeError::IntakeFull);
    Some(
        refused
            && *ring == before
            && tx.images() == images
            && octets_of(alloc, tx, 0, HOMES)?.as_slice() == octets.as_slice(),
    )
}

/// Appends admissions of 18 octets at the seconds 7 to 9.
fn append_last(alloc: Global, tx: &mut Tx<MemErase>, ring: &mut Ring) -> Option<()> {
    let last = [ends(alloc, 7, 0)?, ends(alloc, 8, 0)?, ends(alloc, 9, 0)?];
    append(alloc, tx, ring, &last).ok()
}

/// Whether 2,079 times wait: of what was there before this is the last one, and the second 9 is the last of all.
fn are_times(alloc: Global, tx: &mut Tx<MemErase>, ring: &Ring, before: u32) -> bool {
    let Ok(times) = waiting_times(alloc, tx, ring) else {
        return false;
    };
    times.len() == 2079
        && times.get(2075) == Some(&Moment::from(before))
        && times.last() == Some(&Moment::from(9))
}

#[test]
fn a_ring_takes_what_fits_and_no_more(rt: HostRuntime) {
    let alloc = rt.alloc();
    let mut tx = begun(alloc).expect(&rt, "a transaction");
    let mut ring = Ring::empty(1, 9);
    // An admission takes 71 octets, so 2,076 fit into 147,456, and 60 octets are left.
    let first = fills(alloc, &mut tx, &mut ring, 1000, 71_000, 5);
    let second = fills(alloc, &mut tx, &mut ring, 1000, 142_000, 9);
    let third = fills(alloc, &mut tx, &mut ring, 76, 147_396, 9);
    be(
        &rt,
        [first, second, third] == [Some(true); 3],
        "2,076 admissions",
    );
    be(&rt, free(&tx, &ring) == Some(60), "60 octets are free");
    be(
        &rt,
        is_full(alloc, &mut tx, &mut ring) == Some(true),
        "one more",
    );
    be(
        &rt,
        append_last(alloc, &mut tx, &mut ring).is_some(),
        "three short ones",
    );
    be(
        &rt,
        are_times(alloc, &mut tx, &ring, 1_704_067_200),
        "the times",
    );
    be(&rt, is_rest_untouched(&mut tx, 1, 10), "other pages");
}

/// Whether this admission comes out first.
fn comes_out(
    alloc: Global,
    tx: &mut Tx<MemErase>,
    ring: &mut Ring,
    admission: &Admission,
) -> Option<bool> {
    let found = front(alloc, tx, ring).ok()??;
    let same = is_same(alloc, found.admission(), admission);
    Some(pop(tx, ring, found.admission()) && same)
}

/// Whether three admissions come out as they were put.
fn come_out(alloc: Global, tx: &mut Tx<MemErase>, ring: &mut Ring) -> Option<bool> {
    let batch = [one(alloc)?, ends(alloc, 7, 1)?, ends(alloc, 8, 0)?];
    append(alloc, tx, ring, &batch).ok()?;
    for admission in &batch {
        if !comes_out(alloc, tx, ring, admission)? {
            return Some(false);
        }
    }
    Some(true)
}

#[test]
fn what_was_put_comes_out_in_its_order(rt: HostRuntime) {
    let alloc = rt.alloc();
    let mut tx = begun(alloc).expect(&rt, "a transaction");
    let mut ring = Ring::empty(1, 9);
    be(
        &rt,
        come_out(alloc, &mut tx, &mut ring) == Some(true),
        "three come out",
    );
    let emptied = Ring {
        first: 71 + 43 + 18,
        ..Ring::empty(1, 9)
    };
    be(&rt, ring == emptied, "the ring is empty");
    let is_none = matches!(front(alloc, &mut tx, &ring), Ok(None));
    be(&rt, is_none, "no more come out");
}

/// Appends an admission without changes.
fn append_shortest(alloc: Global, tx: &mut Tx<MemErase>, ring: &mut Ring) -> Option<()> {
    let batch = [ends(alloc, 7, 0)?];
    append(alloc, tx, ring, &batch).ok()
}

#[test]
fn an_entry_is_laid_from_the_last_octets_to_the_first(rt: HostRuntime) {
    let alloc = rt.alloc();
    let mut tx = begun(alloc).expect(&rt, "a transaction");
    let mut ring = Ring {
        first: PAGE - 4,
        ..Ring::empty(3, 1)
    };
    be(
        &rt,
        append_shortest(alloc, &mut tx, &mut ring).is_some(),
        "an entry",
    );
    let octets = octets_of(alloc, &mut tx, 3, 1).expect(&rt, "a page");
    let octets = octets.as_slice();
    be(
        &rt,
        octets.get(16_380..) == Some(&[0, 0, 0, 14]),
        "its length comes first",
    );
    be(
        &rt,
        octets.get(..14) == Some(&SHORTEST),
        "its spelling goes on at the first octet",
    );
    let rest = octets.get(14..16_380).unwrap_or(&[]);
    be(
        &rt,
        rest.len() == 16_366 && rest.iter().all(|octet| *octet == 90),
        "the rest",
    );
}

/// A ring of nine pages from page 1 on, to which nothing was given.
const NINE: Ring = Ring {
    low: 1,
    count: 9,
    first: 0,
    used: 0,
};

/// Numbers that are no ring of eleven pages.
const NO_RINGS: [Ring; 5] = [
    Ring { low: 11, ..NINE },
    Ring {
        low: u64::MAX,
        ..NINE
    },
    Ring { count: 0, ..NINE },
    Ring {
        first: 147_456,
        ..NINE
    },
    Ring {
        used: 147_457,
        ..NINE
    },
];

#[test]
fn numbers_that_are_no_ring_are_reported(rt: HostRuntime) {
    let ring = Ring::empty(1, 9);
    be(
        &rt,
        ring == NINE && ring.is_within(10) && !ring.is_within(9),
        "a ring of ten pages",
    );
    for other in &NO_RINGS {
        be(&rt, !other.is_within(11), "no ring");
    }
    let most = Ring {
        low: 0,
        count: 65_535,
        ..ring
    };
    be(&rt, most.is_within(70_000), "the longest ring");
    let more = Ring {
        count: 65_536,
        ..most
    };
    be(&rt, !more.is_within(70_000), "a longer one");
}

#[test]
fn no_more_is_taken_than_is_used(rt: HostRuntime) {
    let shortest = ends(rt.alloc(), 7, 0).expect(&rt, "an admission");
    let just = Ring { used: 18, ..NINE };
    let less = Ring { used: 17, ..NINE };
    be(
        &rt,
        just.can_pop(&shortest) && !less.can_pop(&shortest),
        "18 octets and 17",
    );
}

/// Holds images of exactly `count` pages, after a ring of forty.
fn hold(alloc: Global, tx: &mut Tx<MemErase>, count: u64) -> Option<()> {
    tx.commit().ok()?;
    for n in 40..count.saturating_add(40) {
        fill(alloc, tx, n)?;
    }
    Some(())
}

/// Appends admissions of 131,076 and 131,068 octets, which are 262,144.
fn append_most(
    alloc: Global,
    tx: &mut Tx<MemErase>,
    ring: &mut Ring,
) -> Option<Result<(), IntakeError>> {
    let batch = [largest(alloc, 7)?, ends(alloc, 8, 43_676)?];
    Some(append(alloc, tx, ring, &batch))
}

/// Whether a batch at its limit is refused where images of fifteen pages are held, and nothing is changed.
fn is_refused(alloc: Global, tx: &mut Tx<MemErase>, ring: &mut Ring) -> Option<bool> {
    let begins = *ring;
    hold(alloc, tx, 15)?;
    let refused = append_most(alloc, tx, ring)?;
    Some(
        refused == Err(IntakeError::Pages(PageError::TooManyImages))
            && *ring == begins
            && tx.images() == 15,
    )
}

/// Whether it is taken where images of fourteen pages are held.
fn is_taken(alloc: Global, tx: &mut Tx<MemErase>, ring: &mut Ring) -> Option<bool> {
    hold(alloc, tx, 14)?;
    append_most(alloc, tx, ring)?.ok()?;
    let times = waiting_times(alloc, tx, ring).ok()?;
    Some(
        ring.used == 262_144
            && tx.images() == 31
            && times.as_slice() == [Moment::from(7), Moment::from(8)].as_slice(),
    )
}

#[test]
fn a_batch_at_its_limit_takes_images_of_seventeen_pages(rt: HostRuntime) {
    let alloc = rt.alloc();
    // It begins with the last octet of a page.
    let mut ring = Ring {
        first: PAGE - 1,
        ..Ring::empty(0, 40)
    };
    let mut tx = begun_with(alloc, 60).expect(&rt, "a transaction");
    be(
        &rt,
        is_refused(alloc, &mut tx, &mut ring) == Some(true),
        "images of 32 pages",
    );
    be(
        &rt,
        is_rest_untouched(&mut tx, 0, 0),
        "all pages are as they were",
    );
    be(
        &rt,
        is_taken(alloc, &mut tx, &mut ring) == Some(true),
        "images of 31 pages",
    );
    be(&rt, is_rest_untouched(&mut tx, 0, 17), "other pages");
}
