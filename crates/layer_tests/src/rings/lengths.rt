//! An entry that has another length than what was put there.

use super::{PAGE, append, begun, copy_of, ends, front, many, one, waiting_times};
use crate::{be, be_at};
use disk_memory::MemErase;
use intake::{ReadError, Ring};
use page_tx::{Pages, Tx};
use std::alloc::Global;

/// A ring of three pages from page 3 on, of which the first entry has another length:
/// its first octet that is used, the length, the damaged page where the first admission is asked for, and the times.
struct Case(u64, u32, u64, Times);

/// What is read of the times.
#[derive(Clone, Copy, PartialEq)]
enum Times {
    /// This many.
    Read(usize),
    /// None, since this page is damaged.
    Damaged(u64),
    /// None, since a page wasn't read.
    Failed,
}

/// An entry of 71 octets and one of 52 stand there. From 49,142 on the first wraps after its length and 6 octets of its
/// time, and from 49,150 on within its length. By a length of 13 the next entry would begin 17 octets later, where the
/// octets of the encoding from the 13th on are no length that fits; by one of 119 the first entry would be all there
/// is.
const CASES: [Case; 18] = [
    Case(100, 0, 3, Times::Damaged(3)),
    Case(100, 7, 3, Times::Damaged(3)),
    Case(100, 13, 3, Times::Damaged(3)),
    Case(100, 119, 3, Times::Read(1)),
    Case(100, 120, 3, Times::Damaged(3)),
    Case(100, 131_073, 3, Times::Damaged(3)),
    Case(49_142, 0, 5, Times::Damaged(5)),
    Case(49_142, 7, 5, Times::Damaged(5)),
    Case(49_142, 13, 5, Times::Damaged(3)),
    Case(49_142, 119, 5, Times::Read(1)),
    Case(49_142, 120, 5, Times::Damaged(5)),
    Case(49_142, 131_073, 5, Times::Damaged(5)),
    Case(49_150, 0, 5, Times::Damaged(5)),
    Case(49_150, 7, 5, Times::Damaged(5)),
    Case(49_150, 13, 5, Times::Damaged(3)),
    Case(49_150, 119, 5, Times::Read(1)),
    Case(49_150, 120, 5, Times::Damaged(5)),
    Case(49_150, 131_073, 5, Times::Damaged(5)),
];

/// Puts an octet at a place of the ring.
fn put_octet(
    alloc: Global,
    tx: &mut Tx<MemErase>,
    ring: &Ring,
    place: u64,
    octet: u8,
) -> Option<()> {
    let number = ring.low.saturating_add(place / PAGE);
    let mut changed = copy_of(alloc, tx, number)?;
    *changed.octets_mut().get_mut((place % PAGE) as usize)? = octet;
    if number >= tx.pool().home_pages() {
        return None;
    }
    tx.set(number, changed).ok()
}

/// Puts a length in place of the first entry's.
fn put_length(alloc: Global, tx: &mut Tx<MemErase>, ring: &Ring, length: u32) -> Option<()> {
    let size = PAGE.saturating_mul(ring.count);
    let mut place = ring.first;
    for octet in length.to_be_bytes() {
        put_octet(alloc, tx, ring, place.checked_rem(size).unwrap_or(0), octet)?;
        place = place.saturating_add(1);
    }
    Some(())
}

/// The damaged page where the first admission is asked for, none where one is read.
fn page_of_first(alloc: Global, tx: &mut Tx<MemErase>, ring: &Ring) -> Option<Option<u64>> {
    match front(alloc, tx, ring) {
        Ok(_) => Some(None),
        Err(ReadError::BadNode(page)) => Some(Some(page)),
        Err(_) => None,
    }
}

fn times_of(alloc: Global, tx: &mut Tx<MemErase>, ring: &Ring) -> Times {
    match waiting_times(alloc, tx, ring) {
        Ok(times) => Times::Read(times.len()),
        Err(ReadError::BadNode(page)) => Times::Damaged(page),
        Err(_) => Times::Failed,
    }
}

/// Whether this page is damaged where the first admission is asked for, and this is read of the times.
fn is_read(
    alloc: Global,
    tx: &mut Tx<MemErase>,
    ring: &Ring,
    page: Option<u64>,
    times: Times,
) -> bool {
    page_of_first(alloc, tx, ring) == Some(page) && times_of(alloc, tx, ring) == times
}

/// The same where the first entry has this length.
fn is_read_with(
    alloc: Global,
    tx: &mut Tx<MemErase>,
    ring: &Ring,
    length: u32,
    page: u64,
    times: Times,
) -> bool {
    put_length(alloc, tx, ring, length).is_some() && is_read(alloc, tx, ring, Some(page), times)
}

/// A ring of three pages from page 3 on, with an entry of 71 octets from its first used octet on, and one of 52.
fn laid(alloc: Global, tx: &mut Tx<MemErase>, first: u64) -> Option<Ring> {
    let batch = [one(alloc)?, ends(alloc, 7, 4)?];
    let mut ring = Ring {
        first,
        ..Ring::empty(3, 3)
    };
    append(alloc, tx, &mut ring, &batch).ok()?;
    Some(ring)
}

/// Whether a case is read as it has to be, and before its length is changed as it was put.
fn is_case(alloc: Global, tx: &mut Tx<MemErase>, case: &Case) -> Option<bool> {
    let Case(first, length, page, times) = case;
    let ring = laid(alloc, tx, *first)?;
    let is_whole = is_read(alloc, tx, &ring, None, Times::Read(2));
    let is_damaged = is_read_with(alloc, tx, &ring, *length, *page, *times);
    Some(is_whole && is_damaged)
}

#[test]
fn a_wrong_length_is_reported_with_its_page(rt: HostRuntime) {
    let mut tx = begun(rt.alloc()).expect(&rt, "a transaction");
    for (n, case) in CASES.iter().enumerate() {
        let is_right = is_case(rt.alloc(), &mut tx, case) == Some(true);
        be_at(&rt, is_right, "a case", n as u64);
    }
}

/// Puts 2,000 admissions into a ring of nine pages.
fn put_many(alloc: Global, tx: &mut Tx<MemErase>, ring: &mut Ring) -> Option<()> {
    let batch = many(alloc, 2000)?;
    append(alloc, tx, ring, &batch).ok()
}

#[test]
fn a_length_that_no_admission_has_is_reported_where_it_stands(rt: HostRuntime) {
    let alloc = rt.alloc();
    let mut tx = begun(alloc).expect(&rt, "a transaction");
    let mut ring = Ring::empty(1, 9);
    be(
        &rt,
        put_many(alloc, &mut tx, &mut ring).is_some(),
        "2,000 admissions",
    );
    // By the greatest length the next entry would begin at the place 131,076, on the ninth page, 10 octets after the first
    // of an entry, where no time stands.
    let greatest = is_read_with(alloc, &mut tx, &ring, 131_072, 1, Times::Damaged(9));
    be(&rt, greatest, "the greatest length");
    let greater = is_read_with(alloc, &mut tx, &ring, 131_073, 1, Times::Damaged(1));
    be(&rt, greater, "a greater one");
}

#[test]
fn octets_without_room_for_a_length_or_a_time_are_reported(rt: HostRuntime) {
    let mut tx = begun(rt.alloc()).expect(&rt, "a transaction");
    // The used octets begin with the last two of page 4. From four on they begin with a length that is too large.
    for used in 1..12u64 {
        let ring = Ring {
            first: 2 * PAGE - 2,
            used,
            ..Ring::empty(3, 3)
        };
        let is_reported = is_read(rt.alloc(), &mut tx, &ring, Some(4), Times::Damaged(4));
        be_at(&rt, is_reported, "used octets", used);
    }
}

/// Whether page 5 is damaged for the first admission and page 3 for the times where the first entry has this length.
fn is_reported_later(alloc: Global, tx: &mut Tx<MemErase>, length: u32) -> Option<bool> {
    let ring = laid(alloc, tx, 49_142)?;
    Some(is_read_with(alloc, tx, &ring, length, 5, Times::Damaged(3)))
}

#[test]
fn octets_after_an_entry_without_room_for_a_time_are_reported(rt: HostRuntime) {
    let mut tx = begun(rt.alloc()).expect(&rt, "a transaction");
    // Of 123 used octets 11 to 1 are left after the first entry, which begins with the last ten of page 5. They begin on
    // page 3.
    for length in 108..119u32 {
        let is_reported = is_reported_later(rt.alloc(), &mut tx, length) == Some(true);
        be_at(&rt, is_reported, "a length", u64::from(length));
    }
}
