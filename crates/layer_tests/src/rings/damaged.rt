//! A ring of which an octet isn't what was put there.

use super::{ONE, PAGE, append, begun, copy_of, ends, front, is_encoded, one, waiting_times};
use crate::{be, be_at};
use disk_memory::MemErase;
use intake::{ReadError, Ring};
use page_tx::{Pages, Tx};
use route_model::Moment;
use std::alloc::Global;

/// What is read: the encoding of the first admission, or the times; or the page that is damaged.
type Reading<T> = Result<T, u64>;

/// The times of the two admissions, in microseconds.
const TIMES: [u64; 2] = [1_704_067_200_000_000, 7_000_000];

/// The octets of the first encoding that may have any value: the time's last six, the collector, the peer's address
/// and AS number, the two AS numbers of the path, the next hop, and the address octet of a prefix of eight bits.
const FREE: [(usize, usize); 8] = [
    (2, 8),
    (10, 11),
    (12, 16),
    (28, 32),
    (41, 45),
    (45, 49),
    (50, 54),
    (64, 65),
];

/// The octets of an admission of ends of a session that may have any value: the time's last six, the collector, and the
/// peer's address and AS number.
const FREE_OF_ENDS: [(usize, usize); 4] = [(2, 8), (10, 11), (12, 16), (28, 32)];

/// Whether an octet of an encoding is in one of these ranges.
fn is_free(ranges: &[(usize, usize)], at: usize) -> bool {
    ranges.iter().any(|(low, high)| *low <= at && at < *high)
}

/// Changes one octet at a place of the ring. Done twice, it is as before.
fn spoil(alloc: Global, tx: &mut Tx<MemErase>, ring: &Ring, place: u64) -> Option<()> {
    let number = ring.low.saturating_add(place / PAGE);
    let mut spoiled = copy_of(alloc, tx, number)?;
    *spoiled.octets_mut().get_mut((place % PAGE) as usize)? ^= 0x81;
    if number >= tx.pool().home_pages() {
        return None;
    }
    tx.set(number, spoiled).ok()
}

/// Whether this is read as the first admission's encoding.
fn is_first(alloc: Global, tx: &mut Tx<MemErase>, ring: &Ring, expected: Reading<&[u8]>) -> bool {
    match front(alloc, tx, ring) {
        Ok(Some(found)) => match expected {
            Ok(encoded) => is_encoded(alloc, found.admission(), encoded),
            Err(_) => false,
        },
        Err(ReadError::BadNode(page)) => expected.err() == Some(page),
        _ => false,
    }
}

/// Whether these two times are read.
fn are_both(times: &[Moment], expected: [u64; 2]) -> bool {
    times.len() == 2 && times[0].number() == expected[0] && times[1].number() == expected[1]
}

/// Whether these are read as the times.
fn are_times(
    alloc: Global,
    tx: &mut Tx<MemErase>,
    ring: &Ring,
    expected: Reading<[u64; 2]>,
) -> bool {
    match waiting_times(alloc, tx, ring) {
        Ok(times) => match expected {
            Ok(two) => are_both(&times, two),
            Err(_) => false,
        },
        Err(ReadError::BadNode(page)) => expected.err() == Some(page),
        Err(_) => false,
    }
}

/// The time with one of its last six octets changed, of which the first is the octet 2 of an encoding.
fn changed(time: u64, octet: usize) -> u64 {
    match octet {
        2 => time ^ 0x8100_0000_0000,
        3 => time ^ 0x0081_0000_0000,
        4 => time ^ 0x8100_0000,
        5 => time ^ 0x0081_0000,
        6 => time ^ 0x0000_8100,
        _ => time ^ 0x0000_0081,
    }
}

/// The times where the octet k of the first entry is changed: of the length or of the encoding after it. The entry
/// begins on this page.
fn first_changed(k: usize, page: u64) -> Reading<[u64; 2]> {
    match k {
        0..=5 => Err(page),
        6..=11 => Ok([changed(TIMES[0], k.saturating_sub(4)), TIMES[1]]),
        _ => Ok(TIMES),
    }
}

/// The times where the octet k of the second entry is changed, which begins on this page.
fn second_changed(k: usize, page: u64) -> Reading<[u64; 2]> {
    match k {
        0..=5 => Err(page),
        6..=11 => Ok([TIMES[0], changed(TIMES[1], k.saturating_sub(4))]),
        _ => Ok(TIMES),
    }
}

/// Two entries from this octet of a ring on, of 71 octets and of 52.
fn laid(alloc: Global, tx: &mut Tx<MemErase>, empty: Ring, first: u64) -> Option<Ring> {
    let batch = [one(alloc)?, ends(alloc, 7, 4)?];
    let mut ring = Ring { first, ..empty };
    append(alloc, tx, &mut ring, &batch).ok()?;
    Some(ring)
}

/// Whether this is read as the first admission's encoding and these as the times.
fn is_read(
    alloc: Global,
    tx: &mut Tx<MemErase>,
    ring: &Ring,
    first: Reading<&[u8]>,
    times: Reading<[u64; 2]>,
) -> bool {
    is_first(alloc, tx, ring, first) && are_times(alloc, tx, ring, times)
}

/// The same where the octet at a place of the ring is changed. It is mended then.
fn is_read_changed(
    alloc: Global,
    tx: &mut Tx<MemErase>,
    ring: &Ring,
    place: u64,
    first: Reading<&[u8]>,
    times: Reading<[u64; 2]>,
) -> bool {
    spoil(alloc, tx, ring, place).is_some()
        && is_read(alloc, tx, ring, first, times)
        && spoil(alloc, tx, ring, place).is_some()
}

/// The first encoding where the octet k of its entry is changed, the length's first of all.
fn encoded_changed(k: usize) -> [u8; 67] {
    let mut encoded = ONE;
    if let Some(octet) = encoded.get_mut(k.wrapping_sub(4)) {
        *octet ^= 0x81;
    }
    encoded
}

/// Whether what is read is as expected where the octet k of the first entry is changed, which begins on page 4.
fn is_first_entry_read(alloc: Global, tx: &mut Tx<MemErase>, ring: &Ring, k: usize) -> bool {
    let encoded = encoded_changed(k);
    let first = if k >= 4 && is_free(&FREE, k - 4) {
        Ok(encoded.as_slice())
    } else {
        Err(4)
    };
    let place = ring.first.saturating_add(k as u64);
    is_read_changed(alloc, tx, ring, place, first, first_changed(k, 4))
}

/// The same of the second entry, which begins on page 5.
fn is_second_entry_read(alloc: Global, tx: &mut Tx<MemErase>, ring: &Ring, k: usize) -> bool {
    let place = ring.first.saturating_add(71).saturating_add(k as u64);
    is_read_changed(alloc, tx, ring, place, Ok(&ONE), second_changed(k, 5))
}

#[test]
fn a_changed_octet_is_reported_with_the_page_on_which_its_entry_begins(rt: HostRuntime) {
    let alloc = rt.alloc();
    let mut tx = begun(alloc).expect(&rt, "a transaction");
    // The first entry begins on the page 4 and ends on the page 5, on which the second begins.
    let ring = laid(alloc, &mut tx, Ring::empty(3, 3), 2 * PAGE - 40).expect(&rt, "a ring");
    be(&rt, ring.used == 71 + 52, "two entries");
    be(
        &rt,
        is_read(alloc, &mut tx, &ring, Ok(&ONE), Ok(TIMES)),
        "as they were put",
    );
    for k in 0..71usize {
        be_at(
            &rt,
            is_first_entry_read(alloc, &mut tx, &ring, k),
            "the first entry",
            k as u64,
        );
    }
    for k in 0..52usize {
        be_at(
            &rt,
            is_second_entry_read(alloc, &mut tx, &ring, k),
            "the second entry",
            k as u64,
        );
    }
}

#[test]
fn octets_that_are_not_used_change_nothing(rt: HostRuntime) {
    let alloc = rt.alloc();
    let mut tx = begun(alloc).expect(&rt, "a transaction");
    // The second entry wraps, and ends before the place 39.
    let ring = laid(alloc, &mut tx, Ring::empty(3, 1), 16_300).expect(&rt, "a ring");
    for place in 39..16_300u64 {
        let is_read = is_read_changed(alloc, &mut tx, &ring, place, Ok(&ONE), Ok(TIMES));
        be_at(&rt, is_read, "an octet that isn't used", place);
    }
}

/// Whether exactly this is read of the times of a ring full of entries of 1,024 octets, at the seconds 0 to 15, where
/// one octet is changed: this entry has this time; or this page is damaged.
fn are_seconds(
    alloc: Global,
    tx: &mut Tx<MemErase>,
    ring: &Ring,
    expected: Reading<(u32, u64)>,
) -> bool {
    match waiting_times(alloc, tx, ring) {
        Ok(times) => match expected {
            Ok((other, time)) => are_but(&times, other, time),
            Err(_) => false,
        },
        Err(ReadError::BadNode(page)) => expected.err() == Some(page),
        Err(_) => false,
    }
}

/// The microseconds of a number of seconds.
fn micros(seconds: u32) -> u64 {
    Moment::from(seconds).number()
}

/// Whether these are the seconds 0 to 15, but for one of them, which is this many microseconds.
fn are_but(times: &[Moment], other: u32, time: u64) -> bool {
    let mut n = 0u32;
    for found in times {
        let expected = if n == other { time } else { micros(n) };
        if found.number() != expected {
            return false;
        }
        n = n.saturating_add(1);
    }
    n == 16
}

/// The times where the octet k of all is changed.
fn time_changed(k: u32) -> Reading<(u32, u64)> {
    let entry = k / 1024;
    let octet = (k % 1024) as usize;
    match octet {
        0..=5 => Err(3),
        6..=11 => Ok((entry, changed(micros(entry), octet.saturating_sub(4)))),
        _ => Ok((entry, micros(entry))),
    }
}

/// Whether the first of a full ring is read as expected where the octet k of all is changed, and this is its encoding.
fn is_first_of_full(
    alloc: Global,
    tx: &mut Tx<MemErase>,
    ring: &Ring,
    encoded: &mut [u8],
    k: usize,
) -> bool {
    if k >= 1024 {
        return is_first(alloc, tx, ring, Ok(&*encoded));
    }
    if k < 4 || !is_free(&FREE_OF_ENDS, k - 4) {
        return is_first(alloc, tx, ring, Err(3));
    }
    flip(encoded, k - 4);
    let is_read = is_first(alloc, tx, ring, Ok(&*encoded));
    flip(encoded, k - 4);
    is_read
}

/// Changes an octet. Done twice, it is as before.
fn flip(octets: &mut [u8], at: usize) {
    if let Some(octet) = octets.get_mut(at) {
        *octet ^= 0x81;
    }
}

/// A ring of one page, all of whose octets are used: by 16 admissions of 328 ends of a session, of 1,020 octets each. The
/// last one wraps within its length.
fn full(alloc: Global, tx: &mut Tx<MemErase>) -> Option<Ring> {
    let mut ring = Ring::empty(3, 1);
    ring.first = 1022;
    let mut batch = Vec::new(alloc);
    for second in 0..16u32 {
        batch.push(ends(alloc, second, 328)?).ok()?;
    }
    append(alloc, tx, &mut ring, &batch).ok()?;
    Some(ring)
}

/// Whether what is read of a full ring is as expected where the octet k of all is changed. It is mended then.
fn is_full_read(
    alloc: Global,
    tx: &mut Tx<MemErase>,
    ring: &Ring,
    encoded: &mut [u8],
    k: u32,
) -> bool {
    let place = ring.first.saturating_add(u64::from(k)) % PAGE;
    spoil(alloc, tx, ring, place).is_some()
        && is_first_of_full(alloc, tx, ring, encoded, k as usize)
        && are_seconds(alloc, tx, ring, time_changed(k))
        && spoil(alloc, tx, ring, place).is_some()
}

/// The encoding of the first admission of a full ring.
fn encoding(alloc: Global) -> Option<Vec<u8>> {
    ends(alloc, 0, 328)?.encode(alloc).ok()
}

#[test]
fn each_octet_of_a_full_ring_is_read_or_reported(rt: HostRuntime) {
    let alloc = rt.alloc();
    let mut encoded = encoding(alloc).expect(&rt, "a spelling");
    let mut tx = begun(alloc).expect(&rt, "a transaction");
    let ring = full(alloc, &mut tx).expect(&rt, "a ring");
    be(&rt, ring.used == PAGE, "all octets are used");
    for k in 0..16_384u32 {
        let is_read = is_full_read(alloc, &mut tx, &ring, &mut encoded, k);
        be_at(&rt, is_read, "an octet", u64::from(k));
    }
}
