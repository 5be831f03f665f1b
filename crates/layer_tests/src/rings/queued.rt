//! A ring beside a plain queue.

use super::{
    PAGE, SHORTEST, append, begun, ends, free, front, is_encoded, is_rest_untouched, is_same,
    largest, pop, settle, waiting_times,
};
use crate::{be, be_at};
use disk_memory::MemErase;
use intake::{IntakeError, Ring};
use page_tx::Tx;
use route_model::{Admission, Moment};
use std::alloc::Global;
use std::collections::VecDeque;

/// Numbers without a pattern (the minimal standard generator of Park and Miller).
#[derive(Drop)]
struct Numbers {
    last: u64,
}

impl Numbers {
    fn below(&mut self, most: u64) -> u64 {
        self.last = self.last.wrapping_mul(48_271) % 2_147_483_647;
        self.last.checked_rem(most).unwrap_or(0)
    }
}

/// A ring, and what waits in it.
#[derive(Drop)]
struct Both {
    ring: Ring,
    plain: VecDeque<Admission>,
    /// The octets of what waits.
    octets: u64,
    /// The octets of what was taken out.
    taken: u64,
    /// Whether more is put than taken, until a batch doesn't fit; then more is taken, until nothing waits.
    fills: bool,
    /// How often it changed from taking to putting.
    drained: u32,
}

/// How many changes: mostly few, one time in 64 up to 43,678, whose encoding has 131,070 octets.
fn count(numbers: &mut Numbers) -> usize {
    let most = match numbers.below(64) {
        0 => 43_679,
        1..=4 => 2_000,
        _ => 8,
    };
    numbers.below(most) as usize
}

/// Up to four admissions.
fn some(alloc: Global, numbers: &mut Numbers, step: u32) -> Option<Vec<Admission>> {
    let mut batch = Vec::new(alloc);
    for _ in 0..numbers.below(5) {
        batch.push(ends(alloc, step, count(numbers))?).ok()?;
    }
    Some(batch)
}

/// The octets that a ring needs for an admission.
fn octets_of(admission: &Admission) -> u64 {
    4u64.saturating_add(admission.encoded_len() as u64)
}

fn octets_of_all(batch: &[Admission]) -> u64 {
    let mut octets = 0u64;
    for admission in batch {
        octets = octets.saturating_add(octets_of(admission));
    }
    octets
}

/// Puts a batch into the plain queue.
fn put_plain(alloc: Global, plain: &mut VecDeque<Admission>, batch: &[Admission]) -> Option<()> {
    for admission in batch {
        plain.push_back(admission.share(alloc).ok()?).ok()?;
    }
    Some(())
}

/// Puts a batch into both, where it fits. Returns whether the ring took it exactly where the plain queue's octets leave
/// room.
fn put(alloc: Global, tx: &mut Tx<MemErase>, both: &mut Both, batch: &[Admission]) -> Option<bool> {
    let octets = octets_of_all(batch);
    let fits = both.octets.saturating_add(octets) <= 147_456;
    match append(alloc, tx, &mut both.ring, batch) {
        Ok(()) => {
            put_plain(alloc, &mut both.plain, batch)?;
            both.octets = both.octets.saturating_add(octets);
            Some(fits)
        }
        Err(IntakeError::IntakeFull) => {
            both.fills = false;
            Some(!fits)
        }
        Err(_) => None,
    }
}

/// Whether the ring's first admission is this one, which is taken out then.
fn is_popped(
    alloc: Global,
    tx: &mut Tx<MemErase>,
    ring: &mut Ring,
    expected: &Admission,
) -> Option<bool> {
    let found = front(alloc, tx, ring).ok()??;
    let same = is_same(alloc, found.admission(), expected);
    Some(pop(tx, ring, found.admission()) && same)
}

/// Takes one out of both. Returns whether it was the same, or both were empty.
fn take(alloc: Global, tx: &mut Tx<MemErase>, both: &mut Both) -> Option<bool> {
    let Some(admission) = both.plain.pop_front() else {
        return Some(matches!(front(alloc, tx, &both.ring), Ok(None)));
    };
    let octets = octets_of(&admission);
    both.octets = both.octets.saturating_sub(octets);
    both.taken = both.taken.saturating_add(octets);
    is_popped(alloc, tx, &mut both.ring, &admission)
}

/// Puts the largest admission.
fn put_largest(alloc: Global, tx: &mut Tx<MemErase>, both: &mut Both, step: u32) -> Option<bool> {
    both.fills = true;
    both.drained = both.drained.saturating_add(1);
    let batch = [largest(alloc, step)?];
    put(alloc, tx, both, &batch)
}

/// Puts a batch or takes one out, the one seven times as often as the other. Where nothing waits any more, the largest
/// admission is put first.
fn step(
    alloc: Global,
    tx: &mut Tx<MemErase>,
    both: &mut Both,
    numbers: &mut Numbers,
    step: u32,
) -> Option<bool> {
    if both.octets == 0 && !both.fills {
        return put_largest(alloc, tx, both, step);
    }
    if (numbers.below(8) == 0) == both.fills {
        return take(alloc, tx, both);
    }
    let batch = some(alloc, numbers, step)?;
    put(alloc, tx, both, &batch)
}

/// Whether the times of all that waits in the ring are those of the plain queue.
fn have_the_times(alloc: Global, tx: &mut Tx<MemErase>, both: &Both) -> bool {
    let Ok(times) = waiting_times(alloc, tx, &both.ring) else {
        return false;
    };
    times.len() == both.plain.len()
        && times
            .iter()
            .zip(both.plain.iter())
            .all(|(time, admission)| *time == admission.time())
}

/// One step, whether the ring is as the plain queue says. At each 500th step the times of all that waits are looked at.
fn is_in_step(
    alloc: Global,
    tx: &mut Tx<MemErase>,
    both: &mut Both,
    numbers: &mut Numbers,
    n: u32,
) -> Option<bool> {
    if !step(alloc, tx, both, numbers, n)?
        || both.ring.used != both.octets
        || both.ring.first != both.taken % 147_456
    {
        return Some(false);
    }
    if n % 500 == 499 {
        settle(tx)?;
        return Some(have_the_times(alloc, tx, both));
    }
    Some(true)
}

/// Nothing in both.
fn both_empty(alloc: Global) -> Both {
    Both {
        ring: Ring::empty(1, 9),
        plain: VecDeque::new(alloc),
        octets: 0,
        taken: 0,
        fills: false,
        drained: 0,
    }
}

#[test]
fn a_ring_is_a_queue(rt: HostRuntime) {
    let alloc = rt.alloc();
    let mut tx = begun(alloc).expect(&rt, "a transaction");
    let mut both = both_empty(alloc);
    let mut numbers = Numbers { last: 20_240_101 };
    for n in 0..10_000u32 {
        let is_right = is_in_step(alloc, &mut tx, &mut both, &mut numbers, n) == Some(true);
        be_at(&rt, is_right, "a step", u64::from(n));
    }
    // It was filled until a batch didn't fit, and emptied, and so went round, again and again.
    be(
        &rt,
        both.drained >= 20 && both.taken / 147_456 >= 40,
        "many rounds",
    );
    be(&rt, is_rest_untouched(&mut tx, 1, 10), "other pages");
}

/// How many octets lie before the end of a ring of one page, from the first that is used on, counted where they are up to 43.
fn count_end(ring: &Ring, ends: &mut [u32; 44]) {
    if let Some(counted) = ends.get_mut(PAGE.saturating_sub(ring.first) as usize) {
        *counted = counted.saturating_add(1);
    }
}

/// A queue of seconds.
#[derive(Drop)]
struct Seconds {
    ring: Ring,
    given: u32,
    taken: u32,
    ends: [u32; 44],
}

/// Puts `most` admissions of 43 octets, but no more than fit and than are left of the whole number, with one second
/// after another.
fn put_seconds(alloc: Global, tx: &mut Tx<MemErase>, queue: &mut Seconds, most: u64) -> Option<()> {
    let fit = free(tx, &queue.ring).unwrap_or(0) / 43;
    let left = 16_384u64.saturating_sub(u64::from(queue.given));
    let mut batch = Vec::new(alloc);
    for _ in 0..most.min(fit).min(left) {
        batch.push(ends(alloc, queue.given, 1)?).ok()?;
        queue.given = queue.given.saturating_add(1);
    }
    append(alloc, tx, &mut queue.ring, &batch).ok()
}

/// Takes one out. Whether it was of the next second; none where there is none.
fn is_second_taken(alloc: Global, tx: &mut Tx<MemErase>, queue: &mut Seconds) -> Option<bool> {
    let found = front(alloc, tx, &queue.ring).ok()??;
    count_end(&queue.ring, &mut queue.ends);
    let is_next = found.admission().time() == Moment::from(queue.taken)
        && found.admission().changes().len() == 1;
    queue.taken = queue.taken.saturating_add(1);
    Some(pop(tx, &mut queue.ring, found.admission()) && is_next)
}

/// Takes up to `most` out. Returns whether they came with one second after another.
fn take_seconds(alloc: Global, tx: &mut Tx<MemErase>, queue: &mut Seconds, most: u64) -> bool {
    for _ in 0..most {
        match is_second_taken(alloc, tx, queue) {
            Some(true) => (),
            Some(false) => return false,
            None => return queue.ring.used == 0,
        }
    }
    true
}

/// Puts up to 400, and takes up to 400 out.
fn is_round(
    alloc: Global,
    tx: &mut Tx<MemErase>,
    queue: &mut Seconds,
    numbers: &mut Numbers,
) -> bool {
    put_seconds(alloc, tx, queue, numbers.below(400)).is_some()
        && take_seconds(alloc, tx, queue, numbers.below(400))
}

#[test]
fn a_queue_wraps_at_each_octet_of_an_entry(rt: HostRuntime) {
    let alloc = rt.alloc();
    let mut tx = begun(alloc).expect(&rt, "a transaction");
    let mut numbers = Numbers { last: 7 };
    let mut queue = Seconds {
        ring: Ring::empty(3, 1),
        given: 0,
        taken: 0,
        ends: [0; 44],
    };
    for n in 0..400u64 {
        be_at(
            &rt,
            is_round(alloc, &mut tx, &mut queue, &mut numbers),
            "a round",
            n,
        );
    }
    // 43 and 16,384 have no common divisor, so 16,384 entries, in 43 rounds, begin once at each place.
    be(
        &rt,
        queue.given == 16_384 && queue.taken == 16_384,
        "16,384 entries",
    );
    be(
        &rt,
        queue.ring.first == 0 && queue.ring.used == 0,
        "none is left",
    );
    be(
        &rt,
        queue.ends.iter().skip(1).all(|counted| *counted == 1),
        "each place once",
    );
}

/// Whether an admission of 18 octets comes out as it was put, where `before` octets lie from its first one up to the
/// end of a ring of one page.
fn is_wrapped(alloc: Global, tx: &mut Tx<MemErase>, before: u64) -> Option<bool> {
    let mut ring = Ring {
        first: PAGE.saturating_sub(before) % PAGE,
        ..Ring::empty(3, 1)
    };
    let batch = [ends(alloc, 7, 0)?];
    append(alloc, tx, &mut ring, &batch).ok()?;
    let found = front(alloc, tx, &ring).ok()??;
    Some(
        is_encoded(alloc, found.admission(), &SHORTEST)
            && pop(tx, &mut ring, found.admission())
            && ring.used == 0
            && ring.first == (PAGE + 18).saturating_sub(before) % PAGE,
    )
}

#[test]
fn an_entry_wraps_at_each_of_its_octets(rt: HostRuntime) {
    let mut tx = begun(rt.alloc()).expect(&rt, "a transaction");
    for before in 0..=18u64 {
        let is_wrapped = is_wrapped(rt.alloc(), &mut tx, before) == Some(true);
        be_at(&rt, is_wrapped, "octets before the end", before);
    }
}

/// Puts an admission with `count` ends of a session.
fn put_ends(
    alloc: Global,
    tx: &mut Tx<MemErase>,
    ring: &mut Ring,
    turn: u32,
    count: usize,
) -> Option<()> {
    let batch = [ends(alloc, turn, count)?];
    append(alloc, tx, ring, &batch).ok()
}

/// Does that, and from the turn 100 on takes out that of 100 turns before. Whether it was that.
fn is_its_turn(
    alloc: Global,
    tx: &mut Tx<MemErase>,
    ring: &mut Ring,
    turn: u32,
    count: usize,
) -> Option<bool> {
    put_ends(alloc, tx, ring, turn, count)?;
    let Some(before) = turn.checked_sub(100) else {
        return Some(true);
    };
    let found = front(alloc, tx, ring).ok()??;
    let same = found.admission().time() == Moment::from(before)
        && found.admission().changes().len() == count;
    Some(pop(tx, ring, found.admission()) && same)
}

#[test]
fn two_rings_side_by_side_are_two_queues(rt: HostRuntime) {
    let alloc = rt.alloc();
    let mut tx = begun(alloc).expect(&rt, "a transaction");
    // An admission takes 220 octets in the one and 223 in the other, so that what is put goes round four times.
    let mut one = Ring::empty(2, 2);
    let mut other = Ring::empty(4, 2);
    for turn in 0..600u32 {
        let first = is_its_turn(alloc, &mut tx, &mut one, turn, 60) == Some(true);
        let second = is_its_turn(alloc, &mut tx, &mut other, turn, 61) == Some(true);
        be_at(&rt, first && second, "a turn", u64::from(turn));
    }
    be(
        &rt,
        one.used == 100 * 220 && other.used == 100 * 223,
        "a hundred wait in each",
    );
    be(&rt, is_rest_untouched(&mut tx, 2, 6), "other pages");
}
