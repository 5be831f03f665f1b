//! A ring of which a page isn't read, since the disk fails.

use super::{ONE, PAGE, append, begun_failing, front, is_encoded, one, settle};
use crate::{be, be_at};
use disk_memory::MemErase;
use intake::{IntakeError, ReadError, Ring};
use page_tx::{PageError, Pages, Tx};
use route_model::Admission;
use std::alloc::Global;

/// Asks for four other pages, as many as are kept, so that those of the ring are read from the disk. A read that fails
/// here is asked for again.
fn leave(tx: &mut Tx<MemErase>) -> Option<()> {
    for n in 6..10u64 {
        if n >= tx.pool().home_pages() {
            return None;
        }
        if tx.fetch(n).is_err() {
            tx.fetch(n).ok()?;
        }
    }
    Some(())
}

/// Whether the first admission is the one that was put.
fn is_one(alloc: Global, tx: &mut Tx<MemErase>, ring: &Ring) -> bool {
    match front(alloc, tx, ring) {
        Ok(Some(found)) => is_encoded(alloc, found.admission(), &ONE),
        _ => false,
    }
}

/// What became of a call.
#[derive(Clone, Copy, PartialEq)]
enum Outcome {
    Done,
    /// It was refused for the failure, with nothing changed, and done then.
    Refused,
    Wrong,
}

/// Appends a batch, again where it is refused.
fn append_again(
    alloc: Global,
    tx: &mut Tx<MemErase>,
    ring: &mut Ring,
    batch: &[Admission],
) -> Outcome {
    let begins = *ring;
    let Err(refusal) = append(alloc, tx, ring, batch) else {
        return Outcome::Done;
    };
    let is_fault = refusal == IntakeError::Pages(PageError::Fault);
    let is_same = *ring == begins && tx.images() == 0;
    if is_fault && is_same && append(alloc, tx, ring, batch).is_ok() {
        Outcome::Refused
    } else {
        Outcome::Wrong
    }
}

/// Appends an admission of 71 octets, again where it is refused.
fn append_one(alloc: Global, tx: &mut Tx<MemErase>, ring: &mut Ring) -> Option<Outcome> {
    let batch = [one(alloc)?];
    Some(append_again(alloc, tx, ring, &batch))
}

/// Asks for the first admission, again where that is refused.
fn look_again(alloc: Global, tx: &mut Tx<MemErase>, ring: &Ring) -> Outcome {
    let reported = match front(alloc, tx, ring) {
        Ok(_) => Outcome::Done,
        Err(ReadError::Pages(PageError::Fault)) => Outcome::Refused,
        Err(_) => Outcome::Wrong,
    };
    if is_one(alloc, tx, ring) {
        reported
    } else {
        Outcome::Wrong
    }
}

/// An append. An entry of 71 octets is put on the last 30 of page 4 and the first 41 of page 3. Both have octets that are used.
fn appended(alloc: Global, tx: &mut Tx<MemErase>) -> Option<Outcome> {
    let mut ring = Ring {
        first: PAGE - 50,
        used: PAGE + 20,
        ..Ring::empty(3, 2)
    };
    leave(tx)?;
    let outcome = append_one(alloc, tx, &mut ring)?;
    Some(if ring.used == PAGE + 91 && tx.images() == 2 {
        outcome
    } else {
        Outcome::Wrong
    })
}

/// A look at what was put there.
fn looked(alloc: Global, tx: &mut Tx<MemErase>) -> Option<Outcome> {
    let last = Ring {
        first: 2 * PAGE - 30,
        used: 71,
        ..Ring::empty(3, 2)
    };
    settle(tx)?;
    leave(tx)?;
    Some(look_again(alloc, tx, &last))
}

#[test]
fn a_read_that_fails_leaves_all_as_it_was(rt: HostRuntime) {
    let alloc = rt.alloc();
    let (mut appends, mut looks) = (0u32, 0u32);
    for number in 0..24u64 {
        let mut tx = begun_failing(alloc, number).expect(&rt, "a transaction");
        let append = appended(alloc, &mut tx).unwrap_or(Outcome::Wrong);
        let look = looked(alloc, &mut tx).unwrap_or(Outcome::Wrong);
        be_at(
            &rt,
            append != Outcome::Wrong && look != Outcome::Wrong,
            "a read",
            number,
        );
        appends = appends.saturating_add(u32::from(append == Outcome::Refused));
        looks = looks.saturating_add(u32::from(look == Outcome::Refused));
    }
    // Each of the two pages is read once by the one and once by the other.
    be(&rt, appends == 2 && looks == 2, "two reads by each");
}
