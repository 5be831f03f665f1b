//! The head of an archive, over pages laid by hand: each number at its place, as docs/FORMATS.md has them.

mod calls;
mod pages;
mod settings;

use crate::rings::{empty, fill_all};
use archive_head::{Head, Lane};
use archive_pages::{Settings, Sifted, TreePlace, can_give, can_pass, give, pass_change, put_head};
use disk_memory::MemErase;
use intake::IntakeError;
use page_tx::{Pages, Tx};
use route_model::{Admission, Mark, Moment};
use std::alloc::Global;

/// Two collectors with rings of nine pages: they lie on pages 1 to 9 and 10 to 18.
const SETTINGS: Settings = Settings {
    collectors: 2,
    ring: 9,
};

const HOMES: u64 = 20;

/// A transaction over home pages that are filled with the octet 90.
fn begun(alloc: Global) -> Option<Tx<MemErase>> {
    let mut tx = empty(alloc, HOMES, Vec::new(alloc))?;
    fill_all(alloc, &mut tx, HOMES)?;
    Some(tx)
}

/// What is kept of a collector that gave nothing.
fn lane() -> Lane {
    Lane {
        offered: 0,
        admitted: 0,
        mark: Mark::at(Moment::from(0u32)),
        first: 0,
        used: 0,
        since: 0,
    }
}

/// The head of two collectors that gave nothing.
fn start(alloc: Global) -> Option<Head> {
    let lanes = vec![in alloc; lane(), lane()].ok()?;
    Some(Head {
        applied: 0,
        last: Moment::from(0u32),
        begun: 0,
        fresh: 20,
        block: 0,
        root: 19,
        lanes,
    })
}

/// Whether these are kept of two collectors.
fn has_lanes(head: &Head, first: Lane, second: Lane) -> bool {
    match head.lanes.as_slice() {
        [one, other] => *one == first && *other == second,
        _ => false,
    }
}

/// What is kept of a batch: admissions that aren't late, how many were offered, and the mark.
fn sifted(alloc: Global, encodings: &[&[u8]], offered: u64, mark: u32) -> Option<Sifted> {
    let mut timely = Vec::new(alloc);
    for octets in encodings {
        timely.push(Admission::decode(alloc, *octets).ok()??).ok()?;
    }
    Some(Sifted {
        timely,
        offered,
        mark: Mark::at(Moment::from(mark)),
    })
}

/// Lays the head over page 0. Whether that was done.
fn put(alloc: Global, tx: &mut Tx<MemErase>, head: &Head) -> bool {
    head.lanes.len() <= 16 && tx.home_pages() > 0 && put_head(alloc, tx, head).is_ok()
}

/// Gives a batch to a collector's ring. None where it isn't one that may be given.
fn given(
    alloc: Global,
    tx: &mut Tx<MemErase>,
    head: &mut Head,
    collector: u8,
    batch: &Sifted,
) -> Option<Result<(), IntakeError>> {
    if !can_give(tx.home_pages(), SETTINGS, head, collector, batch) {
        return None;
    }
    Some(give(alloc, tx, SETTINGS, head, collector, batch))
}

/// The head passes over the next change of the admission, whose tree then is at these places. Whether that was the
/// last; none where the ring has no such admission.
fn passed(alloc: Global, head: &mut Head, collector: u8, encoding: &[u8]) -> Option<bool> {
    let admission = Admission::decode(alloc, encoding).ok()??;
    if !can_pass(SETTINGS, head, collector, &admission) {
        return None;
    }
    let tree = TreePlace {
        fresh: 21,
        block: 5,
        root: 20,
    };
    Some(pass_change(SETTINGS, head, collector, &admission, tree))
}

/// Whether a page holds these octets from a place on.
fn holds(tx: &mut Tx<MemErase>, page: u64, place: usize, expected: &[u8]) -> bool {
    if page >= tx.home_pages() || tx.fetch(page).is_err() {
        return false;
    }
    let Some(page) = tx.page(page) else {
        return false;
    };
    match page.octets().get(place..) {
        Some(octets) => octets.starts_with(expected),
        None => false,
    }
}
