//! Two disks are prepared.

use crate::acts::{Load, Script};
use crate::disks::{Both, Played};
use crate::laid::{PAGE, PAGES, laid_anew};
use crate::played::{Outcome, apply_all, flush_all, give, set_mark};
use crate::pure::Pure;
use crate::records::admission_of;
use archive_pages::Settings;
use disk_archive::Archive;
use disk_memory::{MemErase, MemOnce};
use route_model::Admission;
use std::alloc::Global;
use std::sync::Arc;

/// How many blocks the write-once disk has.
const BLOCKS: u64 = 800;

/// The most records of a batch: a ring has room for them.
const MOST: u32 = 40;

const SETTINGS: Settings = Settings {
    collectors: 2,
    ring: 9,
};

fn created(alloc: Global) -> Option<Played> {
    let (once, pen) = MemOnce::new(alloc, BLOCKS);
    let once = Arc::new(alloc, once).ok()?;
    let erase = MemErase::new(alloc, PAGES * PAGE);
    match Archive::create(alloc, erase, once, pen, SETTINGS) {
        Ok(archive) => Some(Played { archive }),
        Err(_) => None,
    }
}

/// The batch of the records of a load from a number on and before another one.
fn batch_of_load(alloc: Global, load: &Load, from: u32, end: u32) -> Option<Vec<Admission>> {
    let (_, peer, first, prefixes, time, _) = *load;
    let mut batch = Vec::new(alloc);
    for number in from..end {
        let turn = number % prefixes.max(1);
        let record = (
            time.saturating_add(number),
            peer,
            first.saturating_add(turn.min(9) as u8),
            (1 + number % 200) as u8,
        );
        batch.push(admission_of(alloc, &record)?).ok()?;
    }
    Some(batch)
}

/// Both take the batch, then the mark of both collectors, and apply all.
fn take(
    archive: &mut Played,
    pure: &mut Pure,
    collector: u8,
    batch: &[Admission],
    mark: u32,
) -> bool {
    give(archive, collector, batch) == Outcome::Done
        && set_mark(archive, 0, mark) == Outcome::Done
        && set_mark(archive, 1, mark) == Outcome::Done
        && apply_all(archive)
        && pure.give(collector, batch)
        && pure.set_mark(0, mark)
        && pure.set_mark(1, mark)
        && pure.apply_until(archive.archive.applied())
}

/// Both take the records of a load, as many at a time as a batch has. Returns whether they do.
fn take_all(alloc: Global, archive: &mut Played, pure: &mut Pure, load: &Load) -> bool {
    for turn in 0..load.5.div_ceil(MOST) {
        let from = turn.saturating_mul(MOST);
        let end = load.5.min(from.saturating_add(MOST));
        let Some(batch) = batch_of_load(alloc, load, from, end) else {
            return false;
        };
        if !take(archive, pure, load.0, &batch, load.4.saturating_add(end)) {
            return false;
        }
    }
    true
}

/// The disks with all loads, of which no page waits to go home.
pub(crate) fn load_disks(alloc: Global, script: &Script, pure: &mut Pure) -> Option<Both> {
    let mut archive = created(alloc)?;
    for load in script.loads {
        if !take_all(alloc, &mut archive, pure, load) {
            return None;
        }
    }
    if !flush_all(&mut archive) {
        return None;
    }
    laid_anew(alloc, archive.given_up())
}
