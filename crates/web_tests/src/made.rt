//! An archive on disks in memory, and what it is given.

use crate::records::{ANNOUNCED, BEFORE_257, WITH_COMMUNITIES, WITHDRAWN};
use archive_pages::Settings;
use board::{Named, Pass};
use disk_archive::Archive;
use disk_memory::{MemErase, MemOnce};
use query_threads::{NoGate, Shared, Unpromised};
use route_model::Mark;
use server::set_mark;
use service::{End, Output};
use shared_archive::{MemStore, NoRenewal};
use shared_feed::feed;
use std::alloc::Global;
use std::sync::{Arc, Wait};
use test_octets::octets;

pub(crate) type Stage<B> = Shared<MemStore, Unpromised<B>, NoGate>;

/// How many collectors the archive has.
pub(crate) const COLLECTORS: u8 = 1;

/// The octets of its pages: 265 of the journal, the head, 16 of the ring and 64 of the tree.
const PAGES: u64 = 346 * 16_384;

const BLOCKS: u64 = 64;

/// What is settled once all is given.
const SETTLED: u64 = 1_704_067_202_000_000;

/// An archive to which nothing was given.
pub(crate) fn empty_store(alloc: Global) -> Option<MemStore> {
    let settings = Settings {
        collectors: COLLECTORS,
        ring: 16,
    };
    let erase = MemErase::new(alloc, PAGES);
    let (once, pen) = MemOnce::new(alloc, BLOCKS);
    let once = Arc::new(alloc, once).ok()?;
    match Archive::create(alloc, erase, once, pen, settings) {
        Ok(archive) => Some(MemStore::new(archive, NoRenewal)),
        Err(_) => None,
    }
}

/// Adds the octets that these digits encode.
fn add(alloc: Global, all: &mut Vec<u8>, digits: &str) -> Option<()> {
    all.extend_from_slice(&octets(alloc, digits).ok()?).ok()
}

/// Adds 256 prefixes of 11.0.0.0/16, and one of 11.1.0.0/16.
fn add_prefixes(all: &mut Vec<u8>) -> Option<()> {
    for third in 0..=255u8 {
        all.extend_from_slice(&[24, 11, 0, third]).ok()?;
    }
    all.extend_from_slice(&[24, 11, 1, 0]).ok()
}

/// The records that the archive is given: four of them, with 260 changes.
fn records(alloc: Global) -> Option<Vec<u8>> {
    let mut all = Vec::new(alloc);
    add(alloc, &mut all, ANNOUNCED)?;
    add(alloc, &mut all, WITH_COMMUNITIES)?;
    add(alloc, &mut all, BEFORE_257)?;
    add_prefixes(&mut all)?;
    add(alloc, &mut all, WITHDRAWN)?;
    Some(all)
}

/// Gives the archive all records, and applies them.
pub(crate) fn give<B: Named>(
    rt: &impl Wait,
    alloc: Global,
    stage: &Stage<B>,
    pass: &mut Pass<Unpromised<B>>,
) -> Option<()> {
    let all = records(alloc)?;
    let mut rest = all.as_slice();
    let mut reported = Output::new(Vec::new(alloc));
    if feed(rt, alloc, stage, pass, 0, 1000, &mut rest, &mut reported) != End::Well {
        return None;
    }
    set_mark(rt, stage, pass, 0, Mark::new(SETTLED)?).ok()
}
