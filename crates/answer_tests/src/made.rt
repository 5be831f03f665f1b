//! Archives on two disks in memory, and readers of their blocks.

use archive_pages::Settings;
use disk_archive::Archive;
use disk_calls::{DiskArchive, NoReasons};
use disk_memory::{MemErase, MemOnce};
use once_store::ShelfReader;
use route_model::Mark;
use service::{FeedSettings, FileLoad, LoadSettings, Output, Status, WithoutHop, load};
use std::alloc::Global;
use std::sync::Arc;

// The octets of a page.
const PAGE: u64 = 16_384;

// The home pages of each tree.
const TREE_PAGES: u64 = 300;

/// The blocks of each write-once disk.
pub(crate) const BLOCKS: u64 = 2_048;

pub(crate) type Made = Archive<MemErase, MemOnce>;

pub(crate) type Reader = ShelfReader<MemOnce>;

/// An archive as a load uses it.
type MemArchive = DiskArchive<MemErase, MemOnce>;

/// An archive of this many collectors, each with a ring of nine pages.
pub(crate) fn made(alloc: Global, collectors: u8) -> Option<Made> {
    let settings = Settings {
        collectors,
        ring: 9,
    };
    if !settings.is_within() {
        return None;
    }
    let homes = u64::from(collectors) * 9 + 1 + TREE_PAGES;
    let erase = MemErase::new(alloc, (265 + homes) * PAGE);
    let (once, pen) = MemOnce::new(alloc, BLOCKS);
    Archive::create(alloc, erase, Arc::new(alloc, once).ok()?, pen, settings).ok()
}

/// A reader that keeps this many blocks of the archive, 1 to 1,024.
pub(crate) fn reader_of(archive: &Made, blocks: usize) -> Option<Reader> {
    if blocks < 1 || blocks > 1_024 {
        return None;
    }
    archive.reader(blocks).ok()
}

fn load_into(alloc: Global, archive: &mut MemArchive, octets: &[u8]) -> Status {
    let how = LoadSettings {
        feed: FeedSettings {
            collector: 0,
            limit: 1000,
            rule: WithoutHop::Refused,
        },
        mark: Mark::new(1_704_067_201_000_000),
        resume: false,
        strict: false,
    };
    let mut out: Vec<u8> = Vec::new(alloc);
    let mut err: Vec<u8> = Vec::new(alloc);
    let mut lines = Output::new(&mut out);
    let mut refusals = Output::new(&mut err);
    let mut files = [FileLoad::new(octets)];
    load(alloc, archive, how, &mut files, &mut lines, &mut refusals)
}

/// An archive of one collector into which these octets are loaded, with the mark 1704067201.
fn loaded_into(alloc: Global, octets: &[u8]) -> Option<MemArchive> {
    let archive = made(alloc, 1)?;
    let mut archive = MemArchive::new(archive, NoReasons);
    match load_into(alloc, &mut archive, octets) {
        Status::Done => Some(archive),
        Status::Refused | Status::Failed => None,
    }
}

/// The same without its calls for feeds and questions.
pub(crate) fn loaded(alloc: Global, octets: &[u8]) -> Option<Made> {
    Some(loaded_into(alloc, octets)?.into_archive())
}
