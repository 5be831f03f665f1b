//! An archive that threads share, or the disks of one that couldn't be opened again, with what it reports meanwhile.

use disk_archive::Archive;
use disk_models::{EraseDisk, OnceDisk};
use once_store::ShelfReader;
use route_model::Mark;
use std::sync::Arc;

/// Both disks of an archive.
#[derive(Drop)]
pub struct Disks<E, O: OnceDisk + Drop> {
    /// The erasable disk.
    pub erase: E,
    /// The write-once disk.
    pub once: Arc<O>,
    /// Its pen.
    pub pen: O::Pen,
}

/// An archive that couldn't be opened again: its disks, and what it reports meanwhile.
#[derive(Drop)]
pub struct Shut<E, O: OnceDisk + Drop> {
    /// They are away while the archive is being opened.
    pub(crate) disks: Option<Disks<E, O>>,
    /// It reads nothing: by it contracts know the write-once disk while the disks are away.
    pub(crate) witness: ShelfReader<O>,
    pub(crate) collectors: u8,
    pub(crate) ring: u16,
    pub(crate) settled: Mark,
    /// How many admissions of each collector there are.
    pub(crate) counts: Vec<u64>,
}

/// An archive that threads share.
#[derive(Drop)]
pub enum Held<E: EraseDisk + Drop, O: OnceDisk + Drop> {
    /// It is open, or must be opened again after a write or a sync that failed.
    Open(Archive<E, O>),
    /// It couldn't be opened again so far.
    Shut(Shut<E, O>),
}
