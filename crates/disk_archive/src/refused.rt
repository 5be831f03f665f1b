//! A refusal that returns both disks.

use disk_models::OnceDisk;
use std::sync::Arc;

/// Both disks that were given to be created or opened as an archive, with the reason why they weren't.
#[derive(Drop)]
pub struct Refused<E, O: OnceDisk + Drop, X> {
    /// The erasable disk.
    pub erase: E,
    /// The write-once disk.
    pub once: Arc<O>,
    /// Its pen.
    pub pen: O::Pen,
    /// Why they are returned.
    pub error: X,
}
