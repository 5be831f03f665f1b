//! Two disks, before a command and after it.

use disk_models::OnceDisk;
use std::sync::Arc;

/// An erasable disk, and a write-once disk with its pen.
#[derive(Drop)]
pub struct Disks<E, O: OnceDisk + Drop> {
    /// The erasable disk.
    pub erase: E,
    /// The write-once disk.
    pub once: Arc<O>,
    /// Its pen.
    pub pen: O::Pen,
}

/// How a command ended, and what it leaves.
#[derive(Drop)]
pub struct Ended<E, O: OnceDisk + Drop, X> {
    /// The exit status; or why there is no archive on the disks for the command. Then it did nothing.
    pub outcome: Result<u8, X>,
    /// Both disks. That they are the disks that were given is a clause of `create_on` alone.
    pub disks: Disks<E, O>,
    /// Whether both disks read as the history that they keep. If not, a call on them failed, and they may read as one that it begins.
    pub is_read: bool,
}
