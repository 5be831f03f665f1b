//! A refusal that returns disk and pen.
use disk_models::{Fault, OnceDisk};
use std::sync::Arc;

/// A write-once disk and its pen that were given to be opened, returned: the device failed.
#[derive(Drop)]
pub struct Refused<O: OnceDisk + Drop> {
    /// The disk.
    pub disk: Arc<O>,
    /// Its pen.
    pub pen: O::Pen,
    /// The failure.
    pub fault: Fault,
}
