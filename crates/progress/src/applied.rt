//! How many changes of an archive are applied.

use disk_calls::DiskArchive;
use disk_models::{EraseDisk, OnceDisk};

/// An archive that returns how many changes are applied.
pub trait Applied {
    /// How many that is.
    fn applied_count(&self) -> u64;
}

impl<E: EraseDisk + Drop, O: OnceDisk + Drop, R: Drop> Applied for DiskArchive<E, O, R> {
    fn applied_count(&self) -> u64 {
        self.applied()
    }
}
