//! Why disks aren't opened as an archive.

ghost use Rattle.std.specs.Prelude.{◌≡◌};
ghost use Rattle.disk_archive.specs.declared.open_error.OpenError.TheVariants as openings;

use std::alloc::AllocError;
use thiserror::Error;

/// Why disks aren't opened as an archive.
#[derive(Clone, Copy, Debug, PartialEq, Eq, Error)]
pub enum OpenError {
    /// A device failed.
    #[error("the device failed")]
    Fault,
    /// The erasable disk has no journal, or one whose note isn't an archive's, has another count of blocks than the
    /// write-once disk, or requires more pages than there are.
    #[error("the disks hold no archive")]
    NotAJournal,
    /// A slot of the journal can't be recovered. The number is that of the disk page of its header.
    #[error("page {0} of the disk is damaged")]
    BadSlot(u64),
    /// The content read from the home page of this number isn't valid in an archive.
    #[error("page {0} is damaged")]
    BadNode(u64),
    /// An allocation failed.
    #[error("out of memory")]
    OutOfMemory,
}

impl From<AllocError> for OpenError {
    ghost from_gives = { λ _ e. e ≡ openings.OutOfMemory };

    fn from(_: AllocError) -> Self {
        OpenError::OutOfMemory
    }
}
