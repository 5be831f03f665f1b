//! Why a mark isn't set.

ghost use Rattle.std.specs.Prelude.{◌≡◌};
ghost use Rattle.disk_archive.specs.declared.mark_error.MarkError.TheVariants as marks;

use crate::error::NeedsRecovery;
use page_journal::UseError;
use std::alloc::AllocError;
use thiserror::Error;

/// Why a mark isn't set. The first reason that applies is returned, except for a failure of a device and out of memory.
#[derive(Clone, Copy, Debug, PartialEq, Eq, Error)]
pub enum MarkError {
    /// An earlier write or sync failed, and the archive wasn't opened again since.
    #[error("the archive must be opened again")]
    NeedsRecovery,
    /// The archive has no collector of this number.
    #[error("no such collector")]
    NoCollector,
    /// The mark is below the collector's mark.
    #[error("the mark is below the collector's mark")]
    MarkBack,
    /// A device failed. After a write or a sync the archive must be opened again.
    #[error("the device failed")]
    Fault,
    /// An allocation failed, before anything was written.
    #[error("out of memory")]
    OutOfMemory,
}

impl From<AllocError> for MarkError {
    ghost from_gives = { λ _ e. e ≡ marks.OutOfMemory };

    fn from(_: AllocError) -> Self {
        MarkError::OutOfMemory
    }
}

impl From<UseError> for MarkError {
    ghost use Rattle.disk_archive.specs.inner.Marked.{mark_of_use};

    ghost from_gives = { λ refusal e. e ≡ mark_of_use refusal };

    fn from(refusal: UseError) -> Self {
        match refusal {
            UseError::Fault => MarkError::Fault,
            UseError::NeedsRecovery => MarkError::NeedsRecovery,
        }
    }
}

impl From<NeedsRecovery> for MarkError {
    ghost from_gives = { λ _ e. e ≡ marks.NeedsRecovery };

    fn from(_: NeedsRecovery) -> Self {
        MarkError::NeedsRecovery
    }
}
