//! Why the calls of an archive are refused.

ghost use Rattle.std.specs.Prelude.{◌≡◌};
ghost use Rattle.disk_archive.specs.declared.error.AdmitError.TheVariants as admits;

use page_journal::UseError;
use std::alloc::AllocError;
use thiserror::Error;

/// An earlier write or sync failed, and the archive wasn't opened again since.
#[derive(Clone, Copy, Debug, PartialEq, Eq)]
pub(crate) struct NeedsRecovery;

/// Why a batch isn't admitted. The first reason that applies is returned, except for a failure of a device and out of memory.
#[derive(Clone, Copy, Debug, PartialEq, Eq, Error)]
pub enum AdmitError {
    /// An earlier write or sync failed, and the archive wasn't opened again since.
    #[error("the archive must be opened again")]
    NeedsRecovery,
    /// The archive has no collector of this number.
    #[error("no such collector")]
    NoCollector,
    /// The batch has more than [`crate::MAX_BATCH_LEN`] octets.
    #[error("the batch has more than 262144 octets")]
    BatchTooLarge,
    /// This many records can't be counted.
    #[error("the count of offered records is full")]
    CounterFull,
    /// The collector's ring has too few free octets.
    #[error("the intake is full")]
    IntakeFull,
    /// The content read from the home page of this number isn't valid in an archive.
    #[error("page {0} is damaged")]
    BadNode(u64),
    /// A device failed. After a write or a sync the archive must be opened again.
    #[error("the device failed")]
    Fault,
    /// An allocation failed, before anything was written.
    #[error("out of memory")]
    OutOfMemory,
}

impl From<AllocError> for AdmitError {
    ghost from_gives = { λ _ e. e ≡ admits.OutOfMemory };

    fn from(_: AllocError) -> Self {
        AdmitError::OutOfMemory
    }
}

impl From<UseError> for AdmitError {
    ghost use Rattle.disk_archive.specs.inner.Committing.{admit_of_use};

    ghost from_gives = { λ refusal e. e ≡ admit_of_use refusal };

    fn from(refusal: UseError) -> Self {
        match refusal {
            UseError::Fault => AdmitError::Fault,
            UseError::NeedsRecovery => AdmitError::NeedsRecovery,
        }
    }
}

impl From<NeedsRecovery> for AdmitError {
    ghost from_gives = { λ _ e. e ≡ admits.NeedsRecovery };

    fn from(_: NeedsRecovery) -> Self {
        AdmitError::NeedsRecovery
    }
}
