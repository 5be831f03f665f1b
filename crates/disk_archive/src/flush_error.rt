//! Why a step of flushing isn't done.

ghost use Rattle.std.specs.Prelude.{◌≡◌};
ghost use Rattle.disk_archive.specs.declared.flush_error.FlushError.TheVariants as flushes;

use crate::error::NeedsRecovery;
use page_journal::UseError;
use thiserror::Error;

/// Why a step of flushing isn't done.
#[derive(Clone, Copy, Debug, PartialEq, Eq, Error)]
pub enum FlushError {
    /// An earlier write or sync failed, and the archive wasn't opened again since.
    #[error("the archive must be opened again")]
    NeedsRecovery,
    /// A device failed. After a write or a sync the archive must be opened again.
    #[error("the device failed")]
    Fault,
}

impl From<UseError> for FlushError {
    ghost use Rattle.disk_archive.specs.inner.Flushed.{flush_of_use};

    ghost from_gives = { λ refusal e. e ≡ flush_of_use refusal };

    fn from(refusal: UseError) -> Self {
        match refusal {
            UseError::Fault => FlushError::Fault,
            UseError::NeedsRecovery => FlushError::NeedsRecovery,
        }
    }
}

impl From<NeedsRecovery> for FlushError {
    ghost from_gives = { λ _ e. e ≡ flushes.NeedsRecovery };

    fn from(_: NeedsRecovery) -> Self {
        FlushError::NeedsRecovery
    }
}
