//! Why a page isn't fetched.
ghost use Rattle.std.specs.Prelude.{◌≡◌, ◌⊎◌};
ghost use Rattle.page_journal.specs.declared.error.UseError.TheVariants as uses;
ghost use Rattle.buffer_pool.specs.declared.error.FetchError.TheVariants as fetches;

use page_journal::UseError;
use std::alloc::AllocError;
use thiserror::Error;

/// Why a page isn't fetched.
#[derive(Clone, Copy, Debug, PartialEq, Eq, Error)]
pub enum FetchError {
    /// The device failed. The pool goes on.
    #[error("the device failed")]
    Fault,
    /// An earlier write or sync failed, and the journal wasn't opened again since.
    #[error("the journal must be opened again")]
    NeedsRecovery,
    /// An allocation failed.
    #[error("out of memory")]
    OutOfMemory,
}

impl From<AllocError> for FetchError {
    ghost from_gives = { λ _ e. e ≡ fetches.OutOfMemory };

    fn from(_: AllocError) -> Self {
        FetchError::OutOfMemory
    }
}

impl From<UseError> for FetchError {
    ghost from_gives = { λ refusal e. ((refusal ≡ uses.Fault) × (e ≡ fetches.Fault)) ⊎ ((refusal ≡ uses.NeedsRecovery) × (e ≡ fetches.NeedsRecovery)) };

    fn from(refusal: UseError) -> Self {
        match refusal {
            UseError::Fault => FetchError::Fault,
            UseError::NeedsRecovery => FetchError::NeedsRecovery,
        }
    }
}
