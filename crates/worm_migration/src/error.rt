//! Why an old node doesn't become a block.
ghost use Rattle.std.specs.Prelude.{◌≡◌};
ghost use Rattle.worm_migration.specs.declared.error.MigrationError.TheVariants as refusals;
ghost use Rattle.worm_migration.specs.Refusals.{of_append};

use once_store::AppendError;
use std::alloc::AllocError;
use thiserror::Error;

/// Why an old node doesn't become a block.
#[derive(Clone, Copy, Debug, PartialEq, Eq, Error)]
pub enum MigrationError {
    /// The device failed. A block that was tried then is spent.
    #[error("the device failed")]
    Fault,
    /// No blank block is left at the shelf's next number or above it.
    #[error("the write-once disk is full")]
    OnceFull,
    /// An allocation failed, before any block was tried.
    #[error("out of memory")]
    OutOfMemory,
}

impl From<AppendError> for MigrationError {
    ghost from_gives = { λ refusal e. e ≡ of_append refusal };

    fn from(refusal: AppendError) -> Self {
        match refusal {
            AppendError::Fault => MigrationError::Fault,
            AppendError::OnceFull => MigrationError::OnceFull,
        }
    }
}

impl From<AllocError> for MigrationError {
    ghost from_gives = { λ _ e. e ≡ refusals.OutOfMemory };

    fn from(_: AllocError) -> Self {
        MigrationError::OutOfMemory
    }
}
