//! Why a block isn't appended, and why one isn't read.
ghost use Rattle.std.specs.Prelude.{◌≡◌};
ghost use Rattle.once_store.specs.declared.error.AppendError.TheVariants as errors;
ghost use Rattle.once_store.specs.declared.error.BlockError.TheVariants as blocks;

use std::alloc::{AllocError, AllocFailed};
use thiserror::Error;

/// Why a block isn't appended.
#[derive(Clone, Copy, Debug, PartialEq, Eq, Error)]
pub enum AppendError {
    /// The device failed. A block that was tried then is spent: the next one gets a higher number.
    #[error("the device failed")]
    Fault,
    /// No blank block is left at the next number or above it.
    #[error("the write-once disk is full")]
    OnceFull,
}

impl From<disk_models::Fault> for AppendError {
    ghost from_gives = { λ _ e. e ≡ errors.Fault };

    fn from(_: disk_models::Fault) -> Self {
        AppendError::Fault
    }
}

/// Why a block isn't read.
#[derive(Clone, Copy, Debug, PartialEq, Eq, Error)]
pub enum BlockError {
    /// The device failed.
    #[error("the device failed")]
    Fault,
    /// The block with this number doesn't end in its digest, or the disk has no such block.
    #[error("block {0} of the write-once disk is damaged")]
    Damaged(u64),
    /// An allocation failed.
    #[error("out of memory")]
    OutOfMemory,
}

impl From<disk_models::Fault> for BlockError {
    ghost from_gives = { λ _ e. e ≡ blocks.Fault };

    fn from(_: disk_models::Fault) -> Self {
        BlockError::Fault
    }
}

impl From<AllocError> for BlockError {
    ghost from_gives = { λ _ e. e ≡ blocks.OutOfMemory };

    fn from(_: AllocError) -> Self {
        BlockError::OutOfMemory
    }
}

impl<T: Drop> From<AllocFailed<T>> for BlockError {
    ghost from_gives = { λ _ e. e ≡ blocks.OutOfMemory };

    fn from(_: AllocFailed<T>) -> Self {
        BlockError::OutOfMemory
    }
}
