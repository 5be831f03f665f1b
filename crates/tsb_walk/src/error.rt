//! Why a lookup fails.
ghost use Rattle.std.specs.Prelude.{◌≡◌};
ghost use Rattle.tsb_walk.specs.declared.error.NodeError.TheVariants as nodes;

use once_store::BlockError;
use std::alloc::AllocError;
use thiserror::Error;

/// Why a lookup in a tree fails.
#[derive(Clone, Copy, Debug, PartialEq, Eq, Error)]
pub enum NodeError {
    /// The page with this number isn't what the page above it requires.
    #[error("page {0} is damaged")]
    BadNode(u64),
    /// The block with this number isn't what its place requires.
    #[error("block {0} of the write-once disk is damaged")]
    Damaged(u64),
    /// The disk of the pages failed.
    #[error("the device failed")]
    Fault,
    /// The write-once disk failed.
    #[error("the write-once device failed")]
    OnceFault,
    /// An earlier write or sync of pages failed, and the journal hasn't been opened again since.
    #[error("the journal must be opened again")]
    NeedsRecovery,
    /// An allocation failed.
    #[error("out of memory")]
    OutOfMemory,
}

impl From<AllocError> for NodeError {
    ghost from_gives = { λ _ e. e ≡ nodes.OutOfMemory };

    fn from(_: AllocError) -> Self {
        NodeError::OutOfMemory
    }
}

impl From<BlockError> for NodeError {
    ghost use Rattle.tsb_walk.specs.Refusals.{of_block};

    ghost from_gives = { λ refusal e. e ≡ of_block refusal };

    fn from(refusal: BlockError) -> Self {
        match refusal {
            BlockError::Damaged(block) => NodeError::Damaged(block),
            BlockError::Fault => NodeError::OnceFault,
            BlockError::OutOfMemory => NodeError::OutOfMemory,
        }
    }
}
