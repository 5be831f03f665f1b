//! Why a tree doesn't take a version.
ghost use Rattle.std.specs.Prelude.{◌≡◌};
ghost use Rattle.tsb_tree.specs.declared.error.TreeError.TheVariants as errors;
ghost use Rattle.tsb_tree.specs.Refusals.{of_fault};

use once_store::AppendError;
use page_tx::PageError;
use std::alloc::{AllocError, AllocFailed};
use thiserror::Error;
use tsb_node::ReadFault;
use tsb_walk::NodeError;
use worm_migration::MigrationError;

/// Why a tree doesn't take a version, or isn't looked into.
#[derive(Clone, Copy, Debug, PartialEq, Eq, Error)]
pub enum TreeError {
    /// The stamp isn't above the greatest one of the tree.
    #[error("the stamp isn't above the greatest one of the tree")]
    StampBack,
    /// The tree would need a seventh level of key nodes.
    #[error("the tree would need a seventh level of key nodes")]
    TooHigh,
    /// The page with this number isn't the node that the tree needs there.
    #[error("page {0} isn't the node that the tree needs there")]
    BadNode(u64),
    /// The block with this number isn't what the page or block above it requires.
    #[error("block {0} of the write-once disk is damaged")]
    Damaged(u64),
    /// The pages refused, for a reason other than memory.
    #[error("{0}")]
    Pages(PageError),
    /// The shelf refused.
    #[error("{0}")]
    Once(AppendError),
    /// An allocation failed.
    #[error("out of memory")]
    OutOfMemory,
}

impl From<PageError> for TreeError {
    ghost use Rattle.tsb_tree.specs.Refusals.{of_page};

    ghost from_gives = { λ refusal e. e ≡ of_page refusal };

    fn from(refusal: PageError) -> Self {
        match refusal {
            PageError::OutOfMemory => TreeError::OutOfMemory,
            PageError::Fault => TreeError::Pages(PageError::Fault),
            PageError::NeedsRecovery => TreeError::Pages(PageError::NeedsRecovery),
            PageError::TooManyImages => TreeError::Pages(PageError::TooManyImages),
            PageError::PagesFull => TreeError::Pages(PageError::PagesFull),
        }
    }
}

impl From<NodeError> for TreeError {
    ghost use Rattle.tsb_tree.specs.Refusals.{of_node};

    ghost from_gives = { λ refusal e. e ≡ of_node refusal };

    fn from(refusal: NodeError) -> Self {
        match refusal {
            NodeError::BadNode(page) => TreeError::BadNode(page),
            NodeError::Damaged(block) => TreeError::Damaged(block),
            NodeError::Fault => TreeError::Pages(PageError::Fault),
            NodeError::OnceFault => TreeError::Once(AppendError::Fault),
            NodeError::NeedsRecovery => TreeError::Pages(PageError::NeedsRecovery),
            NodeError::OutOfMemory => TreeError::OutOfMemory,
        }
    }
}

impl From<AllocError> for TreeError {
    ghost from_gives = { λ _ e. e ≡ errors.OutOfMemory };

    fn from(_: AllocError) -> Self {
        TreeError::OutOfMemory
    }
}

impl<T: Drop> From<AllocFailed<T>> for TreeError {
    ghost from_gives = { λ _ e. e ≡ errors.OutOfMemory };

    fn from(_: AllocFailed<T>) -> Self {
        TreeError::OutOfMemory
    }
}

impl From<MigrationError> for TreeError {
    ghost use Rattle.tsb_tree.specs.Refusals.{of_migration};

    ghost from_gives = { λ refusal e. e ≡ of_migration refusal };

    fn from(refusal: MigrationError) -> Self {
        match refusal {
            MigrationError::Fault => TreeError::Once(AppendError::Fault),
            MigrationError::OnceFull => TreeError::Once(AppendError::OnceFull),
            MigrationError::OutOfMemory => TreeError::OutOfMemory,
        }
    }
}

/// The refusal to read the node in a page of this number.
pub fn unread(fault: ReadFault, page: u64) -> TreeError
    ensures { result ≡ of_fault fault page }
{
    match fault {
        ReadFault::NotANode => TreeError::BadNode(page),
        ReadFault::Memory => TreeError::OutOfMemory,
    }
}
