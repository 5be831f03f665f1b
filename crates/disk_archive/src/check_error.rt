//! Why a check isn't done, or what it found.

ghost use Rattle.std.specs.Prelude.{◌≡◌, ◌↔◌, ℕ, Bool};
ghost use Rattle.disk_archive.specs.declared.check_error.CheckError.TheVariants as checks;
ghost use Rattle.tsb_tree.specs.Refusals.{ReadRefusal};
ghost use Rattle.disk_archive.specs.inner.Checking.{CountRefusal};

use crate::error::NeedsRecovery;
use disk_models::Fault;
use page_tx::PageError;
use std::alloc::AllocError;
use thiserror::Error;
use tsb_tree::TreeError;
use tsb_walk::NodeError;

/// Why a check isn't done, or the first damage that it found.
#[derive(Clone, Copy, Debug, PartialEq, Eq, Error)]
pub enum CheckError {
    /// An earlier write or sync failed, and the archive wasn't opened again since.
    #[error("the archive must be opened again")]
    NeedsRecovery,
    /// The content read from the home page of this number isn't valid in an archive.
    #[error("page {0} is damaged")]
    BadNode(u64),
    /// The content read from the block of this number isn't valid in an archive.
    #[error("block {0} is damaged")]
    Damaged(u64),
    /// A device failed. Nothing was written.
    #[error("the device failed")]
    Fault,
    /// An allocation failed.
    #[error("out of memory")]
    OutOfMemory,
}

impl From<AllocError> for CheckError {
    ghost from_gives = { λ _ e. e ≡ checks.OutOfMemory };

    fn from(_: AllocError) -> Self {
        CheckError::OutOfMemory
    }
}

impl From<Fault> for CheckError {
    ghost from_gives = { λ _ e. e ≡ checks.Fault };

    fn from(_: Fault) -> Self {
        CheckError::Fault
    }
}

impl From<NeedsRecovery> for CheckError {
    ghost from_gives = { λ _ e. e ≡ checks.NeedsRecovery };

    fn from(_: NeedsRecovery) -> Self {
        CheckError::NeedsRecovery
    }
}

impl From<NodeError> for CheckError {
    ghost use Rattle.disk_archive.specs.inner.Checking.{check_of_node};

    ghost from_gives = { λ refusal e. e ≡ check_of_node refusal };

    fn from(refusal: NodeError) -> Self {
        match refusal {
            NodeError::BadNode(page) => CheckError::BadNode(page),
            NodeError::Damaged(block) => CheckError::Damaged(block),
            NodeError::Fault | NodeError::OnceFault => CheckError::Fault,
            NodeError::NeedsRecovery => CheckError::NeedsRecovery,
            NodeError::OutOfMemory => CheckError::OutOfMemory,
        }
    }
}

/// Why a tree's root isn't read.
pub(crate) fn of_root(refusal: TreeError) -> CheckError
    requires read { (down : Bool) × ReadRefusal down refusal }
    ensures bad { (page : ℕ) → result ≡ CheckError.BadNode page → refusal ≡ TreeError.BadNode page }
    ensures damaged { (block : ℕ) → result ≡ CheckError.Damaged block → refusal ≡ TreeError.Damaged block }
    ensures refused { (down : Bool) → ReadRefusal down refusal → CountRefusal down result }
    ensures fault { (result ≡ CheckError.Fault) ↔ (refusal ≡ TreeError.Pages PageError.Fault) }
{
    match refusal {
        TreeError::BadNode(page) => CheckError::BadNode(page),
        TreeError::Pages(PageError::Fault) => CheckError::Fault,
        TreeError::Pages(PageError::NeedsRecovery) => CheckError::NeedsRecovery,
        TreeError::OutOfMemory => CheckError::OutOfMemory,
        TreeError::StampBack
        | TreeError::TooHigh
        | TreeError::Damaged(_)
        | TreeError::Pages(_)
        | TreeError::Once(_) => unreachable!(),
    }
}
