//! Why a question isn't answered.

ghost use Rattle.std.specs.Prelude.{◌≡◌, ◌↔◌, ℕ, Bool, true};
ghost use Rattle.disk_archive.specs.declared.ask_error.AskError.TheVariants as asks;
ghost use Rattle.tsb_tree.specs.Refusals.{ReadRefusal};
ghost use Rattle.disk_archive.specs.inner.Asking.{LookRefusal};

use crate::error::NeedsRecovery;
use disk_models::Fault;
use page_tx::PageError;
use route_model::Mark;
use std::alloc::AllocError;
use thiserror::Error;
use tsb_tree::TreeError;
use tsb_walk::NodeError;

/// Why a question isn't answered. Of the first two reasons, the first one that holds is returned.
#[derive(Clone, Copy, Debug, PartialEq, Eq, Error)]
pub enum AskError {
    /// An earlier write or sync failed, and the archive wasn't opened again since.
    #[error("the archive must be opened again")]
    NeedsRecovery,
    /// The last moment of the question isn't below the settled watermark, which is given here.
    #[error("the moment isn't below the settled watermark")]
    AboveWatermark(Mark),
    /// The content read from the home page of this number isn't valid in an archive.
    #[error("page {0} is damaged")]
    BadNode(u64),
    /// The content read from the block of this number isn't valid in an archive.
    #[error("block {0} is damaged")]
    Damaged(u64),
    /// A device failed. Nothing was written.
    #[error("the device failed")]
    Fault,
    /// An allocation failed.
    #[error("out of memory")]
    OutOfMemory,
}

impl From<AllocError> for AskError {
    ghost from_gives = { λ _ e. e ≡ asks.OutOfMemory };

    fn from(_: AllocError) -> Self {
        AskError::OutOfMemory
    }
}

impl From<Fault> for AskError {
    ghost from_gives = { λ _ e. e ≡ asks.Fault };

    fn from(_: Fault) -> Self {
        AskError::Fault
    }
}

impl From<NeedsRecovery> for AskError {
    ghost from_gives = { λ _ e. e ≡ asks.NeedsRecovery };

    fn from(_: NeedsRecovery) -> Self {
        AskError::NeedsRecovery
    }
}

impl From<NodeError> for AskError {
    ghost use Rattle.disk_archive.specs.inner.Asking.{ask_of_node};

    ghost from_gives = { λ refusal e. e ≡ ask_of_node refusal };

    fn from(refusal: NodeError) -> Self {
        match refusal {
            NodeError::BadNode(page) => AskError::BadNode(page),
            NodeError::Damaged(block) => AskError::Damaged(block),
            NodeError::Fault | NodeError::OnceFault => AskError::Fault,
            NodeError::NeedsRecovery => AskError::NeedsRecovery,
            NodeError::OutOfMemory => AskError::OutOfMemory,
        }
    }
}

/// Why a tree's root isn't read.
pub(crate) fn of_root(refusal: TreeError) -> AskError
    requires read { (down : Bool) × ReadRefusal down refusal }
    ensures bad { (page : ℕ) → result ≡ AskError.BadNode page → refusal ≡ TreeError.BadNode page }
    ensures damaged { (block : ℕ) → result ≡ AskError.Damaged block → refusal ≡ TreeError.Damaged block }
    ensures refused { (down : Bool) → ReadRefusal down refusal → LookRefusal down result }
    ensures fault { (result ≡ AskError.Fault) ↔ (refusal ≡ TreeError.Pages PageError.Fault) }
{
    match refusal {
        TreeError::BadNode(page) => AskError::BadNode(page),
        TreeError::Pages(PageError::Fault) => AskError::Fault,
        TreeError::Pages(PageError::NeedsRecovery) => AskError::NeedsRecovery,
        TreeError::OutOfMemory => AskError::OutOfMemory,
        TreeError::StampBack
        | TreeError::TooHigh
        | TreeError::Damaged(_)
        | TreeError::Pages(_)
        | TreeError::Once(_) => unreachable!(),
    }
}
