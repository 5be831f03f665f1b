//! Why a change isn't applied.

ghost use Rattle.std.specs.Prelude.{◌≡◌, ◌≢◌, ◌<◌, ◌+◌, ◌↔◌, ℕ, Bool, true};
ghost use Rattle.intake.specs.Calls.{PageRefusal};
ghost use Rattle.disk_archive.specs.declared.apply_error.ApplyError.TheVariants as applies;
ghost use Rattle.disk_archive.specs.inner.Applications.{ApplyRefusal, FrontRefusal, LimitRefusal};

use crate::error::NeedsRecovery;
use disk_models::Fault;
use page_journal::UseError;
use page_tx::PageError;
use std::alloc::AllocError;
use thiserror::Error;

/// Why a change isn't applied.
#[derive(Clone, Copy, Debug, PartialEq, Eq, Error)]
pub enum ApplyError {
    /// An earlier write or sync failed, and the archive wasn't opened again since.
    #[error("the archive must be opened again")]
    NeedsRecovery,
    /// This many changes can't be counted.
    #[error("the count of applied changes is full")]
    CounterFull,
    /// The tree would need a seventh level of key nodes.
    #[error("the tree would need a seventh level of key nodes")]
    TooHigh,
    /// The tree needs more pages than there are.
    #[error("no page is left that was never used")]
    PagesFull,
    /// The tree needs a block, and no blank one is left.
    #[error("the write-once disk is full")]
    OnceFull,
    /// The content read from the home page of this number isn't valid in an archive.
    #[error("page {0} is damaged")]
    BadNode(u64),
    /// A device failed. After a write or a sync of pages the archive must be opened again.
    #[error("the device failed")]
    Fault,
    /// An allocation failed, before a page was written.
    #[error("out of memory")]
    OutOfMemory,
}

impl From<AllocError> for ApplyError {
    ghost from_gives = { λ _ e. e ≡ applies.OutOfMemory };

    fn from(_: AllocError) -> Self {
        ApplyError::OutOfMemory
    }
}

impl From<Fault> for ApplyError {
    ghost from_gives = { λ _ e. e ≡ applies.Fault };

    fn from(_: Fault) -> Self {
        ApplyError::Fault
    }
}

impl From<UseError> for ApplyError {
    ghost use Rattle.disk_archive.specs.inner.Applications.{apply_of_use};

    ghost from_gives = { λ refusal e. e ≡ apply_of_use refusal };

    fn from(refusal: UseError) -> Self {
        match refusal {
            UseError::Fault => ApplyError::Fault,
            UseError::NeedsRecovery => ApplyError::NeedsRecovery,
        }
    }
}

impl From<NeedsRecovery> for ApplyError {
    ghost from_gives = { λ _ e. e ≡ applies.NeedsRecovery };

    fn from(_: NeedsRecovery) -> Self {
        ApplyError::NeedsRecovery
    }
}

/// A refusal of pages of which few have images.
pub(crate) fn of_pages(refusal: PageError) -> ApplyError
    requires few { refusal ≢ PageError.TooManyImages }
    ensures bad { (page : ℕ) → result ≢ ApplyError.BadNode page }
    ensures once { result ≢ ApplyError.OnceFull }
    ensures high { result ≢ ApplyError.TooHigh }
    ensures full { result ≡ ApplyError.PagesFull → refusal ≡ PageError.PagesFull }
    ensures fault { (result ≡ ApplyError.Fault) ↔ (refusal ≡ PageError.Fault) }
    ensures reads { (down : Bool) → PageRefusal down refusal → FrontRefusal down result }
    ensures limits { (homes next count : ℕ) → (refusal ≡ PageError.PagesFull → homes < next + 9) → LimitRefusal homes next count result }
    ensures refused { (down : Bool) → (refusal ≡ PageError.NeedsRecovery → down ≡ true) → ApplyRefusal down result }
{
    match refusal {
        PageError::Fault => ApplyError::Fault,
        PageError::NeedsRecovery => ApplyError::NeedsRecovery,
        PageError::PagesFull => ApplyError::PagesFull,
        PageError::OutOfMemory => ApplyError::OutOfMemory,
        PageError::TooManyImages => unreachable!(),
    }
}
