//! Why a transaction doesn't read, set or add a page.
ghost use Rattle.std.specs.Prelude.{◌≡◌};
ghost use Rattle.page_tx.specs.declared.error.PageError.TheVariants as refusals;

use buffer_pool::FetchError;
use std::alloc::AllocError;
use thiserror::Error;

/// Why a transaction doesn't read, set or add a page.
#[derive(Clone, Copy, Debug, PartialEq, Eq, Error)]
pub enum PageError {
    /// The device failed. The transaction goes on.
    #[error("the device failed")]
    Fault,
    /// An earlier write or sync failed, and the journal wasn't opened again since.
    #[error("the journal must be opened again")]
    NeedsRecovery,
    /// The transaction would have images of more than 31 pages.
    #[error("a transaction would hold more than 31 pages")]
    TooManyImages,
    /// Fewer unused pages are left than the call needs.
    #[error("too few pages are left")]
    PagesFull,
    /// An allocation failed.
    #[error("out of memory")]
    OutOfMemory,
}

impl From<AllocError> for PageError {
    ghost from_gives = { λ _ e. e ≡ refusals.OutOfMemory };

    fn from(_: AllocError) -> Self {
        PageError::OutOfMemory
    }
}

impl From<FetchError> for PageError {
    ghost use Rattle.page_tx.specs.Refusals.{of_fetch};

    ghost from_gives = { λ refusal e. e ≡ of_fetch refusal };

    fn from(refusal: FetchError) -> Self {
        match refusal {
            FetchError::Fault => PageError::Fault,
            FetchError::NeedsRecovery => PageError::NeedsRecovery,
            FetchError::OutOfMemory => PageError::OutOfMemory,
        }
    }
}
