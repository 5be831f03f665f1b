//! Why a ring takes no batch, and why it isn't read.
ghost use Rattle.std.specs.Prelude.{◌≡◌};
ghost use Rattle.page_tx.specs.declared.error.PageError.TheVariants as pages;
ghost use Rattle.intake.specs.declared.error.IntakeError.TheVariants as intakes;
ghost use Rattle.intake.specs.declared.error.ReadError.TheVariants as reads;

use page_tx::PageError;
use std::alloc::AllocError;
use thiserror::Error;

/// Why a batch isn't put into a ring.
#[derive(Clone, Copy, Debug, PartialEq, Eq, Error)]
pub enum IntakeError {
    /// The ring has too few free octets.
    #[error("the intake is full")]
    IntakeFull,
    /// Pages aren't read or set, or an allocation failed.
    #[error("{0}")]
    Pages(PageError),
}

impl From<PageError> for IntakeError {
    ghost from_gives = { λ refusal e. e ≡ intakes.Pages refusal };

    fn from(refusal: PageError) -> Self {
        IntakeError::Pages(refusal)
    }
}

/// Why what waits in a ring isn't read.
#[derive(Clone, Copy, Debug, PartialEq, Eq, Error)]
pub enum ReadError {
    /// No entry begins on this page where one has to.
    #[error("page {0} is damaged")]
    BadNode(u64),
    /// Pages aren't read, or an allocation failed.
    #[error("{0}")]
    Pages(PageError),
}

impl From<PageError> for ReadError {
    ghost from_gives = { λ refusal e. e ≡ reads.Pages refusal };

    fn from(refusal: PageError) -> Self {
        ReadError::Pages(refusal)
    }
}

impl From<AllocError> for ReadError {
    ghost from_gives = { λ _ e. e ≡ reads.Pages pages.OutOfMemory };

    fn from(_: AllocError) -> Self {
        ReadError::Pages(PageError::OutOfMemory)
    }
}
