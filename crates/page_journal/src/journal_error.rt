//! All refusals of a journal in one list.
use crate::error::{CreateError, OpenError, PostError, UseError};
use std::alloc::AllocError;
use thiserror::Error;

/// Why some call of a journal is refused, as one list of all reasons. Each call has its own.
#[derive(Clone, Copy, Debug, PartialEq, Eq, Error)]
pub enum JournalError {
    /// The device failed.
    #[error("the device failed")]
    Fault,
    /// A post has more than 31 pages.
    #[error("a transaction would hold more than 31 pages")]
    TooManyImages,
    /// No slot is closed.
    #[error("no slot of the journal is closed")]
    JournalFull,
    /// The disk has no journal.
    #[error("the disk holds no journal")]
    NotAJournal,
    /// The journal must be opened again.
    #[error("the journal must be opened again")]
    NeedsRecovery,
    /// The disk is too small for this many home pages.
    #[error("the disk has too few pages")]
    PagesFull,
    /// This page of the disk is damaged.
    #[error("page {0} of the disk is damaged")]
    BadNode(u64),
    /// An allocation failed.
    #[error("out of memory")]
    OutOfMemory,
}

impl From<AllocError> for JournalError {
    ghost use Rattle.std.specs.Prelude.{◌≡◌};
    ghost use Rattle.page_journal.specs.declared.journal_error.JournalError.TheVariants as refusals;

    ghost from_gives = { λ _ e. e ≡ refusals.OutOfMemory };

    fn from(_: AllocError) -> Self {
        JournalError::OutOfMemory
    }
}

impl From<CreateError> for JournalError {
    ghost use Rattle.std.specs.Prelude.{◌≡◌};
    ghost use Rattle.page_journal.specs.OneList.{of_creation};

    ghost from_gives = { λ creation e. e ≡ of_creation creation };

    fn from(creation: CreateError) -> Self {
        match creation {
            CreateError::Fault => JournalError::Fault,
            CreateError::PagesFull => JournalError::PagesFull,
            CreateError::OutOfMemory => JournalError::OutOfMemory,
        }
    }
}

impl From<OpenError> for JournalError {
    ghost use Rattle.std.specs.Prelude.{◌≡◌};
    ghost use Rattle.page_journal.specs.OneList.{of_opening};

    ghost from_gives = { λ opening e. e ≡ of_opening opening };

    fn from(opening: OpenError) -> Self {
        match opening {
            OpenError::Fault => JournalError::Fault,
            OpenError::NotAJournal => JournalError::NotAJournal,
            OpenError::BadNode(page) => JournalError::BadNode(page),
            OpenError::OutOfMemory => JournalError::OutOfMemory,
        }
    }
}

impl From<PostError> for JournalError {
    ghost use Rattle.std.specs.Prelude.{◌≡◌};
    ghost use Rattle.page_journal.specs.OneList.{of_post};

    ghost from_gives = { λ post e. e ≡ of_post post };

    fn from(post: PostError) -> Self {
        match post {
            PostError::Fault => JournalError::Fault,
            PostError::TooManyImages => JournalError::TooManyImages,
            PostError::JournalFull => JournalError::JournalFull,
            PostError::NeedsRecovery => JournalError::NeedsRecovery,
        }
    }
}

impl From<UseError> for JournalError {
    ghost use Rattle.std.specs.Prelude.{◌≡◌};
    ghost use Rattle.page_journal.specs.OneList.{of_use};

    ghost from_gives = { λ refusal e. e ≡ of_use refusal };

    fn from(refusal: UseError) -> Self {
        match refusal {
            UseError::Fault => JournalError::Fault,
            UseError::NeedsRecovery => JournalError::NeedsRecovery,
        }
    }
}
