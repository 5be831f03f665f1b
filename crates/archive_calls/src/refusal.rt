//! Why calls on an archive are refused.

ghost use Rattle.std.specs.Prelude.{◌≡◌};
ghost use Rattle.archive_calls.specs.declared.refusal.Trouble.TheVariants as troubles;
ghost use Rattle.archive_calls.specs.declared.refusal.AskError.TheVariants as asks;

use route_model::Mark;
use std::alloc::AllocError;
use thiserror::Error;

/// Why a call on an archive failed that it could have taken.
#[derive(Clone, Copy, Debug, PartialEq, Eq, Error)]
pub enum Trouble {
    /// A device failed. After a write or a sync the archive must be opened again.
    #[error("a device failed")]
    Fault,
    /// An earlier write or sync failed, and the archive wasn't opened again since.
    #[error("the archive must be opened again")]
    NeedsRecovery,
    /// No page is left.
    #[error("no page is left")]
    PagesFull,
    /// No blank block is left.
    #[error("no block is left")]
    OnceFull,
    /// The block of this number isn't what may stand there.
    #[error("block {0} is damaged")]
    Damaged(u64),
    /// The page of this number isn't what may stand there.
    #[error("page {0} is damaged")]
    BadNode(u64),
    /// The tree would need a seventh level of key nodes.
    #[error("the tree is too high")]
    TooHigh,
    /// This many changes can't be counted.
    #[error("the count of applied changes is full")]
    CounterFull,
    /// An allocation failed.
    #[error("out of memory")]
    OutOfMemory,
}

/// Why a batch isn't taken. The first of these that holds is reported, but for troubles.
#[derive(Clone, Copy, Debug, PartialEq, Eq, Error)]
pub enum AdmitError {
    /// The archive has no collector of this number.
    #[error("no such collector")]
    NoCollector,
    /// The batch has more than [`crate::MAX_BATCH_LEN`] octets.
    #[error("the batch has more than 262144 octets")]
    BatchTooLarge,
    /// This many records can't be counted.
    #[error("the count of offered records is full")]
    CounterFull,
    /// The collector's ring has too few free octets.
    #[error("the intake is full")]
    IntakeFull,
    #[error("{0}")]
    Trouble(Trouble),
}

/// Why a mark isn't set.
#[derive(Clone, Copy, Debug, PartialEq, Eq, Error)]
pub enum MarkError {
    /// The archive has no collector of this number.
    #[error("no such collector")]
    NoCollector,
    /// The mark is below the collector's mark.
    #[error("the mark is below the collector's mark")]
    MarkBack,
    #[error("{0}")]
    Trouble(Trouble),
}

/// Why a question isn't answered.
#[derive(Clone, Copy, Debug, PartialEq, Eq, Error)]
pub enum AskError {
    /// The last moment of the question isn't below the settled watermark, which this is.
    #[error("the moment isn't below the settled watermark")]
    AboveWatermark(Mark),
    #[error("{0}")]
    Trouble(Trouble),
}

impl From<AllocError> for Trouble {
    ghost from_gives = { λ _ trouble. trouble ≡ troubles.OutOfMemory };

    fn from(_: AllocError) -> Self {
        Trouble::OutOfMemory
    }
}

impl From<Trouble> for AskError {
    ghost from_gives = { λ trouble e. e ≡ asks.Trouble trouble };

    fn from(trouble: Trouble) -> Self {
        AskError::Trouble(trouble)
    }
}
