//! What calls on an archive return.
ghost use Rattle.std.specs.Prelude.{◌≡◌};
ghost use Rattle.query_threads.specs.declared.refusal.AskError.TheVariants as asks;

use interleaving_core::Answer;
use route_model::Mark;
use thiserror::Error;

/// Why a call on an archive failed.
#[derive(Clone, Copy, Debug, PartialEq, Eq, Error)]
pub enum Trouble {
    /// A device failed.
    #[error("a device failed")]
    Fault,
    /// A write or a sync failed earlier: the archive has to be opened again.
    #[error("the archive has to be opened again")]
    NeedsRecovery,
    /// A page isn't what was put there.
    #[error("page {0} is damaged")]
    DamagedPage(u64),
    /// A block isn't what was put there.
    #[error("block {0} is damaged")]
    DamagedBlock(u64),
    /// The count of applied changes would overflow.
    #[error("the count of applied changes is full")]
    CounterFull,
    /// The tree would need a seventh level of key nodes.
    #[error("the tree is too high")]
    TooHigh,
    /// Too few pages are left that were never used.
    #[error("no page is left")]
    PagesFull,
    /// No blank block is left.
    #[error("no block is left")]
    OnceFull,
    /// An allocation failed.
    #[error("out of memory")]
    OutOfMemory,
}

/// Why a batch isn't taken.
#[derive(Clone, Copy, Debug, PartialEq, Eq, Error)]
pub enum AdmitError {
    #[error("there is no such collector")]
    NoCollector,
    #[error("the batch has more than 262144 octets")]
    BatchTooLarge,
    #[error("too many records to count")]
    CounterFull,
    #[error("the intake is full")]
    IntakeFull,
    #[error("{0}")]
    Trouble(Trouble),
}

/// Why a mark isn't set.
#[derive(Clone, Copy, Debug, PartialEq, Eq, Error)]
pub enum MarkError {
    #[error("there is no such collector")]
    NoCollector,
    #[error("the mark is below the collector's")]
    MarkBack,
    #[error("{0}")]
    Trouble(Trouble),
}

/// Why a question isn't answered.
#[derive(Clone, Copy, Debug, PartialEq, Eq, Error)]
pub enum AskError {
    /// The last moment of the question isn't below the settled watermark, which this is.
    #[error("the moment isn't settled")]
    AboveWatermark(Mark),
    #[error("{0}")]
    Trouble(Trouble),
}

impl From<Trouble> for AskError {
    ghost from_gives = { λ trouble e. e ≡ asks.Trouble trouble };

    fn from(trouble: Trouble) -> Self {
        AskError::Trouble(trouble)
    }
}

/// What a step of applying did.
#[derive(Clone, Copy, Debug, PartialEq, Eq)]
pub enum Step {
    /// A change is applied at least, or an admission without changes.
    Applied,
    /// Nothing may be applied.
    Idle,
}

/// What a step of flushing did.
#[derive(Clone, Copy, Debug, PartialEq, Eq)]
pub enum Flush {
    /// A page was written.
    Flushed,
    /// No page waits.
    Clean,
}

/// What a descent of a question came to.
#[derive(Drop)]
pub enum Turn<E> {
    Done(Answer),
    Again,
    /// Blocks have to be read, which needs no archive.
    Historical(E),
}
