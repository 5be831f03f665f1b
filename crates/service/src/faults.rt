//! The refusals of each call, and their place in the one list.

ghost use Rattle.std.specs.Prelude.{◌≡◌};
ghost use Rattle.service.specs.Faults.{of_cut, of_load, of_record, of_stop, of_trouble, of_unanswered};
ghost use Rattle.service.specs.inner.Feeding.{of_admit};
ghost use Rattle.service.specs.declared.faults.LoadStop.TheVariants as ends;

use crate::refusal::Refusal;
use archive_calls::{AdmitError, Trouble};
use resolve::ResolveFault;
use route_model::Mark;
use thiserror::Error;

/// Why a feed is cut short. What came before is admitted.
#[derive(Clone, Copy, Debug, Error, PartialEq, Eq)]
pub enum FeedCut {
    /// It ended inside a record.
    #[error("the feed ended inside a record")]
    Truncated,
    /// The Length of a record is above 131,072.
    #[error("the length of a record is above 131072")]
    TooLong,
}

/// Why a feed is given up. What its first records gave is admitted.
#[derive(Clone, Copy, Debug, Error, PartialEq, Eq)]
pub enum FeedStop {
    /// There is no collector of this number.
    #[error("no such collector")]
    NoCollector,
    /// The count of offered records would pass 18446744073709551615.
    #[error("the count of offered records is full")]
    CounterFull,
    /// The collector's ring has too few free octets for a batch, and nothing more can be applied.
    #[error("the intake is full")]
    IntakeFull,
    /// The archive couldn't take a batch that it could have taken, or memory ran out.
    #[error("{0}")]
    Trouble(Trouble),
    /// The reader or the writer failed.
    #[error("the reader or the writer failed")]
    Outside,
}

/// Why a load ends outside its feed.
#[derive(Clone, Copy, Debug, Error, PartialEq, Eq)]
pub enum LoadStop {
    /// There is no collector of this number.
    #[error("no such collector")]
    NoCollector,
    /// The mark to be set is below the collector's mark.
    #[error("the mark is below the collector's mark")]
    MarkBack,
    /// The archive couldn't set the mark, apply or flush.
    #[error("{0}")]
    Trouble(Trouble),
}

/// Why a request line isn't answered.
#[derive(Clone, Copy, Debug, Error, PartialEq, Eq)]
pub enum Unanswered {
    /// The line is no request.
    #[error("the line is no request")]
    BadRequest,
    /// The question's moment isn't below the settled watermark, which this is.
    #[error("the moment isn't below the settled watermark")]
    AboveWatermark(Mark),
    /// There is no collector of this number.
    #[error("no such collector")]
    NoCollector,
    /// The archive couldn't answer, or memory ran out.
    #[error("{0}")]
    Trouble(Trouble),
}

/// Why a batch of a feed isn't admitted, as the reason why the feed is given up.
pub(crate) fn stop_of(refusal: AdmitError) -> FeedStop
    ensures { result ≡ of_admit refusal }
{
    match refusal {
        AdmitError::NoCollector => FeedStop::NoCollector,
        AdmitError::CounterFull => FeedStop::CounterFull,
        AdmitError::IntakeFull => FeedStop::IntakeFull,
        // What a feed offers is never too large for a batch.
        AdmitError::BatchTooLarge => FeedStop::Trouble(Trouble::OutOfMemory),
        AdmitError::Trouble(trouble) => FeedStop::Trouble(trouble),
    }
}

impl From<Trouble> for LoadStop {
    ghost from_gives = { λ trouble stop. stop ≡ ends.Trouble trouble };

    fn from(trouble: Trouble) -> LoadStop {
        LoadStop::Trouble(trouble)
    }
}

impl From<Trouble> for Refusal {
    ghost from_gives = { λ trouble refusal. refusal ≡ of_trouble trouble };

    fn from(trouble: Trouble) -> Refusal {
        match trouble {
            Trouble::Fault => Refusal::Fault,
            Trouble::NeedsRecovery => Refusal::NeedsRecovery,
            Trouble::PagesFull => Refusal::PagesFull,
            Trouble::OnceFull => Refusal::OnceFull,
            Trouble::Damaged(block) => Refusal::Damaged(block),
            Trouble::BadNode(page) => Refusal::BadNode(page),
            Trouble::TooHigh => Refusal::TooHigh,
            Trouble::CounterFull => Refusal::CounterFull,
            Trouble::OutOfMemory => Refusal::OutOfMemory,
        }
    }
}

impl From<ResolveFault> for Refusal {
    ghost from_gives = { λ fault refusal. refusal ≡ of_record fault };

    fn from(fault: ResolveFault) -> Refusal {
        match fault {
            ResolveFault::Malformed => Refusal::Malformed,
            ResolveFault::RouteTooLarge => Refusal::RouteTooLarge,
            ResolveFault::NoPeerTable => Refusal::NoPeerTable,
            ResolveFault::BadPeerIndex => Refusal::BadPeerIndex,
            ResolveFault::AdmissionTooLarge => Refusal::AdmissionTooLarge,
            ResolveFault::OutOfMemory => Refusal::OutOfMemory,
        }
    }
}

impl From<FeedCut> for Refusal {
    ghost from_gives = { λ cut refusal. refusal ≡ of_cut cut };

    fn from(cut: FeedCut) -> Refusal {
        match cut {
            FeedCut::Truncated => Refusal::Truncated,
            FeedCut::TooLong => Refusal::TooLong,
        }
    }
}

impl From<FeedStop> for Refusal {
    ghost from_gives = { λ stop refusal. refusal ≡ of_stop stop };

    fn from(stop: FeedStop) -> Refusal {
        match stop {
            FeedStop::NoCollector => Refusal::NoCollector,
            FeedStop::CounterFull => Refusal::CounterFull,
            FeedStop::IntakeFull => Refusal::IntakeFull,
            FeedStop::Trouble(trouble) => Refusal::from(trouble),
            FeedStop::Outside => Refusal::Outside,
        }
    }
}

impl From<LoadStop> for Refusal {
    ghost from_gives = { λ stop refusal. refusal ≡ of_load stop };

    fn from(stop: LoadStop) -> Refusal {
        match stop {
            LoadStop::NoCollector => Refusal::NoCollector,
            LoadStop::MarkBack => Refusal::MarkBack,
            LoadStop::Trouble(trouble) => Refusal::from(trouble),
        }
    }
}

impl From<Unanswered> for Refusal {
    ghost from_gives = { λ why refusal. refusal ≡ of_unanswered why };

    fn from(why: Unanswered) -> Refusal {
        match why {
            Unanswered::BadRequest => Refusal::BadRequest,
            Unanswered::AboveWatermark(settled) => Refusal::AboveWatermark(settled),
            Unanswered::NoCollector => Refusal::NoCollector,
            Unanswered::Trouble(trouble) => Refusal::from(trouble),
        }
    }
}
