//! Questions that the archive refuses.

use crate::status::Status;
use dates::Seconds;
use service::Refusal;

/// The status of a question that is refused.
pub(crate) fn status_of(refusal: &Refusal) -> Status {
    match refusal {
        Refusal::BadRequest => Status::BadRequest,
        Refusal::NoCollector => Status::NotFound,
        Refusal::AboveWatermark(_) => Status::Conflict,
        Refusal::OutOfMemory | Refusal::NeedsRecovery => Status::Unavailable,
        _ => Status::Failed,
    }
}

/// What helps.
pub(crate) fn advice_on(refusal: &Refusal) -> &'static str {
    match refusal {
        Refusal::AboveWatermark(_) => "ask below it",
        Refusal::OutOfMemory | Refusal::NeedsRecovery => "ask again later",
        _ => "the archive couldn't answer",
    }
}

/// The settled watermark, if the question isn't below it.
pub(crate) fn settled_of(refusal: &Refusal) -> Option<Seconds> {
    match refusal {
        Refusal::AboveWatermark(settled) => Some(Seconds {
            micros: settled.number(),
        }),
        _ => None,
    }
}

/// The block that is damaged.
pub(crate) fn block_of(refusal: &Refusal) -> Option<u64> {
    match refusal {
        Refusal::Damaged(block) => Some(*block),
        _ => None,
    }
}

/// The page that is damaged.
pub(crate) fn page_of(refusal: &Refusal) -> Option<u64> {
    match refusal {
        Refusal::BadNode(page) => Some(*page),
        _ => None,
    }
}
