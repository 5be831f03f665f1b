//! The refusals of an archive on disks, as those that threads know.

ghost use Rattle.std.specs.Prelude.{◌≡◌};
ghost use Rattle.shared_archive.specs.inner.StoreCalls.{of_admit, of_apply, of_ask, of_block, of_flush, of_mark};

use disk_archive::{AdmitError, ApplyError, AskError, FlushError, MarkError};
use once_store::BlockError;
use query_threads as threads;
use query_threads::Trouble;

// Why a batch isn't taken.
pub(crate) fn admit_refusal(refusal: AdmitError) -> threads::AdmitError
    ensures why { result ≡ of_admit refusal }
{
    match refusal {
        AdmitError::NeedsRecovery => threads::AdmitError::Trouble(Trouble::NeedsRecovery),
        AdmitError::NoCollector => threads::AdmitError::NoCollector,
        AdmitError::BatchTooLarge => threads::AdmitError::BatchTooLarge,
        AdmitError::CounterFull => threads::AdmitError::CounterFull,
        AdmitError::IntakeFull => threads::AdmitError::IntakeFull,
        AdmitError::BadNode(page) => threads::AdmitError::Trouble(Trouble::DamagedPage(page)),
        AdmitError::Fault => threads::AdmitError::Trouble(Trouble::Fault),
        AdmitError::OutOfMemory => threads::AdmitError::Trouble(Trouble::OutOfMemory),
    }
}

// Why a mark isn't set.
pub(crate) fn mark_refusal(refusal: MarkError) -> threads::MarkError
    ensures why { result ≡ of_mark refusal }
{
    match refusal {
        MarkError::NeedsRecovery => threads::MarkError::Trouble(Trouble::NeedsRecovery),
        MarkError::NoCollector => threads::MarkError::NoCollector,
        MarkError::MarkBack => threads::MarkError::MarkBack,
        MarkError::Fault => threads::MarkError::Trouble(Trouble::Fault),
        MarkError::OutOfMemory => threads::MarkError::Trouble(Trouble::OutOfMemory),
    }
}

// Why nothing is applied.
pub(crate) fn apply_trouble(refusal: ApplyError) -> Trouble
    ensures why { result ≡ of_apply refusal }
{
    match refusal {
        ApplyError::NeedsRecovery => Trouble::NeedsRecovery,
        ApplyError::CounterFull => Trouble::CounterFull,
        ApplyError::TooHigh => Trouble::TooHigh,
        ApplyError::PagesFull => Trouble::PagesFull,
        ApplyError::OnceFull => Trouble::OnceFull,
        ApplyError::BadNode(page) => Trouble::DamagedPage(page),
        ApplyError::Fault => Trouble::Fault,
        ApplyError::OutOfMemory => Trouble::OutOfMemory,
    }
}

// Why no page goes home.
pub(crate) fn flush_trouble(refusal: FlushError) -> Trouble
    ensures why { result ≡ of_flush refusal }
{
    match refusal {
        FlushError::NeedsRecovery => Trouble::NeedsRecovery,
        FlushError::Fault => Trouble::Fault,
    }
}

// Why a question isn't answered.
pub(crate) fn ask_refusal(refusal: AskError) -> threads::AskError
    ensures why { result ≡ of_ask refusal }
{
    match refusal {
        AskError::NeedsRecovery => threads::AskError::Trouble(Trouble::NeedsRecovery),
        AskError::AboveWatermark(settled) => threads::AskError::AboveWatermark(settled),
        AskError::BadNode(page) => threads::AskError::Trouble(Trouble::DamagedPage(page)),
        AskError::Damaged(block) => threads::AskError::Trouble(Trouble::DamagedBlock(block)),
        AskError::Fault => threads::AskError::Trouble(Trouble::Fault),
        AskError::OutOfMemory => threads::AskError::Trouble(Trouble::OutOfMemory),
    }
}

// Why a block isn't read.
pub(crate) fn block_trouble(refusal: BlockError) -> Trouble
    ensures why { result ≡ of_block refusal }
{
    match refusal {
        BlockError::Fault => Trouble::Fault,
        BlockError::Damaged(block) => Trouble::DamagedBlock(block),
        BlockError::OutOfMemory => Trouble::OutOfMemory,
    }
}
