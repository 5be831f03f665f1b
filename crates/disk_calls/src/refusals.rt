//! The refusals of an archive on disks, as those that feeds and questions know.

ghost use Rattle.std.specs.Prelude.{◌≡◌};
ghost use Rattle.disk_calls.specs.inner.Refusals.{of_admit, of_apply, of_ask, of_check, of_flush, of_mark};

use archive_calls::{AdmitError, AskError, MarkError, Trouble};
use disk_archive as disks;

/// Why a batch isn't taken.
pub(crate) fn admit_refusal(refusal: disks::AdmitError) -> AdmitError
    ensures why { result ≡ of_admit refusal }
{
    match refusal {
        disks::AdmitError::NeedsRecovery => AdmitError::Trouble(Trouble::NeedsRecovery),
        disks::AdmitError::NoCollector => AdmitError::NoCollector,
        disks::AdmitError::BatchTooLarge => AdmitError::BatchTooLarge,
        disks::AdmitError::CounterFull => AdmitError::CounterFull,
        disks::AdmitError::IntakeFull => AdmitError::IntakeFull,
        disks::AdmitError::BadNode(page) => AdmitError::Trouble(Trouble::BadNode(page)),
        disks::AdmitError::Fault => AdmitError::Trouble(Trouble::Fault),
        disks::AdmitError::OutOfMemory => AdmitError::Trouble(Trouble::OutOfMemory),
    }
}

/// Why a mark isn't set.
pub(crate) fn mark_refusal(refusal: disks::MarkError) -> MarkError
    ensures why { result ≡ of_mark refusal }
{
    match refusal {
        disks::MarkError::NeedsRecovery => MarkError::Trouble(Trouble::NeedsRecovery),
        disks::MarkError::NoCollector => MarkError::NoCollector,
        disks::MarkError::MarkBack => MarkError::MarkBack,
        disks::MarkError::Fault => MarkError::Trouble(Trouble::Fault),
        disks::MarkError::OutOfMemory => MarkError::Trouble(Trouble::OutOfMemory),
    }
}

/// Why nothing is applied.
pub(crate) fn apply_trouble(refusal: disks::ApplyError) -> Trouble
    ensures why { result ≡ of_apply refusal }
{
    match refusal {
        disks::ApplyError::NeedsRecovery => Trouble::NeedsRecovery,
        disks::ApplyError::CounterFull => Trouble::CounterFull,
        disks::ApplyError::TooHigh => Trouble::TooHigh,
        disks::ApplyError::PagesFull => Trouble::PagesFull,
        disks::ApplyError::OnceFull => Trouble::OnceFull,
        disks::ApplyError::BadNode(page) => Trouble::BadNode(page),
        disks::ApplyError::Fault => Trouble::Fault,
        disks::ApplyError::OutOfMemory => Trouble::OutOfMemory,
    }
}

/// Why no page goes home.
pub(crate) fn flush_trouble(refusal: disks::FlushError) -> Trouble
    ensures why { result ≡ of_flush refusal }
{
    match refusal {
        disks::FlushError::NeedsRecovery => Trouble::NeedsRecovery,
        disks::FlushError::Fault => Trouble::Fault,
    }
}

/// Why a question isn't answered.
pub(crate) fn ask_refusal(refusal: disks::AskError) -> AskError
    ensures why { result ≡ of_ask refusal }
{
    match refusal {
        disks::AskError::NeedsRecovery => AskError::Trouble(Trouble::NeedsRecovery),
        disks::AskError::AboveWatermark(settled) => AskError::AboveWatermark(settled),
        disks::AskError::BadNode(page) => AskError::Trouble(Trouble::BadNode(page)),
        disks::AskError::Damaged(block) => AskError::Trouble(Trouble::Damaged(block)),
        disks::AskError::Fault => AskError::Trouble(Trouble::Fault),
        disks::AskError::OutOfMemory => AskError::Trouble(Trouble::OutOfMemory),
    }
}

/// Why a check isn't done, or what it found.
pub(crate) fn check_trouble(refusal: disks::CheckError) -> Trouble
    ensures why { result ≡ of_check refusal }
{
    match refusal {
        disks::CheckError::NeedsRecovery => Trouble::NeedsRecovery,
        disks::CheckError::BadNode(page) => Trouble::BadNode(page),
        disks::CheckError::Damaged(block) => Trouble::Damaged(block),
        disks::CheckError::Fault => Trouble::Fault,
        disks::CheckError::OutOfMemory => Trouble::OutOfMemory,
    }
}
