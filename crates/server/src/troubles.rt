//! What calls on a shared archive return, in the words of lines.

ghost use Rattle.std.specs.Prelude.{◌≡◌};
ghost use Rattle.server.specs.Troubles.{of_ask, of_mark, of_shared};

use query_threads::{AskError, MarkError, Trouble};
use service::{LoadStop, Unanswered};

/// What a shared archive couldn't do.
pub fn trouble_of(trouble: Trouble) -> archive_calls::Trouble
    ensures { result ≡ of_shared trouble }
{
    match trouble {
        Trouble::Fault => archive_calls::Trouble::Fault,
        Trouble::NeedsRecovery => archive_calls::Trouble::NeedsRecovery,
        Trouble::DamagedPage(page) => archive_calls::Trouble::BadNode(page),
        Trouble::DamagedBlock(block) => archive_calls::Trouble::Damaged(block),
        Trouble::CounterFull => archive_calls::Trouble::CounterFull,
        Trouble::TooHigh => archive_calls::Trouble::TooHigh,
        Trouble::PagesFull => archive_calls::Trouble::PagesFull,
        Trouble::OnceFull => archive_calls::Trouble::OnceFull,
        Trouble::OutOfMemory => archive_calls::Trouble::OutOfMemory,
    }
}

/// Why a question isn't answered.
pub(crate) fn unanswered(refusal: AskError) -> Unanswered
    ensures { result ≡ of_ask refusal }
{
    match refusal {
        AskError::AboveWatermark(settled) => Unanswered::AboveWatermark(settled),
        AskError::Trouble(trouble) => Unanswered::Trouble(trouble_of(trouble)),
    }
}

/// Why a mark isn't set.
pub(crate) fn unmarked(refusal: MarkError) -> LoadStop
    ensures { result ≡ of_mark refusal }
{
    match refusal {
        MarkError::NoCollector => LoadStop::NoCollector,
        MarkError::MarkBack => LoadStop::MarkBack,
        MarkError::Trouble(trouble) => LoadStop::Trouble(trouble_of(trouble)),
    }
}
