//! Which counts of a feed, and which marks, are in doubt.

ghost use Rattle.std.specs.Prelude.{◌≡◌, ◌<◌, ◌*◌, ◌↔◌, ℕ, Option, IsTrue, option_map};
ghost use Rattle.service.specs.Doubts.{IsDoubtful, IsFar, IsHeld, IsSkipped};

use crate::feed_lines::FeedCounts;
use route_model::Mark;

/// How many microseconds a mark may be after its collector's last record without being in doubt: a day.
pub const DAY: u64 = 86_400_000_000;

/// Why the counts of a feed are in doubt. Several reasons may apply at once.
#[derive(Clone, Copy, Debug, PartialEq, Eq)]
pub struct FeedDoubt {
    /// There was no record.
    pub is_empty: bool,
    /// Records were late, and none was admitted.
    pub is_late: bool,
    /// More than one record in a hundred was refused.
    pub is_refused: bool,
    /// Records were skipped, and nothing of the feed is kept.
    pub is_skipped: bool,
}

/// Whether records of a feed were skipped and nothing of it is kept, of whose admissions this many were dropped since they were kept before.
fn is_skipped(counts: &FeedCounts, dropped: u64) -> bool
    ensures skipped { IsTrue result ↔ IsSkipped counts.now dropped }
{
    counts.skipped > 0 && counts.admitted == 0 && dropped == 0
}

/// Why these counts are in doubt, of a feed of whose admissions this many were dropped.
pub fn doubts_of(counts: &FeedCounts, dropped: u64) -> FeedDoubt
    ensures empty { IsTrue result.is_empty ↔ (counts.now.records ≡ 0) }
    ensures late { IsTrue result.is_late ↔ ((0 < counts.now.late) × (counts.now.admitted ≡ 0)) }
    ensures refused { IsTrue result.is_refused ↔ (counts.now.records < 100 * counts.now.refused) }
    ensures skipped { IsTrue result.is_skipped ↔ IsSkipped counts.now dropped }
{
    let hundredfold = 100 * u128::from(counts.refused);
    FeedDoubt {
        is_empty: counts.records == 0,
        is_late: counts.late > 0 && counts.admitted == 0,
        is_refused: hundredfold > u128::from(counts.records),
        is_skipped: is_skipped(counts, dropped),
    }
}

/// Whether a feed of these counts, of whose admissions this many were dropped, is in doubt.
fn is_doubtful(counts: &FeedCounts, dropped: u64) -> bool
    ensures doubtful { IsTrue result ↔ IsDoubtful counts.now dropped }
{
    let doubts = doubts_of(counts, dropped);
    doubts.is_empty || doubts.is_late || doubts.is_refused || doubts.is_skipped
}

/// Whether the mark lies more than a day after this one, in microseconds.
pub fn is_far(mark: Option<Mark>, present: u64) -> bool
    ensures far { IsTrue result ↔ IsFar mark present }
{
    match mark {
        Some(mark) => mark.number().saturating_sub(present) > DAY,
        None => false,
    }
}

/// Whether a load is held back: it is strict, and its feed, which came to its end with these counts and of whose admissions this many were
/// dropped, is in doubt, or its mark is, which is set if the collector's is at `present` microseconds.
pub(crate) fn is_held(
    is_strict: bool,
    mark: Option<Mark>,
    counts: &Option<FeedCounts>,
    dropped: u64,
    present: u64,
) -> bool
    ensures held { IsTrue result ↔ IsHeld is_strict mark counts.now dropped present }
{
    let Some(counts) = counts else {
        return false;
    };
    is_strict && (is_doubtful(counts, dropped) || is_far(mark, present))
}
