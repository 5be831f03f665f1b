//! What steps reply.

use crate::query::Answer;
use route_model::Mark;
use sequencer::Late;

/// Which admissions of a collector a batch became: those from number `from` to below number `to`. The first
/// admission of a collector has the number 0.
#[derive(Clone, Copy, Debug, PartialEq, Eq)]
pub struct Receipt {
    pub collector: u8,
    pub from: u64,
    pub to: u64,
}

/// What became of a batch.
#[derive(Debug, Drop)]
pub struct BatchReply {
    pub receipt: Receipt,
    /// How many records were offered for the collector until now, those that came late counted too.
    pub offered: u64,
    /// The records of the batch that came late, in their order. They aren't admitted.
    pub late: Vec<Late>,
}

/// Where a collector goes on: how many records were offered for it, how many of them were admitted, and its mark.
#[derive(Clone, Copy, Debug, PartialEq, Eq)]
pub struct Resume {
    pub offered: u64,
    pub admitted: u64,
    pub mark: Mark,
}

/// What a step replies.
#[derive(Debug, Drop)]
pub enum Reply {
    /// The batch is taken.
    Taken(BatchReply),
    /// The mark is set.
    Marked,
    /// There is no collector of this number.
    NoCollector,
    /// The mark is below the collector's mark.
    MarkBack,
    /// A change is applied at least, or an admission without changes.
    Applied,
    /// Nothing may be applied: no admission that waits is below every mark.
    Idle,
    /// Nothing is left to write.
    Flushed,
    /// The question is in progress under this number.
    Begun(usize),
    /// The question needs further turns.
    Again,
    /// The question is done: its answer.
    Done(Answer),
    /// The last moment of the question isn't below the settled watermark, which this is.
    AboveWatermark(Mark),
    /// No question of this number is in progress.
    NoQuestion,
    /// All is down, and all questions are ended.
    Crashed,
    /// All is up.
    Recovered,
    /// All is down, and nothing was done.
    NeedsRecovery,
}
