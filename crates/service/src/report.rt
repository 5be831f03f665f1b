//! What is reported of a load besides its lines and its status.

ghost use Rattle.std.specs.Prelude.{◌≡◌, false, None};

use crate::feed_lines::FeedCounts;
use crate::output::Input;
use crate::refusal::Refusal;
use route_model::Mark;
use std::io::Read;

/// What became of the load of a file, for messages to a person: the lines and the status are for programs.
#[derive(Clone, Copy, Debug, PartialEq, Eq)]
pub struct LoadReport {
    /// Whether the load came to this file.
    pub is_begun: bool,
    /// The collector's mark before, if there is that collector.
    pub before: Option<Mark>,
    /// What became of the records, if the feed wrote its counts.
    pub counts: Option<FeedCounts>,
    /// How many entries of its RIB records were left out, if the feed wrote its counts.
    pub left_out: u64,
    /// How many admissions of the file were dropped, since they were offered before.
    pub dropped: u64,
    /// The collector's mark after the feed, in microseconds, from which `--mark` would raise it; if the feed ended well.
    pub present: Option<u64>,
    /// Whether the load was held back: it is strict, and the feed or the mark is in doubt.
    pub is_held: bool,
    /// Why the feed was given up, or the load ended outside its feed.
    pub refusal: Option<Refusal>,
}

impl LoadReport {
    /// The report of a load that has begun, or hasn't, without any result yet.
    pub(crate) fn new(is_begun: bool) -> LoadReport
        ensures begun { result.is_begun ≡ is_begun }
        ensures counts { result.counts ≡ None }
        ensures left_out { result.left_out ≡ 0 }
        ensures dropped { result.dropped ≡ 0 }
        ensures held { result.is_held ≡ false }
    {
        LoadReport {
            is_begun,
            before: None,
            counts: None,
            left_out: 0,
            dropped: 0,
            present: None,
            is_held: false,
            refusal: None,
        }
    }
}

/// A file to load, and what becomes of it.
#[derive(Drop)]
pub struct FileLoad<R: Read> {
    pub input: Input<R>,
    pub report: LoadReport,
}

impl<R: Read> FileLoad<R> {
    /// A file that isn't loaded yet.
    pub fn new(reader: R) -> FileLoad<R> {
        FileLoad {
            input: Input::new(reader),
            report: LoadReport::new(false),
        }
    }
}
