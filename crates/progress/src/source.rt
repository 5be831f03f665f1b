//! A source of answers whose rows are counted.

ghost use Rattle.progress.specs.Watched.{source_of};

use crate::rows::RowMeter;
use archive_calls::{AskError, RouteSource};
use interleaving_core::{Answer, Query};
use route_meaning::{ChangedAnswer, ChangedQuestion};
use route_model::Mark;
use std::io::Eprint;
use std::time::Clock;

/// Answers as the source in it, and counts the rows of its answers.
#[derive(Drop)]
pub struct WatchedSource<'a, A, T> {
    source: A,
    meter: &'a RowMeter<'a, T>,
}

impl<'a, A, T> WatchedSource<'a, A, T> {
    ghost use Rattle.std.specs.Prelude.{◌≡◌};

    /// Watches a source.
    pub fn new(source: A, meter: &'a RowMeter<'a, T>) -> WatchedSource<'a, A, T>
        ensures same { source_of result ≡ source }
    {
        WatchedSource { source, meter }
    }

    /// The source, as it is now.
    pub fn into_source(self) -> A
        ensures same { result ≡ source_of self.entry }
    {
        let WatchedSource { source, .. } = self;
        source
    }
}

/// How many rows, or events, an answer has.
fn rows_in(answer: &Answer) -> usize {
    match answer {
        Answer::Rows(answer) => answer.rows.len(),
        Answer::Events(answer) => answer.events.len(),
    }
}

impl<'a, A: RouteSource, T: Eprint + Clock> RouteSource for WatchedSource<'a, A, T> {
    ghost represents = { λ it h. A.represents (source_of it) h };

    ghost right = { λ it h represented. A.right (source_of it) h represented };

    fn settled(&self) -> Mark {
        self.source.settled()
    }

    fn answer(&mut self, query: Query) -> Result<Answer, AskError> {
        let answer = self.source.answer(query)?;
        self.meter.count(rows_in(&answer));
        Ok(answer)
    }

    fn changed(&mut self, question: ChangedQuestion) -> Result<ChangedAnswer, AskError> {
        let answer = self.source.changed(question)?;
        self.meter.count(answer.spots.len());
        Ok(answer)
    }
}
