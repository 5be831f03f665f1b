//! An archive whose calls are counted.

ghost use Rattle.progress.specs.Watched.{watched};

use crate::applied::Applied;
use crate::meter::Meter;
use archive_calls::{
    AdmitError, AskError, Flush, MarkError, RouteArchive, RouteSource, Step, Trouble,
};
use interleaving_core::{Answer, BatchReply, Query, Resume};
use route_meaning::{ChangedAnswer, ChangedQuestion};
use route_model::{Admission, Mark};
use std::alloc::Global;
use std::io::Eprint;
use std::time::Clock;

/// Does as the archive in it, and counts the records that it is offered and the changes that it applies.
#[derive(Drop)]
pub struct WatchedArchive<'a, A, T> {
    archive: A,
    before: u64,
    meter: &'a Meter<'a, T>,
}

impl<'a, A: Applied, T: Eprint + Clock> WatchedArchive<'a, A, T> {
    ghost use Rattle.std.specs.Prelude.{◌≡◌};

    /// Watches an archive.
    pub fn new(archive: A, meter: &'a Meter<'a, T>) -> WatchedArchive<'a, A, T>
        ensures same { watched result ≡ archive }
    {
        let before = archive.applied_count();
        WatchedArchive {
            archive,
            before,
            meter,
        }
    }

    /// The archive, as it is now.
    pub fn into_archive(self) -> A
        ensures same { result ≡ watched self.entry }
    {
        let WatchedArchive { archive, .. } = self;
        archive
    }

    fn count_applied(&self) {
        let applied = self.archive.applied_count();
        self.meter
            .count_applied(applied.saturating_sub(self.before));
    }
}

impl<'a, A: RouteSource, T> RouteSource for WatchedArchive<'a, A, T> {
    ghost represents = { λ it h. A.represents (watched it) h };

    ghost right = { λ it h represented. A.right (watched it) h represented };

    fn settled(&self) -> Mark {
        self.archive.settled()
    }

    fn answer(&mut self, query: Query) -> Result<Answer, AskError> {
        self.archive.answer(query)
    }

    fn changed(&mut self, question: ChangedQuestion) -> Result<ChangedAnswer, AskError> {
        self.archive.changed(question)
    }
}

impl<'a, A: RouteArchive + Applied, T: Eprint + Clock> RouteArchive for WatchedArchive<'a, A, T> {
    ghost most = { λ it. A.most (watched it) };

    fn collectors(&self) -> u8 {
        self.archive.collectors()
    }

    fn batch_limit(&self) -> usize {
        self.archive.batch_limit()
    }

    fn resume(&self, collector: u8) -> Option<Resume> {
        self.archive.resume(collector)
    }

    fn admit(&mut self, collector: u8, batch: &[Admission]) -> Result<BatchReply, AdmitError> {
        let reply = self.archive.admit(collector, batch)?;
        self.meter.count_records(batch.len());
        Ok(reply)
    }

    fn mark(&mut self, collector: u8, mark: Mark) -> Result<(), MarkError> {
        self.archive.mark(collector, mark)
    }

    fn apply_step(&mut self) -> Result<Step, Trouble> {
        let step = self.archive.apply_step()?;
        self.count_applied();
        Ok(step)
    }

    fn flush_step(&mut self) -> Result<Flush, Trouble> {
        self.archive.flush_step()
    }

    fn check(&mut self) -> Result<u64, Trouble> {
        self.archive.check()
    }

    fn failure(&self, alloc: Global) -> Option<String> {
        self.archive.failure(alloc)
    }
}
