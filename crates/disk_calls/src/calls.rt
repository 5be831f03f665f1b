//! The archive on any two disks meets what feeds and questions ask of one.

use crate::archive::DiskArchive;
use crate::keeping::{answer_by, changed_by};
use crate::reasons::Reasons;
use crate::refusals::{
    admit_refusal, apply_trouble, ask_refusal, check_trouble, flush_trouble, mark_refusal,
};
use archive_calls::{
    AdmitError, AskError, Flush, MAX_BATCH_LEN, MarkError, RouteArchive, RouteSource, Step, Trouble,
};
use disk_models::{EraseDisk, OnceDisk, PAGE_SIZE};
use interleaving_core::{Answer, BatchReply, Query, Resume};
use route_meaning::{ChangedAnswer, ChangedQuestion};
use route_model::{Admission, Mark};
use std::alloc::Global;

/// The most octets of one admission as a batch. A ring, which has nine pages at least, has room for it.
const ONE_ADMISSION: usize = 131_076;

impl<E: EraseDisk + Drop, O: OnceDisk + Drop, R: Reasons> RouteSource for DiskArchive<E, O, R> {
    ghost use Rattle.disk_calls.specs.Represented.{GoesOnWith, right_of};

    ghost represents = { λ a h. GoesOnWith a h };

    ghost right = { λ a h represented. right_of a h represented };

    fn settled(&self) -> Mark {
        self.archive.settled()
    }

    fn answer(&mut self, query: Query) -> Result<Answer, AskError> {
        match answer_by(&mut self.archive, &mut self.reader, query) {
            Ok(answer) => Ok(answer),
            Err(refusal) => Err(ask_refusal(refusal)),
        }
    }

    fn changed(&mut self, question: ChangedQuestion) -> Result<ChangedAnswer, AskError> {
        match changed_by(&mut self.archive, &mut self.reader, question) {
            Ok(answer) => Ok(answer),
            Err(refusal) => Err(ask_refusal(refusal)),
        }
    }
}

impl<E: EraseDisk + Drop, O: OnceDisk + Drop, R: Reasons> RouteArchive for DiskArchive<E, O, R> {
    ghost use Rattle.disk_calls.specs.Represented.{limit_of};

    ghost most = { λ a. limit_of a };

    fn collectors(&self) -> u8 {
        self.archive.collectors()
    }

    fn batch_limit(&self) -> usize {
        let ring = usize::from(self.archive.ring()) * PAGE_SIZE;
        MAX_BATCH_LEN.min(ring).max(ONE_ADMISSION)
    }

    fn resume(&self, collector: u8) -> Option<Resume> {
        if collector >= self.archive.collectors() {
            return None;
        }
        Some(self.archive.resume(collector))
    }

    fn admit(&mut self, collector: u8, batch: &[Admission]) -> Result<BatchReply, AdmitError> {
        match self.archive.admit(collector, batch) {
            Ok(reply) => Ok(reply),
            Err(refusal) => Err(admit_refusal(refusal)),
        }
    }

    fn mark(&mut self, collector: u8, mark: Mark) -> Result<(), MarkError> {
        match self.archive.mark(collector, mark) {
            Ok(()) => Ok(()),
            Err(refusal) => Err(mark_refusal(refusal)),
        }
    }

    fn apply_step(&mut self) -> Result<Step, Trouble> {
        match self.archive.apply_step() {
            Ok(disk_archive::Step::Applied) => Ok(Step::Applied),
            Ok(disk_archive::Step::Idle) => Ok(Step::Idle),
            Err(refusal) => Err(apply_trouble(refusal)),
        }
    }

    fn flush_step(&mut self) -> Result<Flush, Trouble> {
        match self.archive.flush_step() {
            Ok(disk_archive::Flush::Flushed) => Ok(Flush::Flushed),
            Ok(disk_archive::Flush::Clean) => Ok(Flush::Clean),
            Err(refusal) => Err(flush_trouble(refusal)),
        }
    }

    fn check(&mut self) -> Result<u64, Trouble> {
        match self.archive.check() {
            Ok(count) => Ok(count),
            Err(refusal) => Err(check_trouble(refusal)),
        }
    }

    fn failure(&self, alloc: Global) -> Option<String> {
        self.reasons.text(alloc)
    }
}
