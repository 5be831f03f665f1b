//! The pure machine as the archive below feeds, loads and questions.

use archive_calls::{
    AdmitError, AskError, Flush, MAX_BATCH_LEN, MarkError, RouteArchive, RouteSource, Step, Trouble,
};
use interleaving_core::{Answer, BatchReply, Machine, Query, Reach, Reply, Resume};
use route_meaning::{ChangedAnswer, ChangedQuestion, RowsQuestion, Select};
use route_model::{Admission, Mark, Moment};
use std::alloc::Global;

/// Whether rings take what is offered.
#[derive(Clone, Copy, PartialEq, Eq)]
pub(crate) enum Rings {
    Free,
    /// Full until a step of applying is made.
    Full,
    FullForGood,
}

/// The pure machine. It keeps its settled watermark, which it says where it is asked of the last moment of all; while changes are applied
/// that is the one of before, until nothing more may be applied.
#[derive(Drop)]
pub(crate) struct Pure {
    machine: Machine,
    collectors: u8,
    settled: Mark,
    pub(crate) rings: Rings,
    /// What a check answers: the machine says nowhere how many changes it applied.
    pub(crate) checked: Result<u64, Trouble>,
}

impl Pure {
    /// A machine of this many collectors, which gave nothing.
    pub(crate) fn new(alloc: Global, collectors: u8) -> Option<Pure> {
        let collectors = collectors.clamp(1, 16);
        Some(Pure {
            machine: Machine::created(alloc, collectors).ok()?,
            collectors,
            settled: Mark::at(Moment::from(0)),
            rings: Rings::Free,
            checked: Ok(0),
        })
    }

    /// What the machine replies to a question that is gone over in one turn.
    fn replied(&mut self, query: Query) -> Option<Reply> {
        match self.machine.begin(query) {
            Ok(Reply::Begun(number)) => self.machine.turn(number, Reach::End).ok(),
            _ => None,
        }
    }

    /// Looks how far all is settled now.
    fn look(&mut self) {
        let all = Query::Rows(RowsQuestion {
            moment: Moment::from(u32::MAX),
            select: Select::All,
            after: None,
        });
        let Some(reply) = self.replied(all) else {
            return;
        };
        if let Some(settled) = settled_in(&reply) {
            self.settled = settled;
        }
    }
}

/// The settled watermark, where a reply has it.
fn settled_in(reply: &Reply) -> Option<Mark> {
    match reply {
        Reply::AboveWatermark(settled) => Some(*settled),
        _ => None,
    }
}

/// Why a reply is no answer.
fn refusal_of(reply: &Reply) -> AskError {
    match reply {
        Reply::AboveWatermark(settled) => AskError::AboveWatermark(*settled),
        _ => AskError::Trouble(Trouble::OutOfMemory),
    }
}

/// It represents no history: of what its calls answer, these tests ask the lines that are written.
impl RouteSource for Pure {
    ghost represents = { λ pure h. ⊥ };

    ghost right = { λ pure h represented. absurd represented };

    fn settled(&self) -> Mark {
        self.settled
    }

    fn answer(&mut self, query: Query) -> Result<Answer, AskError> {
        match self.replied(query) {
            Some(Reply::Done(answer)) => Ok(answer),
            Some(reply) => Err(refusal_of(&reply)),
            None => Err(AskError::Trouble(Trouble::OutOfMemory)),
        }
    }

    /// The machine has no such question, and no line that these tests look at needs its answer.
    fn changed(&mut self, _question: ChangedQuestion) -> Result<ChangedAnswer, AskError> {
        Err(AskError::Trouble(Trouble::OutOfMemory))
    }
}

impl RouteArchive for Pure {
    ghost most = { λ _. 262144 };

    fn collectors(&self) -> u8 {
        self.collectors.clamp(1, 16)
    }

    fn batch_limit(&self) -> usize {
        MAX_BATCH_LEN
    }

    fn resume(&self, collector: u8) -> Option<Resume> {
        self.machine.resume(collector)
    }

    fn admit(&mut self, collector: u8, batch: &[Admission]) -> Result<BatchReply, AdmitError> {
        if self.rings != Rings::Free && collector < self.collectors {
            return Err(AdmitError::IntakeFull);
        }
        let reply = self.machine.admit(collector, batch);
        self.look();
        match reply {
            Ok(Reply::Taken(reply)) => Ok(reply),
            Ok(Reply::NoCollector) => Err(AdmitError::NoCollector),
            _ => Err(AdmitError::Trouble(Trouble::OutOfMemory)),
        }
    }

    fn mark(&mut self, collector: u8, mark: Mark) -> Result<(), MarkError> {
        let reply = self.machine.mark(collector, mark);
        self.look();
        match reply {
            Reply::Marked => Ok(()),
            Reply::MarkBack => Err(MarkError::MarkBack),
            _ => Err(MarkError::NoCollector),
        }
    }

    fn apply_step(&mut self) -> Result<Step, Trouble> {
        if self.rings == Rings::Full {
            self.rings = Rings::Free;
        }
        match self.machine.apply(0) {
            Ok(Reply::Applied) => Ok(Step::Applied),
            Ok(Reply::Idle) => {
                self.look();
                Ok(Step::Idle)
            }
            _ => Err(Trouble::OutOfMemory),
        }
    }

    fn flush_step(&mut self) -> Result<Flush, Trouble> {
        Ok(Flush::Clean)
    }

    fn check(&mut self) -> Result<u64, Trouble> {
        self.checked
    }
}
