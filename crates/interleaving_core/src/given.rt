//! What one collector gave.

ghost use Rattle.std.specs.Prelude.{◌≡◌, ◌≤◌, ◌<◌, ◌+◌, [], map, length, true, false, IfOk, OnErr};
ghost use Rattle.interleaving_core.specs.Steps.{with_batch, with_mark};
ghost use Rattle.interleaving_core.specs.World.{resume_of};
ghost use Rattle.interleaving_core.specs.Does.{IsReply};

use crate::reply::{BatchReply, Receipt, Resume};
use route_model::{Admission, Mark, Moment};
use sequencer::{sieve, timely_of, times_of};
use std::alloc::{AllocError, Global};
use std::marker::Model;

/// What one collector gave: its admissions in their order, its mark, and how many records were offered for it.
#[derive(Drop)]
pub(crate) struct Given {
    admitted: Vec<Admission>,
    mark: Mark,
    offered: u64,
}

impl Model for Given {
    ghost use Rattle.route_meaning.specs.History.{Intake};

    ghost Value = { Intake };

    ghost view = { λ g. record { admitted = g.admitted.items; mark = g.mark; offered = g.offered } };
}

impl Given {
    /// Nothing yet.
    pub(crate) fn new(alloc: Global) -> Given
        ensures { result ≡ record { admitted = []; mark = 0; offered = 0 } }
    {
        Given {
            admitted: Vec::new(alloc),
            mark: Mark::at(Moment::from(0u32)),
            offered: 0,
        }
    }

    pub(crate) fn mark(&self) -> Mark
        ensures { result ≡ self.now.mark }
    {
        self.mark
    }

    pub(crate) fn admitted(&self) -> &[Admission]
        ensures { result.now ≡ self.now.admitted }
    {
        self.admitted.as_slice()
    }

    /// Where the collector goes on.
    pub(crate) fn resume(&self) -> Resume
        ensures { result ≡ resume_of self.now }
    {
        Resume {
            offered: self.offered,
            admitted: self.admitted.len() as u64,
            mark: self.mark,
        }
    }

    /// Sets the mark, where the present one isn't above it. Returns whether it did.
    pub(crate) fn raise(&mut self, mark: Mark) -> bool
        ensures raised { result ≡ true → (self.old.mark ≤ mark) × (self.new ≡ with_mark mark self.old) }
        ensures back { result ≡ false → (mark < self.old.mark) × (self.new ≡ self.old) }
    {
        if mark.number() < self.mark.number() {
            return false;
        }
        self.mark = mark;
        true
    }

    /// Takes the batch in, but for its late records. Refused only memory, or a count of offered records that is full.
    pub(crate) fn take_in(
        &mut self,
        alloc: Global,
        collector: u8,
        batch: &[Admission],
    ) -> Result<BatchReply, AllocError>
        ensures taken { IfOk result (λ reported. self.new ≡ with_batch batch.now self.old) }
        ensures reply { IfOk result (IsReply self.old collector batch.now) }
        ensures same { OnErr result (self.new ≡ self.old) }
    {
        let times = times_of(alloc, batch)?;
        let sieved = sieve(alloc, self.mark, &times)?;
        let mut kept = timely_of(alloc, batch, &sieved.late)?;
        let Some(offered) = self.offered.checked_add(batch.len() as u64) else {
            return Err(AllocError);
        };
        let from = self.admitted.len() as u64;
        self.admitted.append(&mut kept)?;
        self.mark = sieved.mark;
        self.offered = offered;
        Ok(BatchReply {
            receipt: Receipt {
                collector,
                from,
                to: self.admitted.len() as u64,
            },
            offered,
            late: sieved.late,
        })
    }
}
