//! The lanes of all collectors: what is released, and what is settled.

ghost use Rattle.std.specs.Prelude.{map, ◌≡◌, ◌<◌, ◌≤◌, ◌++◌, [], ℕ, List, IfOk, IfSome, IfNone, OnOk, OnErr, Some, IsErr, slice_get, length, replicate, ◌↔◌};
ghost use Rattle.std.specs.List.{AllByRecursion};
ghost use Rattle.sequencer.specs.Ahead.{beyond};
ghost use Rattle.sequencer.specs.Lanes.{Waiting, Releases, NoneOpen, SameLanes, Raises, HasMarkAbove, marks, waiting_times, bound_of};
ghost use Rattle.route_meaning.specs.History.{least};
ghost use Rattle.sequencer.specs.First.{IsNext};
ghost use Rattle.sequencer.specs.Taking.{IsSieved, MayTakeIn, TakesIn};

use crate::ahead::{Ahead, first_after, pop_passed};
use crate::first::{first_lane, is_open, least_bound};
use crate::lane::Lane;
use crate::late::{Sieved, sieve};
use route_model::{Mark, Moment};
use std::alloc::{AllocError, Global};
use std::marker::Model;
use thiserror::Error;

/// The new mark is below the collector's mark.
#[derive(Clone, Copy, Debug, PartialEq, Eq, Error)]
#[error("the mark is below the collector's mark")]
pub struct MarkBack;

/// For each collector its mark, and the times of its admitted records that wait to be applied.
///
/// Calls require a number of a collector that there is: an archive, which meets others, refuses them by name.
#[derive(Drop)]
pub struct Sequencer {
    lanes: Vec<Lane>,
}

impl Model for Sequencer {
    ghost use Rattle.std.specs.Prelude.{List};
    ghost use Rattle.std.specs.List.{AllByRecursion};
    ghost use Rattle.sequencer.specs.Lanes.{Waiting, IsLane};

    ghost Value = { List Waiting };

    ghost view = { λ s. s.lanes.items };

    ghost invariant = { λ s. AllByRecursion IsLane s.lanes.items };
}

impl Sequencer {
    /// A sequencer for this many collectors, none of which has given anything: each mark is 0.
    pub fn new(alloc: Global, collectors: u8) -> Result<Sequencer, AllocError>
        ensures marks { IfOk result (λ s. marks s ≡ replicate collectors 0) }
        ensures times { IfOk result (λ s. waiting_times s ≡ replicate collectors []) }
    {
        let mut lanes = Vec::with_capacity(alloc, collectors as usize)?;
        for _ in 0..collectors {
            lanes.push(Lane::new(alloc, Mark::at(Moment::from(0u32))))?;
        }
        Ok(Sequencer { lanes })
    }

    /// How many collectors there are.
    pub fn collectors(&self) -> usize
        ensures count { result ≡ length self.now }
    {
        self.lanes.len()
    }

    /// The mark of a collector.
    pub fn mark(&self, collector: usize) -> Mark
        requires { collector < length self.now }
        ensures mark { slice_get (marks self.now) collector ≡ Some result }
    {
        self.lanes[collector].mark()
    }

    /// Sieves the times of a batch that the collector offers, and makes room for those that aren't late, so that
    /// they can be taken in without memory. Nothing is admitted yet.
    pub fn sieve(
        &mut self,
        alloc: Global,
        collector: usize,
        times: &[Moment],
    ) -> Result<Sieved, AllocError>
        requires { collector < length self.old }
        ensures same { SameLanes self.old self.new }
        ensures sieved { IfOk result (λ s. (mark : ℕ) → slice_get (marks self.old) collector ≡ Some mark → IsSieved mark times.now s) }
        ensures ready { IfOk result (λ s. MayTakeIn self.new collector s) }
    {
        let lane = &mut self.lanes[collector];
        lane.reserve(times.len())?;
        sieve(alloc, lane.mark(), times)
    }

    /// Takes in what was sieved of a collector at its present mark. It takes no memory.
    pub fn take_in(&mut self, collector: usize, sieved: &Sieved)
        requires present { MayTakeIn self.old collector sieved.now }
        ensures taken { TakesIn self.old collector sieved.now self.new }
    {
        let lane = &mut self.lanes[collector];
        lane.push_all(sieved.timely.as_slice());
        lane.set_mark(sieved.mark);
    }

    /// Raises the mark of a collector, or returns [`MarkBack`] where the present mark is above the given one.
    pub fn raise(&mut self, collector: usize, mark: Mark) -> Result<(), MarkBack>
        requires { collector < length self.old }
        ensures raised { OnOk result (Raises self.old collector mark self.new) }
        ensures back { IsErr result ↔ HasMarkAbove self.old collector mark }
        ensures same { OnErr result (self.new ≡ self.old) }
    {
        let lane = &mut self.lanes[collector];
        if mark.number() < lane.mark().number() {
            return Err(MarkBack);
        }
        lane.set_mark(mark);
        Ok(())
    }

    /// The collector whose first time is the next of all that waits, if that time is below every mark. Of
    /// equal times that of the lowest collector goes first.
    pub fn next(&self) -> Option<usize>
        ensures some { IfSome result (IsNext self.now) }
        ensures none { IfNone result (NoneOpen self.now) }
    {
        let Some(first) = first_lane(&self.lanes) else {
            return None;
        };
        if !is_open(&self.lanes, first.time) {
            return None;
        }
        Some(first.number)
    }

    /// Takes the first time of the collector that [`Sequencer::next`] returns.
    pub fn take(&mut self, collector: usize)
        requires next { IsNext self.old collector }
        ensures released { Releases self.old collector self.new }
    {
        self.lanes[collector].pop();
    }

    /// Takes the first time of all that waits, if it is below every mark, and returns its collector. Of equal times
    /// that of the lowest collector goes first.
    pub fn release(&mut self) -> Option<usize>
        ensures some { IfSome result (λ c. Releases self.old c self.new) }
        ensures none { IfNone result (NoneOpen self.old) }
        ensures same { IfNone result (self.new ≡ self.old) }
    {
        let Some(collector) = self.next() else {
            return None;
        };
        self.take(collector);
        Some(collector)
    }

    /// A look ahead from here: no time is passed over.
    pub fn ahead(&self, alloc: Global) -> Result<Ahead, AllocError>
        ensures count { IfOk result (λ ahead. length ahead ≡ length self.now) }
        ensures same { IfOk result (λ ahead. beyond ahead self.now ≡ self.now) }
    {
        let mut passed = Vec::with_capacity(alloc, self.lanes.len())?;
        for _ in 0..self.lanes.len() {
            passed.push(0)?;
        }
        Ok(Ahead { passed })
    }

    /// The collector whose first time that isn't passed over is the next of all of these, if that time is below every mark. Of
    /// equal times that of the lowest collector goes first.
    pub fn next_after(&self, ahead: &Ahead) -> Option<usize>
        requires count { length ahead.now ≡ length self.now }
        ensures some { IfSome result (IsNext (beyond ahead.now self.now)) }
        ensures none { IfNone result (NoneOpen (beyond ahead.now self.now)) }
    {
        let Some(first) = first_after(&self.lanes, &ahead.passed) else {
            return None;
        };
        if !is_open(&self.lanes, first.time) {
            return None;
        }
        Some(first.number)
    }

    /// The collector's first time that isn't passed over, if one waits.
    pub fn time_after(&self, ahead: &Ahead, collector: usize) -> Option<Moment>
        requires count { length ahead.now ≡ length self.now }
        requires inside { collector < length self.now }
        ensures time { (times : List ℕ) → slice_get (waiting_times (beyond ahead.now self.now)) collector ≡ Some times → result ≡ slice_get times 0 }
    {
        let lane = &self.lanes[collector];
        let passed = ahead.passed[collector];
        lane.beyond(passed)
    }

    /// Passes over one more time of the collector that [`Sequencer::next_after`] returns.
    pub fn pass(&self, ahead: &mut Ahead, collector: usize)
        requires count { length ahead.old ≡ length self.now }
        requires next { IsNext (beyond ahead.old self.now) collector }
        ensures count { length ahead.new ≡ length self.now }
        ensures released { Releases (beyond ahead.old self.now) collector (beyond ahead.new self.now) }
    {
        let passed = &mut ahead.passed[collector];
        if *passed < self.lanes[collector].waiting() {
            *passed += 1;
        }
    }

    /// Takes all that is passed over.
    pub fn take_passed(&mut self, ahead: &Ahead)
        requires count { length ahead.now ≡ length self.old }
        ensures taken { SameLanes (beyond ahead.now self.old) self.new }
        ensures count { length self.new ≡ length self.old }
    {
        pop_passed(&mut self.lanes, &ahead.passed);
    }

    /// The settled watermark: the least of the first times that wait, and of the marks where none waits.
    pub fn settled(&self) -> Mark
        requires { 0 < length self.now }
        ensures least { result ≡ least (map bound_of self.now) }
    {
        least_bound(&self.lanes)
    }
}
