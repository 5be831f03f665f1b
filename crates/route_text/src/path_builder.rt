//! Paths that grow step by step, with numbers in a row in one sequence as far as it holds them.

ghost use Rattle.std.specs.Prelude.{◌≡◌, ◌≤◌, ◌++◌, ◌∷◌, [], IfOk, OnOk, length};
ghost use Rattle.std.specs.List.{AllByRecursion};
ghost use Rattle.route_model.specs.declared.path.Segment.TheVariants as segments;
ghost use Rattle.route_model.specs.Encoding.{AreNumbers, IsSegment};
ghost use Rattle.route_text.specs.NormalPath.{IsNormalPath};
ghost use Rattle.route_text.specs.declared.step.Step.TheVariants.{Number, Set};
ghost use Rattle.route_text.specs.inner.Steps.{IsStep, steps, run, IsBuilt};

use crate::step::Step;
use route_model::{AsNumbers, Segment};
use std::alloc::{AllocError, Global};
use std::mem;

/// The most numbers that a segment has (RFC 4271 section 4.3).
const MOST_NUMBERS: usize = 255;

/// A path, as far as it is read.
#[derive(Drop)]
pub(crate) struct PathBuilder {
    alloc: Global,
    closed: Vec<Segment>,
    /// The numbers after the closed segments, at most [`MOST_NUMBERS`].
    run: Vec<u32>,
}

impl PathBuilder {
    pub(crate) fn new(alloc: Global) -> PathBuilder
        ensures closed { result.closed.items ≡ [] }
        ensures run { result.run.items ≡ [] }
    {
        PathBuilder {
            alloc,
            closed: Vec::new(alloc),
            run: Vec::new(alloc),
        }
    }

    /// Appends a step to the path.
    pub(crate) fn push(&mut self, step: Step) -> Result<(), AllocError>
        requires built { IsBuilt self.old.closed.items self.old.run.items }
        requires valid { IsStep step }
        ensures built { OnOk result (IsBuilt self.new.closed.items self.new.run.items) }
        ensures steps { OnOk result (steps (self.new.closed.items ++ run self.new.run.items) ≡ steps (self.old.closed.items ++ run self.old.run.items) ++ step ∷ []) }
    {
        match step {
            Step::Number(number) => self.push_number(number),
            Step::Set(numbers) => self.push_set(numbers),
        }
    }

    fn push_number(&mut self, number: u32) -> Result<(), AllocError>
        requires built { IsBuilt self.old.closed.items self.old.run.items }
        ensures built { OnOk result (IsBuilt self.new.closed.items self.new.run.items) }
        ensures steps { OnOk result (steps (self.new.closed.items ++ run self.new.run.items) ≡ steps (self.old.closed.items ++ run self.old.run.items) ++ Number number ∷ []) }
    {
        if self.run.len() >= MOST_NUMBERS {
            self.close()?;
        }
        self.run.push(number)?;
        Ok(())
    }

    fn push_set(&mut self, numbers: AsNumbers) -> Result<(), AllocError>
        requires built { IsBuilt self.old.closed.items self.old.run.items }
        requires valid { AreNumbers numbers }
        ensures built { OnOk result (IsBuilt self.new.closed.items self.new.run.items) }
        ensures steps { OnOk result (steps (self.new.closed.items ++ run self.new.run.items) ≡ steps (self.old.closed.items ++ run self.old.run.items) ++ Set numbers ∷ []) }
    {
        self.close()?;
        self.closed.push(Segment::Set(numbers))?;
        Ok(())
    }

    /// Makes a sequence of the numbers after the closed segments, if there are any.
    fn close(&mut self) -> Result<(), AllocError>
        requires room { length self.old.run.items ≤ 255 }
        ensures closed { OnOk result (self.new.closed.items ≡ self.old.closed.items ++ run self.old.run.items) }
        ensures run { OnOk result (self.new.run.items ≡ []) }
    {
        if self.run.is_empty() {
            return Ok(());
        }
        let numbers = mem::replace(&mut self.run, Vec::new(self.alloc));
        self.closed
            .push(Segment::Sequence(AsNumbers::new(numbers)))?;
        Ok(())
    }

    /// The segments of the path.
    pub(crate) fn finish(self) -> Result<Vec<Segment>, AllocError>
        requires built { IsBuilt self.closed.items self.run.items }
        ensures path { IfOk result (λ path. path.items ≡ self.closed.items ++ run self.run.items) }
        ensures valid { IfOk result (λ path. AllByRecursion IsSegment path.items) }
        ensures normal { IfOk result (λ path. IsNormalPath path.items) }
    {
        let mut path = self;
        path.close()?;
        let PathBuilder { closed, .. } = path;
        Ok(closed)
    }
}
