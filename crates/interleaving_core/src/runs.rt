//! Runs of steps.

ghost use Rattle.std.specs.Prelude.{ℕ, ◌≡◌, IfOk};
ghost use Rattle.std.specs.List.{AllByRecursion};
ghost use Rattle.route_model.specs.Admission.{IsAdmission};
ghost use Rattle.interleaving_core.specs.World.{created};
ghost use Rattle.interleaving_core.specs.Does.{Does, Runs, IsStep};
ghost use Rattle.interleaving_core.specs.Headline.{Headline};

use crate::machine::Machine;
use crate::reply::Reply;
use crate::step::Step;
use route_model::Admission;
use std::alloc::{AllocError, Global};

/// What a run left: the machine after its last step, and what each step replied.
#[derive(Drop)]
pub struct Ran {
    pub machine: Machine,
    pub replies: Vec<Reply>,
}

/// Each record of a batch is an admission, whichever it is.
fn read_batch(batch: &[Admission])
    ensures { AllByRecursion IsAdmission batch.now }
{
    for admission in batch {
        let _changes = admission.changes();
    }
}

/// Each step is made of values. A value's range is known where the value is read.
fn read(step: &Step)
    ensures { IsStep step.now }
{
    match step {
        Step::Admit(_, batch) => read_batch(batch),
        Step::Mark(_, mark) => {
            let _range = mark.number();
        }
        Step::Apply(_)
        | Step::Flush
        | Step::Begin(_)
        | Step::Turn(_, _)
        | Step::Crash
        | Step::Recover => {}
    }
}

/// Makes one step.
fn make(machine: &mut Machine, step: &Step) -> Result<Reply, AllocError>
    ensures { IfOk result (λ reply. Does machine.old step.now reply machine.new) }
{
    match step {
        Step::Admit(collector, batch) => machine.admit(*collector, batch),
        Step::Mark(collector, mark) => Ok(machine.mark(*collector, *mark)),
        Step::Apply(more) => machine.apply(*more),
        Step::Flush => Ok(machine.flush()),
        Step::Begin(query) => machine.begin(*query),
        Step::Turn(number, reach) => machine.turn(*number, *reach),
        Step::Crash => Ok(machine.crash()),
        Step::Recover => Ok(machine.recover()),
    }
}

/// Makes the steps, one after another. If memory runs out, or a count of offered records is full, there is no run.
pub fn run(alloc: Global, machine: Machine, steps: &[Step]) -> Result<Ran, AllocError>
    ensures runs { IfOk result (λ ran. Runs machine steps.now ran.replies.items ran.machine) }
    ensures headline { (collectors : ℕ) → machine ≡ created collectors → IfOk result (λ ran. Headline collectors steps.now ran.replies.items ran.machine) }
{
    let mut machine = machine;
    let mut replies = Vec::with_capacity(alloc, steps.len())?;
    for step in steps {
        read(step);
        replies.push(make(&mut machine, step)?)?;
    }
    Ok(Ran { machine, replies })
}
