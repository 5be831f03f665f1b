//! A thread's calls on a shared archive, one after another.

ghost use Rattle.std.specs.Prelude.{IfSome, IsSome};
ghost use Rattle.query_threads.specs.Seeing.{Since};
ghost use Rattle.thread_tests.specs.Works.{Follows, IsReplied, IsReplyOver};

use crate::works::{Returned, Work};
use board::{Named, Pass};
use disk_memory::MemOnce;
use interleaving_core::{Answer, Query};
use query_threads::{AskError, NoGate, OnDisk, Reader, Shared};
use shared_archive::MemStore;
use std::alloc::Global;
use std::sync::Wait;

// How many blocks a reader keeps.
const KEPT: usize = 8;

/// The archive that threads share, on the board and the disk that `N` names.
pub(crate) type Stage<N> = Shared<MemStore, N, NoGate>;

/// A thread's pass, and what its calls returned; none where memory ran out.
#[derive(Drop)]
pub(crate) struct Done<N: Named> {
    pub(crate) pass: Pass<N>,
    pub(crate) returned: Option<Vec<Returned>>,
}

// Asks a question, with a reader of its own.
fn ask<N: Named + OnDisk<MemOnce>>(
    rt: &impl Wait,
    alloc: Global,
    stage: &Stage<N>,
    pass: &mut Pass<N>,
    query: Query,
) -> Result<Answer, AskError>
    ensures since { Since pass.old pass.new }
    ensures reply { IsSome N.disk → IsReplyOver pass.new.past.history query result }
{
    let mut reader = match Reader::new(rt, alloc, stage, KEPT) {
        Ok(reader) => reader,
        Err(trouble) => return Err(AskError::Trouble(trouble)),
    };
    stage.ask(rt, pass, &mut reader, 1, query)
}

// Makes a call.
fn reply_to<N: Named + OnDisk<MemOnce>>(
    rt: &impl Wait,
    alloc: Global,
    stage: &Stage<N>,
    pass: &mut Pass<N>,
    work: &Work,
) -> Returned
    ensures replied { IsSome N.disk → IsReplied work.now result pass.old pass.new }
{
    match work {
        Work::Admit(collector, batch) => {
            Returned::Admitted(stage.admit(rt, pass, *collector, batch.as_slice()))
        }
        Work::Mark(collector, mark) => Returned::Marked(stage.mark(rt, pass, *collector, *mark)),
        Work::Apply => Returned::Applied(stage.apply(rt, pass)),
        Work::Ask(query) => Returned::Answered(ask(rt, alloc, stage, pass, *query)),
    }
}

// Makes calls, one after another. None where memory runs out.
fn reply_all<N: Named + OnDisk<MemOnce>>(
    rt: &impl Wait,
    alloc: Global,
    stage: &Stage<N>,
    pass: &mut Pass<N>,
    works: &[Work],
) -> Option<Vec<Returned>>
    ensures follows { IsSome N.disk → IfSome result (λ returned. Follows works.now returned.items pass.old pass.new) }
{
    let mut returned = Vec::new(alloc);
    for work in works {
        let reply = reply_to(rt, alloc, stage, pass, work);
        let Ok(()) = returned.push(reply) else {
            return None;
        };
    }
    Some(returned)
}

/// Makes all calls of a thread.
pub(crate) fn run<N: Named + OnDisk<MemOnce>>(
    rt: &impl Wait,
    alloc: Global,
    stage: &Stage<N>,
    mut pass: Pass<N>,
    works: Vec<Work>,
) -> Done<N>
    ensures follows { IsSome N.disk → IfSome result.returned (λ returned. Follows works.items returned.items pass result.pass) }
{
    let returned = reply_all(rt, alloc, stage, &mut pass, works.as_slice());
    Done { pass, returned }
}
