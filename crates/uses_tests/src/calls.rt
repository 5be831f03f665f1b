//! The acts that are calls of an archive. Each is a use.

ghost use Rattle.std.specs.Prelude.{◌≡◌, ◌*◌, IfSome};
ghost use Rattle.route_model.specs.Moments.{micros_a_second};
ghost use Rattle.uses_tests.specs.inner.Taking.{Takes};

use crate::acts::{Act, Batch, Returned};
use crate::batches::batch_of;
use archive_uses::{admit, apply_step, ask, check, flush_step, mark};
use disk_archive::Archive;
use disk_memory::{MemErase, MemOnce};
use interleaving_core::Query;
use route_meaning::{RowsQuestion, Select};
use route_model::{Mark, Moment};
use std::alloc::Global;

pub(crate) type Made = Archive<MemErase, MemOnce>;

/// The archive after an act, and what the act returned.
#[derive(Drop)]
pub(crate) struct Next {
    pub(crate) archive: Made,
    pub(crate) returned: Returned,
}

// Gives a batch.
fn give(alloc: Global, archive: &mut Made, collector: u8, batch: Batch) -> Option<Returned>
    ensures takes { IfSome result (λ returned. Takes archive.old archive.new (Act.Admit collector batch) returned) }
{
    let Some(admissions) = batch_of(alloc, batch) else {
        return None;
    };
    Some(Returned::Admitted(admit(archive, collector, admissions.as_slice())))
}

// The mark at a second.
fn mark_at(second: u32) -> Mark
    ensures mark { result ≡ second * micros_a_second }
{
    Mark::at(Moment::from(second))
}

// Raises a mark.
fn raise(archive: &mut Made, collector: u8, second: u32) -> Returned
    ensures takes { Takes archive.old archive.new (Act.Mark collector second) result }
{
    let at = mark_at(second);
    Returned::Marked(mark(archive, collector, at))
}

// Makes a step of applying.
fn apply(archive: &mut Made) -> Returned
    ensures takes { Takes archive.old archive.new Act.Apply result }
{
    Returned::Applied(apply_step(archive))
}

// Makes a step of flushing.
fn flush(archive: &mut Made) -> Returned
    ensures takes { Takes archive.old archive.new Act.Flush result }
{
    Returned::Flushed(flush_step(archive))
}

// The question of all routes of a second.
fn rows_of(second: u32) -> Query {
    Query::Rows(RowsQuestion {
        moment: Moment::from(second),
        select: Select::All,
        after: None,
    })
}

// Asks for all routes of a second.
fn ask_of(archive: &mut Made, second: u32) -> Returned
    ensures takes { Takes archive.old archive.new (Act.Ask second) result }
{
    let query = rows_of(second);
    Returned::Answered(ask(archive, query))
}

// Checks the archive.
fn check_all(archive: &mut Made) -> Returned
    ensures takes { Takes archive.old archive.new Act.Check result }
{
    Returned::Checked(check(archive))
}

/// Makes the call that an act is. None where it is no call, or no memory is there for the batch.
pub(crate) fn make(alloc: Global, archive: &mut Made, act: &Act) -> Option<Returned>
    ensures takes { IfSome result (λ returned. Takes archive.old archive.new act.now returned) }
{
    match act {
        Act::Admit(collector, batch) => give(alloc, archive, *collector, *batch),
        Act::Mark(collector, second) => Some(raise(archive, *collector, *second)),
        Act::Apply => Some(apply(archive)),
        Act::Flush => Some(flush(archive)),
        Act::Ask(second) => Some(ask_of(archive, *second)),
        Act::Check => Some(check_all(archive)),
        Act::Crash(_, _) | Act::CutAdmit(_, _, _) | Act::CutApply(_) => None,
    }
}
