//! Checks of archives.

ghost use Rattle.std.specs.Prelude.{◌≡◌};
ghost use Rattle.route_meaning.specs.History.{History};
ghost use Rattle.service.specs.Checks.{IsCheckEnd, checked_line};
ghost use Rattle.service.specs.Outputs.{Reports};

use crate::output::Output;
use crate::refusal::Refusal;
use crate::reporting::report_trouble;
use crate::status::{Status, reported};
use archive_calls::RouteArchive;
use route_model::Mark;
use std::alloc::Global;
use std::io::Write;

/// Writes how many changes are applied and the settled watermark: `ok|CHANGES|SETTLED`.
fn write_checked<W: Write>(out: &mut Output<W>, changes: u64, settled: Mark)
    ensures line { Reports out.old out.new (checked_line changes settled) }
{
    out.text("ok|");
    out.number(changes);
    out.text("|");
    out.moment(settled.number());
    out.text("\n");
}

/// Has the archive read all of its applied and pending changes, and writes `ok|CHANGES|SETTLED`: how many changes are applied, and the
/// settled watermark. What can't be read, or isn't what it has to be, is printed to `err`, and nothing is written to `out`. If a line
/// can't be written, `err` shows it; if `out` had failed before, nothing is done. No memory is needed but the archive's, and that of
/// a reason, which is left out if there is none for it.
pub fn check<A: RouteArchive, W: Write, E: Write>(
    alloc: Global,
    archive: &mut A,
    out: &mut Output<W>,
    err: &mut Output<E>,
) -> Status
    ensures ended { (h : History) → A.represents archive.old h → IsCheckEnd h result out.old out.new err.old err.new }
    ensures kept { (h : History) → A.represents archive.old h → A.represents archive.new h }
{
    if out.has_failed() {
        return Status::Failed;
    }
    match archive.check() {
        Ok(changes) => {
            write_checked(out, changes, archive.settled());
            reported(alloc, Status::Done, out, err)
        }
        Err(trouble) => {
            report_trouble(alloc, archive, &Refusal::from(trouble), err);
            reported(alloc, Status::Refused, out, err)
        }
    }
}
