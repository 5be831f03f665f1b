//! How a command ends.

ghost use Rattle.std.specs.Prelude.{◌≡◌, true, false};
ghost use Rattle.service.specs.Refusals.{ReportsError};
ghost use Rattle.service.specs.Statuses.{code_of};
ghost use Rattle.service.specs.inner.Loading.{reported_as};

use crate::output::Output;
use crate::refusal::Refusal;
use crate::reporting::report_unwritten;
use std::alloc::Global;
use std::io::Write;

/// How a command ends.
#[derive(Clone, Copy, Debug, PartialEq, Eq)]
pub enum Status {
    /// All is done.
    Done,
    /// Something was refused. A line shows it, unless that line couldn't be written.
    Refused,
    /// Not all lines could be written.
    Failed,
}

impl Status {
    /// The exit status of the program: 0 if all is done, else 1.
    pub fn code(self) -> u8
        ensures code { result ≡ code_of self }
    {
        match self {
            Status::Done => 0,
            Status::Refused | Status::Failed => 1,
        }
    }
}

/// The status of a command that has written its lines: `Failed` if not all of them could be written. If that is
/// so of `out`, `err` shows it.
pub fn reported<W: Write, E: Write>(
    alloc: Global,
    status: Status,
    out: &Output<W>,
    err: &mut Output<E>,
) -> Status
    ensures status { result ≡ reported_as out.now.failed err.old.failed status }
    ensures quiet { out.now.failed ≡ false → err.new ≡ err.old }
    ensures reported { out.now.failed ≡ true → ReportsError Refusal.Outside err.old err.new }
{
    if out.has_failed() {
        report_unwritten(alloc, out, err);
        return Status::Failed;
    }
    if err.has_failed() {
        return Status::Failed;
    }
    status
}
