//! How a table or a list ends.

ghost use Rattle.std.specs.Prelude.{◌≡◌, ◌⊎◌, Ok, IfOk, IfErr, true, false};
ghost use Rattle.archive_calls.specs.declared.refusal.Trouble.TheVariants as troubles;
ghost use Rattle.archive_calls.specs.declared.refusal.AskError.TheVariants as asks;
ghost use Rattle.service.specs.Refusals.{ReportsError};
ghost use Rattle.service.specs.Statuses.{code_of};
ghost use Rattle.tables.specs.Tables.{of_ask};

use archive_calls::{AskError, Trouble};
use service::{Output, Refusal, Status, reported, write_refusal};
use std::alloc::{AllocError, Global};
use std::io::{ErrorKind, Write};

/// A lack of memory, as a question is refused for it.
pub(crate) fn of_memory<T>(written: Result<T, AllocError>) -> Result<T, AskError>
    ensures ok { IfOk result (λ value. written ≡ Ok value) }
    ensures memory { IfErr result (λ why. why ≡ asks.Trouble troubles.OutOfMemory) }
{
    match written {
        Ok(written) => Ok(written),
        Err(_) => Err(AskError::Trouble(Trouble::OutOfMemory)),
    }
}

/// How a question's refusal is written.
pub(crate) fn refusal_of(why: AskError) -> Refusal
    ensures refusal { result ≡ of_ask why }
{
    match why {
        AskError::AboveWatermark(settled) => Refusal::AboveWatermark(settled),
        AskError::Trouble(trouble) => Refusal::from(trouble),
    }
}

/// Whether nobody reads standard output any more: head(1) closes its pipe once it has seen enough.
fn is_closed<W: Write>(out: &Output<W>) -> bool
    ensures failed { result ≡ true → out.now.failed ≡ true }
{
    match out.failure() {
        Some(why) => why.kind() == ErrorKind::BrokenPipe,
        None => false,
    }
}

/// The status of what has written its lines. If not all of them could be written, standard error has the reason, unless nobody reads them
/// any more. A refusal may be among those that were lost, so after one it always has.
pub(crate) fn status_of<W: Write, E: Write>(
    alloc: Global,
    status: Status,
    out: &Output<W>,
    err: &mut Output<E>,
) -> Status
    ensures failed { out.now.failed ≡ true → result ≡ Status.Failed }
    ensures reported { out.now.failed ≡ true → (err.new ≡ err.old) ⊎ ReportsError Refusal.Outside err.old err.new }
    ensures quiet { out.now.failed ≡ false → err.new ≡ err.old }
    ensures status { out.now.failed ≡ false → err.old.failed ≡ false → result ≡ status }
{
    if is_closed(out) && status != Status::Refused {
        return Status::Failed;
    }
    reported(alloc, status, out, err)
}

/// The exit status of a command that ended so, once what is buffered is written out.
pub(crate) fn finish<W: Write, E: Write>(
    alloc: Global,
    ended: Status,
    out: &mut Output<W>,
    err: &mut Output<E>,
) -> u8
    ensures failed { out.new.failed ≡ true → result ≡ 1 }
    ensures status { out.new.failed ≡ false → err.old.failed ≡ false → result ≡ code_of ended }
{
    if out.has_failed() {
        // Standard error has the reason already, or nobody reads the lines any more.
        return Status::Failed.code();
    }
    out.flush();
    status_of(alloc, ended, out, err).code()
}

/// What is on standard error if an answer for a person doesn't have all lines.
const MORE: &str = "rha: 256 lines shown, and more follow; --all prints all\n";

/// Writes the first lines of an answer, and for a person whether more follow, or the line of the refusal.
pub(crate) fn end_first<W: Write, E: Write>(
    alloc: Global,
    lines: &str,
    answered: Result<bool, AskError>,
    out: &mut Output<W>,
    err: &mut Output<E>,
) -> Status {
    match answered {
        Ok(more) => {
            out.text(lines);
            if more && !out.has_failed() {
                err.text(MORE);
            }
            status_of(alloc, Status::Done, out, err)
        }
        Err(why) => {
            write_refusal(out, &refusal_of(why));
            status_of(alloc, Status::Refused, out, err)
        }
    }
}

/// Writes how many lines there were, if they were all written, or the line of the refusal after which none follow.
pub(crate) fn end_lines<W: Write, E: Write>(
    alloc: Global,
    ended: Result<u64, AskError>,
    out: &mut Output<W>,
    err: &mut Output<E>,
) -> Status {
    match ended {
        Ok(count) => {
            out.text("E|");
            out.number(count);
            out.text("\n");
            status_of(alloc, Status::Done, out, err)
        }
        Err(why) => {
            write_refusal(out, &refusal_of(why));
            status_of(alloc, Status::Refused, out, err)
        }
    }
}
