//! Request lines, answered by an archive.

ghost use Rattle.std.specs.Prelude.{◌≡◌};
ghost use Rattle.route_meaning.specs.History.{History};
ghost use Rattle.service.specs.Replies.{IsAskEnd};

use crate::output::Output;
use crate::refusal::{Refusal, write_refusal};
use crate::replying::reply;
use crate::status::{Status, reported};
use archive_calls::RouteArchive;
use std::alloc::Global;
use std::io::Write;

/// Writes what the archive replies to a request line: the lines of the reply, or the line of the refusal. If these
/// can't all be written, `err` shows it; if `out` had failed before, nothing is done.
pub fn ask<A: RouteArchive, W: Write, E: Write>(
    alloc: Global,
    archive: &mut A,
    line: &str,
    out: &mut Output<W>,
    err: &mut Output<E>,
) -> Status
    ensures ended { (h : History) → A.represents archive.old h → IsAskEnd h line.now result out.old out.new err.old err.new }
    ensures kept { (h : History) → A.represents archive.old h → A.represents archive.new h }
{
    if out.has_failed() {
        return Status::Failed;
    }
    match reply(alloc, archive, line) {
        Ok(text) => {
            out.text(text.as_str());
            reported(alloc, Status::Done, out, err)
        }
        Err(why) => {
            write_refusal(out, &Refusal::from(why));
            reported(alloc, Status::Refused, out, err)
        }
    }
}
