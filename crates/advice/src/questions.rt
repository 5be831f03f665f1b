//! Advice about a question that isn't answered.

ghost use Rattle.std.specs.Prelude.{◌≡◌};

use crate::marks::MarkAdvice;
use crate::requests::first_misread;
use crate::saying::advise;
use archive_calls::RouteArchive;
use route_model::Moment;
use service::{Output, Request, read_request};
use std::alloc::Global;
use std::io::Write;

/// Prints until when it is settled, if a question's last moment isn't.
fn advise_moment<A: RouteArchive, E: Write>(
    alloc: Global,
    archive: &A,
    last: Moment,
    err: &mut Output<E>,
) {
    let settled = archive.settled();
    if last.number() >= settled.number() {
        advise(alloc, &MarkAdvice::Settled(settled), err);
    }
}

/// Prints why a line that the archive refused isn't answered: which word isn't understood, until when it is settled, or which collectors
/// there are.
pub fn advise_question<A: RouteArchive, E: Write>(
    alloc: Global,
    archive: &A,
    line: &str,
    err: &mut Output<E>,
) {
    if let Some(it) = first_misread(line) {
        return advise(alloc, &it, err);
    }
    match read_request(alloc, line) {
        Ok(Request::Durable(collector)) if collector >= archive.collectors() => advise(
            alloc,
            &MarkAdvice::Collectors(archive.collectors()),
            err,
        ),
        Ok(Request::Question(query)) => advise_moment(alloc, archive, query.last_moment(), err),
        Ok(Request::Changed(question)) => advise_moment(alloc, archive, question.to, err),
        _ => {}
    }
}
