//! Lines that are asked of an archive.

use crate::made::MemArchive;
use interleaving_core::Query;
use service::{Output, Request, ask, read_request};
use std::alloc::Global;

/// The lines that a request line is answered or refused by. None where something was written to standard error.
pub(crate) fn answer(alloc: Global, archive: &mut MemArchive, line: &str) -> Option<Vec<u8>> {
    let mut out: Vec<u8> = Vec::new(alloc);
    let mut err: Vec<u8> = Vec::new(alloc);
    let mut lines = Output::new(&mut out);
    let mut refusals = Output::new(&mut err);
    ask(alloc, archive, line, &mut lines, &mut refusals);
    drop(lines);
    drop(refusals);
    if err.is_empty() { Some(out) } else { None }
}

/// Whether a request line is answered or refused by these lines.
pub(crate) fn answers_as(
    alloc: Global,
    archive: &mut MemArchive,
    line: &str,
    lines: &[u8],
) -> bool {
    match answer(alloc, archive, line) {
        Some(reported) => reported.as_slice() == lines,
        None => false,
    }
}

/// The question of a line.
pub(crate) fn query_of(alloc: Global, line: &str) -> Option<Query> {
    match read_request(alloc, line) {
        Ok(Request::Question(query)) => Some(query),
        _ => None,
    }
}
