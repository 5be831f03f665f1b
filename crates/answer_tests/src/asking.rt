//! Questions of an archive, turn by turn.

use crate::made::{Made, Reader};
use disk_archive::{AskError, Cursor, Descent};
use interleaving_core::{Answer, Query};
use service::{Request, read_request, write_answer, write_events};
use std::alloc::Global;

// More turns than any question of the examples takes.
const TURNS: u32 = 2_000;

/// The lines of an answer. None where it is that of another question, or there is no memory.
pub(crate) fn lines_of(alloc: Global, query: &Query, answer: &Answer) -> Option<String> {
    let mut lines = String::new(alloc);
    match (query, answer) {
        (Query::Rows(_), Answer::Rows(rows)) => write_answer(&mut lines, rows).ok()?,
        (Query::Events(question), Answer::Events(events)) => {
            write_events(&mut lines, question.skip, events).ok()?;
        }
        _ => return None,
    }
    Some(lines)
}

fn query_of(alloc: Global, line: &str) -> Option<Query> {
    match read_request(alloc, line) {
        Ok(Request::Question(query)) => Some(query),
        _ => None,
    }
}

/// What a turn of a question came to.
#[derive(Drop)]
enum Turned {
    Done(Answer),
    Again,
    Above,
    Failed,
}

/// A turn of a question, with the blocks that it asks for.
fn turn(alloc: Global, archive: &mut Made, reader: &mut Reader, cursor: &mut Cursor) -> Turned {
    match archive.descend(cursor) {
        Ok(Descent::Done(answer)) => Turned::Done(answer),
        Ok(Descent::Again) => Turned::Again,
        Ok(Descent::Historical(errand)) => {
            let Ok(mut seen) = archive.seen() else {
                return Turned::Failed;
            };
            match errand.finish(alloc, reader, &mut seen, cursor) {
                Ok(()) => Turned::Again,
                Err(_) => Turned::Failed,
            }
        }
        Err(AskError::AboveWatermark(_)) => Turned::Above,
        Err(_) => Turned::Failed,
    }
}

/// The lines that answer a request line, or `above` where its last moment isn't settled. None where it isn't answered.
pub(crate) fn ask(
    alloc: Global,
    archive: &mut Made,
    reader: &mut Reader,
    line: &str,
) -> Option<String> {
    let query = query_of(alloc, line)?;
    let mut cursor = archive.start(query);
    for _ in 0..TURNS {
        match turn(alloc, archive, reader, &mut cursor) {
            Turned::Done(answer) => return lines_of(alloc, &query, &answer),
            Turned::Again => {}
            Turned::Above => return String::from_str(alloc, "above\n").ok(),
            Turned::Failed => return None,
        }
    }
    None
}

/// Whether a line is answered by these lines.
pub(crate) fn answers_as(
    alloc: Global,
    archive: &mut Made,
    reader: &mut Reader,
    line: &str,
    lines: &str,
) -> bool {
    match ask(alloc, archive, reader, line) {
        Some(reported) => reported.as_str() == lines,
        None => false,
    }
}
