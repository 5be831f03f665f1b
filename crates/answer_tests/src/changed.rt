//! Which prefixes changed in a span, as an archive answers, beside what the plain program does.

use crate::generated::Both;
use crate::made::Reader;
use changed_prefixes::answer_changed;
use disk_archive::AskError;
use route_meaning::{ChangedAnswer, ChangedQuestion, merge};

// How many spans a history is asked about.
const SPANS: u32 = 3;

// More looks than a walk over so few keys takes.
const MOST_LOOKS: u32 = 1_000;

// The plain program's answer, over what the collectors gave.
fn expected(both: &Both, question: &ChangedQuestion) -> Option<ChangedAnswer> {
    let lists = [both.first.as_slice(), both.second.as_slice()];
    let list = merge(both.alloc, &lists).ok()?;
    answer_changed(both.alloc, &list, question).ok()
}

// The archive's answer, look by look. Between two looks both go on.
fn walked(
    both: &mut Both,
    reader: &mut Reader,
    question: ChangedQuestion,
) -> Result<ChangedAnswer, AskError> {
    let mut walk = both.disk.start_walk(question);
    for _ in 0..MOST_LOOKS {
        if let Some(answer) = both.disk.changed_look(reader, &mut walk)? {
            return Ok(answer);
        }
        if both.go_on().is_none() {
            return Err(AskError::Fault);
        }
    }
    Err(AskError::Fault)
}

// Whether some spot changed in a span, which the archive says as the plain program does. A span that isn't settled is passed.
fn is_changed(both: &mut Both, reader: &mut Reader) -> Option<bool> {
    let question = both.numbers.changed_question();
    match walked(both, reader, question) {
        Ok(answer) => {
            let expected = expected(both, &question)?;
            if answer.more != expected.more || answer.spots != expected.spots {
                return None;
            }
            Some(!expected.spots.is_empty())
        }
        Err(AskError::AboveWatermark(_)) => Some(false),
        Err(_) => None,
    }
}

/// In how many spans of a history some spot changed. None where the archive's answer isn't the plain program's.
pub(crate) fn count_changed(both: &mut Both, reader: &mut Reader) -> Option<u32> {
    let mut count = 0u32;
    for _ in 0..SPANS {
        if is_changed(both, reader)? {
            count = count.saturating_add(1);
        }
    }
    Some(count)
}
