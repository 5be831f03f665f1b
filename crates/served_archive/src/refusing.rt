//! Lines that refuse.

use crate::lapse::{Lapse, NoReply};
use archive_calls::{AskError, Trouble};
use route_text::{read_mark, read_number};
use service::Refusal;

/// The troubles that an archive may have; the number is that of a block or a page.
fn troubles_at(number: u64) -> [Trouble; 9] {
    [
        Trouble::Fault,
        Trouble::NeedsRecovery,
        Trouble::PagesFull,
        Trouble::OnceFull,
        Trouble::Damaged(number),
        Trouble::BadNode(number),
        Trouble::TooHigh,
        Trouble::CounterFull,
        Trouble::OutOfMemory,
    ]
}

/// The trouble whose line has this number and this name.
fn trouble_named(number: u64, name: &str, reported: u64) -> Option<Trouble> {
    for trouble in troubles_at(reported) {
        let refusal = Refusal::from(trouble);
        if u64::from(refusal.number()) == number && refusal.name() == name {
            return Some(trouble);
        }
    }
    None
}

/// The number that stands after the name in a refusal's line; 0 if there is none.
fn reported_in(text: Option<&str>) -> Option<u64> {
    match text {
        Some(text) => read_number(text, u64::MAX).ok(),
        None => Some(0),
    }
}

/// The trouble of a line, by its number, its name, and what stands after that.
fn trouble_in(number: &str, name: &str, reported: Option<&str>) -> Option<Trouble> {
    let number = read_number(number, u64::MAX).ok()?;
    trouble_named(number, name, reported_in(reported)?)
}

/// The refusal of a question above the watermark, which this text is.
fn above(settled: &str) -> NoReply {
    match read_mark(settled) {
        Ok(settled) => NoReply::Refused(AskError::AboveWatermark(settled)),
        Err(_) => NoReply::Lapsed(Lapse::Unexpected),
    }
}

/// The refusal of a line, by its number, its name, and what stands after that.
fn refusal_of(number: &str, name: &str, reported: Option<&str>) -> NoReply {
    if number == "28" {
        return NoReply::Lapsed(Lapse::Unknown);
    }
    if let ("24", "AboveWatermark", Some(settled)) = (number, name, reported) {
        return above(settled);
    }
    match trouble_in(number, name, reported) {
        Some(trouble) => NoReply::Refused(AskError::Trouble(trouble)),
        None => NoReply::Lapsed(Lapse::Unexpected),
    }
}

/// The name in the fields after the number, and what stands after it, if anything does.
fn cut_name(fields: &str) -> (&str, Option<&str>) {
    match fields.split_once('|') {
        Some((name, reported)) => (name, Some(reported)),
        None => (fields, None),
    }
}

/// What a line says that refuses, by its fields `NUMBER|NAME`, with a bar and a number after some names.
pub(crate) fn read_refusal(fields: &str) -> NoReply {
    let Some((number, beyond)) = fields.split_once('|') else {
        return NoReply::Lapsed(Lapse::Unexpected);
    };
    let (name, reported) = cut_name(beyond);
    refusal_of(number, name, reported)
}
