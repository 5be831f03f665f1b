//! The lines of a reply as one object of JSON.
//!
//!     R|.. R|.. E|2     {"rows":[{..},{..}],"more":false}
//!     R|.. R|.. E|2     {"peers":[{..}],"more":false}, of a question for peers
//!     A|.. M|256        {"events":[{..}],"more":true,"next":"/api/history?..&skip=256"}
//!     C|.. M|..         {"places":[{..}],"more":true,"next":"/api/find?..&after_collector=.."}

use crate::events::event_text;
use crate::parameters::cut;
use crate::replying::Reply;
use crate::rows::{peer_text, place_of, place_text, row_text};
use crate::target::{Question, Shows};
use dates::{Seconds, Utc};
use std::alloc::{AllocError, Global};

/// The target of the rows, or places, after this place.
fn rows_after(alloc: Global, first: &str, text: &str) -> Result<String, AllocError> {
    let place = place_of(text);
    let (collector, peer) = (place.collector, place.peer);
    let (as_number, prefix) = (place.as_number, place.prefix);
    format!(in alloc;
        "{first}&after_collector={collector}&after_peer={peer}&after_as={as_number}&after_prefix={prefix}"
    )
}

/// The target of the peers after that of the row at this place.
fn peers_after(alloc: Global, first: &str, text: &str) -> Result<String, AllocError> {
    let place = place_of(text);
    let (collector, peer, as_number) = (place.collector, place.peer, place.as_number);
    format!(in alloc; "{first}&after_collector={collector}&after_peer={peer}&after_as={as_number}")
}

/// A text in JSON.
fn quoted(alloc: Global, text: &String) -> Option<String> {
    serde_json::to_string(alloc, text).ok()
}

/// Writes the end of a body of which more follows.
fn write_more(alloc: Global, body: &mut String, next: &String) -> Result<(), AllocError> {
    let Some(next) = quoted(alloc, next) else {
        return Err(AllocError);
    };
    body.push_str("],\"more\":true,\"next\":")?;
    body.push_str(next.as_str())?;
    body.push('}')
}

/// Writes an object, after a comma if it isn't the first.
fn write_object(body: &mut String, object: &str) -> Result<(), AllocError> {
    if !body.as_str().ends_with('[') {
        body.push(',')?;
    }
    body.push_str(object)
}

/// What the lines of rows don't say: their moment, and the target that asks from the first row on.
#[derive(Clone, Copy, Debug)]
struct Page<'a> {
    time: Seconds,
    date: &'a str,
    first: &'a str,
}

/// Writes what a line of rows is in the body.
fn write_row_line(
    alloc: Global,
    body: &mut String,
    page: Page<'_>,
    line: &str,
) -> Result<(), AllocError> {
    let (letter, text) = cut(line, '|');
    match letter {
        "R" => {
            let row = row_text(alloc, page.time, page.date, text)?;
            write_object(body, row.as_str())
        }
        "M" => {
            let next = rows_after(alloc, page.first, text)?;
            write_more(alloc, body, &next)
        }
        _ => body.push_str("],\"more\":false}"),
    }
}

/// Writes what a line of rows is in a body of peers. Rows come by peer, so a peer that is written is that of the row before.
fn write_peer_line(
    alloc: Global,
    body: &mut String,
    first: &str,
    line: &str,
) -> Result<(), AllocError> {
    let (letter, text) = cut(line, '|');
    match letter {
        "R" => {
            let peer = peer_text(alloc, text)?;
            if body.as_str().ends_with(peer.as_str()) {
                Ok(())
            } else {
                write_object(body, peer.as_str())
            }
        }
        "M" => {
            let next = peers_after(alloc, first, text)?;
            write_more(alloc, body, &next)
        }
        _ => body.push_str("],\"more\":false}"),
    }
}

/// Writes what a line of places is in the body.
fn write_place_line(
    alloc: Global,
    body: &mut String,
    first: &str,
    line: &str,
) -> Result<(), AllocError> {
    let (letter, text) = cut(line, '|');
    match letter {
        "C" => {
            let place = place_text(alloc, text)?;
            write_object(body, place.as_str())
        }
        "M" => {
            let next = rows_after(alloc, first, text)?;
            write_more(alloc, body, &next)
        }
        _ => body.push_str("],\"more\":false}"),
    }
}

/// Writes what a line of events is in the body.
fn write_event_line(
    alloc: Global,
    body: &mut String,
    first: &str,
    line: &str,
) -> Result<(), AllocError> {
    let (letter, text) = cut(line, '|');
    match letter {
        "E" => body.push_str("],\"more\":false}"),
        "M" => {
            let next = format!(in alloc; "{first}&skip={text}")?;
            write_more(alloc, body, &next)
        }
        _ => {
            let event = event_text(alloc, letter, text)?;
            write_object(body, event.as_str())
        }
    }
}

fn rows_body(alloc: Global, micros: u64, lines: &str, first: &str) -> Result<String, AllocError> {
    let date = format!(in alloc; "{}", Utc { micros })?;
    let page = Page {
        time: Seconds { micros },
        date: date.as_str(),
        first,
    };
    let mut body = String::from_str(alloc, "{\"rows\":[")?;
    for line in lines.lines() {
        write_row_line(alloc, &mut body, page, line)?;
    }
    Ok(body)
}

fn peers_body(alloc: Global, lines: &str, first: &str) -> Result<String, AllocError> {
    let mut body = String::from_str(alloc, "{\"peers\":[")?;
    for line in lines.lines() {
        write_peer_line(alloc, &mut body, first, line)?;
    }
    Ok(body)
}

fn places_body(alloc: Global, lines: &str, first: &str) -> Result<String, AllocError> {
    let mut body = String::from_str(alloc, "{\"places\":[")?;
    for line in lines.lines() {
        write_place_line(alloc, &mut body, first, line)?;
    }
    Ok(body)
}

fn events_body(alloc: Global, lines: &str, first: &str) -> Result<String, AllocError> {
    let mut body = String::from_str(alloc, "{\"events\":[")?;
    for line in lines.lines() {
        write_event_line(alloc, &mut body, first, line)?;
    }
    Ok(body)
}

/// The body of an answer to a question, whose reply this is.
pub(crate) fn body_of(
    alloc: Global,
    reply: &Reply,
    question: &Question,
) -> Result<String, AllocError> {
    let (lines, first) = (reply.lines.as_str(), question.first.as_str());
    match question.shows {
        Shows::Places => places_body(alloc, lines, first),
        Shows::Peers => peers_body(alloc, lines, first),
        Shows::Rows => match reply.time {
            Some(time) => rows_body(alloc, time, lines, first),
            None => events_body(alloc, lines, first),
        },
    }
}
