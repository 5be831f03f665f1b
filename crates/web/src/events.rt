//! Events as objects of JSON.

use crate::parameters::cut;
use crate::routes::{RouteObject, route_object};
use dates::{Seconds, Utc};
use route_text::read_moment;
use serde::Serialize;
use std::alloc::{AllocError, Global};

/// What an object says of an event.
#[derive(Debug, Drop, Serialize)]
struct EventObject<'a> {
    time: Seconds,
    date: &'a str,
    event: &'a str,
    /// The route that was announced.
    route: Option<RouteObject<'a>>,
}

fn text_of(alloc: Global, event: &EventObject<'_>) -> Option<String> {
    serde_json::to_string(alloc, event).ok()
}

/// The route of an announcement; a withdrawal and an end of all routes have none.
fn route_of<'a>(
    alloc: Global,
    letter: &str,
    text: &'a str,
) -> Result<Option<RouteObject<'a>>, AllocError> {
    if letter == "A" {
        match route_object(alloc, text) {
            Ok(route) => Ok(Some(route)),
            Err(why) => Err(why),
        }
    } else {
        Ok(None)
    }
}

/// What an event is called whose line begins with this letter.
fn name_of(letter: &str) -> &'static str {
    match letter {
        "A" => "announce",
        "W" => "withdraw",
        _ => "down",
    }
}

/// The microseconds since 1970 of an event's time, as its line has it.
fn micros_of(time: &str) -> u64 {
    match read_moment(time) {
        Ok(moment) => moment.number(),
        Err(_) => 0,
    }
}

/// The object of an event, whose line has this letter, and this text after it.
pub(crate) fn event_text(alloc: Global, letter: &str, text: &str) -> Result<String, AllocError> {
    let (time, beyond) = cut(text, '|');
    let micros = micros_of(time);
    let date = format!(in alloc; "{}", Utc { micros })?;
    let route = match route_of(alloc, letter, beyond) {
        Ok(route) => route,
        Err(why) => return Err(why),
    };
    let event = EventObject {
        time: Seconds { micros },
        date: date.as_str(),
        event: name_of(letter),
        route,
    };
    text_of(alloc, &event).ok_or(AllocError)
}
