//! The lines of an answer to a question of a history.

ghost use Rattle.std.specs.Prelude.{◌≡◌, ◌++◌, OnOk, string_bytes};
ghost use Rattle.service.specs.AnswerLines.{timed_text, change_line, events_ending, events_text};

use crate::answer_lines::write_end;
use route_meaning::EventsAnswer;
use route_model::{Change, Moment};
use route_text::{write_moment, write_route};
use std::alloc::AllocError;

/// A letter, a bar and the time.
fn write_timed(out: &mut String, letter: &str, time: Moment) -> Result<(), AllocError>
    ensures text { OnOk result (string_bytes out.new ≡ string_bytes out.old ++ timed_text letter.now time) }
{
    out.push_str(letter)?;
    out.push('|')?;
    write_moment(out, time)
}

/// The line of an event. After an error `out` may have any text.
pub fn write_change(out: &mut String, time: Moment, change: &Change) -> Result<(), AllocError>
    ensures line { OnOk result (string_bytes out.new ≡ string_bytes out.old ++ change_line time change.now) }
{
    match change {
        Change::Announce(_, _, route) => {
            write_timed(out, "A", time)?;
            out.push('|')?;
            write_route(out, route.route())?;
            out.push('\n')
        }
        Change::Withdraw(_, _) => {
            write_timed(out, "W", time)?;
            out.push('\n')
        }
        Change::Down(_) => {
            write_timed(out, "D", time)?;
            out.push('\n')
        }
    }
}

/// `E|EVENTS`, or if more events follow, `M` and how many the next question skips. After an error `out` may have any text.
pub fn write_events_ending(
    out: &mut String,
    skip: u64,
    answer: &EventsAnswer,
) -> Result<(), AllocError>
    ensures line { OnOk result (string_bytes out.new ≡ string_bytes out.old ++ events_ending skip answer.now.events.items answer.now.more) }
{
    let count = answer.events.len();
    if answer.more {
        let next = u128::from(skip) + count as u128;
        writeln!(out, "M|{next}")
    } else {
        write_end(out, count)
    }
}

/// Writes an answer at the end of `out` whose question skipped this many events: for each event `A|TIME|` and the fields
/// of the route that was announced, `W|TIME` for a withdrawal, or `D|TIME` if all routes of the peer ended; then
/// `E|EVENTS` if no more events follow, else `M|SKIP` with the number that the next question skips. After an error
/// `out` may have any text.
pub fn write_events(out: &mut String, skip: u64, answer: &EventsAnswer) -> Result<(), AllocError>
    ensures lines { OnOk result (string_bytes out.new ≡ string_bytes out.old ++ events_text skip answer.now) }
{
    for event in &answer.events {
        write_change(out, event.time, &event.change)?;
    }
    write_events_ending(out, skip, answer)
}
