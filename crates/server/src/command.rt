//! The lines of a connection, read.

ghost use Rattle.std.specs.Prelude.{◌≡◌, map, Err, IfOk, OnErr};
ghost use Rattle.server.specs.Commands.{AreOrderWords, IsCommandLine};
ghost use Rattle.server.specs.declared.command.Command.{Command};
ghost use Rattle.service.specs.Requests.{words_of};

use crate::command_words::{read_feed_words, read_mark_words, read_word};
use route_model::Mark;
use route_text::BadText;
use service::{Request, RequestError, read_request, words_of};
use std::alloc::Global;

/// What a line of a connection asks.
#[derive(Clone, Copy, Debug, PartialEq, Eq)]
pub enum Command {
    /// To be answered.
    Request(Request),
    /// That the mark of the collector of this number is raised to this.
    Mark(u8, Mark),
    /// That all octets after the line are taken in as records of the collector of this number, in batches of at most this many
    /// admissions, 1 to 1,000.
    Feed(u8, u16),
    /// That the connection ends.
    Quit,
    /// That the server ends, and the connection with it.
    Stop,
}

/// What words order that ask for no answer.
fn read_order(words: &[&str]) -> Result<Command, BadText>
    ensures found { IfOk result (AreOrderWords (map (λ x. x.now) words.now)) }
    ensures none { OnErr result ((order : Command) → AreOrderWords (map (λ x. x.now) words.now) order → ⊥) }
{
    if let Ok((collector, mark)) = read_mark_words(words) {
        return Ok(Command::Mark(collector, mark));
    }
    if let Ok((collector, limit)) = read_feed_words(words) {
        return Ok(Command::Feed(collector, limit));
    }
    if let Ok(()) = read_word(words, "quit") {
        return Ok(Command::Quit);
    }
    read_word(words, "stop")?;
    Ok(Command::Stop)
}

/// What a line of a connection asks, the line being without its end. It is a request line, as
/// [`read_request`](service::read_request) reads it, or one of
///
/// - `mark COLLECTOR MARK`, MARK being a mark: seconds or a timestamp
/// - `feed COLLECTOR N`, N being 1 to 1000
/// - `quit`
/// - `stop`
///
/// with exactly one space between two words; COLLECTOR is 0 to 15. A line that isn't UTF-8 is none of these.
///
/// # Errors
///
/// `BadRequest` where it is none; `OutOfMemory` where an allocation failed.
pub fn read_command(alloc: Global, line: &[u8]) -> Result<Command, RequestError>
    ensures found { IfOk result (IsCommandLine line.now) }
    ensures none { result ≡ Err RequestError.BadRequest → (command : Command) → IsCommandLine line.now command → ⊥ }
{
    let Ok(text) = str::from_utf8(line) else {
        return Err(RequestError::BadRequest);
    };
    match read_request(alloc, text) {
        Ok(request) => return Ok(Command::Request(request)),
        Err(RequestError::OutOfMemory) => return Err(RequestError::OutOfMemory),
        Err(RequestError::BadRequest) => {}
    }
    let Ok(words) = words_of(alloc, text) else {
        return Err(RequestError::OutOfMemory);
    };
    match read_order(&words) {
        Ok(order) => Ok(order),
        Err(BadText) => Err(RequestError::BadRequest),
    }
}
