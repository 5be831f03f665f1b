//! What a target asks: a path and the parameters after it, made into a request line.
//!
//! A line is made of words that its path has. A parameter is one word at its place, so a client can't add words by one, and whether
//! the words ask something is the line's reader to say.

ghost use Rattle.std.specs.Prelude.{◌≡◌, ◌↔◌, IsTrue, codes};

use crate::fault::Fault;
use crate::parameters::{cut, parameters_in, write_value};
use route_text::{read_prefix, write_prefix};
use std::alloc::{AllocError, Global};
use tables::last_inside;

/// What an answer shows of the rows of a reply.
#[derive(Clone, Copy, Debug, PartialEq, Eq)]
pub(crate) enum Shows {
    /// Each row.
    Rows,
    /// Each peer that has one.
    Peers,
    /// Each place that changed.
    Places,
}

/// The words of a line; one with a colon before it stands for the parameter of this name, and one with a plus sign for the last prefix inside
/// that of the parameter.
#[derive(Clone, Copy, Debug)]
struct Words {
    /// Those that the line always has.
    all: &'static str,
    /// Those of a question that goes on after an answer, if one of their parameters is given.
    further: &'static str,
    shows: Shows,
}

/// Where the rows of an answer go on.
const AFTER: &str = "after :after_collector :after_peer :after_as :after_prefix";

/// Where its events do.
const SKIP: &str = "skip :skip";

/// Where the peers of an answer go on: after the last prefix of all that a peer can have.
const AFTER_PEER: &str =
    "after :after_collector :after_peer :after_as ffff:ffff:ffff:ffff:ffff:ffff:ffff:ffff/128";

fn asking(all: &'static str, further: &'static str) -> Option<Words> {
    Some(Words {
        all,
        further,
        shows: Shows::Rows,
    })
}

/// The words of the lines that ask for places that changed: those of all prefixes inside one, which in their order are the ones from itself to
/// the last.
fn asking_places() -> Option<Words> {
    Some(Words {
        all: "changed :from :to :prefix +prefix",
        further: AFTER,
        shows: Shows::Places,
    })
}

/// The words of the lines that ask for peers.
fn asking_peers() -> Option<Words> {
    Some(Words {
        all: "at :at all",
        further: AFTER_PEER,
        shows: Shows::Peers,
    })
}

/// The words of the lines that a path asks by.
fn words_of(path: &str) -> Option<Words> {
    match path {
        "/api/route" => asking("at :at route :collector :peer :as :prefix", ""),
        "/api/prefix" => asking("at :at prefix :prefix", AFTER),
        "/api/cover" => asking("at :at cover :address", AFTER),
        "/api/peer" => asking("at :at peer :collector :peer :as", AFTER),
        "/api/peers" => asking_peers(),
        "/api/find" => asking_places(),
        "/api/history" => asking("history :from :to :collector :peer :as :prefix", SKIP),
        _ => None,
    }
}

/// A question: its line, and the target that asks it from its first row, event or place on.
#[derive(Debug, Drop)]
pub(crate) struct Question {
    pub(crate) line: String,
    pub(crate) first: String,
    pub(crate) shows: Shows,
}

/// What a target asks.
#[derive(Debug, Drop)]
pub(crate) enum Asked {
    /// How far the archive has come.
    Info,
    /// The same, in Prometheus' form.
    Metrics,
    Question(Question),
}

/// Whether a word stands for the parameter of this name.
fn is_parameter(word: &str, name: &str) -> bool {
    match word.strip_prefix(':') {
        Some(its) => its == name,
        None => false,
    }
}

/// Whether a parameter of this name says where an answer goes on.
fn is_further(words: Words, name: &str) -> bool {
    for word in words.further.split(' ') {
        if is_parameter(word, name) {
            return true;
        }
    }
    false
}

/// Whether a parameter says where the answer goes on.
fn goes_on(words: Words, query: &str) -> bool {
    for pair in query.split('&') {
        let (name, _) = cut(pair, '=');
        if is_further(words, name) {
            return true;
        }
    }
    false
}

/// Writes the last prefix inside that of a parameter.
fn write_last(alloc: Global, out: &mut String, query: &str, name: &str) -> Result<(), Fault> {
    let mut text = String::new(alloc);
    write_value(alloc, &mut text, query, name)?;
    let Ok(prefix) = read_prefix(text.as_str()) else {
        return Err(Fault::BadQuery);
    };
    write_prefix(out, &last_inside(&prefix))?;
    Ok(())
}

/// Writes a word, or what stands for it: how many parameters it is.
fn write_word(alloc: Global, out: &mut String, word: &str, query: &str) -> Result<usize, Fault> {
    if let Some(name) = word.strip_prefix(':') {
        write_value(alloc, out, query, name)?;
        return Ok(1);
    }
    match word.strip_prefix('+') {
        Some(name) => write_last(alloc, out, query, name)?,
        None => out.push_str(word)?,
    }
    Ok(0)
}

/// Writes words with spaces between, and for parameters their values: how many of these there are.
fn write_words(alloc: Global, out: &mut String, words: &str, query: &str) -> Result<usize, Fault> {
    let mut values = 0usize;
    for word in words.split(' ') {
        if !out.is_empty() {
            out.push(' ')?;
        }
        let written = write_word(alloc, out, word, query)?;
        values = values.saturating_add(written);
    }
    Ok(values)
}

/// The line of a question. Each parameter is one word of it: there are no others, and none twice.
fn line_of(alloc: Global, words: Words, query: &str) -> Result<String, Fault> {
    let mut line = String::new(alloc);
    let mut values = write_words(alloc, &mut line, words.all, query)?;
    if goes_on(words, query) {
        let more = write_words(alloc, &mut line, words.further, query)?;
        values = values.saturating_add(more);
    }
    if values == parameters_in(query) {
        Ok(line)
    } else {
        Err(Fault::BadQuery)
    }
}

/// The path and the parameters, without those that say where an answer goes on.
fn first_of(alloc: Global, path: &str, words: Words, query: &str) -> Result<String, AllocError> {
    let mut first = String::from_str(alloc, path)?;
    let mut mark = '?';
    for pair in query.split('&') {
        let (name, _) = cut(pair, '=');
        if !is_further(words, name) {
            first.push(mark)?;
            first.push_str(pair)?;
            mark = '&';
        }
    }
    Ok(first)
}

fn question_of(alloc: Global, path: &str, query: &str) -> Result<Question, Fault> {
    let Some(words) = words_of(path) else {
        return Err(Fault::NoPath);
    };
    let line = line_of(alloc, words, query)?;
    let first = first_of(alloc, path, words, query)?;
    Ok(Question {
        line,
        first,
        shows: words.shows,
    })
}

/// What is asked without parameters.
fn alone(asked: Asked, query: &str) -> Result<Asked, Fault> {
    if query.is_empty() {
        Ok(asked)
    } else {
        Err(Fault::BadQuery)
    }
}

/// Whether a target is that of the page.
pub(crate) fn is_page(target: &[u8]) -> bool
    ensures page { IsTrue result ↔ (target.now ≡ codes "/") }
{
    target == b"/".as_slice()
}

/// What a target asks that isn't the page's.
pub(crate) fn asked_by(alloc: Global, target: &[u8]) -> Result<Asked, Fault> {
    let Ok(text) = str::from_utf8(target) else {
        return Err(Fault::BadQuery);
    };
    let (path, query) = cut(text, '?');
    match path {
        "/api/info" => alone(Asked::Info, query),
        "/metrics" => alone(Asked::Metrics, query),
        _ => match question_of(alloc, path, query) {
            Ok(question) => Ok(Asked::Question(question)),
            Err(fault) => Err(fault),
        },
    }
}
