//! Reads request lines.

ghost use Rattle.std.specs.Prelude.{◌≡◌, ◌∷◌, [], ℕ, codes, map, IfOk, OnErr};
ghost use Rattle.service.specs.Requests.{words_of, AreDurableWords, AreRequestWords, IsRequestLine};
ghost use Rattle.service.specs.declared.request.Request.{Request};

use crate::changed_request::read_changed;
use crate::events_request::read_events;
use crate::request_words::{LAST_COLLECTOR, read_only_number, words_after};
use crate::rows_request::read_rows;
use interleaving_core::Query;
use route_meaning::ChangedQuestion;
use route_text::BadText;
use std::alloc::{AllocError, Global};
use thiserror::Error;

/// What a request line asks.
#[derive(Clone, Copy, Debug, PartialEq, Eq)]
pub enum Request {
    /// A question of what is applied.
    Question(Query),
    /// Which prefixes were announced or withdrawn in a span.
    Changed(ChangedQuestion),
    /// The settled watermark.
    Watermark,
    /// How many records of the collector of this number are admitted.
    Durable(u8),
}

/// Why a request line isn't read.
#[derive(Clone, Copy, Debug, Error, PartialEq, Eq)]
pub enum RequestError {
    /// The line is no request.
    #[error("the line is no request")]
    BadRequest,
    #[error("out of memory")]
    OutOfMemory,
}

/// What is before, between and after the spaces of a line.
pub fn words_of(alloc: Global, line: &str) -> Result<Vec<&str>, AllocError>
    ensures words { IfOk result (λ words. map (λ x. x.now) words.items ≡ words_of line.now) }
{
    line.split(' ').collect(alloc)
}

/// `watermark`
fn read_watermark(words: &[&str]) -> Result<(), BadText>
    ensures found { IfOk result (λ _. map (λ x. x.now) words.now ≡ codes "watermark" ∷ []) }
    ensures none { OnErr result (map (λ x. x.now) words.now ≡ codes "watermark" ∷ [] → ⊥) }
{
    let [word] = words else {
        return Err(BadText);
    };
    if *word != "watermark" {
        return Err(BadText);
    }
    Ok(())
}

/// `durable C`: the collector's number.
fn read_durable(words: &[&str]) -> Result<u8, BadText>
    ensures found { IfOk result (AreDurableWords (map (λ x. x.now) words.now)) }
    ensures none { OnErr result ((collector : ℕ) → AreDurableWords (map (λ x. x.now) words.now) collector → ⊥) }
{
    let Some(named) = words_after(words, "durable") else {
        return Err(BadText);
    };
    let collector = read_only_number(named, LAST_COLLECTOR)?;
    Ok(collector as u8)
}

/// What words ask.
fn read_words(words: &[&str]) -> Result<Request, BadText>
    ensures found { IfOk result (AreRequestWords (map (λ x. x.now) words.now)) }
    ensures none { OnErr result ((request : Request) → AreRequestWords (map (λ x. x.now) words.now) request → ⊥) }
{
    if let Ok(question) = read_rows(words) {
        return Ok(Request::Question(Query::Rows(question)));
    }
    if let Ok(question) = read_events(words) {
        return Ok(Request::Question(Query::Events(question)));
    }
    if let Ok(question) = read_changed(words) {
        return Ok(Request::Changed(question));
    }
    if let Ok(()) = read_watermark(words) {
        return Ok(Request::Watermark);
    }
    let collector = read_durable(words)?;
    Ok(Request::Durable(collector))
}

/// What a request line asks; the line is given without its LF. With exactly one space between two words it is one of
///
/// - `at T route PEER PREFIX`
/// - `at T prefix PREFIX`, `at T cover ADDRESS`, `at T peer PEER` or `at T all`, and after it perhaps
///   `after PEER PREFIX`
/// - `history FROM TO PEER PREFIX`, and after it perhaps `skip N`, N being at most 18,446,744,073,709,551,615
/// - `changed FROM TO LOW HIGH`, and after it perhaps `after PEER PREFIX`
/// - `watermark`
/// - `durable COLLECTOR`
///
/// where PEER is `COLLECTOR ADDRESS AS`, COLLECTOR is 0 to 15, LOW and HIGH are prefixes, and T, FROM and TO are moments: seconds or timestamps.
pub fn read_request(alloc: Global, line: &str) -> Result<Request, RequestError>
    ensures found { IfOk result (IsRequestLine line.now) }
    ensures none { result ≡ Err RequestError.BadRequest → (request : Request) → IsRequestLine line.now request → ⊥ }
{
    let Ok(words) = words_of(alloc, line) else {
        return Err(RequestError::OutOfMemory);
    };
    match read_words(&words) {
        Ok(request) => Ok(request),
        Err(BadText) => Err(RequestError::BadRequest),
    }
}
