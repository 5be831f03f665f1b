//! Request lines that ask what a peer announced and withdrew of a prefix.

ghost use Rattle.std.specs.Prelude.{ℕ, map, IfOk, OnErr};
ghost use Rattle.route_meaning.specs.declared.question.EventsQuestion.{EventsQuestion};
ghost use Rattle.service.specs.Requests.{AreSkipWords, AreEventsWords};

use crate::request_words::{read_only_number, read_peer, words_after};
use route_meaning::EventsQuestion;
use route_text::{BadText, read_moment, read_prefix};

/// How many events are left out.
fn read_skip(words: &[&str]) -> Result<u64, BadText>
    ensures found { IfOk result (AreSkipWords (map (λ x. x.now) words.now)) }
    ensures none { OnErr result ((skip : ℕ) → AreSkipWords (map (λ x. x.now) words.now) skip → ⊥) }
{
    let Some((word, named)) = words.split_first() else {
        return Ok(0);
    };
    if *word != "skip" {
        return Err(BadText);
    }
    read_only_number(named, u64::MAX)
}

/// The question of a history that words ask: `history FROM TO PEER PREFIX`, and how many events are left out.
pub(crate) fn read_events(words: &[&str]) -> Result<EventsQuestion, BadText>
    ensures found { IfOk result (AreEventsWords (map (λ x. x.now) words.now)) }
    ensures none { OnErr result ((q : EventsQuestion) → AreEventsWords (map (λ x. x.now) words.now) q → ⊥) }
{
    let Some(beyond) = words_after(words, "history") else {
        return Err(BadText);
    };
    let [from, to, collector, address, as_number, prefix, skip @ ..] = beyond else {
        return Err(BadText);
    };
    let from = read_moment(from)?;
    let to = read_moment(to)?;
    let peer = read_peer(collector, address, as_number)?;
    let prefix = read_prefix(prefix)?;
    let skip = read_skip(skip)?;
    Ok(EventsQuestion {
        from,
        to,
        peer,
        prefix,
        skip,
    })
}
