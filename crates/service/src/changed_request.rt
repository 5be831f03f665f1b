//! Request lines that ask which prefixes were announced or withdrawn in a span.

ghost use Rattle.std.specs.Prelude.{map, IfOk, OnErr};
ghost use Rattle.route_meaning.specs.declared.question.ChangedQuestion.{ChangedQuestion};
ghost use Rattle.service.specs.Requests.{AreChangedWords};

use crate::request_words::{read_after, words_after};
use route_meaning::ChangedQuestion;
use route_text::{BadText, read_moment, read_prefix};

/// The question that words ask: `changed FROM TO LOW HIGH`, and the spot after which the answer begins.
pub(crate) fn read_changed(words: &[&str]) -> Result<ChangedQuestion, BadText>
    ensures found { IfOk result (AreChangedWords (map (λ x. x.now) words.now)) }
    ensures none { OnErr result ((q : ChangedQuestion) → AreChangedWords (map (λ x. x.now) words.now) q → ⊥) }
{
    let Some(beyond) = words_after(words, "changed") else {
        return Err(BadText);
    };
    let [from, to, low, high, after @ ..] = beyond else {
        return Err(BadText);
    };
    let from = read_moment(from)?;
    let to = read_moment(to)?;
    let low = read_prefix(low)?;
    let high = read_prefix(high)?;
    let after = read_after(after)?;
    Ok(ChangedQuestion {
        from,
        to,
        low,
        high,
        after,
    })
}
