//! Words of lines that ask for no answer.

ghost use Rattle.std.specs.Prelude.{◌≡◌, ℕ, ◌∷◌, [], map, IfOk, OnErr};
ghost use Rattle.server.specs.Commands.{AreFeedWords, AreMarkWords, IsCollectorText, IsLimitText};

use route_model::Mark;
use route_text::{BadText, read_mark, read_number};
use service::{LAST_COLLECTOR, words_after};

/// The most admissions of a batch that a line can ask for.
const MOST_ADMISSIONS: u64 = 1000;

/// The number of a collector that a text writes.
fn read_collector(text: &str) -> Result<u8, BadText>
    ensures found { IfOk result (IsCollectorText text.now) }
    ensures none { OnErr result ((collector : ℕ) → IsCollectorText text.now collector → ⊥) }
{
    let number = read_number(text, LAST_COLLECTOR)?;
    Ok(number as u8)
}

/// How many admissions a batch may have, as a text writes it.
fn read_limit(text: &str) -> Result<u16, BadText>
    ensures found { IfOk result (IsLimitText text.now) }
    ensures none { OnErr result ((limit : ℕ) → IsLimitText text.now limit → ⊥) }
{
    let number = read_number(text, MOST_ADMISSIONS)?;
    if number == 0 {
        return Err(BadText);
    }
    Ok(number as u16)
}

/// `mark COLLECTOR MARK`
pub(crate) fn read_mark_words(words: &[&str]) -> Result<(u8, Mark), BadText>
    ensures found { IfOk result (λ asked. AreMarkWords (map (λ x. x.now) words.now) asked.0 asked.1) }
    ensures none { OnErr result ((collector mark : ℕ) → AreMarkWords (map (λ x. x.now) words.now) collector mark → ⊥) }
{
    let Some(beyond) = words_after(words, "mark") else {
        return Err(BadText);
    };
    let [collector, mark] = beyond else {
        return Err(BadText);
    };
    let collector = read_collector(collector)?;
    let mark = read_mark(mark)?;
    Ok((collector, mark))
}

/// `feed COLLECTOR N`
pub(crate) fn read_feed_words(words: &[&str]) -> Result<(u8, u16), BadText>
    ensures found { IfOk result (λ asked. AreFeedWords (map (λ x. x.now) words.now) asked.0 asked.1) }
    ensures none { OnErr result ((collector limit : ℕ) → AreFeedWords (map (λ x. x.now) words.now) collector limit → ⊥) }
{
    let Some(beyond) = words_after(words, "feed") else {
        return Err(BadText);
    };
    let [collector, limit] = beyond else {
        return Err(BadText);
    };
    let collector = read_collector(collector)?;
    let limit = read_limit(limit)?;
    Ok((collector, limit))
}

/// The one word.
pub(crate) fn read_word(words: &[&str], word: &str) -> Result<(), BadText>
    ensures found { IfOk result (λ _. map (λ x. x.now) words.now ≡ word.now ∷ []) }
    ensures none { OnErr result (map (λ x. x.now) words.now ≡ word.now ∷ [] → ⊥) }
{
    let [only] = words else {
        return Err(BadText);
    };
    if *only != word {
        return Err(BadText);
    }
    Ok(())
}
