//! Words of request lines: numbers, peers and spots.

ghost use Rattle.std.specs.Prelude.{◌≡◌, ℕ, List, ◌∷◌, Option, map, IfOk, OnErr, IfSome, IfNone};
ghost use Rattle.route_meaning.specs.declared.question.Spot.{Spot};
ghost use Rattle.route_model.specs.declared.peer.Peer.{Peer};
ghost use Rattle.service.specs.Requests.{AreNumberWords, ArePeerWords, AreSpotWords, AreAfterWords};

use route_meaning::Spot;
use route_model::Peer;
use route_text::{BadText, read_address, read_number, read_prefix};

/// The last number of a collector that a line can name.
pub const LAST_COLLECTOR: u64 = 15;

/// The words after the first, if that is this one.
pub fn words_after<'a, 'b>(words: &'a [&'b str], word: &str) -> Option<&'a [&'b str]>
    ensures found { IfSome result (λ beyond. map (λ x. x.now) words.now ≡ word.now ∷ map (λ x. x.now) beyond.now) }
    ensures none { IfNone result ((beyond : List (List ℕ)) → map (λ x. x.now) words.now ≡ word.now ∷ beyond → ⊥) }
{
    let (first, beyond) = words.split_first()?;
    if *first == word { Some(beyond) } else { None }
}

/// The number of at most `last` that the only word is.
pub(crate) fn read_only_number(words: &[&str], last: u64) -> Result<u64, BadText>
    ensures found { IfOk result (AreNumberWords last (map (λ x. x.now) words.now)) }
    ensures none { OnErr result ((number : ℕ) → AreNumberWords last (map (λ x. x.now) words.now) number → ⊥) }
{
    let [text] = words else {
        return Err(BadText);
    };
    read_number(text, last)
}

/// The peer that three words name.
pub fn read_peer(collector: &str, address: &str, as_number: &str) -> Result<Peer, BadText>
    ensures found { IfOk result (ArePeerWords collector.now address.now as_number.now) }
    ensures none { OnErr result ((peer : Peer) → ArePeerWords collector.now address.now as_number.now peer → ⊥) }
{
    let collector = read_number(collector, LAST_COLLECTOR)?;
    let address = read_address(address)?;
    let as_number = read_number(as_number, u64::from(u32::MAX))?;
    Ok(Peer {
        collector: collector as u8,
        address,
        as_number: as_number as u32,
    })
}

/// The spot that four words name.
pub(crate) fn read_spot(words: &[&str]) -> Result<Spot, BadText>
    ensures found { IfOk result (AreSpotWords (map (λ x. x.now) words.now)) }
    ensures none { OnErr result ((spot : Spot) → AreSpotWords (map (λ x. x.now) words.now) spot → ⊥) }
{
    let [collector, address, as_number, prefix] = words else {
        return Err(BadText);
    };
    let peer = read_peer(collector, address, as_number)?;
    let prefix = read_prefix(prefix)?;
    Ok(Spot { peer, prefix })
}

/// The spot after which an answer begins.
pub(crate) fn read_after(words: &[&str]) -> Result<Option<Spot>, BadText>
    ensures found { IfOk result (AreAfterWords (map (λ x. x.now) words.now)) }
    ensures none { OnErr result ((after : Option Spot) → AreAfterWords (map (λ x. x.now) words.now) after → ⊥) }
{
    let Some((word, named)) = words.split_first() else {
        return Ok(None);
    };
    if *word != "after" {
        return Err(BadText);
    }
    let spot = read_spot(named)?;
    Ok(Some(spot))
}
