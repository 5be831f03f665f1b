//! Request lines that ask for the routes of one moment.

ghost use Rattle.std.specs.Prelude.{Option, map, IfOk, OnErr};
ghost use Rattle.route_meaning.specs.declared.question.RowsQuestion.{RowsQuestion};
ghost use Rattle.route_meaning.specs.declared.question.Select.{Select};
ghost use Rattle.route_meaning.specs.declared.question.Spot.{Spot};
ghost use Rattle.route_model.specs.declared.address.Address.{Address};
ghost use Rattle.route_model.specs.declared.peer.Peer.{Peer};
ghost use Rattle.route_model.specs.Prefix.{IpPrefix};
ghost use Rattle.service.specs.Requests.{AreRouteWords, ArePrefixWords, AreCoverWords, ArePeerTableWords, AreAllWords, AreSelectWords, AreRowsWords};

use crate::request_words::{read_after, read_peer, read_spot, words_after};
use route_meaning::{RowsQuestion, Select, Spot};
use route_model::{Address, Peer, Prefix};
use route_text::{BadText, read_address, read_moment, read_prefix};

/// `route PEER PREFIX`
fn read_route(words: &[&str]) -> Result<Spot, BadText>
    ensures found { IfOk result (AreRouteWords (map (λ x. x.now) words.now)) }
    ensures none { OnErr result ((spot : Spot) → AreRouteWords (map (λ x. x.now) words.now) spot → ⊥) }
{
    match words_after(words, "route") {
        Some(named) => read_spot(named),
        None => Err(BadText),
    }
}

/// `prefix PREFIX`, and the spot after which the answer begins.
fn read_by_prefix(words: &[&str]) -> Result<(Prefix, Option<Spot>), BadText>
    ensures found { IfOk result (λ asked. ArePrefixWords (map (λ x. x.now) words.now) asked.0 asked.1) }
    ensures none { OnErr result ((prefix : IpPrefix) (after : Option Spot) → ArePrefixWords (map (λ x. x.now) words.now) prefix after → ⊥) }
{
    let Some(beyond) = words_after(words, "prefix") else {
        return Err(BadText);
    };
    let Some((text, after)) = beyond.split_first() else {
        return Err(BadText);
    };
    let prefix = read_prefix(text)?;
    let after = read_after(after)?;
    Ok((prefix, after))
}

/// `cover ADDRESS`, and the spot after which the answer begins.
fn read_covering(words: &[&str]) -> Result<(Address, Option<Spot>), BadText>
    ensures found { IfOk result (λ asked. AreCoverWords (map (λ x. x.now) words.now) asked.0 asked.1) }
    ensures none { OnErr result ((address : Address) (after : Option Spot) → AreCoverWords (map (λ x. x.now) words.now) address after → ⊥) }
{
    let Some(beyond) = words_after(words, "cover") else {
        return Err(BadText);
    };
    let Some((text, after)) = beyond.split_first() else {
        return Err(BadText);
    };
    let address = read_address(text)?;
    let after = read_after(after)?;
    Ok((address, after))
}

/// `peer PEER`, and the spot after which the answer begins.
fn read_peer_table(words: &[&str]) -> Result<(Peer, Option<Spot>), BadText>
    ensures found { IfOk result (λ asked. ArePeerTableWords (map (λ x. x.now) words.now) asked.0 asked.1) }
    ensures none { OnErr result ((peer : Peer) (after : Option Spot) → ArePeerTableWords (map (λ x. x.now) words.now) peer after → ⊥) }
{
    let Some(beyond) = words_after(words, "peer") else {
        return Err(BadText);
    };
    let [collector, address, as_number, after @ ..] = beyond else {
        return Err(BadText);
    };
    let peer = read_peer(collector, address, as_number)?;
    let after = read_after(after)?;
    Ok((peer, after))
}

/// `all`: the spot after which the answer begins.
fn read_all(words: &[&str]) -> Result<Option<Spot>, BadText>
    ensures found { IfOk result (AreAllWords (map (λ x. x.now) words.now)) }
    ensures none { OnErr result ((after : Option Spot) → AreAllWords (map (λ x. x.now) words.now) after → ⊥) }
{
    match words_after(words, "all") {
        Some(after) => read_after(after),
        None => Err(BadText),
    }
}

/// Which rows are asked for, and the spot after which the answer begins.
fn read_select(words: &[&str]) -> Result<(Select, Option<Spot>), BadText>
    ensures found { IfOk result (λ asked. AreSelectWords (map (λ x. x.now) words.now) asked.0 asked.1) }
    ensures none { OnErr result ((select : Select) (after : Option Spot) → AreSelectWords (map (λ x. x.now) words.now) select after → ⊥) }
{
    if let Ok(spot) = read_route(words) {
        return Ok((Select::Route(spot.peer, spot.prefix), None));
    }
    if let Ok((prefix, after)) = read_by_prefix(words) {
        return Ok((Select::ByPrefix(prefix), after));
    }
    if let Ok((address, after)) = read_covering(words) {
        return Ok((Select::Covering(address), after));
    }
    if let Ok((peer, after)) = read_peer_table(words) {
        return Ok((Select::PeerTable(peer), after));
    }
    if let Ok(after) = read_all(words) {
        return Ok((Select::All, after));
    }
    Err(BadText)
}

/// The question of one moment that words ask: `at T`, and which rows are asked for.
pub(crate) fn read_rows(words: &[&str]) -> Result<RowsQuestion, BadText>
    ensures found { IfOk result (AreRowsWords (map (λ x. x.now) words.now)) }
    ensures none { OnErr result ((q : RowsQuestion) → AreRowsWords (map (λ x. x.now) words.now) q → ⊥) }
{
    let Some(beyond) = words_after(words, "at") else {
        return Err(BadText);
    };
    let Some((text, asked)) = beyond.split_first() else {
        return Err(BadText);
    };
    let moment = read_moment(text)?;
    let (select, after) = read_select(asked)?;
    Ok(RowsQuestion {
        moment,
        select,
        after,
    })
}
