//! Takes a piece of a stream, after the octets that are kept.

ghost use Rattle.std.specs.Prelude.{◌≡◌, ◌+◌, ◌<◌, ◌≤◌, ℕ, List, [], ◌∷◌, ◌++◌, length, take, drop, IfOk, OnErr, OnOk};
ghost use Rattle.mrt_records.specs.Records.{IsRecord, Over, BeginsWithRecord};
ghost use Rattle.mrt_records.specs.Streams.{Gains, GainsFrames};
ghost use Rattle.mrt_records.specs.Feeding.{IsHeld, Goes};
ghost use Rattle.mrt_records.specs.inner.Front.{IsToppedUp, IsFilled};

use crate::body::item_of;
use crate::front::{Front, HEADER, LIMIT, front_of};
use crate::item::Item;
use route_model::octets::u32_at;
use std::alloc::{AllocError, Global};
use std::cmp::min;

/// Adds the item of a record.
fn push_item(alloc: Global, bytes: &[u8], out: &mut Vec<Item>) -> Result<(), AllocError>
    requires { IsRecord bytes.now }
    ensures ok { OnOk result (Gains out.old.items out.new.items (bytes.now ∷ [])) }
    ensures err { OnErr result (out.new.items ≡ out.old.items) }
{
    let item = item_of(alloc, bytes)?;
    out.push(item)?;
    Ok(())
}

/// Adds the items of the whole records at the front, and returns the rest.
fn push_items<'a>(
    alloc: Global,
    bytes: &'a [u8],
    out: &mut Vec<Item>,
) -> Result<&'a [u8], AllocError>
    ensures ok { IfOk result (λ rest. GainsFrames bytes.now rest.now out.old.items out.new.items) }
    ensures err { OnErr result (out.new.items ≡ out.old.items) }
{
    let mark = out.len();
    let mut rest = bytes;
    while let Front::Whole(len) = front_of(rest) {
        let (first, after) = rest.split_at(len);
        match push_item(alloc, first, out) {
            Ok(()) => rest = after,
            Err(e) => {
                out.truncate(mark);
                return Err(e);
            }
        }
    }
    Ok(rest)
}

/// Moves octets from the piece to the kept ones until there are `need`, or the piece is used up. Returns how many it moved.
fn top_up(held: &mut Vec<u8>, piece: &[u8], need: usize) -> Result<usize, AllocError>
    ensures ok { IfOk result (λ n. IsToppedUp held.old.items held.new.items piece.now need n) }
    ensures err { OnErr result (held.new.items ≡ held.old.items) }
{
    let more = min(need.saturating_sub(held.len()), piece.len());
    held.extend_from_slice(&piece[..more])?;
    Ok(more)
}

/// Moves octets from the piece to the kept ones until these are a record, or have a Length above the
/// limit, or the piece is used up. Returns how many it moved.
fn fill(held: &mut Vec<u8>, piece: &[u8]) -> Result<usize, AllocError>
    requires { BeginsWithRecord held.old.items → ⊥ }
    ensures ok { IfOk result (λ n. IsFilled held.old.items held.new.items piece.now n) }
    ensures err { OnErr result (held.new.items ≡ held.old.items) }
{
    let before = held.len();
    let first = top_up(held, piece, HEADER)?;
    if held.len() < HEADER {
        return Ok(first);
    }
    let len = u32_at(held, 8);
    if len > LIMIT {
        return Ok(first);
    }
    match top_up(held, &piece[first..], HEADER + len as usize) {
        Ok(second) => Ok(first + second),
        Err(e) => {
            held.truncate(before);
            Err(e)
        }
    }
}

/// Keeps the rest of a piece until the next one, in place of what was kept. Returns whether the rest is
/// above the limit, and then keeps its header alone.
fn hold(alloc: Global, held: &mut Vec<u8>, rest: &[u8]) -> Result<bool, AllocError>
    ensures ok { IfOk result (λ over. IsHeld over rest.now held.new.items) }
    ensures err { OnErr result (held.new.items ≡ held.old.items) }
{
    match front_of(rest) {
        Front::Over => {
            *held = Vec::from_slice(alloc, &rest[..HEADER])?;
            Ok(true)
        }
        _ => {
            *held = Vec::from_slice(alloc, rest)?;
            Ok(false)
        }
    }
}

/// Adds the items of the whole records of octets, and keeps what is left in place of what was kept.
/// Returns whether that is above the limit.
fn feed_rest(
    alloc: Global,
    held: &mut Vec<u8>,
    bytes: &[u8],
    out: &mut Vec<Item>,
) -> Result<bool, AllocError>
    ensures ok { IfOk result (λ over. Goes over bytes.now held.new.items out.old.items out.new.items) }
    ensures err { OnErr result ((held.new.items ≡ held.old.items) × (out.new.items ≡ out.old.items)) }
{
    let mark = out.len();
    let rest = push_items(alloc, bytes, out)?;
    match hold(alloc, held, rest) {
        Ok(over) => Ok(over),
        Err(e) => {
            out.truncate(mark);
            Err(e)
        }
    }
}

/// A record is kept, and then come more octets.
fn feed_whole(
    alloc: Global,
    held: &mut Vec<u8>,
    bytes: &[u8],
    out: &mut Vec<Item>,
) -> Result<bool, AllocError>
    requires { IsRecord held.old.items }
    ensures ok { IfOk result (λ over. Goes over (held.old.items ++ bytes.now) held.new.items out.old.items out.new.items) }
    ensures err { OnErr result ((held.new.items ≡ held.old.items) × (out.new.items ≡ out.old.items)) }
{
    let mark = out.len();
    push_item(alloc, held, out)?;
    match feed_rest(alloc, held, bytes, out) {
        Ok(over) => Ok(over),
        Err(e) => {
            out.truncate(mark);
            Err(e)
        }
    }
}

/// Takes a piece that follows the kept octets: adds the items of the whole records, and keeps the rest. Returns whether that is above the limit.
pub(crate) fn feed_held(
    alloc: Global,
    held: &mut Vec<u8>,
    piece: &[u8],
    out: &mut Vec<Item>,
) -> Result<bool, AllocError>
    requires { BeginsWithRecord held.old.items → ⊥ }
    ensures ok { IfOk result (λ over. Goes over (held.old.items ++ piece.now) held.new.items out.old.items out.new.items) }
    ensures err { OnErr result ((held.new.items ≡ held.old.items) × (out.new.items ≡ out.old.items)) }
{
    if held.is_empty() {
        return feed_rest(alloc, held, piece, out);
    }
    let before = held.len();
    let moved = fill(held, piece)?;
    match front_of(held) {
        Front::Part => Ok(false),
        Front::Over => Ok(true),
        Front::Whole(_) => match feed_whole(alloc, held, &piece[moved..], out) {
            Ok(over) => Ok(over),
            Err(e) => {
                held.truncate(before);
                Err(e)
            }
        },
    }
}
