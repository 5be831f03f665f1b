//! What one block holds for the place for which it is read.

ghost use Rattle.std.specs.Prelude.{◌≡◌, ◌<◌, ◌≤◌, ◌↔◌, All, IsTrue, IsSome, IfOk, Err, None};
ghost use Rattle.version_model.specs.declared.part.PartKind.TheVariants.{LeafBlock, ColumnBlock};
ghost use Rattle.version_model.specs.Blocks.{IsWider};
ghost use Rattle.version_model.specs.Ranges.{range_of, high_or, end_or};
ghost use Rattle.tsb_check.specs.Counted.{IsSoundFor};
ghost use Rattle.tsb_check.specs.inner.Reported.{IsReportedOf, GoesLower};

use crate::counting::count_inside;
use disk_models::Block;
use route_model::Key;
use std::alloc::Global;
use tsb_node::{ReadFault, column_of_block, key_fits, leaf_of_block, stamp_fits};
use version_model::{Bounds, Part, PartKind, Place, Stamp};

/// What a block holds for its place: how many versions it has of the place's keys and stamps, or the parts where they are.
#[derive(Debug, Drop)]
pub enum Reported {
    Versions(u64),
    Parts(Vec<Part>),
}

// Whether there is no high key.
fn is_open(wide: Option<Key>) -> bool
    ensures { IsTrue result ↔ (high_or None ≤ high_or wide) }
{
    match wide {
        Some(wide) => {
            key_fits(wide);
            false
        }
        None => true,
    }
}

// Whether a high key, or none, isn't above another, or none.
fn is_high_within(high: Option<Key>, wide: Option<Key>) -> bool
    ensures { IsTrue result ↔ (high_or high ≤ high_or wide) }
{
    let Some(high) = high else {
        return is_open(wide);
    };
    key_fits(high);
    match wide {
        Some(wide) => high <= wide,
        None => true,
    }
}

// Whether there is an end, and it is the other one.
fn is_same_end(wide: Option<Stamp>, end: Option<Stamp>) -> bool
    ensures { IsTrue result ↔ (IsSome wide × (end_or end ≡ end_or wide)) }
{
    let Some(wide) = wide else {
        return false;
    };
    stamp_fits(wide);
    match end {
        Some(end) => wide == end,
        None => false,
    }
}

// Whether bounds have an end, are of exactly the stamps of others, and of their keys at least.
fn is_wider(wide: &Bounds, bounds: &Bounds) -> bool
    ensures { IsTrue result ↔ (IsSome wide.now.end × IsWider (range_of wide.now) (range_of bounds.now)) }
{
    let wide = *wide;
    let bounds = *bounds;
    wide.low <= bounds.low
        && is_high_within(bounds.high, wide.high)
        && wide.start == bounds.start
        && is_same_end(wide.end, bounds.end)
}

/// Whether all parts are in blocks of lower numbers.
pub fn are_lower(parts: &[Part], block: u64) -> bool
    ensures { IsTrue result ↔ All (λ part. part.block < block) parts.now }
{
    parts.iter().all(|part| part.block < block)
}

// How many versions the leaf in a block has.
fn versions_reported(alloc: Global, block: &Block, place: &Place) -> Result<Reported, ReadFault>
    requires kind { place.now.part.kind ≡ LeafBlock }
    ensures reported { IfOk result (IsReportedOf place.now block.now) }
    ensures sound { IsSoundFor place.now block.now → result ≡ Err ReadFault.NotANode → ⊥ }
    ensures lower { IfOk result (GoesLower place.now) }
{
    let decoded = match leaf_of_block(alloc, block) {
        Ok(decoded) => decoded,
        Err(fault) => return Err(fault),
    };
    if !is_wider(&decoded.bounds, &place.bounds) {
        return Err(ReadFault::NotANode);
    }
    Ok(Reported::Versions(count_inside(&place.bounds, &decoded.entries)))
}

// The parts of the column in a block.
fn parts_reported(alloc: Global, block: &Block, place: &Place) -> Result<Reported, ReadFault>
    requires kind { place.now.part.kind ≡ ColumnBlock }
    ensures reported { IfOk result (IsReportedOf place.now block.now) }
    ensures sound { IsSoundFor place.now block.now → result ≡ Err ReadFault.NotANode → ⊥ }
    ensures lower { IfOk result (GoesLower place.now) }
{
    let decoded = match column_of_block(alloc, block) {
        Ok(decoded) => decoded,
        Err(fault) => return Err(fault),
    };
    if !is_wider(&decoded.bounds, &place.bounds) {
        return Err(ReadFault::NotANode);
    }
    if !are_lower(&decoded.parts, place.part.block) {
        return Err(ReadFault::NotANode);
    }
    Ok(Reported::Parts(decoded.parts))
}

/// What a block holds for a place. Fails with NotANode exactly if it isn't what the place asks for: a leaf or a column, by the place's
/// kind, of exactly its stamps and of its keys at least; and the parts of a column are in blocks of lower numbers.
pub fn reported_by(alloc: Global, block: &Block, place: &Place) -> Result<Reported, ReadFault>
    ensures reported { IfOk result (IsReportedOf place.now block.now) }
    ensures sound { IsSoundFor place.now block.now → result ≡ Err ReadFault.NotANode → ⊥ }
    ensures lower { IfOk result (GoesLower place.now) }
{
    match place.part.kind {
        PartKind::LeafBlock => versions_reported(alloc, block, place),
        PartKind::ColumnBlock => parts_reported(alloc, block, place),
    }
}
