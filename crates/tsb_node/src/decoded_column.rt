//! Reads the pages and blocks of columns into owned values.

ghost use Rattle.std.specs.Prelude.{◌≡◌, IsSome};
ghost use Rattle.std.specs.Result.{MatchResult};
ghost use Rattle.tsb_node.specs.Columns.{IsColumnPage, IsColumnBlock};
ghost use Rattle.tsb_node.specs.Decoded.{decoded_column, decoded_old_column, IsRefusal};
ghost use Rattle.tsb_node.specs.inner.NodeReading.{IsNode};
ghost use Rattle.tsb_node.specs.Scaling.{IsKnownUnit};
ghost use Rattle.tsb_node.specs.inner.InMoments.{IsColumnFrom, IsOldColumnFrom};

use crate::column::Current;
use crate::column_reading::{current_of, parts_in};
use crate::header::{Header, is_of_kind};
use crate::leaf_part::ReadFault;
use crate::moments::{bounds_in_moments, in_moments, is_known, moments_of, scale_parts};
use crate::node_reading::{node_of_block, node_of_page};
use disk_models::{Block, Page};
use std::alloc::Global;
use version_model::{Bounds, Part};

/// What the page of a column represents: its bounds, the parts of its past in the order of their starts, and its current leaf.
#[derive(Debug, Drop)]
pub struct DecodedColumn {
    pub bounds: Bounds,
    pub parts: Vec<Part>,
    pub current: Current,
}

/// What the block of a column represents: its bounds, and its parts in the order of their starts.
#[derive(Debug, Drop)]
pub struct DecodedOldColumn {
    pub bounds: Bounds,
    pub parts: Vec<Part>,
}

/// Reads the column whose header and entries in a page these are.
fn column_in(alloc: Global, header: &Header, entries: &[u8]) -> Result<DecodedColumn, ReadFault>
    requires node { IsNode header.now entries.now }
    requires known { IsKnownUnit header.now.unit }
    ensures column { MatchResult result (λ decoded. IsColumnFrom header.now entries.now (decoded_column decoded)) (IsRefusal (IsColumnFrom header.now entries.now)) }
{
    let Some((current, front)) = current_of(header, entries) else {
        return Err(ReadFault::NotANode);
    };
    let k = moments_of(header.unit);
    let Some(bounds) = bounds_in_moments(&header.bounds, k) else {
        return Err(ReadFault::NotANode);
    };
    let Some(start) = in_moments(current.start, k) else {
        return Err(ReadFault::NotANode);
    };
    match parts_in(
        alloc,
        front,
        header.count - 1,
        header.bounds.start,
        Some(current.start),
    ) {
        Ok(mut parts) => {
            scale_parts(&mut parts, k);
            let page = current.page;
            Ok(DecodedColumn {
                bounds,
                parts,
                current: Current { start, page },
            })
        }
        Err(fault) => Err(fault),
    }
}

/// Reads the column whose header and entries in a block these are.
fn read_old_column(
    alloc: Global,
    header: &Header,
    entries: &[u8],
) -> Result<DecodedOldColumn, ReadFault>
    requires node { IsNode header.now entries.now }
    requires known { IsKnownUnit header.now.unit }
    requires ended { IsSome header.now.bounds.end }
    ensures column { MatchResult result (λ decoded. IsOldColumnFrom header.now entries.now (decoded_old_column decoded)) (IsRefusal (IsOldColumnFrom header.now entries.now)) }
{
    if !is_of_kind(header, 2, 1) {
        return Err(ReadFault::NotANode);
    }
    if header.count == 0 {
        return Err(ReadFault::NotANode);
    }
    let k = moments_of(header.unit);
    let Some(bounds) = bounds_in_moments(&header.bounds, k) else {
        return Err(ReadFault::NotANode);
    };
    let (start, end) = (header.bounds.start, header.bounds.end);
    match parts_in(alloc, entries, header.count, start, end) {
        Ok(mut parts) => {
            scale_parts(&mut parts, k);
            Ok(DecodedOldColumn { bounds, parts })
        }
        Err(fault) => Err(fault),
    }
}

/// Reads the column that a page represents. Fails with NotANode exactly if the page is no column, and with Memory only
/// if it is one.
pub fn column_of_page(alloc: Global, page: &Page) -> Result<DecodedColumn, ReadFault>
    ensures column { MatchResult result (λ decoded. IsColumnPage (decoded_column decoded) page.now) (IsRefusal (λ column. IsColumnPage column page.now)) }
{
    let Some((header, entries)) = node_of_page(page) else {
        return Err(ReadFault::NotANode);
    };
    if !is_known(header.unit) {
        return Err(ReadFault::NotANode);
    }
    column_in(alloc, &header, entries)
}

/// Reads the column that a block represents. Fails with NotANode exactly if the block is no column, and with Memory only
/// if it is one.
pub fn column_of_block(alloc: Global, block: &Block) -> Result<DecodedOldColumn, ReadFault>
    ensures column { MatchResult result (λ decoded. IsColumnBlock (decoded_old_column decoded) block.now) (IsRefusal (λ column. IsColumnBlock column block.now)) }
{
    let Some((header, entries)) = node_of_block(block) else {
        return Err(ReadFault::NotANode);
    };
    if !is_known(header.unit) {
        return Err(ReadFault::NotANode);
    }
    read_old_column(alloc, &header, entries)
}
