//! Reads the pages and blocks of leaves into owned values.

ghost use Rattle.std.specs.Result.{MatchResult};
ghost use Rattle.tsb_node.specs.Leaves.{IsLeafPage, IsLeafBlock};
ghost use Rattle.tsb_node.specs.Decoded.{decoded_leaf, IsRefusal};

use crate::leaf_entries::entries_in;
use crate::leaf_part::ReadFault;
use crate::leaf_reading::{read_leaf, read_leaf_block};
use disk_models::{Block, Page};
use std::alloc::Global;
use version_model::{Bounds, Entry};

/// What a leaf represents: its bounds, and its entries in the order of their stamps.
#[derive(Debug, Drop)]
pub struct DecodedLeaf {
    pub bounds: Bounds,
    pub entries: Vec<Entry>,
}

/// Reads the leaf that a page represents. Fails with NotANode exactly if the page is no leaf, and with Memory only if it is one.
pub fn leaf_of_page(alloc: Global, page: &Page) -> Result<DecodedLeaf, ReadFault>
    ensures leaf { MatchResult result (λ decoded. IsLeafPage (decoded_leaf decoded) page.now) (IsRefusal (λ leaf. IsLeafPage leaf page.now)) }
{
    let Some(bounds) = read_leaf(page) else {
        return Err(ReadFault::NotANode);
    };
    match entries_in(alloc, page.octets()) {
        Ok(entries) => Ok(DecodedLeaf { bounds, entries }),
        Err(fault) => Err(fault),
    }
}

/// Reads the leaf that a block represents. Fails with NotANode exactly if the block is no leaf, and with Memory only if it is
/// one.
pub fn leaf_of_block(alloc: Global, block: &Block) -> Result<DecodedLeaf, ReadFault>
    ensures leaf { MatchResult result (λ decoded. IsLeafBlock (decoded_leaf decoded) block.now) (IsRefusal (λ leaf. IsLeafBlock leaf block.now)) }
{
    let Some(bounds) = read_leaf_block(block) else {
        return Err(ReadFault::NotANode);
    };
    match entries_in(alloc, block.octets()) {
        Ok(entries) => Ok(DecodedLeaf { bounds, entries }),
        Err(fault) => Err(fault),
    }
}
