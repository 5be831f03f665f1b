//! Reads the pages of key nodes into owned values.

ghost use Rattle.std.specs.Prelude.{◌≡◌, ◌↔◌, ◌≤◌, ◌<◌, IsTrue};
ghost use Rattle.std.specs.Result.{MatchResult};
ghost use Rattle.tsb_node.specs.KeyNodes.{IsKeyNodePage};
ghost use Rattle.tsb_node.specs.Decoded.{decoded_key_node, IsRefusal};
ghost use Rattle.tsb_node.specs.inner.NodeReading.{IsNode};
ghost use Rattle.tsb_node.specs.inner.ChildReading.{IsKeyNodeOf};

use crate::header::Header;
use crate::key_node_reading::children_in;
use crate::leaf_part::ReadFault;
use crate::moments::is_known;
use crate::node_reading::node_of_page;
use disk_models::Page;
use std::alloc::Global;
use version_model::{Bounds, Child, Stamp};

/// What a key node represents: its level, its bounds, and its children in the order of their lowest keys.
#[derive(Debug, Drop)]
pub struct DecodedKeyNode {
    pub level: u8,
    pub bounds: Bounds,
    pub children: Vec<Child>,
}

/// Whether a header is of a key node's kind, of one of its levels, 2 to 7, and counts children.
pub fn is_of_key_nodes(header: &Header) -> bool
    ensures { IsTrue result ↔ ((header.now.kind ≡ 3) × (2 ≤ header.now.level) × (header.now.level ≤ 7) × (0 < header.now.count)) }
{
    header.kind == 3 && header.level >= 2 && header.level <= 7 && header.count > 0
}

/// Reads the key node whose header and entries these are.
fn key_node_in(alloc: Global, header: &Header, entries: &[u8]) -> Result<DecodedKeyNode, ReadFault>
    requires node { IsNode header.now entries.now }
    ensures key_node { MatchResult result (λ decoded. IsKeyNodeOf header.now entries.now (decoded_key_node decoded)) (IsRefusal (IsKeyNodeOf header.now entries.now)) }
{
    if !is_of_key_nodes(header) {
        return Err(ReadFault::NotANode);
    }
    if header.bounds.start != Stamp::new(0, 0) {
        return Err(ReadFault::NotANode);
    }
    let bounds = header.bounds;
    match children_in(alloc, entries, header.count, &bounds) {
        Ok(children) => Ok(DecodedKeyNode {
            level: header.level,
            bounds,
            children,
        }),
        Err(fault) => Err(fault),
    }
}

/// Reads the key node that a page represents. Fails with NotANode exactly if the page is no key node, and with Memory only if it
/// is one.
pub fn key_node_of_page(alloc: Global, page: &Page) -> Result<DecodedKeyNode, ReadFault>
    ensures key_node { MatchResult result (λ decoded. IsKeyNodePage (decoded_key_node decoded) page.now) (IsRefusal (λ node. IsKeyNodePage node page.now)) }
{
    let Some((header, entries)) = node_of_page(page) else {
        return Err(ReadFault::NotANode);
    };
    if !is_known(header.unit) {
        return Err(ReadFault::NotANode);
    }
    key_node_in(alloc, &header, entries)
}
