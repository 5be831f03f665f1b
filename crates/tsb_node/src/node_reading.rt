//! Reads what all nodes have in common: a header, the octets of the entries, zeros after them, and what ends a page or a block.

ghost use Rattle.std.specs.Prelude.{List, ℕ, ◌≡◌, ◌↔◌, length, All, IfSome, IfNone, IsTrue};
ghost use Rattle.tsb_node.specs.inner.NodeReading.{BeginsAsNode, IsNodePage, IsNodeBlock};

use crate::header::{Header, read_header};
use crate::leaf::{FIRST, LAST, ROOM};
use disk_models::{Block, Page};
use once_store::is_whole;

/// Whether all octets are zero. Each one is compared, whatever those before it are: so the loop takes many at once.
pub fn are_zeros(octets: &[u8]) -> bool
    ensures { IsTrue result ↔ All (λ octet. octet ≡ 0) octets.now }
{
    let mut seen = 0u8;
    for octet in octets {
        seen |= *octet;
    }
    seen == 0
}

/// The header of the node with which octets begin, and the octets of its entries. None if they begin as no node does: its bounds
/// aren't in order, its entries have more octets than there is room for, or octets other than zero follow them.
pub fn node_in(octets: &[u8]) -> Option<(Header, &[u8])>
    requires size { length octets.now ≡ 16384 }
    ensures found { IfSome result (λ node. BeginsAsNode node.0 node.1.now octets.now) }
    ensures none { IfNone result ((header : Header) (entries : List ℕ) → BeginsAsNode header entries octets.now → ⊥) }
{
    let Some(header) = read_header(octets) else {
        return None;
    };
    let used = header.used as usize;
    if used > ROOM {
        return None;
    }
    let area = octets.split_at(LAST).0.split_at(FIRST).1;
    let (entries, rest) = area.split_at(used);
    if !are_zeros(rest) {
        return None;
    }
    Some((header, entries))
}

/// The header of the node in a page, and the octets of its entries; none if it is no page of a node.
pub fn node_of_page(page: &Page) -> Option<(Header, &[u8])>
    ensures found { IfSome result (λ node. IsNodePage node.0 node.1.now page.now) }
    ensures none { IfNone result ((header : Header) (entries : List ℕ) → IsNodePage header entries page.now → ⊥) }
{
    let octets = page.octets();
    if !are_zeros(octets.split_at(LAST).1) {
        return None;
    }
    let Some((header, entries)) = node_in(octets) else {
        return None;
    };
    if header.bounds.end.is_some() {
        return None;
    }
    Some((header, entries))
}

/// The header of the node in a block, and the octets of its entries; none if it is no block of a node.
pub fn node_of_block(block: &Block) -> Option<(Header, &[u8])>
    ensures found { IfSome result (λ node. IsNodeBlock node.0 node.1.now block.now) }
    ensures none { IfNone result ((header : Header) (entries : List ℕ) → IsNodeBlock header entries block.now → ⊥) }
{
    if !is_whole(block) {
        return None;
    }
    let Some((header, entries)) = node_in(block.octets()) else {
        return None;
    };
    if header.bounds.end.is_none() {
        return None;
    }
    Some((header, entries))
}
