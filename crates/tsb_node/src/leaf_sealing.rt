//! Writes the leaf of a page as a block.

ghost use Rattle.std.specs.Prelude.{◌≡◌, ◌<◌, ◌+◌, ◌^◌};
ghost use Rattle.tsb_node.specs.Leaves.{LeafNode, IsLeafPage, IsLeafBlock};
ghost use Rattle.tsb_node.specs.inner.Fresh.{IsFreshLeafPage};
ghost use Rattle.tsb_node.specs.Sealing.{ended};

use crate::leaf::NotANode;
use crate::leaf_splitting::copy_whole;
use crate::moments::is_now;
use crate::writing::stamp_octets;
use disk_models::{Block, Page};
use once_store::seal;
use version_model::Stamp;

// Copies the leaf of a page over a block that gets its end later: one of another unit is written anew. Of a page that is no leaf the
// block has the octets.
fn copy_leaf(page: &Page, block: &mut Block)
    ensures { (leaf : LeafNode) → IsLeafPage leaf page.now → IsFreshLeafPage leaf block.new }
{
    let octets = page.octets();
    if is_now(octets[1]) {
        let _old = block.octets();
        block.put(0, octets);
        return;
    }
    match copy_whole(octets, block) {
        Ok(()) => {}
        Err(NotANode) => block.put(0, octets),
    }
}

/// Writes the leaf of a page, with an end stamp, over a block.
pub fn seal_leaf(page: &Page, end: Stamp, block: &mut Block)
    requires { end + 1 < 256 ^ 16 }
    ensures { (leaf : LeafNode) → IsLeafPage leaf page.now → leaf.bounds.start < end → IsLeafBlock (ended leaf end) block.new }
{
    copy_leaf(page, block);
    block.put(104, &stamp_octets(end));
    seal(block);
}
