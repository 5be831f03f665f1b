//! The image of a leaf takes a version if there is room for it, and is laid alone.
ghost use Rattle.std.specs.Prelude.{◌≡◌, ◌≤◌, None, IfOk, IfErr, option_map};
ghost use Rattle.version_model.specs.Entries.{version_of};
ghost use Rattle.version_model.specs.Sizes.{entry_octets};
ghost use Rattle.version_model.specs.Versions.{IsAbove};
ghost use Rattle.tsb_node.specs.Children.{IsKeyWithin};
ghost use Rattle.tsb_node.specs.Leaves.{LeafNode, IsLeafPage};
ghost use Rattle.tsb_node.specs.Pushing.{PushedTo, StaysUnlessPushed};
ghost use Rattle.tsb_tree.specs.Layouts.{LaysLeaf};

use crate::change::{Change, lay_image};
use crate::current_leaf::LeafImage;
use crate::error::TreeError;
use disk_models::Page;
use std::alloc::{AllocError, Global};
use tsb_node::push;
use version_model::Entry;

// The octets of a value, if it is one.
fn octets_of_value(value: &Option<Vec<u8>>) -> Option<&[u8]>
    ensures { option_map (λ x. x.now) result ≡ option_map (λ v. v.items) value.now }
{
    match value {
        Some(octets) => Some(octets.as_slice()),
        None => None,
    }
}

/// Appends a version of a key of the leaf, later than all of its versions, if there is room for it, and returns whether there was. The
/// error names page `n` only if the image isn't a leaf, but not in every such case.
pub fn push_entry(image: &mut Page, n: u64, entry: &Entry) -> Result<bool, TreeError>
    requires small { entry_octets (version_of entry.now) ≤ 3131 }
    ensures pushed { (leaf : LeafNode) → IsLeafPage leaf image.old → IsKeyWithin leaf.bounds entry.now.key → IsAbove leaf.versions entry.now.stamp
        → PushedTo leaf (version_of entry.now) image.new result }
    ensures stays { StaysUnlessPushed image.old image.new result }
    ensures bad { IfErr result (λ e. e ≡ TreeError.BadNode n) }
{
    match push(image, entry.key, entry.stamp, octets_of_value(&entry.value)) {
        Ok(pushed) => Ok(pushed),
        Err(_) => Err(TreeError::BadNode(n)),
    }
}

/// A column's leaf alone.
pub fn lay_leaf(alloc: Global, leaf: LeafImage, unused: u64) -> Result<Change, AllocError>
    ensures laid { IfOk result (λ change. LaysLeaf leaf.page leaf.image change.images.items) }
    ensures unused { IfOk result (λ change. change.unused ≡ unused) }
    ensures new { IfOk result (λ change. change.new ≡ None) }
{
    let mut images = Vec::new(alloc);
    lay_image(&mut images, leaf.page, leaf.image)?;
    Ok(Change {
        images,
        unused,
        new: None,
    })
}
