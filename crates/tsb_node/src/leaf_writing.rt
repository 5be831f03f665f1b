//! Writes leaves, whole, as a split by time needs them.

ghost use Rattle.std.specs.Prelude.{◌≡◌, None, option_map};
ghost use Rattle.version_model.specs.Entries.{versions_of};
ghost use Rattle.tsb_node.specs.Leaves.{CanBeLeaf, IsLeafPage};

use crate::leaf::{NotANode, push, start_leaf};
use disk_models::Page;
use version_model::{Bounds, Entry};

// The octets of a value, if it is one.
fn octets_of_value(value: &Option<Vec<u8>>) -> Option<&[u8]>
    ensures { option_map (λ x. x.now) result ≡ option_map (λ v. v.items) value.now }
{
    match value {
        Some(octets) => Some(octets.as_slice()),
        None => None,
    }
}

/// Writes a leaf of these bounds over a page, with the versions of these entries.
pub fn write_leaf(page: &mut Page, bounds: &Bounds, entries: &[Entry])
    requires valid { CanBeLeaf (record { bounds = bounds.now; versions = versions_of entries.now }) }
    requires current { bounds.now.end ≡ None }
    ensures written { IsLeafPage (record { bounds = bounds.now; versions = versions_of entries.now }) page.new }
{
    start_leaf(page, bounds);
    for entry in entries {
        match push(page, entry.key, entry.stamp, octets_of_value(&entry.value)) {
            Ok(true) => {}
            Ok(false) => unreachable!(),
            Err(NotANode) => unreachable!(),
        }
    }
}
