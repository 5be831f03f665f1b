//! Versions of values by key and stamp, and what represents them: leaves, the parts of a column, the nodes of a tree.
//! How a node is encoded in octets isn't known here.
//!
//! A leaf that is split by time at stamp 8, of which the older node ends there and the newer one begins there:
//!
//!     key   the leaf        the older node       the newer node
//!     a     3: x   5: y     3: x   5: y          5: y, a copy
//!     b     2: x   6: end   2: x   6: end        nothing
//!     c     8: x            8: x, no use         8: x
//!
//! Keys and stamps are numbers in every definition; a missing high key or end is the end of all keys or stamps. A
//! time split copies values alone into the newer leaf, never an end: an ended key needs no version there. The
//! law of key splits holds for any number of octets below the split, so that it can be chosen by measurement.
//!
//! A leaf's stamps aren't bounded by its own start and end: before the start there are copies, and a version from a
//! block's end on is allowed too. What a node has is cut to the node's range in every lookup, and every lookup
//! names a stamp below the end: such a version is ignored. So a page is sealed with any end above its start
//! as it is.
#![tactic(auto)]

mod bounds;
mod child;
mod copying;
mod entry;
mod finding;
mod laws;
mod leaf;
mod part;
mod sizing;
mod splitting;
mod stamp;

pub use bounds::Bounds;
pub use child::Child;
pub use entry::Entry;
pub use laws::{
    answers_stay, copies_are_needed, key_nodes_take_as_their_children_do, key_splits_fit,
    later_versions_are_shown, leaves_answer_as_all_do, nodes_represent_on,
    parts_follow_one_another, parts_represent_on, pasts_represent_on, rising_lists_are_one,
    splits_keep_what_is_shown, versions_are_counted_once,
};
pub use leaf::Leaf;
pub use part::{Part, PartKind, Place};
pub use stamp::Stamp;
