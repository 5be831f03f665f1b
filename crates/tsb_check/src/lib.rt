//! The check of a tree: every page and block that is reached from its root is read, and the versions are counted.
//!
//! A stack of places is used and no recursion: a chain of old columns may be as long as there are blocks. A measure
//! falls with each place that is read: 650 to the power of a block's number and one, 339 to that of a page's level,
//! summed over the places that are left (a column has at most 649 parts, a key node 338 children). Blocks are read once
//! for each column, though a key split gives both columns the whole past: which versions of a block count depends on the
//! keys.
//!
//! If the tree uses a page that is unused by the head, the head is bad: the pages above lead to that page, and the head alone
//! disagrees; the next change would overwrite it. A column that names a block
//! which was never burnt is bad itself. A block that isn't known is no damage: the device may return any octets
//! for it. A count above the greatest `u64` is returned as that one.
#![tactic(auto)]

mod block;
mod checking;
mod children;
mod column;
mod counting;
mod in_use;
mod keeping;
mod page;
mod past;
mod places;
mod reading;

pub use checking::check;
pub use in_use::InUse;
