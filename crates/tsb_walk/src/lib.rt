//! Lookups in the tree of versions: of the version of a key as of a stamp, of the next key that has a value, and of the
//! versions of a key. They begin at current pages, and go on in settled blocks.
//!
//!     key node, level l     header, child that has the key         one level below, a page
//!     column, level 1       header, part that has the stamp        the current leaf, a page; or a place in a block
//!     block: a column       digest, header, part of the stamp      a place in a block of a lower number
//!     leaf                  header, entries; of a block, digest    the result
//!
//! That is all that a lookup reads of a page; the child and the part are found by binary search. Reading pages whole took more
//! than half of a load. So damage may go unnoticed if a lookup doesn't need the octet: a valid page gives its node's result, a
//! page that is reported as bad isn't valid, and of others only termination is proved. `tsb_check` reads everything.
//!
//! Results are stated twice: assuming a valid tree below the root (`next`, `part`, `descended`, `blames`), and for arbitrary
//! octets (`bad`, `led`, `point`). Without the second, a lookup that skips a level or loses its key could be proved, since it
//! does so on damaged trees alone. Blocks too: at a valid place no block is reported as damaged (`never`); and for arbitrary
//! blocks one that is reported as damaged isn't what its place requires (`damaged`).
//!
//! Who reads whole leaves finds them by [`column_at`], and by [`leaf_place`] if they are in blocks.
//!
//! The page that is reported is the faulty page itself, never its parent. A page that doesn't exist is bad. The current leaf
//! is read only if the stamp is in its range. Levels fall from page to page, and numbers fall from block to block, so each
//! lookup ends, whatever the octets are.
//!
//! A lookup keeps nothing of the pool, so writers may go on at once; a place in the past stays valid, since blocks don't
//! change. A place is valid by any map of blocks that the reader knows (`RepresentsKnown`), so what is true of a tree's
//! settled blocks is true for each reader that knows those, or more.
#![tactic(auto)]

mod block;
mod error;
mod hist;
mod key_versions;
mod laws;
mod leaf_looks;
mod locating;
mod looks;
mod page_looks;
mod page_place;
mod page_steps;
mod walk;

pub use error::NodeError;
pub use hist::{block_refusal, hist_find, hist_next, hist_part};
pub use key_versions::versions;
pub use laws::no_page_is_bad_where_the_root_stands;
pub use locating::{bring, down, locate};
pub use looks::{Descended, Found, KeyVersions, Looked, Parted, Reached};
pub use page_looks::{ColumnAt, column_at, descend, leaf_refusal, next, part};
pub use page_place::{PagePlace, are_its_keys};
pub use page_steps::{ColumnSpot, is_current_leaf, spot_in};
pub use walk::leaf_place;
