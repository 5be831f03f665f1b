//! The Time-Split B-tree in the pages of a transaction and the blocks of a shelf: versions of values by key and stamp.
//!
//! How a version comes in ([`insert`]), on the way from the root to the column and its current leaf (`plan_column`):
//!
//!     the leaf has room                                     its page's image alone is changed; no block is burnt
//!     it has none, and no images of a split have room:      refused, before a block is burnt
//!     it has none, and a version isn't needed any more:     split by time at the new version's stamp (`grow`): the leaf as it was
//!       an end, or one whose key has a later one              becomes a block, what still holds is copied into the newer leaf
//!     more than two thirds of a page stay, or all stays     split by key too (`lay_out`); both halves get the whole past
//!     the column's page has no room for one part more       its past moves into one block first (`pack`)
//!     a key node gets one child too many                    it is split, up to a new root; at most six levels of key nodes
//!
//! Further versions of one leaf need no new descent: [`open_leaf`] copies its page, [`push_version`] adds to the copy, the caller lays it.
//!
//! A column's page before and after a split by time, with a version at stamp u:
//!
//!     [block 7, from 0] [block 9, from s] [current leaf: page 12, from t]
//!     [block 7, from 0] [block 9, from s] [block 10, from t] [current leaf: page 12, from u]
//!
//! Two thirds: to postpone the next split. The caller keeps where the tree is ([`TreePlace`]: root, level, least
//! stamp), so a refused call leaves nothing that a forgotten transaction knew. A tree is opened by its root alone, whose
//! header has the level. Images are made in memory and laid in one call, all or none.
//!
//! What pages represent is any map of nodes whose pages are shown and represent them (`RepresentNodes`), without pages of other
//! owners. The highest key is no key of the tree, since as the high key of a node it is written as no bound is. How many
//! pages a version needs is defined from what stays of the leaf up to the root (`NeedsPages`), so a refusal for a lack of
//! pages has nothing to do with how the code goes about it.
#![tactic(auto)]

mod burning;
mod change;
mod current_leaf;
mod descent;
mod dividing;
mod error;
mod growing_whole;
mod inserting;
mod key_nodes;
mod layout;
mod leaf_opening;
mod looking;
mod new_root;
mod opening;
mod pages;
mod planning_column;
mod putting;
mod putting_in_leaf;
mod reading;
mod reading_whole;
mod splitting_column;
mod tree;
mod whole;

pub use error::TreeError;
pub use inserting::insert;
pub use leaf_opening::{OpenLeaf, open_leaf, push_version};
pub use looking::Tree;
pub use opening::open;
pub use tree::{TreePlace, create, first_images};
