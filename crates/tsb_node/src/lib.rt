//! Nodes of the tree in the octets of pages and blocks: leaves, columns and key nodes.
//!
//!     0     1     2      3  4      6     8        48        88     104  120      120 + used  16,352
//!     kind  unit  level  0  count  used  low key  high key  start  end  entries  zeros       zeros in a page, SHA-256 in a block
//!
//!     leaf entry       key 40, stamp 16, tag 1 (0 end, 1 value), length 2, value
//!     column entry     start 16, kind 1 (1 leaf block, 2 column block; in a page last of all 0, the current leaf's page), number 8
//!     key node entry   low key 40, page 8
//!
//! All nodes are read through this one frame, and entries of one size by one set of laws. A column's page has the stamp from which its
//! current leaf is, so a lookup in the past reads one page less. Lookups work on the octets themselves (`find`, `next`, `push`,
//! `part_for`, ..) and take no memory; `next` looks each candidate key up, and scans all entries for each only if keys fall as
//! stamps rise (at most 275 entries, of 59 octets at least).
//!
//! A header names the unit of the node's times: nodes are written in one unit, and read of each, in moments (`moments`). A lookup in a
//! node of another unit goes by the stamp in that unit, and what it finds is multiplied; a leaf of one that takes a version, or moves into a
//! block, is first written anew.
//!
//! Readers check all octets before they allocate, so out of memory is reported of nodes alone, and no count reserves room. They
//! refuse what the tree relies on not to be: low keys and starts that aren't below high keys and ends, stamps that don't rise
//! strictly, keys outside the node's, an end with octets, columns and key nodes without entries or whose first entry isn't where the
//! node begins, a page with an end and a block without one. Writers require what types don't ensure, and no more. A leaf is split by
//! time through owned entries, and by key by copying entries from page to page, at a fifth of the cost.
#![tactic(auto)]

mod column;
mod column_reading;
mod column_writing;
mod decoded_column;
mod decoded_key_node;
mod decoded_leaf;
mod header;
mod heads;
mod key_node;
mod key_node_reading;
mod key_node_writing;
mod laws;
mod leaf;
mod leaf_entries;
mod leaf_next;
mod leaf_part;
mod leaf_reading;
mod leaf_sealing;
mod leaf_splitting;
mod leaf_writing;
mod moments;
mod node_reading;
mod numbers;
mod writing;

pub use column::{Current, PartAt, Spot, part_for, spot_for};
pub use column_writing::{write_column, write_old_column};
pub use decoded_column::{DecodedColumn, DecodedOldColumn, column_of_block, column_of_page};
pub use decoded_key_node::{DecodedKeyNode, key_node_of_page};
pub use decoded_leaf::{DecodedLeaf, leaf_of_block, leaf_of_page};
pub use heads::{KeyNodeHead, column_head, key_node_head, leaf_head};
pub use key_node::{Under, child_for};
pub use key_node_writing::write_key_node;
pub use laws::{
    blocks_begin_as_their_nodes, entries_have_their_octets, nodes_are_one,
    nodes_say_what_the_tree_asks, sides_are_key_splits,
};
pub use leaf::{FoundVersion, NotANode, Value, find, push, start_leaf};
pub use leaf_entries::entries_in;
pub use leaf_next::next;
pub use leaf_part::{ReadFault, part};
pub use leaf_reading::{leaves_are_one, read_leaf, read_leaf_block};
pub use leaf_sealing::seal_leaf;
pub use leaf_splitting::copy_side;
pub use leaf_writing::write_leaf;
pub use numbers::{key_fits, stamp_fits};
