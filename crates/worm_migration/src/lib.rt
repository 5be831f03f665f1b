//! Old nodes become blocks: the leaf of a column as it was until a stamp, and the parts of a column's past. Once the number of a block is
//! returned, the block is settled.
//!
//!     the block of a leaf    the page's octets     at 104: the end, 16     at 16,352: SHA-256, 32
//!
//! The block of a leaf has all of the leaf, also versions from the block's end on, which are ignored there: so `settle_leaf_page`
//! reads and writes no entry. The leaf that stays is made apart from the block: a tree burns the leaf as it was before the new version,
//! and goes on with one that has it (`settle_part`, after which the block is a part of the column; `migrate_leaf` makes both, without a
//! new version).
//!
//! What settled blocks represent is any map each of whose nodes is settled (`ShelfRepresents`); after a call it is that map with one node more. A
//! block takes up to 649 parts, one more than a page has room for besides its current leaf, so a full past can move into a block before
//! or after a part is added. A block refers to settled blocks alone, since a shelf returns no number before that.
#![tactic(auto)]

mod column;
mod error;
mod laws;
mod leaf;
mod past;
mod settling;

pub use column::migrate_column;
pub use error::MigrationError;
pub use laws::columns_have_whole_pasts;
pub use leaf::{MigratedLeaf, migrate_leaf, settle_leaf, settle_leaf_page};
pub use past::settle_part;
