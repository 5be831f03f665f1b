//! Runs: the keys of a leaf that have a value as of a stamp, for questions that go from key to key. A leaf is scanned once for all of
//! them, while a look for the next key scans it for each.
//!
//!     the root               --> key nodes --> column --> current leaf, by `from` and the stamp (leaves)
//!     entries, by stamp      --> of each key from `from` on the last entry that isn't after the stamp (live)
//!     these, by key          --> those below `high` whose entry is a value: the rows of the run (live)
//!
//! A run is complete between `from` and its `high`, the end of the column's keys, or to the last key of all if there is none: a key in
//! between that isn't in it has no value as of the stamp. So the caller returns its rows one after another, and looks again from `high` on.
//!
//! Only a current leaf, a page, is scanned. If the stamp lies in the past of the column, which is in blocks, the run is empty and ends at
//! `from`; tree_questions then goes on by the next key that tsb_walk finds. So no block is read here.
//!
//! A run copies the values of the leaf, so it lasts while the pages change: at most those of one page, 16,384 octets. That isn't worth it
//! for a question of one prefix, so tree_questions takes runs for the questions `peer` and `all` alone.
//!
//! If the root is valid, the run is what its versions have, and no page is reported as bad; one that is reported isn't the node that it has to
//! be. A failure of the disk, a journal that must be opened again and out of memory are returned as by tsb_walk. Pages are only read.
#![tactic(auto)]

mod leaf_runs;
mod leaves;
mod live;

pub use leaf_runs::next_run;
pub use live::{LiveKey, Run};
