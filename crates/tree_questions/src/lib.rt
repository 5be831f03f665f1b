//! Questions of a route history over a tree: answered to their end, by the pages of a transaction and by a reader of
//! settled blocks; or turn by turn, by the pages alone.
//!
//! A question of a moment looks for its next key (`tsb_walk::next`), one of a history for the versions of its two keys
//! (`tsb_walk::part`). [`rows`] and [`events`] finish each lookup in the block to which it leads. A turn ([`rows_turn`],
//! [`events_turn`]) reads pages alone and is given no reader: if a lookup leads into blocks the turn returns an errand, so a
//! caller that holds a lock for a turn reads no block under it.
//!
//! A question of a peer's table or of all rows goes from key to key. After its lookup the current leaf in which the lookup
//! began is scanned once (`tsb_runs`), and the cursor takes all its keys:
//!
//!     current leaf, keys below f:    [a: value] [b: ended] [c: value] [d: value]
//!     a lookup from a                finds a
//!     the run from a                 a, c, d, and no other below f
//!     the cursor                     takes a by the lookup; passes a of the run, takes c and d; goes on at f
//!
//! So a turn goes on from leaf to leaf. Other questions leap from key to key; for them the run is empty, as it is if `from`
//! is looked for in the past. If memory runs out in a run, what was gathered stays, and the
//! next lookup goes on from there.
//!
//! A question of which prefixes changed in a span ([`changed`]) goes from column to column of the tree. Of a column it reads each leaf that the
//! span meets, those of its past first, and gathers which keys have an entry in it:
//!
//!     keys of the column    leaf of the past      leaf of the past      current leaf
//!     stamps                |-----------|------------[ span ...|.............]---------|
//!     entries that count                          from the span's start to the leaf's end, then up to the span's end
//!
//! A leaf also has values from before its start, of keys that had them then; these are of an earlier leaf's stamps and don't count, so a
//! version counts once. A block of the past may have keys beyond the column's; these are left out, and the next look begins at the column's
//! end. Then the walk leaps to the next key that may be of a prefix that is asked for, of this peer or the next one.
//! No key is found by its value at a moment, so a prefix that was announced and withdrawn again within the span is found too.
//!
//! Once an answer is returned its cursor is at the start of its question again, so that what a cursor has gathered is right
//! after each outcome. That a turn comes further is stated without the tree (`GoesOnRows`, `GoesOnEvents`), so questions
//! end over damaged pages too.
#![tactic(auto)]

mod changed_walk;
mod events_turns;
mod events_walk;
mod looks;
mod naming;
mod rows_turns;
mod rows_walk;
mod runs;
mod taking;
mod touched;
mod touching;

pub use changed_walk::changed_look;
pub use events_turns::events_turn;
pub use events_walk::events;
pub use rows_turns::rows_turn;
pub use rows_walk::rows;
