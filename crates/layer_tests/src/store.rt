//! Blocks on a write-once disk in memory; leaves in memory, split in all ways, beside a plain scan of a table; nodes of all kinds built
//! by hand.

mod encodings;
mod leaves;
mod looks;
mod nodes;
mod shelf;
mod spoiled;
