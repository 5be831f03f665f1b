//! Blocks with digests on a write-once disk. Once the number of a block is returned, its octets are settled there for
//! good, and whoever reads it can distinguish damage from data.
//!
//!     0     16,352             16,384
//!     body  SHA-256 of it
//!
//! `append` burns and settles, and then returns the number; it doesn't look at the digest, which `seal` puts there. A
//! block whose burn or settle failed is spent: its state is unknown, so the next one gets a higher number.
//! An opening asks about each block from the given number up to the first blank one: a number that is too low costs
//! time, one that is too high costs blocks, and neither costs data. So a block that a crash left burnt without a
//! commit is passed over.
//!
//! A reader fetches, and then lends: `fetch` may refuse and needs the reader for itself, `block` lends what is kept
//! to any number of callers. A full reader drops the least recently used block, also if the new one is then
//! refused, since the new one is read into its memory: so it never has more than its capacity. A number beyond the disk is
//! reported as damage of that block, since something refers to it. A cached block is returned without a read, and without its
//! digest being computed again.
#![tactic(auto)]

mod digest;
mod error;
mod reader;
mod refused;
mod shelf;

pub use digest::{BODY_SIZE, DIGEST_SIZE, is_whole, seal, sealed_blocks_are_whole};
pub use error::{AppendError, BlockError};
pub use reader::ShelfReader;
pub use refused::Refused;
pub use shelf::Shelf;
