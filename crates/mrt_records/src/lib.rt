//! Records of MRT streams (RFC 6396): framing, whatever pieces a stream comes in, and the item of each record.
//!
//!     0          4     6        8       12
//!     timestamp  type  subtype  length  body: `length` octets, at most 131,072
//!
//! A framer keeps octets and nothing else. After a header above the limit it keeps that header, and each later call
//! finds it again and returns `TooLong`, before it takes memory, whatever the piece is; so does `finish`. That is so
//! for skipped types too: after a record of such a length a stream can only be read by storing or counting it. A
//! lack of memory in the middle of a piece takes the items of that piece back and leaves the held octets, so the
//! piece can be fed again; "as before" is about items and octets, not capacities.
//!
//! Items own their octets, copied once; a RIB record has one buffer for all entries and eight octets of place for
//! each. A count in a record reserves no more than its octets can have: room is made for the smaller of the count
//! and what the remaining octets could have (11 octets a peer, 8 an entry), and the count is compared after the last
//! one.
//!
//! A message is checked for its Length alone; its marker, limit of 4,096 and type belong to bgp_update. A type and
//! subtype give a form (`Form`), and a form gives the relation on the body: so the exactness of `Malformed` is one
//! statement, and a further type is one line in `IsListedType` and one relation.
#![tactic(auto)]

mod body;
mod entries;
mod feeding;
mod form;
mod framer;
mod front;
mod item;
mod laws;
mod neighbor;
mod peer_table;
mod rib;
mod session;

pub use entries::{RibEntries, RibEntry};
pub use form::Form;
pub use framer::{FrameError, Framer, read_stream};
pub use item::Item;
pub use laws::{body_law, frames_law};
pub use neighbor::Neighbor;
pub use route_model::wire::{AsWidth, Family};
