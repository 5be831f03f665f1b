//! The values of the archive: peers, prefixes, routes, admissions, their unique encodings in
//! octets, and their keys.
//!
//! A value is defined by its encoding: "these octets encode this value" means that the value is in its ranges (octets below 256, AS
//! numbers of four octets, no bit past a prefix's length, segments of 1 to 255 numbers) and that the octets are its one encoding. So
//! `decode` returns a value exactly if there is one, and all crates above may rely on what was decoded. Reading is liberal, and what was
//! read is encoded again and compared: no reader looks for a peer that is listed twice, a table that isn't in the order of first use, or a
//! presence bit without a field. It costs one encoding a reading, of which the part of the routes is kept.
//!
//!     admission   time 8   peers: each once, in the order of first use   routes: the same   changes: places in both tables, and a prefix
//!
//!     key    0     22    23       39      40
//!            peer  kind  address  length        kind 0: the session, then zeros; 4 or 6: a prefix of this family
//!
//! A change has a [`SharedRoute`]: the route and its encoding, once, shared by a counter, since an UPDATE announces one route for many
//! prefixes. An admission is encoded by copying encodings, and its length is known when it is made. Values of the tables are distinguished
//! by their encoding, which is the same as by value (`encodings_are_one`). The tables are index sets, in which a row is found by its hash
//! if there are more than eight: so encoding, decoding and measuring take time linear in the changes, also of a RIB record, which has as
//! many peers as entries. The hash has a fixed seed: who chooses peers or routes for their hashes gets rows that are searched one after
//! another.
//!
//! The limit of 3,072 octets is an admission's: `Route::decode` has none, `Admission::new` and `Admission::decode` have it. A route too
//! large is reported before an admission too large, and `Admission::new` needs no memory. Peers and keys are encoded into arrays, and every
//! `encoded_len` is without memory too.
//!
//! Moments and marks are types over 64 bits with their range in the invariant, so no caller checks it again. A mark reaches one microsecond further than a moment, so it can be above every moment. A key is five words; a contract
//! sees the number of their octets. They compare and hash at the speed of words, and by one law this is the order of rows. Numbers
//! are read in two ways, by std here and by byteorder in records, pages and blocks; `numbers_agree` is the law between them.
#![tactic(auto)]

mod address;
mod admission;
mod admission_measuring;
mod admission_reading;
mod admission_writing;
mod attribute;
mod change;
mod fault;
mod key;
mod laws;
mod mark;
mod measuring;
mod moment;
pub mod octets;
mod path;
mod peer;
mod prefix;
mod reading;
mod route;
mod shared;
mod tables;
mod unit;
pub mod wire;
mod writing;

pub use address::Address;
pub use admission::{Admission, AdmissionError, MAX_ADMISSION_LEN, MAX_ROUTE_LEN};
pub use attribute::{Attribute, AttributeValue, Attributes};
pub use change::Change;
pub use key::{Key, KeyParts, keys_in_order};
pub use laws::{encodings_are_one, orders_agree};
pub use mark::Mark;
pub use moment::Moment;
pub use path::{AsNumbers, Path, Segment};
pub use peer::Peer;
pub use prefix::Prefix;
pub use route::{Aggregator, NextHop, Origin, Route};
pub use shared::SharedRoute;
pub use unit::Unit;
