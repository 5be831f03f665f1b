//! Feeds into an archive that threads share: records of a stream (RFC 6396) that are resolved, and admitted in batches.
//!
//!     octets       read in pieces of 65,536     no lock
//!     records      framed and resolved          no lock
//!     a batch      `Shared::admit`              takes the lock, and releases it
//!     a full ring  applying until idle          a lock for each step; then the batch is offered once more
//!     its lines    B and L, flushed             no lock
//!
//! A batch is offered once it has `limit` admissions, before it would have more octets than the archive takes, and at the end of the feed.
//! It may have the octets of a ring, but no more than 262,144, and room for one admission at least, whatever a ring has. A refused record
//! writes its line and is lost alone; so is the record of an entry without a next hop. The feed is given up if the batch doesn't fit the
//! second time, since nothing more could be applied, or for any other refusal of a batch, or if a reader, a writer or memory fails. What was admitted
//! until then stays. Memory holds one batch, the items of one piece, and the record that isn't whole yet.
//!
//! A feed over threads isn't a `RouteArchive`'s: that trait's clauses carry one history from call to call, which other
//! threads change between two calls of a feed. What is proved is a trace: the same turns as service's, each batch one
//! call on some history after what the pass had seen, with the lines of that call's reply. So FROM and OFFERED of
//! neighbouring batches needn't join if another connection feeds the same collector. The code repeats that of service's feed
//! over `Shared`: one code for both would have to be generic in what a call promises. Lines, counts and refusals are service's.
//!
//! `intake` has the call and the loop over octets, `feeding` the batches, `making_room` the second offer.
#![tactic(auto)]

mod feeding;
mod intake;
mod making_room;
mod reading;

pub use intake::feed;
