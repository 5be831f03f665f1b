//! What the records of a feed mean: each gives an admission, nothing or a refusal, under the feed's peer table (RFC 4271, RFC 6396).
//!
//!     item of mrt_records      what it gives, at the time of the record                            module
//!     message: UPDATE          withdrawals and announcements, by the four places of prefixes       messages
//!     message: NOTIFICATION    the end of all routes of the peer                                   messages
//!     message: another type    an admission without changes                                        messages
//!     state change             the same end, or no change if the new state is 6, Established       resolver
//!     RIB record               an announcement for each entry                                      entries
//!     peer table               nothing; it is kept, in place of the one before                     resolver
//!     skipped                  nothing                                                             resolver
//!     malformed                a refusal; after a malformed peer table the feed has none           resolver
//!
//! A peer is the collector's number, an address and an AS number. Messages and state changes name both; an entry of a RIB record names a
//! place in the last peer table. So the meaning of a record depends on those before it by the peer table alone, and that is all that a
//! `Resolver` keeps, besides a count. After `OutOfMemory` the table is as before, and the record may be given again.
//!
//! A route has at most 3,072 octets in its encoding, and an admission 131,072. A record above a limit is refused whole, and so is a RIB
//! record with a fault in one entry: the first fault, in the order of entries, is returned.
//!
//! Some producers write entries without NEXT_HOP and MP_REACH_NLRI. By `WithoutHop` the record of such an entry is refused, or the entry is
//! left out and counted; a record of which all entries are left out gives nothing.
//!
//! Changes share routes: the prefixes of NLRI have one, those of MP_REACH_NLRI another, and an entry with the same attribute octets as the
//! one of its record whose route was read last has that route, and isn't read.
#![tactic(auto)]

mod entries;
mod fault;
mod laws;
mod messages;
mod resolver;
mod without_hop;

pub use fault::ResolveFault;
pub use laws::{feeds_have_one_meaning, records_mean_what_their_other_entries_mean};
pub use resolver::Resolver;
pub use without_hop::WithoutHop;
