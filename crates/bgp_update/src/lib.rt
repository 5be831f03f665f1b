//! BGP messages: what an UPDATE withdraws and announces, and what a list of path attributes represents
//! (RFC 4271, RFC 4760, RFC 6793).
//!
//! A list of attributes is read into a value by type ([`PathAttributes`]), in which MP_REACH_NLRI and MP_UNREACH_NLRI are
//! left as octets, since messages and RIB entries encode the first in two ways. Route and entry are functions of that
//! value and of a next hop: a list that was read is malformed if that function has no value. AS4_PATH is merged with
//! AS_PATH by a relation, `Joined`, with a law that it equals the function that the code computes.
//!
//! An UPDATE returns its prefixes by the four places where they are, since the order of changes, and the rule on a
//! prefix that is in two places, belong to the crate resolve:
//!
//!     octets   2       n          2       m                                         to the end
//!     field    length  withdrawn  length  attributes                                NLRI
//!     place            withdrawn          reachable (type 14), unreachable (15)     announced
//!
//! One route is made for the prefixes that share it; if NLRI and MP_REACH_NLRI both announce, the attributes are read
//! twice, since a route owns its path. Only announced routes are measured, so an UPDATE with a path that is too long
//! and no prefix is no fault.
//!
//! No list of attributes costs more than its length: which types were seen is noted in 256 places, and if the
//! attributes that are kept unread don't ascend, they are taken type by type from a table of their places. Memory is
//! taken once for the list of attributes (again if it has more than 16), and once for each list that the result owns
//! and that isn't empty: each is made with its room counted. A sequence that AS4_PATH cuts is copied, since numbers
//! can't be taken out of a segment. `entry_route` takes the value apart and allocates nothing.
#![tactic(auto)]

mod announcing;
mod attribute;
mod attributes;
mod entry;
mod fault;
mod joining;
mod laws;
mod message;
mod messages;
mod next_hop;
mod others;
mod prefixes;
mod reach;
mod reading;
mod route;
mod segments;
mod update;
mod updating;
mod values;

pub use attribute::ValueOctets;
pub use attributes::read_attributes;
pub use entry::entry_route;
pub use fault::MessageFault;
pub use laws::{attributes_are_one, joined_paths_are_one, messages_are_one, others_are_kept};
pub use message::Message;
pub use messages::read_message;
pub use reading::PathAttributes;
pub use update::{Announcement, Update};
