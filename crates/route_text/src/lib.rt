//! Texts of numbers, addresses, prefixes, moments, marks and routes, written and read.
//!
//!     a route   path|origin|next hop|MED|LOCAL_PREF|aggregate|aggregator|others
//!
//! A row is made of many texts, so writers append to one `String`. After out of memory the buffer may have
//! any text. A reader that needs no memory returns [`BadText`], a unit; `read_route`, which
//! makes lists, returns [`TextError`]: so out of memory can't pass for a bad text. A number above the
//! greatest that is asked for is `BadText`, like one above 64 bits.
//!
//! A route's text has one form: `read_route` reads, writes what it read into a second string, and compares.
//! So "reading and writing again gives the same text" is the clause `found` itself, for the price of one more
//! string. Neighbouring numbers of a path are read into sequences of 255 and a last shorter one, since a
//! sequence has no more (RFC 4271 section 4.3): paths that differ only in how their sequences are cut have
//! one text, and what is read is in normal form (`IsNormalPath`).
//!
//! Addresses are read by std's grammar, with dots refused outside IPv4, and written by std's groups, which
//! are RFC 5952's form also for ::ffff:0:0/96, where that RFC would recommend a dotted tail. jiff takes a
//! space for the `T` of a timestamp; a text with a space is refused here.
//!
//! A moment is written as seconds, with a point and six digits where they aren't whole, so whole seconds look as numbers
//! do. A fraction is read by its digits, 1 to 6 of them: what `parse` takes beside digits, a sign, is refused.
#![tactic(auto)]

mod address;
mod attribute_reading;
mod cut;
mod fault;
mod field_reading;
mod hexadecimal;
mod laws;
mod moment;
mod number;
mod path_builder;
mod path_reading;
mod prefix;
mod route_reading;
mod route_writing;
mod step;

pub use address::{addresses_have_texts, read_address, read_ipv4, read_ipv6, write_address};
pub use fault::{BadText, TextError};
pub use laws::{moments_are_read, texts_have_one_value};
pub use moment::{read_mark, read_moment, write_mark, write_micros, write_moment};
pub use number::{read_number, write_number};
pub use prefix::{read_prefix, write_prefix};
pub use route_reading::read_route;
pub use route_writing::write_route;
