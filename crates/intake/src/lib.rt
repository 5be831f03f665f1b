//! A ring of pages for each collector: a queue of the admissions that were acknowledged and aren't applied yet, in a
//! fixed space.
//!
//! All octets of a ring's pages are data: the octet at place k is octet k modulo 16,384 of the ring's page k /
//! 16,384, and after the last place comes the first. Where it begins and how many octets are used are the caller's
//! to keep, in its head: first and length, since first and end are the same if a ring is empty and if it is full. A
//! ring of two pages, of which an entry wraps:
//!
//!     page low                          page low + 1
//!     ..mission]..............          ..[4 length][admission][4 length][ad
//!              ^ first + used             ^ first
//!
//! A place goes round by one subtraction (`wrap`), since a place of less than twice the size needs no more and
//! proofs stay linear.
//!
//! An append plans in memory: it copies the pages on which the batch will be, encodes each admission once into them,
//! and sets them in one call. So a refusal leaves the transaction as it was, and no page is set twice, also if a
//! batch wraps to the page on which it begins. A page all of whose octets are the batch's isn't read. The number of
//! images is bounded for a batch within its limit (17), so a caller that has at most 14 needn't count.
//!
//! An admission that is taken out is given to `pop`, so its length isn't read again. What reading returns is stated of
//! the ring's own octets, with no premise that they are a list: after damage too, a result is what is there, and a
//! refusal comes only if nothing is. A ring has no digests, so octets that were changed into another admission's are
//! returned. A length is checked before anything is read by it: one of more than 131,072 octets, or of more than
//! follow it, is damage, so a changed octet never reserves a ring's worth of memory.
#![tactic(auto)]

mod appending;
mod counting;
mod drafting;
mod encoded;
mod error;
mod laws;
mod reading;
mod ring;
mod waiting;

pub use encoded::Encoded;
pub use error::{IntakeError, ReadError};
pub use laws::{rings_go_round, rings_hold_one_list, rings_keep_what_they_hold};
pub use ring::Ring;
