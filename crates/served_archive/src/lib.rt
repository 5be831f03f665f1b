//! An archive that another program serves, asked by lines over a stream.
//!
//!     call        the line that is written                            the lines that are read, or X, a refusal
//!     open        watermark                                           S
//!     answer      at T .., its rest after a place                     R for each row, then E, or M if more follow
//!                 history FROM TO PEER PREFIX skip N                  A, W and D for each event, then E or M
//!     changed     changed FROM TO LOW HIGH, its rest after a place    C for each place, then E or M
//!
//! A line is written, and its reply is read to its end, before the next one (`exchange`): so replies are never mistaken for one another. After
//! a call that failed, a line that is none of the protocol, or a lack of memory within a reply nothing more is asked, and the `Lapse` is kept
//! for a person.
//!
//! What comes over a socket can be anything, so a served archive represents no history, and the clauses of its calls promise nothing: what is
//! proved is that they are safe and end, whatever comes. Memory has limits of its own, none of which a server sets: a line has 16,384 octets at
//! most, and a reply 256 lines and its end. Each line has to be one that may answer what was asked (`rows`, `events`, `spots`): places ascend
//! from the one after which was asked, and an end counts what came before it. So a question of the rest never asks the same again.
//!
//! The text of a path shows its numbers and sets, and not where one sequence ends and the next begins: routes that differ in that alone are
//! one here.
#![tactic(auto)]

mod archive;
mod events;
mod exchange;
mod fields;
mod lapse;
mod places;
mod refusing;
mod requests;
mod rows;
mod settled;
mod spots;

pub use archive::ServedArchive;
pub use lapse::Lapse;
