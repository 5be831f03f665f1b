//! A board of words that threads read without waiting: the settled watermark, and for each collector how many of its
//! admissions are durable.
//!
//! What a pass has seen stays true for it. There is one past of the archive. The writing seat, the one handle by
//! which words are raised, knows all of it, and each pass a prefix.
//!
//!     word   0          1                                c + 1
//!            watermark  durable admissions of 0   ..     durable admissions of collector c
//!
//! What a seat knows is data in proofs alone: a history, the settled blocks, and numbers of the words; no value of it
//! is made, so a seat has no octets. A seat that was joined knows nothing, and nothing begins every past. The blocks
//! are beside the history in one record, so one relation says of both that they go on.
//!
//! The writing seat's past moves at a step of its own (`advance`), a load whose number isn't used, before a word
//! is raised: a word alone doesn't determine which history it counts. Seats exchange what they know at loads too (`meet`);
//! neither this nor `split` changes a word. A board is named where it is shared (`Opened::start`), since a type that
//! names it can't come out of the call that picks the name: so making the words, which alone takes memory, is a call
//! before it.
#![tactic(auto)]

mod board;
mod opened;
mod steps;
mod view;
mod word;

pub use board::{Board, Pass, Writer};
pub use opened::Opened;
pub use steps::{Named, Target};
pub use word::Word;
