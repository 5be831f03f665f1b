//! What a route history is, and what an answer is: the merged order of the collectors' admissions,
//! which route holds at a moment, the rows and events of questions, which moments are settled, and
//! the plain program that computes answers over a list.
//!
//! The merged order is defined as a stable sort by time of the collectors' lists one after another, since a recursion
//! on one list is short to prove over. Believe the law beside it instead (`merged_is_the_one`): the list is in order,
//! has each collector's list as its part, and is the only such list.
//!
//!     collector 0   5: a   7: b            merged   5: a (0)   5: c (1)   7: b (0)   9: d (1)
//!     collector 1   5: c   9: d
//!
//! Which route holds is a split of the list of changes: what comes before, the announcement, and what comes after,
//! none of which concerns the prefix of the peer. There is no newest stamp, and no comparison of times but in
//! `until`; so the order within a moment is the order of the list. Peers and prefixes are compared by value, and not
//! by their keys, so the meaning doesn't depend on keys. An answer is the first 256 of a list of all the rows,
//! so `more` is exact.
//!
//! Which prefixes changed in a span is said by the events of each: a spot changed if one of its events in the span announces or withdraws it.
//! The end of a session is an event of all prefixes of a peer, and changes none by itself: who asks for what ended knows what held.
//!
//! The place applied has one form: with all changes of an admission applied it is after that admission, not at its
//! last change. Else a step that moves the place could go on for ever without applying anything. What may follow in
//! an intake has a floor, which today is the mark (`floor`). The settled watermark of no collectors is 0.
//!
//! The plain program replays into an ordered map of the prefixes that are asked for: one pass over the list, one over the map. A
//! `Down` looks through the map, so a table of all peers with many ended sessions is slow, which a reference program
//! may be. [`PlacedAdmission`] borrows its admission, so `merge` copies none; rows and events share routes. Maps are
//! ordered by the derived order of spots, which is proved to be that of keys.
#![tactic(auto)]

pub mod laws;
mod placed;
mod question;
mod replay;
mod reporting;

pub use placed::{PlacedAdmission, merge};
pub use question::{
    ChangedAnswer, ChangedQuestion, Event, EventsAnswer, EventsQuestion, MAX_ROWS, Row, RowsAnswer,
    RowsQuestion, RowsRange, Select, Spot,
};
pub use replay::{answer_rows, rows_in};
pub use reporting::{answer_events, events_of};
