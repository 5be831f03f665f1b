//! The plain program that answers which prefixes peers announced or withdrew in a span, over a list of admissions.
//!
//! One pass over the list gathers the spots: each announcement or withdrawal in the span puts the spot of its prefix into an ordered map,
//! if it is asked for, under the key of that prefix. Keys are ordered as answers are, so the spots of the map are all that changed, each
//! once and in order. The answer is the first 256 of them, and whether there are more.
//!
//!     5: announces a, b   7: withdraws a   9: its session ends      from 5 to 6: a b   from 7 to 9: a
//!
//! The end of a session is passed over, since it is of no prefix; a withdrawal counts whether or not there was a route.
//! An archive finds the same by its keys and stops at the 257th spot: this program is what its answers are compared with.
#![tactic(auto)]

mod answering;
mod gathering;

pub use answering::answer_changed;
