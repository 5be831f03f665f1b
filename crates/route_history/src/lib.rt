//! Questions of a route history as turns over versions by key and stamp, of which some lie in settled blocks: what version
//! a change is, and how the rows and events of answers are gathered, one lookup after another.
//!
//!     walk of a question of a moment, over the keys               lookup from found                       the cursor then
//!       session of p   (p, x)   (p, y)   session of q   ..        session     it ended at stamp e         keeps e, is past the session
//!                                                                 (p, x)      a value of stamp s > e      has the row, is past (p, x)
//!                                                                 (p, y)      a value of stamp s <= e     has no row, is past (p, y)
//!
//! A cursor of a moment is the least key not yet looked at: a key, or the one after it ([`Front`]), so that a row's key can
//! be passed without computing its successor. The key of a session is the least of its peer's keys, so a walk in the order
//! of keys comes to it before the peer's prefixes, and keeps in the cursor when the session ended. A leap passes keys that
//! the question doesn't ask for, up to a peer's session or among the keys of a peer whose session was looked at; `Covering`
//! leaps to the least key, not yet passed, of a prefix that contains the address. The 257th row is dropped: it sets `more`
//! and ends the walk.
//!
//! A question of a history asks for both keys, the prefix's and the session's, from one stamp. Before the lesser of the
//! stamps that the two lookups return all versions are there, and their events are put in the order of their stamps; so an
//! errand may have two places. An errand may end the walk: then the next turn returns the answer without a lookup. What
//! encodes no route is passed over, as is a version of the history whose time is no moment. After a refused turn the cursor
//! may have leapt; what it has gathered is the same.
//!
//! A question of which prefixes changed ([`ChangedCursor`]) is given the keys that have a version in its span, from where its walk stands up to
//! a higher key, and leaps from there on. It has no errand: a look
//! reads pages and blocks alike (`tree_questions::changed_look`).
//!
//! A caller that owns pages and a reader makes the lookups itself: it asks a cursor for the next one, and gives it what was
//! found (`next_look`, `take_reached`, `take_parts`). That a walk comes further is stated without the versions (`rose`), so
//! it ends over damaged pages too. The archive and `tree_questions` use [`version_of_change`], these calls, the errands and
//! the laws; [`take_rows_turn`] and [`take_events_turn`] serve a store that is one value, as in tests.
#![tactic(auto)]

mod changed;
mod changes;
mod events;
mod events_turn;
mod front;
pub mod laws;
mod leap;
mod looking;
mod rows;
mod rows_turn;
mod versions;

pub use changed::ChangedCursor;
pub use changes::{apply, version_of_change};
pub use events::EventsCursor;
pub use events_turn::{EventsErrand, EventsTurn, take_events_turn};
pub use front::Front;
pub use looking::RowsLook;
pub use rows::RowsCursor;
pub use rows_turn::{RowsErrand, RowsTurn, take_rows_turn};
pub use versions::{Growing, Versions};
