//! Whole tables of a moment: all rows of a question, the peers that have routes, and what differs between two moments.
//!
//!     command   what is asked of the archive               a line of standard output                           exit status
//!     ask       the request line, once or to its end       as service writes it, or with dates for a person    0, 1
//!     dump      all routes of a moment, or of a peer       one for each row, in the form asked for             0, 1
//!     peers     all routes of a moment                     P|COLLECTOR|ADDRESS|AS|ROUTES for each peer         0, 1
//!     diff      all routes of two moments                  one for each place that differs, with -, + or ~     0, 1, 2
//!     find      routes of some prefixes, or what changed   R, or A, W and D with their places                  0, 1
//!
//! An answer has 256 rows at most; here the next question is asked until none are left, and rows are written once they are found, so
//! memory doesn't grow with the table. The next question begins after the place of the last row, or after the last place that changed, or
//! skips the events that were found (`pages`, `places`, `events`). All questions of a call are of one history: questions don't change the archive that the process has locked.
//!
//! Rows come in the order of peers, and of prefixes for each peer. So `peers` needs one count at a time, and `diff` goes through two tables
//! side by side (`cursor`, `comparing`): the lesser place has a route at one moment alone, `-` for the first and `+` for the second; at the
//! same place two routes differ, `~`, if their encodings do. Where the second moment is at most an hour after the first, and few
//! places changed, it asks for these alone, and for those of peers whose session ended (`candidates`, `sessions`). Of the prefixes inside
//! one, rows are asked for among those of all prefixes: where a page ends before or past them, the next question begins where they do, or
//! after the peer's last prefix (`scope`).
//!
//! `find --since` asks which places changed, page after page (`changes`), and then for the events of each (`finding`). Which route holds at
//! a place is known from the moment before the span on: so the end of a session is shown where it ends a route, and an event is chosen
//! by the route that it begins, replaces or ends (`matching`). A place that had a route and didn't change can only lose it, by the first end
//! of its peer's session, which is asked for once a peer. So of all prefixes inside one only the routes before the span are read that an end
//! may end, unless AS numbers choose. Events are found place by place and written in the order of time, so all are kept in memory until the
//! last one is found: memory grows with this answer, and with those routes.
//!
//! Without a moment `dump`, `peers` and `find` take the last that is settled; if none is, the question is refused. A table ends in E and the
//! count of lines, and a refusal is the last line, so a table that was cut can be seen. The forms bgpdump and json, which other programs
//! read, have no such end: there the refusal is on standard error. Once a write has failed no more is asked.
//!
//! On a terminal the names of the columns are on standard error (`headings`), so standard output is the same for programs and people.
//! `reading` reads the arguments, `running` runs the commands, and `searching` writes what is found; `lines`, `human`, `bgpdump` and `json`
//! are the forms of a row, and `known` writes communities as texts (RFC 1997, RFC 4360, RFC 5668, RFC 8092).
#![tactic(auto)]

mod asking;
mod bgpdump;
mod candidates;
mod changes;
mod comparing;
mod counting;
mod cursor;
mod differences;
mod ending;
mod events;
mod fields;
mod finding;
mod form;
mod headings;
mod human;
mod json;
mod known;
mod lines;
mod matching;
mod pages;
mod places;
mod reading;
mod rows;
mod running;
mod scope;
mod searching;
mod sessions;

pub use form::Form;
pub use matching::Numbers;
pub use reading::{
    BadArgument, Comparison, Search, Table, moment_of, read_comparison, read_listing, read_search,
    read_table,
};
pub use running::{TROUBLE, ask, diff, dump, find, peers};
pub use scope::{Scope, last_inside};
