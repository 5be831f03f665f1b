//! The facts that `info` shows: what is applied, and how much room is left. This crate reads no file: it knows which octets of
//! `pages.rha` and `once.rha` are read for that, what they represent, and how `rha info` shows it, as lines or as one line of JSON.
//!
//!     page of pages.rha    0           1 + 33 s                  265     266 ..                     after the rings
//!                          identity    gate of slot s, 0 to 7    head    the rings of collectors    the tree
//!
//!     octet of page 0      0             8             16        24            25
//!                          `RHAPAGE1`    home pages    blocks    collectors    pages of each ring, two octets
//!
//! A page has 16,384 octets, and numbers have their first octet highest. Home page n is page 265 + n of the file, so the head, home page 0,
//! is page 265. The crate archive_head reads it: its counts are what is used, and the identity has what there is.
//!
//!     shown         used                                          of
//!     pages         home pages that were ever used                those of the identity
//!     blocks        those before the first that was never tried   those of the identity
//!     slots         open gates (octet A5) before the opening      8
//!     ring          octets of pending admissions                  octets of the ring's pages
//!
//! Slots are counted before the archive is opened, since an opening closes them; all other facts are read after it, when each page is
//! home. Times and marks are microseconds since 1970; lines show them as dates (RFC 3339, UTC) and as seconds, JSON as seconds.
//!
//! No page has the time of the first change. It is found in the leaf that begins with the change of number 0 (`first`): the caller gives
//! the first 176 octets of one leaf after another, of blocks and pages.
#![tactic(auto)]

mod facts;
mod first;
mod identity;
mod shown;
mod slots;

pub use facts::{Facts, Lane, Use};
pub use first::{FIRST_LEN, first_change};
pub use identity::{SIZES_LEN, Sizes};
pub use shown::Date;
pub use slots::{HEAD_PLACE, JOURNAL_PAGES, OPEN_GATE, PAGE, SLOTS, gate_place};
