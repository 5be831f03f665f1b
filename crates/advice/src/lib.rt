//! Messages for people on standard error, after the first lines, which programs read: what is wrong with a file or a text, and what helps.
//!
//!     after                            what is printed                                              module
//!     a file was loaded                it is compressed or text; late, refused or skipped records   files, loads
//!     a load that was refused          which size of the archive is used up, and what helps         loads, limits
//!     a creation that was refused      how many pages are needed, or that files are too large       limits
//!     a mark, a collector, an option   the present mark, how many there are, what a text must be    marks
//!     a line that isn't answered       the first word that isn't valid, and what is expected there  questions, requests, forms
//!     an archive in use                the process that has it, by the lines of /proc/locks         locks
//!     files that hold no archive       which size or page isn't that of one                         unnamed
//!     a load that ended early          the files after the one at which it ended                    unread
//!
//! Each piece of advice is a value with a `Display`, and `advise` prints it as one line, `rha: WORDS`. It has no other effect: it changes no
//! exit status and no line that programs read. If there is no memory for the words, nothing is printed.
//!
//! Which counts of a feed are in doubt is decided in service (`doubts_of`, `is_far`), so the doubts that are printed here are those
//! that stop a strict load. Where a line stops being a request is found here by a grammar of its own, word by word (`first_misread`), since
//! service reports only that the line isn't one. A test compares the two readings.
//!
//! A file is recognized by its first 16 octets, which `NotedReader` keeps while a load reads through it: gzip, bzip2, xz and zstd by their
//! signatures, and text by at least 8 octets of ASCII, since the type of a record that is read has an octet of zero. That is printed only
//! if nothing of the file was admitted.
#![tactic(auto)]

mod files;
mod forms;
mod limits;
mod loaded;
mod loads;
mod locks;
mod marks;
mod noted;
mod packed;
mod questions;
mod requests;
mod saying;
mod unnamed;
mod unread;

pub use files::{FileAdvice, STDIN, advise_file};
pub use forms::Form;
pub use limits::LimitAdvice;
pub use loaded::Loaded;
pub use loads::advise_load;
pub use locks::{Holder, holder_of};
pub use marks::{MarkAdvice, advise_text};
pub use noted::{FirstOctets, NotedReader};
pub use packed::{Packing, packing_of};
pub use questions::advise_question;
pub use requests::{Misread, first_misread};
pub use saying::advise;
pub use unnamed::{Found, NoArchive};
pub use unread::Unread;
