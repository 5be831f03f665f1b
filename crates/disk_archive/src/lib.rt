//! An archive on two disks, pages that are overwritten and blocks that are written once: it keeps what collectors sent, through crashes.
//!
//!     a call                              write-once disk   erasable disk             a crash then leaves
//!     begin, read pages, plan in memory                     reads                     the history of before
//!     the tree takes versions             burn, settle      reads                     that, and blocks to which nothing refers
//!     if one slot is left: pages of the oldest              pages home                that
//!     header and images                                     a slot's pages, sync      that
//!     the gate, and if so 0 for the oldest                  one or two octets, sync   that of before, or that of after
//!     the head in memory is replaced                                                  that of after
//!
//! Nothing is burnt after the first erasable write: `commit`, by which a call changes the history, is given a transaction and no shelf.
//! So what a crash inside a call leaves is stated with the write-once disk as it is after the call (`Crashes`). `RepresentsIfHonest` is an
//! implication, from disks that follow their models, so the same program serves disks of which nothing is promised, as files.
//!
//! A step of applying goes on with the next change while one image has room beside the head's: most changes set one page, or none.
//! Changes of an admission that follow one another into one leaf are a run: one descent, one copy of its page, one image. If
//! a leaf is full, the tree asks for room for a split, 2 l + 3 pages at level l, before a block is burnt; without it the step ends before
//! that change, which is the first of the next step and has room there. A step commits nothing if a
//! device failed: `Applied` would hide the failure, and with `Fault` a refused call would have changed the history. The
//! sequencer moves only once the commit is done (`Ahead`). The admission at hand is decoded once and kept with its octets (`Encoded`);
//! the next step compares these with the ring's front, so nothing kept can be stale. Room in a ring is counted before memory is
//! allocated, so `IntakeFull` is returned exactly if the ring is too full.
//!
//! A creation writes the head and the tree's first pages home with the journal's own creation, so no crash leaves a new journal without an
//! archive. An opening reads its pages through a page map that takes no image, so until then only the journal's recovery writes. It checks of the
//! head what a later call needs: each ring is on home pages, the times in it rise up to the collector's mark, the root is one of the
//! tree's used pages. Once that is known, it writes the head if the first page isn't what the head is written as: so an archive that was
//! made in whole seconds has a head in microseconds from its first opening on. The pool's own commit does it and no `Tx`, whose pages
//! don't say that the disk is untouched until then, and what a crash leaves is stated from the opening's start on. A check also decodes the
//! pending admissions, of which an opening reads the times alone. Its result is stated for arbitrary pages: stated only for archives that represent a history, a check that reads nothing would satisfy it.
//!
//! What a cursor has gathered is stated over a history and each later one (`IsGathered`), so between two turns its owner needs to know
//! only that one history begins the other. What an errand relies on is stated of it alone (`Located`, `LocatedKnown`), so it is finished by any view
//! of the same disk that knows these blocks, on any thread, while the archive goes on.
#![tactic(auto)]

mod admitting;
mod answering;
mod answering_with;
mod apply_error;
mod applying;
mod archive;
mod ask_error;
mod batches;
mod beginning;
mod change_error;
mod changed_look;
mod check_error;
mod checking;
mod checking_rings;
mod committing;
mod create_error;
mod creating;
mod cursor;
mod descending;
mod errand;
mod error;
mod flush_error;
mod flushing;
mod guarded;
pub mod laws;
mod looks;
mod mapping;
mod mark_error;
mod marking;
mod notes;
mod open_error;
mod opening;
mod planning;
mod planning_application;
mod planning_changes;
mod planning_run;
mod reading;
mod recalling;
mod refused;
mod restating;
mod restoring;
mod stop;

pub use apply_error::ApplyError;
pub use applying::Step;
pub use archive::Archive;
pub use ask_error::AskError;
pub use batches::MAX_BATCH_LEN;
pub use changed_look::start_walk;
pub use check_error::CheckError;
pub use create_error::CreateError;
pub use cursor::Cursor;
pub use descending::Descent;
pub use errand::Errand;
pub use error::AdmitError;
pub use flush_error::FlushError;
pub use flushing::Flush;
pub use mark_error::MarkError;
pub use open_error::OpenError;
pub use refused::Refused;
