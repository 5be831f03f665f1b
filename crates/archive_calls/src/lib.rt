//! The calls of an archive that feeds and questions use, whatever it is stored on.
//!
//! Feeds, requests and loads are written over the trait [`RouteArchive`], and not over one archive: so their
//! proofs need no disks, and tests give them an archive whose rings are full. What only asks is written over [`RouteSource`], which has the
//! questions alone: so it can also ask a server, which takes no batch of it. Which history an archive represents is a
//! relation, and not a field of the archive: so one that must be opened again still represents what it reports, and one
//! over files represents no history. A question has one call, `answer`: how
//! many turns it takes, and which blocks are read, is the archive's own.
//!
//! `Trouble` is one enum within the errors of all calls: a failed device, damage, and a lack of pages, blocks or memory
//! may end any of them. No clause states when a trouble comes, so an archive that refuses every call meets this trait.
//! `check` returns a count or a trouble; if the archive represents a history it never reports a page or a block.
#![tactic(auto)]

mod calls;
mod refusal;
mod reported;
mod source;

pub use calls::RouteArchive;
pub use refusal::{AdmitError, AskError, MarkError, Trouble};
pub use reported::{Flush, Step};
pub use source::RouteSource;

/// The maximum length of a batch in octets: for each admission the octets of its encoding and 4 more.
pub const MAX_BATCH_LEN: usize = 262_144;
