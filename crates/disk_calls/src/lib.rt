//! The archive on any two disks, as feeds and questions use it: one adapter, whose clauses are proved for every pair of disks. If
//! these follow their models, it represents what they do; over files, of which nothing is promised, it represents no history.
//!
//!     service, tables --> RouteArchive --> DiskArchive --> disk_archive --> an erasable disk, a write-once disk
//!                         (archive_calls)    |- reader: blocks that questions cache
//!                                            |- reasons: which call failed first, in words
//!
//! A call goes to the archive as it is (`calls`), and its error becomes one of the trait's (`refusals`): each call of disk_archive has errors
//! of its own, and a caller of the trait knows one list, `Trouble`, besides those that depend on the call. Nothing is tried again here. So
//! a call has the clauses of the archive's own call, for the histories that the archive represents.
//!
//! A batch may have 262,144 octets, or those of a ring if these are fewer; a ring has nine pages at least, so it has room for one admission
//! of the largest size, 131,072 octets and 4.
//!
//! Questions cache the blocks that they read, up to 1,024 of 16 KiB: a digest is computed when a block is read, which takes most of a
//! question of the past. Without memory for that reader each question has one of its own. What is settled never changes, so the blocks
//! in the cache stay right whatever calls come between (`keeping`).
//!
//! A device's error is `Fault` without more, since disks have no messages. The message for a person comes from `Reasons`, a type that the
//! owner of the disks gives, as file_archive does for files; no clause is about its text. `NoReasons` is for disks in memory.
#![tactic(auto)]

mod archive;
mod calls;
mod keeping;
mod reasons;
mod refusals;
mod walking;

pub use archive::DiskArchive;
pub use reasons::{NoReasons, Reasons};
