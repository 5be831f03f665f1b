//! A file in memory that follows its model, as no file of the system is known to: so both disks over such files follow theirs, and what is
//! promised of them has an instance.
//!
//!     a page, a place --> keep --> FileErase of disk_files --> MemFile --> MemErase of disk_memory --> octets
//!     a block, a number --> keep_block --> FileOnce of disk_files --> two MemFiles
//!
//! The clauses of disk_files say what a disk over a file does if the file follows its model, `follows`. For files of the system that
//! premise can't be proved, so without an instance such clauses might say nothing. `MemFile` meets all that the trait `OctetFile` states, with a `follows`
//! that always holds; its model, its size and its crashes are those of the disk in memory. `keep` then makes a disk over such a file,
//! writes a page, syncs it and reads it again. Its clauses have no premise on the disk: what is returned is honest, the page that is read
//! is the one that was written, and whatever a crash leaves has that page at its place. `keep_block` makes a write-once disk over two such
//! files, burns a block, settles it and reads it again: what is returned is honest, the block is settled, and it is what is read.
//!
//! A file belongs to its owner alone: `hold` always succeeds, and its identity is 0 and 0. Its size in octets is given once, by `resize`
//! of an empty file; another one is refused. A read or write stops at the end of the file and returns how many octets it took. A twin is a
//! copy of the file: it has the octets that the file has then. `keep` returns None if the page doesn't fit at its place, no disk has such a
//! size, or there is no memory, and `keep_block` if the disk has no such block, or none is made.
//!
//! Only tests use this crate (file_tests, command_tests): no program keeps an archive in it.
#![tactic(auto)]

mod file;
mod keeping;

pub use file::MemFile;
pub use keeping::{keep, keep_block};
