//! Creates and opens the archive in the files of a folder, and runs commands over it. Feeds and questions use it like one on any two disks.
//!
//! Too few pages are refused before the folder is made. The folder's name is synced through the folder above, opened
//! as `DIR/..` once DIR is made: so it is that very folder, whatever links led there. What is removed after a refusal
//! is what was made: each file only if its name still leads to it, and the folder only if it is empty.
//!
//! Both disks are opened apart from the archive ([`FileDisks`]), since a load opens its own file between: a folder
//! that is missing or locked is reported before a missing file, and that before a damaged archive. The
//! journal's slots are read before the opening by a check alone: an archive's journal numbers them round after round,
//! from 1 on, so another number is damage, which the opening would turn into old pages.
#![tactic(auto)]

mod creating;
mod disks;
mod faults;
mod files;
mod folder;
mod opening;
mod running;
mod slots;

pub use creating::create;
pub use disks::FileDisks;
pub use faults::{CreateFault, OpenFault};
pub use files::{FileArchive, FileReasons};
pub use opening::open;
