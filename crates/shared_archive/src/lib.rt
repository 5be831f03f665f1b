//! The archive on two disks, as threads share it.
//!
//!     Held::Open   -- a reopening takes the disks -->   Held::Shut, disks away   -- opened -->       Held::Open
//!                                                                                -- not opened -->   Held::Shut, with its disks
//!
//! The archive on any two disks meets `Store` as one type ([`DiskStore`]), with what makes its disks usable again before an opening
//! ([`Renewal`]): of disks in memory nothing, of files a sync of each and a cold cache. A past that rests on disks rests on them once they are
//! renewed.
//!
//! An archive that couldn't be opened again is a value of its own ([`Shut`]): its disks, and a copy of what it
//! reported, the watermark and counts. `Archive::open` takes the disks and hands them back if it fails; while it runs
//! the disks are away, and a reader that reads nothing names the write-once disk in contracts. A new reader is
//! refused meanwhile, as if there were no memory: a worker takes its reader when it begins. Before an opening the
//! erasable disk is synced, though opening its journal begins with that: once nothing is unsynced, what
//! `Archive::open` leaves after a refusal is known by its own contract. Files are renewed in place, so the lock is
//! never released.
#![tactic(auto)]

mod calls;
mod files;
mod held;
mod held_calls;
pub mod laws;
mod opening;
mod refusals;
mod renewal;
mod reopening;
mod store;
mod turns;
mod usage;

pub use files::{FileRenewal, FileStore};
pub use held::{Disks, Held, Shut};
pub use renewal::{NoRenewal, Renewal};
pub use store::{DiskStore, MemStore};
