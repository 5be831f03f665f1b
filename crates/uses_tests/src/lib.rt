//! Lives of an archive on disks in memory, from its creation on, which a crash may cut off: scripts of calls, with failing writes and crashes,
//! which are uses of an archive, and so a run of the pure machine.
#![tactic(auto)]

mod acts;
mod batches;
#[cfg(test)]
mod births;
mod calls;
mod disks;
mod lives;

pub use acts::{Act, Batch, Birth, Returned, Stop, Tear, Turn};
pub use lives::{Life, live};
