//! Lives of an archive on two disks in memory, as data that one interpreter plays, beside the pure machine.
//!
//!     Script --> prepare --> Stage: the disks on which a life begins, and each state of the pure machine in it, with its answers
//!     an act, a Stage --> make --> the archive's call --> Outcome
//!
//! A script says what is loaded before a life, the life's acts, and what follows it. `prepare` plays it once, on an archive and on the pure
//! machine, which have to do the same, and remembers the machine's state after each act, and after each change of an application. A test
//! then plays the life on copies of the stage's disks, where something is cut off, fails or is damaged, and compares the archive with
//! these states: by `find` and `is_at`.
//!
//! None is returned where memory runs out, or where the archive and the machine don't agree: a test ends then. Only tests use this crate
//! (sweep_tests, damage_tests).
#![tactic(auto)]

mod acts;
mod asked;
mod disks;
mod laid;
mod loads;
mod older;
mod played;
mod pure;
mod records;
mod stage;

pub use acts::{Act, LONG, Load, RISING, Script};
pub use asked::same;
pub use disks::{Both, Disk, Handed, KINDS, Played, WAYS, numbered, torn};
pub use laid::{PAGE, laid_anew, lay, octets_of};
pub use older::{burn, in_whole_seconds};
pub use played::{
    Outcome, State, apply, apply_all, ask, check, flush, flush_all, set_mark, state_of,
};
pub use pure::{Answered, Known, NOW};
pub use records::Record;
pub use stage::{Batch, Stage, prepare};
