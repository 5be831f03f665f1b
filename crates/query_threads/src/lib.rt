//! An archive that threads share: one lock round the archive and its writing seat, words that are read without it, and
//! questions whose blocks are read without it, but for walks over what changed.
//!
//!     under the lock    the archive, the writing seat (`Desk`)
//!     beside the lock   the board's words, the gate
//!     a thread's own    a pass, a reader of blocks, its question in progress
//!
//!     ask       lock: a turn, and a look at the settled blocks     no lock: the blocks of the errand are read     lock: the next turn  ..
//!     changed   lock: 8 looks of a walk, with the blocks that they need     lock: the next looks  ..
//!
//! A walk over what changed reads its blocks under the lock: those of one column at a look that its span meets. Of a trouble that a look
//! returns its own relation states where it came from (`fails`), since a read with the look's own view of the blocks may have failed.
//!
//! What threads need of an archive is a trait ([`Store`]), so that their proofs need no archive. What it represents
//! is a relation with a past (a history, and the settled blocks), not its value. A call is a relation between the
//! history before it and after it, with its answer; a trouble is one that a call on the archive returned, by a
//! relation that each archive states itself, so threads can't make one up.
//!
//! Everything that changes the archive happens under the one lock. All words of the board are raised after each call
//! under it, at most 17 steps beside a transaction's syncs. A reader is one pass's own: it keeps blocks of that pass's
//! view.
//!
//! Which disk the blocks are on is named with the board ([`OnDisk`]): what is under a lock is known by its type alone,
//! so a reader and the lock can agree on a disk only by a name in their types. A program names no disk if nothing is
//! promised of its archive ([`Unpromised`]), as of files: it calls the same code with nothing to prove. A look finds
//! blocks by a function of numbers, a past has a list of them, since what a pass knows must be plain data; they agree
//! on the numbers that the disk has. `Shared::new` takes a board that was opened before, so an archive is never handed
//! back when memory runs out.
#![tactic(auto)]

mod desk;
mod gate;
pub mod laws;
mod refusal;
mod shared;
mod store;
mod usage;

pub use gate::{Gate, NoGate};
pub use refusal::{AdmitError, AskError, Flush, MarkError, Step, Trouble, Turn};
pub use shared::{Reader, Shared};
pub use store::{OnDisk, Store, Unpromised};
pub use usage::{Lane, Room, Usage};
