//! The commands of the program on any two disks: from disks to disks, with the lines that they write and their status.
//!
//!     disks --> Archive --> DiskArchive --> Command --> DiskArchive --> disks
//!
//! `run_on` opens the archive on two disks, runs a command over it, and returns both disks. The command is any type with the trait
//! `Command`: it knows an archive by the trait `RouteArchive`, and says by its ghost member `does` what it makes of the history before.
//! `ask_on`, `check_on` and `load_on` are `run_on` with the functions of `service`; `create_on` makes an archive.
//!
//! So a contract speaks of disks and not of an archive in memory: if both follow their models and read as an archive that represents a
//! history (`Represent`), the command did what it says to that history, and what the disks keep afterwards is the history that it left
//! (`Keep`). Both are premises that a caller can meet: `create_on` gives them, each command gives `Keep` on, and disks that keep a history
//! read as one that it begins (`laws`).
//!
//! `Keep` is what outlasts a crash: whatever both disks read as, or a crash may leave of them now, represents a history that begins with
//! this one. After a failed write a device may read as the history before the call or after it, so a command says what is kept, and the next
//! one finds what is read.
//!
//! If the disks aren't opened or the archive isn't made, nothing is written, and the reason is returned: the caller prints it, since
//! only it knows what the disks are.
//!
//! A program makes a command of its own, and runs it over its disks with what knows why these fail (`Reasons`); over the files of a folder
//! file_archive does that. What it does round a call of `service` stands in `run`: it wraps the archive to count its calls, reads of it what an
//! advice needs, or writes lines in a form of its own. The command has its files and writers, so what became of them is there when
//! `run_on` returns. rha's `load` is such a command.
//!
//! The type of the archive is a parameter of the trait, so a command asks of it what it needs besides `RouteArchive`.
#![tactic(auto)]

mod asking;
mod checking;
mod command;
mod creating;
mod disks;
mod laws;
mod loading;
mod opening;
mod running;

pub use asking::ask_on;
pub use checking::{CheckAll, check_on};
pub use command::Command;
pub use creating::create_on;
pub use disks::{Disks, Ended};
pub use laws::kept_is_read;
pub use loading::load_on;
pub use running::run_on;
