//! The commands on disks in memory, one after another: an archive is created, files are loaded, and a line is asked.
//!
//! `play` makes both disks in memory, and `play_in_files` over files in memory. Their contracts have no premise on them: the files are loaded
//! into an empty history, and the line is answered by the history that the load left. So the premises of the commands can be met, by the
//! types of disks that the program uses, too. A table has the lines that are printed.
#![tactic(auto)]

#[cfg(test)]
mod lines;
mod played;
mod playing;

pub use played::{Filled, Played};
pub use playing::{play, play_in_files, play_on};
