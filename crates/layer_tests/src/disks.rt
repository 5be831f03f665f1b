//! The disks in memory: their calls, failures as a script has them, and what a crash leaves.

mod both;
mod erase;
mod once;
mod pages;
