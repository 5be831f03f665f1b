//! Replies to the lines of a connection to an archive.
//!
//! A reply is stated over what the pass has seen when it is written: the answer is that of what is applied there, and
//! the lines are those of service, so a client gets what `ask` would print of that history. `watermark` and `durable`
//! return the board's numbers, which no lock delays. `mark` replies after the last step of applying, so its watermark
//! includes what others applied. What is promised of an archive is an argument of the relations (`promised`): lines are
//! written in the same way over files, of which nothing is promised, so one theorem on a connection serves both.
//!
//! What a line asks depends on the port that it came over: a read-only one takes no line that changes the archive or
//! ends the server, and one that closes HTTP ends a connection at a request line of HTTP, so that lines in what a web
//! page makes a browser send are never read.
//!
//! Questions are counted by their kinds, with the time until their replies (`meters`). No reply depends on that.
//!
//! A connection is a theorem on octets: those that came are lines, each answered before the next, and what follows
//! them. So replies can be neither lost nor mixed up, wherever the stream was cut.
#![tactic(auto)]

mod answering;
mod command;
mod command_laws;
mod command_words;
mod connection;
mod marking;
mod meters;
mod port;
mod port_laws;
mod replying;
mod troubles;

pub use answering::{Next, answer_line};
pub use command::{Command, read_command};
pub use command_laws::lines_are_one_command;
pub use connection::{Ending, serve_lines};
pub use marking::{apply_all, set_mark};
pub use meters::{KINDS, Kind, Meter, Meters};
pub use port::Port;
pub use port_laws::read_only_ports_change_nothing;
pub use replying::{reply_metered, reply_to};
pub use troubles::trouble_of;
