//! The archive as a pure machine: what each step does to a history, what it replies, and what is true of every run of steps.
//!
//! A run with two collectors and one question, whose turns have other steps between them:
//!
//!     step                    answer             settled   applied                the question
//!     admit 0: 100 101        from 0 to 2           0      nothing
//!     admit 1: 100            from 0 to 1         100      nothing
//!     mark 0: 200             marked              100      nothing
//!     mark 1: 150             marked              100      nothing
//!     apply, and 1 more       applied             101      0: 100, 1: 100
//!     begin: all rows at 100  number 0            101                             nothing yet
//!     turn of 0, up to x      again               101                             rows up to x, over 100 of 0 and of 1
//!     admit 0: 99 300         late: 99; 2 to 3    101
//!     apply                   applied             150      and 0: 101
//!     turn of 0, to the end   done                150                             rows after x, over all three; the answer
//!     crash                   crashed                                             each question in progress is ended
//!
//! The first turn saw less than the second, and neither saw 300. But the answer is that of all four at the end: what came
//! since is later than the moment that was asked, which was below the settled watermark. 99 is late, since the mark 200 came
//! before it.
//!
//! A turn adds the rows of the list that is left, over what is applied at that turn, so no list has to be shown to exist
//! later; an answer that is full says that there is more exactly if one row more was seen. In the proof a question in
//! progress represents an earlier history of its own: below its settled watermark the rows so far are those of every later
//! history, so no other step touches it. A question's number is its place among all that were begun, and an ended one keeps
//! its place, so a number is never given twice.
//!
//! A crash inside a call is a crash with or without that call's step before it, whose answer nobody saw. A count of offered
//! records that is full is reported by `run` as out of memory: the world of a run has no such bound, and the archive
//! refuses it by name. The machine merges all lists anew for each change and turn: it is a model to compare with,
//! on small runs, of few lines.
#![tactic(auto)]

mod applying;
mod given;
mod laws;
mod machine;
mod query;
mod question;
mod reply;
mod runs;
mod settling;
mod step;
mod step_laws;
mod turns;

pub use laws::{each_step_is_answered, headline_of_runs};
pub use machine::Machine;
pub use query::{Answer, Query};
pub use reply::{BatchReply, Receipt, Reply, Resume};
pub use runs::{Ran, run};
pub use step::{Reach, Step};
pub use step_laws::{answers_are_turns, batches_are_one, steps_go_on};
