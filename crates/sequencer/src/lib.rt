//! Marks and order: which offered records are late, which admitted one is applied next, and below which moment
//! all is settled.
//!
//!     collector   mark   times that wait
//!     0           200    100 101            the next is 100 of 0: the least first time, of the lowest collector, below every mark
//!     1           150    100                all is settled below 100: the least of first times, and of marks where none waits
//!
//! Admitting is two calls. `sieve` finds what is late and makes room, and may run out of memory; `take_in` can't be
//! refused. So a batch can be written to disk between them, and nothing that was written has to be undone.
//! Releasing is two calls too: `next` returns whose turn it is, `take` takes it. A late record raises no mark; the mark that
//! is reported with it is the greatest of the collector's mark and all earlier times of the batch.
//!
//! Times wait in a queue for each collector, so taking the first costs the same however many wait; the next collector
//! is found by looking at each first time, of which an archive has at most 16. A look ahead (`ahead`, `next_after`,
//! `pass`) counts for each collector how many first times are passed over, so that a step of many changes can be
//! planned without moving the sequencer; `take_passed` takes them after the commit. A step that is refused
//! then needs no undoing.
#![tactic(auto)]

mod ahead;
mod batch;
mod first;
mod lane;
mod late;
mod laws;
mod sequencer;

pub use ahead::Ahead;
pub use batch::{timely_of, times_of};
pub use late::{Late, Sieved, sieve};
pub use laws::runs_release_in_order;
pub use sequencer::{MarkBack, Sequencer};
