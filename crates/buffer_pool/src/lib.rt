//! Pages of a journal in memory: those that aren't written home, and the last ones that were used.
//!
//!     committed   dirty pages: posted, not home yet      each stays until it is written home
//!     cached      the last ones that were read           at most the pool's capacity
//!                 or written home
//!     spare       one page: a dirty page that isn't in memory is read from its image here, to go home
//!
//! No fetch, commit or flush of another page drops a committed page. That a commit puts it there is only tested:
//! memory may run out after the post, nothing may be reported then, and no clause distinguishes that from a body
//! that didn't try. A page for which there was no memory at its commit is read from its image, and is then cached as
//! pages are that were read: so the cache may have a dirty page.
//!
//! A flush or a checkpoint doesn't change the committed pages, so a crash inside one leaves them, too. `Serves`
//! (of disk_models: size, count of failures, whether the device follows its model) is the one record of what a
//! call leaves unchanged of its device, in all layers above.
#![tactic(auto)]

mod error;
mod held;
mod pool;

pub use error::FetchError;
pub use pool::Pool;
