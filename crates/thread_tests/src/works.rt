//! Calls on a shared archive as data, and what they returned.

use interleaving_core::{Answer, BatchReply, Query};
use query_threads::{AdmitError, AskError, MarkError, Step, Trouble};
use route_model::{Admission, Mark};

/// A call that a thread makes.
#[derive(Drop)]
pub enum Work {
    /// A collector gives a batch.
    Admit(u8, Vec<Admission>),
    /// A collector's mark is raised.
    Mark(u8, Mark),
    /// The next change is applied, and perhaps some more.
    Apply,
    /// A question is asked.
    Ask(Query),
}

/// What a call returned.
#[derive(Drop)]
pub enum Returned {
    Admitted(Result<BatchReply, AdmitError>),
    Marked(Result<(), MarkError>),
    Applied(Result<Step, Trouble>),
    Answered(Result<Answer, AskError>),
}
