//! What a step of a test returns.

use disk_models::Fault as Failed;

#[derive(Clone, Copy, PartialEq)]
pub(crate) enum Answer {
    Yes,
    No,
    Fault,
    /// The step couldn't be done at all.
    Harness,
}

impl Answer {
    pub(crate) fn of(done: Result<(), Failed>) -> Answer {
        match done {
            Ok(()) => Answer::Yes,
            Err(_) => Answer::Fault,
        }
    }

    pub(crate) fn is(it: bool) -> Answer {
        if it { Answer::Yes } else { Answer::No }
    }
}
