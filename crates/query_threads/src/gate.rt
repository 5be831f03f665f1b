//! Hooks that run at two points of a question.

/// Is called for the questions of a shared archive, while no lock is held.
pub trait Gate {
    /// The request's first turn has come back. Called once a request, also if that turn was refused.
    fn descended(&self, request: u64);

    /// The request's reply is made. Called once a request, also if the reply is a refusal.
    fn answered(&self, request: u64);
}

/// Nothing is done.
#[derive(Clone, Copy, Debug, Drop)]
pub struct NoGate;

impl Gate for NoGate {
    fn descended(&self, _request: u64) {}

    fn answered(&self, _request: u64) {}
}
