//! Questions and their answers.

use route_meaning::{EventsAnswer, EventsQuestion, RowsAnswer, RowsQuestion};
use route_model::Moment;

/// A question: of one moment, or of what was reported from one moment to another.
#[derive(Clone, Copy, Debug, PartialEq, Eq)]
pub enum Query {
    Rows(RowsQuestion),
    Events(EventsQuestion),
}

/// The answer to a question.
#[derive(Debug, Drop)]
pub enum Answer {
    Rows(RowsAnswer),
    Events(EventsAnswer),
}

impl Query {
    ghost use Rattle.std.specs.Prelude.{◌≡◌};
    ghost use Rattle.interleaving_core.specs.Does.{last_moment};

    /// The last moment that it asks of.
    pub fn last_moment(&self) -> Moment
        ensures moment { result ≡ last_moment self.now }
    {
        match self {
            Query::Rows(question) => question.moment,
            Query::Events(question) => question.to,
        }
    }
}
