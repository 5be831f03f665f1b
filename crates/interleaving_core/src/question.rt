//! Questions that were begun.

use crate::query::Query;
use route_meaning::{Event, EventsQuestion, Row, RowsQuestion, Spot};
use std::alloc::Global;
use std::marker::Model;

/// A question of a moment in progress: where it has come, and the rows so far.
#[derive(Debug, Drop)]
pub(crate) struct RowsSoFar {
    pub(crate) question: RowsQuestion,
    pub(crate) low: Option<Spot>,
    pub(crate) rows: Vec<Row>,
}

impl Model for RowsSoFar {
    ghost use Rattle.interleaving_core.specs.SoFar.{RowsSoFar as Gathered};

    ghost Value = { Gathered };

    ghost view = { λ g. record { question = g.question; low = g.low; rows = g.rows.items } };
}

/// A question of events in progress: the events so far.
#[derive(Debug, Drop)]
pub(crate) struct EventsSoFar {
    pub(crate) question: EventsQuestion,
    pub(crate) events: Vec<Event>,
}

impl Model for EventsSoFar {
    ghost use Rattle.interleaving_core.specs.SoFar.{EventsSoFar as Gathered};

    ghost Value = { Gathered };

    ghost view = { λ g. record { question = g.question; events = g.events.items } };
}

/// What became of a question that was begun: it is in progress, or it has ended.
#[derive(Debug, Drop)]
pub(crate) enum Question {
    OfRows(RowsSoFar),
    OfEvents(EventsSoFar),
    Ended(Query),
}

impl RowsSoFar {
    ghost use Rattle.std.specs.Prelude.{◌≡◌};

    /// What is asked.
    pub(crate) fn question(&self) -> RowsQuestion
        ensures { result ≡ self.now.question }
    {
        self.question
    }
}

impl EventsSoFar {
    ghost use Rattle.std.specs.Prelude.{◌≡◌};

    /// What is asked.
    pub(crate) fn question(&self) -> EventsQuestion
        ensures { result ≡ self.now.question }
    {
        self.question
    }
}

impl Question {
    ghost use Rattle.std.specs.Prelude.{◌≡◌, ◌↔◌, IsFalse};
    ghost use Rattle.interleaving_core.specs.Does.{IsInProgress};
    ghost use Rattle.interleaving_core.specs.World.{asked, started};

    /// The question as it begins.
    pub(crate) fn start(alloc: Global, query: Query) -> Question
        ensures { result ≡ started query }
    {
        match query {
            Query::Rows(question) => Question::OfRows(RowsSoFar {
                question,
                low: question.after,
                rows: Vec::new(alloc),
            }),
            Query::Events(question) => Question::OfEvents(EventsSoFar {
                question,
                events: Vec::new(alloc),
            }),
        }
    }

    /// Whether it has ended.
    pub(crate) fn is_ended(&self) -> bool
        ensures progress { IsFalse result ↔ IsInProgress self.now }
    {
        matches!(self, Question::Ended(_))
    }

    /// What was asked.
    pub(crate) fn query(&self) -> Query
        ensures query { result ≡ asked self.now }
    {
        match self {
            Question::OfRows(so_far) => Query::Rows(so_far.question()),
            Question::OfEvents(so_far) => Query::Events(so_far.question()),
            Question::Ended(query) => *query,
        }
    }
}
