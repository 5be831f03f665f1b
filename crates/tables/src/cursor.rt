//! The rows of a question, one after another.

ghost use Rattle.route_meaning.specs.History.{History};

use crate::pages::{question_after, rows_page};
use crate::scope::Scope;
use archive_calls::{AskError, RouteSource, Trouble};
use route_meaning::{Row, RowsAnswer, RowsQuestion, Select};
use route_model::{Moment, Peer};
use std::alloc::Global;

/// All rows of a moment that weren't taken yet, or those of some prefixes.
#[derive(Debug, Drop)]
pub(crate) struct Cursor {
    /// The question of the rows after those that were found.
    question: Option<RowsQuestion>,
    /// Which prefixes, or all if there is none.
    scope: Option<Scope>,
    /// Those that were found, the next one last.
    found: Vec<Row>,
}

impl Cursor {
    /// A cursor before the first row.
    pub(crate) fn new(alloc: Global, moment: Moment, scope: Option<Scope>) -> Cursor {
        let select = match &scope {
            Some(scope) => scope.select(),
            None => Select::All,
        };
        Cursor::over(alloc, moment, select, scope)
    }

    /// A cursor before the peer's first row.
    pub(crate) fn of_peer(
        alloc: Global,
        moment: Moment,
        peer: Peer,
        scope: Option<Scope>,
    ) -> Cursor {
        Cursor::over(alloc, moment, Select::PeerTable(peer), scope)
    }

    /// A cursor before the first row of these.
    fn over(alloc: Global, moment: Moment, select: Select, scope: Option<Scope>) -> Cursor {
        Cursor {
            question: Some(RowsQuestion {
                moment,
                select,
                after: None,
            }),
            scope,
            found: Vec::new(alloc),
        }
    }

    /// Whether the row is among those that are asked for.
    fn is_expected(&self, row: &Row) -> bool {
        match &self.scope {
            Some(scope) => scope.has(&row.prefix),
            None => true,
        }
    }

    /// Takes the next row of those that were found, if it is asked for and there is one.
    fn take_found(&mut self) -> Option<Row> {
        while let Some(row) = self.found.pop() {
            if self.is_expected(&row) {
                return Some(row);
            }
        }
        None
    }

    /// The question of the rows after those of an answer, if more follow that are asked for: it passes over rows that aren't.
    fn next_question(&self, question: &RowsQuestion, answer: &RowsAnswer) -> Option<RowsQuestion> {
        let mut next = question_after(question, answer)?;
        if let (Some(scope), Some(spot)) = (&self.scope, next.after) {
            next.after = Some(scope.leap(spot));
        }
        Some(next)
    }

    /// Takes the next row, or none after the last one.
    pub(crate) fn take<A: RouteSource>(&mut self, archive: &mut A) -> Result<Option<Row>, AskError>
        ensures kept { (h : History) → A.represents archive.old h → A.represents archive.new h }
    {
        'pages: for _ in 0..u64::MAX {
            if let Some(row) = self.take_found() {
                return Ok(Some(row));
            }
            let Some(question) = self.question else {
                return Ok(None);
            };
            let answer = rows_page(archive, question)?;
            self.question = self.next_question(&question, &answer);
            self.found = answer.rows;
            self.found.reverse();
        }
        Err(AskError::Trouble(Trouble::CounterFull))
    }
}
