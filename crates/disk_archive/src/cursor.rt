//! Questions in progress.

ghost use Rattle.std.specs.Prelude.{◌≡◌};
ghost use Rattle.route_meaning.specs.History.{History};
ghost use Rattle.disk_archive.specs.Cursors.{IsGathered, asks};

use interleaving_core::Query;
use route_history::laws::versions_report;
use route_history::{EventsCursor, RowsCursor};
use std::alloc::Global;

/// A question in progress: how far its walk over keys, or over stamps, has come, and what it has gathered so far. It has no page and no
/// block, so that anything may be called between its turns.
#[derive(Debug, Drop)]
pub enum Cursor {
    Rows(RowsCursor),
    Events(EventsCursor),
}

impl Cursor {
    /// The start of a question. It needs no disk and no memory.
    pub fn start(alloc: Global, query: Query) -> Cursor
        ensures asks { asks result ≡ query }
        ensures gathered { (h : History) → IsGathered result h }
    {
        versions_report();
        match query {
            Query::Rows(question) => Cursor::Rows(RowsCursor::start(alloc, question)),
            Query::Events(question) => {
                // A call on each peer and prefix gives the proof its limits.
                let _len = question.peer.encoded_len();
                let _address = question.prefix.address();
                Cursor::Events(EventsCursor::start(alloc, question))
            }
        }
    }

    /// Its question.
    pub fn query(&self) -> Query
        ensures { result ≡ asks self.now }
    {
        match self {
            Cursor::Rows(cursor) => Query::Rows(cursor.question),
            Cursor::Events(cursor) => Query::Events(cursor.question),
        }
    }
}
