//! The names of columns, for a person who reads them on a terminal. They stand on standard error, so what is read by a program stays the
//! lines alone.

use crate::form::Form;
use service::Output;
use std::io::Write;

/// What the lines of a command are.
#[derive(Clone, Copy, Debug, PartialEq, Eq)]
pub(crate) enum Columns {
    /// Routes of one moment.
    Rows,
    /// What happened to one route.
    Events,
    /// Places that changed.
    Places,
    /// Peers, and how many routes each has.
    Peers,
    /// Places where two tables differ.
    Differences,
    /// What happened at places.
    Found,
}

const ROWS: &str =
    "R|COLLECTOR|PEER|AS|PREFIX|PATH|ORIGIN|NEXT HOP|MED|LOCAL PREF|AGGREGATE|AGGREGATOR|OTHERS\n";

const DATED_ROWS: &str =
    "R|COLLECTOR|PEER|AS|PREFIX|PATH|ORIGIN|NEXT HOP|MED|LOCAL PREF|AGGREGATE|AGGREGATOR|COMMUNITIES|EXTENDED|LARGE|OTHERS\n";

const EVENTS: &str =
    "A, W or D|TIME|PATH|ORIGIN|NEXT HOP|MED|LOCAL PREF|AGGREGATE|AGGREGATOR|OTHERS\n";

const DATED_EVENTS: &str =
    "A, W or D|TIME|PATH|ORIGIN|NEXT HOP|MED|LOCAL PREF|AGGREGATE|AGGREGATOR|COMMUNITIES|EXTENDED|LARGE|OTHERS\n";

const PLACES: &str = "C|COLLECTOR|PEER|AS|PREFIX\n";

const PEERS: &str = "P|COLLECTOR|PEER|AS|ROUTES\n";

const DIFFERENCES: &str =
    "+, - or ~|COLLECTOR|PEER|AS|PREFIX|PATH|ORIGIN|NEXT HOP|MED|LOCAL PREF|AGGREGATE|AGGREGATOR|OTHERS|and the new route after ~\n";

const FOUND: &str =
    "A, W or D|TIME|COLLECTOR|PEER|AS|PREFIX|PATH|ORIGIN|NEXT HOP|MED|LOCAL PREF|AGGREGATE|AGGREGATOR|OTHERS\n";

/// The line over the columns, with its end. Forms for other programs have none.
fn heading_of(columns: Columns, form: Form) -> &'static str {
    match (form, columns) {
        (Form::Bgpdump | Form::Json, _) => "",
        (_, Columns::Places) => PLACES,
        (_, Columns::Peers) => PEERS,
        (_, Columns::Differences) => DIFFERENCES,
        (_, Columns::Found) => FOUND,
        (Form::Human, Columns::Rows) => DATED_ROWS,
        (Form::Lines, Columns::Rows) => ROWS,
        (Form::Human, Columns::Events) => DATED_EVENTS,
        (Form::Lines, Columns::Events) => EVENTS,
    }
}

/// Writes the line over the columns, before the first of their lines is written.
pub(crate) fn write_heading<E: Write>(columns: Columns, form: Form, err: &mut Output<E>) {
    err.text(heading_of(columns, form));
    err.flush();
}
