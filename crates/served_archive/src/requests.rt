//! Lines that ask a server.

use interleaving_core::Query;
use route_meaning::{ChangedQuestion, EventsQuestion, RowsQuestion, Select, Spot};
use route_model::{Peer, Prefix};
use route_text::{write_address, write_moment, write_number, write_prefix};
use std::alloc::AllocError;

/// `COLLECTOR ADDRESS AS`
fn write_peer(out: &mut String, peer: &Peer) -> Result<(), AllocError> {
    write_number(out, u64::from(peer.collector))?;
    out.push(' ')?;
    write_address(out, &peer.address)?;
    out.push(' ')?;
    write_number(out, u64::from(peer.as_number))
}

/// `COLLECTOR ADDRESS AS PREFIX`
fn write_spot(out: &mut String, peer: &Peer, prefix: &Prefix) -> Result<(), AllocError> {
    write_peer(out, peer)?;
    out.push(' ')?;
    write_prefix(out, prefix)
}

/// ` after PEER PREFIX`, if only what lies after a spot is asked for.
fn write_after(out: &mut String, after: &Option<Spot>) -> Result<(), AllocError> {
    let Some(spot) = after else {
        return Ok(());
    };
    out.push_str(" after ")?;
    write_spot(out, &spot.peer, &spot.prefix)
}

/// Which rows are asked for.
fn write_select(out: &mut String, select: &Select) -> Result<(), AllocError> {
    match select {
        Select::Route(peer, prefix) => {
            out.push_str("route ")?;
            write_spot(out, peer, prefix)
        }
        Select::ByPrefix(prefix) => {
            out.push_str("prefix ")?;
            write_prefix(out, prefix)
        }
        Select::Covering(address) => {
            out.push_str("cover ")?;
            write_address(out, address)
        }
        Select::PeerTable(peer) => {
            out.push_str("peer ")?;
            write_peer(out, peer)
        }
        Select::All => out.push_str("all"),
    }
}

/// `at T ..`. The one row of `route` is asked for whole: that line has no `after`.
fn write_rows_question(out: &mut String, question: &RowsQuestion) -> Result<(), AllocError> {
    out.push_str("at ")?;
    write_moment(out, question.moment)?;
    out.push(' ')?;
    write_select(out, &question.select)?;
    match question.select {
        Select::Route(_, _) => Ok(()),
        _ => write_after(out, &question.after),
    }
}

/// `history FROM TO PEER PREFIX skip N`
fn write_events_question(out: &mut String, question: &EventsQuestion) -> Result<(), AllocError> {
    out.push_str("history ")?;
    write_moment(out, question.from)?;
    out.push(' ')?;
    write_moment(out, question.to)?;
    out.push(' ')?;
    write_spot(out, &question.peer, &question.prefix)?;
    out.push_str(" skip ")?;
    write_number(out, question.skip)
}

/// Writes the line that asks a question.
pub(crate) fn write_question(out: &mut String, query: &Query) -> Result<(), AllocError> {
    match query {
        Query::Rows(question) => write_rows_question(out, question)?,
        Query::Events(question) => write_events_question(out, question)?,
    }
    out.push('\n')
}

/// Writes `changed FROM TO LOW HIGH`, and ` after PEER PREFIX` if only what lies after a spot is asked for.
pub(crate) fn write_changed_question(
    out: &mut String,
    question: &ChangedQuestion,
) -> Result<(), AllocError> {
    out.push_str("changed ")?;
    write_moment(out, question.from)?;
    out.push(' ')?;
    write_moment(out, question.to)?;
    out.push(' ')?;
    write_prefix(out, &question.low)?;
    out.push(' ')?;
    write_prefix(out, &question.high)?;
    write_after(out, &question.after)?;
    out.push('\n')
}
