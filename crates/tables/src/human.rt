//! Rows and events as a person reads them.

use crate::fields::{fields_of, text_of};
use crate::known::{
    COMMUNITIES, EXTENDED, LARGE, is_known, value_of, write_communities, write_extended,
    write_large,
};
use dates::Utc;
use route_meaning::{Event, Row};
use route_model::{Change, Moment, Route};
use service::write_place;
use std::alloc::{AllocError, Global};

/// Writes the moment as a date (RFC 3339, UTC).
pub(crate) fn write_date(out: &mut String, moment: Moment) -> Result<(), AllocError> {
    let micros = moment.number();
    write!(out, "{}", Utc { micros })
}

/// Writes the attributes that aren't communities, with spaces between.
fn write_unknown(out: &mut String, route: &Route, others: &str) -> Result<(), AllocError> {
    let mut is_first = true;
    for (attribute, text) in route.others.as_slice().iter().zip(others.split(' ')) {
        if !is_known(attribute) {
            if !is_first {
                out.push(' ')?;
            }
            is_first = false;
            out.push_str(text)?;
        }
    }
    Ok(())
}

/// Writes the fields of a route: communities as texts, in the place of their attributes.
fn write_route(alloc: Global, out: &mut String, route: &Route) -> Result<(), AllocError> {
    let text = text_of(alloc, route)?;
    let fields = fields_of(text.as_str());
    let (path, origin, next_hop) = (fields.path, fields.origin, fields.next_hop);
    let (med, local_pref) = (fields.med, fields.local_pref);
    let (aggregate, aggregator) = (fields.aggregate, fields.aggregator);
    write!(
        out,
        "{path}|{origin}|{next_hop}|{med}|{local_pref}|{aggregate}|{aggregator}|"
    )?;
    write_communities(out, value_of(route, COMMUNITIES))?;
    out.push('|')?;
    write_extended(out, value_of(route, EXTENDED))?;
    out.push('|')?;
    write_large(out, value_of(route, LARGE))?;
    out.push('|')?;
    write_unknown(out, route, fields.others)
}

/// Writes the line of a row.
pub(crate) fn write_row(alloc: Global, out: &mut String, row: &Row) -> Result<(), AllocError> {
    out.push_str("R|")?;
    write_place(out, &row.peer, &row.prefix)?;
    out.push('|')?;
    write_route(alloc, out, row.route.route())?;
    out.push('\n')
}

/// Writes the line of an event.
pub(crate) fn write_event(
    alloc: Global,
    out: &mut String,
    event: &Event,
) -> Result<(), AllocError> {
    match &event.change {
        Change::Announce(_, _, route) => {
            out.push_str("A|")?;
            write_date(out, event.time)?;
            out.push('|')?;
            write_route(alloc, out, route.route())?;
        }
        Change::Withdraw(_, _) => {
            out.push_str("W|")?;
            write_date(out, event.time)?;
        }
        Change::Down(_) => {
            out.push_str("D|")?;
            write_date(out, event.time)?;
        }
    }
    out.push('\n')
}
