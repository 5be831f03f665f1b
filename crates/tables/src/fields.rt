//! The fields of a route's text.

use route_model::Route;
use route_text::write_route;
use std::alloc::{AllocError, Global};

/// The fields of a route, as texts.
#[derive(Clone, Copy, Debug)]
pub(crate) struct Fields<'a> {
    /// Empty, if there is no path.
    pub path: &'a str,
    pub origin: &'a str,
    /// One address, or two with a space between.
    pub next_hop: &'a str,
    pub med: &'a str,
    pub local_pref: &'a str,
    pub aggregate: &'a str,
    pub aggregator: &'a str,
    /// The other attributes, as TYPE/FLAGS/VALUE with spaces between.
    pub others: &'a str,
}

/// The text of a route: its eight fields, with `|` between.
pub(crate) fn text_of(alloc: Global, route: &Route) -> Result<String, AllocError> {
    let mut text = String::new(alloc);
    write_route(&mut text, route)?;
    Ok(text)
}

/// The fields of a route's text.
pub(crate) fn fields_of(text: &str) -> Fields<'_> {
    let mut fields = text.split('|');
    let path = fields.next().unwrap_or("");
    Fields {
        path: if path == "-" { "" } else { path },
        origin: fields.next().unwrap_or(""),
        next_hop: fields.next().unwrap_or(""),
        med: fields.next().unwrap_or(""),
        local_pref: fields.next().unwrap_or(""),
        aggregate: fields.next().unwrap_or(""),
        aggregator: fields.next().unwrap_or(""),
        others: fields.next().unwrap_or(""),
    }
}
