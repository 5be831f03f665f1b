//! A row as `bgpdump -m` prints an entry of a table.

use crate::fields::{fields_of, text_of};
use crate::known::{COMMUNITIES, value_of, write_communities};
use route_meaning::Row;
use route_model::Moment;
use route_text::{write_address, write_prefix};
use std::alloc::{AllocError, Global};

/// The number, or 0 if it isn't there.
fn number_or_0(text: &str) -> &str {
    if text.is_empty() { "0" } else { text }
}

/// The first of the addresses.
fn first_of(addresses: &str) -> &str {
    addresses.split(' ').next().unwrap_or("")
}

/// Writes `TABLE_DUMP2|T|B|ADDRESS|AS|PREFIX|PATH|ORIGIN|NEXTHOP|LOCAL_PREF|MED|COMMUNITY|AG|AGGREGATOR|` and LF.
pub(crate) fn write_entry(
    alloc: Global,
    out: &mut String,
    moment: Moment,
    row: &Row,
) -> Result<(), AllocError> {
    let route = row.route.route();
    let text = text_of(alloc, route)?;
    let fields = fields_of(text.as_str());
    // bgpdump prints the Timestamp of the record, which has no fraction.
    let (seconds, as_number) = (moment.number() / Moment::SECOND, row.peer.as_number);
    write!(out, "TABLE_DUMP2|{seconds}|B|")?;
    write_address(out, &row.peer.address)?;
    write!(out, "|{as_number}|")?;
    write_prefix(out, &row.prefix)?;
    let (path, origin, next_hop) = (fields.path, fields.origin, first_of(fields.next_hop));
    let (local_pref, med) = (number_or_0(fields.local_pref), number_or_0(fields.med));
    write!(out, "|{path}|{origin}|{next_hop}|{local_pref}|{med}|")?;
    write_communities(out, value_of(route, COMMUNITIES))?;
    let (aggregate, aggregator) = (fields.aggregate, fields.aggregator);
    writeln!(out, "|{aggregate}|{aggregator}|")
}
