//! The lines of an answer.

ghost use Rattle.std.specs.Prelude.{◌≡◌, ◌++◌, ◌-◌, OnOk, string_bytes, length, slice_get};
ghost use Rattle.service.specs.AnswerLines.{place_text, row_line, end_line, more_line, ending, answer_text};

use route_meaning::{Row, RowsAnswer};
use route_model::{Peer, Prefix};
use route_text::{write_address, write_number, write_prefix, write_route};
use std::alloc::AllocError;

/// Collector, address and AS number of the peer, and the prefix.
pub fn write_place(out: &mut String, peer: &Peer, prefix: &Prefix) -> Result<(), AllocError>
    ensures text { OnOk result (string_bytes out.new ≡ string_bytes out.old ++ place_text peer.now prefix.now) }
{
    write_number(out, u64::from(peer.collector))?;
    out.push('|')?;
    write_address(out, &peer.address)?;
    out.push('|')?;
    write_number(out, u64::from(peer.as_number))?;
    out.push('|')?;
    write_prefix(out, prefix)
}

/// `R|`, the place and the fields of the route, and LF. After an error `out` may have any text.
pub fn write_row(out: &mut String, row: &Row) -> Result<(), AllocError>
    ensures line { OnOk result (string_bytes out.new ≡ string_bytes out.old ++ row_line row.now) }
{
    out.push_str("R|")?;
    write_place(out, &row.peer, &row.prefix)?;
    out.push('|')?;
    write_route(out, row.route.route())?;
    out.push('\n')
}

/// `E|` and how many lines there are: nothing follows. After an error `out` may have any text.
pub(crate) fn write_end(out: &mut String, count: usize) -> Result<(), AllocError>
    ensures line { OnOk result (string_bytes out.new ≡ string_bytes out.old ++ end_line count) }
{
    writeln!(out, "E|{count}")
}

/// `M|` and the last place: more follow. After an error `out` may have any text.
pub(crate) fn write_more(out: &mut String, peer: &Peer, prefix: &Prefix) -> Result<(), AllocError>
    ensures line { OnOk result (string_bytes out.new ≡ string_bytes out.old ++ more_line peer.now prefix.now) }
{
    out.push_str("M|")?;
    write_place(out, peer, prefix)?;
    out.push('\n')
}

/// `E|ROWS`, or if more rows follow, `M` and the place of the last one. After an error `out` may have any text.
pub fn write_ending(out: &mut String, answer: &RowsAnswer) -> Result<(), AllocError>
    ensures line { OnOk result (string_bytes out.new ≡ string_bytes out.old ++ ending answer.now.rows.items answer.now.more (slice_get answer.now.rows.items (length answer.now.rows.items - 1))) }
{
    match answer.rows.last() {
        Some(row) if answer.more => write_more(out, &row.peer, &row.prefix),
        _ => write_end(out, answer.rows.len()),
    }
}

/// Writes an answer at the end of `out`: for each row `R|COLLECTOR|ADDRESS|AS|PREFIX|` and the fields of its route,
/// then `E|ROWS` if no more rows follow, else `M|COLLECTOR|ADDRESS|AS|PREFIX` of the last row. After an error
/// `out` may have any text.
pub fn write_answer(out: &mut String, answer: &RowsAnswer) -> Result<(), AllocError>
    ensures lines { OnOk result (string_bytes out.new ≡ string_bytes out.old ++ answer_text answer.now) }
{
    for row in &answer.rows {
        write_row(out, row)?;
    }
    write_ending(out, answer)
}
