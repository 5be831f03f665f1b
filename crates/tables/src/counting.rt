//! The peers of a moment, with how many routes each has.

ghost use Rattle.route_meaning.specs.History.{History};

use crate::ending::{end_lines, of_memory};
use crate::pages::{question_after, rows_page};
use archive_calls::{AskError, RouteSource, Trouble};
use route_meaning::{Row, RowsQuestion, Select};
use route_model::{Moment, Peer};
use route_text::write_address;
use service::{Output, Status};
use std::alloc::{AllocError, Global};
use std::io::Write;

/// A peer, and how many of its routes were found.
#[derive(Clone, Copy, Debug, PartialEq, Eq)]
struct Count {
    peer: Peer,
    routes: u64,
}

/// The peers so far: how many have all their routes counted, and the one whose routes are being counted.
#[derive(Clone, Copy, Debug, PartialEq, Eq)]
struct Counting {
    peers: u64,
    last: Option<Count>,
}

/// Writes `P|COLLECTOR|ADDRESS|AS|ROUTES` and LF.
fn write_count(out: &mut String, count: &Count) -> Result<(), AllocError> {
    let (collector, as_number, routes) = (count.peer.collector, count.peer.as_number, count.routes);
    write!(out, "P|{collector}|")?;
    write_address(out, &count.peer.address)?;
    writeln!(out, "|{as_number}|{routes}")
}

/// Takes a row: of the same peer as the one before, or of the next one, and then the line of that before is written.
fn take_row(out: &mut String, so_far: &mut Counting, row: &Row) -> Result<(), AskError> {
    if let Some(last) = so_far.last {
        if last.peer == row.peer {
            let Some(routes) = last.routes.checked_add(1) else {
                return Err(AskError::Trouble(Trouble::CounterFull));
            };
            so_far.last = Some(Count {
                peer: last.peer,
                routes,
            });
            return Ok(());
        }
        of_memory(write_count(out, &last))?;
        let Some(peers) = so_far.peers.checked_add(1) else {
            return Err(AskError::Trouble(Trouble::CounterFull));
        };
        so_far.peers = peers;
    }
    so_far.last = Some(Count {
        peer: row.peer,
        routes: 1,
    });
    Ok(())
}

/// Writes the line of the last peer: how many peers there are.
fn take_end(out: &mut String, so_far: &Counting) -> Result<u64, AskError> {
    let Some(last) = so_far.last else {
        return Ok(so_far.peers);
    };
    of_memory(write_count(out, &last))?;
    match so_far.peers.checked_add(1) {
        Some(peers) => Ok(peers),
        None => Err(AskError::Trouble(Trouble::CounterFull)),
    }
}

/// Takes the rows of a page.
fn take_page(out: &mut String, so_far: &mut Counting, rows: &[Row]) -> Result<(), AskError> {
    for row in rows {
        take_row(out, so_far, row)?;
    }
    Ok(())
}

/// Writes a line for each peer, page after page: how many there are. Once a write failed no more rows are asked for.
fn write_counts<A: RouteSource, W: Write>(
    alloc: Global,
    archive: &mut A,
    moment: Moment,
    out: &mut Output<W>,
) -> Result<u64, AskError>
    ensures kept { (h : History) → A.represents archive.old h → A.represents archive.new h }
{
    let mut question = RowsQuestion {
        moment,
        select: Select::All,
        after: None,
    };
    let mut text = String::new(alloc);
    let mut so_far = Counting {
        peers: 0,
        last: None,
    };
    'pages: for _ in 0..u64::MAX {
        let answer = rows_page(archive, question)?;
        text.clear();
        take_page(&mut text, &mut so_far, &answer.rows)?;
        let next = question_after(&question, &answer);
        let ended = match &next {
            Some(_) => None,
            None => Some(take_end(&mut text, &so_far)?),
        };
        out.text(text.as_str());
        if let Some(peers) = ended {
            return Ok(peers);
        }
        if out.has_failed() {
            return Ok(so_far.peers);
        }
        if let Some(next) = next {
            question = next;
        }
    }
    Err(AskError::Trouble(Trouble::CounterFull))
}

/// Writes `P|COLLECTOR|ADDRESS|AS|ROUTES` for each peer that has a route at the moment, in the order of peers, and `E|PEERS` after them. A
/// refusal is the last line.
pub(crate) fn write_peers<A: RouteSource, W: Write, E: Write>(
    alloc: Global,
    archive: &mut A,
    moment: Moment,
    out: &mut Output<W>,
    err: &mut Output<E>,
) -> Status
    ensures kept { (h : History) → A.represents archive.old h → A.represents archive.new h }
{
    let ended = write_counts(alloc, archive, moment, out);
    end_lines(alloc, ended, out, err)
}
