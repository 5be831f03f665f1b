//! What the program does of the commands that read whole tables, once the archive is open. The exit status of the program is that of the
//! command, and what is buffered is written out before.

ghost use Rattle.std.specs.Prelude.{◌≡◌, false, string_bytes};
ghost use Rattle.route_meaning.specs.History.{History};
ghost use Rattle.service.specs.Running.{IsLineAsked};

use crate::asking::{Manner, ask_for};
use crate::comparing::write_differences;
use crate::counting::write_peers;
use crate::ending::finish;
use crate::form::Form;
use crate::headings::{Columns, write_heading};
use crate::reading::{Comparison, Search, Table, moment_of};
use crate::rows::write_table;
use crate::searching::write_search;
use archive_calls::{RouteArchive, RouteSource};
use route_meaning::RowsQuestion;
use route_model::Moment;
use service::{Output, Question, ask_line};
use std::alloc::Global;
use std::io::Write;

/// Answers the line that the command line asks: as an answer has it, or to its end, or for a person. `terminal` is whether standard
/// output is one: names of columns and what else helps a person stand on standard error then.
pub fn ask<A: RouteArchive, W: Write, E: Write>(
    alloc: Global,
    archive: &mut A,
    asked: &Question<'_>,
    terminal: bool,
    out: &mut Output<W>,
    err: &mut Output<E>,
) -> u8
    // Without `--all` and `--human`, and if no person reads it, the line is answered as service answers it.
    ensures plain { asked.now.all ≡ false → asked.now.human ≡ false → terminal ≡ false → (h : History) → A.represents archive.old h → IsLineAsked (string_bytes asked.now.line) h result out.old out.new err.old err.new }
    ensures kept { (h : History) → A.represents archive.old h → A.represents archive.new h }
{
    let manner = Manner {
        all: asked.all,
        human: asked.human,
        terminal,
    };
    if !manner.all && !manner.human && !manner.terminal {
        return ask_line(alloc, archive, asked, out, err);
    }
    let line = asked.line.as_str();
    let ended = ask_for(alloc, archive, line, manner, out, err);
    finish(alloc, ended, out, err)
}

/// Writes a table, on a terminal under the names of its columns.
pub fn dump<A: RouteSource, W: Write, E: Write>(
    alloc: Global,
    archive: &mut A,
    table: &Table,
    terminal: bool,
    out: &mut Output<W>,
    err: &mut Output<E>,
) -> u8
    ensures kept { (h : History) → A.represents archive.old h → A.represents archive.new h }
{
    let question = RowsQuestion {
        moment: moment_of(archive, table.at),
        select: table.select,
        after: None,
    };
    if terminal {
        write_heading(Columns::Rows, table.form, err);
    }
    let ended = write_table(alloc, archive, table.form, question, out, err);
    finish(alloc, ended, out, err)
}

/// Counts the routes of each peer at a moment, or at the last that is settled, on a terminal under the names of the columns.
pub fn peers<A: RouteSource, W: Write, E: Write>(
    alloc: Global,
    archive: &mut A,
    at: Option<Moment>,
    terminal: bool,
    out: &mut Output<W>,
    err: &mut Output<E>,
) -> u8
    ensures kept { (h : History) → A.represents archive.old h → A.represents archive.new h }
{
    let moment = moment_of(archive, at);
    if terminal {
        write_heading(Columns::Peers, Form::Lines, err);
    }
    let ended = write_peers(alloc, archive, moment, out, err);
    finish(alloc, ended, out, err)
}

/// The exit status of a comparison if something was refused or not all was written, as that of diff(1).
pub const TROUBLE: u8 = 2;

/// Compares the tables of two moments. The exit status is that of diff(1): 0 if nothing differs, 1 if something does, and [`TROUBLE`]
/// if something was refused or not all could be written. On a terminal the names of the columns stand before.
pub fn diff<A: RouteSource, W: Write, E: Write>(
    alloc: Global,
    archive: &mut A,
    asked: &Comparison,
    terminal: bool,
    out: &mut Output<W>,
    err: &mut Output<E>,
) -> u8
    ensures kept { (h : History) → A.represents archive.old h → A.represents archive.new h }
{
    if terminal {
        write_heading(Columns::Differences, Form::Lines, err);
    }
    let (count, ended) = write_differences(alloc, archive, asked, out, err);
    if finish(alloc, ended, out, err) != 0 {
        return TROUBLE;
    }
    if count == 0 { 0 } else { 1 }
}

/// Writes what is found of some prefixes: the routes that hold at a moment, or what happened from one moment to another. On a terminal the
/// names of the columns stand before.
pub fn find<A: RouteSource, W: Write, E: Write>(
    alloc: Global,
    archive: &mut A,
    search: &Search,
    terminal: bool,
    out: &mut Output<W>,
    err: &mut Output<E>,
) -> u8
    ensures kept { (h : History) → A.represents archive.old h → A.represents archive.new h }
{
    let until = moment_of(archive, search.until);
    if terminal {
        let columns = match search.since {
            Some(_) => Columns::Found,
            None => Columns::Rows,
        };
        write_heading(columns, Form::Lines, err);
    }
    let ended = write_search(alloc, archive, search, until, out, err);
    finish(alloc, ended, out, err)
}
