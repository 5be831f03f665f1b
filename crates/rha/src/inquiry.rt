//! What the commands that read whole tables ask of an archive.

ghost use Rattle.route_meaning.specs.History.{History};

use archive_calls::RouteSource;
use progress::{ClearedWriter, RowMeter, WatchedSource};
use route_model::Moment;
use service::{Output, report_out_of_memory};
use std::alloc::Global;
use std::fs;
use std::io::{BufWriter, IsTerminal, Write};
use std::os::unix::fs::FileTypeExt;
use tables::{Comparison, Search, TROUBLE, Table, moment_of};

/// Whether standard output is a pipe.
fn is_pipe(rt: &HostRuntime) -> bool {
    match fs::metadata(rt, "/proc/self/fd/1") {
        Ok(found) => found.file_type().is_fifo(),
        Err(_) => false,
    }
}

/// What is asked of an archive.
#[derive(Clone, Copy, Debug)]
pub(crate) enum Inquiry {
    Table(Table),
    Peers(Option<Moment>),
    Comparison(Comparison),
    Search(Search),
}

impl Inquiry {
    /// The exit status if something is refused, or not all could be written.
    pub(crate) fn refused(&self) -> u8 {
        match self {
            Inquiry::Comparison(_) => TROUBLE,
            _ => 1,
        }
    }

    /// The last moment that is asked of.
    pub(crate) fn last_moment<A: RouteSource>(&self, archive: &A) -> Moment {
        match self {
            Inquiry::Table(table) => moment_of(archive, table.at),
            Inquiry::Peers(at) => moment_of(archive, *at),
            Inquiry::Comparison(asked) => asked.from.max(asked.to),
            Inquiry::Search(search) => moment_of(archive, search.until),
        }
    }

    /// Whether a person sees a line on standard error, and nothing else of how far the answer has come. A table on a terminal shows that
    /// itself, and what reads a pipe may have the terminal, as less(1) has.
    fn is_waited_for(&self, rt: &HostRuntime) -> bool {
        let shows_itself = rt.stdout().is_terminal() && matches!(self, Inquiry::Table(_));
        rt.stderr().is_terminal() && !shows_itself && !is_pipe(rt)
    }

    /// Asks an archive, and prints the answer. Returns the archive and the exit status. A line on standard error says meanwhile how many
    /// rows were read, if a person sees it, and is gone before anything else is printed there.
    pub(crate) fn ask<A: RouteSource + Drop, E: Write>(
        &self,
        rt: &HostRuntime,
        archive: A,
        err: &mut Output<E>,
    ) -> (A, u8)
        ensures kept { (h : History) → A.represents archive h → A.represents result.0 h }
    {
        let (alloc, is_seen) = (rt.alloc(), rt.stdout().is_terminal());
        let meter = RowMeter::new(self.is_waited_for(rt).then_some(rt));
        let seen_line = is_seen.then_some(meter.line());
        let Ok(buffer) = BufWriter::new(alloc, ClearedWriter::new(rt.stdout(), seen_line)) else {
            report_out_of_memory(err);
            return (archive, self.refused());
        };
        let mut source = WatchedSource::new(archive, &meter);
        let out = &mut Output::new(buffer);
        let err = &mut Output::new(ClearedWriter::new(rt.stderr(), Some(meter.line())));
        let code = self.print(alloc, &mut source, is_seen, out, err);
        meter.line().clear();
        (source.into_source(), code)
    }

    /// Prints the answer. Returns the exit status.
    fn print<A: RouteSource, W: Write, E: Write>(
        &self,
        alloc: Global,
        source: &mut A,
        is_seen: bool,
        out: &mut Output<W>,
        err: &mut Output<E>,
    ) -> u8
        ensures kept { (h : History) → A.represents source.old h → A.represents source.new h }
    {
        match self {
            Inquiry::Table(table) => tables::dump(alloc, source, table, is_seen, out, err),
            Inquiry::Peers(at) => tables::peers(alloc, source, *at, is_seen, out, err),
            Inquiry::Comparison(asked) => tables::diff(alloc, source, asked, is_seen, out, err),
            Inquiry::Search(search) => tables::find(alloc, source, search, is_seen, out, err),
        }
    }
}
