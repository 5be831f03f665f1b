//! The commands that read whole tables, of the archive of a folder or of a server's. What they are asked for is read before that is opened.

ghost use Rattle.std.specs.Prelude.{◌≡◌};

use crate::inquiry::Inquiry;
use crate::opening::{First, run_to_read, status_of};
use crate::reaching::{reach, report_lapse};
use crate::refusals::report_unanswered;
use advice::{MarkAdvice, advise};
use archive_calls::{RouteArchive, RouteSource};
use disk_commands::Command;
use service::{Comparing, Dumping, Finding, Listing, Output, Refusal, Target, report_refusal};
use std::alloc::Global;
use std::io::Write;
use std::net::{Net, SocketAddrV4, TcpListener, TcpStream};
use tables::{BadArgument, TROUBLE, read_comparison, read_listing, read_search, read_table};

/// What is expected of an argument.
fn expected(argument: BadArgument) -> &'static str {
    match argument {
        BadArgument::Form => "--format: lines, bgpdump or json",
        BadArgument::Moment =>
            "a moment is seconds since 1970, 0 to 4294967295.999999, or a timestamp as 2024-01-01T00:15:00Z",
        BadArgument::Peer =>
            "--peer: a collector, 0 to 15, an address and an AS number, as 0 192.0.2.1 64496",
        BadArgument::Prefix => "a prefix is an address, / and a length, as 10.0.0.0/8",
        BadArgument::AsNumber => "an AS number is 0 to 4294967295, as 64496",
        BadArgument::Scope => "at most one of --exact, --more and --less can be given",
    }
}

/// Prints that an argument isn't valid, and what is expected. The exit status is 1.
fn report_bad<E: Write>(alloc: Global, argument: BadArgument, err: &mut Output<E>) -> u8 {
    let code = report_refusal(&Refusal::BadText, err);
    advise(alloc, &expected(argument), err);
    code
}

/// Prints until when the archive is settled, if that is why an inquiry is refused.
fn advise_settled<A: RouteSource, E: Write>(
    alloc: Global,
    archive: &A,
    inquiry: &Inquiry,
    err: &mut Output<E>,
) {
    let settled = archive.settled();
    if settled.number() <= inquiry.last_moment(archive).number() {
        advise(alloc, &MarkAdvice::Settled(settled), err);
    }
}

/// The command that asks an archive, and prints what helps if something is refused.
#[derive(Drop)]
struct AskTables<'r, 'q, 'e, E: Write> {
    rt: &'r HostRuntime,
    inquiry: &'q Inquiry,
    err: &'e mut Output<E>,
}

impl<A: RouteArchive + Drop, E: Write> Command<A> for AskTables<'_, '_, '_, E> {
    ghost does = { λ was now most h g status. g ≡ h };

    fn run(&mut self, alloc: Global, archive: A) -> (A, u8) {
        let (archive, code) = self.inquiry.ask(self.rt, archive, self.err);
        if code == self.inquiry.refused() {
            report_unanswered(alloc, &archive, self.err);
            advise_settled(alloc, &archive, self.inquiry, self.err);
        }
        (archive, code)
    }
}

/// Asks the archive of a folder.
fn ask_folder<E: Write>(
    rt: &HostRuntime,
    folder: &str,
    wait: u64,
    inquiry: &Inquiry,
    err: &mut Output<E>,
) -> u8 {
    let mut command = AskTables {
        rt,
        inquiry,
        err: &mut *err,
    };
    let ended = run_to_read(rt, folder, wait, First::Nothing, &mut command);
    status_of(rt, folder, ended, inquiry.refused(), err)
}

/// Asks the archive of a server.
fn ask_server<H: Net<Listener = TcpListener, Stream = TcpStream>, E: Write>(
    rt: &HostRuntime,
    host: &H,
    place: SocketAddrV4,
    inquiry: &Inquiry,
    err: &mut Output<E>,
) -> u8 {
    let Some(archive) = reach(rt.alloc(), host, place, err) else {
        return inquiry.refused();
    };
    let (archive, code) = inquiry.ask(rt, archive, err);
    if code == inquiry.refused() {
        report_lapse(rt.alloc(), place, &archive, err);
        advise_settled(rt.alloc(), &archive, inquiry, err);
    }
    code
}

/// Asks the archive that a command names. A folder's is waited for while it is in use.
fn ask_target<H: Net<Listener = TcpListener, Stream = TcpStream>, E: Write>(
    rt: &HostRuntime,
    host: &H,
    target: Target<'_>,
    wait: u64,
    inquiry: &Inquiry,
    err: &mut Output<E>,
) -> u8 {
    match target {
        Target::Folder(folder) => ask_folder(rt, folder, wait, inquiry, err),
        Target::Server(place) => ask_server(rt, host, place, inquiry, err),
    }
}

/// Writes the table of a moment.
pub(crate) fn dump<H: Net<Listener = TcpListener, Stream = TcpStream>, E: Write>(
    rt: &HostRuntime,
    host: &H,
    asked: &Dumping<'_>,
    err: &mut Output<E>,
) -> u8 {
    match read_table(asked) {
        Ok(table) => {
            let inquiry = Inquiry::Table(table);
            ask_target(rt, host, asked.target, asked.wait, &inquiry, err)
        }
        Err(argument) => report_bad(rt.alloc(), argument, err),
    }
}

/// Counts the routes of each peer of a moment.
pub(crate) fn peers<H: Net<Listener = TcpListener, Stream = TcpStream>, E: Write>(
    rt: &HostRuntime,
    host: &H,
    asked: &Listing<'_>,
    err: &mut Output<E>,
) -> u8 {
    match read_listing(asked) {
        Ok(at) => {
            let inquiry = Inquiry::Peers(at);
            ask_target(rt, host, asked.target, asked.wait, &inquiry, err)
        }
        Err(argument) => report_bad(rt.alloc(), argument, err),
    }
}

/// Compares the tables of two moments.
pub(crate) fn diff<H: Net<Listener = TcpListener, Stream = TcpStream>, E: Write>(
    rt: &HostRuntime,
    host: &H,
    asked: &Comparing<'_>,
    err: &mut Output<E>,
) -> u8 {
    match read_comparison(asked) {
        Ok(comparison) => {
            let inquiry = Inquiry::Comparison(comparison);
            ask_target(rt, host, asked.target, asked.wait, &inquiry, err)
        }
        Err(argument) => report_bad(rt.alloc(), argument, err).max(TROUBLE),
    }
}

/// Shows what is found of some prefixes.
pub(crate) fn find<H: Net<Listener = TcpListener, Stream = TcpStream>, E: Write>(
    rt: &HostRuntime,
    host: &H,
    asked: &Finding<'_>,
    err: &mut Output<E>,
) -> u8 {
    match read_search(asked) {
        Ok(search) => {
            let inquiry = Inquiry::Search(search);
            ask_target(rt, host, asked.target, asked.wait, &inquiry, err)
        }
        Err(argument) => report_bad(rt.alloc(), argument, err),
    }
}
