//! The program `rha`: a route history archive for BGP. It keeps what route collectors sent in the files of a folder, and
//! answers which routes there were at any settled past moment.
//!
//! Standard streams that are closed are opened on `/dev/null` before all else (`streams`). Signals keep their defaults,
//! since the toolchain's library sets none, but for SIGPIPE, which it ignores: a write into a pipe that nobody reads fails. A write
//! beyond the limit on the size of files would end the program (SIGXFSZ), so the archive's files ask for that limit before each write.
//!
//! `--wait` tries again ten times a second: three files are locked one after another, and no call waits some seconds for a
//! lock; so processes that wait aren't queued. Which process has an archive is read in `/proc/locks`, by the device and inode of
//! `pages.rha`. `info` reads the head in the file of the pages, while it holds the archive: an opening brings all pages
//! home and closes the slots, so the file has what the archive has.
//!
//!     serve:   open the archive   listen   listen for HTTP   make the socket of `--admin`   make all threads
//!              print `listening`   take connections   remove the socket
//!
//! The program starts threads and makes that socket through a second handle (`host`), since the compiler gives a runtime's
//! threads and sockets only to `main`. What a file is that isn't MRT is found by its first 16 octets, and printed after the load, only
//! if nothing of it was admitted.
//!
//! `main` has no contract: there is no model of what a process is given, nor of its exit status. That it opens the folder's
//! files and then the files to load, and that it runs the command over them, can only be read in it.
#![tactic(auto)]

mod commands;
mod examining;
mod holder;
mod inquiry;
mod loading;
mod opening;
mod operator;
mod reaching;
mod refusals;
mod served;
mod sizes;
mod sources;
mod streams;
mod table_reading;

use crate::commands::{ask, check, create};
use crate::examining::info;
use crate::loading::load;
use crate::served::serve;
use crate::streams::{DEV_NULL, open_closed_streams};
use crate::table_reading::{diff, dump, find, peers};
use advice::advise_text;
use service::{Invocation, Output, command, report_out_of_memory, report_outside, report_usage};
use std::alloc::{AllocError, Global};
use std::env;
use std::fs::Files;
use std::io::Write;
use std::net::{Net, TcpListener, TcpStream};
use std::process::ExitCode;
use std::sync::Wait;
use std::thread::Threads;
use std::time::Clock;

/// `rha help COMMAND` asks for what `rha COMMAND --help` does, and `rha help` and `rha help help` for what `rha --help` does.
fn put_help_last(alloc: Global, words: &mut Vec<String>) -> Result<(), AllocError> {
    if words.len() < 2 || words[1].as_str() != "help" {
        return Ok(());
    }
    let mut option = String::new(alloc);
    option.push_str("--help")?;
    words.push(option)?;
    words.remove(1);
    if words[1].as_str() == "help" {
        words.remove(1);
    }
    Ok(())
}

/// Reads the command line and runs its command. `host` starts the threads of a server, and makes connections.
fn run<
    H: Threads + Wait + Clock + Files + Net<Listener = TcpListener, Stream = TcpStream> + Sync,
    E: Write,
>(rt: &HostRuntime, host: &H, err: &mut Output<E>) -> u8 {
    let alloc = rt.alloc();
    let words = match env::args(rt) {
        Ok(words) => words,
        Err(why) => return report_outside(alloc, err, "the command line", "read", &why),
    };
    let Ok(mut words): Result<Vec<String>, _> = words.collect(alloc) else {
        return report_out_of_memory(err);
    };
    if put_help_last(alloc, &mut words).is_err() {
        return report_out_of_memory(err);
    }
    match command(alloc, words.as_slice()) {
        Ok(Invocation::Create(asked)) => create(rt, &asked, err),
        Ok(Invocation::Load(asked)) => load(rt, &asked, err),
        Ok(Invocation::Ask(asked)) => ask(rt, &asked, err),
        Ok(Invocation::Serve(asked)) => serve(rt, host, &asked, err),
        Ok(Invocation::Check(asked)) => check(rt, &asked, err),
        Ok(Invocation::Info(asked)) => info(rt, &asked, err),
        Ok(Invocation::Dump(asked)) => dump(rt, host, &asked, err),
        Ok(Invocation::Peers(asked)) => peers(rt, host, &asked, err),
        Ok(Invocation::Diff(asked)) => diff(rt, host, &asked, err),
        Ok(Invocation::Find(asked)) => find(rt, host, &asked, err),
        Err(error) => {
            let code = report_usage(alloc, rt, &error, err);
            advise_text(alloc, &error, err);
            code
        }
    }
}

fn main(rt: HostRuntime) -> ExitCode {
    let mut err = Output::new(rt.stderr());
    let code = match open_closed_streams(&rt) {
        Ok(()) => run(&rt, &rt, &mut err),
        Err(why) => report_outside(rt.alloc(), &mut err, DEV_NULL, "open", &why),
    };
    ExitCode::from(code)
}
