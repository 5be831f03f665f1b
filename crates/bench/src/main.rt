//! Programs that measure the crates, a word for each. What they count of a file can be compared with other readers.
//!
//! `framing`, `messages` and `admissions` read an MRT file as far as records, messages and admissions, and print counts; how long that takes
//! is timed from outside. `counts` prints what these three count of each file. `asks` and `clients` answer a file of request lines, by an
//! archive in a folder or by a server over connections at once, and print times in nanoseconds. A file is read in pieces; no item is kept.
#![tactic(auto)]

mod admissions;
mod asks;
mod clients;
mod framing;
mod messages;
mod reading;

use admissions::Admissions;
use anyhow::{Context, Result, bail};
use clap::{Arg, ArgAction, ArgMatches, Command};
use framing::Framing;
use messages::Messages;
use reading::{PIECE, count_file};
use std::alloc::{AllocError, Global};
use std::env;
use std::net::{Net, TcpListener, TcpStream};
use std::process::ExitCode;
use std::thread::Threads;
use std::time::Clock;

/// What an argument of a measure is.
#[derive(Clone, Copy)]
enum Kind {
    /// One word, which must be there.
    One,
    /// One word or more.
    Some,
    /// An option with a number.
    Number,
}

/// An argument of a measure.
struct Argument {
    name: &'static str,
    help: &'static str,
    kind: Kind,
}

/// A measure.
struct Measure {
    word: &'static str,
    about: &'static str,
    arguments: &'static [Argument],
}

const MEASURES: [Measure; 6] = [
    Measure {
        word: "framing",
        about: "Frames a file, and counts its items by kind",
        arguments: &[
            Argument {
                name: "FILE",
                help: "An MRT file",
                kind: Kind::One,
            },
            Argument {
                name: "piece",
                help: "Octets that are read at once",
                kind: Kind::Number,
            },
        ],
    },
    Measure {
        word: "messages",
        about: "Frames a file, and reads its messages and the routes of its RIB entries",
        arguments: &[
            Argument {
                name: "FILE",
                help: "An MRT file",
                kind: Kind::One,
            },
            Argument {
                name: "times",
                help: "How often each is read",
                kind: Kind::Number,
            },
        ],
    },
    Measure {
        word: "admissions",
        about: "Frames a file, and resolves its records",
        arguments: &[Argument {
            name: "FILE",
            help: "An MRT file",
            kind: Kind::One,
        }],
    },
    Measure {
        word: "counts",
        about: "Prints what the three measures above count, of each file",
        arguments: &[Argument {
            name: "FILE",
            help: "An MRT file",
            kind: Kind::Some,
        }],
    },
    Measure {
        word: "asks",
        about: "Asks an archive the request lines of a file, and times the answers",
        arguments: &[
            Argument {
                name: "DIR",
                help: "The folder of an archive",
                kind: Kind::One,
            },
            Argument {
                name: "FILE",
                help: "A file of request lines",
                kind: Kind::One,
            },
        ],
    },
    Measure {
        word: "clients",
        about: "Asks a served archive the request lines of a file over connections at once, and times the replies",
        arguments: &[
            Argument {
                name: "ADDRESS",
                help: "Where it listens, as ADDRESS:PORT",
                kind: Kind::One,
            },
            Argument {
                name: "FILE",
                help: "A file of request lines",
                kind: Kind::One,
            },
            Argument {
                name: "connections",
                help: "How many connections there are",
                kind: Kind::Number,
            },
        ],
    },
];

/// An argument, as the command line has it.
fn arg_of<'a>(alloc: Global, it: &Argument) -> Arg<'a> {
    let arg = Arg::new(alloc, it.name)
        .help(it.help)
        .action(ArgAction::Set);
    match it.kind {
        Kind::One => arg.required(true),
        Kind::Some => arg.required(true).num_args(1..),
        Kind::Number => arg.long(it.name).value_name("N"),
    }
}

/// The command line of a measure.
fn command<'a>(alloc: Global, measure: &Measure) -> Result<Command<'a>, AllocError> {
    let mut command = Command::new(alloc, measure.word).about(measure.about);
    for it in measure.arguments {
        command = command.arg(arg_of(alloc, it))?;
    }
    Ok(command)
}

/// The command line: a word for each measure.
fn program<'a>(alloc: Global) -> Result<Command<'a>, AllocError> {
    let mut program = Command::new(alloc, "bench")
        .about("Measures the crates of rha")
        .subcommand_required(true)
        .disable_help_subcommand(true);
    for measure in &MEASURES {
        program = program.subcommand(command(alloc, measure)?)?;
    }
    Ok(program)
}

/// The number of an option, or another one where the option isn't there.
fn number_or(matches: &ArgMatches<'_>, name: &str, or: u32) -> Result<u32> {
    match matches.get_str(name) {
        Some(text) => text.parse::<u32>().context("a number is needed"),
        None => Ok(or),
    }
}

fn print_framing(rt: &HostRuntime, path: &str, piece: usize) -> Result<()> {
    let mut framing = Framing::NONE;
    count_file(rt, path, piece, &mut framing)?;
    framing.print(rt)?;
    Ok(())
}

fn print_messages(rt: &HostRuntime, path: &str, times: u32) -> Result<()> {
    let mut messages = Messages::new(times);
    count_file(rt, path, PIECE, &mut messages)?;
    messages.print(rt)?;
    Ok(())
}

fn print_admissions(rt: &HostRuntime, path: &str) -> Result<()> {
    let mut admissions = Admissions::new();
    count_file(rt, path, PIECE, &mut admissions)?;
    admissions.print(rt)?;
    Ok(())
}

fn print_counts(rt: &HostRuntime, paths: &[&str]) -> Result<()> {
    for path in paths {
        print_framing(rt, path, PIECE)?;
        print_messages(rt, path, 1)?;
        print_admissions(rt, path)?;
    }
    Ok(())
}

/// Does what a word asks for.
fn perform(rt: &HostRuntime, word: &str, matches: &ArgMatches<'_>) -> Result<()> {
    let path = matches.get_str("FILE").unwrap_or("");
    match word {
        "framing" => {
            print_framing(
                rt,
                path,
                number_or(matches, "piece", PIECE as u32)? as usize,
            )
        }
        "messages" => print_messages(rt, path, number_or(matches, "times", 1)?),
        "admissions" => print_admissions(rt, path),
        "asks" => asks::print_asks(rt, matches.get_str("DIR").unwrap_or(""), path),
        _ => print_counts(rt, matches.get_strs("FILE").unwrap_or(&[])),
    }
}

/// Does what the word `clients` asks for, on threads of this process.
fn print_clients<H: Threads + Clock + Net<Listener = TcpListener, Stream = TcpStream> + Sync>(
    rt: &HostRuntime,
    host: &H,
    matches: &ArgMatches<'_>,
) -> Result<()> {
    clients::print_clients(
        rt,
        host,
        matches.get_str("ADDRESS").unwrap_or(""),
        matches.get_str("FILE").unwrap_or(""),
        number_or(matches, "connections", 1)?,
    )
}

/// Reads the command line and does what it asks for: the exit status.
fn run<H: Threads + Clock + Net<Listener = TcpListener, Stream = TcpStream> + Sync>(
    rt: &HostRuntime,
    host: &H,
) -> Result<u8> {
    let words = env::args(rt)?.collect::<Vec<String>>(rt.alloc())?;
    let program = program(rt.alloc())?;
    match program.try_get_matches_from(words.as_slice()) {
        Ok(matches) => {
            let Some((word, matches)) = matches.subcommand() else {
                bail!("a word is needed")
            };
            match word {
                "clients" => print_clients(rt, host, matches)?,
                _ => perform(rt, word, matches)?,
            }
            Ok(0)
        }
        Err(error) => {
            error.print(rt)?;
            Ok(if error.use_stderr() { 2 } else { 0 })
        }
    }
}

fn main(rt: HostRuntime) -> ExitCode {
    match run(&rt, &rt) {
        Ok(code) => ExitCode::from(code),
        Err(error) => {
            let _ = eprintln!(rt; "bench: {error:?}");
            ExitCode::from(1)
        }
    }
}
