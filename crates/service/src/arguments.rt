//! The command line that the program takes, as `clap` has it.

ghost use Rattle.std.specs.Prelude.{◌≡◌, IfOk, false, codes};
ghost use Rattle.clap.specs.Simple.{app_of};
ghost use Rattle.clap.specs.Walk.{rule_of};
ghost use Rattle.clap.specs.declared.builder.command.Command.TheViews.{out-Command};
ghost use Rattle.service.specs.CommandLines.{listen_rule, files_rule, words_rule, word_rule, number_rule, number_or_rule, of_folder, of_archive, creation_of_rings, creation, loading_of_batches, loading_to_mark, loading, question, serving_by_workers, serving_on_port, serving, checking, examining, flag_rule, text_rule, text_or_rule, peer_rule, of_source, of_moment, dumping, listing, comparing, finding_in_scope, finding, bare_program, archive_program, program};

use crate::help;
use clap::builder::ValueParser;
use clap::{Arg, ArgAction, Command};
use std::alloc::{AllocError, Global};

/// The most collectors that an archive may have.
pub(crate) const MAX_COLLECTORS: u64 = 16;

/// The greatest number of a collector.
pub(crate) const LAST_COLLECTOR: u64 = 15;

/// The fewest pages of a ring.
pub(crate) const MIN_RING: u64 = 9;

/// The most pages of a ring.
pub(crate) const MAX_RING: u64 = 65_535;

/// The most home pages, and the most blocks, that may be asked for.
pub(crate) const MAX_SIZE: u64 = 1_000_000_000;

/// The most admissions of a batch that may be asked for, and those that it has if nothing is asked for.
pub(crate) const MAX_BATCH: u64 = 1000;

/// The most seconds that a command may be asked to wait for an archive.
pub(crate) const MAX_WAIT: u64 = 1_000_000;

/// The most workers of a server.
pub(crate) const MAX_WORKERS: u64 = 16;

/// The most seconds after which an idle connection is ended.
pub(crate) const MAX_IDLE: u64 = 1_000_000;

/// The version of the program.
pub const VERSION: &str = "0.3.0";

/// A word of this name, which has to be there.
fn word<'a>(alloc: Global, name: &'a str, help: &'a str) -> Arg<'a>
    ensures rule { rule_of result ≡ word_rule name.entry.now }
    ensures own { result.global ≡ false }
{
    Arg::new(alloc, name)
        .help(help)
        .required(true)
        .action(ArgAction::Set)
}

/// `--NAME`
fn flag<'a>(alloc: Global, name: &'a str, help: &'a str) -> Arg<'a>
    ensures rule { rule_of result ≡ flag_rule name.entry.now }
    ensures own { result.global ≡ false }
{
    Arg::new(alloc, name)
        .long(name)
        .help(help)
        .action(ArgAction::SetTrue)
}

/// `--NAME LETTER`
fn text<'a>(alloc: Global, name: &'a str, letter: &'a str, help: &'a str) -> Arg<'a>
    ensures rule { rule_of result ≡ text_rule name.entry.now }
    ensures own { result.global ≡ false }
{
    Arg::new(alloc, name)
        .long(name)
        .value_name(letter)
        .help(help)
        .action(ArgAction::Set)
}

/// `--NAME LETTER`, which has to be there: a number from the least to the most.
fn number<'a>(
    alloc: Global,
    name: &'a str,
    letter: &'a str,
    help: &'a str,
    least: u64,
    most: u64,
) -> Arg<'a>
    ensures rule { rule_of result ≡ number_rule name.entry.now least most }
    ensures own { result.global ≡ false }
{
    Arg::new(alloc, name)
        .long(name)
        .value_name(letter)
        .help(help)
        .value_parser(ValueParser::unsigned(least, most))
        .required(true)
        .action(ArgAction::Set)
}

/// `--NAME LETTER`: a number from the least to the most, and `default` if it isn't there.
fn number_or<'a>(
    alloc: Global,
    name: &'a str,
    letter: &'a str,
    help: &'a str,
    least: u64,
    most: u64,
    default: &'a str,
) -> Arg<'a>
    ensures rule { rule_of result ≡ number_or_rule name.entry.now least most default.entry.now }
    ensures own { result.global ≡ false }
{
    Arg::new(alloc, name)
        .long(name)
        .value_name(letter)
        .help(help)
        .value_parser(ValueParser::unsigned(least, most))
        .default_value(default)
        .action(ArgAction::Set)
}

fn files<'a>(alloc: Global) -> Arg<'a>
    ensures rule { rule_of result ≡ files_rule }
    ensures own { result.global ≡ false }
{
    Arg::new(alloc, "FILE")
        .help("The MRT files to load, in their order; - is standard input")
        .required(true)
        .num_args(1..)
        .action(ArgAction::Append)
}

/// `--listen ADDRESS:PORT`, which has to be there.
fn listen<'a>(alloc: Global) -> Arg<'a>
    ensures rule { rule_of result ≡ listen_rule }
    ensures own { result.global ≡ false }
{
    Arg::new(alloc, "listen")
        .long("listen")
        .value_name("ADDRESS:PORT")
        .help("The IPv4 address to listen on, and the port, 0 to 65535")
        .required(true)
        .action(ArgAction::Set)
}

fn words<'a>(alloc: Global) -> Arg<'a>
    ensures rule { rule_of result ≡ words_rule }
    ensures own { result.global ≡ false }
{
    Arg::new(alloc, "WORD")
        .help("The words of a request line")
        .required(true)
        .num_args(1..)
        .trailing_var_arg(true)
        .action(ArgAction::Append)
}

/// `NAME DIR`
fn of_folder<'a>(
    alloc: Global,
    name: &'a str,
    about: &'a str,
    help: &'a str,
) -> Result<Command<'a>, AllocError>
    ensures app { IfOk result (λ c. app_of c ≡ of_folder name.entry.now) }
    ensures own { IfOk result (λ c. (out-Command c).has_globals ≡ false) }
{
    Command::new(alloc, name)
        .about(about)
        .after_help(help)
        .arg(word(alloc, "DIR", "The folder of the archive"))
}

/// `NAME DIR [--wait SECONDS]`, of an archive that is there
fn of_archive<'a>(
    alloc: Global,
    name: &'a str,
    about: &'a str,
    help: &'a str,
) -> Result<Command<'a>, AllocError>
    ensures app { IfOk result (λ c. app_of c ≡ of_archive name.entry.now) }
    ensures own { IfOk result (λ c. (out-Command c).has_globals ≡ false) }
{
    let wait = "How many seconds to wait for the archive while it is in use, 0 to 1000000";
    of_folder(alloc, name, about, help)?.arg(number_or(
        alloc, "wait", "SECONDS", wait, 0, MAX_WAIT, "0",
    ))
}

/// `create DIR [--collectors N] [--ring P]`
fn creation_of_rings<'a>(alloc: Global) -> Result<Command<'a>, AllocError>
    ensures app { IfOk result (λ c. app_of c ≡ creation_of_rings) }
    ensures own { IfOk result (λ c. (out-Command c).has_globals ≡ false) }
{
    let about = "Makes the folder DIR, which isn't there yet, with an empty archive";
    let collectors = "How many collectors there will be, 1 to 16";
    let ring = "The pages of each collector's ring, 9 to 65535";
    of_folder(alloc, "create", about, help::CREATE)?
        .arg(number_or(alloc, "collectors", "N", collectors, 1, MAX_COLLECTORS, "1"))?
        .arg(number_or(alloc, "ring", "P", ring, MIN_RING, MAX_RING, "4096"))
}

/// `create DIR [--collectors N] [--ring P] [--pages N] [--blocks N]`
fn creation<'a>(alloc: Global) -> Result<Command<'a>, AllocError>
    ensures app { IfOk result (λ c. app_of c ≡ creation) }
    ensures own { IfOk result (λ c. (out-Command c).has_globals ≡ false) }
{
    let pages = "The pages of the archive, its rings' included, 1 to 1000000000";
    let blocks = "The write-once blocks of the archive, 1 to 1000000000";
    creation_of_rings(alloc)?
        .arg(number_or(alloc, "pages", "N", pages, 1, MAX_SIZE, "10000000"))?
        .arg(number_or(alloc, "blocks", "N", blocks, 1, MAX_SIZE, "100000000"))
}

/// `load DIR [--wait SECONDS] --collector C [--batch N]`
fn loading_of_batches<'a>(alloc: Global) -> Result<Command<'a>, AllocError>
    ensures app { IfOk result (λ c. app_of c ≡ loading_of_batches) }
    ensures own { IfOk result (λ c. (out-Command c).has_globals ≡ false) }
{
    let about = "Loads files of MRT records as a collector's";
    let collector = "The collector's number, 0 to 15";
    let batch = "The most records of a batch, 1 to 1000";
    of_archive(alloc, "load", about, help::LOAD)?
        .arg(number(alloc, "collector", "C", collector, 0, LAST_COLLECTOR))?
        .arg(number_or(alloc, "batch", "N", batch, 1, MAX_BATCH, "1000"))
}

/// `load DIR --collector C [--batch N] [--mark M] [--resume]`
fn loading_to_mark<'a>(alloc: Global) -> Result<Command<'a>, AllocError>
    ensures app { IfOk result (λ c. app_of c ≡ loading_to_mark) }
    ensures own { IfOk result (λ c. (out-Command c).has_globals ≡ false) }
{
    let mark = "The collector's mark once the last FILE is loaded";
    let resume = "Goes on after the records that were offered before";
    loading_of_batches(alloc)?
        .arg(text(alloc, "mark", "M", mark))?
        .arg(flag(alloc, "resume", resume))
}

/// `load DIR --collector C [--batch N] [--mark M] [--resume] [--lose-entries] [--strict] FILE..`
fn loading<'a>(alloc: Global) -> Result<Command<'a>, AllocError>
    ensures app { IfOk result (λ c. app_of c ≡ loading) }
    ensures own { IfOk result (λ c. (out-Command c).has_globals ≡ false) }
{
    let lose = "Leaves table entries without a next hop out";
    let strict = "Ends at a FILE that gives cause for doubt, and sets no mark then";
    loading_to_mark(alloc)?
        .arg(flag(alloc, "lose-entries", lose))?
        .arg(flag(alloc, "strict", strict))?
        .arg(files(alloc))
}

/// `--format FORM`: `lines` if it isn't there.
fn format<'a>(alloc: Global) -> Arg<'a>
    ensures rule { rule_of result ≡ text_or_rule (codes "format") (codes "lines") }
    ensures own { result.global ≡ false }
{
    Arg::new(alloc, "format")
        .long("format")
        .value_name("FORM")
        .help("How a row is written: lines, bgpdump or json")
        .default_value("lines")
        .action(ArgAction::Set)
}

/// `--peer COLLECTOR ADDRESS AS`
fn peer<'a>(alloc: Global) -> Arg<'a>
    ensures rule { rule_of result ≡ peer_rule }
    ensures own { result.global ≡ false }
{
    Arg::new(alloc, "peer")
        .long("peer")
        .value_names(&["COLLECTOR", "ADDRESS", "AS"])
        .num_args(3)
        .help("Of this peer alone")
        .action(ArgAction::Set)
}

/// `ask DIR [--wait SECONDS] [--all] [--human] WORD..`
fn question<'a>(alloc: Global) -> Result<Command<'a>, AllocError>
    ensures app { IfOk result (λ c. app_of c ≡ question) }
    ensures own { IfOk result (λ c. (out-Command c).has_globals ≡ false) }
{
    let all = "Follows `M` to the end: all rows or events, and not the first 256";
    let human = "Dates, and communities as texts, for a person";
    of_archive(alloc, "ask", "Answers a request line", help::ASK)?
        .arg(flag(alloc, "all", all))?
        .arg(flag(alloc, "human", human))?
        .arg(words(alloc))
}

/// `serve DIR [--wait SECONDS] --listen ADDRESS:PORT --workers N`
fn serving_by_workers<'a>(alloc: Global) -> Result<Command<'a>, AllocError>
    ensures app { IfOk result (λ c. app_of c ≡ serving_by_workers) }
    ensures own { IfOk result (λ c. (out-Command c).has_globals ≡ false) }
{
    let about = "Serves an archive on a socket, until a client asks it to stop";
    let workers = "How many connections are served at once, 1 to 16";
    of_archive(alloc, "serve", about, help::SERVE)?
        .arg(listen(alloc))?
        .arg(number(alloc, "workers", "N", workers, 1, MAX_WORKERS))
}

/// `serve DIR --listen ADDRESS:PORT --workers N [--read-only] [--close-on-http]`
fn serving_on_port<'a>(alloc: Global) -> Result<Command<'a>, AllocError>
    ensures app { IfOk result (λ c. app_of c ≡ serving_on_port) }
    ensures own { IfOk result (λ c. (out-Command c).has_globals ≡ false) }
{
    let read_only = "Refuses feed, mark and stop there; implies --close-on-http";
    let close = "Ends a connection after a request of HTTP";
    serving_by_workers(alloc)?
        .arg(flag(alloc, "read-only", read_only))?
        .arg(flag(alloc, "close-on-http", close))
}

/// `serve DIR --listen ADDRESS:PORT --workers N [--read-only] [--close-on-http] [--admin PATH] [--http ADDRESS:PORT] [--idle SECONDS]`
fn serving<'a>(alloc: Global) -> Result<Command<'a>, AllocError>
    ensures app { IfOk result (λ c. app_of c ≡ serving) }
    ensures own { IfOk result (λ c. (out-Command c).has_globals ≡ false) }
{
    let admin = "A Unix socket to make, which takes every line, also feed, mark and stop";
    let http = "A further IPv4 address and port, which answer HTTP alone, read-only";
    let idle = "After how many seconds an idle connection is ended, 1 to 1000000";
    serving_on_port(alloc)?
        .arg(text(alloc, "admin", "PATH", admin))?
        .arg(text(alloc, "http", "ADDRESS:PORT", http))?
        .arg(number_or(alloc, "idle", "SECONDS", idle, 1, MAX_IDLE, "300"))
}

/// `check DIR [--wait SECONDS]`
fn checking<'a>(alloc: Global) -> Result<Command<'a>, AllocError>
    ensures app { IfOk result (λ c. app_of c ≡ checking) }
    ensures own { IfOk result (λ c. (out-Command c).has_globals ≡ false) }
{
    let about = "Reads through an archive, and reports the first damage";
    of_archive(alloc, "check", about, help::CHECK)
}

/// `info DIR [--wait SECONDS] [--json]`
fn examining<'a>(alloc: Global) -> Result<Command<'a>, AllocError>
    ensures app { IfOk result (λ c. app_of c ≡ examining) }
    ensures own { IfOk result (λ c. (out-Command c).has_globals ≡ false) }
{
    let about = "Shows how far an archive has come, and how much room it has left";
    let json = "Prints one object of JSON, for programs";
    of_archive(alloc, "info", about, help::INFO)?.arg(flag(alloc, "json", json))
}

/// `NAME DIR [--wait SECONDS] [--connect]`, of an archive that is there, or is served
fn of_source<'a>(
    alloc: Global,
    name: &'a str,
    about: &'a str,
    help: &'a str,
) -> Result<Command<'a>, AllocError>
    ensures app { IfOk result (λ c. app_of c ≡ of_source name.entry.now) }
    ensures own { IfOk result (λ c. (out-Command c).has_globals ≡ false) }
{
    let connect =
        "Asks a server: DIR is the ADDRESS:PORT of its --listen, and --wait has no effect";
    of_archive(alloc, name, about, help)?.arg(flag(alloc, "connect", connect))
}

/// `NAME DIR [--wait SECONDS] [--connect] [--at T]`, of the table of one moment
fn of_moment<'a>(
    alloc: Global,
    name: &'a str,
    about: &'a str,
    help: &'a str,
) -> Result<Command<'a>, AllocError>
    ensures app { IfOk result (λ c. app_of c ≡ of_moment name.entry.now) }
    ensures own { IfOk result (λ c. (out-Command c).has_globals ≡ false) }
{
    let at = "The moment of the table; without it the last that is settled";
    of_source(alloc, name, about, help)?.arg(text(alloc, "at", "T", at))
}

/// `dump DIR [--wait SECONDS] [--connect] [--at T] [--peer COLLECTOR ADDRESS AS] [--format FORM]`
fn dumping<'a>(alloc: Global) -> Result<Command<'a>, AllocError>
    ensures app { IfOk result (λ c. app_of c ≡ dumping) }
    ensures own { IfOk result (λ c. (out-Command c).has_globals ≡ false) }
{
    of_moment(alloc, "dump", "Writes the table of one moment", help::DUMP)?
        .arg(peer(alloc))?
        .arg(format(alloc))
}

/// `peers DIR [--wait SECONDS] [--connect] [--at T]`
fn listing<'a>(alloc: Global) -> Result<Command<'a>, AllocError>
    ensures app { IfOk result (λ c. app_of c ≡ listing) }
    ensures own { IfOk result (λ c. (out-Command c).has_globals ≡ false) }
{
    let about = "Counts the routes of each peer that has one at a moment";
    of_moment(alloc, "peers", about, help::PEERS)
}

/// `diff DIR [--wait SECONDS] [--connect] FROM TO [--within PREFIX]`
fn comparing<'a>(alloc: Global) -> Result<Command<'a>, AllocError>
    ensures app { IfOk result (λ c. app_of c ≡ comparing) }
    ensures own { IfOk result (λ c. (out-Command c).has_globals ≡ false) }
{
    of_source(
        alloc,
        "diff",
        "Compares the tables of two moments",
        help::DIFF,
    )?
    .arg(word(alloc, "FROM", "The first moment"))?
    .arg(word(alloc, "TO", "The second moment"))?
    .arg(text(alloc, "within", "PREFIX", "Only prefixes inside this one"))
}

/// `find DIR [--wait SECONDS] [--connect] PREFIX [--exact] [--more] [--less]`
fn finding_in_scope<'a>(alloc: Global) -> Result<Command<'a>, AllocError>
    ensures app { IfOk result (λ c. app_of c ≡ finding_in_scope) }
    ensures own { IfOk result (λ c. (out-Command c).has_globals ≡ false) }
{
    let about = "Finds what happened to a prefix, or which routes it has";
    of_source(alloc, "find", about, help::FIND)?
        .arg(word(alloc, "PREFIX", "The prefix, as 10.0.0.0/8"))?
        .arg(flag(alloc, "exact", "This prefix alone, as without an option"))?
        .arg(flag(alloc, "more", "All prefixes inside it, too"))?
        .arg(flag(alloc, "less", "All prefixes that contain it, too"))
}

/// `find DIR PREFIX [--exact] [--more] [--less] [--since A] [--until B] [--origin AS] [--via AS]`
fn finding<'a>(alloc: Global) -> Result<Command<'a>, AllocError>
    ensures app { IfOk result (λ c. app_of c ≡ finding) }
    ensures own { IfOk result (λ c. (out-Command c).has_globals ≡ false) }
{
    let since = "What happened from this moment on; without it the routes at B";
    let until = "The last moment; without it the last that is settled";
    let origin = "Only of routes whose path ends in this AS number";
    let via = "Only of routes whose path has this AS number";
    finding_in_scope(alloc)?
        .arg(text(alloc, "since", "A", since))?
        .arg(text(alloc, "until", "B", until))?
        .arg(text(alloc, "origin", "AS", origin))?
        .arg(text(alloc, "via", "AS", via))
}

/// The program, without its commands.
fn bare_program<'a>(alloc: Global) -> Command<'a>
    ensures app { app_of result ≡ bare_program }
{
    Command::new(alloc, "rha")
        .about("A route history archive for BGP")
        .version(VERSION)
        .after_help(help::PROGRAM)
        .subcommand_required(true)
        .disable_help_subcommand(true)
}

/// The program with the commands that keep and question an archive.
fn archive_program<'a>(alloc: Global) -> Result<Command<'a>, AllocError>
    ensures app { IfOk result (λ c. app_of c ≡ archive_program) }
{
    bare_program(alloc)
        .subcommand(creation(alloc)?)?
        .subcommand(loading(alloc)?)?
        .subcommand(question(alloc)?)?
        .subcommand(serving(alloc)?)?
        .subcommand(checking(alloc)?)?
        .subcommand(examining(alloc)?)
}

/// The command line that the program takes.
pub(crate) fn program<'a>(alloc: Global) -> Result<Command<'a>, AllocError>
    ensures app { IfOk result (λ c. app_of c ≡ program) }
{
    archive_program(alloc)?
        .subcommand(dumping(alloc)?)?
        .subcommand(listing(alloc)?)?
        .subcommand(comparing(alloc)?)?
        .subcommand(finding(alloc)?)
}
