//! The command line of the program.

ghost use Rattle.std.specs.Prelude.{◌≡◌, ◌≤◌, ◌⊎◌, ℕ, List, Option, Some, IfOk, OnErr, map, option_map, unwrap_or, [], codes, string_bytes};
ghost use Rattle.clap.specs.Kinds.{IsAmong};
ghost use Rattle.clap.specs.Faults.{fault_of};
ghost use Rattle.clap.specs.Matches.{found_of, subcommand_name_of};
ghost use Rattle.clap.specs.Simple.{subcommand_rows_of};
ghost use Rattle.clap.specs.Walk.{Row, rows_of, first_of, one_of, all_of};
ghost use Rattle.clap.specs.Values.{kind_of};
ghost use Rattle.clap.specs.declared.error.Error.{Error};
ghost use Rattle.service.specs.CommandLines.{program, spaced, word_in, IsMarkIf, IsNoMark, IsNumber, IsThere, IsThereOr, IsCreation, IsLoading, IsQuestion, IsServing, IsChecking, IsExamining, IsTarget, IsDumping, IsListing, IsComparing, IsFinding, IsInvocation, HasBadMark, HasBadListen, HasBadHttp, HasBadConnect, HasNoHttp, HasNoServer};
ghost use Rattle.service.specs.Listening.{IsNoListenText};
ghost use Rattle.service.specs.inner.Naming.{AsksFor, IsCommand, NamesNoHttp, NamesNoListen, NamesNoMark, NamesNoServer};

use crate::arguments::{
    LAST_COLLECTOR, MAX_BATCH, MAX_COLLECTORS, MAX_IDLE, MAX_RING, MAX_SIZE, MAX_WAIT, MAX_WORKERS,
    MIN_RING, program,
};
use crate::invocation::{
    Checking, CommandError, Comparing, Creation, Dumping, Examining, Finding, Invocation, Listing,
    Loading, Question, Serving, Target,
};
use crate::listening::{read_http, read_listen};
use clap::ArgMatches;
use clap::error::ErrorKind;
use route_model::Mark;
use route_text::{BadText, read_mark};
use std::alloc::{AllocError, Global};
use std::convert::AsStr;

/// The word of this name. No clause of `clap`'s promises that it is there: else it counts as empty.
fn word_of<'a>(matches: &ArgMatches<'a>, name: &str) -> &'a str
    ensures word { result.now ≡ word_in name.now (rows_of (found_of matches.now)) }
{
    matches.get_str(name).unwrap_or("")
}

/// The text of this name, if it is there.
fn text_of<'a>(matches: &ArgMatches<'a>, name: &str) -> Option<&'a str>
    ensures text { option_map (λ t. t.now) result ≡ first_of name.now (rows_of (found_of matches.now)) }
{
    matches.get_str(name)
}

/// The number after an option, which `clap` has read. No clause of its promises that the text is there
/// and within the limits: else the least counts.
fn number_in(text: Option<&str>, least: u64, most: u64) -> u64
    requires limits { least ≤ most }
    ensures number { IsNumber least most (option_map (λ t. t.now) text.entry) result }
{
    let Some(text) = text else {
        return least;
    };
    match text.parse::<u64>() {
        Ok(number) if least <= number && number <= most => number,
        _ => least,
    }
}

/// The number after the option of this name.
fn number_of(matches: &ArgMatches<'_>, name: &str, least: u64, most: u64) -> u64
    requires limits { least ≤ most }
    ensures number { IsNumber least most (first_of name.now (rows_of (found_of matches.now))) result }
{
    number_in(matches.get_str(name), least, most)
}

/// The words as one line, with one space between two.
fn line_of(alloc: Global, words: &[&str]) -> Result<String, AllocError>
    ensures spaced { IfOk result (λ line. string_bytes line ≡ spaced (map (λ w. w.now) words.now)) }
{
    words.join(alloc, " ")
}

/// The mark in the text, if there is a text.
fn mark_of(text: Option<&str>) -> Result<Option<Mark>, BadText>
    ensures found { IfOk result (IsMarkIf (option_map (λ t. t.now) text.entry)) }
    ensures none { OnErr result (IsNoMark (option_map (λ t. t.now) text.entry)) }
{
    match text {
        Some(text) => Ok(Some(read_mark(text)?)),
        None => Ok(None),
    }
}

/// Whether an option without a text of its own is there.
fn is_there(matches: &ArgMatches<'_>, name: &str) -> bool
    ensures there { IsThere (one_of name.now (rows_of (found_of matches.now))) result }
{
    matches.get_flag(name)
}

/// Whether an option without a text of its own is there, or implied by another one.
fn is_there_or(matches: &ArgMatches<'_>, is_implied: bool, name: &str) -> bool
    ensures there { IsThereOr is_implied (one_of name.now (rows_of (found_of matches.now))) result }
{
    if is_implied {
        return true;
    }
    is_there(matches, name)
}

/// What the arguments of `create` ask for.
fn creation_of<'a>(matches: &ArgMatches<'a>) -> Creation<'a>
    ensures found { IsCreation (rows_of (found_of matches.now)) result }
{
    Creation {
        folder: word_of(matches, "DIR"),
        collectors: number_of(matches, "collectors", 1, MAX_COLLECTORS) as u8,
        ring: number_of(matches, "ring", MIN_RING, MAX_RING) as u16,
        pages: number_of(matches, "pages", 1, MAX_SIZE),
        blocks: number_of(matches, "blocks", 1, MAX_SIZE),
    }
}

/// The texts of this name. No clause of `clap`'s promises that there is one.
fn texts_of<'a>(
    alloc: Global,
    matches: &ArgMatches<'a>,
    name: &str,
) -> Result<Vec<&'a str>, AllocError>
    ensures texts { IfOk result (λ texts. map (λ t. t.now) texts.items ≡ unwrap_or (all_of name.now (rows_of (found_of matches.now))) []) }
{
    matches.get_strs(name).unwrap_or(&[]).to_vec(alloc)
}

/// What the arguments of `load` ask for, whose files are these.
fn loading_of<'a>(matches: &ArgMatches<'a>, files: Vec<&'a str>) -> Result<Loading<'a>, BadText>
    requires files { map (λ f. f.now) files.items ≡ unwrap_or (all_of (codes "FILE") (rows_of (found_of matches.now))) [] }
    ensures found { IfOk result (IsLoading (rows_of (found_of matches.now))) }
    ensures none { OnErr result (IsNoMark (first_of (codes "mark") (rows_of (found_of matches.now)))) }
{
    let mark = mark_of(matches.get_str("mark"))?;
    Ok(Loading {
        folder: word_of(matches, "DIR"),
        collector: number_of(matches, "collector", 0, LAST_COLLECTOR) as u8,
        batch: number_of(matches, "batch", 1, MAX_BATCH) as usize,
        wait: number_of(matches, "wait", 0, MAX_WAIT),
        mark,
        resume: is_there(matches, "resume"),
        lose_entries: is_there(matches, "lose-entries"),
        strict: is_there(matches, "strict"),
        files,
    })
}

/// What the arguments of `ask` ask for.
fn question_of<'a>(alloc: Global, matches: &ArgMatches<'a>) -> Result<Question<'a>, AllocError>
    ensures found { IfOk result (IsQuestion (rows_of (found_of matches.now))) }
{
    let folder = word_of(matches, "DIR");
    // No clause of clap's promises that there is a WORD, either.
    let words = matches.get_strs("WORD").unwrap_or(&[]);
    let line = line_of(alloc, words)?;
    let wait = number_of(matches, "wait", 0, MAX_WAIT);
    let all = is_there(matches, "all");
    let human = is_there(matches, "human");
    Ok(Question {
        wait,
        folder,
        all,
        human,
        line,
    })
}

/// Which text of `serve` isn't an address and port.
#[derive(Clone, Copy)]
enum BadAddress {
    Listen,
    /// Or it is that of `--listen`.
    Http,
}

/// What the arguments of `serve` ask for.
fn serving_of<'a>(matches: &ArgMatches<'a>) -> Result<Serving<'a>, BadAddress>
    ensures found { IfOk result (IsServing (rows_of (found_of matches.now))) }
    ensures listen { result ≡ Err BadAddress.Listen → IsNoListenText (word_in (codes "listen") (rows_of (found_of matches.now))) }
    ensures http { result ≡ Err BadAddress.Http → HasNoHttp (rows_of (found_of matches.now)) }
{
    let Ok(listen) = read_listen(word_of(matches, "listen")) else {
        return Err(BadAddress::Listen);
    };
    let Ok(http) = read_http(listen, text_of(matches, "http")) else {
        return Err(BadAddress::Http);
    };
    let read_only = is_there(matches, "read-only");
    Ok(Serving {
        folder: word_of(matches, "DIR"),
        listen,
        workers: number_of(matches, "workers", 1, MAX_WORKERS) as u8,
        wait: number_of(matches, "wait", 0, MAX_WAIT),
        read_only,
        close_on_http: is_there_or(matches, read_only, "close-on-http"),
        admin: text_of(matches, "admin"),
        http,
        idle: number_of(matches, "idle", 1, MAX_IDLE) as u32,
    })
}

/// What the arguments of `check` ask for.
fn checking_of<'a>(matches: &ArgMatches<'a>) -> Checking<'a>
    ensures found { IsChecking (rows_of (found_of matches.now)) result }
{
    Checking {
        folder: word_of(matches, "DIR"),
        wait: number_of(matches, "wait", 0, MAX_WAIT),
    }
}

/// What the arguments of `info` ask for.
fn examining_of<'a>(matches: &ArgMatches<'a>) -> Examining<'a>
    ensures found { IsExamining (rows_of (found_of matches.now)) result }
{
    Examining {
        folder: word_of(matches, "DIR"),
        json: is_there(matches, "json"),
        wait: number_of(matches, "wait", 0, MAX_WAIT),
    }
}

/// Where the archive is that the arguments name: in a folder, or, with `--connect`, at the address and port of a server.
fn target_of<'a>(matches: &ArgMatches<'a>) -> Result<Target<'a>, BadText>
    ensures found { IfOk result (IsTarget (rows_of (found_of matches.now))) }
    ensures none { OnErr result (HasNoServer (rows_of (found_of matches.now))) }
{
    let word = word_of(matches, "DIR");
    if !is_there(matches, "connect") {
        return Ok(Target::Folder(word));
    }
    let Ok(place) = read_listen(word) else {
        return Err(BadText);
    };
    Ok(Target::Server(place))
}

/// What the arguments of `dump` ask for, of this archive.
fn dumping_of<'a>(
    alloc: Global,
    matches: &ArgMatches<'a>,
    target: Target<'a>,
) -> Result<Dumping<'a>, AllocError>
    requires target { IsTarget (rows_of (found_of matches.now)) target }
    ensures found { IfOk result (IsDumping (rows_of (found_of matches.now))) }
{
    let peer = texts_of(alloc, matches, "peer")?;
    Ok(Dumping {
        wait: number_of(matches, "wait", 0, MAX_WAIT),
        target,
        at: text_of(matches, "at"),
        peer,
        format: word_of(matches, "format"),
    })
}

/// What the arguments of `peers` ask for, of this archive.
fn listing_of<'a>(matches: &ArgMatches<'a>, target: Target<'a>) -> Listing<'a>
    requires target { IsTarget (rows_of (found_of matches.now)) target }
    ensures found { IsListing (rows_of (found_of matches.now)) result }
{
    Listing {
        wait: number_of(matches, "wait", 0, MAX_WAIT),
        target,
        at: text_of(matches, "at"),
    }
}

/// What the arguments of `diff` ask for, of this archive.
fn comparing_of<'a>(matches: &ArgMatches<'a>, target: Target<'a>) -> Comparing<'a>
    requires target { IsTarget (rows_of (found_of matches.now)) target }
    ensures found { IsComparing (rows_of (found_of matches.now)) result }
{
    Comparing {
        wait: number_of(matches, "wait", 0, MAX_WAIT),
        target,
        from: word_of(matches, "FROM"),
        to: word_of(matches, "TO"),
        within: text_of(matches, "within"),
    }
}

/// What the arguments of `find` ask for, of this archive.
fn finding_of<'a>(matches: &ArgMatches<'a>, target: Target<'a>) -> Finding<'a>
    requires target { IsTarget (rows_of (found_of matches.now)) target }
    ensures found { IsFinding (rows_of (found_of matches.now)) result }
{
    Finding {
        wait: number_of(matches, "wait", 0, MAX_WAIT),
        target,
        prefix: word_of(matches, "PREFIX"),
        exact: is_there(matches, "exact"),
        more: is_there(matches, "more"),
        less: is_there(matches, "less"),
        since: text_of(matches, "since"),
        until: text_of(matches, "until"),
        origin: text_of(matches, "origin"),
        via: text_of(matches, "via"),
    }
}

/// What the command that is named asks for.
fn invocation_of<'a>(
    alloc: Global,
    matches: &ArgMatches<'a>,
) -> Result<Invocation<'a>, CommandError>
    requires named { IsCommand (subcommand_name_of matches.now) }
    ensures found { IfOk result (AsksFor (subcommand_rows_of matches.now)) }
    ensures used { (e : Error) → result ≡ Err (CommandError.Usage e) → ⊥ }
    ensures bad_mark { result ≡ Err CommandError.BadMark → NamesNoMark (subcommand_rows_of matches.now) }
    ensures bad_listen { result ≡ Err CommandError.BadListen → NamesNoListen (subcommand_rows_of matches.now) }
    ensures bad_http { result ≡ Err CommandError.BadHttp → NamesNoHttp (subcommand_rows_of matches.now) }
    ensures bad_connect { result ≡ Err CommandError.BadConnect → NamesNoServer (subcommand_rows_of matches.now) }
{
    if let Some(matches) = matches.subcommand_matches("create") {
        return Ok(Invocation::Create(creation_of(matches)));
    }
    if let Some(matches) = matches.subcommand_matches("load") {
        let Ok(files) = texts_of(alloc, matches, "FILE") else {
            return Err(CommandError::OutOfMemory);
        };
        return match loading_of(matches, files) {
            Ok(loading) => Ok(Invocation::Load(loading)),
            Err(BadText) => Err(CommandError::BadMark),
        };
    }
    if let Some(matches) = matches.subcommand_matches("ask") {
        return match question_of(alloc, matches) {
            Ok(question) => Ok(Invocation::Ask(question)),
            Err(_) => Err(CommandError::OutOfMemory),
        };
    }
    if let Some(matches) = matches.subcommand_matches("serve") {
        return match serving_of(matches) {
            Ok(serving) => Ok(Invocation::Serve(serving)),
            Err(BadAddress::Listen) => Err(CommandError::BadListen),
            Err(BadAddress::Http) => Err(CommandError::BadHttp),
        };
    }
    if let Some(matches) = matches.subcommand_matches("check") {
        return Ok(Invocation::Check(checking_of(matches)));
    }
    if let Some(matches) = matches.subcommand_matches("info") {
        return Ok(Invocation::Info(examining_of(matches)));
    }
    if let Some(matches) = matches.subcommand_matches("dump") {
        return match target_of(matches) {
            Ok(target) => match dumping_of(alloc, matches, target) {
                Ok(dumping) => Ok(Invocation::Dump(dumping)),
                Err(_) => Err(CommandError::OutOfMemory),
            },
            Err(BadText) => Err(CommandError::BadConnect),
        };
    }
    if let Some(matches) = matches.subcommand_matches("peers") {
        return match target_of(matches) {
            Ok(target) => Ok(Invocation::Peers(listing_of(matches, target))),
            Err(BadText) => Err(CommandError::BadConnect),
        };
    }
    if let Some(matches) = matches.subcommand_matches("diff") {
        return match target_of(matches) {
            Ok(target) => Ok(Invocation::Diff(comparing_of(matches, target))),
            Err(BadText) => Err(CommandError::BadConnect),
        };
    }
    let Some(matches) = matches.subcommand_matches("find") else {
        unreachable!()
    };
    match target_of(matches) {
        Ok(target) => Ok(Invocation::Find(finding_of(matches, target))),
        Err(BadText) => Err(CommandError::BadConnect),
    }
}

/// What an error of `clap` is.
fn usage(error: clap::Error) -> CommandError
    ensures memory { kind_of error ≡ ErrorKind.OutOfMemory → result ≡ CommandError.OutOfMemory }
    ensures reported { (kind_of error ≡ ErrorKind.OutOfMemory) ⊎ (result ≡ CommandError.Usage error) }
{
    match error.kind() {
        ErrorKind::OutOfMemory => CommandError::OutOfMemory,
        _ => CommandError::Usage(error),
    }
}

/// What the words of the command line ask for, the first of them being the program's name:
///
/// - `rha create DIR [--collectors N] [--ring P] [--pages N] [--blocks N]`
/// - `rha load DIR --collector C [--batch N] [--mark M] [--resume] [--lose-entries] [--strict] FILE..`
/// - `rha ask DIR [--all] [--human] WORD..`
/// - `rha serve DIR --listen ADDRESS:PORT --workers N [--read-only] [--close-on-http] [--admin PATH] [--http ADDRESS:PORT] [--idle SECONDS]`
/// - `rha check DIR`
/// - `rha info DIR [--json]`
/// - `rha dump DIR [--connect] [--at T] [--peer COLLECTOR ADDRESS AS] [--format FORM]`
/// - `rha peers DIR [--connect] [--at T]`
/// - `rha diff DIR [--connect] FROM TO [--within PREFIX]`
/// - `rha find DIR [--connect] PREFIX [--exact] [--more] [--less] [--since A] [--until B] [--origin AS] [--via AS]`
///
/// Each but `create` takes `--wait SECONDS` too, 0 to 1000000; in `ask` before the first WORD. The default is 0.
///
/// `clap` reads the words, and each number within its limits; an option that isn't there has its default: 1 collector, a ring of 4096
/// pages, 10000000 pages, 100000000 blocks, batches of 1000, 300 idle seconds. `--read-only` implies `--close-on-http`. Then M is read as a mark, ADDRESS as an IPv4 address and PORT as a number
/// of at most 65535, and so is DIR with `--connect`; the WORDs are joined to a line with one space between two; the texts of `dump`, `peers`, `diff` and
/// `find` aren't read here. All arguments after the first WORD are WORDs too, even
/// if they look like options.
///
/// # Errors
///
/// `Usage` if `clap` doesn't accept the words, or they ask for help. `BadMark` if M isn't a mark,
/// `BadListen` if ADDRESS:PORT isn't an address and port, `BadHttp` if that of `--http` isn't, or is that of `--listen` (and the
/// port isn't 0), `BadConnect` if DIR isn't with `--connect`, and `OutOfMemory` if an allocation failed.
pub fn command<'a, S: AsStr>(alloc: Global, words: &'a [S]) -> Result<Invocation<'a>, CommandError>
    ensures found { IfOk result (IsInvocation (map S.text words.now)) }
    ensures usage { (e : Error) → result ≡ Err (CommandError.Usage e) → IsAmong (kind_of e) (fault_of program (map S.text words.now)) }
    ensures bad_mark { result ≡ Err CommandError.BadMark → HasBadMark (map S.text words.now) }
    ensures bad_listen { result ≡ Err CommandError.BadListen → HasBadListen (map S.text words.now) }
    ensures bad_http { result ≡ Err CommandError.BadHttp → HasBadHttp (map S.text words.now) }
    ensures bad_connect { result ≡ Err CommandError.BadConnect → HasBadConnect (map S.text words.now) }
{
    let Ok(program) = program(alloc) else {
        return Err(CommandError::OutOfMemory);
    };
    match program.try_get_matches_from(words) {
        Ok(matches) => invocation_of(alloc, &matches),
        Err(error) => Err(usage(error)),
    }
}
