//! What `clap` prints of a command line: help, the version, and why words aren't accepted.

use crate::be;
use crate::commands::words_of;
use clap::error::ErrorKind;
use service::{CommandError, command};
use std::alloc::Global;

/// Words of which `clap` prints something: the kind of its error, the exit status, and the text, whose end several share.
struct Shown {
    /// With lines between them.
    words: &'static str,
    kind: ErrorKind,
    code: u8,
    text: &'static str,
    end: &'static str,
}

const HELP: &str = "A route history archive for BGP

Usage: rha <COMMAND>

Commands:
  create  Makes the folder DIR, which isn't there yet, with an empty archive
  load    Loads files of MRT records as a collector's
  ask     Answers a request line
  serve   Serves an archive on a socket, until a client asks it to stop
  check   Reads through an archive, and reports the first damage
  info    Shows how far an archive has come, and how much room it has left
  dump    Writes the table of one moment
  peers   Counts the routes of each peer that has one at a moment
  diff    Compares the tables of two moments
  find    Finds what happened to a prefix, or which routes it has

Options:
  -h, --help     Print help
  -V, --version  Print version

Example:
  rha create a
  rha load a --collector 0 --mark 2024-01-01T00:15:00Z updates.mrt
  rha ask a at 2024-01-01T00:10:00Z prefix 10.0.0.0/8
  rha check a
  rha info a
  rha dump a --format bgpdump
  rha find a 10.0.0.0/8 --more --since 2024-01-01T00:00:00Z
  rha serve a --listen 127.0.0.1:17900 --workers 4 --read-only --admin a.sock

`rha COMMAND --help` has the limits of a command, its defaults and its exit statuses.

Exit status: 0 if everything succeeded, 1 if something was refused or couldn't be written (printed on standard
error as `rha: NUMBER NAME` if it has no line of its own), 2 if the command line isn't accepted.
";

const CREATE_HELP: &str = "Makes the folder DIR, which isn't there yet, with an empty archive

Usage: rha create [OPTIONS] <DIR>

Arguments:
  <DIR>  The folder of the archive

Options:
      --collectors <N>  How many collectors there will be, 1 to 16 [default: 1]
      --ring <P>        The pages of each collector's ring, 9 to 65535 [default: 4096]
      --pages <N>       The pages of the archive, its rings' included, 1 to 1000000000 [default: 10000000]
      --blocks <N>      The write-once blocks of the archive, 1 to 1000000000 [default: 100000000]
  -h, --help            Print help

Pages and blocks have 16384 octets each, and take room on the disk as they are used: unused ones take none,
however many there are. A collector's records wait in its ring until they may be applied; a table dump of one
moment waits there whole. There must be a page for each page of each ring and 3 more. Nothing is left if the
archive can't be made. Prints `created COLLECTORS RING PAGES BLOCKS`.

The files have holes, which a copy has to keep: `cp -a --sparse=always`, `tar -cS`, `rsync -aS`.

Example:
  rha create a --collectors 2

Exit status: 0 if the archive is made; 1 if it is refused, printed on standard error as
`rha: NUMBER NAME`; 2 if the command line isn't accepted.
";

const LOAD_HELP: &str = "Loads files of MRT records as a collector's

Usage: rha load [OPTIONS] --collector <C> <DIR> <FILE>...

Arguments:
  <DIR>      The folder of the archive
  <FILE>...  The MRT files to load, in their order; - is standard input

Options:
      --wait <SECONDS>  How many seconds to wait for the archive while it is in use, 0 to 1000000 [default: 0]
      --collector <C>   The collector's number, 0 to 15
      --batch <N>       The most records of a batch, 1 to 1000 [default: 1000]
      --mark <M>        The collector's mark once the last FILE is loaded
      --resume          Goes on after the records that were offered before
      --lose-entries    Leaves table entries without a next hop out
      --strict          Ends at a FILE that gives cause for doubt, and sets no mark then
  -h, --help            Print help

M is seconds since 1970, 0 to 4294967296, with a fraction of up to six digits or without, or a timestamp as
2024-01-01T00:00:00Z. It is set once the last FILE was read to its end: what the collector gives later isn't of
earlier moments. After a table of the moment T it is T.000001. A mark can't be set back. A FILE may be a
pipe; - is standard input.
Each FILE is a feed of its own, with its own lines. One that can't be read or ends inside a record ends the load, as
other refusals do: no mark is set, and standard error shows which FILEs were not read.
With --strict the load ends so, too, at a FILE without a record, one whose records came late or were skipped and none
is kept, or one of which more than one record in a hundred is refused; and a mark isn't set that is more than a day
after the collector's last record or mark. Without it standard error warns of these.
With --resume, the FILEs are all that the collector ever gave, from its beginning, in this order: as many of their
first records as were offered before are left out, so an interrupted load goes on.
With --lose-entries, an entry of a table dump that has no next hop is left out, and the others of its record are
loaded; without it the whole record is refused. Standard error has a line with how many were left out.

Prints for each FILE, each line as soon as it is true:
  B|FROM|TO|OFFERED          a batch is kept: its records have the numbers FROM to below TO
  L|INDEX|TIME|MARK          after it: the record at this place of the batch came late
  X|NUMBER|NAME|RECORD       a record is refused, or the file ends in one
  F|RECORDS|ADMITTED|LATE|REFUSED|SKIPPED
  S|SETTLED                  questions of moments below this one are answered

Examples:
  rha load a --collector 0 --mark 2024-01-01T00:15:00Z updates.mrt
  rha load a --collector 0 --strict --mark 2024-01-02T00:00:00Z updates.20240101.*.mrt

Exit status: 0 if each FILE was read to its end, also if records of it were late or refused; 1 if one ends
inside a record, --strict ends the load, or something else was refused or couldn't be written (shown on
standard error as `rha: NUMBER NAME` if it has no line of its own); 2 if the command line isn't accepted.
";

const ASK_HELP: &str = "Answers a request line

Usage: rha ask [OPTIONS] <DIR> <WORD>...

Arguments:
  <DIR>      The folder of the archive
  <WORD>...  The words of a request line

Options:
      --wait <SECONDS>  How many seconds to wait for the archive while it is in use, 0 to 1000000 [default: 0]
      --all             Follows `M` to the end: all rows or events, and not the first 256
      --human           Dates, and communities as texts, for a person
  -h, --help            Print help

The words are one request line:
  at T route PEER PREFIX           the peer's route for the prefix
  at T prefix PREFIX               every peer's route for the prefix
  at T cover ADDRESS               every peer's route for each prefix that contains the address
  at T peer PEER                   all routes of the peer
  at T all                         all routes of all peers
  history FROM TO PEER PREFIX      what the peer announced and withdrew, FROM and TO included
  changed FROM TO LOW HIGH         which prefixes from LOW to HIGH each peer announced or withdrew then
  watermark                        the settled watermark
  durable COLLECTOR                how many records of the collector are admitted
The last four of `at`, and `changed`, may end with `after PEER PREFIX`, which goes on after that row or place, and
`history` with `skip N`, which leaves the first N events out: an answer has 256 of them at most. With --all each next
line is asked, and the answer has all and one end, `E|COUNT`. With --human moments are dates, and communities are
texts (65001:7); programs read the lines without it.
PEER is COLLECTOR ADDRESS AS; PREFIX, LOW and HIGH are ADDRESS/LENGTH. T, FROM and TO are moments: seconds since
1970, with a fraction of up to six digits or without, or timestamps as 2024-01-01T00:00:00Z. T and TO have to be
below the settled watermark.

Examples:
  rha ask a at 2024-01-01T00:10:00Z prefix 10.0.0.0/8
  rha ask a --all at 2024-01-01T00:10:00Z cover 10.0.0.1

Exit status: 0 if the line is answered; 1 if it is refused (`X|NUMBER|NAME`), or something else was
refused or couldn't be written (printed on standard error as `rha: NUMBER NAME`); 2 if the command line
isn't accepted.
";

const SERVE_HELP: &str = "Serves an archive on a socket, until a client asks it to stop

Usage: rha serve [OPTIONS] --listen <ADDRESS:PORT> --workers <N> <DIR>

Arguments:
  <DIR>  The folder of the archive

Options:
      --wait <SECONDS>         How many seconds to wait for the archive while it is in use, 0 to 1000000 [default: 0]
      --listen <ADDRESS:PORT>  The IPv4 address to listen on, and the port, 0 to 65535
      --workers <N>            How many connections are served at once, 1 to 16
      --read-only              Refuses feed, mark and stop there; implies --close-on-http
      --close-on-http          Ends a connection after a request of HTTP
      --admin <PATH>           A Unix socket to make, which takes every line, also feed, mark and stop
      --http <ADDRESS:PORT>    A further IPv4 address and port, which answer HTTP alone, read-only
      --idle <SECONDS>         After how many seconds an idle connection is ended, 1 to 1000000 [default: 300]
  -h, --help                   Print help

Prints `listening ADDRESS:PORT` as soon as connections are accepted, and with --http after it ` http ADDRESS:PORT`;
the system chooses a free port if PORT is 0. No other command can open the archive meanwhile: what is to be
loaded is fed through a connection, and dump, peers, diff and find ask with --connect ADDRESS:PORT. Each of N workers
serves one connection to its end, and further ones wait: a client that stays connected keeps a worker.

A connection sends request lines (`rha ask --help`), of which `watermark` and `durable` wait for nobody, and:
  mark COLLECTOR M                 raises the collector's mark, applies what may be applied, and replies S|SETTLED
  feed COLLECTOR N                 what follows is MRT, kept in batches of 1 to 1000 records; then it ends
  quit                             ok, and it ends
  stop                             ok, and the server ends once all connections have ended
A line ends in LF, and has 4096 octets at most with it.

There are no users: who can connect can send all of these. With --read-only the port refuses mark, feed and stop
(X|28|BadRequest), and the operator sends them to the socket PATH, which is its owner's alone (mode 0600) and has
workers of its own. With --close-on-http a line that ends in HTTP/1.0 or HTTP/1.1 ends its connection, so that a
page in a browser can't send lines by HTTP. --idle ends a connection that sends nothing, or doesn't read, for so
long, since it keeps a worker.

With --http N more workers answer requests of HTTP at that port, which can't be that of --listen: GET of
/api/prefix and other questions, and of /api/info, as JSON, and of /metrics. Nothing can be changed there.

Examples:
  rha serve a --listen 127.0.0.1:17900 --workers 4 --read-only --admin a.sock --http 127.0.0.1:17980
  (echo feed 0 1000; cat updates.mrt) | nc -NU a.sock
  echo at 2024-01-01T00:10:00Z all | nc -N 127.0.0.1 17900
  curl http://127.0.0.1:17980/api/info

Exit status: 0 if a client stopped the server; 1 if the archive can't be opened, an address or PATH
can't be listened on or something else was refused (printed on standard error as `rha: NUMBER NAME`); 2 if
the command line isn't accepted.
";

const CHECK_HELP: &str = "Reads through an archive, and reports the first damage

Usage: rha check [OPTIONS] <DIR>

Arguments:
  <DIR>  The folder of the archive

Options:
      --wait <SECONDS>  How many seconds to wait for the archive while it is in use, 0 to 1000000 [default: 0]
  -h, --help            Print help

Reads all pending records, and every page and block that answers come from, and counts the changes in these.
First it looks at the journal's open slots. It changes no later answer.
Prints `ok|CHANGES|SETTLED`: how many changes are applied, and the settled watermark.

Example:
  rha check a

Exit status: 0 if all could be read, and has as many changes as were applied; 1 if a block or a page isn't
a valid node there, which standard error shows as `rha: 8 Damaged` or `rha: 9 BadNode`, or something
else was refused or couldn't be written (`rha: NUMBER NAME`); 2 if the command line isn't accepted.
";

const INFO_HELP: &str = "Shows how far an archive has come, and how much room it has left

Usage: rha info [OPTIONS] <DIR>

Arguments:
  <DIR>  The folder of the archive

Options:
      --wait <SECONDS>  How many seconds to wait for the archive while it is in use, 0 to 1000000 [default: 0]
      --json            Prints one object of JSON, for programs
  -h, --help            Print help

Prints lines for a person: the settled watermark, how many changes are applied and the times of the first and the
last one, how many pages and blocks are used of how many, how many slots of the journal were open before this
command, and of each collector its mark, its records and how much of its ring is used. With --json, the same as one
object in one line.

Example:
  rha info a

Exit status: 0 if the archive could be read; 1 if something was refused or couldn't be written (printed on
standard error as `rha: NUMBER NAME`); 2 if the command line isn't accepted.
";

/// What is printed of a wrong use ends with a usage: of the program, of what a command requires, or of all that it takes.
const USAGE_END: &str = "\n\nUsage: rha <COMMAND>\n\nFor more information, try '--help'.\n";

const CREATE_END: &str = "\n\nUsage: rha create <DIR>\n\nFor more information, try '--help'.\n";

const LOAD_END: &str =
    "\n\nUsage: rha load [OPTIONS] --collector <C> <DIR> <FILE>...\n\nFor more information, try '--help'.\n";

const ASK_END: &str = "\n\nUsage: rha ask <DIR> <WORD>...\n\nFor more information, try '--help'.\n";

const SERVE_END: &str =
    "\n\nUsage: rha serve --listen <ADDRESS:PORT> --workers <N> <DIR>\n\nFor more information, try '--help'.\n";

const SERVE_OPTIONS_END: &str =
    "\n\nUsage: rha serve [OPTIONS] --listen <ADDRESS:PORT> --workers <N> <DIR>\n\nFor more information, try '--help'.\n";

const CHECK_OPTIONS_END: &str =
    "\n\nUsage: rha check [OPTIONS] <DIR>\n\nFor more information, try '--help'.\n";

const CHECK_END: &str = "\n\nUsage: rha check <DIR>\n\nFor more information, try '--help'.\n";

const MORE_END: &str = "\n\nFor more information, try '--help'.\n";

/// Help and the version.
const ASKED_FOR: [Shown; 9] = [
    Shown {
        words: "rha|--help",
        kind: ErrorKind::DisplayHelp,
        code: 0,
        text: HELP,
        end: "",
    },
    Shown {
        words: "rha|-h",
        kind: ErrorKind::DisplayHelp,
        code: 0,
        text: HELP,
        end: "",
    },
    Shown {
        words: "rha|create|--help",
        kind: ErrorKind::DisplayHelp,
        code: 0,
        text: CREATE_HELP,
        end: "",
    },
    Shown {
        words: "rha|load|--help",
        kind: ErrorKind::DisplayHelp,
        code: 0,
        text: LOAD_HELP,
        end: "",
    },
    Shown {
        words: "rha|ask|--help",
        kind: ErrorKind::DisplayHelp,
        code: 0,
        text: ASK_HELP,
        end: "",
    },
    Shown {
        words: "rha|serve|--help",
        kind: ErrorKind::DisplayHelp,
        code: 0,
        text: SERVE_HELP,
        end: "",
    },
    Shown {
        words: "rha|check|--help",
        kind: ErrorKind::DisplayHelp,
        code: 0,
        text: CHECK_HELP,
        end: "",
    },
    Shown {
        words: "rha|info|--help",
        kind: ErrorKind::DisplayHelp,
        code: 0,
        text: INFO_HELP,
        end: "",
    },
    Shown {
        words: "rha|--version",
        kind: ErrorKind::DisplayVersion,
        code: 0,
        text: "rha 0.3.0\n",
        end: "",
    },
];

/// Words that aren't accepted.
const WRONG: [Shown; 16] = [
    Shown {
        words: "rha",
        kind: ErrorKind::MissingSubcommand,
        code: 2,
        text: "error: 'rha' requires a subcommand but one was not provided\n  [subcommands: create, load, ask, serve, check, info, dump, peers, diff, find]",
        end: USAGE_END,
    },
    Shown {
        words: "rha|try|a.mrt|at",
        kind: ErrorKind::InvalidSubcommand,
        code: 2,
        text: "error: unrecognized subcommand 'try'",
        end: USAGE_END,
    },
    Shown {
        words: "rha|help",
        kind: ErrorKind::InvalidSubcommand,
        code: 2,
        text: "error: unrecognized subcommand 'help'",
        end: USAGE_END,
    },
    Shown {
        words: "rha|create",
        kind: ErrorKind::MissingRequiredArgument,
        code: 2,
        text: "error: the following required arguments were not provided:\n  <DIR>",
        end: CREATE_END,
    },
    Shown {
        words: "rha|load|a|a.mrt",
        kind: ErrorKind::MissingRequiredArgument,
        code: 2,
        text: "error: the following required arguments were not provided:\n  --collector <C>",
        end: "\n\nUsage: rha load --collector <C> <DIR> <FILE>...\n\nFor more information, try '--help'.\n",
    },
    Shown {
        words: "rha|load|a|--collector|0",
        kind: ErrorKind::MissingRequiredArgument,
        code: 2,
        text: "error: the following required arguments were not provided:\n  <FILE>...",
        end: "\n\nUsage: rha load --collector <C> <DIR> <FILE>...\n\nFor more information, try '--help'.\n",
    },
    Shown {
        words: "rha|ask|a",
        kind: ErrorKind::MissingRequiredArgument,
        code: 2,
        text: "error: the following required arguments were not provided:\n  <WORD>...",
        end: ASK_END,
    },
    Shown {
        words: "rha|serve|a",
        kind: ErrorKind::MissingRequiredArgument,
        code: 2,
        text: "error: the following required arguments were not provided:\n  --listen <ADDRESS:PORT>\n  --workers <N>",
        end: SERVE_END,
    },
    Shown {
        words: "rha|serve|a|127.0.0.1:0|--workers=1",
        kind: ErrorKind::UnknownArgument,
        code: 2,
        text: "error: unexpected argument '127.0.0.1:0' found",
        end: SERVE_OPTIONS_END,
    },
    Shown {
        words: "rha|serve|a|--listen=127.0.0.1:0|--workers=1|--admin",
        kind: ErrorKind::InvalidValue,
        code: 2,
        text: "error: a value is required for '--admin <PATH>' but none was supplied",
        end: MORE_END,
    },
    Shown {
        words: "rha|check",
        kind: ErrorKind::MissingRequiredArgument,
        code: 2,
        text: "error: the following required arguments were not provided:\n  <DIR>",
        end: CHECK_END,
    },
    Shown {
        words: "rha|check|a|b",
        kind: ErrorKind::UnknownArgument,
        code: 2,
        text: "error: unexpected argument 'b' found",
        end: CHECK_OPTIONS_END,
    },
    Shown {
        words: "rha|check|a|--collector=0",
        kind: ErrorKind::UnknownArgument,
        code: 2,
        text: "error: unexpected argument '--collector' found\n\n  tip: to pass '--collector' as a value, use '-- --collector'",
        end: CHECK_END,
    },
    Shown {
        words: "rha|load|a|--collector=0|--collector=0|a.mrt",
        kind: ErrorKind::ArgumentConflict,
        code: 2,
        text: "error: the argument '--collector <C>' cannot be used multiple times",
        end: LOAD_END,
    },
    Shown {
        words: "rha|load|a|--collector=0|--resume|--resume|a.mrt",
        kind: ErrorKind::ArgumentConflict,
        code: 2,
        text: "error: the argument '--resume' cannot be used multiple times",
        end: LOAD_END,
    },
    Shown {
        words: "rha|load|a|--collector=0|--resume=no|a.mrt",
        kind: ErrorKind::TooManyValues,
        code: 2,
        text: "error: unexpected value 'no' for '--resume' found; no more were expected",
        end: "\n\nUsage: rha load --collector <C> --resume <DIR> <FILE>...\n\nFor more information, try '--help'.\n",
    },
];

/// An option whose number is beyond its limits, or is none, after words that need it, and what is printed of it.
const BEYOND: [(&str, &str); 20] = [
    (
        "rha|create|a|--collectors=0",
        "'0' for '--collectors <N>': 0 is not in 1..=16",
    ),
    (
        "rha|create|a|--collectors=17",
        "'17' for '--collectors <N>': 17 is not in 1..=16",
    ),
    (
        "rha|create|a|--ring=8",
        "'8' for '--ring <P>': 8 is not in 9..=65535",
    ),
    (
        "rha|create|a|--ring=65536",
        "'65536' for '--ring <P>': 65536 is not in 9..=65535",
    ),
    (
        "rha|create|a|--pages=0",
        "'0' for '--pages <N>': 0 is not in 1..=1000000000",
    ),
    (
        "rha|create|a|--pages=1000000001",
        "'1000000001' for '--pages <N>': 1000000001 is not in 1..=1000000000",
    ),
    (
        "rha|create|a|--blocks=0",
        "'0' for '--blocks <N>': 0 is not in 1..=1000000000",
    ),
    (
        "rha|create|a|--blocks=1000000001",
        "'1000000001' for '--blocks <N>': 1000000001 is not in 1..=1000000000",
    ),
    (
        "rha|load|a|--collector=16",
        "'16' for '--collector <C>': 16 is not in 0..=15",
    ),
    (
        "rha|load|a|--collector=256",
        "'256' for '--collector <C>': 256 is not in 0..=15",
    ),
    (
        "rha|load|a|--collector=",
        "'' for '--collector <C>': cannot parse integer from empty string",
    ),
    (
        "rha|load|a|--collector=one",
        "'one' for '--collector <C>': invalid digit found in string",
    ),
    (
        "rha|load|a|--batch=0",
        "'0' for '--batch <N>': 0 is not in 1..=1000",
    ),
    (
        "rha|load|a|--batch=1001",
        "'1001' for '--batch <N>': 1001 is not in 1..=1000",
    ),
    (
        "rha|serve|a|--workers=0",
        "'0' for '--workers <N>': 0 is not in 1..=16",
    ),
    (
        "rha|serve|a|--workers=17",
        "'17' for '--workers <N>': 17 is not in 1..=16",
    ),
    (
        "rha|serve|a|--idle=0",
        "'0' for '--idle <SECONDS>': 0 is not in 1..=1000000",
    ),
    (
        "rha|serve|a|--idle=1000001",
        "'1000001' for '--idle <SECONDS>': 1000001 is not in 1..=1000000",
    ),
    (
        "rha|ask|a|--wait=1000001|watermark",
        "'1000001' for '--wait <SECONDS>': 1000001 is not in 0..=1000000",
    ),
    (
        "rha|check|a|--wait=1.5",
        "'1.5' for '--wait <SECONDS>': invalid digit found in string",
    ),
];

/// Whether `clap` refuses the words by an error of this kind, with this status and these three parts of a text.
fn is_printed(
    alloc: Global,
    words: &str,
    kind: ErrorKind,
    code: u8,
    front: &str,
    text: &str,
    end: &str,
) -> Option<bool> {
    let words = words_of(alloc, words)?;
    let Err(error) = command(alloc, words.as_slice()) else {
        return Some(false);
    };
    let is_kind = match &error {
        CommandError::Usage(usage) => usage.kind() == kind,
        CommandError::BadMark
        | CommandError::BadListen
        | CommandError::BadHttp
        | CommandError::BadConnect
        | CommandError::OutOfMemory => false,
    };
    let shown = format!(in alloc; "{error}").ok()?;
    let middle = shown.as_str().strip_prefix(front)?.strip_suffix(end)?;
    Some(is_kind && error.code() == code && middle == text)
}

/// Whether it is printed as it has to be.
fn is_shown(alloc: Global, expected: &Shown) -> bool {
    let Shown {
        words,
        kind,
        code,
        text,
        end,
    } = *expected;
    is_printed(alloc, words, kind, code, "", text, end) == Some(true)
}

#[test]
fn help_is_shown(rt: HostRuntime) {
    for expected in &ASKED_FOR {
        be(&rt, is_shown(rt.alloc(), expected), expected.text);
    }
}

#[test]
fn other_words_are_refused(rt: HostRuntime) {
    for expected in &WRONG {
        be(&rt, is_shown(rt.alloc(), expected), expected.text);
    }
}

/// Whether a number beyond its limits is refused so.
fn is_beyond(alloc: Global, words: &str, text: &str) -> bool {
    let front = "error: invalid value ";
    let kind = ErrorKind::ValueValidation;
    is_printed(alloc, words, kind, 2, front, text, MORE_END) == Some(true)
}

#[test]
fn numbers_beyond_their_limits_are_refused(rt: HostRuntime) {
    for (words, text) in &BEYOND {
        be(&rt, is_beyond(rt.alloc(), words, text), text);
    }
}
