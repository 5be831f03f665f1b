//! What the help of the program and of its commands has after what `clap` shows.

/// Of the program.
pub(crate) const PROGRAM: &str = "Example:
  rha create a
  rha load a --collector 0 --mark 2024-01-01T00:15:00Z updates.mrt
  rha ask a at 2024-01-01T00:10:00Z prefix 10.0.0.0/8
  rha check a
  rha info a
  rha dump a --format bgpdump
  rha find a 10.0.0.0/8 --more --since 2024-01-01T00:00:00Z
  rha serve a --listen 127.0.0.1:17900 --workers 4 --read-only --admin a.sock

`rha COMMAND --help` has the limits of a command, its defaults and its exit statuses.

Exit status: 0 if everything succeeded, 1 if something was refused or couldn't be written (printed on standard
error as `rha: NUMBER NAME` if it has no line of its own), 2 if the command line isn't accepted.";

/// Of `create`.
pub(crate) const CREATE: &str =
    "Pages and blocks have 16384 octets each, and take room on the disk as they are used: unused ones take none,
however many there are. A collector's records wait in its ring until they may be applied; a table dump of one
moment waits there whole. There must be a page for each page of each ring and 3 more. Nothing is left if the
archive can't be made. Prints `created COLLECTORS RING PAGES BLOCKS`.

The files have holes, which a copy has to keep: `cp -a --sparse=always`, `tar -cS`, `rsync -aS`.

Example:
  rha create a --collectors 2

Exit status: 0 if the archive is made; 1 if it is refused, printed on standard error as
`rha: NUMBER NAME`; 2 if the command line isn't accepted.";

/// Of `load`.
pub(crate) const LOAD: &str =
    "M is seconds since 1970, 0 to 4294967296, with a fraction of up to six digits or without, or a timestamp as
2024-01-01T00:00:00Z. It is set once the last FILE was read to its end: what the collector gives later isn't of
earlier moments. After a table of the moment T it is T.000001. A mark can't be set back. A FILE may be a
pipe; - is standard input.
Each FILE is a feed of its own, with its own lines. One that can't be read or ends inside a record ends the load, as
other refusals do: no mark is set, and standard error shows which FILEs were not read.
With --strict the load ends so, too, at a FILE without a record, one whose records came late or were skipped and none
is kept, or one of which more than one record in a hundred is refused; and a mark isn't set that is more than a day
after the collector's last record or mark. Without it standard error warns of these.
With --resume, the FILEs are all that the collector ever gave, from its beginning, in this order: as many of their
first records as were offered before are left out, so an interrupted load goes on.
With --lose-entries, an entry of a table dump that has no next hop is left out, and the others of its record are
loaded; without it the whole record is refused. Standard error has a line with how many were left out.

Prints for each FILE, each line as soon as it is true:
  B|FROM|TO|OFFERED          a batch is kept: its records have the numbers FROM to below TO
  L|INDEX|TIME|MARK          after it: the record at this place of the batch came late
  X|NUMBER|NAME|RECORD       a record is refused, or the file ends in one
  F|RECORDS|ADMITTED|LATE|REFUSED|SKIPPED
  S|SETTLED                  questions of moments below this one are answered

Examples:
  rha load a --collector 0 --mark 2024-01-01T00:15:00Z updates.mrt
  rha load a --collector 0 --strict --mark 2024-01-02T00:00:00Z updates.20240101.*.mrt

Exit status: 0 if each FILE was read to its end, also if records of it were late or refused; 1 if one ends
inside a record, --strict ends the load, or something else was refused or couldn't be written (shown on
standard error as `rha: NUMBER NAME` if it has no line of its own); 2 if the command line isn't accepted.";

/// Of `ask`.
pub(crate) const ASK: &str = "The words are one request line:
  at T route PEER PREFIX           the peer's route for the prefix
  at T prefix PREFIX               every peer's route for the prefix
  at T cover ADDRESS               every peer's route for each prefix that contains the address
  at T peer PEER                   all routes of the peer
  at T all                         all routes of all peers
  history FROM TO PEER PREFIX      what the peer announced and withdrew, FROM and TO included
  changed FROM TO LOW HIGH         which prefixes from LOW to HIGH each peer announced or withdrew then
  watermark                        the settled watermark
  durable COLLECTOR                how many records of the collector are admitted
The last four of `at`, and `changed`, may end with `after PEER PREFIX`, which goes on after that row or place, and
`history` with `skip N`, which leaves the first N events out: an answer has 256 of them at most. With --all each next
line is asked, and the answer has all and one end, `E|COUNT`. With --human moments are dates, and communities are
texts (65001:7); programs read the lines without it.
PEER is COLLECTOR ADDRESS AS; PREFIX, LOW and HIGH are ADDRESS/LENGTH. T, FROM and TO are moments: seconds since
1970, with a fraction of up to six digits or without, or timestamps as 2024-01-01T00:00:00Z. T and TO have to be
below the settled watermark.

Examples:
  rha ask a at 2024-01-01T00:10:00Z prefix 10.0.0.0/8
  rha ask a --all at 2024-01-01T00:10:00Z cover 10.0.0.1

Exit status: 0 if the line is answered; 1 if it is refused (`X|NUMBER|NAME`), or something else was
refused or couldn't be written (printed on standard error as `rha: NUMBER NAME`); 2 if the command line
isn't accepted.";

/// Of `serve`.
pub(crate) const SERVE: &str =
    "Prints `listening ADDRESS:PORT` as soon as connections are accepted, and with --http after it ` http ADDRESS:PORT`;
the system chooses a free port if PORT is 0. No other command can open the archive meanwhile: what is to be
loaded is fed through a connection, and dump, peers, diff and find ask with --connect ADDRESS:PORT. Each of N workers
serves one connection to its end, and further ones wait: a client that stays connected keeps a worker.

A connection sends request lines (`rha ask --help`), of which `watermark` and `durable` wait for nobody, and:
  mark COLLECTOR M                 raises the collector's mark, applies what may be applied, and replies S|SETTLED
  feed COLLECTOR N                 what follows is MRT, kept in batches of 1 to 1000 records; then it ends
  quit                             ok, and it ends
  stop                             ok, and the server ends once all connections have ended
A line ends in LF, and has 4096 octets at most with it.

There are no users: who can connect can send all of these. With --read-only the port refuses mark, feed and stop
(X|28|BadRequest), and the operator sends them to the socket PATH, which is its owner's alone (mode 0600) and has
workers of its own. With --close-on-http a line that ends in HTTP/1.0 or HTTP/1.1 ends its connection, so that a
page in a browser can't send lines by HTTP. --idle ends a connection that sends nothing, or doesn't read, for so
long, since it keeps a worker.

With --http N more workers answer requests of HTTP at that port, which can't be that of --listen: GET of
/api/prefix and other questions, and of /api/info, as JSON, and of /metrics. Nothing can be changed there.

Examples:
  rha serve a --listen 127.0.0.1:17900 --workers 4 --read-only --admin a.sock --http 127.0.0.1:17980
  (echo feed 0 1000; cat updates.mrt) | nc -NU a.sock
  echo at 2024-01-01T00:10:00Z all | nc -N 127.0.0.1 17900
  curl http://127.0.0.1:17980/api/info

Exit status: 0 if a client stopped the server; 1 if the archive can't be opened, an address or PATH
can't be listened on or something else was refused (printed on standard error as `rha: NUMBER NAME`); 2 if
the command line isn't accepted.";

/// Of `check`.
pub(crate) const CHECK: &str =
    "Reads all pending records, and every page and block that answers come from, and counts the changes in these.
First it looks at the journal's open slots. It changes no later answer.
Prints `ok|CHANGES|SETTLED`: how many changes are applied, and the settled watermark.

Example:
  rha check a

Exit status: 0 if all could be read, and has as many changes as were applied; 1 if a block or a page isn't
a valid node there, which standard error shows as `rha: 8 Damaged` or `rha: 9 BadNode`, or something
else was refused or couldn't be written (`rha: NUMBER NAME`); 2 if the command line isn't accepted.";

/// Of `info`.
pub(crate) const INFO: &str =
    "Prints lines for a person: the settled watermark, how many changes are applied and the times of the first and the
last one, how many pages and blocks are used of how many, how many slots of the journal were open before this
command, and of each collector its mark, its records and how much of its ring is used. With --json, the same as one
object in one line.

Example:
  rha info a

Exit status: 0 if the archive could be read; 1 if something was refused or couldn't be written (printed on
standard error as `rha: NUMBER NAME`); 2 if the command line isn't accepted.";

/// Of `dump`.
pub(crate) const DUMP: &str =
    "Writes all routes of all peers at T, or of one peer, by peer and then by prefix. FORM is one of:
  lines      the rows that `rha ask --all` prints, and E|ROWS
  bgpdump    TABLE_DUMP2|T|B|ADDRESS|AS|PREFIX|PATH|ORIGIN|NEXTHOP|LOCAL_PREF|MED|COMMUNITY|AG|AGGREGATOR|
             as `bgpdump -m` prints a table; a LOCAL_PREF or MED that isn't there is 0
  json       an object a line, fields by name
T has to be below the settled watermark; without --at it is the last moment that is. Memory doesn't grow with the table.

Examples:
  rha dump a --at 2024-01-01T00:10:00Z --format bgpdump
  rha dump a --peer 0 192.0.2.1 64496
  rha dump --connect 127.0.0.1:17900 --format json

Exit status: 0 if the whole table is written; 1 if something was refused or couldn't be written (on standard
error as `rha: NUMBER NAME`, or the last line is `X|NUMBER|NAME`); 2 if the command line isn't accepted.";

/// Of `peers`.
pub(crate) const PEERS: &str =
    "Prints P|COLLECTOR|ADDRESS|AS|ROUTES of each peer that has a route at T, in the order of peers, then E|PEERS. T has to be
below the settled watermark; without --at it is the last moment that is.

Example:
  rha peers a --at 2024-01-01T00:10:00Z

Exit status: 0 if all are printed; 1 if something was refused or couldn't be written (on standard error as
`rha: NUMBER NAME`, or the last line is `X|NUMBER|NAME`); 2 if the command line isn't accepted.";

/// Of `diff`.
pub(crate) const DIFF: &str =
    "Prints a line for each prefix of a peer whose route isn't the same at both moments, by peer and then by prefix:
  +|COLLECTOR|ADDRESS|AS|PREFIX|ROUTE          it has a route at TO alone
  -|COLLECTOR|ADDRESS|AS|PREFIX|ROUTE          it has a route at FROM alone
  ~|COLLECTOR|ADDRESS|AS|PREFIX|ROUTE|ROUTE    it has another one: that of FROM, then that of TO
and then E|LINES. ROUTE is the eight fields of a row. Both moments have to be below the settled watermark.

Example:
  rha diff a 2024-01-01T00:00:00Z 2024-01-01T00:10:00Z --within 10.0.0.0/8

Exit status, as of diff(1): 0 if the tables are the same; 1 if they differ; 2 if something was refused or
couldn't be written (on standard error as `rha: NUMBER NAME`, or the last line is `X|NUMBER|NAME`), or the command
line isn't accepted.";

/// Of `find`.
pub(crate) const FIND: &str =
    "With --since, prints what happened to the prefix from A to B, both included, at any peer, in the order of time:
  A|TIME|COLLECTOR|ADDRESS|AS|PREFIX|ROUTE     the peer announced the route
  W|TIME|COLLECTOR|ADDRESS|AS|PREFIX           the peer withdrew the prefix
  D|TIME|COLLECTOR|ADDRESS|AS|PREFIX           the peer's session ended, and its route for the prefix with it
and then E|LINES. Those of one moment come by peer and then by prefix. Without --since, prints each peer's route for the
prefix at B, as the rows R of `rha ask`, and E|LINES. ROUTE is the eight fields of a row.
At most one of --exact, --more and --less says which prefixes are meant: PREFIX alone, without an option, too; all inside it;
or all that contain it; itself included in each case.
With --origin and --via only routes are shown whose path ends in the AS number, or has it anywhere; of what happened, only what
began, replaced or ended such a route. With both, one route has to match both. A and B are moments, and B has to be below the
settled watermark; without --until it is the last moment that is.

Examples:
  rha find a 10.0.0.0/8 --more --origin 64496
  rha find a 10.0.0.0/8 --since 2024-01-01T00:00:00Z --until 2024-01-01T00:10:00Z
  rha find --connect 127.0.0.1:17900 10.0.0.0/8 --more

Exit status: 0 if all is printed; 1 if something was refused or couldn't be written (on standard error as
`rha: NUMBER NAME`, or the last line is `X|NUMBER|NAME`); 2 if the command line isn't accepted.";
