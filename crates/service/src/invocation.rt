//! What a command line asks for, and why it asks for nothing.

ghost use Rattle.std.specs.Prelude.{◌≡◌};
ghost use Rattle.clap.specs.Values.{kind_of};
ghost use Rattle.clap.specs.declared.error.Error.{Error};

use clap::error::ErrorKind;
use route_model::Mark;
use std::net::SocketAddrV4;
use thiserror::Error;

/// What `create` is given.
#[derive(Debug, Drop)]
pub struct Creation<'a> {
    /// The folder to create.
    pub folder: &'a str,
    /// How many collectors there will be, 1 to 16.
    pub collectors: u8,
    /// The pages of each collector's ring, 9 to 65535.
    pub ring: u16,
    /// The home pages, 1 to 1000000000.
    pub pages: u64,
    /// The write-once blocks, 1 to 1000000000.
    pub blocks: u64,
}

/// What `load` is given.
#[derive(Debug, Drop)]
pub struct Loading<'a> {
    /// How many seconds to wait for the archive while it is in use, 0 to 1000000.
    pub wait: u64,
    /// The folder of the archive.
    pub folder: &'a str,
    /// Whose feed the file is, 0 to 15.
    pub collector: u8,
    /// The most admissions of a batch, 1 to 1000.
    pub batch: usize,
    /// The collector's mark once the last file is loaded.
    pub mark: Option<Mark>,
    /// Whether as many of the files' first admissions are dropped as were offered of the collector until now.
    pub resume: bool,
    /// Whether a feed that gives cause for doubt ends the load, and a mark far ahead isn't set.
    pub strict: bool,
    /// Whether entries of RIB records that have no next hop are left out.
    pub lose_entries: bool,
    /// The files to load, in their order.
    pub files: Vec<&'a str>,
}

/// What `ask` is given.
#[derive(Debug, Drop)]
pub struct Question<'a> {
    /// How many seconds to wait for the archive while it is in use, 0 to 1000000.
    pub wait: u64,
    /// The folder of the archive.
    pub folder: &'a str,
    /// Whether all rows or events are asked for, and not the first 256.
    pub all: bool,
    /// Whether the lines are for a person.
    pub human: bool,
    /// The request line to answer.
    pub line: String,
}

/// Where the archive is that a command reads.
#[derive(Clone, Copy, Debug, PartialEq, Eq)]
pub enum Target<'a> {
    /// In the files of this folder.
    Folder(&'a str),
    /// At a server, at this address and port.
    Server(SocketAddrV4),
}

/// What `dump` is given: texts, as on the command line.
#[derive(Debug, Drop)]
pub struct Dumping<'a> {
    /// How many seconds to wait for the archive of a folder while it is in use, 0 to 1000000.
    pub wait: u64,
    /// Where the archive is.
    pub target: Target<'a>,
    /// The moment of the table.
    pub at: Option<&'a str>,
    /// The peer whose table it is, by three words; none for the table of all peers.
    pub peer: Vec<&'a str>,
    /// How a row is written.
    pub format: &'a str,
}

/// What `peers` is given.
#[derive(Debug, Drop)]
pub struct Listing<'a> {
    /// How many seconds to wait for the archive of a folder while it is in use, 0 to 1000000.
    pub wait: u64,
    /// Where the archive is.
    pub target: Target<'a>,
    /// The text of the moment.
    pub at: Option<&'a str>,
}

/// What `diff` is given: texts, as on the command line.
#[derive(Debug, Drop)]
pub struct Comparing<'a> {
    /// How many seconds to wait for the archive of a folder while it is in use, 0 to 1000000.
    pub wait: u64,
    /// Where the archive is.
    pub target: Target<'a>,
    /// The first moment.
    pub from: &'a str,
    /// The second moment.
    pub to: &'a str,
    /// The prefix that contains those of the rows.
    pub within: Option<&'a str>,
}

/// What `find` is given: texts, as on the command line.
#[derive(Debug, Drop)]
pub struct Finding<'a> {
    /// How many seconds to wait for the archive of a folder while it is in use, 0 to 1000000.
    pub wait: u64,
    /// Where the archive is.
    pub target: Target<'a>,
    /// The prefix.
    pub prefix: &'a str,
    /// Whether the prefix alone is meant.
    pub exact: bool,
    /// Whether all prefixes inside it are meant.
    pub more: bool,
    /// Whether all prefixes that contain it are meant.
    pub less: bool,
    /// The moment from which on what happened is shown.
    pub since: Option<&'a str>,
    /// The last moment.
    pub until: Option<&'a str>,
    /// The AS number in which paths end.
    pub origin: Option<&'a str>,
    /// The AS number that paths have.
    pub via: Option<&'a str>,
}

/// What `serve` is given.
#[derive(Debug, Drop)]
pub struct Serving<'a> {
    /// How many seconds to wait for the archive while it is in use, 0 to 1000000.
    pub wait: u64,
    /// The folder of the archive.
    pub folder: &'a str,
    /// Where connections are accepted. At port 0 the system chooses a free one.
    pub listen: SocketAddrV4,
    /// How many connections are served at once, 1 to 16.
    pub workers: u8,
    /// Whether lines that change something are refused there: `feed`, `mark` and `stop`.
    pub read_only: bool,
    /// Whether a connection is ended there after a request of HTTP, as it is if the port is read-only.
    pub close_on_http: bool,
    /// The path of a Unix socket that takes every line.
    pub admin: Option<&'a str>,
    /// Where HTTP is served; the system chooses the port if it is 0.
    pub http: Option<SocketAddrV4>,
    /// After how many seconds a connection is ended that sends nothing, or doesn't read, 1 to 1000000.
    pub idle: u32,
}

/// What `check` is given.
#[derive(Debug, Drop)]
pub struct Checking<'a> {
    /// How many seconds to wait for the archive while it is in use, 0 to 1000000.
    pub wait: u64,
    /// The folder of the archive.
    pub folder: &'a str,
}

/// What `info` is given.
#[derive(Debug, Drop)]
pub struct Examining<'a> {
    /// How many seconds to wait for the archive while it is in use, 0 to 1000000.
    pub wait: u64,
    /// The folder of the archive.
    pub folder: &'a str,
    /// Whether what is printed is JSON.
    pub json: bool,
}

/// What a command line asks for.
#[derive(Debug, Drop)]
pub enum Invocation<'a> {
    /// An archive is created in a new folder.
    Create(Creation<'a>),
    /// Files are loaded into an archive.
    Load(Loading<'a>),
    /// A request line is answered by an archive.
    Ask(Question<'a>),
    /// An archive is served on a socket.
    Serve(Serving<'a>),
    /// An archive is checked.
    Check(Checking<'a>),
    /// Facts of an archive are shown.
    Info(Examining<'a>),
    /// A table of one moment is written.
    Dump(Dumping<'a>),
    /// The peers of one moment are counted.
    Peers(Listing<'a>),
    /// The tables of two moments are compared.
    Diff(Comparing<'a>),
    /// What happened to prefixes is shown, or which routes they have.
    Find(Finding<'a>),
}

/// Why a command line asks for nothing.
#[derive(Debug, Drop, Error)]
pub enum CommandError {
    /// The words aren't accepted, or they ask for help: `clap`'s text.
    #[error(transparent)]
    Usage(clap::Error),
    /// The text after `--mark` isn't a mark.
    #[error("the text after --mark is that of no mark")]
    BadMark,
    /// The text after `--listen` isn't an IPv4 address and port.
    #[error("the text after --listen is that of no address and port")]
    BadListen,
    /// The text after `--http` isn't an IPv4 address and port, or has those of `--listen`.
    #[error("the text after --http is that of no address and port, or of those of --listen")]
    BadHttp,
    /// With `--connect` the first word isn't an IPv4 address and port.
    #[error("the first word is that of no address and port")]
    BadConnect,
    /// An allocation failed.
    #[error("out of memory")]
    OutOfMemory,
}

impl CommandError {
    /// The exit status of the program: 2 if the words aren't accepted, 0 if they ask for help, else 1.
    pub fn code(&self) -> u8
        ensures usage { (e : Error) → self.now ≡ CommandError.Usage e → (kind_of e ≡ ErrorKind.DisplayHelp → ⊥) → (kind_of e ≡ ErrorKind.DisplayVersion → ⊥) → result ≡ 2 }
        ensures help { (e : Error) → self.now ≡ CommandError.Usage e → kind_of e ≡ ErrorKind.DisplayHelp → result ≡ 0 }
        ensures version { (e : Error) → self.now ≡ CommandError.Usage e → kind_of e ≡ ErrorKind.DisplayVersion → result ≡ 0 }
        ensures bad_mark { self.now ≡ CommandError.BadMark → result ≡ 1 }
        ensures bad_listen { self.now ≡ CommandError.BadListen → result ≡ 1 }
        ensures bad_http { self.now ≡ CommandError.BadHttp → result ≡ 1 }
        ensures bad_connect { self.now ≡ CommandError.BadConnect → result ≡ 1 }
        ensures memory { self.now ≡ CommandError.OutOfMemory → result ≡ 1 }
    {
        match self {
            CommandError::Usage(error) if error.use_stderr() => 2,
            CommandError::Usage(_) => 0,
            CommandError::BadMark
            | CommandError::BadListen
            | CommandError::BadHttp
            | CommandError::BadConnect
            | CommandError::OutOfMemory => 1,
        }
    }
}
