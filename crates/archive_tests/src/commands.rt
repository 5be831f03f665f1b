//! The command line: which words are accepted and as what.

use crate::be;
use route_model::Moment;
use service::{
    Checking, CommandError, Comparing, Creation, Dumping, Examining, Finding, Invocation, Listing,
    Loading, Question, Serving, Target, command,
};
use std::alloc::Global;
use std::net::SocketAddrV4;

/// Words, with lines between them, and what they ask for: the folder a, and each further thing that they say, or what takes its
/// place where they don't.
const ACCEPTED: [(&str, &str); 61] = [
    // What isn't chosen.
    ("rha|create|a", "create a 1 4096 10000000 100000000"),
    (
        "rha|create|a|--collectors|16",
        "create a 16 4096 10000000 100000000",
    ),
    // The least of each.
    (
        "rha|create|a|--collectors|1|--ring|9|--pages|1|--blocks|1",
        "create a 1 9 1 1",
    ),
    // The most of each.
    (
        "rha|create|a|--collectors|16|--ring|65535|--pages|1000000000|--blocks|1000000000",
        "create a 16 65535 1000000000 1000000000",
    ),
    (
        "rha|create|--blocks=65|--pages=64|--ring=16|--collectors=3|a",
        "create a 3 16 64 65",
    ),
    (
        "rha|load|a|--collector|0|a.mrt",
        "load a 0 1000 none whole a.mrt",
    ),
    (
        "rha|load|--collector=15|a|a.mrt",
        "load a 15 1000 none whole a.mrt",
    ),
    (
        "rha|load|a|a.mrt|--collector|7|--batch|1",
        "load a 7 1 none whole a.mrt",
    ),
    (
        "rha|load|--batch=999|--collector=1|--|a|a.mrt",
        "load a 1 999 none whole a.mrt",
    ),
    (
        "rha|load|a|--collector=0|--mark|4294967296|a.mrt",
        "load a 0 1000 4294967296 whole a.mrt",
    ),
    (
        "rha|load|a|--collector=0|a.mrt|--mark=0",
        "load a 0 1000 0 whole a.mrt",
    ),
    (
        "rha|load|a|--collector=0|--mark|2024-01-01T00:00:01Z|--resume|a.mrt",
        "load a 0 1000 1704067201 resumed a.mrt",
    ),
    (
        "rha|load|--resume|a|a.mrt|--batch=1000|--collector=0",
        "load a 0 1000 none resumed a.mrt",
    ),
    (
        "rha|load|a|--lose-entries|--collector=0|a.mrt",
        "load a 0 1000 none whole lossy a.mrt",
    ),
    // Several files, with options between them.
    (
        "rha|load|a|--collector=0|u1|-|--strict|u3",
        "load a 0 1000 none whole strict u1 - u3",
    ),
    (
        "rha|load|--strict|--resume|--collector=0|--|a|--mark|u2",
        "load a 0 1000 none resumed strict --mark u2",
    ),
    (
        "rha|ask|a|at|1704067200|prefix|10.0.0.0/8",
        "ask a at 1704067200 prefix 10.0.0.0/8",
    ),
    (
        "rha|ask|a|at 1704067200|prefix 10.0.0.0/8",
        "ask a at 1704067200 prefix 10.0.0.0/8",
    ),
    ("rha|ask|a|watermark", "ask a watermark"),
    ("rha|ask|a||", "ask a  "),
    // After the first word all are words.
    (
        "rha|ask|a|at|--mark|7|-x|--help|--",
        "ask a at --mark 7 -x --help --",
    ),
    ("rha|ask|a|--|--mark|7", "ask a --mark 7"),
    ("rha|ask|--|a|check", "ask a check"),
    (
        "rha|serve|a|--listen|127.0.0.1:0|--workers|1",
        "serve a 127.0.0.1:0 1",
    ),
    (
        "rha|serve|--workers=16|--listen=0.0.0.0:65535|a",
        "serve a 0.0.0.0:65535 16",
    ),
    (
        "rha|serve|--listen|255.254.10.9:80|--workers=7|--|a",
        "serve a 255.254.10.9:80 7",
    ),
    (
        "rha|serve|a|--close-on-http|--listen=127.0.0.1:0|--workers=1|--idle|1000000",
        "serve a 127.0.0.1:0 1 closing idle 1000000",
    ),
    (
        "rha|serve|--read-only|a|--admin=s|--idle=1|--listen=127.0.0.1:0|--workers=1",
        "serve a 127.0.0.1:0 1 read-only closing admin s idle 1",
    ),
    (
        "rha|serve|a|--http|127.0.0.1:80|--listen=127.0.0.2:80|--workers=1",
        "serve a 127.0.0.2:80 1 http 127.0.0.1:80",
    ),
    (
        "rha|serve|a|--listen=127.0.0.1:0|--workers=1|--http=127.0.0.1:0|--idle=7",
        "serve a 127.0.0.1:0 1 http 127.0.0.1:0 idle 7",
    ),
    (
        "rha|serve|a|--listen=127.0.0.1:80|--workers=1|--http=127.0.0.1:80",
        "no further address 1",
    ),
    ("rha|check|a", "check a"),
    ("rha|check|", "check "),
    ("rha|check|--|a", "check a"),
    ("rha|info|a", "info a lines"),
    ("rha|info|--json|a", "info a json"),
    ("rha|ask|a|--all|watermark", "ask a all watermark"),
    ("rha|ask|--human|a|--all|x", "ask a all human x"),
    ("rha|ask|a|x|--all", "ask a x --all"),
    ("rha|dump|a", "dump a lines"),
    (
        "rha|dump|a|--at|7|--format|json|--peer|0|::1|65001",
        "dump a at 7 peer 0 ::1 65001 json",
    ),
    (
        "rha|dump|--peer|x|y|z|--format=xml|a|--wait|7",
        "dump a peer x y z xml wait 7",
    ),
    ("rha|peers|a", "peers a"),
    ("rha|peers|--at=x|a|--wait=7", "peers a at x wait 7"),
    ("rha|diff|a|x|y", "diff a x y"),
    ("rha|diff|--within|p|a|1|2", "diff a 1 2 within p"),
    ("rha|diff|a|1|2|--wait|7", "diff a 1 2 wait 7"),
    ("rha|find|a|p", "find a p"),
    (
        "rha|find|--exact|a|--more|p|--less|--since=x|--until|y|--origin|v|--via=w|--wait|7",
        "find a p exact more less since x until y origin v via w wait 7",
    ),
    // A server in the place of the folder.
    (
        "rha|find|--connect|127.0.0.1:80|p|--more",
        "find 127.0.0.1:80 p more",
    ),
    (
        "rha|dump|127.0.0.1:80|--connect|--wait=7",
        "dump 127.0.0.1:80 lines wait 7",
    ),
    (
        "rha|peers|--connect|localhost:80",
        "no address of a server 1",
    ),
    ("rha|diff|--connect|a|1|2", "no address of a server 1"),
    // What an archive is waited for stands last, where it is.
    (
        "rha|load|a|--collector=0|--wait|1000000|a.mrt",
        "load a 0 1000 none whole a.mrt wait 1000000",
    ),
    ("rha|ask|a|--wait=60|watermark", "ask a watermark wait 60"),
    ("rha|ask|--wait|1|a|watermark", "ask a watermark wait 1"),
    ("rha|ask|a|watermark|--wait=60", "ask a watermark --wait=60"),
    (
        "rha|serve|a|--wait=7|--listen|127.0.0.1:0|--workers|1",
        "serve a 127.0.0.1:0 1 wait 7",
    ),
    ("rha|check|a|--wait=0", "check a"),
    ("rha|info|a|--json|--wait|7", "info a json wait 7"),
    // After two dashes alone no word is an option.
    ("rha|check|--|--help", "check --help"),
];

/// Texts that are no address and port.
const NO_PLACES: [&str; 14] = [
    "",
    ":",
    "127.0.0.1",
    "127.0.0.1:",
    ":80",
    "127.0.0.1:65536",
    "127.0.0.1:080",
    "127.0.0.1:+80",
    "127.0.0.1:80:80",
    "127.0.0.01:80",
    "127.0.1:80",
    "256.0.0.1:80",
    "localhost:80",
    "[::1]:80",
];

/// Texts that are no marks.
const NO_MARKS: [&str; 6] = [
    "",
    "07",
    "4294967297",
    "2024-01-01",
    "2024-01-01T00:00:00.0000005Z",
    "now",
];

/// How many seconds a connection may be idle where nothing else is chosen. It isn't written.
const IDLE: u32 = 300;

/// A line that is put together, and whether there was memory for all of it.
#[derive(Drop)]
struct Line {
    alloc: Global,
    text: String,
    is_whole: bool,
}

impl Line {
    fn new(alloc: Global, text: &str) -> Line {
        let mut line = Line {
            alloc,
            text: String::new(alloc),
            is_whole: true,
        };
        line.add(text);
        line
    }

    fn add(&mut self, text: &str) {
        self.is_whole &= self.text.push_str(text).is_ok();
    }

    /// Adds a word after a space.
    fn word(&mut self, word: &str) {
        self.add(" ");
        self.add(word);
    }

    fn number(&mut self, number: u64) {
        match format!(in self.alloc; "{number}") {
            Ok(text) => self.word(text.as_str()),
            Err(_) => self.is_whole = false,
        }
    }

    /// Adds how many seconds an archive is waited for, if it is.
    fn waits(&mut self, seconds: u64) {
        if seconds > 0 {
            self.word("wait");
            self.number(seconds);
        }
    }

    fn creation(&mut self, made: &Creation<'_>) {
        self.word(made.folder);
        self.number(u64::from(made.collectors));
        self.number(u64::from(made.ring));
        self.number(made.pages);
        self.number(made.blocks);
    }

    fn loading(&mut self, asked: &Loading<'_>) {
        self.word(asked.folder);
        self.number(u64::from(asked.collector));
        self.number(asked.batch as u64);
        match asked.mark {
            Some(mark) => self.number(mark.number() / Moment::SECOND),
            None => self.word("none"),
        }
        self.word(if asked.resume { "resumed" } else { "whole" });
        if asked.lose_entries {
            self.word("lossy");
        }
        if asked.strict {
            self.word("strict");
        }
        for file in asked.files.as_slice() {
            self.word(file);
        }
        self.waits(asked.wait);
    }

    fn question(&mut self, asked: &Question<'_>) {
        self.word(asked.folder);
        if asked.all {
            self.word("all");
        }
        if asked.human {
            self.word("human");
        }
        self.word(asked.line.as_str());
        self.waits(asked.wait);
    }

    /// Adds a word and the text of an option, if that is there.
    fn option(&mut self, word: &str, text: Option<&str>) {
        if let Some(text) = text {
            self.word(word);
            self.word(text);
        }
    }

    /// Adds a folder, or the address and port of a server.
    fn target(&mut self, target: &Target<'_>) {
        match target {
            Target::Folder(folder) => self.word(folder),
            Target::Server(place) => self.place(*place),
        }
    }

    fn dumping(&mut self, asked: &Dumping<'_>) {
        self.target(&asked.target);
        self.option("at", asked.at);
        if !asked.peer.is_empty() {
            self.word("peer");
        }
        for word in asked.peer.as_slice() {
            self.word(word);
        }
        self.word(asked.format);
        self.waits(asked.wait);
    }

    fn listing(&mut self, asked: &Listing<'_>) {
        self.target(&asked.target);
        self.option("at", asked.at);
        self.waits(asked.wait);
    }

    fn comparing(&mut self, asked: &Comparing<'_>) {
        self.target(&asked.target);
        self.word(asked.from);
        self.word(asked.to);
        self.option("within", asked.within);
        self.waits(asked.wait);
    }

    fn finding(&mut self, asked: &Finding<'_>) {
        self.target(&asked.target);
        self.word(asked.prefix);
        if asked.exact {
            self.word("exact");
        }
        if asked.more {
            self.word("more");
        }
        if asked.less {
            self.word("less");
        }
        self.option("since", asked.since);
        self.option("until", asked.until);
        self.option("origin", asked.origin);
        self.option("via", asked.via);
        self.waits(asked.wait);
    }

    /// Adds an address and a port.
    fn place(&mut self, place: SocketAddrV4) {
        match format!(in self.alloc; "{place}") {
            Ok(text) => self.word(text.as_str()),
            Err(_) => self.is_whole = false,
        }
    }

    fn serving(&mut self, asked: &Serving<'_>) {
        self.word(asked.folder);
        self.place(asked.listen);
        self.number(u64::from(asked.workers));
        if asked.read_only {
            self.word("read-only");
        }
        if asked.close_on_http {
            self.word("closing");
        }
        self.option("admin", asked.admin);
        if let Some(http) = asked.http {
            self.word("http");
            self.place(http);
        }
        if asked.idle != IDLE {
            self.word("idle");
            self.number(u64::from(asked.idle));
        }
        self.waits(asked.wait);
    }

    fn checking(&mut self, asked: &Checking<'_>) {
        self.word(asked.folder);
        self.waits(asked.wait);
    }

    fn examining(&mut self, asked: &Examining<'_>) {
        self.word(asked.folder);
        self.word(if asked.json { "json" } else { "lines" });
        self.waits(asked.wait);
    }
}

/// What a command line asks for, as a line.
fn line_of(alloc: Global, invocation: &Invocation<'_>) -> Line {
    let mut line = Line::new(alloc, "");
    match invocation {
        Invocation::Create(made) => {
            line.add("create");
            line.creation(made);
        }
        Invocation::Load(asked) => {
            line.add("load");
            line.loading(asked);
        }
        Invocation::Ask(asked) => {
            line.add("ask");
            line.question(asked);
        }
        Invocation::Serve(asked) => {
            line.add("serve");
            line.serving(asked);
        }
        Invocation::Check(asked) => {
            line.add("check");
            line.checking(asked);
        }
        Invocation::Info(asked) => {
            line.add("info");
            line.examining(asked);
        }
        Invocation::Dump(asked) => {
            line.add("dump");
            line.dumping(asked);
        }
        Invocation::Peers(asked) => {
            line.add("peers");
            line.listing(asked);
        }
        Invocation::Diff(asked) => {
            line.add("diff");
            line.comparing(asked);
        }
        Invocation::Find(asked) => {
            line.add("find");
            line.finding(asked);
        }
    }
    line
}

/// How words are refused that `clap` accepts, and the exit status.
fn refusal_of(alloc: Global, error: &CommandError) -> Line {
    let mut line = Line::new(
        alloc,
        match error {
            CommandError::BadMark => "no mark",
            CommandError::BadListen => "no address",
            CommandError::BadHttp => "no further address",
            CommandError::BadConnect => "no address of a server",
            CommandError::Usage(_) | CommandError::OutOfMemory => "not accepted",
        },
    );
    line.number(u64::from(error.code()));
    line
}

/// The words of a text, which has lines between them.
pub(crate) fn words_of<'a>(alloc: Global, text: &'a str) -> Option<Vec<&'a str>> {
    text.split('|').collect(alloc).ok()
}

/// Whether the words ask for this, or are refused so.
fn is_accepted(alloc: Global, words: &str, expected: &str) -> Option<bool> {
    let words = words_of(alloc, words)?;
    let line = match command(alloc, words.as_slice()) {
        Ok(invocation) => line_of(alloc, &invocation),
        Err(error) => refusal_of(alloc, &error),
    };
    Some(line.is_whole && line.text.as_str() == expected)
}

#[test]
fn words_of_commands_are_accepted(rt: HostRuntime) {
    for (words, expected) in &ACCEPTED {
        be(
            &rt,
            is_accepted(rt.alloc(), words, expected) == Some(true),
            words,
        );
    }
}

/// Whether a text is refused after `--listen` and after `--http`, with status 1.
fn is_no_place(alloc: Global, text: &str) -> Option<bool> {
    let front = "rha|serve|a|--workers|1|--listen";
    let listen = format!(in alloc; "{front}|{text}").ok()?;
    let http = format!(in alloc; "{front}|127.0.0.1:80|--http|{text}").ok()?;
    let is_refused = is_accepted(alloc, listen.as_str(), "no address 1")?;
    Some(is_refused && is_accepted(alloc, http.as_str(), "no further address 1")?)
}

#[test]
fn an_address_and_port_that_are_none_are_refused(rt: HostRuntime) {
    for text in &NO_PLACES {
        be(&rt, is_no_place(rt.alloc(), text) == Some(true), text);
    }
}

/// Whether the text after `--mark` is refused, with status 1.
fn is_no_mark(alloc: Global, mark: &str) -> Option<bool> {
    let words = format!(in alloc; "rha|load|a|--collector|0|--mark|{mark}|a.mrt").ok()?;
    is_accepted(alloc, words.as_str(), "no mark 1")
}

#[test]
fn a_mark_that_is_none_is_refused(rt: HostRuntime) {
    for mark in &NO_MARKS {
        be(&rt, is_no_mark(rt.alloc(), mark) == Some(true), mark);
    }
}
