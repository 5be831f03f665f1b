//! How many questions of each kind were answered, and how long that took.
//!
//! Threads add to meters while others read them, so a time may have a question more or less than its count.

ghost use Rattle.std.specs.Prelude.{◌≡◌};
ghost use Rattle.server.specs.Kinds.{kind_of, kind_of_select};

use interleaving_core::Query;
use route_meaning::Select;
use service::Request;
use std::sync::atomic::{AtomicU64, Ordering};
use std::time::{Clock, Duration, Instant};

/// The kinds of questions, each by a word of its line.
#[derive(Clone, Copy, Debug, PartialEq, Eq)]
pub enum Kind {
    Route,
    Prefix,
    Cover,
    Peer,
    All,
    History,
    Changed,
}

/// All kinds.
pub const KINDS: [Kind; 7] = [
    Kind::Route,
    Kind::Prefix,
    Kind::Cover,
    Kind::Peer,
    Kind::All,
    Kind::History,
    Kind::Changed,
];

impl Kind {
    /// The word of its lines.
    pub fn word(self) -> &'static str {
        match self {
            Kind::Route => "route",
            Kind::Prefix => "prefix",
            Kind::Cover => "cover",
            Kind::Peer => "peer",
            Kind::All => "all",
            Kind::History => "history",
            Kind::Changed => "changed",
        }
    }
}

/// The kind of a question of one moment.
fn kind_of_select(select: &Select) -> Kind
    ensures kind { result ≡ kind_of_select select.now }
{
    match select {
        Select::Route(_, _) => Kind::Route,
        Select::ByPrefix(_) => Kind::Prefix,
        Select::Covering(_) => Kind::Cover,
        Select::PeerTable(_) => Kind::Peer,
        Select::All => Kind::All,
    }
}

/// The kind of a request, if it is a question.
fn kind_of(request: &Request) -> Option<Kind>
    ensures kind { result ≡ kind_of request.now }
{
    match request {
        Request::Question(Query::Rows(question)) => Some(kind_of_select(&question.select)),
        Request::Question(Query::Events(_)) => Some(Kind::History),
        Request::Changed(_) => Some(Kind::Changed),
        Request::Watermark | Request::Durable(_) => None,
    }
}

/// How many questions were answered or refused, and how long that took.
#[derive(Drop)]
pub struct Meter {
    count: AtomicU64,
    nanoseconds: AtomicU64,
}

impl Meter {
    fn new() -> Meter {
        Meter {
            count: AtomicU64::new(0),
            nanoseconds: AtomicU64::new(0),
        }
    }

    /// Adds a question that took this long.
    fn add(&self, time: Duration) {
        let nanoseconds = u64::try_from(time.as_nanos()).unwrap_or(u64::MAX);
        self.count.fetch_add(1, Ordering::SeqCst);
        self.nanoseconds.fetch_add(nanoseconds, Ordering::SeqCst);
    }

    /// How many questions there were.
    pub fn count(&self) -> u64 {
        self.count.load(Ordering::SeqCst)
    }

    /// How long they took in all, each from its being read to its reply.
    pub fn time(&self) -> Duration {
        Duration::from_nanos(self.nanoseconds.load(Ordering::SeqCst))
    }
}

/// The questions of a server: which number the last one has, and a meter of each kind.
#[derive(Drop)]
pub struct Meters {
    last: AtomicU64,
    route: Meter,
    prefix: Meter,
    cover: Meter,
    peer: Meter,
    all: Meter,
    history: Meter,
    changed: Meter,
}

/// A request that is being answered: its number, and if it is a question its kind and, if the clock showed it, when it was read.
#[derive(Clone, Copy)]
pub(crate) struct Running {
    pub(crate) number: u64,
    kind: Option<Kind>,
    since: Option<Instant>,
}

impl Meters {
    /// Of a server that was asked nothing yet.
    pub fn new() -> Meters {
        Meters {
            last: AtomicU64::new(0),
            route: Meter::new(),
            prefix: Meter::new(),
            cover: Meter::new(),
            peer: Meter::new(),
            all: Meter::new(),
            history: Meter::new(),
            changed: Meter::new(),
        }
    }

    /// The meter of the questions of a kind.
    pub fn of(&self, kind: Kind) -> &Meter {
        match kind {
            Kind::Route => &self.route,
            Kind::Prefix => &self.prefix,
            Kind::Cover => &self.cover,
            Kind::Peer => &self.peer,
            Kind::All => &self.all,
            Kind::History => &self.history,
            Kind::Changed => &self.changed,
        }
    }

    /// Begins a request that was just read. The first question has the number 1; other requests have 0, and aren't metered.
    pub(crate) fn begin(&self, clock: &impl Clock, request: &Request) -> Running {
        let Some(kind) = kind_of(request) else {
            return Running {
                number: 0,
                kind: None,
                since: None,
            };
        };
        Running {
            number: self.last.fetch_add(1, Ordering::SeqCst).wrapping_add(1),
            kind: Some(kind),
            since: Instant::now(clock).ok(),
        }
    }

    /// Ends a request that has its reply or its refusal. If the clock failed, a question adds no time.
    pub(crate) fn end(&self, clock: &impl Clock, running: &Running) {
        let Some(kind) = running.kind else {
            return;
        };
        let time = match running.since {
            Some(since) => since.elapsed(clock).unwrap_or(Duration::ZERO),
            None => Duration::ZERO,
        };
        self.of(kind).add(time);
    }
}
