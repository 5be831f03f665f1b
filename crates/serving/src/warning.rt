//! What a server warns of: sockets that fail.

use crate::link::Peer;
use crate::socket::Lapse;
use jiff::Timestamp;
use log::{Log, warn};
use std::fmt;
use std::sync::atomic::{AtomicU64, Ordering};
use std::time::{Clock, Duration};

/// How many milliseconds there are at least from one warning of a kind to the next.
const PERIOD: u64 = 1_000;

/// What a warning says after `29 Outside`: whose socket failed, at which call, why, and when; and how many warnings of its kind were
/// left out before it.
#[derive(Drop)]
struct Warning<'a> {
    peer: Peer,
    lapse: &'a Lapse,
    moment: Moment,
    left_out: u64,
}

impl fmt::Display for Warning<'_> {
    fn fmt<W: fmt::Write>(&self, f: &mut fmt::Formatter<W>) -> fmt::Result {
        write!(f, "{}: {}: {}", self.peer, self.lapse.call, self.lapse.why)?;
        write!(f, "{}", self.moment)?;
        if self.left_out > 0 {
            write!(f, ", {} more before", self.left_out)?;
        }
        Ok(())
    }
}

/// The milliseconds of a duration.
fn milliseconds(duration: Duration) -> u64 {
    u64::try_from(duration.as_millis()).unwrap_or(u64::MAX)
}

/// A moment at the end of a warning, as `, 2024-01-01T00:15:00Z`; nothing where the clock can't be read.
#[derive(Drop)]
pub(crate) struct Moment {
    second: Option<Timestamp>,
}

impl Moment {
    /// The present second.
    pub(crate) fn present<R: Clock>(rt: &R) -> Moment {
        Moment {
            second: present(rt),
        }
    }
}

impl fmt::Display for Moment {
    fn fmt<W: fmt::Write>(&self, f: &mut fmt::Formatter<W>) -> fmt::Result {
        match &self.second {
            Some(second) => write!(f, ", {second}"),
            None => Ok(()),
        }
    }
}

/// The present second, if the clock can be read.
fn present<R: Clock>(rt: &R) -> Option<Timestamp> {
    let seconds = rt.since_1970().ok()?.as_secs();
    Timestamp::from_second(i64::try_from(seconds).ok()?).ok()
}

/// Warnings of one kind, of which there is no more than one a second. The threads of a server share them.
#[derive(Drop)]
pub(crate) struct Warnings {
    /// From which millisecond on there may be one.
    due: AtomicU64,
    /// How many were left out since the last one.
    left_out: AtomicU64,
}

impl Warnings {
    /// None was written yet.
    pub(crate) fn new() -> Warnings {
        Warnings {
            due: AtomicU64::new(0),
            left_out: AtomicU64::new(0),
        }
    }

    /// How many were left out before one that may be written at this millisecond; none if it is to be left out, too.
    fn take_turn(&self, now: u64) -> Option<u64> {
        let due = self.due.load(Ordering::SeqCst);
        let next = now.saturating_add(PERIOD);
        if now < due
            || self
                .due
                .compare_exchange(due, next, Ordering::SeqCst, Ordering::SeqCst)
                .is_err()
        {
            self.left_out.fetch_add(1, Ordering::SeqCst);
            return None;
        }
        Some(self.left_out.swap(0, Ordering::SeqCst))
    }

    /// Warns that the socket of this peer failed, unless such a warning was written a moment ago. Without a clock each is written.
    pub(crate) fn warn<R: Clock, L: Log>(&self, rt: &R, log: &L, peer: Peer, lapse: &Lapse) {
        let turn = match rt.monotonic() {
            Ok(now) => self.take_turn(milliseconds(now)),
            Err(_) => Some(0),
        };
        let Some(left_out) = turn else {
            return;
        };
        let warning = Warning {
            peer,
            lapse,
            moment: Moment::present(rt),
            left_out,
        };
        warn!(log; "29 Outside: {warning}");
    }
}
