//! An archive whose device failed is opened again, with growing pauses while that fails.

use crate::warning::Moment;
use log::{Log, warn};
use std::time::Clock;

/// The longest pause between two attempts, in rests: ten seconds.
const LONGEST: u64 = 1_000;

/// How long an archive has been out of use, as its applier knows it.
#[derive(Drop)]
pub(crate) struct Outage {
    is_down: bool,
    /// A failed call was warned of since the archive was opened.
    is_noted: bool,
    /// How many rests the next pause has.
    pause: u64,
    /// How many rests of a pause are to come.
    left: u64,
}

impl Outage {
    /// The archive is in use.
    pub(crate) fn none() -> Outage {
        Outage {
            is_down: false,
            is_noted: false,
            pause: 1,
            left: 0,
        }
    }

    /// Whether a rest is still to come before the archive is used again. It is taken then.
    pub(crate) fn takes_rest(&mut self) -> bool {
        if self.left == 0 {
            return false;
        }
        self.left -= 1;
        true
    }

    /// Whether a failed call was warned of since the archive was opened.
    pub(crate) fn is_noted(&self) -> bool {
        self.is_noted
    }

    /// The archive can be used. If a call on a device failed all the same, a warning says so.
    pub(crate) fn notes<R: Clock, L: Log>(&mut self, rt: &R, log: &L, failure: Option<String>) {
        if let Some(failure) = failure {
            let now = Moment::present(rt);
            warn!(log; "1 Fault: {failure}{now}");
            self.is_noted = true;
        }
    }

    /// The archive can't be used: a call on a device failed. If it could be used before, a warning says so, with that call if it is
    /// known.
    pub(crate) fn goes_on<R: Clock, L: Log>(&mut self, rt: &R, log: &L, failure: Option<String>) {
        if !self.is_down {
            let now = Moment::present(rt);
            match failure {
                Some(failure) => {
                    warn!(log; "1 Fault: {failure}; the archive is being opened again{now}");
                }
                None => warn!(log; "1 Fault; the archive is being opened again{now}"),
            }
        }
        self.is_down = true;
        self.is_noted = true;
        self.left = self.pause;
        self.pause = self.pause.saturating_mul(2).min(LONGEST);
    }

    /// The archive can be used. If it couldn't before, a warning says so. The next pause stays as long as it would have been: an opening
    /// may succeed where no change can be written.
    pub(crate) fn ends<R: Clock, L: Log>(&mut self, rt: &R, log: &L) {
        if self.is_down {
            let now = Moment::present(rt);
            warn!(log; "the archive is open again{now}");
            self.is_down = false;
            self.is_noted = false;
        }
    }

    /// A change was written, so the device works: the next pause is a short one.
    pub(crate) fn is_over(&mut self) {
        self.pause = 1;
    }
}
