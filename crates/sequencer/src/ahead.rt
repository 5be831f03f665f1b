//! A look ahead: what is next once some times are taken, while all of them wait still.

ghost use Rattle.std.specs.Prelude.{◌≡◌, length, IfSome, IfNone};
ghost use Rattle.sequencer.specs.Ahead.{beyond};
ghost use Rattle.sequencer.specs.First.{IsFirstLane};
ghost use Rattle.sequencer.specs.Lanes.{marks, waiting_times};
ghost use Rattle.sequencer.specs.inner.Searching.{NoneWaits};

use crate::first::{Candidate, better};
use crate::lane::Lane;
use std::marker::Model;

/// For each collector, how many of its first times are passed over. Nothing is taken by it: if what was begun is given up,
/// all waits as before.
#[derive(Drop)]
pub struct Ahead {
    pub(crate) passed: Vec<usize>,
}

impl Model for Ahead {
    ghost use Rattle.std.specs.Prelude.{ℕ, List};

    ghost Value = { List ℕ };

    ghost view = { λ a. a.passed.items };
}

/// The collector whose first time that isn't passed over goes before each other's.
pub(crate) fn first_after(lanes: &[Lane], passed: &[usize]) -> Option<Candidate>
    requires { length passed.now ≡ length lanes.now }
    ensures some { IfSome result (λ r. IsFirstLane (beyond passed.now lanes.now) r.number r.time) }
    ensures none { IfNone result (NoneWaits (beyond passed.now lanes.now)) }
{
    let mut found: Option<Candidate> = None;
    for (number, lane) in lanes.iter().enumerate() {
        found = better(found, number, lane.beyond(passed[number]));
    }
    found
}

/// Takes of each lane as many times as are passed over.
pub(crate) fn pop_passed(lanes: &mut [Lane], passed: &[usize])
    requires { length passed.now ≡ length lanes.old }
    ensures marks { marks lanes.new ≡ marks lanes.old }
    ensures times { waiting_times lanes.new ≡ waiting_times (beyond passed.now lanes.old) }
    ensures count { length lanes.new ≡ length lanes.old }
{
    for (number, &count) in passed.iter().enumerate() {
        lanes[number].pop_passed(count);
    }
}
