//! What waits of one collector.

ghost use Rattle.std.specs.Prelude.{◌≡◌, ◌<◌, ◌≤◌, ◌∷◌, ◌++◌, [], List, ℕ, OnOk, drop, slice_get, length, suc};
ghost use Rattle.sequencer.specs.Lanes.{bound_of};

use route_model::{Mark, Moment};
use std::alloc::{AllocError, Global};
use std::collections::VecDeque;
use std::marker::Model;

/// The mark of a collector, and the times of its admitted records that wait, in their order.
#[derive(Drop)]
pub(crate) struct Lane {
    mark: Mark,
    times: VecDeque<Moment>,
}

impl Model for Lane {
    ghost use Rattle.std.specs.VecDeque.{deque_len, deque_capacity};
    ghost use Rattle.std.specs.Prelude.{◌-◌};
    ghost use Rattle.sequencer.specs.Lanes.{Waiting};

    ghost Value = { Waiting };

    ghost view = { λ l. record { mark = l.mark; times = l.times.items; room = deque_capacity l.times - deque_len l.times } };
}

impl Lane {
    /// The lane of a collector that gave nothing yet.
    pub(crate) fn new(alloc: Global, mark: Mark) -> Lane
        ensures mark { result.mark ≡ mark }
        ensures times { result.times ≡ [] }
    {
        Lane {
            mark,
            times: VecDeque::new(alloc),
        }
    }

    pub(crate) fn mark(&self) -> Mark
        ensures { result ≡ self.now.mark }
    {
        self.mark
    }

    /// The first time that waits.
    pub(crate) fn first(&self) -> Option<Moment>
        ensures { result ≡ slice_get self.now.times 0 }
    {
        self.times.front().copied()
    }

    /// The first time that waits, or the mark.
    pub(crate) fn bound(&self) -> Mark
        ensures { result ≡ bound_of self.now }
    {
        match self.first() {
            Some(time) => Mark::at(time),
            None => self.mark,
        }
    }

    /// The first time that waits after the first `passed` ones.
    pub(crate) fn beyond(&self, passed: usize) -> Option<Moment>
        ensures { result ≡ slice_get self.now.times passed }
    {
        self.times.get(passed).copied()
    }

    /// How many times wait.
    pub(crate) fn waiting(&self) -> usize
        ensures { result ≡ length self.now.times }
    {
        self.times.len()
    }

    /// Takes the first time that waits.
    pub(crate) fn pop(&mut self)
        ensures mark { self.new.mark ≡ self.old.mark }
        ensures times { (time : ℕ) (rest : List ℕ) → self.old.times ≡ time ∷ rest → self.new.times ≡ rest }
        ensures rest { self.new.times ≡ drop 1 self.old.times }
    {
        let _ = self.times.pop_front();
    }

    /// Takes the first `passed` times that wait, or all where fewer do.
    pub(crate) fn pop_passed(&mut self, passed: usize)
        ensures mark { self.new.mark ≡ self.old.mark }
        ensures times { self.new.times ≡ drop passed self.old.times }
    {
        for _ in 0..passed {
            self.pop();
        }
    }

    /// Raises the mark.
    pub(crate) fn set_mark(&mut self, mark: Mark)
        ensures mark { self.new.mark ≡ mark }
        ensures times { self.new.times ≡ self.old.times }
    {
        self.mark = mark;
    }

    /// Makes room for `additional` more times.
    pub(crate) fn reserve(&mut self, additional: usize) -> Result<(), AllocError>
        ensures mark { self.new.mark ≡ self.old.mark }
        ensures times { self.new.times ≡ self.old.times }
        ensures room { OnOk result (additional ≤ self.new.room) }
    {
        self.times.reserve(additional)
    }

    /// Lets one more time wait.
    pub(crate) fn push(&mut self, time: Moment)
        requires { 0 < self.old.room }
        ensures mark { self.new.mark ≡ self.old.mark }
        ensures times { self.new.times ≡ self.old.times ++ time ∷ [] }
        ensures room { self.old.room ≡ suc self.new.room }
    {
        self.times.push_back_reserved(time);
    }

    /// Lets more times wait.
    pub(crate) fn push_all(&mut self, times: &[Moment])
        requires { length times.now ≤ self.old.room }
        ensures mark { self.new.mark ≡ self.old.mark }
        ensures times { self.new.times ≡ self.old.times ++ times.now }
    {
        for &time in times {
            self.push(time);
        }
    }
}
