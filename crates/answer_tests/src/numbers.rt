//! Numbers that follow from a seed, and what is made of them.

use crate::said::{moment_of, peer_of, prefix_of, route_of};
use interleaving_core::Query;
use route_meaning::{ChangedQuestion, EventsQuestion, RowsQuestion, Select, Spot};
use route_model::{Address, Admission, Change, Moment, Peer, Prefix};
use std::alloc::Global;

/// Numbers that follow from a seed (Knuth's MMIX), and the second that a history has come to.
#[derive(Drop)]
pub(crate) struct Numbers {
    state: u64,
    pub(crate) clock: u32,
}

/// How many prefixes there are.
pub(crate) const PREFIXES: u32 = 6;

/// The prefix of this number; from `PREFIXES - 1` on, the last one.
pub(crate) fn prefix_at(number: u32) -> Prefix {
    match number {
        0 => prefix_of(0, 0, 0),
        1 => prefix_of(0, 0, 15),
        2 => prefix_of(1, 0, 16),
        3 => prefix_of(1, 1, 24),
        4 => prefix_of(1, 2, 24),
        _ => prefix_of(1, 1, 32),
    }
}

impl Numbers {
    pub(crate) fn new(seed: u64) -> Numbers {
        Numbers {
            state: seed,
            clock: 1,
        }
    }

    /// A number below the limit, which isn't 0.
    pub(crate) fn below(&mut self, limit: u32) -> u32 {
        self.state = self
            .state
            .wrapping_mul(6_364_136_223_846_793_005)
            .wrapping_add(1_442_695_040_888_963_407);
        let high = (self.state >> 33) as u32;
        if limit == 0 { 0 } else { high % limit }
    }

    /// The clock goes on by a second, three times of four.
    pub(crate) fn go_on(&mut self) {
        if self.below(4) > 0 {
            self.clock = self.clock.saturating_add(1);
        }
    }

    /// One of two collectors.
    pub(crate) fn collector(&mut self) -> u8 {
        if self.below(2) == 0 { 0 } else { 1 }
    }

    // One of two peers of the collector, at one address.
    fn peer(&mut self, collector: u8) -> Peer {
        let as_number = if self.below(2) == 0 { 65001 } else { 65002 };
        peer_of(collector, as_number)
    }

    // One of few prefixes that lie in one another.
    fn prefix(&mut self) -> Prefix {
        prefix_at(self.below(PREFIXES))
    }

    fn spot(&mut self) -> Spot {
        let collector = self.collector();
        Spot {
            peer: self.peer(collector),
            prefix: self.prefix(),
        }
    }

    fn change(&mut self, alloc: Global, collector: u8) -> Option<Change> {
        let peer = self.peer(collector);
        let prefix = self.prefix();
        Some(match self.below(10) {
            0 => Change::Withdraw(peer, prefix),
            1 => Change::Down(peer),
            _ => Change::Announce(peer, prefix, route_of(alloc, self.below(100_000))?),
        })
    }

    // What a collector reports at the time of the clock or a little before.
    fn admission(&mut self, alloc: Global, collector: u8) -> Option<Admission> {
        let seconds = self.clock.saturating_sub(self.below(2));
        let mut changes = Vec::new(alloc);
        for _ in 0..self.below(4) {
            changes.push(self.change(alloc, collector)?).ok()?;
        }
        Admission::new(moment_of(seconds), changes).ok()
    }

    /// One or two admissions of a collector.
    pub(crate) fn batch(&mut self, alloc: Global, collector: u8) -> Option<Vec<Admission>> {
        let mut batch = Vec::new(alloc);
        for _ in 0..=self.below(2) {
            batch.push(self.admission(alloc, collector)?).ok()?;
        }
        Some(batch)
    }

    fn select(&mut self) -> Select {
        let spot = self.spot();
        match self.below(5) {
            0 => Select::Route(spot.peer, spot.prefix),
            1 => Select::ByPrefix(spot.prefix),
            2 => Select::Covering(Address::V4([10, 1, 1, 0])),
            3 => Select::PeerTable(spot.peer),
            _ => Select::All,
        }
    }

    fn after(&mut self) -> Option<Spot> {
        if self.below(2) == 0 {
            None
        } else {
            Some(self.spot())
        }
    }

    // A moment up to that of the clock.
    fn moment(&mut self) -> Moment {
        let end = self.clock.saturating_add(1);
        moment_of(self.below(end))
    }

    fn events_question(&mut self) -> EventsQuestion {
        let spot = self.spot();
        EventsQuestion {
            from: self.moment(),
            to: self.moment(),
            peer: spot.peer,
            prefix: spot.prefix,
            skip: u64::from(self.below(3)),
        }
    }

    fn rows_question(&mut self) -> RowsQuestion {
        RowsQuestion {
            moment: self.moment(),
            select: self.select(),
            after: self.after(),
        }
    }

    /// A question of which prefixes changed.
    pub(crate) fn changed_question(&mut self) -> ChangedQuestion {
        ChangedQuestion {
            from: self.moment(),
            to: self.moment(),
            low: self.prefix(),
            high: self.prefix(),
            after: self.after(),
        }
    }

    /// A question of any kind.
    pub(crate) fn query(&mut self) -> Query {
        if self.below(4) == 0 {
            Query::Events(self.events_question())
        } else {
            Query::Rows(self.rows_question())
        }
    }
}
