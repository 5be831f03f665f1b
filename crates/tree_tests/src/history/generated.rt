//! Generated histories: questions of all kinds against the plain program, with versions in a block.

use super::asking::{ask_events, ask_rows};
use super::said::{Said, admission_of, events_text, moment_of, peer_of, prefix_of, rows_text};
use super::store::{ListStore, Past, place_of};
use crate::be_at;
use route_meaning::{
    EventsQuestion, PlacedAdmission, RowsQuestion, Select, Spot, answer_events, answer_rows,
};
use route_model::{Address, Admission, Key, Moment, Peer, Prefix};
use std::alloc::Global;
use version_model::Stamp;

/// Numbers that follow from a seed.
#[derive(Drop)]
struct Generator {
    state: u64,
}

impl Generator {
    /// A number below the limit, which isn't 0.
    fn below(&mut self, limit: u32) -> u32 {
        self.state = self
            .state
            .wrapping_mul(6364136223846793005)
            .wrapping_add(1442695040888963407);
        let high = (self.state >> 33) as u32;
        if limit == 0 { 0 } else { high % limit }
    }

    /// One of three peers, of which two share collector and address.
    fn peer(&mut self) -> Peer {
        match self.below(3) {
            0 => peer_of(0, 65001),
            1 => peer_of(0, 65002),
            _ => peer_of(1, 65001),
        }
    }

    /// One of few prefixes that lie in one another.
    fn prefix(&mut self) -> Prefix {
        match self.below(5) {
            0 => prefix_of(0, 0, 0),
            1 => prefix_of(0, 0, 15),
            2 => prefix_of(1, 0, 16),
            3 => prefix_of(1, 1, 24),
            _ => prefix_of(1, 1, 32),
        }
    }

    fn said(&mut self) -> (Peer, Said) {
        let peer = self.peer();
        let prefix = self.prefix();
        let said = match self.below(8) {
            0 | 1 => Said::Withdraws(prefix),
            2 => Said::Ends,
            _ => Said::Announces(prefix, self.below(100)),
        };
        (peer, said)
    }

    /// What up to three peers say.
    fn some_said(&mut self, alloc: Global) -> Option<Vec<(Peer, Said)>> {
        let mut said = Vec::new(alloc);
        for _ in 0..self.below(4) {
            said.push(self.said()).ok()?;
        }
        Some(said)
    }

    /// Admissions at times that never fall.
    fn admissions(&mut self, alloc: Global) -> Option<Vec<Admission>> {
        let mut clock = 0u32;
        let mut admissions = Vec::new(alloc);
        for _ in 0..12u32 {
            clock = clock.saturating_add(self.below(3));
            let said = self.some_said(alloc)?;
            admissions.push(admission_of(alloc, clock, &said)?).ok()?;
        }
        Some(admissions)
    }

    fn rows_question(&mut self) -> RowsQuestion {
        let peer = self.peer();
        let prefix = self.prefix();
        let select = match self.below(5) {
            0 => Select::Route(peer, prefix),
            1 => Select::ByPrefix(prefix),
            2 => Select::Covering(Address::V4([10, 1, 1, 0])),
            3 => Select::PeerTable(peer),
            _ => Select::All,
        };
        let after = Spot {
            peer: self.peer(),
            prefix: self.prefix(),
        };
        RowsQuestion {
            moment: moment_of(self.below(26)),
            select,
            after: if self.below(2) == 0 {
                None
            } else {
                Some(after)
            },
        }
    }

    fn events_question(&mut self) -> EventsQuestion {
        EventsQuestion {
            from: moment_of(self.below(8)),
            to: moment_of(self.below(26)),
            peer: self.peer(),
            prefix: self.prefix(),
            skip: self.below(3) as u64,
        }
    }
}

/// Applies the changes of an admission to a store.
fn apply(store: &mut ListStore, admission: &Admission) -> Option<()> {
    for change in admission.changes() {
        store.apply(admission.time(), change)?;
    }
    Some(())
}

/// The store of the changes of admissions.
fn store_of(alloc: Global, admissions: &[Admission]) -> Option<ListStore> {
    let mut store = ListStore::new(alloc);
    for admission in admissions {
        apply(&mut store, admission)?;
    }
    Some(store)
}

/// Whether a question of a history has the plain answer.
fn are_events(
    alloc: Global,
    question: EventsQuestion,
    list: &[PlacedAdmission],
    store: &mut ListStore,
    past: &mut Past,
) -> Option<bool> {
    let answer = answer_events(alloc, list, &question).ok()?;
    let plain = events_text(alloc, &answer)?;
    Some(ask_events(alloc, store, past, question)? == plain)
}

/// Whether a question of a moment has the plain answer.
fn are_rows(
    alloc: Global,
    question: RowsQuestion,
    list: &[PlacedAdmission],
    store: &mut ListStore,
    past: &mut Past,
) -> Option<bool> {
    let answer = answer_rows(alloc, list, &question).ok()?;
    let plain = rows_text(alloc, &answer)?;
    Some(ask_rows(alloc, store, past, question)? == plain)
}

/// Whether twelve questions have the plain answers.
fn agree(
    alloc: Global,
    numbers: &mut Generator,
    list: &[PlacedAdmission],
    store: &mut ListStore,
    past: &mut Past,
) -> Option<bool> {
    for _ in 0..12u32 {
        let agrees = if numbers.below(3) == 0 {
            are_events(alloc, numbers.events_question(), list, store, past)?
        } else {
            are_rows(alloc, numbers.rows_question(), list, store, past)?
        };
        if !agrees {
            return Some(false);
        }
    }
    Some(true)
}

/// Admissions with their collector.
fn placed(alloc: Global, admissions: &[Admission]) -> Option<Vec<PlacedAdmission<'_>>> {
    let mut list = Vec::new(alloc);
    for admission in admissions {
        list.push(PlacedAdmission::new(0, admission)).ok()?;
    }
    Some(list)
}

/// Whether twelve questions of a generated history have the plain answers, where versions before an end lie in a block.
fn all_agree(alloc: Global, seed: u64, end: u64, capacity: usize) -> Option<bool> {
    let mut numbers = Generator { state: seed };
    let admissions = numbers.admissions(alloc)?;
    let list = placed(alloc, &admissions)?;
    let mut store = store_of(alloc, &admissions)?;
    let place = place_of(
        Key::session(&peer_of(1, 65001)),
        Stamp::new(end.saturating_mul(Moment::SECOND), 0),
    );
    let mut past = Past::of(alloc, &store, &place, capacity)?;
    store.stop_at(Key::prefix(&peer_of(0, 65002), &prefix_of(0, 0, 15)));
    store.lay_down(place);
    agree(alloc, &mut numbers, &list, &mut store, &mut past)
}

#[test]
fn answers_are_those_of_the_plain_program(rt: HostRuntime) {
    for seed in 0u64..24 {
        // Nothing in the past, some and most of it; a reader of one block and of many.
        let end = 1 + seed % 20;
        let capacity = if seed % 2 == 0 { 1 } else { 1_024 };
        let agree = all_agree(rt.alloc(), seed, end, capacity) == Some(true);
        be_at(&rt, agree, "a history", seed);
    }
}
