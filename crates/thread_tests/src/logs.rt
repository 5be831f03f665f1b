//! What a thread did, and what it was answered.

use interleaving_core::{Answer, BatchReply, Query};
use route_model::Admission;
use std::alloc::Global;

/// A record that was admitted, with its number among those of its collector.
#[derive(Drop)]
pub(crate) struct Given {
    pub(crate) collector: u8,
    pub(crate) number: u64,
    pub(crate) record: Admission,
}

/// A question, and what it was answered.
#[derive(Drop)]
pub(crate) struct Asked {
    pub(crate) query: Query,
    pub(crate) answer: Answer,
}

/// What one thread did.
#[derive(Drop)]
pub(crate) struct Log {
    pub(crate) given: Vec<Given>,
    pub(crate) asked: Vec<Asked>,
    /// No reply was one that mustn't come.
    pub(crate) is_right: bool,
}

impl Log {
    pub(crate) fn new(alloc: Global) -> Log {
        Log {
            given: Vec::new(alloc),
            asked: Vec::new(alloc),
            is_right: true,
        }
    }

    /// Remembers whether something that must hold holds.
    pub(crate) fn expect(&mut self, holds: bool) {
        self.is_right = self.is_right && holds;
    }

    /// Remembers the records of a batch by what was replied: those that aren't late have the numbers of the receipt, in their order. None
    /// where memory ran out.
    pub(crate) fn keep(&mut self, reply: &BatchReply, records: Vec<Admission>) -> Option<()> {
        let collector = reply.receipt.collector;
        let mut number = reply.receipt.from;
        for (index, record) in records.into_iter().enumerate() {
            if !reply.late.iter().any(|late| late.index == index) {
                let given = Given {
                    collector,
                    number,
                    record,
                };
                self.given.push(given).ok()?;
                number = number.saturating_add(1);
            }
        }
        self.expect(number == reply.receipt.to);
        Some(())
    }

    /// Adds what another thread did. None where memory ran out.
    pub(crate) fn add(&mut self, other: Log) -> Option<()> {
        let Log {
            given,
            asked,
            is_right,
        } = other;
        self.expect(is_right);
        for it in given {
            self.given.push(it).ok()?;
        }
        for it in asked {
            self.asked.push(it).ok()?;
        }
        Some(())
    }
}
