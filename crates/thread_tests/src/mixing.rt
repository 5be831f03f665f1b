//! One thread's calls on a shared archive.

use crate::chance::Chance;
use crate::logs::{Asked, Given, Log};
use crate::made::{COLLECTORS, RING, STEPS, draw_batch, draw_query, mark_of};
use crate::signals::Signals;
use board::{Named, Pass};
use interleaving_core::Query;
use query_threads::{AdmitError, Gate, MarkError, Reader, Shared, Step, Unpromised};
use route_model::{Admission, Moment};
use shared_archive::MemStore;
use std::alloc::Global;
use std::sync::atomic::Ordering;
use std::sync::{Arc, Wait};

/// Holds the question 1 after its first turn until the question 2 is answered.
#[derive(Drop)]
pub(crate) struct HoldGate {
    pub(crate) signals: Arc<Signals>,
}

impl Gate for HoldGate {
    fn descended(&self, request: u64) {
        let signals: &Signals = &self.signals;
        if request == 1 {
            signals.hold();
        }
    }

    fn answered(&self, request: u64) {
        let signals: &Signals = &self.signals;
        if request == 2 {
            signals.is_done.store(true, Ordering::SeqCst);
        }
    }
}

/// The archive of a test. Each call of a test names its board `B`.
pub(crate) type Stage<B> = Shared<MemStore, Unpromised<B>, HoldGate>;

/// A thread's pass and reader, and what it did so far.
#[derive(Drop)]
pub(crate) struct Hand<B: Named> {
    pub(crate) alloc: Global,
    pub(crate) pass: Pass<Unpromised<B>>,
    pub(crate) reader: Reader<MemStore, Unpromised<B>>,
    pub(crate) chance: Chance,
    pub(crate) log: Log,
}

impl<B: Named> Hand<B> {
    /// With a reader that keeps up to `capacity` blocks, from 1 to 1,024. None where there is no memory.
    pub(crate) fn new(
        rt: &impl Wait,
        alloc: Global,
        stage: &Stage<B>,
        pass: Pass<Unpromised<B>>,
        capacity: usize,
        seed: u64,
    ) -> Option<Hand<B>> {
        let reader = Reader::new(rt, alloc, stage, capacity.clamp(1, 1024)).ok()?;
        Some(Hand {
            alloc,
            pass,
            reader,
            chance: Chance { last: seed },
            log: Log::new(alloc),
        })
    }

    /// Gives records. The count that the thread sees afterwards has them.
    pub(crate) fn give(
        &mut self,
        rt: &impl Wait,
        stage: &Stage<B>,
        collector: u8,
        records: Vec<Admission>,
    ) -> Option<()> {
        if collector >= stage.collectors() {
            return None;
        }
        let before = stage.durable(&mut self.pass, collector);
        match stage.admit(rt, &mut self.pass, collector, &records) {
            Ok(reply) => {
                let after = stage.durable(&mut self.pass, collector);
                let receipt = reply.receipt;
                self.log.expect(
                    receipt.collector == collector && before <= receipt.from && receipt.to <= after,
                );
                self.log.keep(&reply, records)?;
            }
            Err(AdmitError::IntakeFull) => {}
            Err(_) => self.log.expect(false),
        }
        Some(())
    }

    /// Sets a mark, if the collector's isn't above it.
    pub(crate) fn mark(&mut self, rt: &impl Wait, stage: &Stage<B>, collector: u8, end: u64) {
        match stage.mark(rt, &mut self.pass, collector, mark_of(end)) {
            Ok(()) | Err(MarkError::MarkBack) => {}
            Err(_) => self.log.expect(false),
        }
    }

    /// Applies until nothing may be applied, or many times.
    pub(crate) fn apply_all(&mut self, rt: &impl Wait, stage: &Stage<B>) {
        for _ in 0..STEPS {
            match stage.apply(rt, &mut self.pass) {
                Ok(Step::Applied) => {}
                Ok(Step::Idle) => return,
                Err(_) => break,
            }
        }
        self.log.expect(false);
    }

    /// Gives records of the first collector, marks both after them, and applies all.
    pub(crate) fn give_all(
        &mut self,
        rt: &impl Wait,
        stage: &Stage<B>,
        records: Vec<Admission>,
        end: u64,
    ) -> Option<()> {
        self.give(rt, stage, 0, records)?;
        for collector in 0..COLLECTORS {
            self.mark(rt, stage, collector, end);
        }
        self.apply_all(rt, stage);
        Some(())
    }

    /// Asks a question that has to be answered.
    pub(crate) fn ask(
        &mut self,
        rt: &impl Wait,
        stage: &Stage<B>,
        request: u64,
        query: &Query,
    ) -> Option<()> {
        match stage.ask(rt, &mut self.pass, &mut self.reader, request, *query) {
            Ok(answer) => {
                let asked = Asked {
                    query: *query,
                    answer,
                };
                self.log.asked.push(asked).ok()?;
            }
            Err(_) => self.log.expect(false),
        }
        Some(())
    }

    /// Asks a question of moments that the thread has seen to be settled, if there is one.
    pub(crate) fn ask_settled(&mut self, rt: &impl Wait, stage: &Stage<B>) -> Option<()> {
        let settled = stage.watermark(&mut self.pass) / Moment::SECOND;
        match settled.checked_sub(1) {
            Some(last) => {
                let moment = last.saturating_sub(u64::from(self.chance.below(60)));
                let query = draw_query(&mut self.chance, moment);
                self.ask(rt, stage, 0, &query)
            }
            None => Some(()),
        }
    }

    /// Goes on with a pass that is split off, which sees no less, and asks for the settings.
    fn look(&mut self, stage: &Stage<B>, collector: u8) -> Option<()> {
        if collector >= stage.collectors() {
            return None;
        }
        let settled = stage.watermark(&mut self.pass);
        let durable = stage.durable(&mut self.pass, collector);
        self.pass = stage.split(&mut self.pass);
        let sees_more = settled <= stage.watermark(&mut self.pass)
            && durable <= stage.durable(&mut self.pass, collector);
        self.log.expect(sees_more);
        self.log
            .expect(stage.collectors() == COLLECTORS && stage.ring() == RING);
        Some(())
    }

    /// Any one call.
    pub(crate) fn mix(&mut self, rt: &impl Wait, stage: &Stage<B>) -> Option<()> {
        let collector = self.chance.below(COLLECTORS);
        let seen = stage.watermark(&mut self.pass) / Moment::SECOND;
        let soon = seen.saturating_add(u64::from(self.chance.below(8)));
        match self.chance.below(11) {
            0..=2 => {
                let records = draw_batch(self.alloc, &mut self.chance, collector, soon)?;
                self.give(rt, stage, collector, records)
            }
            3 | 4 => {
                self.mark(rt, stage, collector, soon);
                Some(())
            }
            5 | 6 => {
                let applied = stage.apply(rt, &mut self.pass);
                self.log.expect(applied.is_ok());
                Some(())
            }
            7 => {
                let flushed = stage.flush(rt, &mut self.pass);
                self.log.expect(flushed.is_ok());
                Some(())
            }
            8 => self.look(stage, collector),
            _ => self.ask_settled(rt, stage),
        }
    }
}
