//! What a thread does on a shared archive.

use crate::made::{FIRST, RECORDS, SECOND, announcements, draw_batch, draw_query, history_of};
use crate::mixing::{Hand, Stage};
use crate::signals::Signals;
use board::Named;
use route_model::Moment;
use std::sync::Wait;

/// How many questions a thread asks that does nothing else.
const QUESTIONS: u16 = 2_000;

/// The moments about which it asks: `MOMENTS` below this one.
const ASKED: u64 = 1_200;

const MOMENTS: u8 = 200;

/// The moment up to which records are given while a question is held.
const LAST: u64 = SECOND + RECORDS as u64;

/// What a thread does.
#[derive(Clone, Copy)]
pub(crate) enum Part {
    /// This many calls of any kind.
    Mix(u16),
    /// This often it gives records, applies them, and asks about the moment right below the watermark.
    Own(u16),
    /// It gives records of every second moment from one to another, and applies them.
    Give(u64, u64),
    /// It asks with a reader that keeps this many blocks.
    Ask(usize),
    /// It asks question 1, at which the gate holds it.
    AskHeld,
    /// It gives records once that question is held, applies them, and asks question 2.
    GiveMeanwhile,
}

impl Part {
    /// How many blocks the thread's reader keeps.
    pub(crate) fn capacity(&self, number: u64) -> usize {
        match self {
            Part::Mix(_) => 1 + number as usize % 16,
            Part::Own(_) | Part::Give(_, _) => 8,
            Part::Ask(blocks) => *blocks,
            Part::AskHeld | Part::GiveMeanwhile => 4,
        }
    }

    /// From where its numbers are drawn: threads that only ask draw the same questions.
    pub(crate) fn seed(&self, number: u64) -> u64 {
        match self {
            Part::Ask(_) => 5,
            _ => number,
        }
    }

    /// Does it. None where there was no memory.
    pub(crate) fn play<B: Named>(
        &self,
        rt: &impl Wait,
        stage: &Stage<B>,
        signals: &Signals,
        hand: &mut Hand<B>,
    ) -> Option<()> {
        match self {
            Part::Mix(calls) => mix(rt, stage, hand, *calls),
            Part::Own(rounds) => own(rt, stage, hand, *rounds),
            Part::Give(from, to) => give_each(rt, stage, hand, *from, *to),
            Part::Ask(_) => ask_all(rt, stage, hand),
            Part::AskHeld => hand.ask(rt, stage, 1, &history_of(FIRST, SECOND - 1)),
            Part::GiveMeanwhile => give_meanwhile(rt, stage, signals, hand),
        }
    }
}

fn mix<B: Named>(rt: &impl Wait, stage: &Stage<B>, hand: &mut Hand<B>, calls: u16) -> Option<()> {
    for _ in 0..calls {
        hand.mix(rt, stage)?;
    }
    Some(())
}

/// Gives records, marks both collectors after them, and applies all: then the watermark is no less than the marks, and the moment just
/// below it is answered.
fn round<B: Named>(rt: &impl Wait, stage: &Stage<B>, hand: &mut Hand<B>) -> Option<()> {
    let seen = stage.watermark(&mut hand.pass) / Moment::SECOND;
    let records = draw_batch(hand.alloc, &mut hand.chance, 0, seen)?;
    let end = seen.saturating_add(3);
    hand.give_all(rt, stage, records, end)?;
    let settled = stage.watermark(&mut hand.pass) / Moment::SECOND;
    hand.log.expect(end <= settled);
    let query = draw_query(&mut hand.chance, settled.saturating_sub(1));
    hand.ask(rt, stage, 0, &query)
}

fn own<B: Named>(rt: &impl Wait, stage: &Stage<B>, hand: &mut Hand<B>, rounds: u16) -> Option<()> {
    for _ in 0..rounds {
        round(rt, stage, hand)?;
    }
    Some(())
}

fn give_each<B: Named>(
    rt: &impl Wait,
    stage: &Stage<B>,
    hand: &mut Hand<B>,
    from: u64,
    to: u64,
) -> Option<()> {
    for time in (from..to).step_by(2) {
        let records = draw_batch(hand.alloc, &mut hand.chance, 0, time)?;
        hand.give_all(rt, stage, records, time.saturating_add(2))?;
    }
    Some(())
}

fn ask_all<B: Named>(rt: &impl Wait, stage: &Stage<B>, hand: &mut Hand<B>) -> Option<()> {
    for _ in 0..QUESTIONS {
        let moment = ASKED - 1 - u64::from(hand.chance.below(MOMENTS));
        let query = draw_query(&mut hand.chance, moment);
        hand.ask(rt, stage, 0, &query)?;
    }
    Some(())
}

fn give_meanwhile<B: Named>(
    rt: &impl Wait,
    stage: &Stage<B>,
    signals: &Signals,
    hand: &mut Hand<B>,
) -> Option<()> {
    signals.wait_for(&signals.is_held);
    let records = announcements(hand.alloc, SECOND, RECORDS)?;
    hand.give_all(rt, stage, records, LAST)?;
    hand.ask(rt, stage, 2, &history_of(FIRST, LAST - 1))
}
