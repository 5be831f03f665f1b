//! A gate is called once of a request's first turn, after it, and once of its reply.

ghost use Rattle.std.specs.Prelude.{◌≡◌, ◌≤◌};
ghost use Rattle.board.specs.Opened.{name_of};

use crate::be;
use crate::logs::Log;
use crate::made::{COLLECTORS, FIRST, SECOND, history_of, mark_of};
use crate::reading::ArmedStore;
use crate::signals::Signals;
use board::{Named, Opened, Pass};
use interleaving_core::{Answer, Query};
use query_threads::{AskError, Gate, Reader, Shared, Unpromised};
use std::alloc::Global;
use std::marker::Brand;
use std::sync::atomic::{AtomicBool, AtomicU64, Ordering};
use std::sync::{Arc, Wait};

const REQUEST: u64 = 7;

/// How often each was called, and whether all came in its turn.
#[derive(Drop)]
struct Reported {
    descended: AtomicU64,
    answered: AtomicU64,
    is_wrong: AtomicBool,
}

impl Reported {
    fn new() -> Reported {
        Reported {
            descended: AtomicU64::new(0),
            answered: AtomicU64::new(0),
            is_wrong: AtomicBool::new(false),
        }
    }

    fn expect(&self, holds: bool) {
        if !holds {
            self.is_wrong.store(true, Ordering::SeqCst);
        }
    }

    // Whether each was called once, and in its turn.
    fn is_right(&self) -> bool {
        self.descended.load(Ordering::SeqCst) == 1
            && self.answered.load(Ordering::SeqCst) == 1
            && !self.is_wrong.load(Ordering::SeqCst)
    }
}

/// Counts its calls.
#[derive(Drop)]
struct CountGate {
    signals: Arc<Signals>,
    reported: Arc<Reported>,
}

impl Gate for CountGate {
    fn descended(&self, request: u64) {
        let signals: &Signals = &self.signals;
        let reported: &Reported = &self.reported;
        let turns = signals.turns.load(Ordering::SeqCst);
        let replies = reported.answered.load(Ordering::SeqCst);
        reported.expect(request == REQUEST && turns == 1 && replies == 0);
        let _before = reported.descended.fetch_add(1, Ordering::SeqCst);
    }

    fn answered(&self, request: u64) {
        let reported: &Reported = &self.reported;
        let first_turns = reported.descended.load(Ordering::SeqCst);
        reported.expect(request == REQUEST && first_turns == 1);
        let _before = reported.answered.fetch_add(1, Ordering::SeqCst);
    }
}

type Counting<B> = Shared<ArmedStore, Unpromised<B>, CountGate>;

fn ask<B: Named>(
    rt: &impl Wait,
    alloc: Global,
    stage: &Counting<B>,
    pass: &mut Pass<Unpromised<B>>,
    query: Query,
) -> Option<Result<Answer, AskError>> {
    let mut reader = Reader::new(rt, alloc, stage, 8).ok()?;
    Some(stage.ask(rt, pass, &mut reader, REQUEST, query))
}

fn play<B: Named, R: Wait>(
    rt: &R,
    alloc: Global,
    opened: Opened,
    store: ArmedStore,
    gate: CountGate,
    query: Query,
) -> Option<Result<Answer, AskError>>
    requires named { name_of opened ≡ B.table }
    requires some { 1 ≤ opened.collectors }
{
    let (stage, mut pass): (Counting<B>, Pass<Unpromised<B>>) = Shared::new::<Unpromised<B>>(
        opened, store, gate,
    );
    let reply = ask(rt, alloc, &stage, &mut pass, query);
    let mut passes = Vec::new(alloc);
    let _pass = passes.push(pass);
    let _store = stage.close(passes);
    reply
}

// Signals by which no thread is held.
fn signals_of(alloc: Global, clock: HostRuntime) -> Option<Arc<Signals>> {
    let signals = Arc::new(alloc, Signals::new(clock)).ok()?;
    signals.is_done.store(true, Ordering::SeqCst);
    Some(signals)
}

/// What a question was replied, and how many turns it took.
#[derive(Drop)]
struct Replied {
    reply: Result<Answer, AskError>,
    turns: u64,
}

// What a question of all that was announced up to this moment is replied. None where the gate was called otherwise than it must be.
fn reply_to<R: Wait>(rt: &R, alloc: Global, signals: &Arc<Signals>, last: u64) -> Option<Replied> {
    let reported = Arc::new(alloc, Reported::new()).ok()?;
    let gate = CountGate {
        signals: signals.clone().ok()?,
        reported: reported.clone().ok()?,
    };
    let store = ArmedStore::loaded(alloc, signals, &mut Log::new(alloc))?;
    let opened = Opened::new(alloc, COLLECTORS).ok()?;
    let query = history_of(FIRST, last);
    let reply = play::<Brand, R>(rt, alloc, opened, store, gate, query)?;
    let turns = signals.turns.load(Ordering::SeqCst);
    if reported.is_right() {
        Some(Replied { reply, turns })
    } else {
        None
    }
}

// Whether the reply is an answer in more than one turn.
fn is_answered(replied: &Replied) -> bool {
    replied.reply.is_ok() && replied.turns > 1
}

// Whether the reply is that the question is above the watermark, in one turn.
fn is_above(replied: &Replied) -> bool {
    let mark = mark_of(SECOND);
    replied.turns == 1
        && matches!(&replied.reply, Err(AskError::AboveWatermark(found)) if *found == mark)
}

#[test]
fn a_gate_is_called_once_of_a_first_turn_and_once_of_a_reply(rt: HostRuntime) {
    let alloc = rt.alloc();
    let signals = signals_of(alloc, rt).expect(&rt, "memory for the signals");
    let replied = reply_to(&rt, alloc, &signals, SECOND - 1).expect(
        &rt,
        "a gate called in its turn",
    );
    be(&rt, is_answered(&replied), "below the watermark");
    let signals = signals_of(alloc, rt).expect(&rt, "memory for the signals");
    let replied = reply_to(&rt, alloc, &signals, SECOND).expect(&rt, "a gate called in its turn");
    be(&rt, is_above(&replied), "at the watermark");
}
