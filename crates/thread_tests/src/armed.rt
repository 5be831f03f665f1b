//! A batch is admitted while another thread is held in its first read of a block.

ghost use Rattle.std.specs.Prelude.{◌≡◌, ◌≤◌};
ghost use Rattle.board.specs.Opened.{name_of};

use crate::be;
use crate::logs::{Asked, Log};
use crate::made::{COLLECTORS, FIRST, SECOND, announcements, history_of};
use crate::reading::ArmedStore;
use crate::replay::is_so;
use crate::signals::Signals;
use board::{Named, Opened, Pass};
use interleaving_core::BatchReply;
use query_threads::{NoGate, Reader, Shared, Unpromised};
use route_model::Admission;
use std::alloc::Global;
use std::marker::Brand;
use std::sync::atomic::Ordering;
use std::sync::{Arc, Wait};
use std::thread;
use std::thread::Threads;

// A batch, and what was replied to it.
type Batch = (BatchReply, Vec<Admission>);

type Armed<B> = Shared<ArmedStore, Unpromised<B>, NoGate>;

// Asks for all that was announced.
fn ask<B: Named>(
    rt: &impl Wait,
    alloc: Global,
    stage: &Armed<B>,
    pass: &mut Pass<Unpromised<B>>,
) -> Option<Asked> {
    let mut reader = Reader::new(rt, alloc, stage, 8).ok()?;
    let query = history_of(FIRST, SECOND - 1);
    let answer = stage.ask(rt, pass, &mut reader, 1, query).ok()?;
    Some(Asked {
        query: history_of(FIRST, SECOND - 1),
        answer,
    })
}

// Admits a record, once blocks are being read.
fn give<B: Named>(
    rt: &impl Wait,
    alloc: Global,
    stage: &Armed<B>,
    signals: &Signals,
    pass: &mut Pass<Unpromised<B>>,
) -> Option<Batch> {
    let records = announcements(alloc, SECOND, 1)?;
    signals.wait_for(&signals.is_held);
    let reply = stage.admit(rt, pass, 0, &records).ok()?;
    signals.is_done.store(true, Ordering::SeqCst);
    Some((reply, records))
}

// What both threads did, and the store after it.
fn play<B: Named + Send + Sync, R: Threads + Wait + Sync>(
    rt: &R,
    alloc: Global,
    opened: Opened,
    store: ArmedStore,
    signals: &Signals,
) -> (Option<Asked>, Option<Batch>, ArmedStore)
    requires named { name_of opened ≡ B.table }
    requires some { 1 ≤ opened.collectors }
{
    let (stage, mut first): (Armed<B>, Pass<Unpromised<B>>) = Shared::new::<Unpromised<B>>(
        opened, store, NoGate,
    );
    let mut second = stage.split(&mut first);
    let (asked, given) = thread::join(
        rt,
        || ask(rt, alloc, &stage, &mut first),
        || give(rt, alloc, &stage, signals, &mut second),
    );
    let mut passes = Vec::new(alloc);
    let _first = passes.push(first);
    let _second = passes.push(second);
    (asked, given, stage.close(passes))
}

// The log of what both threads did, and of what was given before, or none where one of them was refused.
fn log_of(mut log: Log, asked: Option<Asked>, given: Option<Batch>) -> Option<Log> {
    log.asked.push(asked?).ok()?;
    let (reply, records) = given?;
    log.keep(&reply, records)?;
    Some(log)
}

/// Whether both threads were answered what one history holds.
fn is_right<R: Threads + Wait + Sync>(
    rt: &R,
    alloc: Global,
    signals: &Arc<Signals>,
) -> Option<bool> {
    let mut before = Log::new(alloc);
    let store = ArmedStore::loaded(alloc, signals, &mut before)?;
    let opened = Opened::new(alloc, COLLECTORS).ok()?;
    let (asked, given, store) = play::<Brand, R>(rt, alloc, opened, store, signals);
    is_so(alloc, &store, &log_of(before, asked, given)?)
}

#[test]
fn a_batch_is_admitted_while_blocks_are_read(rt: HostRuntime) {
    let signals = Arc::new(rt.alloc(), Signals::new(rt)).expect(&rt, "memory for the signals");
    let is_right = is_right(&rt, rt.alloc(), &signals);
    be(
        &rt,
        is_right == Some(true),
        "one history holds what both were answered",
    );
    be(
        &rt,
        signals.is_held.load(Ordering::SeqCst),
        "a read was held",
    );
    be(
        &rt,
        !signals.is_late.load(Ordering::SeqCst),
        "no thread waited for too long",
    );
}
