//! A question is held after its first turn until another one is answered, each by a worker of its own, and leaves are split
//! between.

use crate::be;
use crate::made::{COLLECTORS, burnt_by, empty_store};
use crate::records::{DETOUR, LATER, UPDATE};
use crate::scenes::{ANSWER, QUESTION};
use crate::signals::Signals;
use crate::sockets::{are_warnings, serve_store};
use crate::steps::Step::{Connect, Hear, HearLast, Send, SendNoMore, SendOctets, SendOctetsOften};
use crate::steps::{Step, count_right};
use board::Opened;
use log::sink::Locked;
use query_threads::Gate;
use shared_archive::MemStore;
use std::marker::Brand;
use std::net::TcpListener;
use std::sync::Arc;
use std::sync::atomic::Ordering;
use std::thread;
use std::time::Clock;

/// How many blocks may be burnt of what is fed before the question is asked that is held: a leaf has room for more than half
/// of it.
const BURNT_BEFORE: usize = 1;

/// What is fed first, and then the question that is held: what is applied at its moment lies in a block.
static HELD: [Step; 11] = [
    Connect,
    Send(0, "feed 0 1000\n"),
    SendOctets(0, DETOUR),
    SendOctetsOften(0, UPDATE, 300),
    SendNoMore(0),
    HearLast(0, "B|0|301|301\nF|301|301|0|0|0\n"),
    Connect,
    Send(1, "mark 0 1704067201\n"),
    Hear(1, "S|1704067201\n"),
    Send(1, "at 1704067199 prefix 10.0.0.0/8\nquit\n"),
    HearLast(
        1,
        "R|0|192.0.2.1|65001|10.0.0.0/8|65001 65003|IGP|192.0.2.1|||NAG||\nE|1\nok\n",
    ),
];

/// What is fed while the question is held, and then the question that is answered before it.
static FREE: [Step; 12] = [
    Connect,
    Send(0, "feed 0 1000\n"),
    SendOctetsOften(0, LATER, 300),
    SendNoMore(0),
    HearLast(0, "B|301|601|601\nF|300|300|0|0|0\n"),
    Connect,
    Send(1, "mark 0 1704067202\n"),
    Hear(1, "S|1704067202\n"),
    Send(1, QUESTION),
    Hear(1, ANSWER),
    Send(1, "stop\n"),
    HearLast(1, "ok\n"),
];

/// Holds the question 1 after its first turn until the question 2 is answered.
#[derive(Drop)]
struct HoldGate<R: Clock> {
    clock: R,
    signals: Arc<Signals>,
}

impl<R: Clock> Gate for HoldGate<R> {
    fn descended(&self, request: u64) {
        let signals: &Signals = &self.signals;
        if request == 1 {
            signals.is_held.store(true, Ordering::SeqCst);
            signals.wait_for(&self.clock, &signals.is_done);
        }
    }

    fn answered(&self, request: u64) {
        let signals: &Signals = &self.signals;
        if request == 2 {
            signals.is_done.store(true, Ordering::SeqCst);
        }
    }
}

#[test]
fn a_question_is_answered_while_another_is_held(rt: HostRuntime) {
    let alloc = rt.alloc();
    let listener = TcpListener::bind(&rt, "127.0.0.1:0").expect(&rt, "a socket");
    let address = listener.local_addr().expect(&rt, "a port");
    let log = Locked::new(rt, Vec::new(alloc));
    let signals = Arc::new(alloc, Signals::new()).expect(&rt, "memory for the signals");
    let seen = signals.clone().expect(&rt, "a clone of the signals");
    let gate = HoldGate {
        clock: rt,
        signals: signals.clone().expect(&rt, "a clone of the signals"),
    };
    let store = empty_store(alloc).expect(&rt, "an empty archive");
    let held = thread::spawn(&rt, move || count_right(&rt, alloc, address, &HELD));
    let free = thread::spawn(&rt, move || {
        let signals: &Signals = &seen;
        signals.wait_for(&rt, &signals.is_held);
        count_right(&rt, alloc, address, &FREE)
    });
    let opened = Opened::new(alloc, COLLECTORS).expect(&rt, "a board");
    let served = serve_store::<
        MemStore,
        Brand,
        HoldGate<HostRuntime>,
        HostRuntime,
        Locked<HostRuntime, Vec<u8>>,
    >(&rt, alloc, opened, store, gate, &listener, &log);
    let held = held.expect(&rt, "a thread").join(&rt);
    let free = free.expect(&rt, "a thread").join(&rt);
    be(&rt, held == HELD.len(), "the question that is held");
    be(&rt, free == FREE.len(), "the question that isn't");
    let is_late = signals.is_late.load(Ordering::SeqCst);
    be(&rt, !is_late, "nobody waited for too long");
    be(&rt, are_warnings(&log.into_inner(), 0), "no warning");
    let burnt = served.map_or(0, burnt_by);
    be(&rt, burnt > BURNT_BEFORE, "leaves were split");
}
