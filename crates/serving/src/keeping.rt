//! What is done with a served archive beside its connections: changes are applied, and pages flushed.

use crate::house::Signals;
use crate::outage::Outage;
use board::{Named, Pass};
use log::Log;
use query_threads::{Flush, Gate, OnDisk, Shared, Step, Store, Trouble};
use std::alloc::Global;
use std::sync::Wait;
use std::thread;
use std::time::{Clock, Duration};

/// How many milliseconds a thread rests that finds nothing to do.
const REST: u64 = 10;

/// How many microseconds pass between two steps of applying, in which questions take the archive's lock: a thread that lets it go and takes it at once
/// again gets it before those that wait for it are awake.
const GAP: u64 = 50;

/// Why a call on a device failed, in words, if no such call was warned of since the archive was opened. Of the calls that break nothing,
/// as a read for a question, the archive keeps the first one.
fn unnoted_failure<A: Store, N: Named + OnDisk<A::Disk>, G: Gate + Drop>(
    rt: &impl Wait,
    alloc: Global,
    shared: &Shared<A, N, G>,
    outage: &Outage,
) -> Option<String> {
    if outage.is_noted() {
        return None;
    }
    shared.failure(rt, alloc)
}

/// Applies the next change, if one may be applied, and returns whether there was one. If a device of the archive failed, the
/// archive is opened again. A failed call that the archive can go on after is warned of.
fn apply_next<A: Store, N: Named + OnDisk<A::Disk>, G: Gate + Drop, R: Wait + Clock, L: Log>(
    rt: &R,
    alloc: Global,
    shared: &Shared<A, N, G>,
    pass: &mut Pass<N>,
    outage: &mut Outage,
    log: &L,
) -> bool {
    // It is looked for before the step: the step fails where this one broke a disk, so that it isn't warned of twice.
    // A read that fails in the step opens the archive again too: a device's error doesn't say whether its call broke a disk.
    let failure = unnoted_failure(rt, alloc, shared, outage);
    match shared.apply(rt, pass) {
        Err(Trouble::Fault | Trouble::NeedsRecovery) => {
            outage.goes_on(rt, log, shared.failure(rt, alloc));
            // The next step shows whether it is open.
            let _ = shared.reopen(rt, pass, alloc);
            false
        }
        step => {
            outage.ends(rt, log);
            outage.notes(rt, log, failure);
            if step != Ok(Step::Applied) {
                return false;
            }
            outage.is_over();
            true
        }
    }
}

/// Applies what may be applied, until that fails or nothing may be applied any more.
fn apply_rest<A: Store, N: Named + OnDisk<A::Disk>, G: Gate + Drop>(
    rt: &impl Wait,
    shared: &Shared<A, N, G>,
    pass: &mut Pass<N>,
) {
    for _ in rt.forever() {
        if shared.apply(rt, pass) != Ok(Step::Applied) {
            return;
        }
    }
}

/// Applies what may be applied, until no worker serves and nothing may be applied any more. If applying fails, it is
/// tried again: after a rest, or, if a device of the archive failed, after a pause that grows while it fails. Once no worker serves it
/// isn't: then the flush at the end of the server reports it.
pub(crate) fn keep_applying<
    A: Store,
    N: Named + OnDisk<A::Disk>,
    G: Gate + Drop,
    R: Wait + Clock,
    L: Log,
>(rt: &R, alloc: Global, shared: &Shared<A, N, G>, pass: &mut Pass<N>, signals: &Signals, log: &L) {
    let mut outage = Outage::none();
    for _ in rt.forever() {
        if signals.is_left() {
            apply_rest(rt, shared, pass);
            return;
        }
        if !outage.takes_rest() && apply_next(rt, alloc, shared, pass, &mut outage, log) {
            thread::sleep(rt, Duration::from_micros(GAP));
            continue;
        }
        thread::sleep(rt, Duration::from_millis(REST));
    }
}

/// Writes pages home that wait, until no worker serves.
pub(crate) fn keep_flushing<A: Store, N: Named + OnDisk<A::Disk>, G: Gate + Drop, R: Wait + Clock>(
    rt: &R,
    shared: &Shared<A, N, G>,
    pass: &mut Pass<N>,
    signals: &Signals,
) {
    for _ in rt.forever() {
        if signals.is_left() {
            return;
        }
        if shared.flush(rt, pass) != Ok(Flush::Flushed) {
            thread::sleep(rt, Duration::from_millis(REST));
        }
    }
}

/// Writes pages home until none waits.
pub(crate) fn flush_all<A: Store, N: Named + OnDisk<A::Disk>, G: Gate + Drop>(
    rt: &impl Wait,
    shared: &Shared<A, N, G>,
    pass: &mut Pass<N>,
) -> Result<(), Trouble> {
    for _ in rt.forever() {
        if shared.flush(rt, pass)? == Flush::Clean {
            return Ok(());
        }
    }
    unreachable!()
}
