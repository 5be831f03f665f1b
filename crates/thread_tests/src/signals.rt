//! What a thread that is held and the thread for which it is held signal to each other.

use std::sync::atomic::{AtomicBool, AtomicU64, Ordering};
use std::thread;
use std::time::Duration;

// How often a thread that waits looks, before it gives up.
const LOOKS: u16 = 1_000;

// How many milliseconds it sleeps after each look.
const REST: u64 = 10;

/// Flags that are set once.
#[derive(Drop)]
pub(crate) struct Signals {
    clock: HostRuntime,
    /// A thread is held.
    pub(crate) is_held: AtomicBool,
    /// What it is held for is done.
    pub(crate) is_done: AtomicBool,
    /// A thread gave up waiting.
    pub(crate) is_late: AtomicBool,
    /// How many turns of questions were made.
    pub(crate) turns: AtomicU64,
}

impl Signals {
    pub(crate) fn new(clock: HostRuntime) -> Signals {
        Signals {
            clock,
            is_held: AtomicBool::new(false),
            is_done: AtomicBool::new(false),
            is_late: AtomicBool::new(false),
            turns: AtomicU64::new(0),
        }
    }

    /// Waits until the flag is set, which is one of these.
    pub(crate) fn wait_for(&self, flag: &AtomicBool) {
        for _ in 0..LOOKS {
            if flag.load(Ordering::SeqCst) {
                return;
            }
            thread::sleep(&self.clock, Duration::from_millis(REST));
        }
        self.is_late.store(true, Ordering::SeqCst);
    }

    /// Holds the first thread that comes, until what it is held for is done.
    pub(crate) fn hold(&self) {
        if !self.is_held.swap(true, Ordering::SeqCst) {
            self.wait_for(&self.is_done);
        }
    }
}
