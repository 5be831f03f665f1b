//! What threads signal to each other.

use std::sync::atomic::{AtomicBool, Ordering};
use std::thread;
use std::time::{Clock, Duration};

/// How many milliseconds a thread that waits rests between two looks.
const REST: u64 = 10;

/// How many looks it takes before it gives up: enough that a slow machine is no reason.
const LOOKS: u32 = 4_000;

/// Flags of one thread for another.
#[derive(Drop)]
pub(crate) struct Signals {
    /// A thread is held.
    pub(crate) is_held: AtomicBool,
    /// What a thread waits for is done.
    pub(crate) is_done: AtomicBool,
    /// A thread gave up waiting.
    pub(crate) is_late: AtomicBool,
}

impl Signals {
    pub(crate) fn new() -> Signals {
        Signals {
            is_held: AtomicBool::new(false),
            is_done: AtomicBool::new(false),
            is_late: AtomicBool::new(false),
        }
    }

    /// Waits until the flag is set, which is one of these, or it is too late.
    pub(crate) fn wait_for(&self, clock: &impl Clock, flag: &AtomicBool) {
        for _ in 0..LOOKS {
            if flag.load(Ordering::SeqCst) {
                return;
            }
            thread::sleep(clock, Duration::from_millis(REST));
        }
        self.is_late.store(true, Ordering::SeqCst);
    }
}
