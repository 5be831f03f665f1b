//! What the threads of a server share beside the archive.

use crate::warning::Warnings;
use server::Meters;
use std::sync::atomic::{AtomicBool, AtomicU64, Ordering};

/// What the threads of a server signal to one another.
#[derive(Drop)]
pub(crate) struct Signals {
    /// The questions that were asked.
    pub(crate) meters: Meters,
    /// Connections whose sockets failed.
    pub(crate) failed: Warnings,
    /// Connections that couldn't be taken.
    pub(crate) untaken: Warnings,
    /// All threads are made, and connections are taken.
    is_open: AtomicBool,
    /// No connection is taken any more.
    is_stopping: AtomicBool,
    /// A worker was out of memory to serve with.
    is_short: AtomicBool,
    /// How many places workers have.
    places: AtomicU64,
}

impl Signals {
    /// Of a server without workers, which takes no connections yet.
    pub(crate) fn new() -> Signals {
        Signals {
            meters: Meters::new(),
            failed: Warnings::new(),
            untaken: Warnings::new(),
            is_open: AtomicBool::new(false),
            is_stopping: AtomicBool::new(false),
            is_short: AtomicBool::new(false),
            places: AtomicU64::new(0),
        }
    }

    /// Begins the taking of connections.
    pub(crate) fn open(&self) {
        self.is_open.store(true, Ordering::SeqCst);
    }

    /// Whether the taking of connections has begun.
    pub(crate) fn is_open(&self) -> bool {
        self.is_open.load(Ordering::SeqCst)
    }

    /// Ends the taking of connections.
    pub(crate) fn stop(&self) {
        self.is_stopping.store(true, Ordering::SeqCst);
    }

    /// Whether the taking of connections has ended.
    pub(crate) fn is_stopping(&self) -> bool {
        self.is_stopping.load(Ordering::SeqCst)
    }

    /// Signals that a worker is out of memory to serve with.
    pub(crate) fn lack_memory(&self) {
        self.is_short.store(true, Ordering::SeqCst);
    }

    /// Whether a worker was out of memory to serve with.
    pub(crate) fn is_short(&self) -> bool {
        self.is_short.load(Ordering::SeqCst)
    }

    /// A place for one more worker.
    pub(crate) fn place(&self) -> Place<'_> {
        self.places.fetch_add(1, Ordering::SeqCst);
        Place { signals: self }
    }

    /// Whether no worker has a place any more.
    pub(crate) fn is_left(&self) -> bool {
        self.places.load(Ordering::SeqCst) == 0
    }
}

/// A worker's place. If it is let go, the worker serves no more, or never began.
pub(crate) struct Place<'a> {
    signals: &'a Signals,
}

impl Drop for Place<'_> {
    fn drop(self) {
        self.signals.places.fetch_sub(1, Ordering::SeqCst);
        let Place { signals: _ } = self;
    }
}
