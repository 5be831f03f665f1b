//! A server writes pages home while it serves.

ghost use Rattle.disk_archive.specs.Cursors.{IsGathered, IsWalked, asks};
ghost use Rattle.disk_archive.specs.Descents.{IsErrandFor};
ghost use Rattle.once_store.specs.Readers.{kept_blocks, reader_disk};
ghost use Rattle.shared_archive.specs.Represented.{LocatedInPast, gathered_on, walked_on};
ghost use Rattle.shared_archive.specs.Held.{HeldFlushes, HeldLookFails, HeldReports, HeldRepresents, disk_in, pages_in, right_held};
ghost use Rattle.shared_archive.specs.Reopened.{Reopens};
ghost use Rattle.shared_archive.specs.Reported.{Misses};

use crate::be;
use crate::made::{COLLECTORS, empty_store};
use crate::signals::Signals;
use crate::sockets::serve_store;
use crate::steps::Step::{Connect, Hear, HearLast, Send};
use crate::steps::{Step, count_right};
use board::Opened;
use disk_archive::{Cursor, Errand};
use disk_memory::{MemOnce, MemSeen};
use disk_models::OnceDisk;
use interleaving_core::{BatchReply, Query};
use log::sink::Locked;
use once_store::ShelfReader;
use query_threads::{
    AdmitError, AskError, Flush, MarkError, NoGate, Step as Applying, Store, Trouble, Turn,
};
use route_history::ChangedCursor;
use route_meaning::{ChangedAnswer, ChangedQuestion};
use route_model::{Admission, Mark};
use shared_archive::MemStore;
use std::alloc::Global;
use std::marker::Brand;
use std::net::TcpListener;
use std::sync::Arc;
use std::sync::atomic::Ordering;
use std::thread;

/// What is done before pages are waited for, and after it.
static MARKED: [Step; 4] = [
    Connect,
    Send(0, "mark 0 1704067201\nquit\n"),
    Hear(0, "S|1704067201\n"),
    HearLast(0, "ok\n"),
];

static STOPPED: [Step; 3] = [Connect, Send(0, "stop\n"), HearLast(0, "ok\n")];

/// An archive on disks in memory which signals that no page waits to go home.
#[derive(Drop)]
struct WatchedStore {
    inner: MemStore,
    signals: Arc<Signals>,
}

impl Store for WatchedStore {
    type Disk = MemOnce;

    type Reader = ShelfReader<MemOnce>;

    type Seen = MemSeen;

    type Errand = Errand;

    type Cursor = Cursor;

    type Walk = ChangedCursor;

    ghost represents = { λ store p. HeldRepresents store.inner.archive p };

    ghost pages = { λ store. pages_in store.inner.archive };

    ghost disk_of = { λ store. disk_in store.inner.archive };

    ghost block_count = { λ disk. ⟦<MemOnce as OnceDisk>⟧.block_count disk };

    ghost reads = { λ reader. reader_disk reader };

    ghost kept = { λ reader. kept_blocks reader };

    ghost honest = { λ disk seen. ⟦<MemOnce as OnceDisk>⟧.honest_seen disk seen };

    ghost known = { λ seen. ⟦<MemOnce as OnceDisk>⟧.known seen };

    ghost asks = { λ cursor. asks cursor };

    ghost gathered = { λ cursor h. IsGathered cursor h };

    ghost walks = { λ walk. walk.question };

    ghost walked = { λ walk h. IsWalked walk h };

    ghost fits = { λ errand cursor. IsErrandFor cursor errand };

    ghost located = { λ errand cursor disk p. LocatedInPast (⟦<MemOnce as OnceDisk>⟧.block_count disk) errand cursor p };

    ghost right = { λ store p represented. right_held store.inner.archive p represented };

    ghost stays = { λ cursor h g right begins below gathered. gathered_on cursor h g begins gathered };

    ghost walk_stays = { λ walk h g right begins below walked. walked_on walk h g begins walked };

    ghost reports = { λ store trouble then. HeldReports store.inner.archive trouble then.inner.archive };

    ghost fails = { λ store trouble then. HeldLookFails store.inner.archive trouble then.inner.archive };

    ghost reopens = { λ store returned then. Reopens store.inner.archive returned then.inner.archive };

    ghost flushes = { λ store step then. HeldFlushes store.inner.archive step then.inner.archive };

    ghost misses = { λ seen trouble then. Misses ⟦<MemOnce as OnceDisk>⟧ seen trouble then };

    fn collectors(&self) -> u8 {
        self.inner.collectors()
    }

    fn ring(&self) -> u16 {
        self.inner.ring()
    }

    fn settled(&self) -> Mark {
        self.inner.settled()
    }

    fn admitted(&self, collector: u8) -> u64 {
        self.inner.admitted(collector)
    }

    fn admit(&mut self, collector: u8, batch: &[Admission]) -> Result<BatchReply, AdmitError> {
        self.inner.admit(collector, batch)
    }

    fn mark(&mut self, collector: u8, mark: Mark) -> Result<(), MarkError> {
        self.inner.mark(collector, mark)
    }

    fn apply_step(&mut self) -> Result<Applying, Trouble> {
        self.inner.apply_step()
    }

    fn flush_step(&mut self) -> Result<Flush, Trouble> {
        let reported = self.inner.flush_step();
        if reported == Ok(Flush::Clean) {
            let signals: &Signals = &self.signals;
            signals.is_done.store(true, Ordering::SeqCst);
        }
        reported
    }

    fn reopen(&mut self, alloc: Global) -> Result<(), Trouble> {
        self.inner.reopen(alloc)
    }

    fn start(alloc: Global, query: &Query) -> Cursor {
        MemStore::start(alloc, query)
    }

    fn descend(&mut self, cursor: &mut Cursor) -> Result<Turn<Errand>, AskError> {
        self.inner.descend(cursor)
    }

    fn seen(&mut self) -> Result<MemSeen, Trouble> {
        self.inner.seen()
    }

    fn reader(&self, alloc: Global, capacity: usize) -> Result<ShelfReader<MemOnce>, Trouble> {
        self.inner.reader(alloc, capacity)
    }

    fn finish(
        reader: &mut ShelfReader<MemOnce>,
        seen: &mut MemSeen,
        alloc: Global,
        errand: Errand,
        cursor: &mut Cursor,
    ) -> Result<(), Trouble> {
        MemStore::finish(reader, seen, alloc, errand, cursor)
    }

    fn start_walk(alloc: Global, question: ChangedQuestion) -> ChangedCursor {
        MemStore::start_walk(alloc, question)
    }

    fn look(
        &mut self,
        reader: &mut ShelfReader<MemOnce>,
        walk: &mut ChangedCursor,
    ) -> Result<Option<ChangedAnswer>, AskError> {
        self.inner.look(reader, walk)
    }
}

/// How many steps went right before pages were waited for, and after that.
#[derive(Drop)]
struct Right {
    marked: usize,
    stopped: usize,
}

#[test]
fn pages_go_home_while_a_server_serves(rt: HostRuntime) {
    let alloc = rt.alloc();
    let listener = TcpListener::bind(&rt, "127.0.0.1:0").expect(&rt, "a socket");
    let address = listener.local_addr().expect(&rt, "a port");
    let log = Locked::new(rt, Vec::new(alloc));
    let signals = Arc::new(alloc, Signals::new()).expect(&rt, "memory for the signals");
    let seen = signals.clone().expect(&rt, "a clone of the signals");
    let store = WatchedStore {
        inner: empty_store(alloc).expect(&rt, "an empty archive"),
        signals: signals.clone().expect(&rt, "a clone of the signals"),
    };
    let client = thread::spawn(&rt, move || {
        let signals: &Signals = &seen;
        let marked = count_right(&rt, alloc, address, &MARKED);
        signals.is_done.store(false, Ordering::SeqCst);
        signals.wait_for(&rt, &signals.is_done);
        let stopped = count_right(&rt, alloc, address, &STOPPED);
        Right { marked, stopped }
    });
    let opened = Opened::new(alloc, COLLECTORS).expect(&rt, "a board");
    let served = serve_store::<
        WatchedStore,
        Brand,
        NoGate,
        HostRuntime,
        Locked<HostRuntime, Vec<u8>>,
    >(&rt, alloc, opened, store, NoGate, &listener, &log);
    let right = client.expect(&rt, "a thread").join(&rt);
    be(&rt, right.marked == MARKED.len(), "the mark is set");
    be(&rt, right.stopped == STOPPED.len(), "the server is stopped");
    let is_late = signals.is_late.load(Ordering::SeqCst);
    be(&rt, !is_late, "pages went home");
    be(&rt, served.is_some(), "the server ended well");
}
