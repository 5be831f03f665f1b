//! A server and its clients.

ghost use Rattle.std.specs.Prelude.{◌≡◌, ◌≤◌};
ghost use Rattle.board.specs.Opened.{name_of};

use crate::be;
use crate::made::{COLLECTORS, store_of};
use crate::scenes::SCENES;
use crate::steps::{Place, count_right_at};
use crate::visits::ALL;
use board::{Named, Opened};
use log::Log;
use log::sink::Locked;
use query_threads::{Flush, Gate, NoGate, Step, Store, Trouble, Unpromised};
use serving::{Doors, serve};
use shared_archive::MemStore;
use std::alloc::Global;
use std::marker::Brand;
use std::net::{Net, TcpListener, TcpStream};
use std::sync::Wait;
use std::thread;
use std::thread::Threads;
use std::time::Clock;

/// How many connections are served at a time.
const WORKERS: u8 = 2;

/// How many seconds a client may be idle: more than a question is held, or a client waits.
pub(crate) const IDLE: u32 = 60;

/// Serves an archive at these doors until a client stops the server. The archive that is handed back, if the server ended well.
pub(crate) fn serve_after<
    A: Store + Drop + Send,
    B: Named + Send + Sync,
    G: Gate + Drop + Send + Sync,
    R: Threads + Wait + Clock + Net<Listener = TcpListener, Stream = TcpStream> + Sync,
    L: Log + Sync,
>(
    rt: &R,
    alloc: Global,
    opened: Opened,
    store: A,
    gate: G,
    doors: &Doors<'_>,
    workers: u8,
    log: &L,
) -> Option<A>
where
    A::Reader: Send,
    A::Seen: Send,
    A::Errand: Send,
    A::Cursor: Send,
    A::Walk: Send,
    requires named { name_of opened ≡ B.table }
    requires some { 1 ≤ opened.collectors }
{
    let (store, ended) = serve::<A, Unpromised<B>, Unpromised<B>, G, R, L, _>(
        rt,
        alloc,
        opened,
        store,
        gate,
        doors,
        workers,
        log,
        || true,
    );
    ended.ok()?;
    Some(store)
}

/// Where a server with one port takes connections.
fn doors_at(listener: &TcpListener) -> Doors<'_> {
    Doors {
        listener,
        port: ALL,
        admin: None,
        web: None,
        idle: IDLE,
    }
}

/// Where a server with a port of HTTP beside it does.
fn doors_with<'a>(listener: &'a TcpListener, web: &'a TcpListener) -> Doors<'a> {
    Doors {
        listener,
        port: ALL,
        admin: None,
        web: Some(web),
        idle: IDLE,
    }
}

/// Serves an archive until a client stops the server. The archive that is handed back, if the server ended well.
pub(crate) fn serve_store<
    A: Store + Drop + Send,
    B: Named + Send + Sync,
    G: Gate + Drop + Send + Sync,
    R: Threads + Wait + Clock + Net<Listener = TcpListener, Stream = TcpStream> + Sync,
    L: Log + Sync,
>(
    rt: &R,
    alloc: Global,
    opened: Opened,
    store: A,
    gate: G,
    listener: &TcpListener,
    log: &L,
) -> Option<A>
where
    A::Reader: Send,
    A::Seen: Send,
    A::Errand: Send,
    A::Cursor: Send,
    A::Walk: Send,
    requires named { name_of opened ≡ B.table }
    requires some { 1 ≤ opened.collectors }
{
    let doors = doors_at(listener);
    serve_after::<A, B, G, R, L>(rt, alloc, opened, store, gate, &doors, WORKERS, log)
}

/// Whether a line of a log is the warning of a socket that failed, with its client, the call and the moment.
fn is_warning(line: &[u8]) -> bool {
    let Ok(line) = str::from_utf8(line) else {
        return false;
    };
    let Some((head, client)) = line.split_once("] 29 Outside: 127.0.0.1:") else {
        return false;
    };
    let has_call = client.contains(": read: ") || client.contains(": write: ");
    head.starts_with("[WARN ") && has_call && client.ends_with("Z")
}

/// Whether each of the lines of a log is the warning of a failed socket, and there are `count`.
pub(crate) fn are_warnings(lines: &[u8], count: usize) -> bool {
    let mut left = count;
    for line in lines.split(|octet| *octet == b'\n') {
        if line.is_empty() {
            continue;
        }
        if left == 0 || !is_warning(line) {
            return false;
        }
        left -= 1;
    }
    left == 0
}

/// Whether the archive has this many records, what may be applied is, and all pages are written home. The trouble is why the next change
/// can't be applied, if one may be.
pub(crate) fn is_whole(store: Option<MemStore>, trouble: Option<Trouble>, records: u64) -> bool {
    let Some(mut store) = store else {
        return false;
    };
    let next = match trouble {
        Some(trouble) => Err(trouble),
        None => Ok(Step::Idle),
    };
    store.apply_step() == next
        && store.flush_step() == Ok(Flush::Clean)
        && store.admitted(0) == records
}

#[test]
fn clients_are_answered_as_they_should_be(rt: HostRuntime) {
    let alloc = rt.alloc();
    for scene in &SCENES {
        let name = scene.name();
        let listener = TcpListener::bind(&rt, "127.0.0.1:0").expect(&rt, name);
        let web = TcpListener::bind(&rt, "127.0.0.1:0").expect(&rt, name);
        let place = Place {
            address: listener.local_addr().expect(&rt, name),
            admin: None,
            web: web.local_addr().ok(),
        };
        let log = Locked::new(rt, Vec::new(alloc));
        let store = store_of(alloc, &scene.made()).expect(&rt, name);
        let steps = scene.steps();
        let clients = thread::spawn(&rt, move || count_right_at(&rt, alloc, &place, steps));
        let opened = Opened::new(alloc, COLLECTORS).expect(&rt, name);
        let doors = doors_with(&listener, &web);
        let served = serve_after::<
            MemStore,
            Brand,
            NoGate,
            HostRuntime,
            Locked<HostRuntime, Vec<u8>>,
        >(&rt, alloc, opened, store, NoGate, &doors, WORKERS, &log);
        let right = clients.expect(&rt, name).join(&rt);
        be(&rt, right == steps.len(), name);
        be(&rt, are_warnings(&log.into_inner(), scene.warnings()), name);
        let is_whole = is_whole(served, scene.trouble(), scene.records());
        be(&rt, is_whole, name);
    }
}
