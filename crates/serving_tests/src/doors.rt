//! A server at a port and an admin socket, and its clients there: what a port takes, and clients that are idle.

use crate::be;
use crate::made::{COLLECTORS, empty_store};
use crate::sockets::{are_warnings, is_whole, serve_after};
use crate::steps::{Place, count_right_at};
use crate::visits::{HELD_WORKERS, IDLE_CLIENTS, POSTED, READ_ONLY, UNREAD, Visit};
use board::Opened;
use log::sink::Locked;
use query_threads::NoGate;
use serving::Doors;
use shared_archive::MemStore;
use std::alloc::Global;
use std::fs::Files;
use std::marker::Brand;
use std::net::{Net, TcpListener, TcpStream};
use std::os::unix::net::UnixListener;
use std::process::Abort;
use std::sync::Wait;
use std::thread::Threads;
use std::time::Clock;
use std::{fs, thread};

/// What became of a visit.
#[derive(Drop)]
struct Outcome {
    /// How many steps went right, before the first that didn't.
    right: usize,
    /// The server warned of nothing.
    is_quiet: bool,
    /// The archive has what it should.
    is_whole: bool,
}

/// A path for the admin socket beside a port: no other test has that port.
fn path_beside(alloc: Global, listener: &TcpListener) -> Option<String> {
    let port = listener.local_addr().ok()?.port();
    format!(in alloc; "/tmp/rha_doors_{port}").ok()
}

/// Listens at a path, of which nothing is left.
fn listen_at<R: Files + Net>(rt: &R, path: &str) -> Option<UnixListener> {
    let _ = fs::remove_file(rt, path);
    UnixListener::bind(rt, path).ok()
}

/// Where clients connect to what is listened at.
fn place_of(listener: &TcpListener, admin: &UnixListener) -> Option<Place> {
    Some(Place {
        address: listener.local_addr().ok()?,
        admin: Some(admin.local_addr().ok()?),
        web: None,
    })
}

/// Where the server of a visit takes connections.
fn doors_of<'a>(listener: &'a TcpListener, admin: &'a UnixListener, visit: &Visit) -> Doors<'a> {
    Doors {
        listener,
        port: visit.port,
        admin: Some(admin),
        web: None,
        idle: visit.idle,
    }
}

/// Serves an empty archive to the clients of a visit. None where that can't be begun.
fn visited<
    R: Threads
        + Wait
        + Clock
        + Files
        + Net<Listener = TcpListener, Stream = TcpStream>
        + Copy
        + Drop
        + Send
        + Sync
        + 'static,
>(rt: R, alloc: Global, visit: &Visit) -> Option<Outcome> {
    let listener = TcpListener::bind(&rt, "127.0.0.1:0").ok()?;
    let path = path_beside(alloc, &listener)?;
    let admin = listen_at(&rt, path.as_str())?;
    let place = place_of(&listener, &admin)?;
    let doors = doors_of(&listener, &admin, visit);
    let log = Locked::new(rt, Vec::new(alloc));
    let store = empty_store(alloc)?;
    let steps = visit.steps;
    let clients = thread::spawn(&rt, move || count_right_at(&rt, alloc, &place, steps)).ok()?;
    let opened = Opened::new(alloc, COLLECTORS).ok()?;
    let store = serve_after::<MemStore, Brand, NoGate, R, Locked<R, Vec<u8>>>(
        &rt,
        alloc,
        opened,
        store,
        NoGate,
        &doors,
        visit.workers,
        &log,
    );
    let right = clients.join(&rt);
    let _ = fs::remove_file(&rt, path.as_str());
    Some(Outcome {
        right,
        is_quiet: are_warnings(&log.into_inner(), 0),
        is_whole: is_whole(store, None, visit.records),
    })
}

/// Ends a test that is wrong: all of the visit has to have gone right.
fn be_right(rt: &impl Abort, visit: &Visit, outcome: Option<Outcome>) {
    let outcome = outcome.expect(rt, "a server");
    be(
        rt,
        outcome.right == visit.steps.len(),
        "the steps of clients",
    );
    be(rt, outcome.is_quiet, "no warning");
    be(rt, outcome.is_whole, "the archive");
}

#[test]
fn a_read_only_port_takes_questions_alone(rt: HostRuntime) {
    be_right(&rt, &READ_ONLY, visited(rt, rt.alloc(), &READ_ONLY));
}

#[test]
fn a_port_that_closes_http_reads_no_line_after_it(rt: HostRuntime) {
    be_right(&rt, &POSTED, visited(rt, rt.alloc(), &POSTED));
}

#[test]
fn idle_clients_are_ended(rt: HostRuntime) {
    be_right(&rt, &IDLE_CLIENTS, visited(rt, rt.alloc(), &IDLE_CLIENTS));
}

#[test]
fn a_client_that_reads_nothing_is_ended(rt: HostRuntime) {
    be_right(&rt, &UNREAD, visited(rt, rt.alloc(), &UNREAD));
}

#[test]
fn a_stop_gets_through_the_admin_socket(rt: HostRuntime) {
    be_right(&rt, &HELD_WORKERS, visited(rt, rt.alloc(), &HELD_WORKERS));
}
