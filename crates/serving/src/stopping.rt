//! Connections that are taken and let go.

use crate::doors::Doors;
use crate::house::Signals;
use crate::link::{Link, Peer};
use crate::socket::Lapse;
use crossbeam_channel::Sender;
use log::Log;
use std::io::Read;
use std::net::{Net, OpenListener, OpenStream, Shutdown, TcpListener};
use std::os::fd::OwnedFd;
use std::os::unix::net::{UnixListener, UnixStream};
use std::sync::Wait;
use std::time::{Clock, Duration};
use std::{io, thread};

/// How many milliseconds no connection is taken after one that couldn't be, as when the process is out of descriptors; and pass between
/// two looks whether connections are taken.
const REST: u64 = 10;

/// How many milliseconds each read waits for a client that was sent the last line.
const LINGER: u64 = 200;

/// How many such reads there are at most.
const LINGERS: u32 = 64;

/// How many milliseconds the acceptor is called for.
const CALL: u64 = 1_000;

/// Warns of a connection that can't be taken, and rests.
fn rest<R: Clock>(rt: &R, log: &impl Log, signals: &Signals, peer: Peer, why: io::Error) {
    let lapse = Lapse {
        call: "accept",
        why,
    };
    signals.untaken.warn(rt, log, peer, &lapse);
    thread::sleep(rt, Duration::from_millis(REST));
}

/// Hands a connection to the workers. If too many wait for one it is closed. Returns whether there are workers.
fn hand_over(rt: &impl Wait, queue: &Sender<Link>, link: Link) -> bool {
    match queue.try_send(rt, link) {
        Ok(()) => true,
        Err(why) => !why.is_disconnected(),
    }
}

/// Waits until connections are taken. Returns false if they never are, as when a thread of the server can't be started.
pub(crate) fn wait_for_opening<R: Wait + Clock>(rt: &R, signals: &Signals) -> bool {
    for _ in rt.forever() {
        if signals.is_stopping() {
            return false;
        }
        if signals.is_open() {
            return true;
        }
        thread::sleep(rt, Duration::from_millis(REST));
    }
    unreachable!()
}

/// Takes connections and hands them to workers, until the server is to stop. The queue ends with it.
pub(crate) fn take_connections<R: Wait + Clock>(
    rt: &R,
    log: &impl Log,
    listener: &TcpListener,
    queue: Sender<Link>,
    signals: &Signals,
) {
    for connection in listener.incoming() {
        if signals.is_stopping() {
            return;
        }
        match connection {
            Ok(stream) => {
                if !hand_over(rt, &queue, Link::Tcp(stream)) {
                    return;
                }
            }
            Err(why) => {
                let peer = match listener.local_addr() {
                    Ok(address) => Peer::Tcp(address),
                    Err(_) => Peer::Unknown,
                };
                rest(rt, log, signals, peer, why);
            }
        }
    }
}

/// Takes connections of the admin socket, as `take_connections` does.
pub(crate) fn take_admins<R: Wait + Clock>(
    rt: &R,
    log: &impl Log,
    listener: &UnixListener,
    queue: Sender<Link>,
    signals: &Signals,
) {
    for connection in listener.incoming() {
        if signals.is_stopping() {
            return;
        }
        match connection {
            Ok(stream) => {
                if !hand_over(rt, &queue, Link::Admin(stream)) {
                    return;
                }
            }
            Err(why) => rest(rt, log, signals, Peer::Admin, why),
        }
    }
}

/// Wakes the acceptor of a listener, which waits for a connection: it is given a last one that nobody serves.
fn wake<R: Net>(rt: &R, listener: &TcpListener) {
    if let Ok(address) = listener.local_addr() {
        let _ = rt.connect_timeout(address, Duration::from_millis(CALL));
    }
}

/// Wakes the acceptor of the admin socket. The socket is shut down for that: by now its file may be gone, or be another server's, so that no
/// connection would reach it.
fn wake_admin(listener: &UnixListener) {
    if let Ok(twin) = listener.try_clone() {
        let socket = UnixStream::from(OwnedFd::from(twin));
        let _ = socket.shutdown(Shutdown::Both);
    }
}

/// Ends the taking of connections, if it hasn't ended, and wakes the acceptors.
pub(crate) fn stop_taking<R: Net>(rt: &R, doors: &Doors<'_>, signals: &Signals) {
    if signals.is_stopping() {
        return;
    }
    signals.stop();
    wake(rt, doors.listener);
    if let Some(web) = doors.web {
        wake(rt, web);
    }
    if let Some(admin) = doors.admin {
        wake_admin(admin);
    }
}

/// Lets a connection go whose last line was sent. What its client still sends is read for a while, since the system drops what wasn't
/// delivered where a connection is closed that has octets unread.
pub(crate) fn let_go(link: &Link) {
    if link.send_no_more().is_err() || link.wait(Duration::from_millis(LINGER)).is_err() {
        return;
    }
    let mut unread = [0u8; 4096];
    for _ in 0..LINGERS {
        match (&mut &*link).read(&mut unread) {
            Ok(0) | Err(_) => return,
            Ok(_) => {}
        }
    }
}
