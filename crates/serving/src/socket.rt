//! A connection's socket, which waits for its client for a while, and keeps why it failed.

ghost use Rattle.std.specs.Io.{ReadsAtMost, WritesAtMost};
ghost use Rattle.std.specs.Io.KnownBytes.{ReadConsumes, WriteAppends};

use crate::house::Signals;
use std::cell::Cell;
use std::io;
use std::io::{Error, ErrorKind, Read, Write};

/// A call on a socket that failed, and why.
#[derive(Clone, Copy, Debug)]
pub(crate) struct Lapse {
    pub(crate) call: &'static str,
    pub(crate) why: Error,
}

impl Lapse {
    /// Whether the socket itself works, and its client was waited for in it for too long.
    pub(crate) fn is_idle(&self) -> bool {
        self.why.kind() == ErrorKind::WouldBlock
    }
}

/// Reads and writes as the socket in it, each of whose calls waits a second and is made again, and keeps the last call that failed.
#[derive(Drop)]
pub(crate) struct KeptSocket<'a, S> {
    socket: S,
    lapse: &'a Cell<Option<Lapse>>,
    signals: &'a Signals,
    /// How many calls a client is waited for: none after these.
    idle: u32,
}

impl<'a, S> KeptSocket<'a, S> {
    pub(crate) fn new(
        socket: S,
        lapse: &'a Cell<Option<Lapse>>,
        signals: &'a Signals,
        idle: u32,
    ) -> KeptSocket<'a, S> {
        KeptSocket {
            socket,
            lapse,
            signals,
            idle,
        }
    }
}

/// Keeps why a call failed, if it did. Returns whether its client was waited for in it for too long.
fn keep<T>(lapse: &Cell<Option<Lapse>>, call: &'static str, done: &io::Result<T>) -> bool {
    let Err(why) = done else {
        return false;
    };
    let kept = Lapse { call, why: *why };
    lapse.set(Some(kept));
    kept.is_idle()
}

/// Whether a call that ended so is made again: it waited for a second, or a signal interrupted it.
fn is_unready(why: Error) -> bool {
    matches!(why.kind(), ErrorKind::WouldBlock | ErrorKind::Interrupted)
}

/// Reads by as many calls as `idle` while nothing comes; by one, once the server is to stop. `WouldBlock` if nothing came in all of them.
fn read_patiently<S: Read>(
    socket: &mut S,
    buf: &mut [u8],
    signals: &Signals,
    idle: u32,
) -> io::Result<usize>
    ensures bound { ReadsAtMost result buf.new }
    ensures bytes { ReadConsumes (S.remaining socket.old) (S.remaining socket.new) result buf.new }
{
    for _ in 0..idle {
        // Asked before the call: after a stop each client has a whole second.
        let is_last = signals.is_stopping();
        match socket.read(buf) {
            Err(why) if is_unready(why) => {}
            done => return done,
        }
        if is_last {
            return Err(Error::from(ErrorKind::WouldBlock));
        }
    }
    Err(Error::from(ErrorKind::WouldBlock))
}

/// Writes as `read_patiently` reads, while nothing is taken.
fn write_patiently<S: Write>(
    socket: &mut S,
    buf: &[u8],
    signals: &Signals,
    idle: u32,
) -> io::Result<usize>
    ensures bound { WritesAtMost result buf.now }
    ensures bytes { WriteAppends (S.contents socket.old) (S.contents socket.new) result buf.now }
{
    for _ in 0..idle {
        let is_last = signals.is_stopping();
        match socket.write(buf) {
            Err(why) if is_unready(why) => {}
            done => return done,
        }
        if is_last {
            return Err(Error::from(ErrorKind::WouldBlock));
        }
    }
    Err(Error::from(ErrorKind::WouldBlock))
}

impl<S: Read> Read for KeptSocket<'_, S> {
    ghost remaining = { λ it. S.remaining it.socket };

    fn read(&mut self, buf: &mut [u8]) -> io::Result<usize> {
        let done = read_patiently(&mut self.socket, buf, self.signals, self.idle);
        if keep(self.lapse, "read", &done) {
            self.idle = 0;
        }
        done
    }
}

impl<S: Write> Write for KeptSocket<'_, S> {
    ghost contents = { λ it. S.contents it.socket };

    fn write(&mut self, buf: &[u8]) -> io::Result<usize> {
        let done = write_patiently(&mut self.socket, buf, self.signals, self.idle);
        if keep(self.lapse, "write", &done) {
            self.idle = 0;
        }
        done
    }

    fn flush(&mut self) -> io::Result<()> {
        self.socket.flush()
    }
}
