//! Where a server accepts connections.

use server::Port;
use std::net::TcpListener;
use std::os::unix::net::UnixListener;

/// Where a server accepts connections, and how long it waits for a client.
#[derive(Clone, Copy)]
pub struct Doors<'a> {
    /// Connections of this one are served under `port`.
    pub listener: &'a TcpListener,
    pub port: Port,
    /// Connections of this one may feed, mark and stop, and have workers of their own: one for each collector, and two more. When the server ends, its
    /// socket is shut down.
    pub admin: Option<&'a UnixListener>,
    /// Connections of this one send requests of HTTP, which change nothing, and have workers of their own, as many as the others.
    pub web: Option<&'a TcpListener>,
    /// A connection is ended that sends nothing for this many seconds, or takes nothing of its answers: 1 or more.
    pub idle: u32,
}

/// Where further connections are accepted, by an acceptor of their own.
#[derive(Clone, Copy)]
pub(crate) enum Door<'a> {
    /// Those of HTTP.
    Web(&'a TcpListener),
    /// Those of the admin socket.
    Admin(&'a UnixListener),
}

/// What is served over a connection.
#[derive(Clone, Copy)]
pub(crate) enum Serves {
    /// Lines, as this port takes them.
    Lines(Port),
    /// HTTP.
    Web,
}

/// How many seconds a client of HTTP may be idle at most: browsers keep connections open that they don't use.
const KEPT: u32 = 5;

impl Serves {
    /// How many seconds a client may be idle.
    pub(crate) fn idle(self, doors: &Doors<'_>) -> u32 {
        match self {
            Serves::Lines(_) => doors.idle,
            Serves::Web => doors.idle.min(KEPT),
        }
    }
}

/// What the admin socket takes: all lines. HTTP isn't looked for, since no web page reaches it.
pub(crate) const ADMIN: Port = Port {
    read_only: false,
    closes_http: false,
};
