//! Connections of both kinds.

ghost use Rattle.std.specs.Io.{ReadsAtMost, WritesAtMost};

use std::io::{Read, Write};
use std::net::{OpenStream, Shutdown, SocketAddr, TcpStream};
use std::os::unix::net::UnixStream;
use std::time::Duration;
use std::{fmt, io};

/// A connection that was taken.
#[derive(Drop)]
pub(crate) enum Link {
    Tcp(TcpStream),
    /// Of the admin socket.
    Admin(UnixStream),
}

/// Whose connection it is.
#[derive(Clone, Copy)]
pub(crate) enum Peer {
    Tcp(SocketAddr),
    /// It was reset while it waited.
    Unknown,
    Admin,
}

impl fmt::Display for Peer {
    fn fmt<W: fmt::Write>(&self, f: &mut fmt::Formatter<W>) -> fmt::Result {
        match self {
            Peer::Tcp(address) => write!(f, "{address}"),
            Peer::Unknown => f.write_str("an unknown address"),
            Peer::Admin => f.write_str("the admin socket"),
        }
    }
}

impl Link {
    /// Whose connection it is.
    pub(crate) fn peer(&self) -> Peer {
        match self {
            Link::Tcp(stream) => match stream.peer_addr() {
                Ok(address) => Peer::Tcp(address),
                Err(_) => Peer::Unknown,
            },
            Link::Admin(_) => Peer::Admin,
        }
    }

    /// Sends each answer at once, if the system would gather them.
    pub(crate) fn hurry(&self) {
        if let Link::Tcp(stream) = self {
            let _ = stream.set_nodelay(true);
        }
    }

    /// Each read and write waits for so long, and then gives `WouldBlock`.
    pub(crate) fn wait(&self, duration: Duration) -> io::Result<()> {
        match self {
            Link::Tcp(stream) => {
                stream.set_read_timeout(Some(duration))?;
                stream.set_write_timeout(Some(duration))
            }
            Link::Admin(stream) => {
                stream.set_read_timeout(Some(duration))?;
                stream.set_write_timeout(Some(duration))
            }
        }
    }

    /// Sends no more.
    pub(crate) fn send_no_more(&self) -> io::Result<()> {
        match self {
            Link::Tcp(stream) => stream.shutdown(Shutdown::Write),
            Link::Admin(stream) => stream.shutdown(Shutdown::Write),
        }
    }

    /// Reads some octets.
    fn receive(&self, buf: &mut [u8]) -> io::Result<usize>
        ensures bound { ReadsAtMost result buf.new }
    {
        match self {
            Link::Tcp(stream) => (&mut &*stream).read(buf),
            Link::Admin(stream) => (&mut &*stream).read(buf),
        }
    }

    /// Writes some octets.
    fn send(&self, buf: &[u8]) -> io::Result<usize>
        ensures bound { WritesAtMost result buf.now }
    {
        match self {
            Link::Tcp(stream) => (&mut &*stream).write(buf),
            Link::Admin(stream) => (&mut &*stream).write(buf),
        }
    }
}

impl Read for &Link {
    fn read(&mut self, buf: &mut [u8]) -> io::Result<usize> {
        let link: &Link = *self;
        link.receive(buf)
    }
}

impl Write for &Link {
    fn write(&mut self, buf: &[u8]) -> io::Result<usize> {
        let link: &Link = *self;
        link.send(buf)
    }

    fn flush(&mut self) -> io::Result<()> {
        Ok(())
    }
}
