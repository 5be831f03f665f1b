//! Clients of a server, which take one step after another over connections of their own.

use std::alloc::Global;
use std::io::{ErrorKind, Read, Write, read_to_string};
use std::net::{Net, OpenStream, Shutdown, SocketAddr, TcpListener, TcpStream};
use std::os::fd::OwnedFd;
use std::os::unix::net as unix;
use std::os::unix::net::UnixStream;
use std::thread;
use std::time::{Clock, Duration};
use test_octets::octets;

/// How many seconds a client waits for what it should receive, or for room for what it sends: more than a question is
/// held.
const PATIENCE: u64 = 50;

/// How many milliseconds a client rests after a question that it asks over and over.
const REST: u64 = 10;

/// How often it asks at most until it receives what it should.
const ASKS: u32 = 4_000;

/// What a client does. Connections have numbers, the first 0.
#[derive(Drop)]
pub(crate) enum Step {
    /// It connects.
    Connect,
    /// It connects to the admin socket.
    ConnectAdmin,
    /// It connects to the port of HTTP.
    ConnectWeb,
    /// It sends a text.
    Send(usize, &'static str),
    /// It sends octets, given as hexadecimal digits.
    SendOctets(usize, &'static str),
    /// It sends such octets this many times.
    SendOctetsOften(usize, &'static str, usize),
    /// It sends such octets with a number of two octets after them, for each number below this one.
    SendOctetsEach(usize, &'static str, u16),
    /// It sends a text this many times.
    SendOften(usize, &'static str, usize),
    /// It sends no more.
    SendNoMore(usize),
    /// It receives exactly this.
    Hear(usize, &'static str),
    /// It receives this, and then its connection ends.
    HearLast(usize, &'static str),
    /// It receives until its connection ends, whatever comes before.
    Drain(usize),
    /// It sends a line until it receives this; what it receives before is as long.
    AskUntil(usize, &'static str, &'static str),
    /// It sends a line this many times, and receives exactly this each time.
    AskOften(usize, &'static str, &'static str, usize),
    /// It goes away, whatever it receives.
    GoAway(usize),
}

/// Where a server takes connections.
#[derive(Clone, Drop)]
pub(crate) struct Place {
    pub(crate) address: SocketAddr,
    pub(crate) admin: Option<unix::SocketAddr>,
    pub(crate) web: Option<SocketAddr>,
}

/// The connections of clients.
#[derive(Drop)]
struct Clients {
    streams: Vec<Option<TcpStream>>,
}

impl Clients {
    /// One more connects. None where it can't.
    fn connect<R: Net<Listener = TcpListener, Stream = TcpStream>>(
        &mut self,
        rt: &R,
        address: SocketAddr,
    ) -> Option<()> {
        self.add(TcpStream::connect(rt, address).ok()?)
    }

    /// One more connects to the admin socket. None where it can't.
    fn connect_admin(&mut self, rt: &impl Net, admin: &Option<unix::SocketAddr>) -> Option<()> {
        let Some(admin) = admin else {
            return None;
        };
        let stream = UnixStream::connect_addr(rt, admin).ok()?;
        // A socket is a socket: both kinds are read, written and shut down alike.
        self.add(TcpStream::from(OwnedFd::from(stream)))
    }

    /// One more is connected.
    fn add(&mut self, stream: TcpStream) -> Option<()> {
        let patience = Some(Duration::from_secs(PATIENCE));
        stream.set_read_timeout(patience).ok()?;
        stream.set_write_timeout(patience).ok()?;
        self.streams.push(Some(stream)).ok()?;
        Some(())
    }

    /// The connection of this number, if it is there.
    fn stream(&self, number: usize) -> Option<&TcpStream> {
        self.streams.get(number)?.as_ref()
    }

    /// Sends octets over a connection. None where they can't be sent.
    fn send(&self, number: usize, octets: &[u8]) -> Option<()> {
        let stream = self.stream(number)?;
        (&mut &*stream).write_all(octets).ok()
    }

    /// Whether the next octets of a connection are this text.
    fn hears(&self, alloc: Global, number: usize, text: &str) -> Option<bool> {
        let stream = self.stream(number)?;
        let mut heard = vec![in alloc; 0u8; text.len()].ok()?;
        (&mut &*stream).read_exact(&mut heard).ok()?;
        Some(heard.as_slice() == text.as_bytes())
    }

    /// Whether all that comes of a connection until it ends is this text.
    fn hears_last(&self, alloc: Global, number: usize, text: &str) -> Option<bool> {
        let stream = self.stream(number)?;
        let heard = read_to_string(alloc, &*stream).ok()?;
        Some(heard.as_str() == text)
    }

    /// Receives until a connection ends or is reset, whatever comes before. Whether it does in time.
    fn drains(&self, alloc: Global, number: usize) -> Option<bool> {
        let stream = self.stream(number)?;
        match read_to_string(alloc, &*stream) {
            Ok(_) => Some(true),
            Err(why) => Some(why.kind() == ErrorKind::ConnectionReset),
        }
    }

    /// Lets a connection go.
    fn go_away(&mut self, number: usize) -> Option<()> {
        let place = self.streams.get_mut(number)?;
        *place = None;
        Some(())
    }
}

/// Sends octets `times` times.
fn send_often(clients: &Clients, number: usize, octets: &[u8], times: usize) -> Option<()> {
    for _ in 0..times {
        clients.send(number, octets)?;
    }
    Some(())
}

/// Sends octets with a number of two octets after them, for each number below this one.
fn send_each(
    alloc: Global,
    clients: &Clients,
    number: usize,
    octets: &[u8],
    end: u16,
) -> Option<()> {
    let mut all = Vec::new(alloc);
    for it in 0..end {
        all.extend_from_slice(octets).ok()?;
        all.extend_from_slice(&it.to_be_bytes()).ok()?;
    }
    clients.send(number, &all)
}

/// Sends a line until what comes back is this text. Returns whether it is in time.
fn ask_until(
    clock: &impl Clock,
    alloc: Global,
    clients: &Clients,
    number: usize,
    line: &str,
    text: &str,
) -> Option<bool> {
    for _ in 0..ASKS {
        clients.send(number, line.as_bytes())?;
        if clients.hears(alloc, number, text)? {
            return Some(true);
        }
        thread::sleep(clock, Duration::from_millis(REST));
    }
    Some(false)
}

/// Sends a line `times` times. Returns whether what comes back is this text each time.
fn ask_often(
    clock: &impl Clock,
    alloc: Global,
    clients: &Clients,
    number: usize,
    line: &str,
    text: &str,
    times: usize,
) -> Option<bool> {
    for _ in 0..times {
        clients.send(number, line.as_bytes())?;
        if !clients.hears(alloc, number, text)? {
            return Some(false);
        }
        thread::sleep(clock, Duration::from_millis(REST));
    }
    Some(true)
}

/// Takes a step. Whether it went as it has to; none where a socket failed.
fn take_step<R: Net<Listener = TcpListener, Stream = TcpStream> + Clock>(
    rt: &R,
    alloc: Global,
    place: &Place,
    clients: &mut Clients,
    step: &Step,
) -> Option<bool> {
    match step {
        Step::Connect => clients.connect(rt, place.address)?,
        Step::ConnectAdmin => clients.connect_admin(rt, &place.admin)?,
        Step::ConnectWeb => clients.connect(rt, place.web?)?,
        Step::Send(number, text) => clients.send(*number, text.as_bytes())?,
        Step::SendOctets(number, digits) => {
            clients.send(*number, &octets(alloc, digits).ok()?)?;
        }
        Step::SendOctetsOften(number, digits, times) => {
            send_often(clients, *number, &octets(alloc, digits).ok()?, *times)?;
        }
        Step::SendOctetsEach(number, digits, end) => {
            send_each(alloc, clients, *number, &octets(alloc, digits).ok()?, *end)?;
        }
        Step::SendOften(number, text, times) => {
            send_often(clients, *number, text.as_bytes(), *times)?;
        }
        Step::SendNoMore(number) => clients.stream(*number)?.shutdown(Shutdown::Write).ok()?,
        Step::Hear(number, text) => return clients.hears(alloc, *number, text),
        Step::HearLast(number, text) => {
            let is_right = clients.hears_last(alloc, *number, text);
            clients.go_away(*number)?;
            return is_right;
        }
        Step::Drain(number) => return clients.drains(alloc, *number),
        Step::AskUntil(number, line, text) => {
            return ask_until(rt, alloc, clients, *number, line, text);
        }
        Step::AskOften(number, line, text, times) => {
            return ask_often(rt, alloc, clients, *number, line, text, *times);
        }
        Step::GoAway(number) => clients.go_away(*number)?,
    }
    Some(true)
}

/// Stops a server whose clients went wrong, over the admin socket if there is one.
fn stop<R: Net<Listener = TcpListener, Stream = TcpStream>>(
    rt: &R,
    alloc: Global,
    place: &Place,
) -> Option<()> {
    let mut clients = Clients {
        streams: Vec::new(alloc),
    };
    if place.admin.is_some() {
        clients.connect_admin(rt, &place.admin)?;
    } else {
        clients.connect(rt, place.address)?;
    }
    clients.send(0, b"stop\n")?;
    clients.hears_last(alloc, 0, "ok\n")?;
    Some(())
}

/// How many of the steps went as they have to, before the first that didn't. Then the server is stopped, if it still serves.
pub(crate) fn count_right_at<R: Net<Listener = TcpListener, Stream = TcpStream> + Clock>(
    rt: &R,
    alloc: Global,
    place: &Place,
    steps: &[Step],
) -> usize {
    let mut clients = Clients {
        streams: Vec::new(alloc),
    };
    for (count, step) in steps.iter().enumerate() {
        if take_step(rt, alloc, place, &mut clients, step) != Some(true) {
            drop(clients);
            let _ = stop(rt, alloc, place);
            return count;
        }
    }
    steps.len()
}

/// The same with a server that has one port.
pub(crate) fn count_right<R: Net<Listener = TcpListener, Stream = TcpStream> + Clock>(
    rt: &R,
    alloc: Global,
    address: SocketAddr,
    steps: &[Step],
) -> usize {
    let place = Place {
        address,
        admin: None,
        web: None,
    };
    count_right_at(rt, alloc, &place, steps)
}
