//! What each thread of a server does.

ghost use Rattle.std.specs.Prelude.{IsSome};
ghost use Rattle.board.specs.Past.{Among};

use crate::client::{Closing, serve_client};
use crate::doors::{Door, Doors, Serves};
use crate::house::{Place, Signals};
use crate::keeping::{keep_applying, keep_flushing};
use crate::link::{Link, Peer};
use crate::socket::{KeptSocket, Lapse};
use crate::stopping::{let_go, stop_taking, take_admins, take_connections, wait_for_opening};
use board::{Named, Pass};
use crossbeam_channel::{Receiver, Sender};
use line_reader::LineReader;
use log::Log;
use query_threads::{Gate, OnDisk, Reader, Shared, Store};
use service::Output;
use std::alloc::Global;
use std::cell::Cell;
use std::io;
use std::io::{BufWriter, Error, ErrorKind};
use std::net::Net;
use std::sync::Wait;
use std::time::{Clock, Duration};
use web::{Others, serve_web};

/// How many blocks a worker keeps in memory, 16 MiB in all: a question in the past reads the same few blocks again and again, and each that isn't kept
/// is read and its digest computed anew.
const BLOCKS: usize = 1_024;

/// How many seconds each call on a socket waits.
const TURN: u64 = 1;

/// What one thread of a server does, beside the one that takes connections.
#[derive(Drop)]
pub(crate) enum Job<'a, N: Named> {
    /// It serves connections.
    Work(Receiver<Link>, Serves, Pass<N>, Place<'a>),
    /// It takes connections.
    Take(Sender<Link>, Door<'a>),
    /// It applies changes.
    Apply(Pass<N>),
    /// It writes pages home.
    Flush(Pass<N>),
}

/// What the threads of a server share beside the archive.
#[derive(Drop)]
pub(crate) struct Desk<'a, R, L> {
    pub(crate) rt: &'a R,
    pub(crate) alloc: Global,
    pub(crate) signals: &'a Signals,
    pub(crate) doors: &'a Doors<'a>,
    pub(crate) log: &'a L,
}

/// The connections that wait for the same workers.
#[derive(Clone, Copy)]
struct Waiting<'a> {
    queue: &'a Receiver<Link>,
}

impl Others for Waiting<'_> {
    fn wait(&self) -> bool {
        !self.queue.is_empty()
    }
}

/// A writer over the socket of a connection, each of whose calls waits for a second from now on.
fn writer_of<'a>(
    alloc: Global,
    link: &Link,
    socket: KeptSocket<'a, &'a Link>,
) -> io::Result<BufWriter<KeptSocket<'a, &'a Link>>> {
    link.wait(Duration::from_secs(TURN))?;
    BufWriter::new(alloc, socket)
}

/// Serves a connection to its end. `lapse` is then why its socket failed, if it did.
fn serve_link<A: Store, N: Named + OnDisk<A::Disk>, G: Gate + Drop, R: Wait + Clock + Net, L: Log>(
    desk: &Desk<'_, R, L>,
    shared: &Shared<A, N, G>,
    pass: &mut Pass<N>,
    reader: &mut Reader<A, N>,
    serves: Serves,
    others: &Waiting<'_>,
    link: &Link,
    lapse: &Cell<Option<Lapse>>,
) -> Closing
    requires reader { IsSome N.disk → Among reader.old pass.old.past.blocks }
    ensures reader { IsSome N.disk → Among reader.new pass.new.past.blocks }
{
    let idle = serves.idle(desk.doors);
    let writer = match writer_of(
        desk.alloc,
        link,
        KeptSocket::new(link, lapse, desk.signals, idle),
    ) {
        Ok(writer) => writer,
        Err(why) => {
            lapse.set(Some(Lapse { call: "open", why }));
            return Closing::Failed;
        }
    };
    let mut socket = KeptSocket::new(link, lapse, desk.signals, idle);
    let mut out = Output::new(writer);
    let (rt, alloc, meters) = (desk.rt, desk.alloc, &desk.signals.meters);
    match serves {
        Serves::Lines(port) => {
            let mut lines = LineReader::new(socket);
            serve_client(
                rt, alloc, shared, port, pass, reader, meters, &mut lines, &mut out,
            )
        }
        Serves::Web => {
            let ending = serve_web(
                rt,
                alloc,
                shared,
                pass,
                reader,
                meters,
                others,
                &mut socket,
                &mut out,
            );
            match ending {
                web::Ending::Done => Closing::Done,
                web::Ending::Failed => Closing::Failed,
            }
        }
    }
}

/// Closes a connection of this peer that ended so, and warns where its socket failed.
fn close_link<R: Net + Clock, L: Log>(
    desk: &Desk<'_, R, L>,
    closing: Closing,
    link: &Link,
    peer: Peer,
    lapse: Option<Lapse>,
) {
    match closing {
        Closing::Done => let_go(link),
        Closing::Stop => {
            stop_taking(desk.rt, desk.doors, desk.signals);
            let_go(link);
        }
        Closing::Failed => {
            // If no call failed, one took nothing of what was written.
            let lapse = lapse.unwrap_or(Lapse {
                call: "write",
                why: Error::from(ErrorKind::WriteZero),
            });
            if !lapse.is_idle() {
                desk.signals.failed.warn(desk.rt, desk.log, peer, &lapse);
            }
        }
    }
}

/// Serves connections, one after another, until no more come. If there is no memory for that, the server stops.
fn work<A: Store, N: Named + OnDisk<A::Disk>, G: Gate + Drop, R: Wait + Clock + Net, L: Log>(
    desk: &Desk<'_, R, L>,
    shared: &Shared<A, N, G>,
    pass: &mut Pass<N>,
    queue: &Receiver<Link>,
    serves: Serves,
) {
    let Ok(mut reader) = Reader::new(desk.rt, desk.alloc, shared, BLOCKS) else {
        desk.signals.lack_memory();
        stop_taking(desk.rt, desk.doors, desk.signals);
        return;
    };
    let others = Waiting { queue };
    for _ in desk.rt.forever() {
        let Ok(link) = queue.recv(desk.rt) else {
            return;
        };
        link.hurry();
        let peer = link.peer();
        let lapse = Cell::new(None);
        let closing = serve_link(
            desk,
            shared,
            pass,
            &mut reader,
            serves,
            &others,
            &link,
            &lapse,
        );
        close_link(desk, closing, &link, peer, lapse.get());
    }
}

/// Takes connections of a door from when the server opens until it is to stop.
fn take<R: Wait + Clock, L: Log>(desk: &Desk<'_, R, L>, door: Door<'_>, queue: Sender<Link>) {
    if !wait_for_opening(desk.rt, desk.signals) {
        return;
    }
    match door {
        Door::Web(listener) => {
            take_connections(desk.rt, desk.log, listener, queue, desk.signals);
        }
        Door::Admin(listener) => take_admins(desk.rt, desk.log, listener, queue, desk.signals),
    }
}

/// Does what one thread does, to its end.
pub(crate) fn run_job<
    A: Store,
    N: Named + OnDisk<A::Disk>,
    G: Gate + Drop,
    R: Wait + Clock + Net,
    L: Log,
>(desk: &Desk<'_, R, L>, shared: &Shared<A, N, G>, job: Job<'_, N>) {
    match job {
        Job::Work(queue, serves, mut pass, _place) => {
            work(desk, shared, &mut pass, &queue, serves)
        }
        Job::Take(queue, door) => take(desk, door, queue),
        Job::Apply(mut pass) => {
            keep_applying(
                desk.rt,
                desk.alloc,
                shared,
                &mut pass,
                desk.signals,
                desk.log,
            );
        }
        Job::Flush(mut pass) => keep_flushing(desk.rt, shared, &mut pass, desk.signals),
    }
}
