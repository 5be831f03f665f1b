//! A server's life: an archive is shared, served by threads, and handed back.

ghost use Rattle.std.specs.Prelude.{◌≡◌, ◌<◌, ◌≤◌, [], length, Err, Some, IsSome, vec_len, vec_capacity};
ghost use Rattle.board.specs.Opened.{name_of};
ghost use Rattle.board.specs.Past.{Past, GoesOnAs};
ghost use Rattle.serving.specs.declared.serving.ServeError.TheVariants as serves;

use crate::doors::{ADMIN, Door, Doors, Serves};
use crate::house::Signals;
use crate::jobs::{Desk, Job, run_job};
use crate::keeping::flush_all;
use crate::link::Link;
use crate::stopping::{stop_taking, take_connections};
use board::{Named, Opened, Pass, Target};
use crossbeam_channel::{Receiver, bounded};
use log::Log;
use query_threads::{Gate, OnDisk, Shared, Store, Trouble};
use std::alloc::{AllocError, Global};
use std::net::{Net, TcpListener, TcpStream};
use std::sync::Wait;
use std::thread;
use std::thread::{Scope, Threads};
use std::time::Clock;
use thiserror::Error;

/// How many connections of each kind wait for a worker; further ones are closed. A process has 1,024 descriptors by default, and the admin socket and files have
/// to have some.
const QUEUE: usize = 900;

/// How many workers the admin socket has beside one for each collector.
const SPARE: u8 = 2;

/// Why a server ended otherwise than by `stop`, or not all was done at its end. What was acknowledged stays.
#[derive(Clone, Copy, Debug, PartialEq, Eq, Error)]
pub enum ServeError {
    /// There was no memory for its threads.
    #[error("out of memory")]
    OutOfMemory,
    /// One of its threads couldn't be made, so that no connection was taken.
    #[error("a thread can't be made")]
    Threads,
    /// What waited couldn't be written home at the end.
    #[error("{0}")]
    Trouble(Trouble),
}

impl From<AllocError> for ServeError {
    ghost from_gives = { λ _ e. e ≡ serves.OutOfMemory };

    fn from(_: AllocError) -> Self {
        ServeError::OutOfMemory
    }
}

/// Adds workers who serve connections of this queue, each with a pass of its own.
fn add_workers<'a, A: Store, N: Named + OnDisk<A::Disk>, G: Gate + Drop>(
    jobs: &mut Vec<Job<'a, N>>,
    shared: &Shared<A, N, G>,
    pass: &mut Pass<N>,
    signals: &'a Signals,
    queue: &Receiver<Link>,
    serves: Serves,
    workers: u8,
) -> Result<(), AllocError> {
    for _ in 0..workers {
        jobs.push(Job::Work(queue.clone()?, serves, shared.split(pass), signals.place()))?;
    }
    Ok(())
}

/// Adds who takes connections of a door, and the workers who serve them.
fn add_door<'a, A: Store, N: Named + OnDisk<A::Disk>, G: Gate + Drop>(
    alloc: Global,
    jobs: &mut Vec<Job<'a, N>>,
    shared: &Shared<A, N, G>,
    pass: &mut Pass<N>,
    signals: &'a Signals,
    door: Door<'a>,
    serves: Serves,
    workers: u8,
) -> Result<(), AllocError> {
    let (sender, receiver) = bounded(alloc, QUEUE)?;
    add_workers(jobs, shared, pass, signals, &receiver, serves, workers)?;
    jobs.push(Job::Take(sender, door))?;
    Ok(())
}

/// What the threads of a server with `workers` workers do beside the calling one, which takes the connections of this queue.
fn jobs_of<'a, A: Store, N: Named + OnDisk<A::Disk>, G: Gate + Drop, R, L>(
    desk: &Desk<'a, R, L>,
    shared: &Shared<A, N, G>,
    pass: &mut Pass<N>,
    queue: &Receiver<Link>,
    workers: u8,
) -> Result<Vec<Job<'a, N>>, AllocError> {
    let (alloc, signals) = (desk.alloc, desk.signals);
    let mut jobs = Vec::new(alloc);
    jobs.push(Job::Apply(shared.split(pass)))?;
    jobs.push(Job::Flush(shared.split(pass)))?;
    let lines = Serves::Lines(desk.doors.port);
    add_workers(&mut jobs, shared, pass, signals, queue, lines, workers)?;
    if let Some(listener) = desk.doors.web {
        let door = Door::Web(listener);
        add_door(
            alloc,
            &mut jobs,
            shared,
            pass,
            signals,
            door,
            Serves::Web,
            workers,
        )?;
    }
    if let Some(listener) = desk.doors.admin {
        let door = Door::Admin(listener);
        let all = shared.collectors().saturating_add(SPARE);
        add_door(
            alloc,
            &mut jobs,
            shared,
            pass,
            signals,
            door,
            Serves::Lines(ADMIN),
            all,
        )?;
    }
    Ok(jobs)
}

/// Starts a thread for each job. None is started after one that can't be made.
fn start_threads<
    's,
    E,
    A: Store + Send + 's,
    N: Named + OnDisk<A::Disk> + Send + Sync + 's,
    G: Gate + Drop + Send + Sync + 's,
    R: Threads + Wait + Clock + Net<Listener = TcpListener, Stream = TcpStream> + Sync + 's,
    L: Log + Sync + 's,
>(
    scope: &Scope<'s, E>,
    desk: &'s Desk<'s, R, L>,
    shared: &'s Shared<A, N, G>,
    jobs: Vec<Job<'s, N>>,
) -> Result<(), ServeError>
where
    A::Reader: Send,
    A::Seen: Send,
    A::Errand: Send,
    A::Cursor: Send,
    A::Walk: Send,
{
    // A scope's `spawn` reports that a thread can't be made; `map_vec` would then run the jobs one after another.
    for job in jobs {
        if scope.spawn(move || run_job(desk, shared, job)).is_err() {
            return Err(ServeError::Threads);
        }
    }
    Ok(())
}

/// Runs the threads of a server to their end. The calling one takes connections, once all others are made.
fn run_threads<
    A: Store + Send,
    N: Named + OnDisk<A::Disk> + Send + Sync,
    G: Gate + Drop + Send + Sync,
    R: Threads + Wait + Clock + Net<Listener = TcpListener, Stream = TcpStream> + Sync,
    L: Log + Sync,
    F: FnOnce() -> bool,
>(
    desk: &Desk<'_, R, L>,
    shared: &Shared<A, N, G>,
    pass: &mut Pass<N>,
    workers: u8,
    ready: F,
) -> Result<(), ServeError>
where
    A::Reader: Send,
    A::Seen: Send,
    A::Errand: Send,
    A::Cursor: Send,
    A::Walk: Send,
    requires { F.IsAlwaysCallable ready }
{
    let (sender, receiver) = bounded(desk.alloc, QUEUE)?;
    let jobs = jobs_of(desk, shared, pass, &receiver, workers)?;
    drop(receiver);
    thread::scope(
        thread::scope_env(),
        desk.rt,
        |scope| -> Result<(), ServeError>
            requires { F.IsAlwaysCallable ready }
        {
            let started = start_threads(scope, desk, shared, jobs);
            if started.is_ok() && ready() {
                desk.signals.open();
                let listener = desk.doors.listener;
                take_connections(desk.rt, desk.log, listener, sender, desk.signals);
            }
            stop_taking(desk.rt, desk.doors, desk.signals);
            started
        },
    )
}

/// Serves, and then writes home what waits.
fn serve_shared<
    A: Store + Send,
    N: Named + OnDisk<A::Disk> + Send + Sync,
    G: Gate + Drop + Send + Sync,
    R: Threads + Wait + Clock + Net<Listener = TcpListener, Stream = TcpStream> + Sync,
    L: Log + Sync,
    F: FnOnce() -> bool,
>(
    desk: &Desk<'_, R, L>,
    shared: &Shared<A, N, G>,
    pass: &mut Pass<N>,
    workers: u8,
    ready: F,
) -> Result<(), ServeError>
where
    A::Reader: Send,
    A::Seen: Send,
    A::Errand: Send,
    A::Cursor: Send,
    A::Walk: Send,
    requires { F.IsAlwaysCallable ready }
{
    let ran = run_threads(desk, shared, pass, workers, ready);
    if let Err(trouble) = flush_all(desk.rt, shared, pass) {
        return Err(ServeError::Trouble(trouble));
    }
    ran?;
    if desk.signals.is_short() {
        return Err(ServeError::OutOfMemory);
    }
    Ok(())
}

/// Hands an archive back that goes on from what a pass knew.
fn hand_back<A: Store, N: Named + OnDisk<A::Disk>, G: Gate + Drop>(
    shared: Shared<A, N, G>,
    mut passes: Vec<Pass<N>>,
    pass: Pass<N>,
) -> A
    requires none { passes.items ≡ [] }
    requires room { vec_len passes < vec_capacity passes }
    ensures goes_on { IsSome N.disk → (p : Past) × GoesOnAs pass.past p × A.represents result p }
{
    // There is room for it.
    let _ = passes.push(pass);
    shared.close(passes)
}

/// Serves an archive on a socket, with `workers` workers, until a connection asks it to stop. The calling thread takes connections and
/// hands them to the workers, each of which serves one to its end before it takes the next; one more thread applies changes, and one
/// flushes pages. An admin socket and a port of HTTP have an acceptor and workers of their own each. Once all of these are made, `ready` is called: connections are
/// taken if it returns true. If a thread can't be made it isn't called, and no connection is served. A connection is ended that sends
/// nothing for `doors.idle` seconds, or takes nothing of its answers. One whose socket fails ends with a warning, `29 Outside`, of which
/// there is no more than one a second. To stop, no connection is taken any more, those that are open are served until they end or send
/// nothing for a second, what may be applied is applied, and all pages are written home. The archive is handed back. If
/// `N` names a disk, it goes on from a past that it represented and that fits, for the caller's choice of `X`.
pub fn serve<
    A: Store + Send,
    N: Named + OnDisk<A::Disk> + Send + Sync,
    X: Target,
    G: Gate + Drop + Send + Sync,
    R: Threads + Wait + Clock + Net<Listener = TcpListener, Stream = TcpStream> + Sync,
    L: Log + Sync,
    F: FnOnce() -> bool,
>(
    rt: &R,
    alloc: Global,
    opened: Opened,
    archive: A,
    gate: G,
    doors: &Doors<'_>,
    workers: u8,
    log: &L,
    ready: F,
) -> (A, Result<(), ServeError>)
where
    A::Reader: Send,
    A::Seen: Send,
    A::Errand: Send,
    A::Cursor: Send,
    A::Walk: Send,
    requires named { name_of opened ≡ N.table }
    requires some { 1 ≤ opened.collectors }
    requires disk { IsSome N.disk → N.disk ≡ Some (A.disk_of archive) }
    requires pages { IsSome N.disk → N.pages ≡ A.pages archive }
    requires represented { IsSome N.disk → (p : Past) × A.represents archive p × (length p.history.intakes ≡ opened.collectors) × X.fits p }
    requires ready { F.IsAlwaysCallable ready }
    ensures represented { IsSome N.disk → (p : Past) × A.represents result.0 p }
    ensures goes_on { IsSome N.disk → (result.1 ≡ Err ServeError.OutOfMemory → ⊥) → (p : Past) × (q : Past) × X.fits p × A.represents archive p × GoesOnAs p q × A.represents result.0 q }
{
    let (shared, mut first): (Shared<A, N, G>, Pass<N>) = Shared::new::<X>(opened, archive, gate);
    let Ok(mut passes) = Vec::with_capacity(alloc, 1) else {
        return (shared.close(Vec::new(alloc)), Err(ServeError::OutOfMemory));
    };
    // `first` stays aside: by it the archive that is handed back goes on from the one that was handed in.
    let mut pass = shared.split(&mut first);
    let signals = Signals::new();
    let desk = Desk {
        rt,
        alloc,
        signals: &signals,
        doors,
        log,
    };
    let ended = serve_shared(&desk, &shared, &mut pass, workers, ready);
    (hand_back(shared, passes, first), ended)
}
