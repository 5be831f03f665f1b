//! The command `serve`: the archive of a folder is opened, shared by threads, and served on a port, on that of `--http`, and on the socket
//! of `--admin`.

ghost use Rattle.std.specs.Prelude.{◌≡◌, ◌≤◌};
ghost use Rattle.board.specs.Opened.{name_of};

use crate::opening::open;
use crate::operator;
use crate::refusals::report_unserved;
use board::{Named, Opened};
use query_threads::{NoGate, Store, Unpromised};
use server::Port;
use service::{Output, Serving, report_listening, report_out_of_memory, report_outside};
use serving::{Doors, serve as serve_store};
use shared_archive::{FileRenewal, FileStore};
use std::alloc::Global;
use std::fs::Files;
use std::io;
use std::io::Write;
use std::marker::Brand;
use std::net::{Net, SocketAddrV4, TcpListener, TcpStream};
use std::os::unix::net::UnixListener;
use std::sync::Wait;
use std::thread::Threads;
use std::time::Clock;

/// A port that a server listens on.
#[derive(Drop)]
struct Bound {
    listener: TcpListener,
    /// Where it is: at port 0 the system chose one.
    place: SocketAddrV4,
}

/// Listens at an address.
fn bind<H: Net<Listener = TcpListener, Stream = TcpStream>>(
    host: &H,
    address: SocketAddrV4,
) -> io::Result<Bound> {
    let listener = TcpListener::bind(host, address)?;
    let port = listener.local_addr()?.port();
    let place = SocketAddrV4::new(*address.ip(), port);
    Ok(Bound { listener, place })
}

/// Listens at an address that is asked for. None if it can't, and then standard error has the reason.
fn listen<H: Net<Listener = TcpListener, Stream = TcpStream>, E: Write>(
    alloc: Global,
    host: &H,
    address: SocketAddrV4,
    err: &mut Output<E>,
) -> Option<Bound> {
    let Ok(what) = format!(in alloc; "{address}") else {
        report_out_of_memory(err);
        return None;
    };
    match bind(host, address) {
        Ok(bound) => Some(bound),
        Err(why) => {
            report_outside(alloc, err, what.as_str(), "listen", &why);
            None
        }
    }
}

/// Listens at the address of `--http`, if there is one. Returns the exit status if it can't, and then standard error has the reason.
fn listen_web<H: Net<Listener = TcpListener, Stream = TcpStream>, E: Write>(
    alloc: Global,
    host: &H,
    address: Option<SocketAddrV4>,
    err: &mut Output<E>,
) -> Result<Option<Bound>, u8> {
    let Some(address) = address else {
        return Ok(None);
    };
    match listen(alloc, host, address, err) {
        Some(web) => Ok(Some(web)),
        None => Err(1),
    }
}

/// Prints where connections are taken. Returns the exit status of the program: 0 if that could be printed.
fn announce<E: Write>(
    rt: &HostRuntime,
    bound: &Bound,
    web: &Option<Bound>,
    err: &mut Output<E>,
) -> u8 {
    let mut out = Output::new(rt.stdout());
    let http = web.as_ref().map(|it| it.place);
    report_listening(rt.alloc(), &bound.place, http, &mut out, err)
}

/// Serves an archive at its doors, until a client stops the server. Where connections are taken is printed once they are. The socket of
/// `--admin` is removed while the archive is still held, so that a server which waits for the archive finds none. Returns the exit status.
fn serve_on<
    B: Named + Send + Sync,
    H: Threads + Wait + Clock + Files + Net<Listener = TcpListener, Stream = TcpStream> + Sync,
    E: Write,
>(
    rt: &HostRuntime,
    host: &H,
    opened: Opened,
    store: FileStore,
    doors: &Doors<'_>,
    bound: &Bound,
    web: &Option<Bound>,
    asked: &Serving<'_>,
    err: &mut Output<E>,
) -> u8
    requires named { name_of opened ≡ B.table }
    requires some { 1 ≤ opened.collectors }
{
    let alloc = rt.alloc();
    let mut code = 0;
    let ready = || {
        code = announce(rt, bound, web, err);
        code == 0
    };
    let (store, ended) = serve_store::<_, Unpromised<B>, Unpromised<B>, _, _, _, _>(
        host,
        alloc,
        opened,
        store,
        NoGate,
        doors,
        asked.workers,
        rt,
        ready,
    );
    let code = match ended {
        Ok(()) => code,
        Err(why) => report_unserved(why, store.failure(alloc), err),
    };
    code.max(operator::remove(alloc, host, asked.admin, err))
}

/// Where a server takes connections: at a port, at that of `--http`, and at the socket of `--admin`, if there are such.
fn doors_of<'a>(
    bound: &'a Bound,
    web: &'a Option<Bound>,
    admin: &'a Option<UnixListener>,
    asked: &Serving<'_>,
) -> Doors<'a> {
    Doors {
        listener: &bound.listener,
        port: Port {
            read_only: asked.read_only,
            closes_http: asked.close_on_http,
        },
        admin: admin.as_ref(),
        web: web.as_ref().map(|it| &it.listener),
        idle: asked.idle,
    }
}

/// Serves an archive of this many collectors at the addresses that are asked for, and at the socket of `--admin`.
fn serve_at<
    H: Threads + Wait + Clock + Files + Net<Listener = TcpListener, Stream = TcpStream> + Sync,
    E: Write,
>(
    rt: &HostRuntime,
    host: &H,
    collectors: u8,
    store: FileStore,
    asked: &Serving<'_>,
    err: &mut Output<E>,
) -> u8
    requires some { 1 ≤ collectors }
{
    let Some(bound) = listen(rt.alloc(), host, asked.listen, err) else {
        return 1;
    };
    let web = match listen_web(rt.alloc(), host, asked.http, err) {
        Ok(web) => web,
        Err(code) => return code,
    };
    let admin = match operator::open(rt.alloc(), host, asked.admin, err) {
        Ok(admin) => admin,
        Err(code) => return code,
    };
    let Ok(opened) = Opened::new(rt.alloc(), collectors) else {
        let code = report_out_of_memory(err);
        return code.max(operator::remove(rt.alloc(), host, asked.admin, err));
    };
    let doors = doors_of(&bound, &web, &admin, asked);
    serve_on::<Brand, H, E>(rt, host, opened, store, &doors, &bound, &web, asked, err)
}

/// Serves the archive of a folder. It is opened before connections are taken.
pub(crate) fn serve<
    H: Threads + Wait + Clock + Files + Net<Listener = TcpListener, Stream = TcpStream> + Sync,
    E: Write,
>(rt: &HostRuntime, host: &H, asked: &Serving<'_>, err: &mut Output<E>) -> u8 {
    let Some(archive) = open(rt, asked.folder, asked.wait, err) else {
        return 1;
    };
    let Ok(failures) = archive.reasons().failures.clone() else {
        return report_out_of_memory(err);
    };
    let archive = archive.into_archive();
    let collectors = archive.collectors();
    serve_at(
        rt,
        host,
        collectors,
        FileStore::new(archive, FileRenewal::new(failures)),
        asked,
        err,
    )
}
