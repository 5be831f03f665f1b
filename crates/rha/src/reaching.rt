//! A connection to a server, whose archive is asked.

use served_archive::{Lapse, ServedArchive};
use service::{
    Output, Refusal, report_out_of_memory, report_outside, write_error, write_outside, write_reason,
};
use std::alloc::Global;
use std::io;
use std::io::Write;
use std::net::{Net, OpenStream, SocketAddr, SocketAddrV4, TcpListener, TcpStream};

/// The archive of a server, over one connection.
pub(crate) type Reached = ServedArchive<TcpStream, TcpStream>;

/// Connects to a server, and returns what reads and what writes. Each line is sent at once: it is waited for.
fn connect<H: Net<Listener = TcpListener, Stream = TcpStream>>(
    host: &H,
    place: SocketAddrV4,
) -> io::Result<(TcpStream, TcpStream)> {
    let stream = TcpStream::connect(host, SocketAddr::V4(place))?;
    stream.set_nodelay(true)?;
    Ok((stream.try_clone()?, stream))
}

/// Prints why the archive of a server isn't asked.
fn report_unreached<E: Write>(alloc: Global, place: &str, lapse: Lapse, err: &mut Output<E>) {
    match format!(in alloc; ": {lapse}") {
        Ok(reason) => write_outside(err, place, reason.as_str()),
        Err(_) => write_error(err, &Refusal::Outside),
    }
}

/// The archive of a server. If it can't be asked, the reason is printed, and the exit status isn't 0.
pub(crate) fn reach<H: Net<Listener = TcpListener, Stream = TcpStream>, E: Write>(
    alloc: Global,
    host: &H,
    place: SocketAddrV4,
    err: &mut Output<E>,
) -> Option<Reached> {
    let Ok(what) = format!(in alloc; "{place}") else {
        report_out_of_memory(err);
        return None;
    };
    let (reader, writer) = match connect(host, place) {
        Ok(ways) => ways,
        Err(why) => {
            report_outside(alloc, err, what.as_str(), "connect", &why);
            return None;
        }
    };
    match ServedArchive::open(alloc, reader, writer) {
        Ok(archive) => return Some(archive),
        Err(Lapse::OutOfMemory) => write_error(err, &Refusal::OutOfMemory),
        Err(lapse) => report_unreached(alloc, what.as_str(), lapse, err),
    }
    None
}

/// Prints what was the matter with the connection, for a question that isn't answered, if anything was. Standard output has the refusal.
pub(crate) fn report_lapse<E: Write>(
    alloc: Global,
    place: SocketAddrV4,
    archive: &Reached,
    err: &mut Output<E>,
) {
    let Some(lapse) = archive.lapse() else {
        return;
    };
    if let Ok(why) = format!(in alloc; "{place}: {lapse}") {
        write_reason(err, &Refusal::Fault, why.as_str());
    }
}
