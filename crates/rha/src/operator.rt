//! The socket of `--admin`, through which the operator alone reaches a server. It is made before connections are taken, and removed
//! once the server has ended.

use advice::advise;
use libc::net::listen;
use service::{Output, report_outside};
use std::alloc::Global;
use std::fs::{Files, Permissions};
use std::io::{ErrorKind, Write};
use std::net::Net;
use std::os::fd::{AsFd, AsRawFd, OwnedFd};
use std::os::unix::fs::{FileTypeExt, PermissionsExt};
use std::os::unix::net::{SocketAddr, UnixListener, UnixStream};
use std::{fs, io};

/// Its owner may connect, and nobody else.
const MODE: u32 = 0o600;

/// As many connections may wait as the system allows.
const BACKLOG: i32 = -1;

/// What helps if something else is at the path. A socket at which nobody listens is replaced.
const TAKEN: &str =
    "another process listens there, or it is no socket: choose another path for --admin";

/// Lets the owner alone connect to the socket at a path, and listens then: a socket that doesn't listen takes no connection.
fn open_to_owner<H: Files>(host: &H, path: &str, socket: &OwnedFd) -> io::Result<()> {
    fs::set_permissions(host, path, Permissions::from_mode(MODE))?;
    if listen(socket.as_raw_fd(), BACKLOG) != 0 {
        // The kit's library has no call that returns the system's reason.
        return Err(io::Error::from(ErrorKind::Other));
    }
    Ok(())
}

/// Listens at a path at which nothing is.
fn make<H: Files + Net>(host: &H, path: &str) -> io::Result<UnixListener> {
    let address = SocketAddr::from_pathname(path)?;
    let socket = host.unix_socket()?;
    host.bind_unix(socket.as_fd(), &address)?;
    if let Err(why) = open_to_owner(host, path, &socket) {
        let _ = fs::remove_file(host, path);
        return Err(why);
    }
    Ok(UnixListener::from(socket))
}

/// Whether there is a socket at a path at which nobody listens any more, as a server leaves it that is killed.
fn is_left_over<H: Files + Net>(host: &H, path: &str) -> bool {
    match fs::symlink_metadata(host, path) {
        Ok(found) if found.file_type().is_socket() => {}
        _ => return false,
    }
    match UnixStream::connect(host, path) {
        Ok(_) => false,
        Err(why) => why.kind() == ErrorKind::ConnectionRefused,
    }
}

/// Listens at a path, in the place of a socket that is left over there.
fn bind<H: Files + Net>(host: &H, path: &str) -> io::Result<UnixListener> {
    match make(host, path) {
        Err(why) if why.kind() == ErrorKind::AddrInUse && is_left_over(host, path) => {
            fs::remove_file(host, path)?;
            make(host, path)
        }
        made => made,
    }
}

/// Listens at the path of `--admin`, if there is one. Returns the exit status if it can't, and then standard error has the reason.
pub(crate) fn open<H: Files + Net, E: Write>(
    alloc: Global,
    host: &H,
    path: Option<&str>,
    err: &mut Output<E>,
) -> Result<Option<UnixListener>, u8> {
    let Some(path) = path else {
        return Ok(None);
    };
    match bind(host, path) {
        Ok(listener) => Ok(Some(listener)),
        Err(why) => {
            let code = report_outside(alloc, err, path, "listen", &why);
            if why.kind() == ErrorKind::AddrInUse {
                advise(alloc, &TAKEN, err);
            }
            Err(code)
        }
    }
}

/// Removes the socket at the path of `--admin`, if there is one. Returns the exit status: 1 if it can't, and then standard error has
/// the reason.
pub(crate) fn remove<H: Files, E: Write>(
    alloc: Global,
    host: &H,
    path: Option<&str>,
    err: &mut Output<E>,
) -> u8 {
    let Some(path) = path else {
        return 0;
    };
    match fs::remove_file(host, path) {
        Err(why) if why.kind() != ErrorKind::NotFound => {
            report_outside(alloc, err, path, "remove", &why)
        }
        _ => 0,
    }
}
