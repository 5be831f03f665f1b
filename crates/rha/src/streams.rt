//! The standard streams that the program was started without.

use std::fs::File;
use std::io;
use std::os::fd::{AsRawFd, IntoRawFd};

/// Reads as empty, and drops what is written.
pub(crate) const DEV_NULL: &str = "/dev/null";

/// The descriptors of standard input, output and error.
const STREAMS: [i32; 3] = [libc::STDIN_FILENO, libc::STDOUT_FILENO, libc::STDERR_FILENO];

/// Whether a standard stream is closed: `posix_fadvise` changes nothing, but needs an open descriptor.
fn is_any_closed() -> bool {
    STREAMS.iter().any(|fd| libc::posix_fadvise(*fd, 0, 0, libc::POSIX_FADV_NORMAL) == libc::EBADF)
}

/// Opens `/dev/null` for each standard stream that is closed, as Rust's own runtime does before `main`. It must be done before
/// the program opens anything: the system gives a file the lowest descriptor that is free, so if a stream is closed
/// (`rha ask .. >&-`), the archive's first file would take its number, and what is printed would be written over its first page.
pub(crate) fn open_closed_streams(rt: &HostRuntime) -> io::Result<()> {
    for _ in STREAMS {
        let null = match File::options().read(true).write(true).open(rt, DEV_NULL) {
            Ok(null) => null,
            Err(why) if is_any_closed() => return Err(why),
            Err(_) => return Ok(()),
        };
        if null.as_raw_fd() > libc::STDERR_FILENO {
            return Ok(());
        }
        // It stays open until the program ends.
        let _ = null.into_raw_fd();
    }
    Ok(())
}
