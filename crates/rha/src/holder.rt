//! Which process has an archive that is in use.

use advice::{Holder, advise, holder_of};
use service::Output;
use std::fs;
use std::fs::File;
use std::io::Write;
use std::os::unix::fs::MetadataExt;

/// The file by whose lock an archive is held.
const PAGES: &str = "pages.rha";

/// The list of locks of the system.
const LOCKS: &str = "/proc/locks";

/// The command line of a process, with spaces between its words.
fn command_of(rt: &HostRuntime, process: u32) -> Option<String> {
    let path = format!(in rt.alloc(); "/proc/{process}/cmdline").ok()?;
    let text = fs::read_to_string(rt, path.as_str()).ok()?;
    let words: Vec<&str> = text.as_str().split('\0').collect(rt.alloc()).ok()?;
    words.join(rt.alloc(), " ").ok()
}

/// The process that has the archive of a folder, as far as the system says it.
fn process_of(rt: &HostRuntime, folder: &str) -> Option<u32> {
    let path = format!(in rt.alloc(); "{folder}/{PAGES}").ok()?;
    let file = File::open(rt, path.as_str()).ok()?.metadata().ok()?;
    let locks = fs::read_to_string(rt, LOCKS).ok()?;
    holder_of(locks.as_str(), file.dev(), file.ino())
}

/// Prints which process has the archive of a folder, if one has and the system says it.
pub(crate) fn advise_holder<E: Write>(rt: &HostRuntime, folder: &str, err: &mut Output<E>) {
    let Some(process) = process_of(rt, folder) else {
        return;
    };
    let command = command_of(rt, process);
    let command = command.as_ref().map(|it| it.as_str().trim_end());
    advise(rt.alloc(), &Holder { process, command }, err);
}
