//! How large the archive of a folder was made, and how large its files are, as far as they can be read by their names.

use advice::{Found, NoArchive};
use archive_facts::{PAGE, SIZES_LEN, Sizes};
use disk_files::Part;
use std::fs;
use std::fs::File;
use std::os::unix::fs::FileExt;

/// How large the archive of a folder was made.
pub(crate) fn sizes_of(rt: &HostRuntime, folder: &str) -> Option<Sizes> {
    let path = format!(in rt.alloc(); "{folder}/{}", Part::Pages).ok()?;
    let mut octets = [0; SIZES_LEN];
    File::open(rt, path.as_str())
        .ok()?
        .read_at(&mut octets, 0)
        .ok()?;
    Sizes::read(&octets)
}

/// The whole pages, or blocks, of a file of a folder.
fn sheets_of(rt: &HostRuntime, folder: &str, part: Part) -> Option<u64> {
    let path = format!(in rt.alloc(); "{folder}/{part}").ok()?;
    Some(fs::metadata(rt, path.as_str()).ok()?.len() / PAGE)
}

/// Why the files of a folder hold no archive, and which of them.
pub(crate) fn why_no_archive(rt: &HostRuntime, folder: &str) -> Option<String> {
    let found = Found {
        pages: sheets_of(rt, folder, Part::Pages)?,
        blocks: sheets_of(rt, folder, Part::Blocks)?,
    };
    let why = NoArchive::of(found, sizes_of(rt, folder));
    format!(in rt.alloc(); "{folder}/{why}").ok()
}
