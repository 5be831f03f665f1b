//! Folders for tests, and what stands in them.

use archive_pages::Settings;
use file_archive::{CreateFault, FileArchive};
use std::{fs, process};

/// The octets of a page, and of a block.
pub(crate) const PAGE: u64 = 16_384;

const SETTINGS: Settings = Settings {
    collectors: 1,
    ring: 9,
};

/// A name for a folder of this test and process, of which nothing is there.
pub(crate) fn new_name(rt: &HostRuntime, name: &str) -> Option<String> {
    let id = process::id(rt.process());
    let path = format!(in rt.alloc(); "/tmp/rha_{name}_{id}").ok()?;
    let _ = fs::remove_dir_all(rt, path.as_str());
    Some(path)
}

/// Removes a folder with all that is in it. Whether that was done.
pub(crate) fn remove(rt: &HostRuntime, folder: &str) -> bool {
    fs::remove_dir_all(rt, folder).is_ok()
}

/// Whether a folder is there.
pub(crate) fn is_there(rt: &HostRuntime, folder: &str) -> Option<bool> {
    fs::exists(rt, folder).ok()
}

/// The name of something in a folder.
pub(crate) fn inside(rt: &HostRuntime, folder: &str, name: &str) -> Option<String> {
    format!(in rt.alloc(); "{folder}/{name}").ok()
}

/// Whether something of this name stands in a folder.
pub(crate) fn has(rt: &HostRuntime, folder: &str, name: &str) -> Option<bool> {
    let path = inside(rt, folder, name)?;
    fs::exists(rt, path.as_str()).ok()
}

/// How many octets a file of a folder has.
pub(crate) fn size_of(rt: &HostRuntime, folder: &str, name: &str) -> Option<u64> {
    let path = inside(rt, folder, name)?;
    Some(fs::metadata(rt, path.as_str()).ok()?.len())
}

/// An archive of one collector with a ring of nine pages, of this many home pages and blocks.
pub(crate) fn create(
    rt: &HostRuntime,
    folder: &str,
    pages: u64,
    blocks: u64,
) -> Result<FileArchive, CreateFault> {
    file_archive::create(rt.alloc(), rt, folder, SETTINGS, pages, blocks)
}

/// Whether such an archive is created, and let go.
pub(crate) fn is_created(rt: &HostRuntime, folder: &str, pages: u64, blocks: u64) -> bool {
    create(rt, folder, pages, blocks).is_ok()
}
