//! Folders for tests, and what is in a file.

use crate::answers::Answer;
use std::alloc::Global;
use std::fs::{File, OpenOptions};
use std::os::unix::fs::{FileExt, symlink};
use std::{fs, process};

pub(crate) const PAGE: u64 = 16_384;

/// A new empty folder of this test and process.
pub(crate) fn folder(rt: &HostRuntime, name: &str) -> Option<String> {
    let id = process::id(rt.process());
    let path = format!(in rt.alloc(); "/tmp/rha_{name}_{id}").ok()?;
    let _ = fs::remove_dir_all(rt, path.as_str());
    fs::create_dir(rt, path.as_str()).ok()?;
    Some(path)
}

/// Removes a folder with all that is in it. Whether that was done.
pub(crate) fn remove(rt: &HostRuntime, folder: &str) -> bool {
    fs::remove_dir_all(rt, folder).is_ok()
}

/// The name of a file in a folder.
pub(crate) fn inside(alloc: Global, folder: &str, name: &str) -> Option<String> {
    format!(in alloc; "{folder}/{name}").ok()
}

/// A file of a folder, opened beside whoever else holds it.
pub(crate) fn beside(rt: &HostRuntime, folder: &str, name: &str) -> Option<File> {
    let path = inside(rt.alloc(), folder, name)?;
    OpenOptions::new()
        .read(true)
        .write(true)
        .open(rt, path.as_str())
        .ok()
}

/// How many octets a file has.
pub(crate) fn size_of(rt: &HostRuntime, folder: &str, name: &str) -> Option<u64> {
    let file = beside(rt, folder, name)?;
    Some(file.metadata().ok()?.len())
}

/// The octet at a place of a file. None after its end.
pub(crate) fn octet_of(rt: &HostRuntime, folder: &str, name: &str, at: u64) -> Option<Option<u8>> {
    let file = beside(rt, folder, name)?;
    let mut octet = [0; 1];
    match file.read_at(&mut octet, at).ok()? {
        0 => Some(None),
        _ => Some(Some(octet[0])),
    }
}

/// Writes octets into a file at a place. Whether that was done.
pub(crate) fn write_beside(
    rt: &HostRuntime,
    folder: &str,
    name: &str,
    octets: &[u8],
    at: u64,
) -> bool {
    match beside(rt, folder, name) {
        Some(file) => file.write_at(octets, at).is_ok(),
        None => false,
    }
}

/// Gives a file another size.
pub(crate) fn cut(rt: &HostRuntime, folder: &str, name: &str, size: u64) -> Answer {
    match beside(rt, folder, name) {
        Some(file) if file.set_len(size).is_ok() => Answer::Yes,
        _ => Answer::Harness,
    }
}

/// Whether a folder has a file of this name.
pub(crate) fn has(rt: &HostRuntime, folder: &str, name: &str) -> Option<bool> {
    let path = inside(rt.alloc(), folder, name)?;
    fs::exists(rt, path.as_str()).ok()
}

/// Writes a file of four octets. Whether that was done.
pub(crate) fn write_four(rt: &HostRuntime, folder: &str, name: &str) -> bool {
    match inside(rt.alloc(), folder, name) {
        Some(path) => fs::write(rt, path.as_str(), b"kept".as_slice()).is_ok(),
        None => false,
    }
}

/// Removes a file. Whether that was done.
pub(crate) fn remove_file(rt: &HostRuntime, folder: &str, name: &str) -> bool {
    match inside(rt.alloc(), folder, name) {
        Some(path) => fs::remove_file(rt, path.as_str()).is_ok(),
        None => false,
    }
}

/// Makes a link of this name to a file. Whether that was done.
pub(crate) fn link(rt: &HostRuntime, target: &str, folder: &str, name: &str) -> bool {
    match inside(rt.alloc(), folder, name) {
        Some(path) => symlink(rt, target, path.as_str()).is_ok(),
        None => false,
    }
}

/// Whether all octets are this number.
pub(crate) fn are_all(octets: &[u8], expected: u8) -> bool {
    octets.iter().all(|octet| *octet == expected)
}

/// Whether a file holds these octets at these places: none after its end.
pub(crate) fn holds(
    rt: &HostRuntime,
    folder: &str,
    name: &str,
    expected: &[(u64, Option<u8>)],
) -> bool {
    for (at, octet) in expected {
        if octet_of(rt, folder, name, *at) != Some(*octet) {
            return false;
        }
    }
    true
}
