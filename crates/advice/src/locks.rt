//! Which process has an archive, by the list of locks that Linux keeps.

use std::fmt;

/// A process that has the archive.
#[derive(Clone, Copy, Debug, PartialEq, Eq)]
pub struct Holder<'a> {
    pub process: u32,
    /// Its command line, with spaces between the words, if that is known.
    pub command: Option<&'a str>,
}

impl fmt::Display for Holder<'_> {
    fn fmt<W: fmt::Write>(&self, f: &mut fmt::Formatter<W>) -> fmt::Result {
        write!(f, "process {} has the archive", self.process)?;
        let Some(command) = self.command else {
            return Ok(());
        };
        write!(f, ": {command}")?;
        if command.contains(" serve ") {
            f.write_str(
                "; a server is fed and asked through its socket, also with --connect (rha serve --help)",
            )?;
        }
        Ok(())
    }
}

/// The major number of a device, as Linux puts it together.
fn major(device: u64) -> u64 {
    (device >> 8) & 0xfff | (device >> 32) & 0xffff_f000
}

/// The minor number of a device.
fn minor(device: u64) -> u64 {
    device & 0xff | (device >> 12) & 0xffff_ff00
}

/// Whether `MAJOR:MINOR:INODE` names the file; the first two are hexadecimal.
fn names(text: &str, device: u64, inode: u64) -> bool {
    let mut parts = text.split(':');
    let (Some(first), Some(second), Some(third)) = (parts.next(), parts.next(), parts.next()) else {
        return false;
    };
    u64::from_str_radix(first, 16) == Ok(major(device))
        && u64::from_str_radix(second, 16) == Ok(minor(device))
        && third.parse::<u64>() == Ok(inode)
}

/// The process that has locked the file, by a line `N: FLOCK ADVISORY WRITE PROCESS MAJOR:MINOR:INODE 0 EOF`, or one with `READ`.
fn process_in(line: &str, device: u64, inode: u64) -> Option<u32> {
    let mut words = line.split_whitespace();
    let kind = words.nth(1)?;
    let process = words.nth(2)?;
    let file = words.next()?;
    if kind != "FLOCK" || !names(file, device, inode) {
        return None;
    }
    process.parse().ok()
}

/// The first process that has locked the file of this device and inode, by the lines of `/proc/locks`; None if they name none.
pub fn holder_of(locks: &str, device: u64, inode: u64) -> Option<u32> {
    for line in locks.lines() {
        if let Some(process) = process_in(line, device, inode) {
            return Some(process);
        }
    }
    None
}
