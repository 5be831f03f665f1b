//! Files of the system.

ghost use Rattle.disk_models.specs.Erase.{DiskState};
ghost use Rattle.disk_files.specs.Nothing.{no_octets};

use crate::file::{Access, FileFacts, FileIdentity, OctetFile};
use libc::types::rlimit;
use std::fs::{File, Metadata, TryLockError};
use std::io;
use std::os::fd::AsRawFd;
use std::os::unix::fs::{FileExt, MetadataExt};

/// What is on the device alone may be read: pages of the system's cache may count as clean and never have got there,
/// after a sync that failed. Dropping them is advice: dirty pages that a file system couldn't write and keeps stay unsynced, but then
/// the sync before it has failed.
fn forget_cached(file: &File) -> io::Result<()> {
    match libc::posix_fadvise(file.as_raw_fd(), 0, 0, libc::POSIX_FADV_DONTNEED) {
        0 => Ok(()),
        error => Err(io::Error::from_raw_os_error(error)),
    }
}

/// The number of the limit on how large a file may grow, on each Linux.
const RLIMIT_FSIZE: i32 = 1;

/// How large this process may let a file grow. Beyond it the system sends a signal that ends the process, and that can't be
/// ignored from here. So what would go there is refused before the system is asked.
fn size_limit() -> u64 {
    let mut limit = rlimit {
        rlim_cur: u64::MAX,
        rlim_max: u64::MAX,
    };
    if libc::getrlimit(RLIMIT_FSIZE, &mut limit) < 0 {
        return u64::MAX;
    }
    limit.rlim_cur
}

/// What the system returns beyond that limit where the signal is ignored.
fn too_large() -> io::Error {
    io::Error::from_raw_os_error(libc::EFBIG)
}

/// What a sync of a file that is held so comes to. A file system that is never written to, as that of a disc or an image, may know no
/// sync: what is only read there is on the device.
pub(crate) fn synced(access: Access, done: io::Result<()>) -> io::Result<()> {
    match done {
        Err(why) if access.is_shared() && why.raw_os_error() == Some(libc::EINVAL) => Ok(()),
        _ => done,
    }
}

/// The file that the metadata describes.
pub(crate) fn identity(metadata: &Metadata) -> FileIdentity {
    FileIdentity {
        device: metadata.dev(),
        number: metadata.ino(),
    }
}

// Nothing is promised of what a file of the system does.
impl OctetFile for File {
    ghost follows = { λ _. ⊥ };

    ghost model = { λ _. no_octets };

    ghost octet_count = { λ _. 0 };

    ghost is_held = { λ _ _. Unit {0} };

    ghost sound = { λ _ never. absurd never };

    fn facts(&self) -> io::Result<FileFacts> {
        let metadata = self.metadata()?;
        Ok(FileFacts {
            is_regular: metadata.is_file(),
            size: metadata.len(),
            identity: identity(&metadata),
        })
    }

    fn hold(&mut self, access: Access) -> io::Result<bool> {
        let held = match access {
            Access::Alone => self.try_lock(),
            Access::Shared => self.try_lock_shared(),
        };
        match held {
            Ok(()) => Ok(true),
            Err(TryLockError::WouldBlock) => Ok(false),
            Err(TryLockError::Error(error)) => Err(error),
        }
    }

    fn resize(&mut self, size: u64) -> io::Result<()> {
        if size > size_limit() {
            return Err(too_large());
        }
        self.set_len(size)
    }

    fn settle(&mut self) -> io::Result<()> {
        self.sync_all()?;
        forget_cached(self)
    }

    fn read_some(&mut self, at: u64, into: &mut [u8]) -> io::Result<usize> {
        self.read_at(into, at)
    }

    fn write_some(&mut self, at: u64, from: &[u8]) -> io::Result<usize> {
        if at >= size_limit() {
            return Err(too_large());
        }
        self.write_at(from, at)
    }

    fn sync(&mut self) -> io::Result<()> {
        self.sync_data()
    }

    fn twin(&self) -> io::Result<File> {
        self.try_clone()
    }
}
