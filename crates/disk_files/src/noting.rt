//! A file of an archive that keeps why calls on it fail.

ghost use Rattle.disk_models.specs.Erase.{DiskState};
ghost use Rattle.disk_files.specs.Nothing.{no_octets};

use crate::error::Part;
use crate::failure::{Call, Failure, Failures, Reason};
use crate::file::{Access, FileFacts, OctetFile};
use crate::system::synced;
use std::alloc::AllocError;
use std::fs::File;
use std::io;
use std::sync::Arc;

/// A file of an archive. Why it fails is kept, once there is a place for that.
#[derive(Drop)]
pub struct NotedFile {
    file: File,
    part: Part,
    access: Access,
    failures: Option<Arc<Failures>>,
}

impl NotedFile {
    /// A file that was opened to be held so, of which nothing is kept yet.
    pub(crate) fn new(file: File, part: Part, access: Access) -> NotedFile {
        NotedFile {
            file,
            part,
            access,
            failures: None,
        }
    }

    /// The file itself.
    pub(crate) fn file(&self) -> &File {
        &self.file
    }

    /// From now on why it fails is kept there.
    pub(crate) fn note_in(&mut self, failures: &Arc<Failures>) -> Result<(), AllocError> {
        self.failures = Some(failures.clone()?);
        Ok(())
    }
}

/// The place where failures are kept, if there is one, once more.
fn share(failures: &Option<Arc<Failures>>) -> Result<Option<Arc<Failures>>, AllocError> {
    match failures {
        Some(failures) => Ok(Some(failures.clone()?)),
        None => Ok(None),
    }
}

// Nothing is promised of what a file of the system does.
impl OctetFile for NotedFile {
    ghost follows = { λ _. ⊥ };

    ghost model = { λ _. no_octets };

    ghost octet_count = { λ _. 0 };

    ghost is_held = { λ _ _. Unit {0} };

    ghost sound = { λ _ never. absurd never };

    fn facts(&self) -> io::Result<FileFacts> {
        self.file.facts()
    }

    fn hold(&mut self, access: Access) -> io::Result<bool> {
        self.file.hold(access)
    }

    fn resize(&mut self, size: u64) -> io::Result<()> {
        self.file.resize(size)
    }

    fn settle(&mut self) -> io::Result<()> {
        synced(self.access, self.file.settle())
    }

    fn read_some(&mut self, at: u64, into: &mut [u8]) -> io::Result<usize> {
        self.file.read_some(at, into)
    }

    fn write_some(&mut self, at: u64, from: &[u8]) -> io::Result<usize> {
        self.file.write_some(at, from)
    }

    fn sync(&mut self) -> io::Result<()> {
        synced(self.access, self.file.sync())
    }

    fn twin(&self) -> io::Result<NotedFile> {
        Ok(NotedFile {
            file: self.file.twin()?,
            part: self.part,
            access: self.access,
            failures: share(&self.failures)?,
        })
    }

    fn note(&self, call: Call, reason: Reason) {
        if let Some(failures) = &self.failures {
            failures.note(Failure {
                part: self.part,
                call,
                reason,
            });
        }
    }
}
