//! The archive in the files of a folder.

use disk_calls::{DiskArchive, Reasons};
use disk_files::{Failures, FileErase, FileOnce};
use std::alloc::Global;
use std::sync::Arc;

/// An archive on disks over the files of a folder.
pub type FileArchive = DiskArchive<FileErase, FileOnce, FileReasons>;

/// Why calls on the files of an archive fail.
#[derive(Drop)]
pub struct FileReasons {
    /// Where that is kept.
    pub failures: Arc<Failures>,
}

impl Reasons for FileReasons {
    fn text(&self, alloc: Global) -> Option<String> {
        self.failures.text(alloc)
    }
}
