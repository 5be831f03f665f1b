//! Why no archive is created, or opened, in a folder.

ghost use Rattle.std.specs.Prelude.{◌≡◌, ◌≢◌, ◌↔◌, IsTrue};
ghost use Rattle.file_archive.specs.Faults.{NeedsAlone};
ghost use Rattle.file_archive.specs.declared.faults.CreateFault.TheVariants as create_faults;
ghost use Rattle.file_archive.specs.declared.faults.OpenFault.TheVariants as open_faults;

use disk_archive::{CreateError, OpenError};
use disk_files::{Failure, Failures, FileError, Reason};
use std::io;
use thiserror::Error;

/// Why no archive is created in a folder.
#[derive(Debug, Drop, Error)]
pub enum CreateFault {
    /// The folder is there already, or the system doesn't make it, for this reason.
    #[error("{0}")]
    Folder(io::Error),
    /// A file of it isn't made.
    #[error("{0}")]
    File(FileError),
    /// There are too few pages for an archive, or it isn't written to the files.
    #[error("{0}")]
    Archive(CreateError),
    /// A device failed, as this call on a file did.
    #[error("{0}")]
    Failed(Failure),
}

impl CreateFault {
    /// Why an archive isn't written to its files.
    pub(crate) fn of(error: CreateError, failures: &Failures) -> CreateFault
        ensures archive { (why : CreateError) → result ≡ create_faults.Archive why → why ≡ error }
        ensures no_file { (why : FileError) → ¬ (result ≡ create_faults.File why) }
    {
        match (error, failures.first()) {
            (CreateError::Fault, Some(failure)) => CreateFault::Failed(failure),
            _ => CreateFault::Archive(error),
        }
    }
}

impl From<FileError> for CreateFault {
    ghost from_gives = { λ why fault. fault ≡ create_faults.File why };

    fn from(why: FileError) -> Self {
        CreateFault::File(why)
    }
}

/// Why no archive is opened in a folder.
#[derive(Clone, Copy, Debug, PartialEq, Eq, Error)]
pub enum OpenFault {
    /// A file of it isn't opened.
    #[error("{0}")]
    File(FileError),
    /// The files hold no archive, or one that can't be read.
    #[error("{0}")]
    Archive(OpenError),
    /// A device failed, as this call on a file did.
    #[error("{0}")]
    Failed(Failure),
}

impl OpenFault {
    /// Why no archive is opened on the files of a folder.
    pub(crate) fn of(error: OpenError, failures: &Failures) -> OpenFault
        ensures archive { (why : OpenError) → result ≡ open_faults.Archive why → why ≡ error }
        ensures named { error ≢ OpenError.Fault → result ≡ open_faults.Archive error }
        ensures no_file { (why : FileError) → ¬ (result ≡ open_faults.File why) }
    {
        match (error, failures.first()) {
            (OpenError::Fault, Some(failure)) => OpenFault::Failed(failure),
            _ => OpenFault::Archive(error),
        }
    }
}

impl OpenFault {
    /// Whether something has to be written before an archive can be used whose files are shared: held alone, they may be.
    pub fn needs_alone(&self) -> bool
        ensures { IsTrue result ↔ NeedsAlone self.now }
    {
        match self {
            OpenFault::Failed(failure) => matches!(failure.reason, Reason::Shared),
            OpenFault::File(_) | OpenFault::Archive(_) => false,
        }
    }
}

impl From<FileError> for OpenFault {
    ghost from_gives = { λ why fault. fault ≡ open_faults.File why };

    fn from(why: FileError) -> Self {
        OpenFault::File(why)
    }
}
