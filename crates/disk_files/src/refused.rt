//! Files that don't become a disk.

ghost use Rattle.std.specs.Prelude.{◌≡◌};

use crate::error::FileError;

/// What the caller gave to be a disk, as it is left, and why it is none.
#[derive(Debug, Drop)]
pub struct Refused<T> {
    /// The file, or the map and the blocks.
    pub files: T,
    /// Why they are no disk.
    pub error: FileError,
}

impl<T> Refused<T> {
    /// These files are no disk, for this reason.
    pub(crate) fn of(files: T, error: FileError) -> Self
        ensures { result ≡ record { files = files; error = error } }
    {
        Refused { files, error }
    }
}
