//! The archive in a folder is opened.

ghost use Rattle.std.specs.Prelude.{◌≡◌, IfOk, IfErr, Err};
ghost use Rattle.disk_files.specs.Blocks.{count_of};
ghost use Rattle.disk_archive.specs.Sites.{IsNoted};
ghost use Rattle.disk_calls.specs.Represented.{FollowModels, site_in};
ghost use Rattle.file_archive.specs.Disks.{once_in};
ghost use Rattle.file_archive.specs.Faults.{IsUnopened};

use crate::disks::FileDisks;
use crate::faults::OpenFault;
use crate::files::{FileArchive, FileReasons};
use disk_archive::Archive;
use disk_commands::Disks;
use disk_files::{Access, FileError};
use std::alloc::Global;
use std::fs::File;
use std::rt::Files;

impl FileDisks {
    /// The archive on both disks, as a crash may have left them: what was begun is ended. On disks whose files are shared, one on which
    /// nothing was begun is opened.
    ///
    /// # Errors
    ///
    /// `Archive`: why both disks hold no archive, or one that can't be read, or an allocation that failed. `Failed`: a device
    /// failed, or what was begun isn't ended since files are shared, as [`OpenFault::needs_alone`] says.
    pub fn into_archive(self, alloc: Global) -> Result<FileArchive, OpenFault>
        ensures blocks { IfOk result (λ archive. (site_in archive).blocks ≡ count_of (once_in self)) }
        ensures noted { IfOk result (λ archive. FollowModels archive → IsNoted (site_in archive)) }
        ensures no_file { (why : FileError) → ¬ (result ≡ Err (OpenFault.File why)) }
    {
        let FileDisks { disks, failures } = self;
        let Disks { erase, once, pen } = disks;
        match Archive::open(alloc, erase, once, pen) {
            Ok(archive) => Ok(FileArchive::new(archive, FileReasons { failures })),
            Err(refused) => Err(OpenFault::of(refused.error, &failures)),
        }
    }
}

/// The archive in the files of a folder. No one else can open it while this one is there.
///
/// # Errors
///
/// `File` where a file isn't opened: it is missing, or someone holds it, or the system fails; then `Archive` or `Failed`, as
/// of [`FileDisks::into_archive`].
pub fn open<R: Files<File = File>>(
    alloc: Global,
    files: &R,
    folder: &str,
) -> Result<FileArchive, OpenFault>
    ensures noted { IfOk result (λ archive. FollowModels archive → IsNoted (site_in archive)) }
    ensures unopened { IfErr result IsUnopened }
{
    let disks = FileDisks::open(alloc, files, folder, Access::Alone)?;
    disks.into_archive(alloc)
}
