//! Creates the folder of an archive, and removes it if the creation fails.

ghost use Rattle.std.specs.Prelude.{IfErr};
ghost use Rattle.file_archive.specs.inner.Folders.{IsOfFolder};

use crate::faults::CreateFault;
use disk_files::FileError;
use std::alloc::Global;
use std::fs::File;
use std::rt::Files;
use std::{fs, io};

/// A folder that was made, and the one in which it stands.
#[derive(Drop)]
pub(crate) struct MadeFolder<'a> {
    path: &'a str,
    above: File,
}

/// Opens the folder in which a new one stands, and brings the new one's name to the device.
fn settle<R: Files<File = File>>(files: &R, above: &str) -> io::Result<File> {
    let above = File::open(files, above)?;
    above.sync_all()?;
    Ok(above)
}

impl<'a> MadeFolder<'a> {
    /// Creates a folder of a name that is free, and syncs it. If it is refused nothing is created.
    pub(crate) fn make<R: Files<File = File>>(
        alloc: Global,
        files: &R,
        path: &'a str,
    ) -> Result<MadeFolder<'a>, CreateFault>
        ensures refused { IfErr result IsOfFolder }
    {
        let Ok(above) = format!(in alloc; "{path}/..") else {
            return Err(CreateFault::File(FileError::OutOfMemory));
        };
        if let Err(why) = fs::create_dir(files, path) {
            return Err(CreateFault::Folder(why));
        }
        match settle(files, above.as_str()) {
            Ok(above) => Ok(MadeFolder { path, above }),
            Err(why) => {
                let _ = fs::remove_dir(files, path);
                Err(CreateFault::Folder(why))
            }
        }
    }

    /// Takes the folder away, which is empty, for good. If the system doesn't, nothing is reported.
    pub(crate) fn take_away<R: Files<File = File>>(self, files: &R) {
        if fs::remove_dir(files, self.path).is_ok() {
            let _ = self.above.sync_all();
        }
    }
}
