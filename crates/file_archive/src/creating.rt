//! An archive is created in a new folder.

ghost use Rattle.std.specs.Prelude.{◌≡◌, ◌≢◌, ◌+◌, ◌*◌, ◌<◌, ◌≤◌, ◌^◌, ◌↔◌, IfOk, IfErr, IsErr, Err};
ghost use Rattle.disk_files.specs.Sizes.{AreBlocks, ArePages};
ghost use Rattle.interleaving_core.specs.Steps.{empty};
ghost use Rattle.archive_pages.specs.Places.{AreSettings, tree_low};
ghost use Rattle.disk_archive.specs.Creations.{homes_on};
ghost use Rattle.disk_archive.specs.Notes.{note_octets};
ghost use Rattle.disk_calls.specs.Represented.{FollowModels, GoesOnWith, site_in};
ghost use Rattle.file_archive.specs.Faults.{IsUncreated};

use crate::disks::{FileDisks, disk_size, take_away};
use crate::faults::CreateFault;
use crate::files::{FileArchive, FileReasons};
use crate::folder::MadeFolder;
use archive_pages::Settings;
use disk_archive::{Archive, CreateError, Refused};
use disk_commands::Disks;
use disk_files::{FileError, Part};
use std::alloc::Global;
use std::fs::File;
use std::rt::Files;

/// Creates an archive in a folder that was made for it, on a disk of `size` octets that has room for it. On an error it leaves no file in
/// the folder.
fn create_in<R: Files<File = File>>(
    alloc: Global,
    files: &R,
    folder: &str,
    settings: Settings,
    size: u64,
    blocks: u64,
) -> Result<FileArchive, CreateFault>
    requires settings { AreSettings settings }
    requires room { tree_low settings + 2 ≤ homes_on size }
    requires fits { ArePages size }
    ensures created { IfOk result (λ archive. FollowModels archive → GoesOnWith archive (empty settings.collectors)) }
    ensures site { IfOk result (λ archive. site_in archive ≡ record { settings = settings; homes = homes_on size; note = note_octets blocks settings; blocks = blocks }) }
    ensures large { result ≢ Err (CreateFault.Archive CreateError.PagesFull) }
    ensures no_blocks { ¬ AreBlocks blocks → IsErr result }
    ensures uncreated { AreBlocks blocks → IfErr result IsUncreated }
{
    let FileDisks { disks, failures } = FileDisks::create(alloc, files, folder, size, blocks)?;
    let Disks { erase, once, pen } = disks;
    match Archive::create(alloc, erase, once, pen, settings) {
        Ok(archive) => Ok(FileArchive::new(archive, FileReasons { failures })),
        Err(
            Refused {
                erase,
                pen,
                error,
                ..
            },
        ) => {
            take_away(alloc, files, folder, erase, pen);
            Err(CreateFault::of(error, &failures))
        }
    }
}

/// Creates an archive of these settings, to which nothing was given, in a new folder, with this number of home pages and of blocks.
/// Its files cost no room on the device before they are written to.
///
/// On an error, what it made is taken away again, as far as the system does and there is memory for a file's name, and nothing that
/// was there before is touched.
///
/// # Errors
///
/// `Archive` of `PagesFull` if there are fewer pages than the head, all rings and a tree of no version need; `File` of `Size`
/// if there are 2^49 - 265 pages or more, no block, or 2^49 blocks or more; `Folder` if the folder is there already; and each
/// if the system fails or an allocation fails.
pub fn create<R: Files<File = File>>(
    alloc: Global,
    files: &R,
    folder: &str,
    settings: Settings,
    pages: u64,
    blocks: u64,
) -> Result<FileArchive, CreateFault>
    requires { AreSettings settings }
    ensures created { IfOk result (λ archive. FollowModels archive → GoesOnWith archive (empty settings.collectors)) }
    ensures site { IfOk result (λ archive. site_in archive ≡ record { settings = settings; homes = pages; note = note_octets blocks settings; blocks = blocks }) }

    // Too few pages are refused before all else, and then pages that no file has room for.
    ensures full { (result ≡ Err (CreateFault.Archive CreateError.PagesFull)) ↔ (pages < tree_low settings + 2) }
    ensures large { tree_low settings + 2 ≤ pages → 2 ^ 49 ≤ 265 + pages → result ≡ Err (CreateFault.File (FileError.Size Part.Pages)) }
    ensures no_blocks { ¬ AreBlocks blocks → IsErr result }
    ensures uncreated { tree_low settings + 2 ≤ pages → 265 + pages < 2 ^ 49 → AreBlocks blocks → IfErr result IsUncreated }
{
    if pages < settings.tree_low() + 2 {
        return Err(CreateFault::Archive(CreateError::PagesFull));
    }
    let size = disk_size(pages)?;
    let made = MadeFolder::make(alloc, files, folder)?;
    match create_in(alloc, files, folder, settings, size, blocks) {
        Ok(archive) => Ok(archive),
        Err(fault) => {
            made.take_away(files);
            Err(fault)
        }
    }
}
