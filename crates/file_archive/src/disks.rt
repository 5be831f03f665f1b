//! Both disks over the files of a folder.

ghost use Rattle.std.specs.Prelude.{◌≡◌, ◌⊎◌, ◌+◌, ◌*◌, ◌<◌, ◌≤◌, ◌^◌, ◌↔◌, ℕ, IfOk, IfErr, IsErrAnd, Err};
ghost use Rattle.disk_files.specs.Pages.{IsFresh, access_of, size_of};
ghost use Rattle.disk_files.specs.Pens.{IsFreshPen, KeepsIdentity, pen_access, pen_identity};
ghost use Rattle.disk_files.specs.Refusals.{IsUnmade};
ghost use Rattle.disk_files.specs.Sizes.{AreBlocks, ArePages};
ghost use Rattle.page_journal.specs.Layout.{slots_end};
ghost use Rattle.file_archive.specs.Faults.{AreFilesUnmade, AreFilesUnopened};

use crate::faults::OpenFault;
use crate::slots::check_slots;
use disk_archive::OpenError;
use disk_commands::Disks;
use disk_files::{Access, Failures, FileErase, FileError, FileOnce, FilePen, Part};
use std::alloc::{AllocError, Global};
use std::fs::File;
use std::rt::Files;
use std::sync::Arc;

/// The octets of a page.
pub(crate) const PAGE: u64 = 16_384;

/// The pages of the journal, which stand before the home pages.
pub(crate) const JOURNAL_PAGES: u64 = 265;

/// Fewer pages than these are octets that a file can have.
const TOO_MANY_PAGES: u64 = 1 << 49;

/// Both disks over the files of a folder. While these are there no one else can open them; if they are shared, others that share them
/// can.
#[derive(Drop)]
pub struct FileDisks {
    /// Both disks, as a command is given them.
    pub disks: Disks<FileErase, FileOnce>,
    pub(crate) failures: Arc<Failures>,
}

/// How many octets the erasable disk of `pages` home pages has.
pub(crate) fn disk_size(pages: u64) -> Result<u64, FileError>
    ensures size { IfOk result (λ size. size ≡ 16384 * (265 + pages)) }
    ensures fits { IfOk result ArePages }
    ensures refused { (result ≡ Err (FileError.Size Part.Pages)) ↔ (2 ^ 49 ≤ 265 + pages) }
    ensures only { IfErr result (λ why. why ≡ FileError.Size Part.Pages) }
{
    if pages >= TOO_MANY_PAGES - JOURNAL_PAGES {
        return Err(FileError::Size(Part::Pages));
    }
    Ok(PAGE * (JOURNAL_PAGES + pages))
}

impl FileDisks {
    ghost use Rattle.disk_files.specs.Blocks.{count_of, identity_of};
    ghost use Rattle.file_archive.specs.Disks.{AreDisks, AreHeld, erase_in, once_in};

    /// Makes the files of both disks in a folder: `size` octets to be written over, and `blocks` blocks. On an error it leaves nothing in
    /// the folder that it made.
    pub(crate) fn create<R: Files<File = File>>(
        alloc: Global,
        files: &R,
        folder: &str,
        size: u64,
        blocks: u64,
    ) -> Result<FileDisks, FileError>
        ensures size { IfOk result (λ disks. size_of (erase_in disks) ≡ size) }
        ensures blocks { IfOk result (λ disks. count_of (once_in disks) ≡ blocks) }
        ensures fresh { IfOk result AreDisks }
        ensures held { IfOk result (AreHeld Access.Alone) }
        ensures unmade { AreBlocks blocks → ArePages size → IfErr result AreFilesUnmade }

        // Pages are made first.
        ensures no_blocks { ¬ AreBlocks blocks → ArePages size → IsErrAnd result (λ why. (why ≡ FileError.Size Part.Map) ⊎ IsUnmade Part.Pages why) }
    {
        let mut erase = FileErase::create(alloc, files, folder, size)?;
        let (once, mut pen) = match FileOnce::create(alloc, files, folder, blocks) {
            Ok(made) => made,
            Err(why) => {
                let _ = erase.remove(alloc, files, folder);
                return Err(why);
            }
        };
        let failures = note_both(alloc, folder, &mut erase, &mut pen);
        match (Arc::new(alloc, once), failures) {
            (Ok(once), Ok(failures)) => Ok(FileDisks {
                disks: Disks { erase, once, pen },
                failures,
            }),
            _ => {
                take_away(alloc, files, folder, erase, pen);
                Err(FileError::OutOfMemory)
            }
        }
    }

    /// Opens the files of both disks of a folder: `pages.rha` first, by whose lock the archive is held. If they are shared nothing can
    /// be written to them, and leave to read them is enough.
    ///
    /// # Errors
    ///
    /// Which file isn't opened, and why; an allocation that failed.
    pub fn open<R: Files<File = File>>(
        alloc: Global,
        files: &R,
        folder: &str,
        access: Access,
    ) -> Result<FileDisks, FileError>
        ensures fresh { IfOk result AreDisks }
        ensures held { IfOk result (AreHeld access) }
        ensures unopened { IfErr result AreFilesUnopened }
    {
        let mut erase = FileErase::open(alloc, files, folder, access)?;
        let (once, mut pen) = FileOnce::open(alloc, files, folder, access)?;
        let failures = note_both(alloc, folder, &mut erase, &mut pen);
        match (Arc::new(alloc, once), failures) {
            (Ok(once), Ok(failures)) => Ok(FileDisks {
                disks: Disks { erase, once, pen },
                failures,
            }),
            _ => Err(FileError::OutOfMemory),
        }
    }

    /// Checks that each open slot of the journal has a number of its place, counted round after round from 1, and that these numbers
    /// follow one another. An opening lays the slots over the home pages by them, so another one would let an old page come back.
    /// Nothing is written.
    ///
    /// # Errors
    ///
    /// `Archive`: the page of the header with another number, counted from the disk's first page, or that the disk is too small for a
    /// journal. `Failed`: a device failed.
    pub fn check_slots(&mut self) -> Result<(), OpenFault>
        ensures size { size_of (erase_in self.new) ≡ size_of (erase_in self.old) }
        ensures blocks { once_in self.new ≡ once_in self.old }
        ensures small { (result ≡ Err (OpenFault.Archive OpenError.NotAJournal)) ↔ (size_of (erase_in self.old) < slots_end) }
        ensures no_file { (why : FileError) → ¬ (result ≡ Err (OpenFault.File why)) }
    {
        match check_slots(&mut self.disks.erase) {
            Ok(()) => Ok(()),
            Err(why) => Err(OpenFault::of(why, &self.failures)),
        }
    }
}

/// Keeps why calls on the files of both disks fail from now on.
fn note_both(
    alloc: Global,
    folder: &str,
    erase: &mut FileErase,
    pen: &mut FilePen,
) -> Result<Arc<Failures>, AllocError>
    ensures size { size_of erase.new ≡ size_of erase.old }
    ensures access { access_of erase.new ≡ access_of erase.old }
    ensures fresh { IsFresh erase.old → IsFresh erase.new }
    ensures identity { KeepsIdentity pen.old pen.new }
    ensures fresh_pen { IsFreshPen pen.old → IsFreshPen pen.new }
{
    let failures = Arc::new(alloc, Failures::new(alloc, folder)?)?;
    erase.note_in(&failures)?;
    pen.note_in(&failures)?;
    Ok(failures)
}

/// Takes the files of both disks out of a folder, as far as the system does.
pub(crate) fn take_away<R: Files<File = File>>(
    alloc: Global,
    files: &R,
    folder: &str,
    erase: FileErase,
    pen: FilePen,
) {
    let _ = erase.remove(alloc, files, folder);
    let _ = pen.remove(alloc, files, folder);
}
