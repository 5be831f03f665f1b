//! The erasable disk over a file.

ghost use Rattle.std.specs.Prelude.{◌≡◌, ◌≢◌, ◌≤◌, ◌<◌, ◌+◌, ◌↔◌, ℕ, length, min, true, false, IfOk, IfErr, IsErr, IsOk, Err, OnOk, OnErr};
ghost use Rattle.disk_models.specs.Octets.{octets};
ghost use Rattle.disk_models.specs.Erase.{Counts, Lingers, Stays, Syncs, WritesWithin};
ghost use Rattle.disk_files.specs.Files.{FileLingers, FileStays, IsReady};
ghost use Rattle.disk_files.specs.Sizes.{ArePages};
ghost use Rattle.disk_files.specs.Refusals.{ArePagesUnopened, IsUnmade, IsUnopened};

use crate::error::{FileError, Part};
use crate::failure::{Call, Failures, Reason};
use crate::file::{Access, OctetFile};
use crate::folder;
use crate::noting::NotedFile;
use crate::opening::{open, prepare};
use crate::refused::Refused;
use crate::size::are_pages;
use crate::transfer::{read_whole, sync_whole, write_whole};
use disk_models::{EraseDisk, Fault};
use std::alloc::{AllocError, Global};
use std::fs::File;
use std::rt::Files;
use std::sync::Arc;

/// An erasable disk over a file. It is honest where its file follows its model, and then it is what the file is.
///
/// After a write or a sync that failed each call fails, until the disk is opened again or renewed: what the system gives then may
/// never have reached the device. One whose file is shared is only read: a write fails, and writes nothing.
#[derive(Drop)]
pub struct FileErase<F = NotedFile> {
    file: F,
    size: u64,
    faults: u64,
    is_broken: bool,
    access: Access,
}

impl<F: OctetFile> FileErase<F> {
    ghost use Rattle.disk_files.specs.Pages.{IsNewErase, access_of, faults_of, file_left, file_of, is_broken, size_of};

    /// A disk over this file, which has this size and is held so.
    fn over(file: F, size: u64, access: Access) -> Self
        requires { ArePages size }
        ensures file { file_of result ≡ file }
        ensures size { size_of result ≡ size }
        ensures new { IsNewErase access result }
    {
        FileErase {
            file,
            size,
            faults: 0,
            is_broken: false,
            access,
        }
    }

    /// Makes a disk of `size` octets, a positive multiple of 16,384 below 2^63, in a new file that the caller gives. It is
    /// locked. One that has octets is refused, and keeps them; if the call is refused otherwise, what it then holds is
    /// left to the caller.
    #[tactic(auto, using(crate::proofs::Leaving::file_stays_none))]
    pub fn create_on(mut file: F, size: u64) -> Result<Self, Refused<F>>
        ensures size { IfOk result (λ disk. size_of disk ≡ size) }
        ensures new { IfOk result (IsNewErase Access.Alone) }
        ensures whole { F.follows file → IfOk result (λ disk. F.octet_count (file_of disk) ≡ size) }
        ensures follows { IfOk result (λ disk. F.follows file ↔ F.follows (file_of disk)) }
        ensures ready { IfOk result (λ disk. IsReady F.OctetFile Access.Alone file (file_of disk)) }
        ensures empty { F.follows file → IsOk result → F.octet_count file ≡ 0 }
        ensures kept { F.follows file → F.octet_count file ≢ 0 → FileStays F.OctetFile file (file_left result) }
        ensures refused { ¬ ArePages size → result ≡ Err (record { files = file; error = FileError.Size Part.Pages }) }
        ensures unmade { ArePages size → IfErr result (λ refused. IsUnmade Part.Pages refused.error) }
    {
        if !are_pages(size) {
            return Err(Refused::of(file, FileError::Size(Part::Pages)));
        }
        match prepare(&mut file, size, Part::Pages) {
            Ok(()) => Ok(FileErase::over(file, size, Access::Alone)),
            Err(error) => Err(Refused::of(file, error)),
        }
    }

    /// The disk in a file that the caller gives. It is locked with this access, and synced to the device. Nothing is written to it, also
    /// where it is refused.
    pub fn open_on(mut file: F, access: Access) -> Result<Self, Refused<F>>
        ensures size { F.follows file → IfOk result (λ disk. size_of disk ≡ F.octet_count file) }
        ensures new { IfOk result (IsNewErase access) }
        ensures ready { IfOk result (λ disk. IsReady F.OctetFile access file (file_of disk)) }
        ensures left { FileLingers F.OctetFile file (file_left result) }
        ensures unopened { IfErr result (λ refused. ArePagesUnopened refused.error) }
        ensures right_size { F.follows file → ArePages (F.octet_count file) → IfErr result (λ refused. IsUnopened Part.Pages refused.error) }
    {
        match open(&mut file, access, Part::Pages) {
            Ok(size) if are_pages(size) => Ok(FileErase::over(file, size, access)),
            Ok(_) => Err(Refused::of(file, FileError::Size(Part::Pages))),
            Err(error) => Err(Refused::of(file, error)),
        }
    }

    /// Makes the disk usable again after a write or a sync that failed, as opening its file does: what a read gives from then
    /// on is on the device. Its file stays open and locked. Nothing is written to it, also if this fails; then the disk is broken.
    #[tactic(auto, using(crate::proofs::Leaving::file_lingers_none))]
    pub fn renew(&mut self) -> Result<(), Fault>
        ensures size { size_of self.new ≡ size_of self.old }
        ensures access { access_of self.new ≡ access_of self.old }
        ensures counts { Counts (faults_of self.old) (faults_of self.new) result }
        ensures whole { OnOk result (is_broken self.new ≡ false) }
        ensures broken { OnErr result (is_broken self.new ≡ true) }
        ensures ready { OnOk result (IsReady F.OctetFile (access_of self.old) (file_of self.old) (file_of self.new)) }
        ensures left { FileLingers F.OctetFile (file_of self.old) (file_of self.new) }
        ensures cut { F.follows (file_of self.old) → F.octet_count (file_of self.old) < size_of self.old → IsErr result }
    {
        match open(&mut self.file, self.access, Part::Pages) {
            Ok(size) if size >= self.size => {
                self.is_broken = false;
                Ok(())
            }
            _ => Err(self.break_down()),
        }
    }

    /// Counts a failure.
    fn fault(&mut self) -> Fault
        ensures { self.new ≡ record self.old { faults = min (self.old.faults + 1) 18446744073709551615 } }
    {
        self.faults = self.faults.saturating_add(1);
        Fault
    }

    /// Counts a failure, after which each call fails.
    fn break_down(&mut self) -> Fault
        ensures { self.new ≡ record self.old { faults = min (self.old.faults + 1) 18446744073709551615; is_broken = true } }
    {
        self.is_broken = true;
        self.fault()
    }
}

impl FileErase {
    ghost use Rattle.disk_files.specs.Pages.{IsNewErase, IsFresh, access_of, faults_of, is_broken, size_of};

    /// Makes `pages.rha` in a folder, of `size` octets: a positive multiple of 16,384, below 2^63. It takes no space on the
    /// device before it is written to.
    ///
    /// If it is refused it leaves nothing in the folder that it made, and nothing else is touched.
    pub fn create<R: Files<File = File>>(
        alloc: Global,
        files: &R,
        folder: &str,
        size: u64,
    ) -> Result<Self, FileError>
        ensures size { IfOk result (λ disk. size_of disk ≡ size) }
        ensures new { IfOk result (IsNewErase Access.Alone) }
        ensures refused { ¬ ArePages size → result ≡ Err (FileError.Size Part.Pages) }
        ensures unmade { ArePages size → IfErr result (IsUnmade Part.Pages) }
    {
        if !are_pages(size) {
            return Err(FileError::Size(Part::Pages));
        }
        let file = folder::create(alloc, files, folder, size, Part::Pages)?;
        Ok(FileErase::over(file, size, Access::Alone))
    }

    /// Opens `pages.rha` of a folder. Alone: no one else may hold it, and no one else can while it is open. Shared: others that share
    /// it may, and leave to read it is enough.
    pub fn open<R: Files<File = File>>(
        alloc: Global,
        files: &R,
        folder: &str,
        access: Access,
    ) -> Result<Self, FileError>
        ensures new { IfOk result (IsNewErase access) }
        ensures unopened { IfErr result ArePagesUnopened }
    {
        let (file, size) = folder::open(alloc, files, folder, access, Part::Pages)?;
        if !are_pages(size) {
            return Err(FileError::Size(Part::Pages));
        }
        Ok(FileErase::over(file, size, access))
    }

    /// From now on why its file fails is kept there.
    pub fn note_in(&mut self, failures: &Arc<Failures>) -> Result<(), AllocError>
        ensures size { size_of self.new ≡ size_of self.old }
        ensures access { access_of self.new ≡ access_of self.old }
        ensures faults { faults_of self.new ≡ faults_of self.old }
        ensures state { is_broken self.new ≡ is_broken self.old }
        ensures fresh { IsFresh self.old → IsFresh self.new }
    {
        self.file.note_in(failures)
    }

    /// Takes its file out of the folder, if it is still there under its name.
    pub fn remove<R: Files<File = File>>(
        self,
        alloc: Global,
        files: &R,
        folder: &str,
    ) -> Result<(), FileError> {
        folder::remove(alloc, files, folder, self.file.file(), Part::Pages)
    }
}

impl<F: OctetFile> EraseDisk for FileErase<F> {
    ghost use Rattle.disk_files.specs.Pages.{access_of, faults_of, file_of, is_broken, size_of};

    ghost octet_count = { λ disk. disk.size };

    ghost fault_count = { λ disk. disk.faults };

    ghost honest = { λ disk. F.follows disk.file };

    ghost model = { λ disk. F.model disk.file };

    ghost sound = { λ disk follows. F.sound disk.file follows };

    fn size(&self) -> u64 {
        self.size
    }

    fn faults(&self) -> u64 {
        self.faults
    }

    /// Beside the trait's clauses: it fails where the disk is broken.
    fn read(&mut self, at: u64, into: &mut [u8]) -> Result<(), Fault>
        requires { at + length into.old ≤ size_of self.old }
        ensures size { size_of self.new ≡ size_of self.old }
        ensures access { access_of self.new ≡ access_of self.old }
        ensures counts { Counts (faults_of self.old) (faults_of self.new) result }
        ensures stopped { is_broken self.old ≡ true → IsErr result × (file_of self.new ≡ file_of self.old) }
        ensures state { is_broken self.new ≡ is_broken self.old }
        ensures follows { F.follows (file_of self.old) ↔ F.follows (file_of self.new) }
        ensures octets { F.follows (file_of self.old) → OnOk result (into.new ≡ octets (F.model (file_of self.old)).octet at (length into.old)) }
        ensures stays { F.follows (file_of self.old) → Stays (F.model (file_of self.old)) (F.model (file_of self.new)) }
    {
        let _size = self.size;
        if self.is_broken {
            return Err(self.fault());
        }
        match read_whole(&mut self.file, at, into) {
            Ok(()) => Ok(()),
            Err(_) => Err(self.fault()),
        }
    }

    /// Beside the trait's clauses: if it fails the disk is broken, and fails from then on. It writes nothing to a file that was cut, or
    /// to one that is shared, which is noted.
    fn write_at(&mut self, at: u64, from: &[u8]) -> Result<(), Fault>
        requires { at + length from.now ≤ size_of self.old }
        ensures size { size_of self.new ≡ size_of self.old }
        ensures access { access_of self.new ≡ access_of self.old }
        ensures counts { Counts (faults_of self.old) (faults_of self.new) result }
        ensures stopped { is_broken self.old ≡ true → IsErr result × (file_of self.new ≡ file_of self.old) }
        ensures shared { access_of self.old ≡ Access.Shared → IsErr result × (file_of self.new ≡ file_of self.old) }
        ensures whole { OnOk result (is_broken self.new ≡ false) }
        ensures broken { OnErr result (is_broken self.new ≡ true) }
        ensures follows { F.follows (file_of self.old) ↔ F.follows (file_of self.new) }
        ensures octets { F.follows (file_of self.old) → OnOk result (octets (F.model (file_of self.new)).octet at (length from.now) ≡ from.now) }
        ensures within { F.follows (file_of self.old) → WritesWithin at (length from.now) (F.model (file_of self.old)) (F.model (file_of self.new)) }
        ensures cut { F.follows (file_of self.old) → F.octet_count (file_of self.old) < size_of self.old → IsErr result × (file_of self.new ≡ file_of self.old) }
    {
        if self.is_broken {
            return Err(self.fault());
        }
        if self.access.is_shared() {
            self.file.note(Call::Write, Reason::Shared);
            return Err(self.break_down());
        }
        match write_whole(&mut self.file, self.size, at, from) {
            Ok(()) => Ok(()),
            Err(_) => Err(self.break_down()),
        }
    }

    /// Beside the trait's clauses: if it fails the disk is broken, and fails from then on. A file that was cut isn't synced.
    #[tactic(auto, using(crate::proofs::Leaving::lingers_none))]
    fn sync(&mut self) -> Result<(), Fault>
        ensures size { size_of self.new ≡ size_of self.old }
        ensures access { access_of self.new ≡ access_of self.old }
        ensures counts { Counts (faults_of self.old) (faults_of self.new) result }
        ensures stopped { is_broken self.old ≡ true → IsErr result × (file_of self.new ≡ file_of self.old) }
        ensures whole { OnOk result (is_broken self.new ≡ false) }
        ensures broken { OnErr result (is_broken self.new ≡ true) }
        ensures follows { F.follows (file_of self.old) ↔ F.follows (file_of self.new) }
        ensures syncs { F.follows (file_of self.old) → OnOk result (Syncs (F.model (file_of self.old)) (F.model (file_of self.new))) }
        ensures lingers { F.follows (file_of self.old) → Lingers (F.model (file_of self.old)) (F.model (file_of self.new)) }
        ensures nothing_settled { F.follows (file_of self.old) → OnErr result ((i : ℕ) → (F.model (file_of self.old)).unsynced i → (F.model (file_of self.new)).unsynced i) }
        ensures cut { F.follows (file_of self.old) → F.octet_count (file_of self.old) < size_of self.old → IsErr result × (file_of self.new ≡ file_of self.old) }
    {
        if self.is_broken {
            return Err(self.fault());
        }
        match sync_whole(&mut self.file, self.size) {
            Ok(()) => Ok(()),
            Err(_) => Err(self.break_down()),
        }
    }
}
