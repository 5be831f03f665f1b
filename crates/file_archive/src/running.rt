//! A command is run over the archive in the files of a folder.

ghost use Rattle.std.specs.Prelude.{◌≡◌, ◌≤◌, ℕ, IfOk, IfErr};
ghost use Rattle.page_journal.specs.Layout.{home_place};
ghost use Rattle.route_meaning.specs.History.{Begins, History};
ghost use Rattle.disk_calls.specs.Represented.{limit_for};
ghost use Rattle.disk_commands.specs.Disks.{Keep, Leave, Represent};
ghost use Rattle.disk_files.specs.Pages.{size_of};

use crate::disks::FileDisks;
use crate::faults::OpenFault;
use crate::files::{FileArchive, FileReasons};
use disk_archive::OpenError;
use disk_commands::{Command, Ended, run_on};
use disk_files::{FileErase, FileError, FileOnce};
use disk_models::{EraseDisk, OnceDisk};
use std::alloc::Global;

impl FileDisks {
    ghost use Rattle.file_archive.specs.Disks.{erase_in};
    ghost use Rattle.file_archive.specs.Faults.{IsUnread};

    /// Runs a command over the archive on both disks, as [`run_on`] does; the exit status is that of the command. What a crash left is ended
    /// before. On disks whose files are shared, an archive is opened on which nothing was begun. The files stay held until both disks are
    /// dropped.
    ///
    /// # Errors
    ///
    /// `Archive`: why both disks hold no archive, or one that can't be read, or an allocation that failed. `Failed`: a device
    /// failed, or what was begun isn't ended since files are shared, as [`OpenFault::needs_alone`] says. The command wasn't run.
    pub fn run<C: Command<FileArchive>>(
        self,
        alloc: Global,
        command: &mut C,
    ) -> Ended<FileErase, FileOnce, OpenFault>
        ensures always { IfOk result.outcome (λ status. C.always command.old command.new status) }
        ensures ran { IfOk result.outcome (λ status. (h : History) (r : Represent ⟦<FileErase as EraseDisk>⟧ ⟦<FileOnce as OnceDisk>⟧ self.disks h) → (g : History) × C.does command.old command.new (limit_for r.site.settings) h g status × Leave ⟦<FileErase as EraseDisk>⟧ ⟦<FileOnce as OnceDisk>⟧ result.disks result.is_read g) }
        ensures no_file { IfErr result.outcome (λ why. (file : FileError) → ¬ (why ≡ OpenFault.File file)) }
        ensures unopened { IfErr result.outcome (λ why. (h : History) (r : Represent ⟦<FileErase as EraseDisk>⟧ ⟦<FileOnce as OnceDisk>⟧ self.disks h) → home_place r.site.homes ≤ size_of (erase_in self) → IsUnread why) }
        ensures idle { IfErr result.outcome (λ why. command.new ≡ command.old) }
        ensures kept { IfErr result.outcome (λ why. (h : History) → Keep ⟦<FileErase as EraseDisk>⟧ ⟦<FileOnce as OnceDisk>⟧ self.disks h → Keep ⟦<FileErase as EraseDisk>⟧ ⟦<FileOnce as OnceDisk>⟧ result.disks h) }
        ensures goes_on { ((most : ℕ) (h g : History) (status : ℕ) → C.does command.old command.new most h g status → Begins h g) → (h : History) → Keep ⟦<FileErase as EraseDisk>⟧ ⟦<FileOnce as OnceDisk>⟧ self.disks h → Keep ⟦<FileErase as EraseDisk>⟧ ⟦<FileOnce as OnceDisk>⟧ result.disks h }
    {
        let FileDisks { disks, failures } = self;
        let Ok(noted) = failures.clone() else {
            return Ended {
                outcome: Err(OpenFault::Archive(OpenError::OutOfMemory)),
                disks,
                is_read: false,
            };
        };
        let Ended {
            outcome,
            disks,
            is_read,
        } = run_on(alloc, disks, FileReasons { failures }, command);
        let outcome = match outcome {
            Ok(status) => Ok(status),
            Err(why) => Err(OpenFault::of(why, &noted)),
        };
        Ended {
            outcome,
            disks,
            is_read,
        }
    }
}
