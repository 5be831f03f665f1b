//! A command runs over the archive on two disks.

ghost use Rattle.std.specs.Prelude.{◌≡◌, ◌≤◌, ℕ, IfOk, IfErr};
ghost use Rattle.page_journal.specs.Layout.{home_place};
ghost use Rattle.route_meaning.specs.History.{Begins, History};
ghost use Rattle.disk_archive.specs.Openings.{IsFaultOrMemory};
ghost use Rattle.disk_calls.specs.Represented.{limit_for};
ghost use Rattle.disk_commands.specs.Disks.{Keep, Leave, Represent};

use crate::command::Command;
use crate::disks::{Disks, Ended};
use crate::opening::{Unopened, close_disks, open_disks};
use disk_archive::OpenError;
use disk_calls::{DiskArchive, Reasons};
use disk_models::{EraseDisk, OnceDisk};
use std::alloc::Global;

/// Opens the archive on both disks, runs the command over it, and takes the disks out of it again. `reasons` knows why calls on these disks
/// fail. The exit status is that of the command. Disks that read as an archive are refused only if a device fails or memory runs out.
pub fn run_on<
    E: EraseDisk + Drop,
    O: OnceDisk + Drop,
    R: Reasons + Drop,
    C: Command<DiskArchive<E, O, R>>,
>(alloc: Global, disks: Disks<E, O>, reasons: R, command: &mut C) -> Ended<E, O, OpenError>
    ensures always { IfOk result.outcome (λ status. C.always command.old command.new status) }
    // It does what it says to the history which the disks read as, and they keep the one that it left.
    ensures ran { IfOk result.outcome (λ status. (h : History) (r : Represent E.EraseDisk O.OnceDisk disks h) → (g : History) × C.does command.old command.new (limit_for r.site.settings) h g status × Leave E.EraseDisk O.OnceDisk result.disks result.is_read g) }
    ensures unopened { IfErr result.outcome (λ why. (h : History) (r : Represent E.EraseDisk O.OnceDisk disks h) → home_place r.site.homes ≤ E.octet_count disks.erase → IsFaultOrMemory why) }
    ensures idle { IfErr result.outcome (λ why. command.new ≡ command.old) }
    ensures kept { IfErr result.outcome (λ why. (h : History) → Keep E.EraseDisk O.OnceDisk disks h → Keep E.EraseDisk O.OnceDisk result.disks h) }
    // So do the disks after a command that was run, if it only lets a history go on.
    ensures goes_on { ((most : ℕ) (h g : History) (status : ℕ) → C.does command.old command.new most h g status → Begins h g) → (h : History) → Keep E.EraseDisk O.OnceDisk disks h → Keep E.EraseDisk O.OnceDisk result.disks h }
{
    match open_disks(alloc, disks, reasons) {
        Ok(archive) => {
            let (archive, status) = command.run(alloc, archive);
            let (disks, is_read) = close_disks(archive.into_archive());
            Ended {
                outcome: Ok(status),
                disks,
                is_read,
            }
        }
        Err(Unopened { why, disks }) => Ended {
            outcome: Err(why),
            disks,
            is_read: false,
        },
    }
}
