//! The command `check`: all that the archive on two disks keeps of what is applied is read.

ghost use Rattle.std.specs.Prelude.{◌≡◌, ◌≤◌, IfOk, IfErr};
ghost use Rattle.page_journal.specs.Layout.{home_place};
ghost use Rattle.route_meaning.specs.History.{History};
ghost use Rattle.disk_archive.specs.Openings.{IsFaultOrMemory};
ghost use Rattle.disk_commands.specs.Disks.{Keep, Leave, Represent};
ghost use Rattle.service.specs.Running.{IsArchiveChecked};

use crate::command::Command;
use crate::disks::{Disks, Ended};
use crate::running::run_on;
use archive_calls::RouteArchive;
use disk_archive::OpenError;
use disk_calls::NoReasons;
use disk_models::{EraseDisk, OnceDisk};
use service::{Output, check_archive};
use std::alloc::Global;
use std::io::Write;

/// The command that reads all that is kept.
#[derive(Drop)]
pub struct CheckAll<'o, 'e, W: Write, X: Write> {
    /// Where how many versions there are is printed, or what is damaged.
    pub out: &'o mut Output<W>,
    /// Where it is printed that not all could be written.
    pub err: &'e mut Output<X>,
}

impl<A: RouteArchive, W: Write, X: Write> Command<A> for CheckAll<'_, '_, W, X> {
    ghost always = { λ was now status. (was.out.ghost_name ≡ now.out.ghost_name) × (was.err.ghost_name ≡ now.err.ghost_name) };

    ghost does = { λ was now most h g status. IsArchiveChecked h status was.out.now now.out.now was.err.now now.err.now × (g ≡ h) };

    fn run(&mut self, alloc: Global, archive: A) -> (A, u8) {
        let mut archive = archive;
        let status = check_archive(alloc, &mut archive, self.out, self.err);
        (archive, status)
    }
}

/// Checks the archive on both disks, and writes out what is buffered. The exit status is that of the check, and 1 if not all could be
/// written. Disks that read as an archive are refused only if a device fails or memory runs out.
pub fn check_on<E: EraseDisk + Drop, O: OnceDisk + Drop, W: Write, X: Write>(
    alloc: Global,
    disks: Disks<E, O>,
    out: &mut Output<W>,
    err: &mut Output<X>,
) -> Ended<E, O, OpenError>
    // What is printed is so of the history which the disks read as, and they keep it.
    ensures checked { IfOk result.outcome (λ status. (h : History) → Represent E.EraseDisk O.OnceDisk disks h → IsArchiveChecked h status out.old out.new err.old err.new × Leave E.EraseDisk O.OnceDisk result.disks result.is_read h) }
    ensures unopened { IfErr result.outcome (λ why. (h : History) (r : Represent E.EraseDisk O.OnceDisk disks h) → home_place r.site.homes ≤ E.octet_count disks.erase → IsFaultOrMemory why) }
    ensures idle { IfErr result.outcome (λ why. (out.new ≡ out.old) × (err.new ≡ err.old)) }
    ensures kept { (h : History) → Keep E.EraseDisk O.OnceDisk disks h → Keep E.EraseDisk O.OnceDisk result.disks h }
{
    let mut command = CheckAll { out, err };
    run_on(alloc, disks, NoReasons, &mut command)
}
