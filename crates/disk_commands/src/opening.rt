//! Two disks are opened as an archive for a command, and taken out of it after the command.

ghost use Rattle.std.specs.Prelude.{◌≡◌, ◌≤◌, ℕ, IfOk, IfErr};
ghost use Rattle.page_journal.specs.Layout.{home_place};
ghost use Rattle.route_meaning.specs.History.{History};
ghost use Rattle.disk_archive.specs.Archives.{GoesOn, Represents, erase_of, once_of, site_of};
ghost use Rattle.disk_archive.specs.Openings.{IsFaultOrMemory};
ghost use Rattle.disk_calls.specs.Represented.{GoesOnWith, site_in};
ghost use Rattle.disk_commands.specs.Disks.{Keep, Leave, Represent};

use crate::disks::Disks;
use disk_archive::{Archive, OpenError, Refused};
use disk_calls::{DiskArchive, Reasons};
use disk_models::{EraseDisk, OnceDisk};
use std::alloc::Global;

/// Why both disks aren't opened, and the disks, which are returned.
#[derive(Drop)]
pub(crate) struct Unopened<E, O: OnceDisk + Drop> {
    pub(crate) why: OpenError,
    pub(crate) disks: Disks<E, O>,
}

/// Opens both disks as an archive for one command. `reasons` knows why calls on them fail.
pub(crate) fn open_disks<E: EraseDisk + Drop, O: OnceDisk + Drop, R: Reasons + Drop>(
    alloc: Global,
    disks: Disks<E, O>,
    reasons: R,
) -> Result<DiskArchive<E, O, R>, Unopened<E, O>>
    ensures represents { IfOk result (λ archive. (h : History) (r : Represent E.EraseDisk O.OnceDisk disks h) → GoesOnWith archive h × (site_in archive ≡ r.site)) }
    ensures why { IfErr result (λ unopened. (h : History) (r : Represent E.EraseDisk O.OnceDisk disks h) → home_place r.site.homes ≤ E.octet_count disks.erase → IsFaultOrMemory unopened.why) }
    ensures kept { IfErr result (λ unopened. (h : History) → Keep E.EraseDisk O.OnceDisk disks h → Keep E.EraseDisk O.OnceDisk unopened.disks h) }
{
    let Disks { erase, once, pen } = disks;
    match Archive::open(alloc, erase, once, pen) {
        Ok(archive) => Ok(DiskArchive::new(archive, reasons)),
        Err(
            Refused {
                erase,
                once,
                pen,
                error,
            },
        ) => Err(Unopened {
            why: error,
            disks: Disks { erase, once, pen },
        }),
    }
}

/// Takes both disks out of the archive. They read as the history with which it went on, unless it had to be opened again.
pub(crate) fn close_disks<E: EraseDisk + Drop, O: OnceDisk + Drop>(
    archive: Archive<E, O>,
) -> (Disks<E, O>, bool)
    ensures left { (h : History) → GoesOn archive h → Leave E.EraseDisk O.OnceDisk result.0 result.1 h }
    ensures represents { (h : History) → Represents archive h → (r : Represent E.EraseDisk O.OnceDisk result.0 h) × (r.site ≡ site_of archive) }
    ensures disk { result.0.once.value ≡ once_of archive }
    ensures erase { result.0.erase ≡ erase_of archive }
{
    let is_read = archive.is_usable();
    let (erase, once, pen) = archive.into_disks();
    (Disks { erase, once, pen }, is_read)
}
