//! The command `create`: an archive to which nothing was given is made on two disks.

ghost use Rattle.std.specs.Prelude.{◌≡◌, ◌↔◌, IfOk, IfErr, Err};
ghost use Rattle.interleaving_core.specs.Steps.{empty};
ghost use Rattle.archive_pages.specs.Places.{AreSettings};
ghost use Rattle.disk_archive.specs.Creations.{IsTooSmall, site_on};
ghost use Rattle.disk_commands.specs.Disks.{FollowModels, Keep, Represent, settings_for};
ghost use Rattle.service.specs.Running.{IsCreationReported};

use crate::disks::{Disks, Ended};
use crate::opening::close_disks;
use archive_pages::Settings;
use disk_archive::{Archive, CreateError, Refused};
use disk_models::{EraseDisk, OnceDisk};
use service::{Creation, Output, report_created};
use std::alloc::Global;
use std::io::Write;

/// Makes an archive on both disks, and prints what it is made with. The exit status is 0, and 1 if not all could be written. What the
/// erasable disk held is lost, and blocks of the write-once disk that aren't blank are passed over.
///
/// # Errors
///
/// `PagesFull` if the erasable disk is too small, before anything else; `Fault` if a device fails; `OutOfMemory`.
pub fn create_on<E: EraseDisk + Drop, O: OnceDisk + Drop, W: Write, X: Write>(
    alloc: Global,
    disks: Disks<E, O>,
    made: &Creation<'_>,
    out: &mut Output<W>,
    err: &mut Output<X>,
) -> Ended<E, O, CreateError>
    requires settings { AreSettings (settings_for made.now) }
    ensures created { IfOk result.outcome (λ status. FollowModels E.EraseDisk O.OnceDisk disks → (r : Represent E.EraseDisk O.OnceDisk result.disks (empty made.now.collectors)) × (r.site ≡ site_on (settings_for made.now) (E.octet_count disks.erase) (O.block_count disks.once.value)) × Keep E.EraseDisk O.OnceDisk result.disks (empty made.now.collectors)) }
    ensures reported { IfOk result.outcome (λ status. IsCreationReported made.now status out.old out.new err.old err.new) }
    ensures small { (result.outcome ≡ Err CreateError.PagesFull) ↔ IsTooSmall (settings_for made.now) (E.octet_count disks.erase) }
    ensures untouched { result.outcome ≡ Err CreateError.PagesFull → result.disks.erase ≡ disks.erase }
    ensures idle { IfErr result.outcome (λ why. (out.new ≡ out.old) × (err.new ≡ err.old)) }
    ensures size { E.octet_count result.disks.erase ≡ E.octet_count disks.erase }
    ensures disk { result.disks.once.value ≡ disks.once.value }
    ensures follow { FollowModels E.EraseDisk O.OnceDisk disks → FollowModels E.EraseDisk O.OnceDisk result.disks }
{
    let Disks { erase, once, pen } = disks;
    let settings = Settings {
        collectors: made.collectors,
        ring: made.ring,
    };
    match Archive::create(alloc, erase, once, pen, settings) {
        Ok(archive) => {
            let (disks, is_read) = close_disks(archive);
            Ended {
                outcome: Ok(report_created(alloc, made, out, err)),
                disks,
                is_read,
            }
        }
        Err(
            Refused {
                erase,
                once,
                pen,
                error,
            },
        ) => Ended {
            outcome: Err(error),
            disks: Disks { erase, once, pen },
            is_read: false,
        },
    }
}
