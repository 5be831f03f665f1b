//! An archive on any two disks, with the blocks that its questions keep.

ghost use Rattle.std.specs.Prelude.{◌≡◌, length, sum_by};

use crate::keeping::reader_of;
use crate::reasons::NoReasons;
use disk_archive::Archive;
use disk_models::{EraseDisk, OnceDisk};
use once_store::ShelfReader;

/// An archive on any two disks. Feeds, loads and questions use it.
///
/// It has the blocks that its questions read, at most 1,024, 16 MiB, so that each is read and checked once for many questions; and it
/// knows what `R` does of why its disks fail.
#[derive(Drop)]
pub struct DiskArchive<E: EraseDisk + Drop, O: OnceDisk + Drop, R = NoReasons> {
    /// The archive.
    pub archive: Archive<E, O>,
    // none if there was no memory for it: then each question reads blocks anew
    pub(crate) reader: Option<ShelfReader<O>>,
    pub(crate) reasons: R,
}

impl<E: EraseDisk + Drop, O: OnceDisk + Drop, R: Drop> DiskArchive<E, O, R> {
    ghost use Rattle.route_meaning.specs.History.{History, applied};
    ghost use Rattle.disk_archive.specs.Archives.{GoesOn, erase_state, once_state, site_of};
    ghost use Rattle.disk_archive.specs.Sites.{Rests};
    ghost use Rattle.disk_calls.specs.Represented.{GoesOnWith, archive_in, site_in};

    /// An archive that was created or opened, and what knows why its disks fail.
    pub fn new(archive: Archive<E, O>, reasons: R) -> Self
        ensures same { archive_in result ≡ archive }
        ensures site { site_in result ≡ site_of archive }
        ensures represents { (h : History) → GoesOn archive h → GoesOnWith result h }
    {
        let reader = reader_of(&archive);
        DiskArchive {
            archive,
            reader,
            reasons,
        }
    }

    /// What knows why its disks fail.
    pub fn reasons(&self) -> &R {
        &self.reasons
    }

    /// The archive alone. Whatever its disks read as now, or a crash leaves of them, represents a history that begins with what it represented.
    pub fn into_archive(self) -> Archive<E, O>
        ensures same { result ≡ archive_in self }
        ensures rests { (h : History) → GoesOnWith self h → Rests (site_of result) (erase_state result) (once_state result) h }
    {
        self.archive
    }

    /// How many changes are applied: as many as [`archive_calls::RouteArchive::check`] counts. After a failed write or sync, as many as
    /// before the call that failed.
    pub fn applied(&self) -> u64
        ensures counted { (h : History) → GoesOnWith self.now h → result ≡ sum_by (λ p. length p.item.changes) (applied h) }
    {
        self.archive.applied()
    }
}
