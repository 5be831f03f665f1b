//! What makes disks usable again before an archive is opened again on them.

ghost use Rattle.std.specs.Prelude.{◌≡◌, ℕ, OnErr, OnOk};
ghost use Rattle.board.specs.Past.{Past};
ghost use Rattle.shared_archive.specs.Held.{RestOn};
ghost use Rattle.shared_archive.specs.Reopened.{NoneFailed, OneFailed};

use crate::held::Disks;
use disk_models::{EraseDisk, Fault, OnceDisk};
use std::alloc::Global;

/// What makes both disks of an archive usable again, as after a write or a sync that failed, and knows why they fail.
pub trait Renewal<E: EraseDisk + Drop, O: OnceDisk + Drop> {
    /// What is to be kept once an archive is open on the disks.
    type Renewed: Drop;

    /// Makes both disks usable again. What rests on them rests on them after it, also if this fails.
    fn renew(&self, alloc: Global, disks: &mut Disks<E, O>) -> Result<Self::Renewed, Fault>
        ensures rests { (ring : ℕ) (p : Past) → RestOn E.EraseDisk O.OnceDisk disks.old ring p → RestOn E.EraseDisk O.OnceDisk disks.new ring p }
        ensures once { disks.new.once.value ≡ disks.old.once.value }
        ensures quiet { OnOk result (NoneFailed E.EraseDisk O.OnceDisk disks.old disks.new) }
        ensures counted { OnErr result (OneFailed E.EraseDisk O.OnceDisk disks.old disks.new) };

    /// Keeps it: an archive is open on the disks.
    fn keep(&mut self, renewed: Self::Renewed);

    /// Which call on a disk failed first since an archive was opened on them, and why, in words for a person. None if none failed, or if
    /// there is no memory for the words.
    fn failure(&self, alloc: Global) -> Option<String>;
}

/// Disks that stay usable, of whose failures nothing is known.
#[derive(Clone, Copy, Debug, Drop)]
pub struct NoRenewal;

impl<E: EraseDisk + Drop, O: OnceDisk + Drop> Renewal<E, O> for NoRenewal {
    type Renewed = ();

    fn renew(&self, _alloc: Global, _disks: &mut Disks<E, O>) -> Result<(), Fault> {
        Ok(())
    }

    fn keep(&mut self, _renewed: ()) {}

    fn failure(&self, _alloc: Global) -> Option<String> {
        None
    }
}
