//! The disks over files are renewed in place, with a new list of why they fail.

ghost use Rattle.std.specs.Prelude.{◌≡◌, ℕ, false, OnErr, OnOk};
ghost use Rattle.board.specs.Past.{Past};
ghost use Rattle.disk_files.specs.Pages.{is_broken};
ghost use Rattle.disk_files.specs.Pens.{is_broken_pen};
ghost use Rattle.shared_archive.specs.Held.{RestOn};
ghost use Rattle.shared_archive.specs.Reopened.{NoneFailed, OneFailed};

use crate::held::Disks;
use crate::renewal::Renewal;
use crate::store::DiskStore;
use disk_files::{Failures, FileErase, FileOnce};
use disk_models::{EraseDisk, Fault, OnceDisk};
use std::alloc::Global;
use std::marker::PhantomData;
use std::sync::Arc;

/// An archive on disks over files. Threads share it.
pub type FileStore = DiskStore<FileErase, FileOnce, FileRenewal>;

/// The renewal of disks over files: these stay open and locked. Why they fail is kept in one place until an archive is open on them again, and
/// then in a new one.
///
/// `T` stands for nothing: the prover has no proof of a block without a parameter that names the write-once disk over files at a bound.
#[derive(Drop)]
pub struct FileRenewal<T = ()> {
    failures: Arc<Failures>,
    of: PhantomData<T>,
}

impl<T> FileRenewal<T> {
    /// With the place where it is kept why calls on the files fail.
    pub fn new(failures: Arc<Failures>) -> Self {
        FileRenewal {
            failures,
            of: PhantomData,
        }
    }
}

// A new place for why both disks fail. None if there is no memory for it: then they go on with the old one.
fn note_anew(
    disks: &mut Disks<FileErase, FileOnce>,
    failures: &Failures,
    alloc: Global,
) -> Option<Arc<Failures>>
    ensures once { disks.new.once.value ≡ disks.old.once.value }
    ensures same { (is_broken disks.new.erase ≡ is_broken disks.old.erase) × (is_broken_pen disks.new.pen ≡ is_broken_pen disks.old.pen) }
    ensures quiet { NoneFailed ⟦<FileErase as EraseDisk>⟧ ⟦<FileOnce as OnceDisk>⟧ disks.old disks.new }
{
    let fresh = Arc::new(alloc, failures.renewed(alloc).ok()?).ok()?;
    disks.erase.note_in(&fresh).ok()?;
    disks.pen.note_in(&fresh).ok()?;
    Some(fresh)
}

// Makes both disks usable again, and returns the new place. Their files stay open and locked.
fn renew_in_place(
    disks: &mut Disks<FileErase, FileOnce>,
    failures: &Failures,
    alloc: Global,
) -> Result<Option<Arc<Failures>>, Fault>
    ensures once { disks.new.once.value ≡ disks.old.once.value }
    ensures quiet { OnOk result (NoneFailed ⟦<FileErase as EraseDisk>⟧ ⟦<FileOnce as OnceDisk>⟧ disks.old disks.new) }
    ensures counted { OnErr result (OneFailed ⟦<FileErase as EraseDisk>⟧ ⟦<FileOnce as OnceDisk>⟧ disks.old disks.new) }
    ensures whole { OnOk result ((is_broken disks.new.erase ≡ false) × (is_broken_pen disks.new.pen ≡ false)) }
{
    disks.erase.renew()?;
    disks.once.renew(&mut disks.pen)?;
    Ok(note_anew(disks, failures, alloc))
}

impl<T> Renewal<FileErase, FileOnce> for FileRenewal<T> {
    type Renewed = Option<Arc<Failures>>;

    /// Beside the trait's clauses: after a success none of them is broken.
    fn renew(
        &self,
        alloc: Global,
        disks: &mut Disks<FileErase, FileOnce>,
    ) -> Result<Option<Arc<Failures>>, Fault>
        ensures rests { (ring : ℕ) (p : Past) → RestOn ⟦<FileErase as EraseDisk>⟧ ⟦<FileOnce as OnceDisk>⟧ disks.old ring p → RestOn ⟦<FileErase as EraseDisk>⟧ ⟦<FileOnce as OnceDisk>⟧ disks.new ring p }
        ensures once { disks.new.once.value ≡ disks.old.once.value }
        ensures quiet { OnOk result (NoneFailed ⟦<FileErase as EraseDisk>⟧ ⟦<FileOnce as OnceDisk>⟧ disks.old disks.new) }
        ensures counted { OnErr result (OneFailed ⟦<FileErase as EraseDisk>⟧ ⟦<FileOnce as OnceDisk>⟧ disks.old disks.new) }
        ensures whole { OnOk result ((is_broken disks.new.erase ≡ false) × (is_broken_pen disks.new.pen ≡ false)) }
    {
        renew_in_place(disks, &self.failures, alloc)
    }

    fn keep(&mut self, renewed: Option<Arc<Failures>>) {
        if let Some(fresh) = renewed {
            self.failures = fresh;
        }
    }

    fn failure(&self, alloc: Global) -> Option<String> {
        self.failures.text(alloc)
    }
}
