//! An archive is opened again on its disks.

ghost use Rattle.std.specs.Prelude.{◌≡◌, ◌≢◌, ℕ, IfErr, IfOk, false};
ghost use Rattle.disk_models.specs.Erase.{Counts};
ghost use Rattle.route_meaning.specs.History.{Begins};
ghost use Rattle.board.specs.Past.{Past};
ghost use Rattle.disk_archive.specs.Archives.{is_down, once_of};
ghost use Rattle.shared_archive.specs.Represented.{RepresentsPast, ring_pages};
ghost use Rattle.shared_archive.specs.Held.{RestOn};
ghost use Rattle.shared_archive.specs.Reopened.{Fails};
ghost use Rattle.shared_archive.specs.inner.StoreCalls.{of_open};

use crate::held::Disks;
use disk_archive::{Archive, OpenError, Refused};
use disk_models::{EraseDisk, OnceDisk};
use query_threads::Trouble;
use std::alloc::Global;

/// Disks on which no archive is opened, with the reason.
#[derive(Drop)]
pub(crate) struct Unopened<E, O: OnceDisk + Drop> {
    pub(crate) disks: Disks<E, O>,
    pub(crate) trouble: Trouble,
}

// Why disks aren't opened. Those that hold no archive any more are reported as damaged in their first page.
fn open_trouble(error: OpenError) -> Trouble
    ensures why { result ≡ of_open error }
{
    match error {
        OpenError::Fault => Trouble::Fault,
        OpenError::NotAJournal => Trouble::DamagedPage(0),
        OpenError::BadSlot(page) | OpenError::BadNode(page) => Trouble::DamagedPage(page),
        OpenError::OutOfMemory => Trouble::OutOfMemory,
    }
}

// The archive, if its rings have `ring` pages.
fn with_ring<E: EraseDisk + Drop, O: OnceDisk + Drop>(
    archive: Archive<E, O>,
    ring: u16,
) -> Result<Archive<E, O>, Unopened<E, O>>
    ensures same { IfOk result (λ a. a ≡ archive) }
    ensures ring { IfOk result (λ a. ring_pages a ≡ ring) }
    ensures other { ring_pages archive ≡ ring → IfErr result (λ _. ⊥) }
    ensures disk { IfErr result (λ u. u.disks.once.value ≡ once_of archive) }
    ensures trouble { IfErr result (λ u. u.trouble ≡ Trouble.DamagedPage 0) }
{
    if archive.ring() != ring {
        let (erase, once, pen) = archive.into_disks();
        return Err(Unopened {
            disks: Disks { erase, once, pen },
            trouble: Trouble::DamagedPage(0),
        });
    }
    Ok(archive)
}

// Opens disks of which nothing is unsynced.
fn open_synced<E: EraseDisk + Drop, O: OnceDisk + Drop>(
    alloc: Global,
    disks: Disks<E, O>,
    ring: u16,
) -> Result<Archive<E, O>, Unopened<E, O>>
    ensures opened { ((i : ℕ) → ¬ (E.model disks.erase).unsynced i) → (p : Past) → RestOn E.EraseDisk O.OnceDisk disks ring p → IfOk result (λ a. (is_down a ≡ false) × (q : Past) × Begins p.history q.history × (q.blocks ≡ p.blocks) × RepresentsPast a q) }
    ensures kept { ((i : ℕ) → ¬ (E.model disks.erase).unsynced i) → (p : Past) → RestOn E.EraseDisk O.OnceDisk disks ring p → IfErr result (λ u. RestOn E.EraseDisk O.OnceDisk u.disks ring p) }
    ensures ring { IfOk result (λ a. ring_pages a ≡ ring) }
    ensures disk { IfOk result (λ a. once_of a ≡ disks.once.value) }
    ensures disk_kept { IfErr result (λ u. u.disks.once.value ≡ disks.once.value) }
    ensures trouble { IfErr result (λ u. Fails ⊥ (E.fault_count disks.erase) (E.fault_count u.disks.erase) (O.pen_fault_count disks.pen) (O.pen_fault_count u.disks.pen) u.trouble) }
{
    let Disks { erase, once, pen } = disks;
    match Archive::open(alloc, erase, once, pen) {
        Ok(archive) => with_ring(archive, ring),
        Err(
            Refused {
                erase,
                once,
                pen,
                error,
            },
        ) => Err(Unopened {
            disks: Disks { erase, once, pen },
            trouble: open_trouble(error),
        }),
    }
}

/// Opens disks as an archive with rings of `ring` pages, once all that was written is on the device. If that fails they are handed
/// back, and represent what they represented.
pub(crate) fn open<E: EraseDisk + Drop, O: OnceDisk + Drop>(
    alloc: Global,
    mut disks: Disks<E, O>,
    ring: u16,
) -> Result<Archive<E, O>, Unopened<E, O>>
    ensures opened { (p : Past) → RestOn E.EraseDisk O.OnceDisk disks ring p → IfOk result (λ a. (is_down a ≡ false) × (q : Past) × Begins p.history q.history × (q.blocks ≡ p.blocks) × RepresentsPast a q) }
    ensures kept { (p : Past) → RestOn E.EraseDisk O.OnceDisk disks ring p → IfErr result (λ u. RestOn E.EraseDisk O.OnceDisk u.disks ring p) }
    ensures ring { IfOk result (λ a. ring_pages a ≡ ring) }
    ensures disk { IfOk result (λ a. once_of a ≡ disks.once.value) }
    ensures disk_kept { IfErr result (λ u. u.disks.once.value ≡ disks.once.value) }
    ensures trouble { IfErr result (λ u. Fails ⊥ (E.fault_count disks.erase) (E.fault_count u.disks.erase) (O.pen_fault_count disks.pen) (O.pen_fault_count u.disks.pen) u.trouble) }
{
    match disks.erase.sync() {
        Ok(()) => open_synced(alloc, disks, ring),
        Err(_) => Err(Unopened {
            disks,
            trouble: Trouble::Fault,
        }),
    }
}
