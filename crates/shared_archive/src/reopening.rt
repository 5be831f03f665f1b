//! A held archive is opened again. If that fails it keeps its disks, and reports the same numbers as before.

ghost use Rattle.std.specs.Prelude.{◌≡◌, ◌<◌, ◌≤◌, ◌⊎◌, ℕ, length, Some, None, IfErr, IfOk, IfSome, OnErr, OnOk, slice_get};
ghost use Rattle.board.specs.Past.{Past, GoesOnAs};
ghost use Rattle.query_threads.specs.Steps.{DoesReopen};
ghost use Rattle.shared_archive.specs.Represented.{RepresentsPast, ring_pages};
ghost use Rattle.shared_archive.specs.Held.{AreCounts, Remembers};
ghost use Rattle.shared_archive.specs.Reopened.{Fails};

use crate::held::{Disks, Held, Shut};
use crate::opening::{Unopened, open};
use crate::renewal::Renewal;
use crate::turns;
use disk_archive::Archive;
use disk_models::{EraseDisk, OnceDisk};
use query_threads::Trouble;
use std::alloc::{AllocError, Global};
use std::mem;

// How many admissions of each collector there are.
fn counts_of<E: EraseDisk + Drop, O: OnceDisk + Drop>(
    alloc: Global,
    archive: &Archive<E, O>,
) -> Result<Vec<u64>, AllocError>
    ensures { (p : Past) → RepresentsPast archive.now p → IfOk result (λ counts. AreCounts counts.items p.history) }
{
    let mut counts = Vec::new(alloc);
    for collector in 0..archive.collectors() {
        counts.push(turns::admitted(archive, collector))?;
    }
    Ok(counts)
}

// A copy of what an archive reports, to be used while it isn't open. The disks are still to be added.
fn snapshot_of<E: EraseDisk + Drop, O: OnceDisk + Drop>(
    alloc: Global,
    archive: &Archive<E, O>,
) -> Result<Shut<E, O>, Trouble>
    ensures remembers { (p : Past) → RepresentsPast archive.now p → IfOk result (λ shut. Remembers shut p.history) }
    ensures ring { IfOk result (λ shut. shut.ring ≡ ring_pages archive.now) }
    ensures away { IfOk result (λ shut. shut.disks ≡ None) }
    ensures memory { IfErr result (λ e. e ≡ Trouble.OutOfMemory) }
{
    let Ok(counts) = counts_of(alloc, archive) else {
        return Err(Trouble::OutOfMemory);
    };
    let witness = turns::reader(archive, 1)?;
    Ok(Shut {
        disks: None,
        witness,
        collectors: archive.collectors(),
        ring: archive.ring(),
        settled: archive.settled(),
        counts,
    })
}

// Takes the disks of an archive that isn't open.
fn take_from<E: EraseDisk + Drop, O: OnceDisk + Drop>(
    shut: &mut Shut<E, O>,
) -> Result<Disks<E, O>, Trouble>
    ensures taken { IfOk result (λ disks. shut.old.disks ≡ Some disks) }
    ensures none { OnErr result (shut.old.disks ≡ None) }
    ensures away { shut.new ≡ record shut.old { disks = None } }
    ensures trouble { IfErr result (λ t. t ≡ Trouble.NeedsRecovery) }
{
    match shut.disks.take() {
        Some(disks) => Ok(disks),
        None => Err(Trouble::NeedsRecovery),
    }
}

impl<E: EraseDisk + Drop, O: OnceDisk + Drop> Held<E, O> {
    ghost use Rattle.shared_archive.specs.Held.{AreDisks, HeldRepresents, LacksPast, disk_in, pages_in};
    ghost use Rattle.shared_archive.specs.Reopened.{IsAway, IsOpen, IsUp, Reopens, erase_faults, pen_faults};

    // Shuts an open archive, and returns its disks.
    fn shut_with(&mut self, shut: Shut<E, O>) -> Disks<E, O>
        requires open { IsOpen self.old }
        ensures shut { self.new ≡ Held.Shut shut }
        ensures disks { AreDisks self.old result }
    {
        match mem::replace(self, Held::Shut(shut)) {
            Held::Open(archive) => {
                let (erase, once, pen) = archive.into_disks();
                Disks { erase, once, pen }
            }
            Held::Shut(_) => unreachable!(),
        }
    }

    /// Takes the disks away, to open the archive again on them. Without memory nothing changes.
    pub(crate) fn take_disks(&mut self, alloc: Global) -> Result<Disks<E, O>, Trouble>
        ensures taken { (p : Past) → HeldRepresents self.old p → IfOk result (λ disks. LacksPast self.new disks p) }
        ensures away { OnOk result (IsAway self.new) }
        ensures disks { IfOk result (AreDisks self.old) }
        ensures pages { pages_in self.new ≡ pages_in self.old }
        ensures same { OnErr result (self.new ≡ self.old) }
        ensures trouble { IfErr result (λ t. Fails (IsAway self.old) (erase_faults self.old) (erase_faults self.new) (pen_faults self.old) (pen_faults self.new) t) }
    {
        match self {
            Held::Open(archive) => {
                let shut = snapshot_of(alloc, archive)?;
                Ok(self.shut_with(shut))
            }
            Held::Shut(shut) => take_from(shut),
        }
    }

    /// Gives the disks back that were away.
    pub(crate) fn put_disks(&mut self, disks: Disks<E, O>)
        requires away { IsAway self.old }
        ensures kept { (p : Past) → LacksPast self.old disks p → HeldRepresents self.new p }
        ensures disk { disk_in self.new ≡ disks.once.value }
        ensures pages { pages_in self.new ≡ pages_in self.old }
        ensures erase { erase_faults self.new ≡ E.fault_count disks.erase }
        ensures pen { pen_faults self.new ≡ O.pen_fault_count disks.pen }
    {
        match self {
            Held::Shut(shut) => shut.disks = Some(disks),
            Held::Open(_) => unreachable!(),
        }
    }

    /// Opens the archive on the disks that were away, or keeps them.
    pub(crate) fn open_on(&mut self, alloc: Global, disks: Disks<E, O>) -> Result<(), Trouble>
        requires away { IsAway self.old }
        ensures done { (p : Past) → LacksPast self.old disks p → (q : Past) × GoesOnAs p q × HeldRepresents self.new q × DoesReopen result p.history q.history }
        ensures disk { disk_in self.new ≡ disks.once.value }
        ensures pages { pages_in self.new ≡ pages_in self.old }
        ensures opens { OnOk result (IsOpen self.new × ((p : Past) → LacksPast self.old disks p → IsUp self.new)) }
        ensures trouble { IfErr result (λ t. Fails ⊥ (E.fault_count disks.erase) (erase_faults self.new) (O.pen_fault_count disks.pen) (pen_faults self.new) t) }
    {
        match open(alloc, disks, self.ring()) {
            Ok(archive) => {
                *self = Held::Open(archive);
                Ok(())
            }
            Err(Unopened { disks, trouble }) => {
                self.put_disks(disks);
                Err(trouble)
            }
        }
    }

    // Opens the archive on the disks that were away, once they are renewed, or keeps them.
    fn open_renewed<R: Renewal<E, O>>(
        &mut self,
        alloc: Global,
        renewal: &mut R,
        mut disks: Disks<E, O>,
    ) -> Result<(), Trouble>
        requires away { IsAway self.old }
        ensures done { (p : Past) → LacksPast self.old disks p → (q : Past) × GoesOnAs p q × HeldRepresents self.new q × DoesReopen result p.history q.history }
        ensures disk { disk_in self.new ≡ disks.once.value }
        ensures pages { pages_in self.new ≡ pages_in self.old }
        ensures opens { OnOk result (IsOpen self.new × ((p : Past) → LacksPast self.old disks p → IsUp self.new)) }
        ensures trouble { IfErr result (λ t. Fails ⊥ (E.fault_count disks.erase) (erase_faults self.new) (O.pen_fault_count disks.pen) (pen_faults self.new) t) }
    {
        match renewal.renew(alloc, &mut disks) {
            Ok(renewed) => {
                let opened = self.open_on(alloc, disks);
                if opened.is_ok() {
                    renewal.keep(renewed);
                }
                opened
            }
            Err(_) => {
                self.put_disks(disks);
                Err(Trouble::Fault)
            }
        }
    }

    /// Opens the archive again on its disks, once they are renewed. If that fails it keeps them, reports the same numbers as before, and can
    /// be opened later.
    pub fn reopen<R: Renewal<E, O>>(
        &mut self,
        alloc: Global,
        renewal: &mut R,
    ) -> Result<(), Trouble>
        ensures done { (p : Past) → HeldRepresents self.old p → (q : Past) × GoesOnAs p q × HeldRepresents self.new q × DoesReopen result p.history q.history }
        ensures opens { Reopens self.old result self.new }
        ensures disk { disk_in self.new ≡ disk_in self.old }
        ensures pages { pages_in self.new ≡ pages_in self.old }
    {
        match self.take_disks(alloc) {
            Ok(disks) => self.open_renewed(alloc, renewal, disks),
            Err(trouble) => Err(trouble),
        }
    }

    /// Gives the disks up, if they are there.
    pub fn into_disks(self) -> Option<Disks<E, O>>
        ensures disks { IfSome result (AreDisks self) }
    {
        match self {
            Held::Open(archive) => {
                let (erase, once, pen) = archive.into_disks();
                Some(Disks { erase, once, pen })
            }
            Held::Shut(shut) => shut.disks,
        }
    }
}
