//! Calls that change an archive, by what they do to its past.

ghost use Rattle.std.specs.Prelude.{◌≡◌, Err, IfErr, IfOk};
ghost use Rattle.board.specs.Past.{Past, GoesOnAs};
ghost use Rattle.query_threads.specs.Steps.{IsCrowded, DoesAdmit, DoesMark, DoesApply, DoesFlush};
ghost use Rattle.query_threads.specs.Troubles.{OnAdmitTrouble, OnMarkTrouble};
ghost use Rattle.disk_archive.specs.Archives.{once_of};
ghost use Rattle.shared_archive.specs.Represented.{RepresentsPast, ring_pages};
ghost use Rattle.shared_archive.specs.Reported.{Flushes, Reports};

use crate::refusals::{admit_refusal, apply_trouble, flush_trouble, mark_refusal};
use disk_archive::Archive;
use disk_models::{EraseDisk, OnceDisk};
use interleaving_core::BatchReply;
use query_threads::{AdmitError, Flush, MarkError, Step, Trouble};
use route_model::{Admission, Mark};

/// Admits a batch.
pub(crate) fn admit<E: EraseDisk + Drop, O: OnceDisk + Drop>(
    archive: &mut Archive<E, O>,
    collector: u8,
    batch: &[Admission],
) -> Result<BatchReply, AdmitError>
    ensures done { (p : Past) → RepresentsPast archive.old p → (q : Past) × GoesOnAs p q × RepresentsPast archive.new q × DoesAdmit collector batch.now result p.history q.history }
    ensures full { (p : Past) → RepresentsPast archive.old p → result ≡ Err AdmitError.IntakeFull → IsCrowded (ring_pages archive.old) p.history collector batch.now }
    ensures trouble { IfErr result (OnAdmitTrouble (λ t. Reports archive.old t archive.new)) }
    ensures disk { once_of archive.new ≡ once_of archive.old }
    ensures pages { ring_pages archive.new ≡ ring_pages archive.old }
{
    match archive.admit(collector, batch) {
        Ok(reply) => Ok(reply),
        Err(refusal) => Err(admit_refusal(refusal)),
    }
}

/// Raises the mark of a collector.
pub(crate) fn mark<E: EraseDisk + Drop, O: OnceDisk + Drop>(
    archive: &mut Archive<E, O>,
    collector: u8,
    mark: Mark,
) -> Result<(), MarkError>
    ensures done { (p : Past) → RepresentsPast archive.old p → (q : Past) × GoesOnAs p q × RepresentsPast archive.new q × DoesMark collector mark result p.history q.history }
    ensures trouble { IfErr result (OnMarkTrouble (λ t. Reports archive.old t archive.new)) }
    ensures disk { once_of archive.new ≡ once_of archive.old }
    ensures pages { ring_pages archive.new ≡ ring_pages archive.old }
{
    match archive.mark(collector, mark) {
        Ok(()) => Ok(()),
        Err(refusal) => Err(mark_refusal(refusal)),
    }
}

/// Applies the next change, and perhaps some more.
pub(crate) fn apply_step<E: EraseDisk + Drop, O: OnceDisk + Drop>(
    archive: &mut Archive<E, O>,
) -> Result<Step, Trouble>
    ensures done { (p : Past) → RepresentsPast archive.old p → (q : Past) × GoesOnAs p q × RepresentsPast archive.new q × DoesApply result p.history q.history }
    ensures trouble { IfErr result (λ t. Reports archive.old t archive.new) }
    ensures disk { once_of archive.new ≡ once_of archive.old }
    ensures pages { ring_pages archive.new ≡ ring_pages archive.old }
{
    match archive.apply_step() {
        Ok(disk_archive::Step::Applied) => Ok(Step::Applied),
        Ok(disk_archive::Step::Idle) => Ok(Step::Idle),
        Err(refusal) => Err(apply_trouble(refusal)),
    }
}

/// Writes a page home that waits.
pub(crate) fn flush_step<E: EraseDisk + Drop, O: OnceDisk + Drop>(
    archive: &mut Archive<E, O>,
) -> Result<Flush, Trouble>
    ensures done { (p : Past) → RepresentsPast archive.old p → (q : Past) × GoesOnAs p q × RepresentsPast archive.new q × DoesFlush result p.history q.history }
    ensures flushes { IfOk result (λ step. Flushes archive.old step archive.new) }
    ensures trouble { IfErr result (λ t. Reports archive.old t archive.new) }
    ensures disk { once_of archive.new ≡ once_of archive.old }
    ensures pages { ring_pages archive.new ≡ ring_pages archive.old }
{
    match archive.flush_step() {
        Ok(disk_archive::Flush::Flushed) => Ok(Flush::Flushed),
        Ok(disk_archive::Flush::Clean) => Ok(Flush::Clean),
        Err(refusal) => Err(flush_trouble(refusal)),
    }
}
