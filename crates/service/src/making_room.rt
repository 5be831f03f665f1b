//! Applies changes, so that a ring has room for more admissions.

ghost use Rattle.std.specs.Prelude.{◌≡◌, ℕ, List, OnOk, OnErr};
ghost use Rattle.route_meaning.specs.History.{History};
ghost use Rattle.service.specs.Represented.{HasIntakes};
ghost use Rattle.service.specs.Loads.{IsSettled};
ghost use Rattle.service.specs.inner.Taking.{IsTaken};

use archive_calls::{AdmitError, RouteArchive, Step, Trouble};
use interleaving_core::BatchReply;
use route_model::Admission;

/// Applies what may be applied.
pub(crate) fn apply_all<A: RouteArchive>(archive: &mut A) -> Result<(), Trouble>
    ensures settled { (h : History) → A.represents archive.old h → OnOk result (IsSettled h.intakes (A.represents archive.new)) }
    ensures kept { (h : History) → A.represents archive.old h → OnErr result (HasIntakes h.intakes (A.represents archive.new)) }
    ensures most { A.most archive.new ≡ A.most archive.old }
{
    for _ in 0..u64::MAX {
        match archive.apply_step() {
            Ok(Step::Applied) => {}
            Ok(Step::Idle) => return Ok(()),
            Err(trouble) => return Err(trouble),
        }
    }
    Err(Trouble::OutOfMemory)
}

/// Admits a batch. If the collector's ring is too full for it, what may be applied is applied, and then the batch is
/// offered once more.
pub(crate) fn admit_with_room<A: RouteArchive>(
    archive: &mut A,
    collector: u8,
    batch: &[Admission],
) -> Result<BatchReply, AdmitError>
    ensures taken { (h : History) → A.represents archive.old h → IsTaken (A.represents archive.new) collector batch.now result h }
    ensures most { A.most archive.new ≡ A.most archive.old }
{
    match archive.admit(collector, batch) {
        Err(AdmitError::IntakeFull) => {}
        reported => return reported,
    }
    match apply_all(archive) {
        Ok(()) => archive.admit(collector, batch),
        Err(trouble) => Err(AdmitError::Trouble(trouble)),
    }
}
