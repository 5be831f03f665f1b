//! Batches that are offered to a shared archive, once or twice.

ghost use Rattle.std.specs.Prelude.{◌≡◌, IfOk, IfErr, IsSome};
ghost use Rattle.query_threads.specs.Seeing.{Since};
ghost use Rattle.shared_feed.specs.Offers.{Admits, IsNotTaken};
ghost use Rattle.shared_feed.specs.inner.Feeding.{of_admit, stop_unless_full};

use archive_calls::Trouble;
use board::{Named, Pass};
use interleaving_core::BatchReply;
use query_threads::{AdmitError, Gate, OnDisk, Shared, Store};
use route_model::Admission;
use server::{apply_all, trouble_of};
use service::FeedStop;
use std::sync::Wait;

/// Why a feed is given up whose batch isn't taken.
fn stop_of(refusal: AdmitError) -> FeedStop
    ensures stop { result ≡ of_admit refusal }
{
    match refusal {
        AdmitError::NoCollector => FeedStop::NoCollector,
        AdmitError::CounterFull => FeedStop::CounterFull,
        AdmitError::IntakeFull => FeedStop::IntakeFull,
        // No batch of a feed is too large.
        AdmitError::BatchTooLarge => FeedStop::Trouble(Trouble::OutOfMemory),
        AdmitError::Trouble(trouble) => FeedStop::Trouble(trouble_of(trouble)),
    }
}

/// The same, but where the collector's ring is too full.
fn stop_unless_full(refusal: AdmitError) -> Option<FeedStop>
    ensures stop { result ≡ stop_unless_full refusal }
{
    match refusal {
        AdmitError::IntakeFull => None,
        AdmitError::NoCollector
        | AdmitError::BatchTooLarge
        | AdmitError::CounterFull
        | AdmitError::Trouble(_) => Some(stop_of(refusal)),
    }
}

/// Admits a batch. If the collector's ring is too full for it, what may be applied is applied, and then the batch is
/// offered once more. A second refusal ends the feed: nothing more could be applied, so waiting wouldn't help.
pub(crate) fn admit_with_room<A: Store, N: Named + OnDisk<A::Disk>, G: Gate + Drop>(
    rt: &impl Wait,
    shared: &Shared<A, N, G>,
    pass: &mut Pass<N>,
    collector: u8,
    batch: &[Admission],
) -> Result<BatchReply, FeedStop>
    ensures since { Since pass.old pass.new }
    ensures taken { IfOk result (λ reply. Admits (IsSome N.disk) collector batch.now reply pass.old pass.new) }
    ensures refused { IfErr result (IsNotTaken (IsSome N.disk) collector batch.now pass.old pass.new) }
{
    match shared.admit(rt, pass, collector, batch) {
        Ok(reply) => return Ok(reply),
        Err(refusal) => {
            if let Some(stop) = stop_unless_full(refusal) {
                return Err(stop);
            }
        }
    }
    if let Err(trouble) = apply_all(rt, shared, pass) {
        return Err(FeedStop::Trouble(trouble));
    }
    match shared.admit(rt, pass, collector, batch) {
        Ok(reply) => Ok(reply),
        Err(refusal) => Err(stop_of(refusal)),
    }
}
