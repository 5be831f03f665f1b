//! Batches: how large one is, and which of its records aren't late.

ghost use Rattle.std.specs.Prelude.{◌≡◌, ◌≤◌, ◌<◌, ◌↔◌, ℕ, [], map, length, sum_by, Some, IfOk, IsTrue, slice_get};
ghost use Rattle.std.specs.List.{AllByRecursion};
ghost use Rattle.route_model.specs.Admission.{Admitted, IsAdmission};
ghost use Rattle.route_meaning.specs.Holds.{admitted_time};
ghost use Rattle.sequencer.specs.Lanes.{SameLanes, marks};
ghost use Rattle.sequencer.specs.Late.{timely};
ghost use Rattle.sequencer.specs.Taking.{IsSieved, MayTakeIn};
ghost use Rattle.intake.specs.Ring.{entry_octets, octets_for};
ghost use Rattle.archive_pages.specs.Batches.{IsKeptOf};

use archive_pages::Sifted;
use intake::rings_hold_one_list;
use route_model::{Admission, Mark};
use sequencer::{Sequencer, Sieved, timely_of, times_of};
use std::alloc::{AllocError, Global};

/// The maximum length of a batch in octets: for each admission the octets of its encoding, and 4 more.
pub const MAX_BATCH_LEN: usize = 262_144;

/// A batch, sifted: the admissions that are kept, and what the sequencer adds.
#[derive(Drop)]
pub(crate) struct Parted {
    pub(crate) kept: Sifted,
    pub(crate) sieved: Sieved,
}

/// Whether the batch has at most [`MAX_BATCH_LEN`] octets.
pub(crate) fn fits(batch: &[Admission]) -> bool
    ensures octets { IsTrue result ↔ sum_by entry_octets batch.now ≤ 262144 }
    ensures valid { IsTrue result → AllByRecursion IsAdmission batch.now }
{
    let mut octets: usize = 0;
    for admission in batch {
        let _changes = admission.changes();
        octets += 4 + admission.encoded_len();
        if octets > MAX_BATCH_LEN {
            return false;
        }
    }
    true
}

/// How many octets the records of a batch that aren't late take in a ring, if the collector's mark is this one. It is counted without memory.
pub(crate) fn timely_len(mark: Mark, batch: &[Admission]) -> u64
    requires octets { sum_by entry_octets batch.now ≤ 262144 }
    ensures octets { result ≡ octets_for (timely admitted_time mark [] batch.now) }
{
    rings_hold_one_list();
    let mut reached = mark;
    let mut octets: u64 = 0;
    for admission in batch {
        let time = admission.time();
        if time.number() >= reached.number() {
            reached = Mark::at(time);
            octets += 4 + admission.encoded_len() as u64;
        }
    }
    octets
}

/// Separates the late records of a collector's batch from the others, and makes room for the times. Nothing is added yet.
pub(crate) fn part(
    alloc: Global,
    sequencer: &mut Sequencer,
    collector: u8,
    batch: &[Admission],
) -> Result<Parted, AllocError>
    requires inside { collector < length sequencer.old }
    ensures same { SameLanes sequencer.old sequencer.new }
    ensures kept { IfOk result (λ p. (mark : ℕ) → slice_get (marks sequencer.old) collector ≡ Some mark → IsKeptOf mark batch.now p.kept) }
    ensures sieved { IfOk result (λ p. (mark : ℕ) → slice_get (marks sequencer.old) collector ≡ Some mark → IsSieved mark (map admitted_time batch.now) p.sieved) }
    ensures ready { IfOk result (λ p. MayTakeIn sequencer.new collector p.sieved) }
{
    let times = times_of(alloc, batch)?;
    let sieved = sequencer.sieve(alloc, usize::from(collector), &times)?;
    let timely = timely_of(alloc, batch, &sieved.late)?;
    let kept = Sifted {
        timely,
        offered: batch.len() as u64,
        mark: sieved.mark,
    };
    Ok(Parted { kept, sieved })
}
