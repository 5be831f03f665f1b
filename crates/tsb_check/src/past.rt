//! The versions of the past are counted: every block to which some places lead is read.

ghost use Rattle.std.specs.Prelude.{◌≡◌, ◌↔◌, ◌⊎◌, ◌<◌, ◌+◌, ◌++◌, ◌∷◌, [], ℕ, List, IfOk, OnOk, Err, IsErrOf, min};
ghost use Rattle.once_store.specs.Readers.{capacity_of, reader_disk};
ghost use Rattle.tsb_walk.specs.Knowing.{ReadsWell, IsKnown};
ghost use Rattle.tsb_check.specs.Counted.{IsSoundFor, MeetUnknown, MeetDamage, ReportsPast};
ghost use Rattle.tsb_check.specs.inner.Reported.{IsReportedOf, GoesLower, IsTaken, weight};

use crate::block::{Reported, reported_by};
use crate::places::list_places;
use disk_models::OnceDisk;
use once_store::{BlockError, ShelfReader};
use std::alloc::{AllocError, Global};
use tsb_node::ReadFault;
use version_model::Place;

// What the block of a place holds for it.
fn reported_at<O: OnceDisk + Drop>(
    reader: &mut ShelfReader<O>,
    seen: &mut O::Seen,
    alloc: Global,
    place: &Place,
) -> Result<Reported, BlockError>
    ensures reported { ReadsWell O.OnceDisk reader.old seen.old → (octets : List ℕ) → IsKnown (O.known seen.old) (O.block_count (reader_disk reader.old)) place.now.part.block octets → IfOk result (IsReportedOf place.now octets) }
    ensures reads { ReadsWell O.OnceDisk reader.old seen.old → (octets : List ℕ) → IsKnown (O.known seen.old) (O.block_count (reader_disk reader.old)) place.now.part.block octets → ReadsWell O.OnceDisk reader.new seen.new }
    ensures unsound { ReadsWell O.OnceDisk reader.old seen.old → (octets : List ℕ) → IsKnown (O.known seen.old) (O.block_count (reader_disk reader.old)) place.now.part.block octets → (m : ℕ) → result ≡ Err (BlockError.Damaged m) → IsSoundFor place.now octets → ⊥ }
    ensures number { (m : ℕ) → result ≡ Err (BlockError.Damaged m) → m ≡ place.now.part.block }
    ensures lower { IfOk result (GoesLower place.now) }
    ensures same { O.honest_seen (reader_disk reader.old) seen.old → O.known seen.new ≡ O.known seen.old }
    ensures disk { reader_disk reader.new ≡ reader_disk reader.old }
    ensures capacity { capacity_of reader.new ≡ capacity_of reader.old }
    ensures honest { O.honest_seen (reader_disk reader.old) seen.old ↔ O.honest_seen (reader_disk reader.old) seen.new }
    ensures quiet { (IsErrOf result BlockError.Fault → ⊥) → O.seen_fault_count seen.new ≡ O.seen_fault_count seen.old }
    ensures counted { IsErrOf result BlockError.Fault → O.seen_fault_count seen.new ≡ min (O.seen_fault_count seen.old + 1) 18446744073709551615 }
{
    let number = place.part.block;
    reader.fetch(seen, number)?;
    let Some(block) = reader.block(number) else {
        return Err(BlockError::Damaged(number));
    };
    match reported_by(alloc, block, place) {
        Ok(reported) => Ok(reported),
        Err(ReadFault::NotANode) => Err(BlockError::Damaged(number)),
        Err(ReadFault::Memory) => Err(BlockError::OutOfMemory),
    }
}

// Takes what the block of a place holds for it: its versions are counted, or its parts are left to be read.
fn take(
    alloc: Global,
    left: &mut Vec<Place>,
    count: u64,
    place: &Place,
    reported: Reported,
) -> Result<u64, AllocError>
    requires lower { GoesLower place.now reported }
    ensures taken { IfOk result (IsTaken place.now reported left.old.items left.new.items count) }
    ensures falls { OnOk result (weight left.new.items < weight (left.old.items ++ place.now ∷ [])) }
{
    match reported {
        Reported::Versions(more) => Ok(count.saturating_add(more)),
        Reported::Parts(parts) => {
            let mut more = list_places(alloc, &place.bounds, &parts)?;
            left.append(&mut more)?;
            Ok(count)
        }
    }
}

/// How many versions the past has at some places. Every block to which they lead is read, one after another, with a stack of the places
/// that are left.
///
/// The error names the first block that isn't what its place asks for. A number above the greatest `u64` is returned as that one.
pub fn count_past<O: OnceDisk + Drop>(
    reader: &mut ShelfReader<O>,
    seen: &mut O::Seen,
    alloc: Global,
    places: Vec<Place>,
) -> Result<u64, BlockError>
    ensures checked { ReadsWell O.OnceDisk reader.old seen.old → IfOk result (λ n. ReportsPast (O.known seen.old) (O.block_count (reader_disk reader.old)) places.items n ⊎ MeetUnknown (O.known seen.old) (O.block_count (reader_disk reader.old)) places.items) }
    ensures damaged { ReadsWell O.OnceDisk reader.old seen.old → (block : ℕ) → result ≡ Err (BlockError.Damaged block) → MeetDamage (O.known seen.old) (O.block_count (reader_disk reader.old)) places.items block ⊎ MeetUnknown (O.known seen.old) (O.block_count (reader_disk reader.old)) places.items }
    ensures reads { ReadsWell O.OnceDisk reader.old seen.old → ReadsWell O.OnceDisk reader.new seen.new ⊎ MeetUnknown (O.known seen.old) (O.block_count (reader_disk reader.old)) places.items }
    ensures same { O.honest_seen (reader_disk reader.old) seen.old → O.known seen.new ≡ O.known seen.old }
    ensures disk { reader_disk reader.new ≡ reader_disk reader.old }
    ensures capacity { capacity_of reader.new ≡ capacity_of reader.old }
    ensures honest { O.honest_seen (reader_disk reader.old) seen.old ↔ O.honest_seen (reader_disk reader.old) seen.new }
    ensures quiet { (IsErrOf result BlockError.Fault → ⊥) → O.seen_fault_count seen.new ≡ O.seen_fault_count seen.old }
    ensures counted { IsErrOf result BlockError.Fault → O.seen_fault_count seen.new ≡ min (O.seen_fault_count seen.old + 1) 18446744073709551615 }
{
    let mut left = places;
    let mut count = 0u64;
    while let Some(place) = left.pop() {
        let reported = reported_at(reader, seen, alloc, &place)?;
        count = take(alloc, &mut left, count, &place, reported)?;
    }
    Ok(count)
}
