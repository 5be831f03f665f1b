//! The walk from a place through settled blocks to the leaf that has a key as of a stamp.

ghost use Rattle.std.specs.Prelude.{◌≡◌, ◌↔◌, ◌⊎◌, ◌≤◌, ℕ, List, IfOk, OnOk, IfErr, IsErrOf, Err, min, ◌+◌};
ghost use Rattle.version_model.specs.Versions.{Version};
ghost use Rattle.version_model.specs.Ranges.{IsPoint, range_of};
ghost use Rattle.once_store.specs.Readers.{IsCached, capacity_of, reader_disk};
ghost use Rattle.tsb_walk.specs.Inside.{CachesInside};
ghost use Rattle.tsb_walk.specs.Knowing.{ReadsWell, IsKnown, RepresentsKnown};
ghost use Rattle.tsb_walk.specs.Ways.{IsFit};
ghost use Rattle.tsb_walk.specs.BlockWays.{AreKnownTo, IsBadBlock};
ghost use Rattle.tsb_walk.specs.inner.Steps.{IsStep, GoesDown};
ghost use Rattle.tsb_walk.specs.inner.Arriving.{Arrives, HasLeaf};

use crate::block::{Step, step_in};
use disk_models::OnceDisk;
use once_store::{BlockError, ShelfReader};
use route_model::Key;
use version_model::{Place, Stamp};

// Takes one step: reads the block of a place.
fn take_step<O: OnceDisk + Drop>(
    reader: &mut ShelfReader<O>,
    seen: &mut O::Seen,
    place: &Place,
    key: Key,
    stamp: Stamp,
) -> Result<Step, BlockError>
    requires point { IsPoint (range_of place.now.bounds) key stamp }
    ensures step { ReadsWell O.OnceDisk reader.old seen.old → (octets : List ℕ) → IsKnown (O.known seen.old) (O.block_count (reader_disk reader.old)) place.now.part.block octets → IsFit place.now octets key stamp → IfOk result (IsStep place.now octets key stamp) }
    ensures reads { ReadsWell O.OnceDisk reader.old seen.old → (octets : List ℕ) → IsKnown (O.known seen.old) (O.block_count (reader_disk reader.old)) place.now.part.block octets → ReadsWell O.OnceDisk reader.new seen.new }
    ensures unfit { ReadsWell O.OnceDisk reader.old seen.old → (octets : List ℕ) → IsKnown (O.known seen.old) (O.block_count (reader_disk reader.old)) place.now.part.block octets → (m : ℕ) → result ≡ Err (BlockError.Damaged m) → IsFit place.now octets key stamp → ⊥ }
    ensures number { (m : ℕ) → result ≡ Err (BlockError.Damaged m) → m ≡ place.now.part.block }
    ensures down { IfOk result (GoesDown place.now key stamp) }
    ensures kept { OnOk result ((octets : List ℕ) × IsCached reader.new place.now.part.block octets) }
    ensures inside { CachesInside O.OnceDisk reader.old → CachesInside O.OnceDisk reader.new }
    ensures same { O.honest_seen (reader_disk reader.old) seen.old → O.known seen.new ≡ O.known seen.old }
    ensures disk { reader_disk reader.new ≡ reader_disk reader.old }
    ensures capacity { capacity_of reader.new ≡ capacity_of reader.old }
    ensures honest { O.honest_seen (reader_disk reader.old) seen.old ↔ O.honest_seen (reader_disk reader.old) seen.new }
    ensures quiet { (IsErrOf result BlockError.Fault → ⊥) → O.seen_fault_count seen.new ≡ O.seen_fault_count seen.old }
    ensures counted { IsErrOf result BlockError.Fault → O.seen_fault_count seen.new ≡ min (O.seen_fault_count seen.old + 1) 18446744073709551615 }
{
    let number = place.part.block;
    reader.fetch(seen, number)?;
    let Some(block) = reader.block(number) else {
        return Err(BlockError::Damaged(number));
    };
    match step_in(block.octets(), place, key, stamp) {
        Some(step) => Ok(step),
        None => Err(BlockError::Damaged(number)),
    }
}

/// The place whose block is the leaf that has the key as of the stamp. That block is cached then.
pub fn leaf_place<O: OnceDisk + Drop>(
    reader: &mut ShelfReader<O>,
    seen: &mut O::Seen,
    place: &Place,
    key: Key,
    stamp: Stamp,
) -> Result<Place, BlockError>
    requires point { IsPoint (range_of place.now.bounds) key stamp }
    ensures leaf { (all : List Version) → RepresentsKnown O.OnceDisk reader.old seen.old all place.now → IfOk result (HasLeaf O.OnceDisk reader.new all) }
    ensures reads { (all : List Version) → RepresentsKnown O.OnceDisk reader.old seen.old all place.now → ReadsWell O.OnceDisk reader.new seen.new }
    ensures never { (all : List Version) → RepresentsKnown O.OnceDisk reader.old seen.old all place.now → (m : ℕ) → result ≡ Err (BlockError.Damaged m) → ⊥ }
    ensures arrives { ReadsWell O.OnceDisk reader.old seen.old → AreKnownTo (O.known seen.old) (O.block_count (reader_disk reader.old)) place.now.part.block → IfOk result (Arrives O.OnceDisk reader.new (O.known seen.old) (O.block_count (reader_disk reader.old)) key stamp place.now) }
    ensures damaged { ReadsWell O.OnceDisk reader.old seen.old → AreKnownTo (O.known seen.old) (O.block_count (reader_disk reader.old)) place.now.part.block → (block : ℕ) → result ≡ Err (BlockError.Damaged block) → IsBadBlock (O.known seen.old) (O.block_count (reader_disk reader.old)) key stamp place.now block }
    ensures point { IfOk result (λ last. IsPoint (range_of last.bounds) key stamp) }
    ensures kept { IfOk result (λ last. (octets : List ℕ) × IsCached reader.new last.part.block octets) }
    ensures inside { CachesInside O.OnceDisk reader.old → CachesInside O.OnceDisk reader.new }
    ensures same { O.honest_seen (reader_disk reader.old) seen.old → O.known seen.new ≡ O.known seen.old }
    ensures disk { reader_disk reader.new ≡ reader_disk reader.old }
    ensures capacity { capacity_of reader.new ≡ capacity_of reader.old }
    ensures honest { O.honest_seen (reader_disk reader.old) seen.old ↔ O.honest_seen (reader_disk reader.old) seen.new }
    ensures quiet { (IsErrOf result BlockError.Fault → ⊥) → O.seen_fault_count seen.new ≡ O.seen_fault_count seen.old }
    ensures counted { IsErrOf result BlockError.Fault → O.seen_fault_count seen.new ≡ min (O.seen_fault_count seen.old + 1) 18446744073709551615 }
{
    let mut at = *place;
    loop {
        match take_step(reader, seen, &at, key, stamp)? {
            Step::InLeaf => return Ok(at),
            Step::Further(next) => at = next,
        }
    }
}
