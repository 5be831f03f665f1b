//! Lookups in the past: from a place in settled blocks.

ghost use Rattle.std.specs.Prelude.{◌≡◌, ◌↔◌, ◌⊎◌, ℕ, List, IfOk, IsErrOf, Err, min, ◌+◌};
ghost use Rattle.version_model.specs.Versions.{Version, Answers, IsRising};
ghost use Rattle.version_model.specs.Ranges.{IsPoint, range_of};
ghost use Rattle.version_model.specs.Looks.{IsReached, IsPart};
ghost use Rattle.version_model.specs.Entries.{versions_of};
ghost use Rattle.once_store.specs.Readers.{capacity_of, reader_disk};
ghost use Rattle.tsb_walk.specs.Answers.{found_as, reached_as};
ghost use Rattle.tsb_walk.specs.BlockWays.{AreKnownTo, IsBadBlock};
ghost use Rattle.tsb_walk.specs.Inside.{CachesInside};
ghost use Rattle.tsb_walk.specs.Knowing.{ReadsWell, RepresentsKnown};
ghost use Rattle.tsb_walk.specs.Looked.{GoesOnFrom, ReportsFrom};

use crate::looks::{Found, KeyVersions, Reached, found_in, part_in, reached_in};
use crate::walk::leaf_place;
use disk_models::OnceDisk;
use once_store::{BlockError, ShelfReader};
use route_model::Key;
use std::alloc::Global;
use tsb_node::ReadFault;
use version_model::{Place, Stamp};

/// Why no lookup is made in a leaf in a block.
pub fn block_refusal(fault: ReadFault, block: u64) -> BlockError
    ensures damaged { (m : ℕ) → result ≡ BlockError.Damaged m → (m ≡ block) × (fault ≡ ReadFault.NotANode) }
    ensures never { result ≡ BlockError.Fault → ⊥ }
{
    match fault {
        ReadFault::NotANode => BlockError::Damaged(block),
        ReadFault::Memory => BlockError::OutOfMemory,
    }
}

/// The next key from `from` on, itself included, that has a value as of the stamp, among the keys of a place in the past.
///
/// It takes no lock, and waits for nothing but the disk. If the place is valid, no block is reported as damaged. A block that is reported
/// is on the path of the key, and isn't what its place requires; not each such block is reported, since of a block
/// only its digest, its header and what the key needs are read. A failure of the disk and out of memory are returned too.
pub fn hist_next<O: OnceDisk + Drop>(
    reader: &mut ShelfReader<O>,
    seen: &mut O::Seen,
    alloc: Global,
    place: &Place,
    from: Key,
    stamp: Stamp,
) -> Result<Reached, BlockError>
    requires point { IsPoint (range_of place.now.bounds) from stamp }
    ensures next { (all : List Version) → RepresentsKnown O.OnceDisk reader.old seen.old all place.now → IfOk result (λ reached. IsReached all stamp from (reached_as reached)) }
    ensures reads { (all : List Version) → RepresentsKnown O.OnceDisk reader.old seen.old all place.now → ReadsWell O.OnceDisk reader.new seen.new }
    ensures never { (all : List Version) → RepresentsKnown O.OnceDisk reader.old seen.old all place.now → (block : ℕ) → result ≡ Err (BlockError.Damaged block) → ⊥ }
    ensures damaged { ReadsWell O.OnceDisk reader.old seen.old → AreKnownTo (O.known seen.old) (O.block_count (reader_disk reader.old)) place.now.part.block → (block : ℕ) → result ≡ Err (BlockError.Damaged block) → IsBadBlock (O.known seen.old) (O.block_count (reader_disk reader.old)) from stamp place.now block }
    ensures onward { IfOk result (GoesOnFrom from) }
    ensures inside { CachesInside O.OnceDisk reader.old → CachesInside O.OnceDisk reader.new }
    ensures same { O.honest_seen (reader_disk reader.old) seen.old → O.known seen.new ≡ O.known seen.old }
    ensures disk { reader_disk reader.new ≡ reader_disk reader.old }
    ensures capacity { capacity_of reader.new ≡ capacity_of reader.old }
    ensures honest { O.honest_seen (reader_disk reader.old) seen.old ↔ O.honest_seen (reader_disk reader.old) seen.new }
    ensures quiet { (IsErrOf result BlockError.Fault → ⊥) → O.seen_fault_count seen.new ≡ O.seen_fault_count seen.old }
    ensures counted { IsErrOf result BlockError.Fault → O.seen_fault_count seen.new ≡ min (O.seen_fault_count seen.old + 1) 18446744073709551615 }
{
    let last = leaf_place(reader, seen, place, from, stamp)?;
    let number = last.part.block;
    let Some(block) = reader.block(number) else {
        return Err(BlockError::Damaged(number));
    };
    match reached_in(alloc, block.octets(), &last.bounds.high, from, stamp) {
        Ok(reached) => Ok(reached),
        Err(fault) => Err(block_refusal(fault, number)),
    }
}

/// The versions of the key from the stamp on, ends included, of a place in the past: all before the end that is returned
/// with them.
///
/// It waits for nothing but the disk, and is refused as `hist_next` is.
pub fn hist_part<O: OnceDisk + Drop>(
    reader: &mut ShelfReader<O>,
    seen: &mut O::Seen,
    alloc: Global,
    place: &Place,
    key: Key,
    from: Stamp,
) -> Result<KeyVersions, BlockError>
    requires point { IsPoint (range_of place.now.bounds) key from }
    ensures part { (all : List Version) → IsRising all → RepresentsKnown O.OnceDisk reader.old seen.old all place.now → IfOk result (λ part. IsPart all key from (versions_of part.entries.items) part.reported) }
    ensures reads { (all : List Version) → RepresentsKnown O.OnceDisk reader.old seen.old all place.now → ReadsWell O.OnceDisk reader.new seen.new }
    ensures never { (all : List Version) → RepresentsKnown O.OnceDisk reader.old seen.old all place.now → (block : ℕ) → result ≡ Err (BlockError.Damaged block) → ⊥ }
    ensures damaged { ReadsWell O.OnceDisk reader.old seen.old → AreKnownTo (O.known seen.old) (O.block_count (reader_disk reader.old)) place.now.part.block → (block : ℕ) → result ≡ Err (BlockError.Damaged block) → IsBadBlock (O.known seen.old) (O.block_count (reader_disk reader.old)) key from place.now block }
    ensures reported { IfOk result (ReportsFrom from) }
    ensures inside { CachesInside O.OnceDisk reader.old → CachesInside O.OnceDisk reader.new }
    ensures same { O.honest_seen (reader_disk reader.old) seen.old → O.known seen.new ≡ O.known seen.old }
    ensures disk { reader_disk reader.new ≡ reader_disk reader.old }
    ensures capacity { capacity_of reader.new ≡ capacity_of reader.old }
    ensures honest { O.honest_seen (reader_disk reader.old) seen.old ↔ O.honest_seen (reader_disk reader.old) seen.new }
    ensures quiet { (IsErrOf result BlockError.Fault → ⊥) → O.seen_fault_count seen.new ≡ O.seen_fault_count seen.old }
    ensures counted { IsErrOf result BlockError.Fault → O.seen_fault_count seen.new ≡ min (O.seen_fault_count seen.old + 1) 18446744073709551615 }
{
    let last = leaf_place(reader, seen, place, key, from)?;
    let number = last.part.block;
    let Some(block) = reader.block(number) else {
        return Err(BlockError::Damaged(number));
    };
    match part_in(alloc, block.octets(), &last.bounds.end, key, from) {
        Ok(part) => Ok(part),
        Err(fault) => Err(block_refusal(fault, number)),
    }
}

/// What the key has as of the stamp, by a place in the past: its value, or None if it has none or has ended.
///
/// It waits for nothing but the disk, and is refused as `hist_next` is.
pub fn hist_find<O: OnceDisk + Drop>(
    reader: &mut ShelfReader<O>,
    seen: &mut O::Seen,
    alloc: Global,
    place: &Place,
    key: Key,
    stamp: Stamp,
) -> Result<Option<Found>, BlockError>
    requires point { IsPoint (range_of place.now.bounds) key stamp }
    ensures found { (all : List Version) → RepresentsKnown O.OnceDisk reader.old seen.old all place.now → IfOk result (λ found. Answers all key stamp (found_as found)) }
    ensures reads { (all : List Version) → RepresentsKnown O.OnceDisk reader.old seen.old all place.now → ReadsWell O.OnceDisk reader.new seen.new }
    ensures never { (all : List Version) → RepresentsKnown O.OnceDisk reader.old seen.old all place.now → (block : ℕ) → result ≡ Err (BlockError.Damaged block) → ⊥ }
    ensures damaged { ReadsWell O.OnceDisk reader.old seen.old → AreKnownTo (O.known seen.old) (O.block_count (reader_disk reader.old)) place.now.part.block → (block : ℕ) → result ≡ Err (BlockError.Damaged block) → IsBadBlock (O.known seen.old) (O.block_count (reader_disk reader.old)) key stamp place.now block }
    ensures inside { CachesInside O.OnceDisk reader.old → CachesInside O.OnceDisk reader.new }
    ensures same { O.honest_seen (reader_disk reader.old) seen.old → O.known seen.new ≡ O.known seen.old }
    ensures disk { reader_disk reader.new ≡ reader_disk reader.old }
    ensures capacity { capacity_of reader.new ≡ capacity_of reader.old }
    ensures honest { O.honest_seen (reader_disk reader.old) seen.old ↔ O.honest_seen (reader_disk reader.old) seen.new }
    ensures quiet { (IsErrOf result BlockError.Fault → ⊥) → O.seen_fault_count seen.new ≡ O.seen_fault_count seen.old }
    ensures counted { IsErrOf result BlockError.Fault → O.seen_fault_count seen.new ≡ min (O.seen_fault_count seen.old + 1) 18446744073709551615 }
{
    let last = leaf_place(reader, seen, place, key, stamp)?;
    let number = last.part.block;
    let Some(block) = reader.block(number) else {
        return Err(BlockError::Damaged(number));
    };
    match found_in(alloc, block.octets(), key, stamp) {
        Ok(found) => Ok(found),
        Err(fault) => Err(block_refusal(fault, number)),
    }
}
