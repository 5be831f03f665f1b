//! The shelf.
ghost use Rattle.std.specs.Prelude.{◌≡◌, ◌<◌, ◌≤◌, ◌+◌, ◌↔◌, ◌⊎◌, ℕ, List, IfOk, OnOk, IfErr, IsErr, IsErrOf, max, min, true};
ghost use Rattle.disk_models.specs.Erase.{Counts};
ghost use Rattle.disk_models.specs.Once.{Grows, settled_in};
ghost use Rattle.disk_models.specs.Left.{HasSettled, Left};
ghost use Rattle.once_store.specs.Shelves.{AllTried, AreTriedBelow, IsFirstBlank};

use crate::error::AppendError;
use crate::reader::ShelfReader;
use crate::refused::Refused;
use disk_models::{Block, Fault, OnceDisk};
use std::alloc::{AllocError, Global};
use std::num::NonZeroUsize;
use std::sync::Arc;

/// Blocks on a write-once disk, each of which is settled before its number is returned.
#[derive(Drop)]
pub struct Shelf<O: OnceDisk + Drop> {
    disk: Arc<O>,
    pen: O::Pen,
    next: u64,
}

// Moves `next` past blocks that aren't blank, up to the first blank one, or to the end of the disk.
fn skip_tried<O: OnceDisk>(disk: &O, pen: &mut O::Pen, next: &mut u64) -> Result<(), Fault>
    ensures counts { Counts (O.pen_fault_count pen.old) (O.pen_fault_count pen.new) result }
    ensures honest { O.honest disk.now pen.old ↔ O.honest disk.now pen.new }
    ensures same { O.honest disk.now pen.old → O.model pen.new ≡ O.model pen.old }
    ensures forward { next.old ≤ next.new }
    ensures within { next.new ≤ max next.old (O.block_count disk.now) }
    ensures tried { O.honest disk.now pen.old → AllTried (O.model pen.old) next.old next.new }
    ensures blank { O.honest disk.now pen.old → OnOk result (IsFirstBlank (O.model pen.old) (O.block_count disk.now) next.old next.new) }
{
    'blocks: while *next < disk.blocks() {
        if disk.blank(pen, *next)? {
            break;
        }
        *next += 1;
    }
    Ok(())
}

impl<O: OnceDisk + Drop> Shelf<O> {
    ghost use Rattle.once_store.specs.Shelves.{HasPassed, IsAfterBlank, Spends, disk_after, disk_of, next_of, pen_after, pen_of};
    ghost use Rattle.once_store.specs.Readers.{IsCached, capacity_of, reader_disk};

    /// A shelf over a disk and its pen, which looks for the first blank block from `next` on.
    ///
    /// It asks the disk about each block that it passes, and trusts no number. If the device fails it is returned.
    pub fn open(disk: Arc<O>, mut pen: O::Pen, mut next: u64) -> Result<Self, Refused<O>>
        ensures next { O.honest disk.value pen → IfOk result (λ shelf. IsFirstBlank (O.model pen) (O.block_count disk.value) next (next_of shelf)) }
        ensures forward { IfOk result (λ shelf. next ≤ next_of shelf) }
        ensures within { IfOk result (λ shelf. next_of shelf ≤ max next (O.block_count disk.value)) }

        // A burn that failed may have left its block blank. Then the tried blocks have a gap, this doesn't hold, and the
        // next append fills the gap.
        ensures below { O.honest disk.value pen → (n : ℕ) → ((i : ℕ) → (O.model pen).tried i ≡ true ↔ i < n) → IfOk result (λ shelf. AreTriedBelow (O.model pen) (O.block_count disk.value) (next_of shelf)) }
        ensures disk { disk_after result ≡ disk.value }
        ensures honest { O.honest disk.value pen ↔ O.honest disk.value (pen_after result) }
        ensures same { O.honest disk.value pen → O.model (pen_after result) ≡ O.model pen }

        // Done or refused: whatever a crash leaves of the disk then, it leaves all that was settled before.
        ensures earlier { O.honest disk.value pen → (left : Left) → HasSettled (O.model (pen_after result)) left → HasSettled (O.model pen) left }
        ensures counts { Counts (O.pen_fault_count pen) (O.pen_fault_count (pen_after result)) result }
    {
        match skip_tried(&*disk, &mut pen, &mut next) {
            Ok(()) => Ok(Shelf { disk, pen, next }),
            Err(fault) => Err(Refused { disk, pen, fault }),
        }
    }

    /// Burns a block at the first blank one from the next number on, settles it, and then returns its number.
    ///
    /// A block that a failed call tried is spent: the next one gets a higher number. A call that failed and tried none has
    /// passed over tried blocks alone, or it has given up one blank block, whose burn left no trace.
    pub fn append(&mut self, block: &Block) -> Result<u64, AppendError>
        ensures settled { O.honest (disk_of self.old) (pen_of self.old) → IfOk result (λ n. settled_in (O.model (pen_of self.new)) n block.now) }
        ensures blank { O.honest (disk_of self.old) (pen_of self.old) → IfOk result (IsFirstBlank (O.model (pen_of self.old)) (O.block_count (disk_of self.old)) (next_of self.old)) }
        ensures number { IfOk result (λ n. n < O.block_count (disk_of self.old)) }
        ensures next { IfOk result (λ n. next_of self.new ≡ n + 1) }
        ensures forward { next_of self.old ≤ next_of self.new }
        ensures within { next_of self.new ≤ max (next_of self.old) (O.block_count (disk_of self.old)) }
        ensures spends { O.honest (disk_of self.old) (pen_of self.old) → Spends (next_of self.old) (next_of self.new) (O.model (pen_of self.old)) (O.model (pen_of self.new)) }
        ensures grows { O.honest (disk_of self.old) (pen_of self.old) → Grows (O.model (pen_of self.old)) (O.model (pen_of self.new)) }
        ensures below { O.honest (disk_of self.old) (pen_of self.old) → AreTriedBelow (O.model (pen_of self.old)) (O.block_count (disk_of self.old)) (next_of self.old) → AreTriedBelow (O.model (pen_of self.new)) (O.block_count (disk_of self.old)) (next_of self.new) }
        ensures full { O.honest (disk_of self.old) (pen_of self.old) → IsErrOf result AppendError.OnceFull → AllTried (O.model (pen_of self.old)) (next_of self.old) (O.block_count (disk_of self.old)) }
        ensures none_left { O.honest (disk_of self.old) (pen_of self.old) → AllTried (O.model (pen_of self.old)) (next_of self.old) (O.block_count (disk_of self.old)) → IsErr result }
        ensures same { O.honest (disk_of self.old) (pen_of self.old) → IsErrOf result AppendError.OnceFull → O.model (pen_of self.new) ≡ O.model (pen_of self.old) }

        // A disk doesn't distinguish a burn that failed without a trace from a look that failed. So if a call spends a
        // block, the clause states that it is the first blank one, and not which call failed.
        ensures failed { O.honest (disk_of self.old) (pen_of self.old) → IsErrOf result AppendError.Fault → HasPassed (next_of self.old) (next_of self.new) (O.model (pen_of self.old)) (O.model (pen_of self.new)) ⊎ IsAfterBlank (O.model (pen_of self.old)) (O.block_count (disk_of self.old)) (next_of self.old) (next_of self.new) }

        // In every outcome: whatever a crash leaves of the disk then, it leaves all that was settled before.
        ensures earlier { O.honest (disk_of self.old) (pen_of self.old) → (left : Left) → HasSettled (O.model (pen_of self.new)) left → HasSettled (O.model (pen_of self.old)) left }

        // And after Ok it leaves this block.
        ensures lasts { O.honest (disk_of self.old) (pen_of self.old) → IfOk result (λ n. (left : Left) → HasSettled (O.model (pen_of self.new)) left → settled_in left.once n block.now) }

        ensures disk { disk_of self.new ≡ disk_of self.old }
        ensures honest { O.honest (disk_of self.old) (pen_of self.old) ↔ O.honest (disk_of self.old) (pen_of self.new) }
        ensures quiet { (IsErrOf result AppendError.Fault → ⊥) → O.pen_fault_count (pen_of self.new) ≡ O.pen_fault_count (pen_of self.old) }
        ensures counted { IsErrOf result AppendError.Fault → O.pen_fault_count (pen_of self.new) ≡ min (O.pen_fault_count (pen_of self.old) + 1) 18446744073709551615 }
    {
        skip_tried(&*self.disk, &mut self.pen, &mut self.next)?;
        if self.next >= self.disk.blocks() {
            return Err(AppendError::OnceFull);
        }
        let number = self.next;
        // spent, whatever becomes of it
        self.next = number + 1;
        self.disk.burn(&mut self.pen, number, block)?;
        self.disk.settle(&mut self.pen)?;
        Ok(number)
    }

    /// What a reader may know from now on: the blocks that are settled.
    pub fn seen(&mut self) -> Result<O::Seen, Fault>
        ensures seen { O.honest (disk_of self.old) (pen_of self.old) → IfOk result (λ seen. O.honest_seen (disk_of self.old) seen) }
        ensures known { O.honest (disk_of self.old) (pen_of self.old) → IfOk result (λ seen. O.known seen ≡ (O.model (pen_of self.old)).settled) }
        ensures fresh { IfOk result (λ seen. O.seen_fault_count seen ≡ 0) }
        ensures next { next_of self.new ≡ next_of self.old }
        ensures same { O.honest (disk_of self.old) (pen_of self.old) → O.model (pen_of self.new) ≡ O.model (pen_of self.old) }
        ensures disk { disk_of self.new ≡ disk_of self.old }
        ensures honest { O.honest (disk_of self.old) (pen_of self.old) ↔ O.honest (disk_of self.old) (pen_of self.new) }
        ensures counts { Counts (O.pen_fault_count (pen_of self.old)) (O.pen_fault_count (pen_of self.new)) result }
    {
        self.disk.look(&mut self.pen)
    }

    /// A reader of its disk that caches at most `capacity` blocks, 1 to 1,024.
    pub fn reader(&self, alloc: Global, capacity: usize) -> Result<ShelfReader<O>, AllocError>
        requires some { 0 < capacity }
        requires few { capacity ≤ 1024 }
        ensures disk { IfOk result (λ reader. reader_disk reader ≡ disk_of self.now) }
        ensures capacity { IfOk result (λ reader. capacity_of reader ≡ capacity) }
        ensures none { IfOk result (λ reader. (n : ℕ) (block : List ℕ) → IsCached reader n block → ⊥) }
    {
        let Some(capacity) = NonZeroUsize::new(capacity) else {
            return Err(AllocError);
        };
        ShelfReader::new(alloc, Arc::try_clone(&self.disk)?, capacity)
    }

    /// The number that the next block gets, or a lower one if blocks from there on aren't blank.
    pub fn next(&self) -> u64
        ensures next { result ≡ next_of self.now }
    {
        self.next
    }

    /// How often the calls of its device that take the pen have failed.
    pub fn faults(&self) -> u64
        ensures count { result ≡ O.pen_fault_count (pen_of self.now) }
    {
        O::pen_faults(&self.pen)
    }

    /// Returns disk and pen.
    pub fn into_disk(self) -> (Arc<O>, O::Pen)
        ensures disk { result.0.value ≡ disk_of self }
        ensures pen { result.1 ≡ pen_of self }
    {
        (self.disk, self.pen)
    }
}
