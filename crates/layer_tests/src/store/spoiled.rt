//! A write-once disk that changes an octet of what it reads.

ghost use Rattle.disk_memory.specs.Burning.{burnt_in};
ghost use Rattle.disk_memory.specs.Once.{blocks_of};
ghost use Rattle.disk_memory.specs.Pen.{once_faults_of, once_model};
ghost use Rattle.disk_memory.specs.Seen.{known_burns_of, seen_faults_of};

use disk_memory::{MemOnce, MemPen, MemSeen};
use disk_models::{Block, Fault, OnceDisk};

/// A disk in memory of which one octet of one block comes back changed: no honest disk.
#[derive(Drop)]
pub(super) struct Spoiled {
    pub(super) disk: MemOnce,
    pub(super) number: u64,
    pub(super) place: usize,
}

impl OnceDisk for Spoiled {
    type Pen = MemPen;

    type Seen = MemSeen;

    ghost block_count = { λ spoiled. blocks_of spoiled.disk };

    ghost honest = { λ _ _. ⊥ };

    ghost honest_seen = { λ _ _. ⊥ };

    ghost model = { once_model };

    ghost known = { λ seen n. burnt_in n (known_burns_of seen) };

    ghost pen_fault_count = { once_faults_of };

    ghost seen_fault_count = { seen_faults_of };

    ghost sound = { λ _ _ none. absurd none };

    fn blocks(&self) -> u64 {
        self.disk.blocks()
    }

    fn blank(&self, pen: &mut MemPen, n: u64) -> Result<bool, Fault> {
        self.disk.blank(pen, n)
    }

    // Whoever takes this disk for what it is may burn a block twice, which does nothing.
    fn burn(&self, pen: &mut MemPen, n: u64, block: &Block) -> Result<(), Fault> {
        if self.disk.blank(pen, n)? {
            return self.disk.burn(pen, n, block);
        }
        Ok(())
    }

    fn settle(&self, pen: &mut MemPen) -> Result<(), Fault> {
        self.disk.settle(pen)
    }

    fn look(&self, pen: &mut MemPen) -> Result<MemSeen, Fault> {
        self.disk.look(pen)
    }

    fn read(&self, seen: &mut MemSeen, n: u64, into: &mut Block) -> Result<(), Fault> {
        self.disk.read(seen, n, into)?;
        if n == self.number && self.place < into.octets().len() {
            into.octets_mut()[self.place] ^= 1;
        }
        Ok(())
    }

    fn pen_faults(pen: &MemPen) -> u64 {
        MemOnce::pen_faults(pen)
    }

    fn seen_faults(seen: &MemSeen) -> u64 {
        MemOnce::seen_faults(seen)
    }
}
