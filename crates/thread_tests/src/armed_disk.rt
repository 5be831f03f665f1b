//! A write-once disk whose first read is held.

ghost use Rattle.disk_memory.specs.OnceSound.{once_is_sound};
ghost use Rattle.disk_memory.specs.Pen.{settled_of, waiting_of};

use crate::signals::Signals;
use disk_memory::{MemOnce, MemPen, MemSeen};
use disk_models::{Block, Fault, OnceDisk};
use std::sync::Arc;

/// A disk in memory, whose first read waits until what it is held for is done.
#[derive(Drop)]
pub(crate) struct ArmedOnce {
    pub(crate) disk: MemOnce,
    pub(crate) signals: Arc<Signals>,
}

impl OnceDisk for ArmedOnce {
    type Pen = MemPen;

    type Seen = MemSeen;

    ghost block_count = { λ armed. ⟦<MemOnce as OnceDisk>⟧.block_count armed.disk };

    ghost honest = { λ armed pen. ⟦<MemOnce as OnceDisk>⟧.honest armed.disk pen };

    ghost honest_seen = { λ armed seen. ⟦<MemOnce as OnceDisk>⟧.honest_seen armed.disk seen };

    ghost model = { λ pen. ⟦<MemOnce as OnceDisk>⟧.model pen };

    ghost known = { λ seen. ⟦<MemOnce as OnceDisk>⟧.known seen };

    ghost pen_fault_count = { λ pen. ⟦<MemOnce as OnceDisk>⟧.pen_fault_count pen };

    ghost seen_fault_count = { λ seen. ⟦<MemOnce as OnceDisk>⟧.seen_fault_count seen };

    ghost sound = { λ _ pen _. once_is_sound (settled_of pen) (waiting_of pen) };

    fn blocks(&self) -> u64 {
        self.disk.blocks()
    }

    fn blank(&self, pen: &mut MemPen, n: u64) -> Result<bool, Fault> {
        self.disk.blank(pen, n)
    }

    fn burn(&self, pen: &mut MemPen, n: u64, block: &Block) -> Result<(), Fault> {
        self.disk.burn(pen, n, block)
    }

    fn settle(&self, pen: &mut MemPen) -> Result<(), Fault> {
        self.disk.settle(pen)
    }

    fn look(&self, pen: &mut MemPen) -> Result<MemSeen, Fault> {
        self.disk.look(pen)
    }

    fn read(&self, seen: &mut MemSeen, n: u64, into: &mut Block) -> Result<(), Fault> {
        let signals: &Signals = &self.signals;
        signals.hold();
        self.disk.read(seen, n, into)
    }

    fn pen_faults(pen: &MemPen) -> u64 {
        MemOnce::pen_faults(pen)
    }

    fn seen_faults(seen: &MemSeen) -> u64 {
        MemOnce::seen_faults(seen)
    }
}
