//! What a reader knows of a write-once disk in memory.

ghost use Rattle.std.specs.Prelude.{◌≡◌, ◌+◌, ◌↔◌, min, Contains, IsTrue};

use crate::burn::Burn;
use disk_models::Fault;

/// The blocks that were settled when it was made. It shares their octets with the disk.
#[derive(Drop)]
pub struct MemSeen {
    pub(crate) burns: Vec<Burn>,
    failing: Vec<u64>,
    reads: u64,
    faults: u64,
}

impl MemSeen {
    ghost use Rattle.disk_memory.specs.Seen.{failing_of, known_burns_of, seen_faults_of, seen_reads_of};

    /// One that knows these burns, with the numbers of the reads that are to fail.
    pub(crate) fn new(burns: Vec<Burn>, failing: Vec<u64>) -> Self
        ensures burns { known_burns_of result ≡ burns.items }
        ensures failing { failing_of result ≡ failing.items }
        ensures reads { seen_reads_of result ≡ 0 }
        ensures faults { seen_faults_of result ≡ 0 }
    {
        MemSeen {
            burns,
            failing,
            reads: 0,
            faults: 0,
        }
    }

    /// How often a read with it has failed.
    pub(crate) fn faults(&self) -> u64
        ensures { result ≡ seen_faults_of self.now }
    {
        self.faults
    }

    /// Counts a failure.
    pub(crate) fn fault(&mut self) -> Fault
        ensures { self.new ≡ record self.old { faults = min (self.old.faults + 1) 18446744073709551615 } }
    {
        self.faults = self.faults.saturating_add(1);
        Fault
    }

    /// Counts a read, and says whether it fails.
    pub(crate) fn read_fails(&mut self) -> bool
        ensures scripted { IsTrue result ↔ Contains (failing_of self.old) self.old.reads }
        ensures next { self.new ≡ record self.old { reads = min (self.old.reads + 1) 18446744073709551615 } }
    {
        let number = self.reads;
        self.reads = number.saturating_add(1);
        self.failing.contains(&number)
    }
}
