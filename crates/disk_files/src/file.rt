//! A file, as the disks use it.

ghost use Rattle.std.specs.Prelude.{◌≡◌, ◌↔◌, ◌≤◌, ℕ, length, take, true, IfOk, IsTrue, OnErr, OnOk};
ghost use Rattle.disk_models.specs.Octets.{octets};
ghost use Rattle.disk_models.specs.Erase.{DiskState, IsSound, Lingers, Stays, Syncs, WritesWithin};

use crate::failure::{Call, Reason};
use std::io;

/// Which file of the system it is, whatever its name.
#[derive(Clone, Copy, Debug, PartialEq, Eq)]
pub struct FileIdentity {
    /// The device on which it lies.
    pub device: u64,
    /// Its number there.
    pub number: u64,
}

/// How the lock of a file is taken, and what may be done with the file while it is held.
#[derive(Clone, Copy, Debug, PartialEq, Eq)]
pub enum Access {
    /// By no one else: it is read and written.
    Alone,
    /// By any number at once, while no one has it alone: it is only read.
    Shared,
}

impl Access {
    /// Whether the file is only read.
    pub fn is_shared(self) -> bool
        ensures { IsTrue result ↔ (self ≡ Access.Shared) }
    {
        matches!(self, Access::Shared)
    }
}

/// What the system says of an open file.
#[derive(Clone, Copy, Debug)]
pub struct FileFacts {
    /// It is a regular file: no folder, pipe or device.
    pub is_regular: bool,
    /// How many octets it has.
    pub size: u64,
    /// Which file it is.
    pub identity: FileIdentity,
}

/// An open file of octets, which are read and written at places. Each call may do less than it was asked for.
///
/// What a call promises of octets, of the size and of the lock, it promises of a file that follows its model. One of the
/// system never does, as far as a contract knows.
pub trait OctetFile {
    ghost use Rattle.disk_files.specs.declared.file.Access.{Access};

    /// It does what its model says. Each call keeps this both ways.
    ghost follows: { Self → Type 0 };

    /// What a read gives, which places are unsynced, and what a crash may have left.
    ghost model: { Self → DiskState };

    /// How many octets it has.
    ghost octet_count: { Self → ℕ };

    /// It is held so: no one else holds it, or no one else holds it alone.
    ghost is_held: { Self → Access → Type 0 };

    /// What it is.
    fn facts(&self) -> io::Result<FileFacts>
        ensures size { follows self.now → IfOk result (λ facts. facts.size ≡ octet_count self.now) };

    /// Takes its lock with this access; the lock is released when the file is closed. Returns whether it was free, and waits for no one.
    fn hold(&mut self, access: Access) -> io::Result<bool>
        ensures follows { follows self.old ↔ follows self.new }
        ensures size { follows self.old → octet_count self.new ≡ octet_count self.old }
        ensures held { follows self.old → IfOk result (λ free. free ≡ true → is_held self.new access) }
        ensures stays { follows self.old → Stays (model self.old) (model self.new) };

    /// Gives it a size. What is added is zeros.
    fn resize(&mut self, size: u64) -> io::Result<()>
        ensures follows { follows self.old ↔ follows self.new }
        ensures size { follows self.old → OnOk result (octet_count self.new ≡ size) }
        ensures held { (access : Access) → is_held self.old access → is_held self.new access };

    /// Brings it to the device with all that is needed to find it again, and has later reads come from the device.
    fn settle(&mut self) -> io::Result<()>
        ensures follows { follows self.old ↔ follows self.new }
        ensures size { follows self.old → octet_count self.new ≡ octet_count self.old }
        ensures held { (access : Access) → is_held self.old access → is_held self.new access }
        ensures settled { follows self.old → OnOk result ((i : ℕ) → ¬ (model self.new).unsynced i) }
        ensures lingers { follows self.old → Lingers (model self.old) (model self.new) };

    /// Reads octets from a place on. Returns how many of them are in `into` then: none after the file's end.
    fn read_some(&mut self, at: u64, into: &mut [u8]) -> io::Result<usize>
        ensures bound { IfOk result (λ n. n ≤ length into.old) }
        ensures follows { follows self.old ↔ follows self.new }
        ensures octets { follows self.old → IfOk result (λ n. take n into.new ≡ octets (model self.old).octet at n) }
        ensures stays { follows self.old → Stays (model self.old) (model self.new) };

    /// Writes octets from a place on. Returns how many of them.
    fn write_some(&mut self, at: u64, from: &[u8]) -> io::Result<usize>
        ensures bound { IfOk result (λ n. n ≤ length from.now) }
        ensures follows { follows self.old ↔ follows self.new }
        ensures octets { follows self.old → IfOk result (λ n. octets (model self.new).octet at n ≡ take n from.now) }
        ensures within { follows self.old → WritesWithin at (length from.now) (model self.old) (model self.new) };

    /// Brings what was written to the device. One that fails settles nothing.
    fn sync(&mut self) -> io::Result<()>
        ensures follows { follows self.old ↔ follows self.new }
        ensures syncs { follows self.old → OnOk result (Syncs (model self.old) (model self.new)) }
        ensures lingers { follows self.old → Lingers (model self.old) (model self.new) }
        ensures nothing_settled { follows self.old → OnErr result ((i : ℕ) → (model self.old).unsynced i → (model self.new).unsynced i) };

    /// The same file, opened once more for a reader, which reads it as it is on the device now. A handle of the system's shows what is
    /// written later, too: of a write-once disk these are later marks and burns, and never a block that is marked now.
    fn twin(&self) -> io::Result<Self>
    where
        Self: Sized,
        ensures follows { follows self.now → IfOk result (λ twin. follows twin) }
        ensures octets { follows self.now → IfOk result (λ twin. (i : ℕ) → ¬ (model self.now).unsynced i → (model twin).octet i ≡ (model self.now).octet i) };

    /// Notes why a disk over it fails, for whoever asks later. By itself a file keeps nothing.
    fn note(&self, _call: Call, _reason: Reason) {}

    /// What a crash at this very moment may leave is what it may leave now.
    ghost sound: { (file : Self) → follows file → IsSound (model file) };
}
