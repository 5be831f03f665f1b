//! A file in memory.

ghost use Rattle.std.specs.Prelude.{◌≤◌, ◌+◌};

use disk_files::{Access, FileFacts, FileIdentity, OctetFile};
use disk_memory::MemErase;
use disk_models::{EraseDisk, Fault};
use std::alloc::Global;
use std::io;

/// A file in memory: an erasable disk in memory, whose size is given once. It is its owner's alone.
#[derive(Drop)]
pub struct MemFile {
    alloc: Global,
    disk: MemErase,
}

impl MemFile {
    /// A file of no octets.
    pub fn new(alloc: Global) -> MemFile {
        MemFile {
            alloc,
            disk: MemErase::new(alloc, 0),
        }
    }
}

/// What a call returns where the disk in memory fails.
fn failed(_why: Fault) -> io::Error {
    io::ErrorKind::Other.into()
}

/// How many octets of a range lie in a file of this size.
fn inside(size: u64, at: u64, count: usize) -> usize
    ensures few { result ≤ count }
    ensures room { 1 ≤ result → at + result ≤ size }
{
    if at >= size {
        return 0;
    }
    let room = size - at;
    if room < count as u64 {
        room as usize
    } else {
        count
    }
}

impl OctetFile for MemFile {
    ghost use Rattle.disk_memory.specs.Memory.{calls_of};
    ghost use Rattle.disk_memory.specs.Sound.{state_is_sound};

    ghost follows = { λ _. Unit {0} };

    ghost model = { λ file. ⟦<MemErase as EraseDisk>⟧.model file.disk };

    ghost octet_count = { λ file. ⟦<MemErase as EraseDisk>⟧.octet_count file.disk };

    ghost is_held = { λ _ _. Unit {0} };

    ghost sound = { λ file _. state_is_sound (calls_of file.disk) };

    fn facts(&self) -> io::Result<FileFacts> {
        Ok(FileFacts {
            is_regular: true,
            size: self.disk.size(),
            identity: FileIdentity {
                device: 0,
                number: 0,
            },
        })
    }

    fn hold(&mut self, _access: Access) -> io::Result<bool> {
        Ok(true)
    }

    fn resize(&mut self, size: u64) -> io::Result<()> {
        if self.disk.size() != 0 {
            return Err(io::ErrorKind::Unsupported.into());
        }
        self.disk = MemErase::new(self.alloc, size);
        Ok(())
    }

    fn settle(&mut self) -> io::Result<()> {
        match self.disk.sync() {
            Ok(()) => Ok(()),
            Err(why) => Err(failed(why)),
        }
    }

    fn read_some(&mut self, at: u64, into: &mut [u8]) -> io::Result<usize> {
        let count = inside(self.disk.size(), at, into.len());
        if count == 0 {
            return Ok(0);
        }
        match self.disk.read(at, &mut into[..count]) {
            Ok(()) => Ok(count),
            Err(why) => Err(failed(why)),
        }
    }

    fn write_some(&mut self, at: u64, from: &[u8]) -> io::Result<usize> {
        let count = inside(self.disk.size(), at, from.len());
        if count == 0 {
            return Ok(0);
        }
        match self.disk.write_at(at, &from[..count]) {
            Ok(()) => Ok(count),
            Err(why) => Err(failed(why)),
        }
    }

    fn sync(&mut self) -> io::Result<()> {
        match self.disk.sync() {
            Ok(()) => Ok(()),
            Err(why) => Err(failed(why)),
        }
    }

    fn twin(&self) -> io::Result<MemFile> {
        match self.disk.copy() {
            Ok(disk) => Ok(MemFile {
                alloc: self.alloc,
                disk,
            }),
            Err(_) => Err(io::ErrorKind::OutOfMemory.into()),
        }
    }
}
