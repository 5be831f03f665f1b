//! A file in memory that does less than it is asked for, is interrupted, and fails by a script.

ghost use Rattle.std.specs.Prelude.{◌≤◌};

use disk_files::{Access, FileFacts, FileIdentity, OctetFile};
use std::alloc::Global;
use std::io;

/// What a file is to do wrong.
#[derive(Clone, Copy, PartialEq)]
pub(crate) enum Wrong {
    Nothing,
    Syncs,
    Settles,
    IsHeld,
    IsIrregular,
    /// Reads and writes fail once this many calls were made.
    Moves(u64),
}

/// It moves at most `most` octets a call, and every third call is interrupted before it does anything.
#[derive(Drop)]
pub(crate) struct SlowFile {
    pub(crate) octets: Vec<u8>,
    pub(crate) wrong: Wrong,
    pub(crate) most: usize,
    pub(crate) calls: u64,
}

impl SlowFile {
    pub(crate) fn new(alloc: Global, most: usize, wrong: Wrong) -> SlowFile {
        SlowFile {
            octets: Vec::new(alloc),
            wrong,
            most,
            calls: 0,
        }
    }

    /// Counts a call, which may be interrupted or fail.
    fn begin(&mut self) -> io::Result<()> {
        self.calls = self.calls.saturating_add(1);
        if self.calls % 3 == 0 {
            return Err(io::ErrorKind::Interrupted.into());
        }
        match self.wrong {
            Wrong::Moves(calls) if calls < self.calls => Err(io::ErrorKind::Other.into()),
            _ => Ok(()),
        }
    }

    /// How many octets are moved at a place where `expected` are asked for.
    fn count(&self, at: u64, expected: usize) -> usize
        ensures { result ≤ expected }
    {
        match usize::try_from(at) {
            Ok(at) => expected
                .min(self.most)
                .min(self.octets.len().saturating_sub(at)),
            Err(_) => 0,
        }
    }
}

impl OctetFile for SlowFile {
    ghost use Rattle.disk_files.specs.Nothing.{no_octets};

    ghost follows = { λ _. ⊥ };

    ghost model = { λ _. no_octets };

    ghost octet_count = { λ _. 0 };

    ghost is_held = { λ _ _. Unit {0} };

    ghost sound = { λ _ never. absurd never };

    fn facts(&self) -> io::Result<FileFacts> {
        Ok(FileFacts {
            is_regular: self.wrong != Wrong::IsIrregular,
            size: self.octets.len() as u64,
            identity: FileIdentity {
                device: 1,
                number: 2,
            },
        })
    }

    fn hold(&mut self, _access: Access) -> io::Result<bool> {
        Ok(self.wrong != Wrong::IsHeld)
    }

    fn resize(&mut self, size: u64) -> io::Result<()> {
        let size = usize::try_from(size).unwrap_or(0);
        match self.octets.resize(size, 0) {
            Ok(()) => Ok(()),
            Err(_) => Err(io::ErrorKind::OutOfMemory.into()),
        }
    }

    fn settle(&mut self) -> io::Result<()> {
        if self.wrong == Wrong::Settles {
            return Err(io::ErrorKind::Other.into());
        }
        Ok(())
    }

    fn read_some(&mut self, at: u64, into: &mut [u8]) -> io::Result<usize> {
        self.begin()?;
        let count = self.count(at, into.len());
        for (octet, old) in into
            .iter_mut()
            .zip(self.octets.iter().skip(at as usize))
            .take(count)
        {
            *octet = *old;
        }
        Ok(count)
    }

    fn write_some(&mut self, at: u64, from: &[u8]) -> io::Result<usize> {
        self.begin()?;
        let count = self.count(at, from.len());
        for (k, octet) in from.iter().take(count).enumerate() {
            let place = usize::try_from(at).unwrap_or(0).saturating_add(k);
            if let Some(old) = self.octets.get_mut(place) {
                *old = *octet;
            }
        }
        Ok(count)
    }

    fn sync(&mut self) -> io::Result<()> {
        if self.wrong == Wrong::Syncs {
            return Err(io::ErrorKind::Other.into());
        }
        Ok(())
    }

    fn twin(&self) -> io::Result<SlowFile> {
        Err(io::ErrorKind::Unsupported.into())
    }
}
