//! Readers of an archive's blocks.

ghost use Rattle.std.specs.Prelude.{◌≡◌, ◌<◌, ◌≤◌, ℕ, List, IfOk};
ghost use Rattle.once_store.specs.Readers.{IsCached, capacity_of, reader_disk};

use crate::archive::Archive;
use disk_models::{EraseDisk, OnceDisk};
use once_store::ShelfReader;
use std::alloc::AllocError;

impl<E: EraseDisk + Drop, O: OnceDisk + Drop> Archive<E, O> {
    ghost use Rattle.disk_archive.specs.Archives.{once_of};

    /// A reader of the archive's blocks that caches at most `capacity` of them, 1 to 1,024. It fails if an allocation fails,
    /// and only then.
    pub fn reader(&self, capacity: usize) -> Result<ShelfReader<O>, AllocError>
        requires some { 0 < capacity }
        requires few { capacity ≤ 1024 }
        ensures disk { IfOk result (λ reader. reader_disk reader ≡ once_of self.now) }
        ensures capacity { IfOk result (λ reader. capacity_of reader ≡ capacity) }
        ensures none { IfOk result (λ reader. (n : ℕ) (block : List ℕ) → IsCached reader n block → ⊥) }
    {
        self.shelf.reader(self.alloc, capacity)
    }
}
