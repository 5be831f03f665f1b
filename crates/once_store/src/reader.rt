//! Reads and caches blocks.
ghost use Rattle.std.specs.Prelude.{◌≡◌, ◌<◌, ◌≤◌, ◌+◌, ◌-◌, ◌∷◌, ◌↔◌, ◌⊎◌, IsTrue, ℕ, List, Some, None, Err, true, false, IfOk, IsOk, OnOk, OnErr, IsErrOf, IfSome, IfNone, IsSome, min, take};
ghost use Rattle.std.specs.List.{AllByRecursion, AllByRecursion-prop};
ghost use Rattle.std.proofs.Props.{props};
ghost use Rattle.std.specs.NonZero.{non_zero_usize_get};
ghost use Rattle.once_store.specs.Digests.{IsWhole};

use crate::digest::is_whole;
use crate::error::BlockError;
use disk_models::{Block, OnceDisk};
use lru::LruCache;
use std::alloc::{AllocError, AllocFailed, Global};
use std::num::NonZeroUsize;
use std::sync::Arc;

// Whether a block with this number ends in its digest.
fn checked(block: &Block, n: u64) -> Result<(), BlockError>
    ensures whole { IsWhole block.now → IsOk result }
    ensures found { OnOk result (IsWhole block.now) }
    ensures damaged { (IsWhole block.now → ⊥) → result ≡ Err (BlockError.Damaged n) }
{
    if is_whole(block) {
        return Ok(());
    }
    Err(BlockError::Damaged(n))
}

/// Reads blocks of a write-once disk, and caches the most recently used ones. Each cached block ends in its digest.
///
/// A reader relies on a `Seen` that knows the blocks which it caches. A later one knows them too.
#[derive(Drop)]
pub struct ShelfReader<O: OnceDisk + Drop> {
    disk: Arc<O>,
    kept: LruCache<u64, Block>,
    alloc: Global,
    ghost whole: { AllByRecursion (λ entry. IsWhole entry.1) kept.entries } by { AllByRecursion-prop (λ entry. IsWhole entry.1) (λ entry. Prim.hlevel props) kept.entries },
}

impl<O: OnceDisk + Drop> ShelfReader<O> {
    ghost use Rattle.once_store.specs.Readers.{IsCached, KnowsCached, capacity_of, kept_blocks, kept_count, reader_disk, without};

    /// A reader of a disk that caches at most `capacity` blocks. It has read none.
    pub(crate) fn new(
        alloc: Global,
        disk: Arc<O>,
        capacity: NonZeroUsize,
    ) -> Result<Self, AllocError>
        ensures disk { IfOk result (λ reader. reader_disk reader ≡ disk.value) }
        ensures capacity { IfOk result (λ reader. capacity_of reader ≡ non_zero_usize_get capacity) }
        ensures none { IfOk result (λ reader. (n : ℕ) (block : List ℕ) → IsCached reader n block → ⊥) }
    {
        let kept = LruCache::new(alloc, capacity)?;
        Ok(ShelfReader { disk, kept, alloc })
    }

    /// Brings a block into the cache: it is read if it isn't there.
    ///
    /// It takes no lock. If the cache is full, the least recently used block makes room. A block
    /// that is refused isn't cached.
    pub fn fetch(&mut self, seen: &mut O::Seen, n: u64) -> Result<(), BlockError>
        ensures kept { OnOk result ((block : List ℕ) × IsCached self.new n block × IsWhole block) }
        ensures octets { O.honest_seen (reader_disk self.old) seen.old → KnowsCached O.OnceDisk self.old seen.old → (block : List ℕ) → O.known seen.old n ≡ Some block → OnOk result (IsCached self.new n block × IsWhole block) }

        // A cached block stays, isn't read again, and none makes room for it.
        ensures hit { (block : List ℕ) → IsCached self.old n block → IsOk result }
        ensures unread { (block : List ℕ) → IsCached self.old n block → seen.new ≡ seen.old }
        ensures all { (block : List ℕ) → IsCached self.old n block → (m : ℕ) (other : List ℕ) → IsCached self.old m other → IsCached self.new m other }

        // The order of use: the block comes first, and the least recently used one makes room, one at most.
        ensures first { (other : List ℕ) → IsCached self.old n other → (block : List ℕ) × (kept_blocks self.new ≡ (n, block) ∷ without n (kept_blocks self.old)) }
        ensures added { ((block : List ℕ) → IsCached self.old n block → ⊥) → OnOk result ((block : List ℕ) × (kept_blocks self.new ≡ (n, block) ∷ take (capacity_of self.old - 1) (kept_blocks self.old))) }
        ensures left { OnErr result ((kept_blocks self.new ≡ kept_blocks self.old) ⊎ (kept_blocks self.new ≡ take (capacity_of self.old - 1) (kept_blocks self.old))) }
        ensures one { kept_count self.old ≤ kept_count self.new + 1 }

        // None makes room before the cache is full, and a refusal adds none.
        ensures stays { kept_count self.old < capacity_of self.old → (m : ℕ) (other : List ℕ) → IsCached self.old m other → IsCached self.new m other }
        ensures refused { OnErr result ((m : ℕ) (other : List ℕ) → IsCached self.new m other → IsCached self.old m other) }

        ensures knows { O.honest_seen (reader_disk self.old) seen.old → KnowsCached O.OnceDisk self.old seen.old → IsSome (O.known seen.old n) → KnowsCached O.OnceDisk self.new seen.new }
        ensures damaged { O.honest_seen (reader_disk self.old) seen.old → (block : List ℕ) → n < O.block_count (reader_disk self.old) → O.known seen.old n ≡ Some block → (m : ℕ) → result ≡ Err (BlockError.Damaged m) → (m ≡ n) × (IsWhole block → ⊥) }
        ensures beyond { O.block_count (reader_disk self.old) ≤ n → ((block : List ℕ) → IsCached self.old n block → ⊥) → result ≡ Err (BlockError.Damaged n) }
        ensures number { (m : ℕ) → result ≡ Err (BlockError.Damaged m) → m ≡ n }
        ensures same { O.honest_seen (reader_disk self.old) seen.old → O.known seen.new ≡ O.known seen.old }
        ensures disk { reader_disk self.new ≡ reader_disk self.old }
        ensures capacity { capacity_of self.new ≡ capacity_of self.old }
        ensures honest { O.honest_seen (reader_disk self.old) seen.old ↔ O.honest_seen (reader_disk self.old) seen.new }
        ensures quiet { (IsErrOf result BlockError.Fault → ⊥) → O.seen_fault_count seen.new ≡ O.seen_fault_count seen.old }
        ensures counted { IsErrOf result BlockError.Fault → O.seen_fault_count seen.new ≡ min (O.seen_fault_count seen.old + 1) 18446744073709551615 }
    {
        if self.touch(n) {
            return Ok(());
        }
        if n >= self.disk.blocks() {
            return Err(BlockError::Damaged(n));
        }
        let mut block = self.room()?;
        self.disk.read(seen, n, &mut block)?;
        checked(&block, n)?;
        self.keep(n, block)?;
        Ok(())
    }

    /// A cached block. Call [`ShelfReader::fetch`] before.
    pub fn block(&self, n: u64) -> Option<&Block>
        ensures some { IfSome result (λ block. IsCached self.now n block.now) }
        ensures none { IfNone result ((block : List ℕ) → IsCached self.now n block → ⊥) }
    {
        self.kept.peek(&n)
    }

    /// How many blocks it caches, which is never more than its capacity.
    pub fn kept(&self) -> usize
        ensures count { result ≡ kept_count self.now }
        ensures few { result ≤ capacity_of self.now }
    {
        self.kept.len()
    }

    // Makes a block the most recently used one. Returns whether it is cached.
    fn touch(&mut self, n: u64) -> bool
        ensures kept { IsTrue result → (block : List ℕ) × IsCached self.new n block × IsWhole block }
        ensures found { (block : List ℕ) → IsCached self.old n block → result ≡ true }
        ensures missed { result ≡ false → self.new.kept ≡ self.old.kept }
        ensures first { IsTrue result → (block : List ℕ) × (kept_blocks self.new ≡ (n, block) ∷ without n (kept_blocks self.old)) }
        ensures count { kept_count self.new ≡ kept_count self.old }
        ensures fewer { (m : ℕ) (block : List ℕ) → IsCached self.new m block → IsCached self.old m block }
        ensures all { (m : ℕ) (block : List ℕ) → IsCached self.old m block → IsCached self.new m block }
        ensures disk { reader_disk self.new ≡ reader_disk self.old }
        ensures capacity { capacity_of self.new ≡ capacity_of self.old }
    {
        self.kept.promote(&n)
    }

    // A block to read into: that of the entry that makes room, if the cache is full.
    fn room(&mut self) -> Result<Block, AllocError>
        ensures fewer { (m : ℕ) (block : List ℕ) → IsCached self.new m block → IsCached self.old m block }
        ensures stays { kept_count self.old < capacity_of self.old → self.new.kept ≡ self.old.kept }
        ensures last { capacity_of self.old ≤ kept_count self.old → kept_blocks self.new ≡ take (capacity_of self.old - 1) (kept_blocks self.old) }
        ensures few { kept_count self.old ≤ capacity_of self.old }
        ensures disk { reader_disk self.new ≡ reader_disk self.old }
        ensures capacity { capacity_of self.new ≡ capacity_of self.old }
    {
        if self.kept.len() < self.kept.cap().get() {
            return Block::new(self.alloc);
        }
        match self.kept.pop_lru() {
            Some((_, block)) => Ok(block),
            None => Block::new(self.alloc),
        }
    }

    // Caches a block.
    fn keep(&mut self, n: u64, block: Block) -> Result<(), AllocFailed<(u64, Block)>>
        requires { IsWhole block }
        ensures kept { OnOk result (IsCached self.new n block) }
        ensures added { ((other : List ℕ) → IsCached self.old n other → ⊥) → OnOk result (kept_blocks self.new ≡ (n, block) ∷ take (capacity_of self.old - 1) (kept_blocks self.old)) }
        ensures stays { kept_count self.old < capacity_of self.old → ((other : List ℕ) → IsCached self.old n other → ⊥) → (m : ℕ) (other : List ℕ) → IsCached self.old m other → IsCached self.new m other }
        ensures refused { OnErr result (self.new.kept ≡ self.old.kept) }
        ensures only { (m : ℕ) (other : List ℕ) → IsCached self.new m other → IsCached self.old m other ⊎ ((m ≡ n) × (other ≡ block)) }
        ensures disk { reader_disk self.new ≡ reader_disk self.old }
        ensures capacity { capacity_of self.new ≡ capacity_of self.old }
    {
        self.kept.put(n, block)?;
        Ok(())
    }
}
