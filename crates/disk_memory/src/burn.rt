//! What a write-once disk in memory remembers of its burns.

ghost use Rattle.std.specs.Prelude.{◌≡◌, ◌==◌, ◌&&◌, ℕ, List, Bool, true, false, Option, IfOk, length, option_copied, is_some};
ghost use Rattle.disk_memory.specs.Burning.{Burning, burnt_in, tried_block_in, torn_block, torn_burning};
ghost use Rattle.disk_memory.specs.inner.Failing.{burning_kept};

use crate::torn::Torn;
use disk_models::{BLOCK_SIZE, Block};
use std::alloc::{AllocError, Global};
use std::marker::Model;
use std::sync::Arc;

/// A burn: the block's number, the octets that came to stand there, and whether it was burnt whole. Contracts see
/// them as a record.
#[derive(Drop)]
pub struct Burn {
    number: u64,
    block: Arc<Block>,
    whole: bool,
}

impl Model for Burn {
    ghost use Rattle.std.specs.Arc.{arc_value};
    ghost use Rattle.disk_memory.specs.Burning.{Burning};

    ghost Value = { Burning };

    ghost view = { λ b. record { number = b.number; block = arc_value b.block; whole = b.whole } };
}

impl Burn {
    /// The number of its block.
    pub fn number(&self) -> u64
        ensures { result ≡ self.now.number }
    {
        self.number
    }

    /// The octets that came to stand there.
    pub fn block(&self) -> &Block
        ensures { result.now ≡ self.now.block }
    {
        &self.block
    }

    /// Whether the block was burnt whole.
    pub fn is_whole(&self) -> bool
        ensures { result ≡ self.now.whole }
    {
        self.whole
    }

    /// A burn of a block, or what a failure leaves of it.
    pub(crate) fn new(
        alloc: Global,
        number: u64,
        block: &Block,
        failure: Option<&Torn>,
    ) -> Result<Burn, AllocError>
        ensures { IfOk result (λ burn. burn ≡ burning_kept (option_copied failure.entry) number block.now) }
    {
        match failure {
            None => Burn::whole(alloc, number, block),
            Some(torn) => Burn::failed(alloc, number, block, torn),
        }
    }

    /// A block that was burnt whole.
    fn whole(alloc: Global, number: u64, block: &Block) -> Result<Burn, AllocError>
        ensures { IfOk result (λ burn. burn ≡ record { number = number; block = block.now; whole = true }) }
    {
        Ok(Burn {
            number,
            block: Arc::new(alloc, block.clone()?)?,
            whole: true,
        })
    }

    /// What a burn of a block leaves that failed so.
    fn failed(alloc: Global, number: u64, block: &Block, torn: &Torn) -> Result<Burn, AllocError>
        ensures { IfOk result (λ burn. burn ≡ record { number = number; block = torn_block torn.now block.now; whole = false }) }
    {
        Ok(Burn {
            number,
            block: Arc::new(alloc, torn_copy(alloc, torn, block)?)?,
            whole: false,
        })
    }

    /// What a crash leaves of it: it stays whole only if all of it came through.
    pub(crate) fn left(&self, alloc: Global, torn: Option<&Torn>) -> Result<Burn, AllocError>
        ensures { IfOk result (λ burn. burn ≡ torn_burning (option_copied torn.entry) self.now) }
    {
        match torn {
            Some(Torn::New) => self.clone(),
            Some(torn) => Burn::failed(alloc, self.number, &self.block, torn),
            None => Burn::failed(alloc, self.number, &self.block, &Torn::Old),
        }
    }
}

impl Clone for Burn {
    ghost is_clone = { λ one other. other ≡ one };

    fn clone(&self) -> Result<Burn, AllocError> {
        Ok(Burn {
            number: self.number,
            block: self.block.clone()?,
            whole: self.whole,
        })
    }
}

/// A block of zeros over which torn octets were laid.
fn torn_copy(alloc: Global, torn: &Torn, new: &Block) -> Result<Block, AllocError>
    ensures { IfOk result (λ block. block ≡ torn_block torn.now new.now) }
{
    let octets = torn.octets(alloc, new.octets())?;
    let mut block = Block::new(alloc)?;
    let size = octets.len().min(BLOCK_SIZE);
    block.put(0, &octets[..size]);
    Ok(block)
}

/// The first of these burns that burnt this block whole: what it burnt.
pub(crate) fn burnt(burns: &[Burn], number: u64) -> Option<&Block>
    ensures { option_copied result ≡ burnt_in number burns.now }
{
    for burn in burns {
        if burn.is_whole() && burn.number() == number {
            return Some(burn.block());
        }
    }
    None
}

/// What the first of these burns left that tried this block.
pub(crate) fn tried(burns: &[Burn], number: u64) -> Option<&Block>
    ensures { option_copied result ≡ tried_block_in number burns.now }
{
    for burn in burns {
        if burn.number() == number {
            return Some(burn.block());
        }
    }
    None
}

/// Whether one of these burns tried this block.
pub(crate) fn is_tried(burns: &[Burn], number: u64) -> bool
    ensures { result ≡ is_some (tried_block_in number burns.now) }
{
    tried(burns, number).is_some()
}

/// The burns, of which copies share the blocks.
pub(crate) fn copies(alloc: Global, burns: &[Burn]) -> Result<Vec<Burn>, AllocError>
    ensures { IfOk result (λ copies. copies.items ≡ burns.now) }
{
    let mut copies = Vec::with_capacity(alloc, burns.len())?;
    for burn in burns {
        copies.push(burn.clone()?)?;
    }
    Ok(copies)
}
